// The rule on every channel: "Module-wide writes apply the rule to every channel."
ghost use Rattle.std.specs.Prelude.{◌≡◌, ◌≤◌, length};
ghost use Rattle.block.specs.Layout.{word, Whole};
ghost use Rattle.status.specs.Status.{holding, ruled};
ghost use Rattle.frame.specs.Layout.{count, Framed, with_block};
ghost use Rattle.wide.specs.Rule.{ruled_channel, ruled_to};

use block::layout::WORDS;
use frame::layout::{COUNT, COUNTERS, MODULE_WORDS, THRESHOLD};

// Runs the rule on a block, with the fault before a write and after it, 0 or 1.
fn rule_block(block: &mut [u32], before: u32, after: u32)
    requires { (Whole block.old) × (before ≤ 1) × (after ≤ 1) }
    ensures { block.new ≡ ruled (holding before block.old) (holding after block.old) block.old }
{
    let conditions = status::rule::conditions(block);
    status::rule::rule(
        block,
        conditions + status::rule::FAULT * before,
        conditions + status::rule::FAULT * after,
    );
}

// Runs the rule on a channel, with the threshold as it was before a write.
fn rule_channel(mem: &mut [u32], channel: u32, old: u32)
    requires { (Framed (length mem.old) (word mem.old count)) × (1 ≤ channel) × (channel ≤ word mem.old count) }
    ensures { mem.new ≡ with_block mem.old channel (ruled_channel old mem.old channel) }
{
    let counter = mem[COUNTERS + ((channel - 1) as usize)];
    let before = status::rule::fault(counter, old);
    let after = status::rule::fault(counter, mem[THRESHOLD]);
    let from = MODULE_WORDS + ((channel - 1) as usize) * WORDS;
    let to = from + WORDS;
    rule_block(&mut mem[from..to], before, after);
}

// Runs the rule on every channel, with the threshold as it was before a write.
pub fn rule_all(mem: &mut [u32], old: u32)
    requires { Framed (length mem.old) (word mem.old count) }
    ensures { mem.new ≡ ruled_to old (word mem.old count) mem.old }
{
    let count = mem[COUNT];
    for ruled in 0..count {
        rule_channel(mem, ruled + 1, old);
    }
}
