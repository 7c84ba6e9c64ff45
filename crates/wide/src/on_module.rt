// A module-wide call on a module's memory.
ghost use Rattle.std.specs.Prelude.{◌≡◌, length, slice_set};
ghost use Rattle.block.specs.Layout.{word};
ghost use Rattle.block.specs.Refusals.{leave_unless};
ghost use Rattle.channel_calls.specs.Answer.{accepted, answered};
ghost use Rattle.channel_calls.specs.Answers.{answer_unless};
ghost use Rattle.frame.specs.Layout.{count, Framed};
ghost use Rattle.wide.specs.Effects.{place_of, PartWord};
ghost use Rattle.wide.specs.Refusals.{call_refusal};
ghost use Rattle.wide.specs.Rule.{ruled_all};
ghost use Rattle.wide.specs.OnModule.{effect_answer, effect_after, wide_answer, wide_after};

use crate::calls::{WideCall, WideEffect};
use crate::effects::effect_of;
use crate::refusals::effect_refusal;
use crate::rule::rule_all;
use block::refusal::Refusal;
use channel_calls::calls::Reply;
use frame::channels::wide_refusal;
use frame::layout::{STAMP, THRESHOLD};

// Stores a word of the module part behind the count, and runs the rule on every channel.
fn store(mem: &mut [u32], at: usize, value: u32)
    requires { (Framed (length mem.old) (word mem.old count)) × (PartWord at) }
    ensures { mem.new ≡ ruled_all mem.old (slice_set mem.old at value) }
{
    let old = mem[THRESHOLD];
    mem[at] = value;
    rule_all(mem, old);
}

// What an accepted call does.
fn accept(mem: &mut [u32], effect: WideEffect) -> Reply
    requires { (Framed (length mem.old) (word mem.old count)) × (PartWord (place_of effect)) }
    ensures answer { accepted result ≡ effect_answer effect mem.old }
    ensures after { mem.new ≡ effect_after effect mem.old }
{
    match effect {
        WideEffect::Shows(at) => Reply::Value(mem[at]),
        WideEffect::Stores(at, value) => {
            store(mem, at, value);
            Reply::Done
        }
        WideEffect::Advances(ticks) => {
            let stamp = mem[STAMP];
            store(mem, STAMP, stamp.wrapping_add(ticks));
            Reply::Done
        }
    }
}

// A module-wide call: refused, or done.
pub fn on_module(mem: &mut [u32], call: WideCall) -> Result<Reply, Refusal>
    ensures answer { answered result ≡ answer_unless (call_refusal call mem.old) (wide_answer call mem.old) }
    ensures after { mem.new ≡ leave_unless (call_refusal call mem.old) (wide_after call mem.old) mem.old }
{
    wide_refusal(mem)?;
    let effect = effect_of(call);
    effect_refusal(effect)?;
    Ok(accept(mem, effect))
}
