// Accepted calls on the status masks. A status or pending read is answered after the rule.
ghost use Rattle.std.specs.Prelude.{◌≡◌};
ghost use Rattle.block.specs.Layout.{Whole};
ghost use Rattle.channel_calls.specs.Answer.{accepted};
ghost use Rattle.channel_groups.specs.Groups.{status_answer, status_after};
ghost use Rattle.channel_groups.specs.Groups.{status_shown};

use channel_calls::calls::{Reply, StatusCall};
use channel_calls::numbers::Answered;

pub fn on_status(block: &mut [u32], call: StatusCall) -> Reply
    requires { Whole block.old }
    ensures answer { accepted result ≡ status_answer call block.old }
    ensures after { block.new ≡ status_after call block.old }
{
    match call {
        StatusCall::ReadStatus => Reply::Done,
        StatusCall::ClearLatch(mask) => {
            status::rule::clear_latch(block, mask);
            Reply::Done
        }
        StatusCall::WriteEnable(mask) => {
            block[block::layout::ENABLE] = mask;
            Reply::Done
        }
        StatusCall::ReadEnable => Reply::Value(block[block::layout::ENABLE]),
        StatusCall::WriteLevelMask(mask) => {
            block[block::layout::LEVEL_MASK] = mask;
            Reply::Done
        }
        StatusCall::ReadLevelMask => Reply::Value(block[block::layout::LEVEL_MASK]),
        StatusCall::ReadPending => Reply::Done,
    }
}

// What a call shows of the block that the rule left.
pub fn show<A: Answered>(block: &[u32], call: StatusCall, answer: A) -> A
    requires { Whole block.now }
    ensures { A.answered result ≡ status_shown call block.now (A.answered answer) }
{
    match call {
        StatusCall::ReadStatus => A::accepted(Reply::Value(block[block::layout::LATCH])),
        StatusCall::ReadPending => A::accepted(Reply::Value(status::rule::pending(block))),
        StatusCall::ClearLatch(_) => answer,
        StatusCall::WriteEnable(_) => answer,
        StatusCall::ReadEnable => answer,
        StatusCall::WriteLevelMask(_) => answer,
        StatusCall::ReadLevelMask => answer,
    }
}
