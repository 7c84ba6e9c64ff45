// Reads of the counts, the levels and the async word.
ghost use Rattle.std.specs.Prelude.{◌≡◌};
ghost use Rattle.block.specs.Layout.{Whole};
ghost use Rattle.channel_calls.specs.Answer.{accepted};
ghost use Rattle.channel_groups.specs.Groups.{count_answer};

use block::layout::{ASYNC_MARK, ASYNC_WORD};
use channel_calls::calls::{ReadCall, Reply};

pub fn on_read(block: &[u32], call: ReadCall) -> Reply
    requires { Whole block.now }
    ensures { accepted result ≡ count_answer call block.now }
{
    match call {
        ReadCall::ReadCounts => Reply::Fates(
            block[block::layout::RECEIVE_ACCEPTED],
            block[block::layout::RECEIVE_READ],
            block[block::layout::RECEIVE_CLEARED],
            block[block::layout::RECEIVE_OVERWRITTEN],
            block[block::layout::TRANSMIT_ACCEPTED],
            block[block::layout::TRANSMIT_SENT],
            block[block::layout::TRANSMIT_CLEARED],
        ),
        ReadCall::ReadReceiveLevel => Reply::Value(block[block::layout::RECEIVE_LEVEL]),
        ReadCall::ReadTransmitLevel => Reply::Value(block[block::layout::TRANSMIT_LEVEL]),
        ReadCall::ReadAsync => {
            let mark = block[ASYNC_MARK];
            if mark == 0 {
                return Reply::Waiting(mark, 0);
            }
            Reply::Waiting(mark, block[ASYNC_WORD])
        }
    }
}
