// Accepted calls on the match set, the schedule RAM and the message RAM.
ghost use Rattle.std.specs.Prelude.{◌≡◌};
ghost use Rattle.block.specs.Layout.{Whole};
ghost use Rattle.channel_calls.specs.Refusals.{memory_call_refusal};
ghost use Rattle.channel_calls.specs.Answer.{accepted};
ghost use Rattle.channel_groups.specs.Groups.{memory_answer, memory_after};

use channel_calls::calls::{MemoryCall, Reply};

pub fn on_memory(block: &mut [u32], call: MemoryCall) -> Reply
    requires { (Whole block.old) × (memory_call_refusal call ≡ 0) }
    ensures answer { accepted result ≡ memory_answer call block.old }
    ensures after { block.new ≡ memory_after call block.old }
{
    match call {
        MemoryCall::WriteMatch(index, mark) => {
            memories::matching::write(block, index, mark);
            Reply::Done
        }
        MemoryCall::ReadMatch(index) => Reply::Value(memories::matching::read(block, index)),
        MemoryCall::WriteSchedule(address, command) => {
            memories::rams::write(block, block::layout::SCHEDULE_RAM, address, command);
            Reply::Done
        }
        MemoryCall::ReadSchedule(address) => Reply::Value(memories::rams::read(
            block,
            block::layout::SCHEDULE_RAM,
            address,
        )),
        MemoryCall::WriteMessage(address, word) => {
            memories::rams::write(block, block::layout::MESSAGE_RAM, address, word);
            Reply::Done
        }
        MemoryCall::ReadMessage(address) => Reply::Value(memories::rams::read(
            block,
            block::layout::MESSAGE_RAM,
            address,
        )),
    }
}
