// Accepted arrivals, and reads of what was received.
ghost use Rattle.std.specs.Prelude.{◌≡◌};
ghost use Rattle.block.specs.Ranges.{Usable};
ghost use Rattle.channel_calls.specs.Refusals.{receive_call_refusal};
ghost use Rattle.channel_calls.specs.Answer.{accepted};
ghost use Rattle.channel_groups.specs.Groups.{receive_answer, receive_after, receive_signal};

use channel_calls::calls::{Did, ReceiveCall, Reply};

pub fn on_receive(block: &mut [u32], stamp: u32, call: ReceiveCall) -> Did
    requires { (Usable block.old) × (receive_call_refusal call block.old ≡ 0) }
    ensures answer { accepted result.reply ≡ receive_answer call block.old }
    ensures signal { result.signal ≡ receive_signal call block.old }
    ensures after { block.new ≡ receive_after stamp call block.old }
{
    match call {
        ReceiveCall::Arrive(word) => {
            let arrived = receive::arrive(block, stamp, word);
            let arrival = arrived.arrival;
            Did {
                reply: Reply::Arrived(arrival),
                signal: arrived.signal,
            }
        }
        ReceiveCall::ReadFifo => {
            let entry = receive_reads::read_fifo(block);
            Did {
                reply: Reply::Entry(entry.status, entry.word, entry.stamp),
                signal: 0,
            }
        }
        ReceiveCall::ReadMailbox(index) => {
            let entry = receive_reads::read_mailbox(block, index);
            Did {
                reply: Reply::Entry(entry.status, entry.word, entry.stamp),
                signal: 0,
            }
        }
    }
}
