// Accepted calls on the transmitter.
ghost use Rattle.std.specs.Prelude.{◌≡◌};
ghost use Rattle.block.specs.Ranges.{Usable};
ghost use Rattle.channel_calls.specs.Refusals.{transmit_call_refusal};
ghost use Rattle.channel_groups.specs.Groups.{transmit_answer, transmit_after, transmit_signal};
ghost use Rattle.channel_calls.specs.Answer.{Done, accepted};

use channel_calls::calls::{Did, Reply, TransmitCall};

// A call that answers nothing and signals nothing.
fn done() -> Did
    ensures answer { accepted result.reply ≡ Done }
    ensures signal { result.signal ≡ 0 }
{
    Did {
        reply: Reply::Done,
        signal: 0,
    }
}

pub fn on_transmit(block: &mut [u32], call: TransmitCall) -> Did
    requires { (Usable block.old) × (transmit_call_refusal call block.old ≡ 0) }
    ensures answer { accepted result.reply ≡ transmit_answer call block.old }
    ensures signal { result.signal ≡ transmit_signal call block.old }
    ensures after { block.new ≡ transmit_after call block.old }
{
    match call {
        TransmitCall::WriteFifo(word) => {
            transmit_controls::writes::write_fifo(block, word);
            done()
        }
        TransmitCall::WriteAsync(word) => {
            transmit_controls::writes::write_async(block, word);
            done()
        }
        TransmitCall::Trigger => {
            transmit_controls::states::trigger(block);
            done()
        }
        TransmitCall::Pause => {
            transmit_controls::states::pause(block);
            done()
        }
        TransmitCall::Stop => {
            fifos::clearing::stop(block);
            done()
        }
        TransmitCall::Step => {
            let stepped = transmit::step::step(block);
            let output = stepped.output;
            Did {
                reply: Reply::Stepped(output),
                signal: stepped.signal,
            }
        }
    }
}
