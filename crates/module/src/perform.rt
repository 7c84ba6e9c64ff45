// The one entry to a module's memory.
ghost use Rattle.std.specs.Prelude.{◌≡◌};
ghost use Rattle.channel_calls.specs.Answer.{answered};
ghost use Rattle.module.specs.Perform.{answer, after};

use crate::calls::Call;
use crate::on_channel::on_channel;
use block::refusal::Refusal;
use channel_calls::calls::Reply;

// Performs a call on lent memory: any memory and any numbers.
pub fn perform(mem: &mut [u32], call: Call) -> Result<Reply, Refusal>
    ensures answer { answered result ≡ answer call mem.old }
    ensures after { mem.new ≡ after call mem.old }
{
    match call {
        Call::PowerUp(count) => {
            power::power_up(mem, count)?;
            Ok(Reply::Done)
        }
        Call::Reset => {
            reset::reset(mem)?;
            Ok(Reply::Done)
        }
        Call::Wide(k) => wide::on_module::on_module(mem, k),
        Call::On(channel, k) => on_channel(mem, channel, k),
    }
}
