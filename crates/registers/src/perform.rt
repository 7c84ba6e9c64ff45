// The entry for accesses.
ghost use Rattle.std.specs.Prelude.{◌≡◌, Ok};
ghost use Rattle.channel_calls.specs.Answer.{answered};
ghost use Rattle.register_map.specs.Turns.{turned_to};
ghost use Rattle.registers.specs.Access.{turned_answer, turned_after, access_answer, access_after};

use crate::accesses::Access;
use block::refusal::Refusal;
use channel_calls::calls::Reply;
use register_map::turned::Asked;

// Performs what a register access asks for.
fn perform_asked(mem: &mut [u32], asked: Asked) -> Result<Reply, Refusal>
    ensures answer { answered result ≡ turned_answer (turned_to (Ok asked)) mem.old }
    ensures after { mem.new ≡ turned_after (turned_to (Ok asked)) mem.old }
{
    match asked {
        Asked::OneCall(channel, call, bits) => {
            let answer = module::on_channel::on_channel(mem, channel, call);
            register_map::shown::shown(bits, answer)
        }
        Asked::EachNamed(control, mask) => crate::masked::masked(mem, control, mask),
    }
}

// Performs an access on lent memory: any memory and any numbers.
pub fn perform(mem: &mut [u32], access: Access) -> Result<Reply, Refusal>
    ensures answer { answered result ≡ access_answer access mem.old }
    ensures after { mem.new ≡ access_after access mem.old }
{
    match access {
        Access::Direct(call) => module::perform::perform(mem, call),
        Access::ReadRegister(address) => {
            perform_asked(mem, register_map::turned::read_turned(address)?)
        }
        Access::WriteRegister(address, value) => {
            perform_asked(mem, register_map::turned::write_turned(address, value)?)
        }
    }
}
