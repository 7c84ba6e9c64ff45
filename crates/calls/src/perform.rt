// One item performed on a module's lent memory.
ghost use Rattle.std.specs.Prelude.{◌≡◌};
ghost use Rattle.items.specs.Items.{decoded};
ghost use Rattle.calls.specs.Listed.{Lists};
ghost use Rattle.calls.specs.Performed.{item_numbers, item_after};

use crate::answers::Numbers;

// The answer's number of an item that is no call, as C and the programs have it.
pub const NO_CALL: u32 = 42;

// Performs an item's access and lists its answer: any memory and any words. An item that is no call changes nothing.
pub fn perform_item(mem: &mut [u32], op: u32, channel: u32, a: u32, b: u32) -> Numbers
    ensures answer { Lists result (item_numbers (decoded op channel a b) mem.old) }
    ensures after { mem.new ≡ item_after (decoded op channel a b) mem.old }
{
    match items::decode(op, channel, a, b) {
        None => Numbers {
            count: 1,
            words: [NO_CALL, 0, 0, 0, 0, 0, 0, 0],
        },
        Some(access) => {
            let answer = registers::perform::perform(mem, access);
            crate::answers::numbers_of(access, answer)
        }
    }
}
