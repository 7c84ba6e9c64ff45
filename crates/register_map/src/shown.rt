// How a register shows what its call answers.
ghost use Rattle.std.specs.Prelude.{◌≡◌};
ghost use Rattle.channel_calls.specs.Answer.{accepted, answered_by};
ghost use Rattle.register_map.specs.Shown.{status_bits, bits_of, shown};

use channel_calls::calls::Reply;
use channel_calls::numbers::Numbered;

// Which bits of a value a register has.
#[derive(Drop)]
pub enum Bits {
    AllBits,
    // A command's, D15 to D0.
    CommandBits,
    // The seven conditions at the manual's places.
    StatusBits,
}

// The bits of a command.
const COMMAND: u32 = 0x1_0000;

// The weights of the conditions in Channel Status.
const ALMOST_FULL: u32 = 0x2;

const FULL: u32 = 0x4;

const TRANSMIT_ALMOST_EMPTY: u32 = 0x20;

const TRANSMIT_EMPTY: u32 = 0x10;

const PARITY_ERROR: u32 = 0x80;

const SCHEDULE_INTERRUPT: u32 = 0x400;

const TEST_ERROR: u32 = 0x200;

// A latch mask, conditions 0 to 6, at the manual's places.
pub fn status_bits(latch: u32) -> u32
    ensures { result ≡ status_bits latch }
{
    latch % 2 * ALMOST_FULL
        + latch / 2 % 2 * FULL
        + latch / 4 % 2 * TRANSMIT_ALMOST_EMPTY
        + latch / 8 % 2 * TRANSMIT_EMPTY
        + latch / 16 % 2 * PARITY_ERROR
        + latch / 32 % 2 * SCHEDULE_INTERRUPT
        + latch / 64 % 2 * TEST_ERROR
}

fn bits_of(bits: Bits, value: u32) -> u32
    ensures { result ≡ bits_of bits value }
{
    match bits {
        Bits::AllBits => value,
        Bits::CommandBits => value % COMMAND,
        Bits::StatusBits => status_bits(value),
    }
}

// A register's answer by that of its call: a value, 0 for a write that is done, or the same refusal.
pub fn shown<E: Numbered>(bits: Bits, answer: Result<Reply, E>) -> Result<Reply, E>
    ensures { answered_by E.number result ≡ shown bits (answered_by E.number answer) }
{
    match answer {
        Ok(reply) => Ok(value_shown(bits, reply)),
        Err(refusal) => Err(refusal),
    }
}

// The value that a register shows of a reply.
fn value_shown(bits: Bits, reply: Reply) -> Reply
    ensures { accepted result ≡ shown bits (accepted reply) }
{
    match reply {
        Reply::Done => Reply::Value(0),
        Reply::Value(x) => Reply::Value(bits_of(bits, x)),
        Reply::Waiting(_, word) => Reply::Value(bits_of(bits, word)),
        Reply::Fates(_, _, _, _, _, _, _) => Reply::Value(0),
        Reply::Arrived(_) => Reply::Value(0),
        Reply::Entry(_, _, _) => Reply::Value(0),
        Reply::Stepped(_) => Reply::Value(0),
    }
}
