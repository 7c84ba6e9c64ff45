// The kinds of records, and the sizes of their parts.
ghost use Rattle.std.specs.Prelude.{◌≡◌};
ghost use Rattle.capture.specs.Format.{commands_of, lent_of, known, length_of};
ghost use Rattle.capture.specs.Numbers.{kind_number, Names};

use crate::refusal::Refusal;

#[derive(Clone, Copy, Debug, PartialEq, Eq)]
pub enum Kind {
    Arrival,
    // A schedule image of the old size.
    OldImage,
    // A schedule image.
    Image,
}

const OLD_COMMANDS: usize = 256;

const COMMANDS: usize = 512;

// The lent words that reading an image, old or new, needs and fills.
pub const LENT_WORDS: usize = COMMANDS;

// The bytes of length, kind and channel.
pub const HALF: usize = 2;

// The bytes of a word, a stamp or a command.
pub const WHOLE: usize = 4;

// The length of an arrival: kind, channel, word and stamp.
pub const ARRIVAL_LENGTH: usize = HALF + HALF + (WHOLE + WHOLE);

// No record is longer, of whatever kind: its length has two bytes.
pub const LONGEST: usize = HALF + 65535;

// The channels of a record are 1 to this one.
pub const CHANNELS: u32 = 12;

// The number of a kind in a record's bytes.
impl From<Kind> for u32 {
    ghost from_gives = { λ kind number. number ≡ kind_number kind };

    fn from(kind: Kind) -> u32 {
        match kind {
            Kind::Arrival => 1,
            Kind::OldImage => 2,
            Kind::Image => 3,
        }
    }
}

// The kind that has a number.
impl TryFrom<u32> for Kind {
    type Error = Refusal;

    ghost try_from_gives = { Names };

    fn try_from(number: u32) -> Result<Kind, Refusal> {
        match number {
            1 => Ok(Kind::Arrival),
            2 => Ok(Kind::OldImage),
            3 => Ok(Kind::Image),
            _ => Err(Refusal::UnknownKind),
        }
    }
}

impl Kind {
    // How many commands a record of the kind has.
    pub fn commands(self) -> usize
        ensures { result ≡ commands_of (kind_number self) }
    {
        match self {
            Kind::Arrival => 0,
            Kind::OldImage => OLD_COMMANDS,
            Kind::Image => COMMANDS,
        }
    }

    // How many lent words reading a record of the kind fills.
    pub fn lent(self) -> usize
        ensures { result ≡ lent_of (kind_number self) }
    {
        match self {
            Kind::Arrival => 0,
            Kind::OldImage | Kind::Image => LENT_WORDS,
        }
    }

    // The length of a record of the kind: the bytes of kind and body.
    pub fn length(self) -> usize
        ensures { result ≡ length_of (kind_number self) }
    {
        match self {
            Kind::Arrival => ARRIVAL_LENGTH,
            Kind::OldImage | Kind::Image => HALF + HALF + WHOLE * self.commands(),
        }
    }
}

// This and the next three take any number, as bytes and C have it. How many commands a number's kind has; a number of no kind has none.
pub fn commands_of(kind: u32) -> usize
    ensures { result ≡ commands_of kind }
{
    match Kind::try_from(kind) {
        Ok(kind) => kind.commands(),
        Err(_) => 0,
    }
}

// How many lent words reading a number's kind fills.
pub fn lent_of(kind: u32) -> usize
    ensures { result ≡ lent_of kind }
{
    match Kind::try_from(kind) {
        Ok(kind) => kind.lent(),
        Err(_) => 0,
    }
}

pub fn is_known(kind: u32) -> bool
    ensures { result ≡ known kind }
{
    Kind::try_from(kind).is_ok()
}

// The length of a record of a number's kind; for a number of no kind that of an empty body.
pub fn length_of(kind: u32) -> usize
    ensures { result ≡ length_of kind }
{
    match Kind::try_from(kind) {
        Ok(kind) => kind.length(),
        Err(_) => HALF + HALF,
    }
}
