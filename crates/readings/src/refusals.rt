// Why a word is not read, and why a value is not put into one.
ghost use Rattle.std.specs.Prelude.{◌≡◌, ℕ};
ghost use Rattle.readings.specs.declared.refusals.Refusal.TheVariants.{NoEntry};
ghost use Rattle.readings.specs.Refusals.{number};

use label_list::kinds::UnknownKind;

// The refusals of readings and encodings.
#[derive(Clone, Copy, PartialEq, Eq)]
pub enum Refusal {
    ListRefused,
    NoEntry,
    NoSign,
    DigitAboveNine,
    OutsideRange,
}

impl From<Refusal> for u32 {
    ghost from_gives = { λ refusal n. n ≡ number refusal };

    fn from(refusal: Refusal) -> u32 {
        match refusal {
            Refusal::ListRefused => 60,
            Refusal::NoEntry => 61,
            Refusal::NoSign => 62,
            Refusal::DigitAboveNine => 63,
            Refusal::OutsideRange => 64,
        }
    }
}

// A number of no kind is refused as a label that is not listed: a list with one in it is refused as a whole.
impl From<UnknownKind> for Refusal {
    ghost from_gives = { λ _ refusal. refusal ≡ NoEntry };

    fn from(_unknown: UnknownKind) -> Self {
        Self::NoEntry
    }
}

// What C hears of by a number: a refusal, or the number itself where a caller has it already.
pub trait Numbered {
    ghost number: { Self → ℕ };

    fn number(&self) -> u32
        ensures { result ≡ number self.now };
}

impl Numbered for Refusal {
    ghost number = { Rattle.readings.specs.Refusals.number };

    fn number(&self) -> u32 {
        u32::from(*self)
    }
}

impl Numbered for u32 {
    ghost number = { λ number. number };

    fn number(&self) -> u32 {
        *self
    }
}
