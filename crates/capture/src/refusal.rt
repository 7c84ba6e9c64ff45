// Why a record is refused.
ghost use Rattle.std.specs.Prelude.{◌≡◌};
ghost use Rattle.capture.specs.Numbers.{refusal_number};

// The refusals, in the order of their tests.
#[derive(Clone, Copy, Debug, PartialEq, Eq)]
pub enum Refusal {
    // Fewer bytes are left than a length has, or than the length asks.
    Cut,
    // The length, or on writing the count of commands, is not that of the kind.
    WrongLength,
    UnknownKind,
    WrongChannel,
    // What is lent for the output is too short.
    NoRoom,
}

// The numbers by which C hears of them.
impl From<Refusal> for u32 {
    ghost from_gives = { λ refusal number. number ≡ refusal_number refusal };

    fn from(refusal: Refusal) -> u32 {
        match refusal {
            Refusal::Cut => 20,
            Refusal::WrongLength => 21,
            Refusal::UnknownKind => 22,
            Refusal::WrongChannel => 23,
            Refusal::NoRoom => 24,
        }
    }
}
