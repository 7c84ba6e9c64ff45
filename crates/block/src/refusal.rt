// Why a call is refused: "Memory and answer numbers" of the description, and the register front's own three.
ghost use Rattle.std.specs.Prelude.{◌≡◌};
ghost use Rattle.block.specs.Refusals.{refusal_number};

#[derive(Clone, Copy, PartialEq, Eq)]
pub enum Refusal {
    // Memory is too short.
    Short,
    // A stored number is outside its range.
    Unsound,
    // There is no such channel.
    Channel,
    // An argument is outside its range.
    Range,
    // The channel's mode does not allow the call.
    Mode,
    // There is no room.
    Full,
    // There is nothing to read.
    Empty,
    // A register's address is no multiple of four.
    NotAligned,
    // No register stands at the address.
    NoRegister,
    // The register is read only, or written only.
    WrongWay,
}

// The refusal's number in the table.
impl From<Refusal> for u32 {
    ghost from_gives = { λ refusal number. number ≡ refusal_number refusal };

    fn from(refusal: Refusal) -> u32 {
        match refusal {
            Refusal::Short => 1,
            Refusal::Unsound => 2,
            Refusal::Channel => 3,
            Refusal::Range => 4,
            Refusal::Mode => 5,
            Refusal::Full => 6,
            Refusal::Empty => 7,
            Refusal::NotAligned => 30,
            Refusal::NoRegister => 31,
            Refusal::WrongWay => 32,
        }
    }
}
