// What the words of a label carry, and the numbers that stand for it in a label list.
ghost use Rattle.std.specs.Prelude.{◌≡◌};
ghost use Rattle.label_list.specs.Kinds.{kind_number, Names};

// The kind of an entry.
#[derive(Clone, Copy, PartialEq, Eq)]
pub enum Kind {
    Binary,
    Decimal,
    BitField,
}

// A number of no kind.
#[derive(Clone, Copy, PartialEq, Eq)]
pub struct UnknownKind;

impl TryFrom<u32> for Kind {
    type Error = UnknownKind;

    ghost try_from_gives = { Names };

    fn try_from(number: u32) -> Result<Kind, UnknownKind> {
        match number {
            1 => Ok(Kind::Binary),
            2 => Ok(Kind::Decimal),
            3 => Ok(Kind::BitField),
            _ => Err(UnknownKind),
        }
    }
}

impl From<Kind> for u32 {
    ghost from_gives = { λ kind number. number ≡ kind_number kind };

    fn from(kind: Kind) -> u32 {
        match kind {
            Kind::Binary => 1,
            Kind::Decimal => 2,
            Kind::BitField => 3,
        }
    }
}
