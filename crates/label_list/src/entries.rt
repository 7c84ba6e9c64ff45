// The label list: three numbers to an entry, label, kind and divisor. C lends the list as such numbers, with no room for entries made of them.
ghost use Rattle.std.specs.Prelude.{◌≡◌};
ghost use Rattle.label_list.specs.Entries.{is_divisor, entry_wrong, list_wrong, entry_for};

use crate::kinds::{Kind, UnknownKind};

const GREATEST_LABEL: u32 = 255;

const GREATEST_DIVISOR: u32 = 262_144;

// The numbers of an entry.
const SIZE: usize = 3;

// What an entry says of its label, as it stands in the list: in a list that is refused the kind may be any number.
#[derive(Clone, Copy)]
pub struct Entry {
    pub kind: u32,
    pub divisor: u32,
}

// A power of two from 1 to 262,144.
pub fn is_divisor(divisor: u32) -> bool
    ensures { result ≡ is_divisor divisor }
{
    divisor <= GREATEST_DIVISOR && divisor.is_power_of_two()
}

// Whether an entry is refused with 60.
pub fn entry_wrong(label: u32, kind: u32, divisor: u32) -> bool
    ensures { result ≡ entry_wrong label kind divisor }
{
    if label > GREATEST_LABEL {
        return true;
    }
    match Kind::try_from(kind) {
        Ok(Kind::Binary) => !is_divisor(divisor),
        Ok(Kind::Decimal) => false,
        Ok(Kind::BitField) => false,
        Err(UnknownKind) => true,
    }
}

// Whether one entry of the list is cut short or refused.
pub fn list_wrong(list: &[u32]) -> bool
    ensures { result ≡ list_wrong list.now }
{
    let (entries, cut) = list.as_chunks::<SIZE>();
    !cut.is_empty()
        || entries
            .iter()
            .any(|entry| entry_wrong(entry[0], entry[1], entry[2]))
}

// The first entry for a label.
pub fn find(label: u32, list: &[u32]) -> Option<Entry>
    ensures { result ≡ entry_for label list.now }
{
    let (entries, _) = list.as_chunks::<SIZE>();
    let entry = entries.iter().find(|entry| entry[0] == label)?;
    Some(Entry {
        kind: entry[1],
        divisor: entry[2],
    })
}
