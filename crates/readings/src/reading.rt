// What a word reads as, by the list.
ghost use Rattle.std.specs.Prelude.{◌≡◌};
ghost use Rattle.readings.specs.Reading.{decimal_whole, whole_by, whole, in_units, shown, reading_by, reading, number_by, kind_of, units_of};

use crate::listed::listed;
use crate::refusals::{Numbered, Refusal};
use label_list::entries::Entry;
use label_list::kinds::{Kind, UnknownKind};
use reading_fields::{bits, digits, signs};

// A number in units, a decimal number, or a bare bit field.
#[derive(Clone, Copy)]
pub enum Reading {
    Binary(f64),
    Decimal(i32),
    Bits(u32),
}

// Five digits and a sign.
pub fn decimal_whole(word: u32) -> Result<i32, Refusal>
    ensures { result ≡ decimal_whole word }
{
    let minus = match bits::sign(word) {
        bits::PLUS => false,
        bits::MINUS => true,
        _ => return Err(Refusal::NoSign),
    };
    let field = bits::field(word);
    if digits::digit_above_9(field) {
        return Err(Refusal::DigitAboveNine);
    }
    Ok(signs::joined(minus, digits::of_digits(field)))
}

// The whole number in a word, by the kind of its entry.
pub fn whole_by(kind: u32, word: u32) -> Result<i32, Refusal>
    ensures { result ≡ whole_by kind word }
{
    match Kind::try_from(kind)? {
        Kind::Binary => Ok(bits::twos_complement(bits::field(word))),
        Kind::Decimal => decimal_whole(word),
        Kind::BitField => Ok(bits::field(word) as i32),
    }
}

// The whole number in a word, by the list: binary undivided.
pub fn whole(list: &[u32], word: u32) -> Result<i32, Refusal>
    ensures { result ≡ whole list.now word }
{
    let entry = listed(list, word)?;
    whole_by(entry.kind, word)
}

// A whole number in units of its divisor.
pub fn in_units(value: i32, divisor: u32) -> f64
    ensures { result ≡ in_units value divisor }
{
    f64::from(value) / f64::from(divisor)
}

// The reading of an accepted word, by its entry.
pub fn shown(entry: Entry, word: u32, value: i32) -> Reading
    ensures { result ≡ shown entry word value }
{
    match Kind::try_from(entry.kind) {
        Ok(Kind::Binary) => Reading::Binary(in_units(value, entry.divisor)),
        Ok(Kind::Decimal) => Reading::Decimal(value),
        Ok(Kind::BitField) => Reading::Bits(bits::field(word)),
        Err(UnknownKind) => Reading::Bits(bits::field(word)),
    }
}

pub fn reading_by(entry: Entry, word: u32) -> Result<Reading, Refusal>
    ensures { result ≡ reading_by entry word }
{
    let value = whole_by(entry.kind, word)?;
    Ok(shown(entry, word, value))
}

// What a word reads as, by the list.
pub fn read(list: &[u32], word: u32) -> Result<Reading, Refusal>
    ensures { result ≡ reading list.now word }
{
    reading_by(listed(list, word)?, word)
}

// What follows is for the C interface, whose functions give numbers, and zeros beside a refusal: first the number, 0 or that of the refusal.
pub fn number_of<T, E: Numbered>(answer: &Result<T, E>) -> u32
    ensures { result ≡ number_by E.number answer.now }
{
    match answer {
        Ok(_) => 0,
        Err(refusal) => refusal.number(),
    }
}

// The kind of a reading, 0 of a refusal.
pub fn kind_of<E>(reading: &Result<Reading, E>) -> u32
    ensures { result ≡ kind_of reading.now }
{
    match reading {
        Ok(Reading::Binary(_)) => u32::from(Kind::Binary),
        Ok(Reading::Decimal(_)) => u32::from(Kind::Decimal),
        Ok(Reading::Bits(_)) => u32::from(Kind::BitField),
        Err(_) => 0,
    }
}

// The value of a reading as an f64, whatever its kind.
pub fn units_of<E>(reading: &Result<Reading, E>) -> f64
    ensures { result ≡ units_of reading.now }
{
    match reading {
        Ok(Reading::Binary(units)) => *units,
        Ok(Reading::Decimal(value)) => f64::from(*value),
        Ok(Reading::Bits(bits)) => f64::from(*bits),
        Err(_) => f64::from(0u32),
    }
}
