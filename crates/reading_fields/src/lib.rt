// The data field of a word: bits 11 to 29 as a number, as digits, and the sign.
#![tactic(auto)]

pub mod bits;
pub mod digits;
pub mod signs;
