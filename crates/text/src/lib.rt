// Texts that programs read: words and numbers, a byte after the other, in lines of any length. Every function takes anything.
#![tactic(auto)]

pub mod bytes;
pub mod line;
pub mod list;
pub mod token;
