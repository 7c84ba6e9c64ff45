// Accesses as items of four words, and their answers as lists of numbers.
#![tactic(auto)]

pub mod answers;
pub mod perform;
