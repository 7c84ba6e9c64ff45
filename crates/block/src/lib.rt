// A channel's words: one part of the lent memory, of exactly the words that a channel needs. A block is a plain slice of the caller's
// memory, and the clauses name what holds of it, `Whole` or `Usable`: docs/PROMISES.md names the functions with this argument.
#![tactic(auto)]

pub mod layout;
pub mod modes;
pub mod ranges;
pub mod refusal;
