// A channel's match set and its two RAMs.
#![tactic(auto)]

pub mod matching;
pub mod rams;
