// Readings: the number that a word carries, by a label list that the site supplies, and words that carry a number. Every function that is
// called from outside takes any list, any word and any value.
#![tactic(auto)]

pub mod encoding;
mod listed;
pub mod reading;
pub mod refusals;
pub mod units;
