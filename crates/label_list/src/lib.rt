// The label list that a site supplies.
#![tactic(auto)]

pub mod entries;
pub mod kinds;
