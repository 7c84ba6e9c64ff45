// A channel's twelve settings: factory values, refusals of a value, and writing one.
#![tactic(auto)]

pub mod factory;
pub mod writing;
