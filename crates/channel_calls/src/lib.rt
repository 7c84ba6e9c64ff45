// The calls on one channel as values, their answers, and which calls are refused.
#![tactic(auto)]

pub mod calls;
pub mod numbers;
pub mod refusals;
