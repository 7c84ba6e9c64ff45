// Faults and status of a channel: the conditions and the rule on its block.
#![tactic(auto)]

pub mod rule;
