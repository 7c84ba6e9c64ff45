// A channel's transmitter, on the channel's block: one step.
#![tactic(auto)]

pub mod step;
