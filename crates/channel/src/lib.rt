// The calls on one channel: what each answers and what it leaves in the channel's block.
#![tactic(auto)]

pub mod dispatch;
