// What each accepted call on a channel does to its block and answers, group by group, before the rule runs.
#![tactic(auto)]

pub mod memory_calls;
pub mod read_calls;
pub mod receive_calls;
pub mod setting_calls;
pub mod status_calls;
pub mod test_calls;
pub mod transmit_calls;
