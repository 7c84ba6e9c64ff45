// A module's lent memory: the module part, the channels' blocks behind it, and when the memory itself is refused.
#![tactic(auto)]

pub mod channels;
pub mod counters;
pub mod layout;
pub mod refusals;
