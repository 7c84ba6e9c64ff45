// Calls on a module's lent memory.
#![tactic(auto)]

pub mod calls;
pub mod on_channel;
pub mod perform;
