// The module-wide calls other than power-up and module reset: the stamp's and the fault threshold's.
#![tactic(auto)]

pub mod calls;
pub mod effects;
pub mod on_module;
pub mod refusals;
pub mod rule;
