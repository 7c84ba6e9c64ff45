// The register front: 32-bit reads and writes at the old module's addresses, turned into calls.
#![tactic(auto)]

pub mod accesses;
pub mod masked;
pub mod perform;
