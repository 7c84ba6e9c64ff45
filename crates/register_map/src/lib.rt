// The registers of the AR1 module: which stands at an address, the call that a read or a write of it is turned into, and the bits that it shows.
#![tactic(auto)]

pub mod map;
pub mod shown;
pub mod turned;
