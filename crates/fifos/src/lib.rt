// A channel's two FIFOs: what they hold and count, the index list's hold on the mailboxes, and clearing.
#![tactic(auto)]

pub mod clearing;
pub mod entries;
pub mod mailboxes;
