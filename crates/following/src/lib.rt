// Follows the entry of one arrival through the receive FIFO of its channel, by the accesses and their answers alone (paper 02, (viii)).
#![tactic(auto)]

pub mod course;
