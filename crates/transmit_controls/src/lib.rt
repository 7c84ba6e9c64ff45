// What a host asks of a channel's transmitter between its steps: a word for the FIFO, an async word, trigger and pause.
#![tactic(auto)]

pub mod states;
pub mod writes;
