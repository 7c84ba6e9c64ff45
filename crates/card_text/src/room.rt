// The room that a program lends for a card.
use bench_card::{MOST_NUMBERS, NUMBERS};
use schedule::{COMMANDS, MESSAGES};

// The words of both RAMs; 4,096 async words, each with its step; and one output more than a card may have.
pub const WORDS: usize = COMMANDS as usize + MESSAGES as usize;

pub const ASYNC_WORDS: usize = 4096;

pub const ASYNCS: usize = 2 * ASYNC_WORDS;

pub const OUTPUTS: usize = MOST_NUMBERS + NUMBERS;
