// A line of a bench card's text, a byte after the other: a word, `async STEP WORD` or `out FORM X Y Z`, the words hexadecimal, the others decimal.
// Every function takes anything.
#![tactic(auto)]

mod decimal;
pub mod fields;
