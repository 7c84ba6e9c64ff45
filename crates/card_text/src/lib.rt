// A bench card from its text: the parity on the first line, the words of both RAMs, one to a line, and then async words and outputs. What is read is put
// into lent lists; the first line that is wrong ends the reading. Every function takes anything.
#![tactic(auto)]

mod card;
pub mod faults;
pub mod judging;
pub mod reading;
pub mod room;
