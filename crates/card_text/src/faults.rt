// What may be wrong with a line: no parity; no word; no async word and no output; no room for one more async word.
#[derive(Clone, Copy)]
pub enum Fault {
    NoParity,
    NoWord,
    NoEntry,
    NoRoom,
}
