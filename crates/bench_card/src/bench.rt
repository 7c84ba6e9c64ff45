// What a card is judged by.
ghost use Rattle.bench_card.specs.Bench.{RamsWhole};

// The RAMs of a schedule and of its messages, the parity, and the async words.
#[derive(Clone, Copy)]
pub struct Bench<'a> {
    pub schedule: &'a [u32],
    pub messages: &'a [u32],
    pub parity: u32,
    pub asyncs: &'a [u32],
    ghost whole: { RamsWhole schedule.now messages.now },
}
