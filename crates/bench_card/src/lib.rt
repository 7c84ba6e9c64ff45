// A bench card judged: whether the rules of a schedule give the outputs that another card recorded, from trigger on.
//
// The async words are lent as 32-bit numbers, step and word in turn; a step with no word behind it is no write. The recorded outputs are lent as
// four 32-bit numbers each, `form x y z`, with the step forms 2, 3, 4 and 6 and their values as `schedule::values` gives them; fewer numbers at the
// end are an output in none of the forms. Of the RAMs the first 512 and 256 words count.
#![tactic(auto)]

ghost use Rattle.std.specs.Prelude.{◌≡◌, ◌*◌, ◌≤◌, length};
ghost use Rattle.schedule.specs.Output.{values};
ghost use Rattle.bench_card.specs.Bench.{bench};
ghost use Rattle.bench_card.specs.Given.{given};
ghost use Rattle.bench_card.specs.Record.{numbers, recorded, same};
ghost use Rattle.bench_card.specs.Verdict.{most, number_of, verdict_on, verdict};

use bench::Bench;
use schedule::{COMMANDS, MESSAGES, Output, Place, RUNNING};

mod asyncs;
mod bench;
mod stepping;

// The outputs that a card has at most.
pub const MOST: usize = 2048;

// The numbers of an output, and those of a whole card.
pub const NUMBERS: usize = 4;

pub const MOST_NUMBERS: usize = MOST * NUMBERS;

// What is said of a card: the rules give its record; the output at a place, from 1, differs, with what was due there; or it differs with
// nothing due.
#[derive(Clone, Copy)]
pub enum Verdict {
    Yes,
    Differs(u32, Output),
    Nothing(u32),
}

// Why a card is refused, with the refusal's number: a RAM is too short; it has more outputs than a card may have.
#[derive(Clone, Copy, PartialEq, Eq)]
pub enum Refusal {
    ShortRam = 1,
    TooManyOutputs = 70,
}

impl From<Refusal> for u32 {
    ghost from_gives = { λ refusal number. number ≡ number_of refusal };

    fn from(refusal: Refusal) -> u32 {
        refusal as u32
    }
}

// Command 0, just triggered, with no word sent before and no async word waiting.
fn start() -> Place
    ensures { result ≡ Rattle.bench_card.specs.Bench.start }
{
    Place {
        state: RUNNING,
        address: 0,
        waiting: 0,
        word: 0,
        mark: 0,
    }
}

// Whether a recorded output is the one that was due.
#[tactic(auto, using(crate::proofs::Records::same_is))]
fn agrees(recorded: &[u32], due: Output) -> bool
    ensures { result ≡ same recorded.now (values due) }
{
    recorded == schedule::values(due).as_slice()
}

// The recorded outputs beside those that the rules give, one after the other.
fn compared(bench: &Bench, outputs: &[u32]) -> Verdict
    requires { length outputs.now ≤ most * numbers }
    ensures { result ≡ verdict_on (given bench.now) (recorded outputs.now) }
{
    let mut place = start();
    let mut step = 1;
    // The place of the output, from 1, for the verdict.
    let mut number = 1;
    for recorded in outputs.chunks(NUMBERS) {
        let Some(next) = bench.next_output(step, place) else {
            return Verdict::Nothing(number);
        };
        if !agrees(recorded, next.output) {
            return Verdict::Differs(number, next.output);
        }
        place = next.place;
        step = next.step;
        number += 1;
    }
    Verdict::Yes
}

// Judges a card.
#[tactic(auto, using(word::proofs::Branches::branches), unfolding(crate::specs::Verdict::verdict))]
pub fn judge(
    schedule: &[u32],
    messages: &[u32],
    parity: u32,
    asyncs: &[u32],
    outputs: &[u32],
) -> Result<Verdict, Refusal>
    ensures { result ≡ verdict (bench schedule.now messages.now parity asyncs.now) outputs.now }
{
    if schedule.len() < COMMANDS as usize {
        return Err(Refusal::ShortRam);
    }
    if messages.len() < MESSAGES as usize {
        return Err(Refusal::ShortRam);
    }
    if MOST_NUMBERS < outputs.len() {
        return Err(Refusal::TooManyOutputs);
    }
    let bench = Bench {
        schedule,
        messages,
        parity,
        asyncs,
    };
    Ok(compared(&bench, outputs))
}
