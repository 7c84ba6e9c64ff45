// The verdict on a card that was read from text.
ghost use Rattle.std.specs.Prelude.{◌≡◌};
ghost use Rattle.card_text.specs.declared.judging.CardError.TheVariants.{Refused as refused_by};
ghost use Rattle.card_text.specs.Gathered.{state_of, text_of};
ghost use Rattle.card_text.specs.Judging.{judged_parts, judged, answered};

use crate::card::Card;
use crate::faults::Fault;
use crate::reading::Progress;
use bench_card::{Refusal, Verdict};
use schedule::COMMANDS;

// Why there is no verdict on a card: its first wrong line, with the line's number; or its refusal.
#[derive(Clone, Copy)]
pub enum CardError {
    WrongLine(Fault, u64),
    Refused(Refusal),
}

impl From<Refusal> for CardError {
    ghost from_gives = { λ refusal error. error ≡ refused_by refusal };

    fn from(refusal: Refusal) -> CardError {
        CardError::Refused(refusal)
    }
}

// A card whose text was read to its end has its parity or a fault. Any number but 0 is parity on.
const ON: u32 = 1;

// Judges a card whose RAMs are lent as one list.
fn judge_parts(
    ram: &[u32],
    parity: u32,
    asyncs: &[u32],
    outputs: &[u32],
) -> Result<Verdict, Refusal>
    ensures { result ≡ judged_parts ram.now parity asyncs.now outputs.now }
{
    let (schedule, messages) = ram.split_at((COMMANDS as usize).min(ram.len()));
    bench_card::judge(schedule, messages, parity, asyncs, outputs)
}

// Judges the words, async words and outputs that the card counts.
fn judged(words: &[u32], asyncs: &[u32], outputs: &[u32], card: Card) -> Result<Verdict, Refusal>
    ensures { result ≡ judged (state_of card words.now asyncs.now outputs.now) }
{
    let ram = card.words.min(words.len());
    let writes = card.asyncs.min(asyncs.len());
    let numbers = card.outputs.min(outputs.len());
    judge_parts(
        &words[..ram],
        card.parity.unwrap_or(ON),
        &asyncs[..writes],
        &outputs[..numbers],
    )
}

// What is said of a card whose text was read to its end.
#[tactic(auto, unfolding(crate::specs::Judging::answered))]
pub fn answered(
    words: &[u32],
    asyncs: &[u32],
    outputs: &[u32],
    at: Progress,
) -> Result<Verdict, CardError>
    ensures { result ≡ answered (text_of at words.now asyncs.now outputs.now) }
{
    if let Some(fault) = at.card.fault {
        return Err(CardError::WrongLine(fault, at.line));
    }
    Ok(judged(words, asyncs, outputs, at.card)?)
}
