// "Why wasn't it there?": the reason of one arrival in a list of calls since power-up (paper 02, (viii)).
#![tactic(auto)]

ghost use Rattle.std.specs.Prelude.{◌≡◌, length};
ghost use Rattle.frame.specs.Layout.{need};
ghost use Rattle.reasons.specs.Question.{Asked};
ghost use Rattle.reasons.specs.Explained.{beside, reason_for, state_after, explained, memory_after};
ghost use Rattle.reasons.specs.Refusals.{numbered};

use following::course::Reason;

mod items_of;
mod question;
mod refusals;
mod run;

pub use refusals::Refusal;

// The most items of a list.
pub const MOST_ITEMS: usize = 4096;

// What stands beside a reason: the refusal's number, the place of the call that did it, or 0.
pub fn beside(reason: Reason) -> u32
    ensures { result ≡ beside reason }
{
    match reason {
        Reason::NoReason => 0,
        Reason::RefusedBy(number) => number,
        Reason::ReceiverOff => 0,
        Reason::FilteredOut => 0,
        Reason::DroppedOnFull => 0,
        Reason::ListedAlready => 0,
        Reason::StillHeld => 0,
        Reason::ReadAt(place) => place,
        Reason::ClearedAt(place) => place,
        Reason::OverwrittenAt(place) => place,
    }
}

// The reason of an arrival, on exactly the words that the count needs.
fn reason_for(count: u32, bytes: &[u8], place: u32, mem: &mut [u32]) -> Reason
    requires { (length mem.old ≡ need count) × (Asked count bytes.now place) }
    ensures answer { result ≡ reason_for count bytes.now place mem.old }
    ensures after { mem.new ≡ state_after count bytes.now mem.old }
{
    let _ = power::power_up(mem, count);
    let channel = items_of::channel_at(bytes, place);
    following::course::reason_of(run::run(mem, bytes, channel, place))
}

// Explains the arrival at a place, from 1, of the items behind an accepted power-up of `count` channels: any numbers, any bytes and any working
// memory. A refused question leaves the memory as it was; a reason given leaves in it the state after the whole list.
pub fn explain(count: u32, bytes: &[u8], place: u32, mem: &mut [u32]) -> Result<Reason, Refusal>
    ensures answer { numbered result ≡ explained count bytes.now place mem.old }
    ensures after { mem.new ≡ memory_after count bytes.now place mem.old }
{
    question::refusal(count, bytes, place, mem.len())?;
    let words = frame::layout::need(count);
    let reason = reason_for(count, bytes, place, &mut mem[..words]);
    Ok(reason)
}
