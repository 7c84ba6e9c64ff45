// A call on one channel of a module's memory.
ghost use Rattle.std.specs.Prelude.{◌≡◌};
ghost use Rattle.block.specs.Layout.{word};
ghost use Rattle.block.specs.Ranges.{Usable};
ghost use Rattle.channel_calls.specs.Answer.{accepted, answered};
ghost use Rattle.channel_calls.specs.Refusals.{channel_refusal};
ghost use Rattle.channel.specs.Channel.{block_answer};
ghost use Rattle.frame.specs.Layout.{block};
ghost use Rattle.module.specs.OnChannel.{Room, counter_at, test_counter, counter_after, given_of, accepted_after, on_answer, on_after};

use block::layout::WORDS;
use block::refusal::Refusal;
use channel_calls::calls::{ChannelCall, Given, Reply, TestCall};
use frame::layout::{COUNTERS, MODULE_WORDS, STAMP, THRESHOLD};

// A channel's fault counter after a test call: the twelve counters pass as one array by value.
fn test_counter(mem: &[u32], channel: u32, call: TestCall) -> u32
    requires { Room mem.now channel }
    ensures { result ≡ test_counter call (word mem.now (counter_at channel)) }
{
    let at = (channel - 1) as usize;
    match call {
        TestCall::Sample(result) => {
            let next = frame::counters::sample(frame::counters::read(mem), channel, result);
            next[at]
        }
        TestCall::ResetTest => 0,
        TestCall::InitiateTest(_) => mem[COUNTERS + at],
    }
}

// A channel's fault counter after a call.
fn counter_after(mem: &[u32], channel: u32, call: ChannelCall) -> u32
    requires { Room mem.now channel }
    ensures { result ≡ counter_after call (word mem.now (counter_at channel)) }
{
    let counter = mem[COUNTERS + ((channel - 1) as usize)];
    match call {
        ChannelCall::Tests(k) => test_counter(mem, channel, k),
        ChannelCall::Settings(_) => counter,
        ChannelCall::Memories(_) => counter,
        ChannelCall::Status(_) => counter,
        ChannelCall::Reads(_) => counter,
        ChannelCall::Receive(_) => counter,
        ChannelCall::Transmit(_) => counter,
    }
}

// An accepted call on a channel.
fn accept(mem: &mut [u32], channel: u32, call: ChannelCall) -> Reply
    requires { (Room mem.old channel) × (Usable (block mem.old channel)) × (channel_refusal call (block mem.old channel) ≡ 0) }
    ensures answer { accepted result ≡ block_answer (given_of channel call mem.old) call (block mem.old channel) }
    ensures after { mem.new ≡ accepted_after channel call mem.old }
{
    let at = COUNTERS + ((channel - 1) as usize);
    let threshold = mem[THRESHOLD];
    let counter = mem[at];
    let stamp = mem[STAMP];
    let next = counter_after(mem, channel, call);
    let before = status::rule::fault(counter, threshold);
    let after = status::rule::fault(next, threshold);
    mem[at] = next;
    let from = MODULE_WORDS + ((channel - 1) as usize) * WORDS;
    let to = from + WORDS;
    channel::dispatch::on_block(
        &mut mem[from..to],
        Given {
            stamp,
            before,
            after,
        },
        call,
    )
}

// A call on a channel: refused, or done.
pub fn on_channel(mem: &mut [u32], channel: u32, call: ChannelCall) -> Result<Reply, Refusal>
    ensures answer { answered result ≡ on_answer channel call mem.old }
    ensures after { mem.new ≡ on_after channel call mem.old }
{
    frame::refusals::address_refusal(mem, channel)?;
    let from = MODULE_WORDS + ((channel - 1) as usize) * WORDS;
    let to = from + WORDS;
    channel_calls::refusals::refusal(&mem[from..to], call)?;
    Ok(accept(mem, channel, call))
}
