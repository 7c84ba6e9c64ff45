// A call on one channel: the dispatch, and the status rule in one place.
ghost use Rattle.std.specs.Prelude.{◌≡◌, ◌≤◌};
ghost use Rattle.block.specs.Layout.{Whole};
ghost use Rattle.block.specs.Ranges.{Usable};
ghost use Rattle.channel_calls.specs.Answer.{accepted};
ghost use Rattle.channel_calls.specs.Refusals.{channel_refusal};
ghost use Rattle.channel_groups.specs.Groups.{did_answer, did_leave, did_signal};
ghost use Rattle.channel.specs.Channel.{answer_shown, block_answer, block_after};

use channel_calls::calls::{ChannelCall, Did, Given, Reply};
use channel_groups::memory_calls::on_memory;
use channel_groups::read_calls::on_read;
use channel_groups::receive_calls::on_receive;
use channel_groups::setting_calls::on_setting;
use channel_groups::status_calls::on_status;
use channel_groups::test_calls::on_test;
use channel_groups::transmit_calls::on_transmit;

// A reply that signals nothing.
fn quiet(reply: Reply) -> Did
    ensures answer { result.reply ≡ reply }
    ensures signal { result.signal ≡ 0 }
{
    Did { reply, signal: 0 }
}

// Does an accepted call, without the rule.
fn act(block: &mut [u32], stamp: u32, call: ChannelCall) -> Did
    requires { (Usable block.old) × (channel_refusal call block.old ≡ 0) }
    ensures answer { accepted result.reply ≡ did_answer call block.old }
    ensures signal { result.signal ≡ did_signal call block.old }
    ensures after { block.new ≡ did_leave stamp call block.old }
{
    match call {
        ChannelCall::Settings(k) => quiet(on_setting(block, k)),
        ChannelCall::Memories(k) => quiet(on_memory(block, k)),
        ChannelCall::Status(k) => quiet(on_status(block, k)),
        ChannelCall::Tests(k) => {
            on_test(block, k);
            quiet(Reply::Done)
        }
        ChannelCall::Reads(k) => quiet(on_read(block, k)),
        ChannelCall::Receive(k) => on_receive(block, stamp, k),
        ChannelCall::Transmit(k) => on_transmit(block, k),
    }
}

// What a call answers, on the block that the rule left.
fn show(block: &[u32], call: ChannelCall, reply: Reply) -> Reply
    requires { Whole block.now }
    ensures { accepted result ≡ answer_shown call block.now (accepted reply) }
{
    match call {
        ChannelCall::Status(k) => channel_groups::status_calls::show(block, k, reply),
        ChannelCall::Settings(_) => reply,
        ChannelCall::Memories(_) => reply,
        ChannelCall::Tests(_) => reply,
        ChannelCall::Reads(_) => reply,
        ChannelCall::Receive(_) => reply,
        ChannelCall::Transmit(_) => reply,
    }
}

// An accepted call on a channel's block.
pub fn on_block(block: &mut [u32], given: Given, call: ChannelCall) -> Reply
    requires { (Usable block.old) × (channel_refusal call block.old ≡ 0) × (given.before ≤ 1) × (given.after ≤ 1) }
    ensures answer { accepted result ≡ block_answer given call block.old }
    ensures after { block.new ≡ block_after given call block.old }
{
    let before = status::rule::holding(given.before, block);
    let did = act(block, given.stamp, call);
    let reply = did.reply;
    let holds = status::rule::holding(given.after, block) + did.signal;
    status::rule::rule(block, before, holds);
    show(block, call, reply)
}
