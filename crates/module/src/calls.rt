// Every call on a module's memory, as a value.
use channel_calls::calls::ChannelCall;
use wide::calls::WideCall;

#[derive(Clone, Copy)]
pub enum Call {
    // The number of channels.
    PowerUp(u32),
    // Module reset.
    Reset,
    // A call that names no channel.
    Wide(WideCall),
    // A channel, from 1, and the call on it.
    On(u32, ChannelCall),
}
