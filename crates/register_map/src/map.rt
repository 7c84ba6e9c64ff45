// Which register stands at an address.
ghost use Rattle.std.specs.Prelude.{◌≡◌, ◌*◌, ◌≤◌, ◌<◌};
ghost use Rattle.frame.specs.Layout.{most};
ghost use Rattle.register_map.specs.Registers.{found};
ghost use Rattle.register_map.specs.Map.{channel_in, masked_at, ram_at, register_at};

use frame::layout::MOST;
use schedule::{COMMANDS, MESSAGES};

// The bytes of a register.
pub const BYTES: u32 = 4;

// Channel 1's registers, and how far a further channel's stand behind them.
const RATE: u32 = 0x111C;

const ASYNC: u32 = 0x1120;

const CHANNEL_STEP: u32 = 0x100;

const STATUS: u32 = 0x0810;

const STATUS_STEP: u32 = 0x10;

const SCHEDULE: u32 = 0x80000;

const MESSAGE: u32 = 0x90000;

const RAM_STEP: u32 = 0x1000;

// The registers that take a channel mask.
const TRIGGER: u32 = 0x1000;

const PAUSE: u32 = 0x1004;

const STOP: u32 = 0x1008;

// What a channel mask asks of its channels.
#[derive(Clone, Copy)]
pub enum Control {
    TriggerEach,
    PauseEach,
    StopEach,
}

#[derive(Drop)]
pub enum Register {
    // A channel, from 1.
    RateOf(u32),
    AsyncOf(u32),
    StatusOf(u32),
    // A channel and an address in its RAM.
    ScheduleOf(u32, u32),
    MessageOf(u32, u32),
    ControlOf(Control),
}

// The channel at whose registers an address stands: `size` bytes from `first` on are channel 1's, and each further channel's stand a step
// behind. Channels are numbered from 1, and 0 is none, as `channel_in` of specs/Map.antt has it.
fn channel_in(address: u32, first: u32, step: u32, size: u32) -> u32
    requires { (0 < step) × (most * step ≤ 0xFFFF_FFFF) }
    ensures { result ≡ channel_in first step size address }
{
    if address < first {
        return 0;
    }
    if MOST * step <= address - first {
        return 0;
    }
    if size <= (address - first) % step {
        return 0;
    }
    (address - first) / step + 1
}

// The registers that take a channel mask.
fn masked_at(address: u32) -> Option<Register>
    ensures { found result ≡ masked_at address }
{
    if address == TRIGGER {
        return Some(Register::ControlOf(Control::TriggerEach));
    }
    if address == PAUSE {
        return Some(Register::ControlOf(Control::PauseEach));
    }
    if address == STOP {
        return Some(Register::ControlOf(Control::StopEach));
    }
    None
}

// The RAMs, and behind them the registers that take a channel mask.
fn ram_at(address: u32) -> Option<Register>
    ensures { found result ≡ ram_at address }
{
    let schedule = channel_in(address, SCHEDULE, RAM_STEP, BYTES * COMMANDS);
    if schedule != 0 {
        return Some(Register::ScheduleOf(schedule, address % RAM_STEP / BYTES));
    }
    let message = channel_in(address, MESSAGE, RAM_STEP, BYTES * MESSAGES);
    if message != 0 {
        return Some(Register::MessageOf(message, address % RAM_STEP / BYTES));
    }
    masked_at(address)
}

// The register at an address.
pub fn register_at(address: u32) -> Option<Register>
    ensures { found result ≡ register_at address }
{
    let rate = channel_in(address, RATE, CHANNEL_STEP, BYTES);
    if rate != 0 {
        return Some(Register::RateOf(rate));
    }
    let waiting = channel_in(address, ASYNC, CHANNEL_STEP, BYTES);
    if waiting != 0 {
        return Some(Register::AsyncOf(waiting));
    }
    let status = channel_in(address, STATUS, STATUS_STEP, BYTES);
    if status != 0 {
        return Some(Register::StatusOf(status));
    }
    ram_at(address)
}
