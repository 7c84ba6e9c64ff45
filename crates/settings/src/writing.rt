// Writing the twelve settings. A setting's number is its offset in the block.
ghost use Rattle.std.specs.Prelude.{◌≡◌, ◌<◌};
ghost use Rattle.block.specs.Layout.{Whole, settings};
ghost use Rattle.block.specs.Refusals.{number_of};
ghost use Rattle.settings.specs.Settings.{setting_refusal, receive_mode_written, transmit_mode_written, transmitter_written, written};

use block::layout::{RECEIVE_LEVEL, RECEIVE_MODE, RECEIVE_SIZE, TRANSMIT_MODE, TRANSMITTER};
use block::ranges::in_range;
use block::refusal::Refusal;
use fifos::clearing::{clear_receive, forget};

// Whether a value may be written to a setting: it is in the setting's range, and a receive FIFO size not below the present level.
pub fn write_refusal(block: &[u32], setting: usize, value: u32) -> Result<(), Refusal>
    requires { (Whole block.now) × (setting < settings) }
    ensures { number_of result ≡ setting_refusal setting value block.now }
{
    if !in_range(setting, value) {
        return Err(Refusal::Range);
    }
    if setting == RECEIVE_SIZE && value < block[RECEIVE_LEVEL] {
        return Err(Refusal::Mode);
    }
    Ok(())
}

// A change of receive mode clears the receive FIFO.
fn write_receive_mode(block: &mut [u32], value: u32)
    requires { Whole block.old }
    ensures { block.new ≡ receive_mode_written value block.old }
{
    if block[RECEIVE_MODE] == value {
        return;
    }
    clear_receive(block);
    block[RECEIVE_MODE] = value;
}

// A change of transmit mode stops the transmitter and drops the async word.
fn write_transmit_mode(block: &mut [u32], value: u32)
    requires { Whole block.old }
    ensures { block.new ≡ transmit_mode_written value block.old }
{
    if block[TRANSMIT_MODE] == value {
        return;
    }
    forget(block);
    block[TRANSMIT_MODE] = value;
}

// Off stops the transmitter and drops the async word, also when it is off.
fn write_transmitter(block: &mut [u32], value: u32)
    requires { Whole block.old }
    ensures { block.new ≡ transmitter_written value block.old }
{
    if value == 0 {
        forget(block);
        block[TRANSMITTER] = value;
        return;
    }
    block[TRANSMITTER] = value;
}

// Writes a setting, with what the write brings with it.
#[tactic(auto, unfolding(crate::specs::Settings::written))]
pub fn write(block: &mut [u32], setting: usize, value: u32)
    requires { (Whole block.old) × (setting < settings) }
    ensures { block.new ≡ written setting value block.old }
{
    match setting {
        RECEIVE_MODE => write_receive_mode(block, value),
        TRANSMIT_MODE => write_transmit_mode(block, value),
        TRANSMITTER => write_transmitter(block, value),
        _ => block[setting] = value,
    }
}
