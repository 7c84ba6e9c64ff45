// One step of the transmitter gives one output.
ghost use Rattle.std.specs.Prelude.{◌≡◌};
ghost use Rattle.block.specs.Ranges.{Usable};
ghost use Rattle.transmit.specs.Step.{send_output, send_after, immediate_output, immediate_after, triggered_output, triggered_after, scheduled_outcome, scheduled_signal, scheduled_after, step_output, step_signal, step_after};

use block::layout::{
    ADDRESS, ASYNC_MARK, ASYNC_WORD, MESSAGE_MARK, MESSAGE_RAM, PARITY, RATE, SCHEDULE_RAM, STATE,
    TRANSMIT_LEVEL, TRANSMIT_MODE, TRANSMITTER, WORDS,
};
use block::modes::{IMMEDIATE, TRIGGERED};
use fifos::entries::{TRANSMIT, take};
use schedule::{IDLE, Outcome, Output, PAUSED, Place, RUNNING};
use status::rule::INTERRUPT;

// What a step gives, and the mask of the conditions that it signals.
#[derive(Drop)]
pub struct Stepped {
    pub output: Output,
    pub signal: u32,
}

// Sends the oldest word of the FIFO with the gap of the rate behind it; quiet if there is none.
#[tactic(auto, using(fifos::proofs::Bounds::transmit_fits), unfolding(crate::specs::Step::send_output, crate::specs::Step::send_after))]
fn send(block: &mut [u32]) -> Output
    requires { Usable block.old }
    ensures output { result ≡ send_output block.old }
    ensures after { block.new ≡ send_after block.old }
{
    if block[TRANSMIT_LEVEL] == 0 {
        return Output::Quiet;
    }
    let parity = block[PARITY];
    let rate = block[RATE];
    let [word] = take::<1>(block, TRANSMIT);
    let as_sent = word::as_sent(parity, word);
    Output::FifoWord(as_sent, rate)
}

// A step in immediate mode: sends unless paused.
#[tactic(auto, unfolding(crate::specs::Step::immediate_output, crate::specs::Step::immediate_after))]
fn immediate(block: &mut [u32]) -> Output
    requires { Usable block.old }
    ensures output { result ≡ immediate_output block.old }
    ensures after { block.new ≡ immediate_after block.old }
{
    if block[STATE] == PAUSED {
        return Output::Quiet;
    }
    send(block)
}

// A step in triggered mode: sends while running, and is idle once the FIFO is empty.
#[tactic(auto, unfolding(crate::specs::Step::send_output, crate::specs::Step::triggered_output, crate::specs::Step::triggered_after))]
fn triggered(block: &mut [u32]) -> Output
    requires { Usable block.old }
    ensures output { result ≡ triggered_output block.old }
    ensures after { block.new ≡ triggered_after block.old }
{
    if block[STATE] == RUNNING {
        if block[TRANSMIT_LEVEL] == 0 {
            block[STATE] = IDLE;
            return Output::Quiet;
        }
        return send(block);
    }
    Output::Quiet
}

// One command of the schedule, from the block's two RAMs.
fn command(block: &[u32]) -> Outcome
    requires { Usable block.now }
    ensures { result ≡ scheduled_outcome block.now }
{
    let place = Place {
        state: block[STATE],
        address: block[ADDRESS],
        waiting: block[ASYNC_MARK],
        word: block[ASYNC_WORD],
        mark: block[MESSAGE_MARK],
    };
    let parity = block[PARITY];
    schedule::step_at(
        &block[SCHEDULE_RAM..WORDS],
        &block[MESSAGE_RAM..SCHEDULE_RAM],
        place,
        parity,
    )
}

// A step in scheduled mode: one command of the schedule.
fn scheduled(block: &mut [u32]) -> Stepped
    requires { Usable block.old }
    ensures output { result.output ≡ (scheduled_outcome block.old).output }
    ensures signal { result.signal ≡ scheduled_signal block.old }
    ensures after { block.new ≡ scheduled_after block.old }
{
    let outcome = command(block);
    let after = outcome.place;
    block[STATE] = after.state;
    block[ADDRESS] = after.address;
    block[ASYNC_MARK] = after.waiting;
    block[MESSAGE_MARK] = after.mark;
    let output = outcome.output;
    let signal = outcome.signal * INTERRUPT;
    Stepped { output, signal }
}

// One step: quiet with the transmitter off, else by the mode.
#[tactic(auto, unfolding(crate::specs::Step::step_output, crate::specs::Step::step_signal, crate::specs::Step::step_after))]
pub fn step(block: &mut [u32]) -> Stepped
    requires { Usable block.old }
    ensures output { result.output ≡ step_output block.old }
    ensures signal { result.signal ≡ step_signal block.old }
    ensures after { block.new ≡ step_after block.old }
{
    if block[TRANSMITTER] == 0 {
        return Stepped {
            output: Output::Quiet,
            signal: 0,
        };
    }
    match block[TRANSMIT_MODE] {
        IMMEDIATE => Stepped {
            output: immediate(block),
            signal: 0,
        },
        TRIGGERED => Stepped {
            output: triggered(block),
            signal: 0,
        },
        _ => scheduled(block),
    }
}
