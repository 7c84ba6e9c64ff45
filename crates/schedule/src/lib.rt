// One command of a transmit schedule, by value: from where the schedule stands, the command and the message RAM's word to one output and
// where the schedule then stands. Every function takes any number; the last one reads command and word from the two RAMs.
#![tactic(auto)]

ghost use Rattle.std.specs.Prelude.{◌≡◌, ◌<◌, ◌≤◌, length};
ghost use Rattle.schedule.specs.Codes.{message_address, messages};
ghost use Rattle.schedule.specs.Output.{values};
ghost use Rattle.schedule.specs.Schedule.{at, onward, async_sent, marked, gives, message_step, gap_step, reserved_step, jump_step, command_step, stepped, step_at};

use word::Gap;

// The transmitter's states. Numbers, since a state is a word of the lent memory, where any number may stand.
pub const IDLE: u32 = 0;

pub const RUNNING: u32 = 1;

pub const PAUSED: u32 = 2;

// The codes of the commands; those above `JUMP` are reserved. Numbers, since a code is four bits of a word of the lent memory.
pub const STOP: u32 = 0;

pub const MESSAGE: u32 = 1;

pub const GAP: u32 = 2;

pub const FIXED_GAP: u32 = 3;

pub const PAUSE: u32 = 4;

pub const INTERRUPT: u32 = 5;

pub const JUMP: u32 = 6;

// The words of the message RAM, and the address of the last.
pub const MESSAGES: u32 = 256;

pub const LAST_MESSAGE: u32 = MESSAGES - 1;

// The words of the schedule RAM, and the address of the last command.
pub const COMMANDS: u32 = 512;

pub const LAST: u32 = COMMANDS - 1;

// The shortest gap in which an async word goes out.
pub const ASYNC_GAP: u32 = 40;

// The part of such a gap up to the end of the word: the least gap and 32 bits.
pub const ASYNC_PART: u32 = 36;

// What one step gives: nothing; a word of the FIFO and the gap behind it; a message's word; a null time; a gap with an async word in it,
// that is the least gap, the word and the rest of null time; the address of a reserved command; the least gap and a message's word. The FIFO's word is no output of a schedule:
// it stands here so that a step in any mode has one type of output.
#[derive(Clone, Copy)]
pub enum Output {
    Quiet,
    FifoWord(u32, u32),
    Message(u32),
    Null(u32),
    Async(u32, u32),
    Reserved(u32),
    NullMessage(u32),
}

// Where a schedule stands: the transmitter's state, the address of the next command, whether an async word waits (0 or 1), that word, and
// whether the last thing that the schedule sent was a message word (0 or 1).
#[derive(Clone, Copy)]
pub struct Place {
    pub state: u32,
    pub address: u32,
    pub waiting: u32,
    pub word: u32,
    pub mark: u32,
}

// What a step gives and leaves; `signal` is 1 where the command signals condition 5, else 0, and is multiplied by the condition's weight.
#[derive(Drop)]
pub struct Outcome {
    pub output: Output,
    pub place: Place,
    pub signal: u32,
}

// Where a command's word stands in the message RAM, bits 7 to 0.
pub fn message_address(command: u32) -> u32
    ensures { result ≡ message_address command }
{
    command % MESSAGES
}

// The output in four numbers: its form and what belongs to it. A function of this name, since docs/BENCH_CARDS.md names it.
#[tactic(auto, unfolding(crate::specs::Output::values))]
pub fn values(output: Output) -> [u32; 4]
    ensures { result ≡ values output }
{
    match output {
        Output::Quiet => [0, 0, 0, 0],
        Output::FifoWord(word, gap) => [1, word, gap, 0],
        Output::Message(word) => [2, word, 0, 0],
        Output::Null(time) => [3, time, 0, 0],
        Output::Async(word, rest) => [4, Gap::LEAST, word, rest],
        Output::Reserved(address) => [5, address, 0, 0],
        Output::NullMessage(word) => [6, Gap::LEAST, word, 0],
    }
}

// The schedule in a state at a command; its async word and its message mark stay.
fn at(place: Place, state: u32, address: u32) -> Place
    ensures { result ≡ at place state address }
{
    Place {
        state,
        address,
        ..place
    }
}

// On to the next command in the given state; after the last command idle at command 0.
#[tactic(auto, unfolding(crate::specs::Schedule::onward))]
fn onward(place: Place, state: u32) -> Place
    ensures { result ≡ onward place state }
{
    if LAST <= place.address {
        return at(place, IDLE, 0);
    }
    at(place, state, place.address + 1)
}

// The same place with no async word waiting.
fn async_sent(place: Place) -> Place
    ensures { result ≡ async_sent place }
{
    Place {
        waiting: 0,
        ..place
    }
}

// The same place with the message mark set or cleared.
fn marked(place: Place, mark: u32) -> Place
    ensures { result ≡ marked place mark }
{
    Place { mark, ..place }
}

// An outcome that signals nothing.
fn gives(output: Output, place: Place) -> Outcome
    ensures { result ≡ gives output place }
{
    Outcome {
        output,
        place,
        signal: 0,
    }
}

// A message: the least gap goes before it where the last thing sent was a message too.
#[tactic(auto, unfolding(crate::specs::Schedule::message_step))]
fn message_step(place: Place, word: u32) -> Outcome
    ensures { result ≡ message_step place word }
{
    let after = onward(marked(place, 1), RUNNING);
    if place.mark == 0 {
        return gives(Output::Message(word), after);
    }
    gives(Output::NullMessage(word), after)
}

// A gap of `gap` bit times: a waiting async word goes out in one that is long enough.
#[tactic(auto, unfolding(crate::specs::Schedule::gap_step))]
fn gap_step(place: Place, parity: u32, gap: u32) -> Outcome
    ensures { result ≡ gap_step place parity gap }
{
    if place.waiting == 0 {
        return gives(Output::Null(gap), onward(place, RUNNING));
    }
    if gap < ASYNC_GAP {
        return gives(Output::Null(gap), onward(place, RUNNING));
    }
    let word = word::as_sent(parity, place.word);
    gives(
        Output::Async(word, gap - ASYNC_PART),
        onward(async_sent(place), RUNNING),
    )
}

// A reserved command: its own address is the answer.
fn reserved_step(place: Place) -> Outcome
    ensures { result ≡ reserved_step place }
{
    let after = at(place, IDLE, 0);
    gives(Output::Reserved(place.address), after)
}

// A jump, also from the last command.
fn jump_step(place: Place, target: u32) -> Outcome
    ensures { result ≡ jump_step place target }
{
    gives(Output::Quiet, at(place, RUNNING, target))
}

// One command of a running schedule.
#[tactic(auto, unfolding(crate::specs::Schedule::command_step))]
fn command_step(place: Place, parity: u32, command: u32, value: u32) -> Outcome
    ensures { result ≡ command_step place parity command value }
{
    match command / 4096 % 16 {
        STOP => gives(Output::Quiet, at(place, IDLE, 0)),
        MESSAGE => message_step(place, word::as_sent(parity, value)),
        GAP => gap_step(marked(place, 0), parity, Gap::clamp(value).time),
        FIXED_GAP => {
            let after = onward(marked(place, 0), RUNNING);
            gives(Output::Null(Gap::clamp(value).time), after)
        }
        PAUSE => gives(Output::Quiet, onward(place, PAUSED)),
        INTERRUPT => Outcome {
            output: Output::Quiet,
            place: onward(place, RUNNING),
            signal: 1,
        },
        JUMP => jump_step(place, command % COMMANDS),
        _ => reserved_step(place),
    }
}

// One step: `command` is the schedule RAM's word at the place's address, `value` the message RAM's word at the command's `message_address`.
#[tactic(auto, unfolding(crate::specs::Schedule::stepped))]
pub fn step(place: Place, parity: u32, command: u32, value: u32) -> Outcome
    ensures { result ≡ stepped place parity command value }
{
    if place.state == RUNNING {
        return command_step(place, parity, command, value);
    }
    gives(Output::Quiet, place)
}

// The same over the two RAMs: the command at the place's address, and the message RAM's word that it names.
#[tactic(auto, unfolding(crate::specs::Schedule::step_at))]
pub fn step_at(schedule: &[u32], ram: &[u32], place: Place, parity: u32) -> Outcome
    requires { (place.address < length schedule.now) × (messages ≤ length ram.now) }
    ensures { result ≡ step_at schedule.now ram.now place parity }
{
    let address = place.address as usize;
    let command = schedule[address];
    let value = ram[message_address(command) as usize];
    step(place, parity, command, value)
}
