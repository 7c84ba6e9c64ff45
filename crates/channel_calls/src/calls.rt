// The calls on a channel and their replies, as values.
use arrival::Arrival;
use schedule::Output;

// The twelve settings, in the order of their numbers.
#[derive(Clone, Copy)]
pub enum Setting {
    Receiver,
    Transmitter,
    Parity,
    Match,
    Stamps,
    ReceiveMode,
    FifoKind,
    TransmitMode,
    ReceiveSize,
    AlmostFull,
    AlmostEmpty,
    Rate,
}

#[derive(Clone, Copy)]
pub enum SettingCall {
    // A setting and its value.
    WriteSetting(Setting, u32),
    ReadSetting(Setting),
}

#[derive(Clone, Copy)]
pub enum MemoryCall {
    // An SDI/Label index, and 1 to put it in or 0 to take it out.
    WriteMatch(u32, u32),
    ReadMatch(u32),
    // An address and a command.
    WriteSchedule(u32, u32),
    ReadSchedule(u32),
    // An address and a word.
    WriteMessage(u32, u32),
    ReadMessage(u32),
}

#[derive(Clone, Copy)]
pub enum StatusCall {
    // The latched conditions.
    ReadStatus,
    // The latch bits to clear.
    ClearLatch(u32),
    WriteEnable(u32),
    ReadEnable,
    // 1 latches by level, 0 by edge.
    WriteLevelMask(u32),
    ReadLevelMask,
    ReadPending,
}

#[derive(Clone, Copy)]
pub enum TestCall {
    // A background sample's result: 0 good, 1 failing.
    Sample(u32),
    // Zeroes the channel's fault counter.
    ResetTest,
    // The initiated test's result: 0 passed, 1 failed.
    InitiateTest(u32),
}

#[derive(Clone, Copy)]
pub enum ReadCall {
    ReadCounts,
    ReadReceiveLevel,
    ReadTransmitLevel,
    ReadAsync,
}

#[derive(Clone, Copy)]
pub enum ReceiveCall {
    // A word arrives.
    Arrive(u32),
    ReadFifo,
    // An SDI/Label index.
    ReadMailbox(u32),
}

#[derive(Clone, Copy)]
pub enum TransmitCall {
    WriteFifo(u32),
    WriteAsync(u32),
    Trigger,
    Pause,
    Stop,
    Step,
}

#[derive(Clone, Copy)]
pub enum ChannelCall {
    Settings(SettingCall),
    Memories(MemoryCall),
    Status(StatusCall),
    Tests(TestCall),
    Reads(ReadCall),
    Receive(ReceiveCall),
    Transmit(TransmitCall),
}

// What an accepted call answers.
#[derive(Clone, Copy)]
pub enum Reply {
    Done,
    Value(u32),
    // The async mark, and the async word where one waits.
    Waiting(u32, u32),
    // Receive accepted, read, cleared, overwritten; transmit accepted, sent, cleared.
    Fates(u32, u32, u32, u32, u32, u32, u32),
    // What became of an arrival.
    Arrived(Arrival),
    // Status, word and stamp.
    Entry(u32, u32, u32),
    // What a step gave.
    Stepped(Output),
}

// What a call answers before the rule, and the conditions that it signals.
#[derive(Drop)]
pub struct Did {
    pub reply: Reply,
    pub signal: u32,
}

// What a call needs from the module part: the stamp, and whether the channel's fault counter is above the threshold, 0 or 1, before the
// call and after it.
#[derive(Drop)]
pub struct Given {
    pub stamp: u32,
    pub before: u32,
    pub after: u32,
}
