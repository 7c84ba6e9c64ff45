// The modes: values of the settings of receive mode, FIFO kind and transmit mode. Numbers, since a setting is a word of the lent memory,
// where any number may stand.

// Receive modes: FIFO, or mailbox, which is 1.
pub const FIFO_MODE: u32 = 0;

// FIFO kinds.
pub const BOUNDED: u32 = 0;

pub const CIRCULAR: u32 = 1;

// Transmit modes.
pub const IMMEDIATE: u32 = 0;

pub const TRIGGERED: u32 = 1;

pub const SCHEDULED: u32 = 2;
