// Where each word of a channel's block stands. The numbers with a range come first, so that one table of ranges serves them all: an offset is the one before it and its size.
use ring::SLOTS;
use schedule::{COMMANDS, MESSAGES};

// Settings.
pub const RECEIVER: usize = 0;

pub const TRANSMITTER: usize = RECEIVER + 1;

pub const PARITY: usize = TRANSMITTER + 1;

pub const MATCH: usize = PARITY + 1;

pub const STAMPS: usize = MATCH + 1;

pub const RECEIVE_MODE: usize = STAMPS + 1;

pub const FIFO_KIND: usize = RECEIVE_MODE + 1;

pub const TRANSMIT_MODE: usize = FIFO_KIND + 1;

pub const RECEIVE_SIZE: usize = TRANSMIT_MODE + 1;

pub const ALMOST_FULL: usize = RECEIVE_SIZE + 1;

pub const ALMOST_EMPTY: usize = ALMOST_FULL + 1;

pub const RATE: usize = ALMOST_EMPTY + 1;

// How many settings there are.
pub const SETTINGS: usize = RATE + 1;

// Both FIFOs: how many entries are held, and the slot of the oldest.
pub const RECEIVE_LEVEL: usize = SETTINGS;

pub const RECEIVE_POSITION: usize = RECEIVE_LEVEL + 1;

pub const TRANSMIT_LEVEL: usize = RECEIVE_POSITION + 1;

pub const TRANSMIT_POSITION: usize = TRANSMIT_LEVEL + 1;

// The transmitter's state, the address of the next command, and the mark of a waiting async word.
pub const STATE: usize = TRANSMIT_POSITION + 1;

pub const ADDRESS: usize = STATE + 1;

pub const ASYNC_MARK: usize = ADDRESS + 1;

// The status masks: latched conditions, enabled interrupts, and conditions that latch by level.
pub const LATCH: usize = ASYNC_MARK + 1;

pub const ENABLE: usize = LATCH + 1;

pub const LEVEL_MASK: usize = ENABLE + 1;

// The message mark: 1 where the last thing that the schedule sent was a message word.
pub const MESSAGE_MARK: usize = LEVEL_MASK + 1;

// How many words have a range: those above.
pub const RANGED: usize = MESSAGE_MARK + 1;

// The async word, which is waiting where its mark is 1.
pub const ASYNC_WORD: usize = RANGED;

// The counts of fates.
pub const RECEIVE_ACCEPTED: usize = ASYNC_WORD + 1;

pub const RECEIVE_READ: usize = RECEIVE_ACCEPTED + 1;

pub const RECEIVE_CLEARED: usize = RECEIVE_READ + 1;

pub const RECEIVE_OVERWRITTEN: usize = RECEIVE_CLEARED + 1;

pub const TRANSMIT_ACCEPTED: usize = RECEIVE_OVERWRITTEN + 1;

pub const TRANSMIT_SENT: usize = TRANSMIT_ACCEPTED + 1;

pub const TRANSMIT_CLEARED: usize = TRANSMIT_SENT + 1;

// The receive FIFO's ring of 255 entries of three words, and the transmit FIFO's of 255 words.
pub const RECEIVE_RING: usize = TRANSMIT_CLEARED + 1;

pub const TRANSMIT_RING: usize = RECEIVE_RING + 3 * (SLOTS as usize);

// The SDI/Label indexes.
pub const INDEXES: u32 = 1024;

pub const LAST_INDEX: u32 = INDEXES - 1;

// 1,024 mailboxes of three words, the match set of 1,024 bits, the message RAM and the schedule RAM.
pub const MAILBOXES: usize = TRANSMIT_RING + (SLOTS as usize);

pub const MATCH_SET: usize = MAILBOXES + 3 * (INDEXES as usize);

pub const MESSAGE_RAM: usize = MATCH_SET + (INDEXES as usize) / 32;

pub const SCHEDULE_RAM: usize = MESSAGE_RAM + (MESSAGES as usize);

// The words of a channel.
pub const WORDS: usize = SCHEDULE_RAM + (COMMANDS as usize);
