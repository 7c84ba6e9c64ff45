// Clearing the FIFOs and stopping the transmitter.
ghost use Rattle.std.specs.Prelude.{◌≡◌};
ghost use Rattle.block.specs.Layout.{Whole};
ghost use Rattle.fifos.specs.Clearing.{receive_fifo_cleared, transmit_fifo_cleared, stopped, unmarked, forgotten};

use crate::entries::{RECEIVE, TRANSMIT, clear};
use crate::mailboxes::unlist;
use block::layout::{ADDRESS, ASYNC_MARK, MESSAGE_MARK, RECEIVE_LEVEL, STATE};

// Clears the receive FIFO and counts what it held; in mailbox mode the mailboxes of its indices lose their marks first.
pub fn clear_receive(block: &mut [u32])
    requires { Whole block.old }
    ensures { block.new ≡ receive_fifo_cleared block.old }
{
    let level = block[RECEIVE_LEVEL];
    unlist(block, level);
    clear(block, RECEIVE);
}

// Clears the transmit FIFO and counts what it held.
pub fn clear_transmit(block: &mut [u32])
    requires { Whole block.old }
    ensures { block.new ≡ transmit_fifo_cleared block.old }
{
    clear(block, TRANSMIT);
}

// Makes the transmitter idle at command 0.
pub fn stop(block: &mut [u32])
    requires { Whole block.old }
    ensures { block.new ≡ stopped block.old }
{
    block[STATE] = schedule::IDLE;
    block[ADDRESS] = 0;
}

// Forgets that the last thing sent by the schedule was a message word.
pub fn unmark(block: &mut [u32])
    requires { Whole block.old }
    ensures { block.new ≡ unmarked block.old }
{
    block[MESSAGE_MARK] = 0;
}

// Makes the transmitter idle at command 0, drops the async word and forgets what the schedule sent last.
pub fn forget(block: &mut [u32])
    requires { Whole block.old }
    ensures { block.new ≡ forgotten block.old }
{
    stop(block);
    unmark(block);
    block[ASYNC_MARK] = 0;
}
