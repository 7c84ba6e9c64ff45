// The seven conditions, the latch and the rule. A mask has a bit for each condition: bit 0 weighs 1, bit 6 weighs 64.
ghost use Rattle.std.specs.Prelude.{◌≡◌, ◌≤◌, ◌<◌};
ghost use Rattle.block.specs.Layout.{Whole};
ghost use Rattle.status.specs.Status.{flag, conditions, faulty, holding, latch_bit, latched, ruled, chosen_bit, chosen, latch_cleared, pending};

use block::layout::{
    ALMOST_EMPTY, ALMOST_FULL, ENABLE, LATCH, LEVEL_MASK, RECEIVE_LEVEL, RECEIVE_SIZE,
    TRANSMIT_LEVEL,
};

// The conditions that a call may signal, and the fault.
pub const PARITY_ERROR: u32 = 16;

pub const INTERRUPT: u32 = 32;

pub const FAULT: u32 = 64;

// A weight where a test holds, else 0.
fn flag(test: bool, weight: u32) -> u32
    ensures value { result ≡ flag test weight }
    ensures bound { result ≤ weight }
{
    if test {
        return weight;
    }
    0
}

// The conditions 0 to 3 that hold of a block.
#[tactic(auto, unfolding(crate::specs::Status::conditions))]
pub fn conditions(block: &[u32]) -> u32
    requires { Whole block.now }
    ensures value { result ≡ conditions block.now }
    ensures bound { result < 16 }
{
    let level = block[RECEIVE_LEVEL];
    let sending = block[TRANSMIT_LEVEL];
    flag(block[ALMOST_FULL] <= level, 1)
        + flag(level == block[RECEIVE_SIZE], 2)
        + flag(sending <= block[ALMOST_EMPTY], 4)
        + flag(sending == 0, 8)
}

// Condition 6: whether a fault counter is above the threshold, 1 or 0, which is multiplied by the condition's weight.
pub fn fault(counter: u32, threshold: u32) -> u32
    ensures value { result ≡ faulty counter threshold }
    ensures bound { result ≤ 1 }
{
    flag(threshold < counter, 1)
}

// The conditions that hold of a block, with the fault: 0 or 1.
pub fn holding(fault: u32, block: &[u32]) -> u32
    requires { (Whole block.now) × (fault ≤ 1) }
    ensures value { result ≡ holding fault block.now }
    ensures bound { result < 128 }
{
    conditions(block) + FAULT * fault
}

// The latch bit of one condition after a call: its weight or 0.
#[tactic(auto, unfolding(crate::specs::Status::latch_bit))]
fn latch_bit(weight: u32, latch: u32, level: u32, before: u32, holds: u32) -> u32
    requires { 0 < weight }
    ensures value { result ≡ latch_bit weight latch level before holds }
    ensures bound { result ≤ weight }
{
    if latch / weight % 2 == 1 {
        return weight;
    }
    if holds / weight % 2 == 0 {
        return 0;
    }
    if level / weight % 2 == 1 {
        return weight;
    }
    if before / weight % 2 == 1 {
        return 0;
    }
    weight
}

// The latch after a call. A sum of seven, as in `chosen`: a function over a closure would ask for each bit's bound in clauses of its own.
#[tactic(auto, unfolding(crate::specs::Status::latched))]
fn latched(latch: u32, level: u32, before: u32, holds: u32) -> u32
    ensures { result ≡ latched latch level before holds }
{
    latch_bit(1, latch, level, before, holds)
        + latch_bit(2, latch, level, before, holds)
        + latch_bit(4, latch, level, before, holds)
        + latch_bit(8, latch, level, before, holds)
        + latch_bit(16, latch, level, before, holds)
        + latch_bit(32, latch, level, before, holds)
        + latch_bit(64, latch, level, before, holds)
}

// The rule that runs after every accepted call, with the conditions before it and those that hold now.
pub fn rule(block: &mut [u32], before: u32, holds: u32)
    requires { Whole block.old }
    ensures { block.new ≡ ruled before holds block.old }
{
    block[LATCH] = latched(block[LATCH], block[LEVEL_MASK], before, holds);
}

// A latch bit whose bit of a mask is `choice`: its weight or 0.
#[tactic(auto, unfolding(crate::specs::Status::chosen_bit))]
fn chosen_bit(weight: u32, latch: u32, mask: u32, choice: u32) -> u32
    requires { 0 < weight }
    ensures value { result ≡ chosen_bit weight latch mask choice }
    ensures bound { result ≤ weight }
{
    if latch / weight % 2 == 1 {
        if mask / weight % 2 == choice {
            return weight;
        }
        return 0;
    }
    0
}

// The latch bits whose bit of a mask is `choice`.
#[tactic(auto, unfolding(crate::specs::Status::chosen))]
fn chosen(latch: u32, mask: u32, choice: u32) -> u32
    ensures { result ≡ chosen latch mask choice }
{
    chosen_bit(1, latch, mask, choice)
        + chosen_bit(2, latch, mask, choice)
        + chosen_bit(4, latch, mask, choice)
        + chosen_bit(8, latch, mask, choice)
        + chosen_bit(16, latch, mask, choice)
        + chosen_bit(32, latch, mask, choice)
        + chosen_bit(64, latch, mask, choice)
}

// Clears the latch bits that are ones in a mask.
pub fn clear_latch(block: &mut [u32], mask: u32)
    requires { Whole block.old }
    ensures { block.new ≡ latch_cleared mask block.old }
{
    block[LATCH] = chosen(block[LATCH], mask, 0);
}

// Whether an interrupt is pending, that is a latched bit is enabled: 1 or 0, the value that the call answers.
#[tactic(auto, unfolding(crate::specs::Status::pending))]
pub fn pending(block: &[u32]) -> u32
    requires { Whole block.now }
    ensures { result ≡ pending block.now }
{
    u32::from(chosen(block[LATCH], block[ENABLE], 1) != 0)
}
