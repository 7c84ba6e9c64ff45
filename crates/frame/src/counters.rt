// The fault counters: the add-2 subtract-1 scheme.
ghost use Rattle.std.specs.Prelude.{◌≡◌, ◌≤◌, length};
ghost use Rattle.frame.specs.Layout.{module_words, most};
ghost use Rattle.frame.specs.Counters.{sampled, counters_of, sampled_at};

use crate::layout::COUNTERS;

// Where a counter stops.
pub const TOP: u32 = 65536;

// A counter after a sample: 0 good, else failing.
fn sampled(res: u32, counter: u32) -> u32
    ensures { result ≡ sampled res counter }
{
    if res == 0 {
        if counter == 0 {
            return 0;
        }
        return counter - 1;
    }
    if TOP - 2 < counter {
        return TOP;
    }
    counter + 2
}

// The module's twelve counters.
pub fn read(mem: &[u32]) -> [u32; 12]
    requires { module_words ≤ length mem.now }
    ensures { result ≡ counters_of mem.now }
{
    [
        mem[COUNTERS],
        mem[COUNTERS + 1],
        mem[COUNTERS + 2],
        mem[COUNTERS + 3],
        mem[COUNTERS + 4],
        mem[COUNTERS + 5],
        mem[COUNTERS + 6],
        mem[COUNTERS + 7],
        mem[COUNTERS + 8],
        mem[COUNTERS + 9],
        mem[COUNTERS + 10],
        mem[COUNTERS + 11],
    ]
}

// The twelve counters after a sample of one channel.
pub fn sample(counters: [u32; 12], channel: u32, res: u32) -> [u32; 12]
    requires { (1 ≤ channel) × (channel ≤ most) }
    ensures { result ≡ sampled_at channel res counters }
{
    let mut next = counters;
    let at = (channel - 1) as usize;
    next[at] = sampled(res, counters[at]);
    next
}
