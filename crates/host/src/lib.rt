// The C interface: the words that a module needs, one call item performed on lent memory, the fields of a word, readings, capture files, and the version.
#![tactic(auto)]

pub mod captures;
pub mod reading_words;
pub mod version;
pub mod words;

ghost use Rattle.std.specs.Prelude.{◌≡◌, length};
ghost use Rattle.word.specs.Word.{label};
ghost use Rattle.items.specs.Items.{decoded};
ghost use Rattle.host.specs.Host.{host_words, host_number, host_values, host_after};

use frame::layout::MOST;

// The words that the values of an answer need.
const VALUES: usize = 7;

// Fewer words than that are lent for the values.
const FEW_VALUES: u32 = 24;

// The words of memory that a module of `count` channels needs; 0 where a module cannot have so many channels.
pub fn nqabelihu_words(count: u32) -> usize
    ensures { result ≡ host_words count }
{
    if count < 1 {
        return 0;
    }
    if MOST < count {
        return 0;
    }
    frame::layout::need(count)
}

// The label of a word, bits 1 to 8: written in octal it is the number that the documents list.
pub fn nqabelihu_label(word: u32) -> u32
    ensures { result ≡ label word }
{
    u32::from(word::label(word))
}

// Performs the item `op channel a b` on a module's memory: the result is the answer's number, and `values` takes the answer's values, zeros
// where it has fewer. With fewer than seven words lent for the values the result is 24 and nothing is changed.
pub fn nqabelihu_perform(
    mem: &mut [u32],
    values: &mut [u32],
    op: u32,
    channel: u32,
    a: u32,
    b: u32,
) -> u32
    ensures answer { result ≡ host_number (length values.old) (decoded op channel a b) mem.old }
    ensures values { values.new ≡ host_values values.old (decoded op channel a b) mem.old }
    ensures after { mem.new ≡ host_after (length values.old) (decoded op channel a b) mem.old }
{
    if values.len() < VALUES {
        return FEW_VALUES;
    }
    let answered = calls::perform::perform_item(mem, op, channel, a, b);
    let words = answered.words;
    values[0] = words[1];
    values[1] = words[2];
    values[2] = words[3];
    values[3] = words[4];
    values[4] = words[5];
    values[5] = words[6];
    values[6] = words[7];
    words[0]
}
