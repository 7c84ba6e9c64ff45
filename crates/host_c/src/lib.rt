// The C interface as a static library: each function of `host` under its C name, with its clauses. The archive is libhost.a.
#![tactic(auto)]

ghost use Rattle.std.specs.Prelude.{◌≡◌, length, pos};
ghost use Rattle.std.specs.Result.{result_unwrap_or};
ghost use Rattle.word.specs.Word.{label, sdi, index};
ghost use Rattle.items.specs.Items.{decoded};
ghost use Rattle.host.specs.Host.{host_words, host_number, host_values, host_after};
ghost use Rattle.word.specs.Parity.{odd_parity};
ghost use Rattle.word.specs.Fields.{data_bits, sign_status, low_byte, index_of};
ghost use Rattle.readings.specs.Reading.{whole, reading, number_of, kind_of, units_of};
ghost use Rattle.readings.specs.Encoding.{encoded};
ghost use Rattle.capture.specs.Format.{made};
ghost use Rattle.capture.specs.Read.{seen_at, read_at, lent_after};
ghost use Rattle.capture.specs.Write.{written, bytes_after};
ghost use Rattle.host.specs.Version.{version};

// The words of memory that a module of `count` channels needs; 0 where a module cannot have so many channels.
#[unsafe(no_mangle)]
pub extern "C" fn nqabelihu_words(count: u32) -> usize
    ensures { result ≡ host_words count }
{
    host::nqabelihu_words(count)
}

// The label of a word, bits 1 to 8: written in octal it is the number that the documents list.
#[unsafe(no_mangle)]
pub extern "C" fn nqabelihu_label(word: u32) -> u32
    ensures { result ≡ label word }
{
    host::nqabelihu_label(word)
}

// Performs the item `op channel a b` on a module's memory: the result is the answer's number, and `values` takes the answer's values, zeros
// where it has fewer. With fewer than seven words lent for the values the result is 24 and nothing is changed.
#[unsafe(no_mangle)]
pub extern "C" fn nqabelihu_perform(
    mem: &mut [u32],
    values: &mut [u32],
    op: u32,
    channel: u32,
    a: u32,
    b: u32,
) -> u32
    ensures answer { result ≡ host_number (length values.old) (decoded op channel a b) mem.old }
    ensures values { values.new ≡ host_values values.old (decoded op channel a b) mem.old }
    ensures after { mem.new ≡ host_after (length values.old) (decoded op channel a b) mem.old }
{
    host::nqabelihu_perform(mem, values, op, channel, a, b)
}

// The low byte of the words that have a label.
#[unsafe(no_mangle)]
pub extern "C" fn nqabelihu_low_byte(label: u32) -> u32
    ensures { result ≡ low_byte label }
{
    host::words::nqabelihu_low_byte(label)
}

// The source/destination identifier, bits 9 and 10.
#[unsafe(no_mangle)]
pub extern "C" fn nqabelihu_sdi(word: u32) -> u32
    ensures { result ≡ sdi word }
{
    host::words::nqabelihu_sdi(word)
}

// The data bits, bits 11 to 29.
#[unsafe(no_mangle)]
pub extern "C" fn nqabelihu_data_bits(word: u32) -> u32
    ensures { result ≡ data_bits word }
{
    host::words::nqabelihu_data_bits(word)
}

// The sign/status matrix, bits 30 and 31.
#[unsafe(no_mangle)]
pub extern "C" fn nqabelihu_sign_status(word: u32) -> u32
    ensures { result ≡ sign_status word }
{
    host::words::nqabelihu_sign_status(word)
}

// The SDI/Label index of a word.
#[unsafe(no_mangle)]
pub extern "C" fn nqabelihu_index_of_word(word: u32) -> u32
    ensures { result ≡ index word }
{
    host::words::nqabelihu_index_of_word(word)
}

// The SDI/Label index of the words that have a label and an SDI.
#[unsafe(no_mangle)]
pub extern "C" fn nqabelihu_index_of_label(label: u32, sdi: u32) -> u32
    ensures { result ≡ index_of label sdi }
{
    host::words::nqabelihu_index_of_label(label, sdi)
}

// The word with its parity bit set or cleared so that the count of ones is odd.
#[unsafe(no_mangle)]
pub extern "C" fn nqabelihu_with_odd_parity(word: u32) -> u32
    ensures { result ≡ odd_parity word }
{
    host::words::nqabelihu_with_odd_parity(word)
}

// What a word reads as: the result is the number, `kind` takes 1 to 3 and `units` the value as a double; zeros beside a refusal.
#[unsafe(no_mangle)]
pub extern "C" fn nqabelihu_read_word(
    list: &[u32],
    word: u32,
    kind: &mut u32,
    units: &mut f64,
) -> u32
    ensures number { result ≡ number_of (reading list.now word) }
    ensures kind { kind.new ≡ kind_of (reading list.now word) }
    ensures units { units.new ≡ units_of (reading list.now word) }
{
    host::reading_words::nqabelihu_read_word(list, word, kind, units)
}

// The whole number in a word, binary undivided; 0 beside a refusal.
#[unsafe(no_mangle)]
pub extern "C" fn nqabelihu_whole_number(list: &[u32], word: u32) -> i32
    ensures { result ≡ result_unwrap_or (whole list.now word) (pos 0) }
{
    host::reading_words::nqabelihu_whole_number(list, word)
}

// The word with a whole number in it: the result is the number, and `result` takes the word, 0 beside a refusal.
#[unsafe(no_mangle)]
pub extern "C" fn nqabelihu_encode_word(list: &[u32], word: u32, value: i32, res: &mut u32) -> u32
    ensures number { result ≡ number_of (encoded list.now word value) }
    ensures word { res.new ≡ result_unwrap_or (encoded list.now word value) 0 }
{
    host::reading_words::nqabelihu_encode_word(list, word, value, res)
}

// The kind of the record at an offset; 0 at the end and beside a refusal.
#[unsafe(no_mangle)]
pub extern "C" fn nqabelihu_capture_kind(bytes: &[u8], offset: usize) -> u32
    ensures { result ≡ (seen_at bytes.now offset).kind }
{
    host::captures::nqabelihu_capture_kind(bytes, offset)
}

// The offset behind the record at an offset; the same offset at the end and beside a refusal.
#[unsafe(no_mangle)]
pub extern "C" fn nqabelihu_capture_offset(bytes: &[u8], offset: usize) -> usize
    ensures { result ≡ (seen_at bytes.now offset).next.offset }
{
    host::captures::nqabelihu_capture_offset(bytes, offset)
}

// The refusal of the record at an offset, 20 to 23; 0 for a record and at the end.
#[unsafe(no_mangle)]
pub extern "C" fn nqabelihu_capture_refusal(bytes: &[u8], offset: usize) -> u32
    ensures { result ≡ (seen_at bytes.now offset).number }
{
    host::captures::nqabelihu_capture_refusal(bytes, offset)
}

// Reads the record at an offset: the result is the number, an image fills the first of `commands`, and the others take the
// record's kind, the offset behind it, its channel, and an arrival's word and stamp.
#[unsafe(no_mangle)]
pub extern "C" fn nqabelihu_capture_read(
    bytes: &[u8],
    offset: usize,
    commands: &mut [u32],
    kind: &mut u32,
    next: &mut usize,
    channel: &mut u32,
    word: &mut u32,
    stamp: &mut u32,
) -> u32
    ensures number { result ≡ (read_at bytes.now offset (length commands.old)).number }
    ensures commands { commands.new ≡ lent_after bytes.now offset commands.old }
    ensures kind { kind.new ≡ (read_at bytes.now offset (length commands.old)).kind }
    ensures next { next.new ≡ (read_at bytes.now offset (length commands.old)).next.offset }
    ensures channel { channel.new ≡ (read_at bytes.now offset (length commands.old)).channel }
    ensures word { word.new ≡ (read_at bytes.now offset (length commands.old)).word }
    ensures stamp { stamp.new ≡ (read_at bytes.now offset (length commands.old)).stamp }
{
    host::captures::nqabelihu_capture_read(
        bytes, offset, commands, kind, next, channel, word, stamp,
    )
}

// Writes a record at an offset: the result is the number, and `next` takes the offset behind the record, 0 beside a refusal.
#[unsafe(no_mangle)]
pub extern "C" fn nqabelihu_capture_write(
    bytes: &mut [u8],
    offset: usize,
    kind: u32,
    channel: u32,
    word: u32,
    stamp: u32,
    commands: &[u32],
    next: &mut usize,
) -> u32
    ensures number { result ≡ (written (length bytes.old) offset (made kind channel word stamp commands.now)).number }
    ensures bytes { bytes.new ≡ bytes_after bytes.old offset (made kind channel word stamp commands.now) }
    ensures next { next.new ≡ (written (length bytes.old) offset (made kind channel word stamp commands.now)).next.offset }
{
    host::captures::nqabelihu_capture_write(
        bytes, offset, kind, channel, word, stamp, commands, next,
    )
}

// The version as one number.
#[unsafe(no_mangle)]
pub extern "C" fn nqabelihu_version() -> u32
    ensures { result ≡ version }
{
    host::version::nqabelihu_version()
}
