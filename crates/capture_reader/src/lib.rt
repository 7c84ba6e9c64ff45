// A reader of a capture: it holds the bytes and the offset of the next record.
#![tactic(auto)]

ghost use Rattle.std.specs.Prelude.{◌≡◌, length};
ghost use Rattle.capture.specs.Numbers.{answer_of};
ghost use Rattle.capture.specs.Read.{seen_at, read_at, lent_after};
ghost use Rattle.capture_reader.specs.Moved.{moved};

use capture::Cursor;
use capture::reading::Found;
use capture::refusal::Refusal;

#[derive(Drop)]
pub struct Reader<'a> {
    pub bytes: &'a [u8],
    pub offset: usize,
}

// A reader at the start.
pub fn new<'a>(bytes: &'a [u8]) -> Reader<'a>
    ensures { (result.bytes ≡ bytes.entry) × (result.offset ≡ 0) }
{
    Reader { bytes, offset: 0 }
}

// The work: the record at an offset of a slice.
pub fn read_at(bytes: &[u8], offset: usize, lent: &mut [u32]) -> Result<Option<Found>, Refusal>
    ensures { (answer_of offset result ≡ read_at bytes.now offset (length lent.old))
        × (lent.new ≡ lent_after bytes.now offset lent.old) }
{
    capture::reading::read(bytes, Cursor { offset }, lent)
}

// The next record; the reader moves on behind it, and stays at the end and after a refusal.
pub fn next<'s, 'a, 'l>(
    r: &'s mut Reader<'a>,
    lent: &'l mut [u32],
) -> Result<Option<Found>, Refusal>
    ensures { (answer_of r.old.offset result ≡ read_at r.old.bytes.now r.old.offset (length lent.old))
        × (lent.new ≡ lent_after r.old.bytes.now r.old.offset lent.old)
        × (r.new ≡ moved r.old (length lent.old)) }
{
    let offset = r.offset;
    let seen = read_at(r.bytes, offset, lent);
    r.offset = capture::reading::next(seen, Cursor { offset }).offset;
    seen
}

// What stands at an offset of a slice, with no lent words.
pub fn look_at(bytes: &[u8], offset: usize) -> Result<Option<Found>, Refusal>
    ensures { answer_of offset result ≡ seen_at bytes.now offset }
{
    capture::reading::look(bytes, Cursor { offset })
}

// What stands at the reader's offset; it stays there.
pub fn peek<'a>(r: Reader<'a>) -> Result<Option<Found>, Refusal>
    ensures { answer_of r.entry.offset result ≡ seen_at r.entry.bytes.now r.entry.offset }
{
    look_at(r.bytes, r.offset)
}

// The first record of a capture, for callers that hold a plain slice.
pub fn first(bytes: &[u8]) -> Result<Option<Found>, Refusal>
    ensures { answer_of 0 result ≡ seen_at bytes.now 0 }
{
    peek(new(bytes))
}
