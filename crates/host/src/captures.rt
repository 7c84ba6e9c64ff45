// The C interface of capture files: what stands at an offset of capture bytes, and a record written at one.
ghost use Rattle.std.specs.Prelude.{◌≡◌, length};
ghost use Rattle.capture.specs.Format.{made};
ghost use Rattle.capture.specs.Read.{seen_at, read_at, lent_after};
ghost use Rattle.capture.specs.Write.{written, bytes_after};

use capture::Cursor;

// The kind of the record at an offset; 0 at the end and beside a refusal.
pub fn nqabelihu_capture_kind(bytes: &[u8], offset: usize) -> u32
    ensures { result ≡ (seen_at bytes.now offset).kind }
{
    let seen = capture::reading::look(bytes, Cursor { offset });
    match seen {
        Ok(Some(found)) => found.kind.into(),
        Ok(None) | Err(_) => 0,
    }
}

// The offset behind the record at an offset; the same offset at the end and beside a refusal.
pub fn nqabelihu_capture_offset(bytes: &[u8], offset: usize) -> usize
    ensures { result ≡ (seen_at bytes.now offset).next.offset }
{
    let cursor = Cursor { offset };
    capture::reading::next(capture::reading::look(bytes, cursor), cursor).offset
}

// The refusal of the record at an offset, 20 to 23; 0 for a record and at the end.
pub fn nqabelihu_capture_refusal(bytes: &[u8], offset: usize) -> u32
    ensures { result ≡ (seen_at bytes.now offset).number }
{
    match capture::reading::look(bytes, Cursor { offset }) {
        Ok(_) => 0,
        Err(refusal) => u32::from(refusal),
    }
}

// Reads the record at an offset: the result is the number, an image fills the first of `commands`, and the others take the
// record's kind, the offset behind it, its channel, and an arrival's word and stamp.
pub fn nqabelihu_capture_read(
    bytes: &[u8],
    offset: usize,
    commands: &mut [u32],
    kind: &mut u32,
    next: &mut usize,
    channel: &mut u32,
    word: &mut u32,
    stamp: &mut u32,
) -> u32
    ensures number { result ≡ (read_at bytes.now offset (length commands.old)).number }
    ensures commands { commands.new ≡ lent_after bytes.now offset commands.old }
    ensures kind { kind.new ≡ (read_at bytes.now offset (length commands.old)).kind }
    ensures next { next.new ≡ (read_at bytes.now offset (length commands.old)).next.offset }
    ensures channel { channel.new ≡ (read_at bytes.now offset (length commands.old)).channel }
    ensures word { word.new ≡ (read_at bytes.now offset (length commands.old)).word }
    ensures stamp { stamp.new ≡ (read_at bytes.now offset (length commands.old)).stamp }
{
    *kind = 0;
    *next = offset;
    *channel = 0;
    *word = 0;
    *stamp = 0;
    match capture::reading::read(bytes, Cursor { offset }, commands) {
        Ok(Some(found)) => {
            *kind = found.kind.into();
            *next = found.next.offset;
            *channel = found.channel;
            *word = found.word;
            *stamp = found.stamp;
            0
        }
        Ok(None) => 0,
        Err(refusal) => refusal.into(),
    }
}

// Writes a record at an offset: the result is the number, and `next` takes the offset behind the record, 0 beside a refusal.
pub fn nqabelihu_capture_write(
    bytes: &mut [u8],
    offset: usize,
    kind: u32,
    channel: u32,
    word: u32,
    stamp: u32,
    commands: &[u32],
    next: &mut usize,
) -> u32
    ensures number { result ≡ (written (length bytes.old) offset (made kind channel word stamp commands.now)).number }
    ensures bytes { bytes.new ≡ bytes_after bytes.old offset (made kind channel word stamp commands.now) }
    ensures next { next.new ≡ (written (length bytes.old) offset (made kind channel word stamp commands.now)).next.offset }
{
    let cursor = Cursor { offset };
    match capture::writing::write(bytes, cursor, kind, channel, word, stamp, commands) {
        Ok(behind) => {
            *next = behind.offset;
            0
        }
        Err(refusal) => {
            *next = 0;
            refusal.into()
        }
    }
}
