// Writing a record at an offset of lent output bytes.
ghost use Rattle.std.specs.Prelude.{◌≡◌, ◌+◌, ◌*◌, ◌≤◌, length, eqb, false, [], ◌++◌, IfOk};
ghost use Rattle.std.proofs.lemmas.List.Edits.{sets};
ghost use Rattle.little_endian.specs.LittleEndian.{two};
ghost use Rattle.capture.specs.Format.{made, arrival, commands_of, half, whole, length_of, fours, bytes_of};
ghost use Rattle.capture.specs.Numbers.{kind_number, number_of, written_of};
ghost use Rattle.capture.specs.Write.{count_refusal, write_refusal, written, bytes_after};

use crate::Cursor;
use crate::kinds::{ARRIVAL_LENGTH, HALF, Kind, WHOLE};
use crate::reading::channel_refusal;
use crate::refusal::Refusal;
use little_endian::{put_half, put_word};

// The kind of a number, where a record of it has so many commands.
fn kind_of_count(number: u32, count: usize) -> Result<Kind, Refusal>
    ensures refusal { number_of result ≡ count_refusal number count }
    ensures kind { IfOk result (λ kind. kind_number kind ≡ number) }
{
    let kind = Kind::try_from(number)?;
    if count == kind.commands() {
        Ok(kind)
    } else {
        Err(Refusal::WrongLength)
    }
}

// The kind of a record that is refused for nothing, with `room` bytes behind the offset.
fn accepted(room: usize, number: u32, channel: u32, count: usize) -> Result<Kind, Refusal>
    ensures refusal { number_of result ≡ write_refusal room number channel count }
    ensures kind { IfOk result (λ kind. kind_number kind ≡ number) }
{
    let kind = kind_of_count(number, count)?;
    channel_refusal(channel)?;
    if room < HALF + kind.length() {
        return Err(Refusal::NoRoom);
    }
    Ok(kind)
}

// Writes the commands from an index on.
fn put_commands(bytes: &mut [u8], at: usize, commands: &[u32])
    requires { at + whole * length commands.now ≤ length bytes.old }
    ensures { bytes.new ≡ sets bytes.old at (fours commands.now) }
{
    for (i, command) in commands.iter().enumerate() {
        put_word(bytes, at + WHOLE * i, *command);
    }
}

// Writes length, kind and channel.
fn put_head(bytes: &mut [u8], at: usize, long: u32, kind: u32, channel: u32)
    requires { at + half + half + half ≤ length bytes.old }
    ensures { bytes.new ≡ sets bytes.old at (two long ++ (two kind ++ two channel)) }
{
    put_half(bytes, at, long);
    put_half(bytes, at + HALF, kind);
    put_half(bytes, at + HALF + HALF, channel);
}

fn put_arrival(bytes: &mut [u8], at: usize, channel: u32, word: u32, stamp: u32)
    requires { at + half + length_of arrival ≤ length bytes.old }
    ensures { bytes.new ≡ sets bytes.old at (bytes_of (made arrival channel word stamp [])) }
{
    put_head(
        bytes,
        at,
        ARRIVAL_LENGTH as u32,
        Kind::Arrival.into(),
        channel,
    );
    put_word(bytes, at + HALF + HALF + HALF, word);
    put_word(bytes, at + HALF + HALF + HALF + WHOLE, stamp);
}

fn put_image(bytes: &mut [u8], at: usize, kind: Kind, channel: u32, commands: &[u32])
    requires kind_in_bounds { at + half + length_of (kind_number kind) ≤ length bytes.old }
    requires commands_len { length commands.now ≡ commands_of (kind_number kind) }
    requires arrival_value { eqb (kind_number kind) arrival ≡ false }
    ensures { bytes.new ≡ sets bytes.old at (bytes_of (made (kind_number kind) channel 0 0 commands.now)) }
{
    put_head(bytes, at, kind.length() as u32, kind.into(), channel);
    put_commands(bytes, at + HALF + HALF + HALF, commands);
}

// Writes a record that is refused for nothing.
fn put_record(
    bytes: &mut [u8],
    at: usize,
    kind: Kind,
    channel: u32,
    word: u32,
    stamp: u32,
    commands: &[u32],
)
    requires kind_in_bounds { at + half + length_of (kind_number kind) ≤ length bytes.old }
    requires commands_len { length commands.now ≡ commands_of (kind_number kind) }
    ensures { bytes.new ≡ sets bytes.old at (bytes_of (made (kind_number kind) channel word stamp commands.now)) }
{
    match kind {
        Kind::Arrival => put_arrival(bytes, at, channel, word, stamp),
        Kind::OldImage | Kind::Image => put_image(bytes, at, kind, channel, commands),
    }
}

// Writes a record at an offset, an arrival's word and stamp or an image's commands, and answers the offset behind it.
pub fn write(
    bytes: &mut [u8],
    cursor: Cursor,
    kind: u32,
    channel: u32,
    word: u32,
    stamp: u32,
    commands: &[u32],
) -> Result<Cursor, Refusal>
    ensures answer { written_of result ≡ written (length bytes.old) cursor.offset (made kind channel word stamp commands.now) }
    ensures after { bytes.new ≡ bytes_after bytes.old cursor.offset (made kind channel word stamp commands.now) }
{
    let at = cursor.offset;
    let room = bytes.len().saturating_sub(at);
    let kind = accepted(room, kind, channel, commands.len())?;
    put_record(bytes, at, kind, channel, word, stamp, commands);
    Ok(Cursor {
        offset: at + HALF + kind.length(),
    })
}
