//! Writes a piece as a JSON object.
ghost use Rattle.std.specs.Prelude.{OnOk};
ghost use Rattle.std.specs.Io.KnownBytes.{Appends};
ghost use Rattle.cobs_live.specs.Json.{json, json_kind, json_message, json_partial, json_text};
ghost use Rattle.cobs_live.specs.Seen.{seen_in};

use crate::clock::{Stamp, Times};
use crate::escape::write_escaped;
use crate::seen::{Kind, Sight};
use cobs_lines::write_digits;
use std::io::{self, Write};
use std::str;

/// Writes a piece, with this number, as a JSON object on its own line. `stamp` says whether the object has a member
/// `time`, and which time this member has.
pub fn write_json<W: Write>(
    output: &mut W,
    number: u64,
    stamp: Stamp,
    times: &Times,
    piece: &Sight<'_>,
) -> io::Result<()>
    ensures written { OnOk result (Appends (W.contents output.old) (W.contents output.new)
        (json number stamp times.now (seen_in piece.now))) }
{
    write!(output, "{{\"frame\":{number}")?;
    times.write_member(output, stamp)?;
    output.write_all(b",\"kind\":")?;
    write_kind(output, piece)?;
    output.write_all(b"}\n")
}

/// Writes the kind of a piece, then a member for its length, and then the members for its bytes. A piece that is too
/// long has no member for its length.
fn write_kind<W: Write>(output: &mut W, piece: &Sight<'_>) -> io::Result<()>
    ensures written { OnOk result (Appends (W.contents output.old) (W.contents output.new)
        (json_kind (seen_in piece.now).kind (seen_in piece.now).len (seen_in piece.now).bytes)) }
{
    let len = piece.len;
    match piece.kind {
        Kind::Message => {
            output.write_all(b"\"message\"")?;
            write_message(output, len, piece.bytes)
        }
        Kind::Broken => {
            write!(output, "\"broken\",\"length\":{len}")?;
            write_partial(output, piece.bytes)
        }
        Kind::TooLong => {
            output.write_all(b"\"too-long\"")?;
            write_partial(output, piece.bytes)
        }
        Kind::BadCrc => {
            output.write_all(b"\"bad-crc\"")?;
            write_message(output, len, piece.bytes)
        }
    }
}

/// Writes the member `hex` with the decoded bytes of a broken or too long piece. If there are no decoded bytes, writes
/// nothing.
fn write_partial<W: Write>(output: &mut W, bytes: &[u8]) -> io::Result<()>
    ensures written { OnOk result
        (Appends (W.contents output.old) (W.contents output.new) (json_partial bytes.now)) }
{
    if bytes.len() == 0 {
        return Ok(());
    }
    output.write_all(b",\"hex\":\"")?;
    write_digits(output, bytes)?;
    output.write_all(b"\"")
}

/// Writes the members for a message: its length, its bytes and, if the message is UTF-8, its text.
fn write_message<W: Write>(output: &mut W, len: usize, bytes: &[u8]) -> io::Result<()>
    ensures written { OnOk result (Appends (W.contents output.old) (W.contents output.new)
        (json_message len bytes.now)) }
{
    write!(output, ",\"length\":{len},\"hex\":\"")?;
    write_digits(output, bytes)?;
    output.write_all(b"\"")?;
    write_utf8(output, bytes)?;
    Ok(())
}

/// Writes the member `text`, if the message is UTF-8.
fn write_utf8<W: Write>(output: &mut W, bytes: &[u8]) -> io::Result<()>
    ensures written { OnOk result
        (Appends (W.contents output.old) (W.contents output.new) (json_text bytes.now)) }
{
    let Ok(text) = str::from_utf8(bytes) else {
        return Ok(());
    };
    output.write_all(b",\"text\":\"")?;
    write_escaped(output, text)?;
    output.write_all(b"\"")
}
