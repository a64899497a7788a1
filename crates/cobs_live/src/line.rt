//! Writes a piece in any style.
ghost use Rattle.std.specs.Prelude.{◌≡◌, ◌++◌, OnOk, IfSome, IsSome, ◌↔◌, IsTrue, codes};
ghost use Rattle.std.specs.Io.KnownBytes.{Appends};
ghost use Rattle.cobs_lines.specs.Lines.{spaced_digits};
ghost use Rattle.cobs_live.specs.Seen.{color_end, color_of, heading, mark, seen_in, title, titled};
ghost use Rattle.cobs_live.specs.Shown.{dump_lines, hex_line, is_plain, of_message, spaced, styled, text_line};

use crate::capture::write_packet;
use crate::clock::Times;
use crate::dump::write_dump;
use crate::escape::is_hidden;
use crate::json::write_json;
use crate::seen::{Kind, Sight};
use crate::shown::{Style, View};
use cobs_lines::write_digits;
use std::io::{self, Write};
use std::str;

/// Writes a piece, with this number and these times, in the view's style.
pub fn write_line<W: Write>(
    output: &mut W,
    view: &View,
    number: u64,
    times: &Times,
    piece: &Sight<'_>,
) -> io::Result<()>
    ensures written { OnOk result (Appends (W.contents output.old) (W.contents output.new)
        (styled view.now.style view.now.color number view.now.stamp times.now (seen_in piece.now))) }
{
    match view.style {
        Style::Hex => write_hex(output, view.color, piece),
        Style::Text => write_text(output, view.color, piece),
        Style::Hexdump => write_dumped(output, view.color, piece),
        Style::Json => write_json(output, number, view.stamp, times, piece),
        Style::Raw => match piece.kind {
            Kind::Message => write_raw(output, piece.bytes),
            Kind::Broken | Kind::TooLong | Kind::BadCrc => Ok(()),
        },
        Style::Pcap => match piece.kind {
            Kind::Message => write_packet(output, times.next.millis, piece.bytes),
            Kind::Broken | Kind::TooLong | Kind::BadCrc => Ok(()),
        },
    }
}

/// Writes the title of a piece, in the colour of its kind if `color` is set.
fn write_titled<W: Write>(output: &mut W, color: bool, kind: Kind, len: usize) -> io::Result<()>
    ensures written { OnOk result
        (Appends (W.contents output.old) (W.contents output.new) (titled color kind len)) }
{
    if !color {
        return write_title(output, kind, len);
    }
    output.write_all(color_of(kind))?;
    write_title(output, kind, len)?;
    output.write_all(b"\x1b[0m")
}

/// Returns the escape sequence that switches the terminal to the colour of a kind.
fn color_of(kind: Kind) -> &'static [u8]
    ensures color { result.now ≡ color_of kind }
{
    match kind {
        Kind::Message => b"\x1b[32m",
        Kind::Broken => b"\x1b[33m",
        Kind::TooLong => b"\x1b[35m",
        Kind::BadCrc => b"\x1b[31m",
    }
}

/// Writes the title of a piece: its kind, and then the number of bytes that the piece decodes to. The title of a piece
/// that is too long has only the kind.
fn write_title<W: Write>(output: &mut W, kind: Kind, len: usize) -> io::Result<()>
    ensures written { OnOk result
        (Appends (W.contents output.old) (W.contents output.new) (title kind len)) }
{
    match kind {
        Kind::Message => write!(output, "message {len}"),
        Kind::Broken => write!(output, "broken {len}"),
        Kind::TooLong => output.write_all(b"too long"),
        Kind::BadCrc => write!(output, "bad crc {len}"),
    }
}

/// Writes the start of a piece's line: the title, and then the mark `partial` if the piece is broken or too long and
/// has decoded bytes. The caller then writes the decoded bytes.
fn write_heading<W: Write>(output: &mut W, color: bool, piece: &Sight<'_>) -> io::Result<()>
    ensures written { OnOk result (Appends (W.contents output.old) (W.contents output.new)
        (heading color (seen_in piece.now))) }
{
    write_titled(output, color, piece.kind, piece.len)?;
    write_mark(output, piece.kind, piece.bytes)
}

/// Writes the mark `partial` if the piece is broken or too long and has decoded bytes. The decoded bytes are written
/// after the mark.
fn write_mark<W: Write>(output: &mut W, kind: Kind, bytes: &[u8]) -> io::Result<()>
    ensures written { OnOk result
        (Appends (W.contents output.old) (W.contents output.new) (mark kind bytes.now)) }
{
    match kind {
        Kind::Broken | Kind::TooLong if bytes.len() > 0 => output.write_all(b" partial"),
        Kind::Message | Kind::Broken | Kind::TooLong | Kind::BadCrc => Ok(()),
    }
}

/// Writes a space and the bytes as hexadecimal digits, or nothing if there are no bytes.
fn write_spaced<W: Write>(output: &mut W, bytes: &[u8]) -> io::Result<()>
    ensures written { OnOk result
        (Appends (W.contents output.old) (W.contents output.new) (spaced_digits bytes.now)) }
{
    if bytes.len() > 0 {
        output.write_all(b" ")?;
        write_digits(output, bytes)?;
    }
    Ok(())
}

/// Writes the line of a piece, with its bytes as hexadecimal digits.
fn write_hex<W: Write>(output: &mut W, color: bool, piece: &Sight<'_>) -> io::Result<()>
    ensures written { OnOk result (Appends (W.contents output.old) (W.contents output.new)
        (hex_line color (seen_in piece.now))) }
{
    write_heading(output, color, piece)?;
    write_spaced(output, piece.bytes)?;
    output.write_all(b"\n")
}

/// Writes the line of a piece. The piece's bytes are written as text if they are UTF-8 without hidden characters, and
/// otherwise as hexadecimal digits.
fn write_text<W: Write>(output: &mut W, color: bool, piece: &Sight<'_>) -> io::Result<()>
    ensures written { OnOk result (Appends (W.contents output.old) (W.contents output.new)
        (text_line color (seen_in piece.now))) }
{
    write_heading(output, color, piece)?;
    match plain_text(piece.bytes) {
        Some(text) => {
            if text.len() > 0 {
                output.write_all(b" ")?;
                output.write_all(text.as_bytes())?;
            }
        }
        None => write_spaced(output, piece.bytes)?,
    }
    output.write_all(b"\n")
}

/// Returns the message as text if it is UTF-8 without hidden characters, and otherwise `None`.
fn plain_text(message: &[u8]) -> Option<&str>
    ensures text { IfSome result (λ text. text.now ≡ message.now) }
    ensures plain { IsSome result ↔ IsTrue (is_plain message.now) }
{
    let text = str::from_utf8(message).ok()?;
    for c in text.chars() {
        if is_hidden(c) {
            return None;
        }
    }
    Some(text)
}

/// Writes the bytes of a message and a newline.
fn write_raw<W: Write>(output: &mut W, message: &[u8]) -> io::Result<()>
    ensures written { OnOk result
        (Appends (W.contents output.old) (W.contents output.new) (message.now ++ codes "\n")) }
{
    output.write_all(message)?;
    output.write_all(b"\n")
}

/// Writes a line with the title of a piece. Below this line, writes the piece's bytes, sixteen per line.
fn write_dumped<W: Write>(output: &mut W, color: bool, piece: &Sight<'_>) -> io::Result<()>
    ensures written { OnOk result (Appends (W.contents output.old) (W.contents output.new)
        (dump_lines color (seen_in piece.now))) }
{
    write_heading(output, color, piece)?;
    output.write_all(b"\n")?;
    write_dump(output, piece.bytes)
}
