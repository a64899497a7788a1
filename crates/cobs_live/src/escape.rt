//! Writes text as a part of a JSON string. Characters that control a terminal are escaped too.
ghost use Rattle.std.specs.Prelude.{◌≡◌, ◌<◌, ◌++◌, All, IfOk, IsTrue, OnOk, drop, false, length, take};
ghost use Rattle.std.specs.Char.{encode_utf8};
ghost use Rattle.std.specs.Io.KnownBytes.{Appends};
ghost use Rattle.std.specs.Str.{IsCharBoundary};
ghost use Rattle.cobs_live.specs.Escaped.{WritesFront, char_escape, escaped, is_hidden, is_plain_byte, text_escaped, unit_escape};

use cobs_lines::write_digits;
use std::io::{self, Write};
use unicode::properties::GeneralCategory;

/// Returns whether a character is hidden. The hidden characters are the control characters, and the invisible
/// characters that format text or separate lines or paragraphs.
pub fn is_hidden(c: char) -> bool
    ensures hidden { result ≡ is_hidden c }
{
    let code = u32::from(c);
    // Of the characters below 127, only the control characters below 32 are hidden. So the category of a character
    // below 127 isn't looked up.
    if code < 127 {
        return code < 32;
    }
    let category = GeneralCategory::for_char(c);
    category == GeneralCategory::Control
        || category == GeneralCategory::Format
        || category == GeneralCategory::LineSeparator
        || category == GeneralCategory::ParagraphSeparator
}

/// Writes a text as a part of a JSON string. Quotes, backslashes and hidden characters are escaped.
pub fn write_escaped<W: Write>(output: &mut W, text: &str) -> io::Result<()>
    ensures written { OnOk result (Appends (W.contents output.old) (W.contents output.new)
        (text_escaped text.now)) }
{
    let mut rest = text;
    'by_run: while !rest.is_empty() {
        rest = write_run(output, rest)?;
    }
    Ok(())
}

/// Writes, in one write, the characters before the first character that needs an escape. Then writes this character in
/// its escaped form. Returns the rest of the text.
fn write_run<'a, W: Write>(output: &mut W, text: &'a str) -> io::Result<&'a str>
    ensures written { IfOk result (λ rest. WritesFront (W.contents output.old) (W.contents output.new) text.now rest.now) }
    ensures shorter { IfOk result (λ rest. 0 < length text.now → length rest.now < length text.now) }
{
    let run = visible_run(text);
    output.write_all(&text.as_bytes()[..run])?;
    let mut chars = text[run..].chars();
    match chars.next() {
        Some(c) => {
            write_char(output, c)?;
            Ok(chars.as_str())
        }
        None => Ok(""),
    }
}

/// Returns the length in bytes of the text before its first character that needs an escape. ASCII characters are tested
/// as bytes, because it takes longer to decode each character.
pub(crate) fn visible_run(text: &str) -> usize
    ensures boundary { IsCharBoundary text.now result }
    ensures same { text_escaped text.now ≡ take result text.now ++ text_escaped (drop result text.now) }
{
    let bytes = text.as_bytes();
    let mut run = plain_run(text);
    'by_char: while run < bytes.len() && 128 <= bytes[run] {
        let Some(c) = text[run..].chars().next() else {
            return run;
        };
        if needs_escape(c) {
            return run;
        }
        run += c.len_utf8();
        run += plain_run(&text[run..]);
    }
    run
}

/// Returns whether a character needs an escape in a JSON string.
fn needs_escape(c: char) -> bool
    ensures same { (result ≡ false) → (escaped c ≡ encode_utf8 c) }
{
    is_hidden(c) || c == '"' || c == '\\'
}

/// Returns the number of characters before the first character that needs an escape or isn't ASCII.
fn plain_run(text: &str) -> usize
    ensures boundary { IsCharBoundary text.now result }
    ensures plain { All (λ byte. IsTrue (is_plain_byte byte)) (take result text.now) }
{
    let bytes = text.as_bytes();
    for (i, byte) in bytes.iter().enumerate() {
        if !is_plain_byte(*byte) {
            return i;
        }
    }
    bytes.len()
}

/// Returns whether a byte is an ASCII character that needs no escape.
fn is_plain_byte(byte: u8) -> bool
    ensures plain { result ≡ is_plain_byte byte }
{
    32 <= byte && byte < 127 && byte != b'"' && byte != b'\\'
}

/// Writes a character of a JSON string. A quote, a backslash and a hidden character are escaped.
fn write_char<W: Write>(output: &mut W, c: char) -> io::Result<()>
    ensures written { OnOk result
        (Appends (W.contents output.old) (W.contents output.new) (escaped c)) }
{
    if is_hidden(c) {
        return write_escape(output, u32::from(c));
    }
    if c == '"' || c == '\\' {
        output.write_all(b"\\")?;
    }
    output.write_all(c.encode_utf8(&mut [0; 4]).as_bytes())
}

/// Writes the escape of the character with this code. If the code has more than 16 bits, writes the escapes of two
/// surrogates instead.
fn write_escape<W: Write>(output: &mut W, code: u32) -> io::Result<()>
    ensures written { OnOk result
        (Appends (W.contents output.old) (W.contents output.new) (char_escape code)) }
{
    if code < 65_536 {
        return write_unit(output, code as u16);
    }
    // The surrogates are those of UTF-16. The first surrogate has the upper 10 bits of `code - 65_536`. The second
    // surrogate has the lower 10 bits, which are also the lower 10 bits of `code`.
    write_unit(output, (0xD800 + (code - 65_536) / 1024 % 1024) as u16)?;
    write_unit(output, (0xDC00 + code % 1024) as u16)
}

/// Writes the escape of a 16-bit code: `\u` and four hexadecimal digits.
fn write_unit<W: Write>(output: &mut W, unit: u16) -> io::Result<()>
    ensures written { OnOk result
        (Appends (W.contents output.old) (W.contents output.new) (unit_escape unit)) }
{
    output.write_all(b"\\u")?;
    write_digits(output, &[(unit / 256) as u8, (unit % 256) as u8])
}
