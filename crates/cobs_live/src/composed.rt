//! Composes the text of short messages in memory, and writes it in one call.
ghost use Rattle.std.specs.Prelude.{◌≡◌, ◌<◌, ◌≤◌, ◌+◌, ◌*◌, ◌++◌, ℕ, IfOk, IsTrue, OnOk, codes, false, length, take};
ghost use Rattle.std.specs.Fmt.{decimal};
ghost use Rattle.std.specs.Io.KnownBytes.{Appends};
ghost use Rattle.hex.specs.Hex.{encode_lower};
ghost use Rattle.cobs_live.specs.Composed.{contents_of};
ghost use Rattle.cobs_live.specs.declared.clock.Stamp.TheVariants.{Untimed};
ghost use Rattle.cobs_live.specs.declared.seen.Kind.TheVariants.{Message};
ghost use Rattle.cobs_live.specs.declared.shown.Style.TheVariants.{Hex, Raw};
ghost use Rattle.cobs_live.specs.Escaped.{WritesFront, char_escape, escaped, text_escaped, unit_escape};
ghost use Rattle.cobs_live.specs.Json.{json, json_kind, json_message, json_text};
ghost use Rattle.cobs_live.specs.Seen.{seen_in};
ghost use Rattle.cobs_live.specs.Shown.{hex_line, in_view, styled};
ghost use Rattle.cobs_live.specs.declared.clock.Times.{Times};

use crate::clock::{Stamp, Times};
use crate::escape::{is_hidden, visible_run};
use crate::seen::{Kind, Sight};
use crate::shown::{Style, View};
use cobs_lines::fill_digits;
use itoa::Buffer;
use std::io::{self, Write};
use std::str;

/// The length in bytes of the longest message whose text is composed.
const SHORT_LEN: usize = 256;

/// The greatest length in bytes of a line, without the hexadecimal digits of the message: the word `message`, a space,
/// a number of up to 40 digits, a space and a newline.
const LINE: usize = 50;

/// The greatest length in bytes of a composed text.
const ROOM: usize = 2_048;

/// The error of a call whose text doesn't fit the remaining room.
#[derive(Debug, PartialEq, Eq, Clone, Copy)]
struct Full;

/// A text that is composed in memory and then written in one call. The result of each write has to be tested, and this
/// test takes longer than composing the text of a short message. So there is at most one write for each message.
#[derive(Drop)]
pub struct Composed {
    /// The text is the first `len` of these bytes.
    bytes: [u8; ROOM],

    /// The length of the text, at most `ROOM`. No invariant states this limit, so the functions below test it.
    len: usize,
}

impl Composed {
    /// Makes an empty text.
    pub fn new() -> Self
        ensures empty { result.len ≡ 0 }
    {
        Composed {
            bytes: [0; ROOM],
            len: 0,
        }
    }

    /// Writes the composed text if it isn't empty, and clears it.
    ///
    /// # Errors
    /// Returns the error of a write that failed. Part of the text may have been written.
    #[inline(always)]
    pub fn write_to<W: Write>(&mut self, output: &mut W) -> io::Result<()>
        ensures written { OnOk result (Appends (W.contents output.old) (W.contents output.new)
            (take self.old.len self.old.bytes)) }
        ensures empty { self.new.len ≡ 0 }
    {
        let len = self.len.min(ROOM);
        self.len = 0;
        if len == 0 {
            return Ok(());
        }
        output.write_all(&self.bytes[..len])
    }

    /// Discards the composed text.
    pub fn clear(&mut self)
        ensures empty { self.new.len ≡ 0 }
    {
        self.len = 0;
    }

    /// Returns true if there may be too little room for the line of another short message.
    #[inline(always)]
    pub fn is_nearly_full(&self) -> bool {
        ROOM - LINE - 2 * SHORT_LEN < self.len
    }

    /// Adds the text of a piece and returns true, or adds nothing and returns false. The result is true only if both of
    /// these conditions hold:
    ///
    /// - The piece is a short message, and its text fits.
    /// - The view has the style `Raw` and shows no numbers, or it has the style `Hex` and shows no colours, numbers or
    ///   times.
    ///
    /// If the view's filter hides the message, the text is empty. The text is written later, so one write can contain
    /// the texts of many messages. The text has no number and no time, so the clause `kept` is true for every `number`
    /// and all `times`.
    #[inline(always)]
    pub fn keep(&mut self, view: &View, piece: &Sight<'_>) -> bool
        ensures kept { IsTrue result → (number : ℕ) (times : Times) → take self.new.len self.new.bytes
            ≡ take self.old.len self.old.bytes ++ in_view view.now number times (seen_in piece.now) }
        ensures same { (result ≡ false) → take self.new.len self.new.bytes ≡ take self.old.len self.old.bytes }
    {
        match view.style {
            Style::Hex => self.keep_hex(view, piece),
            Style::Raw => self.keep_raw(view, piece),
            Style::Text | Style::Hexdump | Style::Json | Style::Pcap => false,
        }
    }

    /// Adds the text of a piece for a view with the style `Hex`, under the same conditions as [`keep`](Composed::keep).
    #[inline(always)]
    fn keep_hex(&mut self, view: &View, piece: &Sight<'_>) -> bool
        requires style { view.now.style ≡ Hex }
        ensures kept { IsTrue result → (number : ℕ) (times : Times) → take self.new.len self.new.bytes
            ≡ take self.old.len self.old.bytes ++ in_view view.now number times (seen_in piece.now) }
        ensures same { (result ≡ false) → take self.new.len self.new.bytes ≡ take self.old.len self.old.bytes }
    {
        if !is_bare(view) || piece.kind != Kind::Message || SHORT_LEN < piece.bytes.len() {
            return false;
        }
        if ROOM < self.len || ROOM - self.len < LINE + 2 * piece.bytes.len() {
            return false;
        }
        if view.filter.passes(piece.kind) {
            self.append_hex(piece);
        }
        true
    }

    /// Adds the text of a piece for a view with the style `Raw`, under the same conditions as [`keep`](Composed::keep).
    #[inline(always)]
    fn keep_raw(&mut self, view: &View, piece: &Sight<'_>) -> bool
        requires style { view.now.style ≡ Raw }
        ensures kept { IsTrue result → (number : ℕ) (times : Times) → take self.new.len self.new.bytes
            ≡ take self.old.len self.old.bytes ++ in_view view.now number times (seen_in piece.now) }
        ensures same { (result ≡ false) → take self.new.len self.new.bytes ≡ take self.old.len self.old.bytes }
    {
        // The style `Raw` never shows a colour or a time, so only `view.number` is tested.
        if view.number || piece.kind != Kind::Message || SHORT_LEN < piece.bytes.len() {
            return false;
        }
        if ROOM < self.len || ROOM - self.len <= piece.bytes.len() {
            return false;
        }
        if view.filter.passes(piece.kind) {
            self.append(piece.bytes);
            self.append(b"\n");
        }
        true
    }

    /// Replaces the composed text with the text of a piece, and returns true if this succeeded. It succeeds only if the
    /// piece is a short message whose text fits, if the view's style is `Json`, and if [`is_bare`] returns true for the
    /// view. If it fails, the composed text may be only a part of the piece's text, so the caller clears the composed
    /// text. If the view's filter hides the message, the text is empty.
    #[inline(always)]
    pub fn compose(&mut self, view: &View, number: u64, times: &Times, piece: &Sight<'_>) -> bool
        ensures shown { IsTrue result → take self.new.len self.new.bytes
            ≡ in_view view.now number times.now (seen_in piece.now) }
    {
        if view.style != Style::Json || !is_bare(view) {
            return false;
        }
        if piece.kind != Kind::Message || SHORT_LEN < piece.bytes.len() {
            return false;
        }
        self.len = 0;
        if !view.filter.passes(piece.kind) {
            return true;
        }
        self.put_message(view.style, number, piece).is_ok()
    }

    /// Adds a message with this number, but without a colour or a time, if the style is `Json`. For every other style,
    /// returns `Full`, and the caller writes the text directly. The text has no time, so the clause `put` is true for
    /// all `times`. [`compose`](Composed::compose) has already tested the style. `put_message` matches the style again,
    /// because the clause `put` is stated for every style.
    #[inline(always)]
    fn put_message(&mut self, style: Style, number: u64, piece: &Sight<'_>) -> Result<(), Full>
        requires message { piece.now.kind ≡ Message }
        ensures put { (times : Times) → OnOk result (Appends (contents_of self.old) (contents_of self.new)
            (styled style false number Untimed times (seen_in piece.now))) }
    {
        match style {
            Style::Json => self.put_json(number, piece),
            Style::Hex | Style::Text | Style::Raw | Style::Hexdump | Style::Pcap => Err(Full),
        }
    }

    /// Adds the line of a message: the word `message`, the message's length, and the message's bytes as hexadecimal
    /// digits.
    #[inline(always)]
    fn append_hex(&mut self, piece: &Sight<'_>)
        requires message { piece.now.kind ≡ Message }
        requires room { self.old.len + (50 + 2 * length piece.now.bytes.now) ≤ 2048 }
        ensures text { take self.new.len self.new.bytes
            ≡ take self.old.len self.old.bytes ++ hex_line false (seen_in piece.now) }
    {
        self.append(b"message ");
        self.append_decimal(piece.len as u64);
        if piece.bytes.len() > 0 {
            self.append(b" ");
            self.append_digits(piece.bytes);
        }
        self.append(b"\n");
    }

    /// Adds a message as a JSON object on its own line. The object has no time, so the clause `put` is true for all
    /// `times`.
    fn put_json(&mut self, number: u64, piece: &Sight<'_>) -> Result<(), Full>
        requires message { piece.now.kind ≡ Message }
        ensures put { (times : Times) → OnOk result (Appends (contents_of self.old) (contents_of self.new)
            (json number Untimed times (seen_in piece.now))) }
    {
        self.put(b"{\"frame\":")?;
        self.put_decimal(number)?;
        self.put(b",\"kind\":")?;
        self.put(b"\"message\"")?;
        self.put_json_message(piece.len, piece.bytes)?;
        self.put(b"}\n")
    }

    /// Adds the members of a JSON object for a message: the message's length, its bytes and, if the message is UTF-8,
    /// its text.
    fn put_json_message(&mut self, len: usize, bytes: &[u8]) -> Result<(), Full>
        ensures put { OnOk result (Appends (contents_of self.old) (contents_of self.new)
            (json_message len bytes.now)) }
    {
        self.put(b",\"length\":")?;
        self.put_decimal(len as u64)?;
        self.put(b",\"hex\":\"")?;
        self.put_digits(bytes)?;
        self.put(b"\"")?;
        self.put_text(bytes)
    }

    /// Adds the member `text` of a JSON object, if the message is UTF-8.
    fn put_text(&mut self, bytes: &[u8]) -> Result<(), Full>
        ensures put { OnOk result (Appends (contents_of self.old) (contents_of self.new) (json_text bytes.now)) }
    {
        let Ok(text) = str::from_utf8(bytes) else {
            return Ok(());
        };
        self.put(b",\"text\":\"")?;
        self.put_escaped(text)?;
        self.put(b"\"")
    }

    /// Adds a text as a part of a JSON string. Quotes, backslashes and hidden characters are escaped.
    fn put_escaped(&mut self, text: &str) -> Result<(), Full>
        ensures put { OnOk result (Appends (contents_of self.old) (contents_of self.new) (text_escaped text.now)) }
    {
        let mut rest = text;
        'by_run: while !rest.is_empty() {
            rest = self.put_run(rest)?;
        }
        Ok(())
    }

    /// Adds all characters before the first one that needs an escape, in a single copy operation. Then adds this
    /// character in its escaped form. Returns the rest of the text.
    fn put_run<'a>(&mut self, text: &'a str) -> Result<&'a str, Full>
        ensures put { IfOk result (λ rest. WritesFront (contents_of self.old) (contents_of self.new) text.now rest.now) }
        ensures shorter { IfOk result (λ rest. 0 < length text.now → length rest.now < length text.now) }
    {
        let run = visible_run(text);
        self.put(&text.as_bytes()[..run])?;
        let mut chars = text[run..].chars();
        match chars.next() {
            Some(c) => {
                self.put_char(c)?;
                Ok(chars.as_str())
            }
            None => Ok(""),
        }
    }

    /// Adds a character of a JSON string. A quote, a backslash and a hidden character are escaped.
    fn put_char(&mut self, c: char) -> Result<(), Full>
        ensures put { OnOk result (Appends (contents_of self.old) (contents_of self.new) (escaped c)) }
    {
        if is_hidden(c) {
            return self.put_escape(u32::from(c));
        }
        if c == '"' || c == '\\' {
            self.put(b"\\")?;
        }
        self.put(c.encode_utf8(&mut [0; 4]).as_bytes())
    }

    /// Adds the escape of the character with this code. If the code has more than 16 bits, adds the escapes of two
    /// surrogates instead.
    fn put_escape(&mut self, code: u32) -> Result<(), Full>
        ensures put { OnOk result (Appends (contents_of self.old) (contents_of self.new) (char_escape code)) }
    {
        if code < 65_536 {
            return self.put_unit(code as u16);
        }
        // The surrogates are computed as in `write_escape` in `escape.rt`.
        self.put_unit((0xD800 + (code - 65_536) / 1024 % 1024) as u16)?;
        self.put_unit((0xDC00 + code % 1024) as u16)
    }

    /// Adds the escape of a 16-bit code: `\u` and four hexadecimal digits.
    fn put_unit(&mut self, unit: u16) -> Result<(), Full>
        ensures put { OnOk result (Appends (contents_of self.old) (contents_of self.new) (unit_escape unit)) }
    {
        self.put(b"\\u")?;
        self.put_digits(&[(unit / 256) as u8, (unit % 256) as u8])
    }

    /// Adds a decimal number, or returns `Full` if there are fewer than 40 bytes of room.
    #[tactic(auto, unfolding(crate::specs::Composed::contents_of))]
    #[inline(always)]
    fn put_decimal(&mut self, number: u64) -> Result<(), Full>
        ensures put { OnOk result (Appends (contents_of self.old) (contents_of self.new) (decimal number)) }
    {
        if ROOM < self.len || ROOM - self.len < 40 {
            return Err(Full);
        }
        self.append_decimal(number);
        Ok(())
    }

    /// Adds bytes as lower-case hexadecimal digits, or returns `Full` if the digits don't fit.
    #[tactic(auto, unfolding(crate::specs::Composed::contents_of))]
    #[inline(always)]
    fn put_digits(&mut self, bytes: &[u8]) -> Result<(), Full>
        ensures put { OnOk result (Appends (contents_of self.old) (contents_of self.new) (encode_lower bytes.now)) }
    {
        if ROOM < self.len || (ROOM - self.len) / 2 < bytes.len() {
            return Err(Full);
        }
        self.append_digits(bytes);
        Ok(())
    }

    /// Adds a decimal number. The caller makes sure that there are 40 bytes of room, more than any number needs. A
    /// number below 10 is added without `itoa`, because this is faster.
    #[inline(always)]
    fn append_decimal(&mut self, number: u64)
        requires room { self.old.len + 40 ≤ 2048 }
        ensures len { self.new.len ≤ self.old.len + 40 }
        ensures text { take self.new.len self.new.bytes ≡ take self.old.len self.old.bytes ++ decimal number }
    {
        if number < 10 {
            self.append(&[b'0' + number as u8]);
        } else {
            self.append(Buffer::new().format(number).as_bytes());
        }
    }

    /// Adds bytes as lower-case hexadecimal digits. The caller makes sure that the digits fit.
    #[inline(always)]
    fn append_digits(&mut self, bytes: &[u8])
        requires room { self.old.len + 2 * length bytes.now ≤ 2048 }
        ensures len { self.new.len ≡ self.old.len + 2 * length bytes.now }
        ensures text { take self.new.len self.new.bytes
            ≡ take self.old.len self.old.bytes ++ encode_lower bytes.now }
    {
        let at = self.len;
        let end = at + 2 * bytes.len();
        fill_digits(&mut self.bytes[at..end], bytes);
        self.len = end;
    }

    /// Adds bytes, or returns `Full` if they don't fit.
    #[tactic(auto, unfolding(crate::specs::Composed::contents_of))]
    #[inline(always)]
    fn put(&mut self, bytes: &[u8]) -> Result<(), Full>
        ensures put { OnOk result (Appends (contents_of self.old) (contents_of self.new) bytes.now) }
    {
        if ROOM < self.len || ROOM - self.len < bytes.len() {
            return Err(Full);
        }
        self.append(bytes);
        Ok(())
    }

    /// Adds bytes. The caller makes sure that the bytes fit.
    #[inline(always)]
    fn append(&mut self, bytes: &[u8])
        requires room { self.old.len + length bytes.now ≤ 2048 }
        ensures len { self.new.len ≡ self.old.len + length bytes.now }
        ensures text { take self.new.len self.new.bytes ≡ take self.old.len self.old.bytes ++ bytes.now }
    {
        let at = self.len;
        let end = at + bytes.len();
        self.bytes[at..end].copy_from_slice(bytes);
        self.len = end;
    }
}

/// Returns whether the view shows no colours, and writes no number and no time before a message.
fn is_bare(view: &View) -> bool
    ensures bare { IsTrue result
        → (view.now.color ≡ false) × (view.now.number ≡ false) × (view.now.stamp ≡ Untimed) }
{
    !view.color && !view.number && view.stamp == Stamp::Untimed
}
