//! Which pieces of a stream are shown, and in which style.
ghost use Rattle.std.specs.Prelude.{◌≡◌, OnOk, length, List, [], ℕ, Some, if◌then◌else◌};
ghost use Rattle.std.specs.Io.KnownBytes.{Appends};
ghost use Rattle.cobs.specs.FeedPiece.{IsWithin, outcome_at};
ghost use Rattle.cobs_live.specs.Checksum.{with_sum};
ghost use Rattle.cobs_live.specs.declared.checksum.Checksum.{Checksum};
ghost use Rattle.cobs_live.specs.declared.seen.Kind.TheVariants.{Message};
ghost use Rattle.cobs_live.specs.Seen.{held, seen_in, seen_message, seen_of, whole, with_part};
ghost use Rattle.cobs_live.specs.Shown.{in_front, in_view, passes, shown_end};

use crate::checksum::Checksum;
use crate::clock::{Stamp, Times};
use crate::line::write_line;
use crate::seen::{Kind, Sight};
use cobs::PieceEnd;
use std::io::{self, Write};

/// How a piece is written.
#[derive(Debug, PartialEq, Eq, Clone, Copy)]
pub enum Style {
    /// A line for each piece, with the bytes of a message as hexadecimal digits.
    Hex,

    /// A line for each piece. A message is written as text if it is UTF-8 without hidden characters, and otherwise as
    /// hexadecimal digits.
    Text,

    /// The bytes of each message, followed by a newline. Other pieces aren't shown.
    Raw,

    /// A line for each piece. Below the line of a message are the message's bytes, sixteen per line. Each of these
    /// lines has an offset, hexadecimal digits and characters.
    Hexdump,

    /// A JSON object for each piece, on its own line.
    Json,

    /// A record of a libpcap capture for each message. Other pieces aren't shown.
    Pcap,
}

/// Which pieces are shown.
#[derive(Debug, PartialEq, Eq, Drop)]
pub struct Filter {
    /// Whether messages are shown.
    pub messages: bool,

    /// Whether broken pieces are shown.
    pub broken: bool,

    /// Whether pieces that are too long are shown.
    pub too_long: bool,

    /// Whether messages with a wrong checksum are shown.
    pub bad_crc: bool,

    /// Whether `unfinished` is shown.
    pub unfinished: bool,
}

/// Which pieces are shown, and how.
#[derive(Debug, PartialEq, Eq, Drop)]
pub struct View {
    /// How a piece is written.
    pub style: Style,

    /// Whether the title of a piece (its kind, and the number of bytes that it decodes to) has a colour. Only the
    /// styles `Hex`, `Text` and `Hexdump` have titles.
    pub color: bool,

    /// Whether the number of each piece is written before its line. Pieces that the filter hides are counted too.
    pub number: bool,

    /// Which time is written before the line of each piece, or in its JSON object.
    pub stamp: Stamp,

    /// Which pieces are shown.
    pub filter: Filter,

    /// The checksum at the end of each message, or `None`. A right checksum isn't shown.
    pub checksum: Option<Checksum>,

    /// Whether the decoded bytes of a broken or too long piece are shown, as far as the buffer holds them.
    pub partial: bool,
}

/// How a stream is read and shown.
#[derive(Debug, PartialEq, Eq, Drop)]
pub struct Settings {
    /// Which pieces are shown, and how.
    pub view: View,

    /// The length in bytes of the longest message that is shown, including the message's checksum, if any. A piece that
    /// decodes to more bytes is too long.
    pub length: usize,

    /// The byte that ends each frame.
    pub sentinel: u8,

    /// Whether all bytes up to the first sentinel are skipped. These bytes may be the rest of a frame that began before
    /// the first read.
    pub skip_first: bool,
}

/// Converts the end of a piece to a [`Sight`]. The front of `buffer` has the bytes that the piece decodes to, as far as
/// they fit. If `checksum` isn't `None`, each message should end with its checksum.
pub fn sight_of<'a>(checksum: &Option<Checksum>, end: PieceEnd, buffer: &'a [u8]) -> Sight<'a>
    requires within { IsWithin (length buffer.now) end }
    ensures seen { seen_in result ≡ seen_of checksum.now (outcome_at end buffer.now) }
{
    match end {
        PieceEnd::Message(len) => message_sight(checksum, &buffer[..len]),
        PieceEnd::Broken(count) => Sight {
            kind: Kind::Broken,
            len: count,
            bytes: &[],
        },
        PieceEnd::TooLong => Sight {
            kind: Kind::TooLong,
            len: usize::MAX,
            bytes: &[],
        },
    }
}

/// Returns the [`Sight`] of a message. If `checksum` isn't `None`, the message should end with its checksum. A right
/// checksum is removed from the message. If the checksum is wrong, the kind is `BadCrc`.
fn message_sight<'a>(checksum: &Option<Checksum>, message: &'a [u8]) -> Sight<'a>
    ensures seen { seen_in result ≡ seen_message checksum.now message.now }
{
    let Some(checksum) = checksum else {
        return whole(Kind::Message, message);
    };
    match checksum.checked(message) {
        Some(body) => whole(Kind::Message, body),
        None => whole(Kind::BadCrc, message),
    }
}

/// States a law: if a message is sent with its checksum after it, the message is shown unchanged, without the checksum.
/// This function does nothing when it runs.
pub fn sum_law()
    ensures back { (checksum : Checksum) (message : List ℕ)
        → seen_message (Some checksum) (with_sum (Some checksum) message)
        ≡ whole Message message }
{}

/// Returns a piece with this kind and these bytes.
fn whole(kind: Kind, bytes: &[u8]) -> Sight<'_>
    ensures seen { seen_in result ≡ whole kind bytes.now }
{
    Sight {
        kind,
        len: bytes.len(),
        bytes,
    }
}

/// Returns a copy of the piece. If `partial` is set, the copy of a broken or too long piece also has the piece's
/// decoded bytes, as far as `buffer` holds them.
pub fn with_part<'a>(partial: bool, piece: &Sight<'a>, buffer: &'a [u8]) -> Sight<'a>
    ensures seen { seen_in result
        ≡ with_part partial (seen_in piece.now) (held piece.now.kind piece.now.len buffer.now) }
{
    if !partial {
        return *piece;
    }
    let bytes = match piece.kind {
        Kind::Message | Kind::BadCrc => piece.bytes,
        Kind::Broken => &buffer[..piece.len.min(buffer.len())],
        Kind::TooLong => buffer,
    };
    Sight {
        kind: piece.kind,
        len: piece.len,
        bytes,
    }
}

impl Filter {
    /// Returns whether pieces of this kind are shown.
    #[inline(always)]
    pub(crate) fn passes(&self, kind: Kind) -> bool
        ensures passes { result ≡ passes self.now kind }
    {
        match kind {
            Kind::Message => self.messages,
            Kind::Broken => self.broken,
            Kind::TooLong => self.too_long,
            Kind::BadCrc => self.bad_crc,
        }
    }
}

/// Shows a piece, with this number and these times, unless the view's filter hides it.
pub fn show_piece<W: Write>(
    output: &mut W,
    view: &View,
    number: u64,
    times: &Times,
    piece: &Sight<'_>,
) -> io::Result<()>
    ensures shown { OnOk result (Appends (W.contents output.old) (W.contents output.new)
        (in_view view.now number times.now (seen_in piece.now))) }
{
    if !view.filter.passes(piece.kind) {
        return Ok(());
    }
    write_time(output, view, times)?;
    if view.number {
        write!(output, "{number} ")?;
    }
    write_line(output, view, number, times, piece)
}

/// Writes the time before the line of a piece, or nothing if lines of this style have no time before them.
fn write_time<W: Write>(output: &mut W, view: &View, times: &Times) -> io::Result<()>
    ensures written { OnOk result (Appends (W.contents output.old) (W.contents output.new)
        (in_front view.now.style view.now.stamp times.now)) }
{
    match view.style {
        Style::Hex | Style::Text | Style::Hexdump => times.write_stamp(output, view.stamp),
        Style::Raw | Style::Json | Style::Pcap => Ok(()),
    }
}

/// Shows the end of a stream: writes `unfinished` if a piece had begun but not ended.
pub fn show_end<W: Write>(output: &mut W, view: &View, unfinished: bool) -> io::Result<()>
    ensures shown { OnOk result (Appends (W.contents output.old) (W.contents output.new)
        (shown_end view.now unfinished)) }
{
    if !unfinished || !view.filter.unfinished {
        return Ok(());
    }
    match view.style {
        Style::Hex | Style::Text | Style::Hexdump => output.write_all(b"unfinished\n"),
        Style::Json => output.write_all(b"{\"kind\":\"unfinished\"}\n"),
        Style::Raw | Style::Pcap => Ok(()),
    }
}
