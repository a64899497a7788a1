//! The traits of the streaming decoders. `FrameDecoder` is for decoding; the modules `stream` and `framed` use it.
//! `WriteBuffer` is for writing to the decoder's buffer.
ghost use Rattle.std.specs.Prelude.{◌≡◌, ◌≤◌, ℕ, List, length, ◌+◌};
ghost use Rattle.cobs.specs.Feed.{Feeds, Phase};
ghost use Rattle.cobs.specs.FeedPiece.{end_reported, TakesPiece};
ghost use Rattle.cobs.specs.Table.{FeedsByTable};
ghost use Rattle.std.specs.Borrow.{sem};
ghost use Rattle.cobs.specs.Overwritten.{written_at};
ghost use Rattle.cobs.specs.Fields.Lending.{LendsBytes};

use crate::error::DecodeError;

/// How a piece of a stream ended. The Rust crate `cobs` has no such type.
///
/// ```
/// let mut decoder = CobsDecoderHeapless::<1>::new();
/// let end = decoder.feed_piece(&[2, 7, 0]);
/// assert_eq!(rt; end, Some((PieceEnd::Message(1), 3)));
/// ```
#[derive(Debug, Clone, Copy, PartialEq, Eq)]
pub enum PieceEnd {
    /// The piece is a frame whose message has this many bytes. The message is at the front of the decoder's buffer.
    Message(usize),

    /// The piece breaks off inside a block. The piece decodes to this many bytes, including those of the broken block.
    Broken(usize),

    /// The piece decodes to more bytes than the decoder's buffer has room for.
    TooLong,
}

impl PieceEnd {
    /// Returns how a piece ended. `returned` is the result of `feed` for the zero after the piece. If no piece had
    /// begun before the zero, the function returns `None`.
    ///
    /// ```
    /// let mut decoder = UnbufferedDecoder::new();
    /// let mut buffer = [0; 4];
    /// assert_eq!(rt; decoder.push(&mut buffer, &[3, 7]), Ok(None));
    /// let end = PieceEnd::reported(decoder.feed(&mut buffer, 0));
    /// assert_eq!(rt; end, Some(PieceEnd::Broken(1)));
    /// ```
    #[inline(always)]
    pub fn reported(returned: Result<Option<usize>, DecodeError>) -> Option<PieceEnd>
        ensures end { result ≡ end_reported returned }
    {
        match returned {
            Ok(None) | Err(DecodeError::EmptyFrame) => None,
            Ok(Some(n)) => Some(PieceEnd::Message(n)),
            Err(DecodeError::InvalidFrame { decoded_bytes }) => {
                Some(PieceEnd::Broken(decoded_bytes))
            }
            Err(DecodeError::TargetBufTooSmall) => Some(PieceEnd::TooLong),
        }
    }
}

/// A decoder that decodes a stream byte by byte or piece by piece. The decoder owns or borrows the buffer for its
/// output.
///
/// Contracts describe a decoder by the bytes of its buffer and by its phase, that is, the facts that the decoder keeps
/// about the piece so far. The Rust crate `cobs` has no such trait.
///
/// ```
/// let mut decoder = CobsDecoderHeapless::<4>::new();
/// let stream = [3, 7, 0, 2, 9, 0];
/// assert_eq!(rt; decoder.feed_piece(&stream), Some((PieceEnd::Broken(1), 3)));
/// ```
pub trait FrameDecoder {
    /// The bytes of the decoder's buffer.
    ghost bytes: { Self → List ℕ };

    /// The decoder's phase.
    ghost phase: { Self → Phase };

    /// A number that identifies the slice that the decoder borrows as its buffer. If the decoder borrows no slice, the
    /// number may be any constant.
    ghost loan: { Self → ℕ };

    /// Decodes the next byte of the stream. The results and errors are those of
    /// [`CobsDecoder::feed`](crate::CobsDecoder::feed). As long as the output of the piece fits the buffer, the byte
    /// changes the decoder's state in the same way as it would change a [`DecoderState`](crate::DecoderState).
    ///
    /// ```
    /// let mut decoder = CobsDecoderHeapless::<1>::new();
    /// assert_eq!(rt; decoder.feed_byte(1), Ok(None));
    /// assert_eq!(rt; decoder.feed_byte(0), Ok(Some(0)));
    /// ```
    fn feed_byte(&mut self, byte: u8) -> Result<Option<usize>, DecodeError>
        ensures feeds { Feeds (bytes self.old) (phase self.old) byte result (bytes self.new) (phase self.new) }
        ensures by_table { FeedsByTable (length (bytes self.old)) (phase self.old) byte result (phase self.new) }
        ensures same_loan { loan self.new ≡ loan self.old };

    /// Decodes the next bytes of the stream, and stops after the first zero that ends a piece.
    ///
    /// - Returns `None` if no piece ended in these bytes. In this case all of these bytes were decoded.
    /// - Returns `Some((end, count))` if the zero at index `count - 1` ended a piece; `end` says how the piece ended.
    ///   The bytes after that zero had no effect. So the caller continues with the byte at index `count`, even if the
    ///   piece is too long for the buffer.
    ///
    /// The bytes of the buffer after the piece's output are unchanged.
    ///
    /// An implementation doesn't have to define this method: the provided method feeds one byte after another. The
    /// decoders of this library have their own `feed_piece`, which searches for the end of the piece and copies slices.
    ///
    /// ```
    /// let mut decoder = CobsDecoderHeapless::<1>::new();
    /// assert_eq!(rt; decoder.feed_piece(&[2]), None);
    /// let end = decoder.feed_piece(&[7, 0, 1]);
    /// assert_eq!(rt; end, Some((PieceEnd::Message(1), 2)));
    /// ```
    fn feed_piece(&mut self, stream: &[u8]) -> Option<(PieceEnd, usize)>
        ensures takes { TakesPiece (bytes self.old) (phase self.old) stream.now result
            (bytes self.new) (phase self.new) }
        ensures same_loan { loan self.new ≡ loan self.old }
    {
        'by_byte: for (i, byte) in stream.iter().enumerate() {
            let returned = self.feed_byte(*byte);
            if *byte == 0 {
                if let Some(end) = PieceEnd::reported(returned) {
                    return Some((end, i + 1));
                }
            }
        }
        None
    }

    /// Returns the whole buffer.
    ///
    /// ```
    /// assert_eq!(rt; CobsDecoderHeapless::<2>::new().buffer(), [0, 0].as_slice());
    /// ```
    fn buffer(&self) -> &[u8]
        ensures value { result.now ≡ bytes self.now };
}

/// A decoder that lends its buffer for writing.
///
/// Writing replaces the bytes of the buffer. The decoder's state doesn't change, and the decoder still uses the same
/// slice as its buffer. So if the caller writes while a piece is open, the results for this piece stay the same, but
/// the bytes of its message are unspecified. (Contracts describe such a decoder by `PhaseAfter`.) A piece is open from
/// its first byte to the zero that ends it.
///
/// Each decoder of this library that implements this trait also has an inherent method `dest_mut`. A proof about a
/// caller of `CobsDecoder::dest_mut` can use facts about the bytes of the slice while the returned reference is in use.
/// After the write, the proof can't use facts about the decoder's state, because a `CobsDecoder` borrows its slice. If
/// the proof needs these facts, the caller writes with [`write_dest`](WriteBuffer::write_dest) instead. Generic code
/// can also write with the `dest_mut` of this trait. The Rust crate `cobs` has no such trait.
///
/// ```
/// let mut buffer = [0; 3];
/// let mut decoder = CobsDecoder::new(&mut buffer);
/// assert_eq!(rt; decoder.push(&[3, 7]), Ok(None));
/// decoder.write_dest(0, &[9]);
/// assert_eq!(rt; decoder.feed(8), Ok(None));
/// assert_eq!(rt; decoder.feed(0), Ok(Some(2)));
/// assert_eq!(rt; decoder.dest(), [9, 8, 0].as_slice());
/// ```
pub trait WriteBuffer: FrameDecoder {
    /// The same decoder, except that its buffer has the given bytes.
    ghost with_bytes: { Self → List ℕ → Self };

    /// Returns the whole buffer, for writing. The buffer keeps the bytes that the caller writes to it.
    ///
    /// ```
    /// let mut decoder = CobsDecoderHeapless::<2>::new();
    /// WriteBuffer::dest_mut(&mut decoder).fill(9);
    /// assert_eq!(rt; decoder.buffer(), [9, 9].as_slice());
    /// ```
    fn dest_mut(&mut self) -> &mut [u8]
        // `Self.row` is the type `Self`, in the form that `LendsBytes` needs.
        ensures* writes_back { sem 𝓛 (LendsBytes Self.row self.entry result with_bytes) }
        ensures value { result.now ≡ Self.bytes self.old };

    /// Writes the bytes of `source` to the buffer, from index `at` on.
    ///
    /// Precondition: the bytes fit, that is, `at` plus the length of `source` is at most the length of the buffer.
    ///
    /// ```
    /// let mut decoder = CobsDecoderHeapless::<3>::new();
    /// decoder.write_dest(1, &[8, 9]);
    /// assert_eq!(rt; decoder.buffer(), [0, 8, 9].as_slice());
    /// ```
    fn write_dest(&mut self, at: usize, source: &[u8])
        requires { at + length source.now ≤ length (Self.bytes self.old) }
        ensures buffer { Self.bytes self.new ≡ written_at (Self.bytes self.old) at source.now }
        ensures same_phase { Self.phase self.new ≡ Self.phase self.old }
        ensures same_loan { Self.loan self.new ≡ Self.loan self.old }
    {
        let dest = self.dest_mut();
        dest[at..at + source.len()].copy_from_slice(source);
    }

    /// A fact that each implementation proves: after a write, the buffer has the bytes that were written.
    ghost bytes_are_written: { (decoder : Self) (written : List ℕ)
        → length written ≡ length (Self.bytes decoder)
        → Self.bytes (with_bytes decoder written) ≡ written };

    /// A fact that each implementation proves: a write doesn't change the decoder's phase.
    ghost phase_stays: { (decoder : Self) (written : List ℕ)
        → Self.phase (with_bytes decoder written) ≡ Self.phase decoder };

    /// A fact that each implementation proves: after a write, the buffer is still the same slice.
    ghost loan_stays: { (decoder : Self) (written : List ℕ)
        → Self.loan (with_bytes decoder written) ≡ Self.loan decoder };
}
