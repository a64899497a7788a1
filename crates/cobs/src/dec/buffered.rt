//! Two streaming decoders: `CobsDecoder` borrows its buffer, and `CobsDecoderOwned` owns a vector.
ghost use Rattle.std.specs.Prelude.{◌≡◌, [], ◌≤◌, ◌∷◌, ◌++◌, List, length, ℕ, replicate, IfOk};
ghost use Rattle.std.specs.Borrow.{sem};
ghost use Rattle.cobs.specs.Feed.{DecoderAfter, Feeds, Idle};
ghost use Rattle.cobs.specs.Grammar.{Reads};
ghost use Rattle.cobs.specs.Headline.{IsPiece, PushesMessage};
ghost use Rattle.cobs.specs.Push.{PushesBytes};
ghost use Rattle.cobs.specs.Table.{FeedsByTable};
ghost use Rattle.cobs.specs.Fields.Decoders.{borrowed_buffer, borrowed_phase, borrowed_slice, owned_buffer, owned_phase};
ghost use Rattle.cobs.specs.Fields.Lending.{LendsOwned, LendsSlice};

use crate::dec::frame_decoder::{FrameDecoder, PieceEnd, WriteBuffer};
use crate::dec::unbuffered::UnbufferedDecoder;
use crate::error::{DecodeError, DecodeReport, PushError};
use std::alloc::{AllocError, Global};

/// Decodes a stream of frames, each ended by a zero, into a slice that the decoder borrows.
///
/// `feed` decodes one byte of the stream, and `push` decodes any number of bytes. When a frame ends, its message is at
/// the front of the slice, and stays there until the next nonzero byte is fed. A piece of the stream consists of the
/// bytes between two zeros. The decoder is idle after every zero, so a broken frame never affects another frame. The
/// outcome of a piece depends only on the bytes of the piece and on the length of the slice. The rule that a zero ends
/// each frame is from Cheshire and Baker's paper.
///
/// ```
/// let mut buffer = [0; 8];
/// let mut decoder = CobsDecoder::new(&mut buffer);
/// assert_eq!(rt; decoder.push(b"\x06hel"), Ok(None));
/// let report = decoder.push(b"lo\0\x03hi\0")?;
/// let sizes = report.map(|report| (report.parsed_size(), report.frame_size()));
/// assert_eq!(rt; sizes, Some((3, 5)));
/// assert!(rt; decoder.dest().starts_with(b"hello"));
/// ```
#[derive(Debug, Drop)]
pub struct CobsDecoder<'a> {
    dest: &'a mut [u8],
    inner: UnbufferedDecoder,
}

impl<'a> CobsDecoder<'a> {
    /// Makes an idle decoder whose buffer is the slice `dest`. The slice may have any length, even 0. No byte of the
    /// slice is changed.
    ///
    /// ```
    /// let mut decoder = CobsDecoder::new(&mut []);
    /// let size = decoder.push(&[1, 0])?.map(|report| report.frame_size());
    /// assert_eq!(rt; size, Some(0));
    /// ```
    pub fn new(dest: &'a mut [u8]) -> CobsDecoder<'a>
        ensures same_slice { borrowed_slice result ≡ dest.entry.ghost_name }
        ensures buffer { borrowed_buffer result ≡ dest.old }
        ensures idle { DecoderAfter (borrowed_buffer result) (borrowed_phase result) [] }
        ensures phase { borrowed_phase result ≡ Idle }
    {
        CobsDecoder {
            dest,
            inner: UnbufferedDecoder::new(),
        }
    }

    /// Decodes the next byte of the stream.
    ///
    /// - `Ok(None)`: the byte didn't end a piece, and the slice begins with the output of the piece so far.
    /// - `Ok(Some(n))`: the byte was the zero after a whole frame, and the message is the slice's first `n` bytes.
    ///
    /// The bytes of the slice after the output are unchanged. As long as the output of the piece fits the slice, the
    /// byte changes the decoder's state in the same way as it would change a [`DecoderState`](crate::DecoderState).
    ///
    /// # Errors
    /// - `InvalidFrame`: the byte was a zero inside a block. `decoded_bytes` is the length of the piece's output, which
    ///   is at the front of the slice.
    /// - `TargetBufTooSmall`: the output of the piece is longer than the slice, and the slice is filled with the first
    ///   bytes of the output. `feed` returns this error for the first byte whose output doesn't fit, and for each byte
    ///   after that, up to and including the zero that ends the piece.
    ///
    /// After every zero the decoder is idle. (The results that follow the first `TargetBufTooSmall` for a piece are a
    /// choice of this library.)
    ///
    /// ```
    /// let mut buffer = [0; 2];
    /// let mut decoder = CobsDecoder::new(&mut buffer);
    /// assert_eq!(rt; decoder.feed(2), Ok(None));
    /// assert_eq!(rt; decoder.feed(7), Ok(None));
    /// assert_eq!(rt; decoder.feed(0), Ok(Some(1)));
    /// assert_eq!(rt; decoder.dest(), [7, 0].as_slice());
    /// ```
    pub fn feed(&mut self, byte: u8) -> Result<Option<usize>, DecodeError>
        ensures feeds { Feeds (borrowed_buffer self.old) (borrowed_phase self.old) byte result
            (borrowed_buffer self.new) (borrowed_phase self.new) }
        ensures by_table { FeedsByTable (length (borrowed_buffer self.old)) (borrowed_phase self.old) byte result
            (borrowed_phase self.new) }
        ensures same_slice { borrowed_slice self.new ≡ borrowed_slice self.old }
    {
        self.inner.feed(self.dest, byte)
    }

    /// Decodes the next bytes of the stream, and stops after the first byte for which `feed` returns a message or an
    /// error.
    ///
    /// - `Ok(None)`: all bytes were decoded, and no piece ended in them.
    /// - `Ok(Some(report))`: a whole frame has ended. `frame_size` is the length of the frame's message, which is at
    ///   the front of the slice. `parsed_size` is the number of bytes consumed, including the zero after the frame. The
    ///   remaining bytes had no effect: push them next.
    ///
    /// # Errors
    /// A `PushError` contains the error of `feed` and the number of bytes consumed, including the byte that raised the
    /// error. To continue with the stream, push the bytes that weren't consumed. If a zero raised the error, the piece
    /// before this zero has ended. If a piece is too long for the slice, each later push consumes one more byte of the
    /// piece and returns the error again, until a push consumes the zero that ends the piece.
    ///
    /// ```
    /// let mut buffer = [0; 2];
    /// let mut decoder = CobsDecoder::new(&mut buffer);
    /// let bytes = [2, 7, 0, 2, 8, 0];
    /// let taken = decoder.push(&bytes)?.map(|report| report.parsed_size());
    /// assert_eq!(rt; taken, Some(3));
    /// ```
    #[tactic(auto, using(crate::proofs::streaming::PushHeadline::push_message, crate::proofs::streaming::PushHeadline::push_only))]
    pub fn push(&mut self, bytes: &[u8]) -> Result<Option<DecodeReport>, PushError>
        ensures pushes { PushesBytes (borrowed_buffer self.old)
            (borrowed_phase self.old) bytes.now result
            (borrowed_buffer self.new) (borrowed_phase self.new) }
        ensures reads { (f m : List ℕ) → borrowed_phase self.old ≡ Idle → bytes.now ≡ f ++ 0 ∷ []
            → Reads f m → length m ≤ length (borrowed_buffer self.old)
            → PushesMessage result (borrowed_buffer self.new) m }
        ensures only { (f m : List ℕ) → borrowed_phase self.old ≡ Idle → bytes.now ≡ f ++ 0 ∷ []
            → IsPiece f → PushesMessage result (borrowed_buffer self.new) m
            → Reads f m × (length m ≤ length (borrowed_buffer self.old)) }
        ensures same_slice { borrowed_slice self.new ≡ borrowed_slice self.old }
    {
        self.inner.push(self.dest, bytes)
    }

    /// Returns the whole slice.
    ///
    /// ```
    /// let mut buffer = [7; 2];
    /// assert_eq!(rt; CobsDecoder::new(&mut buffer).dest(), [7, 7].as_slice());
    /// ```
    pub fn dest(&self) -> &[u8]
        ensures value { result.now ≡ borrowed_buffer self.now }
    {
        self.dest
    }

    /// Returns the whole slice, for writing.
    ///
    /// If the caller writes while a piece is open, the results for this piece stay the same, but the bytes of its
    /// message are unspecified. A piece is open from its first byte to the zero that ends it. While the returned
    /// reference is in use, a proof about a caller of `dest_mut` can use facts about the bytes of the slice. After the
    /// write, the proof can't use facts about the decoder's state. If the caller writes with
    /// [`write_dest`](crate::WriteBuffer::write_dest) instead, the proof can also use facts about the decoder's state
    /// after the write.
    ///
    /// ```
    /// let mut buffer = [7; 2];
    /// let mut decoder = CobsDecoder::new(&mut buffer);
    /// decoder.dest_mut().fill(9);
    /// assert_eq!(rt; decoder.dest(), [9, 9].as_slice());
    /// ```
    pub fn dest_mut(&mut self) -> &mut [u8]
        ensures* writes_back { sem 𝓛 (LendsSlice self.entry result) }
        ensures value { result.now ≡ borrowed_buffer self.old }
    {
        self.dest
    }
}

impl FrameDecoder for CobsDecoder<'_> {
    ghost use Rattle.cobs.specs.Fields.Decoders.{borrowed_buffer, borrowed_phase, borrowed_slice};

    // The contracts of `FrameDecoder` need three values: the bytes of the decoder's buffer, the decoder's phase, and a
    // number for the slice that the decoder borrows. A line that begins with `ghost` has no effect when the program
    // runs.
    ghost bytes = { borrowed_buffer };

    ghost phase = { borrowed_phase };

    ghost loan = { borrowed_slice };

    fn feed_byte(&mut self, byte: u8) -> Result<Option<usize>, DecodeError> {
        self.feed(byte)
    }

    fn feed_piece(&mut self, stream: &[u8]) -> Option<(PieceEnd, usize)> {
        self.inner.feed_piece(self.dest, stream)
    }

    fn buffer(&self) -> &[u8] {
        self.dest()
    }
}

impl WriteBuffer for CobsDecoder<'_> {
    ghost use Rattle.cobs.specs.Fields.Lending.{with_borrowed_buffer};
    ghost use Rattle.std.proofs.Common.{refl};

    ghost with_bytes = { with_borrowed_buffer };

    fn dest_mut(&mut self) -> &mut [u8] {
        self.dest
    }

    ghost bytes_are_written = { λ _ _ _. refl };

    ghost phase_stays = { λ _ _. refl };

    ghost loan_stays = { λ _ _. refl };
}

/// Decodes a stream of frames, each ended by a zero, into a vector that the decoder owns.
///
/// This decoder returns the same results as [`CobsDecoder`](crate::CobsDecoder). Memory is allocated once, by `new`,
/// and the buffer keeps its length. The rule that a zero ends each frame is from Cheshire and Baker's paper. The calls
/// are those of the Rust crate `cobs`.
///
/// ```
/// let mut decoder = CobsDecoderOwned::new(alloc, 8)?;
/// assert_eq!(rt; decoder.feed(2), Ok(None));
/// assert_eq!(rt; decoder.feed(7), Ok(None));
/// assert_eq!(rt; decoder.feed(0), Ok(Some(1)));
/// assert!(rt; decoder.dest().starts_with(&[7]));
/// ```
#[derive(Debug, Drop)]
pub struct CobsDecoderOwned {
    dest: Vec<u8>,
    inner: UnbufferedDecoder,
}

impl CobsDecoderOwned {
    /// Makes an idle decoder with a buffer of `dest_buf_size` zeros.
    ///
    /// # Errors
    /// `AllocError`: there isn't enough memory for the buffer.
    ///
    /// ```
    /// assert_eq!(rt; CobsDecoderOwned::new(alloc, 2)?.dest(), [0, 0].as_slice());
    /// ```
    pub fn new(alloc: Global, dest_buf_size: usize) -> Result<Self, AllocError>
        ensures buffer { IfOk result (λ decoder. owned_buffer decoder ≡ replicate dest_buf_size 0) }
        ensures idle { IfOk result (λ decoder. DecoderAfter (owned_buffer decoder) (owned_phase decoder) []) }
        ensures phase { IfOk result (λ decoder. owned_phase decoder ≡ Idle) }
    {
        Ok(CobsDecoderOwned {
            dest: vec![in alloc; 0; dest_buf_size]?,
            inner: UnbufferedDecoder::new(),
        })
    }

    /// Decodes the next byte of the stream. The results and errors are those of
    /// [`CobsDecoder::feed`](crate::CobsDecoder::feed). As long as the output of the piece fits the buffer, the byte
    /// changes the decoder's state in the same way as it would change a [`DecoderState`](crate::DecoderState).
    ///
    /// ```
    /// let mut decoder = CobsDecoderOwned::new(alloc, 0)?;
    /// assert_eq!(rt; decoder.feed(2), Ok(None));
    /// assert_eq!(rt; decoder.feed(7), Err(DecodeError::TargetBufTooSmall));
    /// assert_eq!(rt; decoder.feed(0), Err(DecodeError::TargetBufTooSmall));
    /// ```
    pub fn feed(&mut self, byte: u8) -> Result<Option<usize>, DecodeError>
        ensures feeds { Feeds (owned_buffer self.old) (owned_phase self.old) byte result
            (owned_buffer self.new) (owned_phase self.new) }
        ensures by_table { FeedsByTable (length (owned_buffer self.old)) (owned_phase self.old) byte result
            (owned_phase self.new) }
    {
        self.inner.feed(&mut self.dest, byte)
    }

    /// Decodes the next bytes of the stream, and stops after the first byte for which `feed` returns a message or an
    /// error. The results and errors are those of [`CobsDecoder::push`](crate::CobsDecoder::push).
    ///
    /// ```
    /// let mut decoder = CobsDecoderOwned::new(alloc, 8)?;
    /// assert_eq!(rt; decoder.push(b"\x06hel"), Ok(None));
    /// let size = decoder.push(b"lo\0")?.map(|report| report.frame_size());
    /// assert_eq!(rt; size, Some(5));
    /// assert!(rt; decoder.dest().starts_with(b"hello"));
    /// ```
    pub fn push(&mut self, bytes: &[u8]) -> Result<Option<DecodeReport>, PushError>
        ensures pushes { PushesBytes (owned_buffer self.old) (owned_phase self.old) bytes.now result
            (owned_buffer self.new) (owned_phase self.new) }
        ensures reads { (f m : List ℕ) → owned_phase self.old ≡ Idle → bytes.now ≡ f ++ 0 ∷ []
            → Reads f m → length m ≤ length (owned_buffer self.old)
            → PushesMessage result (owned_buffer self.new) m }
        ensures only { (f m : List ℕ) → owned_phase self.old ≡ Idle → bytes.now ≡ f ++ 0 ∷ []
            → IsPiece f → PushesMessage result (owned_buffer self.new) m
            → Reads f m × (length m ≤ length (owned_buffer self.old)) }
    {
        self.inner.push(&mut self.dest, bytes)
    }

    /// Makes the decoder idle, so that the next nonzero byte begins a new piece. The buffer keeps its bytes.
    ///
    /// ```
    /// let mut decoder = CobsDecoderOwned::new(alloc, 8)?;
    /// assert_eq!(rt; decoder.push(&[9, 9]), Ok(None));
    /// decoder.reset();
    /// let size = decoder.push(&[1, 0])?.map(|report| report.frame_size());
    /// assert_eq!(rt; size, Some(0));
    /// ```
    pub fn reset(&mut self)
        ensures buffer { owned_buffer self.new ≡ owned_buffer self.old }
        ensures idle { DecoderAfter (owned_buffer self.new) (owned_phase self.new) [] }
        ensures phase { owned_phase self.new ≡ Idle }
    {
        self.inner = UnbufferedDecoder::new();
    }

    /// Returns the whole buffer.
    ///
    /// ```
    /// let decoder = CobsDecoderOwned::new(alloc, 3)?;
    /// assert_eq!(rt; decoder.dest().len(), 3);
    /// ```
    pub fn dest(&self) -> &[u8]
        ensures value { result.now ≡ owned_buffer self.now }
    {
        self.dest.as_slice()
    }

    /// Returns the whole buffer, for writing, as [`CobsDecoder::dest_mut`](crate::CobsDecoder::dest_mut) does.
    ///
    /// ```
    /// let mut decoder = CobsDecoderOwned::new(alloc, 2)?;
    /// decoder.dest_mut().fill(9);
    /// assert_eq!(rt; decoder.dest(), [9, 9].as_slice());
    /// ```
    pub fn dest_mut(&mut self) -> &mut [u8]
        ensures* writes_back { sem 𝓛 (LendsOwned self.entry result) }
        ensures value { result.now ≡ owned_buffer self.old }
    {
        self.dest.as_mut_slice()
    }
}

impl FrameDecoder for CobsDecoderOwned {
    ghost use Rattle.cobs.specs.Fields.Decoders.{owned_buffer, owned_phase};

    // The contracts of `FrameDecoder` need three values: the bytes of the decoder's buffer, the decoder's phase, and a
    // number for the slice that the decoder borrows. This decoder borrows no slice, so the number is a constant. A line
    // that begins with `ghost` has no effect when the program runs.
    ghost bytes = { owned_buffer };

    ghost phase = { owned_phase };

    ghost loan = { λ _. 0 };

    fn feed_byte(&mut self, byte: u8) -> Result<Option<usize>, DecodeError> {
        self.feed(byte)
    }

    fn feed_piece(&mut self, stream: &[u8]) -> Option<(PieceEnd, usize)> {
        self.inner.feed_piece(&mut self.dest, stream)
    }

    fn buffer(&self) -> &[u8] {
        self.dest()
    }
}

impl WriteBuffer for CobsDecoderOwned {
    ghost use Rattle.cobs.specs.Fields.Lending.{with_owned_buffer};
    ghost use Rattle.std.proofs.Common.{refl, sym, take_at, drop, length, ◌∙◌};

    ghost with_bytes = { with_owned_buffer };

    fn dest_mut(&mut self) -> &mut [u8] {
        CobsDecoderOwned::dest_mut(self)
    }

    ghost bytes_are_written = { λ decoder written same. take_at written
        (drop (length written) decoder.dest.items) decoder.dest.len
        (same ∙ sym decoder.dest.ok.0) };

    ghost phase_stays = { λ _ _. refl };

    ghost loan_stays = { λ _ _. refl };
}
