//! The streaming decoder whose buffer is part of the decoder itself.
ghost use Rattle.std.specs.Prelude.{◌≡◌, ◌-◌, ◌++◌, [], replicate, ◌≤◌, ◌∷◌, List, length, ℕ};
ghost use Rattle.std.specs.Borrow.{sem};
ghost use Rattle.arrayvec.specs.ArrayVec.{array_vec_len};
ghost use Rattle.cobs.specs.Feed.{DecoderAfter, Feeds, Idle};
ghost use Rattle.cobs.specs.Grammar.{Reads};
ghost use Rattle.cobs.specs.Headline.{IsPiece, PushesMessage};
ghost use Rattle.cobs.specs.Push.{PushesBytes};
ghost use Rattle.cobs.specs.Table.{FeedsByTable};

use crate::dec::frame_decoder::{FrameDecoder, PieceEnd, WriteBuffer};
use crate::dec::unbuffered::UnbufferedDecoder;
use crate::error::{DecodeError, DecodeReport, PushError};
use arrayvec::ArrayVec;

/// Decodes a stream of frames, each ended by a zero, into a buffer of `N` bytes that is part of the decoder itself.
///
/// This decoder returns the same results as [`CobsDecoder`](crate::CobsDecoder), and it doesn't allocate. The rule that
/// a zero ends each frame is from Cheshire and Baker's paper. The calls are those of the Rust crate `cobs`.
///
/// ```
/// let mut decoder = CobsDecoderHeapless::<2>::new();
/// assert_eq!(rt; decoder.feed(2), Ok(None));
/// assert_eq!(rt; decoder.feed(7), Ok(None));
/// assert_eq!(rt; decoder.feed(0), Ok(Some(1)));
/// assert_eq!(rt; decoder.dest(), [7, 0].as_slice());
/// ```
#[derive(Debug, Drop)]
pub struct CobsDecoderHeapless<const N: usize> {
    dest: ArrayVec<u8, N>,
    inner: UnbufferedDecoder,

    /// The vector is always full, so the buffer has `N` bytes.
    ghost filled: { length dest.items ≡ N },
}

impl<const N: usize> CobsDecoderHeapless<N> {
    ghost use Rattle.cobs.specs.Fields.Decoders.{heapless_buffer, heapless_phase};
    ghost use Rattle.cobs.specs.Fields.Lending.{LendsHeapless};

    /// Makes an idle decoder whose buffer has `N` zeros.
    ///
    /// ```
    /// assert_eq!(rt; CobsDecoderHeapless::<2>::new().dest(), [0, 0].as_slice());
    /// ```
    pub fn new() -> Self
        ensures buffer { heapless_buffer result ≡ replicate N 0 }
        ensures idle { DecoderAfter (heapless_buffer result) (heapless_phase result) [] }
        ensures phase { heapless_phase result ≡ Idle }
    {
        CobsDecoderHeapless::new_with_vec(ArrayVec::new())
    }

    /// Makes an idle decoder whose buffer is the vector `vec`. The vector keeps its bytes, and zeros are appended until
    /// the vector has `N` bytes.
    ///
    /// ```
    /// let mut vec = ArrayVec::<u8, 3>::new();
    /// vec.push(7);
    /// let decoder = CobsDecoderHeapless::new_with_vec(vec);
    /// assert_eq!(rt; decoder.dest(), [7, 0, 0].as_slice());
    /// ```
    pub fn new_with_vec(vec: ArrayVec<u8, N>) -> Self
        ensures buffer { heapless_buffer result ≡ vec.entry.items ++ replicate (N - array_vec_len vec.entry) 0 }
        ensures idle { DecoderAfter (heapless_buffer result) (heapless_phase result) [] }
        ensures phase { heapless_phase result ≡ Idle }
    {
        let mut dest = vec;
        'fill: for _i in 0..dest.remaining_capacity() {
            dest.push(0);
        }
        CobsDecoderHeapless {
            dest,
            inner: UnbufferedDecoder::new(),
        }
    }

    /// Decodes the next byte of the stream. The results and errors are those of
    /// [`CobsDecoder::feed`](crate::CobsDecoder::feed). As long as the output of the piece fits the buffer, the byte
    /// changes the decoder's state in the same way as it would change a [`DecoderState`](crate::DecoderState).
    ///
    /// ```
    /// let mut decoder = CobsDecoderHeapless::<4>::new();
    /// assert_eq!(rt; decoder.feed(3), Ok(None));
    /// assert_eq!(rt; decoder.feed(7), Ok(None));
    /// let broken = DecodeError::InvalidFrame { decoded_bytes: 1 };
    /// assert_eq!(rt; decoder.feed(0), Err(broken));
    /// ```
    pub fn feed(&mut self, byte: u8) -> Result<Option<usize>, DecodeError>
        ensures feeds { Feeds (heapless_buffer self.old) (heapless_phase self.old) byte result
            (heapless_buffer self.new) (heapless_phase self.new) }
        ensures by_table { FeedsByTable (length (heapless_buffer self.old)) (heapless_phase self.old) byte result
            (heapless_phase self.new) }
    {
        self.inner.feed(self.dest.as_mut_slice(), byte)
    }

    /// Decodes the next bytes of the stream, and stops after the first byte for which `feed` returns a message or an
    /// error. The results and errors are those of [`CobsDecoder::push`](crate::CobsDecoder::push).
    ///
    /// ```
    /// let mut decoder = CobsDecoderHeapless::<8>::new();
    /// assert_eq!(rt; decoder.push(b"\x06hel"), Ok(None));
    /// let size = decoder.push(b"lo\0")?.map(|report| report.frame_size());
    /// assert_eq!(rt; size, Some(5));
    /// assert!(rt; decoder.dest().starts_with(b"hello"));
    /// ```
    pub fn push(&mut self, bytes: &[u8]) -> Result<Option<DecodeReport>, PushError>
        ensures pushes { PushesBytes (heapless_buffer self.old) (heapless_phase self.old)
            bytes.now result (heapless_buffer self.new) (heapless_phase self.new) }
        ensures reads { (f m : List ℕ) → heapless_phase self.old ≡ Idle → bytes.now ≡ f ++ 0 ∷ []
            → Reads f m → length m ≤ length (heapless_buffer self.old)
            → PushesMessage result (heapless_buffer self.new) m }
        ensures only { (f m : List ℕ) → heapless_phase self.old ≡ Idle → bytes.now ≡ f ++ 0 ∷ []
            → IsPiece f → PushesMessage result (heapless_buffer self.new) m
            → Reads f m × (length m ≤ length (heapless_buffer self.old)) }
    {
        self.inner.push(self.dest.as_mut_slice(), bytes)
    }

    /// Makes the decoder idle, so that the next nonzero byte begins a new piece. The buffer keeps its bytes.
    ///
    /// ```
    /// let mut decoder = CobsDecoderHeapless::<8>::new();
    /// assert_eq!(rt; decoder.push(&[9, 9]), Ok(None));
    /// decoder.reset();
    /// let size = decoder.push(&[1, 0])?.map(|report| report.frame_size());
    /// assert_eq!(rt; size, Some(0));
    /// ```
    pub fn reset(&mut self)
        ensures buffer { heapless_buffer self.new ≡ heapless_buffer self.old }
        ensures idle { DecoderAfter (heapless_buffer self.new) (heapless_phase self.new) [] }
        ensures phase { heapless_phase self.new ≡ Idle }
    {
        self.inner = UnbufferedDecoder::new();
    }

    /// Returns the whole buffer, which has `N` bytes.
    ///
    /// ```
    /// assert_eq!(rt; CobsDecoderHeapless::<3>::new().dest().len(), 3);
    /// ```
    pub fn dest(&self) -> &[u8]
        ensures value { result.now ≡ heapless_buffer self.now }
        ensures len { length result.now ≡ N }
    {
        self.dest.as_slice()
    }

    /// Returns the whole buffer, for writing, as [`CobsDecoder::dest_mut`](crate::CobsDecoder::dest_mut) does.
    ///
    /// ```
    /// let mut decoder = CobsDecoderHeapless::<2>::new();
    /// decoder.dest_mut().fill(9);
    /// assert_eq!(rt; decoder.dest(), [9, 9].as_slice());
    /// ```
    pub fn dest_mut(&mut self) -> &mut [u8]
        // Contracts write a type's parameter `N` as `N.row`.
        ensures* writes_back { sem 𝓛 (LendsHeapless N.row self.entry result) }
        ensures value { result.now ≡ heapless_buffer self.old }
    {
        self.dest.as_mut_slice()
    }
}

impl<const N: usize> Default for CobsDecoderHeapless<N> {
    ghost use Rattle.cobs.specs.Fields.Decoders.{heapless_buffer, heapless_phase};

    /// Makes an idle decoder whose buffer has `N` zeros, as `new` does.
    ///
    /// ```
    /// let decoder = CobsDecoderHeapless::<2>::default();
    /// assert_eq!(rt; decoder.dest(), [0, 0].as_slice());
    /// ```
    fn default() -> Self
        ensures buffer { heapless_buffer result ≡ replicate N 0 }
        ensures idle { DecoderAfter (heapless_buffer result) (heapless_phase result) [] }
        ensures phase { heapless_phase result ≡ Idle }
    {
        CobsDecoderHeapless::new()
    }
}

impl<const N: usize> FrameDecoder for CobsDecoderHeapless<N> {
    ghost use Rattle.cobs.specs.Fields.Decoders.{heapless_buffer, heapless_phase};

    // The contracts of `FrameDecoder` need three values: the bytes of the decoder's buffer, the decoder's phase, and a
    // number for the slice that the decoder borrows. This decoder borrows no slice, so the number is a constant. A line
    // that begins with `ghost` has no effect when the program runs.
    ghost bytes = { heapless_buffer };

    ghost phase = { heapless_phase };

    ghost loan = { λ _. 0 };

    fn feed_byte(&mut self, byte: u8) -> Result<Option<usize>, DecodeError> {
        self.feed(byte)
    }

    fn feed_piece(&mut self, stream: &[u8]) -> Option<(PieceEnd, usize)> {
        self.inner.feed_piece(&mut self.dest, stream)
    }

    fn buffer(&self) -> &[u8] {
        self.dest()
    }
}

impl<const N: usize> WriteBuffer for CobsDecoderHeapless<N> {
    ghost use Rattle.cobs.specs.Fields.Lending.{with_heapless_buffer};
    ghost use Rattle.std.proofs.Common.{refl, take_at, drop, length};

    ghost with_bytes = { with_heapless_buffer };

    fn dest_mut(&mut self) -> &mut [u8] {
        CobsDecoderHeapless::dest_mut(self)
    }

    ghost bytes_are_written = { λ decoder written same. take_at written
        (drop (length written) decoder.dest.items) (length decoder.dest.items) same };

    ghost phase_stays = { λ _ _. refl };

    ghost loan_stays = { λ _ _. refl };
}
