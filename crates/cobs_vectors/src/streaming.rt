//! The three streaming decoders under one trait.
//!
//! `rt` is the runtime: an assertion that fails aborts the test through it.
use crate::bytes::repeated;
use cobs::{
    CobsDecoder, CobsDecoderHeapless, CobsDecoderOwned, DecodeError, DecodeReport, FrameDecoder,
    PushError, WriteBuffer,
};
use std::alloc::Global;
use std::process::Abort;
use std::test::Fail;

/// A streaming decoder, with methods that the traits of the library don't have.
pub trait StreamingDecoder: FrameDecoder + WriteBuffer {
    /// Feeds a byte with `feed`.
    fn feed_one(&mut self, byte: u8) -> Result<Option<usize>, DecodeError>;

    /// Pushes bytes with `push`.
    fn push_some(&mut self, bytes: &[u8]) -> Result<Option<DecodeReport>, PushError>;

    /// Returns the whole buffer with `dest`.
    fn whole_buffer(&self) -> &[u8];

    /// Returns whether the buffer begins with these bytes, both in `dest` and in `dest_mut`.
    fn begins_with(&mut self, bytes: &[u8]) -> bool;

    /// Resets the decoder if it has a `reset`, and returns whether it has one.
    fn begin_anew(&mut self) -> bool;
}

impl StreamingDecoder for CobsDecoder<'_> {
    fn feed_one(&mut self, byte: u8) -> Result<Option<usize>, DecodeError> {
        self.feed(byte)
    }

    fn push_some(&mut self, bytes: &[u8]) -> Result<Option<DecodeReport>, PushError> {
        self.push(bytes)
    }

    fn whole_buffer(&self) -> &[u8] {
        self.dest()
    }

    fn begins_with(&mut self, bytes: &[u8]) -> bool {
        self.dest().starts_with(bytes) && self.dest_mut().starts_with(bytes)
    }

    fn begin_anew(&mut self) -> bool {
        false
    }
}

impl<const N: usize> StreamingDecoder for CobsDecoderHeapless<N> {
    fn feed_one(&mut self, byte: u8) -> Result<Option<usize>, DecodeError> {
        self.feed(byte)
    }

    fn push_some(&mut self, bytes: &[u8]) -> Result<Option<DecodeReport>, PushError> {
        self.push(bytes)
    }

    fn whole_buffer(&self) -> &[u8] {
        self.dest()
    }

    fn begins_with(&mut self, bytes: &[u8]) -> bool {
        self.dest().starts_with(bytes) && self.dest_mut().starts_with(bytes)
    }

    fn begin_anew(&mut self) -> bool {
        self.reset();
        true
    }
}

impl StreamingDecoder for CobsDecoderOwned {
    fn feed_one(&mut self, byte: u8) -> Result<Option<usize>, DecodeError> {
        self.feed(byte)
    }

    fn push_some(&mut self, bytes: &[u8]) -> Result<Option<DecodeReport>, PushError> {
        self.push(bytes)
    }

    fn whole_buffer(&self) -> &[u8] {
        self.dest()
    }

    fn begins_with(&mut self, bytes: &[u8]) -> bool {
        self.dest().starts_with(bytes) && self.dest_mut().starts_with(bytes)
    }

    fn begin_anew(&mut self) -> bool {
        self.reset();
        true
    }
}

/// A test that runs with a new decoder of each of the three types.
pub trait Check {
    /// Runs the test with a new decoder.
    fn check<D: StreamingDecoder + Drop>(
        &self,
        rt: &impl Abort,
        alloc: Global,
        decoder: D,
    ) -> Result<(), Fail>;
}

/// Runs the test with each of the three decoders. Each decoder has a buffer of `room` zeros.
pub fn check_all(
    rt: &impl Abort,
    alloc: Global,
    room: usize,
    check: &impl Check,
) -> Result<(), Fail> {
    let mut buffer = repeated(alloc, 0, room)?;
    check.check(rt, alloc, CobsDecoder::new(&mut buffer))?;
    check.check(rt, alloc, CobsDecoderOwned::new(alloc, room)?)?;
    // The buffer of a `CobsDecoderHeapless` has a constant length, so each length that a test uses has an arm here.
    match room {
        0 => check.check(rt, alloc, CobsDecoderHeapless::<0>::new()),
        1 => check.check(rt, alloc, CobsDecoderHeapless::<1>::new()),
        2 => check.check(rt, alloc, CobsDecoderHeapless::<2>::new()),
        3 => check.check(rt, alloc, CobsDecoderHeapless::<3>::new()),
        4 => check.check(rt, alloc, CobsDecoderHeapless::<4>::new()),
        5 => check.check(rt, alloc, CobsDecoderHeapless::<5>::new()),
        16 => check.check(rt, alloc, CobsDecoderHeapless::<16>::new()),
        32 => check.check(rt, alloc, CobsDecoderHeapless::<32>::new()),
        200 => check.check(rt, alloc, CobsDecoderHeapless::<200>::new()),
        253 => check.check(rt, alloc, CobsDecoderHeapless::<253>::new()),
        254 => check.check(rt, alloc, CobsDecoderHeapless::<254>::new()),
        255 => check.check(rt, alloc, CobsDecoderHeapless::<255>::new()),
        507 => check.check(rt, alloc, CobsDecoderHeapless::<507>::new()),
        508 => check.check(rt, alloc, CobsDecoderHeapless::<508>::new()),
        1000 => check.check(rt, alloc, CobsDecoderHeapless::<1000>::new()),
        2000 => check.check(rt, alloc, CobsDecoderHeapless::<2000>::new()),
        2001 => check.check(rt, alloc, CobsDecoderHeapless::<2001>::new()),
        _ => panic!(rt; "no fixed vector of {room} bytes is listed"),
    }
}

/// The result of a call.
#[derive(Clone, Copy, Debug, PartialEq, Eq)]
pub enum CallResult {
    /// Nothing is wrong, and no message has ended.
    Nothing,

    /// A message of this many bytes has ended.
    Length(usize),

    /// The frame breaks off after this many decoded bytes.
    InvalidFrame(usize),

    /// The message doesn't fit the buffer.
    TooSmall,
}

/// Converts the error of a decoder to a [`CallResult`].
fn rejected(error: &DecodeError) -> CallResult {
    match error {
        DecodeError::EmptyFrame => CallResult::Nothing,
        DecodeError::InvalidFrame { decoded_bytes } => CallResult::InvalidFrame(*decoded_bytes),
        DecodeError::TargetBufTooSmall => CallResult::TooSmall,
    }
}

/// Converts the result of feeding a byte to a [`CallResult`].
pub fn fed(returned: Result<Option<usize>, DecodeError>) -> CallResult {
    match returned {
        Ok(None) => CallResult::Nothing,
        Ok(Some(len)) => CallResult::Length(len),
        Err(error) => rejected(&error),
    }
}

/// Converts the result of a push of `count` bytes to a [`CallResult`] and the number of consumed bytes.
pub fn pushed(
    returned: Result<Option<DecodeReport>, PushError>,
    count: usize,
) -> (CallResult, usize) {
    match returned {
        Ok(None) => (CallResult::Nothing, count),
        Ok(Some(report)) => (
            CallResult::Length(report.frame_size()),
            report.parsed_size(),
        ),
        Err(PushError { error, parsed_size }) => (rejected(&error), parsed_size),
    }
}

/// Feeds the bytes, and returns the result of the last byte. The result of each other byte must be `Nothing`.
pub fn feed_all<D: StreamingDecoder>(rt: &impl Abort, decoder: &mut D, bytes: &[u8]) -> CallResult {
    let mut last = CallResult::Nothing;
    for byte in bytes {
        assert_eq!(rt; last, CallResult::Nothing, "before {byte} in {bytes:?}");
        last = fed(decoder.feed_one(*byte));
    }
    last
}

/// Writes this byte to every place of the buffer.
pub fn overwrite<D: StreamingDecoder>(decoder: &mut D, byte: u8) {
    for place in decoder.dest_mut().iter_mut() {
        *place = byte;
    }
}
