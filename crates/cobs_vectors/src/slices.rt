//! Runs calls over slices, and compares the result and the buffer after the call with the expected ones. Also makes the
//! calls that return a vector.
//!
//! `rt` is the runtime: an assertion that fails aborts the test through it.
use cobs::{
    DecodeError, DecodeReport, DecodeVecError, decode, decode_in_place_report, decode_vec,
    decode_vec_with_sentinel, decode_with_sentinel, encode_vec, encode_vec_including_sentinels,
    encode_vec_with_sentinel,
};
use std::alloc::{AllocError, Global};
use std::process::Abort;
use std::test::Fail;

/// A call that decodes a source into a buffer, or that decodes a buffer in place.
#[derive(Clone, Copy)]
pub enum Decoder {
    Decode,
    WithSentinel(u8),
    InPlaceReport,
}

/// A call that returns a vector.
#[derive(Clone, Copy)]
pub enum VectorCall {
    Encode,
    EncodeWithSentinel(u8),
    EncodeIncludingSentinels,
    Decode,
    DecodeWithSentinel(u8),
}

/// The result of a call that decodes.
#[derive(Clone, Copy, Debug, PartialEq, Eq)]
pub enum CallResult {
    /// This many bytes were written.
    Length(usize),

    /// A report with this frame size and this parsed size.
    Sizes(usize, usize),

    /// There was no byte to decode.
    EmptyFrame,

    /// The frame breaks off after this many decoded bytes.
    InvalidFrame(usize),

    /// The message doesn't fit the buffer.
    TooSmall,
}

/// Converts the error of a decoder to a [`CallResult`].
pub fn rejected(error: &DecodeError) -> CallResult {
    match error {
        DecodeError::EmptyFrame => CallResult::EmptyFrame,
        DecodeError::InvalidFrame { decoded_bytes } => CallResult::InvalidFrame(*decoded_bytes),
        DecodeError::TargetBufTooSmall => CallResult::TooSmall,
    }
}

/// Converts the result of a decoder that returns a number of bytes to a [`CallResult`].
fn counted(returned: Result<usize, DecodeError>) -> CallResult {
    match returned {
        Ok(count) => CallResult::Length(count),
        Err(error) => rejected(&error),
    }
}

/// Converts the result of a decoder that returns a report to a [`CallResult`].
fn reported(returned: Result<DecodeReport, DecodeError>) -> CallResult {
    match returned {
        Ok(report) => CallResult::Sizes(report.frame_size(), report.parsed_size()),
        Err(error) => rejected(&error),
    }
}

/// Makes this call, and converts its result to a [`CallResult`].
fn decoded(call: Decoder, source: &[u8], buffer: &mut [u8]) -> CallResult {
    match call {
        Decoder::Decode => reported(decode(source, buffer)),
        Decoder::WithSentinel(sentinel) => counted(decode_with_sentinel(source, buffer, sentinel)),
        Decoder::InPlaceReport => reported(decode_in_place_report(buffer)),
    }
}

/// Makes a call with this source and this buffer, and compares its result and the buffer after the call with the
/// expected ones. A call in place ignores the source.
pub fn check_decoder(
    rt: &impl Abort,
    alloc: Global,
    (call, source, before): (Decoder, &[u8], &[u8]),
    (returned, after): (CallResult, &[u8]),
) -> Result<(), Fail> {
    let mut buffer = before.to_vec(alloc)?;
    assert_eq!(rt;
        decoded(call, source, &mut buffer),
        returned,
        "{source:?} into {before:?}"
    );
    assert_eq!(rt; buffer.as_slice(), after, "{source:?} into {before:?}");
    Ok(())
}

/// Makes a call that returns a vector, for a source of fewer than 10,000 bytes. This bound proves what the calls that
/// encode require: the longest frame for a message of this length has fewer than 2^64 bytes.
pub fn vector(
    rt: &impl Abort,
    alloc: Global,
    call: VectorCall,
    source: &[u8],
) -> Result<Vec<u8>, DecodeVecError> {
    assert!(rt; source.len() < 10_000);
    let encoded = match call {
        VectorCall::Decode => return decode_vec(alloc, source),
        VectorCall::DecodeWithSentinel(sentinel) => {
            return decode_vec_with_sentinel(alloc, source, sentinel);
        }
        VectorCall::Encode => encode_vec(alloc, source),
        VectorCall::EncodeWithSentinel(sentinel) => {
            encode_vec_with_sentinel(alloc, source, sentinel)
        }
        VectorCall::EncodeIncludingSentinels => encode_vec_including_sentinels(alloc, source),
    };
    match encoded {
        Ok(frame) => Ok(frame),
        Err(AllocError) => Err(DecodeVecError::Memory(AllocError)),
    }
}
