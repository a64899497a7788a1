//! Errors, and the report about a decoded message.
ghost use Rattle.std.specs.Prelude.{◌≡◌};
ghost use Rattle.cobs.specs.Fields.Report.{frame_size_of, parsed_size_of};

use serde::{Deserialize, Serialize};
use std::alloc::AllocError;
use thiserror::Error;

/// The error of an encoder. Either the frame is longer than the slice to which it should be written, or the encoder's
/// state isn't possible in a slice of that length.
///
/// ```
/// let text = DestBufTooSmallError.to_string(alloc)?;
/// assert_eq!(rt; text.as_str(), "out of bounds error during encoding");
/// ```
#[derive(Debug, Drop, PartialEq, Eq, Error, Serialize, Deserialize)]
#[error("out of bounds error during encoding")]
pub struct DestBufTooSmallError;

/// The reason why a frame is rejected. The variants have the same names as in the Rust crate `cobs`.
///
/// ```
/// assert_eq!(rt; decode(&[], &mut [0; 4]), Err(DecodeError::EmptyFrame));
/// let rejected = decode(&[3, 1, 2], &mut [0; 1]);
/// assert_eq!(rt; rejected, Err(DecodeError::TargetBufTooSmall));
/// ```
#[derive(Debug, Drop, PartialEq, Eq, Error, Serialize, Deserialize)]
pub enum DecodeError {
    /// There was no byte to decode.
    #[error("empty input frame")]
    EmptyFrame,

    /// The frame breaks off inside a block, or the source has only zeros.
    #[error("frame with invalid format, written {decoded_bytes} to decoded buffer")]
    InvalidFrame {
        /// How many bytes were decoded. If the output was written to the caller's buffer or to the buffer of a
        /// streaming decoder, this buffer begins with the decoded bytes.
        decoded_bytes: usize,
    },

    /// The frame decodes to more bytes than the buffer has room for.
    #[error("target buffer too small")]
    TargetBufTooSmall,
}

/// The error of a `push` to a streaming decoder, with the number of bytes that were consumed. The Rust crate `cobs` has
/// no such type.
///
/// The decoder has consumed the first `parsed_size` bytes of the push. To continue, the caller pushes the bytes that
/// weren't consumed.
///
/// ```
/// let mut buffer = [0; 4];
/// let mut decoder = CobsDecoder::new(&mut buffer);
/// let rejected = PushError {
///     error: DecodeError::InvalidFrame { decoded_bytes: 1 },
///     parsed_size: 3,
/// };
/// assert_eq!(rt; decoder.push(&[3, 7, 0, 2, 9, 0]), Err(rejected));
/// ```
#[derive(Debug, Drop, PartialEq, Eq, Error)]
#[error("{error}")]
pub struct PushError {
    /// The error that [`feed`](crate::CobsDecoder::feed) returns for the last consumed byte.
    pub error: DecodeError,

    /// How many bytes were consumed, including the byte that raised the error.
    pub parsed_size: usize,
}

/// The reason why a call returned no vector. If memory runs out, the call returns `Memory` instead of aborting the
/// program. The Rust crate `cobs` has no such type.
///
/// ```
/// let rejected = Err(DecodeVecError::Decode(DecodeError::EmptyFrame));
/// assert_eq!(rt; decode_vec(alloc, &[]), rejected);
/// ```
#[derive(Debug, Drop, PartialEq, Eq, Error)]
pub enum DecodeVecError {
    /// The source can't be decoded. The `DecodeError` says why.
    #[error("{0}")]
    Decode(DecodeError),

    /// There wasn't enough memory for the vector.
    #[error("out of memory")]
    Memory(AllocError),
}

/// A report about a decoded message: how many bytes of the source were consumed, and how many bytes the message has.
/// The methods have the same names as in the Rust crate `cobs`.
///
/// ```
/// let report = decode(&[0, 3, 1, 2, 0, 1], &mut [0; 4])?;
/// assert_eq!(rt; report.parsed_size(), 5);
/// assert_eq!(rt; report.frame_size(), 2);
/// ```
#[derive(Clone, Copy, Debug, PartialEq, Eq, Serialize, Deserialize)]
pub struct DecodeReport {
    pub(crate) parsed_size: usize,
    pub(crate) frame_size: usize,
}

impl DecodeReport {
    /// Returns how many bytes of the source were consumed. The documentation of the call that made the report says
    /// whether this number includes leading sentinels and the sentinel after the frame.
    ///
    /// ```
    /// assert_eq!(rt; decode(&[0, 1, 0], &mut [])?.parsed_size(), 3);
    /// ```
    pub fn parsed_size(&self) -> usize
        ensures size { result ≡ parsed_size_of self.now }
    {
        self.parsed_size
    }

    /// Returns the length of the message in bytes. The message is at the front of the buffer.
    ///
    /// ```
    /// assert_eq!(rt; decode(&[0, 2, 7], &mut [0; 4])?.frame_size(), 1);
    /// ```
    pub fn frame_size(&self) -> usize
        ensures size { result ≡ frame_size_of self.now }
    {
        self.frame_size
    }
}

/// The former name of [`DecodeReport`]. This name has been deprecated since version 0.5.0 of the Rust crate `cobs`: use
/// `DecodeReport`.
///
/// ```
/// let report: DecodingResult = decode(&[2, 7, 0], &mut [0; 4])?;
/// assert_eq!(rt; report.parsed_size(), 3);
/// ```
pub type DecodingResult = DecodeReport;
