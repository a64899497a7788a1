//! `decode_with_sentinel`, whose caller chooses the sentinel, and the calls that decode into a new vector.
ghost use Rattle.std.specs.Prelude.{◌≡◌, ◌≢◌, ◌≤◌, length, List, ℕ, [], IfOk, IfErr, IsOkAnd};
ghost use Rattle.cobs.specs.Overwritten.{overwritten};
ghost use Rattle.cobs.specs.Decode.{head_result_within, result_of_sentinel_decode, decoded, decoded_head, IsErrorFor};
ghost use Rattle.cobs.specs.Grammar.{HasNoZero, Reads};
ghost use Rattle.cobs.specs.Headline.{ReturnsMessage, IsPiece, FoundMemory};
ghost use Rattle.cobs.specs.Piece.{kept_output};
ghost use Rattle.cobs.specs.Sentinel.{xor_each};
ghost use Rattle.cobs.specs.Stream.{head};
ghost use Rattle.cobs.specs.declared.error.DecodeError.TheVariants.{EmptyFrame, TargetBufTooSmall};

use crate::dec::decode;
use crate::dec::run::{kept_len, message_len};
use crate::dec::unbuffered::START;
use crate::error::{DecodeError, DecodeVecError};
use crate::slices::position_or_len;
use std::alloc::Global;

/// Decodes a source that contains no sentinel, and returns the message's length in bytes.
fn decode_blocks(source: &[u8], dest: &mut [u8], sentinel: u8) -> Result<usize, DecodeError>
    requires { HasNoZero (xor_each sentinel source.now) }
    ensures returned { result ≡ head_result_within (xor_each sentinel source.now) (length dest.old) }
    ensures buffer { dest.new ≡ overwritten dest.old (kept_output (xor_each sentinel source.now)) }
{
    let (len, whole) = kept_len(source, sentinel);
    let mut progress = START;
    if progress.take_blocks(dest, &source[..len], sentinel) < len {
        return Err(DecodeError::TargetBufTooSmall);
    }
    message_len(progress.written, whole)
}

/// Decodes the frame at the front of the source, and returns the message's length in bytes. The frame was encoded with
/// `sentinel`, which may be any byte.
///
/// The frame ends at the source's first sentinel, or at the end of the source. Each byte of the frame is XORed with the
/// sentinel before it is decoded. After the call, `dest` begins with the message, and every byte of `dest` after the
/// message is unchanged. Unlike [`decode`](crate::decode), this function reads a leading sentinel as an empty message.
/// It then returns 0.
///
/// # Errors
///
/// - `EmptyFrame` if the source is empty. Then `dest` is unchanged.
/// - `TargetBufTooSmall` if the message is longer than `dest`, or if the frame breaks off and the output of the frame's
///   whole blocks is longer than `dest`. In both cases `dest` is filled with the first bytes of the message or of this
///   output.
/// - `InvalidFrame` if the frame breaks off inside a block and the output of the frame's whole blocks fits `dest`. Then
///   `dest` begins with this output, `decoded_bytes` is the length of the output, and every byte of `dest` after the
///   output is unchanged. If the block before the broken block isn't full, the output ends with the zero that joins the
///   two blocks.
///
/// Cheshire and Baker's paper describes how frames are encoded with a sentinel other than 0. The results for broken
/// frames are a choice of this library.
///
/// ```
/// let mut dest = [170; 5];
/// let len = decode_with_sentinel(&[252, 245, 244, 253, 243, 255], &mut dest, 255);
/// assert_eq!(rt; len, Ok(4));
/// assert_eq!(rt; dest, [10, 11, 0, 12, 170]);
/// ```
pub fn decode_with_sentinel(
    source: &[u8],
    dest: &mut [u8],
    sentinel: u8,
) -> Result<usize, DecodeError>
    ensures answer { result ≡ result_of_sentinel_decode (xor_each sentinel source.now) (length dest.old) }
    ensures buffer { dest.new ≡ overwritten dest.old (kept_output (head (xor_each sentinel source.now))) }
    ensures reads { (m : List ℕ) → Reads (xor_each sentinel source.now) m
        → length m ≤ length dest.old → ReturnsMessage result dest.new m }
    ensures only { let f = xor_each sentinel source.now in IsPiece f → (m : List ℕ)
        → ReturnsMessage result dest.new m → Reads f m × (length m ≤ length dest.old) }
{
    if source.is_empty() {
        return Err(DecodeError::EmptyFrame);
    }
    let end = position_or_len(source, sentinel);
    decode_blocks(&source[..end], dest, sentinel)
}

/// Decodes the first frame of the source, and returns a vector that contains only the message.
///
/// This function finds and reads the frame as [`decode`] does. Memory is allocated once, for as many bytes as the
/// source has. So a message always fits, and `TargetBufTooSmall` is never returned.
///
/// # Errors
///
/// - `Decode(EmptyFrame)` if the source is empty. Then no memory is allocated.
/// - `Memory` if memory runs out.
/// - `Decode(error)` if [`decode`] returns `Err(error)` for the source.
///
/// ```
/// let message = decode_vec(alloc, b"\x06hello\0")?;
/// assert_eq!(rt; message.as_slice(), b"hello".as_slice());
/// ```
pub fn decode_vec(alloc: Global, source: &[u8]) -> Result<Vec<u8>, DecodeVecError>
    ensures message { IfOk result (λ message. decoded source.now ≡ Ok message.items) }
    ensures refused { IfErr result (λ error. IsErrorFor (decoded source.now) error) }
    ensures empty { source.now ≡ [] → result ≡ Err (DecodeVecError.Decode EmptyFrame) }
    ensures room { IfErr result (λ error. error ≢ DecodeVecError.Decode TargetBufTooSmall) }
    ensures reads { FoundMemory result → (m : List ℕ) → Reads source.now m
        → IsOkAnd result (λ message. message.items ≡ m) }
    ensures only { IsPiece source.now → (m : List ℕ)
        → IsOkAnd result (λ message. message.items ≡ m) → Reads source.now m }
{
    if source.is_empty() {
        return Err(DecodeVecError::Decode(DecodeError::EmptyFrame));
    }
    let mut message = vec![in alloc; 0; source.len()].map_err(DecodeVecError::Memory)?;
    let report = decode(source, &mut message).map_err(DecodeVecError::Decode)?;
    message.truncate(report.frame_size());
    Ok(message)
}

/// Decodes the frame at the front of the source, and returns a vector that contains only the message. The frame was
/// encoded with `sentinel`, which may be any byte.
///
/// This function reads the frame as [`decode_with_sentinel`] does, up to the first sentinel or the source's end. If the
/// source begins with a sentinel, the function returns an empty vector. Memory is allocated once, for as many bytes as
/// the source has.
///
/// # Errors
///
/// The errors are those of [`decode_vec`], except that `Decode` contains the error of [`decode_with_sentinel`].
///
/// ```
/// let message = decode_vec_with_sentinel(alloc, &[252, 245, 244, 253, 243], 255)?;
/// assert_eq!(rt; message.as_slice(), [10, 11, 0, 12].as_slice());
/// ```
pub fn decode_vec_with_sentinel(
    alloc: Global,
    source: &[u8],
    sentinel: u8,
) -> Result<Vec<u8>, DecodeVecError>
    ensures message { IfOk result (λ message. decoded_head (xor_each sentinel source.now) ≡ Ok message.items) }
    ensures refused { IfErr result (λ error. IsErrorFor (decoded_head (xor_each sentinel source.now)) error) }
    ensures empty { source.now ≡ [] → result ≡ Err (DecodeVecError.Decode EmptyFrame) }
    ensures room { IfErr result (λ error. error ≢ DecodeVecError.Decode TargetBufTooSmall) }
    ensures reads { FoundMemory result → (m : List ℕ) → Reads (xor_each sentinel source.now) m
        → IsOkAnd result (λ message. message.items ≡ m) }
    ensures only { let f = xor_each sentinel source.now in IsPiece f → (m : List ℕ)
        → IsOkAnd result (λ message. message.items ≡ m) → Reads f m }
{
    if source.is_empty() {
        return Err(DecodeVecError::Decode(DecodeError::EmptyFrame));
    }
    let mut message = vec![in alloc; 0; source.len()].map_err(DecodeVecError::Memory)?;
    let len = decode_with_sentinel(source, &mut message, sentinel).map_err(DecodeVecError::Decode)?;
    message.truncate(len);
    Ok(message)
}
