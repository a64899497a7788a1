//! Functions that encode a message, and return the frame as a new vector.
ghost use Rattle.std.specs.Prelude.{◌<◌, ◌+◌, ◌^◌, length, IfOk};
ghost use Rattle.cobs.specs.Grammar.{HasNoZero, IsEncodedFrame};
ghost use Rattle.cobs.specs.Length.{max_encoded_len};
ghost use Rattle.cobs.specs.Sentinel.{IsEncodedFrameFor, IsDelimitedFrame, IsFreeOf, between_ends};

use crate::enc::encode;
use crate::enc::sentinel::{encode_including_sentinels, encode_with_sentinel};
use crate::max_encoding_length;
use std::alloc::{AllocError, Global};

/// Returns the encoded frame of `source` as a vector, without a sentinel before or after the frame.
///
/// Precondition: [`max_encoding_length(source.len())`](crate::max_encoding_length) fits a `usize`. Memory is allocated
/// once, for the longest frame that a message of this length can have.
///
/// # Errors
/// Returns `AllocError` if memory runs out.
///
/// ```
/// let frame = encode_vec(alloc, b"hello")?;
/// assert_eq!(rt; frame.as_slice(), b"\x06hello".as_slice());
/// ```
#[tactic(auto, using(crate::proofs::format::LengthLemmas::bounds))]
pub fn encode_vec(alloc: Global, source: &[u8]) -> Result<Vec<u8>, AllocError>
    requires { max_encoded_len (length source.now) < 2 ^ 64 }
    ensures frame { IfOk result (λ bytes. IsEncodedFrame bytes.items source.now) }
    ensures no_sentinel { IfOk result (λ bytes. HasNoZero bytes.items) }
{
    let mut frame = vec![in alloc; 0; max_encoding_length(source.len())]?;
    let len = encode(source, &mut frame);
    frame.truncate(len);
    Ok(frame)
}

/// Returns a vector that contains a 0, the encoded frame of `source`, and another 0.
///
/// Precondition: [`max_encoding_length(source.len())`](crate::max_encoding_length) plus 2 fits a `usize`. Memory is
/// allocated once, for both sentinels and the longest frame that a message of this length can have. The returned vector
/// contains nothing but the frame of `source` and both sentinels. The Rust crate `cobs` doesn't guarantee this.
///
/// # Errors
/// Returns `AllocError` if memory runs out.
///
/// ```
/// let delimited = encode_vec_including_sentinels(alloc, b"hello")?;
/// assert_eq!(rt; delimited.as_slice(), b"\0\x06hello\0".as_slice());
/// ```
#[tactic(auto, using(crate::proofs::format::LengthLemmas::bounds))]
pub fn encode_vec_including_sentinels(alloc: Global, source: &[u8]) -> Result<Vec<u8>, AllocError>
    requires { max_encoded_len (length source.now) + 2 < 2 ^ 64 }
    ensures frame { IfOk result (λ bytes. IsDelimitedFrame bytes.items source.now) }
    ensures no_sentinel { IfOk result (λ bytes. HasNoZero (between_ends bytes.items)) }
{
    let mut delimited = vec![in alloc; 0; max_encoding_length(source.len()) + 2]?;
    let len = encode_including_sentinels(source, &mut delimited);
    delimited.truncate(len);
    Ok(delimited)
}

/// Returns the encoded frame of `source` as a vector, with `sentinel` as the sentinel. This frame is the one that
/// [`encode_vec`] returns, with each byte XORed with `sentinel`.
///
/// Precondition: [`max_encoding_length(source.len())`](crate::max_encoding_length) fits a `usize`. Memory is allocated
/// once, for the longest frame that a message of this length can have.
///
/// # Errors
/// Returns `AllocError` if memory runs out.
///
/// ```
/// let frame = encode_vec_with_sentinel(alloc, &[10, 11, 0, 12], 255)?;
/// assert_eq!(rt; frame.as_slice(), [252, 245, 244, 253, 243].as_slice());
/// ```
#[tactic(auto, using(crate::proofs::format::LengthLemmas::bounds))]
pub fn encode_vec_with_sentinel(
    alloc: Global,
    source: &[u8],
    sentinel: u8,
) -> Result<Vec<u8>, AllocError>
    requires { max_encoded_len (length source.now) < 2 ^ 64 }
    ensures frame { IfOk result (λ bytes. IsEncodedFrameFor sentinel bytes.items source.now) }
    ensures no_sentinel { IfOk result (λ bytes. IsFreeOf sentinel bytes.items) }
{
    let mut changed = vec![in alloc; 0; max_encoding_length(source.len())]?;
    let len = encode_with_sentinel(source, &mut changed, sentinel);
    changed.truncate(len);
    Ok(changed)
}
