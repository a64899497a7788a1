//! Functions that encode with a sentinel other than 0, and functions that write a sentinel before and after the frame.
ghost use Rattle.std.specs.Prelude.{◌≡◌, ◌≤◌, ◌+◌, ◌↔◌, length, take, drop, IsOk, IfOk, OnErr};
ghost use Rattle.cobs.specs.Length.{encoded_len};
ghost use Rattle.cobs.specs.Grammar.{HasNoZero};
ghost use Rattle.cobs.specs.Sentinel.{xor_each, IsEncodedFrameFor, IsDelimitedFrame, IsFreeOf, between_ends};

use crate::enc::{encode, try_encode};
use crate::error::DestBufTooSmallError;
use crate::slices::xor_bytes;

/// Writes the encoded frame of `source` to the front of `dest`, with `sentinel` as the sentinel. Returns the frame's
/// length in bytes.
///
/// The frame is the one that [`encode`] writes, with each byte XORed with `sentinel`. So no byte of the frame is the
/// sentinel. No sentinel is written before or after the frame, and the bytes of `dest` after the frame stay unchanged.
///
/// Precondition: the frame fits `dest`. The frame always fits if the length of `dest` is at least
/// [`max_encoding_length(source.len())`](crate::max_encoding_length).
///
/// Cheshire and Baker's paper describes frames with a sentinel other than 0.
///
/// ```
/// let mut dest = [170; 6];
/// let len = encode_with_sentinel(&[10, 11, 0, 12], &mut dest, 255);
/// assert_eq!(rt; len, 5);
/// assert_eq!(rt; dest, [252, 245, 244, 253, 243, 170]);
/// ```
pub fn encode_with_sentinel(source: &[u8], dest: &mut [u8], sentinel: u8) -> usize
    requires { encoded_len source.now ≤ length dest.old }
    ensures frame { IsEncodedFrameFor sentinel (take result dest.new) source.now }
    ensures no_sentinel { IsFreeOf sentinel (take result dest.new) }
    ensures len { result ≡ encoded_len source.now }
    ensures rest { drop result dest.new ≡ drop result dest.old }
{
    let len = encode(source, dest);
    xor_bytes(&mut dest[..len], sentinel);
    len
}

/// Writes the encoded frame of `source` to the front of `dest`, as [`encode_with_sentinel`] does, if the frame fits
/// `dest`. Returns the frame's length in bytes.
///
/// The Rust crate `cobs` has no such call.
///
/// # Errors
/// Returns `DestBufTooSmallError` if and only if the frame is longer than `dest`. Then no byte of `dest` has changed.
///
/// ```
/// let mut dest = [170; 3];
/// let rejected = try_encode_with_sentinel(&[1, 0, 2], &mut dest, 1);
/// assert_eq!(rt; rejected, Err(DestBufTooSmallError));
/// assert_eq!(rt; try_encode_with_sentinel(&[1, 0], &mut dest, 1), Ok(3));
/// assert_eq!(rt; dest, [3, 0, 0]);
/// ```
#[inline]
pub fn try_encode_with_sentinel(
    source: &[u8],
    dest: &mut [u8],
    sentinel: u8,
) -> Result<usize, DestBufTooSmallError>
    ensures fits { IsOk result ↔ (encoded_len source.now ≤ length dest.old) }
    ensures frame { IfOk result (λ n. IsEncodedFrameFor sentinel (take n dest.new) source.now) }
    ensures no_sentinel { IfOk result (λ n. IsFreeOf sentinel (take n dest.new)) }
    ensures len { IfOk result (λ n. n ≡ encoded_len source.now) }
    ensures rest { IfOk result (λ n. drop n dest.new ≡ drop n dest.old) }
    ensures refused { OnErr result (dest.new ≡ dest.old) }
{
    let written = try_encode(source, dest)?;
    xor_bytes(&mut dest[..written], sentinel);
    Ok(written)
}

/// Writes a 0, the encoded frame of `source` and another 0 to the front of `dest`, and returns how many bytes it wrote.
///
/// The bytes of `dest` after the second 0 stay unchanged. As in the Rust crate `cobs`, one sentinel is before the frame
/// and one is after it.
///
/// Precondition: the frame and both sentinels fit `dest`. They always fit if the length of `dest` is at least
/// [`max_encoding_length(source.len())`](crate::max_encoding_length) plus 2. If you don't know whether the frame and
/// both sentinels fit, call [`try_encode_including_sentinels`], which returns an error if they don't fit.
///
/// ```
/// let mut dest = [170; 8];
/// let len = encode_including_sentinels(&[10, 11, 0, 12], &mut dest);
/// assert_eq!(rt; len, 7);
/// assert_eq!(rt; dest, [0, 3, 10, 11, 2, 12, 0, 170]);
/// ```
#[tactic(auto, using(crate::proofs::format::SentinelLemmas::behind_sentinels))]
pub fn encode_including_sentinels(source: &[u8], dest: &mut [u8]) -> usize
    requires { encoded_len source.now + 2 ≤ length dest.old }
    ensures frame { IsDelimitedFrame (take result dest.new) source.now }
    ensures no_sentinel { HasNoZero (between_ends (take result dest.new)) }
    ensures len { result ≡ encoded_len source.now + 2 }
    ensures rest { drop result dest.new ≡ drop result dest.old }
{
    let last = dest.len() - 1;
    let len = encode(source, &mut dest[1..last]);
    dest[0] = 0;
    dest[len + 1] = 0;
    len + 2
}

/// Writes a 0, the encoded frame of `source` and another 0 to the front of `dest`, as [`encode_including_sentinels`]
/// does, if all of them fit. Returns how many bytes it wrote.
///
/// # Errors
/// Returns `DestBufTooSmallError` if and only if the frame and both sentinels together are longer than `dest`. Then no
/// byte of `dest` has changed. The Rust crate `cobs` doesn't guarantee this.
///
/// ```
/// let mut dest = [170; 4];
/// let rejected = try_encode_including_sentinels(&[1, 2], &mut dest);
/// assert_eq!(rt; rejected, Err(DestBufTooSmallError));
/// assert_eq!(rt; try_encode_including_sentinels(&[1], &mut dest), Ok(4));
/// assert_eq!(rt; dest, [0, 2, 1, 0]);
/// ```
#[tactic(auto, using(crate::proofs::format::SentinelLemmas::behind_sentinels))]
pub fn try_encode_including_sentinels(
    source: &[u8],
    dest: &mut [u8],
) -> Result<usize, DestBufTooSmallError>
    ensures fits { IsOk result ↔ (encoded_len source.now + 2 ≤ length dest.old) }
    ensures frame { IfOk result (λ n. IsDelimitedFrame (take n dest.new) source.now) }
    ensures no_sentinel { IfOk result (λ n. HasNoZero (between_ends (take n dest.new))) }
    ensures len { IfOk result (λ n. n ≡ encoded_len source.now + 2) }
    ensures rest { IfOk result (λ n. drop n dest.new ≡ drop n dest.old) }
    ensures refused { OnErr result (dest.new ≡ dest.old) }
{
    // Both sentinels and the shortest frame need three bytes.
    if dest.len() < 3 {
        return Err(DestBufTooSmallError);
    }
    let last = dest.len() - 1;
    let written = try_encode(source, &mut dest[1..last])?;
    dest[0] = 0;
    dest[written + 1] = 0;
    Ok(written + 2)
}
