//! Encoding: the calls that turn messages into frames.
ghost use Rattle.std.specs.Prelude.{◌≡◌, ◌≤◌, ◌↔◌, length, take, drop, IsOk, IfOk, OnErr};
ghost use Rattle.cobs.specs.Grammar.{HasNoZero, IsEncodedFrame};
ghost use Rattle.cobs.specs.Length.{encoded_len};

mod append;
mod encoder;
mod in_place;
mod sentinel;
mod state;
mod unbuffered;
mod vector;

use crate::error::DestBufTooSmallError;
pub use encoder::CobsEncoder;
pub use in_place::encode_in_place;
pub use sentinel::{
    encode_including_sentinels, encode_with_sentinel, try_encode_including_sentinels,
    try_encode_with_sentinel,
};
pub use state::{EncoderState, PushResult};
pub use unbuffered::UnbufferedEncoder;
pub use vector::{encode_vec, encode_vec_including_sentinels, encode_vec_with_sentinel};

/// Writes the encoded frame of `source` to the front of `dest`, and returns the frame's length in bytes.
///
/// The frame consists of blocks, as in Cheshire and Baker's paper. A message that ends in a run of nonzero bytes has
/// two frames if the length of this run is a positive multiple of 254. The longer frame is the shorter one followed by
/// the byte `1`. This function writes the shorter frame; this is the library's own choice. No byte of the frame is the
/// sentinel 0, and no sentinel is written before or after the frame. The bytes of `dest` after the frame stay
/// unchanged.
///
/// Precondition: the frame fits `dest`. The frame always fits if the length of `dest` is at least
/// [`max_encoding_length(source.len())`](crate::max_encoding_length). If you don't know whether the frame fits, call
/// [`try_encode`], which returns an error if the frame doesn't fit.
///
/// ```
/// let mut dest = [170; 6];
/// let len = encode(&[10, 11, 0, 12], &mut dest);
/// assert_eq!(rt; len, 5);
/// assert_eq!(rt; dest, [3, 10, 11, 2, 12, 170]);
/// ```
#[inline]
#[tactic(auto, using(crate::proofs::encoding::TakingLemmas::from_start))]
pub fn encode(source: &[u8], dest: &mut [u8]) -> usize
    requires { encoded_len source.now ≤ length dest.old }
    ensures frame { IsEncodedFrame (take result dest.new) source.now }
    ensures no_sentinel { HasNoZero (take result dest.new) }
    ensures len { result ≡ encoded_len source.now }
    ensures rest { drop result dest.new ≡ drop result dest.old }
{
    let mut encoder = UnbufferedEncoder::new();
    encoder.append(dest, source);
    encoder.close(dest)
}

/// Writes the encoded frame of `source` to the front of `dest`, as [`encode`] does, if the frame fits `dest`. Returns
/// the frame's length in bytes.
///
/// # Errors
/// Returns `DestBufTooSmallError` if and only if the frame is longer than `dest`. Then no byte of `dest` has changed.
/// The Rust crate `cobs` doesn't guarantee this.
///
/// ```
/// let mut dest = [170; 5];
/// assert_eq!(rt; try_encode(b"hello", &mut dest), Err(DestBufTooSmallError));
/// assert_eq!(rt; dest, [170; 5]);
/// assert_eq!(rt; try_encode(b"hell", &mut dest), Ok(5));
/// assert_eq!(rt; &dest, b"\x05hell");
/// ```
#[inline]
pub fn try_encode(source: &[u8], dest: &mut [u8]) -> Result<usize, DestBufTooSmallError>
    ensures fits { IsOk result ↔ (encoded_len source.now ≤ length dest.old) }
    ensures frame { IfOk result (λ n. IsEncodedFrame (take n dest.new) source.now) }
    ensures no_sentinel { IfOk result (λ n. HasNoZero (take n dest.new)) }
    ensures len { IfOk result (λ n. n ≡ encoded_len source.now) }
    ensures rest { IfOk result (λ n. drop n dest.new ≡ drop n dest.old) }
    ensures refused { OnErr result (dest.new ≡ dest.old) }
{
    if !UnbufferedEncoder::new().has_room(source, dest.len()) {
        return Err(DestBufTooSmallError);
    }
    Ok(encode(source, dest))
}
