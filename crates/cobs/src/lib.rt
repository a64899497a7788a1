//! Consistent Overhead Byte Stuffing (COBS), with calls modelled on those of the Rust crate `cobs` 0.5.1.
//!
//! COBS turns a message, which may be any bytes, into a frame that never contains a chosen byte value, usually 0. This
//! byte value is the delimiter; this library calls it the sentinel. The sentinel marks the end of each frame on a
//! serial line or in a file. If a frame is damaged, the receiver waits for the next sentinel and reads the frame after
//! that sentinel. A frame is a list of blocks. A block is a code followed by up to 254 nonzero bytes. The code is the
//! length of the block in bytes, including the code itself. A block with the code 255 is full: 254 nonzero bytes follow
//! its code. After the bytes of each block but the last, the message has a zero, unless that block is full. The frame
//! of a message of up to 254 bytes is one byte longer than the message. If a longer message has `n` bytes, its frame is
//! longer than the message by at most `n / 254` bytes, rounded up. The format is that of the paper "Consistent Overhead
//! Byte Stuffing" by Stuart Cheshire and Mary Baker.
//!
//! This example encodes a message, and then decodes the frame:
//!
//! ```
//! use cobs::{decode, encode};
//!
//! let mut frame = [0; 16];
//! let len = encode(b"hello", &mut frame);
//! assert_eq!(rt; &frame[..len], b"\x06hello".as_slice());
//!
//! let mut message = [0; 16];
//! let report = decode(&frame[..len], &mut message)?;
//! assert_eq!(rt; report.frame_size(), 5);
//! assert!(rt; message.starts_with(b"hello"));
//! ```
//!
//! This example decodes a stream of two frames byte by byte, as if the bytes arrived from a serial line:
//!
//! ```
//! use cobs::CobsDecoder;
//!
//! let mut buffer = [0; 64];
//! let mut decoder = CobsDecoder::new(&mut buffer);
//! for byte in b"\x06hello\0\x03hi\0" {
//!     if let Ok(Some(len)) = decoder.feed(*byte) {
//!         let message = decoder.dest().get(..len);
//!         assert!(rt; message == Some(b"hello") || message == Some(b"hi"));
//!     }
//! }
//! ```
//!
//! # Which call to use
//!
//! To encode a whole message:
//!
//! - [`encode`] writes the frame to a slice that has room for it.
//! - [`try_encode`] returns an error if the frame doesn't fit the slice.
//! - [`encode_vec`] returns the frame in a new vector.
//! - [`encode_in_place`] writes the frame to the buffer that holds the message.
//! - The calls whose names end in `_with_sentinel` use a sentinel other than 0. The calls whose names end in
//!   `_including_sentinels` write a sentinel on each side of the frame.
//!
//! To encode a message that comes in chunks:
//!
//! - [`CobsEncoder`] writes to a slice.
//! - [`UnbufferedEncoder`] writes to a buffer that you pass to each call.
//! - [`EncoderState`] has no buffer: you write the encoded bytes to a container of your own.
//!
//! To decode a whole frame:
//!
//! - [`decode`] writes the message to a slice.
//! - [`decode_vec`] returns the message in a new vector.
//! - [`decode_in_place`] writes the message to the buffer that holds the frame.
//! - The calls whose names end in `_with_sentinel` use a sentinel other than 0.
//!
//! To decode frames from a serial line:
//!
//! - [`CobsDecoder`] decodes into a slice.
//! - [`CobsDecoderOwned`] decodes into a vector that is allocated once.
//! - [`CobsDecoderHeapless`] decodes into a buffer that is part of the decoder.
//! - [`UnbufferedDecoder`] decodes into a buffer that you pass to each call.
//! - [`DecoderState`] has no buffer: you write the decoded bytes to a container of your own.
//! - [`FrameReader`] reads frames from any source of bytes.
//!
//! Other calls, and the laws:
//!
//! - [`decode_stream`] decodes a recorded stream, and [`encode_frames`] makes a stream.
//! - [`max_encoding_length`] returns how long a buffer must be to have room for the frame of any message of a given
//!   length.
//! - [`frame_kind`] returns whether some bytes are a frame, and whether this frame is the shortest frame of its
//!   message.
//! - [`laws`] has facts that a proof of your own can cite.
//!
//! A call that allocates has an allocator as its first argument and returns a `Result`. Each call is proved to be safe,
//! to end, and to meet its contract. In the examples `rt` is the argument of `main`, and `alloc` is `rt.alloc()`.
#![tactic(auto)]

// Lines that begin with `ghost` are for contracts and proofs. They have no effect when a program runs.
ghost use Rattle.std.specs.Prelude.{◌≡◌, ◌<◌, ◌^◌};
ghost use Rattle.cobs.specs.Length.{max_overhead, max_encoded_len};

mod block;
mod dec;
mod enc;
mod error;
mod framed;
pub mod laws;
mod slices;
mod stream;

pub use dec::{
    CobsDecoder, CobsDecoderHeapless, CobsDecoderOwned, DecodeResult, DecoderState, FrameDecoder,
    FrameKind, PieceEnd, UnbufferedDecoder, WriteBuffer, decode, decode_first, decode_in_place,
    decode_in_place_report, decode_in_place_with_sentinel, decode_vec, decode_vec_with_sentinel,
    decode_with_sentinel, frame_kind,
};
pub use enc::{
    CobsEncoder, EncoderState, PushResult, UnbufferedEncoder, encode, encode_in_place,
    encode_including_sentinels, encode_vec, encode_vec_including_sentinels,
    encode_vec_with_sentinel, encode_with_sentinel, try_encode, try_encode_including_sentinels,
    try_encode_with_sentinel,
};
pub use error::{
    DecodeError, DecodeReport, DecodeVecError, DecodingResult, DestBufTooSmallError, PushError,
};
pub use framed::{FrameReader, FrameSource, Next, ReadFault, Recorded};
pub use slices::xor_bytes;
pub use stream::{FrameOutcome, decode_stream, encode_frames, encode_frames_room};

/// Returns the greatest overhead, in bytes, that an encoded frame can have if its message has `source_len` bytes. The
/// overhead of a frame is its length minus the length of its message.
///
/// The greatest overhead is `source_len / 254`, rounded up, or 1 if the message is empty. A message without zeros has
/// this overhead, because its frame has one code for every 254 bytes, and one code for the remaining bytes, if any. The
/// frame of the empty message has one code. Sentinels before and after the frame aren't counted. The bound is from the
/// paper by Cheshire and Baker.
///
/// ```
/// assert_eq!(rt; max_encoding_overhead(0), 1);
/// assert_eq!(rt; max_encoding_overhead(254), 1);
/// assert_eq!(rt; max_encoding_overhead(255), 2);
/// ```
pub fn max_encoding_overhead(source_len: usize) -> usize
    ensures overhead { result ≡ max_overhead source_len }
{
    if source_len == 0 {
        return 1;
    }
    source_len.div_ceil(254)
}

/// Returns the length, in bytes, of the longest encoded frame that a message of `source_len` bytes can have. A buffer
/// of this length has room for the frame of any message of `source_len` bytes. Sentinels aren't counted.
///
/// Precondition: the length of the longest frame fits a `usize`. This is true for every `source_len` up to
/// `isize::MAX`.
///
/// ```
/// assert_eq!(rt; max_encoding_length(0), 1);
/// assert_eq!(rt; max_encoding_length(254), 255);
/// assert_eq!(rt; max_encoding_length(255), 257);
/// ```
pub fn max_encoding_length(source_len: usize) -> usize
    requires { max_encoded_len source_len < 2 ^ 64 }
    ensures len { result ≡ max_encoded_len source_len }
{
    source_len + max_encoding_overhead(source_len)
}
