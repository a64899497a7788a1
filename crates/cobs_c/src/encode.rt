//! Encodes whole messages, and returns the greatest lengths of frames.
ghost use Rattle.std.specs.Prelude.{◌≡◌, ◌≤◌, ◌<◌, ◌^◌};
ghost use Rattle.cobs.specs.Length.{max_encoded_len};
ghost use Rattle.cobs_c.specs.Encode.{Encodes, EncodesFor, EncodesInPlace, EncodesTerminated};

use crate::answer::{Answer, done, terminated, too_small};
use cobs::laws::law_4;
use cobs::{encode_in_place, max_encoding_overhead, try_encode, try_encode_with_sentinel};

/// Returns the length of the longest encoded frame of a message of `message_len` bytes, or 0 if this length doesn't fit
/// the type of the result.
#[unsafe(no_mangle)]
pub extern "C" fn jcobs_max_length(message_len: usize) -> usize
    ensures fits { max_encoded_len message_len < 2 ^ 64 → result ≡ max_encoded_len message_len }
    ensures too_long { 2 ^ 64 ≤ max_encoded_len message_len → result ≡ 0 }
{
    message_len
        .checked_add(max_encoding_overhead(message_len))
        .unwrap_or(0)
}

/// Encodes the message, and writes its frame to the front of the buffer `frame`, if it fits. Otherwise nothing is
/// written.
#[unsafe(no_mangle)]
pub extern "C" fn jcobs_encode(message: &[u8], frame: &mut [u8]) -> Answer
    ensures encodes { Encodes message.now frame.old result frame.new }
{
    law_4(); // The length of a frame, and its bound
    match try_encode(message, frame) {
        Ok(length) => done(message.len(), length),
        Err(_) => too_small(),
    }
}

/// Encodes the message with this sentinel, and writes the frame to the front of the buffer `frame`, if it fits.
/// Otherwise nothing is written.
#[unsafe(no_mangle)]
pub extern "C" fn jcobs_encode_with_sentinel(
    message: &[u8],
    frame: &mut [u8],
    sentinel: u8,
) -> Answer
    ensures encodes { EncodesFor sentinel message.now frame.old result frame.new }
{
    match try_encode_with_sentinel(message, frame, sentinel) {
        Ok(length) => done(message.len(), length),
        Err(_) => too_small(),
    }
}

/// Writes the frame of the message, followed by a zero, to the front of the buffer `frame`, if the frame and the zero
/// fit. Otherwise nothing is written.
#[unsafe(no_mangle)]
pub extern "C" fn jcobs_encode_terminated(message: &[u8], frame: &mut [u8]) -> Answer
    ensures encodes { EncodesTerminated 0 message.now frame.old result frame.new }
{
    if frame.is_empty() {
        return too_small();
    }
    // The zero needs one byte.
    let last = frame.len() - 1;
    match try_encode(message, &mut frame[..last]) {
        Ok(length) => {
            frame[length] = 0;
            done(message.len(), length + 1)
        }
        Err(_) => too_small(),
    }
}

/// Encodes the message with this sentinel, and writes the frame, followed by the sentinel, to the front of the buffer
/// `frame`, if the frame and the sentinel fit. Otherwise nothing is written.
#[unsafe(no_mangle)]
pub extern "C" fn jcobs_encode_terminated_with_sentinel(
    message: &[u8],
    frame: &mut [u8],
    sentinel: u8,
) -> Answer
    ensures encodes { EncodesTerminated sentinel message.now frame.old result frame.new }
{
    if frame.is_empty() {
        return too_small();
    }
    // The sentinel needs one byte.
    let last = frame.len() - 1;
    match try_encode_with_sentinel(message, &mut frame[..last], sentinel) {
        Ok(length) => {
            frame[length] = sentinel;
            done(message.len(), length + 1)
        }
        Err(_) => too_small(),
    }
}

/// Encodes a message in place. The message has `message_len` bytes and begins at index `start` of the buffer. The frame
/// is written to the front of the buffer. If `start` is below JCOBS_MAX_OVERHEAD(message_len), or if the message isn't
/// within the buffer, nothing is written.
#[unsafe(no_mangle)]
pub extern "C" fn jcobs_encode_in_place(
    buffer: &mut [u8],
    start: usize,
    message_len: usize,
) -> Answer
    ensures encodes { EncodesInPlace start message_len buffer.old result buffer.new }
{
    let room = buffer.len();
    let overhead = max_encoding_overhead(message_len);
    if start < overhead || room < start || room - start < message_len {
        return too_small();
    }
    let length = encode_in_place(buffer, start, message_len);
    done(message_len, length)
}
