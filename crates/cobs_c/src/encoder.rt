//! Encodes messages that come in chunks. The state and the buffer of each encoder belong to a program in C.
//!
//! A call of a law, such as `law_13()`, does nothing when it runs. It lets the proof of the calling function use the
//! clauses of the law.
ghost use Rattle.std.specs.Prelude.{◌≡◌, ◌<◌, ◌^◌, [], ◌∷◌};
ghost use Rattle.cobs.specs.Fields.Encoders.{reached_by};
ghost use Rattle.cobs.specs.OpenBlock.{end_of};
ghost use Rattle.cobs_c.specs.Frames.{IsFrameOnWire, IsFrameOnWireFor, IsTerminatedFrame};
ghost use Rattle.cobs_c.specs.Stream.{EncodesNext, Finishes, IsFreshEncoder};

use crate::answer::{Answer, done, terminated, too_small};
use cobs::laws::{law_2, law_6, law_13};
use cobs::{UnbufferedEncoder, xor_bytes};

/// Resets the encoder to the start of a message, even if its state is corrupt.
#[unsafe(no_mangle)]
pub extern "C" fn jcobs_encoder_reset(encoder: &mut UnbufferedEncoder)
    ensures fresh { IsFreshEncoder encoder.new }
{
    *encoder = UnbufferedEncoder::new();
}

/// Returns the length of the frame of all bytes that the encoder has taken.
#[inline(always)]
fn frame_len(encoder: &UnbufferedEncoder) -> usize
    requires { end_of (reached_by encoder.now) < 2 ^ 64 }
    ensures { result ≡ end_of (reached_by encoder.now) }
{
    if encoder.full != 0 {
        return encoder.index;
    }
    encoder.index + encoder.taken as usize + 1
}

/// Encodes the next bytes of a message, if the frame of the message up to and including these bytes fits the buffer.
/// Even if the state is corrupt, the buffer keeps its length, `consumed` is at most the number of bytes, and `length`
/// is at most the buffer's length.
#[unsafe(no_mangle)]
pub extern "C" fn jcobs_encoder_push(
    encoder: &mut UnbufferedEncoder,
    buffer: &mut [u8],
    bytes: &[u8],
) -> Answer
    ensures encodes { EncodesNext encoder.old buffer.old bytes.now result
        encoder.new buffer.new }
{
    law_13(); // The open frame of a streaming encoder
    if encoder.push(buffer, bytes).is_err() {
        return too_small();
    }
    done(bytes.len(), frame_len(encoder))
}

/// Encodes the next byte of a message. The contract is the same as for a call of `jcobs_encoder_push` with this byte.
#[unsafe(no_mangle)]
pub extern "C" fn jcobs_encoder_feed(
    encoder: &mut UnbufferedEncoder,
    buffer: &mut [u8],
    byte: u8,
) -> Answer
    ensures encodes { EncodesNext encoder.old buffer.old (byte ∷ []) result
        encoder.new buffer.new }
{
    law_13(); // The open frame of a streaming encoder
    // The copy stays in registers while bytes are written to the buffer.
    let mut state = *encoder;
    if state.feed(buffer, byte).is_err() {
        return too_small();
    }
    *encoder = state;
    done(1, frame_len(&state))
}

/// Ends the message, if its frame fits the buffer. Even if the state is corrupt, the buffer keeps its length, and the
/// returned `length` is at most the buffer's length.
#[unsafe(no_mangle)]
pub extern "C" fn jcobs_encoder_finish(encoder: &mut UnbufferedEncoder, buffer: &mut [u8]) -> Answer
    ensures finishes { Finishes 0 IsFrameOnWire encoder.old buffer.old result
        encoder.new buffer.new }
{
    // No frame fits an empty buffer. Without this test, the call could return a frame of 0 bytes if the state is
    // corrupt.
    if buffer.is_empty() {
        return too_small();
    }
    match encoder.finalize(buffer) {
        Ok(length) => done(0, length),
        Err(_) => too_small(),
    }
}

/// Ends the message, as `jcobs_encoder_finish` does, but the frame is encoded with this sentinel.
#[unsafe(no_mangle)]
pub extern "C" fn jcobs_encoder_finish_with_sentinel(
    encoder: &mut UnbufferedEncoder,
    buffer: &mut [u8],
    sentinel: u8,
) -> Answer
    ensures finishes { Finishes 0 (IsFrameOnWireFor sentinel) encoder.old buffer.old result
        encoder.new buffer.new }
{
    law_6(); // No frame contains its sentinel; a second XOR restores the frame
    let returned = jcobs_encoder_finish(encoder, buffer);
    xor_bytes(&mut buffer[..returned.length], sentinel);
    returned
}

/// Ends the message, as `jcobs_encoder_finish` does, and writes a zero after its frame. If the frame and the zero don't
/// fit the buffer, nothing changes.
#[unsafe(no_mangle)]
pub extern "C" fn jcobs_encoder_finish_terminated(
    encoder: &mut UnbufferedEncoder,
    buffer: &mut [u8],
) -> Answer
    ensures finishes { Finishes 1 (IsTerminatedFrame 0) encoder.old buffer.old result
        encoder.new buffer.new }
{
    law_2(); // Each message has one encoded frame
    law_13(); // The open frame of a streaming encoder
    if buffer.is_empty() {
        return too_small();
    }
    // The zero needs one byte.
    let last = buffer.len() - 1;
    let written = jcobs_encoder_finish(encoder, &mut buffer[..last]);
    terminated(written, buffer, 0)
}

/// Ends the message, as `jcobs_encoder_finish_with_sentinel` does, and writes the sentinel after its frame. If the
/// frame and the sentinel don't fit the buffer, nothing changes.
#[unsafe(no_mangle)]
pub extern "C" fn jcobs_encoder_finish_terminated_with_sentinel(
    encoder: &mut UnbufferedEncoder,
    buffer: &mut [u8],
    sentinel: u8,
) -> Answer
    ensures finishes { Finishes 1 (IsTerminatedFrame sentinel) encoder.old buffer.old result
        encoder.new buffer.new }
{
    law_2(); // Each message has one encoded frame
    law_13(); // The open frame of a streaming encoder
    if buffer.is_empty() {
        return too_small();
    }
    // The sentinel needs one byte.
    let last = buffer.len() - 1;
    let written = jcobs_encoder_finish_with_sentinel(encoder, &mut buffer[..last], sentinel);
    terminated(written, buffer, sentinel)
}
