//! Decodes whole frames.
ghost use Rattle.std.specs.Prelude.{◌≡◌, ◌≤◌, length};
ghost use Rattle.cobs.specs.Sentinel.{xor_each};
ghost use Rattle.cobs.specs.Stream.{head};
ghost use Rattle.cobs_c.specs.Decode.{Decodes, DecodesFor, DecodesInPlace, DecodesInPlaceFor, IsKindOf};

use crate::answer::{Answer, CANONICAL, LONGER, NOT_A_FRAME, answer_of, done};
use cobs::laws::{law_1, law_12};
use cobs::{FrameKind, PieceEnd, decode_first, decode_in_place_report};
use memchr::memchr;

/// Returns the number of bytes before the first sentinel, or of all bytes if there is no sentinel.
fn first_sentinel(bytes: &[u8], sentinel: u8) -> usize
    ensures within { result ≤ length bytes.now }
    ensures head { result ≡ length (head (xor_each sentinel bytes.now)) }
{
    law_12(); // The first and the last piece of a stream
    memchr(sentinel, bytes).unwrap_or(bytes.len())
}

/// Decodes the first frame of the source, and writes the message to the front of `message`.
#[unsafe(no_mangle)]
pub extern "C" fn jcobs_decode(source: &[u8], message: &mut [u8]) -> Answer
    ensures decodes { Decodes source.now message.old result message.new }
{
    law_1(); // A frame reads as its output
    match decode_first(source, message) {
        Some((end, consumed)) => answer_of(Some(end), consumed, message.len()),
        None => answer_of(None, source.len(), message.len()),
    }
}

/// Decodes a frame that was encoded with this sentinel, and writes the message to the front of `message`. The frame
/// consists of the source's bytes before the first sentinel.
#[unsafe(no_mangle)]
pub extern "C" fn jcobs_decode_with_sentinel(
    source: &[u8],
    message: &mut [u8],
    sentinel: u8,
) -> Answer
    ensures decodes { DecodesFor sentinel source.now message.old result message.new }
{
    // The sentinel after the frame is consumed too, if there is one.
    let consumed = source.len().min(first_sentinel(source, sentinel) + 1);
    match cobs::decode_with_sentinel(source, message, sentinel) {
        Ok(length) => done(consumed, length),
        Err(error) => answer_of(PieceEnd::reported(Err(error)), consumed, message.len()),
    }
}

/// Decodes the frame at the front of the buffer, in place.
#[unsafe(no_mangle)]
pub extern "C" fn jcobs_decode_in_place(buffer: &mut [u8]) -> Answer
    ensures decodes { DecodesInPlace buffer.old result buffer.new }
{
    let room = buffer.len();
    match decode_in_place_report(buffer) {
        // The zero after the frame is consumed too, if there is one.
        Ok(report) => done(room.min(report.parsed_size() + 1), report.frame_size()),
        Err(error) => {
            let broken = answer_of(PieceEnd::reported(Err(error)), 0, room);
            // The bytes after the output are unchanged, so the first zero among them ends the frame.
            let written = broken.length;
            let end = written + first_sentinel(&buffer[written..], 0);
            Answer {
                consumed: room.min(end + 1),
                ..broken
            }
        }
    }
}

/// Decodes, in place, a frame that was encoded with this sentinel. The frame consists of the buffer's bytes before the
/// first sentinel.
#[unsafe(no_mangle)]
pub extern "C" fn jcobs_decode_in_place_with_sentinel(buffer: &mut [u8], sentinel: u8) -> Answer
    ensures decodes { DecodesInPlaceFor sentinel buffer.old result buffer.new }
{
    let room = buffer.len();
    let end = first_sentinel(buffer, sentinel);
    // A leading sentinel is read as an empty message.
    if end == 0 && room != 0 {
        return done(1, 0);
    }
    let consumed = room.min(end + 1);
    match cobs::decode_in_place_with_sentinel(&mut buffer[..end], sentinel) {
        Ok(length) => done(consumed, length),
        Err(error) => answer_of(PieceEnd::reported(Err(error)), consumed, room),
    }
}

/// Returns whether the bytes are a frame that encoders write, another frame, or no frame.
#[unsafe(no_mangle)]
pub extern "C" fn jcobs_frame_kind(bytes: &[u8]) -> u32
    ensures kind { IsKindOf bytes.now result }
{
    match cobs::frame_kind(bytes) {
        FrameKind::NotAFrame => NOT_A_FRAME,
        FrameKind::Canonical => CANONICAL,
        FrameKind::Longer => LONGER,
    }
}
