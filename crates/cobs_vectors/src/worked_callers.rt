//! Callers whose contracts are proved only from the public clauses of `cobs`, and that a test runs.
ghost use Rattle.std.specs.Prelude.{◌≡◌, ◌<◌, ◌≤◌, ◌^◌, ◌++◌, ◌↔◌, [], ℕ, All, IsOk, IfOk, length, map, slice_set, take};
ghost use Rattle.cobs.specs.Fields.Decoders.{borrowed_buffer, borrowed_phase, borrowed_slice};
ghost use Rattle.cobs.specs.Feed.{DecoderAfter};
ghost use Rattle.cobs.specs.Grammar.{IsEncodedFrame, IsOpenFrame};
ghost use Rattle.cobs.specs.Length.{encoded_len, max_encoded_len};
ghost use Rattle.cobs.specs.Stream.{Message};
ghost use Rattle.cobs.specs.Messages.{messages_in, outcomes_in, room_for_frames};

use cobs::laws::{law_4, law_13};
use cobs::{
    CobsDecoder, CobsEncoder, DestBufTooSmallError, EncoderState, FrameDecoder, FrameOutcome,
    PushResult, WriteBuffer, decode_stream, encode_frames,
};
use std::alloc::{AllocError, Global};

/// Builds the open frame of a message in a vector: changes the vector as each result of an `EncoderState` says.
pub fn encode_by_state(alloc: Global, source: &[u8]) -> Result<Vec<u8>, AllocError>
    ensures { IfOk result
        (λ bytes. (index code : ℕ) × IsOpenFrame bytes.items source.now index code) }
{
    law_13(); // The open frame of a streaming encoder
    let mut output = vec![in alloc; 0]?;
    let mut state = EncoderState::default();
    'by_byte: for byte in source {
        match state.push(*byte) {
            PushResult::AddSingle(single) => output.push(single)?,
            PushResult::ModifyFromStartAndSkip((index, code)) => {
                output[index] = code;
                output.push(0)?;
            }
            PushResult::ModifyFromStartAndPushAndSkip((index, code, last)) => {
                output[index] = code;
                output.push(last)?;
                output.push(0)?;
            }
        }
    }
    let (index, code) = state.finalize();
    output[index] = code;
    Ok(output)
}

/// Encodes a message that comes in two chunks. The calls succeed if and only if the message's frame fits `dest`.
pub fn encode_both(
    first: &[u8],
    second: &[u8],
    dest: &mut [u8],
) -> Result<usize, DestBufTooSmallError>
    requires { 0 < length dest.old }
    ensures fits { IsOk result ↔ (encoded_len (first.now ++ second.now) ≤ length dest.old) }
    ensures frame { IfOk result (λ n. IsEncodedFrame (take n dest.new) (first.now ++ second.now)) }
{
    law_4(); // The length of a frame, and its bound
    let mut encoder = CobsEncoder::new(dest);
    encoder.push(first)?;
    encoder.push(second)?;
    Ok(encoder.finalize())
}

/// Writes a byte to the front of a decoder's buffer. Nothing else of the decoder changes.
pub fn write_first<D: WriteBuffer>(decoder: &mut D, byte: u8)
    requires { 0 < length (D.bytes decoder.old) }
    ensures { decoder.new ≡ D.with_bytes decoder.old (slice_set (D.bytes decoder.old) 0 byte) }
{
    let dest = decoder.dest_mut();
    dest[0] = byte;
}

/// Writes a byte to the front of the slice that a decoder borrows. The decoder's phase doesn't change, and the decoder
/// still borrows the same slice.
pub fn write_first_borrowed(decoder: &mut CobsDecoder<'_>, byte: u8)
    requires { 0 < length (borrowed_buffer decoder.old) }
    ensures phase { borrowed_phase decoder.new ≡ borrowed_phase decoder.old }
    ensures buffer { borrowed_buffer decoder.new ≡ slice_set (borrowed_buffer decoder.old) 0 byte }
    ensures same_slice { borrowed_slice decoder.new ≡ borrowed_slice decoder.old }
{
    write_first(decoder, byte);
}

/// Encodes messages as a stream of frames, and decodes this stream with any idle decoder whose buffer has room for each
/// message. The outcomes are the messages.
pub fn send_and_receive<D: FrameDecoder>(
    alloc: Global,
    decoder: &mut D,
    messages: &[Vec<u8>],
) -> Result<Vec<FrameOutcome>, AllocError>
    requires room { room_for_frames (messages_in messages.now) < 2 ^ 64 }
    requires idle { DecoderAfter (D.bytes decoder.old) (D.phase decoder.old) [] }
    requires held { All (λ message. length message ≤ length (D.bytes decoder.old))
        (messages_in messages.now) }
    ensures { IfOk result
        (λ found. outcomes_in found.items ≡ map Message (messages_in messages.now)) }
{
    let bytes = encode_frames(alloc, messages)?;
    decode_stream(alloc, decoder, &bytes)
}
