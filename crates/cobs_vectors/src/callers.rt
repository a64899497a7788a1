//! Callers whose contracts are proved only from the public contracts of `cobs`.
//!
//! No test runs these functions. The prover derives the contract of each function from the clauses of the calls that it
//! makes. So a clause that says too little for its users is noticed here. A call of a law does nothing when it runs,
//! but the proof of the caller can use what the law states.
ghost use Rattle.std.specs.Prelude.{◌≡◌, ◌≢◌, ◌≤◌, ◌<◌, ◌+◌, ◌^◌, ◌↔◌, ◌∷◌, ◌++◌, [], All, length, take, drop, slice_index, slice_set, List, ℕ, None, Ok, Some, option_to_list, IfOk, IfSome, IsSomeAnd, IsTrue};
ghost use Rattle.cobs.specs.Decode.{first_output, head_result, in_place, len_through_piece};
ghost use Rattle.cobs.specs.Overwritten.{message_in, overwritten, written_at};
ghost use Rattle.cobs.specs.Fields.Decoders.{borrowed_buffer, borrowed_phase, borrowed_slice, heapless_buffer, heapless_phase, owned_buffer, owned_phase};
ghost use Rattle.cobs.specs.Fields.Report.{frame_size_of, parsed_size_of};
ghost use Rattle.cobs.specs.Feed.{Idle, Overlong, PhaseAfter};
ghost use Rattle.cobs.specs.Grammar.{HasNoZero, IsEncodedFrame, Reads};
ghost use Rattle.cobs.specs.Headline.{IsPiece, PushesMessage};
ghost use Rattle.cobs.specs.Length.{encoded_len, max_encoded_len, max_overhead};
ghost use Rattle.cobs.specs.Sentinel.{IsFreeOf, xor_each};
ghost use Rattle.cobs.specs.Messages.{AreFrames, messages_in};
ghost use Rattle.cobs.specs.Stream.{first_piece, head};
ghost use Rattle.cobs.specs.Table.{data_of, state_in};

use cobs::laws::{law_2, law_4, law_12};
use cobs::{
    CobsDecoder, CobsDecoderHeapless, CobsDecoderOwned, DecodeError, DecodeReport, DecodeResult,
    DecoderState, DestBufTooSmallError, FrameKind, PushError, WriteBuffer, decode, decode_first,
    decode_with_sentinel, encode, encode_frames, encode_frames_room, encode_in_place,
    encode_including_sentinels, encode_vec, encode_vec_including_sentinels,
    encode_vec_with_sentinel, encode_with_sentinel, frame_kind, try_encode_including_sentinels,
};
use std::alloc::{AllocError, Global};

/// Returns whether the piece is a frame of the message, and the message fits the buffer.
pub fn reads_as(piece: &[u8], message: &[u8], buffer: &mut [u8]) -> bool
    requires { IsPiece piece.now }
    ensures { IsTrue result ↔ (Reads piece.now message.now × (length message.now ≤ length buffer.old)) }
{
    match decode(piece, buffer) {
        Ok(report) => report.frame_size() == message.len() && buffer.starts_with(message),
        Err(_) => false,
    }
}

/// Returns whether the piece is a frame of the message for this sentinel, and the message fits the buffer.
pub fn reads_for(sentinel: u8, piece: &[u8], message: &[u8], buffer: &mut [u8]) -> bool
    requires { IsPiece (xor_each sentinel piece.now) }
    ensures { IsTrue result ↔ (Reads (xor_each sentinel piece.now) message.now
        × (length message.now ≤ length buffer.old)) }
{
    match decode_with_sentinel(piece, buffer, sentinel) {
        Ok(len) => len == message.len() && buffer.starts_with(message),
        Err(_) => false,
    }
}

/// Decodes the first piece of the source, and returns the bytes after the piece and its zero. The piece needn't be a
/// frame. If the source has no piece, returns no bytes.
pub fn rest_after_first<'a>(source: &'a [u8], dest: &mut [u8]) -> &'a [u8]
    ensures rest { (p : List ℕ) → first_piece source.now ≡ Some p
        → result.now ≡ drop (len_through_piece source.now p) source.now }
    ensures none { first_piece source.now ≡ None → result.now ≡ [] }
    ensures buffer { dest.new ≡ overwritten dest.old (first_output source.now) }
{
    match decode_first(source, dest) {
        Some((_, consumed)) => &source[consumed..],
        None => &source[source.len()..],
    }
}

/// Encodes the message, and returns whether the frame is canonical. It always is.
pub fn encode_canonically(message: &[u8], dest: &mut [u8]) -> bool
    requires { encoded_len message.now ≤ length dest.old }
    ensures { IsTrue result }
{
    let len = encode(message, dest);
    frame_kind(&dest[..len]) == FrameKind::Canonical
}

/// Writes the frame of the message for this sentinel, followed by the sentinel. Returns the index of the sentinel. It
/// is the first sentinel in the buffer.
pub fn write_ended(message: &[u8], dest: &mut [u8], sentinel: u8) -> usize
    requires { encoded_len message.now < length dest.old }
    ensures none_before { All (λ byte. byte ≢ sentinel) (take result dest.new) }
    ensures ended { slice_index dest.new result ≡ sentinel }
{
    let len = encode_with_sentinel(message, dest, sentinel);
    dest[len] = sentinel;
    len
}

/// Encodes a message in place, and writes a zero after the frame. Returns the index of this zero. No byte after the
/// zero changes.
pub fn end_in_place(buffer: &mut [u8], start: usize, message_len: usize) -> usize
    requires room { max_overhead message_len ≤ start }
    requires within { start + message_len < length buffer.old }
    ensures frame { IsEncodedFrame (take result buffer.new) (message_in start message_len buffer.old) }
    ensures none_before { HasNoZero (take result buffer.new) }
    ensures ended { slice_index buffer.new result ≡ 0 }
    ensures len { result ≡ encoded_len (message_in start message_len buffer.old) }
    ensures rest { drop (result + 1) buffer.new ≡ drop (result + 1) buffer.old }
{
    law_4(); // The length of a frame, and its bound
    let len = encode_in_place(buffer, start, message_len);
    buffer[len] = 0;
    len
}

/// Writes the frame of the message between two zeros, and returns the bytes between these zeros. None of the returned
/// bytes is a zero.
pub fn write_between<'a>(message: &[u8], dest: &'a mut [u8]) -> &'a [u8]
    requires { encoded_len message.now + 2 ≤ length dest.old }
    ensures { HasNoZero result.now }
{
    let len = encode_including_sentinels(message, dest);
    let written = &dest[..len];
    &written[1..len - 1]
}

/// Writes the frame of the message between two zeros, if the frame and the zeros fit, and returns the bytes between
/// these zeros. None of the returned bytes is a zero.
pub fn try_write_between<'a>(
    message: &[u8],
    dest: &'a mut [u8],
) -> Result<&'a [u8], DestBufTooSmallError>
    ensures { IfOk result (λ between. HasNoZero between.now) }
{
    let len = try_encode_including_sentinels(message, dest)?;
    let written = &dest[..len];
    Ok(&written[1..len - 1])
}

/// Encodes the message between two zeros, and returns the bytes between these zeros. None of the returned bytes is a
/// zero.
pub fn frame_between(alloc: Global, message: &[u8]) -> Result<Vec<u8>, AllocError>
    requires { max_encoded_len (length message.now) + 2 < 2 ^ 64 }
    ensures { IfOk result (λ frame. HasNoZero frame.items) }
{
    let delimited = encode_vec_including_sentinels(alloc, message)?;
    Vec::from_slice(alloc, &delimited[1..delimited.len() - 1])
}

/// Returns the frame of the message, followed by a zero. The frame has no zero.
pub fn ended_frame(alloc: Global, message: &[u8]) -> Result<Vec<u8>, AllocError>
    requires { max_encoded_len (length message.now) < 2 ^ 64 }
    ensures { IfOk result (λ ended. (f : List ℕ) × HasNoZero f × (ended.items ≡ f ++ 0 ∷ [])) }
{
    let mut frame = encode_vec(alloc, message)?;
    frame.push(0)?;
    Ok(frame)
}

/// Returns the frame of the message for this sentinel, followed by the sentinel. The frame doesn't contain the
/// sentinel.
pub fn ended_frame_for(alloc: Global, sentinel: u8, message: &[u8]) -> Result<Vec<u8>, AllocError>
    requires { max_encoded_len (length message.now) < 2 ^ 64 }
    ensures { IfOk result (λ ended. (f : List ℕ) × IsFreeOf sentinel f
        × (ended.items ≡ f ++ sentinel ∷ [])) }
{
    let mut frame = encode_vec_with_sentinel(alloc, message, sentinel)?;
    frame.push(sentinel)?;
    Ok(frame)
}

/// Returns the frames of the messages, each followed by a zero. Returns `None` if the frames could be too long for a
/// vector.
pub fn frames_of(alloc: Global, messages: &[Vec<u8>]) -> Result<Option<Vec<u8>>, AllocError>
    ensures { IfOk result (λ found. IfSome found (λ bytes. AreFrames (messages_in messages.now) bytes.items)) }
{
    if encode_frames_room(messages).is_none() {
        return Ok(None);
    }
    Ok(Some(encode_frames(alloc, messages)?))
}

/// Pushes a zero, in any phase. No byte of the buffer changes, even if the caller wrote to the buffer inside a piece.
pub fn push_zero(decoder: &mut CobsDecoderOwned)
    ensures same_bytes { owned_buffer decoder.new ≡ owned_buffer decoder.old }
{
    let _returned = decoder.push(&[0]);
}

/// Pushes no bytes, in any phase. Nothing changes.
pub fn push_nothing(decoder: &mut CobsDecoder<'_>)
    ensures same_bytes { borrowed_buffer decoder.new ≡ borrowed_buffer decoder.old }
    ensures same_phase { borrowed_phase decoder.new ≡ borrowed_phase decoder.old }
    ensures same_slice { borrowed_slice decoder.new ≡ borrowed_slice decoder.old }
{
    let _returned = decoder.push(&[]);
}

/// Returns whether a push with this result decoded this message to the front of the buffer.
fn came_to(returned: Result<Option<DecodeReport>, PushError>, buffer: &[u8], message: &[u8]) -> bool
    ensures { IsTrue result ↔ PushesMessage returned buffer.now message.now }
{
    match returned {
        Ok(Some(report)) => report.frame_size() == message.len() && buffer.starts_with(message),
        Ok(None) | Err(_) => false,
    }
}

/// Pushes the piece and its zero to a decoder that borrows a slice. Returns whether the piece is a frame of the
/// message, and the message fits the slice.
pub fn push_reads(decoder: &mut CobsDecoder<'_>, ended: &[u8], piece: &[u8], message: &[u8]) -> bool
    requires idle { borrowed_phase decoder.old ≡ Idle }
    requires piece { IsPiece piece.now }
    requires ended { ended.now ≡ piece.now ++ 0 ∷ [] }
    ensures { IsTrue result ↔ (Reads piece.now message.now
        × (length message.now ≤ length (borrowed_buffer decoder.old))) }
{
    let returned = decoder.push(ended);
    came_to(returned, decoder.dest(), message)
}

/// Pushes the piece and its zero to a decoder that owns its buffer. Returns whether the piece is a frame of the
/// message, and the message fits the buffer.
pub fn push_reads_owned(
    decoder: &mut CobsDecoderOwned,
    ended: &[u8],
    piece: &[u8],
    message: &[u8],
) -> bool
    requires idle { owned_phase decoder.old ≡ Idle }
    requires piece { IsPiece piece.now }
    requires ended { ended.now ≡ piece.now ++ 0 ∷ [] }
    ensures { IsTrue result ↔ (Reads piece.now message.now
        × (length message.now ≤ length (owned_buffer decoder.old))) }
{
    let returned = decoder.push(ended);
    came_to(returned, decoder.dest(), message)
}

/// Pushes the piece and its zero to a decoder whose buffer is part of the decoder. Returns whether the piece is a frame
/// of the message, and the message fits the buffer.
pub fn push_reads_heapless<const N: usize>(
    decoder: &mut CobsDecoderHeapless<N>,
    ended: &[u8],
    piece: &[u8],
    message: &[u8],
) -> bool
    requires idle { heapless_phase decoder.old ≡ Idle }
    requires piece { IsPiece piece.now }
    requires ended { ended.now ≡ piece.now ++ 0 ∷ [] }
    ensures { IsTrue result ↔ (Reads piece.now message.now
        × (length message.now ≤ length (heapless_buffer decoder.old))) }
{
    let returned = decoder.push(ended);
    came_to(returned, decoder.dest(), message)
}

/// Returns the byte that a result adds to the message, or `None` if it adds no byte.
fn byte_given(returned: Result<DecodeResult, DecodeError>) -> Option<u8>
    ensures { option_to_list result ≡ data_of returned }
{
    match returned {
        Ok(DecodeResult::DataContinue(byte)) => Some(byte),
        _ => None,
    }
}

/// Returns whether a result says that a whole frame has ended.
fn is_complete(returned: Result<DecodeResult, DecodeError>) -> bool
    ensures { IsTrue result ↔ (returned ≡ Ok DecodeResult.DataComplete) }
{
    matches!(returned, Ok(DecodeResult::DataComplete))
}

/// Decodes a frame byte by byte into a vector, using only the state machine. Returns the message, or `None` if the
/// bytes aren't a frame.
pub fn decode_by_state(alloc: Global, frame: &[u8]) -> Result<Option<Vec<u8>>, AllocError>
    requires { HasNoZero frame.now }
    ensures { (m : List ℕ) → IfOk result (λ found.
        IsSomeAnd found (λ message. message.items ≡ m) ↔ Reads frame.now m) }
{
    let mut state = DecoderState::default();
    let mut message = Vec::new(alloc);
    'by_byte: for byte in frame {
        if let Some(given) = byte_given(state.feed(*byte)) {
            message.push(given)?;
        }
    }
    if is_complete(state.feed(0)) {
        Ok(Some(message))
    } else {
        Ok(None)
    }
}

/// Feeds a byte to a decoder, and to a state machine in the same state. After the byte, both are again in the same
/// state, unless the output is too long for the decoder's buffer.
pub fn feed_both(decoder: &mut CobsDecoderOwned, state: &mut DecoderState, byte: u8)
    requires { state_in (owned_phase decoder.old) ≡ Some state.old }
    ensures { owned_phase decoder.new ≢ Overlong → state_in (owned_phase decoder.new) ≡ Some state.new }
{
    let _returned = decoder.feed(byte);
    let _row = state.feed(byte);
}

/// Writes a byte to the front of a decoder's buffer. The decoder's phase stays the same.
pub fn write_first<D: WriteBuffer>(decoder: &mut D, byte: u8)
    requires { 0 < length (D.bytes decoder.old) }
    ensures bytes { D.bytes decoder.new ≡ slice_set (D.bytes decoder.old) 0 byte }
    ensures phase { (n : ℕ) (p : List ℕ) → PhaseAfter n (D.phase decoder.old) p → PhaseAfter n (D.phase decoder.new) p }
    ensures same_loan { D.loan decoder.new ≡ D.loan decoder.old }
{
    decoder.dest_mut()[0] = byte;
}

/// Writes to the slice that a decoder borrows. If the decoder has consumed the bytes p of a piece (`PhaseAfter`), this
/// is still true after the write.
pub fn write_borrowed(decoder: &mut CobsDecoder<'_>, at: usize, source: &[u8])
    requires { at + length source.now ≤ length (borrowed_buffer decoder.old) }
    ensures bytes { borrowed_buffer decoder.new ≡ written_at (borrowed_buffer decoder.old) at source.now }
    ensures phase { (n : ℕ) (p : List ℕ) → PhaseAfter n (borrowed_phase decoder.old) p → PhaseAfter n (borrowed_phase decoder.new) p }
    ensures same_slice { borrowed_slice decoder.new ≡ borrowed_slice decoder.old }
{
    decoder.write_dest(at, source);
}

/// Returns the length of a buffer that is part of its decoder. No call changes this length.
pub fn buffer_len<const N: usize>(decoder: &CobsDecoderHeapless<N>) -> usize
    ensures { result ≡ N }
{
    decoder.dest().len()
}

/// Does nothing when it runs. Its contract says that for each length `len` there is a message whose frame has exactly
/// `max_encoded_len len` bytes.
pub fn longest_frame(len: usize)
    ensures { (m : List ℕ) × (f : List ℕ) × (length m ≡ len) × All (λ byte. byte < 256) m × IsEncodedFrame f m
        × All (λ byte. byte < 256) f × (length f ≡ max_encoded_len len) }
{
    law_2(); // Each message has one encoded frame
    law_4(); // The length of a frame, and its bound
}

/// Copies a report. This never fails, and the copy has the same sizes.
pub fn copy_of(report: &DecodeReport) -> DecodeReport
    ensures parsed { parsed_size_of result ≡ parsed_size_of report.now }
    ensures frame { frame_size_of result ≡ frame_size_of report.now }
{
    match report.clone() {
        Ok(copy) => copy,
        Err(_) => unreachable!(),
    }
}

/// Returns whether two reports are equal. Two reports are equal if and only if the messages have the same length, and
/// the same number of bytes was consumed.
pub fn are_same_reports(first: &DecodeReport, second: &DecodeReport) -> bool
    ensures { IsTrue result ↔ ((parsed_size_of first.now ≡ parsed_size_of second.now)
        × (frame_size_of first.now ≡ frame_size_of second.now)) }
{
    first == second
}

/// Returns whether two errors are equal. They are equal if and only if they are the same variant and, if the variant
/// has the field `decoded_bytes`, have the same value in this field.
pub fn are_same_errors(first: &DecodeError, second: &DecodeError) -> bool
    ensures { IsTrue result ↔ (first.now ≡ second.now) }
{
    first == second
}

/// Returns whether two errors of an encoder are equal. They always are, because there is only one such error.
pub fn are_same_room_errors(first: &DestBufTooSmallError, second: &DestBufTooSmallError) -> bool
    ensures { IsTrue result }
{
    first == second
}
