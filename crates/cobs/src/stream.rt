//! Calls for whole streams: `decode_stream` decodes all pieces that end in the next bytes of a stream, and
//! `encode_frames` encodes several messages.
//!
//! A stream is cut at its zeros. A piece consists of the bytes between two neighbouring zeros, or before the first
//! zero. It has at least one byte. There are three outcomes: the piece is a frame, it breaks off inside a block, or it
//! decodes to more bytes than the buffer has room for. Each piece is decoded separately, so damage to one piece has no
//! effect after the next zero. (The rule that a zero ends each frame is from Cheshire and Baker's paper. The outcomes
//! of pieces that are broken or too long are a choice of this library.)
ghost use Rattle.std.specs.Prelude.{◌≡◌, ℕ, ◌+◌, ◌<◌, ◌≤◌, ◌^◌, List, [], ◌++◌, All, length, map, take, option_to_list, IfOk, IfSome, IsOk, IsSome, ◌↔◌, OnOk, OnErr, Contains};
ghost use Rattle.cobs.specs.Feed.{DecoderAfter, PhaseAfter};
ghost use Rattle.cobs.specs.Length.{max_encoded_len};
ghost use Rattle.cobs.specs.Stream.{Message, stream_outcomes, unended};
ghost use Rattle.cobs.specs.FeedPiece.{outcome_at, IsWithin, AreAlikeAtFirst};
ghost use Rattle.cobs.specs.Messages.{outcome_in, outcomes_in, AreFrames, messages_in, room_for_frames};

use crate::dec::{FrameDecoder, PieceEnd};
use crate::enc::encode;
use crate::max_encoding_length;
use std::alloc::{AllocError, Global};

/// The outcome of a piece of a stream. A piece consists of one or more nonzero bytes, and a zero ends the piece.
///
/// ```
/// let mut decoder = CobsDecoderHeapless::<4>::new();
/// let found = decode_stream(alloc, &mut decoder, &[2, 7, 0])?;
/// let message = FrameOutcome::Message([7].to_vec(alloc)?);
/// assert_eq!(rt; found.first(), Some(&message));
/// ```
#[derive(Debug, PartialEq, Eq, Drop)]
pub enum FrameOutcome {
    /// The piece is a frame, and this vector contains the message.
    Message(Vec<u8>),

    /// The piece breaks off inside a block. The piece decodes to this many bytes, including those of the broken block.
    Broken(usize),

    /// The piece decodes to more bytes than the decoder's buffer has room for.
    TooLong,
}

/// Returns the outcome of a piece. `end` says how the piece ended, and `buffer` begins with the piece's output.
fn frame_outcome(alloc: Global, end: PieceEnd, buffer: &[u8]) -> Result<FrameOutcome, AllocError>
    requires { IsWithin (length buffer.now) end }
    ensures { IfOk result (λ outcome. outcome_in outcome ≡ outcome_at end buffer.now) }
{
    match end {
        PieceEnd::Message(n) => Ok(FrameOutcome::Message(Vec::from_slice(alloc, &buffer[..n])?)),
        PieceEnd::Broken(count) => Ok(FrameOutcome::Broken(count)),
        PieceEnd::TooLong => Ok(FrameOutcome::TooLong),
    }
}

/// Decodes the next bytes of a stream, and returns one outcome for each piece that ends in these bytes, in order.
///
/// The first of these pieces may have begun in an earlier call. The decoder keeps its state, so the next call continues
/// a piece that hasn't ended. So a caller may cut a stream into chunks anywhere, and decode one chunk per call. The
/// outcomes of all calls, in order, are those of the whole stream. A zero at the front of a stream, or after another
/// zero, ends no piece.
///
/// The caller may write to the decoder's buffer while a piece is open, but the bytes of this piece's message are then
/// unspecified. The length of the message, and all other outcomes, aren't affected.
///
/// # Errors
/// `AllocError` if there isn't enough memory for an outcome. Then the outcomes of this call are lost, and the decoder
/// is idle, so the next nonzero byte begins a new piece. Only messages and the list of outcomes need memory. So if no
/// piece ends, the result is `Ok`.
///
/// ```
/// let mut buffer = [0; 4];
/// let mut decoder = CobsDecoder::new(&mut buffer);
/// let found = decode_stream(alloc, &mut decoder, b"\x03hi\0\x03a\0\x06hello\0\x02")?;
/// assert_eq!(rt; found.len(), 3);
/// assert_eq!(rt; found[0], FrameOutcome::Message(b"hi".to_vec(alloc)?));
/// assert_eq!(rt; found[1], FrameOutcome::Broken(1));
/// assert_eq!(rt; found[2], FrameOutcome::TooLong);
/// ```
pub fn decode_stream<D: FrameDecoder>(
    alloc: Global,
    decoder: &mut D,
    bytes: &[u8],
) -> Result<Vec<FrameOutcome>, AllocError>
    // If the decoder has been fed the front p of a piece, the outcomes are those of the stream that consists of p
    // followed by `bytes`.
    ensures outcomes { (p : List ℕ) → DecoderAfter (D.bytes decoder.old) (D.phase decoder.old) p
        → IfOk result (λ found. outcomes_in found.items
        ≡ stream_outcomes (p ++ bytes.now) (length (D.bytes decoder.old))) }
    ensures after { (p : List ℕ) → DecoderAfter (D.bytes decoder.old) (D.phase decoder.old) p
        → OnOk result
        (DecoderAfter (D.bytes decoder.new) (D.phase decoder.new) (unended (p ++ bytes.now))) }
    ensures succeeds { (p : List ℕ)
        → PhaseAfter (length (D.bytes decoder.old)) (D.phase decoder.old) p
        → stream_outcomes (p ++ bytes.now) (length (D.bytes decoder.old)) ≡ [] → IsOk result }

    // If the caller wrote to the buffer while p was being fed, or after that, the outcomes are the same, with one
    // exception: if the first outcome is a message, the bytes of this message may differ.
    ensures alike { (p : List ℕ)
        → PhaseAfter (length (D.bytes decoder.old)) (D.phase decoder.old) p
        → IfOk result (λ found. AreAlikeAtFirst (outcomes_in found.items)
        (stream_outcomes (p ++ bytes.now) (length (D.bytes decoder.old)))) }
    ensures phase_after { (p : List ℕ)
        → PhaseAfter (length (D.bytes decoder.old)) (D.phase decoder.old) p
        → OnOk result (PhaseAfter (length (D.bytes decoder.new)) (D.phase decoder.new)
        (unended (p ++ bytes.now))) }
    ensures after_zero { (p : List ℕ)
        → PhaseAfter (length (D.bytes decoder.old)) (D.phase decoder.old) p
        → Contains bytes.now 0 → OnOk result
        (DecoderAfter (D.bytes decoder.new) (D.phase decoder.new) (unended (p ++ bytes.now))) }

    // The clauses below hold for a decoder in any phase.
    ensures out_of_memory { OnErr result (DecoderAfter (D.bytes decoder.new) (D.phase decoder.new) []) }
    ensures len { length (D.bytes decoder.new) ≡ length (D.bytes decoder.old) }
    ensures same_loan { D.loan decoder.new ≡ D.loan decoder.old }
{
    let mut outcomes = Vec::new(alloc);
    let mut at = 0;
    'by_piece: while let Some((end, count)) = decoder.feed_piece(&bytes[at..]) {
        outcomes.push(frame_outcome(alloc, end, decoder.buffer())?)?;
        at += count;
    }
    Ok(outcomes)
}

/// Encodes `messages`, and returns the stream as a vector. For each message, in order, the stream has the encoded frame
/// of the message, and then a zero.
///
/// An idle decoder whose buffer has room for each of these messages decodes the stream to exactly these messages. If
/// there are no messages, the stream is empty.
///
/// Precondition: [`encode_frames_room`] returns `Some(n)` for the messages, not `None`. Memory is allocated once, for
/// `n` bytes.
///
/// # Errors
/// `AllocError` if memory runs out.
///
/// ```
/// let messages = [b"hi".to_vec(alloc)?, Vec::new(alloc)];
/// if encode_frames_room(&messages).is_some() {
///     let stream = encode_frames(alloc, &messages)?;
///     assert_eq!(rt; stream.as_slice(), b"\x03hi\0\x01\0".as_slice());
/// }
/// ```
pub fn encode_frames(alloc: Global, messages: &[Vec<u8>]) -> Result<Vec<u8>, AllocError>
    requires { room_for_frames (messages_in messages.now) < 2 ^ 64 }
    ensures frames { IfOk result (λ bytes. AreFrames (messages_in messages.now) bytes.items) }
    ensures comes_back { (n : ℕ) → All (λ message. length message ≤ n) (messages_in messages.now) →
        IfOk result (λ bytes. stream_outcomes bytes.items n
        ≡ map Message (messages_in messages.now)) }
{
    // Because of the precondition, `encode_frames_room` doesn't return `None` here.
    let room = encode_frames_room(messages).unwrap_or(0);
    let mut frames = vec![in alloc; 0; room]?;
    let len = write_frames(messages, &mut frames);
    frames.truncate(len);
    Ok(frames)
}

/// Returns how many bytes are enough for the frames of the messages and a zero after each frame. The number is a sum
/// with two terms per message: [`max_encoding_length`](crate::max_encoding_length) of the message's length, and 1 for
/// the zero. Returns `None` if the sum doesn't fit a `usize`.
///
/// Call [`encode_frames`] only if this function returns `Some(n)`; `encode_frames` then allocates `n` bytes.
/// `encode_frames_room` itself allocates nothing.
///
/// ```
/// let messages = [b"hi".to_vec(alloc)?, Vec::new(alloc)];
/// assert_eq!(rt; encode_frames_room(&messages), Some(6));
/// ```
pub fn encode_frames_room(messages: &[Vec<u8>]) -> Option<usize>
    ensures fits { IsSome result ↔ (room_for_frames (messages_in messages.now) < 2 ^ 64) }
    ensures room { IfSome result (λ room. room ≡ room_for_frames (messages_in messages.now)) }
{
    let mut room = 0usize;
    'by_message: for message in messages {
        room = room.checked_add(max_encoding_length(message.len()) + 1)?;
    }
    Some(room)
}

/// Writes the frames of the messages, with a zero after each frame, to the front of `dest`, and returns how many bytes
/// it wrote.
fn write_frames(messages: &[Vec<u8>], dest: &mut [u8]) -> usize
    requires { room_for_frames (messages_in messages.now) ≤ length dest.old }
    ensures frames { AreFrames (messages_in messages.now) (take result dest.new) }
    ensures within { result ≤ length dest.new }
{
    let mut end = 0;
    'by_message: for message in messages {
        let len = encode(message, &mut dest[end..]);
        dest[end + len] = 0;
        end += len + 1;
    }
    end
}
