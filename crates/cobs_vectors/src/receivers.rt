//! Receivers, for each way of passing the bytes to a decoder. Most of them accept frames and nothing else; `end_of` and
//! `salvage` also report what other pieces decode to. Their contracts are proved only from the public clauses of
//! `cobs`.
ghost use Rattle.std.specs.Prelude.{◌≡◌, ◌≢◌, ◌≤◌, ◌<◌, ◌+◌, ◌↔◌, ◌∷◌, ◌++◌, [], All, length, take, List, ℕ, IfOk, IfSome, IsSomeAnd, IsTrue};
ghost use Rattle.cobs.specs.Feed.{DecoderAfter, Idle};
ghost use Rattle.cobs.specs.FeedPiece.{outcome_at};
ghost use Rattle.cobs.specs.Grammar.{HasNoZero, Reads};
ghost use Rattle.cobs.specs.Headline.{BeginsWith, IsPiece};
ghost use Rattle.cobs.specs.Overwritten.{overwritten};
ghost use Rattle.cobs.specs.Piece.{output};
ghost use Rattle.cobs.specs.Sentinel.{IsFreeOf, xor_each};
ghost use Rattle.cobs.specs.Stream.{head, outcome_of};

use crate::callers::reads_for;
use cobs::laws::{law_6, law_9, law_12, law_14, law_18};
use cobs::{
    DecodeVecError, FrameDecoder, PieceEnd, UnbufferedDecoder, decode_in_place,
    decode_in_place_report, decode_in_place_with_sentinel, decode_vec, decode_vec_with_sentinel,
};
use std::alloc::{AllocError, Global};

/// Feeds the zero after a piece whose bytes were fed one by one. If the result is a length, the piece is a frame of the
/// message of this length at the front of the buffer.
pub fn end_piece<D: FrameDecoder>(decoder: &mut D) -> Option<usize>
    ensures { (f : List ℕ) → DecoderAfter (D.bytes decoder.old) (D.phase decoder.old) f
        → All (λ byte. byte < 256) f → IfSome result (λ n. Reads f (take n (D.bytes decoder.new))) }
{
    law_18(); // Streaming decoders return the message of each frame, and no other message
    match decoder.feed_byte(0) {
        Ok(Some(len)) => Some(len),
        Ok(None) => None,
        Err(_) => None,
    }
}

/// Passes a piece and its zero to any idle decoder. Returns the length of a message if and only if the piece is a frame
/// of this message, and the message fits the buffer.
pub fn read_piece<D: FrameDecoder>(decoder: &mut D, ended: &[u8], piece: &[u8]) -> Option<usize>
    requires idle { D.phase decoder.old ≡ Idle }
    requires piece { IsPiece piece.now }
    requires ended { ended.now ≡ piece.now ++ 0 ∷ [] }
    ensures { (m : List ℕ) → (IsSomeAnd result (λ n. BeginsWith (D.bytes decoder.new) n m)
        ↔ (Reads piece.now m × (length m ≤ length (D.bytes decoder.old)))) }
{
    law_18(); // Streaming decoders return the message of each frame, and no other message
    match decoder.feed_piece(ended) {
        Some((PieceEnd::Message(len), _)) => Some(len),
        Some((PieceEnd::Broken(_), _)) => None,
        Some((PieceEnd::TooLong, _)) => None,
        None => None,
    }
}

/// Passes a piece and its zero to any idle decoder, and returns how the piece ended. The outcome depends only on the
/// piece and the buffer's length.
pub fn end_of<D: FrameDecoder>(decoder: &mut D, ended: &[u8], piece: &[u8]) -> PieceEnd
    requires idle { D.phase decoder.old ≡ Idle }
    requires piece { IsPiece piece.now }
    requires ended { ended.now ≡ piece.now ++ 0 ∷ [] }
    ensures { outcome_at result (D.bytes decoder.new)
        ≡ outcome_of piece.now (length (D.bytes decoder.old)) }
{
    law_18(); // Streaming decoders return the message of each frame, and no other message
    // The last byte of `ended` is a zero, which ends the piece, so the result is never `None`.
    match decoder.feed_piece(ended) {
        Some((end, _)) => end,
        None => unreachable!(),
    }
}

/// Passes a piece and its zero, or only the first bytes of a piece, to any idle decoder. The buffer then begins with
/// the bytes to which these bytes decode, as far as they fit. This is also true for a piece that breaks off or is too
/// long.
pub fn salvage<D: FrameDecoder>(decoder: &mut D, received: &[u8]) -> Option<(PieceEnd, usize)>
    requires { D.phase decoder.old ≡ Idle }
    ensures cut_off { HasNoZero received.now
        → D.bytes decoder.new ≡ overwritten (D.bytes decoder.old) (output received.now) }
    ensures ended { (piece : List ℕ) → IsPiece piece → received.now ≡ piece ++ 0 ∷ []
        → D.bytes decoder.new ≡ overwritten (D.bytes decoder.old) (output piece) }
{
    law_9(); // A stream may be cut anywhere
    law_12(); // The first and the last piece of a stream
    law_14(); // A decoder is idle if and only if no piece has begun
    law_18(); // Streaming decoders return the message of each frame, and no other message
    decoder.feed_piece(received)
}

/// Decodes a piece and its zero with one push to an `UnbufferedDecoder`. Returns the length of the message, or `None`
/// if there is no message.
pub fn push_reads_unbuffered(ended: &[u8], piece: &[u8], dest: &mut [u8]) -> Option<usize>
    requires piece { IsPiece piece.now }
    requires ended { ended.now ≡ piece.now ++ 0 ∷ [] }
    ensures { (m : List ℕ) → (IsSomeAnd result (λ n. BeginsWith dest.new n m)
        ↔ (Reads piece.now m × (length m ≤ length dest.old))) }
{
    law_18(); // Streaming decoders return the message of each frame, and no other message
    match UnbufferedDecoder::new().push(dest, ended) {
        Ok(Some(report)) => Some(report.frame_size()),
        Ok(None) => None,
        Err(_) => None,
    }
}

/// Returns the message of a piece as a vector, or `None` if the piece isn't a frame.
pub fn message_of(alloc: Global, piece: &[u8]) -> Result<Option<Vec<u8>>, AllocError>
    requires { IsPiece piece.now }
    ensures { (m : List ℕ) → IfOk result (λ found.
        IsSomeAnd found (λ message. message.items ≡ m) ↔ Reads piece.now m) }
{
    match decode_vec(alloc, piece) {
        Ok(message) => Ok(Some(message)),
        Err(DecodeVecError::Decode(_)) => Ok(None),
        Err(DecodeVecError::Memory(error)) => Err(error),
    }
}

/// Decodes the bytes between two sentinels. Returns the message as a vector, or `None` if the bytes aren't a frame.
pub fn message_for(
    alloc: Global,
    sentinel: u8,
    between: &[u8],
) -> Result<Option<Vec<u8>>, AllocError>
    requires some { between.now ≢ [] }
    requires free { IsFreeOf sentinel between.now }
    ensures { (m : List ℕ) → IfOk result (λ found.
        IsSomeAnd found (λ message. message.items ≡ m) ↔ Reads (xor_each sentinel between.now) m) }
{
    law_6(); // No frame contains its sentinel; a second XOR restores the frame
    match decode_vec_with_sentinel(alloc, between, sentinel) {
        Ok(message) => Ok(Some(message)),
        Err(DecodeVecError::Decode(_)) => Ok(None),
        Err(DecodeVecError::Memory(error)) => Err(error),
    }
}

/// Decodes a piece in place. If the piece is a frame, its message is then at the front.
pub fn message_in_place(piece: &mut [u8]) -> Option<usize>
    requires { IsPiece piece.old }
    ensures { (m : List ℕ) → (IsSomeAnd result (λ n. BeginsWith piece.new n m) ↔ Reads piece.old m) }
{
    match decode_in_place(piece) {
        Ok(len) => Some(len),
        Err(_) => None,
    }
}

/// Decodes a piece in place with `decode_in_place_report`. If the piece is a frame, its message is then at the front.
pub fn report_in_place(piece: &mut [u8]) -> Option<usize>
    requires { IsPiece piece.old }
    ensures { (m : List ℕ) → (IsSomeAnd result (λ n. BeginsWith piece.new n m) ↔ Reads piece.old m) }
{
    match decode_in_place_report(piece) {
        Ok(report) => Some(report.frame_size()),
        Err(_) => None,
    }
}

/// Decodes the bytes between two sentinels in place. If the bytes are a frame, its message is then at the front.
pub fn message_in_place_for(between: &mut [u8], sentinel: u8) -> Option<usize>
    requires some { between.old ≢ [] }
    requires free { IsFreeOf sentinel between.old }
    ensures { (m : List ℕ) → (IsSomeAnd result (λ n. BeginsWith between.new n m)
        ↔ Reads (xor_each sentinel between.old) m) }
{
    law_6(); // No frame contains its sentinel; a second XOR restores the frame
    match decode_in_place_with_sentinel(between, sentinel) {
        Ok(len) => Some(len),
        Err(_) => None,
    }
}

/// Returns whether the bytes between two sentinels are a frame of the message, and the message fits the buffer.
pub fn between_reads_as(sentinel: u8, between: &[u8], message: &[u8], buffer: &mut [u8]) -> bool
    requires some { between.now ≢ [] }
    requires free { IsFreeOf sentinel between.now }
    ensures { IsTrue result ↔ (Reads (xor_each sentinel between.now) message.now
        × (length message.now ≤ length buffer.old)) }
{
    law_6(); // No frame contains its sentinel; a second XOR restores the frame
    reads_for(sentinel, between, message, buffer)
}

/// Returns the bytes before the first sentinel, or all bytes if there is no sentinel.
pub fn before_sentinel(received: &[u8], sentinel: u8) -> &[u8]
    ensures { xor_each sentinel result.now ≡ head (xor_each sentinel received.now) }
{
    law_12(); // The first and the last piece of a stream
    'by_byte: for (at, byte) in received.iter().enumerate() {
        if *byte == sentinel {
            return &received[..at];
        }
    }
    received
}
