//! The examples in the documentation of the laws of `cobs`: callers that prove something with the law that they call.
//!
//! Everything below the imports is written by `tests/docs.py --write` from the doc comments of
//! `crates/cobs/src/laws.rt` and `laws/`. To change an example, change it there.
ghost use Rattle.std.specs.Prelude.{◌≡◌, ◌≤◌, ◌<◌, ◌^◌, ◌++◌, ◌∷◌, ◌≢◌, ◌+◌, [], ℕ, Bool, false, List, IfOk, IsTrue, None, Ok, Some, length, take};
ghost use Rattle.cobs.specs.Feed.{DecoderAfter, Idle};
ghost use Rattle.cobs.specs.FeedPiece.{TakesPiece};
ghost use Rattle.cobs.specs.Fields.Decoders.{owned_buffer, owned_phase, phase_of};
ghost use Rattle.cobs.specs.Fields.Reader.{kept_of};
ghost use Rattle.cobs.specs.Grammar.{HasNoZero, IsBlock, IsCanonical, IsEncodedFrame, IsFrame, IsFull, IsOpenFrame, Reads};
ghost use Rattle.cobs.specs.Headline.{IsPiece};
ghost use Rattle.cobs.specs.Laws.{IsFrameFor, IsFront};
ghost use Rattle.cobs.specs.Length.{EndsInFullRun, encoded_len, max_encoded_len};
ghost use Rattle.cobs.specs.OpenBlock.{CobsEncoderAfter, place_at};
ghost use Rattle.cobs.specs.Piece.{output};
ghost use Rattle.cobs.specs.Sentinel.{IsFreeOf, xor_each};
ghost use Rattle.cobs.specs.Stream.{Message, first_piece, head, outcome_of, stream_outcomes};
ghost use Rattle.cobs.specs.Messages.{outcomes_in};

use crate::callers::reads_as;
use cobs::laws::{
    law_1, law_2, law_3, law_4, law_5, law_6, law_7, law_8, law_9, law_10, law_11, law_12, law_13,
    law_14, law_15, law_16, law_17, law_18, law_19, law_20, law_21,
};
use cobs::{
    CobsDecoderOwned, DecodeError, FrameDecoder, FrameKind, FrameOutcome, FrameReader,
    UnbufferedDecoder, decode_stream, encode, encode_vec, frame_kind,
};
use std::alloc::{AllocError, Global};

/// The example of `laws`.
pub fn encode_by_longest(source: &[u8], dest: &mut [u8]) -> usize
    requires { max_encoded_len (length source.now) ≤ length dest.old }
    ensures { result ≡ encoded_len source.now }
{
    law_4(); // The length of a frame, and its bound
    encode(source, dest)
}

/// The example of `law_1`.
pub fn is_output(piece: &[u8], message: &[u8], buffer: &mut [u8]) -> bool
    requires { IsPiece piece.now }
    ensures { IsTrue result → message.now ≡ output piece.now }
{
    law_1(); // A frame reads as its output
    reads_as(piece, message, buffer)
}

/// The example of `law_2`.
pub fn encode_again(message: &[u8], frame: &[u8], dest: &mut [u8]) -> usize
    requires frame { IsEncodedFrame frame.now message.now }
    requires room { encoded_len message.now ≤ length dest.old }
    ensures { take result dest.new ≡ frame.now }
{
    law_2(); // Each message has one encoded frame
    encode(message, dest)
}

/// The example of `law_3`.
pub fn is_frame_for(piece: &[u8], message: &[u8], buffer: &mut [u8]) -> bool
    requires { IsPiece piece.now }
    ensures { IsTrue result → IsFrameFor piece.now message.now }
{
    law_3(); // All frames of a message
    reads_as(piece, message, buffer)
}

/// The example of `law_4`.
pub fn encode_nonzero(source: &[u8], dest: &mut [u8]) -> usize
    requires nonzero { HasNoZero source.now }
    requires room { max_encoded_len (length source.now) ≤ length dest.old }
    ensures { result ≡ max_encoded_len (length source.now) }
{
    law_4(); // The length of a frame, and its bound
    encode(source, dest)
}

/// The example of `law_5`.
pub fn are_equal(alloc: Global, first: &[u8], second: &[u8]) -> Result<bool, AllocError>
    requires first { max_encoded_len (length first.now) < 2 ^ 64 }
    requires second { max_encoded_len (length second.now) < 2 ^ 64 }
    ensures { IfOk result (λ equal. IsTrue equal → first.now ≡ second.now) }
{
    law_5(); // Equal frames, equal messages
    Ok(encode_vec(alloc, first)? == encode_vec(alloc, second)?)
}

/// The example of `law_6`.
pub fn as_received<'a>(frame: &'a [u8], sentinel: u8) -> &'a [u8]
    ensures { IsFrame (xor_each sentinel frame.now) → IsFreeOf sentinel result.now }
{
    law_6(); // No frame contains its sentinel; a second XOR restores the frame
    frame
}

/// The example of `law_7`.
pub fn is_begun(received: &[u8], message: &[u8], buffer: &mut [u8]) -> bool
    requires { IsPiece received.now }
    ensures { (lost m : List ℕ) → IsTrue result
        → Reads (received.now ++ lost) m → IsFront message.now m }
{
    law_7(); // The fronts of a frame
    reads_as(received, message, buffer)
}

/// The example of `law_8`.
pub fn join(alloc: Global, first: &[u8], second: &[u8]) -> Result<Vec<u8>, AllocError>
    ensures { (m k : List ℕ) → Reads first.now m → Reads second.now k
        → IfOk result (λ both. IsFrame both.items) }
{
    law_8(); // Frames joined without a sentinel
    let mut both = first.to_vec(alloc)?;
    both.extend_from_slice(second)?;
    Ok(both)
}

/// The example of `law_9`.
pub fn decode_in_two<D: FrameDecoder>(
    alloc: Global,
    decoder: &mut D,
    first: &[u8],
    second: &[u8],
) -> Result<(Vec<FrameOutcome>, Vec<FrameOutcome>), AllocError>
    requires { DecoderAfter (D.bytes decoder.old) (D.phase decoder.old) [] }
    ensures { IfOk result (λ found. outcomes_in found.0.items ++ outcomes_in found.1.items
        ≡ stream_outcomes (first.now ++ second.now) (length (D.bytes decoder.old))) }
{
    law_9(); // A stream may be cut anywhere
    let found = decode_stream(alloc, decoder, first)?;
    Ok((found, decode_stream(alloc, decoder, second)?))
}

/// The example of `law_10`.
pub fn one_outcome<D: FrameDecoder>(
    alloc: Global,
    decoder: &mut D,
    damaged: &[u8],
) -> Result<Vec<FrameOutcome>, AllocError>
    requires idle { DecoderAfter (D.bytes decoder.old) (D.phase decoder.old) [] }
    requires piece { IsPiece damaged.now }
    ensures { IfOk result (λ found. outcomes_in found.items
        ≡ outcome_of damaged.now (length (D.bytes decoder.old)) ∷ []) }
{
    law_10(); // Damage stays between its sentinels
    let mut ended = damaged.to_vec(alloc)?;
    ended.push(0)?;
    decode_stream(alloc, decoder, &ended)
}

/// The example of `law_11`.
pub fn encode_for_stream(message: &[u8], dest: &mut [u8]) -> usize
    requires { encoded_len message.now ≤ length dest.old }
    ensures { (n : ℕ) → length message.now ≤ n
        → outcome_of (take result dest.new) n ≡ Message message.now }
{
    law_11(); // A frame in a stream is decoded as its message
    encode(message, dest)
}

/// The example of `law_12`.
pub fn begins_with_piece(stream: &[u8]) -> bool
    ensures { IsTrue result → first_piece stream.now ≡ Some (head stream.now) }
{
    law_12(); // The first and the last piece of a stream
    match stream {
        [] | [0, ..] => false,
        _ => true,
    }
}

/// The example of `law_13`.
pub fn as_encoded<'a>(frame: &'a [u8], message: &[u8], index: usize, code: u8) -> &'a [u8]
    requires open { IsOpenFrame frame.now message.now index code }
    requires last_run { EndsInFullRun message.now → ⊥ }
    ensures { IsEncodedFrame result.now message.now }
{
    law_13(); // The open frame of a streaming encoder
    frame
}

/// The example of `law_14`.
pub fn reader_after_zero(mut decoder: CobsDecoderOwned) -> FrameReader<CobsDecoderOwned>
    ensures { kept_of result ≡ [] }
{
    law_14(); // A decoder is idle if and only if no piece has begun
    let _ended = decoder.feed(0);
    FrameReader::new(decoder)
}

/// The example of `law_15`.
pub fn encode_short(message: &[u8], dest: &mut [u8]) -> usize
    requires nonzero { HasNoZero message.now }
    requires short { length message.now < 255 }
    requires room { length message.now < length dest.old }
    ensures { result ≡ length message.now + 1 }
{
    law_15(); // How to count the length of a frame, block by block
    encode(message, dest)
}

/// The example of `law_16`.
pub fn take_nonzero(slice: &mut [u8], index: usize, code: u8, byte: u8)
    requires room { index + code < length slice.old }
    requires code { code < 254 }
    requires byte { byte ≢ 0 }
    ensures { (m : List ℕ) (full : Bool) → CobsEncoderAfter slice.old (place_at index code full) m
        → CobsEncoderAfter slice.new (place_at index (code + 1) false) (m ++ byte ∷ []) }
{
    law_16(); // An encoder of your own, byte by byte
    slice[index + code as usize] = byte;
}

/// The example of `law_17`.
pub fn feed_one(decoder: &mut UnbufferedDecoder, buffer: &mut [u8], byte: u8)
    requires { byte ≢ 0 }
    ensures { TakesPiece buffer.old (phase_of decoder.old) (byte ∷ []) None
        buffer.new (phase_of decoder.new) }
{
    law_17(); // A decoder of your own, byte by byte
    let _returned = decoder.feed(buffer, byte);
}

/// The example of `law_18`.
pub fn end_frame(decoder: &mut CobsDecoderOwned) -> Result<Option<usize>, DecodeError>
    ensures { (f m : List ℕ) → DecoderAfter (owned_buffer decoder.old) (owned_phase decoder.old) f
        → Reads f m → length m ≤ length (owned_buffer decoder.old)
        → result ≡ Ok (Some (length m)) }
{
    law_18(); // Streaming decoders return the message of each frame, and no other message
    decoder.feed(0)
}

/// The example of `law_19`.
pub fn is_canonical_behind(block: &[u8], frame: &[u8]) -> bool
    requires block { IsBlock block.now }
    requires not_full { IsFull block.now → ⊥ }
    requires some { frame.now ≢ [] }
    ensures { IsTrue result → IsCanonical (block.now ++ frame.now) }
{
    law_19(); // How to find the kind of a frame, block by block
    frame_kind(frame) == FrameKind::Canonical
}

/// The example of `law_20`.
pub fn decode_block<'a>(block: &'a [u8]) -> &'a [u8]
    requires { IsBlock block.now }
    ensures { result.now ≡ output block.now }
{
    law_20(); // How to find the output of a piece, block by block
    &block[1..]
}

/// The example of `law_21`.
pub fn first_outcome<D: FrameDecoder>(decoder: &mut D, stream: &[u8]) -> bool
    requires { D.phase decoder.old ≡ Idle }
    ensures { (result ≡ false)
        → stream_outcomes stream.now (length (D.bytes decoder.old)) ≡ [] }
{
    law_21(); // A loop over the pieces of a stream
    decoder.feed_piece(stream).is_some()
}
