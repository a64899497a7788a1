//! Callers as in a user's own crate: among others, a handler of one byte, a loop over a stream, a reader of frames, a
//! round trip, and a log. Their contracts are proved only from the public clauses of `cobs`.
ghost use Rattle.std.specs.Prelude.{◌≡◌, ◌≢◌, ◌≤◌, ◌<◌, ◌^◌, ◌↔◌, ◌∷◌, ◌++◌, [], length, take, drop, List, ℕ, IfOk, IfSome, IsOk, OnOk, IsSomeAnd, IsTrue, Some};
ghost use Rattle.cobs.specs.Feed.{DecoderAfter, Idle, Overlong};
ghost use Rattle.cobs.specs.Table.{state_in};
ghost use Rattle.cobs.specs.FeedPiece.{IsWithin, outcome_at};
ghost use Rattle.cobs.specs.Fields.Decoders.{owned_buffer, owned_phase};
ghost use Rattle.cobs.specs.Fields.Encoders.{reached_by};
ghost use Rattle.cobs.specs.Fields.Reader.{kept_of, reader_state};
ghost use Rattle.cobs.specs.Grammar.{HasNoZero, IsEncodedFrame, Reads};
ghost use Rattle.cobs.specs.Headline.{BeginsWith, IsPiece};
ghost use Rattle.cobs.specs.Laws.{IsAtSentinel};
ghost use Rattle.cobs.specs.Length.{encoded_len, max_encoded_len};
ghost use Rattle.cobs.specs.Messages.{messages_in};
ghost use Rattle.cobs.specs.NextFrame.{Read, ReaderAfter, Runs, all_given};
ghost use Rattle.cobs.specs.OpenBlock.{CobsEncoderAfter};
ghost use Rattle.cobs.specs.Piece.{output};
ghost use Rattle.cobs.specs.Stream.{Message, ended_pieces, stream_outcomes, unended};
ghost use Rattle.cobs_vectors.specs.Relayed.{messages_of};

use cobs::laws::{law_2, law_4, law_5, law_9, law_10, law_11, law_18, law_21};
use cobs::{
    CobsDecoder, CobsDecoderHeapless, CobsDecoderOwned, CobsEncoder, DecodeError, DecodeResult,
    DecoderState, DestBufTooSmallError, FrameDecoder, FrameReader, FrameSource, Next, PieceEnd,
    UnbufferedDecoder, UnbufferedEncoder, decode, encode, encode_vec,
};
use std::alloc::{AllocError, Global};
use std::mem;

/// Handles a byte in an interrupt. Returns the length of the message that the byte ended, or 0 if it ended none.
/// Slicing the message out of the buffer requires a proof that the message is within the buffer. So this function shows
/// that the clauses of `feed` are enough for this proof.
pub fn on_byte<const N: usize>(decoder: &mut CobsDecoderHeapless<N>, byte: u8) -> usize
    ensures { result ≤ N }
{
    match decoder.feed(byte) {
        Ok(Some(len)) => {
            let message = &decoder.dest()[..len];
            message.len()
        }
        _ => 0,
    }
}

/// Counts the messages that end in the bytes, and continues after each error. If the decoder has already consumed the
/// bytes p of a piece, the result is the number of messages in the stream that consists of p and then these bytes.
pub fn count_messages(decoder: &mut CobsDecoderOwned, bytes: &[u8]) -> usize
    ensures counted { (p : List ℕ) → DecoderAfter (owned_buffer decoder.old) (owned_phase decoder.old) p
        → let n = length (owned_buffer decoder.old) in
        result ≡ length (messages_of (stream_outcomes (p ++ bytes.now) n)) }
    ensures after { (p : List ℕ) → DecoderAfter (owned_buffer decoder.old) (owned_phase decoder.old) p
        → DecoderAfter (owned_buffer decoder.new) (owned_phase decoder.new) (unended (p ++ bytes.now)) }
{
    law_9(); // A stream may be cut anywhere
    let mut at = 0;
    let mut count = 0;
    'by_push: while at < bytes.len() {
        match decoder.push(&bytes[at..]) {
            Ok(None) => return count,
            Ok(Some(report)) => {
                at += report.parsed_size();
                count += 1;
            }
            Err(rejected) => at += rejected.parsed_size,
        }
    }
    count
}

/// Returns the length of the longest message that ends in the bytes, for any decoder.
pub fn longest<D: FrameDecoder>(decoder: &mut D, bytes: &[u8]) -> usize {
    let mut at = 0;
    let mut longest = 0;
    'by_piece: while let Some((end, count)) = decoder.feed_piece(&bytes[at..]) {
        if let PieceEnd::Message(n) = end {
            let message = &decoder.buffer()[..n];
            longest = longest.max(message.len());
        }
        at += count;
    }
    longest
}

/// Returns the number of decoded bytes if the first piece that ends is broken, and otherwise 0. Slicing these bytes out
/// of the buffer requires a proof that they are within the buffer.
pub fn broken_part<D: FrameDecoder>(decoder: &mut D, bytes: &[u8]) -> usize
    requires { DecoderAfter (D.bytes decoder.old) (D.phase decoder.old) [] }
{
    match decoder.feed_piece(bytes) {
        Some((PieceEnd::Broken(n), _)) => {
            let part = &decoder.buffer()[..n];
            part.len()
        }
        _ => 0,
    }
}

/// Feeds a zero. In every phase, this makes the decoder idle and changes no byte of the buffer.
pub fn resync<D: FrameDecoder>(decoder: &mut D)
    ensures idle { D.phase decoder.new ≡ Idle }
    ensures unchanged { D.bytes decoder.new ≡ D.bytes decoder.old }
{
    let _ended = decoder.feed_byte(0);
}

/// Passes a zero to `feed_piece`. In every phase, this makes the decoder idle and changes no byte of the buffer.
pub fn resync_by_piece<D: FrameDecoder>(decoder: &mut D)
    ensures idle { D.phase decoder.new ≡ Idle }
    ensures unchanged { D.bytes decoder.new ≡ D.bytes decoder.old }
{
    let _ended = decoder.feed_piece(&[0]);
}

/// Feeds the zero after a frame whose bytes were fed one by one, and returns the message's length. The message is then
/// at the front of the buffer.
pub fn on_zero<D: FrameDecoder>(decoder: &mut D) -> usize
    ensures { (f m : List ℕ) → DecoderAfter (D.bytes decoder.old) (D.phase decoder.old) f
        → Reads f m → length m ≤ length (D.bytes decoder.old)
        → BeginsWith (D.bytes decoder.new) result m }
{
    law_18(); // Streaming decoders return the message of each frame, and no other message
    match decoder.feed_byte(0) {
        Ok(Some(len)) => len,
        Ok(None) => 0,
        Err(_) => 0,
    }
}

/// Feeds a byte to a decoder and to a `DecoderState` in the same state. Returns true if the byte ends a message in both
/// or in neither, or if the output is too long for the decoder's buffer. The result is always true.
pub fn end_alike<D: FrameDecoder>(decoder: &mut D, state: &mut DecoderState, byte: u8) -> bool
    requires { state_in (D.phase decoder.old) ≡ Some state.old }
    ensures alike { IsTrue result }
    ensures state { D.phase decoder.new ≢ Overlong → state_in (D.phase decoder.new) ≡ Some state.new }
{
    let completed = matches!(state.feed(byte), Ok(DecodeResult::DataComplete));
    match decoder.feed_byte(byte) {
        Ok(found) => found.is_some() == completed,
        Err(DecodeError::TargetBufTooSmall) => true,
        Err(_) => !completed,
    }
}

/// Reads up to 1,000 pieces, and slices each message out of the decoder's buffer. Returns the sum of the messages'
/// lengths.
pub fn total<D: FrameDecoder, S: FrameSource>(
    reader: &mut FrameReader<D>,
    source: &mut S,
) -> usize {
    let mut total = 0usize;
    'by_call: for _ in 0..1000 {
        match reader.next_frame(source) {
            Ok(Next::Message(n)) => {
                let message = &reader.decoder().buffer()[..n];
                total = total.saturating_add(message.len());
            }
            Ok(Next::End { unfinished: _ }) => return total,
            Ok(_) => {}
            Err(_) => return total,
        }
    }
    total
}

/// Reads up to and including the zero that ends the next piece. If the piece is broken, returns a copy of its decoded
/// bytes, and otherwise `None`.
pub fn next_broken<D: FrameDecoder, S: FrameSource>(
    alloc: Global,
    reader: &mut FrameReader<D>,
    source: &mut S,
) -> Result<Option<Vec<u8>>, AllocError>
    requires { ReaderAfter (reader_state D.bytes D.phase reader.old) [] }
    ensures { IfOk result (λ found. IfSome found (λ part. (reads : List Read) × (front : List ℕ)
        × Runs S.step source.old reads source.new
        × (kept_of reader.old ++ all_given reads ≡ front ++ 0 ∷ kept_of reader.new)
        × (part.items ≡ output (unended front)))) }
{
    match reader.next_frame(source) {
        Ok(Next::Broken(n)) => Ok(Some(Vec::from_slice(alloc, &reader.decoder().buffer()[..n])?)),
        _ => Ok(None),
    }
}

/// A serial port that keeps a decoder's state next to its buffer.
pub struct Port {
    decoder: UnbufferedDecoder,
    buffer: [u8; 64],
}

impl Port {
    /// Handles a byte. Returns the length of the message that the byte ended, or 0 if it ended none. Slicing the
    /// message out of the buffer requires a proof that the message is within the buffer.
    pub fn on_byte(&mut self, byte: u8) -> usize
        ensures { result ≤ 64 }
    {
        match self.decoder.feed(&mut self.buffer, byte) {
            Ok(Some(len)) => {
                let message = &self.buffer[..len];
                message.len()
            }
            _ => 0,
        }
    }
}

/// Decodes a frame and its zero. After the decoder is dropped, the message is in the caller's slice.
pub fn decode_ended(ended: &[u8], piece: &[u8], dest: &mut [u8]) -> Option<usize>
    requires piece { IsPiece piece.now }
    requires ended { ended.now ≡ piece.now ++ 0 ∷ [] }
    ensures { (m : List ℕ) → (IsSomeAnd result (λ n. BeginsWith dest.new n m)
        ↔ (Reads piece.now m × (length m ≤ length dest.old))) }
{
    let mut decoder = CobsDecoder::new(dest);
    match decoder.push(ended) {
        Ok(Some(report)) => Some(report.frame_size()),
        Ok(None) => None,
        Err(_) => None,
    }
}

/// Encodes a message and decodes the frame. Returns whether the result is the same message. It always is.
pub fn there_and_back(message: &[u8], frame: &mut [u8], buffer: &mut [u8]) -> bool
    requires room { encoded_len message.now ≤ length frame.old }
    requires held { length message.now ≤ length buffer.old }
    ensures { IsTrue result }
{
    let len = encode(message, frame);
    match decode(&frame[..len], buffer) {
        Ok(report) => report.frame_size() == message.len() && buffer.starts_with(message),
        Err(_) => false,
    }
}

/// Encodes a message and decodes the frame. If decoding returns a message, it is the same message.
pub fn no_other(message: &[u8], frame: &mut [u8], buffer: &mut [u8]) -> Option<usize>
    requires { encoded_len message.now ≤ length frame.old }
    ensures { (m : List ℕ) → IsSomeAnd result (λ n. BeginsWith buffer.new n m) → m ≡ message.now }
{
    law_2(); // Each message has one encoded frame
    law_4(); // The length of a frame, and its bound
    law_5(); // Equal frames, equal messages
    let len = encode(message, frame);
    match decode(&frame[..len], buffer) {
        Ok(report) => Some(report.frame_size()),
        Err(_) => None,
    }
}

/// Encodes a message that comes in two chunks. The bytes of `dest` after the frame don't change.
pub fn encode_two(
    first: &[u8],
    second: &[u8],
    dest: &mut [u8],
) -> Result<usize, DestBufTooSmallError>
    requires { 0 < length dest.old }
    ensures frame { IfOk result (λ n. IsEncodedFrame (take n dest.new) (first.now ++ second.now)) }
    ensures rest { IfOk result (λ n. drop n dest.new ≡ drop n dest.old) }
{
    law_4(); // The length of a frame, and its bound
    let mut encoder = CobsEncoder::new(dest);
    encoder.push(first)?;
    encoder.push(second)?;
    Ok(encoder.finalize())
}

/// Writes the frame of a message to the front of the buffer. The encoder must be at the start of a message. If the call
/// succeeds, the encoder is then ready for the next message.
pub fn frame_next(
    encoder: &mut UnbufferedEncoder,
    message: &[u8],
    buffer: &mut [u8],
) -> Result<usize, DestBufTooSmallError>
    requires some { 0 < length buffer.old }
    requires fresh { CobsEncoderAfter buffer.old (reached_by encoder.old) [] }
    ensures fits { IsOk result ↔ (encoded_len message.now ≤ length buffer.old) }
    ensures len { IfOk result (λ n. n ≡ encoded_len message.now) }
    ensures frame { IfOk result (λ n. IsEncodedFrame (take n buffer.new) message.now) }
    ensures fresh { OnOk result (CobsEncoderAfter buffer.new (reached_by encoder.new) []) }
    ensures buffer_len { length buffer.new ≡ length buffer.old }
{
    encoder.push(buffer, message)?;
    encoder.finalize(buffer)
}

/// Writes the frame of a first message to the front of a buffer, and then, with the same encoder, the frame of a second
/// message. At the end the buffer begins with the second frame.
pub fn frame_two(
    first: &[u8],
    second: &[u8],
    buffer: &mut [u8],
) -> Result<(usize, usize), DestBufTooSmallError>
    requires { 0 < length buffer.old }
    ensures lens { IfOk result
        (λ n. (n.0 ≡ encoded_len first.now) × (n.1 ≡ encoded_len second.now)) }
    ensures frame { IfOk result (λ n. IsEncodedFrame (take n.1 buffer.new) second.now) }
{
    let mut encoder = UnbufferedEncoder::new();
    let len = frame_next(&mut encoder, first, buffer)?;
    Ok((len, frame_next(&mut encoder, second, buffer)?))
}

/// Appends the frame of a message and a zero to a log that is empty or ends in a zero. The outcomes of the log don't
/// change, and the message follows them. The greatest length of a frame of a message of this length must fit a `usize`,
/// because `encode_vec` allocates a vector of this greatest length.
pub fn append_to_log(alloc: Global, log: &[u8], message: &[u8]) -> Result<Vec<u8>, AllocError>
    requires at_sentinel { IsAtSentinel log.now }
    requires fits { max_encoded_len (length message.now) < 2 ^ 64 }
    ensures reported { IfOk result (λ longer. (n : ℕ) → length message.now ≤ n
        → stream_outcomes longer.items n ≡ stream_outcomes log.now n ++ Message message.now ∷ []) }
    ensures at_sentinel { IfOk result (λ longer. IsAtSentinel longer.items) }
{
    law_2(); // Each message has one encoded frame
    law_4(); // The length of a frame, and its bound
    law_9(); // A stream may be cut anywhere
    law_10(); // Damage stays between its sentinels
    law_11(); // A frame in a stream is decoded as its message
    let mut longer = log.to_vec(alloc)?;
    let frame = encode_vec(alloc, message)?;
    longer.extend_from_slice(&frame)?;
    longer.push(0)?;
    Ok(longer)
}

/// Appends the frame of a message that was decoded into this buffer. If the piece isn't a message, appends nothing.
fn relayed(alloc: Global, log: Vec<u8>, end: PieceEnd, buffer: &[u8]) -> Result<Vec<u8>, AllocError>
    requires at_sentinel { IsAtSentinel log.items }
    requires within { IsWithin (length buffer.now) end }
    requires fits { max_encoded_len (length buffer.now) < 2 ^ 64 }
    ensures reported { IfOk result (λ longer. stream_outcomes longer.items (length buffer.now)
        ≡ stream_outcomes log.items (length buffer.now) ++ messages_of (outcome_at end buffer.now ∷ [])) }
    ensures at_sentinel { IfOk result (λ longer. IsAtSentinel longer.items) }
{
    law_4(); // The length of a frame, and its bound
    match end {
        PieceEnd::Message(n) => append_to_log(alloc, &log, &buffer[..n]),
        PieceEnd::Broken(_) => Ok(log),
        PieceEnd::TooLong => Ok(log),
    }
}

/// Decodes each piece of a stream, and encodes each message again. Pieces that aren't messages are dropped. For a
/// message as long as the buffer, the greatest length of a frame must fit a `usize`, because `append_to_log` requires
/// this for each message.
pub fn relay<D: FrameDecoder>(
    alloc: Global,
    decoder: &mut D,
    stream: &[u8],
) -> Result<Vec<u8>, AllocError>
    requires idle { D.phase decoder.old ≡ Idle }
    requires fits { max_encoded_len (length (D.bytes decoder.old)) < 2 ^ 64 }
    ensures messages { IfOk result (λ out. let n = length (D.bytes decoder.old) in
        stream_outcomes out.items n ≡ messages_of (stream_outcomes stream.now n)) }
    ensures at_sentinel { IfOk result (λ out. IsAtSentinel out.items) }
{
    law_9(); // A stream may be cut anywhere
    law_21(); // A loop over the pieces of a stream
    let mut out = Vec::new(alloc);
    let mut at = 0;
    'by_piece: while let Some((end, count)) = decoder.feed_piece(&stream[at..]) {
        out = relayed(alloc, out, end, decoder.buffer())?;
        at += count;
    }
    Ok(out)
}

/// Returns a log of two messages.
pub fn log_of_two(alloc: Global, first: &[u8], second: &[u8]) -> Result<Vec<u8>, AllocError>
    requires first { max_encoded_len (length first.now) < 2 ^ 64 }
    requires second { max_encoded_len (length second.now) < 2 ^ 64 }
    ensures { IfOk result (λ log. IsAtSentinel log.items) }
{
    let log = append_to_log(alloc, &[], first)?;
    append_to_log(alloc, &log, second)
}

/// Collects the pieces that end in a chunk of a stream, without decoding them. `begun` has the bytes of the stream
/// after its last zero.
pub fn pieces_in(
    alloc: Global,
    begun: &mut Vec<u8>,
    chunk: &[u8],
) -> Result<Vec<Vec<u8>>, AllocError>
    requires { HasNoZero begun.old.items }
    ensures pieces { IfOk result
        (λ found. messages_in found.items ≡ ended_pieces (begun.old.items ++ chunk.now)) }
    ensures begun { OnOk result (begun.new.items ≡ unended (begun.old.items ++ chunk.now)) }
{
    law_9(); // A stream may be cut anywhere
    let mut found = Vec::new(alloc);
    'by_byte: for byte in chunk {
        if *byte != 0 {
            begun.push(*byte)?;
        } else if !begun.is_empty() {
            found.push(mem::replace(begun, Vec::new(alloc)))?;
        }
    }
    Ok(found)
}

/// Collects the pieces of a stream that comes in two chunks. The result has the pieces of the whole stream, no matter
/// where the stream is cut.
pub fn pieces_in_two(
    alloc: Global,
    first: &[u8],
    second: &[u8],
) -> Result<(Vec<Vec<u8>>, Vec<Vec<u8>>), AllocError>
    ensures { IfOk result (λ found. messages_in found.0.items ++ messages_in found.1.items
        ≡ ended_pieces (first.now ++ second.now)) }
{
    law_9(); // A stream may be cut anywhere
    let mut begun = Vec::new(alloc);
    let found = pieces_in(alloc, &mut begun, first)?;
    Ok((found, pieces_in(alloc, &mut begun, second)?))
}
