//! Coders that a user could write. Their contracts are proved from the laws and from the public contracts of the calls
//! that they make. One of them is an encoder that continues from a state that another program kept.
ghost use Rattle.std.specs.Prelude.{◌≡◌, ◌≢◌, ◌≤◌, ◌<◌, ◌^◌, ◌↔◌, [], ◌∷◌, List, ℕ, length, take, IfOk, IsOk, IsTrue, None};
ghost use Rattle.cobs.specs.Feed.{Feeds};
ghost use Rattle.cobs.specs.FeedPiece.{TakesPiece};
ghost use Rattle.cobs.specs.Fields.Decoders.{phase_of};
ghost use Rattle.cobs.specs.Fields.Encoders.{reached_by};
ghost use Rattle.cobs.specs.Grammar.{IsCanonical, IsEncodedFrame, IsFrame, Reads};
ghost use Rattle.cobs.specs.Headline.{IsPiece};
ghost use Rattle.cobs.specs.Length.{encoded_len, max_encoded_len};
ghost use Rattle.cobs.specs.OpenBlock.{HasRoomFor};
ghost use Rattle.cobs.specs.Piece.{is_whole, kept_output};
ghost use Rattle.cobs.specs.Sentinel.{IsEncodedFrameFor, IsFreeOf, xor_each};

use cobs::laws::{law_1, law_4, law_6, law_15, law_16, law_17, law_19, law_20};
use cobs::{
    DecodeError, DestBufTooSmallError, FrameKind, PieceEnd, UnbufferedDecoder, UnbufferedEncoder,
    encode, encode_with_sentinel,
};
use std::alloc::{AllocError, Global};

/// The code of a full block.
const FULL: usize = 255;

/// Takes the last bytes of a message and ends the message, whatever the state of the encoder is. Succeeds if and only
/// if there is room.
pub fn end_with(
    encoder: &mut UnbufferedEncoder,
    bytes: &[u8],
    buffer: &mut [u8],
) -> Result<usize, DestBufTooSmallError>
    ensures { IsOk result ↔ HasRoomFor (length buffer.old) (reached_by encoder.old) bytes.now }
{
    encoder.push(buffer, bytes)?;
    encoder.finalize(buffer)
}

/// Encodes the message for a link whose delimiter is the sentinel. For the sentinel 0, no byte is XORed.
pub fn encode_for_link(message: &[u8], dest: &mut [u8], sentinel: u8) -> usize
    requires { encoded_len message.now ≤ length dest.old }
    ensures { IsEncodedFrameFor sentinel (take result dest.new) message.now }
{
    law_6(); // No frame contains its sentinel; a second XOR restores the frame
    if sentinel == 0 {
        return encode(message, dest);
    }
    encode_with_sentinel(message, dest, sentinel)
}

/// Changes a frame for 0 to a frame for a sentinel, in its own buffer. The changed frame doesn't contain the sentinel.
pub fn change_sentinel(frame: &mut [u8], sentinel: u8)
    ensures changed { frame.new ≡ xor_each sentinel frame.old }
    ensures free { IsFrame frame.old → IsFreeOf sentinel frame.new }
{
    law_6(); // No frame contains its sentinel; a second XOR restores the frame
    for byte in frame.iter_mut() {
        *byte ^= sentinel;
    }
}

/// Returns the length of a message's frame, counted in one pass. Nothing is written.
pub fn frame_len(message: &[u8]) -> usize
    requires { max_encoded_len (length message.now) < 2 ^ 64 }
    ensures { result ≡ encoded_len message.now }
{
    law_4(); // The length of a frame, and its bound
    law_15(); // How to count the length of a frame, block by block
    // `closed` is the length of the closed blocks, and `run` is the number of bytes of the open block without its code.
    let mut closed = 0;
    let mut run = 0;
    'by_byte: for byte in message {
        // The open block is full, and the message continues: the block has 255 bytes with its code, and no zero follows
        // it.
        if run == 254 {
            closed += 255;
            run = 0;
        }
        if *byte == 0 {
            closed += run + 1;
            run = 0;
        } else {
            run += 1;
        }
    }
    closed + run + 1
}

/// Writes the frame of a message, byte by byte.
pub fn encode_by_byte(message: &[u8], dest: &mut [u8]) -> usize
    requires { encoded_len message.now ≤ length dest.old }
    ensures { IsEncodedFrame (take result dest.new) message.now }
{
    law_4(); // The length of a frame, and its bound
    law_16(); // An encoder of your own, byte by byte
    let mut index = 0;
    let mut code = 1u8;
    let mut full = false;
    // Each byte is one of the three steps of `law_16`: a zero closes the open block, and a nonzero byte joins the block
    // or fills it.
    'by_byte: for byte in message {
        let next = index + code as usize;
        if *byte == 0 {
            dest[index] = code;
            index = next;
            code = 1;
            full = false;
        } else if code < 254 {
            dest[next] = *byte;
            code += 1;
            full = false;
        } else {
            dest[next] = *byte;
            dest[index] = 255;
            index += 255;
            code = 1;
            full = true;
        }
    }
    if full {
        return index;
    }
    dest[index] = code;
    index + code as usize
}

/// Takes bytes one by one, up to and including the zero that ends the first piece, or all bytes if no piece ends, as
/// `feed_piece` does.
pub fn feed_each(
    decoder: &mut UnbufferedDecoder,
    buffer: &mut [u8],
    bytes: &[u8],
) -> Option<(PieceEnd, usize)>
    ensures { TakesPiece buffer.old (phase_of decoder.old) bytes.now result
        buffer.new (phase_of decoder.new) }
{
    law_17(); // A decoder of your own, byte by byte
    'by_byte: for (i, byte) in bytes.iter().enumerate() {
        let returned = decoder.feed(buffer, *byte);
        if *byte == 0 {
            if let Some(end) = PieceEnd::reported(returned) {
                return Some((end, i + 1));
            }
        }
    }
    None
}

/// Handles a byte, but skips the zeros between two frames: for these zeros an idle decoder would only return that no
/// piece has ended.
pub fn feed_between(
    decoder: &mut UnbufferedDecoder,
    buffer: &mut [u8],
    byte: u8,
) -> Result<Option<usize>, DecodeError>
    ensures { Feeds buffer.old (phase_of decoder.old) byte result
        buffer.new (phase_of decoder.new) }
{
    law_17(); // A decoder of your own, byte by byte
    if byte == 0 && decoder.is_idle() {
        return Ok(None);
    }
    decoder.feed(buffer, byte)
}

/// Returns the kind of a frame. It reads only the codes of the frame's blocks, one after another.
pub fn kind_by_code(piece: &[u8]) -> FrameKind
    requires { IsPiece piece.now }
    ensures frame { (result ≡ FrameKind.NotAFrame) ↔ ¬ IsFrame piece.now }
    ensures canonical { (result ≡ FrameKind.Canonical) ↔ IsCanonical piece.now }
{
    law_19(); // How to find the kind of a frame, block by block
    let mut read = 0;
    let mut after_full = false;
    'by_block: loop {
        let code = piece[read] as usize;
        let left = piece.len() - read;
        if left < code {
            return FrameKind::NotAFrame;
        }
        if left == code {
            return if after_full && code == 1 {
                FrameKind::Longer
            } else {
                FrameKind::Canonical
            };
        }
        after_full = code == FULL;
        read += code;
    }
}

/// Decodes a piece from code to code. Returns whether it is whole, and its kept output: the output without the bytes of
/// an incomplete last part.
pub fn decode_by_code(alloc: Global, piece: &[u8]) -> Result<(bool, Vec<u8>), AllocError>
    requires { IsPiece piece.now }
    ensures whole { IfOk result (λ found. found.0 ≡ is_whole piece.now) }
    ensures kept { IfOk result (λ found. found.1.items ≡ kept_output piece.now) }
    ensures reads { (m : List ℕ) → IfOk result (λ found.
        (IsTrue found.0 × (found.1.items ≡ m)) ↔ Reads piece.now m) }
{
    law_1(); // A frame reads as its output
    law_20(); // How to find the output of a piece, block by block
    let mut bytes = Vec::new(alloc);
    let mut read = 0;
    'by_block: loop {
        let code = piece[read] as usize;
        let left = piece.len() - read;
        if left < code {
            return Ok((false, bytes));
        }
        bytes.extend_from_slice(&piece[read + 1..read + code])?;
        if left == code {
            return Ok((true, bytes));
        }
        if code != FULL {
            bytes.push(0)?;
        }
        read += code;
    }
}
