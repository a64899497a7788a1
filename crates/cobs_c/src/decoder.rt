//! Decodes streams of frames. The state and the buffer of each decoder belong to a program in C.
ghost use Rattle.std.specs.Prelude.{◌≡◌, ◌≤◌, ℕ, List, [], ◌∷◌, length};
ghost use Rattle.cobs.specs.FeedPiece.{TakesPiece};
ghost use Rattle.cobs.specs.Fields.Decoders.{phase_of};
ghost use Rattle.cobs.specs.Sentinel.{xor_each};
ghost use Rattle.cobs.specs.declared.UnbufferedDecoder.{UnbufferedDecoder};
ghost use Rattle.cobs_c.specs.Stream.{DecodesNext, IsFreshDecoder, ReportsIdle};

use crate::answer::{Answer, MORE, answer_of};
use cobs::laws::law_17;
use cobs::{PieceEnd, UnbufferedDecoder};

/// Makes the decoder idle, even if its state is corrupt.
#[unsafe(no_mangle)]
pub extern "C" fn jcobs_decoder_reset(decoder: &mut UnbufferedDecoder)
    ensures fresh { IsFreshDecoder decoder.new }
{
    *decoder = UnbufferedDecoder::new();
}

/// Returns 1 if no piece is open, and 0 otherwise.
#[unsafe(no_mangle)]
pub extern "C" fn jcobs_decoder_is_idle(decoder: &UnbufferedDecoder) -> u32
    ensures idle { ReportsIdle decoder.now result }
{
    if decoder.is_idle() { 1 } else { 0 }
}

/// Returns the result of a call that was passed `len` bytes of the stream and a buffer of `room` bytes. If a piece has
/// ended in these bytes, `found` says how the piece ended, and how many bytes there are up to and including the zero
/// that ended it. Even if the decoder's state is corrupt, the returned `length` is at most `room`.
#[inline(always)]
fn result_of(
    decoder: &UnbufferedDecoder,
    found: Option<(PieceEnd, usize)>,
    len: usize,
    room: usize,
) -> Answer
    ensures decodes { (old : UnbufferedDecoder) (buffer bytes buffer' : List ℕ)
        → length buffer ≡ room → length bytes ≡ len
        → TakesPiece buffer (phase_of old) bytes found buffer' (phase_of decoder.now)
        → DecodesNext old buffer bytes result decoder.now buffer' }
{
    match found {
        Some((end, consumed)) => {
            let ended = answer_of(Some(end), consumed, room);
            Answer {
                length: ended.length.min(room),
                ..ended
            }
        }
        None => Answer {
            status: MORE,
            consumed: len,
            length: if decoder.too_long != 0 {
                room
            } else {
                decoder.written.min(room)
            },
        },
    }
}

/// Decodes bytes of the stream, and stops after the zero that ends the first piece. If no piece ends, decodes all the
/// bytes. Even if the state is corrupt, the buffer keeps its length, `consumed` is at most the number of bytes, and
/// `length` is at most the buffer's length.
#[unsafe(no_mangle)]
pub extern "C" fn jcobs_decoder_push(
    decoder: &mut UnbufferedDecoder,
    buffer: &mut [u8],
    bytes: &[u8],
) -> Answer
    ensures decodes { DecodesNext decoder.old buffer.old bytes.now result
        decoder.new buffer.new }
{
    let found = decoder.feed_piece(buffer, bytes);
    result_of(decoder, found, bytes.len(), buffer.len())
}

/// Decodes bytes of a stream whose frames were encoded with this sentinel, and stops after the sentinel that ends the
/// first piece. If no piece ends, decodes all the bytes.
#[unsafe(no_mangle)]
pub extern "C" fn jcobs_decoder_push_with_sentinel(
    decoder: &mut UnbufferedDecoder,
    buffer: &mut [u8],
    bytes: &[u8],
    sentinel: u8,
) -> Answer
    ensures decodes { DecodesNext decoder.old buffer.old (xor_each sentinel bytes.now) result
        decoder.new buffer.new }
{
    let found = decoder.feed_piece_with_sentinel(buffer, bytes, sentinel);
    result_of(decoder, found, bytes.len(), buffer.len())
}

/// Decodes the next byte of the stream. The contract is the same as for a call of `jcobs_decoder_push` with this byte.
#[unsafe(no_mangle)]
pub extern "C" fn jcobs_decoder_feed(
    decoder: &mut UnbufferedDecoder,
    buffer: &mut [u8],
    byte: u8,
) -> Answer
    ensures decodes { DecodesNext decoder.old buffer.old (byte ∷ []) result
        decoder.new buffer.new }
{
    law_17(); // A decoder of your own, byte by byte
    let mut found = None;
    let returned = decoder.feed(buffer, byte);
    // Only a zero ends a piece. If the piece is too long, `feed` returns an error for other bytes too.
    if byte == 0 {
        if let Some(end) = PieceEnd::reported(returned) {
            found = Some((end, 1));
        }
    }
    result_of(decoder, found, 1, buffer.len())
}
