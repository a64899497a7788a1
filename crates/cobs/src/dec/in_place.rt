//! Decoding a frame in the buffer that holds it.
ghost use Rattle.std.specs.Prelude.{◌≡◌, ◌≢◌, ◌+◌, ◌-◌, ◌<◌, ◌≤◌, ◌++◌, ℕ, IsTrue, false, List, None, Ok, length, take, drop, IfSome, IfErr, IsSome};
ghost use Rattle.cobs.specs.Overwritten.{overwritten};
ghost use Rattle.cobs.specs.Decode.{head_result, in_place, result_in_place, in_place_report};
ghost use Rattle.cobs.specs.Grammar.{HasNoZero, Reads};
ghost use Rattle.cobs.specs.Headline.{ReturnsMessage, IsPiece, ReportsMessage};
ghost use Rattle.cobs.specs.Piece.{kept_output, last_part, missing, output};
ghost use Rattle.cobs.specs.Stream.{head};
ghost use Rattle.cobs.specs.Fields.Decoders.{phase_of};
ghost use Rattle.cobs.specs.Internal.FeedsQuietly.{FeedsQuietly};
ghost use Rattle.cobs.specs.Sentinel.{xor_each};
ghost use Rattle.cobs.specs.declared.error.DecodeError.TheVariants.{TargetBufTooSmall};

use crate::dec::run::{kept_len, message_len};
use crate::dec::unbuffered::{START, UnbufferedDecoder};
use crate::error::{DecodeError, DecodeReport};
use crate::slices::{SHORT, position_or_len, xor_bytes};

/// Moves `len` bytes of the buffer from index `read` to index `at`, which is at most `read`. Only the `len` bytes from
/// index `at` on are overwritten.
#[inline(always)]
fn move_back(buffer: &mut [u8], at: usize, read: usize, len: usize)
    requires behind { at ≤ read }
    requires within { read + len ≤ length buffer.old }
    ensures { buffer.new ≡ take at buffer.old ++ (take len (drop read buffer.old) ++ drop (at + len) buffer.old) }
{
    buffer.copy_within(read..read + len, at);
}

impl UnbufferedDecoder {
    /// Makes one decoding step: decodes one or more bytes of the buffer. The first of these bytes is at index `read`,
    /// and the last is before index `end`. Writes the output to the same buffer, and returns how many bytes it decoded.
    /// The steps are those of `take_part` in `run.rt`, but the output always fits the buffer.
    ///
    /// The output must not overwrite a byte that isn't decoded yet. So the caller ensures that the output so far is at
    /// most `read` bytes long. If the next code will add a zero to the output, the caller ensures that the output so
    /// far is less than `read` bytes long.
    #[inline(always)]
    fn take_part_in_place(&mut self, buffer: &mut [u8], read: usize, end: usize) -> usize
        requires going { self.old.too_long ≡ 0 }
        requires behind { self.old.written ≤ read }
        requires joint { self.old.joint ≢ 0 → self.old.written < read }
        requires some { read < end }
        requires within { end ≤ length buffer.old }
        requires nonzero { HasNoZero (take (end - read) (drop read buffer.old)) }
        ensures some { 0 < result }
        ensures within { read + result ≤ end }
        ensures fed { FeedsQuietly buffer.old (phase_of self.old)
            (take result (drop read buffer.old)) buffer.new (phase_of self.new) }
        ensures going { self.new.too_long ≡ 0 }
        ensures behind { self.new.written ≤ read + result }
        ensures joint { self.new.joint ≢ 0 → self.new.written < read + result }
    {
        if end <= SHORT {
            let byte = buffer[read];
            self.take_byte(buffer, byte);
            return 1;
        }
        if self.is_at_code() {
            self.take_code(buffer[read]);
            return 1;
        }
        let at = self.written;
        let len = self.span_len(end - read);
        move_back(buffer, at, read, len);
        self.take_moved(buffer, len);
        len
    }

    /// Decodes the bytes at the indices from `read` to `end - 1` of the buffer, and writes their output to the same
    /// buffer.
    #[inline]
    fn take_in_place(&mut self, buffer: &mut [u8], read: usize, end: usize)
        requires going { self.old.too_long ≡ 0 }
        requires behind { self.old.written ≤ read }
        requires joint { self.old.joint ≢ 0 → self.old.written < read }
        requires order { read ≤ end }
        requires within { end ≤ length buffer.old }
        requires nonzero { HasNoZero (take (end - read) (drop read buffer.old)) }
        ensures fed { FeedsQuietly buffer.old (phase_of self.old)
            (take (end - read) (drop read buffer.old)) buffer.new (phase_of self.new) }
        ensures going { self.new.too_long ≡ 0 }
        ensures behind { self.new.written ≤ end }
        ensures joint { self.new.joint ≢ 0 → self.new.written < end }
    {
        let mut at = read;
        'by_step: while at < end {
            at += self.take_part_in_place(buffer, at, end);
        }
    }
}

/// Decodes the first `end` bytes of the buffer in place, as one frame, and returns the message's length in bytes. None
/// of these bytes is a zero.
#[inline(never)]
fn decode_blocks_in_place(buffer: &mut [u8], end: usize) -> Result<usize, DecodeError>
    requires within { end ≤ length buffer.old }
    requires nonzero { HasNoZero (take end buffer.old) }
    ensures returned { result ≡ head_result (take end buffer.old) }
    ensures buffer { buffer.new ≡ overwritten buffer.old (kept_output (take end buffer.old)) }
{
    let (len, whole) = kept_len(&buffer[..end], 0);
    let mut progress = START;
    progress.take_in_place(buffer, 0, len);
    message_len(progress.written, whole)
}

/// Decodes the frame at the front of the buffer in place, up to the first zero or the buffer's end. Returns the length
/// of the frame and the length of the message, in bytes.
///
/// The first `frame_size` bytes of the buffer are then the message, and every other byte of the buffer is unchanged.
/// `parsed_size` is the number of bytes before the first zero, or the length of the buffer if it has no zero. Unlike
/// [`decode`](crate::decode), this function reads a leading zero as an empty message. Both `parsed_size` and
/// `frame_size` are then 0. This function never returns `TargetBufTooSmall`, because a message is shorter than its
/// frame.
///
/// # Errors
///
/// - `EmptyFrame` if the buffer is empty.
/// - `InvalidFrame` if the frame breaks off inside a block. The buffer then begins with the output of the whole blocks
///   before the broken block. If the block before the broken block isn't full, the output ends with the zero that joins
///   the two blocks. `decoded_bytes` is the length of this output, and every byte of the buffer after the output is
///   unchanged.
///
/// The rule that an error leaves the bytes after the output unchanged is a choice of this library.
///
/// ```
/// let mut buf = [3, 10, 11, 2, 12, 0];
/// let report = decode_in_place_report(&mut buf)?;
/// assert_eq!(rt; report.parsed_size(), 5);
/// assert_eq!(rt; report.frame_size(), 4);
/// assert_eq!(rt; buf, [10, 11, 0, 12, 12, 0]);
/// ```
// This function is inlined, because a call would return its result in memory. Such a call costs as much time as
// decoding a frame of a few bytes.
#[inline(always)]
pub fn decode_in_place_report(buf: &mut [u8]) -> Result<DecodeReport, DecodeError>
    ensures answer { result ≡ in_place_report buf.old }
    ensures buffer { buf.new ≡ in_place buf.old }
    ensures reads { (m : List ℕ) → Reads buf.old m → ReportsMessage result buf.new m }
    ensures only { IsPiece buf.old → (m : List ℕ) → ReportsMessage result buf.new m → Reads buf.old m }
    ensures room { IfErr result (λ error. error ≢ TargetBufTooSmall) }
{
    if buf.is_empty() {
        return Err(DecodeError::EmptyFrame);
    }
    let end = position_or_len(buf, 0);
    let frame_size = decode_blocks_in_place(buf, end)?;
    Ok(DecodeReport {
        parsed_size: end,
        frame_size,
    })
}

/// Decodes the frame at the front of the buffer in place, up to the first zero or the buffer's end, and returns the
/// message's length.
///
/// The message is then at the front of the buffer, and every byte after the message is unchanged. Unlike
/// [`decode`](crate::decode), this function reads a leading zero as an empty message. The errors are those of
/// [`decode_in_place_report`].
///
/// ```
/// let mut buff = [3, 10, 11, 2, 12, 0];
/// assert_eq!(rt; decode_in_place(&mut buff), Ok(4));
/// assert_eq!(rt; buff, [10, 11, 0, 12, 12, 0]);
///
/// let broken = DecodeError::InvalidFrame { decoded_bytes: 2 };
/// assert_eq!(rt; decode_in_place(&mut [2, 1, 3, 7]), Err(broken));
/// ```
pub fn decode_in_place(buff: &mut [u8]) -> Result<usize, DecodeError>
    ensures answer { result ≡ result_in_place buff.old }
    ensures buffer { buff.new ≡ in_place buff.old }
    ensures reads { (m : List ℕ) → Reads buff.old m → ReturnsMessage result buff.new m }
    ensures only { IsPiece buff.old → (m : List ℕ) → ReturnsMessage result buff.new m → Reads buff.old m }
    ensures room { IfErr result (λ error. error ≢ TargetBufTooSmall) }
{
    Ok(decode_in_place_report(buff)?.frame_size())
}

/// Decodes the frame at the front of the buffer in place, and returns the message's length. The frame was encoded with
/// `sentinel`, which may be any byte.
///
/// This function first XORs every byte of the buffer with the sentinel, even the bytes after the frame. Then it calls
/// [`decode_in_place`] and returns the result of this call. So the frame ends at the first sentinel, or at the buffer's
/// end if the buffer has no sentinel. A leading sentinel is read as an empty message. Cheshire and Baker's paper
/// describes how frames are encoded with a sentinel other than 0.
///
/// ```
/// let mut buff = [252, 245, 244, 253, 243];
/// assert_eq!(rt; decode_in_place_with_sentinel(&mut buff, 255), Ok(4));
/// assert_eq!(rt; buff, [10, 11, 0, 12, 12]);
/// ```
pub fn decode_in_place_with_sentinel(buff: &mut [u8], sentinel: u8) -> Result<usize, DecodeError>
    ensures answer { result ≡ result_in_place (xor_each sentinel buff.old) }
    ensures buffer { buff.new ≡ in_place (xor_each sentinel buff.old) }
    ensures reads { (m : List ℕ) → Reads (xor_each sentinel buff.old) m → ReturnsMessage result buff.new m }
    ensures only { let f = xor_each sentinel buff.old in IsPiece f → (m : List ℕ)
        → ReturnsMessage result buff.new m → Reads f m }
    ensures room { IfErr result (λ error. error ≢ TargetBufTooSmall) }
{
    xor_bytes(buff, sentinel);
    decode_in_place(buff)
}
