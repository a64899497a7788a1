//! Encodes a message in the buffer that holds the message.
ghost use Rattle.std.specs.Prelude.{◌≡◌, ◌<◌, ◌≤◌, ◌+◌, ◌*◌, ◌++◌, [], ◌∷◌, ℕ, List, length, take, drop};
ghost use Rattle.cobs.specs.Grammar.{HasNoZero, IsEncodedFrame};
ghost use Rattle.cobs.specs.Length.{encoded_len, max_overhead};
ghost use Rattle.cobs.specs.OpenBlock.{CobsEncoderAfter, end_of};
ghost use Rattle.cobs.specs.Overwritten.{message_in};
ghost use Rattle.cobs.specs.Fields.Progress.{reached_by};

use crate::enc::UnbufferedEncoder;

/// Encodes a message in the buffer that holds it, and returns the length of the frame in bytes.
///
/// The message has `len` bytes, and begins at index `start` of `buffer`. The bytes before the message may have any
/// values. After the call, `buffer` begins with the frame that [`encode`](crate::encode) writes for this message. Every
/// byte of `buffer` after the frame stays unchanged, even if the byte belongs to the message.
///
/// Precondition: `start` is at least [`max_encoding_overhead(len)`](crate::max_encoding_overhead), and the whole message
/// is within `buffer`.
///
/// The Rust crate `cobs` has no such call.
///
/// ```
/// let mut buffer = *b"..hello..";
/// assert_eq!(rt; encode_in_place(&mut buffer, 2, 5), 6);
/// assert_eq!(rt; &buffer, b"\x06helloo..");
/// ```
pub fn encode_in_place(buffer: &mut [u8], start: usize, len: usize) -> usize
    requires room { max_overhead len ≤ start }
    requires within { start + len ≤ length buffer.old }
    ensures frame { IsEncodedFrame (take result buffer.new) (message_in start len buffer.old) }
    ensures no_sentinel { HasNoZero (take result buffer.new) }
    ensures len { result ≡ encoded_len (message_in start len buffer.old) }
    ensures rest { drop result buffer.new ≡ drop result buffer.old }
{
    let mut encoder = UnbufferedEncoder::new();
    // The frame of the bytes read so far never extends past the last byte that was read. So the frame never overwrites
    // a byte that hasn't been read yet.
    'by_byte: for taken in 0..len {
        let byte = buffer[start + taken];
        encoder.append_byte(buffer, byte);
    }
    encoder.close(buffer)
}
