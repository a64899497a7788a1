//! Writes bytes as hexadecimal digits to a buffer or to any writer.
ghost use Rattle.std.specs.Prelude.{◌≡◌, ◌<◌, ◌*◌, OnOk, length, slice_index};
ghost use Rattle.std.specs.Io.KnownBytes.{Appends};
ghost use Rattle.hex.specs.Hex.{encode_lower, lower_digits};

use std::io::{self, Write};

/// The bytes of a message are converted to digits in chunks of up to this many bytes. The digits of a chunk are written
/// before the next chunk is converted.
const AT_ONCE: usize = 256;

/// The least number of bytes for which computing the digits is faster than looking them up.
const MANY: usize = 8;

/// The hexadecimal digits.
const DIGITS: [u8; 16] = *b"0123456789abcdef";

/// Writes the bytes as lower-case hexadecimal digits. Nothing is allocated.
///
/// # Errors
/// Returns the error of a write that failed. Some of the digits may have been written.
pub fn write_digits<W: Write>(output: &mut W, bytes: &[u8]) -> io::Result<()>
    ensures written { OnOk result
        (Appends (W.contents output.old) (W.contents output.new) (encode_lower bytes.now)) }
{
    let mut digits = [0; 2 * AT_ONCE];
    let mut at = 0;
    'by_chunk: while at < bytes.len() {
        let end = bytes.len().min(at + AT_ONCE);
        let room = &mut digits[..2 * (end - at)];
        fill_digits(room, &bytes[at..end]);
        output.write_all(room)?;
        at = end;
    }
    Ok(())
}

/// Fills `room` with the lower-case hexadecimal digits of the bytes, two for each byte.
#[inline(always)]
pub fn fill_digits(room: &mut [u8], bytes: &[u8])
    requires room { length room.old ≡ 2 * length bytes.now }
    ensures digits { room.new ≡ encode_lower bytes.now }
{
    if bytes.len() < MANY {
        look_up_digits(room, bytes);
    } else {
        compute_digits(room, bytes);
    }
}

/// Fills `room` with the hexadecimal digits of the bytes. Each digit is looked up in a table. For fewer than [`MANY`]
/// bytes this is faster than [`compute_digits`].
#[inline(always)]
fn look_up_digits(room: &mut [u8], bytes: &[u8])
    requires room { length room.old ≡ 2 * length bytes.now }
    ensures digits { room.new ≡ encode_lower bytes.now }
{
    'by_byte: for i in 0..bytes.len() {
        room[2 * i] = DIGITS[(bytes[i] / 16) as usize];
        room[2 * i + 1] = DIGITS[(bytes[i] % 16) as usize];
    }
}

/// Fills `room` with the hexadecimal digits of the bytes. Each digit is computed. For [`MANY`] or more bytes this is
/// faster than [`look_up_digits`].
#[inline(always)]
fn compute_digits(room: &mut [u8], bytes: &[u8])
    requires room { length room.old ≡ 2 * length bytes.now }
    ensures digits { room.new ≡ encode_lower bytes.now }
{
    'by_byte: for i in 0..bytes.len() {
        room[2 * i] = digit(bytes[i] / 16);
        room[2 * i + 1] = digit(bytes[i] % 16);
    }
}

/// Returns the lower-case hexadecimal digit of a number below 16. The digit is computed, not looked up, so that
/// compilers can compute the digits of many bytes with vector instructions.
#[inline(always)]
fn digit(number: u8) -> u8
    requires below { number < 16 }
    ensures digit { result ≡ slice_index lower_digits number }
{
    if number < 10 {
        b'0' + number
    } else {
        b'a' - 10 + number
    }
}
