//! Checksums at the end of messages.
ghost use Rattle.std.specs.Prelude.{◌≡◌, ◌↔◌, ◌<◌, ◌≤◌, IfSome, IsSome, IsTrue};
ghost use Rattle.cobs_live.specs.Crc.{IsTable, after_byte, crc};

use crate::crc::{Params, table_of};

/// A cyclic redundancy check, and the byte order of its checksum. The checksum follows each message.
#[derive(Debug, PartialEq, Eq, Drop)]
pub struct Checksum {
    pub params: Params,

    /// Whether the checksum's lowest byte comes first. Otherwise its highest byte comes first.
    pub little: bool,

    /// The table that `table_of` computes from the polynomial. With this table, each byte of a message takes one
    /// look-up, instead of one step for each of its eight bits.
    words: [u32; 256],

    /// Every checksum has 1 to 4 bytes.
    ghost sized: { (0 < params.size) × (params.size ≤ 4) },

    /// `words` is the table of the polynomial `params.poly`.
    ghost table: { IsTable params.poly words },
}

impl Checksum {
    ghost use Rattle.cobs_live.specs.Checksum.{body_of, is_checked, sum_of};

    /// Makes a check with these parameters. If `little` is set, the lowest byte of its checksum comes first.
    pub fn new(params: Params, little: bool) -> Self
        requires sized { (0 < params.size) × (params.size ≤ 4) }
        ensures params { result.params ≡ params }
        ensures order { result.little ≡ little }
    {
        Checksum {
            params,
            little,
            words: table_of(params.poly),
        }
    }

    /// Returns the checksum of these bytes as a number.
    fn crc(&self, bytes: &[u8]) -> u32
        ensures crc { result ≡ crc self.now.params bytes.now }
    {
        let params = self.params;
        let mut register = params.init;
        'by_byte: for byte in bytes {
            register = self.after_byte(register, *byte);
        }
        // The result is in the high bits of the register. It is moved to the low bits.
        let low = if params.reflected {
            register.reverse_bits()
        } else {
            register >> (32 - 8 * params.size)
        };
        low ^ params.xorout
    }

    /// Returns the register after one more byte of the message.
    fn after_byte(&self, register: u32, byte: u8) -> u32
        ensures after { result ≡ after_byte self.now.params register byte }
    {
        let first = if self.params.reflected {
            byte.reverse_bits()
        } else {
            byte
        };
        let top = (register >> 24) as u8;
        self.words[(top ^ first) as usize] ^ (register << 8)
    }

    /// Writes the checksum of a message to the front of `room`, and returns the checksum's bytes.
    pub fn sum<'a>(&self, message: &[u8], room: &'a mut [u8; 4]) -> &'a [u8]
        ensures sum { result.now ≡ sum_of self.now message.now }
    {
        *room = self.crc(message).to_le_bytes();
        let bytes = &mut room[..self.params.size];
        if !self.little {
            bytes.reverse();
        }
        bytes
    }

    /// Returns the bytes before the checksum if `bytes` ends with the right checksum, and otherwise `None`.
    pub fn checked<'a>(&self, bytes: &'a [u8]) -> Option<&'a [u8]>
        ensures body { IfSome result (λ body. body.now ≡ body_of self.now bytes.now) }
        ensures right { IsSome result ↔ IsTrue (is_checked self.now bytes.now) }
    {
        let body = &bytes[..bytes.len().saturating_sub(self.params.size)];
        if bytes.ends_with(self.sum(body, &mut [0; 4])) {
            Some(body)
        } else {
            None
        }
    }
}
