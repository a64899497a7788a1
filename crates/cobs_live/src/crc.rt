//! Cyclic redundancy checks, as the catalogue of parametrised CRC algorithms defines them.
ghost use Rattle.std.specs.Prelude.{◌≡◌, ◌<◌, ◌≤◌};
ghost use Rattle.cobs_live.specs.Crc.{IsTable, params_of, shifted, word_of};

/// The cyclic redundancy checks that have a name.
#[derive(Debug, PartialEq, Eq, Clone, Copy)]
pub enum Crc {
    /// CRC-8/SMBUS.
    Crc8,

    /// CRC-16/IBM-3740, known as CRC-16/CCITT-FALSE.
    Crc16CcittFalse,

    /// CRC-16/MODBUS.
    Crc16Modbus,

    /// CRC-16/XMODEM.
    Crc16Xmodem,

    /// CRC-16/KERMIT.
    Crc16Kermit,

    /// CRC-16/ARC.
    Crc16Arc,

    /// CRC-32/ISCSI, known as CRC-32C.
    Crc32c,

    /// CRC-32/ISO-HDLC, which zip files and Ethernet use.
    Crc32,
}

/// The parameters of a cyclic redundancy check (CRC), as in the catalogue of parametrised CRC algorithms. A check is
/// computed in a *register* of 32 bits. If the check has fewer bits, its polynomial and its initial value are shifted
/// to the high bits of the register.
#[derive(Debug, PartialEq, Eq, Clone, Copy)]
pub struct Params {
    /// The checksum's length in bytes, from 1 to 4.
    pub size: usize,

    /// The polynomial without its highest power.
    pub poly: u32,

    /// The initial value of the register.
    pub init: u32,

    /// Whether the bits of each byte, and at the end the bits of the register, are reversed (*refin* and *refout* in
    /// the catalogue).
    pub reflected: bool,

    /// The number with which the checksum is XORed at the end.
    pub xorout: u32,
}

impl Crc {
    /// Returns the parameters of this check.
    pub fn params(self) -> Params
        ensures params { result ≡ params_of self }
        ensures sized { (0 < result.size) × (result.size ≤ 4) }
    {
        let (size, poly, init, reflected, xorout) = match self {
            Crc::Crc8 => (1, 0x0700_0000, 0, false, 0),
            Crc::Crc16CcittFalse => (2, 0x1021_0000, 0xFFFF_0000, false, 0),
            Crc::Crc16Modbus => (2, 0x8005_0000, 0xFFFF_0000, true, 0),
            Crc::Crc16Xmodem => (2, 0x1021_0000, 0, false, 0),
            Crc::Crc16Kermit => (2, 0x1021_0000, 0, true, 0),
            Crc::Crc16Arc => (2, 0x8005_0000, 0, true, 0),
            Crc::Crc32c => (4, 0x1EDC_6F41, 0xFFFF_FFFF, true, 0xFFFF_FFFF),
            Crc::Crc32 => (4, 0x04C1_1DB7, 0xFFFF_FFFF, true, 0xFFFF_FFFF),
        };
        Params {
            size,
            poly,
            init,
            reflected,
            xorout,
        }
    }
}

/// The highest bit of a register.
const HIGH: u32 = 0x8000_0000;

/// Returns a table with an entry for each byte. The entry is the register after eight calls of [`shifted`]. Before
/// these calls, the register has the byte in its highest 8 bits and zeros in its other bits.
pub(crate) fn table_of(poly: u32) -> [u32; 256]
    ensures table { IsTable poly result }
{
    let mut words = [0; 256];
    'by_byte: for byte in 0..256 {
        words[byte] = word_of(poly, byte as u32);
    }
    words
}

/// Returns the register after eight calls of [`shifted`]. Before these calls, the register has `byte` in its highest 8
/// bits and zeros in its other bits.
fn word_of(poly: u32, byte: u32) -> u32
    requires byte { byte < 256 }
    ensures word { result ≡ word_of poly byte }
{
    let mut register = byte << 24;
    'by_bit: for _bit in 0..8_u32 {
        register = shifted(poly, register);
    }
    register
}

/// Returns the register after one step. The step shifts the register to the left by one bit, and XORs it with the
/// polynomial if a one was shifted out.
fn shifted(poly: u32, register: u32) -> u32
    ensures shifted { result ≡ shifted poly register }
{
    if register < HIGH {
        2 * register
    } else {
        (2 * (register - HIGH)) ^ poly
    }
}
