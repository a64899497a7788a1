//! Writes a capture of messages in the format of libpcap, which Wireshark reads.
ghost use Rattle.std.specs.Prelude.{◌≡◌, OnOk};
ghost use Rattle.std.specs.Io.KnownBytes.{Appends};
ghost use Rattle.cobs_live.specs.Capture.{capture_head, packet, packet_head, word};

use std::io::{self, Write};

/// The greatest number of bytes that a capture has of a packet. Wireshark reads no capture with a longer packet.
const SNAP_LEN: usize = 262_144;

/// Writes the header of a capture file: the number that marks the format, the version 2.4, the time zone UTC, the
/// accuracy of the times (always given as 0), the greatest number of captured bytes of a packet (256 KiB), and the type
/// of the packets' contents (147, `USER0`).
pub fn write_capture_head<W: Write>(output: &mut W) -> io::Result<()>
    ensures written { OnOk result
        (Appends (W.contents output.old) (W.contents output.new) capture_head) }
{
    output.write_all(&[
        0xD4, 0xC3, 0xB2, 0xA1, 2, 0, 4, 0, 0, 0, 0, 0, 0, 0, 0, 0, 0, 0, 4, 0, 147, 0, 0, 0,
    ])
}

/// Writes a message as a packet, with this time in milliseconds since 1970. Of a message of more than 256 KiB, only the
/// first 256 KiB are written; the packet's header has the length of the whole message.
pub fn write_packet<W: Write>(output: &mut W, time: u64, message: &[u8]) -> io::Result<()>
    ensures written { OnOk result
        (Appends (W.contents output.old) (W.contents output.new) (packet time message.now)) }
{
    let captured = &message[..SNAP_LEN.min(message.len())];
    write_packet_head(output, time, captured.len(), message.len())?;
    output.write_all(captured)
}

/// Writes the header of a packet: the packet's time in seconds and microseconds, the number of captured bytes, and the
/// number of sent bytes. `time` is in milliseconds since 1970.
fn write_packet_head<W: Write>(
    output: &mut W,
    time: u64,
    captured: usize,
    sent: usize,
) -> io::Result<()>
    ensures written { OnOk result
        (Appends (W.contents output.old) (W.contents output.new) (packet_head time captured sent)) }
{
    write_word(output, time / 1000)?;
    write_word(output, time % 1000 * 1000)?;
    write_word(output, captured as u64)?;
    write_word(output, sent as u64)
}

/// Writes the lowest 32 bits of a number, with the lowest byte first.
fn write_word<W: Write>(output: &mut W, number: u64) -> io::Result<()>
    ensures written { OnOk result
        (Appends (W.contents output.old) (W.contents output.new) (word number)) }
{
    output.write_all(&((number % 0x1_0000_0000) as u32).to_le_bytes())
}
