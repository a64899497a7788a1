//! The outcomes of the pieces of a stream, as lines of text.
ghost use Rattle.std.specs.Prelude.{◌≡◌, ◌≤◌, ◌++◌, length, IfOk, OnOk, string_bytes};
ghost use Rattle.cobs.specs.Stream.{Broken, Message};
ghost use Rattle.cobs_lines.specs.Lines.{outcome_line};
ghost use Rattle.cobs_tool.specs.Report.{report};

use crate::input::MAX_INPUT;
use cobs::laws::law_9;
use cobs::{CobsDecoderOwned, FrameReader, Next};
use cobs_lines::InMemory;
use std::alloc::{AllocError, Global};

/// The length of the longest message that is decoded, 64 KiB. A piece that decodes to more bytes is too long.
pub const DECODE_BUFFER_LEN: usize = 65_536;

/// Returns one line for each piece that a zero ends, in order, and then the line `unfinished` if a piece has begun
/// after the last zero.
///
/// - `message N HEX`: the piece is a frame of a message of N bytes. HEX stands for these bytes as lower-case
///   hexadecimal digits. For the empty message, the line is `message 0`.
/// - `broken N`: the piece breaks off inside a block, and decodes to N bytes.
/// - `too long`: the piece decodes to more than [`DECODE_BUFFER_LEN`] bytes.
pub fn report_of(alloc: Global, stream: &[u8]) -> Result<String, AllocError>
    requires { length stream.now ≤ MAX_INPUT }
    ensures report { IfOk result (λ text. string_bytes text ≡ report stream.now) }
{
    law_9(); // A stream may be cut anywhere
    let decoder = CobsDecoderOwned::new(alloc, DECODE_BUFFER_LEN)?;
    let mut frames = FrameReader::new(decoder);
    let mut source = InMemory::new(stream);
    let mut text = String::new(alloc);
    'by_piece: loop {
        match frames.next_frame(&mut source) {
            Ok(Next::Message(len)) => {
                let message = &frames.decoder().dest()[..len];
                push_message(alloc, &mut text, message)?;
            }
            Ok(Next::Broken(count)) => push_broken(&mut text, count)?,
            Ok(Next::TooLong) => text.push_str("too long\n")?,
            Ok(Next::End { unfinished }) => {
                if unfinished {
                    text.push_str("unfinished\n")?;
                }
                return Ok(text);
            }
            // A read from memory never fails. A call of `next_frame` also fails after 65,536 reads. But each read
            // returns 64 bytes if at least 64 bytes are left, so a stream of at most 1 MiB ends after at most 16,385
            // reads.
            Err(_) => unreachable!(),
        }
    }
}

/// Appends the line of a message.
fn push_message(alloc: Global, report: &mut String, message: &[u8]) -> Result<(), AllocError>
    ensures { OnOk result (string_bytes report.new
        ≡ string_bytes report.old ++ outcome_line (Message message.now)) }
{
    if message.is_empty() {
        return report.push_str("message 0\n");
    }
    let len = message.len();
    let digits = hex::encode(alloc, message)?;
    writeln!(report, "message {len} {digits}")
}

/// Appends the line of a broken piece that decodes to `count` bytes.
fn push_broken(report: &mut String, count: usize) -> Result<(), AllocError>
    ensures { OnOk result (string_bytes report.new
        ≡ string_bytes report.old ++ outcome_line (Broken count)) }
{
    writeln!(report, "broken {count}")
}
