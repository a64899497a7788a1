//! Sends lines of text as frames.
ghost use Rattle.std.specs.Prelude.{◌≡◌, ◌≢◌, ◌↔◌, List, [], OnOk, IfOk, IfErr, IsOk, IsTrue, ℕ, Some, true};
ghost use Rattle.std.specs.Io.Buffered.{writer_buffer, writer_inner};
ghost use Rattle.std.specs.Io.KnownBytes.{Appends, Keeps};
ghost use Rattle.hex.specs.Hex.{decode_of};
ghost use Rattle.cobs_live.specs.Checksum.{with_sum};
ghost use Rattle.cobs_live.specs.Sent.{HasSent, HoldsFrames, IsSendable, IsSent, SendsAs, SendsMessage, SendsText, digits_of, is_digit, text_of};
ghost use Rattle.cobs_live.specs.Reads.{IsLive};
ghost use Rattle.cobs_live.specs.Watched.{IsFlushed};

use crate::checksum::Checksum;
use crate::fault::WatchFault;
use crate::input::LiveLines;
use cobs::encode_vec_with_sentinel;
use hex::FromHexError;
use std::alloc::{AllocError, Global};
use std::io::{BufWriter, Write};

/// How lines of text are sent.
#[derive(Debug, PartialEq, Eq, Drop)]
pub struct Settings {
    /// Whether each line contains a message as hexadecimal digits. Otherwise the line itself is the message.
    pub hex: bool,

    /// The checksum that follows each message in its frame, if any.
    pub checksum: Option<Checksum>,

    /// The byte that ends each frame.
    pub sentinel: u8,
}

/// Sends the message of each line of the input: writes the message's frame and the sentinel, and flushes the output
/// before the next line is read. If `settings.hex` is set, the line has the hexadecimal digits of the message.
/// Otherwise the message is the line without its newline. If `settings.checksum` is set, the checksum follows the
/// message in the frame.
///
/// Returns whether every line was sent. If `settings.hex` is set, a line that can't be read as hexadecimal digits is
/// skipped, and its number, counted from 1, is reported on `errors`. An interrupted read is tried again. At any time,
/// memory is allocated for at most one line, its message and its frame.
///
/// # Errors
/// - `ReadFailed`: a read failed, or memory ran out while a line was read. All earlier lines were sent or skipped.
/// - `WriteFailed`: a write or a flush failed. Part of a frame may have been written.
/// - `OutputClosed`: a write or a flush failed because nobody reads the output any more.
/// - `OutOfMemory`: memory ran out while the message or the frame of a line was made. All earlier lines were sent or
///   skipped.
pub fn run_send<S: LiveLines<W>, W: Write + Drop, E: Write>(
    alloc: Global,
    settings: &Settings,
    input: &mut S,
    output: &mut BufWriter<W>,
    errors: &mut E,
) -> Result<bool, WatchFault>
    requires flushed { writer_buffer output.old ≡ [] }
    ensures sent { HasSent settings.now result (S.remaining input.old) (S.remaining input.new)
        (W.contents (writer_inner output.old)) (W.contents (writer_inner output.new)) }
    ensures live { IsLive S.step input.old input.new
        (HoldsFrames settings.now (W.contents (writer_inner output.old))) }
    ensures flushed { IsFlushed result (writer_buffer output.new) }
{
    let mut line = Vec::new(alloc);
    let mut all_sent = true;
    // The number of lines is limited, because every function is proved to end.
    'by_line: for number in 1..usize::MAX {
        line.clear();
        // The read doesn't need the output. The output is an argument so that the clause `live` can say that the output
        // held the frames of all earlier lines when this read began.
        let Ok(count) = input.read_line_beside(output, &mut line) else {
            return Err(WatchFault::ReadFailed);
        };
        if count == 0 {
            return Ok(all_sent);
        }
        if !send_text(alloc, settings, without_newline(&line), output)? {
            all_sent = false;
            // A failure to write the report isn't a fault.
            let _ = writeln!(errors, "cobs_watch: line {number}: {}", fault_of(&line));
        }
    }
    // After `usize::MAX - 1` lines, the call ends as if a read had failed. No input has that many lines.
    Err(WatchFault::ReadFailed)
}

/// Returns what is wrong with a line that can't be read as the hexadecimal digits of a message.
fn fault_of(line: &[u8]) -> &'static str {
    for byte in without_newline(line) {
        if is_digit(*byte) && !byte.is_ascii_hexdigit() {
            return "not hexadecimal digits";
        }
    }
    "an odd number of hexadecimal digits"
}

/// Returns the line without the newline at its end, if it has one.
fn without_newline(line: &[u8]) -> &[u8]
    ensures text { result.now ≡ text_of line.now }
{
    if line.len() > 0 && line[line.len() - 1] == b'\n' {
        &line[..line.len() - 1]
    } else {
        line
    }
}

/// Sends the message of a line's text. Returns false if the text should be read as hexadecimal digits but can't be.
fn send_text<W: Write + Drop>(
    alloc: Global,
    settings: &Settings,
    text: &[u8],
    output: &mut BufWriter<W>,
) -> Result<bool, WatchFault>
    requires flushed { writer_buffer output.old ≡ [] }
    ensures sent { OnOk result ((bytes : List ℕ) × SendsText settings.now text.now bytes
        × Appends (W.contents (writer_inner output.old)) (W.contents (writer_inner output.new)) bytes) }
    ensures returned { IfOk result (λ sent. IsTrue sent ↔ IsSendable settings.now text.now) }
    ensures fault { IfErr result (λ fault. fault ≢ WatchFault.ReadFailed) }
    ensures unwritten { IfErr result (λ fault. fault ≡ WatchFault.OutOfMemory
        → Keeps (W.contents (writer_inner output.old)) (W.contents (writer_inner output.new))) }
    ensures flushed { IsFlushed result (writer_buffer output.new) }
{
    if !settings.hex {
        send_message(alloc, settings, text, output)?;
        return Ok(true);
    }
    match hex::decode(alloc, &digits_of(alloc, text)?) {
        Ok(message) => {
            send_message(alloc, settings, &message, output)?;
            Ok(true)
        }
        Err(error) => {
            if error == FromHexError::OutOfMemory {
                return Err(WatchFault::OutOfMemory);
            }
            Ok(false)
        }
    }
}

/// Returns the text of a line without its spaces, tabs and carriage returns.
fn digits_of(alloc: Global, text: &[u8]) -> Result<Vec<u8>, AllocError>
    ensures digits { IfOk result (λ digits. digits.items ≡ digits_of text.now) }
{
    let mut digits = Vec::new(alloc);
    'by_byte: for byte in text {
        if is_digit(*byte) {
            digits.push(*byte)?;
        }
    }
    Ok(digits)
}

/// Returns whether a byte of a line should be a digit. Every byte should be a digit, except for spaces, tabs and
/// carriage returns.
fn is_digit(byte: u8) -> bool
    ensures digit { result ≡ is_digit byte }
{
    !(byte == b' ' || byte == b'\t' || byte == b'\r')
}

/// Writes the frame of a message, followed by the sentinel, and flushes the output. If a checksum is set, it follows
/// the message in the frame.
fn send_message<W: Write + Drop>(
    alloc: Global,
    settings: &Settings,
    message: &[u8],
    output: &mut BufWriter<W>,
) -> Result<(), WatchFault>
    requires flushed { writer_buffer output.old ≡ [] }
    ensures sent { OnOk result ((bytes : List ℕ) × SendsMessage settings.now message.now bytes
        × Appends (W.contents (writer_inner output.old)) (W.contents (writer_inner output.new)) bytes) }
    ensures fault { IfErr result (λ fault. fault ≢ WatchFault.ReadFailed) }
    ensures unwritten { IfErr result (λ fault. fault ≡ WatchFault.OutOfMemory
        → Keeps (W.contents (writer_inner output.old)) (W.contents (writer_inner output.new))) }
    ensures flushed { IsFlushed result (writer_buffer output.new) }
{
    let bytes = summed_frame(alloc, settings.sentinel, &settings.checksum, message)?;
    output.write_all(&bytes)?;
    output.flush()?;
    Ok(())
}

/// Returns the frame of a message, followed by the sentinel. If there is a checksum, it follows the message in the
/// frame.
fn summed_frame(
    alloc: Global,
    sentinel: u8,
    checksum: &Option<Checksum>,
    message: &[u8],
) -> Result<Vec<u8>, AllocError>
    ensures frame { IfOk result (λ bytes. IsSent sentinel (with_sum checksum.now message.now) bytes.items) }
{
    let Some(checksum) = checksum else {
        return ended_frame(alloc, sentinel, message);
    };
    let whole = with_sum(alloc, checksum, message)?;
    ended_frame(alloc, sentinel, &whole)
}

/// Returns a message, followed by its checksum.
pub fn with_sum(alloc: Global, checksum: &Checksum, message: &[u8]) -> Result<Vec<u8>, AllocError>
    ensures sum { IfOk result (λ whole. whole.items ≡ with_sum (Some checksum.now) message.now) }
{
    let mut whole = Vec::new(alloc);
    whole.extend_from_slice(message)?;
    whole.extend_from_slice(checksum.sum(message, &mut [0; 4]))?;
    Ok(whole)
}

/// Returns the frame of a message, followed by the sentinel.
fn ended_frame(alloc: Global, sentinel: u8, message: &[u8]) -> Result<Vec<u8>, AllocError>
    ensures frame { IfOk result (λ bytes. IsSent sentinel message.now bytes.items) }
{
    // If a message has more than `usize::MAX / 2` bytes, the length of its frame could be too great for a `usize`.
    if usize::MAX / 2 < message.len() {
        return Err(AllocError);
    }
    let mut bytes = encode_vec_with_sentinel(alloc, message, sentinel)?;
    bytes.push(sentinel)?;
    Ok(bytes)
}
