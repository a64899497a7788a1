//! The three modes. Each mode reads from any reader, and writes to any writer.
ghost use Rattle.std.specs.Prelude.{◌≡◌, ◌≢◌, ◌≤◌, length, IfErr, IfOk, IfSome, OnOk};
ghost use Rattle.std.specs.Io.KnownBytes.{Appends, Keeps};
ghost use Rattle.cobs_tool.specs.Report.{report};
ghost use Rattle.cobs_tool.specs.Input.{HasRead};
ghost use Rattle.cobs_tool.specs.Output.{IsOutputOf, IsShown, IsTerminatedFrame, WritesSome};

use crate::fault::ToolFault;
use crate::input::{MAX_INPUT, read_input};
use crate::mode::Mode;
use crate::output::write_output;
use crate::report::report_of;
use crate::text::hex_line;
use std::alloc::{AllocError, Global};
use std::io::{Read, Write};

/// Runs a mode: [`run_show`], [`run_encode`] or [`run_decode`]. The mode reads the input to its end, and then writes
/// the output.
pub fn run_mode<R: Read, W: Write>(
    alloc: Global,
    mode: &Mode,
    input: &mut R,
    output: &mut W,
) -> Result<(), ToolFault>
    ensures read { HasRead (R.remaining input.old) (R.remaining input.new) result }
    ensures written { OnOk result (IfSome (R.remaining input.old) (λ bytes.
        WritesSome (IsOutputOf mode.now bytes) (W.contents output.old) (W.contents output.new))) }
    ensures unwritten { IfErr result (λ fault. fault ≢ ToolFault.WriteFailed
        → Keeps (W.contents output.old) (W.contents output.new)) }
{
    match mode {
        Mode::Show => run_show(alloc, input, output),
        Mode::Encode => run_encode(alloc, input, output),
        Mode::Decode => run_decode(alloc, input, output),
    }
}

/// Prints the encoded frame of the input, followed by a zero, as two hexadecimal digits per byte.
///
/// The whole input is one message. The input is read to its end, and the whole line is made, before any byte of the
/// line is written. So nothing has been written if the fault isn't `WriteFailed`. If the fault is `WriteFailed`, part
/// of the line may have been written. Whether an interrupted write is tried again isn't specified.
///
/// # Errors
/// - `ReadFailed`: a read failed. An interrupted read is a failed read.
/// - `InputTooLong`: the reader returned more than [`MAX_INPUT`] bytes.
/// - `OutOfMemory`: there wasn't enough memory for the input, its frame or the line.
/// - `WriteFailed`: a write or the flush failed.
pub fn run_show<R: Read, W: Write>(
    alloc: Global,
    input: &mut R,
    output: &mut W,
) -> Result<(), ToolFault>
    ensures read { HasRead (R.remaining input.old) (R.remaining input.new) result }
    ensures shown { OnOk result (IfSome (R.remaining input.old) (λ message.
        WritesSome (λ line. IsShown line message)
        (W.contents output.old) (W.contents output.new))) }
    ensures unwritten { IfErr result (λ fault. fault ≢ ToolFault.WriteFailed
        → Keeps (W.contents output.old) (W.contents output.new)) }
{
    let message = read_input(alloc, input)?;
    let frame = terminated_frame(alloc, &message)?;
    let line = hex_line(alloc, &frame)?;
    write_output(output, line.as_bytes())
}

/// Writes the encoded frame of the input, followed by a zero.
///
/// The whole input is one message. The function reads the input in the same way as [`run_show`], and returns the same
/// errors.
pub fn run_encode<R: Read, W: Write>(
    alloc: Global,
    input: &mut R,
    output: &mut W,
) -> Result<(), ToolFault>
    ensures read { HasRead (R.remaining input.old) (R.remaining input.new) result }
    ensures encoded { OnOk result (IfSome (R.remaining input.old) (λ message.
        WritesSome (λ bytes. IsTerminatedFrame bytes message)
        (W.contents output.old) (W.contents output.new))) }
    ensures unwritten { IfErr result (λ fault. fault ≢ ToolFault.WriteFailed
        → Keeps (W.contents output.old) (W.contents output.new)) }
{
    let message = read_input(alloc, input)?;
    let frame = terminated_frame(alloc, &message)?;
    write_output(output, &frame)
}

/// Prints the lines that [`report_of`] returns for the pieces of the input. The input is a stream of frames, each ended
/// by a zero.
///
/// The function reads the input in the same way as [`run_show`], and returns the same errors.
pub fn run_decode<R: Read, W: Write>(
    alloc: Global,
    input: &mut R,
    output: &mut W,
) -> Result<(), ToolFault>
    ensures read { HasRead (R.remaining input.old) (R.remaining input.new) result }
    ensures reported { OnOk result (IfSome (R.remaining input.old) (λ stream.
        Appends (W.contents output.old) (W.contents output.new) (report stream))) }
    ensures unwritten { IfErr result (λ fault. fault ≢ ToolFault.WriteFailed
        → Keeps (W.contents output.old) (W.contents output.new)) }
{
    let stream = read_input(alloc, input)?;
    let report = report_of(alloc, &stream)?;
    write_output(output, report.as_bytes())
}

/// Returns the encoded frame of a message, followed by a zero. The zero is the sentinel that ends the frame in a
/// stream.
fn terminated_frame(alloc: Global, message: &[u8]) -> Result<Vec<u8>, AllocError>
    requires { length message.now ≤ MAX_INPUT }
    ensures { IfOk result (λ bytes. IsTerminatedFrame bytes.items message.now) }
{
    let mut bytes = cobs::encode_vec(alloc, message)?;
    bytes.push(0)?;
    Ok(bytes)
}
