//! Writes the output.
ghost use Rattle.std.specs.Prelude.{◌≡◌, OnOk, IfErr};
ghost use Rattle.std.specs.Io.KnownBytes.{Appends};

use crate::fault::ToolFault;
use std::io::Write;

/// Writes all of the bytes and flushes the writer.
///
/// # Errors
/// Returns `WriteFailed` if a write or the flush failed. Some of the bytes may have been written.
pub fn write_output<W: Write>(output: &mut W, bytes: &[u8]) -> Result<(), ToolFault>
    ensures ok { OnOk result (Appends (W.contents output.old) (W.contents output.new) bytes.now) }
    ensures err { IfErr result (λ fault. fault ≡ ToolFault.WriteFailed) }
{
    let written = output.write_all(bytes);
    if written.is_err() || output.flush().is_err() {
        return Err(ToolFault::WriteFailed);
    }
    Ok(())
}
