//! The texts that the program prints.
ghost use Rattle.std.specs.Prelude.{◌≡◌, ◌++◌, IfOk, OnOk, string_bytes};
ghost use Rattle.cobs_tool.specs.Text.{fault_text, hex_line, hex_of};

use crate::fault::ToolFault;
use std::alloc::{AllocError, Global};

/// Returns the line that the program prints on standard error for a fault, without the newline.
pub fn fault_line(fault: &ToolFault) -> &'static str
    ensures text { result.now ≡ fault_text fault.now }
{
    match fault {
        ToolFault::ReadFailed => "cobs_tool: read failed",
        ToolFault::WriteFailed => "cobs_tool: write failed",
        ToolFault::OutOfMemory => "cobs_tool: out of memory",
        ToolFault::InputTooLong => "cobs_tool: input too long",
    }
}

/// Returns a line with the bytes: two lower-case hexadecimal digits for each byte, with a space between the bytes, and
/// a newline at the end. If there are no bytes, the line is only the newline.
pub fn hex_line(alloc: Global, bytes: &[u8]) -> Result<String, AllocError>
    ensures digits { IfOk result (λ line. string_bytes line ≡ hex_line bytes.now) }
{
    let mut line = String::new(alloc);
    for (at, byte) in bytes.iter().enumerate() {
        if at > 0 {
            line.push(' ')?;
        }
        push_hex(&mut line, *byte)?;
    }
    line.push('\n')?;
    Ok(line)
}

/// Appends the two lower-case hexadecimal digits of a byte.
fn push_hex(line: &mut String, byte: u8) -> Result<(), AllocError>
    ensures digits { OnOk result (string_bytes line.new ≡ string_bytes line.old ++ hex_of byte) }
{
    write!(line, "{byte:02x}")
}
