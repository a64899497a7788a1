//! Reads the whole input.
ghost use Rattle.std.specs.Prelude.{◌≡◌, ◌≢◌, ◌≤◌, IfOk, IfErr, IfSome, vec_len};
ghost use Rattle.cobs_tool.specs.Input.{HasRead};

use crate::fault::ToolFault;
use std::alloc::Global;
use std::io::Read;

/// The greatest length of the input in bytes: 1 MiB.
pub const MAX_INPUT: usize = 1_048_576;

/// The greatest number of bytes of one read: 8 KiB. So the program reads at most 8 KiB more than [`MAX_INPUT`].
pub const READ_LEN: usize = 8_192;

/// Reads to the end of the input, that is, to the first read that returns 0 bytes.
///
/// # Errors
/// - `ReadFailed`: a read failed. An interrupted read is a failed read, and isn't tried again.
/// - `InputTooLong`: the input has more than [`MAX_INPUT`] bytes. No memory was allocated for the read that exceeded
///   this limit.
/// - `OutOfMemory`: there wasn't enough memory for the bytes of a read.
///
/// Nothing is read after a read that failed, returned 0 bytes or exceeded the limit.
pub fn read_input<R: Read>(alloc: Global, input: &mut R) -> Result<Vec<u8>, ToolFault>
    ensures read { HasRead (R.remaining input.old) (R.remaining input.new) result }
    ensures whole { IfOk result (λ bytes. IfSome (R.remaining input.old) (λ m. bytes.items ≡ m)) }
    ensures limit { IfOk result (λ bytes. vec_len bytes ≤ MAX_INPUT) }
    ensures no_write { IfErr result (λ fault. fault ≢ ToolFault.WriteFailed) }
{
    let mut bytes = Vec::new(alloc);
    let mut chunk = [0u8; READ_LEN];
    'by_read: loop {
        let Ok(count) = input.read(&mut chunk) else {
            return Err(ToolFault::ReadFailed);
        };
        if count == 0 {
            return Ok(bytes);
        }
        if count > MAX_INPUT - bytes.len() {
            return Err(ToolFault::InputTooLong);
        }
        bytes.extend_from_slice(&chunk[..count])?;
    }
}
