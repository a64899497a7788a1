//! The text of each status, and the library's version.
ghost use Rattle.std.specs.Prelude.{◌≡◌, ◌-◌, ◌∷◌, ◌++◌, [], length, take};
ghost use Rattle.cobs.specs.Overwritten.{overwritten};
ghost use Rattle.cobs_c.specs.Text.{words};

use crate::answer::{BROKEN, EMPTY, MORE, OK, TOO_SMALL};

/// The version as one number: 10,000 times the major number, plus 100 times the minor number, plus the patch number.
pub const VERSION: u32 = 10000;

/// Returns the meaning of a status as text.
fn words(status: u32) -> &'static str
    ensures { result.now ≡ words status }
{
    match status {
        OK => "done",
        MORE => "more bytes are needed",
        TOO_SMALL => "the buffer is too small",
        BROKEN => "the frame breaks off inside a block",
        EMPTY => "there is no frame",
        _ => "unknown status",
    }
}

/// Writes the text of a status, followed by a zero, to the front of `text`. If the text and the zero don't fit, only
/// the first bytes of the text are written, followed by the zero. If `text` is empty, nothing is written. Returns the
/// length of the whole text, without the zero.
#[unsafe(no_mangle)]
pub extern "C" fn jcobs_strerror(status: u32, text: &mut [u8]) -> usize
    ensures len { result ≡ length (words status) }
    ensures text { text.new
        ≡ overwritten text.old (take (length text.old - 1) (words status) ++ 0 ∷ []) }
{
    let words = words(status).as_bytes();
    if text.is_empty() {
        return words.len();
    }
    let end = words.len().min(text.len() - 1);
    text[..end].copy_from_slice(&words[..end]);
    text[end] = 0;
    words.len()
}

/// Returns the version of the library.
#[unsafe(no_mangle)]
pub extern "C" fn jcobs_version() -> u32
    ensures { result ≡ VERSION }
{
    VERSION
}

/// Returns 1, the version of the interface. The function's name contains this version. So a program that was compiled
/// for another version of the interface can't be linked with this library.
#[unsafe(no_mangle)]
pub extern "C" fn jcobs_abi_1() -> u32
    ensures { result ≡ 1 }
{
    1
}
