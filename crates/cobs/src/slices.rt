//! Functions that search, copy and XOR bytes.
ghost use Rattle.std.specs.Prelude.{All, ◌≢◌, ◌≡◌, ◌<◌, ◌≤◌, length, take, slice_index, ◌++◌, drop};
ghost use Rattle.cobs.specs.Bytes.{xor_each};

use memchr::memchr;

/// Up to this many bytes are searched, encoded or decoded one by one. In more bytes, `memchr` finds the first zero, and
/// the bytes before it are copied as slices. If this is `usize::MAX`, `memchr` is never called and no slice is copied.
pub(crate) const SHORT: usize = 16;

/// Returns the index of the first byte of the source that equals `byte`, or the source's length if no byte does.
pub(crate) fn position_or_len(source: &[u8], byte: u8) -> usize
    ensures within { result ≤ length source.now }
    ensures before { All (λ other. other ≢ byte) (take result source.now) }
    ensures stop { result < length source.now → slice_index source.now result ≡ byte }
{
    if source.len() <= SHORT {
        'by_byte: for i in 0..source.len() {
            if source[i] == byte {
                return i;
            }
        }
        return source.len();
    }
    memchr(byte, source).unwrap_or(source.len())
}

/// Copies all bytes of `source` to `dest`.
// This function isn't inlined. If a compiler can't see that two slices don't overlap, it adds a loop for slices that
// overlap. In each caller, this loop would need registers. The parameters are in the same order as those of `memmove`,
// so this function only jumps to `memmove`.
#[inline(never)]
fn copy_slice(dest: &mut [u8], source: &[u8])
    requires { length source.now ≡ length dest.old }
    ensures { dest.new ≡ source.now }
{
    dest.copy_from_slice(source);
}

/// Copies all bytes of `source` to `dest`, each XORed with `sentinel`.
// This function is inlined, because its caller knows that both slices have the same length. So compilers can copy many
// bytes per iteration.
#[inline(always)]
fn xor_slice(dest: &mut [u8], source: &[u8], sentinel: u8)
    requires { length source.now ≡ length dest.old }
    ensures { dest.new ≡ xor_each sentinel source.now }
{
    'by_byte: for i in 0..source.len() {
        dest[i] = source[i] ^ sentinel;
    }
}

/// Copies all bytes of the source to the front of `dest`, each XORed with `sentinel`.
#[inline(always)]
pub(crate) fn copy_xored(source: &[u8], dest: &mut [u8], sentinel: u8)
    requires { length source.now ≤ length dest.old }
    ensures { dest.new ≡ xor_each sentinel source.now ++ drop (length source.now) dest.old }
{
    let copy = &mut dest[..source.len()];
    if sentinel == 0 {
        copy_slice(copy, source);
    } else {
        xor_slice(copy, source, sentinel);
    }
}

/// XORs each byte with `sentinel`. So a frame with the sentinel 0 becomes a frame with this sentinel, and the other way
/// round. The Rust crate `cobs` has no such call.
///
/// ```
/// let mut frame = *b"\x03hi";
/// xor_bytes(&mut frame, 0xAA);
/// assert_eq!(rt; frame, [0xA9, 0xC2, 0xC3]);
/// ```
pub fn xor_bytes(bytes: &mut [u8], sentinel: u8)
    ensures changed { bytes.new ≡ xor_each sentinel bytes.old }
{
    for byte in bytes.iter_mut() {
        *byte ^= sentinel;
    }
}
