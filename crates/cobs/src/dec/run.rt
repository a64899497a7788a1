//! The core of the decoder: the step for one byte, and two loops. For few bytes, a loop makes these steps. For more bytes,
//! each step of the other loop decodes a code that adds no byte to the output, or a *span*. A span consists of up to 254
//! bytes of a piece. All bytes of a span are copied, even the codes, and then a zero is written over each code.
//!
//! Each step requires that the output so far fits the buffer, and ensures that the output still fits after the step.
//! The clauses `going` state this.
ghost use Rattle.std.specs.Prelude.{◌≡◌, ◌≢◌, ◌<◌, ◌≤◌, ◌+◌, ◌∷◌, [], IsTrue, false, ℕ, length, slice_index, take, ◌-◌, ◌↔◌, Ok, Err, ◌++◌, drop, List};
ghost use Rattle.cobs.specs.Feed.{Idle, Overlong};
ghost use Rattle.cobs.specs.Fields.Decoders.{phase_of};
ghost use Rattle.cobs.specs.Grammar.{HasNoZero};
ghost use Rattle.cobs.specs.Internal.FeedsQuietly.{FeedsQuietly};
ghost use Rattle.cobs.specs.Internal.Walk.{walked};
ghost use Rattle.cobs.specs.Piece.{kept_output, last_part, missing, output};
ghost use Rattle.cobs.specs.Sentinel.{xor_each};
ghost use Rattle.cobs.specs.Step.{end_result, next_phase};
ghost use Rattle.cobs.specs.declared.error.DecodeError.TheVariants.{InvalidFrame};

use crate::block::{FULL, FULL_BLOCK_BYTES};
use crate::dec::unbuffered::{START, UnbufferedDecoder};
use crate::error::DecodeError;
use crate::slices::{SHORT, copy_xored, position_or_len};

/// Returns the value that `joint` has while a block with this code is open: 0 for a full block, otherwise 1.
#[inline(always)]
pub(crate) fn joint_after(code: u8) -> u8
    ensures full { code ≡ 255 → result ≡ 0 }
    ensures other { code ≢ 255 → result ≡ 1 }
{
    if code == FULL { 0 } else { 1 }
}

/// Writes a zero over each code in `dest`. `dest` contains the bytes of a piece that follow the code `first`. If no
/// code in `dest` follows a full block, `dest` then contains the output of these bytes. (The output has no zero after a
/// full block.) Returns the code of the last block, and how many bytes of this block are missing.
#[inline(always)]
pub(crate) fn write_zeros_at_codes(dest: &mut [u8], first: usize) -> (u8, u8)
    requires byte { first < 256 }
    requires nonzero { HasNoZero (first ∷ dest.old) }
    ensures { (dest.new, result.0, result.1) ≡ walked first (first - 1) dest.old }
{
    let mut code = first;
    // The index of the next code.
    let mut at = first - 1;
    'by_code: while at < dest.len() {
        code = dest[at] as usize;
        dest[at] = 0;
        at += code;
    }
    (code as u8, (at - dest.len()) as u8)
}

/// Returns how many bytes of a piece have to be decoded, and whether the piece is whole. A whole piece is decoded to its
/// end. A broken piece is decoded up to and including the code of its last block, because the kept output doesn't
/// include the other bytes of that block. Each byte of the piece is XORed with the sentinel before it is read.
pub(crate) fn kept_len(bytes: &[u8], sentinel: u8) -> (usize, bool)
    requires nonzero { HasNoZero (xor_each sentinel bytes.now) }
    ensures within { result.0 ≤ length bytes.now }
    ensures kept { let p = xor_each sentinel bytes.now in output (take result.0 p) ≡ kept_output p }
    ensures whole { IsTrue result.1 ↔ (missing (last_part (xor_each sentinel bytes.now)) ≡ 0) }
{
    let mut at = 0;
    'by_block: while at < bytes.len() {
        let code = (bytes[at] ^ sentinel) as usize;
        if bytes.len() - at < code {
            return (at + 1, false);
        }
        at += code;
    }
    (at, true)
}

/// Returns `len`, the message's length, if the frame is whole. Otherwise returns the error for a broken frame.
#[inline(always)]
pub(crate) fn message_len(len: usize, whole: bool) -> Result<usize, DecodeError>
    ensures whole { IsTrue whole → result ≡ Ok len }
    ensures broken { whole ≡ false → result ≡ Err (InvalidFrame len) }
{
    if whole {
        Ok(len)
    } else {
        Err(DecodeError::InvalidFrame { decoded_bytes: len })
    }
}

impl UnbufferedDecoder {
    /// Ends the open piece, if there is one, at a zero, and returns the result for this zero. `len` is the buffer's
    /// length.
    #[inline(always)]
    pub(crate) fn end(&mut self, len: usize) -> Result<Option<usize>, DecodeError>
        ensures returned { result ≡ end_result len (phase_of self.old) }
        ensures idle { phase_of self.new ≡ Idle }
    {
        let ended = *self;
        *self = START;
        if ended.too_long != 0 {
            return Err(DecodeError::TargetBufTooSmall);
        }
        if ended.missing != 0 {
            return Err(DecodeError::InvalidFrame {
                decoded_bytes: ended.written,
            });
        }
        // `written` counts only bytes that fitted the buffer. So it is greater than `len` only if the caller now passes
        // a shorter buffer, or has changed the decoder's numbers.
        if len < ended.written {
            return Err(DecodeError::TargetBufTooSmall);
        }
        // No byte of a block is missing here. If a piece has begun and its last block isn't full, `joint` isn't 0. If a
        // piece has begun and its last block is full, `written` isn't 0, because the bytes of that block were written.
        // So if `joint` and `written` are both 0, no piece has begun.
        if ended.written == 0 && ended.joint == 0 {
            Ok(None)
        } else {
            Ok(Some(ended.written))
        }
    }

    /// Decodes a nonzero byte of a piece into the buffer. Returns false and changes nothing if the buffer has no room for
    /// the output of this byte.
    // `written` is read only once, because otherwise compilers would read it again after each write to the buffer. Each
    // case writes its byte itself: it would be slower to choose the byte first and then to write it in one place.
    #[inline(always)]
    pub(crate) fn take_byte(&mut self, dest: &mut [u8], byte: u8) -> bool
        requires going { self.old.too_long ≡ 0 }
        requires nonzero { byte ≢ 0 }
        ensures fed { IsTrue result
            → FeedsQuietly dest.old (phase_of self.old) (byte ∷ []) dest.new (phase_of self.new) }
        ensures full { result ≡ false → next_phase (length dest.old) (phase_of self.old) byte ≡ Overlong }
        ensures same { result ≡ false → (dest.new ≡ dest.old) × (self.new ≡ self.old) }
        ensures going { self.new.too_long ≡ 0 }
        // In place, the next byte of the frame is at index `read`, and the output must not overtake it.
        ensures behind { (read : ℕ) → self.old.written ≤ read → (self.old.joint ≢ 0 → self.old.written < read)
            → (self.new.written ≤ read + 1) × (self.new.joint ≢ 0 → self.new.written < read + 1) }
    {
        let at = self.written;
        if self.missing != 0 {
            if dest.len() <= at {
                return false;
            }
            dest[at] = byte;
            self.written = at + 1;
            self.missing -= 1;
            return true;
        }
        if self.joint != 0 {
            if dest.len() <= at {
                return false;
            }
            dest[at] = 0;
            self.written = at + 1;
        }
        self.missing = byte - 1;
        self.joint = joint_after(byte);
        true
    }

    /// Decodes `bytes` one by one, up to the first sentinel, as long as `dest` has room for the output. Returns how many
    /// bytes it decoded.
    #[inline(always)]
    pub(crate) fn take_steps(&mut self, dest: &mut [u8], bytes: &[u8], sentinel: u8) -> usize
        requires going { self.old.too_long ≡ 0 }
        ensures within { result ≤ length bytes.now }
        ensures nonzero { HasNoZero (take result (xor_each sentinel bytes.now)) }
        ensures fed { FeedsQuietly dest.old (phase_of self.old)
            (take result (xor_each sentinel bytes.now)) dest.new (phase_of self.new) }
        ensures going { self.new.too_long ≡ 0 }
        ensures stop { let xored = xor_each sentinel bytes.now in
            result < length bytes.now → slice_index xored result ≢ 0
            → next_phase (length dest.new) (phase_of self.new) (slice_index xored result) ≡ Overlong }
    {
        // The loop changes `here`, a copy of the decoder that stays in registers. If the loop changed the decoder
        // itself, compilers would read the fields again after each byte that is written.
        let mut here = UnbufferedDecoder {
            too_long: 0,
            ..*self
        };
        let mut taken = 0;
        'by_byte: while taken < bytes.len() {
            let byte = bytes[taken] ^ sentinel;
            if byte == 0 || !here.take_byte(dest, byte) {
                break;
            }
            taken += 1;
        }
        self.written = here.written;
        self.missing = here.missing;
        self.joint = here.joint;
        taken
    }

    /// Returns whether the next nonzero byte is a code before which the output has no zero: the first code of a piece,
    /// or a code after a full block.
    #[inline(always)]
    pub(crate) fn is_at_code(&self) -> bool
        ensures code { IsTrue result ↔ ((self.now.missing ≡ 0) × (self.now.joint ≡ 0)) }
    {
        self.missing == 0 && self.joint == 0
    }

    /// Decodes the code of a new block, before which the output has no zero.
    #[inline(always)]
    pub(crate) fn take_code(&mut self, code: u8)
        requires going { self.old.too_long ≡ 0 }
        requires whole { self.old.missing ≡ 0 }
        requires joint { self.old.joint ≡ 0 }
        requires nonzero { code ≢ 0 }
        ensures fed { (buffer : List ℕ) → FeedsQuietly buffer (phase_of self.old) (code ∷ []) buffer (phase_of self.new) }
        ensures going { self.new.too_long ≡ 0 }
        ensures written { self.new.written ≡ self.old.written }
    {
        self.joint = joint_after(code);
        self.missing = code - 1;
    }

    /// Returns how many of the next `len` bytes a span may contain. A span ends no later than the first full block that
    /// ends in it.
    #[inline(always)]
    pub(crate) fn span_len(&self, len: usize) -> usize
        ensures within { result ≤ len }
        ensures full { self.now.joint ≡ 0 → result ≤ self.now.missing }
        ensures few { self.now.missing < result → result < 254 }
        ensures some { 0 < len → (self.now.missing ≡ 0 → self.now.joint ≢ 0) → 0 < result }
    {
        let most = if self.joint == 0 {
            self.missing as usize
        } else {
            FULL_BLOCK_BYTES - 1
        };
        len.min(most)
    }

    /// Decodes `len` bytes that the caller has moved to the end of the output, that is, to index `written` of `dest`.
    /// The caller ensures that none of them is a zero, and that no full block ends before the last of them.
    #[inline(always)]
    pub(crate) fn take_moved(&mut self, dest: &mut [u8], len: usize)
        requires going { self.old.too_long ≡ 0 }
        requires few { (0 < len) × (self.old.missing < len → len < 254) }
        requires full { self.old.joint ≡ 0 → len ≤ self.old.missing }
        requires room { self.old.written + len ≤ length dest.old }
        requires nonzero { HasNoZero (take len (drop self.old.written dest.old)) }
        // `xs` are the moved bytes, and `before` is the buffer as it was before the move.
        ensures fed { let at = self.old.written in (before xs : List ℕ) → at + len ≤ length before → length xs ≡ len
            → dest.old ≡ take at before ++ (xs ++ drop (at + len) before)
            → FeedsQuietly before (phase_of self.old) xs dest.new (phase_of self.new) }
        ensures going { self.new.too_long ≡ 0 }
        ensures written { self.new.written ≡ self.old.written + len }
        ensures full { self.old.joint ≡ 0 → self.new.joint ≡ 0 }
    {
        let at = self.written;
        let missing = self.missing as usize;
        self.written = at + len;
        if len <= missing {
            self.missing -= len as u8;
            return;
        }
        // `missing` bytes of the open block are missing, as in a block that has just begun with the code `missing + 1`.
        // So `missing + 1` is passed as the code.
        let (code, left) = write_zeros_at_codes(&mut dest[at..at + len], missing + 1);
        self.joint = joint_after(code);
        self.missing = left;
    }

    /// Decodes bytes from the front of `bytes`, either one code or a span, and returns how many bytes it decoded. The
    /// function returns 0 only if `dest` has no room for the output of the first byte.
    #[inline(always)]
    fn take_part(&mut self, dest: &mut [u8], bytes: &[u8], sentinel: u8) -> usize
        requires going { self.old.too_long ≡ 0 }
        requires some { 0 < length bytes.now }
        requires nonzero { HasNoZero (xor_each sentinel bytes.now) }
        ensures within { result ≤ length bytes.now }
        ensures fed { FeedsQuietly dest.old (phase_of self.old)
            (take result (xor_each sentinel bytes.now)) dest.new (phase_of self.new) }
        ensures going { self.new.too_long ≡ 0 }
        ensures full { result ≡ 0 → next_phase (length dest.new) (phase_of self.new)
            (slice_index (xor_each sentinel bytes.now) 0) ≡ Overlong }
    {
        if self.is_at_code() {
            self.take_code(bytes[0] ^ sentinel);
            return 1;
        }
        let at = self.written;
        let len = self.span_len(bytes.len().min(dest.len().saturating_sub(at)));
        if len == 0 {
            return 0;
        }
        copy_xored(&bytes[..len], &mut dest[at..], sentinel);
        self.take_moved(dest, len);
        len
    }

    /// Decodes `bytes` as long as `dest` has room for the output, and returns how many bytes it decoded. The caller
    /// ensures that none of the bytes is the sentinel.
    #[inline(always)]
    pub(crate) fn take_blocks(&mut self, dest: &mut [u8], bytes: &[u8], sentinel: u8) -> usize
        requires going { self.old.too_long ≡ 0 }
        requires nonzero { HasNoZero (xor_each sentinel bytes.now) }
        ensures within { result ≤ length bytes.now }
        ensures fed { FeedsQuietly dest.old (phase_of self.old)
            (take result (xor_each sentinel bytes.now)) dest.new (phase_of self.new) }
        ensures going { self.new.too_long ≡ 0 }
        ensures stop { result < length bytes.now → next_phase (length dest.new) (phase_of self.new)
            (slice_index (xor_each sentinel bytes.now) result) ≡ Overlong }
    {
        if bytes.len() <= SHORT {
            return self.take_steps(dest, bytes, sentinel);
        }
        // The loop changes `here`, a copy of the decoder that stays in registers. `too_long` is 0 before and after the
        // loop, so this field isn't copied.
        let mut here = UnbufferedDecoder {
            too_long: 0,
            ..*self
        };
        let mut taken = 0;
        'by_step: while taken < bytes.len() {
            let step = here.take_part(dest, &bytes[taken..], sentinel);
            taken += step;
            if step == 0 {
                break;
            }
        }
        self.written = here.written;
        self.missing = here.missing;
        self.joint = here.joint;
        taken
    }

    /// Decodes `bytes` up to the first sentinel, as long as `dest` has room for the output. Returns how many bytes it
    /// decoded. If the piece is already too long for the buffer, the function decodes nothing.
    #[inline(always)]
    pub(crate) fn take_run(&mut self, dest: &mut [u8], bytes: &[u8], sentinel: u8) -> usize
        ensures within { result ≤ length bytes.now }
        ensures nonzero { HasNoZero (take result (xor_each sentinel bytes.now)) }
        ensures fed { FeedsQuietly dest.old (phase_of self.old)
            (take result (xor_each sentinel bytes.now)) dest.new (phase_of self.new) }
        ensures stop { let xored = xor_each sentinel bytes.now in
            result < length bytes.now → slice_index xored result ≢ 0
            → next_phase (length dest.new) (phase_of self.new) (slice_index xored result) ≡ Overlong }
    {
        // If the piece is too long, `feed` returns an error for each of the next bytes of the piece, and `push` must
        // stop at the first of these bytes. So no byte is decoded here.
        if self.too_long != 0 {
            return 0;
        }
        if bytes.len() <= SHORT {
            return self.take_steps(dest, bytes, sentinel);
        }
        let end = position_or_len(bytes, sentinel);
        self.take_blocks(dest, &bytes[..end], sentinel)
    }
}
