//! An encoder for a message that comes in chunks. The caller passes the encoder's buffer to each call.
ghost use Rattle.std.specs.Prelude.{◌≡◌, ◌<◌, ◌≤◌, ◌++◌, ◌↔◌, [], ◌∷◌, ℕ, List, length, take, drop, IsOk, IfOk, OnOk, OnErr, false};
ghost use Rattle.cobs.specs.Grammar.{HasNoZero, IsEncodedFrame};
ghost use Rattle.cobs.specs.Length.{encoded_len};
ghost use Rattle.cobs.specs.OpenBlock.{CobsEncoderAfter, HasRoomFor, IsPlaceIn, end_of};
ghost use Rattle.cobs.specs.Fields.Progress.{reached_by};

use crate::error::DestBufTooSmallError;

/// Encodes a message that comes in chunks, straight into a buffer that the caller passes to each call.
///
/// This encoder writes the frame that [`CobsEncoder`](crate::CobsEncoder) writes, but it neither owns nor borrows the
/// buffer. So a struct can contain both an encoder and its buffer. The encoder consists of three numbers, so it can be
/// passed to code in another language. The numbers say how much of the frame is in the buffer. At the start of a
/// message all three numbers are 0.
///
/// From the first push to the end of the message, the caller must pass the same buffer to each call, and must not
/// change the buffer between two calls. If the caller passes another buffer, of any length, or sets the three numbers
/// to any values, each call is still safe: no call panics, and no call returns a length greater than the buffer's
/// length. But the content of the buffer is then unspecified.
///
/// ```
/// let mut encoder = UnbufferedEncoder::new();
/// let mut buffer = [0; 64];
/// encoder.push(&mut buffer, b"hel")?;
/// encoder.push(&mut buffer, b"lo")?;
/// assert_eq!(rt; (encoder.index, encoder.taken, encoder.full), (0, 5, 0));
/// assert_eq!(rt; encoder.finalize(&mut buffer), Ok(6));
/// assert!(rt; buffer.starts_with(b"\x06hello"));
/// ```
#[repr(C)]
#[derive(Debug, Clone, Copy, PartialEq, Eq)]
pub struct UnbufferedEncoder {
    /// The index in the buffer at which the code of the open block belongs.
    pub index: usize,

    /// How many bytes the open block has after its code, at most 253.
    pub taken: u8,

    /// Not 0 if the frame so far ends with a full block, and otherwise 0. If `full` isn't 0, the open block has no
    /// bytes yet, and `index` is the index after the full block.
    pub full: u8,
}

impl UnbufferedEncoder {
    /// Makes an encoder for a new message. The buffer that you pass to the encoder must have at least one byte, because
    /// the frame of the empty message has one byte.
    ///
    /// ```
    /// let mut buffer = [170; 2];
    /// assert_eq!(rt; UnbufferedEncoder::new().finalize(&mut buffer), Ok(1));
    /// assert_eq!(rt; buffer, [1, 170]);
    /// ```
    pub fn new() -> Self
        ensures start { reached_by result ≡ record { block = record { index = 0; code = 1 }; full = false } }
        ensures taken { (buffer : List ℕ) → 0 < length buffer → CobsEncoderAfter buffer (reached_by result) [] }
    {
        UnbufferedEncoder {
            index: 0,
            taken: 0,
            full: 0,
        }
    }

    /// Makes the encoder ready for a new message. The encoder is then in the state that [`new`](UnbufferedEncoder::new)
    /// returns.
    ///
    /// ```
    /// let mut buffer = [170; 2];
    /// let mut encoder = UnbufferedEncoder::new();
    /// encoder.push(&mut buffer, &[7])?;
    /// encoder.reset();
    /// assert_eq!(rt; encoder.finalize(&mut buffer), Ok(1));
    /// assert_eq!(rt; buffer, [1, 7]);
    /// ```
    pub fn reset(&mut self)
        ensures start { reached_by self.new ≡ record { block = record { index = 0; code = 1 }; full = false } }
        ensures taken { (buffer : List ℕ) → 0 < length buffer → CobsEncoderAfter buffer (reached_by self.new) [] }
    {
        *self = UnbufferedEncoder::new();
    }

    /// Encodes the next bytes of the message, with `dest` as the buffer.
    ///
    /// An empty push changes nothing. The bytes of the buffer after the frame are never written.
    ///
    /// # Errors
    /// Returns `DestBufTooSmallError` in exactly these two cases:
    ///
    /// - The encoded frame of all bytes pushed so far, including `bytes`, is longer than the buffer.
    /// - The encoder's state isn't possible in a buffer of this length.
    ///
    /// In both cases, neither the encoder nor the buffer has changed. In the first case, the caller may end the
    /// message, or push fewer bytes.
    ///
    /// ```
    /// let mut buffer = [170; 3];
    /// let mut encoder = UnbufferedEncoder::new();
    /// let rejected = encoder.push(&mut buffer, &[7, 8, 9]);
    /// assert_eq!(rt; rejected, Err(DestBufTooSmallError));
    /// assert_eq!(rt; encoder.push(&mut buffer, &[7, 8]), Ok(()));
    /// assert_eq!(rt; encoder.finalize(&mut buffer), Ok(3));
    /// assert_eq!(rt; buffer, [3, 7, 8]);
    /// ```
    // This function is inlined, so that a loop of short pushes keeps the encoder in registers.
    #[inline(always)]
    #[tactic(auto, using(crate::proofs::encoding::TakingLemmas::encoder_steps))]
    pub fn push(&mut self, dest: &mut [u8], bytes: &[u8]) -> Result<(), DestBufTooSmallError>
        ensures room { IsOk result ↔ HasRoomFor (length dest.old) (reached_by self.old) bytes.now }
        ensures fits { (m : List ℕ) → CobsEncoderAfter dest.old (reached_by self.old) m
            → (IsOk result ↔ (encoded_len (m ++ bytes.now) ≤ length dest.old)) }
        ensures taken { OnOk result ((m : List ℕ)
            → CobsEncoderAfter dest.old (reached_by self.old) m
            → CobsEncoderAfter dest.new (reached_by self.new) (m ++ bytes.now)) }
        ensures rest { OnOk result (let end = end_of (reached_by self.new) in drop end dest.new ≡ drop end dest.old) }
        ensures within { OnOk result (IsPlaceIn (length dest.new) (reached_by self.new)) }
        ensures len { length dest.new ≡ length dest.old }
        ensures refused { OnErr result ((dest.new ≡ dest.old) × (self.new ≡ self.old)) }
        ensures empty { bytes.now ≡ [] → (dest.new ≡ dest.old) × (self.new ≡ self.old) }
    {
        if !self.has_room(bytes, dest.len()) {
            return Err(DestBufTooSmallError);
        }
        if !bytes.is_empty() {
            self.append(dest, bytes);
        }
        Ok(())
    }

    /// Ends the message, and returns the length of its encoded frame in bytes. The buffer then begins with that frame,
    /// and the encoder is ready for the next message. Every byte after the frame is as it was before this call.
    ///
    /// # Errors
    /// Returns `DestBufTooSmallError` if the encoder's state isn't possible in a buffer of this length. Then neither
    /// the encoder nor the buffer has changed.
    ///
    /// ```
    /// let rejected = UnbufferedEncoder::new().finalize(&mut []);
    /// assert_eq!(rt; rejected, Err(DestBufTooSmallError));
    /// ```
    pub fn finalize(&mut self, dest: &mut [u8]) -> Result<usize, DestBufTooSmallError>
        ensures place { IsOk result ↔ IsPlaceIn (length dest.old) (reached_by self.old) }
        ensures fits { (m : List ℕ) → CobsEncoderAfter dest.old (reached_by self.old) m → IsOk result }
        ensures len { IfOk result (λ n. (m : List ℕ)
            → CobsEncoderAfter dest.old (reached_by self.old) m
            → n ≡ encoded_len m) }
        ensures frame { IfOk result (λ n. (m : List ℕ)
            → CobsEncoderAfter dest.old (reached_by self.old) m
            → IsEncodedFrame (take n dest.new) m) }
        ensures no_sentinel { IfOk result
            (λ n. (m : List ℕ) → CobsEncoderAfter dest.old (reached_by self.old) m
            → HasNoZero (take n dest.new)) }
        ensures end { IfOk result (λ n. n ≡ end_of (reached_by self.old)) }
        ensures within { IfOk result (λ n. n ≤ length dest.old) }
        ensures rest { IfOk result (λ n. drop n dest.new ≡ drop n dest.old) }
        ensures buffer_len { length dest.new ≡ length dest.old }
        ensures start { OnOk result (reached_by self.new
            ≡ record { block = record { index = 0; code = 1 }; full = false }) }
        ensures taken { OnOk result ((buffer : List ℕ) → 0 < length buffer
            → CobsEncoderAfter buffer (reached_by self.new) []) }
        ensures refused { OnErr result ((dest.new ≡ dest.old) × (self.new ≡ self.old)) }
    {
        if !self.has_room(&[], dest.len()) {
            return Err(DestBufTooSmallError);
        }
        let len = self.close(dest);
        self.reset();
        Ok(len)
    }

    /// Encodes the next byte of the message, with `dest` as the buffer.
    ///
    /// The effect and the result are those of a [`push`](UnbufferedEncoder::push) of this one byte.
    ///
    /// # Errors
    /// Returns `DestBufTooSmallError` if the encoded frame of the message up to and including this byte is longer than
    /// the buffer, or if the encoder's state isn't possible in a buffer of this length. In both cases, neither the
    /// encoder nor the buffer has changed.
    ///
    /// ```
    /// let mut buffer = [170; 2];
    /// let mut encoder = UnbufferedEncoder::new();
    /// assert_eq!(rt; encoder.feed(&mut buffer, 7), Ok(()));
    /// assert_eq!(rt; encoder.feed(&mut buffer, 8), Err(DestBufTooSmallError));
    /// assert_eq!(rt; encoder.finalize(&mut buffer), Ok(2));
    /// assert_eq!(rt; buffer, [2, 7]);
    /// ```
    #[inline(always)]
    #[tactic(auto, using(crate::proofs::encoding::TakingLemmas::encoder_steps))]
    pub fn feed(&mut self, dest: &mut [u8], byte: u8) -> Result<(), DestBufTooSmallError>
        ensures room { IsOk result ↔ HasRoomFor (length dest.old) (reached_by self.old) (byte ∷ []) }
        ensures fits { (m : List ℕ) → CobsEncoderAfter dest.old (reached_by self.old) m
            → (IsOk result ↔ (encoded_len (m ++ byte ∷ []) ≤ length dest.old)) }
        ensures taken { OnOk result ((m : List ℕ)
            → CobsEncoderAfter dest.old (reached_by self.old) m
            → CobsEncoderAfter dest.new (reached_by self.new) (m ++ byte ∷ [])) }
        ensures rest { OnOk result (let end = end_of (reached_by self.new) in drop end dest.new ≡ drop end dest.old) }
        ensures within { OnOk result (IsPlaceIn (length dest.new) (reached_by self.new)) }
        ensures len { length dest.new ≡ length dest.old }
        ensures refused { OnErr result ((dest.new ≡ dest.old) × (self.new ≡ self.old)) }
    {
        if !self.has_room(&[byte], dest.len()) {
            return Err(DestBufTooSmallError);
        }
        self.append_byte(dest, byte);
        Ok(())
    }
}
