//! An encoder that writes to a slice, for a message that comes in chunks.
ghost use Rattle.std.specs.Prelude.{length};
ghost use Rattle.cobs.specs.OpenBlock.{IsPlaceIn};
ghost use Rattle.cobs.specs.Fields.Progress.{reached_by};

use crate::enc::UnbufferedEncoder;
use crate::error::DestBufTooSmallError;

/// Encodes a message that comes in chunks, and writes the frame to a slice that the encoder borrows.
///
/// The frame is the one that [`encode`](crate::encode) writes, however the message is cut into chunks. After each push
/// the slice begins with the frame of all bytes pushed so far, except for the code of the open block;
/// [`finalize`](CobsEncoder::finalize) writes this code. The slice needn't be longer than the frame.
///
/// The frame consists of blocks, as in the paper by Cheshire and Baker. The calls are those of the Rust crate `cobs`.
///
/// ```
/// let mut dest = [170; 7];
/// let mut encoder = CobsEncoder::new(&mut dest);
/// encoder.push(b"hel")?;
/// encoder.push(b"lo")?;
/// assert_eq!(rt; encoder.finalize(), 6);
/// assert_eq!(rt; &dest, b"\x06hello\xaa");
/// ```
#[derive(Debug, Drop)]
pub struct CobsEncoder<'a> {
    dest: &'a mut [u8],
    encoder: UnbufferedEncoder,

    /// The code of the open block is from 1 to 254, and the encoded frame so far ends within the slice.
    ghost place: { IsPlaceIn (length dest.now) (reached_by encoder) },
}

impl<'a> CobsEncoder<'a> {
    ghost use Rattle.std.specs.Prelude.{◌≡◌, ◌<◌, ◌≤◌, ◌++◌, ◌↔◌, [], ℕ, List, length, take, drop, IsOk, OnOk, OnErr};
    ghost use Rattle.cobs.specs.Grammar.{HasNoZero, IsEncodedFrame};
    ghost use Rattle.cobs.specs.Length.{encoded_len};
    ghost use Rattle.cobs.specs.Fields.Encoders.{slice_of, HasTaken, WritesTo, IsOverSameSlice, IsUnchanged};

    /// Makes an encoder for a new message. The encoder will write to the front of `out_buf`, but this call changes no
    /// byte of `out_buf`.
    ///
    /// Precondition: the slice has at least one byte, because the frame of the empty message has one byte.
    ///
    /// ```
    /// let mut dest = [170; 1];
    /// assert_eq!(rt; CobsEncoder::new(&mut dest).finalize(), 1);
    /// assert_eq!(rt; dest, [1]);
    /// ```
    pub fn new(out_buf: &'a mut [u8]) -> CobsEncoder<'a>
        requires { 0 < length out_buf.old }
        ensures same_slice { WritesTo result out_buf.entry }
        ensures unchanged { slice_of result ≡ out_buf.old }
        ensures taken { HasTaken result [] }
    {
        CobsEncoder {
            dest: out_buf,
            encoder: UnbufferedEncoder::new(),
        }
    }

    /// Encodes the next bytes of the message.
    ///
    /// An empty push always succeeds, and changes nothing. A push writes only within the frame of all bytes pushed so
    /// far, including `bytes`. The bytes of the slice after this frame stay unchanged.
    ///
    /// # Errors
    /// Returns `DestBufTooSmallError` if and only if the encoded frame of all bytes pushed so far, including `bytes`,
    /// is longer than the slice. Then neither the encoder nor the slice has changed, so the caller may end the message,
    /// or push fewer bytes. The Rust crate `cobs` doesn't guarantee this.
    ///
    /// ```
    /// let mut dest = [170; 4];
    /// let mut encoder = CobsEncoder::new(&mut dest);
    /// encoder.push(&[1, 2])?;
    /// assert_eq!(rt; encoder.push(&[3, 4]), Err(DestBufTooSmallError));
    /// assert_eq!(rt; encoder.push(&[3]), Ok(()));
    /// assert_eq!(rt; encoder.finalize(), 4);
    /// assert_eq!(rt; dest, [4, 1, 2, 3]);
    /// ```
    #[tactic(auto, using(crate::proofs::encoding::TakingLemmas::encoder_steps))]
    pub fn push(&mut self, bytes: &[u8]) -> Result<(), DestBufTooSmallError>
        ensures same_slice { IsOverSameSlice self.old self.new }
        ensures len { length (slice_of self.new) ≡ length (slice_of self.old) }
        ensures fits { (m : List ℕ) → HasTaken self.old m
            → (IsOk result ↔ (encoded_len (m ++ bytes.now) ≤ length (slice_of self.old))) }
        ensures taken { OnOk result ((m : List ℕ) → HasTaken self.old m → HasTaken self.new (m ++ bytes.now)) }
        ensures rest { OnOk result ((m : List ℕ) → HasTaken self.old m
            → (let end = encoded_len (m ++ bytes.now)
            in drop end (slice_of self.new) ≡ drop end (slice_of self.old))) }
        ensures refused { OnErr result (IsUnchanged self.old self.new) }
        ensures empty { bytes.now ≡ [] → IsOk result × IsUnchanged self.old self.new }
    {
        self.encoder.push(self.dest, bytes)
    }

    /// Ends the message, and returns the length of its encoded frame in bytes. The slice then begins with that frame.
    /// Every byte after the frame has the value that it had before [`new`](CobsEncoder::new) was called.
    ///
    /// ```
    /// let mut dest = [170; 3];
    /// let mut encoder = CobsEncoder::new(&mut dest);
    /// encoder.push(&[0])?;
    /// assert_eq!(rt; encoder.finalize(), 2);
    /// assert_eq!(rt; dest, [1, 1, 170]);
    /// ```
    pub fn finalize(self) -> usize
        // The slice is the encoder's first field. So `self.exit.0.now` is the content of the slice when the call
        // returns.
        ensures len { (m : List ℕ) → HasTaken self.entry m → result ≡ encoded_len m }
        ensures frame { (m : List ℕ) → HasTaken self.entry m → IsEncodedFrame (take result self.exit.0.now) m }
        ensures no_sentinel { (m : List ℕ) → HasTaken self.entry m → HasNoZero (take result self.exit.0.now) }
        ensures rest { drop result self.exit.0.now ≡ drop result (slice_of self.entry) }
    {
        let CobsEncoder { dest, encoder } = self;
        encoder.close(dest)
    }
}
