//! The state machine of an encoder, without a buffer.
ghost use Rattle.std.specs.Prelude.{◌≡◌, ◌<◌, ◌+◌, ◌↔◌, ◌∷◌, ◌++◌, [], ℕ, List, IsTrue, slice_set};
ghost use Rattle.cobs.specs.Grammar.{IsOpenFrame};
ghost use Rattle.cobs.specs.OpenBlock.{EncoderAfter, IsOpenOutput, push_result, next_open, applied};

use std::alloc::AllocError;
use std::marker::Model;

/// The change that a byte of the message makes to the encoded output. Indices count bytes from the start of the output.
/// The variants have the same names as in the Rust crate `cobs`.
///
/// ```
/// let mut state = EncoderState::default();
/// assert!(rt; matches!(state.push(7), PushResult::AddSingle(7)));
/// assert!(rt; matches!(state.push(0), PushResult::ModifyFromStartAndSkip((0, 2))));
/// ```
#[derive(Drop)]
pub enum PushResult {
    /// This byte of the message is appended to the output.
    AddSingle(u8),

    /// The first number is an index in the output, and the second number is a code. The code replaces the output's byte
    /// at that index. Then a placeholder, which may have any value, is appended to the output.
    ModifyFromStartAndSkip((usize, u8)),

    /// The first number is an index in the output, the second number is a code, and the third number is a byte of the
    /// message. The code replaces the output's byte at that index. Then two bytes are appended to the output: the byte
    /// of the message, and a placeholder, which may have any value.
    ModifyFromStartAndPushAndSkip((usize, u8, u8)),
}

/// An encoder's state: the index at which the open block of the output begins, and the code that the block has so far,
/// from 1 to 254.
///
/// The state doesn't hold the output, so a caller can write the encoded bytes to a container of its own. At first the
/// caller's output is one placeholder, a byte of any value. For each byte of the message, [`push`](EncoderState::push)
/// returns the change that the caller makes to the output. At the end [`finalize`](EncoderState::finalize) returns the
/// last change. After all changes the output is a frame of the message, and the last block of this frame isn't full.
/// [`encode`](crate::encode) writes the same frame, unless the message ends in a run of nonzero bytes whose length is a
/// positive multiple of 254. In that case the message has two frames, and the output is the longer one: the frame that
/// `encode` writes, followed by the byte `1`.
///
/// ```
/// let mut output = [0; 3];
/// let mut state = EncoderState::default();
/// if let PushResult::AddSingle(byte) = state.push(7) {
///     output[1] = byte;
/// }
/// if let PushResult::ModifyFromStartAndSkip((0, code)) = state.push(0) {
///     output[0] = code;
/// }
/// assert_eq!(rt; state.finalize(), (2, 1));
/// output[2] = 1;
/// assert_eq!(rt; output, [2, 7, 1]);
/// ```
#[derive(Debug, Drop)]
pub struct EncoderState {
    code_index: usize,
    code: u8,
}

impl Model for EncoderState {
    ghost use Rattle.std.specs.Prelude.{◌<◌};
    ghost use Rattle.cobs.specs.OpenBlock.{OpenBlock};

    // In contracts, an `EncoderState` is an `OpenBlock`: a record of the open block's index and code. The code is from
    // 1 to 254.
    ghost Value = { OpenBlock };

    ghost view = { λ s. record { index = s.code_index; code = s.code } };

    ghost invariant = { λ s. (0 < s.code) × (s.code < 255) };
}

impl Default for EncoderState {
    // The state that generic code gets from `default`.
    ghost is_default = { λ state. state ≡ record { index = 0; code = 1 } };

    /// Makes the state that an encoder has before the first byte of a message. The open block consists of only the
    /// placeholder at index 0.
    ///
    /// ```
    /// let state = EncoderState::default();
    /// assert_eq!(rt; state.finalize(), (0, 1));
    /// ```
    fn default() -> Self
        ensures start { result ≡ record { index = 0; code = 1 } }
        ensures after_nothing { EncoderAfter result [] }
        ensures output { (placeholder : ℕ) → IsOpenOutput (placeholder ∷ []) result [] }
    {
        EncoderState {
            code_index: 0,
            code: 1,
        }
    }
}

impl Clone for EncoderState {
    ghost use Rattle.std.specs.Prelude.{◌≡◌, Ok, ⊤};

    // Generic code can rely on two facts: a clone equals the state, and `clone` never fails.
    ghost is_clone = { λ state copy. copy ≡ state };

    ghost is_infallible = { λ _. ⊤ };

    /// Returns a copy of the state. This call doesn't allocate, so the result is always `Ok`.
    ///
    /// ```
    /// let mut state = EncoderState::default();
    /// let copy = state.clone()?;
    /// let _returned = state.push(7);
    /// assert_eq!(rt; state.finalize(), (0, 2));
    /// assert_eq!(rt; copy.finalize(), (0, 1));
    /// ```
    fn clone(&self) -> Result<EncoderState, AllocError>
        ensures equal { result ≡ Ok self.now }
    {
        Ok(EncoderState {
            code_index: self.code_index,
            code: self.code,
        })
    }
}

impl EncoderState {
    /// Returns whether another byte can be pushed, whatever its value is. It can be pushed if the index after this
    /// byte, at which a block may begin, fits a `usize`. The Rust crate `cobs` has no such call.
    ///
    /// ```
    /// assert!(rt; EncoderState::default().can_push());
    /// ```
    pub fn can_push(&self) -> bool
        ensures room { IsTrue result ↔ (self.now.index + self.now.code < usize.MAX) }
    {
        self.code_index < usize::MAX - self.code as usize
    }

    /// Encodes the next byte of the message, and returns the change that this byte makes to the output.
    ///
    /// Precondition: [`can_push`](EncoderState::can_push) returns true. Indices count bytes from the start of the
    /// output.
    ///
    /// ```
    /// let mut state = EncoderState::default();
    /// assert!(rt; matches!(state.push(0), PushResult::ModifyFromStartAndSkip((0, 1))));
    /// assert!(rt; matches!(state.push(9), PushResult::AddSingle(9)));
    /// ```
    pub fn push(&mut self, byte: u8) -> PushResult
        requires { self.old.index + self.old.code < usize.MAX }
        ensures answer { result ≡ push_result self.old byte }
        ensures open { self.new ≡ next_open self.old byte }
        ensures after { (m : List ℕ) → EncoderAfter self.old m → EncoderAfter self.new (m ++ byte ∷ []) }
        ensures carried { (m g : List ℕ) (placeholder : ℕ) → IsOpenOutput g self.old m
            → IsOpenOutput (applied g result placeholder) self.new (m ++ byte ∷ []) }
    {
        let index = self.code_index;
        if byte != 0 {
            self.code += 1;
            if self.code == 255 {
                let code = full_code();
                self.code_index = index + 255;
                self.code = 1;
                return PushResult::ModifyFromStartAndPushAndSkip((index, code, byte));
            }
            return PushResult::AddSingle(byte);
        }
        let code = self.code;
        self.code_index = index + code as usize;
        self.code = 1;
        PushResult::ModifyFromStartAndSkip((index, code))
    }

    /// Ends the message. Returns the index of the last placeholder in the output, and the code that replaces this
    /// placeholder.
    ///
    /// ```
    /// assert_eq!(rt; EncoderState::default().finalize(), (0, 1));
    /// ```
    pub fn finalize(self) -> (usize, u8)
        ensures index { result.0 ≡ self.index }
        ensures code { result.1 ≡ self.code }
        ensures completed { (m g : List ℕ) → IsOpenOutput g self m
            → IsOpenFrame (slice_set g result.0 result.1) m result.0 result.1 }
    {
        (self.code_index, self.code)
    }
}

/// Returns the code of a full block.
// The function is marked cold, because compilers assume that a branch to a cold function is rarely taken. Without this
// mark, compilers compute the results of all three cases, and then choose one of them without a branch. That is slower.
#[cold]
#[inline(never)]
fn full_code() -> u8
    ensures { result ≡ 255 }
{
    255
}
