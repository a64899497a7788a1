//! The state machine of a decoder, without a buffer.
ghost use Rattle.std.specs.Prelude.{◌≡◌, ◌≢◌, ◌↔◌, ◌++◌, ◌∷◌, [], List, ℕ, Ok};
ghost use Rattle.cobs.specs.Grammar.{Reads};
ghost use Rattle.cobs.specs.Table.{data_of, opened_by, table_result, table_state, StateAfter};
ghost use Rattle.cobs.specs.declared.dec.state.DecodeResult.TheVariants.{DataComplete};

use crate::error::DecodeError;

/// The state of a decoder between two bytes of a stream.
///
/// The state doesn't hold the output, so a caller can write the decoded bytes to a container of its own.
///
/// ```
/// let mut state = DecoderState::default();
/// assert!(rt; matches!(state.feed(2), Ok(DecodeResult::DataStart)));
/// assert!(rt; matches!(state.feed(7), Ok(DecodeResult::DataContinue(7))));
/// assert!(rt; matches!(state.feed(1), Ok(DecodeResult::DataContinue(0))));
/// assert!(rt; matches!(state.feed(0), Ok(DecodeResult::DataComplete)));
/// ```
#[derive(Debug, Drop)]
pub enum DecoderState {
    /// No nonzero byte has been fed since the last sentinel, or since the start.
    Idle,

    /// Inside a block with a code from 1 to 254. The number says how many bytes of the block are still missing.
    Grab(u8),

    /// Inside a full block, which has the code 255. The number says how many bytes of the block are still missing.
    GrabChain(u8),
}

/// The result for a byte that raised no error.
///
/// ```
/// let mut state = DecoderState::default();
/// assert!(rt; matches!(state.feed(0), Ok(DecodeResult::NoData)));
/// assert!(rt; matches!(state.feed(1), Ok(DecodeResult::DataStart)));
/// assert!(rt; matches!(state.feed(0), Ok(DecodeResult::DataComplete)));
/// ```
#[derive(Debug, Drop)]
pub enum DecodeResult {
    /// The byte that was fed adds no byte to the message.
    NoData,

    /// The byte that was fed is the first code of a frame.
    DataStart,

    /// The byte that was fed ends a whole frame: the output so far is the message of this frame.
    DataComplete,

    /// The message continues with this byte.
    DataContinue(u8),
}

impl Default for DecoderState {
    ghost use Rattle.cobs.specs.declared.dec.state.DecoderState.TheVariants.{Idle};

    // The state that generic code gets from `default`.
    ghost is_default = { λ state. state ≡ Idle };

    /// Returns `Idle`, the state before the first byte of a stream.
    ///
    /// ```
    /// assert!(rt; matches!(DecoderState::default(), DecoderState::Idle));
    /// ```
    fn default() -> Self
        ensures start { result ≡ Idle }
        ensures after_nothing { StateAfter result [] [] }
    {
        DecoderState::Idle
    }
}

impl DecoderState {
    /// Returns the state in which only the code of a block has been fed, and none of the block's other bytes.
    fn opened(code: u8) -> DecoderState
        requires { code ≢ 0 }
        ensures opened { result ≡ opened_by code }
    {
        if code == 255 {
            DecoderState::GrabChain(254)
        } else {
            DecoderState::Grab(code - 1)
        }
    }

    /// Returns the result for `byte` in this state, and the next state.
    fn row(&self, byte: u8) -> (Result<DecodeResult, DecodeError>, DecoderState)
        ensures returned { result.0 ≡ table_result self.now byte }
        ensures state { result.1 ≡ table_state self.now byte }
    {
        match (self, byte) {
            (DecoderState::Idle, 0) => (Ok(DecodeResult::NoData), DecoderState::Idle),
            (DecoderState::Idle, code) => (Ok(DecodeResult::DataStart), DecoderState::opened(code)),
            (DecoderState::Grab(0) | DecoderState::GrabChain(0), 0) => {
                (Ok(DecodeResult::DataComplete), DecoderState::Idle)
            }
            (DecoderState::Grab(0), code) => {
                (
                    Ok(DecodeResult::DataContinue(0)),
                    DecoderState::opened(code),
                )
            }
            (DecoderState::GrabChain(0), code) => {
                (Ok(DecodeResult::NoData), DecoderState::opened(code))
            }
            (_, 0) => {
                (
                    Err(DecodeError::InvalidFrame { decoded_bytes: 0 }),
                    DecoderState::Idle,
                )
            }
            (DecoderState::Grab(left), byte) => {
                (
                    Ok(DecodeResult::DataContinue(byte)),
                    DecoderState::Grab(*left - 1),
                )
            }
            (DecoderState::GrabChain(left), byte) => {
                (
                    Ok(DecodeResult::DataContinue(byte)),
                    DecoderState::GrabChain(*left - 1),
                )
            }
        }
    }

    /// Decodes the next byte of a stream, and returns the result for this byte. The sentinel is the byte 0.
    ///
    /// - For a sentinel, the result is `DataComplete` if no byte of the last block is missing, and `NoData` if no frame
    ///   has begun. After each sentinel the state is `Idle`.
    /// - For the first code of a frame, the result is `DataStart`.
    /// - For a code after a full block, the result is `NoData`. For a code after any other block, the result is
    ///   `DataContinue(0)`, because a zero joins the two blocks.
    /// - For a byte inside a block, the result is `DataContinue` with this byte.
    ///
    /// Every state has a result for every byte, even a state that no frame leads to, such as `Grab(255)`. The rules for
    /// blocks are those of the paper by Cheshire and Baker. The results have the same names as in the Rust crate
    /// `cobs`.
    ///
    /// # Errors
    /// `InvalidFrame` for a sentinel inside a block. The `decoded_bytes` of this error is always 0 here, because the
    /// state doesn't count the output.
    ///
    /// ```
    /// let mut state = DecoderState::GrabChain(1);
    /// assert!(rt; matches!(state.feed(7), Ok(DecodeResult::DataContinue(7))));
    /// assert!(rt; matches!(state.feed(9), Ok(DecodeResult::NoData)));
    /// ```
    pub fn feed(&mut self, byte: u8) -> Result<DecodeResult, DecodeError>
        ensures answer { result ≡ table_result self.old byte }
        ensures state { self.new ≡ table_state self.old byte }

        // The clauses `after` and `message` assume that p, the front of a piece, has been fed before this call. The
        // list `so_far` has the bytes of the message that the results have contained so far.
        ensures after { (p so_far : List ℕ) → StateAfter self.old p so_far → byte ≢ 0
            → StateAfter self.new (p ++ byte ∷ []) (so_far ++ data_of result) }
        ensures message { (p so_far m : List ℕ) → StateAfter self.old p so_far → byte ≡ 0
            → (((result ≡ Ok DataComplete) × (so_far ≡ m)) ↔ Reads p m) }
        ensures idle { byte ≡ 0 → StateAfter self.new [] [] }
    {
        let (returned, next) = self.row(byte);
        *self = next;
        returned
    }
}
