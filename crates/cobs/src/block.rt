//! Constants for blocks, shared by the encoders and the decoders.

/// The code of a full block, which is also the number of bytes in the block, including the code.
pub(crate) const FULL_CODE: usize = 255;

/// The code of a full block, as a byte.
pub(crate) const FULL: u8 = FULL_CODE as u8;

/// The number of bytes that a full block has after its code.
pub(crate) const FULL_BLOCK_BYTES: usize = FULL_CODE - 1;
