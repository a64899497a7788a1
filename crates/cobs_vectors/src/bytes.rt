//! Constant bytes for tests, and functions that make vectors of bytes.
use std::alloc::{AllocError, Global};

/// Bytes as a list of parts, one after the other.
pub type Parts = &'static [&'static [u8]];

/// The bytes of a full block of ones, without its code.
pub const ONES: [u8; 254] = [1; 254];

/// Two runs of 1,000 ones with a zero between them.
pub const LONG_MESSAGE: Parts = &[&[1; 1000], &[0], &[1; 1000]];

/// The frame of [`LONG_MESSAGE`]: each run is three full blocks and a block with the other 238 ones.
pub const LONG_FRAME: Parts = &[
    &[255],
    &ONES,
    &[255],
    &ONES,
    &[255],
    &ONES,
    &[239],
    &[1; 238],
    &[255],
    &ONES,
    &[255],
    &ONES,
    &[255],
    &ONES,
    &[239],
    &[1; 238],
];

/// Returns the bytes of the lists, one list after the other.
pub fn joined(alloc: Global, lists: &[&[u8]]) -> Result<Vec<u8>, AllocError> {
    let mut whole = Vec::new(alloc);
    for list in lists {
        whole.extend_from_slice(list)?;
    }
    Ok(whole)
}

/// Returns `count` bytes that all equal `byte`.
pub fn repeated(alloc: Global, byte: u8, count: usize) -> Result<Vec<u8>, AllocError> {
    vec![in alloc; byte; count]
}

/// Returns a list of `count` parts. The digits of `number` in the base `parts.len()`, the lowest digit first, choose
/// the parts. So the numbers below `parts.len()` to the power of `count` stand for all lists of `count` parts, one list
/// each.
pub fn chosen(
    alloc: Global,
    parts: &[&[u8]],
    count: usize,
    number: usize,
) -> Result<Vec<u8>, AllocError> {
    let mut list = Vec::new(alloc);
    let mut left = number;
    for _ in 0..count {
        // Without parts, the list stays empty. Subtracting 1 and adding it again shows that `base` isn't 0, as the
        // division requires.
        if let Some(base) = parts.len().checked_sub(1) {
            let base = base.saturating_add(1);
            if let Some(part) = parts.get(left % base) {
                list.extend_from_slice(part)?;
            }
            left /= base;
        }
    }
    Ok(list)
}
