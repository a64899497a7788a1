//! A plain implementation of the format. Tests compare the library with it.
use std::alloc::{AllocError, Global};

/// Returns the encoded frame of a message. Each run of nonzero bytes is cut into blocks, each with up to 254 of these
/// bytes. A block with fewer bytes ends the run, and implies the zero after it. No zero follows the last run, so the
/// frame may end with a full block.
pub fn frame_of(alloc: Global, message: &[u8]) -> Result<Vec<u8>, AllocError> {
    let mut frame = Vec::new(alloc);
    let mut block = Vec::new(alloc);
    let mut closed_full = false;
    for byte in message {
        closed_full = false;
        if *byte != 0 {
            block.push(*byte)?;
        }
        if *byte == 0 || block.len() == 254 {
            closed_full = *byte != 0;
            append_block(&mut frame, &block)?;
            block.clear();
        }
    }
    if !closed_full {
        append_block(&mut frame, &block)?;
    }
    Ok(frame)
}

/// Appends a block: its code, which is the number of these bytes plus 1, and then the bytes.
fn append_block(frame: &mut Vec<u8>, block: &[u8]) -> Result<(), AllocError> {
    // The code is written last, over this byte.
    frame.push(1)?;
    for byte in block {
        frame.push(*byte)?;
    }
    let at = frame.len().saturating_sub(block.len()).saturating_sub(1);
    if let Some(code) = frame.get_mut(at) {
        *code = u8::try_from(block.len()).unwrap_or(0).saturating_add(1);
    }
    Ok(())
}

/// The bytes to which a list of nonzero bytes decodes.
#[derive(Drop)]
pub struct Reading {
    /// The bytes of the list's blocks, with the zeros that join the blocks.
    pub output: Vec<u8>,

    /// The number of bytes of the output that are kept: all bytes or, if the last block breaks off, only the bytes
    /// before those of the last block.
    pub kept: usize,

    /// Whether the last block has as many bytes as its code says.
    pub is_whole: bool,
}

/// Decodes the blocks of the list, one after another.
pub fn reading_of(alloc: Global, piece: &[u8]) -> Result<Reading, AllocError> {
    let mut output = Vec::new(alloc);
    let mut kept = 0;
    let mut is_whole = false;
    let mut joint = false;
    let mut rest = piece;
    // Each block has at least one byte, so the list has at most as many blocks as bytes.
    for _ in piece {
        let Some((code, behind)) = rest.split_first() else {
            break;
        };
        if joint {
            output.push(0)?;
        }
        kept = output.len();
        let wanted = usize::from(*code).saturating_sub(1);
        let (bytes, next) = behind.split_at(wanted.min(behind.len()));
        output.extend_from_slice(bytes)?;
        is_whole = bytes.len() == wanted;
        joint = *code != 255;
        rest = next;
    }
    if is_whole {
        kept = output.len();
    }
    Ok(Reading {
        output,
        kept,
        is_whole,
    })
}

/// Returns the bytes before the first zero, and the bytes after this zero. If there is no zero, returns all bytes, and
/// `None`.
pub fn split_at_zero(bytes: &[u8]) -> (&[u8], Option<&[u8]>) {
    for (at, byte) in bytes.iter().enumerate() {
        if *byte == 0 {
            let (head, tail) = bytes.split_at(at);
            return (head, tail.get(1..));
        }
    }
    (bytes, None)
}
