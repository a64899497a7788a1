//! Lists of messages, and their frames one after the other.
//!
//! `rt` is the runtime: an assertion that fails aborts the test through it.
use cobs::{encode_frames, max_encoding_length};
use std::alloc::{AllocError, Global};
use std::process::Abort;

/// Returns three messages: the empty message, a message of one zero, and a message of two bytes.
pub fn three_messages(alloc: Global) -> Result<Vec<Vec<u8>>, AllocError> {
    let mut messages = Vec::new(alloc);
    messages.push(Vec::new(alloc))?;
    messages.push([0].to_vec(alloc)?)?;
    messages.push([1, 2].to_vec(alloc)?)?;
    Ok(messages)
}

/// Encodes messages with `encode_frames`. Its precondition limits the total length of the frames, so the messages must
/// be few and short.
pub fn encode_few(
    rt: &impl Abort,
    alloc: Global,
    messages: &[Vec<u8>],
) -> Result<Vec<u8>, AllocError> {
    let mut room = 0usize;
    'by_message: for message in messages {
        assert!(rt; message.len() < 10_000 && room < 1_000_000);
        room += max_encoding_length(message.len()) + 1;
    }
    assert!(rt; room < 2_000_000);
    encode_frames(alloc, messages)
}
