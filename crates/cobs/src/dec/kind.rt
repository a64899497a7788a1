//! Finds out whether some bytes are a frame, and whether the frame is the one that encoders write for its message.
ghost use Rattle.std.specs.Prelude.{◌≡◌, ◌↔◌};
ghost use Rattle.cobs.specs.Grammar.{IsCanonical, IsFrame};

use crate::block::FULL_CODE;
use crate::slices::position_or_len;

/// Says whether some bytes are a frame, and whether the frame is the one that encoders write for its message. The Rust
/// crate `cobs` has no such type.
///
/// ```
/// assert_eq!(rt; frame_kind(&[]), FrameKind::NotAFrame);
/// assert_eq!(rt; frame_kind(&[1]), FrameKind::Canonical);
/// ```
#[derive(Debug, Drop, PartialEq, Eq)]
pub enum FrameKind {
    /// The bytes aren't a frame: there are no bytes, one of the bytes is a zero, or the bytes break off inside a block.
    NotAFrame,

    /// The bytes are a frame, and encoders write this frame for its message.
    Canonical,

    /// The bytes are the longer frame of a message: the frame that encoders write for this message, followed by the
    /// block 01, which has only its code. A message has a longer frame only if the message ends in a run of nonzero
    /// bytes whose length is a positive multiple of 254.
    Longer,
}

/// Returns whether the bytes are a frame, and whether the frame is the one that encoders write for its message.
///
/// `bytes` are the bytes between two sentinels. If a message has two frames, the last two blocks of the longer frame
/// are a full block, which has the code 255, and the block 01. Decoders return the same message for both frames. The
/// function allocates nothing.
///
/// A frame is defined by its blocks, as in Cheshire and Baker's paper. If a message has two frames, the shorter frame
/// is the canonical one. This is a choice of this library: all its `encode` functions write the shorter frame.
///
/// ```
/// assert_eq!(rt; frame_kind(b"\x06hello"), FrameKind::Canonical);
/// assert_eq!(rt; frame_kind(b"\x07hello"), FrameKind::NotAFrame);
///
/// let mut longer = [1; 256];
/// longer[0] = 255;
/// assert_eq!(rt; frame_kind(&longer), FrameKind::Longer);
/// assert_eq!(rt; frame_kind(&longer[..255]), FrameKind::Canonical);
/// ```
pub fn frame_kind(bytes: &[u8]) -> FrameKind
    ensures not_a_frame { (result ≡ FrameKind.NotAFrame) ↔ ¬ IsFrame bytes.now }
    ensures canonical { (result ≡ FrameKind.Canonical) ↔ IsCanonical bytes.now }
    ensures longer { (result ≡ FrameKind.Longer) ↔ (IsFrame bytes.now × ¬ IsCanonical bytes.now) }
{
    if position_or_len(bytes, 0) < bytes.len() {
        return FrameKind::NotAFrame;
    }
    let mut read = 0;
    let mut after_full = false;
    'by_block: while read < bytes.len() {
        let code = bytes[read] as usize;
        let left = bytes.len() - read;
        if left < code {
            return FrameKind::NotAFrame;
        }
        if left == code {
            return if after_full && code == 1 {
                FrameKind::Longer
            } else {
                FrameKind::Canonical
            };
        }
        after_full = code == FULL_CODE;
        read += code;
    }
    // The loop returns at the last block, so this line is reached only if there are no bytes.
    FrameKind::NotAFrame
}
