//! A piece of a stream, with its kind and its bytes, before it is shown.

/// The kind of a piece.
#[derive(Debug, PartialEq, Eq, Clone, Copy)]
pub enum Kind {
    /// A frame of a message.
    Message,

    /// A piece that breaks off inside a block.
    Broken,

    /// A piece that decodes to more bytes than the buffer holds.
    TooLong,

    /// A frame whose message doesn't end with the right checksum.
    BadCrc,
}

/// The kind, length and bytes of a piece, as they are shown.
#[derive(Clone, Copy)]
pub struct Sight<'a> {
    /// The kind of the piece.
    pub kind: Kind,

    /// The number of bytes that the piece decodes to. The bytes of a right checksum aren't counted. For a piece that is
    /// too long, the number is `usize::MAX`.
    pub len: usize,

    /// The bytes of a message, without its checksum if the checksum is right. For a broken or too long piece, these are
    /// the decoded bytes that the buffer holds, or no bytes if the decoded bytes aren't shown.
    pub bytes: &'a [u8],
}
