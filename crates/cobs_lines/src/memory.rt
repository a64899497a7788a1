//! A source that reads a stream from memory.
use cobs::FrameSource;
use std::io::Read;

/// The bytes of a stream that is in memory. A read returns the next 64 bytes, or all remaining bytes if there are fewer
/// than 64. A read never fails.
#[derive(Drop)]
pub struct InMemory<'a> {
    /// The bytes that haven't been read yet.
    left: &'a [u8],
}

impl<'a> InMemory<'a> {
    ghost use Rattle.std.specs.Prelude.{◌≡◌};
    ghost use Rattle.cobs_lines.specs.Memory.{bytes_left};

    /// Makes a source of these bytes.
    pub fn new(bytes: &'a [u8]) -> Self
        ensures bytes { bytes_left result ≡ bytes.now }
    {
        InMemory { left: bytes }
    }
}

impl FrameSource for InMemory<'_> {
    ghost use Rattle.cobs_lines.specs.Memory.{TakesChunk, bytes_left};

    ghost step = { λ from read to. TakesChunk (bytes_left from) read (bytes_left to) };

    fn read_some(&mut self, chunk: &mut [u8; 64]) -> Option<usize> {
        self.left.read(chunk).ok()
    }
}
