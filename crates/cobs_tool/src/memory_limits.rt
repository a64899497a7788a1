//! Tests each mode with too little memory.
//!
//! A *growth* is an allocation of memory. Each test here except the last one accepts two outcomes: the mode writes its
//! whole output, or it returns `OutOfMemory` and writes nothing. So these tests pass no matter which growth fails. The
//! last test passes only if each mode writes its whole output. `tests/fail-alloc.sh` makes one growth fail in each run:
//! the first growth in the first run, the second growth in the second run, and so on, until the last test has passed in
//! three runs.
//!
//! `rt` is the runtime. An assertion that fails aborts the test through `rt`.
use crate::fault::ToolFault;
use crate::mode::Mode;
use crate::modes::run_mode;
use std::alloc::Global;
use std::io;
use std::io::Write;
use std::process::Abort;

/// The output of a mode, in an array, so that a write allocates nothing.
#[derive(Drop)]
struct Page {
    bytes: [u8; 128],
    len: usize,
}

impl Write for Page {
    fn write(&mut self, buf: &[u8]) -> io::Result<usize> {
        let Some(room) = self.bytes.as_mut_slice().get_mut(self.len..) else {
            return Ok(0);
        };
        let count = buf.len().min(room.len());
        room[..count].copy_from_slice(&buf[..count]);
        self.len = self.len.saturating_add(count);
        Ok(count)
    }

    fn flush(&mut self) -> io::Result<()> {
        Ok(())
    }
}

/// Runs the mode. Returns true if the mode wrote the expected output, or false if memory ran out and the mode wrote
/// nothing. In all other cases the test fails.
fn writes(rt: &impl Abort, alloc: Global, mode: &Mode, input: &[u8], output: &[u8]) -> bool {
    let mut left = input;
    let mut page = Page {
        bytes: [0; 128],
        len: 0,
    };
    match run_mode(alloc, mode, &mut left, &mut page) {
        Ok(()) => {
            assert_eq!(rt; page.len, output.len());
            assert!(rt; page.bytes.as_slice().starts_with(output));
            true
        }
        Err(fault) => {
            assert_eq!(rt; fault, ToolFault::OutOfMemory);
            assert_eq!(rt; page.len, 0);
            false
        }
    }
}

/// A message whose frame has two blocks.
const MESSAGE: &[u8] = b"hello\0";

/// The output of `show` for [`MESSAGE`].
const SHOWN: &[u8] = b"06 68 65 6c 6c 6f 01 00\n";

/// The output of `encode` for [`MESSAGE`].
const ENCODED: &[u8] = b"\x06hello\x01\0";

/// A stream: a message, the empty message, a broken piece and an unfinished piece.
const STREAM: &[u8] = b"\x06hello\0\x01\0\x03\x07\0\x02";

/// The output of `decode` for [`STREAM`].
const REPORT: &[u8] = b"message 5 68656c6c6f\nmessage 0\nbroken 1\nunfinished\n";

#[test]
fn show_writes_its_output_or_wants_memory(rt: HostRuntime) {
    let _ = writes(&rt, rt.alloc(), &Mode::Show, MESSAGE, SHOWN);
}

#[test]
fn encode_writes_its_output_or_wants_memory(rt: HostRuntime) {
    let _ = writes(&rt, rt.alloc(), &Mode::Encode, MESSAGE, ENCODED);
}

#[test]
fn decode_writes_its_output_or_wants_memory(rt: HostRuntime) {
    let _ = writes(&rt, rt.alloc(), &Mode::Decode, STREAM, REPORT);
}

#[test]
fn with_enough_memory_every_mode_writes_its_output(rt: HostRuntime) {
    assert!(rt; writes(&rt, rt.alloc(), &Mode::Show, MESSAGE, SHOWN));
    assert!(rt; writes(&rt, rt.alloc(), &Mode::Encode, MESSAGE, ENCODED));
    assert!(rt; writes(&rt, rt.alloc(), &Mode::Decode, STREAM, REPORT));
}
