//! Tests of facts that no contract states: a call with enough memory succeeds, a failed read or write leads to the
//! right fault, and the texts for known inputs are right.
//!
//! `rt` is the runtime. An assertion that fails aborts the test through `rt`.

use crate::fault::ToolFault;
use crate::mode::{Mode, mode_of};
use crate::modes::run_mode;
use crate::text::fault_line;
use std::alloc::{AllocError, Global};
use std::io::{self, ErrorKind, Read, Write};
use std::process::Abort;
use std::test::Fail;

/// A mode, an input, and the output of the mode for this input.
type Row = (Mode, &'static [u8], &'static [u8]);

/// The modes, inputs and outputs that several of these tests use.
const ROWS: [Row; 11] = [
    (Mode::Show, b"hello", b"06 68 65 6c 6c 6f 00\n"),
    (Mode::Show, b"", b"01 00\n"),
    (Mode::Show, b"\x00\xff", b"01 02 ff 00\n"),
    (Mode::Encode, b"hello", b"\x06hello\x00"),
    (Mode::Encode, b"", b"\x01\x00"),
    (
        Mode::Decode,
        b"\x06hello\x00\x01\x00\x03\x07\x00\x02",
        b"message 5 68656c6c6f\nmessage 0\nbroken 1\nunfinished\n",
    ),
    (
        Mode::Decode,
        b"\x00\x03\x07\x08\x00\x05\x01\x00\x06\x01\x02\x03\x04\x05\x00\x02\x09\x00",
        b"message 2 0708\nbroken 1\nmessage 5 0102030405\nmessage 1 09\n",
    ),
    (
        Mode::Decode,
        b"\x00\x03\x07\x08\x00\x05\x01\x00\x06\x01\x02\x03\x04\x05\x00\x02\x09",
        b"message 2 0708\nbroken 1\nmessage 5 0102030405\nunfinished\n",
    ),
    (Mode::Decode, b"", b""),
    (Mode::Decode, b"\x00", b""),
    (Mode::Decode, b"\xff", b"unfinished\n"),
];

/// A reader that returns one byte per read. The read with the number `failing`, counted from 0, fails.
#[derive(Drop)]
struct ByteReader<'a> {
    bytes: &'a [u8],
    reads: usize,
    failing: usize,
    fault: ErrorKind,
}

impl Read for ByteReader<'_> {
    fn read(&mut self, buf: &mut [u8]) -> io::Result<usize> {
        let number = self.reads;
        self.reads = number.saturating_add(1);
        if number == self.failing {
            return Err(self.fault.into());
        }
        if buf.is_empty() {
            return Ok(0);
        }
        self.bytes.read(&mut buf[..1])
    }
}

/// A writer that accepts one byte per write. The write with the number `failing`, counted from 0, fails. If
/// `fails_to_flush` is set, each flush fails too.
#[derive(Drop)]
struct ByteWriter {
    bytes: Vec<u8>,
    writes: usize,
    failing: usize,
    fails_to_flush: bool,
}

impl Write for ByteWriter {
    fn write(&mut self, buf: &[u8]) -> io::Result<usize> {
        let number = self.writes;
        self.writes = number.saturating_add(1);
        if number == self.failing {
            return Err(ErrorKind::BrokenPipe.into());
        }
        if buf.is_empty() {
            return Ok(0);
        }
        self.bytes.write(&buf[..1])
    }

    fn flush(&mut self) -> io::Result<()> {
        if self.fails_to_flush {
            return Err(ErrorKind::BrokenPipe.into());
        }
        Ok(())
    }
}

/// Returns the texts as words of a command line.
fn words(alloc: Global, texts: &[&str]) -> Result<Vec<String>, AllocError> {
    let mut words = Vec::new(alloc);
    for text in texts {
        words.push(String::from_str(alloc, text)?)?;
    }
    Ok(words)
}

/// Checks that the words of each row choose the mode of that row. If the row has no mode, checks that the words choose
/// no mode.
fn check_words(
    rt: &impl Abort,
    alloc: Global,
    rows: &[(&[&str], Option<Mode>)],
) -> Result<(), Fail> {
    for (texts, mode) in rows {
        assert_eq!(rt; mode_of(&words(alloc, texts)?), *mode, "{texts:?}");
    }
    Ok(())
}

#[test]
fn words_choose_the_mode(rt: HostRuntime) -> Result<(), Fail> {
    check_words(
        &rt,
        rt.alloc(),
        &[
            (&[], Some(Mode::Show)),
            (&["show"], Some(Mode::Show)),
            (&["encode"], Some(Mode::Encode)),
            (&["decode"], Some(Mode::Decode)),
            (&["show", "show"], None),
            (&["encode", "decode"], None),
            (&["other"], None),
            (&[""], None),
        ],
    )
}

#[test]
fn faults_have_lines(rt: HostRuntime) {
    let rows = [
        (ToolFault::ReadFailed, "cobs_tool: read failed"),
        (ToolFault::WriteFailed, "cobs_tool: write failed"),
        (ToolFault::OutOfMemory, "cobs_tool: out of memory"),
        (ToolFault::InputTooLong, "cobs_tool: input too long"),
    ];
    for (fault, line) in rows {
        assert_eq!(rt; fault_line(&fault), line);
    }
}

/// Checks that each row's mode writes the row's output.
fn check_rows(rt: &impl Abort, alloc: Global, rows: &[Row]) {
    for (at, (mode, input, written)) in rows.iter().enumerate() {
        let mut output = Vec::new(alloc);
        let mut left = *input;
        let result = run_mode(alloc, mode, &mut left, &mut output);
        assert_eq!(rt; result, Ok(()), "row {at}");
        assert_eq!(rt; output.as_slice(), *written, "row {at}");
    }
}

#[test]
fn rows_are_written(rt: HostRuntime) {
    check_rows(&rt, rt.alloc(), &ROWS);
}

/// Runs the row's mode, and makes the read with the number `failing` fail with this fault. A mode makes one read for
/// each byte, and one more for the end. If the mode makes too few reads, no read fails.
fn check_read(rt: &impl Abort, alloc: Global, row: &Row, fault: ErrorKind, failing: usize) {
    let (mode, bytes, written) = row;
    let mut input = ByteReader {
        bytes,
        reads: 0,
        failing,
        fault,
    };
    let mut output = Vec::new(alloc);
    let result = run_mode(alloc, mode, &mut input, &mut output);
    if failing <= bytes.len() {
        assert_eq!(rt;
            result,
            Err(ToolFault::ReadFailed),
            "read {failing} of {bytes:?}"
        );
        assert_eq!(rt; output.len(), 0, "read {failing} of {bytes:?}");
        // Nothing is read after a fault.
        assert_eq!(rt; Some(input.reads), failing.checked_add(1), "{bytes:?}");
    } else {
        assert_eq!(rt; result, Ok(()), "{bytes:?}");
        assert_eq!(rt; output.as_slice(), *written, "{bytes:?}");
        // Nothing is read after the end.
        assert_eq!(rt; input.reads, failing, "{bytes:?}");
    }
}

/// Checks each row with failing reads. For each read, the row's mode runs twice, and this read fails with a different
/// fault in each run. In the last two runs no read fails, because the number of the failing read is too great.
fn check_reads(rt: &impl Abort, alloc: Global, rows: &[Row]) {
    for row in rows {
        let (_, bytes, _) = row;
        for failing in 0..=bytes.len().saturating_add(1) {
            check_read(rt, alloc, row, ErrorKind::ConnectionReset, failing);
            check_read(rt, alloc, row, ErrorKind::Interrupted, failing);
        }
    }
}

#[test]
fn each_read_may_fail(rt: HostRuntime) {
    check_reads(&rt, rt.alloc(), &ROWS);
}

/// Runs the row's mode, and makes the write with the number `failing` fail. If the mode makes too few writes, no write
/// fails. If `fails_to_flush` is set, each flush fails too.
fn check_write(rt: &impl Abort, alloc: Global, row: &Row, failing: usize, fails_to_flush: bool) {
    let (mode, bytes, written) = row;
    let mut input = *bytes;
    let mut output = ByteWriter {
        bytes: Vec::new(alloc),
        writes: 0,
        failing,
        fails_to_flush,
    };
    let result = run_mode(alloc, mode, &mut input, &mut output);
    if fails_to_flush || failing < written.len() {
        assert_eq!(rt;
            result,
            Err(ToolFault::WriteFailed),
            "write {failing} of {bytes:?}"
        );
    } else {
        assert_eq!(rt; result, Ok(()), "{bytes:?}");
        assert_eq!(rt; output.bytes.as_slice(), *written, "{bytes:?}");
    }
}

/// Checks each row with failing writes. For each write, the row's mode runs once, and this write fails. Then the mode
/// runs once without a failure, and once with a failing flush.
fn check_writes(rt: &impl Abort, alloc: Global, rows: &[Row]) {
    for row in rows {
        let (_, _, written) = row;
        for failing in 0..=written.len() {
            check_write(rt, alloc, row, failing, false);
        }
        check_write(rt, alloc, row, usize::MAX, true);
    }
}

#[test]
fn each_write_and_each_flush_may_fail(rt: HostRuntime) {
    check_writes(&rt, rt.alloc(), &ROWS);
}

/// Checks the greatest length of the input. `zeros` is one byte longer than this length. The mode must accept `zeros`
/// without the last byte, and write `count` bytes. It must reject `zeros` itself, and it must reject an input that
/// never ends.
fn check_limit(rt: &impl Abort, alloc: Global, mode: &Mode, zeros: &[u8], count: usize) {
    let mut output = Vec::new(alloc);
    let mut longest = zeros.split_last().map_or(zeros, |(_, front)| front);
    assert_eq!(rt; run_mode(alloc, mode, &mut longest, &mut output), Ok(()));
    assert_eq!(rt; output.len(), count);

    let mut rejected = Vec::new(alloc);
    let mut longer = zeros;
    let result = run_mode(alloc, mode, &mut longer, &mut rejected);
    assert_eq!(rt; result, Err(ToolFault::InputTooLong));
    let result = run_mode(alloc, mode, &mut io::repeat(1), &mut rejected);
    assert_eq!(rt; result, Err(ToolFault::InputTooLong));
    assert_eq!(rt; rejected.len(), 0);
}

#[test]
fn input_has_a_limit(rt: HostRuntime) -> Result<(), Fail> {
    // The frame of 1 MiB of zeros has 1,048,577 bytes, and a zero follows it. `show` writes three characters for each
    // of these bytes: two digits, and a space or the newline. For `decode`, a stream of zeros has no pieces.
    let zeros = vec![in rt.alloc(); 0u8; 1_048_577]?;
    check_limit(&rt, rt.alloc(), &Mode::Show, &zeros, 3_145_734);
    check_limit(&rt, rt.alloc(), &Mode::Encode, &zeros, 1_048_578);
    check_limit(&rt, rt.alloc(), &Mode::Decode, &zeros, 0);
    Ok(())
}

#[test]
fn nothing_is_read_after_the_first_byte_too_many(rt: HostRuntime) -> Result<(), Fail> {
    let alloc = rt.alloc();
    // `zeros` has one byte more than the greatest length of the input, which is 1 MiB. The reader returns one byte per
    // read.
    let zeros = vec![in alloc; 0u8; 1_048_577]?;
    let mut input = ByteReader {
        bytes: &zeros,
        reads: 0,
        failing: usize::MAX,
        fault: ErrorKind::Other,
    };
    let result = run_mode(alloc, &Mode::Encode, &mut input, &mut Vec::new(alloc));
    assert_eq!(rt; result, Err(ToolFault::InputTooLong));
    assert_eq!(rt; input.reads, 1_048_577);
    Ok(())
}

#[test]
fn messages_have_a_limit(rt: HostRuntime) -> Result<(), Fail> {
    let alloc = rt.alloc();
    let mut ones = vec![in alloc; 1u8; 65_536]?;
    let mut line = String::from_str(alloc, "message 65536 ")?;
    for _ in &ones {
        line.push_str("01")?;
    }
    line.push_str("\n")?;
    assert_eq!(rt; there_and_back(alloc, &ones)?.as_slice(), line.as_bytes());
    ones.push(1)?;
    assert_eq!(rt;
        there_and_back(alloc, &ones)?.as_slice(),
        b"too long\n".as_slice()
    );
    Ok(())
}

/// Encodes the message with `encode`, decodes the frame with `decode`, and returns the text that `decode` prints.
fn there_and_back(alloc: Global, mut message: &[u8]) -> Result<Vec<u8>, ToolFault> {
    let mut frame = Vec::new(alloc);
    run_mode(alloc, &Mode::Encode, &mut message, &mut frame)?;
    let mut report = Vec::new(alloc);
    run_mode(alloc, &Mode::Decode, &mut frame.as_slice(), &mut report)?;
    Ok(report)
}
