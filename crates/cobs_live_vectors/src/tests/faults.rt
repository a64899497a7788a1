//! Tests with readers and writers that pass on few bytes, are interrupted, or fail.
ghost use Rattle.std.specs.Prelude.{◌≡◌, []};
ghost use Rattle.std.specs.Io.Buffered.{writer_buffer};

use super::{SHOWN, SILENT, STREAM, reader, settings, timer, written_after};
use cobs_live::clock::Stamp;
use cobs_live::fault::WatchFault;
use cobs_live::input::{AnyInput, LiveInput};
use cobs_live::show::run_show;
use cobs_live::shown::Style;
use cobs_live::tally::Tally;
use std::alloc::Global;
use std::io::{self, BufWriter, ErrorKind, Write};
use std::test::Fail;

/// Accepts one byte per write. The write with the number `failing`, counted from 0, fails.
#[derive(Drop)]
struct ByteWriter {
    bytes: Vec<u8>,
    writes: usize,
    failing: usize,
    fault: ErrorKind,
}

impl Write for ByteWriter {
    fn write(&mut self, buf: &[u8]) -> io::Result<usize> {
        let number = self.writes;
        self.writes = number.saturating_add(1);
        if number == self.failing {
            return Err(self.fault.into());
        }
        if buf.is_empty() {
            return Ok(0);
        }
        self.bytes.write(&buf[..1])
    }

    fn flush(&mut self) -> io::Result<()> {
        Ok(())
    }
}

/// Makes a writer whose write with the number `failing` fails with this fault.
fn writer(alloc: Global, failing: usize, fault: ErrorKind) -> ByteWriter {
    ByteWriter {
        bytes: Vec::new(alloc),
        writes: 0,
        failing,
        fault,
    }
}

/// Shows each piece as hexadecimal digits, without times.
fn show<S: LiveInput<W>, W: Write + Drop>(
    alloc: Global,
    input: &mut S,
    output: &mut BufWriter<W>,
) -> Result<Result<Tally, WatchFault>, Fail>
    requires flushed { writer_buffer output.old ≡ [] }
{
    let settings = settings(Style::Hex, Stamp::Untimed);
    Ok(run_show(
        alloc,
        &settings,
        SILENT,
        &timer(Stamp::Untimed)?,
        input,
        output,
        &mut Vec::new(alloc),
    ))
}

#[test]
fn one_byte_a_read_and_a_write_shows_the_same(rt: HostRuntime) -> Result<(), Fail> {
    let alloc = rt.alloc();
    // The stream is read with 22 reads: one for each of its 20 bytes, one for its end, and the interrupted read.
    for interrupted in 0..22 {
        let mut input = AnyInput::new(reader(STREAM, interrupted, ErrorKind::Interrupted));
        let mut output = BufWriter::new(alloc, writer(alloc, interrupted, ErrorKind::Interrupted))?;
        let shown = show(alloc, &mut input, &mut output)?;
        assert!(rt; shown.is_ok());
        assert_eq!(rt; output.get_ref().bytes.as_slice(), SHOWN[0].1);
    }
    Ok(())
}

/// The line for a piece that has begun when its input ends or fails.
const UNFINISHED: &[u8] = b"unfinished\n";

#[test]
fn a_failed_read_loses_no_piece_that_had_ended(rt: HostRuntime) -> Result<(), Fail> {
    let alloc = rt.alloc();
    for failing in 0..20 {
        let mut input = AnyInput::new(reader(STREAM, failing, ErrorKind::Other));
        let mut output = BufWriter::new(alloc, Vec::new(alloc))?;
        let shown = show(alloc, &mut input, &mut output)?;
        assert_eq!(rt; shown, Err(WatchFault::ReadFailed));
        let text = SHOWN[0].1;
        let ended = &text[..written_after(failing).min(text.len())];
        let begun = failing > 0 && STREAM[failing - 1] != 0;
        let unfinished = if begun { UNFINISHED } else { b"" };
        let text = output.get_ref().as_slice();
        assert!(rt; text.starts_with(ended) && text.ends_with(unfinished));
        assert_eq!(rt; text.len(), ended.len() + unfinished.len());
    }
    Ok(())
}

#[test]
fn a_failed_write_ends_a_run(rt: HostRuntime) -> Result<(), Fail> {
    let alloc = rt.alloc();
    let faults = [
        (ErrorKind::Other, WatchFault::WriteFailed),
        (ErrorKind::BrokenPipe, WatchFault::OutputClosed),
    ];
    for (kind, fault) in faults {
        // Each write accepts one byte of the text, which has 59 bytes.
        for failing in 0..59 {
            let mut input = AnyInput::new(STREAM);
            let mut output = BufWriter::new(alloc, writer(alloc, failing, kind))?;
            let shown = show(alloc, &mut input, &mut output)?;
            assert!(rt; shown.is_err_and(|found| found == fault));
            assert_eq!(rt; output.get_ref().bytes.as_slice(), &SHOWN[0].1[..failing]);
        }
    }
    Ok(())
}

/// A frame and its zero. Before each of these bytes, a read fails.
const CUT: &[u8] = b"\x03ab\x05cdef\x00";

/// The text for a frame that had begun, by style. `Raw` and `Pcap` write only messages, so they have no such text.
const CUT_SHORT: [(Style, &[u8]); 6] = [
    (Style::Hex, UNFINISHED),
    (Style::Text, UNFINISHED),
    (Style::Raw, b""),
    (Style::Pcap, b""),
    (Style::Hexdump, UNFINISHED),
    (Style::Json, b"{\"kind\":\"unfinished\"}\n"),
];

#[test]
fn a_frame_that_a_failed_read_cuts_is_no_message(rt: HostRuntime) -> Result<(), Fail> {
    let alloc = rt.alloc();
    for (style, begun) in CUT_SHORT {
        for cut in 0..CUT.len() {
            let mut input = AnyInput::new(reader(CUT, cut, ErrorKind::Other));
            let mut output = BufWriter::new(alloc, Vec::new(alloc))?;
            let settings = settings(style, Stamp::Untimed);
            let shown = run_show(
                alloc,
                &settings,
                SILENT,
                &timer(Stamp::Untimed)?,
                &mut input,
                &mut output,
                &mut Vec::new(alloc),
            );
            assert_eq!(rt; shown, Err(WatchFault::ReadFailed));
            let unfinished = if cut == 0 { b"" } else { begun };
            assert_eq!(rt; output.get_ref().as_slice(), unfinished);
        }
    }
    Ok(())
}
