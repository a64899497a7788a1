//! Tests how many bytes had been written when the last read began. The first test cuts the stream at each place inside
//! it, and shows the part before the cut.

use super::{SENT, STREAM, settings, timer, written_after};
use crate::recorder::{Recorder, send_recorded, show_recorded};
use cobs_live::clock::Stamp;
use cobs_live::send;
use cobs_live::shown::Style;
use std::io::BufWriter;
use std::test::Fail;

#[test]
fn what_had_ended_is_written_at_each_read(rt: HostRuntime) -> Result<(), Fail> {
    let alloc = rt.alloc();
    for cut in 1..20 {
        // The last read returns no bytes, because the input ends at the cut.
        let mut input = Recorder {
            bytes: &STREAM[..cut],
            written: 0,
        };
        let mut output = BufWriter::new(alloc, Vec::new(alloc))?;
        let settings = settings(Style::Hex, Stamp::Untimed);
        let timer = timer(Stamp::Untimed)?;
        let shown = show_recorded(alloc, &settings, &timer, &mut input, &mut output);
        assert!(rt; shown.is_ok());
        assert_eq!(rt; input.written, written_after(cut));
    }
    Ok(())
}

#[test]
fn each_line_is_sent_before_the_next_is_asked_for(rt: HostRuntime) -> Result<(), Fail> {
    let alloc = rt.alloc();
    let (hex, lines, sent, _) = SENT[0];
    let how = send::Settings {
        hex,
        checksum: None,
        sentinel: 0,
    };
    let mut input = Recorder {
        bytes: lines,
        written: 0,
    };
    let mut output = BufWriter::new(alloc, Vec::new(alloc))?;
    let done = send_recorded(alloc, &how, &mut input, &mut output);
    assert_eq!(rt; done, Ok(true));
    assert_eq!(rt; input.written, sent.len());
    Ok(())
}
