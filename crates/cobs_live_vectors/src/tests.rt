//! Tests of facts that no contract states: that calls succeed, and the results if readers and writers fail or pass on
//! few bytes.

mod faults;
mod live;
mod send;

use cobs_live::checksum::Checksum;
use cobs_live::clock::{Stamp, Timer};
use cobs_live::crc::Crc;
use cobs_live::input::AnyInput;
use cobs_live::show::run_show;
use cobs_live::shown::{Filter, Settings, Style, View};
use cobs_live::tally::Tally;
use jiff_core::Offset;
use jiff_tz::TimeZone;
use std::alloc::Global;
use std::cell::Cell;
use std::io::{self, BufWriter, ErrorKind, Read};
use std::rt::Clock;
use std::test::Fail;
use std::time::Duration;

/// Four pieces, for a buffer of four bytes, and the start of a fifth piece.
const STREAM: &[u8] = b"\x00\x03\x07\x08\x00\x05\x01\x00\x06\x01\x02\x03\x04\x05\x00\x03hi\x00\x02";

/// The text that is shown for [`STREAM`], by style. In a capture each message has the time of the one read that
/// returned the stream, 250 ms after the start.
const SHOWN: [(Style, &[u8]); 6] = [
    (
        Style::Hex,
        b"message 2 0708\nbroken 1\ntoo long\nmessage 2 6869\nunfinished\n",
    ),
    (
        Style::Text,
        b"message 2 0708\nbroken 1\ntoo long\nmessage 2 hi\nunfinished\n",
    ),
    (Style::Raw, b"\x07\x08\nhi\n"),
    (
        Style::Pcap,
        b"\0\0\0\0\x90\xD0\x03\0\x02\0\0\0\x02\0\0\0\x07\x08\
        \0\0\0\0\x90\xD0\x03\0\x02\0\0\0\x02\0\0\0hi",
    ),
    (
        Style::Hexdump,
        b"message 2\n\
        00000000  07 08                                             |..|\n\
        broken 1\ntoo long\nmessage 2\n\
        00000000  68 69                                             |hi|\nunfinished\n",
    ),
    (
        Style::Json,
        b"{\"frame\":1,\"kind\":\"message\",\"length\":2,\"hex\":\"0708\",\"text\":\"\\u0007\\u0008\"}\n\
        {\"frame\":2,\"kind\":\"broken\",\"length\":1}\n\
        {\"frame\":3,\"kind\":\"too-long\"}\n\
        {\"frame\":4,\"kind\":\"message\",\"length\":2,\"hex\":\"6869\",\"text\":\"hi\"}\n\
        {\"kind\":\"unfinished\"}\n",
    ),
];

/// The text of [`SHOWN`] in colours, by style. A colour stands for the kind of a piece, so only titles, which name the
/// kind, have colours. Only these three styles have titles.
const COLORED: [(Style, &[u8]); 3] = [
    (
        Style::Hex,
        b"\x1b[32mmessage 2\x1b[0m 0708\n\x1b[33mbroken 1\x1b[0m\n\x1b[35mtoo long\x1b[0m\n\
        \x1b[32mmessage 2\x1b[0m 6869\nunfinished\n",
    ),
    (
        Style::Text,
        b"\x1b[32mmessage 2\x1b[0m 0708\n\x1b[33mbroken 1\x1b[0m\n\x1b[35mtoo long\x1b[0m\n\
        \x1b[32mmessage 2\x1b[0m hi\nunfinished\n",
    ),
    (
        Style::Hexdump,
        b"\x1b[32mmessage 2\x1b[0m\n\
        00000000  07 08                                             |..|\n\
        \x1b[33mbroken 1\x1b[0m\n\x1b[35mtoo long\x1b[0m\n\x1b[32mmessage 2\x1b[0m\n\
        00000000  68 69                                             |hi|\nunfinished\n",
    ),
];

/// The text of [`SHOWN`] with the time of each piece, by style and by the kind of time. The run begins at 23:59:58.123,
/// in UTC. The first byte is read 250 ms later, and so is each further byte after the one before it.
const TIMED: [(Style, Stamp, &[u8]); 4] = [
    (
        Style::Hex,
        Stamp::Start,
        b"1.250 message 2 0708\n2.000 broken 1\n3.750 too long\n4.750 message 2 6869\nunfinished\n",
    ),
    (
        Style::Text,
        Stamp::Last,
        b"1.250 message 2 0708\n0.750 broken 1\n1.750 too long\n1.000 message 2 hi\nunfinished\n",
    ),
    (
        Style::Hex,
        Stamp::Date,
        b"1972-09-27T23:59:59.373Z message 2 0708\n1972-09-28T00:00:00.123Z broken 1\n\
        1972-09-28T00:00:01.873Z too long\n1972-09-28T00:00:02.873Z message 2 6869\nunfinished\n",
    ),
    (
        Style::Json,
        Stamp::Start,
        b"{\"frame\":1,\"time\":1.250,\"kind\":\"message\",\"length\":2,\"hex\":\"0708\",\"text\":\"\\u0007\\u0008\"}\n\
        {\"frame\":2,\"time\":2.000,\"kind\":\"broken\",\"length\":1}\n\
        {\"frame\":3,\"time\":3.750,\"kind\":\"too-long\"}\n\
        {\"frame\":4,\"time\":4.750,\"kind\":\"message\",\"length\":2,\"hex\":\"6869\",\"text\":\"hi\"}\n\
        {\"kind\":\"unfinished\"}\n",
    ),
];

/// The text by style, if the decoded bytes of broken pieces and of too long pieces are shown too. There are four
/// pieces: a broken piece, a piece that is too long for four bytes, a broken piece that decodes to no byte, and a
/// message.
const PARTIAL: [(Style, &[u8]); 5] = [
    (
        Style::Hex,
        b"broken 2 partial 6162\ntoo long partial 76777879\nbroken 0\nmessage 1 63\n",
    ),
    (
        Style::Text,
        b"broken 2 partial ab\ntoo long partial vwxy\nbroken 0\nmessage 1 c\n",
    ),
    (Style::Raw, b"c\n"),
    (
        Style::Hexdump,
        b"broken 2 partial\n\
        00000000  61 62                                             |ab|\n\
        too long partial\n\
        00000000  76 77 78 79                                       |vwxy|\n\
        broken 0\nmessage 1\n\
        00000000  63                                                |c|\n",
    ),
    (
        Style::Json,
        b"{\"frame\":1,\"kind\":\"broken\",\"length\":2,\"hex\":\"6162\"}\n\
        {\"frame\":2,\"kind\":\"too-long\",\"hex\":\"76777879\"}\n\
        {\"frame\":3,\"kind\":\"broken\",\"length\":0}\n\
        {\"frame\":4,\"kind\":\"message\",\"length\":1,\"hex\":\"63\",\"text\":\"c\"}\n",
    ),
];

/// Whether lines have hexadecimal digits, the lines, the frames that are sent for them, and whether every line is sent.
const SENT: [(bool, &[u8], &[u8], bool); 3] = [
    (
        false,
        b"hello\n\nab",
        b"\x06hello\x00\x01\x00\x03ab\x00",
        true,
    ),
    (
        true,
        b"68 69\t0a\r\n\n0g\n00",
        b"\x04hi\n\x00\x01\x00\x01\x01\x00",
        false,
    ),
    (true, b"6\n", b"", false),
];

/// The counts aren't written.
const SILENT: bool = false;

/// Returns one byte per read. The read with the number `failing`, counted from 0, fails.
#[derive(Drop)]
struct ByteReader<'a> {
    bytes: &'a [u8],
    reads: usize,
    failing: usize,
    fault: ErrorKind,
}

impl Read for ByteReader<'_> {
    fn read(&mut self, buf: &mut [u8]) -> io::Result<usize> {
        let number = self.reads;
        self.reads = number.saturating_add(1);
        if number == self.failing {
            return Err(self.fault.into());
        }
        if buf.is_empty() {
            return Ok(0);
        }
        self.bytes.read(&mut buf[..1])
    }
}

/// A clock that is 250 ms later at each reading.
#[derive(Drop)]
struct StepClock {
    readings: Cell<u64>,
}

impl Clock for StepClock {
    fn monotonic(&self) -> io::Result<Duration> {
        let number = self.readings.get();
        self.readings.set(number.saturating_add(1));
        Ok(Duration::from_millis(number.saturating_mul(250)))
    }

    fn since_1970(&self) -> io::Result<Duration> {
        // 23:59:58.123 on 1972-09-27, which is 1,000 days after 1970-01-01.
        Ok(Duration::from_millis(1_000 * 86_400_000 + 86_398_123))
    }
}

/// Makes a timer in UTC, over the clock of these tests.
fn timer(stamp: Stamp) -> io::Result<Timer<'static, StepClock>> {
    timer_in(stamp, TimeZone::UTC)
}

/// Makes a timer in this zone, over the clock of these tests.
fn timer_in(stamp: Stamp, zone: TimeZone<'_>) -> io::Result<Timer<'_, StepClock>> {
    Timer::new(clock(), stamp, zone)
}

/// Makes a clock that sleeps for no time, and is 250 ms later at each reading. Its first reading is 750 ms, so that a
/// time since the start differs from the reading itself.
fn clock() -> StepClock {
    StepClock {
        readings: Cell::new(3),
    }
}

/// Makes a reader of these bytes, whose read with the number `failing` fails with this fault.
fn reader(bytes: &[u8], failing: usize, fault: ErrorKind) -> ByteReader<'_> {
    ByteReader {
        bytes,
        reads: 0,
        failing,
        fault,
    }
}

/// Returns settings that show each piece in a style, with a buffer of four bytes.
fn settings(style: Style, stamp: Stamp) -> Settings {
    Settings {
        view: View {
            style,
            color: false,
            number: false,
            stamp,
            filter: Filter {
                messages: true,
                broken: true,
                too_long: true,
                bad_crc: true,
                unfinished: true,
            },
            checksum: None,
            partial: false,
        },
        length: 4,
        sentinel: 0,
        skip_first: false,
    }
}

/// Returns how many bytes of the text of `Style::Hex` are written after this many bytes of `STREAM` were read: the
/// lines of all pieces that have ended. The pieces of `STREAM` end after 5, 8, 15 and 19 bytes, and their lines have
/// 15, 9, 9 and 15 bytes.
fn written_after(read: usize) -> usize {
    match read {
        0..5 => 0,
        5..8 => 15,
        8..15 => 24,
        15..19 => 33,
        _ => 48,
    }
}

#[test]
fn a_stream_is_shown_in_each_style(rt: HostRuntime) -> Result<(), Fail> {
    let alloc = rt.alloc();
    for (style, shown) in SHOWN {
        let mut input = AnyInput::new(STREAM);
        let mut output = BufWriter::new(alloc, Vec::new(alloc))?;
        let tally = run_show(
            alloc,
            &settings(style, Stamp::Untimed),
            SILENT,
            &timer(Stamp::Untimed)?,
            &mut input,
            &mut output,
            &mut Vec::new(alloc),
        );
        assert_eq!(rt; output.get_ref().as_slice(), shown);
        assert_eq!(rt;
            tally,
            Ok(Tally {
                messages: 2,
                broken: 1,
                too_long: 1,
                bad_crc: 0,
                bytes: 20,
                pieces: 4,
                checked: false,
            })
        );
    }
    Ok(())
}

#[test]
fn each_kind_has_its_colour(rt: HostRuntime) -> Result<(), Fail> {
    let alloc = rt.alloc();
    for (style, shown) in COLORED {
        let mut how = settings(style, Stamp::Untimed);
        how.view.color = true;
        let mut input = AnyInput::new(STREAM);
        let mut output = BufWriter::new(alloc, Vec::new(alloc))?;
        let done = run_show(
            alloc,
            &how,
            SILENT,
            &timer(Stamp::Untimed)?,
            &mut input,
            &mut output,
            &mut Vec::new(alloc),
        );
        assert!(rt; done.is_ok());
        assert_eq!(rt; output.get_ref().as_slice(), shown);
    }
    Ok(())
}

#[test]
fn counts_are_written_at_the_end(rt: HostRuntime) -> Result<(), Fail> {
    let alloc = rt.alloc();
    let settings = settings(Style::Hex, Stamp::Untimed);
    let mut input = AnyInput::new(b"\x02a\x00\x03b\x00\x02c\x00".as_slice());
    let mut output = BufWriter::new(alloc, Vec::new(alloc))?;
    let mut errors = Vec::new(alloc);
    let done = run_show(
        alloc,
        &settings,
        true,
        &timer(Stamp::Untimed)?,
        &mut input,
        &mut output,
        &mut errors,
    );
    assert!(rt; done.is_ok());
    assert_eq!(rt;
        errors.as_slice(),
        b"messages 2, broken 1, too long 0, bytes 9\n".as_slice(),
    );
    Ok(())
}

#[test]
fn each_piece_has_its_time(rt: HostRuntime) -> Result<(), Fail> {
    let alloc = rt.alloc();
    for (style, stamp, shown) in TIMED {
        let mut input = AnyInput::new(reader(STREAM, usize::MAX, ErrorKind::Other));
        let mut output = BufWriter::new(alloc, Vec::new(alloc))?;
        let settings = settings(style, stamp);
        let done = run_show(
            alloc,
            &settings,
            SILENT,
            &timer(stamp)?,
            &mut input,
            &mut output,
            &mut Vec::new(alloc),
        );
        assert!(rt; done.is_ok());
        assert_eq!(rt; output.get_ref().as_slice(), shown);
    }
    Ok(())
}

#[test]
fn a_date_has_the_offset_of_its_zone(rt: HostRuntime) -> Result<(), Fail> {
    let alloc = rt.alloc();
    let settings = settings(Style::Json, Stamp::Date);
    let mut input = AnyInput::new(reader(b"\x02a\x00", usize::MAX, ErrorKind::Other));
    let mut output = BufWriter::new(alloc, Vec::new(alloc))?;
    let newfoundland = TimeZone::Fixed(Offset { seconds: -12_600 });
    let done = run_show(
        alloc,
        &settings,
        SILENT,
        &timer_in(Stamp::Date, newfoundland)?,
        &mut input,
        &mut output,
        &mut Vec::new(alloc),
    );
    assert!(rt; done.is_ok());
    assert_eq!(rt;
        output.get_ref().as_slice(),
        b"{\"frame\":1,\"time\":\"1972-09-27T20:29:58.873-03:30\",\"kind\":\"message\",\"length\":1,\
        \"hex\":\"61\",\"text\":\"a\"}\n"
            .as_slice(),
    );
    Ok(())
}

#[test]
fn a_right_checksum_is_stripped_and_a_wrong_one_named(rt: HostRuntime) -> Result<(), Fail> {
    let alloc = rt.alloc();
    let mut how = settings(Style::Hex, Stamp::Untimed);
    how.view.checksum = Some(Checksum::new(Crc::Crc8.params(), false));
    // Three frames: the digits 1 to 3 with their checksum, the same digits with a wrong checksum, and a message that is
    // too short for a checksum.
    let mut input = AnyInput::new(b"\x05123\xC0\x00\x05123\xC1\x00\x01\x00".as_slice());
    let mut output = BufWriter::new(alloc, Vec::new(alloc))?;
    let tally = run_show(
        alloc,
        &how,
        SILENT,
        &timer(Stamp::Untimed)?,
        &mut input,
        &mut output,
        &mut Vec::new(alloc),
    );
    assert_eq!(rt;
        output.get_ref().as_slice(),
        b"message 3 313233\nbad crc 4 313233c1\nbad crc 0\n".as_slice()
    );
    assert!(rt;
        tally.is_ok_and(|tally| tally.messages == 1 && tally.bad_crc == 2 && tally.checked)
    );
    Ok(())
}

#[test]
fn what_was_decoded_of_other_pieces_is_marked(rt: HostRuntime) -> Result<(), Fail> {
    let alloc = rt.alloc();
    for (style, shown) in PARTIAL {
        let mut how = settings(style, Stamp::Untimed);
        how.view.partial = true;
        let mut input = AnyInput::new(b"\x05ab\x00\x06vwxyz\x00\x05\x00\x02c\x00".as_slice());
        let mut output = BufWriter::new(alloc, Vec::new(alloc))?;
        let done = run_show(
            alloc,
            &how,
            SILENT,
            &timer(Stamp::Untimed)?,
            &mut input,
            &mut output,
            &mut Vec::new(alloc),
        );
        assert!(rt; done.is_ok());
        assert_eq!(rt; output.get_ref().as_slice(), shown);
    }
    Ok(())
}
