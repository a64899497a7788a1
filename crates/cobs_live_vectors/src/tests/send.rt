//! Tests of the frames that are sent for lines, and of checksums.

use super::{SENT, SILENT, reader, settings, timer};
use cobs_live::checksum::Checksum;
use cobs_live::clock::Stamp;
use cobs_live::crc::Crc;
use cobs_live::input::AnyInput;
use cobs_live::send::{self, run_send};
use cobs_live::show::run_show;
use cobs_live::shown::Style;
use std::io::{BufReader, BufWriter, ErrorKind};
use std::test::Fail;

/// Checksums of the digits 1 to 9, as in the catalogue of parametrised CRC algorithms, the highest byte first.
const SUMS: [(Crc, &[u8]); 8] = [
    (Crc::Crc8, b"\xF4"),
    (Crc::Crc16CcittFalse, b"\x29\xB1"),
    (Crc::Crc16Modbus, b"\x4B\x37"),
    (Crc::Crc16Xmodem, b"\x31\xC3"),
    (Crc::Crc16Kermit, b"\x21\x89"),
    (Crc::Crc16Arc, b"\xBB\x3D"),
    (Crc::Crc32, b"\xCB\xF4\x39\x26"),
    (Crc::Crc32c, b"\xE3\x06\x92\x83"),
];

#[test]
fn lines_are_sent(rt: HostRuntime) -> Result<(), Fail> {
    let alloc = rt.alloc();
    for (hex, lines, sent, all) in SENT {
        let how = send::Settings {
            hex,
            checksum: None,
            sentinel: 0,
        };
        let mut input = AnyInput::new(BufReader::new(
            alloc,
            reader(lines, usize::MAX, ErrorKind::Other),
        )?);
        let mut output = BufWriter::new(alloc, Vec::new(alloc))?;
        let mut errors = Vec::new(alloc);
        let done = run_send(alloc, &how, &mut input, &mut output, &mut errors);
        assert_eq!(rt; done, Ok(all));
        assert_eq!(rt; output.get_ref().as_slice(), sent);
        assert_eq!(rt; errors.is_empty(), all);
    }
    Ok(())
}

#[test]
fn a_checksum_is_behind_each_line(rt: HostRuntime) -> Result<(), Fail> {
    let alloc = rt.alloc();
    let how = send::Settings {
        hex: false,
        checksum: Some(Checksum::new(Crc::Crc16Modbus.params(), true)),
        sentinel: 0,
    };
    let mut input = AnyInput::new(b"123456789\n\n".as_slice());
    let mut output = BufWriter::new(alloc, Vec::new(alloc))?;
    let done = run_send(alloc, &how, &mut input, &mut output, &mut Vec::new(alloc));
    assert_eq!(rt; done, Ok(true));
    assert_eq!(rt;
        output.get_ref().as_slice(),
        b"\x0C123456789\x37\x4B\x00\x03\xFF\xFF\x00".as_slice()
    );
    Ok(())
}

#[test]
fn checksums_are_those_of_the_catalogue(rt: HostRuntime) -> Result<(), Fail> {
    for (crc, bytes) in SUMS {
        let highest_first = Checksum::new(crc.params(), false);
        let mut room = [0; 4];
        assert_eq!(rt; &*highest_first.sum(b"123456789", &mut room), bytes);
        // The bytes alone are rejected, because they aren't the checksum of an empty message.
        assert!(rt; highest_first.checked(bytes).is_none());
    }
    Ok(())
}

#[test]
fn what_is_sent_with_a_checksum_is_shown_without_it(rt: HostRuntime) -> Result<(), Fail> {
    let alloc = rt.alloc();
    for (crc, _) in SUMS {
        for little in [false, true] {
            let mut sent = BufWriter::new(alloc, Vec::new(alloc))?;
            let how = send::Settings {
                hex: false,
                checksum: Some(Checksum::new(crc.params(), little)),
                sentinel: 0,
            };
            let mut lines = AnyInput::new(b"ping\n\n".as_slice());
            let done = run_send(alloc, &how, &mut lines, &mut sent, &mut Vec::new(alloc));
            assert_eq!(rt; done, Ok(true));
            let mut how = settings(Style::Text, Stamp::Untimed);
            // The message `ping` and a checksum have at most 8 bytes.
            how.length = 8;
            how.view.checksum = Some(Checksum::new(crc.params(), little));
            let mut shown = BufWriter::new(alloc, Vec::new(alloc))?;
            let done = run_show(
                alloc,
                &how,
                SILENT,
                &timer(Stamp::Untimed)?,
                &mut AnyInput::new(sent.get_ref().as_slice()),
                &mut shown,
                &mut Vec::new(alloc),
            );
            assert!(rt; done.is_ok());
            assert_eq!(rt;
                shown.get_ref().as_slice(),
                b"message 4 ping\nmessage 0\n".as_slice()
            );
        }
    }
    Ok(())
}
