//! Tests of the texts of errors and reports, as they are printed or written as JSON.
use cobs::{DecodeError, DecodeReport, DecodeVecError, DestBufTooSmallError, PushError, decode};
use std::alloc::AllocError;
use std::test::Fail;

#[test]
fn errors_print_their_cause(rt: HostRuntime) -> Result<(), Fail> {
    let alloc = rt.alloc();
    let texts = [
        (DecodeError::EmptyFrame, "empty input frame"),
        (
            DecodeError::InvalidFrame { decoded_bytes: 3 },
            "frame with invalid format, written 3 to decoded buffer",
        ),
        (DecodeError::TargetBufTooSmall, "target buffer too small"),
    ];
    for (error, text) in texts {
        assert_eq!(rt; error.to_string(alloc)?.as_str(), text);
        let pushed = PushError {
            error,
            parsed_size: 14,
        };
        assert_eq!(rt; pushed.to_string(alloc)?.as_str(), text);
        let PushError { error, .. } = pushed;
        let in_a_vector = DecodeVecError::Decode(error);
        assert_eq!(rt; in_a_vector.to_string(alloc)?.as_str(), text);
    }
    let encoding = DestBufTooSmallError.to_string(alloc)?;
    assert_eq!(rt; encoding.as_str(), "out of bounds error during encoding");
    let memory = DecodeVecError::Memory(AllocError).to_string(alloc)?;
    assert_eq!(rt; memory.as_str(), "out of memory");
    Ok(())
}

#[test]
fn decode_errors_are_written_as_json_and_read_back(rt: HostRuntime) -> Result<(), Fail> {
    let alloc = rt.alloc();
    let texts = [
        (DecodeError::EmptyFrame, "\"EmptyFrame\""),
        (
            DecodeError::InvalidFrame { decoded_bytes: 3 },
            "{\"InvalidFrame\":{\"decoded_bytes\":3}}",
        ),
        (DecodeError::TargetBufTooSmall, "\"TargetBufTooSmall\""),
    ];
    for (error, text) in texts {
        let written = serde_json::to_string(alloc, &error)?;
        assert_eq!(rt; written.as_str(), text);
        let read: DecodeError = serde_json::from_str(alloc, written.as_str())?;
        assert_eq!(rt; read, error);
    }
    Ok(())
}

#[test]
fn reports_are_written_as_json_and_read_back(rt: HostRuntime) -> Result<(), Fail> {
    let alloc = rt.alloc();
    let mut dest = [0u8; 11];
    let report = decode(b"\0\x0chello world\0", &mut dest)?;
    let written = serde_json::to_string(alloc, &report)?;
    assert_eq!(rt; written.as_str(), "{\"parsed_size\":14,\"frame_size\":11}");
    let read: DecodeReport = serde_json::from_str(alloc, written.as_str())?;
    assert_eq!(rt; read, report);
    Ok(())
}

#[test]
fn want_of_room_is_written_as_json_and_read_back(rt: HostRuntime) -> Result<(), Fail> {
    let alloc = rt.alloc();
    let written = serde_json::to_string(alloc, &DestBufTooSmallError)?;
    let read: DestBufTooSmallError = serde_json::from_str(alloc, written.as_str())?;
    assert_eq!(rt; read, DestBufTooSmallError);
    Ok(())
}
