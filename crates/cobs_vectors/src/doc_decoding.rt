//! The examples in the documentation of `cobs`, as tests: of the calls that decode a whole frame, of the state machine
//! `DecoderState`, and of the errors.
//!
//! Everything below the imports is written by `tests/docs.py --write` from the doc comments of `error.rt`, and of
//! `forms.rt`, `in_place.rt`, `kind.rt`, `state.rt` and `whole.rt` in `dec/`, all in `crates/cobs/src`. To change an
//! example, change its doc comment.

use cobs::{
    CobsDecoder, DecodeError, DecodeResult, DecodeVecError, DecoderState, DecodingResult,
    DestBufTooSmallError, FrameKind, PieceEnd, PushError, decode, decode_first, decode_in_place,
    decode_in_place_report, decode_in_place_with_sentinel, decode_vec, decode_vec_with_sentinel,
    decode_with_sentinel, frame_kind, xor_bytes,
};
use std::test::Fail;

#[test]
fn dest_buf_too_small_error_example(rt: HostRuntime) -> Result<(), Fail> {
    let alloc = rt.alloc();
    let text = DestBufTooSmallError.to_string(alloc)?;
    assert_eq!(rt; text.as_str(), "out of bounds error during encoding");
    Ok(())
}

#[test]
fn decode_error_example(rt: HostRuntime) {
    assert_eq!(rt; decode(&[], &mut [0; 4]), Err(DecodeError::EmptyFrame));
    let rejected = decode(&[3, 1, 2], &mut [0; 1]);
    assert_eq!(rt; rejected, Err(DecodeError::TargetBufTooSmall));
}

#[test]
fn push_error_example(rt: HostRuntime) {
    let mut buffer = [0; 4];
    let mut decoder = CobsDecoder::new(&mut buffer);
    let rejected = PushError {
        error: DecodeError::InvalidFrame { decoded_bytes: 1 },
        parsed_size: 3,
    };
    assert_eq!(rt; decoder.push(&[3, 7, 0, 2, 9, 0]), Err(rejected));
}

#[test]
fn decode_vec_error_example(rt: HostRuntime) {
    let alloc = rt.alloc();
    let rejected = Err(DecodeVecError::Decode(DecodeError::EmptyFrame));
    assert_eq!(rt; decode_vec(alloc, &[]), rejected);
}

#[test]
fn decode_report_example(rt: HostRuntime) -> Result<(), Fail> {
    let report = decode(&[0, 3, 1, 2, 0, 1], &mut [0; 4])?;
    assert_eq!(rt; report.parsed_size(), 5);
    assert_eq!(rt; report.frame_size(), 2);
    Ok(())
}

#[test]
fn decode_report_parsed_size_example(rt: HostRuntime) -> Result<(), Fail> {
    assert_eq!(rt; decode(&[0, 1, 0], &mut [])?.parsed_size(), 3);
    Ok(())
}

#[test]
fn decode_report_frame_size_example(rt: HostRuntime) -> Result<(), Fail> {
    assert_eq!(rt; decode(&[0, 2, 7], &mut [0; 4])?.frame_size(), 1);
    Ok(())
}

#[test]
fn decoding_result_example(rt: HostRuntime) -> Result<(), Fail> {
    let report: DecodingResult = decode(&[2, 7, 0], &mut [0; 4])?;
    assert_eq!(rt; report.parsed_size(), 3);
    Ok(())
}

#[test]
fn xor_bytes_example(rt: HostRuntime) {
    let mut frame = *b"\x03hi";
    xor_bytes(&mut frame, 0xAA);
    assert_eq!(rt; frame, [0xA9, 0xC2, 0xC3]);
}

#[test]
fn decode_with_sentinel_example(rt: HostRuntime) {
    let mut dest = [170; 5];
    let len = decode_with_sentinel(&[252, 245, 244, 253, 243, 255], &mut dest, 255);
    assert_eq!(rt; len, Ok(4));
    assert_eq!(rt; dest, [10, 11, 0, 12, 170]);
}

#[test]
fn decode_vec_example(rt: HostRuntime) -> Result<(), Fail> {
    let alloc = rt.alloc();
    let message = decode_vec(alloc, b"\x06hello\0")?;
    assert_eq!(rt; message.as_slice(), b"hello".as_slice());
    Ok(())
}

#[test]
fn decode_vec_with_sentinel_example(rt: HostRuntime) -> Result<(), Fail> {
    let alloc = rt.alloc();
    let message = decode_vec_with_sentinel(alloc, &[252, 245, 244, 253, 243], 255)?;
    assert_eq!(rt; message.as_slice(), [10, 11, 0, 12].as_slice());
    Ok(())
}

#[test]
fn decode_in_place_report_example(rt: HostRuntime) -> Result<(), Fail> {
    let mut buf = [3, 10, 11, 2, 12, 0];
    let report = decode_in_place_report(&mut buf)?;
    assert_eq!(rt; report.parsed_size(), 5);
    assert_eq!(rt; report.frame_size(), 4);
    assert_eq!(rt; buf, [10, 11, 0, 12, 12, 0]);
    Ok(())
}

#[test]
fn decode_in_place_example(rt: HostRuntime) {
    let mut buff = [3, 10, 11, 2, 12, 0];
    assert_eq!(rt; decode_in_place(&mut buff), Ok(4));
    assert_eq!(rt; buff, [10, 11, 0, 12, 12, 0]);

    let broken = DecodeError::InvalidFrame { decoded_bytes: 2 };
    assert_eq!(rt; decode_in_place(&mut [2, 1, 3, 7]), Err(broken));
}

#[test]
fn decode_in_place_with_sentinel_example(rt: HostRuntime) {
    let mut buff = [252, 245, 244, 253, 243];
    assert_eq!(rt; decode_in_place_with_sentinel(&mut buff, 255), Ok(4));
    assert_eq!(rt; buff, [10, 11, 0, 12, 12]);
}

#[test]
fn frame_kind_example(rt: HostRuntime) {
    assert_eq!(rt; frame_kind(&[]), FrameKind::NotAFrame);
    assert_eq!(rt; frame_kind(&[1]), FrameKind::Canonical);
}

#[test]
fn frame_kind_example_2(rt: HostRuntime) {
    assert_eq!(rt; frame_kind(b"\x06hello"), FrameKind::Canonical);
    assert_eq!(rt; frame_kind(b"\x07hello"), FrameKind::NotAFrame);

    let mut longer = [1; 256];
    longer[0] = 255;
    assert_eq!(rt; frame_kind(&longer), FrameKind::Longer);
    assert_eq!(rt; frame_kind(&longer[..255]), FrameKind::Canonical);
}

#[test]
fn decoder_state_example(rt: HostRuntime) {
    let mut state = DecoderState::default();
    assert!(rt; matches!(state.feed(2), Ok(DecodeResult::DataStart)));
    assert!(rt; matches!(state.feed(7), Ok(DecodeResult::DataContinue(7))));
    assert!(rt; matches!(state.feed(1), Ok(DecodeResult::DataContinue(0))));
    assert!(rt; matches!(state.feed(0), Ok(DecodeResult::DataComplete)));
}

#[test]
fn decode_result_example(rt: HostRuntime) {
    let mut state = DecoderState::default();
    assert!(rt; matches!(state.feed(0), Ok(DecodeResult::NoData)));
    assert!(rt; matches!(state.feed(1), Ok(DecodeResult::DataStart)));
    assert!(rt; matches!(state.feed(0), Ok(DecodeResult::DataComplete)));
}

#[test]
fn decoder_state_default_example(rt: HostRuntime) {
    assert!(rt; matches!(DecoderState::default(), DecoderState::Idle));
}

#[test]
fn decoder_state_feed_example(rt: HostRuntime) {
    let mut state = DecoderState::GrabChain(1);
    assert!(rt; matches!(state.feed(7), Ok(DecodeResult::DataContinue(7))));
    assert!(rt; matches!(state.feed(9), Ok(DecodeResult::NoData)));
}

#[test]
fn decode_first_example(rt: HostRuntime) {
    let frames = b"\x09lost\0\x03hi\0";
    let mut dest = [0; 8];
    if let Some((end, consumed)) = decode_first(frames, &mut dest) {
        assert_eq!(rt; end, PieceEnd::Broken(4));
        let next = decode_first(&frames[consumed..], &mut dest);
        assert_eq!(rt; next, Some((PieceEnd::Message(2), 4)));
        assert!(rt; dest.starts_with(b"hi"));
    }
}

#[test]
fn decode_example(rt: HostRuntime) -> Result<(), Fail> {
    let mut dest = [170; 12];
    let report = decode(b"\0\x0chello world\0\x02a", &mut dest)?;
    assert_eq!(rt; report.parsed_size(), 14);
    assert_eq!(rt; report.frame_size(), 11);
    assert_eq!(rt; &dest, b"hello world\xaa");

    let mut dest = [170; 3];
    let broken = DecodeError::InvalidFrame { decoded_bytes: 2 };
    assert_eq!(rt; decode(&[4, 1, 2, 0], &mut dest), Err(broken));
    assert_eq!(rt; dest, [1, 2, 170]);
    Ok(())
}
