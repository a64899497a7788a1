//! The examples in the documentation of `cobs` and of its encoders, as tests.
//!
//! Everything below the imports is written by `tests/docs.py --write` from the doc comments of
//! `crates/cobs/src/lib.rt`, `enc.rt` and `enc/`. To change an example, change it there.

use cobs::{
    CobsDecoder, CobsEncoder, DestBufTooSmallError, EncoderState, PushResult, UnbufferedEncoder,
    decode, encode, encode_in_place, encode_including_sentinels, encode_vec,
    encode_vec_including_sentinels, encode_vec_with_sentinel, encode_with_sentinel,
    max_encoding_length, max_encoding_overhead, try_encode, try_encode_including_sentinels,
    try_encode_with_sentinel,
};
use std::test::Fail;

#[test]
fn crate_example(rt: HostRuntime) -> Result<(), Fail> {
    let mut frame = [0; 16];
    let len = encode(b"hello", &mut frame);
    assert_eq!(rt; &frame[..len], b"\x06hello".as_slice());

    let mut message = [0; 16];
    let report = decode(&frame[..len], &mut message)?;
    assert_eq!(rt; report.frame_size(), 5);
    assert!(rt; message.starts_with(b"hello"));
    Ok(())
}

#[test]
fn crate_example_2(rt: HostRuntime) {
    let mut buffer = [0; 64];
    let mut decoder = CobsDecoder::new(&mut buffer);
    for byte in b"\x06hello\0\x03hi\0" {
        if let Ok(Some(len)) = decoder.feed(*byte) {
            let message = decoder.dest().get(..len);
            assert!(rt; message == Some(b"hello") || message == Some(b"hi"));
        }
    }
}

#[test]
fn max_encoding_overhead_example(rt: HostRuntime) {
    assert_eq!(rt; max_encoding_overhead(0), 1);
    assert_eq!(rt; max_encoding_overhead(254), 1);
    assert_eq!(rt; max_encoding_overhead(255), 2);
}

#[test]
fn max_encoding_length_example(rt: HostRuntime) {
    assert_eq!(rt; max_encoding_length(0), 1);
    assert_eq!(rt; max_encoding_length(254), 255);
    assert_eq!(rt; max_encoding_length(255), 257);
}

#[test]
fn encode_example(rt: HostRuntime) {
    let mut dest = [170; 6];
    let len = encode(&[10, 11, 0, 12], &mut dest);
    assert_eq!(rt; len, 5);
    assert_eq!(rt; dest, [3, 10, 11, 2, 12, 170]);
}

#[test]
fn try_encode_example(rt: HostRuntime) {
    let mut dest = [170; 5];
    assert_eq!(rt; try_encode(b"hello", &mut dest), Err(DestBufTooSmallError));
    assert_eq!(rt; dest, [170; 5]);
    assert_eq!(rt; try_encode(b"hell", &mut dest), Ok(5));
    assert_eq!(rt; &dest, b"\x05hell");
}

#[test]
fn cobs_encoder_example(rt: HostRuntime) -> Result<(), Fail> {
    let mut dest = [170; 7];
    let mut encoder = CobsEncoder::new(&mut dest);
    encoder.push(b"hel")?;
    encoder.push(b"lo")?;
    assert_eq!(rt; encoder.finalize(), 6);
    assert_eq!(rt; &dest, b"\x06hello\xaa");
    Ok(())
}

#[test]
fn cobs_encoder_new_example(rt: HostRuntime) {
    let mut dest = [170; 1];
    assert_eq!(rt; CobsEncoder::new(&mut dest).finalize(), 1);
    assert_eq!(rt; dest, [1]);
}

#[test]
fn cobs_encoder_push_example(rt: HostRuntime) -> Result<(), Fail> {
    let mut dest = [170; 4];
    let mut encoder = CobsEncoder::new(&mut dest);
    encoder.push(&[1, 2])?;
    assert_eq!(rt; encoder.push(&[3, 4]), Err(DestBufTooSmallError));
    assert_eq!(rt; encoder.push(&[3]), Ok(()));
    assert_eq!(rt; encoder.finalize(), 4);
    assert_eq!(rt; dest, [4, 1, 2, 3]);
    Ok(())
}

#[test]
fn cobs_encoder_finalize_example(rt: HostRuntime) -> Result<(), Fail> {
    let mut dest = [170; 3];
    let mut encoder = CobsEncoder::new(&mut dest);
    encoder.push(&[0])?;
    assert_eq!(rt; encoder.finalize(), 2);
    assert_eq!(rt; dest, [1, 1, 170]);
    Ok(())
}

#[test]
fn encode_in_place_example(rt: HostRuntime) {
    let mut buffer = *b"..hello..";
    assert_eq!(rt; encode_in_place(&mut buffer, 2, 5), 6);
    assert_eq!(rt; &buffer, b"\x06helloo..");
}

#[test]
fn encode_with_sentinel_example(rt: HostRuntime) {
    let mut dest = [170; 6];
    let len = encode_with_sentinel(&[10, 11, 0, 12], &mut dest, 255);
    assert_eq!(rt; len, 5);
    assert_eq!(rt; dest, [252, 245, 244, 253, 243, 170]);
}

#[test]
fn try_encode_with_sentinel_example(rt: HostRuntime) {
    let mut dest = [170; 3];
    let rejected = try_encode_with_sentinel(&[1, 0, 2], &mut dest, 1);
    assert_eq!(rt; rejected, Err(DestBufTooSmallError));
    assert_eq!(rt; try_encode_with_sentinel(&[1, 0], &mut dest, 1), Ok(3));
    assert_eq!(rt; dest, [3, 0, 0]);
}

#[test]
fn encode_including_sentinels_example(rt: HostRuntime) {
    let mut dest = [170; 8];
    let len = encode_including_sentinels(&[10, 11, 0, 12], &mut dest);
    assert_eq!(rt; len, 7);
    assert_eq!(rt; dest, [0, 3, 10, 11, 2, 12, 0, 170]);
}

#[test]
fn try_encode_including_sentinels_example(rt: HostRuntime) {
    let mut dest = [170; 4];
    let rejected = try_encode_including_sentinels(&[1, 2], &mut dest);
    assert_eq!(rt; rejected, Err(DestBufTooSmallError));
    assert_eq!(rt; try_encode_including_sentinels(&[1], &mut dest), Ok(4));
    assert_eq!(rt; dest, [0, 2, 1, 0]);
}

#[test]
fn push_result_example(rt: HostRuntime) {
    let mut state = EncoderState::default();
    assert!(rt; matches!(state.push(7), PushResult::AddSingle(7)));
    assert!(rt; matches!(state.push(0), PushResult::ModifyFromStartAndSkip((0, 2))));
}

#[test]
fn encoder_state_example(rt: HostRuntime) {
    let mut output = [0; 3];
    let mut state = EncoderState::default();
    if let PushResult::AddSingle(byte) = state.push(7) {
        output[1] = byte;
    }
    if let PushResult::ModifyFromStartAndSkip((0, code)) = state.push(0) {
        output[0] = code;
    }
    assert_eq!(rt; state.finalize(), (2, 1));
    output[2] = 1;
    assert_eq!(rt; output, [2, 7, 1]);
}

#[test]
fn encoder_state_default_example(rt: HostRuntime) {
    let state = EncoderState::default();
    assert_eq!(rt; state.finalize(), (0, 1));
}

#[test]
fn encoder_state_clone_example(rt: HostRuntime) -> Result<(), Fail> {
    let mut state = EncoderState::default();
    let copy = state.clone()?;
    let _returned = state.push(7);
    assert_eq!(rt; state.finalize(), (0, 2));
    assert_eq!(rt; copy.finalize(), (0, 1));
    Ok(())
}

#[test]
fn encoder_state_can_push_example(rt: HostRuntime) {
    assert!(rt; EncoderState::default().can_push());
}

#[test]
fn encoder_state_push_example(rt: HostRuntime) {
    let mut state = EncoderState::default();
    assert!(rt; matches!(state.push(0), PushResult::ModifyFromStartAndSkip((0, 1))));
    assert!(rt; matches!(state.push(9), PushResult::AddSingle(9)));
}

#[test]
fn encoder_state_finalize_example(rt: HostRuntime) {
    assert_eq!(rt; EncoderState::default().finalize(), (0, 1));
}

#[test]
fn unbuffered_encoder_example(rt: HostRuntime) -> Result<(), Fail> {
    let mut encoder = UnbufferedEncoder::new();
    let mut buffer = [0; 64];
    encoder.push(&mut buffer, b"hel")?;
    encoder.push(&mut buffer, b"lo")?;
    assert_eq!(rt; (encoder.index, encoder.taken, encoder.full), (0, 5, 0));
    assert_eq!(rt; encoder.finalize(&mut buffer), Ok(6));
    assert!(rt; buffer.starts_with(b"\x06hello"));
    Ok(())
}

#[test]
fn unbuffered_encoder_new_example(rt: HostRuntime) {
    let mut buffer = [170; 2];
    assert_eq!(rt; UnbufferedEncoder::new().finalize(&mut buffer), Ok(1));
    assert_eq!(rt; buffer, [1, 170]);
}

#[test]
fn unbuffered_encoder_reset_example(rt: HostRuntime) -> Result<(), Fail> {
    let mut buffer = [170; 2];
    let mut encoder = UnbufferedEncoder::new();
    encoder.push(&mut buffer, &[7])?;
    encoder.reset();
    assert_eq!(rt; encoder.finalize(&mut buffer), Ok(1));
    assert_eq!(rt; buffer, [1, 7]);
    Ok(())
}

#[test]
fn unbuffered_encoder_push_example(rt: HostRuntime) {
    let mut buffer = [170; 3];
    let mut encoder = UnbufferedEncoder::new();
    let rejected = encoder.push(&mut buffer, &[7, 8, 9]);
    assert_eq!(rt; rejected, Err(DestBufTooSmallError));
    assert_eq!(rt; encoder.push(&mut buffer, &[7, 8]), Ok(()));
    assert_eq!(rt; encoder.finalize(&mut buffer), Ok(3));
    assert_eq!(rt; buffer, [3, 7, 8]);
}

#[test]
fn unbuffered_encoder_finalize_example(rt: HostRuntime) {
    let rejected = UnbufferedEncoder::new().finalize(&mut []);
    assert_eq!(rt; rejected, Err(DestBufTooSmallError));
}

#[test]
fn unbuffered_encoder_feed_example(rt: HostRuntime) {
    let mut buffer = [170; 2];
    let mut encoder = UnbufferedEncoder::new();
    assert_eq!(rt; encoder.feed(&mut buffer, 7), Ok(()));
    assert_eq!(rt; encoder.feed(&mut buffer, 8), Err(DestBufTooSmallError));
    assert_eq!(rt; encoder.finalize(&mut buffer), Ok(2));
    assert_eq!(rt; buffer, [2, 7]);
}

#[test]
fn encode_vec_example(rt: HostRuntime) -> Result<(), Fail> {
    let alloc = rt.alloc();
    let frame = encode_vec(alloc, b"hello")?;
    assert_eq!(rt; frame.as_slice(), b"\x06hello".as_slice());
    Ok(())
}

#[test]
fn encode_vec_including_sentinels_example(rt: HostRuntime) -> Result<(), Fail> {
    let alloc = rt.alloc();
    let delimited = encode_vec_including_sentinels(alloc, b"hello")?;
    assert_eq!(rt; delimited.as_slice(), b"\0\x06hello\0".as_slice());
    Ok(())
}

#[test]
fn encode_vec_with_sentinel_example(rt: HostRuntime) -> Result<(), Fail> {
    let alloc = rt.alloc();
    let frame = encode_vec_with_sentinel(alloc, &[10, 11, 0, 12], 255)?;
    assert_eq!(rt; frame.as_slice(), [252, 245, 244, 253, 243].as_slice());
    Ok(())
}
