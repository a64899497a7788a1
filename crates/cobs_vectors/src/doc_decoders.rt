//! The examples in the documentation of the streaming decoders of `cobs`, as tests.
//!
//! Everything below the imports is written by `tests/docs.py --write` from the doc comments of
//! `buffered.rt`, `frame_decoder.rt`, `heapless.rt` and `unbuffered.rt` in `crates/cobs/src/dec`. To change
//! an example, change its doc comment.

use arrayvec::ArrayVec;
use cobs::{
    CobsDecoder, CobsDecoderHeapless, CobsDecoderOwned, DecodeError, FrameDecoder, PieceEnd,
    UnbufferedDecoder, WriteBuffer,
};
use std::test::Fail;

#[test]
fn cobs_decoder_example(rt: HostRuntime) -> Result<(), Fail> {
    let mut buffer = [0; 8];
    let mut decoder = CobsDecoder::new(&mut buffer);
    assert_eq!(rt; decoder.push(b"\x06hel"), Ok(None));
    let report = decoder.push(b"lo\0\x03hi\0")?;
    let sizes = report.map(|report| (report.parsed_size(), report.frame_size()));
    assert_eq!(rt; sizes, Some((3, 5)));
    assert!(rt; decoder.dest().starts_with(b"hello"));
    Ok(())
}

#[test]
fn cobs_decoder_new_example(rt: HostRuntime) -> Result<(), Fail> {
    let mut decoder = CobsDecoder::new(&mut []);
    let size = decoder.push(&[1, 0])?.map(|report| report.frame_size());
    assert_eq!(rt; size, Some(0));
    Ok(())
}

#[test]
fn cobs_decoder_feed_example(rt: HostRuntime) {
    let mut buffer = [0; 2];
    let mut decoder = CobsDecoder::new(&mut buffer);
    assert_eq!(rt; decoder.feed(2), Ok(None));
    assert_eq!(rt; decoder.feed(7), Ok(None));
    assert_eq!(rt; decoder.feed(0), Ok(Some(1)));
    assert_eq!(rt; decoder.dest(), [7, 0].as_slice());
}

#[test]
fn cobs_decoder_push_example(rt: HostRuntime) -> Result<(), Fail> {
    let mut buffer = [0; 2];
    let mut decoder = CobsDecoder::new(&mut buffer);
    let bytes = [2, 7, 0, 2, 8, 0];
    let taken = decoder.push(&bytes)?.map(|report| report.parsed_size());
    assert_eq!(rt; taken, Some(3));
    Ok(())
}

#[test]
fn cobs_decoder_dest_example(rt: HostRuntime) {
    let mut buffer = [7; 2];
    assert_eq!(rt; CobsDecoder::new(&mut buffer).dest(), [7, 7].as_slice());
}

#[test]
fn cobs_decoder_dest_mut_example(rt: HostRuntime) {
    let mut buffer = [7; 2];
    let mut decoder = CobsDecoder::new(&mut buffer);
    decoder.dest_mut().fill(9);
    assert_eq!(rt; decoder.dest(), [9, 9].as_slice());
}

#[test]
fn cobs_decoder_owned_example(rt: HostRuntime) -> Result<(), Fail> {
    let alloc = rt.alloc();
    let mut decoder = CobsDecoderOwned::new(alloc, 8)?;
    assert_eq!(rt; decoder.feed(2), Ok(None));
    assert_eq!(rt; decoder.feed(7), Ok(None));
    assert_eq!(rt; decoder.feed(0), Ok(Some(1)));
    assert!(rt; decoder.dest().starts_with(&[7]));
    Ok(())
}

#[test]
fn cobs_decoder_owned_new_example(rt: HostRuntime) -> Result<(), Fail> {
    let alloc = rt.alloc();
    assert_eq!(rt; CobsDecoderOwned::new(alloc, 2)?.dest(), [0, 0].as_slice());
    Ok(())
}

#[test]
fn cobs_decoder_owned_feed_example(rt: HostRuntime) -> Result<(), Fail> {
    let alloc = rt.alloc();
    let mut decoder = CobsDecoderOwned::new(alloc, 0)?;
    assert_eq!(rt; decoder.feed(2), Ok(None));
    assert_eq!(rt; decoder.feed(7), Err(DecodeError::TargetBufTooSmall));
    assert_eq!(rt; decoder.feed(0), Err(DecodeError::TargetBufTooSmall));
    Ok(())
}

#[test]
fn cobs_decoder_owned_push_example(rt: HostRuntime) -> Result<(), Fail> {
    let alloc = rt.alloc();
    let mut decoder = CobsDecoderOwned::new(alloc, 8)?;
    assert_eq!(rt; decoder.push(b"\x06hel"), Ok(None));
    let size = decoder.push(b"lo\0")?.map(|report| report.frame_size());
    assert_eq!(rt; size, Some(5));
    assert!(rt; decoder.dest().starts_with(b"hello"));
    Ok(())
}

#[test]
fn cobs_decoder_owned_reset_example(rt: HostRuntime) -> Result<(), Fail> {
    let alloc = rt.alloc();
    let mut decoder = CobsDecoderOwned::new(alloc, 8)?;
    assert_eq!(rt; decoder.push(&[9, 9]), Ok(None));
    decoder.reset();
    let size = decoder.push(&[1, 0])?.map(|report| report.frame_size());
    assert_eq!(rt; size, Some(0));
    Ok(())
}

#[test]
fn cobs_decoder_owned_dest_example(rt: HostRuntime) -> Result<(), Fail> {
    let alloc = rt.alloc();
    let decoder = CobsDecoderOwned::new(alloc, 3)?;
    assert_eq!(rt; decoder.dest().len(), 3);
    Ok(())
}

#[test]
fn cobs_decoder_owned_dest_mut_example(rt: HostRuntime) -> Result<(), Fail> {
    let alloc = rt.alloc();
    let mut decoder = CobsDecoderOwned::new(alloc, 2)?;
    decoder.dest_mut().fill(9);
    assert_eq!(rt; decoder.dest(), [9, 9].as_slice());
    Ok(())
}

#[test]
fn piece_end_example(rt: HostRuntime) {
    let mut decoder = CobsDecoderHeapless::<1>::new();
    let end = decoder.feed_piece(&[2, 7, 0]);
    assert_eq!(rt; end, Some((PieceEnd::Message(1), 3)));
}

#[test]
fn piece_end_reported_example(rt: HostRuntime) {
    let mut decoder = UnbufferedDecoder::new();
    let mut buffer = [0; 4];
    assert_eq!(rt; decoder.push(&mut buffer, &[3, 7]), Ok(None));
    let end = PieceEnd::reported(decoder.feed(&mut buffer, 0));
    assert_eq!(rt; end, Some(PieceEnd::Broken(1)));
}

#[test]
fn frame_decoder_example(rt: HostRuntime) {
    let mut decoder = CobsDecoderHeapless::<4>::new();
    let stream = [3, 7, 0, 2, 9, 0];
    assert_eq!(rt; decoder.feed_piece(&stream), Some((PieceEnd::Broken(1), 3)));
}

#[test]
fn frame_decoder_feed_byte_example(rt: HostRuntime) {
    let mut decoder = CobsDecoderHeapless::<1>::new();
    assert_eq!(rt; decoder.feed_byte(1), Ok(None));
    assert_eq!(rt; decoder.feed_byte(0), Ok(Some(0)));
}

#[test]
fn frame_decoder_feed_piece_example(rt: HostRuntime) {
    let mut decoder = CobsDecoderHeapless::<1>::new();
    assert_eq!(rt; decoder.feed_piece(&[2]), None);
    let end = decoder.feed_piece(&[7, 0, 1]);
    assert_eq!(rt; end, Some((PieceEnd::Message(1), 2)));
}

#[test]
fn frame_decoder_buffer_example(rt: HostRuntime) {
    assert_eq!(rt; CobsDecoderHeapless::<2>::new().buffer(), [0, 0].as_slice());
}

#[test]
fn write_buffer_example(rt: HostRuntime) {
    let mut buffer = [0; 3];
    let mut decoder = CobsDecoder::new(&mut buffer);
    assert_eq!(rt; decoder.push(&[3, 7]), Ok(None));
    decoder.write_dest(0, &[9]);
    assert_eq!(rt; decoder.feed(8), Ok(None));
    assert_eq!(rt; decoder.feed(0), Ok(Some(2)));
    assert_eq!(rt; decoder.dest(), [9, 8, 0].as_slice());
}

#[test]
fn write_buffer_dest_mut_example(rt: HostRuntime) {
    let mut decoder = CobsDecoderHeapless::<2>::new();
    WriteBuffer::dest_mut(&mut decoder).fill(9);
    assert_eq!(rt; decoder.buffer(), [9, 9].as_slice());
}

#[test]
fn write_buffer_write_dest_example(rt: HostRuntime) {
    let mut decoder = CobsDecoderHeapless::<3>::new();
    decoder.write_dest(1, &[8, 9]);
    assert_eq!(rt; decoder.buffer(), [0, 8, 9].as_slice());
}

#[test]
fn cobs_decoder_heapless_example(rt: HostRuntime) {
    let mut decoder = CobsDecoderHeapless::<2>::new();
    assert_eq!(rt; decoder.feed(2), Ok(None));
    assert_eq!(rt; decoder.feed(7), Ok(None));
    assert_eq!(rt; decoder.feed(0), Ok(Some(1)));
    assert_eq!(rt; decoder.dest(), [7, 0].as_slice());
}

#[test]
fn cobs_decoder_heapless_new_example(rt: HostRuntime) {
    assert_eq!(rt; CobsDecoderHeapless::<2>::new().dest(), [0, 0].as_slice());
}

#[test]
fn cobs_decoder_heapless_new_with_vec_example(rt: HostRuntime) {
    let mut vec = ArrayVec::<u8, 3>::new();
    vec.push(7);
    let decoder = CobsDecoderHeapless::new_with_vec(vec);
    assert_eq!(rt; decoder.dest(), [7, 0, 0].as_slice());
}

#[test]
fn cobs_decoder_heapless_feed_example(rt: HostRuntime) {
    let mut decoder = CobsDecoderHeapless::<4>::new();
    assert_eq!(rt; decoder.feed(3), Ok(None));
    assert_eq!(rt; decoder.feed(7), Ok(None));
    let broken = DecodeError::InvalidFrame { decoded_bytes: 1 };
    assert_eq!(rt; decoder.feed(0), Err(broken));
}

#[test]
fn cobs_decoder_heapless_push_example(rt: HostRuntime) -> Result<(), Fail> {
    let mut decoder = CobsDecoderHeapless::<8>::new();
    assert_eq!(rt; decoder.push(b"\x06hel"), Ok(None));
    let size = decoder.push(b"lo\0")?.map(|report| report.frame_size());
    assert_eq!(rt; size, Some(5));
    assert!(rt; decoder.dest().starts_with(b"hello"));
    Ok(())
}

#[test]
fn cobs_decoder_heapless_reset_example(rt: HostRuntime) -> Result<(), Fail> {
    let mut decoder = CobsDecoderHeapless::<8>::new();
    assert_eq!(rt; decoder.push(&[9, 9]), Ok(None));
    decoder.reset();
    let size = decoder.push(&[1, 0])?.map(|report| report.frame_size());
    assert_eq!(rt; size, Some(0));
    Ok(())
}

#[test]
fn cobs_decoder_heapless_dest_example(rt: HostRuntime) {
    assert_eq!(rt; CobsDecoderHeapless::<3>::new().dest().len(), 3);
}

#[test]
fn cobs_decoder_heapless_dest_mut_example(rt: HostRuntime) {
    let mut decoder = CobsDecoderHeapless::<2>::new();
    decoder.dest_mut().fill(9);
    assert_eq!(rt; decoder.dest(), [9, 9].as_slice());
}

#[test]
fn cobs_decoder_heapless_default_example(rt: HostRuntime) {
    let decoder = CobsDecoderHeapless::<2>::default();
    assert_eq!(rt; decoder.dest(), [0, 0].as_slice());
}

#[test]
fn unbuffered_decoder_example(rt: HostRuntime) -> Result<(), Fail> {
    let mut decoder = UnbufferedDecoder::new();
    let mut buffer = [0; 64];
    let report = decoder.push(&mut buffer, b"\x06hello\0")?;
    assert_eq!(rt; report.map(|report| report.frame_size()), Some(5));
    assert!(rt; buffer.starts_with(b"hello"));
    Ok(())
}

#[test]
fn unbuffered_decoder_new_example(rt: HostRuntime) -> Result<(), Fail> {
    let mut decoder = UnbufferedDecoder::new();
    let report = decoder.push(&mut [], &[1, 0])?;
    assert_eq!(rt; report.map(|report| report.frame_size()), Some(0));
    Ok(())
}

#[test]
fn unbuffered_decoder_is_idle_example(rt: HostRuntime) {
    let mut decoder = UnbufferedDecoder::new();
    assert!(rt; decoder.is_idle());
    assert_eq!(rt; decoder.push(&mut [0; 4], &[2]), Ok(None));
    assert!(rt; !decoder.is_idle());
}

#[test]
fn unbuffered_decoder_reset_example(rt: HostRuntime) {
    let mut decoder = UnbufferedDecoder::new();
    assert_eq!(rt; decoder.push(&mut [0; 4], &[9, 9]), Ok(None));
    decoder.reset();
    assert!(rt; decoder.is_idle());
}

#[test]
fn unbuffered_decoder_feed_example(rt: HostRuntime) {
    let mut buffer = [0; 2];
    let mut decoder = UnbufferedDecoder::new();
    assert_eq!(rt; decoder.feed(&mut buffer, 2), Ok(None));
    assert_eq!(rt; decoder.feed(&mut buffer, 7), Ok(None));
    assert_eq!(rt; decoder.feed(&mut buffer, 0), Ok(Some(1)));
    assert_eq!(rt; buffer, [7, 0]);
}

#[test]
fn unbuffered_decoder_push_example(rt: HostRuntime) {
    let mut buffer = [0; 2];
    let mut decoder = UnbufferedDecoder::new();
    let rejected = decoder.push(&mut buffer, &[4, 7, 8, 9, 0]);
    assert_eq!(rt; rejected.map_err(|rejected| rejected.parsed_size), Err(4));
    assert_eq!(rt; buffer, [7, 8]);
}

#[test]
fn unbuffered_decoder_feed_piece_example(rt: HostRuntime) {
    let mut decoder = UnbufferedDecoder::new();
    let mut buffer = [0; 4];
    let end = decoder.feed_piece(&mut buffer, b"\x06hello\0\x03hi\0");
    assert_eq!(rt; end, Some((PieceEnd::TooLong, 7)));
}

#[test]
fn unbuffered_decoder_feed_piece_with_sentinel_example(rt: HostRuntime) {
    let mut decoder = UnbufferedDecoder::new();
    let mut buffer = [0; 4];
    let frame = [2 ^ 10, 7 ^ 10, 1 ^ 10, 10];
    assert_eq!(rt;
        decoder.feed_piece_with_sentinel(&mut buffer, &frame[..3], 10),
        None
    );
    let end = decoder.feed_piece_with_sentinel(&mut buffer, &frame[3..], 10);
    assert_eq!(rt; end, Some((PieceEnd::Message(2), 1)));
    assert!(rt; buffer.starts_with(&[7, 0]));
}
