//! The examples in the documentation of the streams and readers of `cobs`, as tests.
//!
//! Everything below the imports is written by `tests/docs.py --write` from the doc comments of
//! `crates/cobs/src/stream.rt` and `framed.rt`. To change an example, change it there.

use cobs::{
    CobsDecoder, CobsDecoderHeapless, FrameDecoder, FrameOutcome, FrameReader, FrameSource, Next,
    ReadFault, Recorded, decode_stream, encode_frames, encode_frames_room,
};
use std::test::Fail;

#[test]
fn frame_outcome_example(rt: HostRuntime) -> Result<(), Fail> {
    let alloc = rt.alloc();
    let mut decoder = CobsDecoderHeapless::<4>::new();
    let found = decode_stream(alloc, &mut decoder, &[2, 7, 0])?;
    let message = FrameOutcome::Message([7].to_vec(alloc)?);
    assert_eq!(rt; found.first(), Some(&message));
    Ok(())
}

#[test]
fn decode_stream_example(rt: HostRuntime) -> Result<(), Fail> {
    let alloc = rt.alloc();
    let mut buffer = [0; 4];
    let mut decoder = CobsDecoder::new(&mut buffer);
    let found = decode_stream(alloc, &mut decoder, b"\x03hi\0\x03a\0\x06hello\0\x02")?;
    assert_eq!(rt; found.len(), 3);
    assert_eq!(rt; found[0], FrameOutcome::Message(b"hi".to_vec(alloc)?));
    assert_eq!(rt; found[1], FrameOutcome::Broken(1));
    assert_eq!(rt; found[2], FrameOutcome::TooLong);
    Ok(())
}

#[test]
fn encode_frames_example(rt: HostRuntime) -> Result<(), Fail> {
    let alloc = rt.alloc();
    let messages = [b"hi".to_vec(alloc)?, Vec::new(alloc)];
    if encode_frames_room(&messages).is_some() {
        let stream = encode_frames(alloc, &messages)?;
        assert_eq!(rt; stream.as_slice(), b"\x03hi\0\x01\0".as_slice());
    }
    Ok(())
}

#[test]
fn encode_frames_room_example(rt: HostRuntime) -> Result<(), Fail> {
    let alloc = rt.alloc();
    let messages = [b"hi".to_vec(alloc)?, Vec::new(alloc)];
    assert_eq!(rt; encode_frames_room(&messages), Some(6));
    Ok(())
}

#[test]
fn next_example(rt: HostRuntime) {
    let mut source = Recorded::new([3, 7, 0].as_slice());
    let mut reader = FrameReader::new(CobsDecoderHeapless::<8>::new());
    assert_eq!(rt; reader.next_frame(&mut source), Ok(Next::Broken(1)));
}

/// The example of `ReadFault`.
pub fn next_or_more<D: FrameDecoder, S: FrameSource>(
    reader: &mut FrameReader<D>,
    source: &mut S,
) -> Option<Next> {
    match reader.next_frame(source) {
        Ok(next) => Some(next),
        Err(ReadFault::TooManyReads) => reader.next_frame(source).ok(),
        Err(ReadFault::Io) => None,
    }
}

#[test]
fn frame_source_example(rt: HostRuntime) {
    let mut source = Recorded::new([2, 7].as_slice());
    let mut chunk = [0; 64];
    assert_eq!(rt; source.read_some(&mut chunk), Some(2));
    assert!(rt; chunk.starts_with(&[2, 7]));
    assert_eq!(rt; source.read_some(&mut chunk), Some(0));
}

#[test]
fn frame_source_read_some_example(rt: HostRuntime) {
    let mut source = Recorded::new([7; 100].as_slice());
    let mut chunk = [0; 64];
    assert_eq!(rt; source.read_some(&mut chunk), Some(64));
    assert_eq!(rt; source.read_some(&mut chunk), Some(36));
}

#[test]
fn recorded_example(rt: HostRuntime) {
    let mut source = Recorded::new([1, 0, 2].as_slice());
    let mut reader = FrameReader::new(CobsDecoderHeapless::<8>::new());
    assert_eq!(rt; reader.next_frame(&mut source), Ok(Next::Message(0)));
}

#[test]
fn recorded_new_example(rt: HostRuntime) {
    let mut source = Recorded::new([2, 7, 0].as_slice());
    let mut reader = FrameReader::new(CobsDecoderHeapless::<8>::new());
    assert_eq!(rt; reader.next_frame(&mut source), Ok(Next::Message(1)));
}

#[test]
fn recorded_into_inner_example(rt: HostRuntime) {
    let source = Recorded::new([1, 0].as_slice());
    assert_eq!(rt; source.into_inner(), [1, 0].as_slice());
}

#[test]
fn frame_reader_example(rt: HostRuntime) {
    let mut source = Recorded::new(b"\x06hello\0\x03h".as_slice());
    let mut reader = FrameReader::new(CobsDecoderHeapless::<8>::new());
    assert_eq!(rt; reader.next_frame(&mut source), Ok(Next::Message(5)));
    assert!(rt; reader.decoder().dest().starts_with(b"hello"));
}

#[test]
fn frame_reader_new_example(rt: HostRuntime) {
    let mut source = Recorded::new(b"".as_slice());
    let mut reader = FrameReader::new(CobsDecoderHeapless::<8>::new());
    let end = Next::End { unfinished: false };
    assert_eq!(rt; reader.next_frame(&mut source), Ok(end));
}

#[test]
fn frame_reader_decoder_example(rt: HostRuntime) {
    let reader = FrameReader::new(CobsDecoderHeapless::<2>::new());
    assert_eq!(rt; reader.decoder().dest(), [0, 0].as_slice());
}

#[test]
fn frame_reader_next_frame_example(rt: HostRuntime) {
    let mut reader = FrameReader::new(CobsDecoderHeapless::<8>::new());
    let mut first = Recorded::new([2].as_slice());
    let end = reader.next_frame(&mut first);
    assert_eq!(rt; end, Ok(Next::End { unfinished: true }));
    let mut second = Recorded::new([7, 0].as_slice());
    assert_eq!(rt; reader.next_frame(&mut second), Ok(Next::Message(1)));
}
