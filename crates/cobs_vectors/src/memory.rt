//! Tests of each call with too little memory.
//!
//! Each call that allocates has its own test, in which memory doesn't run out. `tests/fail-alloc.sh` runs a changed
//! copy of these tests in rounds. In each round, one allocation of each test fails: in the first round the first
//! allocation, in the second round the second, and so on. If the call made this allocation, it must return an error
//! that says so, and the test ends with the words `out of memory`. Otherwise the call must have its usual result. The
//! script stops after the first round in which no test ends with these words.
//!
//! `rt` is the runtime: an assertion that fails aborts the test through it.
use crate::bytes::repeated;
use crate::messages::encode_few;
use crate::slices::{CallResult, VectorCall, rejected, vector};
use cobs::{
    CobsDecoder, CobsDecoderHeapless, CobsDecoderOwned, DecodeVecError, FrameDecoder, FrameOutcome,
    decode_stream,
};
use std::alloc::{AllocError, Global};
use std::process::Abort;

/// Whether one growth (allocation) of each test fails: false here, and true in the copy that `tests/fail-alloc.sh`
/// runs.
const ONE_GROWTH_FAILS: bool = false;

/// A message with a zero.
const MESSAGE: &[u8] = &[10, 11, 0, 12];

/// The frame of [`MESSAGE`].
const FRAME: &[u8] = &[3, 10, 11, 2, 12];

/// The frame of [`MESSAGE`] for the sentinel 10.
const FRAME_FOR_10: &[u8] = &[9, 0, 1, 8, 6];

/// A broken frame.
const BROKEN: &[u8] = &[2, 5, 3, 1];

/// Returns whether one of the next 1,000 allocations fails.
fn is_next_failing(alloc: Global) -> bool {
    for _ in 0..1000 {
        if repeated(alloc, 0, 1).is_err() {
            return true;
        }
    }
    false
}

/// Checks that the call returned an error if and only if one of its own allocations failed. Only one allocation of each
/// test fails. So if no allocation after the call fails, an allocation of the call has failed. The test of a failed
/// call ends with the words `out of memory`.
fn check_growths(rt: &impl Abort, alloc: Global, returned: Result<(), AllocError>) {
    let has_failed = ONE_GROWTH_FAILS && !is_next_failing(alloc);
    assert_eq!(rt;
        returned.is_err(),
        has_failed,
        "out of memory, and whether a growth failed"
    );
    assert!(rt; !has_failed, "out of memory");
}

/// Checks that a call that returns a vector returns this vector or this error. Returns an error if memory runs out.
fn find_vector(
    rt: &impl Abort,
    alloc: Global,
    call: VectorCall,
    source: &[u8],
    wanted: Result<&[u8], CallResult>,
) -> Result<(), AllocError> {
    match vector(rt, alloc, call, source) {
        Ok(found) => assert_eq!(rt; Ok(found.as_slice()), wanted),
        Err(DecodeVecError::Decode(error)) => assert_eq!(rt; Err(rejected(&error)), wanted),
        Err(DecodeVecError::Memory(AllocError)) => return Err(AllocError),
    }
    Ok(())
}

/// Checks that `encode_frames` returns the right frames. Returns an error if memory runs out.
fn find_frames(rt: &impl Abort, alloc: Global) -> Result<(), AllocError> {
    // The allocations of the messages count as allocations of the call.
    let messages = [Vec::new(alloc), [0].to_vec(alloc)?, [1, 2].to_vec(alloc)?];
    let found = encode_few(rt, alloc, &messages)?;
    assert_eq!(rt; found.as_slice(), [1, 0, 1, 1, 0, 3, 1, 2, 0].as_slice());
    Ok(())
}

/// A stream of four pieces for a decoder with a buffer of two bytes: a piece that is too long, a message, a broken
/// piece, and the empty message.
const STREAM: [u8; 14] = [4, 7, 8, 9, 0, 2, 5, 0, 3, 1, 0, 0, 1, 0];

/// Returns whether these are the outcomes of [`STREAM`] in a buffer of two bytes.
fn are_its_outcomes(outcomes: &[FrameOutcome]) -> bool {
    match outcomes {
        [
            FrameOutcome::TooLong,
            FrameOutcome::Message(five),
            FrameOutcome::Broken(1),
            FrameOutcome::Message(empty),
        ] => five.as_slice() == [5].as_slice() && empty.is_empty(),
        _ => false,
    }
}

/// Checks that `decode_stream` returns the outcomes of [`STREAM`]. If memory runs out, checks that the decoder is idle,
/// and returns an error.
fn find_outcomes<D: FrameDecoder + Drop>(
    rt: &impl Abort,
    alloc: Global,
    mut decoder: D,
) -> Result<(), AllocError> {
    match decode_stream(alloc, &mut decoder, &STREAM) {
        Ok(outcomes) => {
            assert!(rt; are_its_outcomes(&outcomes), "{outcomes:?}");
            Ok(())
        }
        Err(AllocError) => {
            check_idle(rt, alloc, decoder);
            Err(AllocError)
        }
    }
}

/// Checks that the decoder is idle: with enough memory, it decodes the next frame.
fn check_idle<D: FrameDecoder + Drop>(rt: &impl Abort, alloc: Global, mut decoder: D) {
    match decode_stream(alloc, &mut decoder, &[2, 5, 0]) {
        Ok(outcomes) => match outcomes.as_slice() {
            [FrameOutcome::Message(five)] => {
                assert_eq!(rt; five.as_slice(), [5].as_slice());
            }
            _ => panic!(rt; "the decoder was not idle: {outcomes:?}"),
        },
        Err(AllocError) => panic!(rt; "a second growth failed"),
    }
}

/// Checks the outcomes of [`STREAM`] with a `CobsDecoderOwned`, which allocates its buffer.
fn find_owned(rt: &impl Abort, alloc: Global) -> Result<(), AllocError> {
    let decoder = CobsDecoderOwned::new(alloc, 2)?;
    assert_eq!(rt; decoder.dest(), [0, 0].as_slice());
    find_outcomes(rt, alloc, decoder)
}

/// Checks a call that returns a vector. The test of each call of this kind calls this function.
fn check_vector(
    rt: &impl Abort,
    alloc: Global,
    call: VectorCall,
    source: &[u8],
    wanted: Result<&[u8], CallResult>,
) {
    let returned = find_vector(rt, alloc, call, source, wanted);
    check_growths(rt, alloc, returned);
}

#[test]
fn encode_vec(rt: HostRuntime) {
    check_vector(&rt, rt.alloc(), VectorCall::Encode, MESSAGE, Ok(FRAME));
}

#[test]
fn encode_vec_including_sentinels(rt: HostRuntime) {
    let call = VectorCall::EncodeIncludingSentinels;
    check_vector(
        &rt,
        rt.alloc(),
        call,
        MESSAGE,
        Ok(&[0, 3, 10, 11, 2, 12, 0]),
    );
}

#[test]
fn encode_vec_with_sentinel(rt: HostRuntime) {
    let call = VectorCall::EncodeWithSentinel(10);
    check_vector(&rt, rt.alloc(), call, MESSAGE, Ok(FRAME_FOR_10));
}

#[test]
fn decode_vec(rt: HostRuntime) {
    check_vector(&rt, rt.alloc(), VectorCall::Decode, FRAME, Ok(MESSAGE));
}

#[test]
fn decode_vec_of_a_broken_frame(rt: HostRuntime) {
    // The decoded bytes are 5, 0 and 1: they include the byte of the broken block.
    let wanted = Err(CallResult::InvalidFrame(3));
    check_vector(&rt, rt.alloc(), VectorCall::Decode, BROKEN, wanted);
}

#[test]
fn decode_vec_with_sentinel(rt: HostRuntime) {
    let call = VectorCall::DecodeWithSentinel(10);
    check_vector(&rt, rt.alloc(), call, FRAME_FOR_10, Ok(MESSAGE));
}

#[test]
fn decode_vec_with_sentinel_0(rt: HostRuntime) {
    // For the sentinel 0, the frame is the one that `decode_vec` decodes.
    let call = VectorCall::DecodeWithSentinel(0);
    check_vector(&rt, rt.alloc(), call, FRAME, Ok(MESSAGE));
}

#[test]
fn decode_vec_with_sentinel_of_a_broken_frame(rt: HostRuntime) {
    let call = VectorCall::DecodeWithSentinel(0);
    // The decoded bytes are 5 and 0: for a sentinel, they don't include the byte of the broken block.
    let wanted = Err(CallResult::InvalidFrame(2));
    check_vector(&rt, rt.alloc(), call, BROKEN, wanted);
}

#[test]
fn an_empty_source_takes_no_memory(rt: HostRuntime) {
    let alloc = rt.alloc();
    for call in [VectorCall::Decode, VectorCall::DecodeWithSentinel(7)] {
        let returned = find_vector(&rt, alloc, call, &[], Err(CallResult::EmptyFrame));
        assert!(rt; returned.is_ok());
    }
    check_growths(&rt, alloc, Ok(()));
}

#[test]
fn encode_frames(rt: HostRuntime) {
    let returned = find_frames(&rt, rt.alloc());
    check_growths(&rt, rt.alloc(), returned);
}

#[test]
fn decode_stream_over_a_slice(rt: HostRuntime) {
    let returned = find_outcomes(&rt, rt.alloc(), CobsDecoder::new(&mut [0; 2]));
    check_growths(&rt, rt.alloc(), returned);
}

#[test]
fn decode_stream_over_an_array(rt: HostRuntime) {
    let returned = find_outcomes(&rt, rt.alloc(), CobsDecoderHeapless::<2>::new());
    check_growths(&rt, rt.alloc(), returned);
}

#[test]
fn decode_stream_over_a_vector(rt: HostRuntime) {
    let returned = find_owned(&rt, rt.alloc());
    check_growths(&rt, rt.alloc(), returned);
}

#[test]
fn more_memory_than_there_is_is_an_error(rt: HostRuntime) {
    for room in [usize::MAX, usize::MAX / 4] {
        assert!(rt; CobsDecoderOwned::new(rt.alloc(), room).is_err());
    }
}
