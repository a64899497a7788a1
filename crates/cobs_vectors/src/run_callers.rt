//! Tests that run the functions of `crate::worked_callers`, and a test of `encode_frames`.
use crate::bytes::ONES;
use crate::messages::{encode_few, three_messages};
use crate::worked_callers::{encode_both, encode_by_state, send_and_receive, write_first_borrowed};
use cobs::{CobsDecoder, DestBufTooSmallError, FrameOutcome, encode_frames_room};
use std::test::Fail;

#[test]
fn callers_that_encode(rt: HostRuntime) -> Result<(), Fail> {
    let mut dest = [170u8; 257];
    // The frame of 254 ones is one full block.
    assert_eq!(rt; encode_both(&ONES, &[], &mut dest), Ok(255));
    assert_eq!(rt; (dest[0], dest[254], dest[255]), (255, 1, 170));
    // If a zero follows the ones, two lone blocks follow the full block.
    assert_eq!(rt; encode_both(&ONES, &[0], &mut dest), Ok(257));
    assert_eq!(rt; (dest[0], dest[254], dest[255], dest[256]), (255, 1, 1, 1));
    let mut short = [170u8; 256];
    assert_eq!(rt;
        encode_both(&ONES, &[0], &mut short),
        Err(DestBufTooSmallError)
    );
    Ok(())
}

#[test]
fn a_caller_of_the_encoder_s_state(rt: HostRuntime) -> Result<(), Fail> {
    let frame = encode_by_state(rt.alloc(), &[10, 11, 0, 12])?;
    assert_eq!(rt; frame.as_slice(), [3, 10, 11, 2, 12].as_slice());
    // An open frame never ends in a full block, so the lone block follows the full block.
    let longer = encode_by_state(rt.alloc(), &ONES)?;
    assert_eq!(rt; longer.len(), 256);
    assert_eq!(rt; (longer.first(), longer.last()), (Some(&255), Some(&1)));
    Ok(())
}

#[test]
fn a_caller_that_writes_to_the_buffer_inside_a_piece(rt: HostRuntime) {
    let mut buffer = [0; 2];
    let mut decoder = CobsDecoder::new(&mut buffer);
    assert_eq!(rt; decoder.push(&[3, 7]), Ok(None));
    write_first_borrowed(&mut decoder, 8);
    assert_eq!(rt; decoder.feed(9), Ok(None));
    assert_eq!(rt; decoder.feed(0), Ok(Some(2)));
    assert_eq!(rt; decoder.dest(), [8, 9].as_slice());
}

#[test]
fn a_caller_that_sends_and_receives(rt: HostRuntime) -> Result<(), Fail> {
    let alloc = rt.alloc();
    let messages = [
        Vec::new(alloc),
        [0u8].to_vec(alloc)?,
        [1u8, 2].to_vec(alloc)?,
    ];
    let mut buffer = [0u8; 2];
    let found = send_and_receive(alloc, &mut CobsDecoder::new(&mut buffer), &messages)?;
    assert_eq!(rt; found.len(), 3);
    assert_eq!(rt;
        found.get(2),
        Some(&FrameOutcome::Message([1u8, 2].to_vec(alloc)?))
    );
    Ok(())
}

#[test]
fn frames_of_several_messages(rt: HostRuntime) -> Result<(), Fail> {
    let messages = three_messages(rt.alloc())?;
    // The frames of 0, 1 and 2 bytes have at most 1, 2 and 3 bytes, and a zero follows each.
    assert_eq!(rt; encode_frames_room(&messages), Some(9));
    let stream = encode_few(&rt, rt.alloc(), &messages)?;
    assert_eq!(rt; stream.as_slice(), [1, 0, 1, 1, 0, 3, 1, 2, 0].as_slice());
    assert_eq!(rt; encode_frames_room(&[]), Some(0));
    assert!(rt; encode_few(&rt, rt.alloc(), &[])?.is_empty());
    Ok(())
}
