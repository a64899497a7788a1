//! Tests of the examples that are functions.
use crate::doc_laws::{
    are_equal, as_encoded, as_received, begins_with_piece, decode_block, decode_in_two,
    encode_again, encode_by_longest, encode_for_stream, encode_nonzero, encode_short, end_frame,
    feed_one, first_outcome, is_begun, is_canonical_behind, is_frame_for, is_output, join,
    one_outcome, reader_after_zero, take_nonzero,
};
use crate::doc_streams::next_or_more;
use crate::own_coders::change_sentinel;
use cobs::{
    CobsDecoder, CobsDecoderHeapless, CobsDecoderOwned, FrameOutcome, FrameReader, Next, Recorded,
    UnbufferedDecoder, encode,
};
use std::test::Fail;

#[test]
fn a_reader_that_goes_on(rt: HostRuntime) {
    let mut source = Recorded::new([2, 7, 0].as_slice());
    let mut reader = FrameReader::new(CobsDecoderHeapless::<8>::new());
    assert_eq!(rt;
        next_or_more(&mut reader, &mut source),
        Some(Next::Message(1))
    );
}

#[test]
fn laws_of_messages_and_frames(rt: HostRuntime) -> Result<(), Fail> {
    let alloc = rt.alloc();
    let mut buffer = [170; 4];
    assert!(rt; is_output(&[3, 7, 8], &[7, 8], &mut buffer));
    assert!(rt; is_frame_for(&[3, 7, 8], &[7, 8], &mut buffer));
    assert!(rt; is_begun(&[3, 7, 8], &[7, 8], &mut buffer));
    assert_eq!(rt; encode_nonzero(&[7, 8], &mut buffer), 3);
    assert_eq!(rt; encode_by_longest(&[0, 8], &mut buffer), 3);
    assert!(rt; are_equal(alloc, &[7, 0], &[7, 0])?);
    assert!(rt; !are_equal(alloc, &[7, 0], &[7])?);
    assert!(rt; is_canonical_behind(&[2, 7], &[1]));
    assert!(rt; !is_canonical_behind(&[2, 7], &[2]));
    assert_eq!(rt; decode_block(&[3, 7, 8]), [7, 8].as_slice());
    Ok(())
}

#[test]
fn laws_of_written_frames(rt: HostRuntime) -> Result<(), Fail> {
    let mut frame = [170; 4];
    assert_eq!(rt; encode_for_stream(&[7, 8], &mut frame), 3);
    let both = join(rt.alloc(), &frame[..3], &frame[..3])?;
    assert_eq!(rt; both.as_slice(), [3, 7, 8, 3, 7, 8].as_slice());
    Ok(())
}

#[test]
fn a_law_of_frames_that_are_written_twice(rt: HostRuntime) {
    let mut frame = [170; 3];
    let len = encode(&[7, 8], &mut frame);
    let mut again = [170; 3];
    assert_eq!(rt; encode_again(&[7, 8], &frame[..len], &mut again), 3);
    assert_eq!(rt; again, frame);
}

#[test]
fn laws_of_sentinels_and_open_frames(rt: HostRuntime) {
    let mut frame = [3, 7, 8, 170];
    // Each byte is XORed with 8, so the frame for 8 has a 0 in the place of the 8.
    change_sentinel(&mut frame, 8);
    assert_eq!(rt; frame, [11, 15, 0, 162]);
    assert_eq!(rt; as_received(&[9], 8), [9].as_slice());
    assert_eq!(rt; as_encoded(&[1], &[], 0, 1), [1].as_slice());
}

#[test]
fn laws_of_own_encoders(rt: HostRuntime) {
    let mut frame = [170; 4];
    assert_eq!(rt; encode_short(&[7, 8], &mut frame), 3);
    take_nonzero(&mut frame, 0, 3, 9);
    assert_eq!(rt; frame, [3, 7, 8, 9]);
}

#[test]
fn laws_of_streams(rt: HostRuntime) -> Result<(), Fail> {
    let alloc = rt.alloc();
    let mut buffer = [0; 4];
    let halves = decode_in_two(alloc, &mut CobsDecoder::new(&mut buffer), &[2], &[7, 0])?;
    assert_eq!(rt; (halves.0.len(), halves.1.len()), (0, 1));
    let found = one_outcome(alloc, &mut CobsDecoder::new(&mut buffer), &[4, 7])?;
    assert_eq!(rt; found.as_slice(), [FrameOutcome::Broken(1)].as_slice());
    assert!(rt; begins_with_piece(&[2, 7, 0]));
    let mut begun = CobsDecoderOwned::new(alloc, 4)?;
    assert_eq!(rt; begun.push(&[3, 7]), Ok(None));
    let mut source = Recorded::new([2, 8, 0].as_slice());
    assert_eq!(rt;
        reader_after_zero(begun).next_frame(&mut source),
        Ok(Next::Message(1))
    );
    assert!(rt; !begins_with_piece(&[0, 2, 7]));

    let mut decoder = UnbufferedDecoder::new();
    feed_one(&mut decoder, &mut buffer, 2);
    feed_one(&mut decoder, &mut buffer, 7);
    assert_eq!(rt; decoder.feed(&mut buffer, 0), Ok(Some(1)));

    let mut decoder = CobsDecoderOwned::new(alloc, 4)?;
    assert_eq!(rt; decoder.push(&[3, 7, 8]), Ok(None));
    assert_eq!(rt; end_frame(&mut decoder), Ok(Some(2)));

    let mut decoder = CobsDecoderOwned::new(alloc, 4)?;
    assert!(rt; !first_outcome(&mut decoder, &[2, 7]));
    Ok(())
}
