//! Tests a streaming encoder over a slice: the frame doesn't depend on where the message is cut.
//!
//! `rt` is the runtime: an assertion that fails aborts the test through it.
use crate::bytes::{LONG_FRAME, LONG_MESSAGE, ONES, chosen, joined, repeated};
use crate::reference::frame_of;
use cobs::CobsEncoder;
use std::alloc::Global;
use std::process::Abort;
use std::test::Fail;

/// Encodes a message that comes in these chunks (`pieces`), and returns the frame's length.
fn encode_pieces(rt: &impl Abort, pieces: &[&[u8]], slice: &mut [u8]) -> usize {
    // `CobsEncoder::new` requires this.
    assert!(rt; !slice.is_empty());
    let mut encoder = CobsEncoder::new(slice);
    for piece in pieces {
        assert_eq!(rt; encoder.push(piece), Ok(()));
    }
    encoder.finalize()
}

/// Encodes the message in chunks of `size` bytes. The last chunk may be shorter.
pub fn encode_in_pieces(
    rt: &impl Abort,
    alloc: Global,
    message: &[u8],
    size: usize,
    slice: &mut [u8],
) -> Result<usize, Fail> {
    assert!(rt; size > 0);
    let pieces: Vec<&[u8]> = message.chunks(size).collect(alloc)?;
    Ok(encode_pieces(rt, &pieces, slice))
}

/// Checks that the message has this frame if it comes in two chunks, with an empty chunk between them and another empty
/// chunk after them. The slice is as long as the frame, or has one more byte, which must not change.
fn check_two_pieces<'a>(
    rt: &impl Abort,
    alloc: Global,
    (front, back): (&'a [u8], &'a [u8]),
    frame: &[u8],
) -> Result<(), Fail> {
    let rests: [&[u8]; 2] = [&[], &[170]];
    for rest in rests {
        let wanted = joined(alloc, &[frame, rest])?;
        let mut slice = repeated(alloc, 170, wanted.len())?;
        let len = encode_pieces(rt, &[front, &[], back, &[]], &mut slice);
        assert_eq!(rt; len, frame.len(), "{front:?} and {back:?}");
        assert_eq!(rt; slice, wanted, "{front:?} and {back:?}");
    }
    Ok(())
}

#[test]
fn the_frame_is_the_same_wherever_its_message_is_cut(rt: HostRuntime) -> Result<(), Fail> {
    let alloc = rt.alloc();
    let message = joined(alloc, &[&ONES, &ONES, &[0]])?;
    let frame = joined(alloc, &[&[255], &ONES, &[255], &ONES, &[1, 1]])?;
    for cut in 0..=509 {
        let pieces = message.as_slice().split_at(message.len().min(cut));
        check_two_pieces(&rt, alloc, pieces, &frame)?;
    }
    Ok(())
}

#[test]
fn the_frame_is_the_same_for_pieces_of_any_size(rt: HostRuntime) -> Result<(), Fail> {
    let message = joined(rt.alloc(), LONG_MESSAGE)?;
    let frame = joined(rt.alloc(), LONG_FRAME)?;
    for size in [1, 7, 253, 254, 255, 1000, 2001] {
        let mut slice = repeated(rt.alloc(), 170, frame.len())?;
        let len = encode_in_pieces(&rt, rt.alloc(), &message, size, &mut slice)?;
        assert_eq!(rt; len, frame.len(), "in pieces of {size}");
        assert_eq!(rt; slice, frame, "in pieces of {size}");
    }
    Ok(())
}

/// Checks all messages of these parts. Each pair of `counts` has the number of parts of a message, and the number of
/// messages with this number of parts.
fn check_messages(
    rt: &impl Abort,
    alloc: Global,
    parts: &[&[u8]],
    counts: &[(usize, usize)],
) -> Result<(), Fail> {
    for (count, numbers) in counts {
        for number in 0..*numbers {
            let message = chosen(alloc, parts, *count, number)?;
            // The same number chooses the first half of the same parts.
            let front = chosen(alloc, parts, *count / 2, number)?;
            let frame = frame_of(alloc, &message)?;
            if let Some(back) = message.as_slice().get(front.len()..) {
                check_two_pieces(rt, alloc, (&front, back), &frame)?;
            }
        }
    }
    Ok(())
}

#[test]
fn every_short_message_in_two_pieces(rt: HostRuntime) -> Result<(), Fail> {
    let parts: [&[u8]; 3] = [&[0], &[1], &[255]];
    let counts = [(0, 1), (1, 3), (2, 9), (3, 27), (4, 81), (5, 243), (6, 729)];
    check_messages(&rt, rt.alloc(), &parts, &counts)
}

#[test]
fn every_message_with_long_runs_in_two_pieces(rt: HostRuntime) -> Result<(), Fail> {
    let parts: [&[u8]; 5] = [&[0], &[1], &[1; 253], &[1; 254], &[1; 255]];
    let counts = [(1, 5), (2, 25), (3, 125), (4, 625)];
    check_messages(&rt, rt.alloc(), &parts, &counts)
}
