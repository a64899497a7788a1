//! Decodes all lists of a few parts with each streaming decoder, and compares the results with the plain reference.
//!
//! `rt` is the runtime: an assertion that fails aborts the test through it.
use crate::bytes::{LONG_FRAME, ONES, chosen, joined};
use crate::reference::{Reading, reading_of, split_at_zero};
use crate::streaming::{CallResult, Check, StreamingDecoder, check_all, fed};
use cobs::{FrameOutcome, decode_stream};
use std::alloc::{AllocError, Global};
use std::process::Abort;
use std::test::Fail;

/// Bytes that are fed one by one to a streaming decoder with a buffer of `room` bytes.
#[derive(Drop)]
struct Fed<'a> {
    list: &'a [u8],
    room: usize,
}

impl Check for Fed<'_> {
    /// Compares the result of each byte, and the front of the buffer after the byte, with the reference.
    fn check<D: StreamingDecoder + Drop>(
        &self,
        rt: &impl Abort,
        alloc: Global,
        mut decoder: D,
    ) -> Result<(), Fail> {
        let Fed { list, room } = *self;
        let mut piece = Vec::new(alloc);
        for byte in list {
            if *byte != 0 {
                piece.push(*byte)?;
            }
            let Reading {
                output,
                is_whole,
                ..
            } = reading_of(alloc, &piece)?;
            let wanted = if output.len() > room {
                CallResult::TooSmall
            } else if *byte != 0 || piece.is_empty() {
                CallResult::Nothing
            } else if is_whole {
                CallResult::Length(output.len())
            } else {
                CallResult::InvalidFrame(output.len())
            };
            assert_eq!(rt;
                fed(decoder.feed_one(*byte)),
                wanted,
                "{byte} in {list:?} over {room}"
            );
            let (front, _) = output.split_at(output.len().min(room));
            assert!(rt;
                decoder.whole_buffer().starts_with(front),
                "{list:?} over {room}"
            );
            if *byte == 0 {
                piece.clear();
            }
        }
        Ok(())
    }
}

/// Bytes that are decoded, with a zero after them, as a stream with a buffer of `room` bytes.
#[derive(Drop)]
struct Streamed<'a> {
    list: &'a [u8],
    room: usize,
}

/// Returns the outcomes of the pieces of a stream, for a buffer of `room` bytes, as the reference computes them.
fn outcomes_of(alloc: Global, stream: &[u8], room: usize) -> Result<Vec<FrameOutcome>, AllocError> {
    let mut outcomes = Vec::new(alloc);
    let mut rest = stream;
    // Each iteration passes a zero of the stream, so there are at most as many iterations as bytes.
    for _ in stream {
        let (piece, Some(behind)) = split_at_zero(rest) else {
            break;
        };
        rest = behind;
        if !piece.is_empty() {
            let Reading {
                output,
                is_whole,
                ..
            } = reading_of(alloc, piece)?;
            outcomes.push(if output.len() > room {
                FrameOutcome::TooLong
            } else if is_whole {
                FrameOutcome::Message(output)
            } else {
                FrameOutcome::Broken(output.len())
            })?;
        }
    }
    Ok(outcomes)
}

impl Check for Streamed<'_> {
    /// Checks that each piece has the outcome that the reference computes.
    fn check<D: StreamingDecoder + Drop>(
        &self,
        rt: &impl Abort,
        alloc: Global,
        mut decoder: D,
    ) -> Result<(), Fail> {
        let Streamed { list, room } = *self;
        let stream = joined(alloc, &[list, &[0]])?;
        let wanted = outcomes_of(alloc, &stream, room)?;
        let found = decode_stream(alloc, &mut decoder, &stream)?;
        assert_eq!(rt; found, wanted, "{stream:?} over {room}");
        Ok(())
    }
}

/// Checks each decoder with buffers of these lengths. Only a short list is also fed byte by byte, because for each byte
/// the reference decodes the whole piece so far again.
fn check_list(rt: &impl Abort, alloc: Global, list: &[u8], rooms: &[usize]) -> Result<(), Fail> {
    for room in rooms {
        check_all(rt, alloc, *room, &Streamed { list, room: *room })?;
        if list.len() < 10 {
            check_all(rt, alloc, *room, &Fed { list, room: *room })?;
        }
    }
    Ok(())
}

/// Checks all lists of these parts. Each pair of `counts` has the number of parts of a list, and the number of lists
/// with this number of parts.
fn check_lists(
    rt: &impl Abort,
    alloc: Global,
    parts: &[&[u8]],
    counts: &[(usize, usize)],
    rooms: &[usize],
) -> Result<(), Fail> {
    for (count, numbers) in counts {
        for number in 0..*numbers {
            let list = chosen(alloc, parts, *count, number)?;
            check_list(rt, alloc, &list, rooms)?;
        }
    }
    Ok(())
}

#[test]
fn every_short_list_decodes_as_the_reference_says(rt: HostRuntime) -> Result<(), Fail> {
    // A zero, the codes 1 to 3, and the code of a full block, in all lists of up to five bytes.
    let parts: [&[u8]; 5] = [&[0], &[1], &[2], &[3], &[255]];
    let counts = [(0, 1), (1, 5), (2, 25), (3, 125), (4, 625), (5, 3125)];
    check_lists(&rt, rt.alloc(), &parts, &counts, &[0, 1, 2, 3, 4, 5])
}

#[test]
fn every_list_with_full_blocks_decodes_as_the_reference_says(rt: HostRuntime) -> Result<(), Fail> {
    let full = joined(rt.alloc(), &[&[255], &ONES])?;
    let nearly_full = joined(rt.alloc(), &[&[254], &[5; 252]])?;
    let parts: [&[u8]; 5] = [&full, &nearly_full, &[0], &[1], &[2]];
    let counts = [(1, 5), (2, 25), (3, 125)];
    check_lists(
        &rt,
        rt.alloc(),
        &parts,
        &counts,
        &[253, 254, 255, 507, 508, 1000],
    )
}

#[test]
fn a_frame_of_two_thousand_bytes_decodes_as_the_reference_says(
    rt: HostRuntime,
) -> Result<(), Fail> {
    let frame = joined(rt.alloc(), LONG_FRAME)?;
    check_list(&rt, rt.alloc(), &frame, &[1000, 2000, 2001])
}
