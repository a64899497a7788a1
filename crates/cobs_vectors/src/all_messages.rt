//! Decodes all lists of a few parts, encodes all messages of a few other parts, and compares the results with those of
//! the plain reference.
//!
//! `rt` is the runtime: an assertion that fails aborts the test through it.
use crate::bytes::{LONG_FRAME, LONG_MESSAGE, ONES, chosen, joined, repeated};
use crate::reference::{Reading, frame_of, reading_of, split_at_zero};
use crate::slices::{CallResult, Decoder, VectorCall, check_decoder, vector};
use cobs::{DestBufTooSmallError, FrameKind, frame_kind, try_encode};
use std::alloc::{AllocError, Global};
use std::process::Abort;
use std::test::Fail;

/// Returns the contents of a buffer of `room` bytes after `output` was written to its front, as far as it fits. All
/// bytes of the buffer were 170 before.
fn written(alloc: Global, output: &[u8], room: usize) -> Result<Vec<u8>, AllocError> {
    let mut filled = output.to_vec(alloc)?;
    filled.resize(filled.len().max(room), 170)?;
    filled.truncate(room);
    Ok(filled)
}

/// Checks `decode` with a buffer of `room` bytes that are all 170.
fn check_decode(rt: &impl Abort, alloc: Global, source: &[u8], room: usize) -> Result<(), Fail> {
    let zeros = source.iter().take_while(|byte| **byte == 0).count();
    let (_, behind_zeros) = source.split_at(zeros.min(source.len()));
    let (piece, behind) = split_at_zero(behind_zeros);
    let Reading {
        output,
        is_whole,
        ..
    } = reading_of(alloc, piece)?;
    let wanted = if source.is_empty() {
        CallResult::EmptyFrame
    } else if piece.is_empty() {
        CallResult::InvalidFrame(0)
    } else if output.len() > room {
        CallResult::TooSmall
    } else if !is_whole {
        CallResult::InvalidFrame(output.len())
    } else {
        let terminator = if behind.is_some() { 1 } else { 0 };
        let parsed = zeros.saturating_add(piece.len()).saturating_add(terminator);
        CallResult::Sizes(output.len(), parsed)
    };
    let before = repeated(alloc, 170, room)?;
    let after = written(alloc, &output, room)?;
    check_decoder(
        rt,
        alloc,
        (Decoder::Decode, source, &before),
        (wanted, &after),
    )
}

/// Checks `decode_in_place_report`. After the call, the buffer must begin with the kept output, and its other bytes
/// must be unchanged.
fn check_in_place(rt: &impl Abort, alloc: Global, source: &[u8]) -> Result<(), Fail> {
    let (head, _) = split_at_zero(source);
    let Reading {
        output,
        is_whole,
        kept,
    } = reading_of(alloc, head)?;
    let wanted = if source.is_empty() {
        CallResult::EmptyFrame
    } else if head.is_empty() || is_whole {
        CallResult::Sizes(output.len(), head.len())
    } else {
        CallResult::InvalidFrame(kept)
    };
    let mut after = output;
    after.truncate(kept);
    if let Some(rest) = source.get(kept..) {
        after.extend_from_slice(rest)?;
    }
    check_decoder(
        rt,
        alloc,
        (Decoder::InPlaceReport, &[], source),
        (wanted, &after),
    )
}

/// Checks `decode_with_sentinel` with a buffer of `room` bytes that are all 170.
fn check_with_sentinel(
    rt: &impl Abort,
    alloc: Global,
    source: &[u8],
    room: usize,
) -> Result<(), Fail> {
    let (head, _) = split_at_zero(source);
    let Reading {
        output,
        is_whole,
        kept,
    } = reading_of(alloc, head)?;
    let wanted = if source.is_empty() {
        CallResult::EmptyFrame
    } else if kept > room {
        CallResult::TooSmall
    } else if head.is_empty() || is_whole {
        CallResult::Length(kept)
    } else {
        CallResult::InvalidFrame(kept)
    };
    // The call writes the output without the bytes of a broken block.
    let mut known = output;
    known.truncate(kept);
    let before = repeated(alloc, 170, room)?;
    let after = written(alloc, &known, room)?;
    check_decoder(
        rt,
        alloc,
        (Decoder::WithSentinel(0), source, &before),
        (wanted, &after),
    )
}

/// Checks `frame_kind`. The bytes are a frame if they contain no zero and their last block is whole. The kind of a
/// frame is `Canonical` if the reference encodes its message as the same frame, and `Longer` otherwise.
fn check_kind(rt: &impl Abort, alloc: Global, source: &[u8]) -> Result<(), Fail> {
    let reading = reading_of(alloc, source)?;
    let wanted = if source.contains(&0) || !reading.is_whole {
        FrameKind::NotAFrame
    } else if frame_of(alloc, &reading.output)?.as_slice() == source {
        FrameKind::Canonical
    } else {
        FrameKind::Longer
    };
    assert_eq!(rt; frame_kind(source), wanted, "{source:?}");
    Ok(())
}

/// Checks `decode_in_place_report`, `frame_kind`, `decode` and `decode_with_sentinel` with this list as their input.
/// The last two are checked with buffers of each of these lengths.
fn check_list(rt: &impl Abort, alloc: Global, list: &[u8], rooms: &[usize]) -> Result<(), Fail> {
    check_in_place(rt, alloc, list)?;
    check_kind(rt, alloc, list)?;
    for room in rooms {
        check_decode(rt, alloc, list, *room)?;
        check_with_sentinel(rt, alloc, list, *room)?;
    }
    Ok(())
}

/// Checks all lists of these parts. Each pair of `counts` has the number of parts of a list, and the number of lists
/// with this number of parts.
fn check_lists(
    rt: &impl Abort,
    alloc: Global,
    parts: &[&[u8]],
    counts: &[(usize, usize)],
    rooms: &[usize],
) -> Result<(), Fail> {
    for (count, numbers) in counts {
        for number in 0..*numbers {
            let list = chosen(alloc, parts, *count, number)?;
            check_list(rt, alloc, &list, rooms)?;
        }
    }
    Ok(())
}

#[test]
fn every_short_list_decodes_as_the_reference_says(rt: HostRuntime) -> Result<(), Fail> {
    // A zero, the codes 1 to 3, and the code of a full block, in all lists of up to five bytes.
    let parts: [&[u8]; 5] = [&[0], &[1], &[2], &[3], &[255]];
    let counts = [(0, 1), (1, 5), (2, 25), (3, 125), (4, 625), (5, 3125)];
    check_lists(&rt, rt.alloc(), &parts, &counts, &[0, 1, 2, 3, 4, 5])
}

#[test]
fn every_list_with_full_blocks_decodes_as_the_reference_says(rt: HostRuntime) -> Result<(), Fail> {
    let full = joined(rt.alloc(), &[&[255], &ONES])?;
    // The last byte of this block is missing, so the byte after it in the list belongs to the block.
    let nearly_full = joined(rt.alloc(), &[&[254], &[5; 252]])?;
    let parts: [&[u8]; 5] = [&full, &nearly_full, &[0], &[1], &[2]];
    let counts = [(1, 5), (2, 25), (3, 125)];
    check_lists(
        &rt,
        rt.alloc(),
        &parts,
        &counts,
        &[253, 254, 255, 507, 508, 1000],
    )
}

#[test]
fn a_frame_of_two_thousand_bytes_decodes_as_the_reference_says(
    rt: HostRuntime,
) -> Result<(), Fail> {
    let frame = joined(rt.alloc(), LONG_FRAME)?;
    check_list(&rt, rt.alloc(), &frame, &[1000, 2000, 2001])
}

/// Checks the frame of a message with four calls: `try_encode` with a buffer that is a byte too short, `try_encode`
/// with a buffer as long as the frame, and the calls that return the frame and the message as vectors.
fn check_message(rt: &impl Abort, alloc: Global, message: &[u8], frame: &[u8]) -> Result<(), Fail> {
    let room = frame.len().saturating_sub(1);
    let mut short = repeated(alloc, 170, room)?;
    assert_eq!(rt;
        try_encode(message, &mut short),
        Err(DestBufTooSmallError),
        "{message:?}"
    );
    assert_eq!(rt; short, repeated(alloc, 170, room)?, "{message:?}");
    let mut exact = repeated(alloc, 170, frame.len())?;
    assert_eq!(rt;
        try_encode(message, &mut exact),
        Ok(frame.len()),
        "{message:?}"
    );
    assert_eq!(rt; exact.as_slice(), frame, "{message:?}");
    let made = vector(rt, alloc, VectorCall::Encode, message)?;
    assert_eq!(rt; made.as_slice(), frame, "{message:?}");
    let read = vector(rt, alloc, VectorCall::Decode, frame)?;
    assert_eq!(rt; read.as_slice(), message);
    Ok(())
}

/// Checks all messages of these parts. Each pair of `counts` has the number of parts of a message, and the number of
/// messages with this number of parts.
fn check_messages(
    rt: &impl Abort,
    alloc: Global,
    parts: &[&[u8]],
    counts: &[(usize, usize)],
) -> Result<(), Fail> {
    for (count, numbers) in counts {
        for number in 0..*numbers {
            let message = chosen(alloc, parts, *count, number)?;
            check_message(rt, alloc, &message, &frame_of(alloc, &message)?)?;
        }
    }
    Ok(())
}

#[test]
fn every_short_message_encodes_as_the_reference_says(rt: HostRuntime) -> Result<(), Fail> {
    let parts: [&[u8]; 3] = [&[0], &[1], &[255]];
    let counts = [(0, 1), (1, 3), (2, 9), (3, 27), (4, 81), (5, 243), (6, 729)];
    check_messages(&rt, rt.alloc(), &parts, &counts)
}

#[test]
fn every_message_with_long_runs_encodes_as_the_reference_says(rt: HostRuntime) -> Result<(), Fail> {
    let parts: [&[u8]; 5] = [&[0], &[1], &[1; 253], &[1; 254], &[1; 255]];
    let counts = [(1, 5), (2, 25), (3, 125), (4, 625)];
    check_messages(&rt, rt.alloc(), &parts, &counts)
}

#[test]
fn a_message_of_two_thousand_bytes_encodes_as_by_hand(rt: HostRuntime) -> Result<(), Fail> {
    let message = joined(rt.alloc(), LONG_MESSAGE)?;
    let frame = joined(rt.alloc(), LONG_FRAME)?;
    check_message(&rt, rt.alloc(), &message, &frame)
}
