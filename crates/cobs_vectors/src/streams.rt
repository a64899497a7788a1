//! Whole streams: several frames, cut and damaged.
//!
//! `rt` is the runtime: an assertion that fails aborts the test through it.
use crate::bytes::joined;
use crate::streaming::{CallResult, Check, StreamingDecoder, check_all, pushed};
use cobs::{FrameOutcome, decode_stream};
use std::alloc::{AllocError, Global};
use std::process::Abort;
use std::test::Fail;

/// An expected outcome, like `FrameOutcome`, with a slice in place of the vector, so that it can be a constant. The
/// number of `Broken` is how many bytes the piece decodes to, including those of the broken block.
#[derive(Clone, Copy, Debug)]
enum Wanted {
    Message(&'static [u8]),
    Broken(usize),
    TooLong,
}

/// Returns the expected outcomes.
fn outcomes_of(alloc: Global, wanted: &[Wanted]) -> Result<Vec<FrameOutcome>, AllocError> {
    let mut outcomes = Vec::new(alloc);
    for outcome in wanted {
        outcomes.push(match outcome {
            Wanted::Message(message) => FrameOutcome::Message(message.to_vec(alloc)?),
            Wanted::Broken(count) => FrameOutcome::Broken(*count),
            Wanted::TooLong => FrameOutcome::TooLong,
        })?;
    }
    Ok(outcomes)
}

/// A stream, and its outcomes in a buffer of this many bytes.
type Case = (usize, &'static [u8], &'static [Wanted]);

/// A stream whose pieces, in a buffer of four bytes, are a message, a broken piece, a piece that is too long, and a
/// message.
const DAMAGED: [u8; 18] = [0, 3, 7, 8, 0, 5, 1, 0, 6, 1, 2, 3, 4, 5, 0, 2, 9, 0];

/// The outcomes of [`DAMAGED`] in a buffer of four bytes.
const OUTCOMES: [Wanted; 4] = [
    Wanted::Message(&[7, 8]),
    Wanted::Broken(1),
    Wanted::TooLong,
    Wanted::Message(&[9]),
];

/// Streams, damaged ones among them.
const CASES: [Case; 6] = [
    (
        2,
        &[4, 7, 8, 9, 0, 2, 5, 0, 3, 1, 0, 0, 1, 0],
        &[
            Wanted::TooLong,
            Wanted::Message(&[5]),
            Wanted::Broken(1),
            Wanted::Message(&[]),
        ],
    ),
    (4, &DAMAGED, &OUTCOMES),
    // the same stream with its second byte changed, and with its fourth byte changed
    (
        4,
        &[0, 2, 7, 8, 0, 5, 1, 0, 6, 1, 2, 3, 4, 5, 0, 2, 9, 0],
        &[
            Wanted::Broken(2),
            Wanted::Broken(1),
            Wanted::TooLong,
            Wanted::Message(&[9]),
        ],
    ),
    (
        4,
        &[0, 3, 7, 1, 0, 5, 1, 0, 6, 1, 2, 3, 4, 5, 0, 2, 9, 0],
        &[
            Wanted::Message(&[7, 1]),
            Wanted::Broken(1),
            Wanted::TooLong,
            Wanted::Message(&[9]),
        ],
    ),
    (
        32,
        b"\0\x0chello world\0",
        &[Wanted::Message(b"hello world")],
    ),
    // A stream without damage: the frames of three messages.
    (
        2,
        &[1, 0, 1, 1, 0, 3, 1, 2, 0],
        &[
            Wanted::Message(&[]),
            Wanted::Message(&[0]),
            Wanted::Message(&[1, 2]),
        ],
    ),
];

/// Appends the outcomes of pushing the bytes. After each result the bytes that weren't consumed are pushed again.
fn push_all<D: StreamingDecoder>(
    rt: &impl Abort,
    alloc: Global,
    decoder: &mut D,
    bytes: &[u8],
    outcomes: &mut Vec<FrameOutcome>,
) -> Result<(), Fail> {
    let mut rest = bytes;
    for _ in 0..=bytes.len() {
        let (returned, consumed) = pushed(decoder.push_some(rest), rest.len());
        let Some((taken, behind)) = rest.split_at_checked(consumed) else {
            panic!(rt; "more was consumed than was pushed");
        };
        rest = behind;
        let is_ended = taken.last() == Some(&0);
        match returned {
            CallResult::Nothing => return Ok(()),
            CallResult::Length(count) => {
                let Some(message) = decoder.whole_buffer().get(..count) else {
                    panic!(rt; "a message longer than the buffer");
                };
                assert!(rt; is_ended);
                let message = message.to_vec(alloc)?;
                assert!(rt; decoder.begins_with(&message));
                outcomes.push(FrameOutcome::Message(message))?;
            }
            CallResult::InvalidFrame(count) => {
                assert!(rt; is_ended);
                outcomes.push(FrameOutcome::Broken(count))?;
            }
            CallResult::TooSmall if is_ended => outcomes.push(FrameOutcome::TooLong)?,
            // The piece is too long, but it hasn't ended. Its zero reports this again, and then the outcome is
            // appended.
            CallResult::TooSmall => {}
        }
    }
    panic!(rt; "a push consumed nothing");
}

/// A case whose stream is decoded in chunks. It is cut at each pair of places, for three calls of `decode_stream`, some
/// of which may get no bytes, and at each place, for two rounds of pushes. The stream ends with a zero, so the decoder
/// is idle after each round.
#[derive(Drop)]
struct Cuts {
    case: Case,
}

/// Appends the outcomes of the bytes.
fn append_outcomes<D: StreamingDecoder>(
    alloc: Global,
    decoder: &mut D,
    bytes: &[u8],
    outcomes: &mut Vec<FrameOutcome>,
) -> Result<(), AllocError> {
    for outcome in decode_stream(alloc, decoder, bytes)? {
        outcomes.push(outcome)?;
    }
    Ok(())
}

impl Check for Cuts {
    fn check<D: StreamingDecoder + Drop>(
        &self,
        rt: &impl Abort,
        alloc: Global,
        mut decoder: D,
    ) -> Result<(), Fail> {
        let (_, stream, wanted) = self.case;
        let wanted = outcomes_of(alloc, wanted)?;
        let mut found = Vec::new(alloc);
        for second in 0..=stream.len() {
            let (front, third) = stream.split_at(second);
            for first in 0..=second {
                let (one, two) = front.split_at(first);
                found.clear();
                for part in [one, two, third] {
                    append_outcomes(alloc, &mut decoder, part, &mut found)?;
                }
                assert_eq!(rt; found, wanted, "{stream:?} cut at {first} and {second}");
            }
            found.clear();
            push_all(rt, alloc, &mut decoder, front, &mut found)?;
            push_all(rt, alloc, &mut decoder, third, &mut found)?;
            assert_eq!(rt; found, wanted, "{stream:?} pushed, cut at {second}");
        }
        Ok(())
    }
}

/// Checks each stream, cut at each place.
fn check_cuts(rt: &impl Abort, alloc: Global, cases: &[Case]) -> Result<(), Fail> {
    for case in cases {
        let (room, _, _) = *case;
        check_all(rt, alloc, room, &Cuts { case: *case })?;
    }
    Ok(())
}

#[test]
fn a_stream_gives_the_same_outcomes_however_it_is_cut(rt: HostRuntime) -> Result<(), Fail> {
    check_cuts(&rt, rt.alloc(), &CASES)
}

/// A stream that has the outcomes `before`, then `own` other outcomes, and then the outcomes `behind`.
#[derive(Drop)]
struct Damage<'a> {
    stream: &'a [u8],
    before: &'static [Wanted],
    own: usize,
    behind: &'static [Wanted],
}

impl Check for Damage<'_> {
    fn check<D: StreamingDecoder + Drop>(
        &self,
        rt: &impl Abort,
        alloc: Global,
        mut decoder: D,
    ) -> Result<(), Fail> {
        let stream = self.stream;
        let before = outcomes_of(alloc, self.before)?;
        let behind = outcomes_of(alloc, self.behind)?;
        let outcomes = decode_stream(alloc, &mut decoder, stream)?;
        assert!(rt;
            outcomes.as_slice().starts_with(&before),
            "{stream:?}: {outcomes:?}"
        );
        assert!(rt;
            outcomes.as_slice().ends_with(&behind),
            "{stream:?}: {outcomes:?}"
        );
        let others = before
            .len()
            .checked_add(self.own)
            .and_then(|count| count.checked_add(behind.len()));
        assert_eq!(rt; Some(outcomes.len()), others, "{stream:?}: {outcomes:?}");
        Ok(())
    }
}

/// For each nonzero byte of [`DAMAGED`]: its index in this stream, the number of its piece, and whether it is neither
/// the first nor the last byte of that piece.
const PLACES: [(usize, usize, bool); 13] = [
    (1, 0, false),
    (2, 0, true),
    (3, 0, false),
    (5, 1, false),
    (6, 1, false),
    (8, 2, false),
    (9, 2, true),
    (10, 2, true),
    (11, 2, true),
    (12, 2, true),
    (13, 2, false),
    (15, 3, false),
    (16, 3, false),
];

/// Checks a stream that differs from [`DAMAGED`] in one piece. The stream must have the outcomes of the other pieces
/// and, in place of the outcome of that piece, `own` other outcomes.
fn check_damage(
    rt: &impl Abort,
    alloc: Global,
    stream: &[u8],
    outcomes: &'static [Wanted],
    (piece, own): (usize, usize),
) -> Result<(), Fail> {
    let Some((before, rest)) = outcomes.split_at_checked(piece) else {
        panic!(rt; "there is no piece {piece}");
    };
    let Some((_, behind)) = rest.split_first() else {
        panic!(rt; "there is no piece {piece}");
    };
    check_all(
        rt,
        alloc,
        4,
        &Damage {
            stream,
            before,
            own,
            behind,
        },
    )
}

/// Replaces the byte at an index of the list.
fn write_at(rt: &impl Abort, list: &mut Vec<u8>, at: usize, byte: u8) {
    assert!(rt; at < list.len());
    list[at] = byte;
}

/// Checks streams in which the byte at one of the places is removed, or replaced by each byte.
fn check_places(
    rt: &impl Abort,
    alloc: Global,
    (stream, outcomes): (&[u8], &'static [Wanted]),
    places: &[(usize, usize, bool)],
) -> Result<(), Fail> {
    let mut changed = stream.to_vec(alloc)?;
    for (at, piece, is_inside) in places {
        let Some((front, behind)) = stream.split_at_checked(*at) else {
            panic!(rt; "the stream has no place {at}");
        };
        let Some((old, behind)) = behind.split_first() else {
            panic!(rt; "the stream has no place {at}");
        };
        for byte in 0..=255u8 {
            write_at(rt, &mut changed, *at, byte);
            // A zero inside a piece makes two pieces of it. A zero in place of its first or last byte makes it shorter.
            let own = if byte == 0 && *is_inside { 2 } else { 1 };
            check_damage(rt, alloc, &changed, outcomes, (*piece, own))?;
        }
        write_at(rt, &mut changed, *at, *old);
        let without = joined(alloc, &[front, behind])?;
        check_damage(rt, alloc, &without, outcomes, (*piece, 1))?;
    }
    Ok(())
}

#[test]
fn damage_changes_the_outcome_of_its_own_piece_alone(rt: HostRuntime) -> Result<(), Fail> {
    check_places(&rt, rt.alloc(), (&DAMAGED, &OUTCOMES), &PLACES)
}

/// Checks that each front of the stream has the outcomes of the pieces that end in it.
fn check_fronts(
    rt: &impl Abort,
    alloc: Global,
    (stream, outcomes): (&[u8], &'static [Wanted]),
    ends: &[usize],
) -> Result<(), Fail> {
    for count in 0..=stream.len() {
        let ended = ends.iter().filter(|end| **end <= count).count();
        let (Some((front, _)), Some((before, _))) = (
            stream.split_at_checked(count),
            outcomes.split_at_checked(ended),
        ) else {
            panic!(rt; "{ended} pieces end in the first {count} bytes");
        };
        check_all(
            rt,
            alloc,
            4,
            &Damage {
                stream: front,
                before,
                own: 0,
                behind: &[],
            },
        )?;
    }
    Ok(())
}

#[test]
fn a_front_gives_the_outcomes_of_the_pieces_that_end_in_it(rt: HostRuntime) -> Result<(), Fail> {
    // The four pieces end with the fifth, the eighth, the fifteenth and the last byte.
    check_fronts(&rt, rt.alloc(), (&DAMAGED, &OUTCOMES), &[5, 8, 15, 18])
}
