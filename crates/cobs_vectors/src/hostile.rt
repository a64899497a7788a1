//! Tests of decoders after writes to the buffer and after resets, between pieces and inside a piece.
//!
//! `rt` is the runtime: an assertion that fails aborts the test through it.
use crate::bytes::{ONES, Parts, joined};
use crate::streaming::{CallResult, Check, StreamingDecoder, check_all, feed_all, overwrite};
use std::alloc::Global;
use std::process::Abort;
use std::test::Fail;

/// Rows for the phases of a decoder: the length of the buffer, and the bytes that bring an idle decoder to the phase.
const FRONTS: [(usize, Parts); 10] = [
    // idle, at the start and after a frame
    (4, &[]),
    (4, &[&[0]]),
    (4, &[&[2, 5, 0]]),
    // in a block, at its start, inside it, and at its end
    (4, &[&[4]]),
    (4, &[&[4, 7]]),
    (4, &[&[3, 7, 8]]),
    // in a full block, and at its end
    (4, &[&[255, 1, 2]]),
    (254, &[&[255], &ONES]),
    // after a byte that didn't fit: in a block, and at its end
    (4, &[&[9, 1, 2, 3, 4, 5]]),
    (4, &[&[6, 1, 2, 3, 4, 5]]),
];

/// The bytes that are passed to the decoder after the write.
const BEHIND: [&[u8]; 5] = [&[], &[1], &[3], &[2, 9], &[7, 8, 9, 1, 1, 1]];

/// A test that writes to the buffer after the bytes `front`, and then passes the bytes `behind`. The results of these
/// bytes don't matter, but the decoder must be idle after the next zero.
#[derive(Drop)]
struct Written<'a> {
    front: &'a [u8],
    behind: &'static [u8],
    is_pushed: bool,
}

/// Passes bytes to the decoder, with one push or one by one, and ignores the results. A push may stop before the last
/// byte.
fn give<D: StreamingDecoder>(decoder: &mut D, bytes: &[u8], is_pushed: bool) {
    if is_pushed {
        let _ = decoder.push_some(bytes);
    } else {
        for byte in bytes {
            let _ = decoder.feed_one(*byte);
        }
    }
}

/// Checks that the decoder is idle: it decodes the next frame.
fn check_idle<D: StreamingDecoder>(rt: &impl Abort, decoder: &mut D) {
    assert_eq!(rt; feed_all(rt, decoder, &[2, 5, 0]), CallResult::Length(1));
    assert!(rt; decoder.whole_buffer().starts_with(&[5]));
}

impl Check for Written<'_> {
    fn check<D: StreamingDecoder + Drop>(
        &self,
        rt: &impl Abort,
        _alloc: Global,
        mut decoder: D,
    ) -> Result<(), Fail> {
        give(&mut decoder, self.front, self.is_pushed);
        overwrite(&mut decoder, 77);
        give(&mut decoder, self.behind, self.is_pushed);
        give(&mut decoder, &[0], self.is_pushed);
        check_idle(rt, &mut decoder);
        Ok(())
    }
}

/// A test that resets the decoder after the bytes `front`. After the reset, the decoder must be idle, and its buffer
/// unchanged.
#[derive(Drop)]
struct Resets<'a> {
    front: &'a [u8],
}

impl Check for Resets<'_> {
    fn check<D: StreamingDecoder + Drop>(
        &self,
        rt: &impl Abort,
        alloc: Global,
        mut decoder: D,
    ) -> Result<(), Fail> {
        give(&mut decoder, self.front, false);
        let before = decoder.whole_buffer().to_vec(alloc)?;
        if decoder.begin_anew() {
            assert!(rt; decoder.whole_buffer() == before.as_slice());
            // A zero after the reset ends no piece.
            assert_eq!(rt; feed_all(rt, &mut decoder, &[0]), CallResult::Nothing);
            check_idle(rt, &mut decoder);

            // The reset makes the decoder idle even without a zero after it.
            give(&mut decoder, self.front, false);
            let _ = decoder.begin_anew();
            check_idle(rt, &mut decoder);
        }
        Ok(())
    }
}

/// Runs tests for each row of `fronts`: the test of a reset, and the tests of a write with each of `behinds`.
fn check_fronts(
    rt: &impl Abort,
    alloc: Global,
    fronts: &[(usize, Parts)],
    behinds: &[&'static [u8]],
) -> Result<(), Fail> {
    for (room, front) in fronts {
        let front = joined(alloc, front)?;
        check_all(rt, alloc, *room, &Resets { front: &front })?;
        for behind in behinds {
            for is_pushed in [false, true] {
                let written = Written {
                    front: &front,
                    behind: *behind,
                    is_pushed,
                };
                check_all(rt, alloc, *room, &written)?;
            }
        }
    }
    Ok(())
}

#[test]
fn a_decoder_forgets_at_a_zero_and_at_a_reset(rt: HostRuntime) -> Result<(), Fail> {
    check_fronts(&rt, rt.alloc(), &FRONTS, &BEHIND)
}

/// A test that writes bytes to the buffer inside a piece. The piece's message must contain these bytes, and a reset
/// must not change them.
#[derive(Drop)]
struct Overwritten;

impl Check for Overwritten {
    fn check<D: StreamingDecoder + Drop>(
        &self,
        rt: &impl Abort,
        _alloc: Global,
        mut decoder: D,
    ) -> Result<(), Fail> {
        assert_eq!(rt; feed_all(rt, &mut decoder, &[3, 7]), CallResult::Nothing);
        overwrite(&mut decoder, 8);
        assert_eq!(rt; feed_all(rt, &mut decoder, &[9, 0]), CallResult::Length(2));
        assert!(rt; decoder.whole_buffer() == [8, 9].as_slice());
        overwrite(&mut decoder, 9);
        let _ = decoder.begin_anew();
        assert!(rt; decoder.whole_buffer() == [9, 9].as_slice());
        Ok(())
    }
}

#[test]
fn what_is_written_stays(rt: HostRuntime) -> Result<(), Fail> {
    check_all(&rt, rt.alloc(), 2, &Overwritten)
}
