//! Tests of messages that are encoded and decoded again, in chunks.
//!
//! `rt` is the runtime: an assertion that fails aborts the test through it.
use crate::bytes::{LONG_FRAME, LONG_MESSAGE, joined, repeated};
use crate::encoders::encode_in_pieces;
use crate::streaming::{CallResult, Check, StreamingDecoder, check_all, feed_all, pushed};
use cobs::{CobsDecoder, CobsDecoderHeapless, CobsDecoderOwned, max_encoding_length};
use std::alloc::Global;
use std::process::Abort;
use std::test::Fail;

/// Returns the numbers from `first` to `2 * first - 1`, each modulo 256, as bytes.
fn ascending_from(alloc: Global, first: u16) -> Result<Vec<u8>, Fail> {
    let mut bytes = Vec::new(alloc);
    for number in first..first.saturating_mul(2) {
        bytes.push((number % 256) as u8)?;
    }
    Ok(bytes)
}

/// Encodes the message in pushes of 17 bytes, decodes its frame in pushes of 11, and feeds a sentinel.
///
/// Test of the original crate: `stream_roundtrip`, for messages of 1 to 1,000 bytes.
fn check_stream(rt: &impl Abort, alloc: Global, message: &[u8]) -> Result<(), Fail> {
    // With this bound, the message meets the precondition of `max_encoding_length`.
    assert!(rt; message.len() <= 1000);
    let mut frame = repeated(alloc, 0, max_encoding_length(message.len()))?;
    let len = encode_in_pieces(rt, alloc, message, 17, &mut frame)?;
    frame.truncate(len);

    let mut buffer = repeated(alloc, 128, message.len())?;
    let mut decoder = CobsDecoder::new(&mut buffer);
    for piece in frame.chunks(11) {
        assert_eq!(rt; decoder.push(piece), Ok(None));
    }
    assert_eq!(rt; decoder.feed(0), Ok(Some(message.len())));
    assert!(rt; decoder.dest() == message);
    assert_eq!(rt; buffer.as_slice(), message);
    Ok(())
}

#[test]
fn streams_go_there_and_back(rt: HostRuntime) -> Result<(), Fail> {
    for first in 1..=1000 {
        let message = ascending_from(rt.alloc(), first)?;
        assert_eq!(rt; message.len(), usize::from(first));
        check_stream(&rt, rt.alloc(), &message)?;
    }
    Ok(())
}

/// A test of the frame of [`LONG_MESSAGE`]. The frame comes in chunks of `size` bytes (`pieces`), and then a sentinel
/// follows.
#[derive(Drop)]
struct Pieces<'a> {
    frame: &'a [u8],
    size: usize,
    returned: CallResult,
}

impl Check for Pieces<'_> {
    /// Checks that the push of each chunk returns no message, and that the push of the sentinel returns `returned`. If
    /// a push returns an error, each later push must return an error too. At the end, the buffer must have the bytes of
    /// the message that fit.
    fn check<D: StreamingDecoder + Drop>(
        &self,
        rt: &impl Abort,
        alloc: Global,
        mut decoder: D,
    ) -> Result<(), Fail> {
        let size = self.size;
        assert!(rt; size > 0);
        let mut last = CallResult::Nothing;
        for piece in self.frame.chunks(size) {
            let (returned, _) = pushed(decoder.push_some(piece), piece.len());
            if last == CallResult::Nothing {
                assert!(rt;
                    returned == last || returned == self.returned,
                    "in pieces of {size}"
                );
            } else {
                assert_eq!(rt; returned, last, "in pieces of {size}");
            }
            last = returned;
        }
        let end = pushed(decoder.push_some(&[0]), 1);
        assert_eq!(rt; end, (self.returned, 1), "in pieces of {size}");
        assert_eq!(rt;
            last == CallResult::TooSmall,
            self.returned == CallResult::TooSmall
        );
        let message = joined(alloc, LONG_MESSAGE)?;
        assert!(rt;
            message.as_slice().starts_with(decoder.whole_buffer()),
            "in pieces of {size}"
        );
        Ok(())
    }
}

#[test]
fn pieces_of_any_size_give_the_message_or_overflow(rt: HostRuntime) -> Result<(), Fail> {
    let mut frame = joined(rt.alloc(), LONG_FRAME)?;
    // The message has 2,001 bytes. It fits the first buffer, and the second buffer is a byte too short. The frame has
    // 2,008 bytes.
    for (room, returned) in [
        (2001, CallResult::Length(2001)),
        (2000, CallResult::TooSmall),
    ] {
        for size in [1, 7, 254, 255, 1000, 2008] {
            check_all(
                &rt,
                rt.alloc(),
                room,
                &Pieces {
                    frame: &frame,
                    size,
                    returned,
                },
            )?;
        }
    }
    // The frame's last byte is the byte that doesn't fit the buffer.
    let mut decoder = CobsDecoderOwned::new(rt.alloc(), 2000)?;
    frame.push(0)?;
    let found = pushed(decoder.push(&frame), frame.len());
    assert_eq!(rt; found, (CallResult::TooSmall, 2008));
    Ok(())
}

/// Runs two tests of the original crate: `stream_continuously_heapless` and `test_decoder_heapless_push_function`.
/// `conformance/original.txt` has the original crate's tests of all decoders.
#[test]
fn the_decoder_with_its_buffer_inside(rt: HostRuntime) {
    let mut decoder = CobsDecoderHeapless::<32>::new();
    for _ in 0..10 {
        assert_eq!(rt;
            feed_all(&rt, &mut decoder, b"\x0chello world\0"),
            CallResult::Length(11)
        );
        assert!(rt; decoder.dest().starts_with(b"hello world"));
    }
    let delimited = b"\0\x0chello world\0";
    assert_eq!(rt;
        pushed(decoder.push(delimited), 14),
        (CallResult::Length(11), 14)
    );
    assert!(rt; decoder.dest().starts_with(b"hello world"));
}
