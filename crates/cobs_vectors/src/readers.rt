//! Tests of `FrameReader` with readers that fail, that end or that never end, as a table. `conformance/reader.txt` has
//! more cases.
//!
//! `rt` is the runtime: an assertion that fails aborts the test through it.
use cobs::{
    CobsDecoder, CobsDecoderHeapless, CobsDecoderOwned, FrameDecoder, FrameReader, FrameSource,
    Next, ReadFault, Recorded,
};
use std::alloc::Global;
use std::io;
use std::io::Read;
use std::process::Abort;
use std::test::Fail;

/// The bytes that a reader returns, and how many bytes each read returns.
#[derive(Clone, Copy)]
enum Given {
    /// The bytes, at most this many per read.
    Bytes(&'static [u8], usize),

    /// This many zeros and then the bytes, one per read.
    Zeros(u64, &'static [u8]),

    /// The bytes, one per read. The second read fails: it is interrupted if the flag is true, and times out otherwise.
    Failing(&'static [u8], bool),
}

/// A reader that counts its reads. It returns first the zeros, one per read, and then the bytes, at most `at_a_time`
/// per read. If `second_fails` has a kind of error, the second read fails with this error, and returns no byte.
#[derive(Drop)]
struct Counted {
    zeros: u64,
    bytes: &'static [u8],
    at_a_time: usize,
    second_fails: Option<io::ErrorKind>,
    reads: usize,
}

/// Returns the reader for this row.
fn reader_of(given: Given) -> Counted {
    let (zeros, bytes, at_a_time, second_fails) = match given {
        Given::Bytes(bytes, at_a_time) => (0, bytes, at_a_time, None),
        Given::Zeros(zeros, bytes) => (zeros, bytes, 1, None),
        Given::Failing(bytes, true) => (0, bytes, 1, Some(io::ErrorKind::Interrupted)),
        Given::Failing(bytes, false) => (0, bytes, 1, Some(io::ErrorKind::TimedOut)),
    };
    Counted {
        zeros,
        bytes,
        at_a_time,
        second_fails,
        reads: 0,
    }
}

impl Read for Counted {
    fn read(&mut self, buf: &mut [u8]) -> io::Result<usize> {
        self.reads = self.reads.saturating_add(1);
        if let (2, Some(kind)) = (self.reads, self.second_fails) {
            return Err(io::Error::from(kind));
        }
        if let (Some(left), Some(place)) = (self.zeros.checked_sub(1), buf.first_mut()) {
            self.zeros = left;
            *place = 0;
            return Ok(1);
        }
        let count = self.at_a_time.min(buf.len()).min(self.bytes.len());
        let (given, rest) = self.bytes.split_at(count);
        buf[..count].copy_from_slice(given);
        self.bytes = rest;
        Ok(count)
    }
}

/// An expected result of `next_frame`, as a constant. For a message, it has the message's bytes instead of their
/// number.
#[derive(Clone, Copy)]
enum Wanted {
    Message(&'static [u8]),
    Broken(usize),
    TooLong,
    End { unfinished: bool },
    /// A read failed.
    Io,
    TooManyReads,
}

/// Returns the expected result as the type that `next_frame` returns.
fn result_of(wanted: Wanted) -> Result<Next, ReadFault> {
    match wanted {
        Wanted::Message(message) => Ok(Next::Message(message.len())),
        Wanted::Broken(count) => Ok(Next::Broken(count)),
        Wanted::TooLong => Ok(Next::TooLong),
        Wanted::End { unfinished } => Ok(Next::End { unfinished }),
        Wanted::Io => Err(ReadFault::Io),
        Wanted::TooManyReads => Err(ReadFault::TooManyReads),
    }
}

/// A reader, the expected results of the calls of `next_frame`, and the number of reads that these calls make together.
type ReaderRow = (Given, &'static [Wanted], usize);

/// Calls `next_frame` once for each expected result, and compares the results and the number of reads.
fn find_all<D: FrameDecoder>(
    rt: &impl Abort,
    frames: &mut FrameReader<D>,
    (given, results, reads): &ReaderRow,
    row: usize,
) {
    let mut source = Recorded::new(reader_of(*given));
    for (at, wanted) in results.iter().enumerate() {
        let returned = frames.next_frame(&mut source);
        assert_eq!(rt; returned, result_of(*wanted), "row {row}, call {at}");
        if let Wanted::Message(message) = wanted {
            let is_there = frames.decoder().buffer().starts_with(message);
            assert!(rt; is_there, "row {row}, call {at}");
        }
    }
    assert_eq!(rt; source.into_inner().reads, *reads, "row {row}");
}

/// Checks some readers, one after another, with the same `FrameReader`.
fn find_in_each<D: FrameDecoder + Drop>(
    rt: &impl Abort,
    mut frames: FrameReader<D>,
    readers: &[ReaderRow],
    row: usize,
) {
    for reader in readers {
        find_all(rt, &mut frames, reader, row);
    }
}

/// The result at the end of a reader, if no piece is unfinished.
const END: Wanted = Wanted::End { unfinished: false };

/// A stream with a message, a broken piece, a piece that decodes to more than four bytes, and another message.
const DAMAGED: &[u8] = &[0, 3, 7, 8, 0, 5, 1, 0, 6, 1, 2, 3, 4, 5, 0, 2, 9, 0];

/// The outcomes of [`DAMAGED`] in a buffer of four bytes.
const OUTCOMES: &[Wanted] = &[
    Wanted::Message(&[7, 8]),
    Wanted::Broken(1),
    Wanted::TooLong,
    Wanted::Message(&[9]),
    END,
];

/// Rows of readers. The same `FrameReader`, whose decoder has a buffer of four bytes, reads from the readers of a row,
/// one after another.
const READERS: [&[ReaderRow]; 12] = [
    // an unfinished piece continues with another reader
    &[
        (
            Given::Bytes(&[2, 5, 0, 3, 1], 64),
            &[Wanted::Message(&[5]), Wanted::End { unfinished: true }],
            2,
        ),
        (Given::Bytes(&[7, 0], 64), &[Wanted::Message(&[1, 7])], 1),
    ],
    // bytes that were read from one reader are used before another reader is read
    &[
        (
            Given::Bytes(&[1, 0, 1, 0, 2, 5, 0], 64),
            &[Wanted::Message(&[])],
            1,
        ),
        (
            Given::Bytes(&[], 64),
            &[Wanted::Message(&[]), Wanted::Message(&[5]), END],
            1,
        ),
    ],
    // each outcome; the stream has 18 bytes, and the last read finds its end
    &[(Given::Bytes(DAMAGED, 1), OUTCOMES, 19)],
    &[(Given::Bytes(DAMAGED, 2), OUTCOMES, 10)],
    &[(Given::Bytes(DAMAGED, 5), OUTCOMES, 5)],
    &[(Given::Bytes(DAMAGED, 64), OUTCOMES, 2)],
    // a failed read inside a frame loses nothing
    &[(
        Given::Failing(&[2, 5, 0], false),
        &[Wanted::Io, Wanted::Message(&[5]), END],
        5,
    )],
    &[(
        Given::Failing(&[2, 5, 0], true),
        &[Wanted::Io, Wanted::Message(&[5]), END],
        5,
    )],
    // if zeros never end, each call ends after 65,536 reads
    &[(Given::Zeros(u64::MAX, &[]), &[Wanted::TooManyReads], 65_536)],
    &[(
        Given::Zeros(u64::MAX, &[]),
        &[Wanted::TooManyReads, Wanted::TooManyReads],
        131_072,
    )],
    // a frame may end with the last read of a call
    &[(
        Given::Zeros(65_534, &[1, 0]),
        &[Wanted::Message(&[])],
        65_536,
    )],
    &[(
        Given::Zeros(65_535, &[1, 0]),
        &[Wanted::TooManyReads, Wanted::Message(&[])],
        65_537,
    )],
];

/// Checks the readers of each row with each of the three decoders.
fn check_readers(rt: &impl Abort, alloc: Global, rows: &[&[ReaderRow]]) -> Result<(), Fail> {
    for (at, readers) in rows.iter().enumerate() {
        let mut buffer = [0; 4];
        find_in_each(
            rt,
            FrameReader::new(CobsDecoder::new(&mut buffer)),
            readers,
            at,
        );
        find_in_each(
            rt,
            FrameReader::new(CobsDecoderHeapless::<4>::new()),
            readers,
            at,
        );
        find_in_each(
            rt,
            FrameReader::new(CobsDecoderOwned::new(alloc, 4)?),
            readers,
            at,
        );
    }
    Ok(())
}

#[test]
fn frames_are_found_in_readers(rt: HostRuntime) -> Result<(), Fail> {
    check_readers(&rt, rt.alloc(), &READERS)
}

#[test]
fn a_source_reads_once_a_call_and_fails_only_with_its_reader(rt: HostRuntime) {
    let mut reader = reader_of(Given::Failing(&[2, 5, 0, 3], false));
    reader.at_a_time = 3;
    let mut source = Recorded::new(reader);
    let mut chunk = [9u8; 64];
    assert_eq!(rt; source.read_some(&mut chunk), Some(3));
    assert!(rt; chunk.as_slice().starts_with(&[2, 5, 0, 9]));
    assert_eq!(rt; source.read_some(&mut chunk), None);
    assert_eq!(rt; source.read_some(&mut chunk), Some(1));
    assert!(rt; chunk.as_slice().starts_with(&[3]));
    assert_eq!(rt; source.read_some(&mut chunk), Some(0));
    assert_eq!(rt; source.into_inner().reads, 4);
}

#[test]
fn a_reader_that_was_not_read_is_given_back_whole(rt: HostRuntime) -> Result<(), Fail> {
    let mut reader = Recorded::new(reader_of(Given::Bytes(&[2, 5, 0], 64))).into_inner();
    assert_eq!(rt; reader.reads, 0);
    let mut given = [9u8; 8];
    assert_eq!(rt; reader.read(&mut given)?, 3);
    assert_eq!(rt; given, [2, 5, 0, 9, 9, 9, 9, 9]);
    Ok(())
}
