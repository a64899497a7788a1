//! The results of the calls, as C sees them.
ghost use Rattle.std.specs.Prelude.{◌≡◌, ◌≢◌, ◌<◌, ◌+◌, length, slice_set};
ghost use Rattle.cobs_c.specs.Answer.{result_by, size_by};

use cobs::PieceEnd;

/// The call succeeded.
pub const OK: u32 = 0;

/// The call consumed all its bytes, and no piece ended in them.
pub const MORE: u32 = 1;

/// The buffer is too short.
pub const TOO_SMALL: u32 = 2;

/// The frame breaks off inside a block.
pub const BROKEN: u32 = 3;

/// There is no frame.
pub const EMPTY: u32 = 4;

/// The kind of bytes that aren't a frame.
pub const NOT_A_FRAME: u32 = 0;

/// The kind of a frame that encoders write for a message.
pub const CANONICAL: u32 = 1;

/// The kind of a frame whose message has a shorter frame: the same bytes without the 1 at the end.
pub const LONGER: u32 = 2;

/// The result of a call: the status, the number of bytes that the call consumed, and the number of bytes of output at
/// the front of the buffer.
#[repr(C)]
#[derive(Clone, Copy)]
pub struct Answer {
    pub status: u32,
    pub consumed: usize,
    pub length: usize,
}

/// Returns the result of a successful call: the call consumed `consumed` bytes, and `length` bytes of output are at the
/// front of the buffer.
#[inline(always)]
pub fn done(consumed: usize, length: usize) -> Answer
    ensures { result ≡ record { status = OK; consumed = consumed; length = length } }
{
    Answer {
        status: OK,
        consumed,
        length,
    }
}

/// Returns the result of a call that consumed and wrote nothing, because the buffer is too short.
#[inline(always)]
pub fn too_small() -> Answer
    ensures { result ≡ record { status = TOO_SMALL; consumed = 0; length = 0 } }
{
    Answer {
        status: TOO_SMALL,
        consumed: 0,
        length: 0,
    }
}

/// Returns the result of a call that consumed `consumed` bytes and decoded them into a buffer of `room` bytes. `end`
/// says how the piece or the frame ended; it is `None` if there was none.
#[inline(always)]
pub fn answer_of(end: Option<PieceEnd>, consumed: usize, room: usize) -> Answer
    ensures { result ≡ result_by consumed room (size_by end) }
{
    match end {
        Some(PieceEnd::Message(length)) => done(consumed, length),
        Some(PieceEnd::Broken(length)) => Answer {
            status: BROKEN,
            consumed,
            length,
        },
        Some(PieceEnd::TooLong) => Answer {
            status: TOO_SMALL,
            consumed,
            length: room,
        },
        None => Answer {
            status: EMPTY,
            consumed,
            length: 0,
        },
    }
}

/// Writes the sentinel after the frame that a call has written to the front of the buffer, if the call succeeded.
/// Returns the result for the frame and the sentinel together.
pub fn terminated(frame: Answer, buffer: &mut [u8], sentinel: u8) -> Answer
    requires { frame.status ≡ OK → frame.length < length buffer.old }
    ensures ok { frame.status ≡ OK
        → (result ≡ record { status = OK; consumed = frame.consumed; length = frame.length + 1 })
        × (buffer.new ≡ slice_set buffer.old frame.length sentinel) }
    ensures other { frame.status ≢ OK → (result ≡ frame) × (buffer.new ≡ buffer.old) }
{
    if frame.status != OK {
        return frame;
    }
    buffer[frame.length] = sentinel;
    done(frame.consumed, frame.length + 1)
}
