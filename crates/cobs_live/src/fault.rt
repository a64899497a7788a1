//! The errors of `run_show` and `run_send`.
ghost use Rattle.std.specs.Prelude.{◌≡◌};
ghost use Rattle.cobs_live.specs.declared.fault.WatchFault.TheVariants.{OutOfMemory};

use std::alloc::AllocError;
use std::io::{self, ErrorKind};
use thiserror::Error;

/// The reason why `run_show` or `run_send` failed.
#[derive(Debug, PartialEq, Eq, Drop, Error)]
pub enum WatchFault {
    /// A read failed for a reason other than an interruption, or memory ran out while `run_send` read a line. Before
    /// the fault, `run_show` has shown all pieces that had ended, and `run_send` has sent or skipped all earlier lines.
    #[error("read failed")]
    ReadFailed,

    /// A write failed for a reason other than an interruption. (If nobody reads the output any more, the fault is
    /// `OutputClosed`.) Some of the bytes may have been written.
    #[error("write failed")]
    WriteFailed,

    /// Nobody reads the output any more.
    #[error("output closed")]
    OutputClosed,

    /// Memory ran out. `run_show` returns this fault only at the start, before anything is read or written. `run_send`
    /// returns it only if memory ran out while the message or the frame of a line was made.
    #[error("out of memory")]
    OutOfMemory,
}

impl From<AllocError> for WatchFault {
    // This clause states the result of `from`. It is used to prove callers in which `?` converts an `AllocError`.
    ghost from_gives = { λ _ fault. fault ≡ OutOfMemory };

    fn from(_error: AllocError) -> WatchFault {
        WatchFault::OutOfMemory
    }
}

impl From<io::Error> for WatchFault {
    ghost use Rattle.cobs_live.specs.Watched.{IsWriteFault};

    ghost from_gives = { IsWriteFault };

    /// Returns the fault for a write that failed with this error.
    fn from(error: io::Error) -> WatchFault {
        match error.kind() {
            ErrorKind::BrokenPipe => WatchFault::OutputClosed,
            _ => WatchFault::WriteFailed,
        }
    }
}
