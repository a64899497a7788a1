//! A reader or writer that tries a call again if the call would block, and records why a call failed.

use std::cell::Cell;
use std::io::{self, ErrorKind, Read, Write};
use std::rt::Clock;
use std::thread;
use std::time::Duration;

/// The pause, in milliseconds, before a read or a write that would have blocked is tried again.
const PAUSE: u64 = 5;

/// A reader or a writer that may be non-blocking. A read or a write that would block is tried again after a pause.
#[derive(Drop)]
pub struct Port<'a, C, F> {
    clock: C,
    inner: F,

    /// The system's error number of the last failure, if there is one.
    reason: &'a Cell<Option<i32>>,
}

impl<'a, C: Clock + Drop, F: Drop> Port<'a, C, F> {
    ghost use Rattle.std.specs.Prelude.{◌≡◌, false, IsOk};
    ghost use Rattle.cobs_live.specs.Ports.{inner_of};

    /// Makes a port over this reader or writer. The port measures its pauses with this clock, and stores the system's
    /// error number of a failure in `reason`.
    pub fn new(clock: C, inner: F, reason: &'a Cell<Option<i32>>) -> Self
        ensures inner { inner_of result ≡ inner }
    {
        Port {
            clock,
            inner,
            reason,
        }
    }

    /// Returns whether the port has to try a call with the result `done` again. If the call would have blocked, pauses
    /// and returns true. If the call failed for another reason, stores the system's error number in `reason`. The error
    /// number of an interruption isn't stored, because the port's caller tries again after an interruption.
    fn tries_again(&self, done: &io::Result<usize>) -> bool
        ensures failed { IsOk done.now → result ≡ false }
    {
        let Err(error) = done else {
            return false;
        };
        if error.kind() == ErrorKind::WouldBlock {
            thread::sleep(&self.clock, Duration::from_millis(PAUSE));
            return true;
        }
        if error.kind() != ErrorKind::Interrupted {
            self.reason.set(error.raw_os_error());
        }
        false
    }
}

// The loops in this file limit the number of tries, because every function is proved to end.
impl<C: Clock + Drop, R: Read + Drop> Read for Port<'_, C, R> {
    ghost use Rattle.cobs_live.specs.Ports.{inner_of};

    ghost remaining = { λ port. R.remaining (inner_of port) };

    fn read(&mut self, buf: &mut [u8]) -> io::Result<usize> {
        'by_try: for _again in 0..usize::MAX {
            let done = self.inner.read(buf);
            if !self.tries_again(&done) {
                return done;
            }
        }
        Err(ErrorKind::WouldBlock.into())
    }
}

impl<C: Clock + Drop, W: Write + Drop> Write for Port<'_, C, W> {
    ghost use Rattle.cobs_live.specs.Ports.{inner_of};

    ghost contents = { λ port. W.contents (inner_of port) };

    fn write(&mut self, buf: &[u8]) -> io::Result<usize> {
        'by_try: for _again in 0..usize::MAX {
            let done = self.inner.write(buf);
            if !self.tries_again(&done) {
                return done;
            }
        }
        Err(ErrorKind::WouldBlock.into())
    }

    fn flush(&mut self) -> io::Result<()> {
        self.inner.flush()
    }
}
