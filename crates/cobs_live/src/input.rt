//! Inputs whose reads take the output as an extra argument. So a contract can say which text had been written when a
//! read began.
ghost use Rattle.std.specs.Prelude.{◌≡◌, ◌+◌, ◌++◌, List, Option, ℕ, IfOk, OnOk, IfSome, vec_len};
ghost use Rattle.std.specs.Prelude.{length};
ghost use Rattle.std.specs.Io.{StopsAt, appended_bytes};
ghost use Rattle.std.specs.Io.BufRead.{take_through, DropsThrough};
ghost use Rattle.std.specs.Io.Buffered.{writer_buffer, writer_inner};
ghost use Rattle.std.specs.Io.KnownBytes.{Consumes, IsAtEnd};
ghost use Rattle.cobs_live.specs.Reads.{Read as ReadEvent, ReadTakes, given};

use std::io::{self, BufRead, BufWriter, Read, Write};

/// An input whose reads take the output as an extra argument.
///
/// Contracts describe an input by the relation `step`. It relates the state of the input before a read, the read
/// itself, and the state after the read. The read is recorded with the contents that the output had when the read
/// began. So a theorem about any input can say which text had been written when each read began.
pub trait LiveInput<W: Write + Drop> {
    /// The bytes that later reads will return, if these bytes are known.
    ghost remaining: { Self → Option (List ℕ) };

    /// `step before read after` holds if `read` may change the input from the state `before` to the state `after`.
    ghost step: { Self → ReadEvent ℕ → Self → Type 0 };

    /// Reads once into `chunk`, as `Read::read` does.
    fn read_beside(&mut self, output: &BufWriter<W>, chunk: &mut [u8]) -> io::Result<usize>
        ensures len { length chunk.new ≡ length chunk.old }
        ensures bytes { ReadTakes (remaining self.old) (remaining self.new) result chunk.new }
        ensures step { step self.old (record {
          back = writer_buffer output.now;
          written = W.contents (writer_inner output.now);
          came = given result chunk.new;
        }) self.new };
}

/// An input that is read line by line. Each read takes the output as an extra argument. Contracts describe a
/// `LiveLines` in the same way as a [`LiveInput`].
pub trait LiveLines<W: Write + Drop> {
    /// The bytes that later reads will return, if these bytes are known.
    ghost remaining: { Self → Option (List ℕ) };

    /// `step before read after` holds if `read` may change the input from the state `before` to the state `after`.
    ghost step: { Self → ReadEvent ℕ → Self → Type 0 };

    /// Reads up to and including the next newline, or to the end of the input, and appends the bytes to `line`, as
    /// `BufRead::read_until` does.
    fn read_line_beside(&mut self, output: &BufWriter<W>, line: &mut Vec<u8>) -> io::Result<usize>
        ensures ok { IfOk result (λ n. vec_len line.new ≡ vec_len line.old + n) }
        ensures stops { StopsAt (appended_bytes line.old.items line.new.items) 10 }
        ensures bytes { OnOk result (IfSome (remaining self.old)
            (λ xs. line.new.items ≡ line.old.items ++ take_through 10 xs)) }
        ensures rest { OnOk result (DropsThrough (remaining self.old) (remaining self.new) 10) }
        ensures end { IfOk result (λ n. n ≡ 0 → IsAtEnd (remaining self.old)) }
        ensures none_lost { Consumes (remaining self.old) (remaining self.new)
            (appended_bytes line.old.items line.new.items) }
        ensures step { step self.old (record {
          back = writer_buffer output.now;
          written = W.contents (writer_inner output.now);
          came = appended_bytes line.old.items line.new.items;
        }) self.new };
}

/// An input over any reader. It doesn't use the output that is passed to its methods.
#[derive(Drop)]
pub struct AnyInput<R> {
    reader: R,
}

impl<R> AnyInput<R> {
    ghost use Rattle.std.specs.Prelude.{◌≡◌};
    ghost use Rattle.cobs_live.specs.Reads.{reader_of};

    /// Makes an input over this reader.
    pub fn new(reader: R) -> Self
        ensures reader { reader_of result ≡ reader }
    {
        AnyInput { reader }
    }
}

impl<R: Read, W: Write + Drop> LiveInput<W> for AnyInput<R> {
    ghost use Rattle.std.specs.Io.KnownBytes.{Consumes};
    ghost use Rattle.cobs_live.specs.Reads.{reader_of};

    ghost remaining = { λ input. R.remaining (reader_of input) };

    ghost step = { λ from read to. Consumes (R.remaining (reader_of from)) (R.remaining (reader_of to)) read.came };

    fn read_beside(&mut self, _output: &BufWriter<W>, chunk: &mut [u8]) -> io::Result<usize> {
        self.reader.read(chunk)
    }
}

impl<B: BufRead, W: Write + Drop> LiveLines<W> for AnyInput<B> {
    ghost use Rattle.std.specs.Io.KnownBytes.{Consumes};
    ghost use Rattle.cobs_live.specs.Reads.{reader_of};

    ghost remaining = { λ input. B.remaining (reader_of input) };

    ghost step = { λ from read to. Consumes (B.remaining (reader_of from)) (B.remaining (reader_of to)) read.came };

    fn read_line_beside(
        &mut self,
        _output: &BufWriter<W>,
        line: &mut Vec<u8>,
    ) -> io::Result<usize> {
        self.reader.read_until(b'\n', line)
    }
}
