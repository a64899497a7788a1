//! An input that records how many bytes had been written when its last read began, and callers whose contracts describe
//! this number.
ghost use Rattle.std.specs.Prelude.{◌≡◌, [], List, ℕ, Some};
ghost use Rattle.std.specs.Io.Buffered.{writer_buffer, writer_inner};
ghost use Rattle.cobs_live.specs.Live.{HoldsText};
ghost use Rattle.cobs_live.specs.Sent.{HoldsFrames};
ghost use Rattle.cobs_live_vectors.specs.Recorded.{IsRightAtLast, len_of};

use cobs_live::clock::Timer;
use cobs_live::fault::WatchFault;
use cobs_live::input::{LiveInput, LiveLines};
use cobs_live::send::{self, run_send};
use cobs_live::show::run_show;
use cobs_live::shown::Settings;
use cobs_live::tally::Tally;
use std::alloc::Global;
use std::io::{self, BufRead, BufWriter, Read};
use std::rt::Clock;

/// An input of bytes in memory. When a read of these bytes begins, it records in `written` how many bytes the output
/// holds.
#[derive(Drop)]
pub struct Recorder<'a> {
    pub bytes: &'a [u8],
    pub written: usize,
}

impl LiveInput<Vec<u8>> for Recorder<'_> {
    ghost use Rattle.std.specs.Prelude.{◌≡◌, None};

    // Nothing is claimed about the bytes that reads will return.
    ghost remaining = { λ _. None };

    // After a read, `written` is the number of bytes that the output held when this read began.
    ghost step = { λ from read to. to.written ≡ len_of read.written };

    fn read_beside(&mut self, output: &BufWriter<Vec<u8>>, chunk: &mut [u8]) -> io::Result<usize> {
        self.written = output.get_ref().len();
        self.bytes.read(chunk)
    }
}

impl LiveLines<Vec<u8>> for Recorder<'_> {
    ghost use Rattle.std.specs.Prelude.{◌≡◌, None};

    // Nothing is claimed about the bytes that reads will return.
    ghost remaining = { λ _. None };

    // After a read, `written` is the number of bytes that the output held when this read began.
    ghost step = { λ from read to. to.written ≡ len_of read.written };

    fn read_line_beside(
        &mut self,
        output: &BufWriter<Vec<u8>>,
        line: &mut Vec<u8>,
    ) -> io::Result<usize> {
        self.written = output.get_ref().len();
        self.bytes.read_until(b'\n', line)
    }
}

/// Shows a stream. The recorded number is the length of the text that had been written when the last read began: the
/// text of all pieces that had ended.
pub fn show_recorded<C: Clock + Drop>(
    alloc: Global,
    settings: &Settings,
    timer: &Timer<'_, C>,
    input: &mut Recorder,
    output: &mut BufWriter<Vec<u8>>,
) -> Result<Tally, WatchFault>
    requires flushed { writer_buffer output.old ≡ [] }
    ensures { IsRightAtLast input.old input.new input.new.written
        (HoldsText settings.now (Some (writer_inner output.old).items)) }
{
    run_show(
        alloc,
        settings,
        false,
        timer,
        input,
        output,
        &mut Vec::new(alloc),
    )
}

/// Sends lines. The recorded number is the length of the frames that had been written when the last read began: the
/// frames of all earlier lines.
pub fn send_recorded(
    alloc: Global,
    settings: &send::Settings,
    input: &mut Recorder,
    output: &mut BufWriter<Vec<u8>>,
) -> Result<bool, WatchFault>
    requires flushed { writer_buffer output.old ≡ [] }
    ensures { IsRightAtLast input.old input.new input.new.written
        (HoldsFrames settings.now (Some (writer_inner output.old).items)) }
{
    run_send(alloc, settings, input, output, &mut Vec::new(alloc))
}
