//! Shows the frames of a live line.
//!
//! `cobs_watch` shows each piece of a stream of frames as soon as the piece's sentinel arrives. For each piece, it
//! prints one of these lines:
//!
//! - `message N`, with the N bytes of a message as hexadecimal digits
//! - `broken N`, for a piece that breaks off inside a block and decodes to N bytes
//! - `too long`, for a piece that decodes to more bytes than the buffer holds
//!
//! The program reads the device, FIFO or file at a path, or standard input, until the input ends. Options change the
//! output; `cobs_watch --help` lists them. `cobs_watch send` reads lines, and sends each line as a frame, followed by
//! the sentinel.
//!
//! At the end of the input, the program prints `unfinished` if a piece has begun and no sentinel has ended it. When the
//! input has ended, the exit status is 0, or 1 if `cobs_watch send` skipped a line that couldn't be read as hexadecimal
//! digits. If a read or a write failed, or if memory ran out, the status is 1, and a line on standard error says so. If
//! the arguments are wrong, the status is 2, and standard error has the usage. If nobody reads the output any more, the
//! program ends with status 0.
#![tactic(auto)]

ghost use Rattle.std.specs.Prelude.{◌≡◌, [], OnOk};
ghost use Rattle.std.specs.Io.Buffered.{writer_buffer};

mod help;
mod options;
mod values;

use clap::error::ErrorKind as CommandErrorKind;
use cobs_live::capture::write_capture_head;
use cobs_live::clock::Timer;
use cobs_live::fault::WatchFault;
use cobs_live::input::AnyInput;
use cobs_live::port::Port;
use cobs_live::send::{self, run_send};
use cobs_live::show::run_show;
use cobs_live::shown::Style;
use jiff_tz::{SystemTimeZone, TimeZone, TimeZoneDatabase};
use options::{SHOW_USAGE, STDIN, ShowTask, Task, task_of};
use std::alloc::AllocError;
use std::cell::Cell;
use std::env::{self, VarError};
use std::fs::File;
use std::io::{self, BufReader, BufWriter, ErrorKind, IsTerminal, Read, Write};
use std::process::ExitCode;
use values::wrong;

/// The length of the output buffer in bytes, 128 KiB. It has room for the hexadecimal digits of a chunk of input.
const OUTPUT_LEN: usize = 131_072;

/// The system's error number of the last read or write that failed, if there is one.
type Reason = Cell<Option<i32>>;

fn main(rt: HostRuntime) -> ExitCode {
    match run(&rt) {
        Ok(status) => status,
        Err(error) => {
            // A line that can't be written to standard error is lost, here and below. The exit status stays the same.
            let _ = eprintln!(rt; "cobs_watch: {error}");
            ExitCode::FAILURE
        }
    }
}

/// Performs the task that the arguments ask for, and returns the exit status.
///
/// # Errors
/// Returns an error if memory runs out before the first read, or if the clock can't be read.
fn run(rt: &HostRuntime) -> anyhow::Result<ExitCode> {
    let words = match words_of(rt) {
        Ok(words) => words,
        Err(error) => return Ok(no_task(rt, &error)),
    };
    match task_of(rt.alloc(), &words, auto_color(rt)) {
        Ok(Task::Show(task)) if task.local => show_local(rt, &task),
        Ok(Task::Show(task)) => show(rt, &task, TimeZone::UTC),
        Ok(Task::Send(settings)) => send(rt, &settings),
        Err(error) => Ok(no_task(rt, &error)),
    }
}

/// Returns the arguments. The first argument is the program's own name.
///
/// # Errors
/// Returns an error if an argument isn't UTF-8, or if memory runs out.
fn words_of(rt: &HostRuntime) -> Result<Vec<String>, clap::Error> {
    match env::args(rt) {
        Ok(words) => Ok(words.collect(rt.alloc())?),
        Err(error) if error.kind() == ErrorKind::InvalidData => {
            wrong(
                rt.alloc(),
                SHOW_USAGE,
                "an argument that isn't UTF-8 can't be used",
            )
        }
        Err(_) => Err(AllocError.into()),
    }
}

/// Prints the text of this error: the help, the version, or the mistake in the arguments. Returns the exit status.
fn no_task(rt: &HostRuntime, error: &clap::Error) -> ExitCode {
    if error.kind() == CommandErrorKind::OutOfMemory {
        return faulted(rt, WatchFault::OutOfMemory, None);
    }
    let status = ExitCode::from(error.exit_code() as u8);
    let Err(error) = error.print(rt) else {
        return status;
    };
    let reason = error.raw_os_error();
    faulted(rt, error.into(), reason)
}

/// Returns whether lines have colours with `--color auto`. They have colours if standard output is a terminal, the
/// variable `TERM` is set and not `dumb`, and the variable `NO_COLOR` is unset or empty. A variable whose value isn't
/// UTF-8 counts as set and as not empty.
fn auto_color(rt: &HostRuntime) -> bool {
    let no_color = match env::var(rt, "NO_COLOR") {
        Ok(value) => !value.is_empty(),
        Err(error) => error != VarError::NotPresent,
    };
    let dumb = match env::var(rt, "TERM") {
        Ok(value) => value.as_str() == "dumb",
        Err(error) => error == VarError::NotPresent,
    };
    !no_color && !dumb && rt.stdout().is_terminal()
}

/// Shows a stream with dates in the system's time zone, or in UTC if that zone can't be read. Each date is shown with
/// its offset from UTC.
fn show_local(rt: &HostRuntime, task: &ShowTask<'_>) -> anyhow::Result<ExitCode> {
    let Ok(system) = SystemTimeZone::read(rt) else {
        report_utc(rt);
        return show(rt, task, TimeZone::UTC);
    };
    // The system's database of zones is read only if the zone can't be found without it.
    let mut zones = TimeZoneDatabase::new(rt.alloc());
    if system.time_zone(&zones).is_err() {
        zones = TimeZoneDatabase::from_env(rt)?;
    }
    match system.time_zone(&zones) {
        Ok(zone) => show(rt, task, zone),
        Err(_) => {
            report_utc(rt);
            show(rt, task, TimeZone::UTC)
        }
    }
}

/// Reports on standard error that dates are in UTC, if the variable `TZ` is set. If `TZ` isn't set, nothing is
/// reported, because UTC is right for a system without a zone.
fn report_utc(rt: &HostRuntime) {
    if let Err(VarError::NotPresent) = env::var(rt, "TZ") {
        return;
    }
    let _ = eprintln!(rt; "cobs_watch: the time zone in TZ can't be read: dates are in UTC");
}

/// Shows standard input, or the file at the task's path, with dates in this zone, and returns the exit status.
fn show(rt: &HostRuntime, task: &ShowTask<'_>, zone: TimeZone<'_>) -> anyhow::Result<ExitCode> {
    let reason = Cell::new(None);
    let output = Port::new(rt, rt.stdout(), &reason);
    let mut output = BufWriter::with_capacity(rt.alloc(), OUTPUT_LEN, output)?;
    if let Err(error) = begin(&mut output, task.settings.view.style) {
        return Ok(show_faulted(rt, task, error.into(), &reason));
    }
    match &task.path {
        None => show_reader(rt, task, zone, rt.stdin(), &reason, &mut output),
        Some(path) if *path == STDIN => {
            show_reader(rt, task, zone, rt.stdin(), &reason, &mut output)
        }
        Some(path) => match File::open(rt, path) {
            Ok(file) => show_reader(rt, task, zone, file, &reason, &mut output),
            Err(error) => Ok(not_opened(rt, path, &error)),
        },
    }
}

/// Writes the header of a capture file, if the style is `Pcap`.
fn begin<W: Write + Drop>(output: &mut BufWriter<W>, style: Style) -> io::Result<()>
    requires flushed { writer_buffer output.old ≡ [] }
    ensures flushed { OnOk result (writer_buffer output.new ≡ []) }
{
    if style != Style::Pcap {
        return Ok(());
    }
    write_capture_head(output)?;
    output.flush()
}

/// Shows the stream that a reader reads, and returns the exit status.
fn show_reader<R: Read + Drop, W: Write + Drop>(
    rt: &HostRuntime,
    task: &ShowTask<'_>,
    zone: TimeZone<'_>,
    reader: R,
    reason: &Reason,
    output: &mut BufWriter<W>,
) -> anyhow::Result<ExitCode>
    requires flushed { writer_buffer output.old ≡ [] }
{
    let mut input = AnyInput::new(Port::new(rt, reader, reason));
    let timer = Timer::new(rt, task.settings.view.stamp, zone)?;
    match run_show(
        rt.alloc(),
        &task.settings,
        task.count,
        &timer,
        &mut input,
        output,
        &mut rt.stderr(),
    ) {
        Ok(_) => Ok(ExitCode::SUCCESS),
        Err(fault) => Ok(show_faulted(rt, task, fault, reason)),
    }
}

/// Sends the lines of standard input, and returns the exit status.
fn send(rt: &HostRuntime, settings: &send::Settings) -> anyhow::Result<ExitCode> {
    let reason = Cell::new(None);
    let output = Port::new(rt, rt.stdout(), &reason);
    let mut output = BufWriter::with_capacity(rt.alloc(), OUTPUT_LEN, output)?;
    let reader = BufReader::new(rt.alloc(), Port::new(rt, rt.stdin(), &reason))?;
    let mut input = AnyInput::new(reader);
    match run_send(
        rt.alloc(),
        settings,
        &mut input,
        &mut output,
        &mut rt.stderr(),
    ) {
        Ok(true) => Ok(ExitCode::SUCCESS),
        Ok(false) => Ok(ExitCode::FAILURE),
        // If the system reported the failed read, `reason` has an error number. If `reason` has no number, memory ran
        // out while a line was read.
        Err(WatchFault::ReadFailed) if reason.get().is_none() => {
            Ok(faulted(rt, WatchFault::OutOfMemory, None))
        }
        Err(fault) => Ok(faulted(rt, fault, reason.get())),
    }
}

/// Reports that a file can't be opened, and returns the exit status.
fn not_opened(rt: &HostRuntime, path: &str, error: &io::Error) -> ExitCode {
    let _ = eprintln!(rt; "cobs_watch: {path}: {error}");
    ExitCode::FAILURE
}

/// Reports a fault of `show`, and returns the exit status. If the file at the path couldn't be read, the report names
/// that file.
fn show_faulted(
    rt: &HostRuntime,
    task: &ShowTask<'_>,
    fault: WatchFault,
    reason: &Reason,
) -> ExitCode {
    match (fault, task.path, reason.get()) {
        (WatchFault::ReadFailed, Some(path), Some(number)) => {
            let error = io::Error::from_raw_os_error(number);
            let _ = eprintln!(rt; "cobs_watch: {path}: {}: {error}", WatchFault::ReadFailed);
            ExitCode::FAILURE
        }
        (fault, _, reason) => faulted(rt, fault, reason),
    }
}

/// Reports a fault, and returns the exit status. If nobody reads the output any more, nothing is reported, and the
/// status is success.
fn faulted(rt: &HostRuntime, fault: WatchFault, reason: Option<i32>) -> ExitCode {
    if fault == WatchFault::OutputClosed {
        return ExitCode::SUCCESS;
    }
    let _ = match reason {
        Some(reason) if fault != WatchFault::OutOfMemory => {
            eprintln!(rt;
                "cobs_watch: {fault}: {}",
                io::Error::from_raw_os_error(reason)
            )
        }
        Some(_) | None => eprintln!(rt; "cobs_watch: {fault}"),
    };
    ExitCode::FAILURE
}
