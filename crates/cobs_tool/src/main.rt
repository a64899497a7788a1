//! Encodes and decodes frames on the command line.
//!
//! `cobs_tool` reads standard input to its end, at most [`input::MAX_INPUT`] bytes, and then writes to standard output:
//!
//! | argument | input | output |
//! |---|---|---|
//! | none, or `show` | a message | its frame and a zero, as hexadecimal digits, on one line |
//! | `encode` | a message | its frame and a zero, as raw bytes |
//! | `decode` | a stream of frames | a line for each piece that a zero ends, and a line if one more piece has begun |
//!
//! The exit status is 0 if nothing failed. If the input is too long, or if a read, a write or an allocation failed, the
//! status is 1, and a line on standard error says so. If the arguments are wrong, the status is 2, and standard error
//! has the usage.
#![tactic(auto)]

mod fault;
mod input;
#[cfg(test)]
mod memory_limits;
mod mode;
mod modes;
mod output;
mod report;
#[cfg(test)]
mod tests;
mod text;

use mode::{Mode, mode_of};
use modes::run_mode;
use std::env;
use std::process::ExitCode;
use text::fault_line;

/// The line on standard error for wrong arguments.
const USAGE: &str = "usage: cobs_tool [show|encode|decode]";

fn main(rt: HostRuntime) -> ExitCode {
    // A line that can't be written to standard error is lost, and the exit status stays the same.
    let Some(mode) = mode_of_arguments(&rt) else {
        let _ = eprintln!(rt; "{USAGE}");
        return ExitCode::from(2);
    };
    match run_mode(rt.alloc(), &mode, &mut rt.stdin(), &mut rt.stdout()) {
        Ok(()) => ExitCode::SUCCESS,
        Err(fault) => {
            let line = fault_line(&fault);
            let _ = eprintln!(rt; "{line}");
            ExitCode::FAILURE
        }
    }
}

/// Returns the mode that the program's arguments ask for, or `None` if they ask for no mode or can't be read.
fn mode_of_arguments(rt: &HostRuntime) -> Option<Mode> {
    let words: Vec<String> = env::args(rt).ok()?.skip(1).collect(rt.alloc()).ok()?;
    mode_of(&words)
}
