//! Shows the frames of a serial line as they arrive, and sends each line of a text as a frame. The functions read from
//! any reader, and write to any writer.
//!
//! This crate is the program `cobs_watch` without its command line. `show::run_show` reads a stream of frames, and
//! shows each piece when its sentinel arrives. `send::run_send` sends each line of an input as a frame.
//!
//! The module `seen` has the type of a piece that is about to be shown. `shown` has the settings: which pieces are
//! shown, and in which style. `line`, `json`, `dump`, `capture`, `escape` and `composed` write the text of a piece.
//! `clock` has the times of pieces, `checksum` and `crc` have the checksums, and `tally` has the counts. `input` and
//! `port` have the readers and writers. `fault` has the errors of `run_show` and `run_send`.
#![tactic(auto)]

pub mod capture;
pub mod checksum;
pub mod clock;
mod composed;
pub mod crc;
mod dump;
mod escape;
pub mod fault;
pub mod input;
mod json;
mod line;
pub mod port;
mod seen;
pub mod send;
pub mod show;
pub mod shown;
pub mod tally;
