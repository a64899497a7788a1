//! Tests of `cobs_live` with readers and writers that pass on few bytes per call, are interrupted, or fail. No contract
//! states the result of a call in these cases. The crate also has callers whose contracts are proved from promises of
//! `cobs_live`: a piece that has ended is shown before the next read, a line is sent before the next read, and a right
//! checksum is removed from a message.
#![tactic(auto)]

pub mod recorder;
pub mod sent_back;
#[cfg(test)]
mod tests;
