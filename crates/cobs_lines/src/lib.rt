//! Parts of the programs `cobs_tool` and `cobs_watch`: hexadecimal digits, and a source whose bytes are in memory. The
//! definition `outcome_line` says which line a program prints for a piece of a stream.
#![tactic(auto)]

mod digits;
mod memory;

pub use digits::{fill_digits, write_digits};
pub use memory::InMemory;
