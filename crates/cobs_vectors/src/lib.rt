//! Proved callers of the crate `cobs`, and its tests.
//!
//! The contract of each caller is derived from the public clauses of the calls that it makes. So a clause that says too
//! little for its users is noticed here.
//!
//! For every input, the contracts of `cobs` define the result of each call and the contents of each buffer after it. The
//! tests check what no contract states:
//!
//! - The contracts agree with a plain reference.
//! - A call succeeds if nothing is wrong.
//! - The texts that are printed or written as JSON are right.
//! - A call that allocates returns an error if memory runs out.
//! - The examples in the documentation of `cobs` do what their assertions say.
//!
//! Cases that every library of the format can run are in `conformance/`. They include the tests of the original crate,
//! `cobs` 0.5.1.
#![tactic(auto)]

#[cfg(test)]
mod all_messages;
#[cfg(test)]
mod all_pieces;
#[cfg(test)]
mod bytes;
pub mod callers;
pub mod clients;
#[cfg(test)]
mod doc_decoders;
#[cfg(test)]
mod doc_decoding;
#[cfg(test)]
mod doc_encoders;
#[cfg(test)]
mod doc_functions;
#[cfg(test)]
mod doc_laws;
#[cfg(test)]
mod doc_streams;
#[cfg(test)]
mod encoders;
#[cfg(test)]
mod hostile;
#[cfg(test)]
mod memory;
#[cfg(test)]
mod messages;
pub mod own_coders;
#[cfg(test)]
mod readers;
pub mod receivers;
#[cfg(test)]
mod reference;
#[cfg(test)]
mod roundtrip;
#[cfg(test)]
mod run_callers;
#[cfg(test)]
mod slices;
#[cfg(test)]
mod states;
#[cfg(test)]
mod streaming;
#[cfg(test)]
mod streams;
#[cfg(test)]
mod texts;
pub mod worked_callers;
