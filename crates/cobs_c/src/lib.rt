//! The library `jcobs` for C. Each call is one function, whose parameters are slices, plain structs and numbers.
//!
//! `bindings/c/include/jcobs.h` declares these functions and states their preconditions. Nothing checks that a caller
//! in C meets the preconditions. For a slice, C passes the pointer and then the length.
#![tactic(auto)]

mod answer;
mod decode;
mod decoder;
mod encode;
mod encoder;
mod text;
