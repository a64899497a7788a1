//! Tests the state machine of a decoder in every state that a caller can build, with every byte.
//!
//! `rt` is the runtime: an assertion that fails aborts the test through it.
use cobs::{DecodeError, DecodeResult, DecoderState};
use std::process::Abort;
use std::test::Fail;

/// The 513 states of a decoder: idle, or inside a block, full or not, with 0 to 255 missing bytes.
#[derive(Clone, Copy, Debug, PartialEq, Eq)]
enum State {
    Idle,
    InBlock { full: bool, left: u8 },
}

/// The result for a byte.
#[derive(Clone, Copy, Debug, PartialEq, Eq)]
enum CallResult {
    NoData,
    Start,
    Complete,
    Byte(u8),
    Rejected,
}

/// Converts a [`State`] to the decoder's own type.
fn built(state: State) -> DecoderState {
    match state {
        State::Idle => DecoderState::Idle,
        State::InBlock { full: false, left } => DecoderState::Grab(left),
        State::InBlock { full: true, left } => DecoderState::GrabChain(left),
    }
}

/// Converts the decoder's state to a [`State`].
fn seen(state: &DecoderState) -> State {
    match state {
        DecoderState::Idle => State::Idle,
        DecoderState::Grab(left) => State::InBlock {
            full: false,
            left: *left,
        },
        DecoderState::GrabChain(left) => State::InBlock {
            full: true,
            left: *left,
        },
    }
}

/// Converts the decoder's result to a [`CallResult`]. Returns `None` for a result that no state should have.
fn known_result(returned: &Result<DecodeResult, DecodeError>) -> Option<CallResult> {
    match returned {
        Ok(DecodeResult::NoData) => Some(CallResult::NoData),
        Ok(DecodeResult::DataStart) => Some(CallResult::Start),
        Ok(DecodeResult::DataComplete) => Some(CallResult::Complete),
        Ok(DecodeResult::DataContinue(byte)) => Some(CallResult::Byte(*byte)),
        Err(DecodeError::InvalidFrame { decoded_bytes: 0 }) => Some(CallResult::Rejected),
        Err(_) => None,
    }
}

/// Returns the expected result of this state for this byte.
fn wanted_result(state: State, byte: u8) -> CallResult {
    match (state, byte) {
        (State::Idle, 0) => CallResult::NoData,
        (State::Idle, _) => CallResult::Start,
        (State::InBlock { left: 0, .. }, 0) => CallResult::Complete,
        (
            State::InBlock {
                left: 0,
                full: true,
            },
            _,
        ) => CallResult::NoData,
        (
            State::InBlock {
                left: 0,
                full: false,
            },
            _,
        ) => CallResult::Byte(0),
        (State::InBlock { .. }, 0) => CallResult::Rejected,
        (State::InBlock { .. }, data) => CallResult::Byte(data),
    }
}

/// Returns the expected state after the byte.
fn wanted_state(state: State, byte: u8) -> State {
    match state {
        _ if byte == 0 => State::Idle,
        State::InBlock { full, left } if left > 0 => State::InBlock {
            full,
            left: left - 1,
        },
        _ => State::InBlock {
            full: byte == 255,
            left: byte - 1,
        },
    }
}

/// Feeds each byte to a decoder in this state, and checks the result and the next state.
fn check_each_byte(rt: &impl Abort, state: State) {
    for byte in 0..=255u8 {
        let mut decoder = built(state);
        let returned = decoder.feed(byte);
        assert_eq!(rt;
            known_result(&returned),
            Some(wanted_result(state, byte)),
            "{state:?} and {byte}"
        );
        assert_eq!(rt;
            seen(&decoder),
            wanted_state(state, byte),
            "{state:?} and {byte}"
        );
    }
}

#[test]
fn every_state_with_every_byte(rt: HostRuntime) {
    assert_eq!(rt; seen(&DecoderState::default()), State::Idle);
    check_each_byte(&rt, State::Idle);
    for left in 0..=255u8 {
        check_each_byte(&rt, State::InBlock { full: false, left });
        check_each_byte(&rt, State::InBlock { full: true, left });
    }
}
