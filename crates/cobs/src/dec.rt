//! Decoding: from frames to messages.

mod buffered;
mod forms;
mod frame_decoder;
mod heapless;
mod in_place;
mod kind;
mod run;
mod state;
mod unbuffered;
mod whole;

pub use buffered::{CobsDecoder, CobsDecoderOwned};
pub use forms::{decode_vec, decode_vec_with_sentinel, decode_with_sentinel};
pub use frame_decoder::{FrameDecoder, PieceEnd, WriteBuffer};
pub use heapless::CobsDecoderHeapless;
pub use in_place::{decode_in_place, decode_in_place_report, decode_in_place_with_sentinel};
pub use kind::{FrameKind, frame_kind};
pub use state::{DecodeResult, DecoderState};
pub use unbuffered::UnbufferedDecoder;
pub use whole::{decode, decode_first};
