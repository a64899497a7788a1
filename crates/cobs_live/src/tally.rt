//! Counts of the pieces and bytes that were read.
ghost use Rattle.cobs.specs.Stream.{Outcome};
ghost use Rattle.cobs_live.specs.Counted.{IsTallyOf};
ghost use Rattle.cobs_live.specs.Seen.{seen_of};
ghost use Rattle.cobs_live.specs.declared.checksum.Checksum.{Checksum};

use crate::seen::Kind;
use std::fmt;

/// How many messages, broken pieces, too long pieces, wrong checksums and bytes were read. Each number stops at
/// `u64::MAX`.
#[derive(Debug, PartialEq, Eq, Clone, Copy)]
pub struct Tally {
    pub messages: u64,
    pub broken: u64,
    pub too_long: u64,
    pub bad_crc: u64,
    pub bytes: u64,

    /// How many pieces of all four kinds were read.
    pub pieces: u64,

    /// Whether messages should end with checksums.
    pub checked: bool,
}

impl Tally {
    ghost use Rattle.std.specs.Prelude.{List, ℕ, [], ◌∷◌, ◌++◌, ◌+◌, ◌≡◌, Option, is_some};

    /// Makes a tally whose counts are all 0.
    pub fn new(checked: bool) -> Self
        ensures none { (checksum : Option Checksum) → checked ≡ is_some checksum → IsTallyOf checksum result [] 0 }
    {
        Tally {
            messages: 0,
            broken: 0,
            too_long: 0,
            bad_crc: 0,
            bytes: 0,
            pieces: 0,
            checked,
        }
    }

    /// Counts a piece of this kind.
    pub fn count_piece(&mut self, kind: Kind)
        ensures one_more { (checksum : Option Checksum) (outcomes : List Outcome) (read : ℕ) (outcome : Outcome)
            → (seen_of checksum outcome).kind ≡ kind → IsTallyOf checksum self.old outcomes read
            → IsTallyOf checksum self.new (outcomes ++ outcome ∷ []) read }
    {
        self.pieces = self.pieces.saturating_add(1);
        match kind {
            Kind::Message => self.messages = self.messages.saturating_add(1),
            Kind::Broken => self.broken = self.broken.saturating_add(1),
            Kind::TooLong => self.too_long = self.too_long.saturating_add(1),
            Kind::BadCrc => self.bad_crc = self.bad_crc.saturating_add(1),
        }
    }

    /// Counts `count` bytes that were read.
    pub fn count_bytes(&mut self, count: usize)
        ensures more { (checksum : Option Checksum) (outcomes : List Outcome) (read : ℕ)
            → IsTallyOf checksum self.old outcomes read → IsTallyOf checksum self.new outcomes (read + count) }
    {
        self.bytes = self.bytes.saturating_add(count as u64);
    }
}

impl fmt::Display for Tally {
    ghost use Rattle.std.specs.Prelude.{Some};
    ghost use Rattle.cobs_live.specs.Shown.{tally_text};

    ghost output = { λ tally. Some (tally_text tally) };

    fn fmt<W: fmt::Write>(&self, f: &mut fmt::Formatter<W>) -> fmt::Result {
        let Tally {
            messages,
            broken,
            too_long,
            bad_crc,
            bytes,
            ..
        } = self;
        if self.checked {
            write!(
                f,
                "messages {messages}, broken {broken}, too long {too_long}, bad crc {bad_crc}, bytes {bytes}"
            )
        } else {
            write!(
                f,
                "messages {messages}, broken {broken}, too long {too_long}, bytes {bytes}"
            )
        }
    }
}
