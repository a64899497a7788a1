//! Decoding a whole frame into a separate buffer.
ghost use Rattle.std.specs.Prelude.{◌≡◌, ◌≤◌, List, length, ℕ};
ghost use Rattle.cobs.specs.Overwritten.{overwritten};
ghost use Rattle.cobs.specs.Decode.{first_output, result_of_decode};
ghost use Rattle.cobs.specs.FirstPiece.{end_of_first};
ghost use Rattle.cobs.specs.Grammar.{Reads};
ghost use Rattle.cobs.specs.Headline.{IsPiece, ReportsMessage};

use crate::dec::frame_decoder::PieceEnd;
use crate::dec::unbuffered::START;
use crate::error::{DecodeError, DecodeReport};

/// Decodes the first piece of the source into `dest`. Returns how the piece ended, and how many bytes of the source were
/// consumed: the leading zeros, the piece, and the zero after the piece if there is one. Returns `None` if the source
/// has no piece.
///
/// This function decodes as [`decode`] does, but it returns the number of consumed bytes even if the piece is broken or
/// too long. So a program can go on with the next frame of a buffer that has several. The Rust crate `cobs` has no such
/// call.
///
/// ```
/// let frames = b"\x09lost\0\x03hi\0";
/// let mut dest = [0; 8];
/// if let Some((end, consumed)) = decode_first(frames, &mut dest) {
///     assert_eq!(rt; end, PieceEnd::Broken(4));
///     let next = decode_first(&frames[consumed..], &mut dest);
///     assert_eq!(rt; next, Some((PieceEnd::Message(2), 4)));
///     assert!(rt; dest.starts_with(b"hi"));
/// }
/// ```
pub fn decode_first(source: &[u8], dest: &mut [u8]) -> Option<(PieceEnd, usize)>
    ensures answer { result ≡ end_of_first source.now (length dest.old) }
    ensures buffer { dest.new ≡ overwritten dest.old (first_output source.now) }
{
    let mut progress = START;
    match progress.feed_piece(dest, source) {
        Some(ended) => Some(ended),
        // No zero ends the piece, so the end of the source ends it.
        None => {
            let end = PieceEnd::reported(progress.end(dest.len()))?;
            Some((end, source.len()))
        }
    }
}

/// Decodes the first frame of the source into `dest`, and returns how many bytes of the source were consumed and how
/// many bytes the message has.
///
/// Leading zeros are skipped. The frame ends at the next zero, or at the source's end if there is no other zero. The
/// bytes after the zero that ends the frame have no effect. The first `frame_size` bytes of `dest` are the message, and
/// the other bytes of `dest` are unchanged. `parsed_size` counts the skipped zeros, the frame, and the zero after the
/// frame if there is one.
///
/// # Errors
///
/// - `EmptyFrame` if the source is empty, and `InvalidFrame` with `decoded_bytes` 0 if the source has only zeros. In
///   both cases `dest` is unchanged.
/// - `TargetBufTooSmall` if the frame decodes to more bytes than `dest` has. `dest` is then filled with the first
///   decoded bytes.
/// - `InvalidFrame` if the frame breaks off inside a block. `dest` then begins with the decoded bytes, including those
///   of the broken block. `decoded_bytes` is the number of these bytes. The other bytes of `dest` are unchanged.
///
/// The format is that of Cheshire and Baker's paper. The results for a broken frame are a choice of this library.
///
/// ```
/// let mut dest = [170; 12];
/// let report = decode(b"\0\x0chello world\0\x02a", &mut dest)?;
/// assert_eq!(rt; report.parsed_size(), 14);
/// assert_eq!(rt; report.frame_size(), 11);
/// assert_eq!(rt; &dest, b"hello world\xaa");
///
/// let mut dest = [170; 3];
/// let broken = DecodeError::InvalidFrame { decoded_bytes: 2 };
/// assert_eq!(rt; decode(&[4, 1, 2, 0], &mut dest), Err(broken));
/// assert_eq!(rt; dest, [1, 2, 170]);
/// ```
pub fn decode(source: &[u8], dest: &mut [u8]) -> Result<DecodeReport, DecodeError>
    ensures answer { result ≡ result_of_decode source.now (length dest.old) }
    ensures buffer { dest.new ≡ overwritten dest.old (first_output source.now) }
    ensures reads { (m : List ℕ) → Reads source.now m → length m ≤ length dest.old → ReportsMessage result dest.new m }
    ensures only { IsPiece source.now → (m : List ℕ) → ReportsMessage result dest.new m
        → Reads source.now m × (length m ≤ length dest.old) }
{
    if source.is_empty() {
        return Err(DecodeError::EmptyFrame);
    }
    let Some((end, parsed_size)) = decode_first(source, dest) else {
        return Err(DecodeError::InvalidFrame { decoded_bytes: 0 });
    };
    match end {
        PieceEnd::Message(frame_size) => Ok(DecodeReport {
            parsed_size,
            frame_size,
        }),
        PieceEnd::Broken(decoded_bytes) => Err(DecodeError::InvalidFrame { decoded_bytes }),
        PieceEnd::TooLong => Err(DecodeError::TargetBufTooSmall),
    }
}
