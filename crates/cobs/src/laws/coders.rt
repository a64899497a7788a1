//! Laws for an encoder or a decoder of your own. They describe the length, the kind and the output of a frame block by
//! block, and the states of an encoder and of a decoder after each byte. `law_18` states what the streaming decoders
//! return for a frame, and `law_21` is about a loop over the pieces of a stream.
ghost use Rattle.std.specs.Prelude.{◌≡◌, ◌≢◌, ◌↔◌, ◌<◌, ◌+◌, ℕ, List, [], ◌∷◌, ◌++◌, length, drop, false, Some, None};
ghost use Rattle.cobs.specs.Feed.{DecoderAfter, Idle, Phase};
ghost use Rattle.cobs.specs.FeedPiece.{TakesPiece, outcome_at};
ghost use Rattle.cobs.specs.Grammar.{HasNoZero, IsBlock, IsCanonical, IsFrame, IsFull, bytes_of, joint, lone_block};
ghost use Rattle.cobs.specs.Laws.{DecoderLaw, EncoderLaw, FrameLaw};
ghost use Rattle.cobs.specs.Length.{encoded_len};
ghost use Rattle.cobs.specs.Piece.{IsWhole, is_whole, kept_output, output};
ghost use Rattle.cobs.specs.Stream.{stream_outcomes, unended};
ghost use Rattle.cobs.specs.declared.dec.frame_decoder.PieceEnd.{PieceEnd};

/// How to count the length of a frame, block by block.
///
/// The length of an encoded frame is the sum of the lengths of its blocks. The first block stands for one of these:
///
/// - up to 253 nonzero bytes, and the zero after them
/// - 254 nonzero bytes, if other bytes follow them
/// - the whole message, if the message consists of up to 254 nonzero bytes
///
/// If nonzero bytes at the front of a message are replaced with the same number of other nonzero bytes, the length of
/// the encoded frame doesn't change.
///
/// So before an encoder writes a byte, it can find out with one pass over the message whether the frame fits.
///
/// ```
/// fn encode_short(message: &[u8], dest: &mut [u8]) -> usize
///     requires nonzero { HasNoZero message.now }
///     requires short { length message.now < 255 }
///     requires room { length message.now < length dest.old }
///     ensures { result ≡ length message.now + 1 }
/// {
///     law_15();
///     encode(message, dest)
/// }
/// ```
pub fn law_15()
    ensures last { (a : List ℕ) → length a < 255 → HasNoZero a → encoded_len a ≡ length a + 1 }
    ensures zero { (a m : List ℕ) → length a < 254 → HasNoZero a
        → encoded_len (a ++ 0 ∷ m) ≡ length a + 1 + encoded_len m }
    ensures full { (a m : List ℕ) → length a ≡ 254 → HasNoZero a → m ≢ []
        → encoded_len (a ++ m) ≡ 255 + encoded_len m }
    ensures same { (a b m : List ℕ) → HasNoZero a → HasNoZero b → length a ≡ length b
        → encoded_len (a ++ m) ≡ encoded_len (b ++ m) }
{}

/// An encoder of your own, byte by byte.
///
/// The encoder writes to a slice. At first, it has taken no byte of the message. The encoder appends a nonzero byte to
/// the open block. A zero ends the open block, and the 254th nonzero byte of a block fills the block. In both cases,
/// the encoder writes the block's code. At the end of the message, the encoder writes the code of the open block,
/// unless the last block is full.
///
/// Suppose that the encoder has taken some bytes of the message, perhaps none, and that at least one more byte is to
/// come. Then the length of the encoded frame of the whole message is the sum of two numbers. The first number is the
/// index of the open block. The second number is the length of the encoded frame of another message. This other message
/// consists of the bytes that the open block has after its code, followed by the bytes that are still to come. The
/// clause `goes_on` states this sum, but it has a list `a` in place of the bytes after the open block's code. The list
/// `a` may have any nonzero bytes, as many as the open block has after its code.
///
/// So an encoder of your own that writes blocks in this way writes the frames that [`encode`](crate::encode) writes.
///
/// ```
/// fn take_nonzero(slice: &mut [u8], index: usize, code: u8, byte: u8)
///     requires room { index + code < length slice.old }
///     requires code { code < 254 }
///     requires byte { byte ≢ 0 }
///     ensures { (m : List ℕ) (full : Bool) → CobsEncoderAfter slice.old (place_at index code full) m
///         → CobsEncoderAfter slice.new (place_at index (code + 1) false) (m ++ byte ∷ []) }
/// {
///     law_16();
///     slice[index + code as usize] = byte;
/// }
/// ```
///
/// ```antt
/// use Rattle.cobs.specs.OpenBlock.{place_at}
/// pub returns : goal.returns
/// returns c m full h =
///     c.law_16.ensures.joins _ m (place_at c.args.index c.args.code full) _ h c.requires.byte c.requires.code c.requires.room
/// ```
pub fn law_16()
    ensures { EncoderLaw }
{}

/// A decoder of your own, byte by byte.
///
/// The file `specs/Step.antt` defines a step for every phase of a decoder and every byte. The clause `step` says that
/// this step meets the contract of `feed`. The clause `by_table` says that this step changes a decoder's state in the
/// same way as the call `feed` of [`DecoderState`](crate::DecoderState) does for the same byte, as long as the output
/// of the piece fits the buffer.
///
/// Consider a loop that feeds bytes one by one, and stops after the zero that ends the first piece, or after the last
/// byte if no piece ends. This loop has the same result as one call of `feed_piece`.
///
/// So a decoder of your own that makes these steps decodes in the same way as the streaming decoders.
///
/// ```
/// fn feed_one(decoder: &mut UnbufferedDecoder, buffer: &mut [u8], byte: u8)
///     requires { byte ≢ 0 }
///     ensures { TakesPiece buffer.old (phase_of decoder.old) (byte ∷ []) None
///         buffer.new (phase_of decoder.new) }
/// {
///     law_17();
///     let _returned = decoder.feed(buffer, byte);
/// }
/// ```
///
/// ```antt
/// use Rattle.std.proofs.Common.{[], ◌∷◌, arith}
/// pub returns : goal.returns
/// returns c =
///     let law = c.law_17.ensures in
///     law.byte (c.args.byte ∷ []) _ _ _ _ _ _ _ 0 (omega arith) (law.nothing _ _) c.feed-returned.ensures.feeds (λ z. absurd (c.requires z))
/// ```
pub fn law_17()
    ensures { DecoderLaw }
{}

/// Streaming decoders return the message of each frame, and no other message.
///
/// Assume that the buffer has room for the message of a frame. Then each of these calls returns the length of the
/// message, and leaves the message at the front of the buffer:
///
/// - `feed` of a zero, after all bytes of the frame have been fed
/// - `feed_piece` of the frame, a zero and any further bytes, if the decoder was idle; the call stops after the zero
/// - `push` of the frame and a zero, if the decoder was idle
///
/// If a piece isn't a frame, none of these calls returns a message for it.
///
/// So each of these calls decodes the frames that [`encode`](crate::encode) writes.
///
/// ```
/// fn end_frame(decoder: &mut CobsDecoderOwned) -> Result<Option<usize>, DecodeError>
///     ensures { (f m : List ℕ) → DecoderAfter (owned_buffer decoder.old) (owned_phase decoder.old) f
///         → Reads f m → length m ≤ length (owned_buffer decoder.old)
///         → result ≡ Ok (Some (length m)) }
/// {
///     law_18();
///     decoder.feed(0)
/// }
/// ```
///
/// ```antt
/// pub returns : goal.returns
/// returns c f m taken frame held = (c.law_18.ensures.fed _ _ f m _ _ _ c.feed.ensures.feeds taken frame held).0
/// ```
pub fn law_18()
    ensures { FrameLaw }
{}

/// How to find the kind of a frame, block by block.
///
/// A frame is canonical if it is the frame that encoders write for its message. A single block is a canonical frame. A
/// block followed by further bytes is a frame if and only if the further bytes are a frame. The whole frame is
/// canonical if and only if the further bytes are a canonical frame, with one exception: a full block followed by
/// nothing but the lone block `01` isn't canonical. If there are fewer bytes than the first code says, the bytes aren't
/// a frame.
///
/// So a reader of your own that goes from code to code can find out whether bytes are a frame, and what kind of frame
/// they are.
///
/// ```
/// fn is_canonical_behind(block: &[u8], frame: &[u8]) -> bool
///     requires block { IsBlock block.now }
///     requires not_full { IsFull block.now → ⊥ }
///     requires some { frame.now ≢ [] }
///     ensures { IsTrue result → IsCanonical (block.now ++ frame.now) }
/// {
///     law_19();
///     frame_kind(frame) == FrameKind::Canonical
/// }
/// ```
pub fn law_19()
    ensures one { (block : List ℕ) → IsBlock block → IsCanonical block }
    ensures frame { (block f : List ℕ) → IsBlock block → f ≢ []
        → (IsFrame (block ++ f) ↔ IsFrame f) }
    ensures canonical { (block f : List ℕ) → IsBlock block → f ≢ []
        → (IsCanonical (block ++ f) ↔ (IsCanonical f × (IsFull block → f ≢ lone_block))) }
    ensures short { (code : ℕ) (bytes : List ℕ) → length bytes + 1 < code
        → IsFrame (code ∷ bytes) → ⊥ }
{}

/// How to find the output of a piece, block by block.
///
/// A piece is whole if its last block is complete. The kept output of a piece is its output without the bytes of an
/// incomplete last block. A single block is whole, and its output is its bytes without the code. A piece that consists
/// of a block and further bytes is whole if and only if the further bytes are whole. The kept output of this piece
/// consists of the output of the block, a zero (unless the block is full), and the kept output of the further bytes. If
/// a piece has fewer bytes than its first code says, it isn't whole, and its kept output is empty. The kept output of a
/// whole piece is its output.
///
/// So a decoder of your own that goes from code to code can write the bytes that
/// [`decode_in_place`](crate::decode_in_place) writes.
///
/// ```
/// fn decode_block<'a>(block: &'a [u8]) -> &'a [u8]
///     requires { IsBlock block.now }
///     ensures { result.now ≡ output block.now }
/// {
///     law_20();
///     &block[1..]
/// }
/// ```
pub fn law_20()
    ensures one { (block : List ℕ) → IsBlock block → output block ≡ bytes_of block }
    ensures one_whole { (block : List ℕ) → IsBlock block → IsWhole block }
    ensures whole { (block p : List ℕ) → IsBlock block → p ≢ []
        → is_whole (block ++ p) ≡ is_whole p }
    ensures kept { (block p : List ℕ) → IsBlock block → p ≢ []
        → kept_output (block ++ p) ≡ bytes_of block ++ joint block ++ kept_output p }
    ensures short { (code : ℕ) (bytes : List ℕ) → length bytes + 1 < code
        → is_whole (code ∷ bytes) ≡ false }
    ensures short_kept { (code : ℕ) (bytes : List ℕ) → length bytes + 1 < code
        → kept_output (code ∷ bytes) ≡ [] }
    ensures all_kept { (p : List ℕ) → IsWhole p → kept_output p ≡ output p }
{}

/// A loop over the pieces of a stream.
///
/// Assume that a stream is passed to `feed_piece` of an idle decoder. If a piece ends, the *rest* of the stream
/// consists of the bytes after the zero that ends it. The outcomes of the stream are then the outcome of this first
/// piece, followed by the outcomes of the rest. The unended bytes of a stream are the bytes after its last zero, or all
/// bytes if it has no zero. The whole stream has the same unended bytes as the rest. If no piece ends, the stream has
/// no outcome, and the unended bytes have been fed to the decoder.
///
/// So the invariant of a loop over `feed_piece` is one equation: the outcomes found so far, followed by the outcomes of
/// the remaining bytes, are the outcomes of the stream.
///
/// ```
/// fn first_outcome<D: FrameDecoder>(decoder: &mut D, stream: &[u8]) -> bool
///     requires { D.phase decoder.old ≡ Idle }
///     ensures { (result ≡ false)
///         → stream_outcomes stream.now (length (D.bytes decoder.old)) ≡ [] }
/// {
///     law_21();
///     decoder.feed_piece(stream).is_some()
/// }
/// ```
pub fn law_21()
    ensures outcomes { (buffer buffer' bytes : List ℕ) (phase phase' : Phase) (end : PieceEnd) (count : ℕ)
        → TakesPiece buffer phase bytes (Some (end, count)) buffer' phase' → phase ≡ Idle
        → stream_outcomes bytes (length buffer)
        ≡ outcome_at end buffer' ∷ stream_outcomes (drop count bytes) (length buffer) }
    ensures left { (buffer buffer' bytes : List ℕ) (phase phase' : Phase) (end : PieceEnd) (count : ℕ)
        → TakesPiece buffer phase bytes (Some (end, count)) buffer' phase'
        → unended bytes ≡ unended (drop count bytes) }
    ensures none { (buffer buffer' bytes : List ℕ) (phase phase' : Phase)
        → TakesPiece buffer phase bytes None buffer' phase' → phase ≡ Idle
        → stream_outcomes bytes (length buffer) ≡ [] }
    ensures after { (buffer buffer' bytes : List ℕ) (phase phase' : Phase)
        → TakesPiece buffer phase bytes None buffer' phase' → phase ≡ Idle
        → DecoderAfter buffer' phase' (unended bytes) }
{}
