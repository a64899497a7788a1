//! The laws of messages, frames, pieces and streams. Each law is a function whose contract states the law. The function
//! does nothing when it runs. If a function calls a law, the function's proof can use the law. The example of each law
//! calls the law. Some examples call `reads_as`, which CALLING.md shows. If an example needs a proof, the proof
//! follows. It is the caller's `Answers.antt` without the line `use Rattle.CRATE.proofs.CALLER.Goals as goal`.
//!
//! ```
//! fn encode_by_longest(source: &[u8], dest: &mut [u8]) -> usize
//!     requires { max_encoded_len (length source.now) ≤ length dest.old }
//!     ensures { result ≡ encoded_len source.now }
//! {
//!     law_4();
//!     encode(source, dest)
//! }
//! ```
ghost use Rattle.std.specs.Prelude.{◌≡◌, ◌≢◌, ◌↔◌, ◌<◌, ◌≤◌, ◌+◌, ℕ, List, [], ◌∷◌, ◌++◌, length, take, drop, slice_index, All, Some, None};
ghost use Rattle.cobs.specs.Decode.{leading_zeros};
ghost use Rattle.cobs.specs.Feed.{DecoderAfter, Idle, Phase};
ghost use Rattle.cobs.specs.Grammar.{HasNoZero, IsEncodedFrame, IsFrame, IsOpenFrame, Reads, joint, last_of, lone_block};
ghost use Rattle.cobs.specs.Laws.{EndsAtBlock, IsAtSentinel, IsFrameFor, IsFront, StreamLaw};
ghost use Rattle.cobs.specs.Length.{EndsInFullRun, encoded_len, max_encoded_len};
ghost use Rattle.cobs.specs.OpenBlock.{CobsEncoderAfter, IsOpenOutput, OpenBlock, Reached, end_of};
ghost use Rattle.cobs.specs.Piece.{IsWhole, output};
ghost use Rattle.cobs.specs.Push.{last_piece};
ghost use Rattle.cobs.specs.Sentinel.{IsFreeOf, xor_each};
ghost use Rattle.cobs.specs.Stream.{Message, first_piece, head, outcome_of, stream_outcomes, unended};

mod coders;

pub use coders::{law_15, law_16, law_17, law_18, law_19, law_20, law_21};

/// A frame reads as its output.
///
/// The output of some bytes is the message that their blocks stand for, even if the last block isn't complete. The
/// bytes read as their output, and as no other message, if three conditions hold: there is at least one byte, no byte
/// is a zero, and the last block is complete. Otherwise the bytes read as no message. The output is never longer than
/// the bytes. Appending a byte to the bytes never shortens their output.
///
/// So a decoder that only checks whether the last block is complete accepts every frame, and rejects every other piece.
///
/// ```
/// fn is_output(piece: &[u8], message: &[u8], buffer: &mut [u8]) -> bool
///     requires { IsPiece piece.now }
///     ensures { IsTrue result → message.now ≡ output piece.now }
/// {
///     law_1();
///     reads_as(piece, message, buffer)
/// }
/// ```
pub fn law_1()
    ensures reads { (f m : List ℕ) → All (λ byte. byte < 256) f
        → (Reads f m ↔ ((f ≢ []) × HasNoZero f × IsWhole f × (m ≡ output f))) }
    ensures only { (f m : List ℕ) → Reads f m
        → (f ≢ []) × HasNoZero f × IsWhole f × (m ≡ output f) }
    ensures within { (p : List ℕ) → length (output p) ≤ length p }
    ensures grows { (p : List ℕ) (byte : ℕ) → length (output p) ≤ length (output (p ++ byte ∷ [])) }
{}

/// Each message has one encoded frame.
///
/// A message has only one encoded frame, so all encoders that write it write the same bytes. A program can compare
/// encoded frames instead of messages, for example to find a message in a store or to check a signature. The frame's
/// length (`encoded_len`) decides whether `try_encode` and `CobsEncoder` accept the message. In the clauses, messages
/// and frames are lists of numbers. If all numbers of a message are below 256, so are those of its frame.
///
/// ```
/// fn encode_again(message: &[u8], frame: &[u8], dest: &mut [u8]) -> usize
///     requires frame { IsEncodedFrame frame.now message.now }
///     requires room { encoded_len message.now ≤ length dest.old }
///     ensures { take result dest.new ≡ frame.now }
/// {
///     law_2();
///     encode(message, dest)
/// }
/// ```
///
/// ```antt
/// pub returns : goal.returns
/// returns c = c.law_2.ensures.only _ _ _ c.encode.ensures.frame c.requires.frame
/// ```
pub fn law_2()
    ensures one { (m : List ℕ) → (f : List ℕ) × IsEncodedFrame f m }
    ensures only { (f g m : List ℕ) → IsEncodedFrame f m → IsEncodedFrame g m → f ≡ g }
    ensures len { (f m : List ℕ) → IsEncodedFrame f m → length f ≡ encoded_len m }
    ensures bytes { (f m : List ℕ) → IsEncodedFrame f m → All (λ byte. byte < 256) m
        → All (λ byte. byte < 256) f }
{}

/// All frames of a message.
///
/// Each message has an encoded frame. A message has a second frame only if it ends in a full run, that is, in a run of
/// nonzero bytes whose length is a positive multiple of 254. The second frame is the encoded frame followed by the byte
/// `1`. A protocol may allow only one frame for each message, for example because its receivers compare frames. The
/// receivers then use [`frame_kind`](crate::frame_kind) to recognize the longer frame, and reject it.
///
/// ```
/// fn is_frame_for(piece: &[u8], message: &[u8], buffer: &mut [u8]) -> bool
///     requires { IsPiece piece.now }
///     ensures { IsTrue result → IsFrameFor piece.now message.now }
/// {
///     law_3();
///     reads_as(piece, message, buffer)
/// }
/// ```
pub fn law_3()
    ensures frames { (f m : List ℕ) → Reads f m ↔ IsFrameFor f m }
    ensures longer { (f m : List ℕ) → IsEncodedFrame f m → EndsInFullRun m
        → length (f ++ lone_block) ≡ encoded_len m + 1 }
{}

/// The length of a frame, and its bound.
///
/// An encoded frame is longer than its message. The encoded frame of a message of n bytes has at most
/// [`max_encoding_length(n)`](crate::max_encoding_length) bytes. If the message has no zeros, its frame has exactly
/// this length, so for every n some frame reaches the bound. Appending bytes to a message never shortens its frame.
///
/// ```
/// fn encode_nonzero(source: &[u8], dest: &mut [u8]) -> usize
///     requires nonzero { HasNoZero source.now }
///     requires room { max_encoded_len (length source.now) ≤ length dest.old }
///     ensures { result ≡ max_encoded_len (length source.now) }
/// {
///     law_4();
///     encode(source, dest)
/// }
/// ```
pub fn law_4()
    ensures lower { (m : List ℕ) → length m + 1 ≤ encoded_len m }
    ensures upper { (m : List ℕ) → encoded_len m ≤ max_encoded_len (length m) }
    ensures reached { (m : List ℕ) → HasNoZero m → encoded_len m ≡ max_encoded_len (length m) }
    ensures everywhere { (n : ℕ) → (m : List ℕ) × (length m ≡ n) × All (λ byte. byte < 256) m
        × (encoded_len m ≡ max_encoded_len n) }
    ensures grows { (m d : List ℕ) → encoded_len m ≤ encoded_len (m ++ d) }
{}

/// Equal frames, equal messages.
///
/// If the encoded frames of two messages are equal, the messages are equal. A frame reads as only one message. So
/// encoding a message loses no information, and no receiver reads a different message from the frame.
///
/// ```
/// fn are_equal(alloc: Global, first: &[u8], second: &[u8]) -> Result<bool, AllocError>
///     requires first { max_encoded_len (length first.now) < 2 ^ 64 }
///     requires second { max_encoded_len (length second.now) < 2 ^ 64 }
///     ensures { IfOk result (λ equal. IsTrue equal → first.now ≡ second.now) }
/// {
///     law_5();
///     Ok(encode_vec(alloc, first)? == encode_vec(alloc, second)?)
/// }
/// ```
pub fn law_5()
    ensures message { (f m k : List ℕ) → Reads f m → Reads f k → m ≡ k }
    ensures encoded { (f g m k : List ℕ) → IsEncodedFrame f m → IsEncodedFrame g k → f ≡ g → m ≡ k }
{}

/// No frame contains its sentinel; a second XOR restores the frame.
///
/// If each byte of a frame with the sentinel 0 is XORed with a byte `s`, the result is a frame with the sentinel `s`.
/// The frame with the sentinel `s` doesn't contain `s`, and a second XOR with `s` restores the original frame.
///
/// A receiver finds the end of a frame by searching for the sentinel, so a frame must not contain its sentinel. The
/// clause `free` says that a sent frame doesn't contain its sentinel. The clause `received` says that received bytes
/// don't contain it if the XOR turns them into a frame. Bytes without `s` contain no zero after the XOR (`coded`). An
/// XOR with 0 changes nothing (`zero`).
///
/// ```
/// fn as_received<'a>(frame: &'a [u8], sentinel: u8) -> &'a [u8]
///     ensures { IsFrame (xor_each sentinel frame.now) → IsFreeOf sentinel result.now }
/// {
///     law_6();
///     frame
/// }
/// ```
///
/// ```antt
/// pub returns : goal.returns
/// returns c held = c.law_6.ensures.received _ _ held
/// ```
pub fn law_6()
    ensures free { (f : List ℕ) (s : ℕ) → IsFrame f → All (λ byte. byte ≢ s) (xor_each s f) }
    ensures received { (f : List ℕ) (s : ℕ) → IsFrame (xor_each s f) → IsFreeOf s f }
    ensures back { (f : List ℕ) (s : ℕ) → xor_each s (xor_each s f) ≡ f }
    ensures coded { (f : List ℕ) (s : ℕ) → IsFreeOf s f → HasNoZero (xor_each s f) }
    ensures zero { (f : List ℕ) → xor_each 0 f ≡ f }
{}

/// The fronts of a frame.
///
/// A front of a frame consists of any number of its first bytes. A front that isn't empty is a frame if and only if it
/// ends where a block ends. The message of such a front is a front of the frame's message.
///
/// So if a frame is cut inside a block, for example because a connection is lost, a receiver notices the cut. If a
/// frame is cut between two blocks, a receiver doesn't notice the cut, and reads the beginning of the message.
///
/// ```
/// fn is_begun(received: &[u8], message: &[u8], buffer: &mut [u8]) -> bool
///     requires { IsPiece received.now }
///     ensures { (lost m : List ℕ) → IsTrue result
///         → Reads (received.now ++ lost) m → IsFront message.now m }
/// {
///     law_7();
///     reads_as(received, message, buffer)
/// }
/// ```
///
/// ```antt
/// pub returns : goal.returns
/// returns c lost m is reads = c.law_7.ensures.message _ lost _ m reads (c.reads_as.ensures.0 is).0
/// ```
pub fn law_7()
    ensures frame { (p q m : List ℕ) (r : Reads (p ++ q) m) → p ≢ []
        → (IsFrame p ↔ EndsAtBlock p r.blocks) }
    ensures message { (p q k m : List ℕ) → Reads (p ++ q) m → Reads p k → IsFront k m }
{}

/// Frames joined without a sentinel.
///
/// Two frames without a sentinel between them are one frame. The message of this frame consists of the first frame's
/// message, a zero (unless the first frame ends in a full block), and the second frame's message.
///
/// So if the sentinel between two frames is lost, a receiver reads one message, and can't know that two messages were
/// sent. To notice a lost sentinel, put a checksum of your own into each message.
///
/// ```
/// fn join(alloc: Global, first: &[u8], second: &[u8]) -> Result<Vec<u8>, AllocError>
///     ensures { (m k : List ℕ) → Reads first.now m → Reads second.now k
///         → IfOk result (λ both. IsFrame both.items) }
/// {
///     law_8();
///     let mut both = first.to_vec(alloc)?;
///     both.extend_from_slice(second)?;
///     Ok(both)
/// }
/// ```
///
/// ```antt
/// use Rattle.std.proofs.Common.{◌≡◌, ◌++◌, rules, subst, sym}
/// use Rattle.cobs.specs.Grammar.{IsFrame}
/// pub returns : goal.returns
/// returns c m k first second =
///     let joined : c.extend_from_slice.new.self.items ≡ c.args.first.now ++ c.args.second.now = search rules in
///     subst IsFrame (sym joined) (_, c.law_8.ensures.joined _ _ _ _ first second)
/// ```
pub fn law_8()
    ensures joined { (f m g k : List ℕ) (r : Reads f m) → Reads g k
        → Reads (f ++ g) (m ++ joint (last_of r.blocks) ++ k) }
{}

/// A stream may be cut anywhere.
///
/// The unended bytes of a stream are the bytes after its last zero. Cut a stream into two chunks x and y. Put the
/// unended bytes of x before y, and call the result z. Then the outcomes of the stream are the outcomes of x, followed
/// by the outcomes of z. The pieces of the stream that a zero ends are those of x, followed by those of z. The unended
/// bytes of the stream are those of z. A stream that ends in a zero has no unended bytes. In a stream without zeros,
/// all bytes are unended, and there is no outcome. One or more nonzero bytes with a zero after them are one piece.
///
/// So a receiver may decode each chunk that a read returns, however long the chunk is. The outcomes of all chunks, in
/// order, are those that one call for the whole stream returns. `decode_stream`, `push` and `FrameReader` use this law.
///
/// ```
/// fn decode_in_two<D: FrameDecoder>(
///     alloc: Global,
///     decoder: &mut D,
///     first: &[u8],
///     second: &[u8],
/// ) -> Result<(Vec<FrameOutcome>, Vec<FrameOutcome>), AllocError>
///     requires { DecoderAfter (D.bytes decoder.old) (D.phase decoder.old) [] }
///     ensures { IfOk result (λ found. outcomes_in found.0.items ++ outcomes_in found.1.items
///         ≡ stream_outcomes (first.now ++ second.now) (length (D.bytes decoder.old))) }
/// {
///     law_9();
///     let found = decode_stream(alloc, decoder, first)?;
///     Ok((found, decode_stream(alloc, decoder, second)?))
/// }
/// ```
///
/// ```antt
/// use Rattle.std.proofs.Common.{[], ◌++◌, length, refl}
/// pub returns : goal.returns
/// returns g c =
///     let first = c.in_ok-found.ensures in
///     let second = c.in_ok-decode_stream.ensures.outcomes _ (first.after [] c.requires) in
///     let room = length (g.D.FrameDecoder.bytes c.args.decoder.now) in
///     let cut = c.law_9.ensures.cut c.args.first.now c.args.second.now room in
///     rw (first.outcomes [] c.requires, second, first.len, cut) refl
/// ```
pub fn law_9()
    ensures { StreamLaw }
{}

/// Damage stays between its sentinels.
///
/// If bytes between two sentinels are changed, lost or added, the pieces before the first sentinel and after the second
/// sentinel keep their outcomes, even if the damage adds sentinels. If there are bytes between the sentinels, but no
/// other sentinel, these bytes are one piece with one outcome. Two adjacent sentinels have no piece between them.
///
/// So on a noisy line, or in a damaged file of records, only the messages that the damage touches are lost.
///
/// ```
/// fn one_outcome<D: FrameDecoder>(
///     alloc: Global,
///     decoder: &mut D,
///     damaged: &[u8],
/// ) -> Result<Vec<FrameOutcome>, AllocError>
///     requires idle { DecoderAfter (D.bytes decoder.old) (D.phase decoder.old) [] }
///     requires piece { IsPiece damaged.now }
///     ensures { IfOk result (λ found. outcomes_in found.items
///         ≡ outcome_of damaged.now (length (D.bytes decoder.old)) ∷ []) }
/// {
///     law_10();
///     let mut ended = damaged.to_vec(alloc)?;
///     ended.push(0)?;
///     decode_stream(alloc, decoder, &ended)
/// }
/// ```
pub fn law_10()
    ensures apart { (a d z : List ℕ) (n : ℕ) → IsAtSentinel a → stream_outcomes (a ++ d ++ 0 ∷ z) n
        ≡ stream_outcomes a n ++ stream_outcomes (d ++ 0 ∷ []) n ++ stream_outcomes z n }
    ensures one { (d : List ℕ) (n : ℕ) → d ≢ [] → HasNoZero d
        → stream_outcomes (d ++ 0 ∷ []) n ≡ outcome_of d n ∷ [] }
    ensures empty { (n : ℕ) → stream_outcomes (0 ∷ []) n ≡ [] }
{}

/// A frame in a stream is decoded as its message.
///
/// A frame is decoded as its message in each buffer that has room for the message. So if messages were sent as frames,
/// with a sentinel after each frame, a decoder whose buffer has room for each message returns exactly these messages.
/// The decoder reports no frame as broken or too long, not even the longer frame of a message that has two frames.
///
/// ```
/// fn encode_for_stream(message: &[u8], dest: &mut [u8]) -> usize
///     requires { encoded_len message.now ≤ length dest.old }
///     ensures { (n : ℕ) → length message.now ≤ n
///         → outcome_of (take result dest.new) n ≡ Message message.now }
/// {
///     law_11();
///     encode(message, dest)
/// }
/// ```
///
/// ```antt
/// pub returns : goal.returns
/// returns c n held = c.law_11.ensures.message _ _ n c.encode.ensures.frame.reads held
/// ```
pub fn law_11()
    ensures message { (f m : List ℕ) (n : ℕ) → Reads f m → length m ≤ n
        → outcome_of f n ≡ Message m }
{}

/// The first and the last piece of a stream.
///
/// If a stream begins with a nonzero byte, its first piece consists of the bytes before the first zero. If the buffer
/// is as long as the stream, the outcome of the first piece is the message m if and only if the piece reads as m. Zeros
/// before the first piece are skipped: the piece begins after these zeros, and ends at the next zero or at the end of
/// the stream. An empty stream and a stream of only zeros have no piece. A search that stops at the first zero, or at
/// the end of a stream without zeros, finds the bytes before the first zero (`head`). The clause `head_for` states this
/// for other sentinels. As long as no piece has ended, the unended bytes are the last piece, and the next zero ends it.
///
/// So if a source begins with a nonzero byte, `decode_in_place` returns the same message as `decode` with a buffer as
/// long as the source, or both calls return an error.
///
/// ```
/// fn begins_with_piece(stream: &[u8]) -> bool
///     ensures { IsTrue result → first_piece stream.now ≡ Some (head stream.now) }
/// {
///     law_12();
///     match stream {
///         [] | [0, ..] => false,
///         _ => true,
///     }
/// }
/// ```
pub fn law_12()
    ensures piece { (byte : ℕ) (bytes : List ℕ) → byte ≢ 0
        → first_piece (byte ∷ bytes) ≡ Some (head (byte ∷ bytes)) }
    ensures reads { (byte : ℕ) (bytes m : List ℕ) → let t = byte ∷ bytes in
        byte ≢ 0 → All (λ byte. byte < 256) t
        → ((outcome_of (head t) (length t) ≡ Message m) ↔ Reads (head t) m) }
    ensures behind { (t : List ℕ) → first_piece t ≡ first_piece (drop (leading_zeros t) t) }
    ensures head { (t : List ℕ) (n : ℕ) → n ≤ length t → HasNoZero (take n t)
        → (n < length t → slice_index t n ≡ 0) → take n t ≡ head t }
    ensures head_for { (t : List ℕ) (n s : ℕ) → n ≤ length t → IsFreeOf s (take n t)
        → (n < length t → slice_index t n ≡ s) → xor_each s (take n t) ≡ head (xor_each s t) }
    ensures found { (t : List ℕ) (n : ℕ) → let rest = drop (leading_zeros t) t in
        0 < n → n ≤ length rest → HasNoZero (take n rest)
        → (n < length rest → slice_index rest n ≡ 0) → first_piece t ≡ Some (take n rest) }
    ensures none { (t : List ℕ) → let rest = drop (leading_zeros t) t in
        (0 < length rest → slice_index rest 0 ≡ 0) → first_piece t ≡ None }
    ensures last { (t : List ℕ) (n : ℕ) → stream_outcomes t n ≡ [] → last_piece t ≡ unended t }
    ensures last_ended { (t : List ℕ) (n : ℕ) → stream_outcomes t n ≡ []
        → last_piece (t ++ 0 ∷ []) ≡ unended t }
{}

/// The open frame of a streaming encoder.
///
/// A frame is open if its last block isn't full. A caller of [`EncoderState`](crate::EncoderState) writes a message's
/// open frame. This law states the length of the output so far, and how the open frame differs from the encoded frame.
///
/// So if a caller does what each [`PushResult`](crate::PushResult) says, the placeholder for the next code is always
/// within the output. The final output is the encoded frame, followed by the byte `1` if the message has two frames.
///
/// ```
/// fn as_encoded<'a>(frame: &'a [u8], message: &[u8], index: usize, code: u8) -> &'a [u8]
///     requires open { IsOpenFrame frame.now message.now index code }
///     requires last_run { EndsInFullRun message.now → ⊥ }
///     ensures { IsEncodedFrame result.now message.now }
/// {
///     law_13();
///     frame
/// }
/// ```
///
/// ```antt
/// pub returns : goal.returns
/// returns c = c.law_13.ensures.shorter _ _ _ _ c.requires.open c.requires.last_run
/// ```
pub fn law_13()
    ensures output { (g m : List ℕ) (state : OpenBlock) → IsOpenOutput g state m
        → (length g ≡ state.index + state.code) × (state.index < length g) }
    ensures shorter { (f m : List ℕ) (index code : ℕ) → IsOpenFrame f m index code
        → (EndsInFullRun m → ⊥) → IsEncodedFrame f m }
    ensures longer { (f m : List ℕ) (index code : ℕ) → IsOpenFrame f m index code → EndsInFullRun m
        → (g : List ℕ) × IsEncodedFrame g m × (f ≡ g ++ lone_block) }
    ensures end { (slice m : List ℕ) (reached : Reached) → CobsEncoderAfter slice reached m
        → end_of reached ≡ encoded_len m }
{}

/// A decoder is idle if and only if no piece has begun.
///
/// So [`FrameReader::new`](crate::FrameReader::new) accepts a decoder if the last byte that was fed to it was a zero.
/// If a frame and the zero after it are pushed to a new decoder in one `push`, the decoder decodes the frame.
///
/// ```
/// fn reader_after_zero(mut decoder: CobsDecoderOwned) -> FrameReader<CobsDecoderOwned>
///     ensures { kept_of result ≡ [] }
/// {
///     law_14();
///     let _ended = decoder.feed(0);
///     FrameReader::new(decoder)
/// }
/// ```
///
/// ```antt
/// use Rattle.std.proofs.Common.{refl}
/// pub new-requires : goal.new-requires
/// new-requires c = (c.law_14.ensures.idle _ _).1 (c.feed-ended.ensures.feeds.zero_idle refl)
/// ```
pub fn law_14()
    ensures idle { (buffer : List ℕ) (phase : Phase)
        → (DecoderAfter buffer phase [] ↔ (phase ≡ Idle)) }
{}
