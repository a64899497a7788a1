//! Shows a stream as its bytes arrive.
ghost use Rattle.std.specs.Prelude.{◌≡◌, ◌≢◌, ◌<◌, ◌≤◌, ◌↔◌, ℕ, List, [], length, take, OnOk, IfOk, IfErr, IsTrue, Option, Ok, Err, false};
ghost use Rattle.std.specs.Io.KnownBytes.{Appends, Keeps};
ghost use Rattle.std.specs.Io.Buffered.{writer_buffer, writer_inner};
ghost use Rattle.cobs.specs.Feed.{DecoderAfter, Idle};
ghost use Rattle.cobs.specs.Fields.Decoders.{phase_of};
ghost use Rattle.cobs.specs.Sentinel.{xor_each};
ghost use Rattle.cobs.specs.Stream.{Outcome};
ghost use Rattle.cobs_live.specs.Composed.{with_text};
ghost use Rattle.cobs_live.specs.Counted.{IsTallyOf};
ghost use Rattle.cobs_live.specs.declared.clock.Moment.{Moment};
ghost use Rattle.cobs_live.specs.declared.shown.Settings.{Settings};
ghost use Rattle.cobs_live.specs.Live.{HoldsText, ShowsBytes};
ghost use Rattle.cobs_live.specs.Reads.{IsLive, ReadsOnce, Takes, given};
ghost use Rattle.cobs_live.specs.Seen.{seen_in};
ghost use Rattle.cobs_live.specs.Shown.{in_view};
ghost use Rattle.cobs_live.specs.Timed.{IsReadAt};
ghost use Rattle.cobs_live.specs.Watched.{HasShown, IsFlushed, begun, skips_on};

use crate::clock::{Timer, Times};
use crate::composed::Composed;
use crate::fault::WatchFault;
use crate::input::LiveInput;
use crate::seen::Sight;
use crate::shown::{Settings, View, show_end, show_piece, sight_of, with_part};
use crate::tally::Tally;
use cobs::laws::{law_6, law_9, law_12};
use cobs::{UnbufferedDecoder, xor_bytes};
use std::alloc::{AllocError, Global};
use std::io::{BufWriter, ErrorKind, Write};
use std::rt::Clock;

/// The greatest number of bytes of one read: 64 KiB. Even if a read returns fewer bytes, the pieces that end in them
/// are shown before more bytes are read.
pub const CHUNK_LEN: usize = 65_536;

/// Shows each piece of the input when the piece's sentinel arrives. At the end of the input, shows `unfinished` if a
/// piece has begun but not ended.
///
/// `run_show` calls [`Watch::show_next`] repeatedly. Each call reads once, shows the pieces that ended, and flushes the
/// output. So before the program waits for more bytes, it has written all pieces that have ended. Memory is allocated
/// only before the first read: for a message of the greatest length, and for a chunk of the input.
///
/// If `count` is set, the counts of pieces and bytes are written to `errors` at the end, even after a fault. A failure
/// to write the counts isn't a fault.
///
/// # Errors
/// - `ReadFailed`: a read failed, for example because a serial line was unplugged. All pieces that had ended before
///   this read have been shown. If another piece had begun, `unfinished` has been shown after them.
/// - `WriteFailed`: a write or a flush failed. Part of the text may have been written.
/// - `OutputClosed`: a write or a flush failed because nobody reads the output any more.
/// - `OutOfMemory`: memory ran out. Nothing was read, and nothing was written.
pub fn run_show<C: Clock + Drop, S: LiveInput<W>, W: Write + Drop, E: Write>(
    alloc: Global,
    settings: &Settings,
    count: bool,
    timer: &Timer<'_, C>,
    input: &mut S,
    output: &mut BufWriter<W>,
    errors: &mut E,
) -> Result<Tally, WatchFault>
    requires flushed { writer_buffer output.old ≡ [] }
    ensures shown { HasShown settings.now result (S.remaining input.old) (S.remaining input.new)
        (W.contents (writer_inner output.old)) (W.contents (writer_inner output.new)) }
    ensures live { IsLive S.step input.old input.new
        (HoldsText settings.now (W.contents (writer_inner output.old))) }
    ensures flushed { IsFlushed result (writer_buffer output.new) }
{
    law_9(); // A stream may be cut anywhere
    let mut watch = Watch::new(alloc, settings)?;
    let mut chunk = vec![in alloc; 0; CHUNK_LEN]?;
    // The number of reads is limited, because every function is proved to end.
    'by_read: for _read in 0..usize::MAX {
        let next = watch.show_next(timer, &mut chunk, input, output);
        if count && next != Ok(true) {
            let _ = writeln!(errors, "{}", watch.tally);
        }
        if !next? {
            return Ok(watch.tally);
        }
    }
    watch.end(output)?;
    Err(WatchFault::ReadFailed)
}

/// A stream that is being shown.
#[derive(Drop)]
pub struct Watch<'a> {
    settings: &'a Settings,
    decoder: UnbufferedDecoder,

    /// The buffer to which the decoder writes the message.
    message: Vec<u8>,

    tally: Tally,

    /// The times at which the last piece and the last bytes were read.
    clock: Times,

    /// Whether all bytes up to the next sentinel are skipped.
    skipping: bool,
}

impl<'a> Watch<'a> {
    ghost use Rattle.cobs_live.specs.Live.{HasShownSoFar, HoldsText, IsLiveSoFar, ShowsEnd, ShowsNext};
    ghost use Rattle.cobs_live.specs.Reads.{IsLive};

    /// Makes a watch that has shown nothing yet.
    ///
    /// # Errors
    /// Returns `AllocError` if there isn't enough memory for a message of the greatest length.
    pub fn new(alloc: Global, settings: &'a Settings) -> Result<Self, AllocError>
        // Whatever the input and the output are: nothing of the input has been read, and nothing has been written.
        ensures start { IfOk result (λ watch. (from before : Option (List ℕ)) →
            HasShownSoFar settings.now from from before before watch) }
    {
        law_9(); // A stream may be cut anywhere
        let message = vec![in alloc; 0; settings.length]?;
        Ok(Watch {
            settings,
            decoder: UnbufferedDecoder::new(),
            message,
            tally: Tally::new(settings.view.checksum.is_some()),
            clock: Times::new(),
            skipping: settings.skip_first,
        })
    }

    /// Reads once into `chunk`, shows each piece that ends in the bytes of this read, and flushes the output. Returns
    /// whether the input continues. At the end of the input, and after a failed read, shows `unfinished` if a piece has
    /// begun but not ended.
    ///
    /// Nothing is written before the read. The output has been flushed when the read begins (clause `flushed`), so all
    /// pieces that have ended by then have been shown. An interrupted read is tried again.
    ///
    /// # Errors
    /// Returns `ReadFailed` if the read failed. Then no piece has ended in this call. Returns `WriteFailed` if a write
    /// or a flush failed, but `OutputClosed` if it failed because nobody reads the output any more.
    pub fn show_next<C: Clock + Drop, S: LiveInput<W>, W: Write + Drop>(
        &mut self,
        timer: &Timer<'_, C>,
        chunk: &mut [u8],
        input: &mut S,
        output: &mut BufWriter<W>,
    ) -> Result<bool, WatchFault>
        requires some { 0 < length chunk.old }
        requires flushed { writer_buffer output.old ≡ [] }
        // If every ended piece had been shown before the call, every ended piece has been shown after the call.
        ensures shown { (settings : Settings) (from before : Option (List ℕ)) → HasShownSoFar settings from
            (S.remaining input.old) before (W.contents (writer_inner output.old)) self.old
            → ShowsNext settings result from (S.remaining input.new) before
            (W.contents (writer_inner output.new)) self.new }
        // If every ended piece had been shown when each earlier read began, this is also true when the read of this
        // call begins.
        ensures live { (settings : Settings) (start : S) (from before : Option (List ℕ))
            → IsLiveSoFar S.step start input.old settings from (S.remaining input.old) before
            (W.contents (writer_inner output.old)) self.old
            → IsLive S.step start input.new (HoldsText settings before) }
        // If the input continues, the next call meets the assumption of `live` too.
        ensures goes_on { IfOk result (λ more. IsTrue more
            → (settings : Settings) (start : S) (from before : Option (List ℕ))
            → IsLiveSoFar S.step start input.old settings from (S.remaining input.old) before
            (W.contents (writer_inner output.old)) self.old
            → IsLiveSoFar S.step start input.new settings from (S.remaining input.new) before
            (W.contents (writer_inner output.new)) self.new) }
        ensures flushed { IsFlushed result (writer_buffer output.new) }
        ensures fault { IfErr result (λ fault. fault ≢ WatchFault.OutOfMemory) }
        ensures len { length chunk.new ≡ length chunk.old }
    {
        law_9(); // A stream may be cut anywhere
        let count = match read_chunk(input, output, chunk) {
            Ok(count) => count,
            Err(fault) => {
                self.end(output)?;
                return Err(fault);
            }
        };
        if count == 0 {
            self.end(output)?;
            return Ok(false);
        }
        let bytes = &mut chunk[..count];
        self.clock.update(timer);
        self.tally.count_bytes(count);
        change_sentinel(bytes, self.settings.sentinel);
        let bytes = behind_first(&mut self.skipping, bytes);
        show_bytes(
            &mut self.decoder,
            &mut self.message,
            bytes,
            &self.settings.view,
            &mut self.tally,
            &mut self.clock,
            output,
        )?;
        output.flush()?;
        Ok(true)
    }

    /// Shows `unfinished` if a piece has begun and no sentinel has ended it. `end` is called when no more bytes follow,
    /// because the input has ended or can't be read.
    fn end<W: Write + Drop>(&self, output: &mut BufWriter<W>) -> Result<(), WatchFault>
        requires flushed { writer_buffer output.old ≡ [] }
        ensures shown { OnOk result (ShowsEnd (phase_of self.now.decoder) self.now.settings.now.view
            (W.contents (writer_inner output.old)) (W.contents (writer_inner output.new))) }
        ensures flushed { IsFlushed result (writer_buffer output.new) }
        ensures fault { IfErr result
            (λ fault. (fault ≢ WatchFault.ReadFailed) × (fault ≢ WatchFault.OutOfMemory)) }
    {
        let unfinished = has_begun(&self.decoder);
        show_end(output, &self.settings.view, unfinished)?;
        output.flush()?;
        Ok(())
    }
}

/// Reads once into the chunk, and tries again if the read was interrupted. Every read of [`run_show`] is made by this
/// function, after the output has been flushed.
fn read_chunk<S: LiveInput<W>, W: Write + Drop>(
    input: &mut S,
    output: &BufWriter<W>,
    chunk: &mut [u8],
) -> Result<usize, WatchFault>
    requires flushed { writer_buffer output.now ≡ [] }
    ensures takes { IfOk result (λ n. Takes (S.remaining input.old) (S.remaining input.new) n chunk.new) }
    ensures failed { IfErr result (λ fault. (fault ≡ WatchFault.ReadFailed)
        × Keeps (S.remaining input.old) (S.remaining input.new)) }
    ensures once { ReadsOnce S.step input.old input.new (W.contents (writer_inner output.now))
        (given result chunk.new) }
    ensures len { length chunk.new ≡ length chunk.old }
{
    'by_try: for _again in 0..usize::MAX {
        match input.read_beside(output, chunk) {
            Ok(count) => return Ok(count),
            Err(error) => {
                if error.kind() != ErrorKind::Interrupted {
                    return Err(WatchFault::ReadFailed);
                }
            }
        }
    }
    Err(WatchFault::ReadFailed)
}

/// Returns whether a piece has begun but not ended.
fn has_begun(decoder: &UnbufferedDecoder) -> bool
    ensures idle { (result ≡ false) ↔ (phase_of decoder.now ≡ Idle) }
{
    !decoder.is_idle()
}

/// XORs each byte with the sentinel, so that frames with this sentinel become frames with the sentinel 0. If the
/// sentinel is 0, the bytes don't change and aren't accessed.
fn change_sentinel(bytes: &mut [u8], sentinel: u8)
    ensures { bytes.new ≡ xor_each sentinel bytes.old }
{
    law_6(); // No frame contains its sentinel; a second XOR restores the frame
    if sentinel != 0 {
        xor_bytes(bytes, sentinel);
    }
}

/// Returns all bytes if `skipping` isn't set. Otherwise returns the bytes after the first zero and clears `skipping`,
/// or returns no bytes if there is no zero.
fn behind_first<'a>(skipping: &mut bool, bytes: &'a [u8]) -> &'a [u8]
    ensures begun { result.now ≡ begun skipping.old bytes.now }
    ensures skips { skipping.new ≡ skips_on skipping.old bytes.now }
{
    if !*skipping {
        return bytes;
    }
    for (i, byte) in bytes.iter().enumerate() {
        if *byte == 0 {
            *skipping = false;
            return &bytes[i + 1..];
        }
    }
    &[]
}

/// Shows and counts the pieces that end in the bytes.
fn show_bytes<W: Write>(
    decoder: &mut UnbufferedDecoder,
    message: &mut [u8],
    bytes: &[u8],
    view: &View,
    tally: &mut Tally,
    clock: &mut Times,
    output: &mut W,
) -> Result<(), WatchFault>
    ensures shown { (p : List ℕ) → DecoderAfter message.old (phase_of decoder.old) p
        → (gone : List Outcome) (read : ℕ) → IsTallyOf view.now.checksum tally.old gone read
        → (times : ℕ → Moment) → IsReadAt times (length gone) clock.old → OnOk result
        (ShowsBytes view.now times (length message.old) p bytes.now gone read message.new (phase_of decoder.new)
        (W.contents output.old) (W.contents output.new) tally.new clock.new) }
    ensures len { length message.new ≡ length message.old }
    ensures fault { IfErr result
        (λ fault. (fault ≢ WatchFault.ReadFailed) × (fault ≢ WatchFault.OutOfMemory)) }
{
    law_9(); // A stream may be cut anywhere
    law_12(); // The first and the last piece of a stream
    let mut composed = Composed::new();
    let mut at = 0;
    'by_part: while at < bytes.len() {
        let part = &bytes[at..];
        let Some((end, count)) = decoder.feed_piece(message, part) else {
            at += part.len();
            continue;
        };
        let piece = sight_of(&view.checksum, end, message);
        tally.count_piece(piece.kind);
        let piece = with_part(view.partial, &piece, message);
        show_at_once(output, &mut composed, view, tally.pieces, clock, &piece)?;
        clock.advance();
        at += count;
    }
    composed.write_to(output)?;
    Ok(())
}

/// Shows a piece, with this number and these times. In some styles, the text of a short message is first composed in
/// memory ([`Composed`]). The composed text is written in one call, or is kept and later written with the text of other
/// pieces.
#[inline(always)]
fn show_at_once<W: Write>(
    output: &mut W,
    composed: &mut Composed,
    view: &View,
    number: u64,
    times: &Times,
    piece: &Sight<'_>,
) -> Result<(), WatchFault>
    ensures shown { OnOk result (Appends (with_text (W.contents output.old) composed.old)
        (with_text (W.contents output.new) composed.new) (in_view view.now number times.now (seen_in piece.now))) }
    ensures fault { IfErr result
        (λ fault. (fault ≢ WatchFault.ReadFailed) × (fault ≢ WatchFault.OutOfMemory)) }
{
    if composed.keep(view, piece) {
        if !composed.is_nearly_full() {
            return Ok(());
        }
        composed.write_to(output)?;
        return Ok(());
    }
    composed.write_to(output)?;
    if composed.compose(view, number, times, piece) {
        composed.write_to(output)?;
    } else {
        composed.clear();
        show_piece(output, view, number, times, piece)?;
    }
    Ok(())
}
