//! A message that is sent with a checksum, and how it is shown.
ghost use Rattle.std.specs.Prelude.{IsSome, OnOk};
ghost use Rattle.std.specs.Io.KnownBytes.{Appends};
ghost use Rattle.cobs_live.specs.Seen.{whole};
ghost use Rattle.cobs_live.specs.Shown.{in_view};
ghost use Rattle.cobs_live.specs.declared.seen.Kind.TheVariants.{Message};

use cobs::PieceEnd;
use cobs_live::clock::Times;
use cobs_live::fault::WatchFault;
use cobs_live::send::with_sum;
use cobs_live::shown::{View, show_piece, sight_of, sum_law};
use std::alloc::Global;
use std::io::Write;

/// Adds the view's checksum to a message, and shows the result as a received message. The text is the same as for the
/// message without a checksum. If the view has no checksum, writes nothing.
pub fn show_sent<W: Write>(
    alloc: Global,
    output: &mut W,
    view: &View,
    number: u64,
    times: &Times,
    message: &[u8],
) -> Result<(), WatchFault>
    ensures { IsSome view.now.checksum → OnOk result (Appends (W.contents output.old) (W.contents output.new)
        (in_view view.now number times.now (whole Message message.now))) }
{
    sum_law();
    let Some(checksum) = &view.checksum else {
        return Ok(());
    };
    let sent = with_sum(alloc, checksum, message)?;
    let piece = sight_of(&view.checksum, PieceEnd::Message(sent.len()), &sent);
    show_piece(output, view, number, times, &piece)?;
    Ok(())
}
