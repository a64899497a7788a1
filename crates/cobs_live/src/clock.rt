//! Measures the times at which pieces were read, and writes these times as text.
ghost use Rattle.std.specs.Prelude.{◌≡◌, ◌≤◌, ◌*◌, ◌+ℤ◌, min, pos};
ghost use Rattle.jiff_core.specs.DateTime.{civil_nanos};
ghost use Rattle.jiff_core.specs.Timestamp.{nanos_of_seconds};
ghost use Rattle.jiff_tz.specs.Zone.{offset_at};

use jiff_core::civil::DateTime;
use jiff_core::{Offset, Timestamp};
use jiff_fmt::temporal::DateTimePrinter;
use jiff_tz::TimeZone;
use std::io::{self, Write};
use std::rt::Clock;
use std::time::{Duration, Instant};

/// Which time is shown with each piece.
#[derive(Debug, PartialEq, Eq, Clone, Copy)]
pub enum Stamp {
    /// No time.
    Untimed,

    /// The time since the [`Timer`] was made.
    Start,

    /// The time since the previous piece was read. For the first piece, the time since the [`Timer`] was made.
    Last,

    /// The date and time of day in a time zone, with the zone's offset from UTC.
    Date,
}

/// A point in time, in milliseconds since the [`Timer`] was made, or since 1970 for `Stamp::Date`.
#[derive(Clone, Copy)]
pub struct Moment {
    pub millis: u64,

    /// The date and time of day in a zone whose offset from UTC is `offset`.
    pub civil: DateTime,
    pub offset: Offset,

    /// `civil` is the date and time of day in the zone at `millis`.
    ghost shows: { civil_nanos civil ≡ pos (millis * 1_000_000) +ℤ nanos_of_seconds offset.seconds },
}

/// The last time, in milliseconds since 1970, at which the year is at most 9999 in every time zone.
const LAST: u64 = 253_402_207_200_999;

impl Moment {
    ghost use Rattle.std.specs.Prelude.{OnOk};
    ghost use Rattle.std.specs.Io.KnownBytes.{Appends};
    ghost use Rattle.cobs_live.specs.Timed.{date_time};

    /// Returns the point in time at `millis`, with its date in this zone. A time after `LAST` becomes `LAST`.
    fn new(millis: u64, zone: TimeZone<'_>) -> Self
        ensures millis { result.millis ≡ min millis 253_402_207_200_999 }
        ensures zone { result.offset.seconds ≡ offset_at zone.entry (pos (result.millis * 1_000_000)) }
    {
        let millis = millis.min(LAST);
        let timestamp = Timestamp {
            nanosecond: millis as i128 * 1_000_000,
        };
        let offset = zone.to_offset(timestamp);
        let civil = offset.to_datetime(timestamp);
        Moment {
            millis,
            civil,
            offset,
        }
    }

    /// Writes the date, the time of day to the millisecond, and the offset from UTC, in the format of RFC 3339.
    fn write<W: Write>(&self, output: &mut W) -> io::Result<()>
        ensures written { OnOk result
            (Appends (W.contents output.old) (W.contents output.new) (date_time self.now)) }
    {
        let printer = DateTimePrinter::new().precision(Some(3));
        output.write_all(printer.datetime_text(self.civil).as_bytes())?;
        if self.offset.seconds == 0 {
            return output.write_all(b"Z");
        }
        output.write_all(printer.offset_text(self.offset).as_bytes())
    }
}

/// A clock that counts the milliseconds since it was made, or since 1970.
#[derive(Drop)]
pub struct Timer<'a, C> {
    clock: C,
    zone: TimeZone<'a>,
    start: Instant,

    /// The time at which the timer was made: 0, or the number of milliseconds since 1970.
    base: u64,
}

impl<'a, C: Clock + Drop> Timer<'a, C> {
    /// Makes a timer. For `Stamp::Date`, the timer starts at the current number of milliseconds since 1970. For the
    /// other stamps, it starts at 0.
    ///
    /// # Errors
    /// Returns the error of `clock` if the clock can't be read.
    pub fn new(clock: C, stamp: Stamp, zone: TimeZone<'a>) -> io::Result<Self> {
        let base = match stamp {
            Stamp::Untimed | Stamp::Start | Stamp::Last => 0,
            Stamp::Date => millis_of(clock.since_1970()?),
        };
        let start = Instant::now(&clock)?;
        Ok(Timer {
            clock,
            zone,
            start,
            base,
        })
    }

    /// Returns the current time, or `last` if the clock went back or can't be read. So the result is never before
    /// `last`.
    fn read(&self, last: Moment) -> Moment
        ensures later { last.millis ≤ result.millis }
    {
        let Ok(since) = self.start.elapsed(&self.clock) else {
            return last;
        };
        let now = Moment::new(self.base.saturating_add(millis_of(since)), self.zone);
        if now.millis < last.millis { last } else { now }
    }
}

/// Returns the duration in whole milliseconds, or `u64::MAX` if that number is greater.
fn millis_of(duration: Duration) -> u64 {
    u64::try_from(duration.as_millis()).unwrap_or(u64::MAX)
}

/// Two times: `last` is the time at which the previous piece ended, and `next` is the time at which the latest bytes
/// were read. A piece that ends in the latest bytes has the time `next`.
#[derive(Clone, Copy)]
pub struct Times {
    pub last: Moment,
    pub next: Moment,
}

impl Times {
    ghost use Rattle.std.specs.Prelude.{OnOk};
    ghost use Rattle.std.specs.Io.KnownBytes.{Appends};
    ghost use Rattle.cobs_live.specs.Timed.{json_time, seconds, stamped, time_text};

    /// Makes two times that are both 0, for a stream whose first bytes haven't been read yet.
    pub fn new() -> Self
        ensures start { result.last.millis ≡ 0 }
    {
        let start = Moment::new(0, TimeZone::UTC);
        Times {
            last: start,
            next: start,
        }
    }

    /// Sets `next` to the current time of the timer.
    pub fn update<C: Clock + Drop>(&mut self, timer: &Timer<'_, C>)
        ensures later { self.old.last.millis ≤ self.new.next.millis }
        ensures last { self.new.last ≡ self.old.last }
    {
        self.next = timer.read(self.last);
    }

    /// Sets `last` to `next`. This function is called after each piece, because the piece ended at the time `next`.
    pub fn advance(&mut self)
        ensures last { self.new.last ≡ self.old.next }
        ensures next { self.new.next ≡ self.old.next }
    {
        self.last = self.next;
    }

    /// Writes the time of a piece and a space, or nothing for `Stamp::Untimed`.
    pub fn write_stamp<W: Write>(&self, output: &mut W, stamp: Stamp) -> io::Result<()>
        ensures written { OnOk result
            (Appends (W.contents output.old) (W.contents output.new) (stamped stamp self.now)) }
    {
        match stamp {
            Stamp::Untimed => Ok(()),
            Stamp::Start | Stamp::Last | Stamp::Date => {
                self.write_time(output, stamp)?;
                output.write_all(b" ")
            }
        }
    }

    /// Writes the time of a piece as the member `time` of a JSON object, or nothing for `Stamp::Untimed`.
    pub fn write_member<W: Write>(&self, output: &mut W, stamp: Stamp) -> io::Result<()>
        ensures written { OnOk result
            (Appends (W.contents output.old) (W.contents output.new) (json_time stamp self.now)) }
    {
        match stamp {
            Stamp::Untimed => Ok(()),
            Stamp::Start | Stamp::Last => {
                output.write_all(b",\"time\":")?;
                self.write_time(output, stamp)
            }
            Stamp::Date => {
                output.write_all(b",\"time\":\"")?;
                self.write_time(output, stamp)?;
                output.write_all(b"\"")
            }
        }
    }

    /// Writes the time of a piece: nothing for `Stamp::Untimed`, the date and the time of day for `Stamp::Date`, and a
    /// number of seconds for the other stamps.
    fn write_time<W: Write>(&self, output: &mut W, stamp: Stamp) -> io::Result<()>
        ensures written { OnOk result
            (Appends (W.contents output.old) (W.contents output.new) (time_text stamp self.now)) }
    {
        let millis = self.next.millis;
        match stamp {
            Stamp::Untimed => Ok(()),
            Stamp::Start => Self::write_seconds(output, millis),
            Stamp::Last => Self::write_seconds(output, millis.saturating_sub(self.last.millis)),
            Stamp::Date => self.next.write(output),
        }
    }

    /// Writes a time in milliseconds as seconds with three decimals.
    fn write_seconds<W: Write>(output: &mut W, time: u64) -> io::Result<()>
        ensures written { OnOk result
            (Appends (W.contents output.old) (W.contents output.new) (seconds time)) }
    {
        write!(output, "{}.{:03}", time / 1000, time % 1000)
    }
}
