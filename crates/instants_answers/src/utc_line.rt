//! The line of a moment in UTC.

ghost use Rattle.std.specs.Prelude.{◌≡◌, ◌↔◌, length, IsTrue};
ghost use Rattle.datetime_wall.specs.Wall.{instant};
ghost use Rattle.instants_answers.specs.Text.{moment_text};
ghost use Rattle.instants_answers.specs.Utc.{FitsUtcLine, in_utc};

use crate::answer::Answer;
use crate::line::{has_written_year, rfc3339_line};
use datetime_types::{OffsetDateTime, WallClock};

/// Whether there is a line of the moment in UTC: the calendar has its day there, in a year of 0 to 9999.
pub fn fits_utc_line(date_time: OffsetDateTime) -> bool
    ensures { IsTrue result ↔ FitsUtcLine date_time }
{
    match date_time.checked_to_utc() {
        Some(utc) => has_written_year(utc.wall_clock().assume_utc()),
        None => false,
    }
}

/// The line of the moment in UTC, by the calendar of its `Timestamp`: 30 bytes.
pub fn utc_line_by_timestamp(date_time: OffsetDateTime) -> Answer
    requires { FitsUtcLine date_time }
    ensures line { result ≡ moment_text (in_utc (instant date_time)) }
    ensures len { length result ≡ 30 }
{
    rfc3339_line(date_time.to_timestamp().wall_clock().assume_utc())
}

/// The line of the moment in UTC, by the calendar of its `UtcDateTime`: 30 bytes.
pub fn utc_line_by_utc(date_time: OffsetDateTime) -> Answer
    requires { FitsUtcLine date_time }
    ensures line { result ≡ moment_text (in_utc (instant date_time)) }
    ensures len { length result ≡ 30 }
{
    rfc3339_line(date_time.to_utc().wall_clock().assume_utc())
}
