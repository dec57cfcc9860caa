//! The line of the fields of a date-time, put where it is to lie.

ghost use Rattle.std.specs.Prelude.{◌≡◌, ◌+◌, ◌*◌, ◌<◌, ◌≤◌, [], ◌∷◌, ◌++◌, codes, pos, length, take, IfSome};
ghost use Rattle.base.specs.Bytes.{line_feed};
ghost use Rattle.calendar.specs.UtcOffset.{IsClockOffset};
ghost use Rattle.calendar_count.specs.Calendar.{ymd};
ghost use Rattle.datetime_wall.specs.Wall.{instant, shown_at};
ghost use Rattle.parsing_values.specs.Decimal.{decimal};
ghost use Rattle.parsing_values.specs.Moment.{moment_of, whole_text};
ghost use Rattle.instants_answers.specs.Line.{HoldsLine};
ghost use Rattle.instants_answers.specs.Minute.{minute_text};
ghost use Rattle.instants_answers.specs.Moved.{at_offset};
ghost use Rattle.instants_answers.specs.Text.{FitsLine, date_text, moment_text, parts_text, time_text};

use crate::digits::{month_text, two_digits};
use crate::fields_line::minutes_since;
use crate::minutes::row;
use crate::moved::moved_within_month;
use crate::target::Target;
use calendar_count::march;
use parsing_values::{Fields, Fraction, Year};

// Puts bytes into a room at a place. What stands before it stays.
#[inline(always)]
fn put(room: &mut [u8], at: usize, bytes: &[u8])
    requires { at + length bytes.now ≤ length room.old }
    ensures prefix { take (at + length bytes.now) room.new ≡ take at room.old ++ bytes.now }
    ensures size { length room.new ≡ length room.old }
{
    room[at..at + bytes.len()].copy_from_slice(bytes);
}

// Puts bytes into a room at a place, of which the first are meant: what comes after those is put over the others.
#[inline(always)]
fn put_first(room: &mut [u8], at: usize, bytes: &[u8], count: usize)
    requires room { at + length bytes.now ≤ length room.old }
    requires few { count ≤ length bytes.now }
    ensures prefix { take (at + count) room.new ≡ take at room.old ++ take count bytes.now }
    ensures size { length room.new ≡ length room.old }
{
    put(room, at, bytes);
}

// Puts a date at the start of a room, as `2024-02-29`.
#[inline(always)]
#[tactic(auto, unfolding(crate::specs::Text::date_text))]
fn put_date(room: &mut [u8], year: Year, month: u32, day: u32)
    requires room { 64 ≤ length room.old }
    requires month { month ≤ 12 }
    requires day { day < 100 }
    ensures text { take 10 room.new
        ≡ date_text (record { year = pos year; month = month; day = day }) }
    ensures size { length room.new ≡ length room.old }
{
    put(room, 0, &year.digits());
    put(room, 4, &month_text(month));
    put(room, 8, &two_digits(day));
}

// Puts the time of a minute of the day, a second of it and a fraction of that after a date, as `T23:59:07.900000000`.
#[inline(always)]
#[tactic(auto, unfolding(crate::specs::Text::time_text))]
fn put_clock(room: &mut [u8], minute: usize, second: u32, fraction: Fraction)
    requires room { 64 ≤ length room.old }
    requires minute { minute < 1440 }
    requires second { second < 60 }
    ensures text { take 29 room.new ≡ take 10 room.old
        ++ (codes "T" ++ time_text (minute * 60 + second) fraction) }
    ensures size { length room.new ≡ length room.old }
    ensures fraction { fraction < 1_000_000_000 }
{
    put_first(room, 10, &row(minute), 7);
    put(room, 17, &two_digits(second));
    put(room, 19, b".");
    // (one store of sixteen bytes)
    put_first(room, 20, &fraction.padded_digits(), 9);
}

// Puts the line of a day of the fields' month, a minute of it, and the fields' second and fraction at the start of a room.
#[inline(always)]
fn fill_parts(fields: &Fields, day: u64, minute: u64, target: Target, room: &mut [u8]) -> usize
    requires room { 64 ≤ length room.old }
    requires day { day ≤ 31 }
    requires minute { minute < 1440 }
    ensures line { HoldsLine (parts_text
        (ymd (pos fields.now.year) fields.now.month day)
        (minute * 60 + fields.now.second) fields.now.fraction target) result room.new }
    ensures size { length room.new ≡ length room.old }
    ensures fraction { fields.now.fraction < 1_000_000_000 }
    ensures clock { IsClockOffset target }
{
    put_date(room, fields.year, u32::from(fields.month), day as u32);
    put_clock(room, minute as usize, fields.second, fields.fraction);
    let (end, len) = target.line_end();
    put_first(room, 29, &end, len);
    29 + len
}

/// Writes the line of the moment that fields name, as it is shown at the target, and a line feed at the start of a room of at
/// least 64 bytes, and says how many bytes they are. What stood in the room is lost.
///
/// No day is counted: `None` where the day at the target is in another month.
#[inline(always)]
pub fn fill_fields(fields: &Fields, target: Target, room: &mut [u8]) -> Option<usize>
    requires { 64 ≤ length room.old }
    ensures line { IfSome result (λ len.
        HoldsLine (moment_text (at_offset target (moment_of fields.now))) len room.new) }
    ensures shown { IfSome result (λ _. shown_at target (instant (moment_of fields.now))
        ≡ Some (at_offset target (moment_of fields.now))) }
    ensures fits { IfSome result (λ _. FitsLine (at_offset target (moment_of fields.now))) }
    ensures size { length room.new ≡ length room.old }
{
    let (day, minute) = moved_within_month(fields, minutes_since(fields, target))?;
    Some(fill_parts(fields, day, minute, target, room))
}

/// Writes the line of the moment that fields name in UTC, as it is shown in UTC, where a text is that line already, and a line
/// feed at the start of a room of at least 64 bytes, and says how many bytes they are. What stood in the room is lost.
#[inline(always)]
pub fn fill_text(fields: &Fields, text: &[u8], room: &mut [u8]) -> usize
    requires room { 64 ≤ length room.old }
    requires text { text.now ≡ whole_text fields.now }
    requires utc { fields.now.offset ≡ pos 0 }
    ensures line { HoldsLine (moment_text (at_offset (pos 0) (moment_of fields.now))) result room.new }
    ensures shown { shown_at (pos 0) (instant (moment_of fields.now))
        ≡ Some (at_offset (pos 0) (moment_of fields.now)) }
    ensures fits { FitsLine (at_offset (pos 0) (moment_of fields.now)) }
    ensures size { length room.new ≡ length room.old }
{
    // (these two serve the check alone, and leave no code)
    let year = i32::from(fields.year.number());
    let _ = (
        march::count_of_day(year, fields.month, fields.day),
        fields.fraction.digits(),
    );
    // (two stores of sixteen bytes)
    put_first(room, 0, &text[..16], 14);
    put(room, 14, &text[14..30]);
    put(room, 30, b"\n");
    31
}
