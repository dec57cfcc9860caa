//! Tests of windows: what they let stand at a place, and what they take.
ghost use Rattle.std.specs.Prelude.{◌≡◌, ◌≤◌, ◌<◌, ◌+◌, true, IfSome};
ghost use Rattle.parsing_places.specs.Windows.{are_bounded, is_bounded, is_lane_bounded, is_offset_bounded, is_sign_bounded, lets, lets_at, lets_year, source, spares, spares_from, spares_one, spares_two, takes, takes_one, takes_sign, takes_two};
ghost use Rattle.parsing_shapes.specs.Shape.{is_at, most_of, own, pair_of, takes_digits, takes_pair_at, takes_part};

use crate::taker::Taker;
use parsing_layout::{Field, Part};
use parsing_places::{LANES, Window, Windows};

/// A place that is past all that windows take.
pub(crate) const FAR: usize = 1000;

// ---- one window

// Whether a byte from the lowest on, and at most so far above it, alone can stand at a place.
fn lets(window: &Window, place: usize, low: u8, most: u8) -> bool
    ensures { result ≡ lets window.now place low most }
{
    place < LANES && window.low[place] == low && window.high[place] <= most
}

// Whether a lane takes nothing.
fn spares(window: &Window, lane: usize) -> bool
    requires { lane < LANES }
    ensures { result ≡ spares window.now lane }
{
    window.taken.lanes[lane] >= 128
}

// Whether a lane takes a digit at a place, at most so large.
fn takes(window: &Window, lane: usize, place: usize, most: u8) -> bool
    requires { lane < LANES }
    ensures { result ≡ takes window.now lane place most }
{
    lets(window, place, b'0', most) && usize::from(window.taken.lanes[lane]) == place
}

// ---- both windows

/// The same as `lets` of a place of a text.
pub(crate) fn lets_at(windows: &Windows, place: usize, low: u8, most: u8) -> bool
    ensures { result ≡ lets_at windows.now place low most }
{
    if place < LANES {
        return lets(&windows.prefix, place, low, most);
    }
    windows.back_at <= place && lets(&windows.back, place - windows.back_at, low, most)
}

/// Whether a lane takes nothing of a text.
pub(crate) fn spares_one(windows: &Windows, lane: usize) -> bool
    requires { lane < LANES }
    ensures { result ≡ spares_one windows.now lane }
{
    spares(&windows.prefix, lane) && spares(&windows.back, lane)
}

/// Whether a lane takes a digit at a place of a text, at most so large.
pub(crate) fn takes_one(windows: &Windows, lane: usize, place: usize, most: u8) -> bool
    requires { lane < LANES }
    ensures { result ≡ takes_one windows.now lane place most }
{
    if spares(&windows.prefix, lane) {
        return windows.back_at <= place
            && takes(&windows.back, lane, place - windows.back_at, most);
    }
    takes(&windows.prefix, lane, place, most) && spares(&windows.back, lane)
}

// Whether two lanes take nothing.
fn spares_two(windows: &Windows, lane: usize) -> bool
    requires { lane + 1 < LANES }
    ensures { result ≡ spares_two windows.now lane }
{
    spares_one(windows, lane) && spares_one(windows, lane + 1)
}

// Whether two lanes take two digits at a place of a text, the first of them at most so large.
fn takes_two(windows: &Windows, lane: usize, place: usize, most: u8) -> bool
    requires lane { lane + 1 < LANES }
    requires place { place < FAR }
    ensures { result ≡ takes_two windows.now lane place most }
{
    takes_one(windows, lane, place, most) && takes_one(windows, lane + 1, place + 1, 9)
}

// Whether the lanes of a sign take one at a place of a text, in the second window.
fn takes_sign(windows: &Windows, place: usize) -> bool
    ensures { result ≡ takes_sign windows.now place }
{
    if windows.back_at > place || !lets(&windows.back, place - windows.back_at, b'+', 2) {
        return false;
    }
    spares_one(windows, 12)
        && spares(&windows.prefix, 13)
        && usize::from(windows.back.taken.lanes[13]) == place - windows.back_at
}

/// Whether four digits alone can stand at a place, within a length.
pub(crate) fn lets_year(windows: &Windows, length: usize, year: usize) -> bool
    requires { year < FAR }
    ensures { result ≡ lets_year windows.now length year }
{
    year + 4 <= length
        && lets_at(windows, year, b'0', 9)
        && lets_at(windows, year + 1, b'0', 9)
        && lets_at(windows, year + 2, b'0', 9)
        && lets_at(windows, year + 3, b'0', 9)
}

// ---- bounds of lanes

// The place of a text that a lane takes.
fn source(windows: &Windows, lane: usize) -> usize
    requires lane { lane < LANES }
    requires near { windows.now.back_at < FAR }
    ensures { result ≡ source windows.now lane }
{
    if spares(&windows.prefix, lane) {
        return windows.back_at + usize::from(windows.back.taken.lanes[lane]);
    }
    usize::from(windows.prefix.taken.lanes[lane])
}

// Whether a lane takes nothing, or a digit of at most so much.
fn is_lane_bounded(windows: &Windows, lane: usize, most: u8) -> bool
    requires lane { lane < LANES }
    requires near { windows.now.back_at < FAR }
    ensures { result ≡ is_lane_bounded windows.now lane most }
{
    spares_one(windows, lane) || takes_one(windows, lane, source(windows, lane), most)
}

// Whether two lanes do, the second any digit.
fn is_bounded(windows: &Windows, lane: usize, most: u8) -> bool
    requires lane { lane + 1 < LANES }
    requires near { windows.now.back_at < FAR }
    ensures { result ≡ is_bounded windows.now lane most }
{
    is_lane_bounded(windows, lane, most) && is_lane_bounded(windows, lane + 1, 9)
}

/// Whether so many lanes from one on take nothing.
pub(crate) fn spares_from(windows: &Windows, lane: usize, count: usize) -> bool
    requires { lane + count ≤ LANES }
    ensures { result ≡ spares_from windows.now lane count }
{
    if count == 0 {
        return true;
    }
    spares_one(windows, lane) && spares_from(windows, lane + 1, count - 1)
}

/// Whether those of an offset take nothing, where it is left to a tail, or hours below 20 and minutes, with a sign, or nothing.
pub(crate) fn is_offset_bounded(windows: &Windows, has_tail: bool) -> bool
    requires { windows.now.back_at < FAR }
    ensures { result ≡ is_offset_bounded windows.now has_tail }
{
    if has_tail {
        return spares_from(windows, 8, 6);
    }
    is_bounded(windows, 8, 1)
        && is_bounded(windows, 10, 5)
        && (spares_two(windows, 12) || takes_sign(windows, source(windows, 13)))
}

/// Whether all lanes take nothing but what they are for.
pub(crate) fn are_bounded(windows: &Windows, has_tail: bool) -> bool
    requires { windows.now.back_at < FAR }
    ensures { result ≡ are_bounded windows.now has_tail }
{
    is_bounded(windows, 0, 5)
        && is_bounded(windows, 2, 9)
        && is_bounded(windows, 6, 5)
        && is_bounded(windows, 14, 5)
        && is_offset_bounded(windows, has_tail)
}

// ---- parts

// Which two lanes have a field's number.
fn pair_of(field: Field) -> Option<usize>
    ensures is { result ≡ pair_of field }
    ensures bound { IfSome result (λ pair. pair < 8) }
{
    match field {
        Field::Month | Field::IsoWeek | Field::OrdinalTens => Some(0),
        Field::Day | Field::Weekday | Field::OrdinalOnes => Some(1),
        Field::Hour => Some(2),
        Field::Minute => Some(3),
        Field::OffsetHour => Some(4),
        Field::OffsetMinute => Some(5),
        Field::Second => Some(7),
        _ => None,
    }
}

// The greatest digit that its tens may be.
fn most_of(field: Field) -> u8
    ensures { result ≡ most_of field }
{
    match field {
        Field::OffsetHour => 1,
        Field::Month | Field::IsoWeek | Field::Minute | Field::OffsetMinute | Field::Second => 5,
        _ => 9,
    }
}

// Whether two lanes are those of what takes parts.
fn owns(taker: &Taker, pair: usize) -> bool
    ensures { result ≡ own taker.now pair }
{
    if pair < 4 || pair == 7 {
        taker.has_clock
    } else {
        taker.has_offset
    }
}

/// Whether a place is one that may be known.
pub(crate) fn is_at(place: Option<usize>, at: usize) -> bool
    ensures { result ≡ is_at place at }
{
    match place {
        Some(place) => place == at,
        None => false,
    }
}

// Whether the lanes of a field take a number of two digits.
fn takes_pair(taker: &Taker, field: Field, count: usize, place: usize) -> bool
    requires { place < FAR }
    ensures { result ≡ takes_pair_at taker.now (pair_of field) (most_of field) count place }
{
    let Some(pair) = pair_of(field) else {
        return false;
    };
    count == 2 && owns(taker, pair) && takes_two(&taker.windows, 2 * pair, place, most_of(field))
}

// Whether lanes take the digits of a field, or they are those of the year.
fn takes_digits(taker: &Taker, field: Field, count: usize, place: usize) -> bool
    requires { place < FAR }
    ensures { result ≡ true → takes_digits taker.now field count place ≡ true }
{
    match field {
        Field::Year => count == 4 && is_at(taker.year, place),
        Field::Weekday | Field::OrdinalOnes => false,
        _ => takes_pair(taker, field, count, place),
    }
}

/// Whether lanes take a part at a place.
pub(crate) fn takes_part(taker: &Taker, part: Part, place: usize) -> bool
    requires { place < FAR }
    ensures { result ≡ true → takes_part taker.now part place ≡ true }
{
    match part {
        Part::Byte(byte) => lets_at(&taker.windows, place, byte, 0) && place < taker.length,
        Part::Any => place < taker.length,
        Part::Digits(field, count) => takes_digits(taker, field, count, place),
        Part::Sign => owns(taker, 6) && takes_sign(&taker.windows, place) && place < taker.length,
        _ => false,
    }
}
