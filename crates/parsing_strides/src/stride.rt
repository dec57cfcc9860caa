//! Parts of fixed widths, which are read in one step.
ghost use Rattle.std.specs.Prelude.{◌≡◌, ◌≤◌, true, IfSome};
ghost use Rattle.parsing_layout.specs.Items.{all_certain, are_certain};
ghost use Rattle.parsing_layout.specs.Layout.{width};
ghost use Rattle.parsing_layout.specs.Said.{fields_of};
ghost use Rattle.parsing_strides.specs.Places.{lets, lets_year};

use crate::found::Found;
use crate::lanes::{all_above, are_at_most, first_sixteen, numbers_of, put_taken, taken_by};
use parsing_layout::{Field, Item, Part, place_of, say};
use parsing_places::{LANES, Moves};
use parsing_values::Year;
use std::simd::prelude::*;

/// The place of a year that is not there.
pub(crate) const NOWHERE: usize = LANES;

/// At most sixteen bytes of some parts: their bounds, and which lanes take their digits.
#[derive(Clone, Copy)]
pub(crate) struct Stride {
    /// The lowest byte at each place, and how far the highest lies above it.
    pub(crate) low: [u8; LANES],
    pub(crate) most: [u8; LANES],
    /// Where the tens and the ones of each number stand.
    pub(crate) tens: Moves,
    pub(crate) ones: Moves,
    /// How many bytes the parts have, and how many parts there are.
    pub(crate) length: usize,
    pub(crate) count: usize,
    /// Where the four digits of the year stand.
    pub(crate) year: usize,
    ghost few: { length ≤ 16 },
    ghost year_is: { lets_year low most length year ≡ true },
}

// Whether bytes from the lowest on, and at most so far above it, alone can stand at a place.
fn lets(lows: &[u8; LANES], mosts: &[u8; LANES], place: usize, low: u8, most: u8) -> bool
    ensures { result ≡ lets lows.now mosts.now place low most }
{
    place < LANES && lows[place] == low && mosts[place] <= most
}

/// Whether four digits alone can stand where the year is, if it is anywhere.
pub(crate) fn lets_year(low: &[u8; LANES], most: &[u8; LANES], length: usize, year: usize) -> bool
    requires { length ≤ LANES }
    ensures { result ≡ lets_year low.now most.now length year }
{
    if year == NOWHERE {
        return true;
    }
    if year >= LANES || year + 4 > length {
        return false;
    }
    lets(low, most, year, b'0', 9)
        && lets(low, most, year + 1, b'0', 9)
        && lets(low, most, year + 2, b'0', 9)
        && lets(low, most, year + 3, b'0', 9)
}

// The fields whose numbers a stride may read.
static FIELDS: [Field; 15] = [
    Field::Month,
    Field::Day,
    Field::Weekday,
    Field::Hour,
    Field::HourOfHalf,
    Field::Half,
    Field::Minute,
    Field::Second,
    Field::Sign,
    Field::OffsetHour,
    Field::OffsetMinute,
    Field::IsoWeek,
    Field::OrdinalTens,
    Field::OrdinalOnes,
    Field::Year,
];

// How many bytes a part has, where that is fixed.
fn width_of(part: Part) -> usize
    ensures { result ≡ width part }
{
    match part {
        Part::Byte(_) | Part::Any | Part::Sign => 1,
        Part::Digits(_, count) | Part::Fraction(count) => count,
        Part::Spaced(_) => 2,
        Part::Name(_, _) => 3,
        Part::Bare(_) | Part::OpenFraction | Part::Run(_, _) => 0,
    }
}

// Whether items that have to be there say the number of a field.
fn say_certainly(items: &[Item], field: Field) -> bool
    ensures { result ≡ true → fields_of (all_certain items.now) field ≡ true }
{
    let [Item::Part(part), others @ ..] = items else {
        return false;
    };
    say(&[*part], field) || say_certainly(others, field)
}

impl Stride {
    ghost use Rattle.std.specs.Prelude.{◌<◌, ◌+◌, ℕ, List, drop, get_or, length, Some};
    ghost use Rattle.parsing_combinator.specs.Tame.{EndsWith};
    ghost use Rattle.parsing_combinator.specs.Pieces.{digits};
    ghost use Rattle.parsing_layout.specs.declared.parts.Part.{Part};
    ghost use Rattle.parsing_places.specs.Lanes.{above};
    ghost use Rattle.parsing_strides.specs.Found.{KeepOthers, SaysAsFound};
    ghost use Rattle.parsing_strides.specs.Strides.{fits_stride, keep_others, keeps, takes_all, takes_digits, takes_lane, takes_one, takes_part};

    // Whether a lane takes the byte at a place alone.
    fn takes_one(&self, lane: usize, at: usize) -> bool
        requires { lane < LANES }
        ensures { result ≡ takes_one self.now lane at }
    {
        self.tens.lanes[lane] >= 128 && usize::from(self.ones.lanes[lane]) == at
    }

    // Whether a lane takes so many digits.
    fn takes_lane(&self, lane: usize, count: usize, at: usize) -> bool
        requires { at < LANES }
        ensures { result ≡ takes_lane self.now lane count at }
    {
        if lane >= LANES - 2 || !lets(&self.low, &self.most, at, b'0', 9) {
            return false;
        }
        match count {
            2 => {
                lets(&self.low, &self.most, at + 1, b'0', 9)
                    && usize::from(self.tens.lanes[lane]) == at
                    && usize::from(self.ones.lanes[lane]) == at + 1
            }
            1 => self.takes_one(lane, at),
            _ => false,
        }
    }

    // Whether the digits of a field are taken at a place.
    fn takes_digits(&self, field: Field, count: usize, at: usize) -> bool
        requires { at < LANES }
        ensures { result ≡ takes_digits self.now field count at }
    {
        if let Field::Year = field {
            return count == 4 && at == self.year;
        }
        self.takes_lane(place_of(field), count, at)
    }

    // Whether a part is taken at a place.
    fn takes_part(&self, part: Part, at: usize) -> bool
        requires { at < LANES }
        ensures { result ≡ takes_part self.now part at }
    {
        match part {
            Part::Byte(byte) => lets(&self.low, &self.most, at, byte, 0),
            Part::Any => true,
            Part::Digits(field, count) => self.takes_digits(field, count, at),
            Part::Sign => self.low[at] == 0 && self.takes_one(place_of(Field::Sign), at),
            _ => false,
        }
    }

    // Whether items, all of which have to be there, are taken one after the other from a place on, and no byte after them.
    fn takes_all(&self, items: &[Item], at: usize) -> bool
        ensures certain { result ≡ true → are_certain items.now ≡ true }
        ensures taken { result ≡ true → takes_all self.now (all_certain items.now) at ≡ true }
    {
        let [item, others @ ..] = items else {
            return at == self.length;
        };
        let Item::Part(part) = item else {
            return false;
        };
        let width = width_of(*part);
        at < self.length
            && width <= self.length - at
            && self.takes_part(*part, at)
            && self.takes_all(others, at + width)
    }

    // Whether it leaves the number of a field as it is.
    fn keeps(&self, field: Field) -> bool
        ensures { result ≡ keeps self.now field }
    {
        if let Field::Year = field {
            return self.year == NOWHERE;
        }
        let place = place_of(field);
        place >= LANES - 2 || self.ones.lanes[place] >= 128
    }

    // Whether it leaves the numbers of these fields as they are, but those that items say.
    fn keeps_others(&self, items: &[Item], fields: &[Field]) -> bool
        ensures { result ≡ true → keep_others self.now (all_certain items.now) fields.now ≡ true }
    {
        let [field, others @ ..] = fields else {
            return true;
        };
        (say_certainly(items, *field) || self.keeps(*field)) && self.keeps_others(items, others)
    }

    /// Whether it was made for items, all of which have to be there.
    pub(crate) fn fits(&self, items: &[Item]) -> bool
        ensures certain { result ≡ true → are_certain items.now ≡ true }
        ensures fits { result ≡ true → fits_stride self.now (all_certain items.now) ≡ true }
    {
        self.takes_all(items, 0) && self.keeps_others(items, &FIELDS)
    }

    // The year that stands in a text, or else one that was found before.
    #[inline(always)]
    fn year_in(&self, text: &[u8], before: Year) -> Year
        requires room { self.now.length ≤ length text.now }
        requires fits { (k : ℕ) → k < self.now.length → above (get_or text.now k 0)
            (get_or self.now.low k 0) ≤ get_or self.now.most k 0 }
        requires bound { before ≤ 9999 }
        ensures there { self.now.year < NOWHERE → digits 4 (drop self.now.year text.now)
            ≡ Some (result, drop (self.now.year + 4) text.now) }
        ensures nowhere { NOWHERE ≤ self.now.year → result ≡ before }
        ensures bound { result ≤ 9999 }
    {
        if self.year >= NOWHERE {
            return before;
        }
        Year::of_digits(text, self.year)
    }

    /// Reads its parts at the start of what is left of a line, and returns what follows them: `None` says nothing of the line.
    #[inline(always)]
    pub(crate) fn read<'l>(
        &self,
        line: &[u8],
        rest: &'l [u8],
        found: &mut Found,
    ) -> Option<&'l [u8]>
        requires { EndsWith line.now rest.now }
        ensures says { (parts : List Part) → fits_stride self.now parts ≡ true
            → IfSome result (λ after. SaysAsFound parts rest.now after.now found.new) }
        ensures kept { (parts : List Part) → fits_stride self.now parts ≡ true
            → IfSome result (λ _. KeepOthers parts found.old found.new) }
        ensures end { IfSome result (λ after. EndsWith line.now after.now) }
    {
        if rest.len() < self.length {
            return None;
        }
        let above = all_above(first_sixteen(line, rest), u8x16::from_array(self.low));
        if !are_at_most(above, u8x16::from_array(self.most)) {
            return None;
        }
        let numbers = numbers_of(taken_by(&self.tens, above), taken_by(&self.ones, above));
        let lanes = put_taken(&self.ones, numbers, u8x16::from_array(found.lanes));
        let year = self.year_in(rest, found.year);
        found.put_lanes(lanes.to_array(), year);
        Some(&rest[self.length..])
    }
}
