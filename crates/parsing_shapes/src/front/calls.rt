//! Fronts that are made for parts, and then checked.
ghost use Rattle.std.specs.Prelude.{◌≡◌, ◌≤◌, ◌<◌, ◌+◌, true, IfSome, List};
ghost use Rattle.parsing_shapes.specs.Beside.{has_digits, has_room, is_beside, is_fraction_at, is_ready, stands, takes_ones};
ghost use Rattle.parsing_shapes.specs.Front.{fits_beside, takes_beside};
ghost use Rattle.parsing_layout.specs.Layout.{field_of, length_of};
ghost use Rattle.parsing_shapes.specs.Shape.{taker_of, takes_all};

use super::{Beside, Front};
use crate::fits::{FAR, are_bounded, is_at, lets_at, lets_year, spares_one, takes_one, takes_part};
use crate::made::{Made, width};
use crate::shape::Shape;
use crate::taker::Taker;
use parsing_layout::{Field, Names, Part, field_of};
use parsing_places::LANES;

impl Beside {
    // What of parts is read beside lanes, and where it stands.
    fn of(parts: &[Part]) -> Beside {
        let mut beside = Beside {
            month: None,
            day: None,
            weekday: None,
            fraction: None,
            has_offset: false,
        };
        let mut place: usize = 0;
        for part in parts {
            beside.put(*part, place);
            place = place.wrapping_add(width(*part));
        }
        beside
    }

    // Puts a part at a place.
    fn put(&mut self, part: Part, place: usize) {
        match part {
            Part::Name(Names::ShortMonth, true) => self.month = Some(place),
            Part::Spaced(Field::Day) => self.day = Some(place),
            Part::Name(Names::ShortWeekday, true) => self.weekday = Some(place),
            Part::Fraction(count) => self.fraction = Some((place, count)),
            _ => {}
        }
    }

    // Whether the number of a field is read beside lanes.
    fn has(&self, field: Option<Field>) -> bool
        ensures { result ≡ is_beside self.now field }
    {
        match field {
            Some(Field::Month) => self.month.is_some(),
            Some(Field::Day) => self.day.is_some(),
            Some(Field::Weekday) => self.weekday.is_some(),
            Some(Field::Nanosecond) => self.fraction.is_some(),
            _ => false,
        }
    }

    // Whether a part stands where its number is read.
    fn stands(&self, part: Part, place: usize) -> bool
        ensures { result ≡ stands self.now part place }
    {
        match part {
            Part::Name(Names::ShortMonth, true) => is_at(self.month, place),
            Part::Spaced(Field::Day) => is_at(self.day, place),
            Part::Name(Names::ShortWeekday, true) => is_at(self.weekday, place),
            Part::Fraction(count) => is_fraction_at(self.fraction, count, place),
            _ => false,
        }
    }

    // Whether there is room for all that is read.
    fn is_ready(&self, shape: &Shape) -> bool
        ensures { result ≡ true → is_ready shape.now self.now ≡ true }
    {
        has_room(shape.length, self.month)
            && has_room(shape.length, self.weekday)
            && takes_ones(shape, self.day)
            && has_digits(shape.length, self.fraction)
    }
}

fn is_fraction_at(place: Option<(usize, usize)>, count: usize, at: usize) -> bool
    ensures { result ≡ is_fraction_at place count at }
{
    match place {
        Some((place, digits)) => place == at && digits == count,
        None => false,
    }
}

// Whether there is room for a name and a byte after it, if there is a name.
fn has_room(length: usize, place: Option<usize>) -> bool
    ensures { result ≡ true → has_room length place ≡ true }
{
    match place {
        Some(place) => place < FAR && place + 4 <= length,
        None => true,
    }
}

// Whether windows let a space stand where a day does, and take the digit after it.
fn takes_ones(shape: &Shape, place: Option<usize>) -> bool
    ensures { result ≡ true → takes_ones shape.now.windows place ≡ true }
{
    let Some(place) = place else {
        return true;
    };
    let windows = &shape.windows;
    place < FAR
        && spares_one(windows, 2)
        && lets_at(windows, place, b' ', 25)
        && takes_one(windows, 3, place + 1, 9)
}

// Whether there is room for the digits of a fraction, and they are few, if there are some.
fn has_digits(length: usize, place: Option<(usize, usize)>) -> bool
    ensures { result ≡ true → has_digits length place ≡ true }
{
    let Some((place, count)) = place else {
        return true;
    };
    if place >= FAR || count < 1 || count > 8 {
        return false;
    }
    place + count >= 8 && place + count <= length
}

impl Shape {
    // A shape that may have been made for parts.
    fn made(parts: &[Part], has_tail: bool) -> Option<Shape>
        ensures { IfSome result (λ s. s.has_tail ≡ has_tail) }
    {
        let made = Made::of(parts);
        let windows = made.windows()?;
        let (length, year) = (made.length, made.year);
        if windows.back_at >= FAR || year >= FAR || length >= FAR {
            return None;
        }
        if windows.back_at > 0 && windows.back_at + LANES > length {
            return None;
        }
        if !lets_year(&windows, length, year) || !are_bounded(&windows, has_tail) {
            return None;
        }
        Some(Shape {
            windows,
            length,
            has_tail,
            year,
        })
    }

    // What takes the parts.
    fn taker(&self) -> Taker
        ensures { result ≡ taker_of self.now }
    {
        Taker {
            windows: self.windows,
            has_clock: true,
            has_offset: !self.has_tail,
            length: self.length,
            year: Some(self.year),
        }
    }
}

impl Beside {
    // Whether lanes take a part, or it is read beside them.
    #[tactic(auto, unfolding(crate::specs::Front::takes_beside))]
    fn takes(&self, taker: &Taker, part: Part, place: usize) -> bool
        requires { place < FAR }
        ensures { result ≡ true → takes_beside taker.now self.now part place ≡ true }
    {
        if self.has(field_of(part)) {
            return self.stands(part, place);
        }
        takes_part(taker, part, place)
    }
}

// Whether all parts are taken or read that begin at a place, and end where the shape does.
fn take_all(taker: &Taker, beside: &Beside, parts: &[Part], place: usize) -> bool
    ensures all { result ≡ true
        → takes_all (takes_beside taker.now beside.now) parts.now place ≡ true }
    ensures end { result ≡ true → place + length_of parts.now ≡ taker.now.length }
{
    let [part, others @ ..] = parts else {
        return place == taker.length;
    };
    let width = width(*part);
    if place >= FAR || width >= FAR {
        return false;
    }
    beside.takes(taker, *part, place) && take_all(taker, beside, others, place + width)
}

impl Front {
    /// The front for parts, before which nothing stands, and after which a window over the end of a text takes an offset, or none
    /// does: `None` where a part has no fixed width, or is not known.
    pub fn of_parts(parts: &[Part], has_tail: bool, has_offset: bool) -> Option<Front>
        ensures fits { IfSome result (λ front. fits_beside front.shape front.beside parts.now ≡ true) }
        ensures tail { IfSome result (λ front. front.shape.has_tail ≡ has_tail) }
        ensures offset { IfSome result (λ front. front.beside.has_offset ≡ has_offset) }
    {
        let shape = Shape::made(parts, has_tail)?;
        let mut beside = Beside::of(parts);
        beside.has_offset = has_offset;
        if !beside.is_ready(&shape) {
            return None;
        }
        if !take_all(&shape.taker(), &beside, parts, 0) {
            return None;
        }
        Some(Front { shape, beside })
    }
}
