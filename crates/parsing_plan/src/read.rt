//! The fields of a line, by the places of its parts.
ghost use Rattle.std.specs.Prelude.{◌≡◌, ◌<◌, ◌≤◌, ◌+◌, None, Some, Option, true, drop, length, IfSome, IsSome, ℤ};
ghost use Rattle.std.specs.Option.{ForSome};
ghost use Rattle.parsing_combinator.specs.Pieces.{digits};
ghost use Rattle.parsing_combinator.specs.Tame.{EndsWith};
ghost use Rattle.parsing_components.specs.Meaning.{Meaning};
ghost use Rattle.parsing_components.specs.Prefix.{NamesPrefix, beginning};
ghost use Rattle.parsing_values.specs.Moment.{moment_of};
ghost use Rattle.parsing_shapes.specs.Beside.{is_ready};
ghost use Rattle.parsing_shapes.specs.Sums.{AreSums};
ghost use Rattle.parsing_item_parts.specs.Assumed.{Assumes};
ghost use Rattle.parsing_plan.specs.Fields.{AreFieldsOf};
ghost use Rattle.parsing_plan.specs.Parts.{are_numbers, is_plain};
ghost use Rattle.parsing_components.specs.Prefix.{NamesWhole};
ghost use Rattle.parsing_plan.specs.Places.{ArePlacesOf, AssumesMinutes};

use crate::parts::{day_of, fraction_of, month_of, offset_of, weekday_of};
use crate::places::{Back, NEVER, Places};
use crate::plan::PlanAt;
use calendar::UtcOffset;
use parsing_item_parts::Minutes;
use parsing_places::LANES;
use parsing_shapes::{Beside, Shape, Sums, split_sums_of, sums_of};
use parsing_values::{Fields, Fraction, Year, has_day};

// The most digits of a fraction.
const MOST_DIGITS: usize = 9;

// The fields of the sums of a line, with what is read beside them, and a fraction that was found, or none.
#[inline(always)]
fn fields_of(
    shape: &Shape,
    beside: &Beside,
    line: &[u8],
    sums: Sums,
    found: Option<Fraction>,
    minutes: Minutes,
) -> Option<Fields>
    requires ready { is_ready shape.now beside.now ≡ true }
    requires long { shape.now.length ≤ length line.now }
    requires found { IfSome found (λ f. f < 1_000_000_000) }
    requires sums { AreSums shape.now line.now sums.0 sums.1 sums.2 sums.3 }
    ensures { (assumed : Option ℤ) → Assumes beside.now.has_offset assumed minutes.number
        → IfSome result (AreFieldsOf shape.now beside.now line.now
        sums.0 sums.1 sums.2 sums.3 found assumed) }
{
    let (days, minute, offset, seconds) = sums;
    if minute >= 1440 || seconds % 2 != 0 {
        return None;
    }
    let _weekday = weekday_of(shape, beside, line, days)?;
    let month = month_of(shape, beside, line, days)?;
    let day = day_of(beside, line, days)?;
    let year = Year::of_digits(line, shape.year);
    if !has_day(year, month, day) {
        return None;
    }
    let offset = offset_of(beside, offset, seconds, minutes);
    let fraction = fraction_of(shape, beside, line, found)?;
    let (minute, second) = (minute as u16, (seconds / 64) as u8);
    Some(Fields::of_numbers(year, month, day, minute, second, fraction, offset))
}

// The fields of a line that begins with the parts, all of fixed widths.
#[inline(always)]
fn whole_fields(places: &Places, beside: &Beside, line: &[u8], minutes: Minutes) -> Option<Fields>
    requires whole { places.now.back ≡ None }
    requires beside { places.now.front.beside ≡ beside.now }
    requires long { places.now.front.shape.length ≤ length line.now }
    ensures { (m : Meaning) (assumed : Option ℤ) → ArePlacesOf m places.now
        → Assumes places.now.front.beside.has_offset assumed minutes.number
        → IfSome result (λ f. NamesPrefix m (beginning assumed) line.now
        (drop places.now.front.shape.length line.now) (moment_of f)) }
{
    let shape = &places.front.shape;
    let sums = sums_of(shape, line)?;
    fields_of(shape, beside, line, sums, None, minutes)
}

// The fields of a line that begins with the parts, with so many digits of a fraction, up to an end.
#[inline(always)]
fn split_fields(
    places: &Places,
    beside: &Beside,
    back: &Back,
    line: &[u8],
    end: usize,
    count: usize,
    minutes: Minutes,
) -> Option<Fields>
    requires split { places.now.back ≡ Some back.now }
    requires beside { places.now.front.beside ≡ beside.now }
    requires all { places.now.front.shape.length + count + back.now.last.length ≡ end }
    requires long { LANES ≤ end }
    requires within { end ≤ length line.now }
    requires some { 0 < count }
    requires few { count ≤ 9 }
    requires near { count + back.now.last.length ≤ LANES }
    requires ends { back.now.last.length ≡ 0 → digits 1 (drop end line.now) ≡ None }
    ensures { (m : Meaning) (assumed : Option ℤ) → ArePlacesOf m places.now
        → Assumes places.now.front.beside.has_offset assumed minutes.number
        → IfSome result (λ f. NamesPrefix m (beginning assumed) line.now
        (drop end line.now) (moment_of f)) }
{
    let shape = &places.front.shape;
    let (sums, fraction) = split_sums_of(shape, &back.last, line, end, count)?;
    fields_of(shape, beside, line, sums, Some(fraction), minutes)
}

// The bytes from a place on.
#[inline(always)]
#[tactic(auto, using(std::proofs::lemmas::List::take_rest))]
fn from(bytes: &[u8], place: usize) -> &[u8]
    requires { place ≤ length bytes.now }
    ensures bytes { result.now ≡ drop place bytes.now }
    ensures len { length result.now + place ≡ length bytes.now }
{
    &bytes[place..]
}

// How many digits stand at a place, up to ten.
fn digits_at(line: &[u8], place: usize) -> usize
    requires { place ≤ length line.now }
    ensures within { place + result ≤ length line.now }
    ensures ends { result ≤ 9 → digits 1 (drop (place + result) line.now) ≡ None }
{
    for count in 0..MOST_DIGITS + 1 {
        let at = place + count;
        if at >= line.len() || !line[at].is_ascii_digit() {
            return count;
        }
    }
    MOST_DIGITS + 1
}

// Where a line's prefix ends that has a fraction of a second, and how many digits that has.
#[inline(always)]
fn split_end(shape: &Shape, back: &Back, line: &[u8]) -> Option<(usize, usize)>
    ensures all { IfSome result (λ x. shape.now.length + x.1 + back.now.last.length ≡ x.0) }
    ensures long { IfSome result (λ x. LANES ≤ x.0) }
    ensures within { IfSome result (λ x. x.0 ≤ length line.now) }
    ensures some { IfSome result (λ x. 0 < x.1) }
    ensures few { IfSome result (λ x. x.1 ≤ 9) }
    ensures near { IfSome result (λ x. x.1 + back.now.last.length ≤ LANES) }
    ensures ends { IfSome result (λ x. back.now.last.length ≡ 0 → digits 1 (drop x.0 line.now) ≡ None) }
{
    let length = shape.length;
    if line.len() < length {
        return None;
    }
    let count = digits_at(line, length);
    if count < 1 || count > MOST_DIGITS || count > LANES - back.last.length {
        return None;
    }
    let place = length + count;
    if line.len() - place < back.last.length || place + back.last.length < LANES {
        return None;
    }
    Some((place + back.last.length, count))
}

/// Places of parts of fixed widths, with the offset that is assumed for their lines.
#[derive(Clone, Copy)]
pub struct WholePlaces<'p> {
    pub places: &'p Places,
    pub minutes: Minutes,
    ghost whole: { places.now.back ≡ None },
}

impl WholePlaces<'_> {
    /// The fields of a line: `None` says nothing of the line.
    #[inline(always)]
    pub fn read(&self, line: &[u8]) -> Option<Fields>
        ensures { (assumed : Option ℤ) → AssumesMinutes self.now.places.now self.now.minutes assumed
            → NamesWhole (λ m. ArePlacesOf m self.now.places.now) line.now assumed result }
    {
        if line.len() != self.places.front.shape.length {
            return None;
        }
        whole_fields(self.places, &self.places.front.beside, line, self.minutes)
    }
}

/// Places of numbers with a fraction of any number of digits, with the offset that is assumed for their lines.
#[derive(Clone, Copy)]
pub struct SplitPlaces<'p> {
    pub places: &'p Places,
    pub minutes: Minutes,
    ghost split: { IsSome places.now.back },
    ghost numbers: { are_numbers places.now.front.beside ≡ true },
}

impl SplitPlaces<'_> {
    /// The fields of a line, whose fraction has all digits that its other parts leave: `None` says nothing of the line.
    #[inline(always)]
    pub fn read(&self, line: &[u8]) -> Option<Fields>
        ensures { (assumed : Option ℤ) → AssumesMinutes self.now.places.now self.now.minutes assumed
            → NamesWhole (λ m. ArePlacesOf m self.now.places.now) line.now assumed result }
    {
        let Some(back) = &self.places.back else {
            unreachable!();
        };
        let end = line.len();
        let length = self.places.front.shape.length;
        if end < LANES || end <= length {
            return None;
        }
        let left = end - length;
        if left > LANES || left <= back.last.length {
            return None;
        }
        let count = left - back.last.length;
        if count > MOST_DIGITS {
            return None;
        }
        let has_offset = self.places.front.beside.has_offset;
        let beside = Beside {
            month: None,
            day: None,
            weekday: None,
            fraction: None,
            has_offset,
        };
        split_fields(self.places, &beside, back, line, end, count, self.minutes)
    }
}

// Whether nothing is read beside lanes, but for an offset.
fn are_numbers(beside: &Beside) -> bool
    ensures { result ≡ are_numbers beside.now }
{
    beside.month.is_none()
        && beside.day.is_none()
        && beside.weekday.is_none()
        && beside.fraction.is_none()
}

impl Places {
    ghost use Rattle.parsing_plan.specs.declared.plan.Plan.TheVariants as plan;
    ghost use Rattle.parsing_plan.specs.Plan.{HasAssumed, plan_of};

    /// The way in which lines are read with an offset that is assumed or none, which counts only where they have none: `None` where
    /// lines name no moment, since they have no offset and none is assumed, and where a fraction of any number of digits stands
    /// beside names.
    pub(crate) fn at(&self, assumed: Option<UtcOffset>) -> Option<PlanAt<'_>>
        ensures plan { IfSome result (λ way. plan_of way ≡ plan.Places self.now) }
        ensures assumed { IfSome result (λ way. HasAssumed way assumed) }
    {
        let minutes = Minutes::assumed(self.front.beside.has_offset, assumed)?;
        if self.back.is_none() {
            let whole = WholePlaces {
                places: self,
                minutes,
            };
            return Some(PlanAt::Whole(whole));
        }
        if !are_numbers(&self.front.beside) {
            return None;
        }
        let split = SplitPlaces {
            places: self,
            minutes,
        };
        Some(PlanAt::Split(split))
    }

    /// Whether `read_plain` reads its lines: each has the name of a month, an offset, and no other parts but numbers.
    #[inline(always)]
    pub fn is_plain(&self) -> bool
        ensures { result ≡ true → is_plain self.now.front.beside ≡ true }
    {
        self.plain_length < NEVER
    }

    // The fields of a line that begins with plain parts, without a test for what those can't have.
    #[inline(always)]
    fn plain_fields(&self, line: &[u8]) -> Option<Fields>
        requires { self.now.plain_length ≤ length line.now }
        ensures { (m : Meaning) (assumed : Option ℤ) → ArePlacesOf m self.now → IfSome result (λ f. NamesPrefix m
            (beginning assumed) line.now (drop self.now.plain_length line.now) (moment_of f)) }
    {
        if line.len() < LANES {
            unreachable!();
        }
        let beside = Beside {
            month: self.front.beside.month,
            day: None,
            weekday: None,
            fraction: None,
            has_offset: true,
        };
        if beside.month.is_none() {
            unreachable!();
        }
        whole_fields(self, &beside, line, Minutes { number: 0 })
    }

    /// The fields of a line where the places are plain, without a test for what such places can't have. Of others `None` is said
    /// for each line.
    #[inline(always)]
    pub fn read_plain(&self, line: &[u8]) -> Option<Fields>
        ensures { (assumed : Option ℤ) → NamesWhole (λ m. ArePlacesOf m self.now) line.now assumed result }
    {
        if line.len() != self.plain_length {
            return None;
        }
        self.plain_fields(line)
    }

    /// The fields of a prefix of a line, with an offset assumed or none, which counts only where the line has none, and what stands
    /// after the prefix: `None` says nothing of the line.
    #[inline(always)]
    pub fn read_prefix<'l>(
        &self,
        line: &'l [u8],
        assumed: Option<UtcOffset>,
    ) -> Option<(Fields, &'l [u8])>
        ensures prefix { (m : Meaning) → ArePlacesOf m self.now → IfSome result
            (λ x. NamesPrefix m (beginning assumed) line.now x.1.now (moment_of x.0)) }
        ensures end { IfSome result (λ x. EndsWith line.now x.1.now) }
    {
        if line.len() < self.plain_length {
            return self.read_any_prefix(line, assumed);
        }
        let fields = self.plain_fields(line)?;
        Some((fields, from(line, self.plain_length)))
    }

    // The same for all places.
    #[inline(never)]
    fn read_any_prefix<'l>(
        &self,
        line: &'l [u8],
        assumed: Option<UtcOffset>,
    ) -> Option<(Fields, &'l [u8])>
        ensures prefix { (m : Meaning) → ArePlacesOf m self.now → IfSome result
            (λ x. NamesPrefix m (beginning assumed) line.now x.1.now (moment_of x.0)) }
        ensures end { IfSome result (λ x. EndsWith line.now x.1.now) }
    {
        let minutes = Minutes::assumed(self.front.beside.has_offset, assumed)?;
        if let Some(back) = &self.back {
            let (end, count) = split_end(&self.front.shape, back, line)?;
            let fields = split_fields(self, &self.front.beside, back, line, end, count, minutes)?;
            return Some((fields, from(line, end)));
        }
        let length = self.front.shape.length;
        if line.len() < length {
            return None;
        }
        let fields = whole_fields(self, &self.front.beside, line, minutes)?;
        Some((fields, from(line, length)))
    }
}
