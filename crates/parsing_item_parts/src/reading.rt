//! The fields that a text says by parts.
ghost use Rattle.std.specs.Prelude.{◌≡◌, ◌≤◌, ◌<◌, ◌*ℤ◌, true, false, Option, Some, Ok, ℤ, pos, unsigned_abs, IfSome};
ghost use Rattle.parsing_combinator.specs.Tame.{EndsWith};
ghost use Rattle.parsing_values.specs.Moment.{moment_of};
ghost use Rattle.parsing_layout.specs.Range.{IsAllInRange};
ghost use Rattle.parsing_layout.specs.Said.{Said};
ghost use Rattle.parsing_strides.specs.Found.{values_in};
ghost use Rattle.parsing_components.specs.Meaning.{Meaning};
ghost use Rattle.parsing_components.specs.Parts.{time_parts};
ghost use Rattle.parsing_components.specs.Prefix.{NamesPrefix, beginning};
ghost use Rattle.parsing_components.specs.Whole.{whole, moment_named, offset_named};
ghost use Rattle.parsing_values.specs.NamedTime.{hour_of};
ghost use Rattle.parsing_item_parts.specs.Assumed.{Assumes};
ghost use Rattle.parsing_components.specs.Prefix.{NamesWhole};
ghost use Rattle.parsing_item_parts.specs.Listed.{IsListOf, IsWay, ListedAssumes};
ghost use Rattle.parsing_item_parts.specs.Recorded.{recorded};

use crate::listed::Listed;
use crate::minutes::Minutes;
use calendar::UtcOffset;
use parsing_layout::Field;
use parsing_strides::Found;
use parsing_values::{Fields, has_day, offset_minutes};

impl Listed {
    // The hour of the whole day.
    #[inline(always)]
    fn hour(&self, found: &Found) -> u8
        requires dated { self.now.kind.is_unix ≡ false }
        requires range { IsAllInRange (values_in found.now) }
        ensures hour { (has : Said) (assumed : Option ℤ) → IsWay self.now has (values_in found.now)
            → hour_of (time_parts (recorded has (values_in found.now) (beginning assumed))) ≡ Some result }
        ensures bound { result ≤ 23 }
    {
        if !self.kind.is_half {
            return found.get(Field::Hour);
        }
        let hour = found.get(Field::HourOfHalf) % 12;
        if found.get(Field::Half) == 1 {
            return hour + 12;
        }
        hour
    }

    // The minutes of the offset, or else those that are assumed.
    #[inline(always)]
    fn offset(&self, found: &Found, minutes: Minutes) -> i16
        requires dated { self.now.kind.is_unix ≡ false }
        requires range { IsAllInRange (values_in found.now) }
        ensures named { (has : Said) (assumed : Option ℤ) → IsWay self.now has (values_in found.now)
            → Assumes self.now.kind.has_offset assumed minutes.number
            → offset_named (recorded has (values_in found.now) (beginning assumed)) ≡ Ok (pos 60 *ℤ result) }
        ensures bound { unsigned_abs result ≤ 1559 }
    {
        if !self.kind.has_offset {
            return minutes.number;
        }
        let is_behind = found.get(Field::Sign) == b'-';
        let (hour, minute) = (found.get(Field::OffsetHour), found.get(Field::OffsetMinute));
        offset_minutes(is_behind, hour, minute)
    }

    // The fields of Unix time, in UTC.
    #[inline(never)]
    fn unix_fields(&self, found: &Found) -> Option<Fields>
        requires unix { self.now.kind.is_unix ≡ true }
        requires range { IsAllInRange (values_in found.now) }
        ensures { (has : Said) (assumed : Option ℤ) → IsWay self.now has (values_in found.now) → IfSome result
            (λ f. moment_named (recorded has (values_in found.now) (beginning assumed)) ≡ Ok (moment_of f)) }
    {
        Fields::of_unix(found.unix(), found.fraction())
    }

    // The fields of a date and a time of day.
    #[inline(always)]
    fn dated_fields(&self, found: &Found, minutes: Minutes) -> Option<Fields>
        requires dated { self.now.kind.is_unix ≡ false }
        requires range { IsAllInRange (values_in found.now) }
        ensures { (has : Said) (assumed : Option ℤ) → IsWay self.now has (values_in found.now)
            → Assumes self.now.kind.has_offset assumed minutes.number → IfSome result
            (λ f. moment_named (recorded has (values_in found.now) (beginning assumed)) ≡ Ok (moment_of f)) }
    {
        let offset = self.offset(found, minutes);
        let year = found.year();
        let (month, day) = (found.get(Field::Month), found.get(Field::Day));
        if !has_day(year, month, day) {
            return None;
        }
        let minute = u16::from(self.hour(found)) * 60 + u16::from(found.get(Field::Minute));
        let second = found.get(Field::Second);
        Some(Fields::of_numbers(year, month, day, minute, second, found.fraction(), offset))
    }

    // The fields of what was found.
    #[inline(always)]
    fn fields(&self, found: &Found, minutes: Minutes) -> Option<Fields>
        ensures range { IfSome result (λ _. IsAllInRange (values_in found.now)) }
        ensures named { (has : Said) (assumed : Option ℤ) → IsWay self.now has (values_in found.now)
            → Assumes self.now.kind.has_offset assumed minutes.number → IfSome result
            (λ f. moment_named (recorded has (values_in found.now) (beginning assumed)) ≡ Ok (moment_of f)) }
    {
        if !found.is_in_range() {
            return None;
        }
        if self.kind.is_unix {
            return self.unix_fields(found);
        }
        self.dated_fields(found, minutes)
    }

    /// With an offset that is assumed or none, which counts only where lines have none: `None` where they name no moment, since they
    /// have no offset and none is assumed.
    #[inline(always)]
    pub fn at(&self, assumed: Option<UtcOffset>) -> Option<ListedAt<'_>>
        ensures listed { IfSome result (λ way. way.listed.now ≡ self.now) }
        ensures assumed { IfSome result (λ way. ListedAssumes way assumed) }
    {
        let minutes = Minutes::assumed(self.kind.has_offset, assumed)?;
        let listed = self;
        Some(ListedAt { listed, minutes })
    }

    /// The fields of a line, with an offset assumed or none, which counts only where the line has none: `None` says nothing of
    /// the line.
    #[inline(never)]
    pub fn read(&self, line: &[u8], assumed: Option<UtcOffset>) -> Option<Fields>
        ensures { NamesWhole (λ m. IsListOf m self.now) line.now assumed result }
    {
        self.at(assumed)?.read(line)
    }

    /// The fields of a prefix of a line, and what stands after the prefix: `None` says nothing of the line.
    #[inline(never)]
    pub fn read_prefix<'l>(
        &self,
        line: &'l [u8],
        assumed: Option<UtcOffset>,
    ) -> Option<(Fields, &'l [u8])>
        ensures prefix { (m : Meaning) → IsListOf m self.now → IfSome result
            (λ x. NamesPrefix m (beginning assumed) line.now x.1.now (moment_of x.0)) }
        ensures end { IfSome result (λ x. EndsWith line.now x.1.now) }
    {
        let minutes = Minutes::assumed(self.kind.has_offset, assumed)?;
        let mut found = self.unread;
        let rest = self.strides.read(line, &mut found)?;
        let fields = self.fields(&found, minutes)?;
        Some((fields, rest))
    }
}

/// The parts of a description, with the offset that is assumed for its lines.
#[derive(Clone, Copy)]
pub struct ListedAt<'p> {
    pub listed: &'p Listed,
    pub minutes: Minutes,
}

impl ListedAt<'_> {
    /// The fields of a line: `None` says nothing of the line.
    #[inline(always)]
    pub fn read(&self, line: &[u8]) -> Option<Fields>
        ensures { (assumed : Option ℤ) → ListedAssumes self.now assumed
            → NamesWhole (λ m. IsListOf m self.now.listed.now) line.now assumed result }
    {
        let mut found = self.listed.unread;
        let rest = self.listed.strides.read(line, &mut found)?;
        if rest.len() > 0 {
            return None;
        }
        self.listed.fields(&found, self.minutes)
    }
}
