//! The values that a record names.
ghost use Rattle.std.specs.Prelude.{◌≡◌};
ghost use Rattle.parsing_components.specs.Parts.{date_parts, time_parts, offset_parts, moment_parts};
ghost use Rattle.parsing_components.specs.Whole.{Names, date_named, time_named, offset_named, wall_named, moment_named, utc_named, timestamp_named};

use crate::parsed::Parsed;
use calendar::{Date, Time, UtcOffset};
use parsing_combinator::TryFromParsed;
use parsing_values::{
    DateParts, MomentParts, OffsetDateTime, OffsetParts, PlainDateTime, TimeParts, Timestamp,
    UtcDateTime, YearParts,
};

impl Parsed {
    // What the record says of a date.
    #[inline(always)]
    fn date_parts(&self) -> DateParts
        ensures { result ≡ date_parts self.now }
    {
        let fields = &self.fields;
        DateParts {
            year: YearParts {
                year: fields.year,
                century: fields.year_century,
                century_is_negative: fields.year_century_is_negative,
                last_two: fields.year_last_two,
            },
            iso_year: YearParts {
                year: fields.iso_year,
                century: fields.iso_year_century,
                century_is_negative: fields.iso_year_century_is_negative,
                last_two: fields.iso_year_last_two,
            },
            ordinal: fields.ordinal,
            month: fields.month,
            day: fields.day,
            weekday: fields.weekday,
            iso_week: fields.iso_week_number,
            sunday_week: fields.sunday_week_number,
            monday_week: fields.monday_week_number,
        }
    }

    // What the record says of a time of day.
    #[inline(always)]
    fn time_parts(&self) -> TimeParts
        ensures { result ≡ time_parts self.now }
    {
        let fields = &self.fields;
        TimeParts {
            hour_24: fields.hour_24,
            hour_12: fields.hour_12,
            hour_12_is_pm: fields.hour_12_is_pm,
            minute: fields.minute,
            second: fields.second,
            subsecond: fields.subsecond,
        }
    }

    // The parts of the offset under their signs.
    #[inline(always)]
    fn offset_parts(&self) -> OffsetParts
        ensures { result ≡ offset_parts self.now }
    {
        OffsetParts {
            hour: self.fields.offset_hour,
            minute: self.offset_minute_signed(),
            second: self.offset_second_signed(),
        }
    }

    // What the record says of a moment but its offset.
    #[inline(always)]
    fn moment_parts(&self) -> MomentParts
        ensures { result ≡ moment_parts self.now }
    {
        MomentParts {
            date: self.date_parts(),
            time: self.time_parts(),
            leap_second_is_permitted: self.fields.leap_second_is_permitted,
            unix_nanoseconds: self.fields.unix_timestamp_nanos,
        }
    }
}

impl Parsed {
    /// The moment that the record names, as `OffsetDateTime::try_from` gives it, without a copy of the record: that
    /// of the Unix time, at offset zero, or of a date, a time of day and an offset. Refused are, in this order, a
    /// date, a time or an offset that is not there or out of range, and a leap second that can be none.
    #[inline(always)]
    pub fn offset_date_time(&self) -> Result<OffsetDateTime, TryFromParsed>
        ensures { Names moment_named self.now result }
    {
        match self.usual_moment() {
            Some(moment) => Ok(moment),
            None => parsing_values::offset_date_time(&self.moment_parts(), &self.offset_parts()),
        }
    }
}

impl TryFrom<Parsed> for Date {
    type Error = TryFromParsed;

    ghost try_from_gives = { Names date_named };

    #[inline(always)]
    fn try_from(parsed: Parsed) -> Result<Date, TryFromParsed> {
        parsing_values::date(&parsed.date_parts())
    }
}

impl TryFrom<Parsed> for Time {
    type Error = TryFromParsed;

    ghost try_from_gives = { Names time_named };

    #[inline(always)]
    fn try_from(parsed: Parsed) -> Result<Time, TryFromParsed> {
        parsing_values::time(false, &parsed.time_parts())
    }
}

impl TryFrom<Parsed> for UtcOffset {
    type Error = TryFromParsed;

    ghost try_from_gives = { Names offset_named };

    #[inline(always)]
    fn try_from(parsed: Parsed) -> Result<UtcOffset, TryFromParsed> {
        parsing_values::offset(&parsed.offset_parts())
    }
}

impl TryFrom<Parsed> for PlainDateTime {
    type Error = TryFromParsed;

    ghost try_from_gives = { Names wall_named };

    #[inline(always)]
    fn try_from(parsed: Parsed) -> Result<PlainDateTime, TryFromParsed> {
        parsing_values::plain_date_time(false, &parsed.date_parts(), &parsed.time_parts())
    }
}

impl TryFrom<Parsed> for OffsetDateTime {
    type Error = TryFromParsed;

    ghost try_from_gives = { Names moment_named };

    #[inline(always)]
    fn try_from(parsed: Parsed) -> Result<OffsetDateTime, TryFromParsed> {
        parsed.offset_date_time()
    }
}

impl TryFrom<Parsed> for UtcDateTime {
    type Error = TryFromParsed;

    ghost try_from_gives = { Names utc_named };

    #[inline(always)]
    fn try_from(parsed: Parsed) -> Result<UtcDateTime, TryFromParsed> {
        parsing_values::utc_date_time(&parsed.moment_parts(), &parsed.offset_parts())
    }
}

impl TryFrom<Parsed> for Timestamp {
    type Error = TryFromParsed;

    ghost try_from_gives = { Names timestamp_named };

    #[inline(always)]
    fn try_from(parsed: Parsed) -> Result<Timestamp, TryFromParsed> {
        parsing_values::timestamp(&parsed.moment_parts(), &parsed.offset_parts())
    }
}
