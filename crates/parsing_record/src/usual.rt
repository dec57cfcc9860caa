//! The moment of a record with the usual components: `None` says nothing of the record.
ghost use Rattle.std.specs.Prelude.{◌≡◌, false, Ok, IfSome};
ghost use Rattle.parsing_values.specs.NamedDate.{named_date};
ghost use Rattle.parsing_values.specs.NamedTime.{named_time, named_offset};
ghost use Rattle.parsing_values.specs.NamedMoment.{named_moment};
ghost use Rattle.parsing_components.specs.Parts.{date_parts, time_parts, offset_parts, moment_parts};

use crate::parsed::Parsed;
use calendar::{Date, Time, UtcOffset};
use parsing_values::{OffsetDateTime, named_day, resolve};

impl Parsed {
    // The date of a year, a month and a day.
    #[inline(always)]
    #[tactic(auto, unfolding(parsing_values::specs::NamedDate::named_date, parsing_values::specs::NamedDate::by_ordinal, parsing_values::specs::NamedDate::by_day, parsing_values::specs::NamedDate::year_of))]
    fn usual_date(&self) -> Option<Date>
        ensures { IfSome result (λ d. named_date (date_parts self.now) ≡ Ok d) }
    {
        let fields = &self.fields;
        if fields.ordinal.is_some() {
            return None;
        }
        let (year, month, day) = (fields.year?, fields.month?, fields.day?);
        named_day::calendar_date(year, month, day).ok()
    }

    // The time of an hour of the day, a minute and a second.
    #[inline(always)]
    #[tactic(auto, unfolding(parsing_values::specs::NamedTime::named_time, parsing_values::specs::NamedTime::hour_of, parsing_values::specs::NamedTime::finer_parts))]
    fn usual_time(&self) -> Option<Time>
        ensures { IfSome result (λ t. named_time false (time_parts self.now) ≡ Ok t) }
    {
        let fields = &self.fields;
        let (hour, minute, second) = (fields.hour_24?, fields.minute?, fields.second?);
        let nanosecond = fields.subsecond.unwrap_or(0);
        resolve::permitted_time(false, hour, minute, second, nanosecond).ok()
    }

    // The offset of an hour and a minute.
    #[inline(always)]
    #[tactic(auto, unfolding(parsing_values::specs::NamedTime::named_offset, parsing_values::specs::NamedTime::seconds_after))]
    fn usual_offset(&self) -> Option<UtcOffset>
        ensures { IfSome result (λ o. named_offset (offset_parts self.now) ≡ Ok o) }
    {
        let (hour, minute) = (self.fields.offset_hour?, self.offset_minute_signed()?);
        let second = self.offset_second_signed().unwrap_or(0);
        UtcOffset::from_hms(hour, minute, second).ok()
    }

    /// The moment of a date, a time of day and an offset.
    #[inline(always)]
    #[tactic(auto, unfolding(parsing_values::specs::NamedMoment::named_moment, parsing_values::specs::NamedMoment::dated_moment, parsing_values::specs::NamedMoment::named_wall, parsing_values::specs::StandIn::leap_checked))]
    pub(crate) fn usual_moment(&self) -> Option<OffsetDateTime>
        ensures { IfSome result
            (λ m. named_moment (moment_parts self.now) (offset_parts self.now) ≡ Ok m) }
    {
        let fields = &self.fields;
        if fields.leap_second_is_permitted || fields.unix_timestamp_nanos.is_some() {
            return None;
        }
        let (date, time, offset) = (self.usual_date()?, self.usual_time()?, self.usual_offset()?);
        Some(OffsetDateTime::new_in_offset(date, time, offset))
    }
}
