//! Days with one part changed.
ghost use Rattle.std.specs.Prelude.{◌≡◌, ◌↔◌, IsOk, IfOk, IfErr, if◌then◌else◌};
ghost use Rattle.std.specs.Int.{IsInRange};
ghost use Rattle.calendar_count.specs.Range.{IsCount};
ghost use Rattle.calendar_count.specs.Calendar.{day_at, ordinal_at, ymd, is_year, IsDay, days_in_year};
ghost use Rattle.calendar_count.specs.Month.{month_number};
ghost use Rattle.calendar_count.specs.ComponentRange.{out_of_range, out_of_conditional_range};
ghost use Rattle.calendar_count.specs.declared.component_range.ComponentName.TheVariants as component;

use crate::Date;
use calendar_count::{ComponentRange, Month};

impl Date {
    /// The day of another year with the same month and day of the month.
    ///
    /// A year beyond ±999999 is refused as `year`, and else 29 February, where the year does not have it, as
    /// `day`.
    pub fn replace_year(self, year: i32) -> Result<Date, ComponentRange>
        ensures succeeds { IsOk result ↔ IsDay year (day_at self).month (day_at self).day }
        ensures value { IfOk result (λ d. day_at d
            ≡ ymd year (day_at self).month (day_at self).day) }
        ensures bound { IfOk result IsCount }
        ensures err { IfErr result (λ e. e
            ≡ (if is_year year then out_of_conditional_range component.Day
            else out_of_range component.Year)) }
    {
        let (_, month, day) = self.to_calendar_date();
        Date::from_calendar_date(year, month, day)
    }

    /// The day of another month of the year with the same day of the month, refused where that
    /// month does not have it, as `day`.
    pub fn replace_month(self, month: Month) -> Result<Date, ComponentRange>
        ensures succeeds { IsOk result
            ↔ IsDay (day_at self).year (month_number month) (day_at self).day }
        ensures value { IfOk result (λ d. day_at d
            ≡ ymd (day_at self).year (month_number month) (day_at self).day) }
        ensures bound { IfOk result IsCount }
        ensures err { IfErr result (λ e. e ≡ out_of_conditional_range component.Day) }
    {
        let (year, _, day) = self.to_calendar_date();
        Date::from_calendar_date(year, month, day)
    }

    /// Another day of the same month, from 1, refused where the month does not have it.
    pub fn replace_day(self, day: u8) -> Result<Date, ComponentRange>
        ensures succeeds { IsOk result ↔ IsDay (day_at self).year (day_at self).month day }
        ensures value { IfOk result (λ d. day_at d
            ≡ ymd (day_at self).year (day_at self).month day) }
        ensures bound { IfOk result IsCount }
        ensures err { IfErr result (λ e. e ≡ out_of_conditional_range component.Day) }
    {
        let (year, month, _) = self.to_calendar_date();
        Date::from_calendar_date(year, month, day)
    }

    /// The day of the same year with this place in it, from 1, refused where the year does not
    /// have it.
    pub fn replace_ordinal(self, ordinal: u16) -> Result<Date, ComponentRange>
        ensures succeeds { IsOk result ↔ IsInRange 1 (days_in_year (day_at self).year) ordinal }
        ensures value { IfOk result (λ d. ((day_at d).year ≡ (day_at self).year)
            × (ordinal_at d ≡ ordinal)) }
        ensures bound { IfOk result IsCount }
        ensures err { IfErr result (λ e. e ≡ out_of_conditional_range component.Ordinal) }
    {
        Date::from_ordinal_date(self.year(), ordinal)
    }
}
