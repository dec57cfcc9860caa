//! The numbers of a date-time, whose date names a day by two numbers after its year.
ghost use Rattle.std.specs.Prelude.{◌≤◌, ◌<◌, unsigned_abs};

use parsing_values::{Fields, Fraction, Year, has_day};

/// The numbers of a date-time in a year of four digits, before its day is one of a month.
///
/// What the two numbers of the date after its year are, the format says: a month and a day, or a week and a day of it, or a day of
/// the year without its last digit and that digit.
#[derive(Clone, Copy)]
pub struct Numbers {
    /// 0 to 9999.
    pub year: Year,
    /// The first number of the date after its year.
    pub high: u8,
    /// The second one.
    pub low: u8,
    /// Of the day, from 0 on.
    pub minute: u16,
    /// Of the minute, 0 to 59.
    pub second: u8,
    /// In minutes, above 0 where local time is ahead of UTC.
    pub offset: i16,
    /// Of the second.
    pub fraction: Fraction,
    ghost four_digits: { year ≤ 9999 },
    ghost within_a_day: { minute < 1440 },
    ghost within_a_minute: { second < 60 },
    ghost is_offset: { unsigned_abs offset ≤ 1559 },
}

impl Numbers {
    ghost use Rattle.std.specs.Prelude.{pos, IfSome};
    ghost use Rattle.calendar_count.specs.Calendar.{IsDay};
    ghost use Rattle.parsing_values.specs.Numbers.{HaveNumbers};

    /// The fields with these numbers on a day of the year.
    #[inline(always)]
    pub fn on(&self, month: u8, day: u8) -> Fields
        requires { IsDay (pos self.now.year) month day }
        ensures { HaveNumbers result self.now.year month day self.now.minute self.now.second
            self.now.fraction self.now.offset }
    {
        Fields::of_numbers(
            self.year,
            month,
            day,
            self.minute,
            self.second,
            self.fraction,
            self.offset,
        )
    }

    /// The same, where the year has such a day.
    #[inline(always)]
    pub fn on_day(&self, month: u8, day: u8) -> Option<Fields>
        ensures { IfSome result (λ f. HaveNumbers f self.now.year month day self.now.minute
            self.now.second self.now.fraction self.now.offset) }
    {
        if month < 1 || month > 12 || !has_day(self.year, month, day) {
            return None;
        }
        Some(self.on(month, day))
    }
}
