//! Days of one weekday after and before a day.
ghost use Rattle.std.specs.Prelude.{◌≡◌, ◌+◌, ◌↔◌, IsSome, IfSome};
ghost use Rattle.std.specs.Int.{IsInRange};
ghost use Rattle.calendar_count.specs.Range.{IsCount};
ghost use Rattle.calendar_count.specs.Calendar.{weekday_at};
ghost use Rattle.calendar_count.specs.Weekday.{days_from_monday};
ghost use Rattle.calendar_dates.specs.Occurrence.{IsNthAfter, IsNthBefore, HasNthAfter, HasNthBefore};

use crate::Date;
use calendar_count::Weekday;
use calendar_count::range::LAST_COUNT;

impl Date {
    // The days to the next such weekday, up to 7.
    fn days_until(self, weekday: Weekday) -> u32
        ensures value { weekday_at (self + result) ≡ days_from_monday weekday }
        ensures bound { IsInRange 1 7 result }
    {
        (weekday.number_days_from_monday() as u32 + 6 - self.count() % 7) % 7 + 1
    }

    // The days since the last such weekday, up to 7.
    fn days_since(self, weekday: Weekday) -> u32
        ensures value { weekday_at self ≡ weekday_at (days_from_monday weekday + result) }
        ensures bound { IsInRange 1 7 result }
    {
        (self.count() % 7 + 6 - weekday.number_days_from_monday() as u32) % 7 + 1
    }

    /// The `n`th such weekday strictly later, if it is in range: none for 0.
    pub fn checked_nth_next_occurrence(self, weekday: Weekday, n: u8) -> Option<Date>
        ensures some { IsSome result ↔ HasNthAfter (days_from_monday weekday) n self }
        ensures value { IfSome result (λ d. IsNthAfter (days_from_monday weekday) n self d) }
        ensures bound { IfSome result IsCount }
    {
        if n == 0 {
            return None;
        }
        let count = self.count() + self.days_until(weekday) + 7 * (n as u32 - 1);
        if count > LAST_COUNT {
            return None;
        }
        Some(Date::from_count(count))
    }

    /// The `n`th such weekday strictly earlier, if it is in range: none for 0.
    pub fn checked_nth_prev_occurrence(self, weekday: Weekday, n: u8) -> Option<Date>
        ensures some { IsSome result ↔ HasNthBefore (days_from_monday weekday) n self }
        ensures value { IfSome result (λ d. IsNthBefore (days_from_monday weekday) n self d) }
        ensures bound { IfSome result IsCount }
    {
        if n == 0 {
            return None;
        }
        let back = self.days_since(weekday) + 7 * (n as u32 - 1);
        let count = self.count();
        if back > count {
            return None;
        }
        Some(Date::from_count(count - back))
    }

    /// The next such weekday strictly later, if it is in range.
    pub fn checked_next_occurrence(self, weekday: Weekday) -> Option<Date>
        ensures some { IsSome result ↔ HasNthAfter (days_from_monday weekday) 1 self }
        ensures value { IfSome result (λ d. IsNthAfter (days_from_monday weekday) 1 self d) }
        ensures bound { IfSome result IsCount }
    {
        self.checked_nth_next_occurrence(weekday, 1)
    }

    /// The last such weekday strictly earlier, if it is in range.
    pub fn checked_prev_occurrence(self, weekday: Weekday) -> Option<Date>
        ensures some { IsSome result ↔ HasNthBefore (days_from_monday weekday) 1 self }
        ensures value { IfSome result (λ d. IsNthBefore (days_from_monday weekday) 1 self d) }
        ensures bound { IfSome result IsCount }
    {
        self.checked_nth_prev_occurrence(weekday, 1)
    }

    /// The `n`th such weekday strictly later. The caller knows that it is in range:
    /// `checked_nth_next_occurrence` is the test.
    pub fn nth_next_occurrence(self, weekday: Weekday, n: u8) -> Date
        requires { HasNthAfter (days_from_monday weekday) n self }
        ensures value { IsNthAfter (days_from_monday weekday) n self result }
        ensures bound { IsCount result }
    {
        self.checked_nth_next_occurrence(weekday, n).unwrap()
    }

    /// The `n`th such weekday strictly earlier. The caller knows that it is in range:
    /// `checked_nth_prev_occurrence` is the test.
    pub fn nth_prev_occurrence(self, weekday: Weekday, n: u8) -> Date
        requires { HasNthBefore (days_from_monday weekday) n self }
        ensures value { IsNthBefore (days_from_monday weekday) n self result }
        ensures bound { IsCount result }
    {
        self.checked_nth_prev_occurrence(weekday, n).unwrap()
    }

    /// The next such weekday strictly later. The caller knows that it is in range:
    /// `checked_next_occurrence` is the test.
    pub fn next_occurrence(self, weekday: Weekday) -> Date
        requires { HasNthAfter (days_from_monday weekday) 1 self }
        ensures value { IsNthAfter (days_from_monday weekday) 1 self result }
        ensures bound { IsCount result }
    {
        self.nth_next_occurrence(weekday, 1)
    }

    /// The last such weekday strictly earlier. The caller knows that it is in range:
    /// `checked_prev_occurrence` is the test.
    pub fn prev_occurrence(self, weekday: Weekday) -> Date
        requires { HasNthBefore (days_from_monday weekday) 1 self }
        ensures value { IsNthBefore (days_from_monday weekday) 1 self result }
        ensures bound { IsCount result }
    {
        self.nth_prev_occurrence(weekday, 1)
    }
}
