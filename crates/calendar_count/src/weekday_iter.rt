//! Endless walks over days of the week.
ghost use Rattle.std.specs.Prelude.{◌≡◌, ◌+◌, IsSomeAnd};
ghost use Rattle.calendar_count.specs.Weekday.{days_from_monday, next_weekday};
ghost use Rattle.calendar_count.specs.Steps.{steps};
ghost use Rattle.calendar_count.specs.Walks.{YieldsWeekday, YieldsWeekdayBack};

use crate::Weekday;
use std::marker::Model;

/// The days of the week from one on, with no end: after Sunday comes Monday.
///
/// A contract sees it as the day of the week that is due next.
#[derive(Clone, Debug, Drop)]
pub struct WeekdayIter {
    due: Weekday,
}

impl Model for WeekdayIter {
    ghost use Rattle.calendar_count.specs.declared.weekday.Weekday.{Weekday};

    ghost Value = { Weekday };

    ghost view = { λ s. s.due };
}

/// The days of the week from one back, with no end: after Monday comes Sunday.
///
/// A contract sees it as the day of the week that is due next.
#[derive(Clone, Debug, Drop)]
pub struct RevWeekdayIter {
    due: Weekday,
}

impl Model for RevWeekdayIter {
    ghost use Rattle.calendar_count.specs.declared.weekday.Weekday.{Weekday};

    ghost Value = { Weekday };

    ghost view = { λ s. s.due };
}

impl Weekday {
    /// The days of the week from `start` on, with no end.
    pub fn iter_from(start: Weekday) -> WeekdayIter
        ensures { result ≡ start }
    {
        WeekdayIter::new(start)
    }
}

impl WeekdayIter {
    /// The days of the week from `start` on.
    pub fn new(start: Weekday) -> WeekdayIter
        ensures { result ≡ start }
    {
        WeekdayIter { due: start }
    }

    /// The day of the week `n` steps on from the one that is due, never `None`. The one after it is due next.
    pub fn nth(&mut self, n: usize) -> Option<Weekday>
        ensures value { IsSomeAnd result (λ w. days_from_monday w
            ≡ steps next_weekday n (days_from_monday self.old)) }
        ensures rest { days_from_monday self.new
            ≡ steps next_weekday (n + 1) (days_from_monday self.old) }
    {
        let weekday = self.due.nth_next((n % 7) as u8);
        self.due = weekday.next();
        Some(weekday)
    }

    /// The walk the other way. The day of the week that is due comes first.
    pub fn rev(self) -> RevWeekdayIter
        ensures { result ≡ self }
    {
        RevWeekdayIter { due: self.due }
    }
}

impl Iterator for WeekdayIter {
    type Item = Weekday;

    ghost next_gives = { YieldsWeekday };

    fn next(&mut self) -> Option<Weekday> {
        let due = self.due;
        self.due = due.next();
        Some(due)
    }
}

impl RevWeekdayIter {
    /// The days of the week from `start` back.
    pub fn new(start: Weekday) -> RevWeekdayIter
        ensures { result ≡ start }
    {
        RevWeekdayIter { due: start }
    }

    /// The day of the week `n` steps back from the one that is due, never `None`. The one before it is due next.
    pub fn nth(&mut self, n: usize) -> Option<Weekday>
        ensures value { IsSomeAnd result (λ w. steps next_weekday n (days_from_monday w)
            ≡ days_from_monday self.old) }
        ensures rest { steps next_weekday (n + 1) (days_from_monday self.new)
            ≡ days_from_monday self.old }
    {
        let weekday = self.due.nth_prev((n % 7) as u8);
        self.due = weekday.previous();
        Some(weekday)
    }

    /// The walk the other way. The day of the week that is due comes first.
    pub fn rev(self) -> WeekdayIter
        ensures { result ≡ self }
    {
        WeekdayIter { due: self.due }
    }
}

impl Iterator for RevWeekdayIter {
    type Item = Weekday;

    ghost next_gives = { YieldsWeekdayBack };

    fn next(&mut self) -> Option<Weekday> {
        let due = self.due;
        self.due = due.previous();
        Some(due)
    }
}
