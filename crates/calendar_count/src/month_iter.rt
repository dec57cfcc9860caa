//! Endless walks over months.
ghost use Rattle.std.specs.Prelude.{◌≡◌, ◌+◌, IsSomeAnd, Some, false};
ghost use Rattle.calendar_count.specs.Month.{month_number, next_month};
ghost use Rattle.calendar_count.specs.Steps.{steps};
ghost use Rattle.calendar_count.specs.Walks.{YieldsMonth, YieldsMonthBack};
ghost use Rattle.calendar_count.specs.declared.month.Month.TheVariants as month;

use crate::Month;
use std::marker::Model;

/// The months from one on, with no end: after December comes January.
///
/// A contract sees it as the month that is due next.
#[derive(Clone, Debug, Drop)]
pub struct MonthIter {
    due: Month,
}

impl Model for MonthIter {
    ghost use Rattle.calendar_count.specs.declared.month.Month.{Month};

    ghost Value = { Month };

    ghost view = { λ s. s.due };
}

/// The months from one back, with no end: after January comes December.
///
/// A contract sees it as the month that is due next.
#[derive(Clone, Debug, Drop)]
pub struct RevMonthIter {
    due: Month,
}

impl Model for RevMonthIter {
    ghost use Rattle.calendar_count.specs.declared.month.Month.{Month};

    ghost Value = { Month };

    ghost view = { λ s. s.due };
}

impl Month {
    /// The months from `start` on, with no end.
    pub fn iter_from(start: Month) -> MonthIter
        ensures { result ≡ start }
    {
        MonthIter::new(start)
    }
}

impl MonthIter {
    /// The months from `start` on.
    pub fn new(start: Month) -> MonthIter
        ensures { result ≡ start }
    {
        MonthIter { due: start }
    }

    /// The month `n` steps on from the one that is due, never `None`. The one after it is due next.
    pub fn nth(&mut self, n: usize) -> Option<Month>
        ensures value { IsSomeAnd result (λ m. month_number m
            ≡ steps next_month n (month_number self.old)) }
        ensures rest { month_number self.new ≡ steps next_month (n + 1) (month_number self.old) }
    {
        let month = self.due.nth_next((n % 12) as u8);
        self.due = month.next();
        Some(month)
    }

    /// The walk the other way. The month that is due comes first.
    pub fn rev(self) -> RevMonthIter
        ensures { result ≡ self }
    {
        RevMonthIter { due: self.due }
    }

    /// The least of all months.
    pub fn min(self) -> Option<Month>
        ensures { result ≡ Some month.January }
    {
        Some(Month::January)
    }

    /// The greatest of all months.
    pub fn max(self) -> Option<Month>
        ensures { result ≡ Some month.December }
    {
        Some(Month::December)
    }

    /// Whether the months come in order. They do not: the walk goes round the year.
    pub fn is_sorted(self) -> bool
        ensures { result ≡ false }
    {
        false
    }
}

impl Iterator for MonthIter {
    type Item = Month;

    ghost next_gives = { YieldsMonth };

    fn next(&mut self) -> Option<Month> {
        let due = self.due;
        self.due = due.next();
        Some(due)
    }
}

impl RevMonthIter {
    /// The months from `start` back.
    pub fn new(start: Month) -> RevMonthIter
        ensures { result ≡ start }
    {
        RevMonthIter { due: start }
    }

    /// The month `n` steps back from the one that is due, never `None`. The one before it is due next.
    pub fn nth(&mut self, n: usize) -> Option<Month>
        ensures value { IsSomeAnd result (λ m. steps next_month n (month_number m)
            ≡ month_number self.old) }
        ensures rest { steps next_month (n + 1) (month_number self.new) ≡ month_number self.old }
    {
        let month = self.due.nth_prev((n % 12) as u8);
        self.due = month.previous();
        Some(month)
    }

    /// The walk the other way. The month that is due comes first.
    pub fn rev(self) -> MonthIter
        ensures { result ≡ self }
    {
        MonthIter { due: self.due }
    }

    /// The least of all months.
    pub fn min(self) -> Option<Month>
        ensures { result ≡ Some month.January }
    {
        self.rev().min()
    }

    /// The greatest of all months.
    pub fn max(self) -> Option<Month>
        ensures { result ≡ Some month.December }
    {
        self.rev().max()
    }

    /// Whether the months come in order. They do not: the walk goes round the year.
    pub fn is_sorted(self) -> bool
        ensures { result ≡ false }
    {
        self.rev().is_sorted()
    }
}

impl Iterator for RevMonthIter {
    type Item = Month;

    ghost next_gives = { YieldsMonthBack };

    fn next(&mut self) -> Option<Month> {
        let due = self.due;
        self.due = due.previous();
        Some(due)
    }
}
