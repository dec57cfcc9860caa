//! Walks over days.
ghost use Rattle.std.specs.Prelude.{◌≡◌, ◌+◌, ◌-◌, ◌<◌, ◌≤◌, ◌↔◌, length, take, drop, reverse, slice_get, All, Contains, IsTrue, IsSome, IfSome, Some};
ghost use Rattle.std.specs.List.Sorted.{IsNonDecreasing};
ghost use Rattle.std.specs.Iterator.{YieldsFirst, YieldsLast, item_count, UpTo};
ghost use Rattle.std.specs.Iterator.SizeHint.{IsWithinCount};
ghost use Rattle.calendar_dates.specs.Days.{days_between};
ghost use Rattle.calendar_count.specs.Range.{last_count};

use crate::Date;
use std::marker::Model;

/// The days from one to another, in order, taken from both ends.
///
/// A contract sees it as the list of the counts that are left. After `None` it answers `None`.
#[derive(Clone, Debug, Drop)]
pub struct DateIter {
    first: u32,
    len: u32,
}

impl Model for DateIter {
    ghost use Rattle.std.specs.Prelude.{List, ℕ, ◌+◌, ◌≤◌};
    ghost use Rattle.calendar_dates.specs.Days.{counts_from};
    ghost use Rattle.calendar_count.specs.Range.{last_count};

    ghost Value = { List ℕ };

    ghost view = { λ s. counts_from s.first s.len };

    ghost invariant = { λ s. s.first + s.len ≤ last_count + 1 };
}

impl DateIter {
    /// The days from `start` to `end`, both included: none where `end` is earlier.
    pub fn new(start: Date, end: Date) -> DateIter
        ensures days { result ≡ days_between start end }
        ensures bound { length result ≤ last_count + 1 }
    {
        let (first, last) = (start.count(), end.count());
        DateIter {
            first,
            len: (last + 1).saturating_sub(first),
        }
    }

    /// The day after the next `n`, which are passed over. Where no more than `n` are left, none is
    /// left afterwards.
    pub fn nth(&mut self, n: usize) -> Option<Date>
        ensures value { result ≡ slice_get self.old n }
        ensures rest { self.new ≡ drop (n + 1) self.old }
    {
        if n >= self.len as usize {
            self.len = 0;
            return None;
        }
        let passed = n as u32;
        let day = Date::from_count(self.first + passed);
        self.first += passed + 1;
        self.len -= passed + 1;
        Some(day)
    }

    /// The same from the back: the day before the last `n`.
    pub fn nth_back(&mut self, n: usize) -> Option<Date>
        ensures value { result ≡ slice_get (reverse self.old) n }
        ensures rest { self.new ≡ take (length self.old - (n + 1)) self.old }
    {
        if n >= self.len as usize {
            self.len = 0;
            return None;
        }
        self.len -= n as u32 + 1;
        let day = Date::from_count(self.first + self.len);
        Some(day)
    }

    /// The number of days that are left.
    pub fn count(self) -> usize
        ensures value { result ≡ length self }
        ensures bound { result ≤ last_count + 1 }
    {
        // What holds of the fields is known once one is read.
        let _ = &self.first;
        self.len()
    }

    /// The last day that is left, or `None` where none is.
    pub fn last(mut self) -> Option<Date>
        ensures { result ≡ slice_get (reverse self) 0 }
    {
        self.nth_back(0)
    }

    /// The earliest day that is left, or `None` where none is.
    pub fn min(self) -> Option<Date>
        ensures some { IsSome result ↔ (0 < length self) }
        ensures least { IfSome result (λ d. Contains self d × All (λ k. d ≤ k) self) }
    {
        if self.len == 0 {
            return None;
        }
        Some(Date::from_count(self.first))
    }

    /// The latest day that is left, or `None` where none is.
    pub fn max(self) -> Option<Date>
        ensures some { IsSome result ↔ (0 < length self) }
        ensures greatest { IfSome result (λ d. Contains self d × All (λ k. k ≤ d) self) }
    {
        if self.len == 0 {
            return None;
        }
        Some(Date::from_count(self.first + self.len - 1))
    }

    /// Whether the days come in order, as they always do.
    pub fn is_sorted(self) -> bool
        ensures value { IsTrue result ↔ IsNonDecreasing self }
        ensures always { IsTrue result }
    {
        // The fields say which days these are.
        let _ = &self.first;
        true
    }
}

impl Date {
    /// The days from this one to `end`, both included: none where `end` is earlier.
    pub fn iter_to(self, end: Date) -> DateIter
        ensures days { result ≡ days_between self end }
        ensures bound { length result ≤ last_count + 1 }
    {
        DateIter::new(self, end)
    }
}

impl Iterator for DateIter {
    type Item = Date;

    ghost next_gives = { YieldsFirst (λ s. s) };

    ghost remaining = { item_count (λ s. s) };

    fn next(&mut self) -> Option<Date> {
        if self.len == 0 {
            return None;
        }
        let day = Date::from_count(self.first);
        self.first += 1;
        self.len -= 1;
        Some(day)
    }

    fn size_hint(&self) -> (usize, Option<usize>)
        ensures exact { (result.0 ≡ length self.now) × (result.1 ≡ Some (length self.now)) }
        ensures lower { IsWithinCount result.0 (item_count (λ s. s) self.now) }
        ensures upper { IfSome result.1 (UpTo (item_count (λ s. s) self.now)) }
    {
        let len = self.len as usize;
        (len, Some(len))
    }
}

impl DoubleEndedIterator for DateIter {
    ghost next_back_gives = { YieldsLast (λ s. s) };

    fn next_back(&mut self) -> Option<Date> {
        if self.len == 0 {
            return None;
        }
        self.len -= 1;
        Some(Date::from_count(self.first + self.len))
    }
}

impl ExactSizeIterator for DateIter {
    fn len(&self) -> usize {
        self.len as usize
    }
}
