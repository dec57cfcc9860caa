//! The moments at which a zone's clock shows a reading.
ghost use Rattle.std.specs.Prelude.{◌≡◌, ℕ, ◌+◌, ◌<◌, ◌≤◌, vec_len, int_le, ◌-ℤ◌};
ghost use Rattle.zones_clock.specs.Steps.{offset_at, offset_after, step_at, IsOffset, IsReading};
ghost use Rattle.zones_clock.specs.Clock.{AreTheMoments, with_moment};
ghost use Rattle.zones_clock.specs.AllMoments.{moments_of, with_moments};
ghost use Rattle.zones_clock.specs.Search.{IsIn, have_begun, has_next_begun, moment_between};

use crate::zone::{Moments, OFFSET_BOUND, Step, Zone};

// With a later moment added.
fn with_moment(found: Moments, moment: i64) -> Moments
    ensures { result ≡ with_moment found moment }
{
    match found {
        Moments::Skipped => Moments::One(moment),
        Moments::One(first) => Moments::Repeated(first, moment),
        Moments::Repeated(first, second) => Moments::Several(first, second, moment),
        Moments::Several(first, second, third) => Moments::Several(first, second, third),
    }
}

impl Zone {
    // Whether the step at a place has begun at a moment.
    fn has_begun(&self, place: usize, moment: i64) -> bool
        requires { place < vec_len self.now.steps }
        ensures { result ≡ int_le (step_at self.now.steps.items place).from moment }
    {
        self.steps[place].from <= moment
    }

    // The offset after so many steps.
    pub(crate) fn offset_after(&self, count: usize) -> i32
        requires { count ≤ vec_len self.now.steps }
        ensures value { result ≡ offset_after self.now.first self.now.steps.items count }
        ensures offset { IsOffset result }
    {
        if count == 0 {
            self.first
        } else {
            self.steps[count - 1].offset
        }
    }

    // The moment at which a clock with the offset after so many steps shows a reading.
    fn moment_after(&self, count: usize, reading: i64) -> i64
        requires count { count ≤ vec_len self.now.steps }
        requires reading { IsReading reading }
        ensures { result ≡ reading -ℤ offset_after self.now.first self.now.steps.items count }
    {
        reading - i64::from(self.offset_after(count))
    }

    // Whether the last of so many steps has begun at a moment, if there is one.
    #[inline(always)]
    pub(crate) fn have_begun(&self, count: usize, moment: i64) -> bool
        requires { count ≤ vec_len self.now.steps }
        ensures { result ≡ have_begun self.now.steps.items count moment }
    {
        if count == 0 {
            return true;
        }
        self.has_begun(count - 1, moment)
    }

    // Whether there is a step after so many, and it has begun at a moment.
    #[inline(always)]
    pub(crate) fn has_next_begun(&self, count: usize, moment: i64) -> bool
        ensures { result ≡ has_next_begun self.now.steps.items count moment }
    {
        if count < self.steps.len() {
            return self.has_begun(count, moment);
        }
        false
    }

    // How many steps have begun at a moment.
    pub(crate) fn count_begun(&self, moment: i64) -> usize
        ensures within { result ≤ vec_len self.now.steps }
        ensures begun { IsIn self.now.steps.items result moment }
    {
        self.steps.as_slice().partition_point(
            |step: &Step| -> bool
                ensures { result ≡ int_le step.now.from moment }
            { step.from <= moment },
        )
    }

    // With the moment between so many steps and the next at which the clock shows the reading, if there is one.
    fn with_moment_after(&self, count: usize, reading: i64, found: Moments) -> Moments
        requires count { count ≤ vec_len self.now.steps }
        requires reading { IsReading reading }
        ensures { result ≡ with_moments found (moment_between self.now.first self.now.steps.items reading count) }
    {
        let moment = self.moment_after(count, reading);
        if self.have_begun(count, moment) && !self.has_next_begun(count, moment) {
            with_moment(found, moment)
        } else {
            found
        }
    }

    /// How many seconds the clock is ahead of UTC at a moment, given in seconds since 1970-01-01T00:00:00Z.
    pub fn offset_at(&self, moment: i64) -> i32
        ensures value { result ≡ offset_at self.now.first self.now.steps.items moment }
        ensures bound { IsOffset result }
    {
        self.offset_after(self.count_begun(moment))
    }

    /// The moments at which the clock shows a reading, given in seconds since the clock showed 1970-01-01T00:00:00.
    pub fn moments(&self, reading: i64) -> Moments
        requires { IsReading reading }
        ensures relation { AreTheMoments self.now.first self.now.steps.items reading result }
        ensures function { result ≡ moments_of self.now.first self.now.steps.items reading }
    {
        let earliest = reading - OFFSET_BOUND;
        let latest = reading + OFFSET_BOUND;
        let mut count = self.count_begun(earliest);
        let mut found = Moments::Skipped;
        while self.has_next_begun(count, latest) {
            found = self.with_moment_after(count, reading, found);
            count += 1;
        }
        self.with_moment_after(count, reading, found)
    }
}
