//! Readings that are far from each step: for lines that follow one another.
ghost use Rattle.std.specs.Prelude.{◌≡◌, ◌≤ℤ◌, ◌-ℤ◌, ℤ, IfSome};
ghost use Rattle.zones_clock.specs.Steps.{IsOffset, IsReading};
ghost use Rattle.zones_clock.specs.AllMoments.{moments_of};
ghost use Rattle.zones_clock.specs.declared.zone.Moments.TheVariants.{One};

use crate::zone::{OFFSET_BOUND, Zone};

impl Zone {
    /// The offset of the only moment at which the clock shows each reading from one up to another, given in seconds since the
    /// clock showed 1970-01-01T00:00:00: it is there where no step is within 26 hours of them, and `None` says nothing.
    pub fn sure_offset(&self, first: i64, last: i64) -> Option<i32>
        requires first { IsReading first }
        requires last { IsReading last }
        ensures only { IfSome result (λ offset. (reading : ℤ) → first ≤ℤ reading → reading ≤ℤ last
            → moments_of self.now.first self.now.steps.items reading ≡ One (reading -ℤ offset)) }
        ensures bound { IfSome result IsOffset }
    {
        let count = self.count_begun(first - OFFSET_BOUND);
        if self.has_next_begun(count, last + OFFSET_BOUND) {
            return None;
        }
        Some(self.offset_after(count))
    }
}
