//! The duration between two instants or wall clocks.
ghost use Rattle.std.specs.Prelude.{◌≡◌, ◌≤◌, ◌<◌, pos, ◌+ℤ◌, ◌-ℤ◌, ◌*ℤ◌, unsigned_abs};
ghost use Rattle.datetime_wall.specs.Wall.{second_nanos, greatest_distance};

use calendar::SignedDuration;

/// The first less the second, each by its whole seconds and the nanoseconds after them.
#[inline(always)]
pub(crate) fn difference(one: (i64, u32), other: (i64, u32)) -> SignedDuration
    requires one { (unsigned_abs one.0 ≤ greatest_distance) × (one.1 < second_nanos) }
    requires other { (unsigned_abs other.0 ≤ greatest_distance) × (other.1 < second_nanos) }
    ensures { result ≡ (one.0 *ℤ pos second_nanos +ℤ pos one.1)
        -ℤ (other.0 *ℤ pos second_nanos +ℤ pos other.1) }
{
    SignedDuration::new(one.0 - other.0, one.1 as i32 - other.1 as i32)
}
