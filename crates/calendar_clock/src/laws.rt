//! What the contracts of the other calls do not say by themselves.
ghost use Rattle.std.specs.Prelude.{◌≡◌, ◌-◌, ◌∷◌, [], pos};
ghost use Rattle.calendar_clock.specs.Time.{day_nanos};

use crate::time::Time;
use crate::utc_offset::UtcOffset;
use calendar_spans::SignedDuration;

/// The first and the last time of a day.
pub fn ends_of_day() -> [Time; 2]
    ensures { result ≡ 0 ∷ (day_nanos - 1) ∷ [] }
{
    [Time::MIDNIGHT, Time::MAX]
}

/// The offset of UTC is zero.
pub fn offset_of_utc() -> UtcOffset
    ensures { result ≡ pos 0 }
{
    UtcOffset::UTC
}

/// The duration until a time leads there.
pub fn led_by_duration_until(from: Time, to: Time) -> Time
    ensures { result ≡ to }
{
    from + from.duration_until(to)
}

/// A time moved by a duration and back is the same.
pub fn moved_and_back(time: Time, duration: SignedDuration) -> Time
    ensures { result ≡ time }
{
    // the time is within a day
    let _second_of_day = time.second_of_day();
    (time + duration) - duration
}

/// An offset turned round twice is the same.
pub fn turned_twice(offset: UtcOffset) -> UtcOffset
    ensures { result ≡ offset }
{
    -(-offset)
}
