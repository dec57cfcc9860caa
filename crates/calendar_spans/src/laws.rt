//! What the contracts of the other calls do not say.
ghost use Rattle.std.specs.Prelude.{◌≡◌, ◌↔◌, ◌∷◌, [], pos, ◌+ℤ◌, IsSome, IfSome};
ghost use Rattle.calendar_spans.specs.Duration.{IsDuration, least_duration, micro_nanos, milli_nanos, second_nanos, minute_nanos, hour_nanos, day_nanos, week_nanos, greatest_duration};

use crate::duration::SignedDuration;

/// The constants are what their names say: the duration furthest back, none, the units, and the one
/// furthest forward.
#[tactic(auto, unfolding(crate::specs::DurationParts::duration_nanos))]
pub fn constants() -> [SignedDuration; 11]
    ensures { result ≡ least_duration ∷ pos 0 ∷ pos 1 ∷ pos micro_nanos ∷ pos milli_nanos
        ∷ pos second_nanos ∷ pos minute_nanos ∷ pos hour_nanos ∷ pos day_nanos ∷ pos week_nanos
        ∷ greatest_duration ∷ [] }
{
    [
        SignedDuration::MIN,
        SignedDuration::ZERO,
        SignedDuration::NANOSECOND,
        SignedDuration::MICROSECOND,
        SignedDuration::MILLISECOND,
        SignedDuration::SECOND,
        SignedDuration::MINUTE,
        SignedDuration::HOUR,
        SignedDuration::DAY,
        SignedDuration::WEEK,
        SignedDuration::MAX,
    ]
}

/// A duration that another one was added to is itself again once that one is taken away.
pub fn added_and_taken_away(
    duration: SignedDuration,
    other: SignedDuration,
) -> Option<SignedDuration>
    ensures some { IsSome result ↔ IsDuration (duration +ℤ other) }
    ensures value { IfSome result (λ d. d ≡ duration) }
{
    let Some(sum) = duration.checked_add(other) else {
        return None;
    };
    sum.checked_sub(other)
}
