//! Sums of many durations.
ghost use Rattle.std.specs.Prelude.{◌≡◌, List, IfSome, IfNone};
ghost use Rattle.std.specs.Iterator.{IsFinite, Drains, Yields};
ghost use Rattle.calendar_spans.specs.Duration.{IsDuration};
ghost use Rattle.calendar_spans.specs.DurationSum.{total, HasPartialSums};

use crate::duration::SignedDuration;

impl SignedDuration {
    /// The sum of all, or `None` where the sum of some of the first ones is no duration; then no
    /// further one is taken.
    #[tactic(auto, unfolding(crate::specs::DurationParts::duration_nanos))]
    pub fn try_sum<I: Iterator<Item = SignedDuration> + Drop>(
        durations: I,
    ) -> Option<SignedDuration>
        requires can { I.can_next durations }
        requires finite { IsFinite (I.remaining durations) }
        ensures some { IfSome result (λ sum. (xs : List SignedDuration)
            × Drains I.next_gives durations xs × (sum ≡ total xs) × HasPartialSums xs) }
        ensures none { IfNone result ((xs : List SignedDuration) × (rest : I)
            × Yields I.next_gives durations xs rest × ¬ (IsDuration (total xs))) }
    {
        let mut sum = SignedDuration::ZERO;
        for duration in durations {
            let Some(larger) = sum.checked_add(duration) else {
                return None;
            };
            sum = larger;
        }
        Some(sum)
    }
}
