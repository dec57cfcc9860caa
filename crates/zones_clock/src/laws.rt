//! What the contracts of the other calls do not say by themselves.
ghost use Rattle.std.specs.Prelude.{ℤ, List};
ghost use Rattle.zones_clock.specs.declared.zone.Step.{Step};
ghost use Rattle.zones_clock.specs.Clock.{AreTheMoments, Shows};
ghost use Rattle.zones_clock.specs.AllMoments.{all_moments, moments_of, ListsInOrder};

/// The list of moments has, in order, just those at which a clock shows a reading: so the answer from it is the one that the
/// clock's relation wants.
pub fn moments_are_listed()
    ensures listed { (first reading : ℤ) (steps : List Step)
        → ListsInOrder (Shows first steps reading) (all_moments first steps reading) }
    ensures answer { (first reading : ℤ) (steps : List Step)
        → AreTheMoments first steps reading (moments_of first steps reading) }
{}
