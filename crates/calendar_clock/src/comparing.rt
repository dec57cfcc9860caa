//! Times of day compare, and hash, as their nanoseconds since the day began.
ghost use Rattle.std.proofs.Common.{rules};
ghost use Rattle.std.specs.Prelude.{nat_eq};
ghost use Rattle.std.specs.Cmp.{partial_order_from_own_ties};
ghost use Rattle.std.specs.Cmp.Rules.{comparing, hashing};
ghost use Rattle.std.specs.Ordering.{nat_cmp, as_partial_cmp};
ghost use Rattle.std.specs.Hash as fed;

use crate::time::Time;
use std::cmp::Ordering;
use std::hash::{Hash, Hasher};

impl PartialEq for Time {
    ghost eq = { nat_eq };

    ghost laws = { Prim.search (comparing, rules) };

    fn eq(&self, other: &Time) -> bool {
        self.nanosecond_of_day() == other.nanosecond_of_day()
    }
}

impl Eq for Time {
    ghost laws = { Prim.search (comparing, rules) };
}

impl Ord for Time {
    ghost cmp = { nat_cmp };

    ghost total = { Prim.search (comparing, rules) };

    ghost matches_partial_cmp = { Prim.search (comparing, rules) };

    ghost matches_eq = { Prim.search (comparing, rules) };

    fn cmp(&self, other: &Time) -> Ordering {
        self.nanosecond_of_day().cmp(&other.nanosecond_of_day())
    }
}

impl PartialOrd for Time {
    ghost partial_cmp = { as_partial_cmp nat_cmp };

    ghost laws = { partial_order_from_own_ties (Prim.search (comparing, rules))
        (Prim.search (comparing, rules)) };

    fn partial_cmp(&self, other: &Time) -> Option<Ordering> {
        Some(self.cmp(other))
    }
}

impl Hash for Time {
    ghost hash_input = { λ t. fed.u64 t };

    ghost respects_eq = { Prim.search (hashing, rules) };

    fn hash<H: Hasher>(&self, state: &mut H) {
        self.nanosecond_of_day().hash(state);
    }
}
