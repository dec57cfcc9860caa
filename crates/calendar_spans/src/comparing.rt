//! Durations compare, and hash, as their nanoseconds.
ghost use Rattle.std.specs.Prelude.{◌≡◌, pos};
ghost use Rattle.std.proofs.Common.{rules};
ghost use Rattle.std.specs.Cmp.{partial_order_from_own_ties};
ghost use Rattle.std.specs.Cmp.Rules.{comparing, hashing};
ghost use Rattle.std.specs.Ordering.{int_eq, int_cmp, as_partial_cmp};
ghost use Rattle.std.specs.Hash as fed;

use crate::duration::SignedDuration;
use std::cmp::Ordering;
use std::hash::{Hash, Hasher};

impl Default for SignedDuration {
    ghost is_default = { λ d. d ≡ pos 0 };

    #[tactic(auto, unfolding(crate::specs::DurationParts::duration_nanos))]
    fn default() -> SignedDuration {
        SignedDuration::ZERO
    }
}

impl PartialEq for SignedDuration {
    ghost eq = { int_eq };

    ghost laws = { Prim.search (comparing, rules) };

    fn eq(&self, other: &SignedDuration) -> bool {
        self.whole_nanoseconds() == other.whole_nanoseconds()
    }
}

impl Eq for SignedDuration {
    ghost laws = { Prim.search (comparing, rules) };
}

impl Ord for SignedDuration {
    ghost cmp = { int_cmp };

    ghost total = { Prim.search (comparing, rules) };

    ghost matches_partial_cmp = { Prim.search (comparing, rules) };

    ghost matches_eq = { Prim.search (comparing, rules) };

    fn cmp(&self, other: &SignedDuration) -> Ordering {
        self.whole_nanoseconds().cmp(&other.whole_nanoseconds())
    }
}

impl PartialOrd for SignedDuration {
    ghost partial_cmp = { as_partial_cmp int_cmp };

    ghost laws = { partial_order_from_own_ties (Prim.search (comparing, rules))
        (Prim.search (comparing, rules)) };

    fn partial_cmp(&self, other: &SignedDuration) -> Option<Ordering> {
        Some(self.cmp(other))
    }
}

impl Hash for SignedDuration {
    ghost hash_input = { λ d. fed.i128 d };

    ghost respects_eq = { Prim.search (hashing, rules) };

    fn hash<H: Hasher>(&self, state: &mut H) {
        self.whole_nanoseconds().hash(state);
    }
}
