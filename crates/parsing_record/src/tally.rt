//! Counting the items that a reading begins.
ghost use Rattle.std.specs.Prelude.{◌+◌, ℕ};
ghost use Rattle.parsing_record.specs.Tally.{Tallied, tallied_none, tallied_more};

/// What is told of each item that a reading begins.
pub trait Tally {
    // So many items were begun between the two.
    ghost grows: { Self → Self → ℕ → Type 0 };

    /// An item is begun.
    fn begin(&mut self)
        ensures { grows self.old self.new 1 };

    ghost starts: { (x : Self) → grows x x 0 };

    ghost joins: { (x y z : Self) (n m : ℕ) → grows x y n → grows y z m → grows x z (n + m) };
}

/// No count.
#[derive(Clone, Copy, Debug)]
pub struct NoTally;

impl Tally for NoTally {
    ghost grows = { λ _ _ _. Unit {0} };

    ghost starts = { λ _. tt };

    ghost joins = { λ _ _ _ _ _ _ _. tt };

    #[inline(always)]
    fn begin(&mut self) {}
}

/// The number of items that were begun, or the greatest number where they are more.
#[derive(Clone, Copy, Debug)]
pub struct ItemTally {
    /// The number.
    pub count: u128,
}

impl Tally for ItemTally {
    ghost grows = { λ x y n. Tallied x.count y.count n };

    ghost starts = { λ x. tallied_none x.count };

    ghost joins = { λ x y z n m. tallied_more x.count y.count z.count n m };

    #[inline(always)]
    fn begin(&mut self) {
        self.count = self.count.saturating_add(1);
    }
}
