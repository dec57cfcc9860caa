//! Ranges that a strict reading asks for.
ghost use Rattle.std.specs.Prelude.{◌≡◌};
ghost use Rattle.parsing_combinator.specs.Readings as Readings;

/// Whether a number passes: a strict reading lets those from `low` to `high` pass, one that is not strict all.
#[inline(always)]
pub fn within(is_strict: bool, low: u8, high: u8, value: u8) -> bool
    ensures { result ≡ Readings.within is_strict low high value }
{
    !is_strict || (low <= value && value <= high)
}
