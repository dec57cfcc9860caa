//! Exact fractions of hours, minutes and seconds.
ghost use Rattle.std.specs.Prelude.{◌≡◌, ◌≤◌, ◌<◌, length};
ghost use Rattle.parsing_combinator.specs.Pieces as Pieces;
ghost use Rattle.parsing_iso8601.specs.Fractions as Fractions;

/// The whole nanoseconds in a fraction of `unit` nanoseconds that these digits write.
///
/// From the last digit on, each digit takes what the digits after it leave: no number grows past ten units.
pub fn part_of(unit: u64, run: &[u8]) -> u64
    requires all { Pieces.digit_count run.now ≡ length run.now }
    requires some { 0 < unit }
    requires small { unit ≤ 3_600_000_000_000 }
    ensures value { result ≡ Fractions.part_of unit run.now }
    ensures bound { result < unit }
{
    let mut carried = 0;
    for place in (0..run.len()).rev() {
        carried = (u64::from(run[place] - b'0') * unit + carried) / 10;
    }
    carried
}

/// The same, to the nearest whole nanosecond, and from the middle between two to the greater one.
#[tactic(auto, using(crate::proofs::Carrying::rounded_by_halves))]
pub fn rounded_part_of(unit: u64, run: &[u8]) -> u64
    requires all { Pieces.digit_count run.now ≡ length run.now }
    requires some { 0 < unit }
    requires small { unit ≤ 1_800_000_000_000 }
    ensures value { result ≡ Fractions.rounded_part_of unit run.now }
    ensures bound { result ≤ unit }
{
    (part_of(2 * unit, run) + 1) / 2
}
