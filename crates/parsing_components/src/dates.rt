//! Months and weekdays by their numbers.
ghost use Rattle.std.specs.Prelude.{◌≡◌, List, true, option_and_then};
ghost use Rattle.parsing_combinator.specs.Pieces.{cut_view};
ghost use Rattle.parsing_combinator.specs.Shape.{taken, digits_between};
ghost use Rattle.parsing_combinator.specs.Numbers.{padded};
ghost use Rattle.calendar_count.specs.declared.weekday.Weekday.{Weekday};
ghost use Rattle.parsing_components.specs.Ranged.{says, entry, counted, months, week};

use crate::ranged::two;
use calendar_count::{Month, Weekday};
use description_items::modifier::Padding;
use parsing_combinator::digits_between;

/// The month of a number.
#[inline(always)]
#[tactic(auto, using(crate::proofs::Entries::month_entry, crate::proofs::Entries::no_month))]
pub(crate) fn month_number(padding: Padding, bytes: &[u8]) -> Option<(Month, &[u8])>
    ensures { cut_view result ≡ says (counted true months) (taken (padded padding 2 2)) bytes.now }
{
    let (n, rest) = two(padding, 0, 99, bytes)?;
    if n < 1 || n > 12 {
        return None;
    }
    Some((Month::from_number(n), rest))
}

// The day of the week so many days after its first one, Sunday or Monday.
#[tactic(auto, using(crate::proofs::Entries::week_entry, crate::proofs::Entries::past_week))]
fn day_after(is_from_sunday: bool, n: u32) -> Option<Weekday>
    ensures { result ≡ entry (week is_from_sunday) n }
{
    if n > 6 {
        return None;
    }
    let after_monday = if is_from_sunday { (n + 6) % 7 } else { n };
    Some(Weekday::from_number(after_monday as u8))
}

// The days after the first one of the week that a number counts from 1 or from 0.
#[tactic(auto, using(crate::proofs::Entries::counted_from_one, crate::proofs::Entries::counted_none))]
fn days_counted(one_indexed: bool, n: u32) -> Option<u32>
    ensures { (days : List Weekday)
        → counted one_indexed days n ≡ option_and_then (entry days) result }
{
    if !one_indexed {
        return Some(n);
    }
    if n == 0 { None } else { Some(n - 1) }
}

/// The weekday of a number that counts from Sunday, or from Monday.
#[inline(always)]
pub(crate) fn weekday_number(
    is_from_sunday: bool,
    one_indexed: bool,
    bytes: &[u8],
) -> Option<(Weekday, &[u8])>
    ensures { cut_view result
        ≡ says (counted one_indexed (week is_from_sunday)) (taken (digits_between 1 1)) bytes.now }
{
    let (n, rest) = digits_between(1, 1, bytes)?;
    let weekday = day_after(is_from_sunday, days_counted(one_indexed, n)?)?;
    Some((weekday, rest))
}
