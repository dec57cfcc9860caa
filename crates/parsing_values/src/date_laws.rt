//! Laws that follow from the definitions, each the contract of a function here.
ghost use Rattle.std.specs.Prelude.{ℕ, ℤ, ◌<◌};
ghost use Rattle.calendar_count.specs.TheDay.{is_day_of};
ghost use Rattle.parsing_values.specs.NamedDay.{is_ordinal_day, is_iso_day, is_week_day};
ghost use Rattle.parsing_values.specs.DateLaws.{HasOneDay};

/// What names a day names no other.
#[tactic(auto, using(crate::proofs::DateLawLemmas::one_of_month, crate::proofs::DateLawLemmas::one_ordinal, crate::proofs::DateLawLemmas::one_iso, crate::proofs::DateLawLemmas::one_week))]
pub fn one_day()
    ensures month { (year : ℤ) (month day : ℕ) → HasOneDay (is_day_of year month day) }
    ensures ordinal { (year : ℤ) (ordinal : ℕ) → HasOneDay (is_ordinal_day year ordinal) }
    ensures iso_week { (year : ℤ) (week weekday : ℕ) → HasOneDay (is_iso_day year week weekday) }
    ensures week { (begin : ℕ) (year : ℤ) (week weekday : ℕ) → begin < 7
        → HasOneDay (is_week_day begin year week weekday) }
{}
