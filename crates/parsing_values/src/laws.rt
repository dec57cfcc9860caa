//! Laws that follow from the contracts, each the contract of a function here.
ghost use Rattle.std.specs.Prelude.{ℕ, ℤ};
ghost use Rattle.parsing_values.specs.declared.parts.MomentParts.{MomentParts};
ghost use Rattle.parsing_values.specs.declared.parts.OffsetParts.{OffsetParts};
ghost use Rattle.parsing_values.specs.Laws.{IsWhole, IsOneInstant};
ghost use Rattle.parsing_values.specs.NamedMoment.{named_moment, named_utc, named_timestamp};

/// Parts that name a date, a time of day and an offset, of which the calendar has the day in UTC, name one instant of
/// each kind, or none of any kind.
#[tactic(auto, using(crate::proofs::LawLemmas::one_instant))]
pub fn three_instants()
    ensures { (p : MomentParts) (o : OffsetParts) (date time : ℕ) (offset : ℤ)
        → IsWhole p o date time offset
        → IsOneInstant (named_moment p o) (named_utc p o) (named_timestamp p o) }
{}
