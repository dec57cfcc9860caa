//! The moment of a line, by the fast way or the exact one.
ghost use Rattle.std.specs.Prelude.{◌≡◌, ℕ, List, true, codes, Ok, Err, IfSome};
ghost use Rattle.std.specs.Result.{result_ok};
ghost use Rattle.datetime_wall.specs.Wall.{Shown};
ghost use Rattle.parsing_combinator.specs.Fault.{component};
ghost use Rattle.parsing_values.specs.Moment.{moment_of};
ghost use Rattle.instants_sources.specs.Grammar.{Grammar, grammar_of};
ghost use Rattle.instants_sources.specs.Grammar as grammar;
ghost use Rattle.instants_sources.specs.Named.{named, IsDirect, IsNamedBy, NamesNothing};
ghost use Rattle.instants_sources.specs.Planned.{IsPlanned};

use crate::ruled_out::{begins_no_day, begins_no_part, has_no_hyphen, has_no_space};
use crate::source::Source;
use calendar::UtcOffset;
use datetime_types::OffsetDateTime;
use parsing_parsable::laws::{one_road_of_iso8601, two_roads_of_rfc2822, two_roads_of_rfc3339};
use parsing_plan::Plan;
use parsing_values::Fields;

/// A well-known format names the moment that it reads from a line by itself, whatever offset is assumed.
#[inline(always)]
pub fn directly_named()
    ensures { (grammar : Grammar) (line : List ℕ) (moment : Shown) → IsDirect grammar line moment
        → IsNamedBy grammar line moment }
{
    two_roads_of_rfc2822();
    two_roads_of_rfc3339();
    one_road_of_iso8601();
}

// Whether the first bytes of a line show that RFC 2822 names no moment for it.
#[inline(always)]
fn is_no_rfc2822(line: &[u8]) -> bool
    ensures { result ≡ true → NamesNothing grammar.Rfc2822 line.now }
{
    two_roads_of_rfc2822();
    has_no_space(line) || begins_no_day(line)
}

/// Whether the first bytes of a line show that RFC 3339 names no moment for it: `false` says nothing of the line.
#[inline(always)]
pub fn is_no_rfc3339(line: &[u8]) -> bool
    ensures { result ≡ true → NamesNothing grammar.Rfc3339 line.now }
{
    two_roads_of_rfc3339();
    has_no_hyphen(line)
}

impl<'a> Source<'a> {
    /// Whether the first bytes of a line, or its length, show that this source names no moment for it, whatever offset is assumed:
    /// `false` says nothing of the line.
    #[inline(always)]
    pub fn cannot_match(&self, line: &[u8]) -> bool
        ensures { result ≡ true → NamesNothing (grammar_of self.now) line.now }
    {
        match self {
            Source::Items(described) | Source::V3(described) => described.cannot_match_whole(line),
            Source::Rfc2822 => is_no_rfc2822(line),
            Source::Rfc3339 => is_no_rfc3339(line),
            Source::Iso8601 => begins_no_part(line),
        }
    }

    /// Whether a line has no year where this source wants one first, which is then its fault: `false` says nothing of the
    /// line.
    #[inline(always)]
    pub fn has_no_year(&self, line: &[u8], assumed: Option<UtcOffset>) -> bool
        ensures { result ≡ true
            → named assumed (grammar_of self.now) line.now ≡ Err (component (codes "year")) }
    {
        match self {
            Source::Rfc3339 => assumed.is_none() && !parsing_rfc3339::begins_with_year(line),
            _ => false,
        }
    }

    /// The plan of a description, where it has one.
    #[inline(always)]
    pub fn plan(&self) -> Option<&Plan>
        ensures { IfSome result (λ plan. IsPlanned (grammar_of self.now) plan.now) }
    {
        match self {
            Source::Items(described) | Source::V3(described) => described.plan(),
            _ => None,
        }
    }

    /// The fields of the moment of a line, where the plan of a description finds them, with an offset assumed or none: `None`
    /// says nothing of the line.
    #[inline(always)]
    pub fn read_planned(&self, line: &[u8], assumed: Option<UtcOffset>) -> Option<Fields>
        ensures { IfSome result
            (λ fields. named assumed (grammar_of self.now) line.now ≡ Ok (moment_of fields)) }
    {
        let plan = self.plan()?;
        plan.read(line, assumed)
    }

    /// The fields of the moment of a line, where the fast way finds them, with an offset assumed or none: `None` says nothing
    /// of the line.
    #[inline(always)]
    pub fn read_fast(&self, line: &[u8], assumed: Option<UtcOffset>) -> Option<Fields>
        ensures { IfSome result
            (λ fields. named assumed (grammar_of self.now) line.now ≡ Ok (moment_of fields)) }
    {
        directly_named();
        match self {
            Source::Rfc2822 => parsing_rfc2822_shapes::read_fields(line),
            Source::Rfc3339 => parsing_rfc3339::read_fields(line),
            Source::Iso8601 => parsing_iso8601_shapes::read_fields(line),
            Source::Items(_) | Source::V3(_) => self.read_planned(line, assumed),
        }
    }

    /// The same of a line that hasn't the usual shape of a well-known format.
    #[inline(always)]
    pub fn read_other(&self, line: &[u8], assumed: Option<UtcOffset>) -> Option<Fields>
        ensures { IfSome result
            (λ fields. named assumed (grammar_of self.now) line.now ≡ Ok (moment_of fields)) }
    {
        directly_named();
        match self {
            Source::Rfc2822 => parsing_rfc2822_shapes::read_other_fields(line),
            Source::Rfc3339 => parsing_rfc3339::read_rare_fields(line),
            Source::Iso8601 => parsing_iso8601_shapes::read_fields(line),
            _ => self.read_planned(line, assumed),
        }
    }

    /// The moment that the whole line names, with an offset assumed or none, if it names one.
    pub fn moment(&self, line: &[u8], assumed: &Option<UtcOffset>) -> Option<OffsetDateTime>
        ensures { result ≡ result_ok (named assumed.now (grammar_of self.now) line.now) }
    {
        if self.cannot_match(line) {
            return None;
        }
        if let Some(fields) = self.read_fast(line, *assumed) {
            return Some(fields.moment());
        }
        match self.read_exact(line, *assumed) {
            Ok(moment) => Some(moment),
            Err(_) => None,
        }
    }
}
