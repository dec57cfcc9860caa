//! Descriptions, with the bytes that their lines begin with, and a plan where all parts have fixed widths.
ghost use Rattle.std.specs.Prelude.{◌≡◌, true, false, None, IfSome};
ghost use Rattle.std.specs.Option.{ForSome};
ghost use Rattle.std.specs.Result.{result_ok};
ghost use Rattle.parsing_item_layouts.specs.FirstBounds.{AreBoundsOf, ReadsNoneWhole};
ghost use Rattle.parsing_item_layouts.specs.FirstBytes.{AreOf, IsRefusedAt};
ghost use Rattle.parsing_combinator.specs.Tame.{EndsWith};
ghost use Rattle.parsing_values.specs.Moment.{moment_of};
ghost use Rattle.parsing_plan.specs.Plan.{IsPlanOf};
ghost use Rattle.parsing_record.specs.Prefix.{NamesPrefix};
ghost use Rattle.parsing_components.specs.declared.fields.Record.{Record};
ghost use Rattle.instants_sources.specs.Written.{reads_written, written};

use calendar::UtcOffset;
use description::Description;
use parsing_item_layouts::{FirstBounds, FirstBytes};
use parsing_plan::Plan;
use parsing_values::Fields;

/// A description that reads a line: items, one after the other, or a tree of version 3.
#[derive(Drop)]
pub struct Described<'a> {
    description: Description<'a>,
    first_bytes: FirstBytes,
    first_bounds: FirstBounds,
    plan: Option<Plan>,
    ghost first: { AreOf (reads_written (written description)) first_bytes },
    ghost bounds: { AreBoundsOf (reads_written (written description)) first_bounds },
    ghost planned: { ForSome plan (IsPlanOf (reads_written (written description))) },
}

// The bytes that can stand at the first places of its lines.
fn first_bytes_of(description: &Description<'_>) -> FirstBytes
    ensures { AreOf (reads_written (written description.now)) result }
{
    match description {
        Description::Items(items) => FirstBytes::of_items(items),
        Description::V3(tree) => FirstBytes::of_description(tree),
    }
}

// The ranges of the first bytes of its lines, and how long those are.
fn first_bounds_of(description: &Description<'_>) -> FirstBounds
    ensures { AreBoundsOf (reads_written (written description.now)) result }
{
    match description {
        Description::Items(items) => FirstBounds::of_items(items),
        Description::V3(tree) => FirstBounds::of_description(tree),
    }
}

// The plan of its lines, where it has one.
fn plan_of(description: &Description<'_>) -> Option<Plan>
    ensures { IfSome result (IsPlanOf (reads_written (written description.now))) }
{
    match description {
        Description::Items(items) => Plan::of_items(items),
        Description::V3(tree) => Plan::of_description(tree),
    }
}

impl<'a> Described<'a> {
    ghost use Rattle.parsing_record.specs.Prefix.{beginning};

    pub(crate) fn new(description: Description<'a>) -> Described<'a>
        ensures { result.description ≡ description.entry }
    {
        Described {
            first_bytes: first_bytes_of(&description),
            first_bounds: first_bounds_of(&description),
            plan: plan_of(&description),
            description,
        }
    }

    /// The description.
    #[inline(always)]
    pub fn description(&self) -> &Description<'a>
        ensures { result.now ≡ self.now.description }
    {
        &self.description
    }

    /// The bytes that can stand at the first places of its lines.
    #[inline(always)]
    pub fn first_bytes(&self) -> &FirstBytes
        ensures { AreOf (reads_written (written self.now.description)) result.now }
    {
        &self.first_bytes
    }

    /// The plan of its lines, where it has one.
    #[inline(always)]
    pub(crate) fn plan(&self) -> Option<&Plan>
        ensures { IfSome result
            (λ plan. IsPlanOf (reads_written (written self.now.description)) plan.now) }
    {
        match &self.plan {
            Some(plan) => Some(plan),
            None => None,
        }
    }

    /// The fields of a prefix of a line that the description reads, where a plan finds them, with an offset assumed or none,
    /// and what stands after that prefix: `None` says nothing of the line.
    #[inline(always)]
    pub fn read_prefix<'l>(
        &self,
        line: &'l [u8],
        assumed: Option<UtcOffset>,
    ) -> Option<(Fields, &'l [u8])>
        ensures prefix { IfSome result (λ x. NamesPrefix
            (reads_written (written self.now.description))
            (beginning assumed) line.now x.1.now (moment_of x.0)) }
        ensures end { IfSome result (λ x. EndsWith line.now x.1.now) }
    {
        match self.plan() {
            Some(plan) => plan.read_prefix(line, assumed),
            None => None,
        }
    }

    /// Whether the first bytes of a line show that the description doesn't read it.
    #[inline(always)]
    pub fn cannot_match(&self, line: &[u8]) -> bool
        ensures { result ≡ true → (r : Record)
            → result_ok (reads_written (written self.now.description) r line.now) ≡ None }
    {
        self.first_bytes.rule_out(line) || self.first_bounds.rule_out(line)
    }

    /// Whether its first bytes or its length show that the description doesn't read a line as a whole.
    #[inline(always)]
    pub(crate) fn cannot_match_whole(&self, line: &[u8]) -> bool
        ensures { result ≡ true
            → ReadsNoneWhole (reads_written (written self.now.description)) line.now }
    {
        self.first_bytes.rule_out(line) || self.first_bounds.rule_out_whole(line)
    }

    /// Whether a line that the description reads can begin with a byte: `true` says nothing of the line.
    pub fn can_begin(&self, byte: u8) -> bool
        ensures { result ≡ false
            → IsRefusedAt (reads_written (written self.now.description)) 0 byte }
    {
        self.first_bytes.can_stand(0, byte)
    }
}
