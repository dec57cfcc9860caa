//! Plans of descriptions.
ghost use Rattle.std.specs.Prelude.{◌≡◌, map, IfSome, Option};
ghost use Rattle.description_items.specs.Tree.{listed, trees};
ghost use Rattle.description_tree.specs.Description.{v3_tree};
ghost use Rattle.parsing_combinator.specs.Tame.{EndsWith};
ghost use Rattle.parsing_components.specs.Component.{reads_component, reads_component_v3};
ghost use Rattle.parsing_values.specs.Moment.{moment_of};
ghost use Rattle.parsing_components.specs.Meaning.{Meaning};
ghost use Rattle.parsing_components.specs.Prefix.{NamesPrefix, beginning};
ghost use Rattle.parsing_components.specs.Reads.{reading, reading_of_all};
ghost use Rattle.parsing_components.specs.Whole.{whole, names};
ghost use Rattle.parsing_components.specs.Prefix.{NamesWhole};
ghost use Rattle.parsing_plan.specs.Plan.{HasAssumed, IsPlanOf, plan_of};

use crate::places::Places;
use crate::read::{SplitPlaces, WholePlaces};
use crate::unix::UnixTime;
use calendar::UtcOffset;
use description_items::BorrowedFormatItem;
use description_tree::FormatDescriptionV3;
use parsing_components::{Node, NodeStep};
use parsing_item_parts::{Listed, ListedAt};
use parsing_values::Fields;

/// How lines of a description are read at once.
#[derive(Clone, Copy)]
pub enum Plan {
    /// Each component where it stands.
    Places(Places),
    /// Unix time alone.
    Unix(UnixTime),
    /// A part after the other.
    Listed(Listed),
}

/// A plan, by the way in which its lines are read, with the offset that is assumed for them.
#[derive(Clone, Copy)]
pub enum PlanAt<'p> {
    /// The name of a month, an offset, and no other parts but numbers: `Places::read_plain`.
    Plain(&'p Places),
    /// Parts of fixed widths.
    Whole(WholePlaces<'p>),
    /// Numbers, with a fraction of any number of digits among them.
    Split(SplitPlaces<'p>),
    /// Unix time alone.
    Unix(&'p UnixTime),
    /// A part after the other.
    Listed(ListedAt<'p>),
    /// Any other, and where lines name no moment.
    Other(&'p Plan),
}

// The plan of items that are read one after the other.
fn plan_of<N: Node>(items: &[N]) -> Option<Plan>
    ensures { IfSome result
        (IsPlanOf (reading_of_all N.language (listed (map N.tree items.now)))) }
{
    if let Some(places) = Places::of_nodes(items) {
        return Some(Plan::Places(places));
    }
    if let Some(unix) = UnixTime::of_nodes(items) {
        return Some(Plan::Unix(unix));
    }
    let listed = Listed::of_nodes(items)?;
    Some(Plan::Listed(listed))
}

impl Plan {
    /// The plan of items that are read one after the other, as in versions 1 and 2 and in strftime.
    pub fn of_items(items: &[BorrowedFormatItem<'_>]) -> Option<Plan>
        ensures { IfSome result
            (IsPlanOf (reading_of_all reads_component (listed (trees items.now)))) }
    {
        plan_of(items)
    }

    /// The plan of a description of version 3.
    pub fn of_description(description: &FormatDescriptionV3<'_>) -> Option<Plan>
        ensures { IfSome result (IsPlanOf (reading reads_component_v3 (v3_tree description.now))) }
    {
        match description.inner().step() {
            NodeStep::Compound(nodes) => plan_of(nodes),
            _ => None,
        }
    }

    /// The plan, with an offset that is assumed or none, by the way in which its lines are read.
    pub fn at(&self, assumed: Option<UtcOffset>) -> PlanAt<'_>
        ensures plan { plan_of result ≡ self.now }
        ensures assumed { HasAssumed result assumed }
    {
        match self {
            Plan::Places(places) if places.is_plain() => PlanAt::Plain(places),
            Plan::Places(places) => match places.at(assumed) {
                Some(way) => way,
                None => PlanAt::Other(self),
            },
            Plan::Unix(unix) => PlanAt::Unix(unix),
            Plan::Listed(listed) => match listed.at(assumed) {
                Some(way) => PlanAt::Listed(way),
                None => PlanAt::Other(self),
            },
        }
    }

    /// The fields of a line that the plan finds, with an offset assumed or none, which counts only where the line has
    /// none: what the items of the plan read of the whole line names their moment. `None` says nothing of the line.
    #[inline(always)]
    pub fn read(&self, line: &[u8], assumed: Option<UtcOffset>) -> Option<Fields>
        ensures { NamesWhole (λ m. IsPlanOf m self.now) line.now assumed result }
    {
        match self {
            Plan::Places(places) => match places.read_prefix(line, assumed) {
                Some((fields, [])) => Some(fields),
                _ => None,
            },
            Plan::Unix(unix) => unix.read(line),
            Plan::Listed(listed) => listed.read(line, assumed),
        }
    }

    /// The fields of a prefix of a line that the plan finds, with an offset assumed or none, and what stands after that
    /// prefix: the items of the plan read it, and what they set names the moment of the fields. `None` says nothing of the
    /// line.
    #[inline(always)]
    pub fn read_prefix<'l>(
        &self,
        line: &'l [u8],
        assumed: Option<UtcOffset>,
    ) -> Option<(Fields, &'l [u8])>
        ensures prefix { (m : Meaning) → IsPlanOf m self.now → IfSome result
            (λ x. NamesPrefix m (beginning assumed) line.now x.1.now (moment_of x.0)) }
        ensures end { IfSome result (λ x. EndsWith line.now x.1.now) }
    {
        match self {
            Plan::Places(places) => places.read_prefix(line, assumed),
            Plan::Unix(_) => None,
            Plan::Listed(listed) => listed.read_prefix(line, assumed),
        }
    }
}
