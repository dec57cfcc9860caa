//! Zones from TZif files, RFC 9636.
ghost use Rattle.std.specs.Prelude.{◌≡◌, ◌+◌, ◌<◌, ◌++◌, length, IfOk, IfSome, OnOk, option_map};
ghost use Rattle.std.specs.Result.{result_err};
ghost use Rattle.zones_clock.specs.Steps.{offset_at};
ghost use Rattle.zones_rule.specs.Grammar.{footer_view};
ghost use Rattle.zones_rule.specs.Offsets.{AreOffsets};
ghost use Rattle.zones_rule.specs.Transitions.{FollowsFrom, LastHasBegun, AreYearsInOrder, offset_by_rule, steps_after};
ghost use Rattle.zones_file.specs.Footer.{ended, names_after};
ghost use Rattle.zones_file.specs.Zone.{FollowsFooter, first_type, footer_of_file, last_moment, letters_with, steps_with, table_steps, zone_letters, zone_steps};
ghost use Rattle.zones_file.specs.Faults.{Tells, fault_of, footer_fault, rule_fault};

use crate::fault::ZoneFault;
use crate::footer::read_footer;
use crate::layout::read_layout;
use crate::names::push_names;
use crate::table::read_table;
use std::alloc::Global;
use zones_clock::Zone;
use zones_rule::{Footer, Rule};

// The instant of the last step, or where there is none the earliest.
fn last_moment(zone: &Zone) -> i64
    ensures value { result ≡ last_moment zone.now.steps.items }
    ensures last { LastHasBegun zone.now.steps.items result }
{
    let count = zone.steps.len();
    if count == 0 {
        i64::MIN
    } else {
        zone.steps[count - 1].from
    }
}

// Whether a rule can follow a zone's steps.
#[tactic(auto, unfolding(crate::specs::Faults::rule_fault))]
fn check_rule(zone: &Zone, rule: &Rule, moment: i64) -> Result<(), ZoneFault>
    ensures fault { result_err result ≡ rule_fault rule.now moment (offset_at zone.now.first zone.now.steps.items moment) }
    ensures order { OnOk result (AreYearsInOrder rule.now) }
    ensures agrees { OnOk result (offset_at zone.now.first zone.now.steps.items moment ≡ offset_by_rule rule.now moment) }
{
    if !rule.is_in_order() {
        return Err(ZoneFault::Crossing);
    }
    if rule.offset_at(moment) != zone.offset_at(moment) {
        return Err(ZoneFault::Disagrees);
    }
    Ok(())
}

// Adds to the zone of a table what a footer says, if there is one.
fn add_footer(zone: &mut Zone, footer: Option<Footer<'_>>) -> Result<(), ZoneFault>
    requires { IfSome footer (λ footer. AreOffsets footer.rule) }
    ensures first { zone.new.first ≡ zone.old.first }
    ensures first_name { zone.new.first_name ≡ zone.old.first_name }
    ensures steps { OnOk result (zone.new.steps.items
        ≡ steps_with zone.old.steps.items zone.old.letters.items (option_map footer_view footer.entry)) }
    ensures letters { OnOk result (zone.new.letters.items ≡ letters_with zone.old.letters.items (option_map footer_view footer.entry)) }
    ensures fault { Tells result (footer_fault zone.old.first zone.old.steps.items (option_map footer_view footer.entry)) }
    ensures law { OnOk result (FollowsFooter (option_map footer_view footer.entry) (last_moment zone.old.steps.items) zone.new.first zone.new.steps.items) }
{
    let Some(footer) = footer else {
        return Ok(());
    };
    let moment = last_moment(zone);
    check_rule(zone, &footer.rule, moment)?;
    let names = push_names(zone, &footer)?;
    footer.rule.push_steps(names, zone, moment)?;
    Ok(())
}

/// The zone of a TZif file: the transitions of its table, and after them those that its footer's rule gives up to the year
/// 9999. A file of version 1 has no footer, and its clock stays as it is after the last transition.
#[tactic(auto, unfolding(crate::specs::Faults::fault_of))]
pub fn read_zone(alloc: Global, bytes: &[u8]) -> Result<Zone, ZoneFault>
    ensures first { IfOk result (λ zone. zone.first ≡ (first_type bytes.now).offset) }
    ensures first_name { IfOk result (λ zone. zone.first_name ≡ (first_type bytes.now).name) }
    ensures steps { IfOk result (λ zone. zone.steps.items ≡ zone_steps bytes.now) }
    ensures letters { IfOk result (λ zone. zone.letters.items ≡ zone_letters bytes.now) }

    // After the table the clock is as the rule says of each year.
    ensures law { IfOk result (λ zone. FollowsFooter (footer_of_file bytes.now) (last_moment (table_steps bytes.now)) zone.first zone.steps.items) }

    // A file without a fault is read, unless memory ends.
    ensures fault { Tells result (fault_of bytes.now) }
{
    let layout = read_layout(bytes)?;
    let mut zone = read_table(alloc, bytes, layout)?;
    let footer = read_footer(bytes, layout)?;
    add_footer(&mut zone, footer)?;
    Ok(zone)
}
