//! What a rule's text answers.

use crate::telling::{Told, tell_no_answer, text_of};
use std::alloc::Global;
use zones::{Footer, Names, Step, Zone, read_rule};

// No name of a step is told.
const NAMES: Names = Names {
    standard: 0,
    summer: 1,
};

/// Tells a rule's names, its offset at a moment, and the first step after it.
pub fn tell_rule(alloc: Global, told: &mut String, text: &str, moment: &str) -> Told {
    let Ok(moment) = moment.parse() else {
        return tell_no_answer(told);
    };
    let Some(footer) = read_rule(text.as_bytes()) else {
        return told.push_str("no rule\n");
    };
    if !footer.rule.is_in_order() {
        return told.push_str("crossing\n");
    }
    tell_footer(told, &footer, moment)?;
    let mut zone = Zone::fixed(alloc, 0, 0, Vec::new(alloc));
    footer.rule.push_steps(NAMES, &mut zone, moment)?;
    tell_first(told, zone.steps.as_slice())
}

fn tell_footer(told: &mut String, footer: &Footer<'_>, moment: i64) -> Told {
    let standard_name = text_of(footer.standard_name);
    let summer_name = text_of(footer.summer_name);
    let offset = footer.rule.offset_at(moment);
    write!(told, "{standard_name}/{summer_name} {offset} ")
}

fn tell_first(told: &mut String, steps: &[Step]) -> Told {
    match steps.first() {
        Some(step) => writeln!(told, "until {} {}", step.from, step.offset),
        None => told.push_str("always\n"),
    }
}
