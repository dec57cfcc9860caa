//! The words after the mode, of which some may be left out.
ghost use Rattle.std.specs.Prelude.{◌≡◌, ◌∷◌, false, map, option_map, IfOk};
ghost use Rattle.instants_lines_words.specs.Filled.{assumed_after, assumed_by, assumed_in, as_offset, column_first, field_first, has_sign_or_digit, is_setting, is_utc, is_whole, label_first, limit_in, named_first, separator_first, setting_first, target_in, time_first, year_first, zone_by, zone_in, zone_named};
ghost use Rattle.instants_lines_words.specs.Spelled.{spelled_out};

use crate::spelled::spell_out;
use crate::zone::{is_zone, without_colon};
use std::alloc::{AllocError, Global};

// What is taken where a word is left out.
const TARGET: &str = "+00:00";

const ASSUMED: &str = "-";

const LIMIT: &str = "1048576";

/// What stands before the sources, or is taken where it is left out, and the sources.
#[derive(Clone, Copy)]
pub struct Parted<'a, 'b> {
    pub target: &'a str,
    pub assumed: &'a str,
    pub limit: &'a str,
    /// Whether none of these is left out.
    pub is_whole: bool,
    /// The name of the zone that stands in place of the assumed offset.
    pub zone: Option<&'a str>,
    /// The word after `year`, and those after the other names.
    pub year: Option<&'a str>,
    pub time: Option<&'a str>,
    pub field: Option<&'a str>,
    pub column: Option<&'a str>,
    pub separator: Option<&'a str>,
    pub label: Option<&'a str>,
    /// The words of the sources, with names of formats.
    pub sources: &'b [&'a str],
}

// Whether a word names UTC.
#[tactic(auto, unfolding(crate::specs::Filled::is_utc))]
fn is_utc(word: &str) -> bool
    ensures { result ≡ is_utc word.now }
{
    word == "Z" || word == "UTC"
}

// Whether a word begins with a sign or a digit.
#[tactic(auto, unfolding(crate::specs::Filled::has_sign_or_digit))]
fn has_sign_or_digit(word: &str) -> bool
    ensures { result ≡ has_sign_or_digit word.now }
{
    match word.as_bytes() {
        [first, ..] => *first == b'+' || *first == b'-' || first.is_ascii_digit(),
        [] => false,
    }
}

// Whether a word is an offset or a limit by its looks, and no source. `OFFSET` stands for an offset that is still to be said.
#[tactic(auto, unfolding(crate::specs::Filled::is_setting))]
fn is_setting(word: &str) -> bool
    ensures { result ≡ is_setting word.now }
{
    has_sign_or_digit(word) || is_utc(word) || word == "OFFSET"
}

// The first word, where it is such a word, and those after it.
fn setting_first<'a, 'b>(words: &'b [&'a str]) -> (Option<&'a str>, &'b [&'a str])
    ensures prefix { option_map (λ word. word.now) result.0
        ≡ (setting_first (map (λ word. word.now) words.now)).0 }
    ensures after { map (λ word. word.now) result.1.now
        ≡ (setting_first (map (λ word. word.now) words.now)).1 }
{
    let Some((word, after)) = words.split_first() else {
        return (None, words);
    };
    if is_setting(word) {
        (Some(word), after)
    } else {
        (None, words)
    }
}

// The offset that a word says where it names UTC, and else the word.
#[tactic(auto, unfolding(crate::specs::Filled::as_offset))]
fn as_offset(word: &str) -> &str
    ensures { result.now ≡ as_offset word.now }
{
    if is_utc(word) { TARGET } else { word }
}

// After a target the first word, where it is an offset or a zone, and those after it.
fn assumed_after<'a, 'b>(has_target: bool, words: &'b [&'a str]) -> (Option<&'a str>, &'b [&'a str])
    ensures prefix { option_map (λ word. word.now) result.0
        ≡ (assumed_after has_target (map (λ word. word.now) words.now)).0 }
    ensures after { map (λ word. word.now) result.1.now
        ≡ (assumed_after has_target (map (λ word. word.now) words.now)).1 }
{
    let Some((word, rest)) = words.split_first() else {
        return (None, words);
    };
    if has_target && (is_setting(word) || is_zone(word)) {
        (Some(word), rest)
    } else {
        (None, words)
    }
}

// The assumed offset that a word says: UTC for a zone, and none where there is no word.
fn assumed_by(word: Option<&str>) -> &str
    ensures { result.now ≡ assumed_by (option_map (λ word. word.now) word.entry) }
{
    match word {
        Some(word) if is_setting(word) => as_offset(word),
        Some(_) => TARGET,
        None => ASSUMED,
    }
}

// The name of the zone that a word says, where it is no offset.
fn zone_by(word: Option<&str>) -> Option<&str>
    ensures { option_map (λ word. word.now) result
        ≡ zone_by (option_map (λ word. word.now) word.entry) }
{
    match word {
        Some(word) if !is_setting(word) => Some(without_colon(word)),
        _ => None,
    }
}

// The word after a name that the words begin with, and those after it.
fn named_first<'a, 'b>(name: &str, words: &'b [&'a str]) -> (Option<&'a str>, &'b [&'a str])
    ensures prefix { option_map (λ word. word.now) result.0
        ≡ (named_first name.now (map (λ word. word.now) words.now)).0 }
    ensures after { map (λ word. word.now) result.1.now
        ≡ (named_first name.now (map (λ word. word.now) words.now)).1 }
{
    let Some((word, after)) = words.split_first() else {
        return (None, words);
    };
    if *word != name {
        return (None, words);
    }
    match after.split_first() {
        Some((said, others)) => (Some(said), others),
        None => (None, after),
    }
}

/// Parts the words after the mode.
#[tactic(auto, unfolding(crate::specs::Filled::target_in, crate::specs::Filled::assumed_first, crate::specs::Filled::assumed_in, crate::specs::Filled::zone_in, crate::specs::Filled::limit_in, crate::specs::Filled::is_whole, crate::specs::Filled::year_first, crate::specs::Filled::time_first, crate::specs::Filled::field_first, crate::specs::Filled::column_first, crate::specs::Filled::separator_first, crate::specs::Filled::label_first))]
pub fn part<'a, 'b>(words: &'b [&'a str]) -> Parted<'a, 'b>
    ensures target { result.target.now ≡ target_in (map (λ word. word.now) words.now) }
    ensures assumed { result.assumed.now ≡ assumed_in (map (λ word. word.now) words.now) }
    ensures limit { result.limit.now ≡ limit_in (map (λ word. word.now) words.now) }
    ensures whole { result.is_whole ≡ is_whole (map (λ word. word.now) words.now) }
    ensures zone { option_map (λ word. word.now) result.zone
        ≡ zone_in (map (λ word. word.now) words.now) }
    ensures year { option_map (λ word. word.now) result.year
        ≡ (year_first (map (λ word. word.now) words.now)).0 }
    ensures time { option_map (λ word. word.now) result.time
        ≡ (time_first (map (λ word. word.now) words.now)).0 }
    ensures field { option_map (λ word. word.now) result.field
        ≡ (field_first (map (λ word. word.now) words.now)).0 }
    ensures column { option_map (λ word. word.now) result.column
        ≡ (column_first (map (λ word. word.now) words.now)).0 }
    ensures separator { option_map (λ word. word.now) result.separator
        ≡ (separator_first (map (λ word. word.now) words.now)).0 }
    ensures label { option_map (λ word. word.now) result.label
        ≡ (label_first (map (λ word. word.now) words.now)).0 }
    ensures sources { map (λ word. word.now) result.sources.now
        ≡ (label_first (map (λ word. word.now) words.now)).1 }
{
    let (target, after_target) = setting_first(words);
    let (assumed, after_assumed) = assumed_after(target.is_some(), after_target);
    let (limit, after_limit) = setting_first(after_assumed);
    let (year, after_year) = named_first("year", after_limit);
    let (time, after_time) = named_first("time", after_year);
    let (field, after_field) = named_first("field", after_time);
    let (column, after_column) = named_first("column", after_field);
    let (separator, after_separator) = named_first("separator", after_column);
    let (label, sources) = named_first("label", after_separator);
    Parted {
        target: as_offset(target.unwrap_or(TARGET)),
        assumed: assumed_by(assumed),
        limit: limit.unwrap_or(LIMIT),
        is_whole: limit.is_some(),
        zone: zone_by(assumed),
        year,
        time,
        field,
        column,
        separator,
        label,
        sources,
    }
}

/// The name of the zone that stands in place of the assumed offset, where one does, whatever else is wrong with the words. The
/// mode stands in front of these.
#[tactic(auto, unfolding(crate::specs::Filled::zone_named))]
pub fn zone_named<'a>(words: &[&'a str]) -> Option<&'a str>
    ensures { option_map (λ word. word.now) result
        ≡ zone_named (map (λ word. word.now) words.now) }
{
    let (_, others) = words.split_first()?;
    part(others).zone
}

/// The words that `instants` has in place of these.
pub fn fill<'a>(alloc: Global, parted: &Parted<'a, '_>) -> Result<Vec<&'a str>, AllocError>
    ensures { IfOk result (λ words. map (λ word. word.now) words.items
        ≡ parted.now.target.now ∷ parted.now.assumed.now ∷ parted.now.limit.now
        ∷ spelled_out false (map (λ word. word.now) parted.now.sources.now)) }
{
    let mut words = Vec::from_slice(alloc, &[parted.target, parted.assumed, parted.limit])?;
    spell_out(false, parted.sources, &mut words)?;
    Ok(words)
}
