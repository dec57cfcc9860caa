//! The words that say a zone, a year, a time of day, a part of each line and a label.
ghost use Rattle.std.specs.Prelude.{◌≡◌, ◌∷◌, ◌==◌, ◌||◌, not, [], option_map, true, unwrap_or};
ghost use Rattle.std.specs.Result.{result_map_both};
ghost use Rattle.instants_words.specs.Pieces.{number_said};
ghost use Rattle.instants_lines_words.specs.Asked.{asking_of};
ghost use Rattle.instants_lines_words.specs.Part.{part_of};
ghost use Rattle.instants_lines_words.specs.Words.{asked_by, clock_minutes, column_said, finds_dates, has_label, is_field, is_zone_name, label_said, number_of_column, part_said, read_by, separator_said, time_said, year_said, zone_said};
ghost use Rattle.instants_lines_words.specs.Wrong.{Label, Time, Year, Zone, wrong_of};

use crate::asked::Asked;
use crate::filled::Parted;
use crate::line_part::LinePart;
use crate::mode::Mode;
use crate::wrong_words::WrongWords;
use instants_fields::Separator;
use instants_words::pieces::{limit, number};

const GREATEST_YEAR: u32 = 9999;

const YEAR_DIGITS: usize = 4;

// A year of four digits.
#[tactic(auto, using(std::proofs::lemmas::Bool::Decides::nat_tests), unfolding(crate::specs::Words::year_said))]
fn year(word: &str) -> Option<i32>
    ensures { result ≡ year_said word.now }
{
    if word.len() != YEAR_DIGITS {
        return None;
    }
    let year = number(word.as_bytes(), 0, GREATEST_YEAR, YEAR_DIGITS)?;
    Some(year as i32)
}

// The minutes of a clock.
fn clock(hours: &[u8], minutes: &[u8]) -> Option<u16>
    ensures { result ≡ clock_minutes (number_said 0 23 2 hours.now) (number_said 0 59 2 minutes.now) }
{
    let hours = number(hours, 0, 23, 2)?;
    let minutes = number(minutes, 0, 59, 2)?;
    Some((hours * 60 + minutes) as u16)
}

// A time of day `HH:MM`, in minutes.
#[tactic(auto, using(crate::proofs::AskedWords::time_five), unfolding(crate::specs::Words::time_said))]
fn time(word: &str) -> Option<u16>
    ensures { result ≡ time_said word.now }
{
    let [h, i, b':', m, n] = word.as_bytes() else {
        return None;
    };
    clock(&[*h, *i], &[*m, *n])
}

// The year that a word says, where there is one.
fn read_year(word: Option<&str>) -> Result<Option<i32>, WrongWords<'_>>
    ensures { result_map_both (λ year. year) wrong_of result
        ≡ read_by year_said Year (option_map (λ word. word.now) word.entry) }
{
    let Some(word) = word else {
        return Ok(None);
    };
    match year(word) {
        Some(year) => Ok(Some(year)),
        None => Err(WrongWords::Year(word)),
    }
}

// The time that a word says, where there is one.
fn read_time(word: Option<&str>) -> Result<Option<u16>, WrongWords<'_>>
    ensures { result_map_both (λ time. time) wrong_of result
        ≡ read_by time_said Time (option_map (λ word. word.now) word.entry) }
{
    let Some(word) = word else {
        return Ok(None);
    };
    match time(word) {
        Some(time) => Ok(Some(time)),
        None => Err(WrongWords::Time(word)),
    }
}

// Whether a word can be the name of a zone.
fn is_zone_name(word: &str) -> bool
    ensures { result ≡ is_zone_name word.now }
{
    zones::is_zone_name(word.as_bytes())
}

// Whether dates are found in lines in a mode, and not each line read as a whole.
fn finds_dates(mode: Mode) -> bool
    ensures { result ≡ finds_dates mode }
{
    match mode {
        Mode::Explain => false,
        Mode::Key | Mode::Carry | Mode::Replace | Mode::Locate => true,
    }
}

// The zone that a name says, where there is one.
fn read_zone<'a>(mode: Mode, name: Option<&'a str>) -> Result<Option<&'a str>, WrongWords<'a>>
    ensures { result_map_both (option_map (λ name. name.now)) wrong_of result
        ≡ read_by (zone_said mode) Zone (option_map (λ name. name.now) name.entry) }
{
    match name {
        Some(name) if !finds_dates(mode) || !is_zone_name(name) => Err(WrongWords::Zone(name)),
        other => Ok(other),
    }
}

// What stands between columns.
#[tactic(auto, using(crate::proofs::AskedWords::separator_none))]
fn separator(word: &str) -> Option<Separator>
    ensures { result ≡ separator_said word.now }
{
    match word.as_bytes() {
        [byte] => Separator::new(*byte),
        _ if word == "tab" => Separator::new(b'\t'),
        _ => None,
    }
}

// The number of a column.
fn column_number(mode: Mode, word: &str) -> Option<usize>
    ensures { result ≡ number_of_column mode word.now }
{
    if finds_dates(mode) {
        limit(word.as_bytes())
    } else {
        None
    }
}

// The column that words say.
fn read_column<'a>(
    mode: Mode,
    word: &'a str,
    separator_word: &'a str,
) -> Result<Option<LinePart<'a>>, WrongWords<'a>>
    ensures { result_map_both (option_map part_of) wrong_of result
        ≡ column_said mode word.now separator_word.now }
{
    let Some(number) = column_number(mode, word) else {
        return Err(WrongWords::Column(word));
    };
    match separator(separator_word) {
        Some(separator) => Ok(Some(LinePart::Column { number, separator })),
        None => Err(WrongWords::Separator(separator_word)),
    }
}

// The part that words say, where there are some.
fn read_part<'a>(
    mode: Mode,
    field: Option<&'a str>,
    column: Option<&'a str>,
    separator: Option<&'a str>,
) -> Result<Option<LinePart<'a>>, WrongWords<'a>>
    ensures { result_map_both (option_map part_of) wrong_of result ≡ part_said mode
        (option_map (λ word. word.now) field.entry)
        (option_map (λ word. word.now) column.entry)
        (option_map (λ word. word.now) separator.entry) }
{
    match (field, column, separator) {
        (None, None, None) => Ok(None),
        (Some(name), None, None) if finds_dates(mode) => Ok(Some(LinePart::Field(name))),
        (Some(name), None, None) => Err(WrongWords::Field(name)),
        (Some(_), Some(word), _) => Err(WrongWords::Column(word)),
        (None, Some(word), separator) => read_column(mode, word, separator.unwrap_or(",")),
        (_, None, Some(word)) => Err(WrongWords::Separator(word)),
    }
}

// Whether a label stands after the keys of a mode.
fn has_label(mode: Mode) -> bool
    ensures { result ≡ has_label mode }
{
    match mode {
        Mode::Key | Mode::Carry => true,
        Mode::Replace | Mode::Explain | Mode::Locate => false,
    }
}

// Whether no byte of a word is a tab or a line feed.
fn is_field(word: &str) -> bool
    ensures { result ≡ is_field word.now }
{
    word.as_bytes()
        .iter()
        .all(|byte| *byte != b'\t' && *byte != b'\n')
}

// The label that a word says, where there is one.
fn read_label<'a>(mode: Mode, word: Option<&'a str>) -> Result<Option<&'a str>, WrongWords<'a>>
    ensures { result_map_both (option_map (λ word. word.now)) wrong_of result
        ≡ read_by (label_said mode) Label (option_map (λ word. word.now) word.entry) }
{
    match word {
        Some(label) if !has_label(mode) || !is_field(label) => Err(WrongWords::Label(label)),
        other => Ok(other),
    }
}

/// What is asked in a mode, with the zone, the year, the time, the part and the label that words say.
pub fn read_asked<'a>(mode: Mode, parted: &Parted<'a, '_>) -> Result<Asked<'a>, WrongWords<'a>>
    ensures { result_map_both asking_of wrong_of result ≡ asked_by mode
        (option_map (λ word. word.now) parted.now.zone)
        (option_map (λ word. word.now) parted.now.year)
        (option_map (λ word. word.now) parted.now.time)
        (part_said mode (option_map (λ word. word.now) parted.now.field)
        (option_map (λ word. word.now) parted.now.column)
        (option_map (λ word. word.now) parted.now.separator))
        (option_map (λ word. word.now) parted.now.label) }
{
    let zone = match read_zone(mode, parted.zone) {
        Ok(zone) => zone,
        Err(wrong) => return Err(wrong),
    };
    let year = read_year(parted.year)?;
    let time = read_time(parted.time)?;
    let part = match read_part(mode, parted.field, parted.column, parted.separator) {
        Ok(part) => part,
        Err(wrong) => return Err(wrong),
    };
    match read_label(mode, parted.label) {
        Ok(label) => Ok(Asked {
            mode,
            zone,
            year,
            time,
            part,
            label,
        }),
        Err(wrong) => Err(wrong),
    }
}
