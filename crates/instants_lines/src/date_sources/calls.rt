//! What dates are found by, and how their moments are written.
ghost use Rattle.std.specs.Prelude.{◌≡◌, ◌<◌, ◌≤◌, ◌+◌, ◌^◌, length, map, option_map, Ok, IfOk, IfSome};
ghost use Rattle.instants_prefixes.specs.DateSource.{grammar_in};
ghost use Rattle.instants_timeline.specs.Place.{place_text, shown_or_refused};
ghost use Rattle.instants_timeline.specs.Settings.{setting_of};
ghost use Rattle.instants_lines.specs.Lacking.{first_lacking};
ghost use Rattle.instants_found.specs.Within.{IsWithin};
ghost use Rattle.instants_lines.specs.Dates.{date_at, date_in};
ghost use Rattle.instants_lines.specs.Parts.{LiesIn, found_at, place_of_part};
ghost use Rattle.instants_lines.specs.Showing.{given_of, limit_in, part_in, search_in, setting_in};
ghost use Rattle.instants_lines_words.specs.Part.{part_of};

use crate::date_sources::DateSources;
use crate::known::Known;
use crate::lacking::Lacking;
use crate::line_part::{has_escape, moved, place_of_part};
use datetime_types::OffsetDateTime;
use instants_answers::{Answer, write_fields};
use instants_found::{Finder, Finding};
use instants_lines_words::LinePart;
use instants_prefixes::{DateSource, Given};
use instants_sources::Named;
use instants_timeline::{Timeline, answer_moment};
use std::alloc::{AllocError, Global};
use zones_clock::Zone;

// A part of its own.
fn own_part<'a>(part: &Option<LinePart<'a>>) -> Option<LinePart<'a>>
    ensures { option_map part_of result ≡ option_map part_of part.now }
{
    match part {
        Some(LinePart::Field(name)) => Some(LinePart::Field(name)),
        Some(LinePart::Column { number, separator }) => Some(LinePart::Column {
            number: *number,
            separator: *separator,
        }),
        None => None,
    }
}

impl<'a> DateSources<'a> {
    /// Looks for the sources of a timeline, in order, at so many first places of a line or of a part of it, and shows moments as it
    /// does.
    pub(crate) fn of_timeline(
        alloc: Global,
        timeline: Timeline<'a>,
        limit: usize,
        part: &Option<LinePart<'a>>,
    ) -> Result<DateSources<'a>, AllocError>
        ensures setting { IfOk result (λ dates. setting_in dates ≡ setting_of timeline.entry) }
        ensures limit { IfOk result (λ dates. limit_in dates ≡ limit) }
        ensures part { IfOk result (λ dates. part_in dates ≡ option_map part_of part.now) }
    {
        let (target, assumed) = (timeline.target(), timeline.assumed());
        let finder = Finder::new(alloc, timeline.into_sources(), limit)?;
        let part = own_part(part);
        Ok(DateSources {
            finder,
            part,
            assumed,
            target,
        })
    }

    /// What is found in the text of a part, by the places of a line in which that begins at this one.
    pub(crate) fn found_at(
        &self,
        at: usize,
        part: &LinePart<'_>,
        text: &[u8],
        found: Option<Finding>,
    ) -> Option<Finding>
        requires room { at + length text.now < 2 ^ 64 }
        requires within { IfSome found
            (IsWithin (limit_in self.now) text.now (length (setting_in self.now).sources)) }
        ensures found { result ≡ found_at at (part_of part.now) text.now found }
        ensures within { IfSome result
            (LiesIn (at + length text.now) (length (setting_in self.now).sources)) }
    {
        match found {
            None => None,
            Some(Finding::Doubtful(place)) => Some(Finding::Doubtful(at + place)),
            Some(Finding::There(date)) => {
                if has_escape(part, text, &date) {
                    return Some(Finding::Doubtful(at + date.start));
                }
                Some(Finding::There(moved(at, date)))
            }
        }
    }

    // The date of a part of a line, where the line has one. A call of its own, beside what looks in whole lines.
    #[inline(never)]
    fn find_in_part(&self, given: &Given, part: &LinePart<'_>, line: &[u8]) -> Option<Finding>
        ensures found { result ≡ date_at (search_in self.now given.now) (part_of part.now) line.now
            (place_of_part (part_of part.now) line.now) }
        ensures within { IfSome result
            (LiesIn (length line.now) (length (setting_in self.now).sources)) }
    {
        let place = place_of_part(part, line)?;
        let text = &line[place.start..place.end];
        let found = self.finder.find(given, text);
        self.found_at(place.start, part, text, found)
    }

    /// The date of a line, with what is given.
    #[inline(always)]
    pub(crate) fn find(&self, given: &Given, line: &[u8]) -> Option<Finding>
        ensures found { result ≡ date_in (search_in self.now given.now) line.now }
        ensures within { IfSome result
            (LiesIn (length line.now) (length (setting_in self.now).sources)) }
    {
        match &self.part {
            None => self.finder.find(given, line),
            Some(part) => self.find_in_part(given, part, line),
        }
    }

    /// The same with what is given on the clock of a zone.
    pub(crate) fn find_on(&self, known: Known, zone: Option<&Zone>, line: &[u8]) -> Option<Finding>
        ensures { result ≡ date_in (search_in self.now (given_of known zone.entry)) line.now }
    {
        let given = known.on(zone);
        self.find(&given, line)
    }

    // Writes a moment as an answer, in place of what that held. Of most dates the fields are written.
    #[cold]
    #[inline(never)]
    fn write_moment(&self, moment: OffsetDateTime, answer: &mut Answer)
        ensures bytes { answer.new ≡
            place_text (shown_or_refused (setting_in self.now).target (Ok moment)) }
        ensures room { length answer.new ≤ 63 }
    {
        *answer = answer_moment(self.target, moment);
    }

    /// Writes the moment of a date as an answer, in place of what that held: its date-time at the target, or `! year`.
    #[inline(always)]
    pub(crate) fn write_named(&self, named: &Named, answer: &mut Answer)
        ensures bytes { answer.new ≡
            place_text (shown_or_refused (setting_in self.now).target (Ok named.now)) }
        ensures room { length answer.new ≤ 63 }
    {
        if let Some(fields) = named.fields() {
            if write_fields(fields, self.target, answer) {
                return;
            }
        }
        self.write_moment(named.moment(), answer)
    }
}

/// The first of sources that can name no moment, with what is given; they are numbered from here on.
#[tactic(auto, unfolding(crate::specs::Lacking::first_lacking))]
pub(crate) fn first_lacking(
    sources: &[DateSource<'_>],
    number: usize,
    given: &Given,
) -> Option<Lacking>
    requires { number + length sources.now < 2 ^ 64 }
    ensures { result ≡ first_lacking given.now number (map grammar_in sources.now) }
{
    let (source, others) = sources.split_first()?;
    match source.lack(given) {
        Some(lack) => Some(Lacking {
            place: number,
            lack,
        }),
        None => first_lacking(others, number + 1, given),
    }
}
