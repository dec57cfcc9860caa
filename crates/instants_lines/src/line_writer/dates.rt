//! The dates of lines as numbers, without a writer.
ghost use Rattle.std.specs.Prelude.{◌≡◌, false, None, Some};
ghost use Rattle.instants_lines.specs.Going.{below, goes_on};
ghost use Rattle.instants_lines.specs.LineDates.{numbered};
ghost use Rattle.instants_lines.specs.Writing.{going_of};
ghost use Rattle.instants_lines_words.specs.Part.{part_of};

use crate::date_sources::DateSources;
use crate::line_date::{LineDate, dated_by, part_dated, undated};
use crate::line_part::place_of_part;
use crate::line_writer::LineWriter;
use instants_lines_words::LinePart;
use instants_prefixes::Given;
use zones_clock::Zone;

impl<'a, 'b> LineWriter<'a, 'b> {
    // The date of a whole line.
    #[tactic(auto, unfolding(crate::specs::LineDates::numbered))]
    fn date_whole(&mut self, given: &Given<'_>, line: &[u8]) -> LineDate
        requires given { given.now ≡ (going_of self.old).search.given }
        requires own { goes_on (going_of self.old).mode (going_of self.old).indent line.now ≡ false }
        requires whole { (going_of self.old).search.part ≡ None }
        ensures date { result ≡ numbered (going_of self.old) line.now }
        ensures next { going_of self.new ≡ below (going_of self.old) line.now }
    {
        let dates: &DateSources<'_> = self.dates;
        let finding = dates.finder.find(given, line);
        let date = dated_by(dates, given, 0, line, &finding);
        let _key = self.take_key(line, finding);
        date
    }

    // The date of a part of a line.
    #[tactic(auto, using(crate::proofs::Keyed::below_none), unfolding(crate::specs::LineDates::numbered))]
    fn date_part(&mut self, given: &Given<'_>, part: &LinePart<'_>, line: &[u8]) -> LineDate
        requires given { given.now ≡ (going_of self.old).search.given }
        requires own { goes_on (going_of self.old).mode (going_of self.old).indent line.now ≡ false }
        requires part { (going_of self.old).search.part ≡ Some (part_of part.now) }
        ensures date { result ≡ numbered (going_of self.old) line.now }
        ensures next { going_of self.new ≡ below (going_of self.old) line.now }
    {
        let Some(place) = place_of_part(part, line) else {
            return undated();
        };
        let text = &line[place.start..place.end];
        let dates: &DateSources<'_> = self.dates;
        let found = dates.finder.find(given, text);
        let date = part_dated(dates, given, part, place.start, text, &found);
        let finding = dates.found_at(place.start, part, text, found);
        let _key = self.take_key(line, finding);
        date
    }

    /// The date of a line as numbers; what the lines below take of the line is kept.
    #[tactic(auto, using(crate::proofs::Keyed::below_none), unfolding(crate::specs::LineDates::numbered))]
    pub fn take_numbers(&mut self, line: &[u8]) -> LineDate
        ensures date { result ≡ numbered (going_of self.old) line.now }
        ensures next { going_of self.new ≡ below (going_of self.old) line.now }
    {
        if self.goes_on(line) {
            return undated();
        }
        let (dates, zone): (&DateSources<'_>, Option<&Zone>) = (self.dates, self.zone);
        let given = self.known.on(zone);
        match &dates.part {
            None => self.date_whole(&given, line),
            Some(part) => self.date_part(&given, part, line),
        }
    }
}
