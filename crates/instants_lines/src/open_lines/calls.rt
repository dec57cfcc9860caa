//! What words ask of lines, made ready once.
ghost use Rattle.std.specs.Prelude.{◌≡◌, ◌<◌, ◌≤◌, ◌+◌, ◌^◌, length, map, option_map, is_some, None, Some, Ok, Err, Option, IsOk, IfOk, IfErr};
ghost use Rattle.std.specs.Borrow.{Bor};
ghost use Rattle.zones_clock.specs.declared.zone.Zone.{Zone};
ghost use Rattle.instants_words.specs.declared.words.Words.{Words};
ghost use Rattle.instants_timeline.specs.Place.{Setting};
ghost use Rattle.instants_timeline.specs.Sources.{IsRefusal};
ghost use Rattle.instants_faults.specs.declared.new_fault.NewFault.{NewFault};
ghost use Rattle.instants_faults.specs.declared.program_fault.ProgramFault.{ProgramFault};
ghost use Rattle.instants_lines_words.specs.Asked.{Asking, asking_of};
ghost use Rattle.instants_lines_words.specs.Part.{part_of};
ghost use Rattle.instants_lines_words.specs.Words.{mode_words_said};
ghost use Rattle.instants_lines_words.specs.Wrong.{Wrong};
ghost use Rattle.instants_lines.specs.Asked.{given_by, zone_asked, zone_lacking};
ghost use Rattle.instants_lines.specs.Going.{has_keys, reach, room};
ghost use Rattle.instants_lines.specs.Lacking.{lacking_in};
ghost use Rattle.instants_lines.specs.Opened.{begins_in, label_in};
ghost use Rattle.instants_lines.specs.Showing.{given_of, limit_in, part_in, search_in};
ghost use Rattle.instants_lines.specs.Writing.{going_of};
ghost use Rattle.instants_lines.specs.Program.{AsksFor, IsBeforeRun, IsMemory, IsOfWords, IsReportedAs, wrong_in};
ghost use Rattle.instants_lines.specs.declared.lacking.Lacking.{Lacking};

use crate::date_sources::{DateSources, first_lacking};
use crate::known::Known;
use crate::lacking::Lacking;
use crate::line_part::LONGEST;
use crate::line_writer::LineWriter;
use crate::lines_fault::LinesFault;
use crate::open_lines::OpenLines;
use calendar::UtcOffset;
use instants_lines_words::{Asked, LinePart, Mode, read_mode_words};
use instants_prefixes::Years;
use instants_timeline::asked_timeline;
use std::alloc::Global;
use zones_clock::Zone;

// The first source that can name no moment.
fn lacking_by(dates: &DateSources<'_>, known: Known, zone: Option<&Zone>) -> Option<Lacking>
    ensures { result ≡ lacking_in (search_in dates.now (given_of known zone.entry)) }
{
    let given = known.on(zone);
    first_lacking(dates.finder.sources(), 1, &given)
}

// The name of the zone that is asked for, where none is there.
fn zone_lacking<'a>(name: Option<&'a str>, zone: Option<&Zone>) -> Option<&'a str>
    ensures { option_map (λ text. text.now) result
        ≡ zone_lacking (option_map (λ text. text.now) name.entry) zone.entry }
{
    match (name, zone) {
        (Some(name), None) => Some(name),
        (Some(_), Some(_)) | (None, _) => None,
    }
}

// What is given for dates that lack it, beside a zone.
fn known_by(asked: &Asked<'_>, assumed: Option<UtcOffset>) -> Known
    ensures { (setting : Setting) (there : Option (Bor Zone)) → setting.assumed ≡ assumed
        → given_of result (zone_asked (asking_of asked.now).zone there)
        ≡ given_by (asking_of asked.now) there setting }
{
    let years = match asked.year {
        Some(year) => Years::In(year),
        None => Years::Unknown,
    };
    Known {
        offset: assumed,
        years,
        time: asked.time,
    }
}

// The greatest length of lines for which there is room.
fn room(part: &Option<LinePart<'_>>, limit: usize) -> usize
    ensures room { result ≡ room (option_map part_of part.now) limit }
    ensures few { limit ≤ 1_048_576 → result ≤ 1_048_576 }
{
    match part {
        None => limit,
        Some(_) => LONGEST,
    }
}

// How many bytes of a line are looked at, beside one more, where there is room for so many.
fn reach(mode: Mode, part: &Option<LinePart<'_>>, most: usize) -> usize
    requires { most + 320 < 2 ^ 64 }
    ensures reach { result ≡ reach mode (option_map part_of part.now) most }
    ensures few { result ≤ most + 320 }
{
    match (part, mode) {
        (Some(_), _) | (None, Mode::Explain) => most,
        (None, Mode::Key | Mode::Carry | Mode::Replace | Mode::Locate) => most + 320,
    }
}

impl<'a> OpenLines<'a> {
    /// Makes ready what the words of `run_words` ask for. All words are looked at, and all memory is taken.
    pub fn of_words(
        alloc: Global,
        words: &[&'a str],
        zone: Option<&Zone>,
    ) -> Result<OpenLines<'a>, LinesFault<'a>>
        // It is what the words ask for, by whatever reference to a zone, where one is there.
        ensures asks { IfOk result (λ lines. (there : Option (Bor Zone))
            → is_some there ≡ is_some zone.entry
            → AsksFor (map (λ word. word.now) words.now) there (begins_in lines there)) }
        // Each source can name a moment.
        ensures names { IfOk result (λ lines. lacking_in (begins_in lines zone.entry).search ≡ None) }
        // The first source that can name none is refused with what it lacks.
        ensures lacks { (lacking : Lacking) → result ≡ Err (LinesFault.Lacks lacking)
            → (going : _) × AsksFor (map (λ word. word.now) words.now) zone.entry going
            × (lacking_in going.search ≡ Some lacking) }
        // A zone that the words name is wanted.
        ensures zone { (name : _) → result ≡ Err (LinesFault.Zone name)
            → (asked : Asking) × (said : Words)
            × (mode_words_said (map (λ word. word.now) words.now) ≡ Ok (asked, said))
            × (zone_lacking asked.zone zone.entry ≡ Some name.now) }
        // Words that are wrong are refused.
        ensures refused { (wrong : Wrong)
            → mode_words_said (map (λ word. word.now) words.now) ≡ Err wrong
            → wrong_in result ≡ Some wrong }
        // No others are refused as wrong.
        ensures only_wrong { IfErr result (λ fault. IsOfWords fault
            → IsReportedAs (map (λ word. word.now) words.now) fault) }
        // A source that is no description is refused by its place and its fault; it is the first such one.
        ensures new { (fault : NewFault) → result ≡ Err (LinesFault.Program (ProgramFault.New fault))
            → (asked : Asking) × (said : Words)
            × (mode_words_said (map (λ word. word.now) words.now) ≡ Ok (asked, said))
            × IsRefusal said.sources fault }
        ensures memory { IfErr result (λ fault.
            IsMemory fault → IsOk (mode_words_said (map (λ word. word.now) words.now))) }
        // Nothing was read or written.
        ensures before { IfErr result IsBeforeRun }
    {
        let (asked, filled) = read_mode_words(alloc, words)?;
        if let Some(name) = zone_lacking(asked.zone, zone) {
            return Err(LinesFault::Zone(name));
        }
        let (timeline, limit) = asked_timeline(alloc, filled.as_slice())?;
        let known = known_by(&asked, timeline.assumed());
        let most = room(&asked.part, limit);
        let dates = DateSources::of_timeline(alloc, timeline, limit, &asked.part)?;
        let lines = OpenLines {
            mode: asked.mode,
            label: asked.label,
            zone: asked.zone,
            known,
            dates,
            most,
        };
        if let Some(lacking) = lines.lacking(zone) {
            return Err(LinesFault::Lacks(lacking));
        }
        Ok(lines)
    }

    // The first source that can name no moment.
    fn lacking(&self, zone: Option<&Zone>) -> Option<Lacking>
        ensures { result ≡ lacking_in (begins_in self.now zone.entry).search }
    {
        lacking_by(&self.dates, self.known, self.zone_of(zone))
    }

    // The zone on whose clock dates are, where the words name one.
    fn zone_of<'z>(&self, zone: Option<&'z Zone>) -> Option<&'z Zone>
        ensures { result ≡ zone_asked (option_map (λ text. text.now) self.now.zone) zone.entry }
    {
        match self.zone {
            Some(_) => zone,
            None => None,
        }
    }

    /// What writes lines as the words ask, from the beginning on.
    pub fn writer<'s>(&'s self, zone: Option<&'s Zone>) -> LineWriter<'s, 'a>
        ensures { going_of result ≡ begins_in self.now zone.entry }
    {
        LineWriter::new(
            self.mode,
            self.label,
            &self.dates,
            self.known,
            self.zone_of(zone),
        )
    }

    /// Whether lines are written after their keys.
    pub fn has_keys(&self) -> bool
        ensures { result ≡ has_keys self.now.mode }
    {
        matches!(self.mode, Mode::Key | Mode::Carry)
    }

    /// The label of the lines.
    pub fn label(&self) -> Option<&'a str>
        ensures { option_map (λ text. text.now) result ≡ label_in self.now }
    {
        self.label
    }

    // The greatest length of lines for which there is room.
    pub(crate) fn most(&self) -> usize
        ensures room { result ≡ room (part_in self.now.dates) (limit_in self.now.dates) }
        ensures few { result ≤ 1_048_576 }
    {
        self.most
    }

    // How many bytes of a line are looked at, beside one more, where there is room for so many.
    pub(crate) fn reach(&self, most: usize) -> usize
        requires { most + 320 < 2 ^ 64 }
        ensures reach { result ≡ reach self.now.mode (part_in self.now.dates) most }
        ensures few { result ≤ most + 320 }
    {
        reach(self.mode, &self.dates.part, most)
    }
}
