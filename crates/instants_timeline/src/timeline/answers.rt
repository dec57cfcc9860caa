//! The answers of a timeline to lines, each written where it is to lie: at the start of a room of at least 64 bytes, with its
//! line feed.
ghost use Rattle.std.specs.Prelude.{◌≡◌, ◌≢◌, ◌<◌, ◌≤◌, ◌+◌, ◌∷◌, codes, drop, length, pos, None, Ok, IfSome};
ghost use Rattle.std.specs.Option.{option_map};
ghost use Rattle.std.specs.Result.{result_ok};
ghost use Rattle.parsing_combinator.specs.FaultOf.{fault_of};
ghost use Rattle.parsing_combinator.specs.ShortName.{HasShortName};
ghost use Rattle.parsing_values.specs.Moment.{moment_of};
ghost use Rattle.parsing_rfc3339.specs.Direct.{direct};
ghost use Rattle.parsing_rfc3339.specs.Whole.{IsLikeWhole};
ghost use Rattle.instants_answers.specs.Line.{HoldsLine};
ghost use Rattle.instants_sources.specs.Grammar.{grammar_of};
ghost use Rattle.instants_sources.specs.Grammar as grammar;
ghost use Rattle.instants_sources.specs.Named.{named};
ghost use Rattle.instants_timeline.specs.FirstNamed.{HoldsAnswer, IsFirstFault, IsLedBy, NamesFrom};
ghost use Rattle.instants_timeline.specs.Place.{answer_to, first_named, place_text, shown_or_refused};
ghost use Rattle.instants_timeline.specs.Settings.{setting_of};

use crate::shown::answer_moment;
use crate::timeline::Timeline;
use crate::timeline::search::none_kept;
use datetime_types::OffsetDateTime;
use instants_answers::{Answer, fill_fields, fill_text};
use instants_faults::{LineFault, fill_no_year};
use instants_sources::{Named, Source, directly_named};
use parsing_combinator::Parse;
use parsing_plan::Plan;
use parsing_values::Fields;

impl Timeline<'_> {
    // Writes a moment as it is shown at the target, or that its year there is not written. A call of its own, since few are
    // read the exact way, and few that fields name have a day that is counted.
    #[cold]
    #[inline(never)]
    fn fill_shown(&self, named: OffsetDateTime, room: &mut [u8]) -> usize
        requires { 64 ≤ length room.old }
        ensures line { HoldsLine (place_text (shown_or_refused (setting_of self.now).target
            (Ok named))) result room.new }
        ensures size { length room.new ≡ length room.old }
    {
        answer_moment(self.target, named).fill_line(room)
    }

    // Writes the moment that fields name: nearly all are written with no day counted.
    #[inline(always)]
    fn fill_moved(&self, fields: Fields, room: &mut [u8]) -> usize
        requires { 64 ≤ length room.old }
        ensures line { HoldsLine (place_text (shown_or_refused (setting_of self.now).target
            (Ok (moment_of fields)))) result room.new }
        ensures size { length room.new ≡ length room.old }
    {
        match fill_fields(&fields, self.target, room) {
            Some(len) => len,
            None => self.fill_shown(fields.moment(), room),
        }
    }

    // Writes the moment that fields name, if they were found.
    #[inline(always)]
    pub(super) fn fill_found(&self, found: Option<Fields>, room: &mut [u8]) -> Option<usize>
        requires { 64 ≤ length room.old }
        ensures line { IfSome result (λ len.
            HoldsAnswer (setting_of self.now) (option_map moment_of found) len room.new) }
        ensures size { length room.new ≡ length room.old }
    {
        let Some(fields) = found else {
            return None;
        };
        Some(self.fill_moved(fields, room))
    }

    // Writes the moment that a line in UTC names in RFC 3339 with nine digits of a fraction, where the target is UTC: the line is
    // its answer. The line's length and its end are known where it is read here.
    #[inline(always)]
    fn fill_whole(&self, line: &[u8], room: &mut [u8]) -> Option<usize>
        requires room { 64 ≤ length room.old }
        requires target { (setting_of self.now).target ≡ pos 0 }
        requires whole { IsLikeWhole line.now }
        ensures line { IfSome result (λ len.
            HoldsAnswer (setting_of self.now) (result_ok (direct line.now)) len room.new) }
        ensures size { length room.new ≡ length room.old }
    {
        let fields = parsing_rfc3339::read_usual_fields(line)?;
        Some(fill_text(&fields, line, room))
    }

    // Writes the moment that a line names by the usual shapes of RFC 3339.
    #[inline(always)]
    pub(super) fn fill_usual_rfc3339(&self, line: &[u8], room: &mut [u8]) -> Option<usize>
        requires { 64 ≤ length room.old }
        ensures line { IfSome result (λ len.
            HoldsAnswer (setting_of self.now) (result_ok (direct line.now)) len room.new) }
        ensures size { length room.new ≡ length room.old }
    {
        if parsing_rfc3339::is_like_whole(line) && self.target.is_utc() {
            return self.fill_whole(line, room);
        }
        let fields = parsing_rfc3339::read_usual_fields(line)?;
        Some(self.fill_moved(fields, room))
    }

    // Writes the answer to a line by the usual shapes of a source, compiled into the caller: `None` says nothing of the line.
    #[inline(always)]
    fn fill_usual(&self, source: &Source, line: &[u8], room: &mut [u8]) -> Option<usize>
        requires { 64 ≤ length room.old }
        ensures line { IfSome result (λ len. HoldsAnswer (setting_of self.now) (result_ok
            (named (setting_of self.now).assumed (grammar_of source.now) line.now)) len room.new) }
        ensures size { length room.new ≡ length room.old }
    {
        directly_named();
        match source {
            Source::Rfc2822 => self.fill_found(
                parsing_rfc2822_shapes::read_usual_fields(line),
                room,
            ),
            Source::Rfc3339 => self.fill_found(parsing_rfc3339::read_usual_fields(line), room),
            Source::Iso8601 => self.fill_found(
                parsing_iso8601_shapes::read_usual_fields(line),
                room,
            ),
            Source::Items(_) | Source::V3(_) => match source.plan() {
                Some(Plan::Places(places)) => { self.fill_found(places.read_plain(line), room) }
                _ => None,
            },
        }
    }

    // Writes the moment that was kept.
    #[inline(always)]
    fn fill_kept(&self, kept: &Named, room: &mut [u8]) -> usize
        requires { 64 ≤ length room.old }
        ensures line { HoldsLine (place_text (shown_or_refused (setting_of self.now).target
            (Ok kept.now))) result room.new }
        ensures size { length room.new ≡ length room.old }
    {
        match kept.fields() {
            Some(fields) => self.fill_moved(*fields, room),
            None => self.fill_shown(kept.moment(), room),
        }
    }

    // Writes the answer to a line by the sources from a place on, where those before it name no moment: the first source's
    // fault where none does, as it is known or read the exact way.
    #[cold]
    #[inline(never)]
    fn fill_later(&self, from: usize, known: Option<Parse>, line: &[u8], room: &mut [u8]) -> usize
        requires room { 64 ≤ length room.old }
        requires from { NamesFrom (setting_of self.now) line.now from }
        requires known { IfSome known
            (λ fault. IsFirstFault (setting_of self.now) line.now (fault_of fault)) }
        requires short { IfSome known (λ fault. HasShortName (fault_of fault)) }
        ensures line { HoldsLine (answer_to (setting_of self.now) line.now) result room.new }
        ensures size { length room.new ≡ length room.old }
    {
        let mut kept = none_kept();
        match self.first_named(from, known, line, &mut kept) {
            Ok(()) => self.fill_kept(&kept, room),
            Err(fault) => LineFault::from(fault).fill(room),
        }
    }

    // Writes the first source's fault, read the exact way, where no source names a moment.
    #[cold]
    #[inline(never)]
    fn fill_by_first(&self, line: &[u8], room: &mut [u8]) -> usize
        requires room { 64 ≤ length room.old }
        requires none { result_ok (first_named (setting_of self.now).assumed
            (setting_of self.now).sources line.now) ≡ None }
        ensures line { HoldsLine (answer_to (setting_of self.now) line.now) result room.new }
        ensures size { length room.new ≡ length room.old }
    {
        match self.first().read_exact(line, self.assumed) {
            Ok(named) => self.fill_shown(named, room),
            Err(fault) => LineFault::from(fault).fill(room),
        }
    }

    // Writes the answer to a line for which no source names a moment: the first one's fault.
    #[inline(always)]
    fn fill_first_fault(&self, line: &[u8], room: &mut [u8]) -> usize
        requires room { 64 ≤ length room.old }
        requires none { result_ok (first_named (setting_of self.now).assumed
            (setting_of self.now).sources line.now) ≡ None }
        ensures line { HoldsLine (answer_to (setting_of self.now) line.now) result room.new }
        ensures size { length room.new ≡ length room.old }
    {
        if self.first().has_no_year(line, self.assumed) {
            return fill_no_year(room);
        }
        self.fill_by_first(line, room)
    }

    // Writes the answer to a line by the sources from a place on, where those before it name no moment, and where the first
    // source's fault may be known. Mostly the first bytes rule all of them out.
    #[inline(always)]
    fn fill_from(&self, from: usize, known: Option<Parse>, line: &[u8], room: &mut [u8]) -> usize
        requires room { 64 ≤ length room.old }
        requires from { NamesFrom (setting_of self.now) line.now from }
        requires known { IfSome known
            (λ fault. IsFirstFault (setting_of self.now) line.now (fault_of fault)) }
        requires short { IfSome known (λ fault. HasShortName (fault_of fault)) }
        ensures line { HoldsLine (answer_to (setting_of self.now) line.now) result room.new }
        ensures size { length room.new ≡ length room.old }
    {
        if let Some((likely, _)) = self.likely(from, line) {
            return self.fill_later(likely, known, line, room);
        }
        match known {
            Some(fault) => LineFault::from(fault).fill(room),
            None => self.fill_first_fault(line, room),
        }
    }

    // Writes the answer to a line by reading it the exact way by the first source.
    #[inline(always)]
    fn fill_exact(&self, line: &[u8], room: &mut [u8]) -> usize
        requires { 64 ≤ length room.old }
        ensures line { HoldsLine (answer_to (setting_of self.now) line.now) result room.new }
        ensures size { length room.new ≡ length room.old }
    {
        match self.first().read_exact(line, self.assumed) {
            Ok(named) => self.fill_shown(named, room),
            Err(fault) => self.fill_from(1, Some(fault), line, room),
        }
    }

    // Writes the answer to a line for which the sources before a place name no moment, and that has no usual shape of the one
    // there.
    #[cold]
    #[inline(never)]
    fn fill_unusual(&self, place: usize, source: &Source, line: &[u8], room: &mut [u8]) -> usize
        requires room { 64 ≤ length room.old }
        requires place { place < length (setting_of self.now).sources }
        requires from { NamesFrom (setting_of self.now) line.now place }
        requires source { drop place (setting_of self.now).sources
            ≡ grammar_of source.now ∷ drop (place + 1) (setting_of self.now).sources }
        ensures line { HoldsLine (answer_to (setting_of self.now) line.now) result room.new }
        ensures size { length room.new ≡ length room.old }
    {
        if let Some(len) = self.fill_found(source.read_other(line, self.assumed), room) {
            return len;
        }
        match source.read_exact(line, self.assumed) {
            Ok(named) => self.fill_shown(named, room),
            Err(_) => self.fill_from(place + 1, None, line, room),
        }
    }

    // Writes the answer to a line that the first source's first bytes rule out: the likely source is the first after it that
    // they do not.
    #[inline(never)]
    pub(super) fn fill_after(&self, line: &[u8], room: &mut [u8]) -> usize
        requires room { 64 ≤ length room.old }
        requires from { NamesFrom (setting_of self.now) line.now 1 }
        ensures line { HoldsLine (answer_to (setting_of self.now) line.now) result room.new }
        ensures size { length room.new ≡ length room.old }
    {
        let Some((place, source)) = self.likely(1, line) else {
            return self.fill_first_fault(line, room);
        };
        match self.fill_usual(source, line, room) {
            Some(len) => len,
            None => self.fill_unusual(place, source, line, room),
        }
    }

    // Writes the answer to a line of which the first source's fast way says nothing.
    #[cold]
    #[inline(never)]
    pub(super) fn fill_rest(&self, line: &[u8], room: &mut [u8]) -> usize
        requires { 64 ≤ length room.old }
        ensures line { HoldsLine (answer_to (setting_of self.now) line.now) result room.new }
        ensures size { length room.new ≡ length room.old }
    {
        if self.has_others() && self.first().cannot_match(line) {
            return self.fill_after(line, room);
        }
        self.fill_exact(line, room)
    }

    // Writes the answer to a line that has not the usual shape of RFC 3339, the first source.
    #[cold]
    #[inline(never)]
    pub(super) fn fill_rest_rfc3339(&self, line: &[u8], room: &mut [u8]) -> usize
        requires room { 64 ≤ length room.old }
        requires led { IsLedBy (setting_of self.now) grammar.Rfc3339 }
        ensures line { HoldsLine (answer_to (setting_of self.now) line.now) result room.new }
        ensures size { length room.new ≡ length room.old }
    {
        directly_named();
        if let Some(len) = self.fill_found(parsing_rfc3339::read_rare_fields(line), room) {
            return len;
        }
        if self.assumed.is_some() {
            return self.fill_exact(line, room);
        }
        match parsing_rfc3339::read_exact(line) {
            Ok(named) => self.fill_shown(named, room),
            Err(fault) => self.fill_from(1, Some(fault), line, room),
        }
    }

    // Writes the answer to a line that has not the usual shape of RFC 2822, the first source.
    #[cold]
    #[inline(never)]
    pub(super) fn fill_rest_rfc2822(&self, line: &[u8], room: &mut [u8]) -> usize
        requires room { 64 ≤ length room.old }
        requires led { IsLedBy (setting_of self.now) grammar.Rfc2822 }
        ensures line { HoldsLine (answer_to (setting_of self.now) line.now) result room.new }
        ensures size { length room.new ≡ length room.old }
    {
        directly_named();
        match self.fill_found(parsing_rfc2822_shapes::read_other_fields(line), room) {
            Some(len) => len,
            None => self.fill_rest(line, room),
        }
    }

    // Writes the answer to a line that has not the usual shape of ISO 8601, the first source.
    #[cold]
    #[inline(never)]
    pub(super) fn fill_rest_iso8601(&self, line: &[u8], room: &mut [u8]) -> usize
        requires room { 64 ≤ length room.old }
        requires led { IsLedBy (setting_of self.now) grammar.Iso8601 }
        ensures line { HoldsLine (answer_to (setting_of self.now) line.now) result room.new }
        ensures size { length room.new ≡ length room.old }
    {
        directly_named();
        match self.fill_found(parsing_iso8601_shapes::read_fields_to_minute(line), room) {
            Some(len) => len,
            None => self.fill_rare_iso8601(line, room),
        }
    }

    // Writes the answer to a line of neither shape of ISO 8601, the first source.
    #[cold]
    #[inline(never)]
    fn fill_rare_iso8601(&self, line: &[u8], room: &mut [u8]) -> usize
        requires room { 64 ≤ length room.old }
        requires led { IsLedBy (setting_of self.now) grammar.Iso8601 }
        ensures line { HoldsLine (answer_to (setting_of self.now) line.now) result room.new }
        ensures size { length room.new ≡ length room.old }
    {
        directly_named();
        match self.fill_found(parsing_iso8601_shapes::read_rare_fields(line), room) {
            Some(len) => len,
            None => self.fill_rest(line, room),
        }
    }

    // Writes the answer to a line, whatever the first source is.
    #[inline(never)]
    fn fill_any(&self, line: &[u8], room: &mut [u8]) -> usize
        requires { 64 ≤ length room.old }
        ensures line { HoldsLine (answer_to (setting_of self.now) line.now) result room.new }
        ensures size { length room.new ≡ length room.old }
    {
        let mut kept = none_kept();
        if self.keeps_fast(self.first(), line, &mut kept) {
            return self.fill_kept(&kept, room);
        }
        self.fill_rest(line, room)
    }

    /// The answer to a line: its place as a date-time of fixed width, or why it has none. It is never `! long`.
    pub fn answer_line(&self, line: &[u8]) -> Answer
        ensures bytes { result ≡ answer_to (setting_of self.now) line.now }
        ensures room { length result ≤ 63 }
        ensures never_long { result ≢ codes "! long" }
    {
        let mut room = [0; 64];
        let len = self.fill_any(line, &mut room);
        let mut answer = Answer::new();
        answer.push_bytes(&room[..len - 1]);
        answer
    }
}
