//! What is written for lines one after another.
ghost use Rattle.std.specs.Prelude.{◌≡◌, ◌<◌, ◌≤◌, [], ◌∷◌, ◌++◌, length, option_map, if◌then◌else◌, true, false, None, Some, IfSome, IfNone, OnOk};
ghost use Rattle.base.specs.Bytes.{tab, line_feed};
ghost use Rattle.instants_edges.specs.Edge.{is_edge};
ghost use Rattle.instants_found.specs.Found.{looked_at};
ghost use Rattle.instants_found.specs.Starts.{HasNoDate};
ghost use Rattle.instants_found.specs.declared.found.Finding.TheVariants.{Doubtful, There};
ghost use Rattle.instants_lines.specs.Showing.{given_of, search_in};
ghost use Rattle.instants_lines.specs.Dates.{doubt, key_of_date, key_or, replaced, with_date, with_date_time, place_of_date};
ghost use Rattle.instants_lines.specs.Going.{below, below_by, beginning, depth, finding_in, given_below, goes_on, is_carry, keyed, label_prefix};
ghost use Rattle.instants_lines.specs.Located.{located};
ghost use Rattle.instants_lines.specs.Parts.{LiesIn};
ghost use Rattle.instants_lines_words.specs.Part.{part_of};
ghost use Rattle.instants_lines.specs.Writing.{going_of};
ghost use Rattle.instants_lines.specs.Wrote.{Wrote};

use crate::date_sources::DateSources;
use crate::depth::depth;
use crate::known::Known;
use crate::line_part::place_of_part;
use crate::line_writer::LineWriter;
use crate::located::{write_finding, write_part};
use crate::parts::{tabbed, write_keyed, write_labelled, write_three};
use calendar::UtcOffset;
use instants_answers::{Answer, rfc3339_line};
use instants_found::{Finding, Found, KeptDay};
use instants_lines_words::{LinePart, Mode};
use instants_prefixes::{Given, Years};
use instants_stream::{ByteWriter, DeviceFailed};
use instants_timeline::shown_at;
use zones_clock::Zone;

impl<'a, 'b> LineWriter<'a, 'b> {
    /// At the beginning a line without a date takes `! none`.
    pub(crate) fn new(
        mode: Mode,
        label: Option<&'a str>,
        dates: &'a DateSources<'b>,
        known: Known,
        zone: Option<&'a Zone>,
    ) -> LineWriter<'a, 'b>
        ensures { going_of result ≡ beginning mode (option_map (λ text. text.now) label.entry)
            (search_in dates.now (given_of known zone.entry)) }
    {
        let (knows_nothing, has_zone) = (known.is_nothing(), zone.is_some());
        let mut key = Answer::new();
        key.push_bytes(b"! none");
        LineWriter {
            mode,
            dates,
            known,
            zone,
            is_plain: knows_nothing && !has_zone,
            label,
            key,
            tabbed: tabbed(key),
            storage: Answer::new(),
            indent: None,
            kept: KeptDay::none(),
        }
    }

    // What is given for dates that lack it.
    #[inline(always)]
    pub(crate) fn given(&self) -> Given<'a>
        ensures { result ≡ (going_of self.now).search.given }
    {
        self.known.on(self.zone)
    }

    // Whether a line goes on with what the last one with a date says.
    #[inline(always)]
    pub(crate) fn goes_on(&self, line: &[u8]) -> bool
        ensures { result ≡ goes_on (going_of self.now).mode (going_of self.now).indent line.now }
    {
        match self.indent {
            Some(indent) if self.mode == Mode::Carry => indent < depth(line),
            _ => false,
        }
    }

    // Keeps the key of a line, which was made in the storage, where the lines below it take it, and how deep the line begins.
    #[inline(always)]
    fn keep(&mut self, line: &[u8])
        requires { length self.old.storage ≤ 63 }
        ensures kept { going_of self.new ≡ record (going_of self.old) {
          key = if is_carry (going_of self.old).mode then self.old.storage else (going_of self.old).key;
          indent = if is_carry (going_of self.old).mode then Some (depth line.now) else (going_of self.old).indent;
        } }
        ensures storage { self.new.storage ≡ self.old.storage }
    {
        if self.mode == Mode::Carry {
            *self = LineWriter {
                mode: self.mode,
                dates: self.dates,
                known: self.known,
                zone: self.zone,
                is_plain: self.is_plain,
                label: self.label,
                key: self.storage,
                tabbed: tabbed(self.storage),
                storage: self.storage,
                indent: Some(depth(line)),
                kept: self.kept,
            };
        }
    }

    // The date of a line, which is none where the line goes on.
    fn finding_in(&self, line: &[u8]) -> Option<Finding>
        ensures { result ≡ finding_in (going_of self.now) line.now }
    {
        if self.goes_on(line) {
            return None;
        }
        self.dates.find_on(self.known, self.zone, line)
    }

    // Keeps the moment of a date, where a year is given.
    #[inline(always)]
    fn keep_year(&mut self, date: &Found)
        ensures kept { going_of self.new ≡ record (going_of self.old) {
          search = record (going_of self.old).search {
            given = given_below (going_of self.old).search.given (Some (There date.now));
          };
        } }
        ensures storage { self.new.storage ≡ self.old.storage }
    {
        if let Years::Unknown = self.known.years {
            return;
        }
        let above = match self.zone {
            Some(_) => date.moment.moment().replace_offset(UtcOffset::UTC),
            None => date.moment.moment(),
        };
        self.is_plain = false;
        self.known = Known {
            offset: self.known.offset,
            years: Years::Near(above),
            time: self.known.time,
        };
    }

    // Keeps the moment of what is found, where that is a date.
    fn keep_finding(&mut self, finding: &Option<Finding>)
        ensures { going_of self.new ≡ record (going_of self.old) {
          search = record (going_of self.old).search { given = given_below (going_of self.old).search.given finding.now };
        } }
    {
        if let Some(Finding::There(date)) = finding {
            self.keep_year(date);
        }
    }

    // Writes a line without a date after the key that it takes and a tab.
    #[inline(always)]
    fn write_undated<W: ByteWriter>(&self, line: &[u8], writer: &mut W) -> Result<(), DeviceFailed>
        requires { W.failed writer.old ≡ false }
        ensures { Wrote W.ByteWriter writer.old writer.new result
            (((going_of self.now).key ++ tab ∷ (label_prefix (going_of self.now).label ++ line.now)) ++ line_feed ∷ []) }
    {
        write_keyed(writer, &self.tabbed, &self.label, line)
    }

    // Makes the key of a date in the storage, and keeps for the lines below what they take of it.
    #[inline(always)]
    #[tactic(auto, unfolding(crate::specs::Dates::place_of_date))]
    pub(crate) fn take_date(&mut self, date: &Found, line: &[u8])
        ensures key { self.new.storage ≡ key_of_date (going_of self.old).search.setting date.now }
        ensures room { length self.new.storage ≤ 63 }
        ensures next { going_of self.new ≡ below_by (going_of self.old) (depth line.now) (Some (There date.now)) }
    {
        self.dates.write_named(&date.moment, &mut self.storage);
        self.keep_year(date);
        self.keep(line);
    }

    // The key of a line by what is found in it, which is kept for the lines below.
    #[inline(always)]
    #[tactic(auto, using(crate::proofs::Keyed::below_none))]
    pub(crate) fn take_key(&mut self, line: &[u8], finding: Option<Finding>) -> Answer
        ensures key { result ≡ key_or (going_of self.old).search.setting (going_of self.old).key finding }
        ensures room { length result ≤ 63 }
        ensures next { going_of self.new ≡ below_by (going_of self.old) (depth line.now) finding }
    {
        match finding {
            Some(Finding::There(date)) => {
                self.take_date(&date, line);
                self.storage
            }
            Some(Finding::Doubtful(_)) => {
                self.storage = doubt();
                self.keep(line);
                self.storage
            }
            None => self.key,
        }
    }

    // Writes a line after the key of this date. The key is made where it is written from, with the tab after it.
    #[inline]
    fn write_dated<W: ByteWriter>(
        &mut self,
        date: &Found,
        line: &[u8],
        writer: &mut W,
    ) -> Result<(), DeviceFailed>
        requires { W.failed writer.old ≡ false }
        ensures wrote { Wrote W.ByteWriter writer.old writer.new result
            ((key_of_date (going_of self.old).search.setting date.now
            ++ tab ∷ (label_prefix (going_of self.old).label ++ line.now)) ++ line_feed ∷ []) }
        ensures next { going_of self.new ≡ below_by (going_of self.old) (depth line.now) (Some (There date.now)) }
    {
        self.take_date(date, line);
        self.storage.push(b'\t');
        write_keyed(writer, &self.storage, &self.label, line)
    }

    // Writes a line after the key of its date, where none begins before a place and the date there is found at once: `None` where
    // it is not, with nothing written. A call of its own, which makes no room for what is found otherwise.
    #[inline(never)]
    fn write_plain<W: ByteWriter>(
        &mut self,
        first: usize,
        line: &[u8],
        writer: &mut W,
    ) -> Option<Result<(), DeviceFailed>>
        requires works { W.failed writer.old ≡ false }
        requires within { first < length (looked_at (going_of self.old).search.limit line.now) }
        requires passed { HasNoDate (going_of self.old).search.setting.sources
            (looked_at (going_of self.old).search.limit line.now) 0 first }
        requires edge { is_edge (looked_at (going_of self.old).search.limit line.now) first ≡ true }
        requires own { goes_on (going_of self.old).mode (going_of self.old).indent line.now ≡ false }
        requires whole { (going_of self.old).search.part ≡ None }
        ensures wrote { IfSome result (λ end. Wrote W.ByteWriter writer.old writer.new end
            (keyed (going_of self.old) line.now ++ line_feed ∷ [])) }
        ensures next { IfSome result (λ end. OnOk end (going_of self.new ≡ below (going_of self.old) line.now)) }
        ensures same { IfNone result ((going_of self.new ≡ going_of self.old) × (writer.new ≡ writer.old)) }
    {
        if !self.is_plain {
            return None;
        }
        let Some(date) = self.dates.finder.plain_date(line, first) else {
            return None;
        };
        Some(self.write_dated(&date, line, writer))
    }

    // Writes a line after its key and a tab, where no date begins before a place, by whatever is found in it. A call of its own,
    // so that other lines make no room for that.
    #[inline(never)]
    fn write_any<W: ByteWriter>(
        &mut self,
        first: usize,
        line: &[u8],
        writer: &mut W,
    ) -> Result<(), DeviceFailed>
        requires works { W.failed writer.old ≡ false }
        requires within { first < length (looked_at (going_of self.old).search.limit line.now) }
        requires passed { HasNoDate (going_of self.old).search.setting.sources
            (looked_at (going_of self.old).search.limit line.now) 0 first }
        requires own { goes_on (going_of self.old).mode (going_of self.old).indent line.now ≡ false }
        requires whole { (going_of self.old).search.part ≡ None }
        ensures wrote { Wrote W.ByteWriter writer.old writer.new result
            (keyed (going_of self.old) line.now ++ line_feed ∷ []) }
        ensures next { OnOk result (going_of self.new ≡ below (going_of self.old) line.now) }
    {
        let mut kept = self.kept;
        let finding = self
            .dates
            .finder
            .find_from(&self.given(), &mut kept, line, first);
        self.kept = kept;
        let key = tabbed(self.take_key(line, finding));
        write_keyed(writer, &key, &self.label, line)
    }

    /// Writes a line after its key and a tab, and a line feed, where dates are looked for in whole lines.
    #[inline(always)]
    #[tactic(auto, using(crate::proofs::Keyed::below_none))]
    pub(crate) fn write_keyed<W: ByteWriter>(
        &mut self,
        line: &[u8],
        writer: &mut W,
    ) -> Result<(), DeviceFailed>
        requires works { W.failed writer.old ≡ false }
        requires whole { (going_of self.old).search.part ≡ None }
        ensures wrote { Wrote W.ByteWriter writer.old writer.new result
            (keyed (going_of self.old) line.now ++ line_feed ∷ []) }
        ensures next { OnOk result (going_of self.new ≡ below (going_of self.old) line.now) }
    {
        if self.goes_on(line) {
            return self.write_undated(line, writer);
        }
        let Some(first) = self.dates.finder.undated_len(line) else {
            return self.write_undated(line, writer);
        };
        match self.write_plain(first, line, writer) {
            Some(end) => end,
            None => self.write_any(first, line, writer),
        }
    }

    /// The same wherever dates are looked for, without a line feed.
    #[cold]
    #[inline(never)]
    #[tactic(auto, using(std::proofs::lemmas::List::append_assoc))]
    pub(crate) fn write_keyed_text<W: ByteWriter>(
        &mut self,
        line: &[u8],
        writer: &mut W,
    ) -> Result<(), DeviceFailed>
        requires { W.failed writer.old ≡ false }
        ensures wrote { Wrote W.ByteWriter writer.old writer.new result
            (keyed (going_of self.old) line.now) }
        ensures next { OnOk result (going_of self.new ≡ below (going_of self.old) line.now) }
    {
        let finding = self.finding_in(line);
        let key = tabbed(self.take_key(line, finding));
        write_labelled(writer, key.as_bytes(), &self.label, line)
    }

    // Writes a line with the date-time in place of this date of it, or as it is where the date's year is not written.
    #[tactic(auto, unfolding(crate::specs::Dates::place_of_date))]
    fn write_with<W: ByteWriter>(
        &self,
        date: &Found,
        line: &[u8],
        writer: &mut W,
    ) -> Result<(), DeviceFailed>
        requires works { W.failed writer.old ≡ false }
        requires start { date.now.start ≤ length line.now }
        requires end { date.now.end ≤ length line.now }
        ensures { Wrote W.ByteWriter writer.old writer.new result
            (with_date_time line.now date.now (place_of_date (going_of self.now).search.setting date.now)) }
    {
        let Some(moment) = shown_at(self.dates.target, date.moment.moment()) else {
            return writer.write_all(line);
        };
        let text = rfc3339_line(moment);
        write_three(
            writer,
            &line[..date.start],
            text.as_bytes(),
            &line[date.end..],
        )
    }

    // The same by what is found in a line.
    fn write_by<W: ByteWriter>(
        &self,
        finding: &Option<Finding>,
        line: &[u8],
        writer: &mut W,
    ) -> Result<(), DeviceFailed>
        requires works { W.failed writer.old ≡ false }
        requires within { IfSome finding.now
            (LiesIn (length line.now) (length (going_of self.now).search.setting.sources)) }
        ensures { Wrote W.ByteWriter writer.old writer.new result
            (with_date (going_of self.now).search.setting line.now finding.now) }
    {
        match finding {
            Some(Finding::There(date)) => self.write_with(date, line, writer),
            Some(Finding::Doubtful(_)) | None => writer.write_all(line),
        }
    }

    /// Writes a line with the date-time in place of its date, without a line feed.
    #[tactic(auto, using(crate::proofs::Keyed::plain_below), unfolding(crate::specs::Dates::replaced))]
    pub(crate) fn write_replaced<W: ByteWriter>(
        &mut self,
        line: &[u8],
        writer: &mut W,
    ) -> Result<(), DeviceFailed>
        requires works { W.failed writer.old ≡ false }
        requires mode { is_carry (going_of self.old).mode ≡ false }
        ensures wrote { Wrote W.ByteWriter writer.old writer.new result
            (replaced (going_of self.old).search line.now) }
        ensures next { OnOk result (going_of self.new ≡ below (going_of self.old) line.now) }
    {
        let finding = self.dates.find(&self.given(), line);
        self.write_by(&finding, line, writer)?;
        self.keep_finding(&finding);
        Ok(())
    }

    // Writes where the date of a whole line is, or why it is in doubt.
    #[tactic(auto, using(crate::proofs::Keyed::plain_below), unfolding(crate::specs::Located::located))]
    fn write_located_line<W: ByteWriter>(
        &mut self,
        line: &[u8],
        writer: &mut W,
    ) -> Result<(), DeviceFailed>
        requires works { W.failed writer.old ≡ false }
        requires mode { is_carry (going_of self.old).mode ≡ false }
        requires whole { (going_of self.old).search.part ≡ None }
        ensures wrote { Wrote W.ByteWriter writer.old writer.new result
            (located (going_of self.old).search line.now) }
        ensures next { OnOk result (going_of self.new ≡ below (going_of self.old) line.now) }
    {
        let finding = self.dates.finder.find(&self.given(), line);
        write_finding(self.dates, &self.given(), 0, line, &finding, writer)?;
        self.keep_finding(&finding);
        Ok(())
    }

    // The same of a part of a line.
    #[tactic(auto, using(crate::proofs::Keyed::plain_below), unfolding(crate::specs::Located::located))]
    fn write_located_part<W: ByteWriter>(
        &mut self,
        part: &LinePart<'_>,
        line: &[u8],
        writer: &mut W,
    ) -> Result<(), DeviceFailed>
        requires works { W.failed writer.old ≡ false }
        requires mode { is_carry (going_of self.old).mode ≡ false }
        requires part { (going_of self.old).search.part ≡ Some (part_of part.now) }
        ensures wrote { Wrote W.ByteWriter writer.old writer.new result
            (located (going_of self.old).search line.now) }
        ensures next { OnOk result (going_of self.new ≡ below (going_of self.old) line.now) }
    {
        let Some(place) = place_of_part(part, line) else {
            return writer.write_all(b"! none");
        };
        let text = &line[place.start..place.end];
        let found = self.dates.finder.find(&self.given(), text);
        write_part(
            self.dates,
            &self.given(),
            part,
            &place,
            text,
            &found,
            writer,
        )?;
        let finding = self.dates.found_at(place.start, part, text, found);
        self.keep_finding(&finding);
        Ok(())
    }

    /// Writes where the date of a line is, or why it is in doubt, without a line feed.
    #[cold]
    #[inline(never)]
    pub(crate) fn write_located<W: ByteWriter>(
        &mut self,
        line: &[u8],
        writer: &mut W,
    ) -> Result<(), DeviceFailed>
        requires works { W.failed writer.old ≡ false }
        requires mode { is_carry (going_of self.old).mode ≡ false }
        ensures wrote { Wrote W.ByteWriter writer.old writer.new result
            (located (going_of self.old).search line.now) }
        ensures next { OnOk result (going_of self.new ≡ below (going_of self.old) line.now) }
    {
        let dates = self.dates;
        match &dates.part {
            None => self.write_located_line(line, writer),
            Some(part) => self.write_located_part(part, line, writer),
        }
    }
}

// The key of a line whose date is in doubt.
fn doubt() -> Answer
    ensures value { result ≡ doubt }
    ensures room { length result ≤ 63 }
{
    let mut key = Answer::new();
    key.push_bytes(b"! doubt");
    key
}
