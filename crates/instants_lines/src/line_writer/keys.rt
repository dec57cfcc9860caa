//! The keys of lines, without a writer.
ghost use Rattle.std.specs.Prelude.{◌≡◌, ◌==◌, ◌<◌, ◌≤◌, [], ◌∷◌, ◌++◌, length, true, false, None, Some, IfSome, IfNone};
ghost use Rattle.base.specs.Bytes.{tab};
ghost use Rattle.instants_edges.specs.Edge.{is_edge};
ghost use Rattle.instants_found.specs.Found.{looked_at};
ghost use Rattle.instants_found.specs.Starts.{HasNoDate};
ghost use Rattle.instants_found.specs.declared.found.Finding.TheVariants.{There};
ghost use Rattle.instants_lines.specs.Below.{below_above, indent_above, key_above};
ghost use Rattle.instants_lines.specs.Dates.{key_of_date};
ghost use Rattle.instants_lines.specs.Going.{below, below_by, depth, goes_on, key_of_line};
ghost use Rattle.instants_lines.specs.Writing.{going_of};

use crate::above::Above;
use crate::date_sources::DateSources;
use crate::line_writer::LineWriter;
use crate::parts::tabbed;
use instants_answers::Answer;
use instants_found::Found;
use zones_clock::Zone;

impl<'a, 'b> LineWriter<'a, 'b> {
    // The key of this date and a tab, which the lines below take.
    #[inline]
    fn take_dated(&mut self, date: &Found, line: &[u8]) -> Answer
        ensures key { result ≡ key_of_date (going_of self.old).search.setting date.now ++ tab ∷ [] }
        ensures next { going_of self.new ≡ below_by (going_of self.old) (depth line.now) (Some (There date.now)) }
    {
        self.take_date(date, line);
        tabbed(self.storage)
    }

    // The key of a line and a tab, where none begins before a place and the date there is found at once: `None` where it is not.
    // A call of its own, which makes no room for what is found otherwise.
    #[inline(never)]
    fn take_plain(&mut self, first: usize, line: &[u8]) -> Option<Answer>
        requires within { first < length (looked_at (going_of self.old).search.limit line.now) }
        requires passed { HasNoDate (going_of self.old).search.setting.sources
            (looked_at (going_of self.old).search.limit line.now) 0 first }
        requires edge { is_edge (looked_at (going_of self.old).search.limit line.now) first ≡ true }
        requires own { goes_on (going_of self.old).mode (going_of self.old).indent line.now ≡ false }
        requires whole { (going_of self.old).search.part ≡ None }
        ensures key { IfSome result (λ key. key ≡ key_of_line (going_of self.old) line.now ++ tab ∷ []) }
        ensures next { IfSome result (λ _. going_of self.new ≡ below (going_of self.old) line.now) }
        ensures same { IfNone result (going_of self.new ≡ going_of self.old) }
    {
        if !self.is_plain {
            return None;
        }
        let Some(date) = self.dates.finder.plain_date(line, first) else {
            return None;
        };
        Some(self.take_dated(&date, line))
    }

    // The key of a line and a tab, where no date begins before a place, by whatever is found in it. A call of its own, so that
    // other lines make no room for that.
    #[inline(never)]
    fn take_any(&mut self, first: usize, line: &[u8]) -> Answer
        requires within { first < length (looked_at (going_of self.old).search.limit line.now) }
        requires passed { HasNoDate (going_of self.old).search.setting.sources
            (looked_at (going_of self.old).search.limit line.now) 0 first }
        requires own { goes_on (going_of self.old).mode (going_of self.old).indent line.now ≡ false }
        requires whole { (going_of self.old).search.part ≡ None }
        ensures key { result ≡ key_of_line (going_of self.old) line.now ++ tab ∷ [] }
        ensures next { going_of self.new ≡ below (going_of self.old) line.now }
    {
        let mut kept = self.kept;
        let finding = self
            .dates
            .finder
            .find_from(&self.given(), &mut kept, line, first);
        self.kept = kept;
        tabbed(self.take_key(line, finding))
    }

    // The key of a line and a tab, where dates are looked for in whole lines.
    #[inline(always)]
    #[tactic(auto, using(crate::proofs::Keyed::below_none))]
    fn take_whole(&mut self, line: &[u8]) -> Answer
        requires whole { (going_of self.old).search.part ≡ None }
        ensures key { result ≡ key_of_line (going_of self.old) line.now ++ tab ∷ [] }
        ensures next { going_of self.new ≡ below (going_of self.old) line.now }
    {
        if self.goes_on(line) {
            return self.tabbed;
        }
        let Some(first) = self.dates.finder.undated_len(line) else {
            return self.tabbed;
        };
        match self.take_plain(first, line) {
            Some(key) => key,
            None => self.take_any(first, line),
        }
    }

    // The same wherever dates are looked for.
    #[cold]
    #[inline(never)]
    #[tactic(auto, using(crate::proofs::Keyed::below_none))]
    fn take_part(&mut self, line: &[u8]) -> Answer
        ensures key { result ≡ key_of_line (going_of self.old) line.now ++ tab ∷ [] }
        ensures next { going_of self.new ≡ below (going_of self.old) line.now }
    {
        if self.goes_on(line) {
            return self.tabbed;
        }
        let (dates, zone): (&DateSources<'_>, Option<&Zone>) = (self.dates, self.zone);
        let finding = dates.find_on(self.known, zone, line);
        tabbed(self.take_key(line, finding))
    }

    /// The key of a line and a tab; what the lines below take of the line is kept.
    #[inline(always)]
    pub fn take_tabbed(&mut self, line: &[u8]) -> Answer
        ensures key { result ≡ key_of_line (going_of self.old) line.now ++ tab ∷ [] }
        ensures next { going_of self.new ≡ below (going_of self.old) line.now }
    {
        let dates: &DateSources<'_> = self.dates;
        match &dates.part {
            None => self.take_whole(line),
            Some(_) => self.take_part(line),
        }
    }

    /// Goes on below lines of which this is handed in, in place of the beginning.
    #[tactic(auto, unfolding(crate::specs::Below::below_above))]
    pub fn begin_below(&mut self, above: &Above)
        ensures { going_of self.new ≡ below_above above.now (going_of self.old) }
    {
        if above.state == 0 {
            return;
        }
        let mut key = Answer::new();
        key.push_bytes(&above.key[..(above.len as usize).min(63)]);
        *self = LineWriter {
            mode: self.mode,
            dates: self.dates,
            known: self.known,
            zone: self.zone,
            is_plain: self.is_plain,
            label: self.label,
            key,
            tabbed: tabbed(key),
            storage: self.storage,
            kept: self.kept,
            indent: if above.state == 1 {
                None
            } else {
                Some(above.indent)
            },
        };
    }

    /// What the lines below take of those above.
    pub fn above(&self) -> Above
        ensures some { (result.state ≡ 0) → ⊥ }
        ensures key { key_above result ≡ (going_of self.now).key }
        ensures indent { indent_above result ≡ (going_of self.now).indent }
    {
        let (bytes, len) = self.key.padded();
        Above {
            indent: self.indent.unwrap_or(0),
            state: if self.indent.is_some() { 2 } else { 1 },
            len: len as u32,
            key: *bytes,
        }
    }
}
