//! The calls of a finder.
ghost use Rattle.std.specs.Prelude.{◌≡◌, ◌<◌, ◌≤◌, ◌+◌, length, map, min, true, false, None, Some, All, IfOk, IfSome, IfNone};
ghost use Rattle.instants_edges.specs.Edge.{is_edge};
ghost use Rattle.instants_prefixes.specs.Given.{nothing};
ghost use Rattle.instants_prefixes.specs.declared.given.Given.{Given};
ghost use Rattle.instants_prefixes.specs.DateSource.{grammar_in};
ghost use Rattle.instants_sources.specs.Grammar.{grammar_of};
ghost use Rattle.instants_found.specs.Found.{found, found_in, looked_at};
ghost use Rattle.instants_found.specs.Doubts.{doubt_of};
ghost use Rattle.instants_found.specs.Finder.{limit_of, sources_of};
ghost use Rattle.instants_found.specs.KeptDays.{IsKept};
ghost use Rattle.instants_found.specs.Keys.{IsKeyedBy};
ghost use Rattle.instants_found.specs.Marks.{AreMarks};
ghost use Rattle.instants_found.specs.Starts.{CannotStand, HasNoDate, IsNoDate, MarkPlaces};
ghost use Rattle.instants_found.specs.Within.{IsWithin, LiesWithin};
ghost use Rattle.instants_found.specs.declared.found.Finding.TheVariants.{There};

use crate::beside::after;
use crate::candidate::{doubted_at, found_at};
use crate::doubt::Doubted;
use crate::finder::Finder;
use crate::finding::{at_place, may_read, plain_at};
use crate::found::{Finding, Found};
use crate::kept_day::KeptDay;
use crate::keys::{KeyedLine, REACH};
use crate::lanes::LANES;
use crate::marks::Marks;
use crate::starts::{Place, marked_at};
use instants_edges::is_edge;
use instants_prefixes::{DateSource, Given};
use instants_sources::Source;
use std::alloc::{AllocError, Global};

// How far behind the last place at which a date may begin bytes are looked at: a date's window, and what may stand beside it.
const BEYOND: usize = 320;

impl<'a> Finder<'a> {
    /// A finder of dates by these sources in order, which begin at one of so many first places of a line. The error says that
    /// memory ran out.
    pub fn new(
        alloc: Global,
        sources: Vec<Source<'a>>,
        limit: usize,
    ) -> Result<Finder<'a>, AllocError>
        ensures sources { IfOk result
            (λ finder. sources_of finder ≡ map grammar_of sources.entry.items) }
        ensures limit { IfOk result (λ finder. limit_of finder ≡ limit) }
    {
        let starts = marked_at(&sources, Place::First);
        let marks = Marks::of(&sources, &starts);
        Ok(Finder {
            sources: date_sources(alloc, sources)?,
            limit,
            starts,
            marks,
        })
    }

    /// The sources, in order.
    pub fn sources(&self) -> &[DateSource<'a>]
        ensures { map grammar_in result.now ≡ sources_of self.now }
    {
        self.sources.as_slice()
    }

    // After which place of a line none is looked at.
    #[inline(always)]
    fn end(&self, line: &[u8]) -> usize
        ensures { result ≡ min (limit_of self.now) (length line.now) }
    {
        self.limit.min(line.len())
    }

    // Whether a date can begin at a place: `true` says nothing of it.
    #[inline(always)]
    fn can_start(&self, line: &[u8], place: usize) -> bool
        requires { place < length line.now }
        ensures none { result ≡ false → IsNoDate (sources_of self.now) line.now place }
        ensures edge { result ≡ true → is_edge line.now place ≡ true }
    {
        self.starts[usize::from(line[place])] && is_edge(line, place)
    }

    // Whether a date can begin at a place, by the bytes that stand there too.
    #[inline(always)]
    fn has_start(&self, line: &[u8], start: usize) -> bool
        requires { start < length line.now }
        ensures none { result ≡ false → IsNoDate (sources_of self.now) line.now start }
        ensures edge { result ≡ true → is_edge line.now start ≡ true }
    {
        if !self.can_start(line, start) {
            return false;
        }
        may_read(self.sources.as_slice(), 0, after(line, start))
    }

    // The first place from one on at which a date can begin, looked for byte by byte.
    #[inline(never)]
    fn by_bytes(&self, line: &[u8], from: usize) -> Option<usize>
        requires { from ≤ length line.now }
        ensures none { IfNone result (HasNoDate (sources_of self.now) line.now from
            (min (limit_of self.now) (length line.now))) }
        ensures within { IfSome result (λ start. (from ≤ start) × (start < length line.now)) }
        ensures passed { IfSome result
            (HasNoDate (sources_of self.now) line.now from) }
        ensures edge { IfSome result (λ start. is_edge line.now start ≡ true) }
    {
        for place in from..self.end(line) {
            if self.has_start(line, place) {
                return Some(place);
            }
        }
        None
    }

    // The first place from one up to another at which a date can begin. Each place has a bit, which is 0 only where none does.
    #[inline(always)]
    fn by_marks(&self, line: &[u8], from: usize, to: usize, marks: u64) -> Option<usize>
        requires ordered { from ≤ to }
        requires within { to ≤ length line.now }
        requires marks { MarkPlaces (sources_of self.now) line.now from to marks }
        ensures none { IfNone result
            (HasNoDate (sources_of self.now) line.now from to) }
        ensures within { IfSome result (λ start. (from ≤ start) × (start < to)) }
        ensures passed { IfSome result
            (HasNoDate (sources_of self.now) line.now from) }
        ensures edge { IfSome result (λ start. is_edge line.now start ≡ true) }
    {
        let mut at = from;
        let mut left = marks;
        while left != 0 {
            let after = left.trailing_zeros();
            if after as usize >= to - at {
                return None;
            }
            let start = at + after as usize;
            if self.can_start(line, start) {
                return Some(start);
            }
            left = (left >> after) >> 1u32;
            at = start + 1;
        }
        None
    }

    // The first of sixteen places at which a date can begin, not counting those before another place.
    #[inline(always)]
    fn in_block(
        &self,
        marks: &Marks,
        keyed: &KeyedLine<'_>,
        line: &[u8],
        start: usize,
        from: usize,
    ) -> Option<usize>
        requires keyed { IsKeyedBy marks.now.keys line.now keyed.now }
        requires ordered { (start ≤ from) × (from ≤ start + LANES) }
        requires within { start + REACH ≤ length line.now }
        requires marks { AreMarks (sources_of self.now) self.now.starts marks.now }
        ensures none { IfNone result (HasNoDate (sources_of self.now)
            line.now from (start + LANES)) }
        ensures within { IfSome result (λ place. (from ≤ place) × (place < start + LANES)) }
        ensures passed { IfSome result
            (HasNoDate (sources_of self.now) line.now from) }
        ensures edge { IfSome result (λ place. is_edge line.now place ≡ true) }
    {
        let bits = marks.bits(line, keyed, start);
        if bits == 0 {
            return None;
        }
        self.by_marks(line, from, start + LANES, bits >> (from - start) as u32)
    }

    // The only place of those after one at which a date of four bytes can begin, where these have no room for keys.
    #[inline(always)]
    fn by_last_four(&self, line: &[u8], from: usize) -> Option<usize>
        requires some { 4 ≤ length line.now }
        requires end { length line.now ≤ from + 4 }
        requires within { from ≤ length line.now }
        requires long { All (CannotStand 3 0) (sources_of self.now) }
        ensures none { IfNone result
            (HasNoDate (sources_of self.now) line.now from (length line.now)) }
        ensures within { IfSome result (λ start. (from ≤ start) × (start < length line.now)) }
        ensures passed { IfSome result
            (HasNoDate (sources_of self.now) line.now from) }
        ensures edge { IfSome result (λ start. is_edge line.now start ≡ true) }
    {
        if from == line.len() - 4 && self.can_start(line, from) {
            return Some(from);
        }
        None
    }

    // The first place from one on at which a date can begin, where less than sixteen places are left that have room for keys:
    // the last sixteen of these are looked at, and the place after them.
    #[inline(always)]
    fn by_rest(
        &self,
        marks: &Marks,
        keyed: &KeyedLine<'_>,
        line: &[u8],
        from: usize,
    ) -> Option<usize>
        requires keyed { IsKeyedBy marks.now.keys line.now keyed.now }
        requires some { REACH ≤ length line.now }
        requires few { length line.now < from + REACH }
        requires within { from ≤ length line.now }
        requires marks { AreMarks (sources_of self.now) self.now.starts marks.now }
        ensures none { IfNone result
            (HasNoDate (sources_of self.now) line.now from (length line.now)) }
        ensures within { IfSome result (λ start. (from ≤ start) × (start < length line.now)) }
        ensures passed { IfSome result
            (HasNoDate (sources_of self.now) line.now from) }
        ensures edge { IfSome result (λ start. is_edge line.now start ≡ true) }
    {
        let last = line.len() - (REACH - LANES);
        if from < last {
            if let Some(place) = self.in_block(marks, keyed, line, last - LANES, from) {
                return Some(place);
            }
        }
        self.by_last_four(line, from.max(last))
    }

    // The first place from one on at which a date can begin, looked for by marks, sixteen places at a time.
    #[inline(always)]
    fn by_blocks(&self, marks: &Marks, line: &[u8], from: usize) -> Option<usize>
        requires some { REACH ≤ length line.now }
        requires within { from ≤ length line.now }
        requires marks { AreMarks (sources_of self.now) self.now.starts marks.now }
        ensures none { IfNone result (HasNoDate (sources_of self.now) line.now from
            (min (limit_of self.now) (length line.now))) }
        ensures within { IfSome result (λ start. (from ≤ start) × (start < length line.now)) }
        ensures passed { IfSome result (HasNoDate (sources_of self.now) line.now from) }
        ensures edge { IfSome result (λ start. is_edge line.now start ≡ true) }
    {
        // (a copy, which is known to stay the same in the loop)
        let marks = *marks;
        let keyed = marks.keys.over(line);
        let stop = (line.len() - (REACH - 1)).min(self.limit);
        let mut at = from;
        while at < stop {
            if let Some(place) = self.in_block(&marks, &keyed, line, at, at) {
                return Some(place);
            }
            at += LANES;
        }
        if at >= self.limit {
            return None;
        }
        self.by_rest(&marks, &keyed, line, at)
    }

    // The first place from one on at which a date can begin.
    #[inline(always)]
    fn next_start(&self, line: &[u8], from: usize) -> Option<usize>
        requires { from ≤ length line.now }
        ensures none { IfNone result (HasNoDate (sources_of self.now) line.now from
            (min (limit_of self.now) (length line.now))) }
        ensures within { IfSome result (λ start. (from ≤ start) × (start < length line.now)) }
        ensures passed { IfSome result (HasNoDate (sources_of self.now) line.now from) }
        ensures edge { IfSome result (λ start. is_edge line.now start ≡ true) }
    {
        if line.len() < REACH {
            return self.by_bytes(line, from);
        }
        let Some(marks) = &self.marks else {
            return self.by_bytes(line, from);
        };
        self.by_blocks(marks, line, from)
    }

    // The bytes of a line that are looked at.
    #[inline(always)]
    fn looked_at<'l>(&self, line: &'l [u8]) -> &'l [u8]
        ensures { result.now ≡ looked_at (limit_of self.now) line.now }
    {
        if line.len() > self.limit && line.len() - self.limit > BEYOND {
            &line[..self.limit + BEYOND]
        } else {
            line
        }
    }

    /// How many bytes at the start of a line are passed over, since no date begins at them: `None` where none begins in the
    /// whole line, or at its places up to the limit. `Some` says nothing of what stands after them, and not that they are all such
    /// bytes.
    #[inline(always)]
    pub fn undated_len(&self, line: &[u8]) -> Option<usize>
        ensures none { IfNone result ((given : Given)
            → found (limit_of self.now) given (sources_of self.now) line.now ≡ None) }
        ensures within { IfSome result (λ start. start < length (looked_at (limit_of self.now) line.now)) }
        ensures passed { IfSome result
            (HasNoDate (sources_of self.now) (looked_at (limit_of self.now) line.now) 0) }
        ensures edge { IfSome result (λ start. is_edge (looked_at (limit_of self.now) line.now) start ≡ true) }
    {
        self.next_start(self.looked_at(line), 0)
    }

    // The date of the bytes that are looked at, where none begins before a place.
    #[inline(always)]
    fn find_in(
        &self,
        given: &Given,
        kept: &mut KeptDay,
        line: &[u8],
        first: usize,
    ) -> Option<Finding>
        requires within { first < length line.now }
        requires passed { HasNoDate (sources_of self.now) line.now 0 first }
        requires kept { IsKept given.now.zone kept.old }
        ensures kept { IsKept given.now.zone kept.new }
        ensures is { result ≡ found_in (limit_of self.now) given.now (sources_of self.now) line.now }
    {
        let end = self.end(line);
        let mut start = first;
        while start < end {
            if let Some(finding) = at_place(self.sources.as_slice(), given, kept, line, start) {
                return Some(finding);
            }
            let Some(next) = self.next_start(line, start + 1) else {
                return None;
            };
            start = next;
        }
        None
    }

    /// The date of a line with what is given, where none begins before a place, as `find` finds it: `undated_len` gives such a
    /// place. The two calls are for a caller that makes room for a date only where one may begin. What is kept of a zone's clock from
    /// date to date spares time alone.
    #[inline(always)]
    #[tactic(auto, unfolding(crate::specs::Found::found))]
    pub fn find_from(
        &self,
        given: &Given,
        kept: &mut KeptDay,
        line: &[u8],
        first: usize,
    ) -> Option<Finding>
        requires kept { IsKept given.now.zone kept.old }
        requires within { first < length (looked_at (limit_of self.now) line.now) }
        requires passed { HasNoDate (sources_of self.now) (looked_at (limit_of self.now) line.now) 0 first }
        ensures kept { IsKept given.now.zone kept.new }
        ensures found { result ≡ found (limit_of self.now) given.now (sources_of self.now) line.now }
        ensures within { IfSome result
            (IsWithin (limit_of self.now) line.now (length (sources_of self.now))) }
    {
        self.find_in(given, kept, self.looked_at(line), first)
    }

    /// The date of a line where nothing is given, if none begins before a place, which isn't inside a word, and the date there is
    /// found at once: a plan reads it, and it stands whole. `None` says nothing of the line. A caller that looks here first has the
    /// date's fields without room in memory for all that `find_from` may find.
    #[inline(always)]
    pub fn plain_date(&self, line: &[u8], first: usize) -> Option<Found>
        requires within { first < length (looked_at (limit_of self.now) line.now) }
        requires passed { HasNoDate (sources_of self.now) (looked_at (limit_of self.now) line.now) 0 first }
        requires edge { is_edge (looked_at (limit_of self.now) line.now) first ≡ true }
        ensures { IfSome result (λ date.
            Some (There date) ≡ found (limit_of self.now) nothing (sources_of self.now) line.now) }
    {
        if first >= self.limit {
            return None;
        }
        let Some(date) = plain_at(self.sources.as_slice(), self.looked_at(line), first) else {
            return None;
        };
        Some(date)
    }

    // The date of a text that is a date and nothing else, as a part of a line mostly is, if its only source reads it at once.
    #[inline(always)]
    #[tactic(auto, using(crate::proofs::Wholly::wholly_found))]
    fn whole_date(&self, text: &[u8]) -> Option<Found>
        ensures found { IfSome result (λ date. (given : Given)
            → Some (There date) ≡ found (limit_of self.now) given (sources_of self.now) text.now) }
        ensures within { IfSome result (LiesWithin (length text.now) (length (sources_of self.now))) }
    {
        let [source] = self.sources.as_slice() else {
            return None;
        };
        if self.limit == 0 {
            return None;
        }
        let Some(prefix) = source.read_whole(text) else {
            return None;
        };
        Some(found_at(0, 0, prefix))
    }

    /// The date of a line, with what is given: the longest that stands whole at the least place, among the first ones, at which a
    /// source reads a date. Where none that begins there stands whole the date is in doubt; `None` says that no source reads one.
    ///
    /// Of a line without a place at which one can begin nothing is made.
    #[inline(always)]
    pub fn find(&self, given: &Given, line: &[u8]) -> Option<Finding>
        ensures found { result ≡ found (limit_of self.now) given.now (sources_of self.now) line.now }
        ensures within { IfSome result
            (IsWithin (limit_of self.now) line.now (length (sources_of self.now))) }
    {
        if let Some(date) = self.whole_date(line) {
            return Some(Finding::There(date));
        }
        let Some(start) = self.undated_len(line) else {
            return None;
        };
        self.find_from(given, &mut KeptDay::none(), line, start)
    }

    /// Why what one source reads at a place is in doubt, with what is given: `find` gives such a place. `None` where the source of
    /// this number reads none there, where its date stands whole, and where no source has this number.
    pub fn doubt_of(
        &self,
        given: &Given,
        line: &[u8],
        start: usize,
        number: usize,
    ) -> Option<Doubted>
        requires { start < length (looked_at (limit_of self.now) line.now) }
        ensures is { result
            ≡ doubt_of (limit_of self.now) given.now (sources_of self.now) line.now start number }
        ensures start { IfSome result (λ date. date.start ≤ length line.now) }
        ensures end { IfSome result (λ date. date.end ≤ length line.now) }
    {
        let sources = self.sources.as_slice();
        if number >= sources.len() {
            return None;
        }
        doubted_at(&sources[number], given, self.looked_at(line), start, number)
    }
}

// The sources, with what is found of each once.
fn date_sources<'a>(
    alloc: Global,
    sources: Vec<Source<'a>>,
) -> Result<Vec<DateSource<'a>>, AllocError>
    ensures { IfOk result (λ dated. map grammar_in dated.items ≡ map grammar_of sources.entry.items) }
{
    let mut dated = Vec::with_capacity(alloc, sources.len())?;
    for source in sources {
        dated
            .push(DateSource::new(source))
            .map_err(AllocError::from)?;
    }
    Ok(dated)
}
