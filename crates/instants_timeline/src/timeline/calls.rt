//! Lines placed on one timeline.
ghost use Rattle.std.specs.Prelude.{◌≡◌, ◌≢◌, ◌<◌, ◌+◌, [], ◌∷◌, ◌++◌, drop, length, map, None, Ok, IfOk, IfErr, IfSome, OnOk};
ghost use Rattle.parsing_combinator.specs.FaultOf.{fault_of, Gives};
ghost use Rattle.parsing_combinator.specs.ShortName.{HasShortName};
ghost use Rattle.calendar.specs.UtcOffset.{IsClockOffset};
ghost use Rattle.instants_answers.specs.Text.{FitsLine};
ghost use Rattle.instants_faults.specs.Refusal.{IsShort, long, refusal_said, year};
ghost use Rattle.instants_timeline.specs.Sources.{AllMean, IsRefusal};
ghost use Rattle.instants_words.specs.Sources.{said_by};
ghost use Rattle.instants_sources.specs.Grammar.{grammar_of};
ghost use Rattle.instants_timeline.specs.Place.{first_named, place_of, IsPlace};
ghost use Rattle.instants_timeline.specs.Settings.{setting_of};

use crate::shown::shown_at;
use crate::timeline::Timeline;
use crate::timeline::search::none_kept;
use calendar::UtcOffset;
use datetime_types::OffsetDateTime;
use instants_answers::Target;
use instants_faults::{LineFault, NewFault};
use instants_sources::Source;
use instants_words::SourceText;
use parsing_combinator::Parse;
use std::alloc::{AllocError, Global};

// Puts an item after others.
fn push<T: Drop>(items: &mut Vec<T>, item: T) -> Result<(), AllocError>
    ensures { OnOk result (items.new.items ≡ items.old.items ++ item ∷ []) }
{
    items.push(item).map_err(AllocError::from)?;
    Ok(())
}

impl<'a> Timeline<'a> {
    /// A timeline of these sources, in the order in which they are tried, shown at the target offset.
    ///
    /// The target and the assumed offset have whole minutes, within 23:59. Descriptions are read in order: the first
    /// one that is refused is the error, with its place counted from 1, or lack of memory is.
    pub fn new(
        alloc: Global,
        sources: &[SourceText<'a>],
        target: UtcOffset,
        assumed: Option<UtcOffset>,
    ) -> Result<Timeline<'a>, NewFault<'a>>
        requires sources { 0 < length sources.now }
        requires target { IsClockOffset target }
        requires assumed { IfSome assumed IsClockOffset }
        ensures sources { IfOk result
            (λ timeline. AllMean (map said_by sources.now) (setting_of timeline).sources) }
        ensures target { IfOk result (λ timeline. (setting_of timeline).target ≡ target) }
        ensures assumed { IfOk result (λ timeline. (setting_of timeline).assumed ≡ assumed) }
        ensures refused { IfErr result (IsRefusal (map said_by sources.now)) }
    {
        let mut read = Vec::with_capacity(alloc, sources.len())?;
        for text in sources {
            match Source::new(alloc, *text) {
                Ok(source) => push(&mut read, source)?,
                Err(fault) => return Err(NewFault::refused(read.len() + 1, fault)),
            }
        }
        Ok(Timeline {
            sources: read,
            target: Target::new(target),
            assumed,
        })
    }

    // The source that is tried first.
    #[inline(always)]
    pub(crate) fn first(&self) -> &Source<'a>
        ensures { (setting_of self.now).sources
            ≡ grammar_of result.now ∷ drop 1 (setting_of self.now).sources }
    {
        &self.sources.as_slice()[0]
    }

    // Whether there are sources after the first one.
    pub(crate) fn has_others(&self) -> bool {
        self.sources.len() > 1
    }

    // What the first source that names a moment names, and else the first source's fault. Each source is read by its fast way
    // before the exact one.
    #[inline(always)]
    fn named_moment(&self, line: &[u8]) -> Result<OffsetDateTime, Parse>
        ensures gives { Gives (λ m. m) fault_of result
            (first_named (setting_of self.now).assumed (setting_of self.now).sources line.now) }
        ensures short { IfErr result (λ fault. HasShortName (fault_of fault)) }
    {
        let first = self.first();
        let mut kept = none_kept();
        if self.keeps_fast(first, line, &mut kept) {
            return Ok(kept.moment());
        }
        if self.has_others() && first.cannot_match(line) {
            self.first_named(1, None, line, &mut kept)?;
            return Ok(kept.moment());
        }
        match first.read_exact(line, self.assumed) {
            Ok(moment) => Ok(moment),
            Err(fault) => {
                self.first_named(1, Some(fault), line, &mut kept)?;
                Ok(kept.moment())
            }
        }
    }

    /// The line's place: the moment that the first source with one names for the whole line, shown at the target.
    ///
    /// Without a moment the fault is the first source's. A moment whose year at the target is not 0 to 9999 is
    /// refused as `Year`, and no later source is tried then. The answer is never `Long`.
    #[inline(always)]
    #[tactic(auto, unfolding(crate::specs::Place::place_of))]
    pub fn place(&self, line: &[u8]) -> Result<OffsetDateTime, LineFault>
        ensures place { IsPlace result (place_of (setting_of self.now) line.now) }
        ensures fits { IfOk result FitsLine }
        ensures short { IfErr result (λ fault. IsShort (refusal_said fault)) }
        ensures never_long { IfErr result (λ fault. refusal_said fault ≢ long) }
    {
        match self.named_moment(line) {
            Ok(named) => shown_at(self.target, named).ok_or(LineFault::Year),
            Err(fault) => Err(LineFault::from(fault)),
        }
    }
}
