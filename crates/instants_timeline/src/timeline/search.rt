//! The search for the first source that names a moment for a line.
ghost use Rattle.std.specs.Prelude.{◌≡◌, ◌<◌, ◌≤◌, ◌+◌, ◌∷◌, true, false, drop, length, None, Ok, IfErr, IfSome, IfNone};
ghost use Rattle.std.specs.Result.{result_ok};
ghost use Rattle.parsing_combinator.specs.FaultOf.{fault_of, Gives};
ghost use Rattle.parsing_combinator.specs.ShortName.{HasShortName};
ghost use Rattle.instants_sources.specs.Grammar.{grammar_of};
ghost use Rattle.instants_sources.specs.Named.{named};
ghost use Rattle.instants_timeline.specs.FirstNamed.{IsFirstFault, NamesFrom};
ghost use Rattle.instants_timeline.specs.Place.{first_named};
ghost use Rattle.instants_timeline.specs.Settings.{setting_of};

use crate::timeline::Timeline;
use calendar::{Date, Time};
use datetime_types::OffsetDateTime;
use instants_sources::{Named, Source};
use parsing_combinator::Parse;

impl<'a> Timeline<'a> {
    // The first source from a place on that the first bytes of a line do not rule out, and its place.
    #[inline(always)]
    pub(super) fn likely(&self, from: usize, line: &[u8]) -> Option<(usize, &Source<'a>)>
        requires { NamesFrom (setting_of self.now) line.now from }
        ensures later { IfSome result (λ x. from ≤ x.0) }
        ensures within { IfSome result (λ x. x.0 < length (setting_of self.now).sources) }
        ensures from { IfSome result (λ x. NamesFrom (setting_of self.now) line.now x.0) }
        ensures source { IfSome result (λ x. drop x.0 (setting_of self.now).sources
            ≡ grammar_of x.1.now ∷ drop (x.0 + 1) (setting_of self.now).sources) }
        ensures none { IfNone result (result_ok (first_named (setting_of self.now).assumed
            (setting_of self.now).sources line.now) ≡ None) }
    {
        let sources = self.sources.as_slice();
        let mut place = from;
        while place < sources.len() {
            let source = &sources[place];
            if !source.cannot_match(line) {
                return Some((place, source));
            }
            place += 1;
        }
        None
    }

    // Whether the fast way of a source finds the moment of a line, which is kept then: `false` says nothing of the line.
    #[inline(never)]
    pub(super) fn keeps_fast(&self, source: &Source, line: &[u8], kept: &mut Named) -> bool
        ensures { result ≡ true
            → named (setting_of self.now).assumed (grammar_of source.now) line.now ≡ Ok kept.new }
    {
        let Some(fields) = source.read_fast(line, self.assumed) else {
            return false;
        };
        *kept = Named::of_fields(fields);
        true
    }

    // Whether a source names a moment for a line, which is kept then: its fast way is tried before the exact one.
    #[inline(never)]
    fn keeps_named(&self, source: &Source, line: &[u8], kept: &mut Named) -> bool
        ensures named { result ≡ true
            → named (setting_of self.now).assumed (grammar_of source.now) line.now ≡ Ok kept.new }
        ensures none { result ≡ false → result_ok
            (named (setting_of self.now).assumed (grammar_of source.now) line.now) ≡ None }
    {
        if self.keeps_fast(source, line, kept) {
            return true;
        }
        match source.read_exact(line, self.assumed) {
            Ok(moment) => {
                *kept = Named::of_moment(moment);
                true
            }
            Err(_) => false,
        }
    }

    // What the sources name for a line, where those before a place name no moment: the moment that the first source with one
    // names, which is kept, or else the first source's fault. Where that is not known it is read the exact way.
    #[inline(never)]
    pub(super) fn first_named(
        &self,
        from: usize,
        known: Option<Parse>,
        line: &[u8],
        kept: &mut Named,
    ) -> Result<(), Parse>
        requires from { NamesFrom (setting_of self.now) line.now from }
        requires known { IfSome known
            (λ fault. IsFirstFault (setting_of self.now) line.now (fault_of fault)) }
        requires short { IfSome known (λ fault. HasShortName (fault_of fault)) }
        ensures gives { Gives (λ _. kept.new) fault_of result
            (first_named (setting_of self.now).assumed (setting_of self.now).sources line.now) }
        ensures short { IfErr result (λ fault. HasShortName (fault_of fault)) }
    {
        let mut place = from;
        while let Some((likely, source)) = self.likely(place, line) {
            if self.keeps_named(source, line, kept) {
                return Ok(());
            }
            place = likely + 1;
        }
        if let Some(fault) = known {
            return Err(fault);
        }
        match self.first().read_exact(line, self.assumed) {
            Ok(moment) => {
                *kept = Named::of_moment(moment);
                Ok(())
            }
            Err(fault) => Err(fault),
        }
    }
}

// What stands where a moment will be kept.
#[inline(always)]
pub(super) fn none_kept() -> Named {
    Named::of_moment(OffsetDateTime::new_utc(Date::UNIX_EPOCH, Time::MIDNIGHT))
}
