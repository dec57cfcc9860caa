//! The steps that a rule gives a zone's clock, and the clock by a rule.
ghost use Rattle.std.specs.Prelude.{◌≡◌, ◌≤◌, ◌++◌, IsTrue, Some, None, pos, false, OnOk, IfOk};
ghost use Rattle.zones_clock.specs.Steps.{offset_at, IsOffset};
ghost use Rattle.zones_rule.specs.Offsets.{AreOffsets, AreClockOffsets};
ghost use Rattle.zones_rule.specs.Transitions as Transitions;
ghost use Rattle.zones_rule.specs.Pushing as Pushing;

use crate::rule::{Names, Rule, Summer};
use crate::years::{Clock, Transition};
use std::alloc::AllocError;
use zones_clock::{Step, Zone};

// The last year whose transitions count.
const LAST_YEAR: u64 = 9999;

// The calendar repeats itself every 400 years. The year 1 is looked at beside them, since a rule may mean a day before it.
const DISTINCT_YEARS: u64 = 401;

impl Clock {
    // Whether the transitions of no year come before those of the year before it.
    fn are_years_in_order(self) -> bool
        ensures { result ≡ Transitions.years_in_order self.standard self.summer 9_999 }
    {
        let (_, mut last) = self.transitions_in(1);
        for year in 1..DISTINCT_YEARS + 1 {
            let (first, second) = self.transitions_in(year + 1);
            if last.at > first.at {
                return false;
            }
            last = second;
        }
        true
    }

    // Whether it is summer time at a moment.
    fn is_summer_at(self, moment: i64) -> bool
        ensures { result ≡ Transitions.is_summer_by false (Transitions.all_years self.standard self.summer) moment }
    {
        let mut is_summer = false;
        for year in 1..LAST_YEAR + 1 {
            let (first, second) = self.transitions_in(year);
            if moment < first.at {
                return is_summer;
            }
            if moment < second.at {
                return first.is_summer;
            }
            is_summer = second.is_summer;
        }
        is_summer
    }

    // A transition as a step.
    fn step_of(self, names: Names, transition: Transition) -> Step
        requires { AreClockOffsets self }
        ensures value { result ≡ Transitions.step_of self.standard self.summer names transition }
        ensures offset { IsOffset result.offset }
    {
        let (offset, name) = if transition.is_summer {
            (self.summer.offset, names.summer)
        } else {
            (self.standard, names.standard)
        };
        Step {
            from: transition.at,
            offset,
            name,
        }
    }

    // Adds the step that was put off, if the next transition comes after it, and says what is put off now.
    fn push_before(
        self,
        names: Names,
        zone: &mut Zone,
        pending: Option<Transition>,
        next: Transition,
        moment: i64,
    ) -> Result<Option<Transition>, AllocError>
        requires offsets { AreClockOffsets self }
        requires ready { Pushing.IsReady zone.old.steps.items moment pending next.at }
        ensures first { zone.new.first ≡ zone.old.first }
        ensures first_name { zone.new.first_name ≡ zone.old.first_name }
        ensures letters { zone.new.letters.items ≡ zone.old.letters.items }
        ensures all { IfOk result (λ kept. Pushing.LosesNothing self names moment zone.new.steps.items kept zone.old.steps.items pending next) }
        ensures ready { IfOk result (λ kept. Pushing.IsReady zone.new.steps.items moment kept next.at) }
    {
        let Some(last) = pending else {
            return Ok(if moment < next.at { Some(next) } else { None });
        };
        if last.at < next.at {
            zone.push(self.step_of(names, last))?;
        }
        Ok(Some(next))
    }

    // Adds the steps of all years that come after a moment.
    fn push_years(self, names: Names, zone: &mut Zone, moment: i64) -> Result<(), AllocError>
        requires offsets { AreClockOffsets self }
        requires order { IsTrue (Transitions.years_in_order self.standard self.summer 9_999) }
        requires last { Transitions.LastHasBegun zone.old.steps.items moment }
        ensures first { zone.new.first ≡ zone.old.first }
        ensures first_name { zone.new.first_name ≡ zone.old.first_name }
        ensures letters { zone.new.letters.items ≡ zone.old.letters.items }
        ensures pushed { OnOk result (zone.new.steps.items ≡ zone.old.steps.items
            ++ Transitions.steps_by self.standard (Some self.summer) names moment) }
    {
        let mut pending = None;
        for year in 1..LAST_YEAR + 1 {
            let (first, second) = self.transitions_in(year);
            pending = self.push_before(names, zone, pending, first, moment)?;
            pending = self.push_before(names, zone, pending, second, moment)?;
        }
        if let Some(last) = pending {
            zone.push(self.step_of(names, last))?;
        }
        Ok(())
    }
}

impl Rule {
    // The clock with a summer time.
    fn with(&self, summer: Summer) -> Clock
        ensures { result ≡ record { standard = self.now.standard; summer = summer } }
    {
        Clock {
            standard: self.standard,
            summer,
        }
    }

    /// Whether the transitions of each year up to 9999 come no earlier than those of the year before it: the last of a year
    /// may be at the instant of the next year's first, as where it is summer time all year.
    pub fn is_in_order(&self) -> bool
        ensures { result ≡ Transitions.is_in_order self.now.standard self.now.summer }
    {
        match self.summer {
            None => true,
            Some(summer) => self.with(summer).are_years_in_order(),
        }
    }

    // How far the clock is ahead of UTC at a moment.
    fn offset_by_years(&self, moment: i64) -> i32
        ensures { result ≡ Transitions.offset_by_rule self.now moment }
    {
        match self.summer {
            Some(summer) if self.with(summer).is_summer_at(moment) => summer.offset,
            _ => self.standard,
        }
    }

    /// How many seconds the clock is ahead of UTC at a moment, given in seconds since 1970-01-01T00:00:00Z, by the rule's
    /// years 1 to 9999.
    pub fn offset_at(&self, moment: i64) -> i32
        ensures value { result ≡ Transitions.offset_by_rule self.now moment }
        ensures law { Transitions.AreYearsInOrder self.now → Transitions.FollowsRule self.now moment result }
    {
        self.offset_by_years(moment)
    }

    /// Adds to a zone the steps that the rule gives after a moment, in seconds since 1970-01-01T00:00:00Z, up to the year
    /// 9999. The error is that memory ended; the zone then has some of them.
    pub fn push_steps(&self, names: Names, zone: &mut Zone, moment: i64) -> Result<(), AllocError>
        requires order { Transitions.AreYearsInOrder self.now }
        requires offsets { AreOffsets self.now }
        requires last { Transitions.LastHasBegun zone.old.steps.items moment }

        ensures pushed { OnOk result (zone.new.steps.items
            ≡ zone.old.steps.items ++ Transitions.steps_after self.now names moment) }
        ensures law { OnOk result (offset_at zone.old.first zone.old.steps.items moment ≡ Transitions.offset_by_rule self.now moment
            → Transitions.FollowsFrom self.now moment zone.new.first zone.new.steps.items) }

        ensures first { zone.new.first ≡ zone.old.first }
        ensures first_name { zone.new.first_name ≡ zone.old.first_name }
        ensures letters { zone.new.letters.items ≡ zone.old.letters.items }
    {
        if let Some(summer) = self.summer {
            self.with(summer).push_years(names, zone, moment)?;
        }
        Ok(())
    }
}
