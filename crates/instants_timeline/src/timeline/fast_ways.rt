//! The ways in which the lines of a timeline are answered, each by fast ways first.
ghost use Rattle.std.specs.Prelude.{◌≡◌, ◌≤◌, length, IfSome, Ok, Option, ℤ};
ghost use Rattle.parsing_values.specs.Moment.{moment_of};
ghost use Rattle.parsing_item_parts.specs.Listed.{ListedAssumes};
ghost use Rattle.parsing_plan.specs.Places.{AssumesMinutes};
ghost use Rattle.parsing_plan.specs.declared.plan.Plan.{Plan};
ghost use Rattle.instants_answers.specs.Line.{HoldsLine};
ghost use Rattle.instants_sources.specs.Grammar.{Grammar};
ghost use Rattle.instants_sources.specs.Named.{named};
ghost use Rattle.instants_sources.specs.Planned.{IsPlanned};
ghost use Rattle.instants_timeline.specs.Place.{Setting, answer_to};
ghost use Rattle.instants_timeline.specs.Settings.{setting_of};

use crate::timeline::Timeline;
use calendar::UtcOffset;
use instants_answers::Answer;
use instants_sources::{directly_named, is_no_rfc3339};
use instants_stream::AnswersLines;
use parsing_item_parts::ListedAt;
use parsing_plan::{Places, Plan, SplitPlaces, UnixTime, WholePlaces};
use parsing_values::Fields;

/// A way to answer the lines of a timeline, by the kind of its first source. All answer alike: a run over a stream is compiled
/// once for each, with that source's fast way within it, so that what it holds and the fields of a line stay in registers.
pub(crate) trait AnswerWay {
    /// What the first source of the timeline is.
    ghost leads: { Self → Setting → Type 0 };

    /// Writes the answer to a line, and a line feed, at the start of a room of at least 64 bytes, and says how many bytes they
    /// are.
    fn fill_answer(&self, timeline: &Timeline, line: &[u8], room: &mut [u8]) -> usize
        requires leads { ∥ leads self.now (setting_of timeline.now) ∥₁ }
        requires room { 64 ≤ length room.old }
        ensures line { HoldsLine (answer_to (setting_of timeline.now) line.now) result room.new }
        ensures size { length room.new ≡ length room.old };
}

/// Where RFC 3339 is tried first. One byte tells it from nearly all lines of the sources after it.
#[derive(Drop)]
pub(crate) struct Rfc3339Way;

impl AnswerWay for Rfc3339Way {
    ghost use Rattle.instants_sources.specs.Grammar.{Rfc3339};
    ghost use Rattle.instants_timeline.specs.FirstNamed.{IsLedBy};

    ghost leads = { λ _ setting. IsLedBy setting Rfc3339 };

    #[inline(always)]
    fn fill_answer(&self, timeline: &Timeline, line: &[u8], room: &mut [u8]) -> usize {
        if is_no_rfc3339(line) {
            return timeline.fill_after(line, room);
        }
        directly_named();
        match timeline.fill_usual_rfc3339(line, room) {
            Some(len) => len,
            None => timeline.fill_rest_rfc3339(line, room),
        }
    }
}

/// Where RFC 2822 is.
#[derive(Drop)]
pub(crate) struct Rfc2822Way;

impl AnswerWay for Rfc2822Way {
    ghost use Rattle.instants_sources.specs.Grammar.{Rfc2822};
    ghost use Rattle.instants_timeline.specs.FirstNamed.{IsLedBy};

    ghost leads = { λ _ setting. IsLedBy setting Rfc2822 };

    #[inline(always)]
    fn fill_answer(&self, timeline: &Timeline, line: &[u8], room: &mut [u8]) -> usize {
        directly_named();
        match timeline.fill_found(parsing_rfc2822_shapes::read_usual_fields(line), room) {
            Some(len) => len,
            None => timeline.fill_rest_rfc2822(line, room),
        }
    }
}

/// Where ISO 8601 is.
#[derive(Drop)]
pub(crate) struct Iso8601Way;

impl AnswerWay for Iso8601Way {
    ghost use Rattle.instants_sources.specs.Grammar.{Iso8601};
    ghost use Rattle.instants_timeline.specs.FirstNamed.{IsLedBy};

    ghost leads = { λ _ setting. IsLedBy setting Iso8601 };

    #[inline(always)]
    fn fill_answer(&self, timeline: &Timeline, line: &[u8], room: &mut [u8]) -> usize {
        directly_named();
        match timeline.fill_found(parsing_iso8601_shapes::read_usual_fields(line), room) {
            Some(len) => len,
            None => timeline.fill_rest_iso8601(line, room),
        }
    }
}

/// What reads lines as the plan of a description says.
pub(crate) trait ReadsPlanned {
    /// The plan.
    ghost planned: { Self → Plan };

    /// With which offsets that are assumed it reads.
    ghost assumes: { Self → Option ℤ → Type 0 };

    /// The fields of the moment of a line, where they are found, with an offset assumed or none: `None` says nothing of the
    /// line.
    fn read_planned(&self, line: &[u8], assumed: Option<UtcOffset>) -> Option<Fields>
        requires { ∥ assumes self.now assumed ∥₁ }
        ensures { (grammar : Grammar) → IsPlanned grammar (planned self.now) → IfSome result
            (λ fields. named assumed grammar line.now ≡ Ok (moment_of fields)) };
}

// Parts of fixed widths.
impl ReadsPlanned for WholePlaces<'_> {
    ghost use Rattle.parsing_plan.specs.declared.plan.Plan.TheVariants as plan;

    ghost planned = { λ whole. plan.Places whole.places.now };

    ghost assumes = { λ whole. AssumesMinutes whole.places.now whole.minutes };

    #[inline(always)]
    fn read_planned(&self, line: &[u8], assumed: Option<UtcOffset>) -> Option<Fields> {
        let _ = assumed;
        self.read(line)
    }
}

// A fraction of any number of digits among them.
impl ReadsPlanned for SplitPlaces<'_> {
    ghost use Rattle.parsing_plan.specs.declared.plan.Plan.TheVariants as plan;

    ghost planned = { λ split. plan.Places split.places.now };

    ghost assumes = { λ split. AssumesMinutes split.places.now split.minutes };

    #[inline(always)]
    fn read_planned(&self, line: &[u8], assumed: Option<UtcOffset>) -> Option<Fields> {
        let _ = assumed;
        self.read(line)
    }
}

// The name of a month, an offset, and numbers alone, as in a web server's log.
impl ReadsPlanned for &Places {
    ghost use Rattle.parsing_plan.specs.declared.plan.Plan.TheVariants as plan;

    ghost planned = { λ places. plan.Places places.now };

    ghost assumes = { λ _ _. Unit {0} };

    #[inline(always)]
    fn read_planned(&self, line: &[u8], assumed: Option<UtcOffset>) -> Option<Fields> {
        let _ = assumed;
        self.read_plain(line)
    }
}

impl ReadsPlanned for &UnixTime {
    ghost use Rattle.parsing_plan.specs.declared.plan.Plan.TheVariants as plan;

    ghost planned = { λ unix. plan.Unix unix.now };

    ghost assumes = { λ _ _. Unit {0} };

    #[inline(always)]
    fn read_planned(&self, line: &[u8], assumed: Option<UtcOffset>) -> Option<Fields> {
        // (it says when the moment is, and no offset counts)
        let _ = assumed;
        self.read_within(line)
    }
}

// A part after the other.
impl ReadsPlanned for ListedAt<'_> {
    ghost use Rattle.parsing_plan.specs.declared.plan.Plan.TheVariants as plan;

    ghost planned = { λ list. plan.Listed list.listed.now };

    ghost assumes = { λ list. ListedAssumes list };

    #[inline(always)]
    fn read_planned(&self, line: &[u8], assumed: Option<UtcOffset>) -> Option<Fields> {
        let _ = assumed;
        self.read(line)
    }
}

// Any other plan.
impl ReadsPlanned for &Plan {
    ghost planned = { λ plan. plan.now };

    ghost assumes = { λ _ _. Unit {0} };

    #[inline(always)]
    fn read_planned(&self, line: &[u8], assumed: Option<UtcOffset>) -> Option<Fields> {
        self.read(line, assumed)
    }
}

/// Where a description is that has a plan.
#[derive(Drop)]
pub(crate) struct PlannedWay<P> {
    pub(crate) plan: P,
}

impl<P: ReadsPlanned> AnswerWay for PlannedWay<P> {
    ghost use Rattle.instants_timeline.specs.FirstNamed.{IsLedByPlan};

    ghost leads = { λ way setting. IsLedByPlan setting (P.planned way.plan) × P.assumes way.plan setting.assumed };

    #[inline(always)]
    fn fill_answer(&self, timeline: &Timeline, line: &[u8], room: &mut [u8]) -> usize {
        let planned = self.plan.read_planned(line, timeline.assumed);
        match timeline.fill_found(planned, room) {
            Some(len) => len,
            None => timeline.fill_rest(line, room),
        }
    }
}

/// Where any source is, read the exact way: a description that has no plan.
#[derive(Drop)]
pub(crate) struct ExactWay;

impl AnswerWay for ExactWay {
    ghost leads = { λ _ _. Unit {0} };

    #[inline(always)]
    fn fill_answer(&self, timeline: &Timeline, line: &[u8], room: &mut [u8]) -> usize {
        timeline.fill_rest(line, room)
    }
}

/// A timeline whose lines are answered in the way of its first source.
#[derive(Drop)]
pub(crate) struct Led<'a, 'b, W: AnswerWay> {
    pub(crate) timeline: &'a Timeline<'b>,
    pub(crate) way: W,
    ghost leads: { ∥ W.leads way (setting_of timeline.now) ∥₁ },
}

impl<W: AnswerWay> AnswersLines for Led<'_, '_, W> {
    ghost use Rattle.instants_timeline.specs.Place.{answer_to};
    ghost use Rattle.instants_timeline.specs.Settings.{setting_of};

    ghost answer = { λ led. answer_to (setting_of led.timeline.now) };

    fn answer_line(&self, line: &[u8]) -> Answer {
        self.timeline.answer_line(line)
    }

    #[inline(always)]
    fn fill_answer(&self, line: &[u8], room: &mut [u8]) -> usize {
        self.way.fill_answer(self.timeline, line, room)
    }
}
