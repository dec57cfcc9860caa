//! What a format finds in lines, counted.
ghost use Rattle.std.specs.Prelude.{◌≡◌, ◌<◌, ◌≤◌, ◌+◌, if◌then◌else◌, pos, is_ok, Ok, Some, IfSome, IfNone, true, false};
ghost use Rattle.instants_answers.specs.Text.{FitsLine};
ghost use Rattle.instants_found.specs.declared.found.Finding.TheVariants.{There};
ghost use Rattle.instants_guess.specs.Tallies.{is_dated, is_doubtful, is_unwritten, is_written, most};

use calendar::UtcOffset;
use datetime_types::OffsetDateTime;
use instants_answers::{Answer, Target, rfc3339_line};
use instants_found::{Finding, Found};
use instants_timeline::shown_at;

/// How the dates that a format finds in lines stand to one another.
#[derive(Clone, Copy)]
pub(crate) struct Dates {
    /// The first one as it is written, the place where it begins, and how many bytes of the line it has.
    pub(crate) first: Answer,
    pub(crate) start: usize,
    pub(crate) len: usize,
    last: OffsetDateTime,
    // How many are before the one above, and how many begin elsewhere than the first.
    descents: usize,
    elsewhere: usize,
}

impl Dates {
    // With a date more, which is this moment in UTC.
    fn with(before: Option<Dates>, moment: OffsetDateTime, date: &Found) -> Dates
        requires { FitsLine moment }
    {
        let Some(dates) = before else {
            return Dates {
                first: rfc3339_line(moment),
                start: date.start,
                len: date.end.saturating_sub(date.start),
                last: moment,
                descents: 0,
                elsewhere: 0,
            };
        };
        let last = dates.last;
        let (descends, is_elsewhere) = (moment < last, date.start != dates.start);
        Dates {
            last: moment,
            descents: dates.descents.saturating_add(usize::from(descends)),
            elsewhere: dates.elsewhere.saturating_add(usize::from(is_elsewhere)),
            ..dates
        }
    }
}

/// How many lines a format dates, how many have a date in doubt, and how many one whose year is not written.
#[derive(Clone, Copy)]
pub(crate) struct Tally {
    pub(crate) dated: usize,
    pub(crate) doubtful: usize,
    pub(crate) unwritten: usize,
    pub(crate) dates: Option<Dates>,
}

// The moment of a date in UTC, where its year is written.
fn written(date: &Found) -> Option<OffsetDateTime>
    ensures some { IfSome result (λ _. is_written date.now ≡ true) }
    ensures none { IfNone result (is_written date.now ≡ false) }
    ensures fits { IfSome result FitsLine }
{
    shown_at(Target::new(UtcOffset::UTC), date.moment.moment())
}

impl Tally {
    /// Of no lines.
    pub(crate) const NONE: Tally = Tally {
        dated: 0,
        doubtful: 0,
        unwritten: 0,
        dates: None,
    };

    /// Whether of ten dates nine are not before the one above.
    pub(crate) fn ascends(&self) -> bool {
        match &self.dates {
            Some(dates) => dates.descents <= self.dated / 10,
            None => true,
        }
    }

    /// Whether of ten dates nine begin where the first does.
    pub(crate) fn is_aligned(&self) -> bool {
        match &self.dates {
            Some(dates) => dates.elsewhere <= self.dated / 10,
            None => true,
        }
    }

    // With a date more.
    fn with_date(self, date: &Found) -> Tally
        requires { self.dated + self.unwritten < most }
        ensures dated { result.dated
            ≡ self.dated + (if is_dated (Some (There date.now)) then 1 else 0) }
        ensures doubtful { result.doubtful ≡ self.doubtful }
        ensures unwritten { result.unwritten
            ≡ self.unwritten + (if is_unwritten (Some (There date.now)) then 1 else 0) }
        ensures one { result.dated + result.unwritten ≤ self.dated + self.unwritten + 1 }
    {
        match written(date) {
            Some(moment) => Tally {
                dated: self.dated + 1,
                dates: Some(Dates::with(self.dates, moment, date)),
                ..self
            },
            None => Tally {
                unwritten: self.unwritten + 1,
                ..self
            },
        }
    }

    /// With a line more, in which this is found.
    pub(crate) fn counted(self, finding: &Option<Finding>) -> Tally
        requires { self.dated + self.doubtful + self.unwritten < most }
        ensures dated { result.dated ≡ self.dated + (if is_dated finding.now then 1 else 0) }
        ensures doubtful { result.doubtful
            ≡ self.doubtful + (if is_doubtful finding.now then 1 else 0) }
        ensures unwritten { result.unwritten
            ≡ self.unwritten + (if is_unwritten finding.now then 1 else 0) }
        ensures one { result.dated + result.doubtful + result.unwritten
            ≤ self.dated + self.doubtful + self.unwritten + 1 }
    {
        match finding {
            None => self,
            Some(Finding::There(date)) => self.with_date(date),
            Some(_) => Tally {
                doubtful: self.doubtful + 1,
                ..self
            },
        }
    }
}
