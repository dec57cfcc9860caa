//! What is given for dates that lack it, beside a zone.
ghost use Rattle.std.specs.Prelude.{◌≡◌, None, true};
ghost use Rattle.instants_prefixes.specs.Given.{nothing};
ghost use Rattle.instants_lines.specs.Showing.{given_of};

use calendar::UtcOffset;
use instants_prefixes::{Given, Years};
use zones_clock::Zone;

/// What is given for dates that lack it, beside a zone.
#[derive(Clone, Copy)]
pub(crate) struct Known {
    pub(crate) offset: Option<UtcOffset>,
    pub(crate) years: Years,
    pub(crate) time: Option<u16>,
}

impl Known {
    /// Whether nothing is given beside a zone.
    pub(crate) fn is_nothing(self) -> bool
        ensures { result ≡ true → given_of self None ≡ nothing }
    {
        matches!(
            (self.offset, self.years, self.time),
            (None, Years::Unknown, None)
        )
    }

    /// The same, with a zone.
    #[inline(always)]
    pub(crate) fn on(self, zone: Option<&Zone>) -> Given<'_>
        ensures { result ≡ given_of self zone.entry }
    {
        Given {
            offset: self.offset,
            zone,
            years: self.years,
            time: self.time,
        }
    }
}
