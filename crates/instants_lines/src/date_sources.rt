//! What dates are found by, and where they are shown.

mod calls;

use calendar::UtcOffset;
pub(crate) use calls::first_lacking;
use instants_answers::Target;
use instants_found::Finder;
use instants_lines_words::LinePart;

/// Sources that are looked for in lines or in a part of each, the offset that they assume for whole lines, and the target at which moments are shown.
#[derive(Drop)]
pub(crate) struct DateSources<'a> {
    pub(crate) finder: Finder<'a>,
    pub(crate) part: Option<LinePart<'a>>,
    pub(crate) assumed: Option<UtcOffset>,
    pub(crate) target: Target,
}
