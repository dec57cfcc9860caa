//! A search for dates that is made ready once.
ghost use Rattle.std.specs.Prelude.{map};
ghost use Rattle.std.specs.Option.{ForSome};
ghost use Rattle.instants_prefixes.specs.DateSource.{grammar_in};
ghost use Rattle.instants_found.specs.Marks.{AreMarks};
ghost use Rattle.instants_found.specs.Starts.{AreMarked};

mod calls;

use crate::marks::Marks;
use instants_prefixes::DateSource;

/// Finds the date of a line by its sources. Places at which none can begin are passed sixteen at a time.
#[derive(Drop)]
pub struct Finder<'a> {
    pub(crate) sources: Vec<DateSource<'a>>,
    // How many places of a line are looked at.
    pub(crate) limit: usize,
    // The bytes at which a date can begin.
    pub(crate) starts: [bool; 256],
    // What stands in each date.
    pub(crate) marks: Option<Marks>,
    ghost starts_are: { AreMarked 0 (map grammar_in sources.items) starts },
    ghost marks_are: { ForSome marks (AreMarks (map grammar_in sources.items) starts) },
}
