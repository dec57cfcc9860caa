//! All that words ask of lines.
ghost use Rattle.std.specs.Prelude.{◌≡◌, ◌≤◌};
ghost use Rattle.instants_lines.specs.Going.{room};
ghost use Rattle.instants_lines.specs.Showing.{limit_in, part_in};

mod calls;

use crate::date_sources::DateSources;
use crate::known::Known;
use instants_lines_words::Mode;

/// All that words ask of lines, but for the clock of the zone that they name: that is handed to each call.
#[derive(Drop)]
pub struct OpenLines<'a> {
    mode: Mode,
    label: Option<&'a str>,
    // The name of the zone on whose clock dates are that say no offset.
    zone: Option<&'a str>,
    known: Known,
    dates: DateSources<'a>,
    // The greatest length of lines for which there is room.
    most: usize,
    ghost most_is: { most ≡ room (part_in dates) (limit_in dates) },
    ghost few: { most ≤ 1_048_576 },
}
