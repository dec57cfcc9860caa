//! All that words ask of lines in modes with keys, with the clock of a zone.
ghost use Rattle.std.specs.Prelude.{◌≡◌, true};
ghost use Rattle.instants_lines.specs.Going.{has_keys};

mod calls;

use instants_lines::OpenLines;
use zones_clock::Zone;

/// All that words ask of lines in modes `key` and `carry`, with the clock of the zone that they name.
#[derive(Drop)]
pub struct ZonedLines<'a> {
    lines: OpenLines<'a>,
    zone: Option<Zone>,
    ghost keys: { has_keys lines.mode ≡ true },
}
