//! What writes lines.
ghost use Rattle.std.specs.Prelude.{◌≡◌, ◌≤◌, true, [], ◌∷◌, ◌++◌, length};
ghost use Rattle.base.specs.Bytes.{tab};
ghost use Rattle.instants_prefixes.specs.Given.{nothing};
ghost use Rattle.instants_found.specs.KeptDays.{IsKept};
ghost use Rattle.instants_lines.specs.KeptDay.{IsKept-prop};
ghost use Rattle.instants_lines.specs.Showing.{given_of};

mod calls;
mod dates;
mod keys;
mod writes;

use crate::date_sources::DateSources;
use crate::known::Known;
use instants_answers::Answer;
use instants_found::KeptDay;
use instants_lines_words::Mode;
use zones_clock::Zone;

/// Writes lines in a mode, by their dates, or has their keys or dates without writing. It keeps the key that a line without a date takes,
/// the year of the last date where one is given, and how deep the last line with a date begins.
#[derive(Drop)]
pub struct LineWriter<'a, 'b> {
    mode: Mode,
    dates: &'a DateSources<'b>,
    known: Known,
    zone: Option<&'a Zone>,
    // Whether nothing is given, which is found once.
    is_plain: bool,
    label: Option<&'a str>,
    key: Answer,
    // The same and a tab, which are written at once.
    tabbed: Answer,
    // Where the key of a line is made, from which it is written.
    storage: Answer,
    // How deep the last line with a date begins.
    indent: Option<usize>,
    // The day of the last date on the zone's clock.
    kept: KeptDay,
    ghost kept_is: { IsKept zone kept } by { IsKept-prop zone kept },
    ghost plain: { is_plain ≡ true → given_of known zone ≡ nothing },
    // There is room for a tab after it.
    ghost room: { length key ≤ 63 },
    ghost tabbed_is: { tabbed ≡ key ++ tab ∷ [] },
}
