//! The abbreviations of a footer, which are added to those of the table.
ghost use Rattle.std.specs.Prelude.{◌≡◌, length, IfOk, OnOk};
ghost use Rattle.zones_file.specs.Footer.{names_after, ended};

use std::alloc::AllocError;
use zones_clock::Zone;
use zones_rule::{Footer, Names};

// The place after letters, which a file is too short to have too many of.
fn place_after(letters: &[u8]) -> Result<u16, AllocError>
    ensures { IfOk result (λ place. place ≡ length letters.now) }
{
    u16::try_from(letters.len()).map_err(|_| AllocError)
}

// Adds the names of a footer to the letters of a zone, and says where they stand.
pub(crate) fn push_names(zone: &mut Zone, footer: &Footer<'_>) -> Result<Names, AllocError>
    ensures names { IfOk result (λ names. names ≡ names_after zone.old.letters.items footer.now.standard_name.now) }
    ensures letters { OnOk result (zone.new.letters.items ≡ ended (ended zone.old.letters.items footer.now.standard_name.now) footer.now.summer_name.now) }
    ensures first { zone.new.first ≡ zone.old.first }
    ensures first_name { zone.new.first_name ≡ zone.old.first_name }
    ensures steps { zone.new.steps.items ≡ zone.old.steps.items }
{
    let standard = place_after(&zone.letters)?;
    zone.push_name(footer.standard_name)?;
    let summer = place_after(&zone.letters)?;
    zone.push_name(footer.summer_name)?;
    Ok(Names { standard, summer })
}
