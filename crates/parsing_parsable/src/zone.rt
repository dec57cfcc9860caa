//! The offset of a record, set by a zone.
ghost use Rattle.std.specs.Prelude.{◌≡◌, ◌≤◌};
ghost use Rattle.parsing_components.specs.Ranged.{under};
ghost use Rattle.parsing_parsable.specs.Put as Put;

use parsing_combinator::Zone;
use parsing_record::Parsed;

// A number under its sign.
fn under(is_negative: bool, number: u8) -> i8
    requires { number ≤ 59 }
    ensures { result ≡ under is_negative number }
{
    let number = number as i8;
    if is_negative { -number } else { number }
}

/// Sets the hours and minutes, and for a zone with a name the seconds.
pub(crate) fn set_zone(zone: Zone, parsed: &mut Parsed)
    requires hours { zone.hours ≤ 25 }
    requires minutes { zone.minutes ≤ 59 }
    ensures { parsed.new ≡ Put.put_zone zone parsed.old }
{
    parsed.set_offset_hour(under(zone.is_negative, zone.hours));
    parsed.set_offset_minute_signed(under(zone.is_negative, zone.minutes));
    if zone.is_named {
        parsed.set_offset_second_signed(0);
    }
}
