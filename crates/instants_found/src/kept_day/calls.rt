//! What is kept of a zone's clock, and which dates it is for.
ghost use Rattle.std.specs.Prelude.{◌↔◌, ◌≡◌, Some, Option, IfSome, IsTrue};
ghost use Rattle.std.specs.Borrow.{Bor};
ghost use Rattle.zones_clock.specs.declared.zone.Zone.{Zone};
ghost use Rattle.instants_found.specs.KeptDays.{IsKept, IsOn};

use crate::kept_day::KeptDay;
use crate::zoned::{DAY, calendar_offset, first_reading};
use calendar::UtcOffset;
use instants_sources::Named;
use parsing_values::{Fields, Year};
use zones_clock::Zone;

// Whether two years are the same, by one comparison of their digits.
#[inline(always)]
fn is_same_year(year: Year, other: Year) -> bool
    ensures { IsTrue result ↔ (year ≡ other) }
{
    u32::from_le_bytes(year.digits()) == u32::from_le_bytes(other.digits())
}

// Whether two days of a year are the same, by one comparison of both bytes.
#[inline(always)]
fn is_same_day(month: u8, day: u8, other_month: u8, other_day: u8) -> bool
    ensures { IsTrue result ↔ ((month ≡ other_month) × (day ≡ other_day)) }
{
    u16::from_le_bytes([month, day]) == u16::from_le_bytes([other_month, other_day])
}

impl KeptDay {
    /// No day yet.
    pub fn none() -> KeptDay
        ensures { (zone : Option (Bor Zone)) → IsKept zone result }
    {
        KeptDay {
            year: Year::new(0),
            month: 0,
            day: 0,
            offset: UtcOffset::UTC,
            minutes: 0,
        }
    }

    // Whether fields name a date of the day.
    #[inline(always)]
    pub(crate) fn has(&self, fields: &Fields) -> bool
        ensures { IsTrue result ↔ IsOn self.now fields.now }
    {
        is_same_year(fields.year, self.year)
            && is_same_day(fields.month, fields.day, self.month, self.day)
    }

    // The day of fields, where the clock of a zone is not changed near it and has whole minutes.
    fn of(zone: &Zone, fields: &Fields) -> Option<KeptDay>
        ensures { IfSome result (IsKept (Some zone.entry)) }
    {
        let first = first_reading(fields);
        let ahead = zone.sure_offset(first, first + (DAY - 1))?;
        if ahead % 60 != 0 {
            return None;
        }
        Some(KeptDay {
            year: fields.year,
            month: fields.month,
            day: fields.day,
            offset: calendar_offset(ahead),
            minutes: ahead / 60,
        })
    }

    // Keeps the day of a date on the clock of a zone in place of another one.
    pub(crate) fn keep(&mut self, zone: &Zone, date: &Named)
        requires { IsKept (Some zone) self.old }
        ensures { IsKept (Some zone.entry) self.new }
    {
        let Some(fields) = date.fields() else {
            return;
        };
        if let Some(day) = KeptDay::of(zone, fields) {
            *self = day;
        }
    }
}
