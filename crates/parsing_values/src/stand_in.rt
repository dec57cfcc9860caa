//! Leap seconds, for each of which the last nanosecond before it stands.
ghost use Rattle.std.specs.Prelude.{◌≡◌};
ghost use Rattle.parsing_values.specs.MonthEnd.{ends_month};
ghost use Rattle.parsing_values.specs.StandIn.{is_stand_in, leap_checked};

use calendar::{ComponentName, ComponentRange, Date, Time, UtcOffset, util};
use datetime_types::OffsetDateTime;

// Whether the next day begins a month.
#[tactic(auto, using(crate::proofs::MonthEndLemmas::month_end))]
fn ends_month(date: Date) -> bool
    ensures { result ≡ ends_month date }
{
    let (year, month, day) = date.to_calendar_date();
    day == util::days_in_month(month, year)
}

/// Whether the moment can stand for a leap second: in UTC it is 23:59:59.999999999 of the last day of a month.
///
/// It can't where the calendar does not have its day in UTC.
#[tactic(auto, unfolding(crate::specs::StandIn::is_stand_in))]
pub fn is_valid_leap_second_stand_in(date_time: OffsetDateTime) -> bool
    ensures { result ≡ is_stand_in date_time }
{
    let Some(utc) = date_time.checked_to_offset(UtcOffset::UTC) else {
        return false;
    };
    utc.time() == Time::MAX && ends_month(utc.date())
}

/// The moment that was read; one with a second 60 is refused where it can't stand for a leap second.
#[tactic(auto, unfolding(crate::specs::StandIn::leap_checked))]
#[inline(always)]
pub fn leap_checked(
    is_leap: bool,
    date_time: OffsetDateTime,
) -> Result<OffsetDateTime, ComponentRange>
    ensures { result ≡ leap_checked is_leap date_time }
{
    if is_leap && !is_valid_leap_second_stand_in(date_time) {
        return Err(ComponentRange::conditional(ComponentName::Second));
    }
    Ok(date_time)
}
