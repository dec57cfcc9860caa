//! The date of a text.
ghost use Rattle.std.specs.Prelude.{IfOk};
ghost use Rattle.std.specs.Int.{IsInRange};
ghost use Rattle.calendar_count.specs.Range.{IsYear};
ghost use Rattle.parsing_combinator.specs.FaultOf.{Gives, reading_fault};
ghost use Rattle.parsing_iso8601.specs.Dates as Dates;
ghost use Rattle.parsing_iso8601.specs.Ranges.{IsDateInRange};

use crate::kind::{Kind, dash};
use crate::number;
use crate::written::WrittenDate;
use calendar_count::{Month, Weekday};
use parsing_combinator::ParseFromDescription::{self, InvalidComponent};
use parsing_combinator::byte;

// A month and a day of it.
#[tactic(auto, unfolding(crate::specs::Dates::month_and_day))]
#[inline(always)]
fn month_and_day(kind: Kind, bytes: &[u8]) -> Result<((Month, u8), &[u8]), ParseFromDescription>
    ensures gives { Gives (λ x. (x.0, x.1.now)) reading_fault result
        (Dates.month_and_day kind bytes.now) }
    ensures range { IfOk result (λ x. IsInRange 1 99 x.0.1) }
{
    let (month, rest) = number::month(bytes).ok_or(InvalidComponent("month"))?;
    let rest = dash(kind, rest)?;
    let (day, rest) = number::two_from_one(rest).ok_or(InvalidComponent("day"))?;
    Ok(((month, day), rest))
}

/// The date after its year: a month and a day of it, a day of the year, or a week and a day of it; without any form, the
/// fault of the first. ISO 8601-1:2019, section 5.2.
#[tactic(auto, unfolding(crate::specs::Dates::date_after, crate::specs::Dates::date_of_month, crate::specs::Dates::date_without_month, crate::specs::Dates::date_of_year, crate::specs::Dates::date_of_week, crate::specs::Dates::week_and_weekday))]
#[inline(always)]
pub fn date_after(
    kind: Kind,
    year: i32,
    bytes: &[u8],
) -> Result<(WrittenDate, &[u8]), ParseFromDescription>
    requires year { IsYear year }
    ensures gives { Gives (λ x. (x.0, x.1.now)) reading_fault result
        (Dates.date_after kind year bytes.now) }
    ensures range { IfOk result (λ x. IsDateInRange x.0) }
{
    let fault = match month_and_day(kind, bytes) {
        Ok(((month, day), rest)) => {
            if day > 31 {
                return Err(InvalidComponent("day"));
            }
            return Ok((WrittenDate::OfMonth(year, month, day), rest));
        }
        Err(fault) => fault,
    };
    if let Some((ordinal, rest)) = number::ordinal(bytes) {
        if ordinal > 366 {
            return Err(InvalidComponent("ordinal"));
        }
        return Ok((WrittenDate::OfYear(year, ordinal), rest));
    }
    let rest = byte(b'W', bytes).ok_or(fault)?;
    let (week, rest) = number::two_from_one(rest).ok_or(InvalidComponent("week"))?;
    let rest = dash(kind, rest)?;
    let (weekday, rest) = number::weekday(rest).ok_or(InvalidComponent("weekday"))?;
    if week > 53 {
        return Err(InvalidComponent("week"));
    }
    Ok((WrittenDate::OfWeek(year, week, weekday), rest))
}
