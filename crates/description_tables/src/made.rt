//! The component that a name and its chosen values make.

ghost use Rattle.std.specs.Prelude.{◌≡◌, IfSome};
ghost use Rattle.description_items.specs.Modern.{modern};
ghost use Rattle.description_tables.specs.Made.{month_repr, weekday_repr, week_repr, year_repr, default_range, is_twelve, month_made, weekday_made, week_number_made, year_made, hour_made, period_made, offset_hour_made, unix_timestamp_made, made};

use crate::chosen::Chosen;
use crate::names::Name;
use crate::values::Repr;
use description_items::Component;
use description_items::modifier::{
    self, MonthRepr, Padding, SubsecondDigits, TrailingInput, UnixTimestampPrecision,
    WeekNumberRepr, WeekdayRepr, YearRange, YearRepr,
};
use description_lexer::DescriptionVersion;

fn month_repr(repr: Option<Repr>) -> MonthRepr
    ensures { result ≡ month_repr repr }
{
    match repr {
        Some(Repr::Long) => MonthRepr::Long,
        Some(Repr::Short) => MonthRepr::Short,
        _ => MonthRepr::Numerical,
    }
}

fn weekday_repr(repr: Option<Repr>) -> WeekdayRepr
    ensures { result ≡ weekday_repr repr }
{
    match repr {
        Some(Repr::Short) => WeekdayRepr::Short,
        Some(Repr::Sunday) => WeekdayRepr::Sunday,
        Some(Repr::Monday) => WeekdayRepr::Monday,
        _ => WeekdayRepr::Long,
    }
}

fn week_repr(repr: Option<Repr>) -> WeekNumberRepr
    ensures { result ≡ week_repr repr }
{
    match repr {
        Some(Repr::Sunday) => WeekNumberRepr::Sunday,
        Some(Repr::Monday) => WeekNumberRepr::Monday,
        _ => WeekNumberRepr::Iso,
    }
}

fn year_repr(repr: Option<Repr>) -> YearRepr
    ensures { result ≡ year_repr repr }
{
    match repr {
        Some(Repr::Century) => YearRepr::Century,
        Some(Repr::LastTwo) => YearRepr::LastTwo,
        _ => YearRepr::Full,
    }
}

fn default_range(version: DescriptionVersion) -> YearRange
    ensures { result ≡ default_range version }
{
    match version {
        DescriptionVersion::One | DescriptionVersion::Two => YearRange::Extended,
        DescriptionVersion::Three => YearRange::Standard,
    }
}

fn is_twelve(repr: Option<Repr>) -> bool
    ensures { result ≡ is_twelve repr }
{
    matches!(repr, Some(Repr::Twelve))
}

// The month that modifiers ask for.
fn month(chosen: Chosen) -> Component
    ensures { result ≡ month_made chosen }
{
    Component::Month(modifier::Month {
        padding: chosen.padding.unwrap_or(Padding::Zero),
        repr: month_repr(chosen.repr),
        case_sensitive: chosen.case_sensitive.unwrap_or(true),
    })
    .modern()
}

// The weekday that modifiers ask for.
fn weekday(chosen: Chosen) -> Component
    ensures { result ≡ weekday_made chosen }
{
    Component::Weekday(modifier::Weekday {
        repr: weekday_repr(chosen.repr),
        one_indexed: chosen.one_indexed.unwrap_or(true),
        case_sensitive: chosen.case_sensitive.unwrap_or(true),
    })
    .modern()
}

// The week that modifiers ask for.
fn week_number(chosen: Chosen) -> Component
    ensures { result ≡ week_number_made chosen }
{
    Component::WeekNumber(modifier::WeekNumber {
        padding: chosen.padding.unwrap_or(Padding::Zero),
        repr: week_repr(chosen.repr),
    })
    .modern()
}

// The year that modifiers ask for.
fn year(version: DescriptionVersion, chosen: Chosen) -> Component
    ensures { result ≡ year_made version chosen }
{
    Component::Year(modifier::Year {
        padding: chosen.padding.unwrap_or(Padding::Zero),
        repr: year_repr(chosen.repr),
        range: chosen.range.unwrap_or(default_range(version)),
        iso_week_based: chosen.base.unwrap_or(false),
        sign_is_mandatory: chosen.sign.unwrap_or(false),
    })
    .modern()
}

// The hour that modifiers ask for.
fn hour(chosen: Chosen) -> Component
    ensures { result ≡ hour_made chosen }
{
    Component::Hour(modifier::Hour {
        padding: chosen.padding.unwrap_or(Padding::Zero),
        is_12_hour_clock: is_twelve(chosen.repr),
    })
    .modern()
}

// The half of the day that modifiers ask for.
fn period(chosen: Chosen) -> Component
    ensures { result ≡ period_made chosen }
{
    Component::Period(modifier::Period {
        is_uppercase: chosen.case.unwrap_or(true),
        case_sensitive: chosen.case_sensitive.unwrap_or(true),
    })
}

// The hours of an offset that modifiers ask for.
fn offset_hour(chosen: Chosen) -> Component
    ensures { result ≡ offset_hour_made chosen }
{
    Component::OffsetHour(modifier::OffsetHour {
        sign_is_mandatory: chosen.sign.unwrap_or(false),
        padding: chosen.padding.unwrap_or(Padding::Zero),
    })
}

// The Unix time that modifiers ask for.
fn unix_timestamp(chosen: Chosen) -> Component
    ensures { result ≡ unix_timestamp_made chosen }
{
    Component::UnixTimestamp(modifier::UnixTimestamp {
        precision: chosen.precision.unwrap_or(UnixTimestampPrecision::Second),
        sign_is_mandatory: chosen.sign.unwrap_or(false),
    })
    .modern()
}

/// The component with the chosen values, and the defaults elsewhere, if it lacks none that it must
/// have.
#[tactic(auto, using(crate::proofs::ModernForms::made_is))]
pub fn made(version: DescriptionVersion, name: Name, chosen: Chosen) -> Option<Component>
    ensures value { result ≡ made version name chosen }
    ensures modern { IfSome result (λ component. modern component ≡ component) }
{
    let padding = chosen.padding.unwrap_or(Padding::Zero);
    let component = match name {
        Name::Day => Component::Day(modifier::Day { padding }),
        Name::Ordinal => Component::Ordinal(modifier::Ordinal { padding }),
        Name::Minute => Component::Minute(modifier::Minute { padding }),
        Name::Second => Component::Second(modifier::Second { padding }),
        Name::OffsetMinute => Component::OffsetMinute(modifier::OffsetMinute { padding }),
        Name::OffsetSecond => Component::OffsetSecond(modifier::OffsetSecond { padding }),
        Name::Month => month(chosen),
        Name::Weekday => weekday(chosen),
        Name::WeekNumber => week_number(chosen),
        Name::Year => year(version, chosen),
        Name::Hour => hour(chosen),
        Name::Period => period(chosen),
        Name::Subsecond => Component::Subsecond(modifier::Subsecond {
            digits: chosen.digits.unwrap_or(SubsecondDigits::OneOrMore),
        }),
        Name::OffsetHour => offset_hour(chosen),
        Name::Ignore => Component::Ignore(modifier::Ignore::count(chosen.count?)?),
        Name::UnixTimestamp => unix_timestamp(chosen),
        Name::End => Component::End(modifier::End {
            trailing_input: chosen.trailing_input.unwrap_or(TrailingInput::Prohibit),
        }),
    };
    Some(component)
}
