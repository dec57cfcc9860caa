//! The lines at the heads of the crates `calendar` and `datetime`.
use calendar::{Date, Month, SignedDuration, UtcOffset};
use datetime::OffsetDateTime;
use std::test::Fail;

#[test]
fn calendar_page(rt: HostRuntime) -> Result<(), Fail> {
    let alloc = rt.alloc();
    let day = Date::from_calendar_date(2024, Month::February, 29)?;
    let later = day.checked_add(SignedDuration::WEEK).ok_or("no such day")?;
    let (year, week, weekday) = later.to_iso_week_date();
    let text = format!(in alloc; "{later} is {weekday} of week {week} of {year}")?;
    assert!(rt; text.as_str() == "2024-03-07 is Thursday of week 10 of 2024");
    Ok(())
}

#[test]
fn datetime_page(rt: HostRuntime) -> Result<(), Fail> {
    let alloc = rt.alloc();
    use datetime::WallClock;
    let utc = OffsetDateTime::from_unix_timestamp(1_709_251_198)?;
    let offset = UtcOffset::from_hms(5, 30, 0)?;
    let east = utc.checked_to_offset(offset).ok_or("no such day")?;
    let text = format!(in alloc; "{east} is a {}", east.weekday())?;
    assert!(rt; text.as_str() == "2024-03-01 5:29:58.0 +05:30:00 is a Friday");
    Ok(())
}
