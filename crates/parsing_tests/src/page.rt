//! The lines at the heads of the crates `description` and `parsing`.
use description::{BorrowedFormatItem, parse, parse_strftime_borrowed};
use parsing::{Items, Parsable, Rfc2822, Rfc3339};
use std::test::Fail;

fn readings(items: &[BorrowedFormatItem<'_>]) -> [bool; 3] {
    let moment = Items(items).parse_offset_date_time(b"01.07.2003, 10:52 +02", None);
    let same = Rfc2822.parse_offset_date_time(b"Tue, 1 Jul 2003 10:52 +0200", None);
    let refused = Rfc3339.parse_offset_date_time(b"2003-07-01", None);
    [moment.is_ok(), moment == same, refused.is_err()]
}

#[test]
fn description_page(rt: HostRuntime) -> Result<(), Fail> {
    let alloc = rt.alloc();
    let items = parse(alloc, "[day]/[month]")?;
    let letters = parse_strftime_borrowed(alloc, "%d/%m")?;
    assert!(rt; items.as_slice() == letters.as_slice());
    let refused = format!(in alloc; "{:?}", parse(alloc, "[day]/[month").err())?;
    assert!(rt; refused.as_str() == "Some(Description(UnclosedOpeningBracket { index: 6 }))");
    Ok(())
}

#[test]
fn parsing_page(rt: HostRuntime) -> Result<(), Fail> {
    let items = parse(
        rt.alloc(),
        "[day].[month].[year], [hour]:[minute] [offset_hour]",
    )?;
    assert!(rt; readings(&items) == [true; 3]);
    Ok(())
}
