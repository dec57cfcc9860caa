//! Items: equality, conversions, texts, newer forms.

use crate::support::{tell, tell_all};
use description_items::modifier::*;
use description_items::{
    BorrowedFormatItem, Component, DifferentVariant, Iso8601, Period as HalfOfDay, Rfc2822, Rfc3339,
};
use description_tree::Lent;
use std::alloc::Global;

const DAY: BorrowedFormatItem<'static> = BorrowedFormatItem::Component(Component::Day(Day {
    padding: Padding::None,
}));

const TEXT: BorrowedFormatItem<'static> = BorrowedFormatItem::StringLiteral("x");

const BYTES: BorrowedFormatItem<'static> = BorrowedFormatItem::Literal(b"x");

const TEXT_AND_DAY: [BorrowedFormatItem<'static>; 2] = [TEXT, DAY];

const BYTES_AND_DAY: [BorrowedFormatItem<'static>; 2] = [BYTES, DAY];

// Text and the same bytes are alike, also in lists.
fn are_alike() -> [bool; 2] {
    let list = BorrowedFormatItem::Compound(&TEXT_AND_DAY);
    let alike = BorrowedFormatItem::Compound(&BYTES_AND_DAY);
    [list == alike, list == TEXT]
}

// A component comes back from the item that it becomes, and from no other.
fn components_come_back() -> bool {
    let minute = Component::Minute(Minute::default());
    let item = BorrowedFormatItem::from(minute);
    item == BorrowedFormatItem::Component(minute)
        && Component::try_from(item) == Ok(minute)
        && Component::try_from(TEXT) == Err(DifferentVariant)
}

// So does a slice of items.
fn slices_come_back() -> bool {
    let list = BorrowedFormatItem::from(TEXT_AND_DAY.as_slice());
    match <&[BorrowedFormatItem]>::try_from(list) {
        Ok(items) => items.len() == 2,
        Err(_) => false,
    }
}

#[test]
fn items_are_equal_by_their_trees_and_come_back(rt: HostRuntime) {
    assert!(rt;
        are_alike() == [true, false]
            && components_come_back()
            && slices_come_back()
            && HalfOfDay::Am != HalfOfDay::Pm
            && (Rfc2822, Rfc3339, Iso8601) == (Rfc2822, Rfc3339, Iso8601)
    );
}

// Items, halves of days and lists of a tree that are lent, and a fault.
fn shown(alloc: Global) -> String {
    let mut told = String::new(alloc);
    tell(&mut told, BorrowedFormatItem::First(&TEXT_AND_DAY));
    tell(&mut told, HalfOfDay::Am);
    tell(&mut told, Lent { items: &[] });
    let _ = write!(told, "\n{DifferentVariant}");
    told
}

const SHOWN: &str = r#"
First([StringLiteral("x"), Component(Day(Day { padding: None }))])
Am
Lent { items: [] }
value was of a different variant"#;

// Components, each before its newer form.
fn newer_forms() -> [Component; 10] {
    let month = Component::Month(Month::default().with_repr(MonthRepr::Short));
    let year = Component::Year(Year::default().with_iso_week_based(true));
    let hour = Component::Hour(Hour::default().with_padding(Padding::None));
    let timestamp = Component::UnixTimestamp(UnixTimestamp::default());
    let day = Component::Day(Day::default());
    [
        month,
        month.modern(),
        year,
        year.modern(),
        hour,
        hour.modern(),
        timestamp,
        timestamp.modern(),
        day,
        day.modern(),
    ]
}

#[test]
fn texts_and_newer_forms(rt: HostRuntime) {
    let shown = shown(rt.alloc());
    let mut newer = String::new(rt.alloc());
    tell_all(&mut newer, &newer_forms());
    assert!(rt; shown.as_str() == SHOWN && newer.as_str() == NEWER);
}

const NEWER: &str = r#"
Month(Month { padding: Zero, repr: Short, case_sensitive: true })
MonthShort(MonthShort { case_sensitive: true })
Year(Year { padding: Zero, repr: Full, range: Extended, iso_week_based: true, sign_is_mandatory: false })
IsoYearFullExtendedRange(IsoYearFullExtendedRange { padding: Zero, sign_is_mandatory: false })
Hour(Hour { padding: None, is_12_hour_clock: false })
Hour24(Hour24 { padding: None })
UnixTimestamp(UnixTimestamp { precision: Second, sign_is_mandatory: false })
UnixTimestampSecond(UnixTimestampSecond { sign_is_mandatory: false })
Day(Day { padding: Zero })
Day(Day { padding: Zero })"#;
