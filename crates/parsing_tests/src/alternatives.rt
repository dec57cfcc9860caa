//! Items made by hand, as a reader and by the calls of the record.

use description::modifier::{Day, Hour24, Padding};
use description::{BorrowedFormatItem, Component};
use parsing::{Parsable, Parsed};

const DAY: BorrowedFormatItem<'static> = BorrowedFormatItem::Component(Component::Day(Day {
    padding: Padding::Zero,
}));

const HOUR: Component = Component::Hour24(Hour24 {
    padding: Padding::Zero,
});

const DASH: BorrowedFormatItem<'static> = BorrowedFormatItem::StringLiteral("-");

// Whether each call reads its bytes, and all but the first set the record.
fn are_read(parsed: &mut Parsed) -> [bool; 5] {
    [
        Parsed::parse_literal(b"ab", b"a").is_ok(),
        parsed.parse_component(b"23x", HOUR).is_ok(),
        parsed.parse_item(b"07", &DAY).is_ok(),
        DAY.parse_into_counted(b"05-", parsed) == (Ok(b"-".as_slice()), 1),
        parsed.parse_items(b"-31", &[DASH, DAY]) == Ok(b"".as_slice()),
    ]
}

#[test]
fn record(rt: HostRuntime) {
    let mut parsed = Parsed::new();
    let are_read = are_read(&mut parsed);
    assert!(rt; are_read == [true; 5] && parsed.hour_24() == Some(23) && parsed.day() == Some(31));
}
