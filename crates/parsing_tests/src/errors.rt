//! Any refusal as one type, and back.

use calendar::{ComponentName, ComponentRange, ConversionRange, InvalidVariant};
use description::{DifferentVariant, InvalidFormatDescription};
use parsing::{Error, Parse, ParseFromDescription, TryFromParsed};

const UNREAD: ParseFromDescription = ParseFromDescription::InvalidComponent("offset hour");

const UNCLOSED: InvalidFormatDescription<'static> =
    InvalidFormatDescription::UnclosedOpeningBracket { index: 7 };

fn range() -> ComponentRange {
    ComponentRange::conditional(ComponentName::Day)
}

/// One refusal of each kind.
pub fn all() -> [Error<'static>; 7] {
    [
        Error::from(ConversionRange),
        Error::from(range()),
        Error::from(TryFromParsed::from(range())),
        Error::from(UNREAD),
        Error::from(UNCLOSED),
        Error::from(DifferentVariant),
        Error::from(InvalidVariant),
    ]
}

fn refusals_come_back() -> [bool; 7] {
    [
        ConversionRange::try_from(Error::from(ConversionRange)).is_ok(),
        ComponentRange::try_from(Error::from(range())).is_ok(),
        TryFromParsed::try_from(Error::from(TryFromParsed::from(range()))).is_ok(),
        ParseFromDescription::try_from(Error::from(UNREAD)).is_ok(),
        InvalidFormatDescription::try_from(Error::from(UNCLOSED)).is_ok(),
        DifferentVariant::try_from(Error::from(DifferentVariant)).is_ok(),
        InvalidVariant::try_from(Error::from(InvalidVariant)).is_ok(),
    ]
}

fn readings_come_back() -> [bool; 5] {
    let (bytes, record) = (Parse::from(UNREAD), Parse::from(range()));
    [
        Parse::try_from(Error::from(bytes)) == Ok(bytes),
        Parse::from(TryFromParsed::from(range())) == record,
        ParseFromDescription::try_from(bytes) == Ok(UNREAD),
        TryFromParsed::try_from(record) == Ok(TryFromParsed::from(range())),
        ComponentRange::try_from(TryFromParsed::from(range())) == Ok(range()),
    ]
}

#[test]
fn refusals(rt: HostRuntime) {
    assert!(rt; refusals_come_back() == [true; 7] && readings_come_back() == [true; 5]);
}
