//! How refusals are printed.

use crate::errors::all;
use parsing::{Parse, ParseFromDescription, TryFromParsed};
use std::alloc::{AllocError, Global};
use std::fmt::{Debug, Display};

static FAULTS: [Parse; 4] = [
    Parse::ParseFromDescription(ParseFromDescription::InvalidLiteral),
    Parse::ParseFromDescription(ParseFromDescription::InvalidComponent("day")),
    Parse::ParseFromDescription(ParseFromDescription::UnexpectedTrailingCharacters),
    Parse::TryFromParsed(TryFromParsed::InsufficientInformation),
];

// Adds each refusal by `{:?}`, and its sentence under a width, which only two heed.
fn tell<T: Debug + Display>(told: &mut String, refusals: &[T]) -> Result<(), AllocError> {
    for refusal in refusals {
        write!(told, "\n{refusal:?}: {refusal:>42}")?;
    }
    Ok(())
}

fn told(alloc: Global) -> Result<String, AllocError> {
    let mut told = String::new(alloc);
    tell(&mut told, &FAULTS)?;
    tell(&mut told, &all())?;
    Ok(told)
}

// That memory runs out fails the test.
fn are_told(alloc: Global) -> bool {
    match told(alloc) {
        Ok(told) => told.as_str() == REFUSALS,
        Err(_) => false,
    }
}

#[test]
fn refusals(rt: HostRuntime) {
    assert!(rt; are_told(rt.alloc()));
}

const REFUSALS: &str = r#"
ParseFromDescription(InvalidLiteral): a character literal was not valid
ParseFromDescription(InvalidComponent("day")): the 'day' component could not be parsed
ParseFromDescription(UnexpectedTrailingCharacters): unexpected trailing characters; the end of input was expected
TryFromParsed(InsufficientInformation): the `Parsed` struct did not include enough information to construct the type
ConversionRange(ConversionRange):     value out of range for the target type
ComponentRange(ComponentRange { component: Day, is_conditional: true }): day was not in range given values of other parameters
TryFromParsed(ComponentRange(ComponentRange { component: Day, is_conditional: true })): day was not in range given values of other parameters
ParseFromDescription(InvalidComponent("offset hour")): the 'offset hour' component could not be parsed
InvalidFormatDescription(UnclosedOpeningBracket { index: 7 }): unclosed opening bracket at byte index 7
DifferentVariant(DifferentVariant): value was of a different variant
InvalidVariant(InvalidVariant):              value was not a valid variant"#;
