//! Any refusal of this library but lack of memory.
ghost use Rattle.std.specs.Prelude.{◌≡◌, Some};
ghost use Rattle.base.specs.Convert.{GivesBack};
ghost use Rattle.parsing.specs.Error.{error_of, error_text};
ghost use Rattle.parsing.specs.declared.error.Error.TheVariants as error;

use calendar_count::{ComponentRange, ConversionRange, InvalidVariant};
use description_items::DifferentVariant;
use description_lexer::InvalidFormatDescription;
use parsing_combinator::{Parse, ParseFromDescription, TryFromParsed};
use std::fmt;

/// Any refusal but lack of memory, as one type. Each is made into it by `from`, and given back by `try_from`, which
/// answers `DifferentVariant` where it was another.
#[derive(Clone, Copy, Debug, PartialEq, Eq)]
pub enum Error<'a> {
    /// A number does not fit the type that it is converted to.
    ConversionRange(ConversionRange),
    /// A component is out of range.
    ComponentRange(ComponentRange),
    /// What was read names no value.
    TryFromParsed(TryFromParsed),
    /// Bytes can't be read.
    ParseFromDescription(ParseFromDescription),
    /// A description is wrong.
    InvalidFormatDescription(InvalidFormatDescription<'a>),
    /// A value was of another variant.
    DifferentVariant(DifferentVariant),
    /// A text names no variant.
    InvalidVariant(InvalidVariant),
}

impl fmt::Display for Error<'_> {
    ghost output = { λ e. Some (error_text e) };

    fn fmt<W: fmt::Write>(&self, f: &mut fmt::Formatter<W>) -> fmt::Result {
        match self {
            Error::ConversionRange(e) => e.fmt(f),
            Error::ComponentRange(e) => e.fmt(f),
            Error::TryFromParsed(e) => e.fmt(f),
            Error::ParseFromDescription(e) => e.fmt(f),
            Error::InvalidFormatDescription(e) => e.fmt(f),
            Error::DifferentVariant(e) => e.fmt(f),
            Error::InvalidVariant(e) => e.fmt(f),
        }
    }
}

impl From<Parse> for Error<'_> {
    ghost from_gives = { λ e made. made ≡ error_of e };

    fn from(e: Parse) -> Self {
        match e {
            Parse::TryFromParsed(e) => Error::TryFromParsed(e),
            Parse::ParseFromDescription(e) => Error::ParseFromDescription(e),
        }
    }
}

impl TryFrom<Error<'_>> for Parse {
    type Error = DifferentVariant;

    ghost try_from_gives = { λ made result. GivesBack error_of made result };

    fn try_from(e: Error<'_>) -> Result<Parse, DifferentVariant> {
        match e {
            Error::TryFromParsed(e) => Ok(Parse::TryFromParsed(e)),
            Error::ParseFromDescription(e) => Ok(Parse::ParseFromDescription(e)),
            _ => Err(DifferentVariant),
        }
    }
}

impl From<ConversionRange> for Error<'_> {
    ghost from_gives = { λ e made. made ≡ error.ConversionRange e };

    fn from(e: ConversionRange) -> Self {
        Error::ConversionRange(e)
    }
}

impl TryFrom<Error<'_>> for ConversionRange {
    type Error = DifferentVariant;

    ghost try_from_gives = { λ made result. GivesBack error.ConversionRange made result };

    fn try_from(e: Error<'_>) -> Result<ConversionRange, DifferentVariant> {
        match e {
            Error::ConversionRange(e) => Ok(e),
            _ => Err(DifferentVariant),
        }
    }
}

impl From<ComponentRange> for Error<'_> {
    ghost from_gives = { λ e made. made ≡ error.ComponentRange e };

    fn from(e: ComponentRange) -> Self {
        Error::ComponentRange(e)
    }
}

impl TryFrom<Error<'_>> for ComponentRange {
    type Error = DifferentVariant;

    ghost try_from_gives = { λ made result. GivesBack error.ComponentRange made result };

    fn try_from(e: Error<'_>) -> Result<ComponentRange, DifferentVariant> {
        match e {
            Error::ComponentRange(e) => Ok(e),
            _ => Err(DifferentVariant),
        }
    }
}

impl From<TryFromParsed> for Error<'_> {
    ghost from_gives = { λ e made. made ≡ error.TryFromParsed e };

    fn from(e: TryFromParsed) -> Self {
        Error::TryFromParsed(e)
    }
}

impl TryFrom<Error<'_>> for TryFromParsed {
    type Error = DifferentVariant;

    ghost try_from_gives = { λ made result. GivesBack error.TryFromParsed made result };

    fn try_from(e: Error<'_>) -> Result<TryFromParsed, DifferentVariant> {
        match e {
            Error::TryFromParsed(e) => Ok(e),
            _ => Err(DifferentVariant),
        }
    }
}

impl From<ParseFromDescription> for Error<'_> {
    ghost from_gives = { λ e made. made ≡ error.ParseFromDescription e };

    fn from(e: ParseFromDescription) -> Self {
        Error::ParseFromDescription(e)
    }
}

impl TryFrom<Error<'_>> for ParseFromDescription {
    type Error = DifferentVariant;

    ghost try_from_gives = { λ made result. GivesBack error.ParseFromDescription made result };

    fn try_from(e: Error<'_>) -> Result<ParseFromDescription, DifferentVariant> {
        match e {
            Error::ParseFromDescription(e) => Ok(e),
            _ => Err(DifferentVariant),
        }
    }
}

impl<'a> From<InvalidFormatDescription<'a>> for Error<'a> {
    ghost from_gives = { λ e made. made ≡ error.InvalidFormatDescription e };

    fn from(e: InvalidFormatDescription<'a>) -> Self {
        Error::InvalidFormatDescription(e)
    }
}

impl<'a> TryFrom<Error<'a>> for InvalidFormatDescription<'a> {
    type Error = DifferentVariant;

    ghost try_from_gives = { λ made result. GivesBack error.InvalidFormatDescription made result };

    fn try_from(e: Error<'a>) -> Result<InvalidFormatDescription<'a>, DifferentVariant> {
        match e {
            Error::InvalidFormatDescription(e) => Ok(e),
            _ => Err(DifferentVariant),
        }
    }
}

impl From<DifferentVariant> for Error<'_> {
    ghost from_gives = { λ e made. made ≡ error.DifferentVariant e };

    fn from(e: DifferentVariant) -> Self {
        Error::DifferentVariant(e)
    }
}

impl TryFrom<Error<'_>> for DifferentVariant {
    type Error = DifferentVariant;

    ghost try_from_gives = { λ made result. GivesBack error.DifferentVariant made result };

    fn try_from(e: Error<'_>) -> Result<DifferentVariant, DifferentVariant> {
        match e {
            Error::DifferentVariant(e) => Ok(e),
            _ => Err(DifferentVariant),
        }
    }
}

impl From<InvalidVariant> for Error<'_> {
    ghost from_gives = { λ e made. made ≡ error.InvalidVariant e };

    fn from(e: InvalidVariant) -> Self {
        Error::InvalidVariant(e)
    }
}

impl TryFrom<Error<'_>> for InvalidVariant {
    type Error = DifferentVariant;

    ghost try_from_gives = { λ made result. GivesBack error.InvalidVariant made result };

    fn try_from(e: Error<'_>) -> Result<InvalidVariant, DifferentVariant> {
        match e {
            Error::InvalidVariant(e) => Ok(e),
            _ => Err(DifferentVariant),
        }
    }
}
