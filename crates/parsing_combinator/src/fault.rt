//! Why a text names no moment.
ghost use Rattle.std.specs.Prelude.{◌≡◌, Some};

use base::DifferentVariant;
use calendar_count::ComponentRange;
use std::fmt;

/// Bytes that can't be read. `Display` of this and of the other refusals is a sentence.
#[derive(Clone, Copy, Debug, PartialEq, Eq)]
pub enum ParseFromDescription {
    /// A text that is due is not there.
    InvalidLiteral,
    /// The component of this name can't be read: it is not there, or its number is out of range. The name is in small
    /// letters, as `offset hour`.
    InvalidComponent(&'static str),
    /// Something follows what was read.
    UnexpectedTrailingCharacters,
}

/// What was read names no value.
#[derive(Clone, Copy, Debug, PartialEq, Eq)]
pub enum TryFromParsed {
    /// It says too little: no group of components that would name the value is wholly there.
    InsufficientInformation,
    /// A component of it is out of range, alone or beside the others.
    ComponentRange(ComponentRange),
}

/// Why a text was refused.
#[derive(Clone, Copy, Debug, PartialEq, Eq)]
pub enum Parse {
    /// What was read names no value.
    TryFromParsed(TryFromParsed),
    /// The bytes can't be read.
    ParseFromDescription(ParseFromDescription),
}

impl fmt::Display for ParseFromDescription {
    ghost use Rattle.parsing_combinator.specs.FaultOf.{reading_fault};
    ghost use Rattle.parsing_combinator.specs.FaultText.{fault_text};

    ghost output = { λ e. Some (fault_text (reading_fault e)) };

    fn fmt<W: fmt::Write>(&self, f: &mut fmt::Formatter<W>) -> fmt::Result {
        match self {
            ParseFromDescription::InvalidLiteral => f.write_str(
                "a character literal was not valid",
            ),
            ParseFromDescription::InvalidComponent(name) => {
                write!(f, "the '{name}' component could not be parsed")
            }
            ParseFromDescription::UnexpectedTrailingCharacters => {
                f.write_str("unexpected trailing characters; the end of input was expected")
            }
        }
    }
}

impl fmt::Display for TryFromParsed {
    ghost use Rattle.parsing_combinator.specs.FaultOf.{resolution_fault};
    ghost use Rattle.parsing_combinator.specs.FaultText.{fault_text};

    ghost output = { λ e. Some (fault_text (resolution_fault e)) };

    fn fmt<W: fmt::Write>(&self, f: &mut fmt::Formatter<W>) -> fmt::Result {
        match self {
            TryFromParsed::InsufficientInformation => write!(
                f,
                "the `Parsed` struct did not include enough information to construct the type"
            ),
            TryFromParsed::ComponentRange(range) => range.fmt(f),
        }
    }
}

impl fmt::Display for Parse {
    ghost use Rattle.parsing_combinator.specs.FaultOf.{fault_of};
    ghost use Rattle.parsing_combinator.specs.FaultText.{fault_text};

    ghost output = { λ e. Some (fault_text (fault_of e)) };

    fn fmt<W: fmt::Write>(&self, f: &mut fmt::Formatter<W>) -> fmt::Result {
        match self {
            Parse::TryFromParsed(e) => e.fmt(f),
            Parse::ParseFromDescription(e) => e.fmt(f),
        }
    }
}

impl From<ComponentRange> for TryFromParsed {
    ghost use Rattle.parsing_combinator.specs.declared.fault.TryFromParsed.TheVariants as unresolved;

    ghost from_gives = { λ range e. e ≡ unresolved.ComponentRange range };

    #[inline(always)]
    fn from(range: ComponentRange) -> TryFromParsed {
        TryFromParsed::ComponentRange(range)
    }
}

impl From<TryFromParsed> for Parse {
    ghost use Rattle.parsing_combinator.specs.declared.fault.Parse.TheVariants as refused;

    ghost from_gives = { λ fault e. e ≡ refused.TryFromParsed fault };

    #[inline(always)]
    fn from(fault: TryFromParsed) -> Parse {
        Parse::TryFromParsed(fault)
    }
}

impl From<ParseFromDescription> for Parse {
    ghost use Rattle.parsing_combinator.specs.declared.fault.Parse.TheVariants as refused;

    ghost from_gives = { λ fault e. e ≡ refused.ParseFromDescription fault };

    #[inline(always)]
    fn from(fault: ParseFromDescription) -> Parse {
        Parse::ParseFromDescription(fault)
    }
}

impl From<ComponentRange> for Parse {
    ghost use Rattle.parsing_combinator.specs.declared.fault.TryFromParsed.TheVariants as unresolved;
    ghost use Rattle.parsing_combinator.specs.declared.fault.Parse.TheVariants as refused;

    ghost from_gives = { λ range e. e ≡ refused.TryFromParsed (unresolved.ComponentRange range) };

    #[inline(always)]
    fn from(range: ComponentRange) -> Parse {
        Parse::TryFromParsed(TryFromParsed::ComponentRange(range))
    }
}

impl TryFrom<TryFromParsed> for ComponentRange {
    ghost use Rattle.base.specs.Convert.{GivesBack};
    ghost use Rattle.parsing_combinator.specs.declared.fault.TryFromParsed.TheVariants as unresolved;

    type Error = DifferentVariant;

    ghost try_from_gives = { λ made result. GivesBack unresolved.ComponentRange made result };

    fn try_from(fault: TryFromParsed) -> Result<ComponentRange, DifferentVariant> {
        match fault {
            TryFromParsed::ComponentRange(range) => Ok(range),
            TryFromParsed::InsufficientInformation => Err(DifferentVariant),
        }
    }
}

impl TryFrom<Parse> for TryFromParsed {
    ghost use Rattle.base.specs.Convert.{GivesBack};
    ghost use Rattle.parsing_combinator.specs.declared.fault.Parse.TheVariants as refused;

    type Error = DifferentVariant;

    ghost try_from_gives = { λ made result. GivesBack refused.TryFromParsed made result };

    fn try_from(fault: Parse) -> Result<TryFromParsed, DifferentVariant> {
        match fault {
            Parse::TryFromParsed(unresolved) => Ok(unresolved),
            Parse::ParseFromDescription(_) => Err(DifferentVariant),
        }
    }
}

impl TryFrom<Parse> for ParseFromDescription {
    ghost use Rattle.base.specs.Convert.{GivesBack};
    ghost use Rattle.parsing_combinator.specs.declared.fault.Parse.TheVariants as refused;

    type Error = DifferentVariant;

    ghost try_from_gives = { λ made result. GivesBack refused.ParseFromDescription made result };

    fn try_from(fault: Parse) -> Result<ParseFromDescription, DifferentVariant> {
        match fault {
            Parse::ParseFromDescription(unread) => Ok(unread),
            Parse::TryFromParsed(_) => Err(DifferentVariant),
        }
    }
}
