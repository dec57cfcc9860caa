//! Why a description was not read.

use crate::invalid_format_description::InvalidFormatDescription;
use std::alloc::{AllocError, AllocFailed};

/// Why a description was not read.
#[derive(Clone, Copy, Debug, PartialEq, Eq)]
pub enum DescriptionFault<'a> {
    /// The text is no description.
    Description(InvalidFormatDescription<'a>),
    /// Memory ran out. Nothing is said of the text.
    Memory,
}

impl From<AllocError> for DescriptionFault<'_> {
    ghost use Rattle.std.specs.Prelude.{◌≡◌};
    ghost use Rattle.description_lexer.specs.declared.description_fault.DescriptionFault.TheVariants.{Memory};

    ghost from_gives = { λ _ fault. fault ≡ Memory };

    fn from(_refused: AllocError) -> Self {
        DescriptionFault::Memory
    }
}

impl<T: Drop> From<AllocFailed<T>> for DescriptionFault<'_> {
    ghost use Rattle.std.specs.Prelude.{◌≡◌};
    ghost use Rattle.description_lexer.specs.declared.description_fault.DescriptionFault.TheVariants.{Memory};

    ghost from_gives = { λ _ fault. fault ≡ Memory };

    fn from(_refused: AllocFailed<T>) -> Self {
        DescriptionFault::Memory
    }
}

impl<'a> From<InvalidFormatDescription<'a>> for DescriptionFault<'a> {
    ghost use Rattle.std.specs.Prelude.{◌≡◌};
    ghost use Rattle.description_lexer.specs.declared.description_fault.DescriptionFault.TheVariants.{Description};

    ghost from_gives = { λ invalid fault. fault ≡ Description invalid };

    fn from(invalid: InvalidFormatDescription<'a>) -> Self {
        DescriptionFault::Description(invalid)
    }
}
