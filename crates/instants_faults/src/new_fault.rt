//! Why no timeline could be made.
ghost use Rattle.std.specs.Prelude.{◌≡◌};

use description_lexer::{DescriptionFault, InvalidFormatDescription};
use std::alloc::AllocError;

/// Why no timeline could be made.
#[derive(Clone, Copy, Debug, PartialEq, Eq)]
pub enum NewFault<'a> {
    /// A source is no description.
    Source {
        /// Its place among the sources, counted from 1.
        place: usize,
        /// What is wrong with it.
        fault: InvalidFormatDescription<'a>,
    },
    /// Memory ran out.
    Memory,
}

impl<'a> NewFault<'a> {
    ghost use Rattle.instants_faults.specs.Refusals.{refused_at};

    /// The source in this place, counted from 1, was refused.
    pub fn refused(place: usize, fault: DescriptionFault<'a>) -> NewFault<'a>
        ensures { result ≡ refused_at place fault.entry }
    {
        match fault {
            DescriptionFault::Description(fault) => NewFault::Source { place, fault },
            DescriptionFault::Memory => NewFault::Memory,
        }
    }
}

impl From<AllocError> for NewFault<'_> {
    ghost use Rattle.std.specs.Prelude.{◌≡◌};
    ghost use Rattle.instants_faults.specs.declared.new_fault.NewFault.TheVariants.{Memory};

    ghost from_gives = { λ _ e. e ≡ Memory };

    fn from(_fault: AllocError) -> Self {
        NewFault::Memory
    }
}
