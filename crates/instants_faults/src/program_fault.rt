//! What ends the program early.
ghost use Rattle.std.specs.Prelude.{◌≡◌, Some};

use crate::new_fault::NewFault;
use instants_stream::RunFault;
use instants_words::WordsFault;
use std::alloc::AllocError;
use std::fmt;

/// Why the program did not answer its whole input. `Display` gives the sentence for standard error, without a line
/// feed.
#[derive(Clone, Copy, Debug, PartialEq, Eq)]
pub enum ProgramFault<'a> {
    /// The words are wrong.
    Words(WordsFault),
    /// No timeline could be made of them.
    New(NewFault<'a>),
    /// A device failed.
    Run(RunFault),
    /// Memory ran out, or the words were not to be had.
    Memory,
}

impl ProgramFault<'_> {
    ghost use Rattle.instants_faults.specs.ProgramText.{status_of};

    /// The status to end with: 2 where the words or a description among them are wrong, else 1.
    pub fn status(&self) -> u8
        ensures { result ≡ status_of self.now }
    {
        match self {
            ProgramFault::Words(WordsFault::Memory) => 1,
            ProgramFault::Words(_) => 2,
            ProgramFault::New(NewFault::Source { .. }) => 2,
            ProgramFault::New(NewFault::Memory) | ProgramFault::Run(_) | ProgramFault::Memory => 1,
        }
    }
}

impl fmt::Display for ProgramFault<'_> {
    ghost use Rattle.std.specs.Prelude.{Some};
    ghost use Rattle.instants_faults.specs.ProgramText.{sentence};

    ghost output = { λ fault. Some (sentence fault) };

    fn fmt<W: fmt::Write>(&self, f: &mut fmt::Formatter<W>) -> fmt::Result {
        let text = FaultText {
            fault: *self,
            usage: USAGE,
        };
        write!(f, "instants{text}")
    }
}

// The words of the program after its name.
const USAGE: &str = "instants TARGET ASSUMED LIMIT SOURCE...";

/// What a program says of a fault after its name, as `: reading failed`.
#[derive(Clone, Copy, Debug, PartialEq, Eq)]
pub struct FaultText<'a, 'b> {
    pub fault: ProgramFault<'a>,
    /// How the program is called.
    pub usage: &'b str,
}

impl fmt::Display for FaultText<'_, '_> {
    ghost use Rattle.std.specs.Prelude.{Some};
    ghost use Rattle.instants_faults.specs.ProgramText.{text_of};

    ghost output = { λ text. Some (text_of text.usage.now text.fault) };

    fn fmt<W: fmt::Write>(&self, f: &mut fmt::Formatter<W>) -> fmt::Result {
        let usage = self.usage;
        match &self.fault {
            ProgramFault::Words(WordsFault::Usage) => write!(f, ": usage: {usage}"),
            ProgramFault::Words(WordsFault::Target) => {
                f.write_str(": the target offset must be +HH:MM or -HH:MM")
            }
            ProgramFault::Words(WordsFault::Assumed) => {
                f.write_str(": the assumed offset must be +HH:MM, -HH:MM or -")
            }
            ProgramFault::Words(WordsFault::Limit) => {
                f.write_str(": the limit must be a number from 1 to 1048576")
            }
            ProgramFault::Words(WordsFault::Source(place)) => {
                write!(
                    f,
                    ": source {place} is not a known source with its description"
                )
            }
            ProgramFault::New(NewFault::Source { place, fault }) => {
                write!(f, ": source {place}: {fault}")
            }
            ProgramFault::Run(RunFault::Read) => f.write_str(": reading failed"),
            ProgramFault::Run(RunFault::Write) => f.write_str(": writing failed"),
            ProgramFault::Words(WordsFault::Memory)
            | ProgramFault::New(NewFault::Memory)
            | ProgramFault::Memory => f.write_str(": out of memory"),
        }
    }
}

impl From<WordsFault> for ProgramFault<'_> {
    ghost use Rattle.std.specs.Prelude.{◌≡◌};
    ghost use Rattle.instants_faults.specs.declared.program_fault.ProgramFault.TheVariants as program;

    ghost from_gives = { λ fault e. e ≡ program.Words fault };

    fn from(fault: WordsFault) -> Self {
        ProgramFault::Words(fault)
    }
}

impl<'a> From<NewFault<'a>> for ProgramFault<'a> {
    ghost use Rattle.std.specs.Prelude.{◌≡◌};
    ghost use Rattle.instants_faults.specs.declared.program_fault.ProgramFault.TheVariants as program;

    ghost from_gives = { λ fault e. e ≡ program.New fault };

    fn from(fault: NewFault<'a>) -> Self {
        ProgramFault::New(fault)
    }
}

impl From<RunFault> for ProgramFault<'_> {
    ghost use Rattle.std.specs.Prelude.{◌≡◌};
    ghost use Rattle.instants_faults.specs.declared.program_fault.ProgramFault.TheVariants as program;

    ghost from_gives = { λ fault e. e ≡ program.Run fault };

    fn from(fault: RunFault) -> Self {
        ProgramFault::Run(fault)
    }
}

impl From<AllocError> for ProgramFault<'_> {
    ghost use Rattle.std.specs.Prelude.{◌≡◌};
    ghost use Rattle.instants_faults.specs.declared.program_fault.ProgramFault.TheVariants as program;

    ghost from_gives = { λ fault e. e ≡ program.Memory };

    fn from(_fault: AllocError) -> Self {
        ProgramFault::Memory
    }
}
