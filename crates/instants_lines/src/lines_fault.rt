//! What ends the program early.
ghost use Rattle.std.specs.Prelude.{◌≡◌, Some};

use crate::lacking::Lacking;
use instants_lines_words::{ModeWordsFault, WrongWords};
use instants_timeline::{FaultText, ProgramFault, RunsFault};
use std::alloc::AllocError;
use std::fmt;

// The words of the program after its name.
const USAGE: &str = "instants-lines MODE [TARGET [ASSUMED [LIMIT]]] [year N] [time HH:MM] \
     [field NAME | column N [separator S]] [label TEXT] SOURCE...";

/// Why the program did not write its whole output. `Display` gives the sentence for standard error, without a line feed.
#[derive(Clone, Copy, Debug, PartialEq, Eq)]
pub enum LinesFault<'a> {
    /// The words are wrong.
    Words(WrongWords<'a>),
    /// The zone that the words name is not there.
    Zone(&'a str),
    /// A source can name no moment.
    Lacks(Lacking),
    /// What can end `instants` too: a description that is none, a device, or memory.
    Program(ProgramFault<'a>),
}

impl LinesFault<'_> {
    ghost use Rattle.instants_lines.specs.ProgramText.{status_of};

    /// The status to end with: 2 where the words or a description among them are wrong, the zone is not there or a source names
    /// no moment, else 1.
    pub fn status(&self) -> u8
        ensures { result ≡ status_of self.now }
    {
        match self {
            LinesFault::Words(_) | LinesFault::Zone(_) | LinesFault::Lacks(_) => 2,
            LinesFault::Program(fault) => fault.status(),
        }
    }
}

impl fmt::Display for LinesFault<'_> {
    ghost use Rattle.std.specs.Prelude.{Some};
    ghost use Rattle.instants_lines.specs.ProgramText.{sentence};

    ghost output = { λ fault. Some (sentence fault) };

    fn fmt<W: fmt::Write>(&self, f: &mut fmt::Formatter<W>) -> fmt::Result {
        match self {
            LinesFault::Words(wrong) => write!(f, "instants-lines: {wrong}"),
            LinesFault::Zone(name) => {
                write!(f, "instants-lines: \"{name}\": there is no such zone")
            }
            LinesFault::Lacks(lacking) => write!(f, "instants-lines: {lacking}"),
            LinesFault::Program(fault) => {
                let text = FaultText {
                    fault: *fault,
                    usage: USAGE,
                };
                write!(f, "instants-lines{text}")
            }
        }
    }
}

impl<'a> From<ProgramFault<'a>> for LinesFault<'a> {
    ghost use Rattle.std.specs.Prelude.{◌≡◌};
    ghost use Rattle.instants_lines.specs.declared.lines_fault.LinesFault.TheVariants as lines;

    ghost from_gives = { λ fault e. e ≡ lines.Program fault };

    fn from(ended: ProgramFault<'a>) -> Self {
        LinesFault::Program(ended)
    }
}

impl<'a> From<ModeWordsFault<'a>> for LinesFault<'a> {
    ghost use Rattle.std.specs.Prelude.{◌≡◌};
    ghost use Rattle.instants_lines.specs.Program.{of_words};

    ghost from_gives = { λ fault e. e ≡ of_words fault };

    fn from(fault: ModeWordsFault<'a>) -> Self {
        match fault {
            ModeWordsFault::Wrong(wrong) => LinesFault::Words(wrong),
            ModeWordsFault::Memory => LinesFault::Program(ProgramFault::Memory),
        }
    }
}

impl From<RunsFault> for LinesFault<'_> {
    ghost use Rattle.std.specs.Prelude.{◌≡◌};
    ghost use Rattle.instants_faults.specs.Runs.{of_runs};
    ghost use Rattle.instants_lines.specs.declared.lines_fault.LinesFault.TheVariants as lines;

    ghost from_gives = { λ fault e. e ≡ lines.Program (of_runs fault) };

    fn from(fault: RunsFault) -> Self {
        LinesFault::Program(ProgramFault::from(fault))
    }
}

impl From<AllocError> for LinesFault<'_> {
    ghost use Rattle.std.specs.Prelude.{◌≡◌};
    ghost use Rattle.instants_faults.specs.declared.program_fault.ProgramFault.TheVariants as program;
    ghost use Rattle.instants_lines.specs.declared.lines_fault.LinesFault.TheVariants as lines;

    ghost from_gives = { λ _ e. e ≡ lines.Program program.Memory };

    fn from(_fault: AllocError) -> Self {
        LinesFault::Program(ProgramFault::Memory)
    }
}
