//! Why nothing is opened.
ghost use Rattle.std.specs.Prelude.{◌≡◌};
ghost use Rattle.instants_lines_memory.specs.FaultText.{fault_text};

use instants_lines::{LinesFault, ProgramFault};
use std::alloc::AllocError;
use std::fmt;
use zones_file::ZoneFault;

/// Why words and a zone are refused, or that memory ran out. `Display` gives the sentence, without a line feed.
#[derive(Clone, Copy, Debug, PartialEq, Eq)]
pub enum OpenFault<'a> {
    /// What ends the program before its first line.
    Lines(LinesFault<'a>),
    /// The bytes are no zone's file.
    Zone(ZoneFault),
    /// The mode has no keys.
    Mode,
}

// What is wrong with the bytes of a zone.
fn fault_text(fault: ZoneFault) -> &'static str
    ensures { result.now ≡ fault_text fault }
{
    match fault {
        ZoneFault::Long => "the zone has more than 65536 bytes",
        ZoneFault::Header => "the zone does not begin as a zone's file",
        ZoneFault::Version => "the zone's version is not known",
        ZoneFault::Length => "the zone is cut off",
        ZoneFault::LeapSeconds => "the zone counts leap seconds",
        ZoneFault::UnknownType => "a transition of the zone is to nothing that is there",
        ZoneFault::Offset => "an offset of the zone is 26 hours or more",
        ZoneFault::Order => "the transitions of the zone are not in order",
        ZoneFault::Footer => "the rule at the zone's end can't be read",
        ZoneFault::Crossing => "by the rule at the zone's end the years are not in order",
        ZoneFault::Disagrees => "the rule at the zone's end is not as its last transition",
        ZoneFault::Memory => "out of memory",
    }
}

impl OpenFault<'_> {
    ghost use Rattle.instants_lines_memory.specs.FaultText.{status_of};

    /// The status to end with: 1 where memory ran out, else 2.
    pub fn status(&self) -> u8
        ensures { result ≡ status_of self.now }
    {
        match self {
            OpenFault::Lines(fault) => fault.status(),
            OpenFault::Zone(ZoneFault::Memory) => 1,
            OpenFault::Zone(_) | OpenFault::Mode => 2,
        }
    }
}

impl fmt::Display for OpenFault<'_> {
    ghost use Rattle.std.specs.Prelude.{Some};
    ghost use Rattle.instants_lines_memory.specs.FaultText.{sentence};

    ghost output = { λ fault. Some (sentence fault) };

    fn fmt<W: fmt::Write>(&self, f: &mut fmt::Formatter<W>) -> fmt::Result {
        match self {
            OpenFault::Lines(fault) => write!(f, "{fault}"),
            OpenFault::Zone(fault) => {
                let text = fault_text(*fault);
                write!(f, "instants-lines: {text}")
            }
            OpenFault::Mode => f.write_str("instants-lines: the calls have modes key and carry"),
        }
    }
}

impl<'a> From<LinesFault<'a>> for OpenFault<'a> {
    ghost use Rattle.std.specs.Prelude.{◌≡◌};
    ghost use Rattle.instants_lines_memory.specs.declared.open_fault.OpenFault.TheVariants as fault;

    ghost from_gives = { λ lines e. e ≡ fault.Lines lines };

    fn from(fault: LinesFault<'a>) -> Self {
        OpenFault::Lines(fault)
    }
}

impl From<ZoneFault> for OpenFault<'_> {
    ghost use Rattle.std.specs.Prelude.{◌≡◌};
    ghost use Rattle.instants_lines_memory.specs.declared.open_fault.OpenFault.TheVariants as fault;

    ghost from_gives = { λ zone e. e ≡ fault.Zone zone };

    fn from(fault: ZoneFault) -> Self {
        OpenFault::Zone(fault)
    }
}

impl From<AllocError> for OpenFault<'_> {
    ghost use Rattle.std.specs.Prelude.{◌≡◌};
    ghost use Rattle.instants_faults.specs.declared.program_fault.ProgramFault.TheVariants as program;
    ghost use Rattle.instants_lines.specs.declared.lines_fault.LinesFault.TheVariants as lines;
    ghost use Rattle.instants_lines_memory.specs.declared.open_fault.OpenFault.TheVariants as fault;

    ghost from_gives = { λ _ e. e ≡ fault.Lines (lines.Program program.Memory) };

    fn from(_fault: AllocError) -> Self {
        OpenFault::Lines(LinesFault::Program(ProgramFault::Memory))
    }
}
