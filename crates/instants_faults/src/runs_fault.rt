//! What ends the run of a program early.

use crate::program_fault::ProgramFault;
use instants_stream::RunFault;
use std::alloc::AllocError;

/// Why a program did not write for all lines of a stream.
#[derive(Clone, Copy, Debug, PartialEq, Eq)]
pub enum RunsFault {
    /// Memory ran out before anything was read.
    Memory,
    /// A device failed.
    Run(RunFault),
}

impl From<RunFault> for RunsFault {
    ghost use Rattle.std.specs.Prelude.{◌≡◌};
    ghost use Rattle.instants_faults.specs.declared.runs_fault.RunsFault.TheVariants as runs;

    ghost from_gives = { λ fault e. e ≡ runs.Run fault };

    fn from(fault: RunFault) -> Self {
        RunsFault::Run(fault)
    }
}

impl From<AllocError> for RunsFault {
    ghost use Rattle.std.specs.Prelude.{◌≡◌};
    ghost use Rattle.instants_faults.specs.declared.runs_fault.RunsFault.TheVariants as runs;

    ghost from_gives = { λ _ e. e ≡ runs.Memory };

    fn from(_fault: AllocError) -> Self {
        RunsFault::Memory
    }
}

impl From<RunsFault> for ProgramFault<'_> {
    ghost use Rattle.std.specs.Prelude.{◌≡◌};
    ghost use Rattle.instants_faults.specs.Runs.{of_runs};

    ghost from_gives = { λ fault e. e ≡ of_runs fault };

    fn from(fault: RunsFault) -> Self {
        match fault {
            RunsFault::Memory => ProgramFault::Memory,
            RunsFault::Run(fault) => ProgramFault::Run(fault),
        }
    }
}
