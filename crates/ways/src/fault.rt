// Why a job is not done.
ghost use Rattle.std.specs.Prelude.{◌≡◌};
ghost use Rattle.ways.specs.declared.fault.JobFault.TheVariants.{Memory, Reader};

use std::alloc::AllocError;
use survey::fault::ReadFault;

#[derive(Clone, Copy, Debug, PartialEq, Eq)]
pub enum JobFault {
    // The input ends before the start and the goal do.
    Short,
    Reader(ReadFault),
    // There is no memory for the text.
    Memory,
}

impl From<ReadFault> for JobFault {
    ghost from_gives = { λ f j. j ≡ Reader f };

    fn from(fault: ReadFault) -> JobFault {
        JobFault::Reader(fault)
    }
}

impl From<AllocError> for JobFault {
    ghost from_gives = { λ _ j. j ≡ Memory };

    fn from(_: AllocError) -> JobFault {
        JobFault::Memory
    }
}
