ghost use Rattle.std.specs.Prelude.{◌≡◌};
ghost use Rattle.image_runner.specs.Answers.{code_of, code_of_fault};

use crate::mounting::{MountFault, Refusal};
use deck_text::{DeckWhy, Which};

/// How the program ends.
#[derive(Clone, Copy, Debug, PartialEq, Eq)]
pub enum RunStatus {
    /// The report was written.
    Reported,
    /// The deck's first line that is refused, from 1 on, and its first reason, were written.
    DeckRefused { line: u32, why: DeckWhy },
    /// A read of the source failed, and nothing was written.
    ReadFault,
    /// A write failed: a front of what was to be written was taken. The deck may have run.
    WriteFault,
    /// The deck passes this limit, which was written.
    Limit(Which),
    /// Memory is wanting, and nothing was written. The deck may have run in part.
    NoMemory,
    /// The words name no task, and the usage was written.
    Usage,
    /// An image isn't taken, which was written. Nothing ran.
    Refused(Refusal),
    /// The report was written, but what the run wrote may not have reached the disk.
    FlushFault,
}

fn code_of_fault(fault: MountFault) -> u8
    ensures { result ≡ code_of_fault fault }
{
    match fault {
        MountFault::Device | MountFault::Other { .. } => 7,
        MountFault::Bad(_) => 8,
        MountFault::File => 9,
        MountFault::NoMemory => 5,
    }
}

/// The exit status of the program.
pub fn code_of(status: RunStatus) -> u8
    ensures { result ≡ code_of status }
{
    match status {
        RunStatus::Reported => 0,
        RunStatus::DeckRefused { .. } => 1,
        RunStatus::ReadFault => 2,
        RunStatus::WriteFault => 3,
        RunStatus::Limit(_) => 4,
        RunStatus::NoMemory => 5,
        RunStatus::Usage => 6,
        RunStatus::Refused(refusal) => code_of_fault(refusal.fault),
        RunStatus::FlushFault => 9,
    }
}
