ghost use Rattle.std.specs.Prelude.{◌≡◌};
ghost use Rattle.deck_audit.specs.Codes.{code_of};

use deck_text::{DeckWhy, Which};

/// What a report's first bad line shows. `Form`: it is no line of a report. `Place`: it isn't one that the deck's next
/// event, or the event begun, may have there. `History`: no plain device could have answered so (own).
#[derive(Clone, Copy, Debug, PartialEq, Eq)]
pub enum AuditWhy {
    Form,
    Place,
    History,
}

/// What an audit comes to. Lines are counted from 1, from the deck's first line on.
#[derive(Clone, Copy, Debug, PartialEq, Eq)]
pub enum AuditStatus {
    /// A plain device could have made the report.
    Yes,
    /// It couldn't, and this line is the first that shows it.
    No { line: u32, why: AuditWhy },
    /// No line is exactly `REPORT`.
    NoReport,
    /// The deck's first line that is refused, and its first reason.
    DeckRefused { line: u32, why: DeckWhy },
    /// A read failed, and nothing was written.
    ReadFault,
    /// A write failed: a front of what was to be written was taken.
    WriteFault,
    /// The text, or its deck, passes this limit.
    Limit(Which),
    /// Memory is wanting, and nothing was written.
    NoMemory,
    /// The words name no task.
    Usage,
}

/// The exit status of the program.
pub fn code_of(status: AuditStatus) -> u8
    ensures { result ≡ code_of status }
{
    match status {
        AuditStatus::Yes => 0,
        AuditStatus::NoReport | AuditStatus::DeckRefused { .. } => 1,
        AuditStatus::ReadFault => 2,
        AuditStatus::WriteFault => 3,
        AuditStatus::Limit(_) => 4,
        AuditStatus::NoMemory => 5,
        AuditStatus::Usage => 6,
        AuditStatus::No { .. } => 7,
    }
}
