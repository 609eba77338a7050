ghost use Rattle.std.specs.Prelude.{◌≡◌, ◌≢◌, ◌<◌, IfSome, ℕ, length, slice_index, take, true};
ghost use Rattle.deck_audit.specs.declared.state.Due.TheVariants.{Next};
ghost use Rattle.report_audit.specs.Auditor.{IsDueData, behind_data, behind_of, cut_at, idle_fault, is_nothing, loose_at, order_told, told_of, totals_due};

use ckd_types::{DeviceNo, TrackNo};
use deck_audit::{AuditWhy, Did, Due, is_io};
use report_reading::{data_end, is_data_of};
use report_text::{HowOver, LooseAnswer, OrderAnswer, ReportLine};

/// The device and the commands of a program that was cut, where the line tells of one.
pub fn cut_at(line: &ReportLine) -> Option<(DeviceNo, u16)>
    ensures { result ≡ cut_at line.now }
{
    match line {
        ReportLine::Over(_, d, _, HowOver::Cut(n)) => Some((*d, *n)),
        _ => None,
    }
}

/// What a line of an order tells.
#[derive(Debug)]
pub enum OrderTold {
    /// The order is done.
    Done,
    /// A track became firm, since its volume failed.
    Firm(DeviceNo, TrackNo),
    /// The cache failed, and a device's loose tracks went back.
    Lost(DeviceNo),
    Other,
}

/// What a line behind an order tells; `Other` for a line of another kind.
pub fn order_told(line: &ReportLine) -> OrderTold
    ensures { result ≡ order_told line.now }
{
    match line {
        ReportLine::Order(_, OrderAnswer::Done) => OrderTold::Done,
        ReportLine::Loose(d, LooseAnswer::Harden(t)) => OrderTold::Firm(*d, *t),
        ReportLine::Loose(d, LooseAnswer::Lost { .. }) => OrderTold::Lost(*d),
        _ => OrderTold::Other,
    }
}

/// The device of a line about its loose tracks.
pub fn loose_at(line: &ReportLine) -> Option<DeviceNo>
    ensures { result ≡ loose_at line.now }
{
    match line {
        ReportLine::Loose(d, _) => Some(*d),
        _ => None,
    }
}

/// What is due behind a line of the totals of so many devices, where so many of them were told.
pub fn totals_due(devices: usize, line: &ReportLine, told: usize) -> Due
    ensures { result ≡ totals_due devices line.now told }
{
    match line {
        ReportLine::Device(_, _) => {
            if told < devices {
                Due::Totals(told + 1)
            } else {
                Due::Totals(told)
            }
        }
        ReportLine::Lost(_, _) => Due::Totals(told),
        ReportLine::Finish => Due::Nothing,
        _ => Due::Frames,
    }
}

/// Whether the report has had its last line.
pub fn is_nothing(due: &Due) -> bool
    ensures { result ≡ is_nothing due.now }
{
    matches!(due, Due::Nothing)
}

/// Whether an event's first line is due, or that of its next piece of work.
pub fn is_next(due: &Due) -> bool
    ensures { result ≡ true → due.now ≡ Next }
{
    matches!(due, Due::Next)
}

/// How many devices something was told of.
pub fn told_of(due: &Due) -> usize
    ensures { result ≡ told_of due.now }
{
    match due {
        Due::Powers(told) => *told,
        Due::Totals(told) => *told,
        _ => 0,
    }
}

/// A piece of work that is at its end, or what else is due.
pub fn behind_of(due: Due) -> Result<(bool, Did), Due>
    ensures { result ≡ behind_of due }
{
    match due {
        Due::Behind(more, did) => Ok((more, did)),
        due => Err(due),
    }
}

/// Whether a text is the DATA line that is due.
pub fn is_due_data(due: &Due, text: &[u8]) -> bool
    ensures { result ≡ true → IsDueData due.now text.now }
{
    match due {
        Due::DataOf(e) => is_data_of(text, e.sent.as_slice()),
        _ => false,
    }
}

/// Where the DATA line that is due ends, if a text begins with it and a line feed follows.
pub fn due_data_end(due: &Due, text: &[u8]) -> Option<usize>
    ensures due { IfSome result (λ end. IsDueData due.now (take end text.now)) }
    ensures none { IfSome result (λ end. (k : ℕ) → k < end → slice_index text.now k ≢ 10) }
    ensures stands { IfSome result (λ end. (end < length text.now) × (slice_index text.now end ≡ 10)) }
{
    match due {
        Due::DataOf(e) => data_end(text, e.sent.as_slice()),
        _ => None,
    }
}

/// What is due behind the bytes that a command sent.
pub fn behind_data(due: Due) -> Due
    ensures { result ≡ behind_data due }
{
    match due {
        Due::DataOf(e) => Due::Behind(true, Did::Ended(e)),
        due => due,
    }
}

/// The fault of a line behind a piece of work that no device does.
pub fn idle_fault(line: &ReportLine) -> AuditWhy
    ensures { result ≡ idle_fault line.now }
{
    if is_io(line) {
        AuditWhy::History
    } else {
        AuditWhy::Place
    }
}
