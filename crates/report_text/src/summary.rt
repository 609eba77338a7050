ghost use Rattle.std.specs.Prelude.{◌≡◌, ◌∷◌, []};
ghost use Rattle.ckd_outside.specs.Causes.{HasCause};
ghost use Rattle.ckd_outside.specs.Texts.{Writes};
ghost use Rattle.report_text.specs.Summary.{summary_text};

use crate::{LineSpelling, ReportLine, SumOf};
use ckd_outside::{Failed, LineBuffer, Sink, Spelling, put_all, write_out};

/// What the lines of a run come to: how many programs were started, how many commands ended, and how many of those with
/// unit check.
#[derive(Clone, Copy, Debug, PartialEq, Eq)]
pub struct LineCounts {
    pub programs: u64,
    pub commands: u64,
    pub checks: u64,
}

/// What a run came to: the programs that were started, the commands that ended and those of them with unit
/// check, the volume calls of all devices, and the lost tracks.
#[derive(Clone, Copy, Debug, PartialEq, Eq)]
pub struct Summary {
    pub programs: u64,
    pub commands: u64,
    pub checks: u64,
    pub reads: u64,
    pub writes: u64,
    pub lost: u64,
}

impl Spelling<Summary> for LineSpelling {
    ghost text = { summary_text };

    fn put<K: Sink>(sink: &mut K, buffer: &mut LineBuffer, it: &Summary) -> Result<(), Failed> {
        let lines = [
            ReportLine::Sum(SumOf::Programs, it.programs),
            ReportLine::Sum(SumOf::Commands, it.commands),
            ReportLine::Sum(SumOf::Checks, it.checks),
            ReportLine::Sum(SumOf::Reads, it.reads),
            ReportLine::Sum(SumOf::Writes, it.writes),
            ReportLine::Sum(SumOf::Lost, it.lost),
        ];
        put_all::<LineSpelling, ReportLine, K>(sink, buffer, &lines)
    }
}

/// Writes the summary of a run: a line for each of its counts, in their order.
pub fn write_summary<K: Sink>(sink: &mut K, summary: &Summary) -> Result<(), Failed>
    ensures bytes { Writes (K.held sink.old) (K.held sink.new) result (summary_text summary.now) }
    ensures cause { HasCause (K.faults sink.old) (K.faults sink.new) result }
{
    write_out::<LineSpelling, Summary, K>(sink, summary)
}
