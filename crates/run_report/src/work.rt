ghost use Rattle.std.specs.Prelude.{◌≡◌};
ghost use Rattle.run_report.specs.Events.{half_told};

use crate::told::RunningProgram;
use ckd_types::{DeviceNo, TrackNo};
use report_text::{Happened, ReportLine};

/// What the first part of a command's write is, of the program that ran there before it.
pub fn half_told(device: DeviceNo, running: &Option<RunningProgram>, track: TrackNo) -> Happened
    ensures { result ≡ half_told device running.now track }
{
    match running {
        Some(r) => Happened::First(ReportLine::Half(r.path, device, track)),
        None => Happened::First(ReportLine::StepIdle(device)),
    }
}
