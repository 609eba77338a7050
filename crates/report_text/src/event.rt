use crate::{HowOver, LooseAnswer, Order, OrderAnswer, ReportLine};
use ckd_types::{CommandEnd, DeviceNo, PathNo};

/// What an event did, as it is told: by the line that stands first, by a command's end, with its path, device and program's
/// ordinal, or by the line that stands last.
#[derive(Debug, Drop)]
pub enum Happened {
    First(ReportLine),
    Ended(PathNo, DeviceNo, u16, CommandEnd),
    Reset(PathNo, DeviceNo),
    Ordered(Order, OrderAnswer),
}

/// What became of a device's tracks that were written by cache fast write.
#[derive(Clone, Copy, Debug, PartialEq, Eq)]
pub struct Loosed {
    pub device: DeviceNo,
    pub answer: LooseAnswer,
}

/// A path's program of that ordinal on the device is over.
#[derive(Clone, Copy, Debug, PartialEq, Eq)]
pub struct ProgramOver {
    pub path: PathNo,
    pub device: DeviceNo,
    pub ordinal: u16,
    pub how: HowOver,
}
