use ckd_types::{CommandEnd, DeviceNo, PathNo};
use report_text::ReportLine;

/// A write that one volume of a pair has and the other hasn't yet. From its program's cut on, a command's is of the
/// background.
#[derive(Clone, Copy, Debug, PartialEq, Eq)]
pub enum HalfWrite {
    Closed,
    OfCommand,
    OfBackground,
}

/// A program that runs: its path, and its ordinal there, from 1 on.
#[derive(Clone, Copy, Debug)]
pub struct OpenProgram {
    pub path: PathNo,
    pub ordinal: u16,
}

/// As much of a device as tells which lines may come.
#[derive(Clone, Copy, Debug)]
pub struct Outline {
    pub number: DeviceNo,
    pub running: Option<OpenProgram>,
    pub half: HalfWrite,
    /// The device that has its volume.
    pub lent: Option<DeviceNo>,
    /// It has data of cache fast write.
    pub loose: bool,
}

/// What a piece of a device's work did.
#[derive(Debug, Drop)]
pub enum Did {
    /// A command ended as on the plain device.
    Ended(CommandEnd),
    /// A command ended with equipment check or data check.
    CheckEnded(CommandEnd),
    /// The first part of a command's write was made.
    Halved,
    /// Work of the background, and whether SETTLE is at its end with it.
    Worked(bool),
}

/// Which lines come next.
#[derive(Debug, Drop)]
pub enum Due {
    /// An event's first ones, or those of the next piece of work of a RUN or SETTLE.
    Next,
    /// The bytes that a command sent.
    DataOf(CommandEnd),
    /// The sense of a command that ended with unit check, and how it ends on the plain device.
    SenseOf(CommandEnd),
    /// Those behind a piece of work: CFW lines, unless the last one ended them, IO, and OVER.
    Behind(bool, Did),
    /// This OVER line.
    OverOf(ReportLine),
    /// Losses of devices above this one, or the line of the FAIL CACHE that brought them.
    Losses(DeviceNo),
    /// The line of the RESET that cut a program.
    ResetOf,
    /// What a loss of power did to the devices behind so many, and its own line.
    Powers(usize),
    /// The totals of the devices behind so many, LOST lines of the last of these, and the frames.
    Totals(usize),
    Frames,
    Nothing,
}
