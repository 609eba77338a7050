use ckd_types::{CommandEnd, DeviceNo, Owner, PathNo, Side, TrackNo};

/// Where a write goes (own). `Provisional`: to the frame alone, as data of cache fast write. `Fast`: to the frame
/// and a patch, with a new slot where there was no patch. `Through`: to the volumes.
#[derive(Clone, Copy, Debug, PartialEq, Eq)]
pub enum Choice {
    Provisional,
    Fast(Option<usize>),
    Through,
}

/// What came of a write to the volumes: it is done; side A took it while side B is still to be tried; or no
/// side took it.
#[derive(Clone, Copy, Debug, PartialEq, Eq)]
pub enum Took {
    Whole,
    Opened,
    Unwritten,
}

/// How the command at hand came out: as the plain device's; with equipment check or data check, which
/// the plain device hasn't; or its write waits for its second part.
#[derive(Debug, Drop)]
pub enum Came {
    Ends(CommandEnd),
    Checks(CommandEnd),
    HalfOpen(TrackNo),
}

/// A step of a program: its command ended, or wrote one side of two.
#[derive(Debug, Drop)]
pub enum Stepped {
    Ended(CommandEnd),
    Half(TrackNo),
}

/// A second part: the command whose write it was ended; or another write in two parts is done, or isn't.
#[derive(Debug, Drop)]
pub enum SecondEnd {
    Ended(CommandEnd),
    Finished(TrackNo),
    Unwritten(TrackNo),
}

/// What a device did by itself (own). `Half`: side A was written, side B is still to be. `Fault`: the first side on
/// which a call failed, also where the other side then did the work. `BadBytes`: the side delivered what is no track.
#[derive(Clone, Copy, Debug, PartialEq, Eq)]
pub enum Did {
    Nothing,
    Recovered(TrackNo),
    Copied(TrackNo),
    Staged(TrackNo),
    Skipped(TrackNo),
    Destaged(TrackNo),
    Half(TrackNo),
    Fault(Side),
    BadBytes(Side),
}

/// Why a program didn't start (own in their order). `Secondary`: the device is lent. `Shut`: every path that has programs
/// left is kept out by the one who holds the device; `Reserved`: this one is.
#[derive(Clone, Copy, Debug)]
pub enum StartFault {
    Secondary { of: DeviceNo },
    Busy { holder: PathNo },
    PlanDone,
    Shut { owner: Owner },
    Reserved { owner: Owner },
}
