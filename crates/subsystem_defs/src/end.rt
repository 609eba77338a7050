use ckd_types::{DeviceNo, PathNo};
use device_defs::{Did, SecondEnd, StartFault, Stepped};

/// Why an order is refused (own). It changes nothing then.
#[derive(Clone, Copy, Debug, PartialEq, Eq)]
pub enum OrderFault {
    /// Both devices are the same.
    Same,
    /// The volume is lent to this device.
    Lent { of: DeviceNo },
    Paired,
    Unpaired,
    /// A program of this path runs.
    Active { path: PathNo },
    /// Kind or cylinders differ.
    Geometry,
    /// Side B of a device that isn't paired.
    NoSide,
    Down,
    Up,
    /// So many tracks are stale on side A.
    NotLevel { n: u16 },
    /// A half write is open.
    Half,
    Held,
    NotHeld,
}

/// How an event ended. `Started` has the program's ordinal from 1 on. `Running`: the path's own program runs. `Idle`: there was
/// no command to do. `Pending`: a repair waits, as so many tracks wait for their recovery.
#[derive(Debug, Drop)]
pub enum EventEnd {
    Started(u16),
    NotStarted(StartFault),
    Running,
    Stepped(Stepped),
    Second(SecondEnd),
    Idle,
    Back(Did),
    Done,
    Pending(u32),
    Refused(OrderFault),
}
