use ckd_types::{DeviceNo, Owner, PathNo, Side, TrackNo};

/// What a START line is answered: the ordinal of the program that was started, from 1 on, or why none was.
#[derive(Clone, Copy, Debug, PartialEq, Eq)]
pub enum StartAnswer {
    Accepted(u16),
    /// Another path's program runs.
    Busy(PathNo),
    /// The path's programs are all run.
    Done,
    /// This path's own program runs.
    Running,
    /// The volume is lent to another device.
    Secondary(DeviceNo),
    /// The owner holds the device.
    Reserved(Owner),
    /// The owner holds the device, and no path with programs left may take it.
    Shut(Owner),
}

/// What background work, or the second part of a write, did.
#[derive(Clone, Copy, Debug, PartialEq, Eq)]
pub enum BackAnswer {
    Nothing,
    Recovered(TrackNo),
    Copied(TrackNo),
    Staged(TrackNo),
    Skipped(TrackNo),
    Destaged(TrackNo),
    /// One side of a pair was written.
    Half(TrackNo),
    /// The other side was written too.
    Finished(TrackNo),
    /// The other side wasn't.
    Unwritten(TrackNo),
    /// A call of that side's volume failed.
    Fault(Side),
    /// That side's volume delivered bytes that are no track.
    BadBytes(Side),
}

/// What became of tracks that were written by cache fast write.
#[derive(Clone, Copy, Debug, PartialEq, Eq)]
pub enum LooseAnswer {
    Harden(TrackNo),
    Loosen(TrackNo),
    /// So many tracks went back to what they were before, and the ID is new.
    Lost { count: u16, id: [u8; 2] },
}

/// How a program ended: whole, at a unit check, or by a reset behind so many of its commands.
#[derive(Clone, Copy, Debug, PartialEq, Eq)]
pub enum HowOver {
    Full,
    Checked,
    Cut(u16),
}

/// Why an order was refused.
#[derive(Clone, Copy, Debug, PartialEq, Eq)]
pub enum OrderRefusal {
    Same,
    Lent(DeviceNo),
    Paired,
    Unpaired,
    Active(PathNo),
    Geometry,
    NoSide,
    Down,
    Up,
    /// So many tracks aren't level.
    NotLevel(u16),
    Half,
    Held,
    NotHeld,
}

/// What an order is answered: it is done, so many tracks wait, or it was refused.
#[derive(Clone, Copy, Debug, PartialEq, Eq)]
pub enum OrderAnswer {
    Done,
    Pending(u32),
    Refused(OrderRefusal),
}

/// What is said of a device at the end: its volume calls and how many tracks are lost, the latter alone, or to
/// which device its volume is lent.
#[derive(Clone, Copy, Debug, PartialEq, Eq)]
pub enum DeviceTotals {
    Calls { reads: u64, writes: u64, lost: u64 },
    Lost(u64),
    Lent(DeviceNo),
}

/// What a line of a summary counts.
#[derive(Clone, Copy, Debug, PartialEq, Eq)]
pub enum SumOf {
    Programs,
    Commands,
    Checks,
    Reads,
    Writes,
    Lost,
}
