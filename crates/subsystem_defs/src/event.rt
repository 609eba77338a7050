use ckd_types::{DeviceNo, PathNo, Side};

/// An event of the subsystem for which no volume is handed in. `Step` does one command of the running program, and
/// `Back` one piece of work in the background; where a half write is open, both do its second part. `FailVolume` is
/// the loss of a side. `Pair` makes the second device's volume side B of the first. `Power` is a loss of power.
#[derive(Clone, Copy, Debug, PartialEq, Eq)]
pub enum Event {
    Start(PathNo, DeviceNo),
    Step(DeviceNo),
    Back(DeviceNo),
    Reset(PathNo, DeviceNo),
    FailCache,
    FailStore,
    FailVolume(DeviceNo, Side),
    RepairCache,
    RepairStore,
    Pair(DeviceNo, DeviceNo),
    Suspend(DeviceNo),
    Resume(DeviceNo),
    Power,
}
