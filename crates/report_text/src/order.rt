use ckd_types::{DeviceNo, Side};

/// An order to the subsystem.
#[derive(Clone, Copy, Debug, PartialEq, Eq)]
pub enum Order {
    FailCache,
    FailStore,
    FailVolume(DeviceNo, Side),
    RepairCache,
    RepairStore,
    Replace(DeviceNo, Side),
    Pair(DeviceNo, DeviceNo),
    Unpair(DeviceNo),
    Suspend(DeviceNo),
    Resume(DeviceNo),
    Power,
}
