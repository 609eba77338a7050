use ckd_types::{DeviceNo, PathNo};

/// What a path's worker calls around each event of a device, while it has the device's turn. `call`
/// numbers the events of the worker from 1.
pub trait Gate {
    fn before_transfer(&self, path: PathNo, d: DeviceNo, call: u64);

    fn after_transfer(&self, path: PathNo, d: DeviceNo, call: u64);
}

/// A gate that holds nothing up.
#[derive(Clone, Copy, Debug)]
pub struct NoGate;

impl Gate for NoGate {
    fn before_transfer(&self, _path: PathNo, _d: DeviceNo, _call: u64) {}

    fn after_transfer(&self, _path: PathNo, _d: DeviceNo, _call: u64) {}
}
