ghost use Rattle.subsystem_core.specs.Frames.{HasDevice};

use crate::OldTracks;
use ckd_types::DeviceNo;
use device_outside::Volume;
use std::alloc::Global;
use subsystem_core::Subsystem;

/// Devices, of which `device` is given as it was at the beginning, whatever is written meanwhile. `gone` is the device to which it was
/// lent first since then.
#[derive(Drop)]
pub struct Session<V: Volume> {
    pub alloc: Global,
    pub device: DeviceNo,
    pub sub: Subsystem<V>,
    pub kept: OldTracks,
    pub gone: Option<DeviceNo>,
    pub ghost here: { HasDevice sub device },
}
