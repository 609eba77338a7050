ghost use Rattle.std.specs.Prelude.{◌≡◌, IfErr, IfOk, IfSome, Some};
ghost use Rattle.device_core.specs.State.{device_of};
ghost use Rattle.subsystem_core.specs.Devices.{device_at};
ghost use Rattle.subsystem_core.specs.Frames.{HasDevice};
ghost use Rattle.subsystem_defs.specs.Subsystem as runs;
ghost use Rattle.deck_run.specs.Owning.{AreOwn};
ghost use Rattle.deck_run.specs.Standing.{StandsAs};
ghost use Rattle.point_copy.specs.Copying.{begin_fault};
ghost use Rattle.point_copy.specs.Sessions.{Begins, IsBegun, IsBegunOver};

use crate::{BeginFault, OldTracks, Session};
use ckd_types::{DeviceNo, NoMemory};
use device_core::Device;
use device_outside::Volume;
use std::alloc::Global;
use subsystem_core::Subsystem;

/// Why a device's contents can't be kept as they are.
fn begin_fault<V: Volume>(device: &Device<V>) -> Option<BeginFault>
    ensures { result ≡ begin_fault (device_of device.now).store }
{
    if let Some(of) = device.lent_to() {
        return Some(BeginFault::Lent { of });
    }
    if device.half_open() {
        return Some(BeginFault::Half);
    }
    match device.first_loose() {
        Some(track) => Some(BeginFault::Loose { track }),
        None => None,
    }
}

impl<V: Volume> Session<V> {
    /// From here on the session gives the contents that device `d` has now. Refused, it gives the devices back, unchanged.
    pub fn begin(
        alloc: Global,
        sub: Subsystem<V>,
        d: DeviceNo,
    ) -> Result<Session<V>, (BeginFault, Subsystem<V>)>
        requires { HasDevice sub d }
        ensures fault { IfSome (device_at sub.devices.items d) (λ x. Begins (begin_fault (device_of x).store) result) }
        ensures refused { (run : runs.Subsystem) (m : runs.Mounted) → StandsAs sub run → runs.mounted_in run.mounted d ≡ Some m
            → Begins (begin_fault m.device.store) result }
        ensures begun { IfSome (device_at sub.devices.items d) (λ x. IfOk result (IsBegun sub d x)) }
        ensures back { IfErr result (λ e. e.1 ≡ sub) }
        ensures old { (run : runs.Subsystem) → StandsAs sub run → AreOwn sub.devices.items → IfOk result (IsBegunOver run d) }
    {
        let device = sub.device(d);
        if let Some(fault) = begin_fault(device) {
            return Err((fault, sub));
        }
        match OldTracks::new(alloc, d, device.cylinders()) {
            Ok(kept) => Ok(Session {
                alloc,
                device: d,
                sub,
                kept,
                gone: None,
            }),
            Err(NoMemory) => Err((BeginFault::NoMemory, sub)),
        }
    }
}
