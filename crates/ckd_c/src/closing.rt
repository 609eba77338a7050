ghost use Rattle.std.specs.Prelude.{◌≡◌};
ghost use Rattle.ckd_c.specs.Calls.{Closes, Comes, Unchanged, any_runs};

use crate::code::{Code, number_of};
use crate::handle::{CkdSubsystem, put, take};
use crate::opened::Opened;
use crate::volume::HostVolume;
use device_core::Device;
use std::alloc::Global;

/// Whether a program runs on one of the devices.
fn any_runs(devices: &[Device<HostVolume>]) -> bool
    ensures { result ≡ any_runs devices.now }
{
    for device in devices {
        if device.active().is_some() {
            return true;
        }
    }
    false
}

impl Opened {
    /// Waits until what was written to each image has reached the disk.
    fn flush(&self) -> Code {
        let mut code = Code::Done;
        for file in &self.files {
            if file.sync_data().is_err() {
                code = Code::FileFault;
            }
        }
        code
    }
}

/// Waits until what was written to the images has reached the disk. What still waits for the background isn't written yet.
#[unsafe(no_mangle)]
pub extern "C" fn ckd_c_flush(alloc: Global, subsystem: &mut CkdSubsystem) -> u32
    ensures { Comes Unchanged subsystem.old.place.value subsystem.new.place.value result }
{
    let Some(opened) = take(subsystem, alloc) else {
        return number_of(Code::Closed);
    };
    let code = opened.flush();
    put(subsystem, opened);
    number_of(code)
}

/// Closes a subsystem, and frees what it had. Refused while a program runs on one of its devices. What stood in the cache or the
/// store alone is gone.
#[unsafe(no_mangle)]
pub extern "C" fn ckd_c_close(alloc: Global, subsystem: &mut CkdSubsystem) -> u32
    ensures { Closes subsystem.old.place.value subsystem.new.place.value result }
{
    let Some(opened) = take(subsystem, alloc) else {
        return number_of(Code::Closed);
    };
    if any_runs(opened.subsystem.devices()) {
        put(subsystem, opened);
        return number_of(Code::Running);
    }
    drop(opened);
    number_of(Code::Done)
}
