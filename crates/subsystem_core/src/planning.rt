ghost use Rattle.std.specs.Prelude.{◌≡◌};
ghost use Rattle.subsystem_core.specs.Comes.{Changes};
ghost use Rattle.subsystem_core.specs.Frames.{HasDevice, HasSameDevices};
ghost use Rattle.subsystem_core.specs.Planned.{ForgotBy, PlannedBy};
ghost use Rattle.subsystem_core.specs.Standing.{StayForgetting, StayPlain};

use crate::Subsystem;
use ckd_ccw::Program;
use ckd_types::{DeviceNo, PathNo};
use device_core::{NotForgotten, NotPlanned};
use device_outside::Volume;

/// What is planned for a device, and what it forgets. All other devices and the pool stay as they are.
impl<V: Volume> Subsystem<V> {
    /// Plans a program for a path of a device, as `Device::plan` does: it starts behind those that wait there.
    pub fn plan(&mut self, d: DeviceNo, path: PathNo, program: Program) -> Result<(), NotPlanned>
        requires here { HasDevice self.old d }
        ensures numbers { HasSameDevices self.old self.new }
        ensures pool { self.new.pool ≡ self.old.pool }
        ensures plain { StayPlain self.old.devices.items self.new.devices.items }
        ensures planned { Changes d (PlannedBy path program result) self.old.devices.items self.new.devices.items }
    {
        let at = self.place(d);
        self.devices[at].plan(path, program)
    }

    /// Puts away what happened to a device so far, while no program runs on it, as `Device::forget` does. Own.
    pub fn forget(&mut self, d: DeviceNo) -> Result<(), NotForgotten>
        requires here { HasDevice self.old d }
        ensures numbers { HasSameDevices self.old self.new }
        ensures pool { self.new.pool ≡ self.old.pool }
        ensures stands { StayForgetting d result self.old.devices.items self.new.devices.items }
        ensures forgot { Changes d (ForgotBy result) self.old.devices.items self.new.devices.items }
    {
        let at = self.place(d);
        self.devices[at].forget()
    }
}
