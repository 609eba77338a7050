ghost use Rattle.std.specs.Prelude.{◌≡◌, ◌*◌, IfOk, IfSome, IsOk, None, true};
ghost use Rattle.device_defs.specs.Orders.{hold_side, resume};
ghost use Rattle.device_core.specs.Promises.{TellsTracks};
ghost use Rattle.device_core.specs.State.{device_of};
ghost use Rattle.device_defs.specs.Store.{tracks_of};
ghost use Rattle.subsystem_defs.specs.Refusals.{replace_fault};
ghost use Rattle.subsystem_core.specs.Comes.{Changes, IsNow, IsReplaced, Replaced};
ghost use Rattle.subsystem_core.specs.Devices.{device_at};
ghost use Rattle.subsystem_core.specs.Frames.{HasDevice, HasSameDevices, HasSameSpans};
ghost use Rattle.subsystem_core.specs.Standing.{StayPlain, StayStanding};

use crate::refusal::replace_fault;
use crate::{EventEnd, Subsystem};
use ckd_types::{DeviceNo, NoMemory, Side};
use device_outside::Volume;

impl<V: Volume> Subsystem<V> {
    /// A side gets another volume. The old one is dropped.
    fn replace_at(&mut self, d: DeviceNo, side: Side, volume: V)
        requires here { HasDevice self.old d }
        requires fine { IfSome (device_at self.old.devices.items d) (λ x. replace_fault (device_of x) side ≡ None) }
        requires size { IfSome (device_at self.old.devices.items d) (λ x. (V.view volume).tracks ≡ tracks_of (device_of x).store) }
        ensures numbers { HasSameDevices self.old self.new }
        ensures pool { self.new.pool ≡ self.old.pool }
        ensures stands { TellsTracks (V.view volume) (V.view volume).tracks → StayStanding self.old.devices.items self.new.devices.items }
        ensures replaced { Changes d (IsReplaced side volume) self.old.devices.items self.new.devices.items }
    {
        let at = self.place(d);
        let _old = self.devices[at].replace(side, volume);
    }

    /// Side B of a device is held.
    pub(crate) fn hold_at(&mut self, d: DeviceNo)
        requires here { HasDevice self.old d }
        requires two { IfSome (device_at self.old.devices.items d) (λ x. (device_of x).store.paired ≡ true) }
        ensures spans { HasSameSpans self.old self.new }
        ensures stands { StayStanding self.old.devices.items self.new.devices.items }
        ensures pool { self.new.pool ≡ self.old.pool }
        ensures held { Changes d (λ x y. IsNow (hold_side (device_of x)) x y) self.old.devices.items self.new.devices.items }
    {
        let at = self.place(d);
        self.devices[at].hold();
    }

    /// Side B of a device isn't held any more.
    pub(crate) fn resume_at(&mut self, d: DeviceNo)
        requires here { HasDevice self.old d }
        requires two { IfSome (device_at self.old.devices.items d) (λ x. (device_of x).store.paired ≡ true) }
        ensures spans { HasSameSpans self.old self.new }
        ensures stands { StayStanding self.old.devices.items self.new.devices.items }
        ensures pool { self.new.pool ≡ self.old.pool }
        ensures resumed { Changes d (λ x y. IsNow (resume (device_of x)) x y) self.old.devices.items self.new.devices.items }
    {
        let at = self.place(d);
        self.devices[at].resume();
    }

    /// A new volume of empty tracks, 15 for each cylinder, in place of a failed side's. Takes no memory, so that it is always had.
    pub fn replace(&mut self, d: DeviceNo, side: Side, volume: V) -> Result<EventEnd, (NoMemory, V)>
        requires here { HasDevice self.old d }
        requires size { IfSome (device_at self.old.devices.items d) (λ x. (V.view volume).tracks ≡ tracks_of (device_of x).store) }
        ensures numbers { HasSameDevices self.old self.new }
        ensures had { IsOk result }
        ensures plain { TellsTracks (V.view volume) (V.view volume).tracks → StayPlain self.old.devices.items self.new.devices.items }
        ensures replaced { IfOk result (λ end. Replaced d side volume (device_at self.old.devices.items d) self.old end self.new) }
    {
        if let Some(fault) = replace_fault(self.device(d), side) {
            return Ok(EventEnd::Refused(fault));
        }
        self.replace_at(d, side, volume);
        Ok(EventEnd::Done)
    }
}
