ghost use Rattle.std.specs.Prelude.{◌≡◌, ◌<◌, IfOk, IsOk, Some, length, slice_get, true};
ghost use Rattle.device_outside.specs.Lists.{is_in};
ghost use Rattle.subsystem_core.specs.Devices.{device_at, numbers_of};
ghost use Rattle.subsystem_core.specs.Places.{are_rising, may_all_come, may_come, IsTable};
ghost use Rattle.subsystem_core.specs.Seats.{seats_of, AreAlike};
ghost use Rattle.subsystem_core.specs.Frames.{HasDevice};

use crate::Subsystem;
use ckd_types::{DeviceNo, NoMemory};
use device_core::Device;
use device_outside::Volume;
use frame_pool::Pool;
use subsystem_defs::Event;

/// Where the device of each number is.
fn places_of<V: Volume>(devices: &[Device<V>]) -> [usize; 16]
    requires { are_rising (numbers_of devices.now) ≡ true }
    ensures { IsTable result (numbers_of devices.now) }
{
    let mut places = [0; 16];
    for i in 0..devices.len() {
        places[usize::from(devices[i].number().get())] = i;
    }
    places
}

impl<V: Volume> Subsystem<V> {
    /// A subsystem of devices with rising numbers. The pool's waiting numbers are to be those of these devices, and 0 of all others:
    /// a new pool and new devices are so. A device that is lent has as many cylinders as the one to which it is lent. Takes no
    /// memory, so that it is always had.
    pub fn new(pool: Pool, devices: Vec<Device<V>>) -> Result<Subsystem<V>, NoMemory>
        requires rising { are_rising (numbers_of devices.items) ≡ true }
        requires alike { AreAlike (seats_of devices.items) }
        ensures had { IsOk result }
        ensures pool { IfOk result (λ s. s.pool ≡ pool) }
        ensures devices { IfOk result (λ s. s.devices ≡ devices) }
    {
        let places = places_of(&devices);
        Ok(Subsystem {
            pool,
            devices,
            places,
        })
    }

    /// Where the device of this number is.
    pub(crate) fn place(&self, d: DeviceNo) -> usize
        requires { HasDevice self.now d }
        ensures range { result < length self.now.devices.items }
        ensures found { slice_get (numbers_of self.now.devices.items) result ≡ Some d }
    {
        self.places[usize::from(d.get())]
    }

    /// Whether there is a device of this number, by a table.
    pub fn has_device(&self, d: DeviceNo) -> bool
        ensures { result ≡ is_in d (numbers_of self.now.devices.items) }
    {
        match self.devices.get(self.places[usize::from(d.get())]) {
            Some(device) => device.number() == d,
            None => false,
        }
    }

    /// The device of this number, by a table.
    pub fn device(&self, d: DeviceNo) -> &Device<V>
        requires { HasDevice self.now d }
        ensures { device_at self.now.devices.items d ≡ Some result.now }
    {
        &self.devices[self.place(d)]
    }

    /// All of them, in rising order.
    pub fn devices(&self) -> &[Device<V>]
        ensures { result.now ≡ self.now.devices.items }
    {
        &self.devices
    }

    /// Whether each device that an event names is there.
    pub fn may_come(&self, e: Event) -> bool
        ensures { result ≡ may_come (numbers_of self.now.devices.items) e }
    {
        match e {
            Event::Start(_, d) => self.has_device(d),
            Event::Step(d) => self.has_device(d),
            Event::Back(d) => self.has_device(d),
            Event::Reset(_, d) => self.has_device(d),
            Event::FailVolume(d, _) => self.has_device(d),
            Event::Pair(a, b) => self.has_device(a) && self.has_device(b),
            Event::Suspend(d) => self.has_device(d),
            Event::Resume(d) => self.has_device(d),
            _ => true,
        }
    }

    /// The same of each of some events.
    pub fn may_all_come(&self, events: &[Event]) -> bool
        ensures { result ≡ may_all_come (numbers_of self.now.devices.items) events.now }
    {
        for e in events {
            if !self.may_come(*e) {
                return false;
            }
        }
        true
    }

    pub fn pool(&self) -> &Pool
        ensures { result.now ≡ self.now.pool }
    {
        &self.pool
    }

    /// Hands back the pool and the devices in rising order. Takes no memory.
    pub fn into_parts(self) -> (Pool, Vec<Device<V>>)
        ensures { result ≡ (self.pool, self.devices) }
    {
        (self.pool, self.devices)
    }
}
