ghost use Rattle.std.specs.Prelude.{◌≡◌, true};
ghost use Rattle.subsystem_core.specs.Devices.{numbers_of};
ghost use Rattle.subsystem_core.specs.Places.{are_rising, IsTable};
ghost use Rattle.subsystem_core.specs.Seats.{seats_of, AreAlike};

use device_core::Device;
use device_outside::Volume;
use frame_pool::Pool;

/// The pool, the devices in rising order of their numbers, and where the device of each number is.
#[derive(Drop)]
pub struct Subsystem<V: Volume> {
    pub pool: Pool,
    pub devices: Vec<Device<V>>,
    pub places: [usize; 16],
    pub ghost rising: { are_rising (numbers_of devices.items) ≡ true },
    pub ghost table: { IsTable places (numbers_of devices.items) },
    pub ghost alike: { AreAlike (seats_of devices.items) },
}
