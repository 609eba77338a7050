//! The volumes of a run, given to the bay.

ghost use Rattle.std.specs.Prelude.{◌≡◌, ◌≤◌, ◌+◌, ◌++◌, IfSome, length};
ghost use Rattle.deck_top.specs.Handed.{HoldsBytes, SidesHoldBytes, AllHoldBytes, on_side, taken_of, all_taken};

use crate::bay::VolumeBay;
use ckd_types::{DeviceNo, Side};
use device_core::Device;
use device_outside::Volume;
use subsystem_core::Subsystem;

/// The volume of a side, where one stands.
fn give_side<V: Volume, B: VolumeBay<V>>(
    number: DeviceNo,
    side: Side,
    volume: Option<V>,
    bay: &mut B,
)
    requires { length (B.view bay.old).taken + length (on_side number side volume) ≤ (B.view bay.old).made }
    ensures bay { B.view bay.new ≡ record (B.view bay.old) { taken = (B.view bay.old).taken ++ on_side number side volume } }
    ensures bytes { IfSome volume (λ v. HoldsBytes (V.view v)) }
{
    let Some(volume) = volume else {
        return;
    };
    bay.take_back(number, side, volume);
}

/// The volumes of a device.
fn give_device<V: Volume, B: VolumeBay<V>>(device: Device<V>, bay: &mut B)
    requires { length (B.view bay.old).taken + length (taken_of device) ≤ (B.view bay.old).made }
    ensures bay { B.view bay.new ≡ record (B.view bay.old) { taken = (B.view bay.old).taken ++ taken_of device } }
    ensures bytes { SidesHoldBytes device }
{
    let number = device.number();
    let (a, b) = device.into_volumes();
    give_side(number, Side::A, a, bay);
    give_side(number, Side::B, b, bay);
}

/// Those of some devices, the first one's first.
fn give_devices<V: Volume, B: VolumeBay<V>>(mut devices: Vec<Device<V>>, bay: &mut B)
    requires { length (B.view bay.old).taken + length (all_taken devices.items) ≤ (B.view bay.old).made }
    ensures bay { B.view bay.new ≡ record (B.view bay.old) { taken = (B.view bay.old).taken ++ all_taken devices.items } }
    ensures bytes { AllHoldBytes devices.items }
{
    let Some(device) = devices.pop() else {
        return;
    };
    give_devices(devices, bay);
    give_device(device, bay);
}

/// The volumes that stand in the devices, by rising number.
pub(crate) fn give_back<V: Volume, B: VolumeBay<V>>(sub: Subsystem<V>, bay: &mut B)
    requires { length (B.view bay.old).taken + length (all_taken sub.devices.items) ≤ (B.view bay.old).made }
    ensures bay { B.view bay.new ≡ record (B.view bay.old) { taken = (B.view bay.old).taken ++ all_taken sub.devices.items } }
    ensures bytes { AllHoldBytes sub.devices.items }
{
    let (_pool, all) = sub.into_parts();
    give_devices(all, bay);
}
