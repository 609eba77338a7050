ghost use Rattle.std.specs.Prelude.{◌≡◌, ◌≤◌, ◌*◌, ◌++◌, ◌∷◌, [], IfErr, None, OnErr, OnOk};
ghost use Rattle.device_core.specs.State.{device_of};
ghost use Rattle.subsystem_core.specs.Devices.{number_of};
ghost use Rattle.ckd_c.specs.Calls.{AddsImage, AddsMemory, Comes, IsAdded, StandsBehind, Tries, TriesTo, geometry_of};
ghost use Rattle.ckd_c.specs.Codes.{IsRefusal};

use crate::code::{Code, number_of};
use crate::finding::code_told;
use crate::handle::{CkdSubsystem, put, take};
use crate::lent::CkdFile;
use crate::opened::Opened;
use crate::volume::{HostVolume, memory_volume};
use ckd_types::{DeviceNo, Geometry};
use deck_plan::PathPlans;
use device_core::Device;
use device_outside::Volume;
use std::alloc::Global;
use subsystem_core::Subsystem;

/// The geometry of a device type.
fn geometry_of(kind: u32) -> Option<Geometry>
    ensures { result ≡ geometry_of kind }
{
    if kind == 3380 {
        return Some(Geometry::D3380);
    }
    if kind == 3390 {
        return Some(Geometry::D3390);
    }
    None
}

/// Whether a device of this number may come behind these: their numbers are below it, and none of them is lent.
fn stands_behind(devices: &[Device<HostVolume>], number: DeviceNo) -> Result<(), Code>
    ensures stands { OnOk result (StandsBehind devices.now number) }
    ensures refused { IfErr result IsRefusal }
{
    for i in 0..devices.len() {
        let device = &devices[i];
        if device.number().get() >= number.get() {
            return Err(Code::NotLast);
        }
        if device.lent_to().is_some() {
            return Err(Code::Lent);
        }
    }
    Ok(())
}

/// A device more, behind those that are there.
fn push_behind(
    subsystem: &mut Subsystem<HostVolume>,
    device: Device<HostVolume>,
) -> Result<(), Code>
    requires stands { StandsBehind subsystem.old.devices.items (number_of device) }
    requires new { (device_of device).store.lent ≡ None }
    ensures pool { subsystem.new.pool ≡ subsystem.old.pool }
    ensures pushed { OnOk result (subsystem.new.devices.items ≡ subsystem.old.devices.items ++ device ∷ []) }
    ensures same { OnErr result (subsystem.new.devices.items ≡ subsystem.old.devices.items) }
    ensures refused { IfErr result IsRefusal }
{
    let number = usize::from(device.number().get());
    let at = subsystem.devices().len();
    subsystem.devices.push(device)?;
    subsystem.places[number] = at;
    Ok(())
}

impl Opened {
    /// A new device on a volume, without programs.
    #[tactic(auto, using(crate::proofs::Refusing::same))]
    fn add(
        &mut self,
        alloc: Global,
        number: DeviceNo,
        geometry: Geometry,
        cylinders: u16,
        volume: HostVolume,
    ) -> Result<(), Code>
        requires stands { StandsBehind self.old.subsystem.devices.items number }
        requires least { 1 ≤ cylinders }
        requires most { cylinders ≤ 4369 }
        requires volume { (⟦<HostVolume as Volume>⟧.view volume).tracks ≡ cylinders * 15 }
        ensures { TriesTo (IsAdded number geometry cylinders volume) result self.old self.new }
    {
        let plans = PathPlans::new(alloc);
        match Device::open(alloc, number, geometry, cylinders, volume, plans) {
            Err(_) => Err(Code::NoMemory),
            Ok(device) => push_behind(&mut self.subsystem, device),
        }
    }

    /// A device of empty tracks in memory, of which these reads and writes fail.
    #[tactic(auto, using(crate::proofs::Refusing::same, crate::proofs::Appending::adds_memory))]
    fn add_memory(
        &mut self,
        alloc: Global,
        device: u8,
        geometry: u32,
        cylinders: u16,
        reads: &[u32],
        writes: &[u32],
    ) -> Result<(), Code>
        ensures { TriesTo (AddsMemory device geometry cylinders reads.now writes.now) result self.old self.new }
    {
        let Some(number) = DeviceNo::new(device) else {
            return Err(Code::BadDevice);
        };
        let Some(geometry) = geometry_of(geometry) else {
            return Err(Code::BadGeometry);
        };
        if cylinders < 1 || cylinders > 4369 {
            return Err(Code::BadCylinders);
        }
        stands_behind(&self.subsystem.devices, number)?;
        let volume = memory_volume(alloc, cylinders, reads, writes)?;
        self.add(alloc, number, geometry, cylinders, volume)
    }

    /// A device on the image that a file holds.
    #[tactic(auto, using(crate::proofs::Refusing::same, crate::proofs::Appending::added_behind, crate::proofs::Appending::same_behind))]
    fn add_image(&mut self, alloc: Global, device: u8, file: CkdFile) -> Result<(), Code>
        ensures { TriesTo (AddsImage device) result self.old self.new }
    {
        let Some(number) = DeviceNo::new(device) else {
            return Err(Code::BadDevice);
        };
        stands_behind(&self.subsystem.devices, number)?;
        let (volume, layout) = self.mount(alloc, file)?;
        match self.add(alloc, number, layout.geometry, layout.cylinders, volume) {
            Ok(()) => Ok(()),
            Err(code) => {
                let _file = self.files.pop();
                Err(code)
            }
        }
    }
}

/// Adds a device of empty tracks in memory, with a number above those of the devices that are there, the geometry of a 3380 or a
/// 3390, and 1 to 4,369 cylinders.
#[unsafe(no_mangle)]
pub extern "C" fn ckd_c_add_memory(
    alloc: Global,
    subsystem: &mut CkdSubsystem,
    device: u8,
    geometry: u32,
    cylinders: u16,
) -> u32
    ensures { Comes (Tries (AddsMemory device geometry cylinders [] [])) subsystem.old.place.value subsystem.new.place.value result }
{
    let Some(mut opened) = take(subsystem, alloc) else {
        return number_of(Code::Closed);
    };
    let code = code_told(opened.add_memory(alloc, device, geometry, cylinders, &[], &[]));
    put(subsystem, opened);
    number_of(code)
}

/// Adds such a device, of whose volume the reads and the writes with these numbers fail, from 1 on.
#[unsafe(no_mangle)]
pub extern "C" fn ckd_c_add_faulty(
    alloc: Global,
    subsystem: &mut CkdSubsystem,
    device: u8,
    geometry: u32,
    cylinders: u16,
    reads: &[u32],
    writes: &[u32],
) -> u32
    ensures { Comes (Tries (AddsMemory device geometry cylinders reads.now writes.now)) subsystem.old.place.value subsystem.new.place.value result }
{
    let Some(mut opened) = take(subsystem, alloc) else {
        return number_of(Code::Closed);
    };
    let code = code_told(opened.add_memory(alloc, device, geometry, cylinders, reads, writes));
    put(subsystem, opened);
    number_of(code)
}

/// Adds a device on the image that an open file holds, of whatever geometry and cylinders it has.
#[unsafe(no_mangle)]
pub extern "C" fn ckd_c_add_image(
    alloc: Global,
    subsystem: &mut CkdSubsystem,
    device: u8,
    file: CkdFile,
) -> u32
    ensures { Comes (Tries (AddsImage device)) subsystem.old.place.value subsystem.new.place.value result }
{
    let Some(mut opened) = take(subsystem, alloc) else {
        return number_of(Code::Closed);
    };
    let code = code_told(opened.add_image(alloc, device, file));
    put(subsystem, opened);
    number_of(code)
}
