ghost use Rattle.std.specs.Prelude.{◌≡◌, IfErr, IfOk};
ghost use Rattle.subsystem_core.specs.Frames.{HasDevice};
ghost use Rattle.ckd_c.specs.Calls.{Comes, IsFor, OnSide, OrRefused, Parts, Replaces, side_of};
ghost use Rattle.ckd_c.specs.Codes.{IsRefusal};

use crate::asking::side_of;
use crate::code::{Code, code_of_end, number_of};
use crate::handle::{CkdSubsystem, put, take};
use crate::lent::CkdFile;
use crate::opened::Opened;
use crate::volume::{HostVolume, memory_volume};
use ckd_types::{DeviceNo, NoMemory, Side};
use std::alloc::Global;

impl Opened {
    /// A volume of empty tracks in memory for a device.
    fn memory_for(&self, alloc: Global, number: DeviceNo) -> Result<HostVolume, Code>
        requires { HasDevice self.now.subsystem number }
        ensures size { IfOk result (IsFor number self.now) }
        ensures refused { IfErr result IsRefusal }
    {
        let cylinders = self.subsystem.device(number).cylinders();
        if cylinders > 4369 {
            return Err(Code::BadCylinders);
        }
        memory_volume(alloc, cylinders, &[], &[])
    }

    /// The volume in the image that a file holds, for a device of its geometry and size.
    fn image_for(
        &mut self,
        alloc: Global,
        number: DeviceNo,
        file: CkdFile,
    ) -> Result<HostVolume, Code>
        requires { HasDevice self.old.subsystem number }
        ensures size { IfOk result (IsFor number self.old) }
        ensures subsystem { self.new.subsystem ≡ self.old.subsystem }
        ensures refused { IfErr result IsRefusal }
    {
        let (volume, layout) = self.mount(alloc, file)?;
        let device = self.subsystem.device(number);
        if layout.geometry == device.geometry() && layout.cylinders == device.cylinders() {
            return Ok(volume);
        }
        let _file = self.files.pop();
        Err(Code::NotAlike)
    }

    /// A failed side of a device gets a volume.
    #[tactic(auto, using(crate::proofs::Refusing::has_ended, crate::proofs::Refusing::is_refused))]
    fn replace_side(&mut self, number: DeviceNo, side: Side, volume: HostVolume) -> Code
        requires here { HasDevice self.old.subsystem number }
        requires size { IsFor number self.old volume }
        ensures { OrRefused (Replaces number side) result self.old self.new }
    {
        match self.subsystem.replace(number, side, volume) {
            Ok(end) => code_of_end(&end),
            Err((NoMemory, _volume)) => Code::NoMemory,
        }
    }

    /// The pair of a device is taken apart, and the device that had lent its volume gets this one.
    #[tactic(auto, using(crate::proofs::Refusing::has_ended, crate::proofs::Refusing::is_refused))]
    fn part_from(&mut self, number: DeviceNo, volume: HostVolume) -> Code
        requires here { HasDevice self.old.subsystem number }
        requires size { IsFor number self.old volume }
        ensures { OrRefused (Parts number) result self.old self.new }
    {
        match self.subsystem.unpair(number, volume) {
            Ok(end) => code_of_end(&end),
            Err((NoMemory, _volume)) => Code::NoMemory,
        }
    }

    #[tactic(auto, using(crate::proofs::Refusing::is_refused_first))]
    fn replace_memory(&mut self, alloc: Global, device: u8, side: u8) -> Code
        ensures { OrRefused (OnSide side (Replaces device)) result self.old self.new }
    {
        let Some(side) = side_of(side) else {
            return Code::BadSide;
        };
        let number = match self.find(device) {
            Ok(number) => number,
            Err(code) => return code,
        };
        match self.memory_for(alloc, number) {
            Ok(volume) => self.replace_side(number, side, volume),
            Err(code) => code,
        }
    }

    #[tactic(auto, using(crate::proofs::Refusing::is_refused_first))]
    fn replace_image(&mut self, alloc: Global, device: u8, side: u8, file: CkdFile) -> Code
        ensures { OrRefused (OnSide side (Replaces device)) result self.old self.new }
    {
        let Some(side) = side_of(side) else {
            return Code::BadSide;
        };
        let number = match self.find(device) {
            Ok(number) => number,
            Err(code) => return code,
        };
        match self.image_for(alloc, number, file) {
            Ok(volume) => self.replace_side(number, side, volume),
            Err(code) => code,
        }
    }

    #[tactic(auto, using(crate::proofs::Refusing::is_refused_first))]
    fn part_memory(&mut self, alloc: Global, device: u8) -> Code
        ensures { OrRefused (Parts device) result self.old self.new }
    {
        let number = match self.find(device) {
            Ok(number) => number,
            Err(code) => return code,
        };
        match self.memory_for(alloc, number) {
            Ok(volume) => self.part_from(number, volume),
            Err(code) => code,
        }
    }

    #[tactic(auto, using(crate::proofs::Refusing::is_refused_first))]
    fn part_image(&mut self, alloc: Global, device: u8, file: CkdFile) -> Code
        ensures { OrRefused (Parts device) result self.old self.new }
    {
        let number = match self.find(device) {
            Ok(number) => number,
            Err(code) => return code,
        };
        match self.image_for(alloc, number, file) {
            Ok(volume) => self.part_from(number, volume),
            Err(code) => code,
        }
    }
}

/// A failed side of a device gets a volume of empty tracks in memory.
#[unsafe(no_mangle)]
pub extern "C" fn ckd_c_replace_memory(
    alloc: Global,
    subsystem: &mut CkdSubsystem,
    device: u8,
    side: u8,
) -> u32
    ensures { Comes (OrRefused (OnSide side (Replaces device))) subsystem.old.place.value subsystem.new.place.value result }
{
    let Some(mut opened) = take(subsystem, alloc) else {
        return number_of(Code::Closed);
    };
    let code = opened.replace_memory(alloc, device, side);
    put(subsystem, opened);
    number_of(code)
}

/// A failed side of a device gets the volume in the image that an open file holds.
#[unsafe(no_mangle)]
pub extern "C" fn ckd_c_replace_image(
    alloc: Global,
    subsystem: &mut CkdSubsystem,
    device: u8,
    side: u8,
    file: CkdFile,
) -> u32
    ensures { Comes (OrRefused (OnSide side (Replaces device))) subsystem.old.place.value subsystem.new.place.value result }
{
    let Some(mut opened) = take(subsystem, alloc) else {
        return number_of(Code::Closed);
    };
    let code = opened.replace_image(alloc, device, side, file);
    put(subsystem, opened);
    number_of(code)
}

/// A pair is taken apart. The device that had lent its volume gets one of empty tracks in memory.
#[unsafe(no_mangle)]
pub extern "C" fn ckd_c_part_memory(alloc: Global, subsystem: &mut CkdSubsystem, device: u8) -> u32
    ensures { Comes (OrRefused (Parts device)) subsystem.old.place.value subsystem.new.place.value result }
{
    let Some(mut opened) = take(subsystem, alloc) else {
        return number_of(Code::Closed);
    };
    let code = opened.part_memory(alloc, device);
    put(subsystem, opened);
    number_of(code)
}

/// A pair is taken apart. The device that had lent its volume gets the one in the image that an open file holds.
#[unsafe(no_mangle)]
pub extern "C" fn ckd_c_part_image(
    alloc: Global,
    subsystem: &mut CkdSubsystem,
    device: u8,
    file: CkdFile,
) -> u32
    ensures { Comes (OrRefused (Parts device)) subsystem.old.place.value subsystem.new.place.value result }
{
    let Some(mut opened) = take(subsystem, alloc) else {
        return number_of(Code::Closed);
    };
    let code = opened.part_image(alloc, device, file);
    put(subsystem, opened);
    number_of(code)
}
