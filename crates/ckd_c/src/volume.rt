ghost use Rattle.std.specs.Prelude.{◌≡◌, ◌≤◌, ◌*◌, IfErr, IfOk};
ghost use Rattle.device_outside.specs.Disk.{new_disk};
ghost use Rattle.ckd_c.specs.Codes.{IsRefusal};

use crate::code::Code;
use ckd_outside::Failed;
use ckd_types::{NoMemory, TrackNo};
use device_outside::{MemVolume, TrackBuffer, Volume};
use disk_image::{DiskImage, ImageFault, Layout, StdFile, open_image};
use std::alloc::Global;
use std::fs::File;

/// The volume of a device: an image in a file, or tracks in memory.
#[derive(Drop)]
pub enum HostVolume {
    Image(DiskImage<StdFile>),
    Memory(MemVolume),
}

impl Volume for HostVolume {
    ghost use Rattle.device_outside.specs.Disk.{disk_view};
    ghost use Rattle.disk_image.specs.Image.{image_view};
    ghost use Rattle.ckd_c.specs.declared.volume.HostVolume.TheVariants.{Image, Memory};

    ghost view = { λ v. elim v [ Image i ↦ image_view i | Memory d ↦ disk_view d ] };

    fn read_track(&mut self, t: TrackNo, into: &mut TrackBuffer) -> Result<(), Failed> {
        match self {
            HostVolume::Image(image) => image.read_track(t, into),
            HostVolume::Memory(volume) => volume.read_track(t, into),
        }
    }

    fn write_track(&mut self, t: TrackNo, bytes: &[u8]) -> Result<(), Failed> {
        match self {
            HostVolume::Image(image) => image.write_track(t, bytes),
            HostVolume::Memory(volume) => volume.write_track(t, bytes),
        }
    }
}

/// Why a file is no image that is taken.
fn image_code(fault: ImageFault) -> Code
    ensures { IsRefusal result }
{
    match fault {
        ImageFault::FileFault => Code::FileFault,
        ImageFault::NoMemory => Code::NoMemory,
        _ => Code::BadImage,
    }
}

/// The volume in the image that a file holds, and its layout. Only its head is read.
pub(crate) fn mount_image(alloc: Global, file: File) -> Result<(HostVolume, Layout), Code>
    ensures least { IfOk result (λ m. 1 ≤ m.1.cylinders) }
    ensures most { IfOk result (λ m. m.1.cylinders ≤ 4369) }
    ensures tracks { IfOk result (λ m. (⟦<HostVolume as Volume>⟧.view m.0).tracks ≡ m.1.cylinders * 15) }
    ensures early { IfErr result IsRefusal }
{
    let mut file = StdFile::new(file);
    let layout = match open_image(alloc, &mut file) {
        Ok(layout) => layout,
        Err(fault) => return Err(image_code(fault)),
    };
    match DiskImage::new(alloc, file, layout) {
        Ok(image) => {
            let layout = image.layout();
            Ok((HostVolume::Image(image), layout))
        }
        Err(NoMemory) => Err(Code::NoMemory),
    }
}

/// A volume of empty tracks in memory, of which the reads and the writes with these numbers fail, from 1 on.
pub(crate) fn memory_volume(
    alloc: Global,
    cylinders: u16,
    reads: &[u32],
    writes: &[u32],
) -> Result<HostVolume, Code>
    requires { cylinders ≤ 4369 }
    ensures made { IfOk result (λ v. v ≡ HostVolume.Memory (new_disk cylinders reads.now writes.now)) }
    ensures volume { IfOk result (λ v. (⟦<HostVolume as Volume>⟧.view v).tracks ≡ cylinders * 15) }
    ensures early { IfErr result IsRefusal }
{
    match MemVolume::new(alloc, cylinders, reads, writes) {
        Ok(volume) => Ok(HostVolume::Memory(volume)),
        Err(NoMemory) => Err(Code::NoMemory),
    }
}
