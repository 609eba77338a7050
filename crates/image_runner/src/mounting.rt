ghost use Rattle.std.specs.Prelude.{◌≡◌, ◌≤◌, ◌*◌, IfErr, IfOk};
ghost use Rattle.image_runner.specs.declared.mounting.MountFault.TheVariants as faults;
ghost use Rattle.image_runner.specs.declared.volume.RunVolume.TheVariants.{Image, Memory};
ghost use Rattle.image_runner.specs.Mounting.{mount_fault_of};
ghost use Rattle.image_runner.specs.Racks.{IsMountFault, wanted_by};

use crate::volume::{Planned, RunVolume};
use ckd_types::{DeviceNo, NoMemory};
use deck_text::DeviceLine;
use device_outside::{MemVolume, Volume};
use disk_image::{DiskFile, DiskImage, ImageFault, Layout, open_image};
use std::alloc::{AllocFailed, Global};

/// Why a device doesn't begin with the image that is named for it.
#[derive(Clone, Copy, Debug, PartialEq, Eq)]
pub enum MountFault {
    /// The deck has no such device.
    Device,
    /// The image has this layout, and the deck's device another.
    Other { image: Layout, device: Layout },
    /// The file is no image that is taken.
    Bad(ImageFault),
    /// The file can't be opened, another process holds it, or a call of it failed.
    File,
    NoMemory,
}

/// The image that is named for this device isn't taken.
#[derive(Clone, Copy, Debug, PartialEq, Eq)]
pub struct Refusal {
    pub device: DeviceNo,
    pub fault: MountFault,
}

impl From<ImageFault> for MountFault {
    ghost from_gives = { λ fault e. e ≡ mount_fault_of fault };

    fn from(fault: ImageFault) -> Self {
        match fault {
            ImageFault::FileFault => MountFault::File,
            ImageFault::NoMemory => MountFault::NoMemory,
            _ => MountFault::Bad(fault),
        }
    }
}

impl<T: Drop> From<AllocFailed<T>> for MountFault {
    ghost from_gives = { λ _ e. e ≡ faults.NoMemory };

    fn from(_: AllocFailed<T>) -> Self {
        MountFault::NoMemory
    }
}

impl From<NoMemory> for MountFault {
    ghost from_gives = { λ _ e. e ≡ faults.NoMemory };

    fn from(_: NoMemory) -> Self {
        MountFault::NoMemory
    }
}

/// The layout that a DEVICE line wants.
fn wanted_by(line: DeviceLine) -> Layout
    ensures { result ≡ wanted_by line }
{
    Layout {
        geometry: line.geometry,
        cylinders: line.cylinders,
    }
}

/// The volume of a device in the image that a file holds, if that is one of its layout. Only its head is read.
pub(crate) fn mount<F: DiskFile>(
    alloc: Global,
    mut file: F,
    line: DeviceLine,
    fail_reads: &[u32],
    fail_writes: &[u32],
) -> Result<RunVolume<F>, MountFault>
    requires { line.cylinders ≤ 64 }
    ensures layout { IfOk result (λ v. elim v [ Image p ↦ p.volume.layout ≡ wanted_by line | Memory d ↦ ⊥ ]) }
    ensures tracks { IfOk result (λ v. (⟦<RunVolume<F> as Volume>⟧.view v).tracks ≡ line.cylinders * 15) }
    ensures fault { IfErr result (λ fault. IsMountFault line fault) }
{
    let image = open_image(alloc, &mut file)?;
    let device = wanted_by(line);
    if image != device {
        return Err(MountFault::Other { image, device });
    }
    let volume = DiskImage::new(alloc, file, image)?;
    let planned = Planned::new(alloc, volume, fail_reads, fail_writes)?;
    Ok(RunVolume::Image(planned))
}

/// A volume of empty tracks in memory.
pub(crate) fn new_volume<F: DiskFile>(
    alloc: Global,
    line: DeviceLine,
    fail_reads: &[u32],
    fail_writes: &[u32],
) -> Result<RunVolume<F>, MountFault>
    requires { line.cylinders ≤ 64 }
    ensures tracks { IfOk result (λ v. (⟦<RunVolume<F> as Volume>⟧.view v).tracks ≡ line.cylinders * 15) }
    ensures fault { IfErr result (λ fault. IsMountFault line fault) }
{
    let volume = MemVolume::new(alloc, line.cylinders, fail_reads, fail_writes)?;
    Ok(RunVolume::Memory(volume))
}
