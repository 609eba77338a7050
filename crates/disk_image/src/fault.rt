ghost use Rattle.std.specs.Prelude.{◌≡◌};
ghost use Rattle.disk_image.specs.declared.fault.ImageFault.TheVariants as faults;

use ckd_outside::Failed;
use ckd_types::{NoMemory, TrackNo};
use std::alloc::{AllocError, AllocFailed};

/// Why a file is no disk image that is taken here. Offsets count from the file's first byte.
#[derive(Clone, Copy, Debug, PartialEq, Eq)]
pub enum ImageFault {
    /// The signature (0), the heads (8), the size of a track's room (12), the device type of that size (16), or the zeros (20).
    BadHead { offset: u32 },
    /// No whole number of cylinders, from 1 to 4369, ends with the file, which has so many bytes.
    BadLength { size: u64 },
    /// The image is compressed, or shadows one.
    Compressed,
    /// It is one of several files of an image.
    Parts,
    /// A track is none that stands where it stands: its first field that is wrong or cut is at this offset.
    BadTrack { track: TrackNo, offset: u64 },
    /// It has so many cylinders, more than the 64 of a volume in memory, and so of a volume file.
    ManyCylinders { cylinders: u16 },
    /// A call of the file failed, or moved fewer bytes than it should.
    FileFault,
    NoMemory,
}

impl From<Failed> for ImageFault {
    ghost from_gives = { λ _ e. e ≡ faults.FileFault };

    fn from(_: Failed) -> Self {
        ImageFault::FileFault
    }
}

impl From<AllocError> for ImageFault {
    ghost from_gives = { λ _ e. e ≡ faults.NoMemory };

    fn from(_: AllocError) -> Self {
        ImageFault::NoMemory
    }
}

impl From<NoMemory> for ImageFault {
    ghost from_gives = { λ _ e. e ≡ faults.NoMemory };

    fn from(_: NoMemory) -> Self {
        ImageFault::NoMemory
    }
}

impl<T: Drop> From<AllocFailed<T>> for ImageFault {
    ghost from_gives = { λ _ e. e ≡ faults.NoMemory };

    fn from(_: AllocFailed<T>) -> Self {
        ImageFault::NoMemory
    }
}
