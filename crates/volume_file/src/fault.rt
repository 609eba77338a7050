use ckd_types::TrackNo;
use std::alloc::{AllocError, AllocFailed};

/// Why a source gave no volume. An offset counts from the file's first byte: it is that of the first byte of
/// the first field that is wrong or cut.
#[derive(Clone, Copy, Debug, PartialEq, Eq)]
pub enum LoadFault {
    /// The signature (0), the model (8), the cylinders (9) or the zeros (10).
    BadHead { offset: u32 },
    /// The length of a track's bytes, or a field of the track.
    BadTrack { track: TrackNo, offset: u32 },
    /// A byte follows the last track.
    Trailing { offset: u32 },
    /// A read failed.
    ReadFault,
    NoMemory,
}

impl From<AllocError> for LoadFault {
    ghost use Rattle.std.specs.Prelude.{◌≡◌};
    ghost use Rattle.volume_file.specs.declared.fault.LoadFault.TheVariants.{NoMemory};

    ghost from_gives = { λ _ e. e ≡ NoMemory };

    fn from(_: AllocError) -> Self {
        LoadFault::NoMemory
    }
}

impl<T: Drop> From<AllocFailed<T>> for LoadFault {
    ghost use Rattle.std.specs.Prelude.{◌≡◌};
    ghost use Rattle.volume_file.specs.declared.fault.LoadFault.TheVariants.{NoMemory};

    ghost from_gives = { λ _ e. e ≡ NoMemory };

    fn from(_: AllocFailed<T>) -> Self {
        LoadFault::NoMemory
    }
}
