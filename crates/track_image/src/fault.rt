ghost use Rattle.std.specs.Prelude.{◌≡◌};
ghost use Rattle.track_image.specs.declared.fault.AddFault.TheVariants as add_faults;
ghost use Rattle.track_image.specs.declared.fault.BytesFault.TheVariants as bytes_faults;

use ckd_types::NoMemory;

/// Why a record was not added.
#[derive(Clone, Copy, Debug, PartialEq, Eq)]
pub enum AddFault {
    /// It doesn't fit on the track.
    Unfit,
    NoMemory,
}

impl From<NoMemory> for AddFault {
    ghost from_gives = { λ _ e. e ≡ add_faults.NoMemory };

    fn from(_: NoMemory) -> Self {
        AddFault::NoMemory
    }
}

/// Why bytes gave no image.
#[derive(Clone, Copy, Debug, PartialEq, Eq)]
pub enum BytesFault {
    /// They are no track with that home address: the field at `offset` is the first one that is
    /// wrong or cut.
    BadTrack { offset: usize },
    NoMemory,
}

impl From<NoMemory> for BytesFault {
    ghost from_gives = { λ _ e. e ≡ bytes_faults.NoMemory };

    fn from(_: NoMemory) -> Self {
        BytesFault::NoMemory
    }
}
