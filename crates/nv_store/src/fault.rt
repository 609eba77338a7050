ghost use Rattle.std.specs.Prelude.{◌≡◌};
ghost use Rattle.nv_store.specs.declared.fault.ApplyFault.TheVariants as faults;

use ckd_types::NoMemory;

/// Why a patch was not applied.
#[derive(Clone, Copy, Debug, PartialEq, Eq)]
pub enum ApplyFault {
    /// The image lacks a replaced record, or has it with other lengths, or lacks the record that the
    /// cut follows, or the track that comes of it doesn't fit.
    Unfit,
    NoMemory,
}

impl From<NoMemory> for ApplyFault {
    ghost from_gives = { λ _ e. e ≡ faults.NoMemory };

    fn from(_: NoMemory) -> Self {
        ApplyFault::NoMemory
    }
}
