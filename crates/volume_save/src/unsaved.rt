use ckd_types::{NoMemory, Side, TrackNo};

/// Why a device's volume isn't saved: the first of these that is so.
#[derive(Clone, Copy, Debug, PartialEq, Eq)]
pub enum Unsaved {
    /// It is lent.
    Lent,
    /// A half write of a command is open, or of one that was cut.
    Half,
    /// The first track that a look didn't find is lost.
    Lost(TrackNo),
    /// This side failed at the first track that a look didn't find, and no other side gave it.
    Fault(Side),
    NoMemory,
}

impl From<NoMemory> for Unsaved {
    ghost use Rattle.std.specs.Prelude.{◌≡◌};
    ghost use Rattle.volume_save.specs.declared.unsaved.Unsaved.TheVariants as refusals;

    ghost from_gives = { λ _ e. e ≡ refusals.NoMemory };

    fn from(_: NoMemory) -> Self {
        Unsaved::NoMemory
    }
}
