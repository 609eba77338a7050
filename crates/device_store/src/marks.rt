ghost use Rattle.std.specs.Prelude.{◌≡◌, ◌<◌, not};
ghost use Rattle.device_outside.specs.Volume.{counted, counted_if};
ghost use Rattle.device_defs.specs.Store.{has_level, some_up};
ghost use Rattle.device_store.specs.State.{state_of};

use crate::DeviceStore;
use ckd_types::{Side, TrackNo};
use device_defs::Counts;
use device_outside::{Volume, counted};

fn count_failed(counts: &mut Counts, ok: bool)
    ensures { counts.new ≡ record counts.old { failed = counted_if (not ok) counts.old.failed } }
{
    if !ok {
        counts.failed = counted(counts.failed);
    }
}

/// Counts a read of a volume.
pub(crate) fn count_read(counts: &mut Counts, ok: bool)
    ensures { counts.new ≡ record counts.old { reads = counted counts.old.reads; failed = counted_if (not ok) counts.old.failed } }
{
    counts.reads = counted(counts.reads);
    count_failed(counts, ok);
}

/// Counts a write of a volume.
pub(crate) fn count_write(counts: &mut Counts, ok: bool)
    ensures { counts.new ≡ record counts.old { writes = counted counts.old.writes; failed = counted_if (not ok) counts.old.failed } }
{
    counts.writes = counted(counts.writes);
    count_failed(counts, ok);
}

/// The track of a number that is one.
pub(crate) fn track(n: u16) -> TrackNo
    requires { n < 65535 }
    ensures { result ≡ n }
{
    TrackNo::new(n).unwrap()
}

impl<V: Volume> DeviceStore<V> {
    /// Whether a side that is up has a track's bytes that count.
    pub(crate) fn has_level(&self, t: TrackNo) -> bool
        ensures { result ≡ has_level (state_of self.now) t }
    {
        self.pair.is_level(Side::A, t) || self.pair.is_level(Side::B, t)
    }

    /// Whether some side is up.
    pub(crate) fn some_up(&self) -> bool
        ensures { result ≡ some_up (state_of self.now) }
    {
        self.pair.a.up || self.pair.b.up
    }
}
