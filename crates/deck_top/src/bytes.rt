//! What a volume in memory holds are bytes.

ghost use Rattle.std.specs.Prelude.{◌<◌, [], ℕ, slice_index_or};
ghost use Rattle.device_outside.specs.Disk.{disk_view};
ghost use Rattle.deck_top.specs.Handed.{HoldsBytes};

use ckd_types::TrackNo;
use device_outside::MemVolume;

/// As many tracks as a device has at most.
const MOST_TRACKS: u16 = 65535;

fn are_bytes(bytes: &[u8])
    ensures { (i : ℕ) → slice_index_or bytes.now i 0 < 256 }
{
    let _bytes = bytes;
}

#[tactic(auto, using(crate::proofs::EmptyBays::held_so_far))]
fn tracks_hold_bytes(volume: &MemVolume)
    ensures { (t i : ℕ) → t < 65535 → slice_index_or (slice_index_or volume.now.tracks t []) i 0 < 256 }
{
    for t in 0..MOST_TRACKS {
        if volume.len() <= usize::from(t) {
            return;
        }
        are_bytes(volume.track(TrackNo::new(t).unwrap()));
    }
}

pub(crate) fn holds_bytes(volume: &MemVolume)
    ensures { HoldsBytes (disk_view volume.now) }
{
    tracks_hold_bytes(volume);
}
