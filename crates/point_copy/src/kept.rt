ghost use Rattle.std.specs.Prelude.{◌≡◌, ◌≤◌, ◌<◌, ◌*◌, IfOk, None};
ghost use Rattle.track_table.specs.Table.{entry_at};
ghost use Rattle.point_copy.specs.Keeping.{hears_old, is_wanted, nothing_kept, takes_all, with_image};
ghost use Rattle.point_copy.specs.Copying.{passed};

use ckd_types::{DeviceNo, HEADS, NoMemory, TrackNo};
use device_outside::Keep;
use std::alloc::Global;
use std::marker::Model;
use track_image::TrackImage;
use track_table::TrackTable;

/// The old tracks of a device that were written since, of those from `next` on. Room for all of them is made at the beginning; an
/// image takes memory when it is kept.
#[derive(Drop)]
pub struct OldTracks {
    alloc: Global,
    device: DeviceNo,
    next: u16,
    images: TrackTable<TrackImage>,
}

impl Model for OldTracks {
    ghost use Rattle.point_copy.specs.Keeping.{OldView};

    ghost Value = { OldView };

    ghost view = { λ k. record { device = k.device; next = k.next; images = k.images } };
}

impl OldTracks {
    /// Nothing is kept, and nothing is given yet.
    pub fn new(alloc: Global, device: DeviceNo, cylinders: u16) -> Result<OldTracks, NoMemory>
        requires { cylinders ≤ 4369 }
        ensures { IfOk result (λ k. k ≡ nothing_kept device (cylinders * 15)) }
    {
        let mut images = TrackTable::new(alloc)?;
        images.reserve(usize::from(cylinders) * usize::from(HEADS))?;
        Ok(OldTracks {
            alloc,
            device,
            next: 0,
            images,
        })
    }

    /// The least track that isn't given yet.
    pub fn next(&self) -> u16
        ensures { result ≡ self.now.next }
    {
        self.next
    }

    /// The next track counts as given.
    pub(crate) fn pass(&mut self)
        requires { self.old.next < 65535 }
        ensures { self.new ≡ passed self.old }
    {
        self.next += 1;
    }

    /// The old image of a track, where it was written since. It isn't kept any more.
    pub(crate) fn take(&mut self, t: TrackNo) -> Option<TrackImage>
        ensures image { result ≡ entry_at self.old.images t }
        ensures rest { self.new ≡ with_image self.old t None }
    {
        self.images.exchange(t, None)
    }

    fn wants(&self, d: DeviceNo, t: TrackNo) -> bool
        ensures { result ≡ is_wanted self.now d t }
    {
        d == self.device && self.next <= t.get() && !self.images.has(t)
    }
}

impl Keep<TrackImage> for OldTracks {
    ghost hears = { hears_old };

    ghost takes = { takes_all };

    fn before_edit(&mut self, d: DeviceNo, t: TrackNo, old: &TrackImage) -> Result<(), NoMemory> {
        if !self.wants(d, t) {
            return Ok(());
        }
        let image = old.copy(self.alloc)?;
        let _none = self.images.exchange(t, Some(image));
        Ok(())
    }

    fn firm(&mut self, _d: DeviceNo, _t: TrackNo, _now: &TrackImage) {}
}
