//! What callers see of a device's tracks.

ghost use Rattle.std.specs.Prelude.{◌≡◌, ◌≤◌, is_some, true};
ghost use Rattle.std.specs.Option.{option_copied};
ghost use Rattle.track_cache.specs.Frames.{is_modified_frame};
ghost use Rattle.track_table.specs.Tracks.{count_below, least};
ghost use Rattle.device_defs.specs.Contents.{contents};
ghost use Rattle.device_defs.specs.Owed.{waiting_count};
ghost use Rattle.device_defs.specs.Store.{frame_at, is_loose, patch_at};
ghost use Rattle.device_store.specs.Images.{IsImageOf};
ghost use Rattle.device_store.specs.Looks.{frame_in};
ghost use Rattle.subsystem_defs.specs.Beside.{loose_count};
ghost use Rattle.device_core.specs.State.{device_of, side_volume};

use crate::Device;
use ckd_types::{Side, TrackNo};
use device_outside::Volume;
use plain_defs::Act;
use track_image::TrackImage;

impl<V: Volume> Device<V> {
    /// Whether a track holds data of cache fast write that aren't firm.
    pub fn loose(&self, t: TrackNo) -> bool
        ensures { result ≡ is_loose (device_of self.now).store t }
    {
        self.store.loose.has(t)
    }

    /// The first such track.
    pub fn first_loose(&self) -> Option<TrackNo>
        ensures { result ≡ least 65535 (is_loose (device_of self.now).store) }
    {
        self.store.loose.marks().first()
    }

    /// How many such tracks there are.
    fn all_loose(&self) -> usize
        ensures value { result ≡ loose_count (device_of self.now).store }
        ensures most { result ≤ 65535 }
    {
        self.store.loose.count()
    }

    /// The same.
    pub fn loose_count(&self) -> u16
        ensures { result ≡ loose_count (device_of self.now).store }
    {
        self.all_loose() as u16
    }

    /// The number of its data of cache fast write.
    pub fn data_number(&self) -> u16
        ensures { result ≡ (device_of self.now).store.number }
    {
        self.store.data_number
    }

    /// The acts of the event that was the last.
    pub fn acts(&self) -> &[Act]
        ensures { result.now ≡ (device_of self.now).store.acts }
    {
        self.store.loose.acts()
    }

    /// Whether a track has a frame of the cache.
    pub fn framed(&self, t: TrackNo) -> bool
        ensures { result ≡ is_some (frame_at (device_of self.now).store t) }
    {
        self.store.frames.has(t)
    }

    /// Whether what is in its frame is on no volume.
    pub fn modified(&self, t: TrackNo) -> bool
        ensures { result ≡ is_modified_frame (frame_at (device_of self.now).store t) }
    {
        self.store.frames.modified(t)
    }

    /// How many tracks have frames.
    pub fn framed_count(&self) -> u16
        ensures { result ≡ count_below 65535 (λ t. is_some (frame_at (device_of self.now).store t)) }
    {
        self.store.frames.framed_tracks().count()
    }

    /// How many tracks have patches in the nonvolatile store.
    pub fn patched_count(&self) -> u16
        ensures { result ≡ count_below 65535 (λ t. is_some (patch_at (device_of self.now).store t)) }
    {
        self.store.patches.patched_tracks().count()
    }

    /// How many tracks wait for the background.
    pub fn waiting_count(&self) -> u16
        ensures { result ≡ waiting_count contents (device_of self.now).store }
    {
        self.store.waiting_count()
    }

    /// The image in a track's frame, which it has.
    pub fn frame_image(&self, t: TrackNo) -> &TrackImage
        requires { is_some (frame_at (device_of self.now).store t) ≡ true }
        ensures image { result.now ≡ frame_in (device_of self.now).store t }
        ensures of { IsImageOf (device_of self.now).store.geometry t result.now }
    {
        self.store.frame_image(t)
    }

    /// The volume of a side: none where there is no such side, or it is lent.
    pub fn volume(&self, side: Side) -> Option<&V>
        ensures { option_copied result ≡ side_volume self.now side }
    {
        match side {
            Side::A => self.store.pair.volumes.a.as_ref(),
            Side::B => self.store.pair.volumes.b.as_ref(),
        }
    }
}
