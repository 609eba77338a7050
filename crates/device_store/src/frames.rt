ghost use Rattle.std.specs.Prelude.{◌≡◌, None, false, is_some, option_map, true};
ghost use Rattle.device_outside.specs.Keeper.{Heard};
ghost use Rattle.device_outside.specs.Outside.{Ran};
ghost use Rattle.device_defs.specs.Contents.{contents};
ghost use Rattle.device_defs.specs.Image.{filled, framed};
ghost use Rattle.device_defs.specs.Owed.{is_clean};
ghost use Rattle.device_defs.specs.Store.{frame_at, is_loose, with_frame};
ghost use Rattle.device_store.specs.Leaves.{ChangesMarksAlone, KeepsLooseTracks};
ghost use Rattle.device_store.specs.Images.{IsImageOf};
ghost use Rattle.device_store.specs.Looks.{frame_in, seen, IsSeen};
ghost use Rattle.device_store.specs.State.{state_of, outside, surely, HasTrack};
ghost use Rattle.track_cache.specs.Frames.{is_modified};

use crate::DeviceStore;
use ckd_types::TrackNo;
use device_outside::{Keep, Port, Volume};
use track_cache::Frame;
use track_image::TrackImage;

impl<V: Volume> DeviceStore<V> {
    /// Whether a track has a clean frame.
    pub(crate) fn is_clean(&self, t: TrackNo) -> bool
        ensures { result ≡ is_clean contents (frame_at (state_of self.now) t) }
    {
        if self.frames.modified(t) {
            return false;
        }
        self.frames.has(t)
    }

    /// The image in a track's frame.
    pub fn frame_image(&self, t: TrackNo) -> &TrackImage
        requires { is_some (frame_at (state_of self.now) t) ≡ true }
        ensures image { result.now ≡ frame_in (state_of self.now) t }
        ensures of { IsImageOf self.now.geometry t result.now }
    {
        match self.frames.get(t) {
            Some(image) => image,
            None => unreachable!(),
        }
    }

    /// The image of a track that was looked at: one that was read, or else the one in its frame.
    pub fn seen<'a>(&'a self, t: TrackNo, read: Option<&'a TrackImage>) -> &'a TrackImage
        requires { IsSeen (state_of self.now) t (option_map (λ i. i.now) read) }
        ensures image { result.now ≡ seen (state_of self.now) t (option_map (λ i. i.now) read.entry) }
        ensures of { IsImageOf self.now.geometry t result.now }
    {
        match read {
            Some(image) => image,
            None => self.frame_image(t),
        }
    }

    /// A track has no frame any more.
    pub(crate) fn forget(&mut self, t: TrackNo)
        requires { is_modified self.old.frames t ≡ false }
        ensures leaves { ChangesMarksAlone self.old self.new }
        ensures none { is_modified self.new.frames t ≡ false }
        ensures state { state_of self.new ≡ with_frame (state_of self.old) t None }
    {
        self.frames.set(t, None);
    }

    /// An image becomes a track's frame.
    pub(crate) fn put_frame(&mut self, t: TrackNo, image: TrackImage, modified: bool)
        requires track { HasTrack self.old t }
        requires of { IsImageOf self.old.geometry t image }
        requires firm { is_loose (state_of self.old) t ≡ false }
        ensures leaves { ChangesMarksAlone self.old self.new }
        ensures there { is_some (frame_at (state_of self.new) t) ≡ true }
        ensures image { frame_in (state_of self.new) t ≡ image }
        ensures state { state_of self.new ≡ framed contents (state_of self.old) t image modified }
    {
        self.frames.set(t, Some(Frame { image, modified }));
    }

    /// An image becomes a track's frame, which is modified where a patch is held.
    pub(crate) fn fill<P: Port, K: Keep<TrackImage>>(
        &mut self,
        t: TrackNo,
        image: TrackImage,
        port: &mut P,
    )
        requires track { HasTrack self.old t }
        requires of { IsImageOf self.old.geometry t image }
        requires firm { is_loose (state_of self.old) t ≡ false }
        ensures leaves { KeepsLooseTracks self.old self.new }
        ensures there { is_some (frame_at (state_of self.new) t) ≡ true }
        ensures image { frame_in (state_of self.new) t ≡ image }
        ensures run { (k : K) → Ran surely (Heard K.hears K.takes) (filled contents (state_of self.old) t image) (outside (P.view port.old) self.old k)
            (state_of self.new) tt (outside (P.view port.new) self.new k) }
    {
        if self.patches.has(t) {
            port.set_modified(self.number, t);
            self.put_frame(t, image, true);
            return;
        }
        self.put_frame(t, image, false);
    }
}
