ghost use Rattle.std.specs.Prelude.{◌≡◌, ◌<◌, ◌*◌, List, None, ℕ, Some, false, if◌then◌else◌, is_some, length, not, true};
ghost use Rattle.ckd_types.specs.declared.paths.Side.TheVariants.{B};
ghost use Rattle.ckd_types.specs.declared.record.Edit.{Edit};
ghost use Rattle.ckd_types.specs.Track.{track_bytes};
ghost use Rattle.device_defs.specs.declared.answers.Took.TheVariants.{Opened, Unwritten, Whole};
ghost use Rattle.device_defs.specs.Contents.{contents};
ghost use Rattle.device_defs.specs.Editing.{at_once, through, through_by, whole};
ghost use Rattle.device_defs.specs.Store.{frame_at, is_loose, takes_b, OfCommand};
ghost use Rattle.device_defs.specs.Writing.{
  alone_b,
  done_by,
  failed_a,
  first_a,
  firm_first,
  write_opened,
  taken_a,
  tried_b,
  unpatched,
  write_done,
  write_first,
  write_second,
  write_side,
};
ghost use Rattle.device_outside.specs.Keeper.{Heard};
ghost use Rattle.device_outside.specs.Outside.{PortView, Ran};
ghost use Rattle.device_outside.specs.Volume.{WriteOf, counted, counted_if};
ghost use Rattle.duplex_pair.specs.Sides.{HasSides, other_of, state_in, volume_of};
ghost use Rattle.duplex_pair.specs.Volumes.{IsThere, view_in};
ghost use Rattle.track_cache.specs.Frames.{has_frame, image_at};
ghost use Rattle.device_store.specs.Leaves.{ChangesMarksAlone, IsSameDevice, KeepsHalfWrite, KeepsLooseTracks, KeepsWeight, MovesNothing};
ghost use Rattle.device_store.specs.Images.{IsImageOf};
ghost use Rattle.device_store.specs.Looks.{frame_in};
ghost use Rattle.device_store.specs.State.{is_opened, origin_of, state_of, outside, surely, StaysFirm, wrote_by, HasTrack, TakesTracks};

use crate::marks::count_write;
use crate::{DeviceStore, HalfWrite, Origin};
use ckd_types::{Edit, Side, TrackNo};
use device_defs::{Counts, Took};
use device_outside::{Keep, Port, Volume};
use duplex_pair::DuplexPair;
use track_cache::{Frame, Frames};
use track_image::TrackImage;

/// What came of the first part of a write, and the first side that failed in it.
#[derive(Clone, Copy, Debug)]
pub(crate) struct Written {
    pub(crate) took: Took,
    pub(crate) fault: Option<Side>,
}

/// A write that side B is still to take is opened.
fn opened_if(takes: bool) -> Took
    ensures { result ≡ (if takes then Opened else Whole) }
{
    if takes { Took::Opened } else { Took::Whole }
}

/// A side that is up is given a track, which is counted.
pub(crate) fn write_side<V: Volume>(
    pair: &mut DuplexPair<V>,
    counts: &mut Counts,
    side: Side,
    t: TrackNo,
    image: &TrackImage,
) -> bool
    requires up { (state_in pair.old side).up ≡ true }
    requires track { t < length pair.old.a.stale }
    ensures sides { HasSides pair.old pair.new }
    ensures other { other_of pair.new.volumes side ≡ other_of pair.old.volumes side }
    ensures before { IsThere (volume_of pair.old.volumes side) }
    ensures there { IsThere (volume_of pair.new.volumes side) }
    ensures wrote { WriteOf (view_in V.view (volume_of pair.old.volumes side)) t (track_bytes image.now.track) result
        (view_in V.view (volume_of pair.new.volumes side)) }
    ensures counts { counts.new ≡ record counts.old { writes = counted counts.old.writes; failed = counted_if (not result) counts.old.failed } }
{
    let took = pair.write(side, t, image.bytes());
    count_write(counts, took);
    took
}

/// The image in a track's frame.
fn image_in(frames: &Frames, t: TrackNo) -> &TrackImage
    requires { has_frame frames.now t ≡ true }
    ensures { Some result.now ≡ image_at frames.now t }
{
    match frames.get(t) {
        Some(image) => image,
        None => unreachable!(),
    }
}

impl<V: Volume> DeviceStore<V> {
    /// Before the first write of a loose track it becomes firm, and no side holds it.
    pub(crate) fn firm_first<K: Keep<TrackImage>>(&mut self, t: TrackNo, keep: &mut K) -> bool
        requires track { HasTrack self.old t }
        requires kept { is_loose (state_of self.old) t ≡ true → is_some (frame_at (state_of self.old) t) ≡ true }
        requires takes { TakesTracks K.takes keep.old self.old }
        ensures leaves { KeepsHalfWrite self.old self.new }
        ensures volume { self.new.pair.volumes ≡ self.old.pair.volumes }
        ensures takes { TakesTracks K.takes keep.new self.new }
        ensures frames { self.new.frames ≡ self.old.frames }
        ensures firm { is_loose (state_of self.new) t ≡ false }
        ensures run { (p : PortView) → Ran surely (Heard K.hears K.takes) (firm_first contents (state_of self.old) t) (outside p self.old keep.old)
            (state_of self.new) result (outside p self.new keep.new) }
    {
        if self.loose.has(t) {
            let image = self.frame_image(t);
            image.fits();
            keep.firm(self.number, t, image);
            self.harden(t);
            self.stale_everywhere(t);
            return true;
        }
        false
    }

    /// No side takes writes.
    fn unheld<K: Keep<TrackImage>>(&mut self, t: TrackNo) -> Written
        requires track { HasTrack self.old t }
        requires firm { is_loose (state_of self.old) t ≡ false }
        requires down { self.old.pair.a.up ≡ false }
        requires none { takes_b (state_of self.old) ≡ false }
        ensures leaves { KeepsLooseTracks self.old self.new }
        ensures refused { result.took ≡ Unwritten }
        ensures run { (p : PortView) (k : K) (bytes : List ℕ)
            → Ran surely (Heard K.hears K.takes) (write_first contents (state_of self.old) t bytes) (outside p self.old k) (state_of self.new) (wrote_by result)
            (outside p self.new k) }
    {
        self.settle(t);
        Written {
            took: Took::Unwritten,
            fault: None,
        }
    }

    /// Side A took a track, which is stale on a side B that is up.
    fn taken_a(&mut self, t: TrackNo)
        requires { HasTrack self.old t }
        ensures leaves { ChangesMarksAlone self.old self.new }
        ensures frames { self.new.frames ≡ self.old.frames }
        ensures takes { takes_b (state_of self.new) ≡ takes_b (state_of self.old) }
        ensures state { state_of self.new ≡ taken_a (state_of self.old) t }
    {
        self.mark_a(t, false);
        if self.pair.b.up {
            self.mark_b(t, true);
        }
    }

    /// The last side that is tried is given a track, where the first one that failed would be `first`.
    fn write_b<K: Keep<TrackImage>>(
        &mut self,
        t: TrackNo,
        image: &TrackImage,
        fault: Option<Side>,
        first: Side,
        keep: &mut K,
    ) -> Written
        requires track { HasTrack self.old t }
        requires firm { is_loose (state_of self.old) t ≡ false }
        requires takes { TakesTracks K.takes keep.old self.old }
        requires up { self.old.pair.b.up ≡ true }
        ensures leaves { KeepsHalfWrite self.old self.new }
        ensures firm { StaysFirm self.old.loose.loose self.new.loose.loose }
        ensures takes { TakesTracks K.takes keep.new self.new }
        ensures run { (p : PortView) → Ran surely (Heard K.hears K.takes)
            (write_side contents (state_of self.old) B t (track_bytes image.now.track) (alone_b contents t fault first)) (outside p self.old keep.old)
            (state_of self.new) (wrote_by result) (outside p self.new keep.new) }
    {
        if write_side(&mut self.pair, &mut self.counts, Side::B, t, image) {
            self.mark_b(t, false);
            let took = Took::Whole;
            return Written { took, fault };
        }
        self.call_failed(Side::B, Some(t), keep);
        self.refuse(t);
        Written {
            took: Took::Unwritten,
            fault: Some(first),
        }
    }

    /// Side A failed: side B is given the track, where it took writes before.
    fn failed_a<K: Keep<TrackImage>>(
        &mut self,
        t: TrackNo,
        image: &TrackImage,
        takes: bool,
        keep: &mut K,
    ) -> Written
        requires track { HasTrack self.old t }
        requires firm { is_loose (state_of self.old) t ≡ false }
        requires takes { TakesTracks K.takes keep.old self.old }
        requires up { takes ≡ true → self.old.pair.b.up ≡ true }
        ensures leaves { KeepsHalfWrite self.old self.new }
        ensures firm { StaysFirm self.old.loose.loose self.new.loose.loose }
        ensures takes { TakesTracks K.takes keep.new self.new }
        ensures run { (p : PortView) → Ran surely (Heard K.hears K.takes) (failed_a contents t (track_bytes image.now.track) takes (state_of self.old))
            (outside p self.old keep.old) (state_of self.new) (wrote_by result) (outside p self.new keep.new) }
    {
        if takes {
            return self.write_b(t, image, Some(Side::A), Side::A, keep);
        }
        self.refuse(t);
        Written {
            took: Took::Unwritten,
            fault: Some(Side::A),
        }
    }

    /// Side A, which is up, is given a track, and side B where it fails.
    fn write_a<K: Keep<TrackImage>>(
        &mut self,
        t: TrackNo,
        image: &TrackImage,
        keep: &mut K,
    ) -> Written
        requires track { HasTrack self.old t }
        requires firm { is_loose (state_of self.old) t ≡ false }
        requires takes { TakesTracks K.takes keep.old self.old }
        requires up { self.old.pair.a.up ≡ true }
        ensures leaves { KeepsHalfWrite self.old self.new }
        ensures firm { StaysFirm self.old.loose.loose self.new.loose.loose }
        ensures takes { TakesTracks K.takes keep.new self.new }
        ensures run { (p : PortView) → Ran surely (Heard K.hears K.takes) (write_first contents (state_of self.old) t (track_bytes image.now.track))
            (outside p self.old keep.old) (state_of self.new) (wrote_by result) (outside p self.new keep.new) }
    {
        let takes = self.pair.takes_b();
        if write_side(&mut self.pair, &mut self.counts, Side::A, t, image) {
            self.taken_a(t);
            return Written {
                took: opened_if(takes),
                fault: None,
            };
        }
        self.call_failed(Side::A, Some(t), keep);
        self.failed_a(t, image, takes, keep)
    }

    /// The first part of a write: the sides that are up and not held, A before B; both only where A fails.
    pub(crate) fn write_first<K: Keep<TrackImage>>(
        &mut self,
        t: TrackNo,
        image: &TrackImage,
        keep: &mut K,
    ) -> Written
        requires track { HasTrack self.old t }
        requires firm { is_loose (state_of self.old) t ≡ false }
        requires takes { TakesTracks K.takes keep.old self.old }
        ensures leaves { KeepsHalfWrite self.old self.new }
        ensures firm { StaysFirm self.old.loose.loose self.new.loose.loose }
        ensures takes { TakesTracks K.takes keep.new self.new }
        ensures run { (p : PortView) → Ran surely (Heard K.hears K.takes) (write_first contents (state_of self.old) t (track_bytes image.now.track))
            (outside p self.old keep.old) (state_of self.new) (wrote_by result) (outside p self.new keep.new) }
    {
        if self.pair.a.up {
            return self.write_a(t, image, keep);
        }
        if self.pair.takes_b() {
            return self.write_b(t, image, None, Side::B, keep);
        }
        self.unheld::<K>(t)
    }

    /// Behind a write of a volume that is alone, by whether it took the track.
    fn taken_alone<K: Keep<TrackImage>>(&mut self, t: TrackNo, done: bool) -> Written
        requires track { HasTrack self.old t }
        requires firm { is_loose (state_of self.old) t ≡ false }
        requires single { (state_of self.old).paired ≡ false }
        ensures leaves { ChangesMarksAlone self.old self.new }
        ensures kept { result.took ≡ Whole → self.new.frames ≡ self.old.frames }
        ensures whole { (result.took ≡ Opened) → ⊥ }
        ensures run { (p : PortView) (k : K) (bytes : List ℕ)
            → Ran surely (Heard K.hears K.takes) (first_a contents t bytes (state_of self.old) done) (outside p self.old k) (state_of self.new)
            (wrote_by result) (outside p self.new k) }
    {
        if done {
            self.taken_a(t);
            return Written {
                took: Took::Whole,
                fault: None,
            };
        }
        self.refuse(t);
        Written {
            took: Took::Unwritten,
            fault: Some(Side::A),
        }
    }

    /// A volume that is alone is given the image in a track's frame.
    pub(crate) fn write_frame<K: Keep<TrackImage>>(&mut self, t: TrackNo) -> Written
        requires track { HasTrack self.old t }
        requires firm { is_loose (state_of self.old) t ≡ false }
        requires framed { is_some (frame_at (state_of self.old) t) ≡ true }
        requires single { (state_of self.old).paired ≡ false }
        ensures leaves { KeepsLooseTracks self.old self.new }
        ensures kept { result.took ≡ Whole → self.new.frames ≡ self.old.frames }
        ensures whole { (result.took ≡ Opened) → ⊥ }
        ensures run { (p : PortView) (k : K) → Ran surely (Heard K.hears K.takes)
            (write_first contents (state_of self.old) t (track_bytes (frame_in (state_of self.old) t).track)) (outside p self.old k)
            (state_of self.new) (wrote_by result) (outside p self.new k) }
    {
        if self.pair.a.up {
            let image = image_in(&self.frames, t);
            let done = write_side(&mut self.pair, &mut self.counts, Side::A, t, image);
            return self.taken_alone::<K>(t, done);
        }
        self.unheld::<K>(t)
    }

    /// Behind a write of side B in a second part.
    pub(crate) fn tried_b<K: Keep<TrackImage>>(&mut self, t: TrackNo, took: bool, keep: &mut K)
        requires track { HasTrack self.old t }
        requires takes { TakesTracks K.takes keep.old self.old }
        ensures leaves { MovesNothing self.old self.new }
        ensures firm { StaysFirm self.old.loose.loose self.new.loose.loose }
        ensures takes { TakesTracks K.takes keep.new self.new }
        ensures run { (p : PortView) → Ran surely (Heard K.hears K.takes) (tried_b contents t (state_of self.old) took) (outside p self.old keep.old)
            (state_of self.new) tt (outside p self.new keep.new) }
    {
        if took {
            self.mark_b(t, false);
            return;
        }
        self.call_failed(Side::B, Some(t), keep);
    }

    /// The second part of a write: side B, where it is up and not held.
    fn write_second<K: Keep<TrackImage>>(&mut self, t: TrackNo, image: &TrackImage, keep: &mut K)
        requires track { HasTrack self.old t }
        requires takes { TakesTracks K.takes keep.old self.old }
        ensures leaves { KeepsHalfWrite self.old self.new }
        ensures firm { StaysFirm self.old.loose.loose self.new.loose.loose }
        ensures takes { TakesTracks K.takes keep.new self.new }
        ensures run { (p : PortView) → Ran surely (Heard K.hears K.takes) (write_second contents (state_of self.old) t (track_bytes image.now.track))
            (outside p self.old keep.old) (state_of self.new) tt (outside p self.new keep.new) }
    {
        if self.takes_second() {
            let took = write_side(&mut self.pair, &mut self.counts, Side::B, t, image);
            self.tried_b(t, took, keep);
        }
    }

    /// A write waits for its second part. The frame of a track that was loose before is clean.
    pub(crate) fn open_half<P: Port, K: Keep<TrackImage>>(
        &mut self,
        half: HalfWrite,
        was_loose: bool,
        port: &mut P,
    )
        requires track { half.track < self.old.cylinders * 15 }
        requires of { IsImageOf self.old.geometry half.track half.image }
        requires firm { is_loose (state_of self.old) half.track ≡ false }
        ensures leaves { IsSameDevice self.old self.new }
        ensures volume { self.new.pair.volumes ≡ self.old.pair.volumes }
        ensures half { self.new.half ≡ Some half }
        ensures loose { self.new.loose ≡ self.old.loose }
        ensures run { (k : K) → Ran surely (Heard K.hears K.takes) (write_opened contents (state_of self.old) half.track half.image (origin_of half.origin) was_loose)
            (outside (P.view port.old) self.old k) (state_of self.new) tt (outside (P.view port.new) self.new k) }
    {
        if was_loose {
            port.set_clean(self.number, half.track);
            self.frames.mark(half.track, false);
            self.half = Some(half);
            return;
        }
        self.half = Some(half);
    }

    /// The patch goes with its slot.
    fn free_patch<P: Port, K: Keep<TrackImage>>(&mut self, t: TrackNo, port: &mut P)
        ensures leaves { ChangesMarksAlone self.old self.new }
        ensures run { (k : K) → Ran surely (Heard K.hears K.takes) (unpatched contents (state_of self.old) t) (outside (P.view port.old) self.old k)
            (state_of self.new) tt (outside (P.view port.new) self.new k) }
    {
        match self.patches.slot_of(t) {
            None => (),
            Some(slot) => {
                port.free_slot(slot);
                self.patches.set(t, None);
            }
        }
    }

    /// The same of a track that has a frame.
    fn framed_done<P: Port, K: Keep<TrackImage>>(
        &mut self,
        t: TrackNo,
        image: TrackImage,
        bypass: bool,
        port: &mut P,
    )
        requires firm { is_loose (state_of self.old) t ≡ false }
        requires of { IsImageOf self.old.geometry t image }
        ensures leaves { ChangesMarksAlone self.old self.new }
        ensures run { (k : K) → Ran surely (Heard K.hears K.takes) (done_by contents (state_of self.old) t image bypass true)
            (outside (P.view port.old) self.old k) (state_of self.new) tt (outside (P.view port.new) self.new k) }
    {
        if bypass {
            port.drop_frame(self.number, t);
            self.frames.set(t, None);
            self.free_patch::<P, K>(t, port);
            return;
        }
        port.set_clean(self.number, t);
        let modified = false;
        self.frames.set(t, Some(Frame { image, modified }));
        self.free_patch::<P, K>(t, port);
    }

    /// A write is done: the frame becomes the new image and clean, or is dropped in bypass mode, and then the patch goes.
    pub(crate) fn write_done<P: Port, K: Keep<TrackImage>>(
        &mut self,
        t: TrackNo,
        image: TrackImage,
        bypass: bool,
        port: &mut P,
    )
        requires firm { is_loose (state_of self.old) t ≡ false }
        requires of { IsImageOf self.old.geometry t image }
        ensures leaves { ChangesMarksAlone self.old self.new }
        ensures run { (k : K) → Ran surely (Heard K.hears K.takes) (write_done contents (state_of self.old) t image bypass)
            (outside (P.view port.old) self.old k) (state_of self.new) tt (outside (P.view port.new) self.new k) }
    {
        if self.frames.has(t) {
            self.framed_done::<P, K>(t, image, bypass, port);
            return;
        }
        self.free_patch::<P, K>(t, port);
    }

    /// A write of the image in the frame is done: the frame is clean, and the patch goes.
    pub(crate) fn frame_done<P: Port, K: Keep<TrackImage>>(&mut self, t: TrackNo, port: &mut P)
        requires firm { is_loose (state_of self.old) t ≡ false }
        requires framed { is_some (frame_at (state_of self.old) t) ≡ true }
        ensures leaves { ChangesMarksAlone self.old self.new }
        ensures run { (k : K) → Ran surely (Heard K.hears K.takes) (write_done contents (state_of self.old) t (frame_in (state_of self.old) t) false)
            (outside (P.view port.old) self.old k) (state_of self.new) tt (outside (P.view port.new) self.new k) }
    {
        port.set_clean(self.number, t);
        self.frames.mark(t, false);
        self.free_patch::<P, K>(t, port);
    }

    /// A write that is done takes effect, and the keeper is told.
    fn whole<P: Port, K: Keep<TrackImage>>(
        &mut self,
        t: TrackNo,
        image: TrackImage,
        bypass: bool,
        port: &mut P,
        keep: &mut K,
    )
        requires track { HasTrack self.old t }
        requires of { IsImageOf self.old.geometry t image }
        requires firm { is_loose (state_of self.old) t ≡ false }
        requires takes { TakesTracks K.takes keep.old self.old }
        ensures leaves { KeepsLooseTracks self.old self.new }
        ensures takes { TakesTracks K.takes keep.new self.new }
        ensures run { (e : Edit) → Ran surely (Heard K.hears K.takes) (whole contents (state_of self.old) t image e bypass)
            (outside (P.view port.old) self.old keep.old) (state_of self.new) Whole (outside (P.view port.new) self.new keep.new) }
    {
        image.fits();
        keep.firm(self.number, t, &image);
        self.write_done::<P, K>(t, image, bypass, port);
    }

    /// The second part of a write in the event of its first.
    fn at_once<P: Port, K: Keep<TrackImage>>(
        &mut self,
        t: TrackNo,
        image: TrackImage,
        bypass: bool,
        port: &mut P,
        keep: &mut K,
    ) -> Took
        requires track { HasTrack self.old t }
        requires of { IsImageOf self.old.geometry t image }
        requires firm { is_loose (state_of self.old) t ≡ false }
        requires takes { TakesTracks K.takes keep.old self.old }
        ensures leaves { KeepsHalfWrite self.old self.new }
        ensures takes { TakesTracks K.takes keep.new self.new }
        ensures ends { (result ≡ Opened) → ⊥ }
        ensures run { (e : Edit) → Ran surely (Heard K.hears K.takes) (at_once contents (state_of self.old) t image e bypass)
            (outside (P.view port.old) self.old keep.old) (state_of self.new) result (outside (P.view port.new) self.new keep.new) }
    {
        self.write_second(t, &image, keep);
        if self.has_level(t) {
            self.whole(t, image, bypass, port, keep);
            return Took::Whole;
        }
        self.settle(t);
        Took::Unwritten
    }

    /// Behind the first part of a command's write: it is done, or waits for its second part, or that follows at once.
    fn through_by<P: Port, K: Keep<TrackImage>>(
        &mut self,
        half: HalfWrite,
        bypass: bool,
        opens: bool,
        was_loose: bool,
        took: Took,
        port: &mut P,
        keep: &mut K,
    ) -> Took
        requires track { half.track < self.old.cylinders * 15 }
        requires of { IsImageOf self.old.geometry half.track half.image }
        requires firm { is_loose (state_of self.old) half.track ≡ false }
        requires none { self.old.half ≡ None }
        requires takes { TakesTracks K.takes keep.old self.old }
        ensures leaves { KeepsWeight self.old self.new }
        ensures half { self.new.half ≡ (if is_opened result then Some half else None) }
        ensures takes { TakesTracks K.takes keep.new self.new }
        ensures run { (e : Edit) → origin_of half.origin ≡ OfCommand bypass e
            → Ran surely (Heard K.hears K.takes) (through_by contents half.track half.image e bypass opens was_loose (state_of self.old) took)
            (outside (P.view port.old) self.old keep.old) (state_of self.new) result (outside (P.view port.new) self.new keep.new) }
    {
        match took {
            Took::Unwritten => Took::Unwritten,
            Took::Whole => {
                self.whole(half.track, half.image, bypass, port, keep);
                Took::Whole
            }
            Took::Opened => {
                if !opens {
                    return self.at_once(half.track, half.image, bypass, port, keep);
                }
                self.open_half::<P, K>(half, was_loose, port);
                Took::Opened
            }
        }
    }

    /// A command's write to the volumes, which the keeper hears of where it is done. With two sides it takes two events, unless
    /// another track that the command looked at is loose (`opens`).
    pub(crate) fn through<P: Port, K: Keep<TrackImage>>(
        &mut self,
        t: TrackNo,
        image: TrackImage,
        edit: Edit,
        bypass: bool,
        opens: bool,
        port: &mut P,
        keep: &mut K,
    ) -> Took
        requires track { HasTrack self.old t }
        requires of { IsImageOf self.old.geometry t image }
        requires kept { is_loose (state_of self.old) t ≡ true → is_some (frame_at (state_of self.old) t) ≡ true }
        requires none { self.old.half ≡ None }
        requires takes { TakesTracks K.takes keep.old self.old }
        ensures leaves { KeepsWeight self.old self.new }
        ensures half { is_some self.new.half ≡ is_opened result }
        ensures takes { TakesTracks K.takes keep.new self.new }
        ensures run { Ran surely (Heard K.hears K.takes) (through contents (state_of self.old) t image edit bypass opens)
            (outside (P.view port.old) self.old keep.old) (state_of self.new) result (outside (P.view port.new) self.new keep.new) }
    {
        let was_loose = self.firm_first(t, keep);
        let written = self.write_first(t, &image, keep);
        let half = HalfWrite {
            track: t,
            origin: Origin::OfCommand(bypass, edit),
            image,
        };
        self.through_by(half, bypass, opens, was_loose, written.took, port, keep)
    }
}
