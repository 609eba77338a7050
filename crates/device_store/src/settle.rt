ghost use Rattle.std.specs.Prelude.{◌≡◌, ◌||◌, Some, false, is_some, true};
ghost use Rattle.device_defs.specs.Contents.{contents};
ghost use Rattle.device_defs.specs.Effects.{hardened};
ghost use Rattle.device_defs.specs.Losses.{
  by_frame,
  firm_told,
  kept_by_frame,
  lost_now,
  owes_modified,
  settled,
  stale_everywhere,
  without_frame,
  without_patch,
};
ghost use Rattle.device_defs.specs.Store.{frame_at, half_is, has_level, is_loose, is_lost, takes_b, with_stale};
ghost use Rattle.ckd_types.specs.declared.paths.Side.TheVariants.{A, B};
ghost use Rattle.device_defs.specs.Writing.{unwritten};
ghost use Rattle.device_outside.specs.Keeper.{Heard};
ghost use Rattle.device_outside.specs.Outside.{PortView, Ran};
ghost use Rattle.event_notes.specs.Loose.{weight};
ghost use Rattle.track_cache.specs.declared.frames.Frame.{Frame};
ghost use Rattle.device_store.specs.Leaves.{ChangesMarksAlone, KeepsHalfWrite, KeepsLooseTracks};
ghost use Rattle.device_store.specs.State.{state_of, outside, surely, StaysFirm, HasTrack, TakesTracks};

use crate::DeviceStore;
use ckd_types::{Side, TrackNo};
use device_outside::{Keep, Volume};
use track_image::TrackImage;

impl<V: Volume> DeviceStore<V> {
    /// The frame was marked modified.
    fn owe_modified(&mut self, t: TrackNo)
        ensures leaves { KeepsLooseTracks self.old self.new }
        ensures volume { self.new.pair ≡ self.old.pair }
        ensures weight { weight self.new.loose ≡ weight self.old.loose }
        ensures state { state_of self.new ≡ owes_modified (state_of self.old) t }
    {
        let mut owed = self.owed.at(t);
        owed.modified = true;
        self.owed.set(t, owed);
    }

    /// The frame of a track is given up. It isn't loose, or the volume is lent.
    pub(crate) fn give_up_frame(&mut self, t: TrackNo)
        requires { is_some self.old.pair.lent ≡ false → is_loose (state_of self.old) t ≡ false }
        ensures leaves { KeepsLooseTracks self.old self.new }
        ensures volume { self.new.pair ≡ self.old.pair }
        ensures weight { weight self.new.loose ≡ weight self.old.loose }
        ensures state { state_of self.new ≡ without_frame (state_of self.old) t }
    {
        if self.frames.has(t) {
            self.frames.set(t, None);
            let mut owed = self.owed.at(t);
            owed.dropped = true;
            self.owed.set(t, owed);
        }
    }

    /// The patch is given up with its slot.
    pub(crate) fn give_up_patch(&mut self, t: TrackNo)
        ensures leaves { KeepsLooseTracks self.old self.new }
        ensures volume { self.new.pair ≡ self.old.pair }
        ensures weight { weight self.new.loose ≡ weight self.old.loose }
        ensures state { state_of self.new ≡ without_patch contents (state_of self.old) t }
    {
        match self.patches.slot_of(t) {
            None => (),
            Some(slot) => {
                self.patches.set(t, None);
                let mut owed = self.owed.at(t);
                owed.freed = Some(slot);
                self.owed.set(t, owed);
            }
        }
    }

    /// The track is lost, and with it its patch.
    fn lose_track(&mut self, t: TrackNo)
        requires { HasTrack self.old t }
        ensures leaves { KeepsLooseTracks self.old self.new }
        ensures volume { self.new.pair ≡ self.old.pair }
        ensures weight { weight self.new.loose ≡ weight self.old.loose }
        ensures state { state_of self.new ≡ lost_now contents (state_of self.old) t }
    {
        self.lost.add(t);
        self.give_up_patch(t);
    }

    /// Its frame, which is modified then, keeps the track.
    fn keep_by_frame(&mut self, t: TrackNo)
        requires { is_some (frame_at (state_of self.old) t) ≡ true }
        ensures leaves { KeepsLooseTracks self.old self.new }
        ensures volume { self.new.pair ≡ self.old.pair }
        ensures weight { weight self.new.loose ≡ weight self.old.loose }
        ensures state { (f : Frame) → frame_at (state_of self.old) t ≡ Some f → state_of self.new ≡ kept_by_frame contents (state_of self.old) t f }
    {
        if !self.frames.modified(t) {
            self.frames.mark(t, true);
            self.owe_modified(t);
        }
    }

    /// A loose track becomes firm.
    pub(crate) fn harden(&mut self, t: TrackNo)
        requires track { HasTrack self.old t }
        requires loose { is_loose (state_of self.old) t ≡ true }
        ensures leaves { KeepsHalfWrite self.old self.new }
        ensures volume { self.new.pair ≡ self.old.pair }
        ensures firm { StaysFirm self.old.loose.loose self.new.loose.loose }
        ensures state { state_of self.new ≡ hardened (state_of self.old) t }
    {
        self.loose.harden(t);
    }

    /// Whether a write of a track is open between its two parts.
    pub(crate) fn is_half_open(&self, t: TrackNo) -> bool
        ensures { result ≡ half_is (state_of self.now).half t }
    {
        match &self.half {
            None => false,
            Some(half) => half.track.get() == t.get(),
        }
    }

    /// Whether a track isn't settled: the volume is lent, or the track is lost already, or level on a side.
    fn stands(&self, t: TrackNo) -> bool
        ensures { result ≡ (is_some (state_of self.now).lent || is_lost (state_of self.now) t || has_level (state_of self.now) t) }
    {
        self.pair.lent.is_some() || self.lost.has(t) || self.has_level(t)
    }

    /// A track that isn't loose and is level on no side is kept by its frame or by an open half write, or is lost.
    fn keep_or_lose(&mut self, t: TrackNo)
        requires track { HasTrack self.old t }
        requires firm { is_loose (state_of self.old) t ≡ false }
        ensures leaves { KeepsLooseTracks self.old self.new }
        ensures volume { self.new.pair ≡ self.old.pair }
        ensures weight { weight self.new.loose ≡ weight self.old.loose }
        ensures state { state_of self.new ≡ by_frame contents (state_of self.old) t (frame_at (state_of self.old) t) }
    {
        if self.frames.has(t) {
            self.keep_by_frame(t);
            return;
        }
        if self.is_half_open(t) {
            return;
        }
        self.lose_track(t);
    }

    /// A track that isn't loose is kept by its frame where it is level on no side, or is lost.
    pub(crate) fn settle(&mut self, t: TrackNo)
        requires track { HasTrack self.old t }
        requires firm { is_loose (state_of self.old) t ≡ false }
        ensures leaves { KeepsLooseTracks self.old self.new }
        ensures volume { self.new.pair ≡ self.old.pair }
        ensures weight { weight self.new.loose ≡ weight self.old.loose }
        ensures state { state_of self.new ≡ settled contents (state_of self.old) t }
    {
        if self.stands(t) {
            return;
        }
        self.keep_or_lose(t);
    }

    /// Marks a track of a side as stale, or as level.
    pub(crate) fn mark(&mut self, side: Side, t: TrackNo, stale: bool)
        requires track { HasTrack self.old t }
        ensures leaves { ChangesMarksAlone self.old self.new }
        ensures state { state_of self.new ≡ with_stale (state_of self.old) side t stale }
    {
        match side {
            Side::A => self.mark_a(t, stale),
            Side::B => self.mark_b(t, stale),
        }
    }

    /// No side holds a track.
    pub(crate) fn stale_everywhere(&mut self, t: TrackNo)
        requires track { HasTrack self.old t }
        ensures leaves { ChangesMarksAlone self.old self.new }
        ensures frames { self.new.frames ≡ self.old.frames }
        ensures state { state_of self.new ≡ stale_everywhere (state_of self.old) t }
    {
        self.mark_a(t, true);
        if self.pair.is_paired() {
            self.mark_b(t, true);
        }
    }

    /// Marks a track of side A as stale, or as level.
    pub(crate) fn mark_a(&mut self, t: TrackNo, stale: bool)
        requires track { HasTrack self.old t }
        ensures leaves { ChangesMarksAlone self.old self.new }
        ensures frames { self.new.frames ≡ self.old.frames }
        ensures takes { takes_b (state_of self.new) ≡ takes_b (state_of self.old) }
        ensures state { state_of self.new ≡ with_stale (state_of self.old) A t stale }
    {
        self.pair.set_stale(Side::A, t, stale);
    }

    /// The same of side B.
    pub(crate) fn mark_b(&mut self, t: TrackNo, stale: bool)
        requires track { HasTrack self.old t }
        ensures leaves { ChangesMarksAlone self.old self.new }
        ensures frames { self.new.frames ≡ self.old.frames }
        ensures takes { takes_b (state_of self.new) ≡ takes_b (state_of self.old) }
        ensures state { state_of self.new ≡ with_stale (state_of self.old) B t stale }
    {
        self.pair.set_stale(Side::B, t, stale);
    }

    /// No side took a track. On a volume that is alone it is stale then.
    pub(crate) fn refuse(&mut self, t: TrackNo)
        requires track { HasTrack self.old t }
        requires firm { is_loose (state_of self.old) t ≡ false }
        ensures leaves { ChangesMarksAlone self.old self.new }
        ensures weight { weight self.new.loose ≡ weight self.old.loose }
        ensures state { state_of self.new ≡ unwritten contents (state_of self.old) t }
    {
        if self.pair.is_paired() {
            self.settle(t);
            return;
        }
        let stale = true;
        self.mark_a(t, stale);
        self.settle(t);
    }

    /// The same of any track. The keeper is told of a loose one that becomes firm, which its frame alone keeps.
    pub(crate) fn settle_told<K: Keep<TrackImage>>(&mut self, t: TrackNo, keep: &mut K)
        requires track { HasTrack self.old t }
        requires takes { TakesTracks K.takes keep.old self.old }
        ensures leaves { KeepsHalfWrite self.old self.new }
        ensures volume { self.new.pair ≡ self.old.pair }
        ensures firm { StaysFirm self.old.loose.loose self.new.loose.loose }
        ensures takes { TakesTracks K.takes keep.new self.new }
        ensures run { (p : PortView) → Ran surely (Heard K.hears K.takes) (firm_told contents t (settled contents (state_of self.old) t))
            (outside p self.old keep.old) (state_of self.new) tt (outside p self.new keep.new) }
    {
        if self.loose.has(t) {
            self.settle_loose(t, keep);
            return;
        }
        self.settle(t);
        self.owed.no_firm();
    }

    /// The same of a loose track.
    fn settle_loose<K: Keep<TrackImage>>(&mut self, t: TrackNo, keep: &mut K)
        requires track { HasTrack self.old t }
        requires loose { is_loose (state_of self.old) t ≡ true }
        requires takes { TakesTracks K.takes keep.old self.old }
        ensures leaves { KeepsHalfWrite self.old self.new }
        ensures volume { self.new.pair ≡ self.old.pair }
        ensures firm { StaysFirm self.old.loose.loose self.new.loose.loose }
        ensures takes { TakesTracks K.takes keep.new self.new }
        ensures run { (p : PortView) → Ran surely (Heard K.hears K.takes) (firm_told contents t (settled contents (state_of self.old) t))
            (outside p self.old keep.old) (state_of self.new) tt (outside p self.new keep.new) }
    {
        self.owed.no_firm();
        if self.stands(t) {
            return;
        }
        self.harden_told(t, keep);
    }

    /// A loose track becomes firm, and the keeper is told its frame's image.
    fn harden_told<K: Keep<TrackImage>>(&mut self, t: TrackNo, keep: &mut K)
        requires track { HasTrack self.old t }
        requires here { is_some self.old.pair.lent ≡ false }
        requires loose { is_loose (state_of self.old) t ≡ true }
        requires takes { TakesTracks K.takes keep.old self.old }
        ensures leaves { KeepsHalfWrite self.old self.new }
        ensures volume { self.new.pair ≡ self.old.pair }
        ensures firm { StaysFirm self.old.loose.loose self.new.loose.loose }
        ensures takes { TakesTracks K.takes keep.new self.new }
        ensures run { (p : PortView) → Ran surely (Heard K.hears K.takes)
            (firm_told contents t (by_frame contents (state_of self.old) t (frame_at (state_of self.old) t))) (outside p self.old keep.old)
            (state_of self.new) tt (outside p self.new keep.new) }
    {
        self.owed.no_firm();
        let image = self.frame_image(t);
        image.fits();
        keep.firm(self.number, t, image);
        self.harden(t);
    }
}
