ghost use Rattle.std.specs.Prelude.{◌≡◌, ◌<◌, ◌*◌, IfSome, None, Some, is_some, length, not, false, true};
ghost use Rattle.ckd_types.specs.Track.{track_bytes};
ghost use Rattle.device_defs.specs.Contents.{contents};
ghost use Rattle.device_defs.specs.Cutting.{half_cut, half_ended, half_lost, is_of_command};
ghost use Rattle.device_defs.specs.Losses.{settled};
ghost use Rattle.device_defs.specs.Second.{half_closed, cut_kept, left_by, second_done, second_part};
ghost use Rattle.device_defs.specs.Store.{frame_at, is_loose, takes_b};
ghost use Rattle.device_defs.specs.Writing.{write_second};
ghost use Rattle.device_outside.specs.Keeper.{Heard};
ghost use Rattle.device_outside.specs.Outside.{PortView, Ran};
ghost use Rattle.device_outside.specs.Volume.{WriteOf, counted, counted_if};
ghost use Rattle.duplex_pair.specs.Sides.{HasSides};
ghost use Rattle.duplex_pair.specs.Volumes.{IsThere, view_in};
ghost use Rattle.device_store.specs.Leaves.{IsSameDevice, KeepsHalfWrite, KeepsLooseTracks, KeepsWeight};
ghost use Rattle.device_store.specs.declared.half.HalfWrite.{HalfWrite};
ghost use Rattle.device_store.specs.Halves.{half_below};
ghost use Rattle.device_store.specs.Images.{IsImageOf};
ghost use Rattle.device_store.specs.Looks.{StoreOf};
ghost use Rattle.device_store.specs.State.{closing, half_of, origin_of, state_of, outside, surely, Takes, HasTrack, TakesTracks};

use crate::through::write_side;
use crate::{DeviceStore, HalfWrite, Origin};
use ckd_types::{Side, TrackNo};
use device_defs::Counts;
use device_outside::{Keep, Port, Volume};
use duplex_pair::DuplexPair;
use std::mem::replace;
use track_cache::Frame;
use track_image::TrackImage;

/// What came of a second part: whose track it is, whether the write is of the command at hand, and whether it is done.
#[derive(Clone, Copy, Debug)]
pub struct SecondPart {
    pub track: TrackNo,
    pub of_command: bool,
    pub done: bool,
}

fn is_of_command(origin: &Origin) -> bool
    ensures { result ≡ is_of_command (origin_of origin.now) }
{
    match origin {
        Origin::OfCommand(_, _) => true,
        Origin::OfCut(_) | Origin::OfBackground => false,
    }
}

/// Side B, which is up, is given the track of an open half write, which is counted.
#[tactic(auto, using(crate::proofs::Halved::half_within))]
fn write_open<V: Volume>(
    pair: &mut DuplexPair<V>,
    counts: &mut Counts,
    opened: &Option<HalfWrite>,
) -> bool
    requires open { is_some opened.now ≡ true }
    requires up { pair.old.b.up ≡ true }
    requires track { half_below (length pair.old.a.stale) opened.now ≡ true }
    ensures sides { HasSides pair.old pair.new }
    ensures other { pair.new.volumes.a ≡ pair.old.volumes.a }
    ensures before { IsThere pair.old.volumes.b }
    ensures there { IsThere pair.new.volumes.b }
    ensures wrote { (h : HalfWrite) → opened.now ≡ Some h
        → WriteOf (view_in V.view pair.old.volumes.b) h.track (track_bytes h.image.track) result (view_in V.view pair.new.volumes.b) }
    ensures counts { counts.new ≡ record counts.old { writes = counted counts.old.writes; failed = counted_if (not result) counts.old.failed } }
{
    match opened {
        None => unreachable!(),
        Some(half) => write_side(pair, counts, Side::B, half.track, &half.image),
    }
}

impl<V: Volume> DeviceStore<V> {
    /// Whether side B takes the second part of a write: it is up, and not held.
    pub(crate) fn takes_second(&self) -> bool
        ensures { result ≡ takes_b (state_of self.now) }
    {
        self.pair.takes_b()
    }

    /// Some side has the track: the write is done. A command's edit takes effect, of which the keeper is told.
    fn second_done<P: Port, K: Keep<TrackImage>>(
        &mut self,
        half: HalfWrite,
        port: &mut P,
        keep: &mut K,
    )
        requires track { half.track < self.old.cylinders * 15 }
        requires of { IsImageOf self.old.geometry half.track half.image }
        requires firm { is_loose (state_of self.old) half.track ≡ false }
        requires takes { TakesTracks K.takes keep.old self.old }
        ensures leaves { KeepsLooseTracks self.old self.new }
        ensures takes { TakesTracks K.takes keep.new self.new }
        ensures run { Ran surely (Heard K.hears K.takes) (second_done contents (state_of self.old) half.track half.image (origin_of half.origin))
            (outside (P.view port.old) self.old keep.old) (state_of self.new) true (outside (P.view port.new) self.new keep.new) }
    {
        match half.origin {
            Origin::OfCommand(bypass, _) => {
                half.image.fits();
                keep.firm(self.number, half.track, &half.image);
                self.write_done::<P, K>(half.track, half.image, bypass, port);
            }
            Origin::OfCut(bypass) => {
                self.write_done::<P, K>(half.track, half.image, bypass, port);
            }
            Origin::OfBackground => {
                self.write_done::<P, K>(half.track, half.image, false, port);
            }
        }
    }

    /// The write of a cut command isn't done: a frame has the new track, and the patch, which is of the old one, goes.
    fn keep_cut(&mut self, t: TrackNo, image: TrackImage)
        requires track { HasTrack self.old t }
        requires of { IsImageOf self.old.geometry t image }
        requires firm { is_loose (state_of self.old) t ≡ false }
        ensures leaves { KeepsLooseTracks self.old self.new }
        ensures volume { self.new.pair ≡ self.old.pair }
        ensures state { state_of self.new ≡ cut_kept contents (state_of self.old) t image (frame_at (state_of self.old) t) }
    {
        if self.frames.has(t) {
            let modified = self.frames.modified(t);
            self.frames.set(t, Some(Frame { image, modified }));
            self.give_up_patch(t);
        }
    }

    /// What a write that isn't done leaves of its track.
    fn leave(&mut self, half: HalfWrite)
        requires track { half.track < self.old.cylinders * 15 }
        requires of { IsImageOf self.old.geometry half.track half.image }
        requires firm { is_loose (state_of self.old) half.track ≡ false }
        ensures leaves { KeepsLooseTracks self.old self.new }
        ensures volume { self.new.pair ≡ self.old.pair }
        ensures state { state_of self.new ≡ left_by contents (state_of self.old) half.track half.image (origin_of half.origin) }
    {
        match half.origin {
            Origin::OfCut(_) => self.keep_cut(half.track, half.image),
            Origin::OfCommand(_, _) => (),
            Origin::OfBackground => (),
        }
    }

    /// No side has the track: the write isn't done.
    fn second_absent(&mut self, half: HalfWrite)
        requires track { half.track < self.old.cylinders * 15 }
        requires of { IsImageOf self.old.geometry half.track half.image }
        requires firm { is_loose (state_of self.old) half.track ≡ false }
        ensures leaves { KeepsLooseTracks self.old self.new }
        ensures volume { self.new.pair ≡ self.old.pair }
        ensures state { state_of self.new ≡ settled contents (left_by contents (state_of self.old) half.track half.image (origin_of half.origin)) half.track }
    {
        let t = half.track;
        self.leave(half);
        self.settle(t);
    }

    /// Takes the open half write, which is closed then.
    #[tactic(auto, using(crate::proofs::Halved::half_firm, crate::proofs::Halved::half_within, crate::proofs::Placed::half_image))]
    fn take_half(&mut self) -> HalfWrite
        requires open { is_some self.old.half ≡ true }
        ensures leaves { IsSameDevice self.old self.new }
        ensures volume { self.new.pair ≡ self.old.pair }
        ensures half { self.new.half ≡ None }
        ensures loose { self.new.loose ≡ self.old.loose }
        ensures was { self.old.half ≡ Some result }
        ensures track { result.track < self.new.cylinders * 15 }
        ensures of { IsImageOf self.new.geometry result.track result.image }
        ensures firm { is_loose (state_of self.new) result.track ≡ false }
        ensures state { state_of self.new ≡ half_closed (state_of self.old) }
    {
        match replace(&mut self.half, None) {
            None => unreachable!(),
            Some(half) => half,
        }
    }

    /// The track of the open half write.
    #[tactic(auto, using(crate::proofs::Halved::half_within))]
    fn half_track(&self) -> TrackNo
        requires open { is_some self.now.half ≡ true }
        ensures here { HasTrack self.now result }
        ensures of { (h : HalfWrite) → self.now.half ≡ Some h → result ≡ h.track }
    {
        match &self.half {
            None => unreachable!(),
            Some(half) => half.track,
        }
    }

    /// Side B is given the track of the open half write, where it is up and not held.
    fn write_half<K: Keep<TrackImage>>(&mut self, keep: &mut K)
        requires open { is_some self.old.half ≡ true }
        requires takes { TakesTracks K.takes keep.old self.old }
        ensures leaves { KeepsHalfWrite self.old self.new }
        ensures takes { TakesTracks K.takes keep.new self.new }
        ensures run { (h : HalfWrite) (p : PortView) → self.old.half ≡ Some h
            → Ran surely (Heard K.hears K.takes) (write_second contents (state_of self.old) h.track (track_bytes h.image.track)) (outside p self.old keep.old)
            (state_of self.new) tt (outside p self.new keep.new) }
    {
        if self.takes_second() {
            let t = self.half_track();
            let took = write_open(&mut self.pair, &mut self.counts, &self.half);
            self.tried_b(t, took, keep);
        }
    }

    /// A half write was tried, and closes: it is done where some side has the track.
    fn close_half<P: Port, K: Keep<TrackImage>>(
        &mut self,
        half: HalfWrite,
        port: &mut P,
        keep: &mut K,
    ) -> bool
        requires closed { self.old.half ≡ None }
        requires track { half.track < self.old.cylinders * 15 }
        requires of { IsImageOf self.old.geometry half.track half.image }
        requires firm { is_loose (state_of self.old) half.track ≡ false }
        requires takes { TakesTracks K.takes keep.old self.old }
        ensures leaves { IsSameDevice self.old self.new }
        ensures half { self.new.half ≡ None }
        ensures loose { self.new.loose ≡ self.old.loose }
        ensures takes { TakesTracks K.takes keep.new self.new }
        ensures run { Ran surely (Heard K.hears K.takes) (closing (state_of self.old) half.track half.image (origin_of half.origin))
            (outside (P.view port.old) self.old keep.old) (state_of self.new) result (outside (P.view port.new) self.new keep.new) }
    {
        if self.has_level(half.track) {
            self.second_done(half, port, keep);
            return true;
        }
        self.second_absent(half);
        false
    }

    /// The second part of the open half write.
    pub fn second<P: Port, K: Keep<TrackImage>>(&mut self, port: &mut P, keep: &mut K) -> SecondPart
        requires open { is_some self.old.half ≡ true }
        requires takes { TakesTracks K.takes keep.old self.old }
        ensures leaves { KeepsWeight self.old self.new }
        ensures half { self.new.half ≡ None }
        ensures takes { TakesTracks K.takes keep.new self.new }
        ensures track { (h : HalfWrite) → self.old.half ≡ Some h → result.track ≡ h.track }
        ensures command { (h : HalfWrite) → self.old.half ≡ Some h → result.of_command ≡ is_of_command (origin_of h.origin) }
        ensures run { (h : HalfWrite) → self.old.half ≡ Some h
            → Ran surely (Heard K.hears K.takes) (second_part contents (state_of self.old) (half_of h)) (outside (P.view port.old) self.old keep.old)
            (state_of self.new) result.done (outside (P.view port.new) self.new keep.new) }
    {
        self.write_half(keep);
        let half = self.take_half();
        let track = half.track;
        let of_command = is_of_command(&half.origin);
        let done = self.close_half(half, port, keep);
        SecondPart {
            track,
            of_command,
            done,
        }
    }

    /// An open half write of the command at hand counts as done: its edit takes effect now, and the keeper is told.
    pub fn cut_half<K: Keep<TrackImage>>(&mut self, keep: &mut K)
        requires takes { TakesTracks K.takes keep.old self.old }
        ensures leaves { IsSameDevice self.old self.new }
        ensures volume { self.new.pair ≡ self.old.pair }
        ensures half { IfSome self.new.half (λ h. is_of_command (origin_of h.origin) ≡ false) }
        ensures loose { self.new.loose ≡ self.old.loose }
        ensures takes { TakesTracks K.takes keep.new self.new }
        ensures run { (p : PortView) → Ran surely (Heard K.hears K.takes) (half_cut contents (state_of self.old) (state_of self.old).half)
            (outside p self.old keep.old) (state_of self.new) tt (outside p self.new keep.new) }
    {
        if self.half.is_some() {
            let half = self.take_half();
            let half = self.cut(half, keep);
            self.half = Some(half);
        }
    }

    /// A half write of the command at hand counts as done, and is of a cut command then.
    fn cut<K: Keep<TrackImage>>(&self, half: HalfWrite, keep: &mut K) -> HalfWrite
        requires track { half.track < self.now.cylinders * 15 }
        requires of { IsImageOf self.now.geometry half.track half.image }
        requires takes { Takes K.takes keep.old self.now.number self.now.geometry (self.now.cylinders * 15) }
        ensures track { result.track ≡ half.track }
        ensures of { IsImageOf self.now.geometry result.track result.image }
        ensures command { is_of_command (origin_of result.origin) ≡ false }
        ensures takes { Takes K.takes keep.new self.now.number self.now.geometry (self.now.cylinders * 15) }
        ensures run { (p : PortView) → Ran surely (Heard K.hears K.takes)
            (half_cut contents (record (state_of self.now) { half = Some (half_of half) }) (Some (half_of half))) (outside p self.now keep.old)
            (record (state_of self.now) { half = Some (half_of result) }) tt (outside p self.now keep.new) }
    {
        match half.origin {
            Origin::OfCommand(bypass, _) => {
                half.image.fits();
                keep.firm(self.number, half.track, &half.image);
                HalfWrite {
                    track: half.track,
                    origin: Origin::OfCut(bypass),
                    image: half.image,
                }
            }
            Origin::OfCut(_) => half,
            Origin::OfBackground => half,
        }
    }

    /// A half write ended: a command's or a cut one's patch is of the old track.
    fn end_by(&mut self, half: HalfWrite)
        ensures leaves { KeepsLooseTracks self.old self.new }
        ensures volume { self.new.pair ≡ self.old.pair }
        ensures state { (s : StoreOf) → half_closed s ≡ state_of self.old → state_of self.new ≡ half_ended contents s (half_of half) (origin_of half.origin) }
    {
        match half.origin {
            Origin::OfBackground => (),
            Origin::OfCommand(_, _) => self.give_up_patch(half.track),
            Origin::OfCut(_) => self.give_up_patch(half.track),
        }
    }

    /// An open half write ends with the power.
    pub(crate) fn end_half(&mut self)
        ensures leaves { IsSameDevice self.old self.new }
        ensures volume { self.new.pair ≡ self.old.pair }
        ensures half { self.new.half ≡ None }
        ensures loose { self.new.loose ≡ self.old.loose }
        ensures state { state_of self.new ≡ half_lost contents (state_of self.old) (state_of self.old).half }
    {
        if self.half.is_some() {
            let half = self.take_half();
            self.end_by(half);
        }
    }
}
