ghost use Rattle.std.specs.Option.{option_copied};
ghost use Rattle.std.specs.Prelude.{◌≡◌, ◌<◌, ◌*◌, IfOk, IfSome, None, Some, false, is_some, true};
ghost use Rattle.device_outside.specs.Keeper.{Heard};
ghost use Rattle.device_outside.specs.Outside.{PortView, Ran, where_ok};
ghost use Rattle.device_defs.specs.Contents.{contents};
ghost use Rattle.ckd_types.specs.Parameters.{is_bypass};
ghost use Rattle.device_defs.specs.Image.{loads, is_sequential, queued, ahead, image_of, first_faulty_side, level_bytes, loaded, miss, missed, got, image, read_b};
ghost use Rattle.device_defs.specs.Store.{frame_at, is_loose};
ghost use Rattle.device_store.specs.Leaves.{ChangesMarksAlone, KeepsHalfWrite, KeepsLooseTracks};
ghost use Rattle.device_store.specs.Images.{IsImageOf};
ghost use Rattle.device_store.specs.Looks.{imaged, IsThere, applied_by, clean_by};
ghost use Rattle.device_store.specs.State.{state_of, outside, surely, StaysFirm, had, got_by, HasTrack, TakesTracks};
ghost use Rattle.track_cache.specs.Frames.{is_modified};

use crate::marks::count_read;
use crate::{DeviceStore, Looked};
use ckd_outside::Failed;
use ckd_types::{Mode, NoMemory, Side, TrackNo};
use device_defs::Usage;
use device_outside::{Grant, Keep, Port, Volume};
use nv_store::{ApplyFault, Patch};
use track_image::{BytesFault, TrackImage};

/// What the level sides gave: whether bytes, which are then in the buffer, the side that was read last, and the first that failed.
#[derive(Clone, Copy, Debug)]
pub(crate) struct Given {
    pub(crate) given: bool,
    pub(crate) side: Side,
    pub(crate) fault: Option<Side>,
}

fn loads(mode: Mode) -> bool
    ensures { result ≡ loads mode }
{
    match mode {
        Mode::Normal | Mode::Sequential => true,
        Mode::Bypass | Mode::InhibitLoad => false,
    }
}

fn is_sequential(mode: Mode) -> bool
    ensures { result ≡ is_sequential mode }
{
    match mode {
        Mode::Sequential => true,
        Mode::Normal | Mode::Bypass | Mode::InhibitLoad => false,
    }
}

pub(crate) fn is_bypass(mode: Mode) -> bool
    ensures { result ≡ is_bypass mode }
{
    match mode {
        Mode::Bypass => true,
        Mode::Normal | Mode::Sequential | Mode::InhibitLoad => false,
    }
}

/// An image with the patch that is held, made in place. There is none where the patch is unfit for it.
fn patched(patch: Option<&Patch>, image: TrackImage) -> Result<Option<TrackImage>, NoMemory>
    ensures { IfOk result (λ i. i ≡ applied_by (option_copied patch.entry) image) }
{
    let patch = match patch {
        None => return Ok(Some(image)),
        Some(patch) => patch,
    };
    match patch.apply_in_place(image) {
        Ok(image) => Ok(Some(image)),
        Err(ApplyFault::Unfit) => Ok(None),
        Err(ApplyFault::NoMemory) => Err(NoMemory),
    }
}

/// The first of two that failed.
fn first_fault(fault: Option<Side>, later: Side) -> Side
    ensures { result ≡ first_faulty_side fault later }
{
    fault.unwrap_or(later)
}

impl<V: Volume> DeviceStore<V> {
    /// Reads a track from side B where it is level there, behind a side that failed or none.
    fn read_b<K: Keep<TrackImage>>(
        &mut self,
        t: TrackNo,
        fault: Option<Side>,
        keep: &mut K,
    ) -> Given
        requires track { HasTrack self.old t }
        requires takes { TakesTracks K.takes keep.old self.old }
        ensures leaves { KeepsHalfWrite self.old self.new }
        ensures here { result.given ≡ true → (is_some self.old.pair.lent ≡ false) × (is_some self.new.pair.lent ≡ false) }
        ensures firm { StaysFirm self.old.loose.loose self.new.loose.loose }
        ensures takes { TakesTracks K.takes keep.new self.new }
        ensures run { (p : PortView) → Ran surely (Heard K.hears K.takes) (read_b contents (state_of self.old) t fault) (outside p self.old keep.old)
            (state_of self.new) (got_by self.new.buffer result) (outside p self.new keep.new) }
    {
        let side = Side::B;
        if !self.pair.is_level(Side::B, t) {
            let given = false;
            return Given { given, side, fault };
        }
        match self.pair.read(Side::B, t, &mut self.buffer) {
            Ok(()) => {
                count_read(&mut self.counts, true);
                let given = true;
                Given { given, side, fault }
            }
            Err(Failed) => {
                count_read(&mut self.counts, false);
                self.call_failed(Side::B, None, keep);
                let given = false;
                let fault = Some(first_fault(fault, Side::B));
                Given { given, side, fault }
            }
        }
    }

    /// Reads a track from side A where it is level, else from side B, also where A fails.
    pub(crate) fn level_bytes<K: Keep<TrackImage>>(&mut self, t: TrackNo, keep: &mut K) -> Given
        requires track { HasTrack self.old t }
        requires takes { TakesTracks K.takes keep.old self.old }
        ensures leaves { KeepsHalfWrite self.old self.new }
        ensures here { result.given ≡ true → (is_some self.old.pair.lent ≡ false) × (is_some self.new.pair.lent ≡ false) }
        ensures firm { StaysFirm self.old.loose.loose self.new.loose.loose }
        ensures takes { TakesTracks K.takes keep.new self.new }
        ensures run { (p : PortView) → Ran surely (Heard K.hears K.takes) (level_bytes contents (state_of self.old) t) (outside p self.old keep.old)
            (state_of self.new) (got_by self.new.buffer result) (outside p self.new keep.new) }
    {
        if !self.pair.is_level(Side::A, t) {
            return self.read_b(t, None, keep);
        }
        match self.pair.read(Side::A, t, &mut self.buffer) {
            Ok(()) => {
                count_read(&mut self.counts, true);
                Given {
                    given: true,
                    side: Side::A,
                    fault: None,
                }
            }
            Err(Failed) => {
                count_read(&mut self.counts, false);
                self.call_failed(Side::A, None, keep);
                self.read_b(t, Some(Side::A), keep)
            }
        }
    }

    /// The image that the bytes in the buffer make.
    pub(crate) fn image_of(&self, t: TrackNo) -> Result<Option<TrackImage>, NoMemory>
        ensures image { IfOk result (λ i. i ≡ image_of contents (state_of self.now) t self.now.buffer) }
        ensures of { IfOk result (λ i. IfSome i (IsImageOf self.now.geometry t)) }
    {
        match TrackImage::from_bytes(self.alloc, self.geometry, t, self.buffer.bytes()) {
            Err(BytesFault::NoMemory) => Err(NoMemory),
            Err(BytesFault::BadTrack { .. }) => Ok(None),
            Ok(image) => patched(self.patches.get(t), image),
        }
    }

    /// Queues a track for staging where it is in the extent.
    fn queue_one(&mut self, last: Option<TrackNo>, t: u32)
        requires { IfSome last (λ l. l < self.old.cylinders * 15) }
        ensures leaves { ChangesMarksAlone self.old self.new }
        ensures lent { self.new.pair.lent ≡ self.old.pair.lent }
        ensures frames { self.new.frames ≡ self.old.frames }
        ensures state { state_of self.new ≡ queued last (state_of self.old) t }
    {
        if let Some(last) = last {
            if t <= u32::from(last.get()) {
                self.queue.push(TrackNo::new(t as u16).unwrap());
            }
        }
    }

    /// In sequential mode the two tracks behind a missed one are to be staged.
    fn queue_ahead(&mut self, usage: &Usage, t: TrackNo)
        requires { IfSome usage.now.last (λ l. l < self.old.cylinders * 15) }
        ensures leaves { ChangesMarksAlone self.old self.new }
        ensures lent { self.new.pair.lent ≡ self.old.pair.lent }
        ensures frames { self.new.frames ≡ self.old.frames }
        ensures state { state_of self.new ≡ ahead usage.now (state_of self.old) t }
    {
        if is_sequential(usage.mode) {
            let t = u32::from(t.get());
            self.queue_one(usage.last, t + 1);
            self.queue_one(usage.last, t + 2);
        }
    }

    /// A missed track gets a frame where the mode loads it.
    fn load<P: Port, K: Keep<TrackImage>>(
        &mut self,
        t: TrackNo,
        image: TrackImage,
        mode: Mode,
        port: &mut P,
    ) -> Result<Looked, NoMemory>
        requires track { HasTrack self.old t }
        requires of { IsImageOf self.old.geometry t image }
        requires here { is_some self.old.pair.lent ≡ false }
        requires firm { is_loose (state_of self.old) t ≡ false }
        ensures leaves { KeepsLooseTracks self.old self.new }
        ensures there { IfOk result (IsThere (state_of self.new) t) }
        ensures run { (k : K) → Ran (where_ok result) (Heard K.hears K.takes) (loaded contents (state_of self.old) t image mode)
            (outside (P.view port.old) self.old k) (state_of self.new) (had (imaged (state_of self.new) t) result) (outside (P.view port.new) self.new k) }
    {
        if !loads(mode) {
            return Ok(Looked::Has(image));
        }
        match port.want_frame(self.number, t) {
            Err(NoMemory) => Err(NoMemory),
            Ok(Grant::Denied) => Ok(Looked::Has(image)),
            Ok(Grant::Given) => {
                self.fill::<P, K>(t, image, port);
                Ok(Looked::Frame)
            }
        }
    }

    /// The bytes of a missed track are in the buffer.
    fn deliver<P: Port, K: Keep<TrackImage>>(
        &mut self,
        usage: &Usage,
        t: TrackNo,
        side: Side,
        port: &mut P,
    ) -> Result<Looked, NoMemory>
        requires track { HasTrack self.old t }
        requires last { IfSome usage.now.last (λ l. l < self.old.cylinders * 15) }
        requires here { is_some self.old.pair.lent ≡ false }
        requires firm { is_loose (state_of self.old) t ≡ false }
        ensures leaves { KeepsLooseTracks self.old self.new }
        ensures there { IfOk result (IsThere (state_of self.new) t) }
        ensures run { (k : K) → Ran (where_ok result) (Heard K.hears K.takes)
            (missed contents usage.now t (state_of self.old) (got side (Some self.old.buffer) None) (Some self.old.buffer))
            (outside (P.view port.old) self.old k) (state_of self.new) (had (imaged (state_of self.new) t) result) (outside (P.view port.new) self.new k) }
    {
        match self.image_of(t) {
            Err(NoMemory) => Err(NoMemory),
            Ok(None) => Ok(Looked::BadTrack(side)),
            Ok(Some(image)) => {
                self.queue_ahead(usage, t);
                self.load::<P, K>(t, image, usage.mode, port)
            }
        }
    }

    /// A track that has no frame that counts is read.
    fn miss<P: Port, K: Keep<TrackImage>>(
        &mut self,
        usage: &Usage,
        t: TrackNo,
        port: &mut P,
        keep: &mut K,
    ) -> Result<Looked, NoMemory>
        requires track { HasTrack self.old t }
        requires last { IfSome usage.now.last (λ l. l < self.old.cylinders * 15) }
        requires takes { TakesTracks K.takes keep.old self.old }
        requires firm { is_some self.old.pair.lent ≡ false → is_loose (state_of self.old) t ≡ false }
        ensures leaves { KeepsHalfWrite self.old self.new }
        ensures takes { TakesTracks K.takes keep.new self.new }
        ensures there { IfOk result (IsThere (state_of self.new) t) }
        ensures run { Ran (where_ok result) (Heard K.hears K.takes) (miss contents (state_of self.old) usage.now t)
            (outside (P.view port.old) self.old keep.old) (state_of self.new) (had (imaged (state_of self.new) t) result)
            (outside (P.view port.new) self.new keep.new) }
    {
        let got = self.level_bytes(t, keep);
        if got.given {
            return self.deliver::<P, K>(usage, t, got.side, port);
        }
        Ok(Looked::NoBytes(got.fault))
    }

    /// A clean frame counts where the mode isn't bypass and the pool still lists it.
    fn clean_image<P: Port, K: Keep<TrackImage>>(
        &mut self,
        usage: &Usage,
        t: TrackNo,
        port: &mut P,
        keep: &mut K,
    ) -> Result<Looked, NoMemory>
        requires track { HasTrack self.old t }
        requires last { IfSome usage.now.last (λ l. l < self.old.cylinders * 15) }
        requires takes { TakesTracks K.takes keep.old self.old }
        requires clean { is_modified self.old.frames t ≡ false }
        requires firm { is_some self.old.pair.lent ≡ false → is_loose (state_of self.old) t ≡ false }
        requires there { is_some (frame_at (state_of self.old) t) ≡ true }
        ensures leaves { KeepsHalfWrite self.old self.new }
        ensures takes { TakesTracks K.takes keep.new self.new }
        ensures there { IfOk result (IsThere (state_of self.new) t) }
        ensures run { Ran (where_ok result) (Heard K.hears K.takes) (clean_by (state_of self.old) usage.now t) (outside (P.view port.old) self.old keep.old)
            (state_of self.new) (had (imaged (state_of self.new) t) result) (outside (P.view port.new) self.new keep.new) }
    {
        if is_bypass(usage.mode) {
            return self.miss(usage, t, port, keep);
        }
        if port.touch(self.number, t) {
            return Ok(Looked::Frame);
        }
        self.forget(t);
        self.miss(usage, t, port, keep)
    }

    /// The image of a track that a command looks at. A hit copies nothing: `frame_image` lends what is in the frame.
    pub fn image<P: Port, K: Keep<TrackImage>>(
        &mut self,
        usage: &Usage,
        t: TrackNo,
        port: &mut P,
        keep: &mut K,
    ) -> Result<Looked, NoMemory>
        requires track { HasTrack self.old t }
        requires last { IfSome usage.now.last (λ l. l < self.old.cylinders * 15) }
        requires takes { TakesTracks K.takes keep.old self.old }
        ensures leaves { KeepsHalfWrite self.old self.new }
        ensures takes { TakesTracks K.takes keep.new self.new }
        ensures there { IfOk result (IsThere (state_of self.new) t) }
        ensures run { Ran (where_ok result) (Heard K.hears K.takes) (image contents (state_of self.old) usage.now t)
            (outside (P.view port.old) self.old keep.old) (state_of self.new) (had (imaged (state_of self.new) t) result)
            (outside (P.view port.new) self.new keep.new) }
    {
        if self.frames.modified(t) {
            return Ok(Looked::Frame);
        }
        if self.frames.has(t) {
            return self.clean_image(usage, t, port, keep);
        }
        self.miss(usage, t, port, keep)
    }
}
