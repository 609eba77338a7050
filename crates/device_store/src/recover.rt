ghost use Rattle.std.specs.Prelude.{◌≡◌, ◌<◌, ◌*◌, IfSome, None, Option, Some, false, is_some, true};
ghost use Rattle.ckd_types.specs.declared.paths.Side.{Side};
ghost use Rattle.device_store.specs.Leaves.{IsSameDevice, KeepsWeight};
ghost use Rattle.device_store.specs.declared.half.Origin.TheVariants.{OfBackground};
ghost use Rattle.device_defs.specs.Background.{did, recover, recovered_bytes, saved_by, saving, to_recover};
ghost use Rattle.device_defs.specs.Contents.{contents};
ghost use Rattle.device_defs.specs.Store.{frame_at, is_loose};
ghost use Rattle.device_outside.specs.Keeper.{Heard};
ghost use Rattle.device_outside.specs.Outside.{Ran, where_ok};
ghost use Rattle.device_store.specs.Images.{IsImageOf};
ghost use Rattle.device_store.specs.State.{state_of, outside, surely, OnlyBackground, had, got_by, HasTrack, TakesTracks};

use crate::background::did;
use crate::image::Given;
use crate::through::Written;
use crate::{DeviceStore, HalfWrite, Origin};
use ckd_types::{NoMemory, Side, TrackNo};
use device_defs::{Did, Took};
use device_outside::{Keep, Port, Volume};
use track_image::TrackImage;
use track_table::first;

impl<V: Volume> DeviceStore<V> {
    /// The least track that waits, where a side is up.
    pub(crate) fn to_recover(&self) -> Option<TrackNo>
        ensures least { result ≡ to_recover contents (state_of self.now) }
        ensures here { IfSome result (λ t. t < self.now.cylinders * 15) }
    {
        if self.some_up() {
            return first(&self.waiting());
        }
        None
    }

    /// Behind the first part of a write of the background, by what came of it.
    fn saved_by<P: Port, K: Keep<TrackImage>>(
        &mut self,
        half: HalfWrite,
        done: Did,
        was_loose: bool,
        written: Written,
        port: &mut P,
    ) -> Did
        requires track { half.track < self.old.cylinders * 15 }
        requires of { IsImageOf self.old.geometry half.track half.image }
        requires firm { is_loose (state_of self.old) half.track ≡ false }
        requires background { half.origin ≡ OfBackground }
        requires none { self.old.half ≡ None }
        ensures leaves { IsSameDevice self.old self.new }
        ensures opened { OnlyBackground self.new.half }
        ensures loose { self.new.loose ≡ self.old.loose }
        ensures run { (k : K) (fault : Option Side)
            → Ran surely (Heard K.hears K.takes) (saved_by contents half.track half.image done fault was_loose written.fault (state_of self.old) written.took)
            (outside (P.view port.old) self.old k) (state_of self.new) (did fault result) (outside (P.view port.new) self.new k) }
    {
        match written.took {
            Took::Unwritten => did(written.fault, Did::Nothing),
            Took::Whole => {
                self.write_done::<P, K>(half.track, half.image, false, port);
                did(written.fault, done)
            }
            Took::Opened => {
                let t = half.track;
                self.open_half::<P, K>(half, was_loose, port);
                Did::Half(t)
            }
        }
    }

    /// Writes an image to the volumes. What is done then is `done`, with the side that failed before.
    pub(crate) fn save_read<P: Port, K: Keep<TrackImage>>(
        &mut self,
        t: TrackNo,
        image: TrackImage,
        done: Did,
        fault: Option<Side>,
        port: &mut P,
        keep: &mut K,
    ) -> Did
        requires track { HasTrack self.old t }
        requires of { IsImageOf self.old.geometry t image }
        requires kept { is_loose (state_of self.old) t ≡ true → is_some (frame_at (state_of self.old) t) ≡ true }
        requires none { self.old.half ≡ None }
        requires takes { TakesTracks K.takes keep.old self.old }
        ensures leaves { KeepsWeight self.old self.new }
        ensures opened { OnlyBackground self.new.half }
        ensures takes { TakesTracks K.takes keep.new self.new }
        ensures run { Ran surely (Heard K.hears K.takes) (saving contents (state_of self.old) t image done fault) (outside (P.view port.old) self.old keep.old)
            (state_of self.new) result (outside (P.view port.new) self.new keep.new) }
    {
        let was_loose = self.firm_first(t, keep);
        let written = self.write_first(t, &image, keep);
        let half = HalfWrite {
            track: t,
            origin: Origin::OfBackground,
            image,
        };
        did(
            fault,
            self.saved_by::<P, K>(half, done, was_loose, written, port),
        )
    }

    /// The bytes of a track without a frame are in the buffer.
    fn recover_bytes<P: Port, K: Keep<TrackImage>>(
        &mut self,
        t: TrackNo,
        given: Given,
        port: &mut P,
        keep: &mut K,
    ) -> Result<Did, NoMemory>
        requires track { HasTrack self.old t }
        requires here { is_some self.old.pair.lent ≡ false }
        requires none { self.old.half ≡ None }
        requires takes { TakesTracks K.takes keep.old self.old }
        ensures leaves { KeepsWeight self.old self.new }
        ensures opened { OnlyBackground self.new.half }
        ensures takes { TakesTracks K.takes keep.new self.new }
        ensures run { Ran (where_ok result) (Heard K.hears K.takes)
            (recovered_bytes contents t (state_of self.old) (got_by self.old.buffer given) (Some self.old.buffer))
            (outside (P.view port.old) self.old keep.old) (state_of self.new) (had (λ did. did) result) (outside (P.view port.new) self.new keep.new) }
    {
        match self.image_of(t) {
            Err(NoMemory) => Err(NoMemory),
            Ok(None) => Ok(did(given.fault, Did::BadBytes(given.side))),
            Ok(Some(image)) => {
                Ok(self.save_read(t, image, Did::Recovered(t), given.fault, port, keep))
            }
        }
    }

    /// Recovers a track: what its frame has goes to the volumes, or what a level side has with the patch.
    pub(crate) fn recover<P: Port, K: Keep<TrackImage>>(
        &mut self,
        t: TrackNo,
        port: &mut P,
        keep: &mut K,
    ) -> Result<Did, NoMemory>
        requires track { HasTrack self.old t }
        requires none { self.old.half ≡ None }
        requires takes { TakesTracks K.takes keep.old self.old }
        ensures leaves { KeepsWeight self.old self.new }
        ensures opened { OnlyBackground self.new.half }
        ensures takes { TakesTracks K.takes keep.new self.new }
        ensures run { Ran (where_ok result) (Heard K.hears K.takes) (recover contents (state_of self.old) t (frame_at (state_of self.old) t))
            (outside (P.view port.old) self.old keep.old) (state_of self.new) (had (λ did. did) result) (outside (P.view port.new) self.new keep.new) }
    {
        if self.frames.has(t) {
            return self.save_frame(t, Did::Recovered(t), port, keep);
        }
        let got = self.level_bytes(t, keep);
        if got.given {
            return self.recover_bytes(t, got, port, keep);
        }
        Ok(did(got.fault, Did::Nothing))
    }
}
