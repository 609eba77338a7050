ghost use Rattle.std.specs.Prelude.{◌≡◌, Some, false, is_some, true};
ghost use Rattle.device_outside.specs.Keeper.{Heard};
ghost use Rattle.device_outside.specs.Outside.{Ran, where_ok};
ghost use Rattle.device_defs.specs.Background.{staging_granted, stage, staged_bytes};
ghost use Rattle.device_defs.specs.Contents.{contents};
ghost use Rattle.device_defs.specs.Store.{is_loose};
ghost use Rattle.device_store.specs.Leaves.{KeepsHalfWrite, KeepsLooseTracks};
ghost use Rattle.device_store.specs.State.{state_of, outside, had, got_by, HasTrack, TakesTracks};

use crate::DeviceStore;
use crate::background::did;
use crate::image::Given;
use ckd_types::{NoMemory, TrackNo};
use device_defs::Did;
use device_outside::{Grant, Keep, Port, Volume};
use track_image::TrackImage;

impl<V: Volume> DeviceStore<V> {
    /// The bytes of a track to stage are in the buffer. A frame that isn't filled is given back.
    fn stage_bytes<P: Port, K: Keep<TrackImage>>(
        &mut self,
        t: TrackNo,
        given: Given,
        port: &mut P,
    ) -> Result<Did, NoMemory>
        requires track { HasTrack self.old t }
        requires firm { is_loose (state_of self.old) t ≡ false }
        ensures leaves { KeepsLooseTracks self.old self.new }
        ensures run { (k : K) → Ran (where_ok result) (Heard K.hears K.takes)
            (staged_bytes contents t (state_of self.old) (got_by self.old.buffer given) (Some self.old.buffer)) (outside (P.view port.old) self.old k)
            (state_of self.new) (had (λ did. did) result) (outside (P.view port.new) self.new k) }
    {
        match self.image_of(t) {
            Err(NoMemory) => {
                port.drop_frame(self.number, t);
                Err(NoMemory)
            }
            Ok(None) => {
                port.drop_frame(self.number, t);
                Ok(did(given.fault, Did::BadBytes(given.side)))
            }
            Ok(Some(image)) => {
                self.fill::<P, K>(t, image, port);
                Ok(did(given.fault, Did::Staged(t)))
            }
        }
    }

    /// A track to stage got a frame, and is read.
    fn stage_granted<P: Port, K: Keep<TrackImage>>(
        &mut self,
        t: TrackNo,
        port: &mut P,
        keep: &mut K,
    ) -> Result<Did, NoMemory>
        requires track { HasTrack self.old t }
        requires takes { TakesTracks K.takes keep.old self.old }
        requires firm { is_some self.old.pair.lent ≡ false → is_loose (state_of self.old) t ≡ false }
        ensures leaves { KeepsHalfWrite self.old self.new }
        ensures takes { TakesTracks K.takes keep.new self.new }
        ensures run { Ran (where_ok result) (Heard K.hears K.takes) (staging_granted contents (state_of self.old) t true) (outside (P.view port.old) self.old keep.old)
            (state_of self.new) (had (λ did. did) result) (outside (P.view port.new) self.new keep.new) }
    {
        let got = self.level_bytes(t, keep);
        if got.given {
            return self.stage_bytes::<P, K>(t, got, port);
        }
        port.drop_frame(self.number, t);
        Ok(did(got.fault, Did::Nothing))
    }

    /// Stages a track, unless it has a frame, is lost or gets no frame.
    pub(crate) fn stage<P: Port, K: Keep<TrackImage>>(
        &mut self,
        t: TrackNo,
        port: &mut P,
        keep: &mut K,
    ) -> Result<Did, NoMemory>
        requires track { HasTrack self.old t }
        requires takes { TakesTracks K.takes keep.old self.old }
        ensures leaves { KeepsHalfWrite self.old self.new }
        ensures takes { TakesTracks K.takes keep.new self.new }
        ensures run { Ran (where_ok result) (Heard K.hears K.takes) (stage contents (state_of self.old) t) (outside (P.view port.old) self.old keep.old)
            (state_of self.new) (had (λ did. did) result) (outside (P.view port.new) self.new keep.new) }
    {
        if self.frames.has(t) {
            return Ok(Did::Skipped(t));
        }
        if self.lost.has(t) {
            return Ok(Did::Skipped(t));
        }
        match port.want_frame(self.number, t) {
            Err(NoMemory) => Err(NoMemory),
            Ok(Grant::Denied) => Ok(Did::Skipped(t)),
            Ok(Grant::Given) => self.stage_granted(t, port, keep),
        }
    }
}
