ghost use Rattle.std.specs.Prelude.{◌≡◌, ◌<◌, ◌*◌, IfSome, None, drop, slice_get};
ghost use Rattle.device_outside.specs.Keeper.{Heard};
ghost use Rattle.device_outside.specs.Outside.{Ran, where_ok};
ghost use Rattle.device_defs.specs.Background.{copy_first, did, stage_first, to_copy, work};
ghost use Rattle.device_defs.specs.Contents.{contents};
ghost use Rattle.device_store.specs.Leaves.{ChangesMarksAlone, KeepsWeight};
ghost use Rattle.device_store.specs.State.{state_of, outside, OnlyBackground, Takes, had, TakesTracks};

use crate::DeviceStore;
use ckd_types::{NoMemory, Side, TrackNo};
use device_defs::Did;
use device_outside::{Keep, Port, Volume};
use track_image::TrackImage;

/// Work in which a call failed is a fault.
pub(crate) fn did(fault: Option<Side>, work: Did) -> Did
    ensures { result ≡ did fault work }
{
    match fault {
        None => work,
        Some(side) => Did::Fault(side),
    }
}

impl<V: Volume> DeviceStore<V> {
    /// Takes the oldest queued track.
    fn next_queued(&mut self) -> Option<TrackNo>
        ensures leaves { ChangesMarksAlone self.old self.new }
        ensures here { IfSome result (λ t. t < self.old.cylinders * 15) }
        ensures oldest { result ≡ slice_get self.old.queue 0 }
        ensures state { state_of self.new ≡ record (state_of self.old) { queue = drop 1 self.old.queue } }
    {
        self.queue.next()
    }

    /// Stages the oldest queued track, or else destages one. After want of memory that track isn't queued any more.
    fn stage_or_destage<P: Port, K: Keep<TrackImage>>(
        &mut self,
        port: &mut P,
        keep: &mut K,
    ) -> Result<Did, NoMemory>
        requires none { self.old.half ≡ None }
        requires takes { TakesTracks K.takes keep.old self.old }
        ensures leaves { KeepsWeight self.old self.new }
        ensures opened { OnlyBackground self.new.half }
        ensures takes { TakesTracks K.takes keep.new self.new }
        ensures run { Ran (where_ok result) (Heard K.hears K.takes) (stage_first contents (state_of self.old) self.old.queue)
            (outside (P.view port.old) self.old keep.old) (state_of self.new) (had (λ did. did) result) (outside (P.view port.new) self.new keep.new) }
    {
        match self.next_queued() {
            Some(t) => self.stage(t, port, keep),
            None => match self.to_destage() {
                Some(t) => self.save_frame(t, Did::Destaged(t), port, keep),
                None => Ok(Did::Nothing),
            },
        }
    }

    /// Copies the least track that there is to copy, or else stages or destages one.
    fn copy_or_stage<P: Port, K: Keep<TrackImage>>(
        &mut self,
        port: &mut P,
        keep: &mut K,
    ) -> Result<Did, NoMemory>
        requires none { self.old.half ≡ None }
        requires takes { TakesTracks K.takes keep.old self.old }
        ensures leaves { KeepsWeight self.old self.new }
        ensures opened { OnlyBackground self.new.half }
        ensures takes { TakesTracks K.takes keep.new self.new }
        ensures run { Ran (where_ok result) (Heard K.hears K.takes) (copy_first contents (state_of self.old) (to_copy (state_of self.old)))
            (outside (P.view port.old) self.old keep.old) (state_of self.new) (had (λ did. did) result) (outside (P.view port.new) self.new keep.new) }
    {
        match self.to_copy() {
            Some(t) => Ok(self.copy_one(t, keep)),
            None => self.stage_or_destage(port, keep),
        }
    }

    /// What it does by itself: it recovers a track, copies one from side to side, stages one or destages one, the first of these
    /// that there is to do.
    pub fn background<P: Port, K: Keep<TrackImage>>(
        &mut self,
        port: &mut P,
        keep: &mut K,
    ) -> Result<Did, NoMemory>
        requires none { self.old.half ≡ None }
        requires takes { TakesTracks K.takes keep.old self.old }
        ensures leaves { KeepsWeight self.old self.new }
        ensures opened { OnlyBackground self.new.half }
        ensures takes { TakesTracks K.takes keep.new self.new }
        ensures run { Ran (where_ok result) (Heard K.hears K.takes) (work contents (state_of self.old)) (outside (P.view port.old) self.old keep.old)
            (state_of self.new) (had (λ did. did) result) (outside (P.view port.new) self.new keep.new) }
    {
        match self.to_recover() {
            Some(t) => self.recover(t, port, keep),
            None => self.copy_or_stage(port, keep),
        }
    }
}
