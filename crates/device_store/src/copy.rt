ghost use Rattle.std.specs.Prelude.{◌≡◌, ◌<◌, ◌*◌, IfSome, Some, true};
ghost use Rattle.device_defs.specs.Background.{copied, copies_to, copy_by, other, to_copy};
ghost use Rattle.device_defs.specs.Contents.{contents};
ghost use Rattle.device_outside.specs.Keeper.{Heard};
ghost use Rattle.device_outside.specs.Outside.{PortView, Ran};
ghost use Rattle.device_store.specs.Leaves.{KeepsHalfWrite, MovesNothing};
ghost use Rattle.device_store.specs.State.{state_of, outside, surely, HasTrack, TakesTracks};

use crate::DeviceStore;
use crate::marks::{count_read, count_write};
use ckd_outside::Failed;
use ckd_types::{Side, TrackNo};
use device_defs::Did;
use device_outside::{Keep, Volume};
use track_image::TrackImage;

fn other(side: Side) -> Side
    ensures { result ≡ other side }
{
    match side {
        Side::A => Side::B,
        Side::B => Side::A,
    }
}

impl<V: Volume> DeviceStore<V> {
    /// The least track that is stale on one side that takes writes and level on the other.
    pub(crate) fn to_copy(&self) -> Option<TrackNo>
        ensures least { result ≡ to_copy (state_of self.now) }
        ensures here { IfSome result (λ t. t < self.now.cylinders * 15) }
    {
        self.pair.to_copy()
    }

    /// A copied track was written, or not: it is level where that was done.
    fn copy_written<K: Keep<TrackImage>>(
        &mut self,
        t: TrackNo,
        side: Side,
        took: bool,
        keep: &mut K,
    ) -> Did
        requires track { HasTrack self.old t }
        requires takes { TakesTracks K.takes keep.old self.old }
        ensures leaves { MovesNothing self.old self.new }
        ensures takes { TakesTracks K.takes keep.new self.new }
        ensures run { (p : PortView) → Ran surely (Heard K.hears K.takes) (copied contents t side (state_of self.old) took) (outside p self.old keep.old)
            (state_of self.new) (Some result) (outside p self.new keep.new) }
    {
        if took {
            self.mark(side, t, false);
            return Did::Copied(t);
        }
        self.call_failed(side, None, keep);
        Did::Fault(side)
    }

    /// Copies a track from the other side to one: the bytes as they are.
    fn copy_to<K: Keep<TrackImage>>(&mut self, t: TrackNo, side: Side, keep: &mut K) -> Did
        requires track { HasTrack self.old t }
        requires a { self.old.pair.a.up ≡ true }
        requires b { self.old.pair.b.up ≡ true }
        requires takes { TakesTracks K.takes keep.old self.old }
        ensures leaves { KeepsHalfWrite self.old self.new }
        ensures takes { TakesTracks K.takes keep.new self.new }
        ensures run { (p : PortView) → Ran surely (Heard K.hears K.takes) (copy_by contents (state_of self.old) t (Some side)) (outside p self.old keep.old)
            (state_of self.new) (Some result) (outside p self.new keep.new) }
    {
        let from = other(side);
        match self.pair.read(from, t, &mut self.buffer) {
            Err(Failed) => {
                count_read(&mut self.counts, false);
                self.call_failed(from, None, keep);
                Did::Fault(from)
            }
            Ok(()) => {
                count_read(&mut self.counts, true);
                let took = self.pair.write(side, t, self.buffer.bytes());
                count_write(&mut self.counts, took);
                self.copy_written(t, side, took, keep)
            }
        }
    }

    /// Copies a track that is to be copied.
    pub(crate) fn copy_one<K: Keep<TrackImage>>(&mut self, t: TrackNo, keep: &mut K) -> Did
        requires track { HasTrack self.old t }
        requires takes { TakesTracks K.takes keep.old self.old }
        ensures leaves { KeepsHalfWrite self.old self.new }
        ensures takes { TakesTracks K.takes keep.new self.new }
        ensures run { (p : PortView) → Ran surely (Heard K.hears K.takes) (copy_by contents (state_of self.old) t (copies_to (state_of self.old) t))
            (outside p self.old keep.old) (state_of self.new) (Some result) (outside p self.new keep.new) }
    {
        match self.pair.copies_to(t) {
            None => Did::Nothing,
            Some(side) => self.copy_to(t, side, keep),
        }
    }
}
