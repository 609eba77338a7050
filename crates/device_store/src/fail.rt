ghost use Rattle.std.specs.Prelude.{◌≡◌, ◌*◌};
ghost use Rattle.ckd_types.specs.declared.paths.Side.TheVariants as sides;
ghost use Rattle.device_defs.specs.Contents.{contents};
ghost use Rattle.device_defs.specs.Losses.{all_firm_told, call_failed, down, firm_told, over, settled_but, side_lost};
ghost use Rattle.device_outside.specs.Keeper.{Heard};
ghost use Rattle.device_outside.specs.Outside.{PortView, Ran};
ghost use Rattle.device_store.specs.Leaves.{ChangesMarksAlone, KeepsHalfWrite, MovesNothing};
ghost use Rattle.device_store.specs.State.{is_written, state_of, outside, surely, StaysFirm, HasTrack, TakesTracks};

use crate::DeviceStore;
use crate::marks::track;
use ckd_types::{HEADS, Side, TrackNo};
use device_outside::{Keep, Volume};
use track_image::TrackImage;

/// Whether a track is the one that is being written.
fn is_written(writing: &Option<TrackNo>, t: TrackNo) -> bool
    ensures { result ≡ is_written writing.now t }
{
    match writing {
        None => false,
        Some(written) => t.get() == written.get(),
    }
}

impl<V: Volume> DeviceStore<V> {
    /// A side is down, and a held mark ends.
    fn down(&mut self, side: Side)
        ensures leaves { ChangesMarksAlone self.old self.new }
        ensures up_b { side ≡ sides.A → self.new.pair.b.up ≡ self.old.pair.b.up }
        ensures state { state_of self.new ≡ down (state_of self.old) side }
    {
        self.pair.fail(side);
    }

    /// A track is settled, unless it is the one that is being written.
    fn settle_other<K: Keep<TrackImage>>(
        &mut self,
        writing: &Option<TrackNo>,
        t: TrackNo,
        keep: &mut K,
    )
        requires track { HasTrack self.old t }
        requires takes { TakesTracks K.takes keep.old self.old }
        ensures leaves { KeepsHalfWrite self.old self.new }
        ensures volume { self.new.pair ≡ self.old.pair }
        ensures firm { StaysFirm self.old.loose.loose self.new.loose.loose }
        ensures takes { TakesTracks K.takes keep.new self.new }
        ensures run { (p : PortView) → Ran surely (Heard K.hears K.takes) (firm_told contents t (settled_but contents writing.now t (state_of self.old)))
            (outside p self.old keep.old) (state_of self.new) tt (outside p self.new keep.new) }
    {
        if is_written(writing, t) {
            self.owed.no_firm();
            return;
        }
        self.settle_told(t, keep);
    }

    /// Each track that is level on no side is settled. The keeper is told of those that become firm.
    fn settle_all<K: Keep<TrackImage>>(&mut self, writing: &Option<TrackNo>, keep: &mut K)
        requires takes { TakesTracks K.takes keep.old self.old }
        ensures leaves { KeepsHalfWrite self.old self.new }
        ensures volume { self.new.pair ≡ self.old.pair }
        ensures firm { StaysFirm self.old.loose.loose self.new.loose.loose }
        ensures takes { TakesTracks K.takes keep.new self.new }
        ensures run { (p : PortView) → Ran surely (Heard K.hears K.takes)
            (all_firm_told contents (self.old.cylinders * 15) (over (self.old.cylinders * 15) (settled_but contents writing.now) (state_of self.old)))
            (outside p self.old keep.old) (state_of self.new) tt (outside p self.new keep.new) }
    {
        let tracks = self.cylinders * HEADS;
        for t in 0..tracks {
            self.settle_other(writing, track(t), keep);
        }
    }

    /// A side is lost. A track that is being written is settled by its write.
    pub(crate) fn lose_side<K: Keep<TrackImage>>(
        &mut self,
        side: Side,
        writing: Option<TrackNo>,
        keep: &mut K,
    )
        requires takes { TakesTracks K.takes keep.old self.old }
        ensures leaves { MovesNothing self.old self.new }
        ensures up_b { side ≡ sides.A → self.new.pair.b.up ≡ self.old.pair.b.up }
        ensures firm { StaysFirm self.old.loose.loose self.new.loose.loose }
        ensures takes { TakesTracks K.takes keep.new self.new }
        ensures run { (p : PortView) → Ran surely (Heard K.hears K.takes)
            (all_firm_told contents (self.old.cylinders * 15) (side_lost contents (state_of self.old) side writing)) (outside p self.old keep.old)
            (state_of self.new) tt (outside p self.new keep.new) }
    {
        self.down(side);
        self.settle_all(&writing, keep);
    }

    /// A failed call fails the side of a pair, as a loss of it does. A volume that is alone isn't failed by its call.
    pub(crate) fn call_failed<K: Keep<TrackImage>>(
        &mut self,
        side: Side,
        writing: Option<TrackNo>,
        keep: &mut K,
    )
        requires takes { TakesTracks K.takes keep.old self.old }
        ensures leaves { MovesNothing self.old self.new }
        ensures up_b { side ≡ sides.A → self.new.pair.b.up ≡ self.old.pair.b.up }
        ensures firm { StaysFirm self.old.loose.loose self.new.loose.loose }
        ensures takes { TakesTracks K.takes keep.new self.new }
        ensures run { (p : PortView) → Ran surely (Heard K.hears K.takes) (call_failed contents (state_of self.old) side writing) (outside p self.old keep.old)
            (state_of self.new) tt (outside p self.new keep.new) }
    {
        if self.pair.is_paired() {
            self.lose_side(side, writing, keep);
        }
    }
}
