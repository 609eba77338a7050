ghost use Rattle.std.specs.Prelude.{◌≡◌};
ghost use Rattle.device_outside.specs.Keeper.{Heard};
ghost use Rattle.device_defs.specs.Contents.{contents};
ghost use Rattle.device_defs.specs.Cutting.{power};
ghost use Rattle.device_defs.specs.Events.{lose};
ghost use Rattle.device_core.specs.Promises.{TakesNoSide};
ghost use Rattle.subsystem_core.specs.Comes.{SweptKept};
ghost use Rattle.subsystem_core.specs.Keepers.{spans_of, TakesAll};
ghost use Rattle.subsystem_core.specs.Seats.{seats_of};
ghost use Rattle.subsystem_core.specs.Frames.{HasSameSpans};
ghost use Rattle.subsystem_core.specs.Standing.{StayStanding};

use crate::Subsystem;
use device_core::Device;
use device_outside::{Keep, Volume};
use frame_pool::Pool;
use loss_model::Loss;
use track_image::TrackImage;

/// A loss comes to each device in its turn.
fn lose_each<V: Volume, K: Keep<TrackImage>>(
    devices: &mut [Device<V>],
    loss: Loss,
    pool: &mut Pool,
    keep: &mut K,
)
    requires takes { TakesAll K.takes keep.old devices.old }
    requires no_side { TakesNoSide loss }
    ensures seats { seats_of devices.new ≡ seats_of devices.old }
    ensures spans { spans_of devices.new ≡ spans_of devices.old }
    ensures stands { StayStanding devices.old devices.new }
    ensures each { SweptKept (Heard K.hears K.takes) (λ x. lose contents x loss) pool.old keep.old devices.old devices.new pool.new keep.new }
{
    for i in 0..devices.len() {
        devices[i].lose_with(loss, pool, keep);
    }
}

/// A loss of power comes to each device in its turn.
fn power_each<V: Volume, K: Keep<TrackImage>>(
    devices: &mut [Device<V>],
    pool: &mut Pool,
    keep: &mut K,
)
    requires takes { TakesAll K.takes keep.old devices.old }
    ensures seats { seats_of devices.new ≡ seats_of devices.old }
    ensures spans { spans_of devices.new ≡ spans_of devices.old }
    ensures stands { StayStanding devices.old devices.new }
    ensures each { SweptKept (Heard K.hears K.takes) (power contents) pool.old keep.old devices.old devices.new pool.new keep.new }
{
    for i in 0..devices.len() {
        devices[i].power_with(pool, keep);
    }
}

impl<V: Volume> Subsystem<V> {
    pub(crate) fn lose_all<K: Keep<TrackImage>>(&mut self, loss: Loss, keep: &mut K)
        requires takes { TakesAll K.takes keep.old self.old.devices.items }
        requires no_side { TakesNoSide loss }
        ensures spans { HasSameSpans self.old self.new }
        ensures stands { StayStanding self.old.devices.items self.new.devices.items }
        ensures each { SweptKept (Heard K.hears K.takes) (λ x. lose contents x loss) self.old.pool keep.old self.old.devices.items self.new.devices.items
            self.new.pool keep.new }
    {
        lose_each(&mut self.devices, loss, &mut self.pool, keep);
    }

    pub(crate) fn power_all<K: Keep<TrackImage>>(&mut self, keep: &mut K)
        requires takes { TakesAll K.takes keep.old self.old.devices.items }
        ensures spans { HasSameSpans self.old self.new }
        ensures stands { StayStanding self.old.devices.items self.new.devices.items }
        ensures each { SweptKept (Heard K.hears K.takes) (power contents) self.old.pool keep.old self.old.devices.items self.new.devices.items self.new.pool
            keep.new }
    {
        power_each(&mut self.devices, &mut self.pool, keep);
    }
}
