ghost use Rattle.std.specs.Prelude.{◌<◌, ◌*◌, IfSome};
ghost use Rattle.device_outside.specs.Keeper.{Heard};
ghost use Rattle.device_core.specs.State.{device_of};
ghost use Rattle.device_defs.specs.Store.{tracks_of};
ghost use Rattle.subsystem_core.specs.Devices.{device_at};
ghost use Rattle.subsystem_core.specs.Keepers.{TakesAll};
ghost use Rattle.subsystem_core.specs.Frames.{HasDevice, HasSameDevices, LooksAlone, LooksAt};
ghost use Rattle.subsystem_core.specs.Standing.{IsUnwritten, StayPlain};

use crate::Subsystem;
use ckd_types::{DeviceNo, NoMemory, TrackNo};
use device_outside::{Keep, NoKeep, Volume};
use device_store::Peeked;
use track_image::TrackImage;

impl<V: Volume> Subsystem<V> {
    /// A look at one track of a device past the channel. The image of a track that is told as `Frame` is in its frame, and read
    /// there through `device`. The keeper is told of a track that the look made firm.
    pub fn peek_track_with<K: Keep<TrackImage>>(
        &mut self,
        d: DeviceNo,
        t: TrackNo,
        keep: &mut K,
    ) -> Result<Peeked, NoMemory>
        requires here { HasDevice self.old d }
        requires track { IfSome (device_at self.old.devices.items d) (λ x. t < tracks_of (device_of x).store) }
        requires takes { TakesAll K.takes keep.old self.old.devices.items }
        ensures numbers { HasSameDevices self.old self.new }
        ensures takes { TakesAll K.takes keep.new self.new.devices.items }
        ensures looked { LooksAt (Heard K.hears K.takes) d t result self.old keep.old self.new keep.new }
        ensures plain { IsUnwritten d t self.old.devices.items → StayPlain self.old.devices.items self.new.devices.items }
    {
        self.peek_at(d, t, keep)
    }

    /// The same, with a keeper that keeps nothing.
    pub fn peek_track(&mut self, d: DeviceNo, t: TrackNo) -> Result<Peeked, NoMemory>
        requires here { HasDevice self.old d }
        requires track { IfSome (device_at self.old.devices.items d) (λ x. t < tracks_of (device_of x).store) }
        ensures numbers { HasSameDevices self.old self.new }
        ensures looked { LooksAlone d t result self.old self.new }
        ensures plain { IsUnwritten d t self.old.devices.items → StayPlain self.old.devices.items self.new.devices.items }
    {
        let mut keep = NoKeep;
        self.peek_track_with(d, t, &mut keep)
    }
}
