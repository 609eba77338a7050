ghost use Rattle.std.specs.Prelude.{◌≡◌, ◌<◌, ◌*◌, IfOk, IfSome, is_some, true};
ghost use Rattle.device_outside.specs.Keeper.{Heard};
ghost use Rattle.device_defs.specs.Peek as defs;
ghost use Rattle.device_defs.specs.Store.{frame_at, tracks_of};
ghost use Rattle.device_store.specs.Looks.{frame_in, peeked_by, IsPeeked};
ghost use Rattle.device_store.specs.State.{had};
ghost use Rattle.device_core.specs.State.{device_of};
ghost use Rattle.subsystem_core.specs.Devices.{device_at};
ghost use Rattle.subsystem_core.specs.Keepers.{TakesAll};
ghost use Rattle.subsystem_core.specs.Frames.{HasDevice, HasSameDevices};
ghost use Rattle.subsystem_defs.specs.Looks.{looked};
ghost use Rattle.subsystem_defs.specs.Subsystem as runs;
ghost use Rattle.deck_run.specs.Owning.{AreOwn};
ghost use Rattle.deck_run.specs.Standing.{StandsAs};
ghost use Rattle.track_looks.specs.Looking.{look_seen, IsAllowed, LooksKept, Looks};

use crate::Look;
use ckd_types::{DeviceNo, NoMemory, TrackNo};
use device_core::Device;
use device_outside::{Keep, NoKeep, Volume};
use std::alloc::Global;
use subsystem_core::{Peeked, Subsystem};
use track_image::TrackImage;

/// A copy of the image in a track's frame.
fn frame_copied<V: Volume>(alloc: Global, device: &Device<V>, t: TrackNo) -> Result<Look, NoMemory>
    requires { is_some (frame_at (device_of device.now).store t) ≡ true }
    ensures { IfOk result (λ found. look_seen found ≡ defs.Track (frame_in (device_of device.now).store t)) }
{
    let image = device.frame_image(t).copy(alloc)?;
    Ok(Look::Track(image))
}

/// What was found, with a copy of the image where it is in a frame.
fn look_of<V: Volume>(
    alloc: Global,
    device: &Device<V>,
    t: TrackNo,
    peeked: Peeked,
) -> Result<Look, NoMemory>
    requires { IsPeeked (device_of device.now).store t peeked }
    ensures { IfOk result (λ found. look_seen found ≡ peeked_by (device_of device.now).store t peeked) }
{
    match peeked {
        Peeked::Frame => frame_copied(alloc, device, t),
        Peeked::Track(image) => Ok(Look::Track(image)),
        Peeked::Lost => Ok(Look::Lost),
        Peeked::Fault(side) => Ok(Look::Fault(side)),
        Peeked::BadBytes(side) => Ok(Look::BadBytes(side)),
    }
}

/// A look at a track of a device, which makes the reads of a command and loads nothing. The keeper is told of a track that it made
/// firm. Memory may be lacking for the copy of a frame's image too, and what the look did stays done then.
pub fn look_with<V: Volume, K: Keep<TrackImage>>(
    alloc: Global,
    sub: &mut Subsystem<V>,
    d: DeviceNo,
    t: TrackNo,
    keep: &mut K,
) -> Result<Look, NoMemory>
    requires here { HasDevice sub.old d }
    requires track { IfSome (device_at sub.old.devices.items d) (λ x. t < tracks_of (device_of x).store) }
    requires takes { TakesAll K.takes keep.old sub.old.devices.items }
    ensures numbers { HasSameDevices sub.old sub.new }
    ensures takes { TakesAll K.takes keep.new sub.new.devices.items }
    ensures own { AreOwn sub.old.devices.items → AreOwn sub.new.devices.items }
    ensures looked { LooksKept (Heard K.hears K.takes) d t (had look_seen result) sub.old keep.old sub.new keep.new }
{
    match sub.peek_track_with(d, t, keep) {
        Ok(peeked) => look_of(alloc, sub.device(d), t, peeked),
        Err(NoMemory) => Err(NoMemory),
    }
}

/// The same, with a keeper that keeps nothing. In a subsystem that stands as that of a run it finds what a look in that run finds.
pub fn look<V: Volume>(
    alloc: Global,
    sub: &mut Subsystem<V>,
    d: DeviceNo,
    t: TrackNo,
) -> Result<Look, NoMemory>
    requires here { HasDevice sub.old d }
    requires track { IfSome (device_at sub.old.devices.items d) (λ x. t < tracks_of (device_of x).store) }
    ensures numbers { HasSameDevices sub.old sub.new }
    ensures own { AreOwn sub.old.devices.items → AreOwn sub.new.devices.items }
    ensures looked { Looks d t (had look_seen result) sub.old sub.new }
    ensures happened { (run : runs.Subsystem) → StandsAs sub.old run → IsAllowed run d t
        → IfOk result (λ found. ((looked run d t).found ≡ look_seen found) × StandsAs sub.new (looked run d t).behind) }
{
    let mut keep = NoKeep;
    look_with(alloc, sub, d, t, &mut keep)
}
