ghost use Rattle.std.specs.Prelude.{◌≡◌, ◌<◌, IfErr, IfOk, length, true};
ghost use Rattle.deck_text.specs.DeckLines.{DeckLines};
ghost use Rattle.device_core.specs.State.{device_of};
ghost use Rattle.subsystem_laws.specs.Looking.{is_writing};
ghost use Rattle.subsystem_defs.specs.Decks.{AreWhole, Firsts, run_of, run_on};
ghost use Rattle.subsystem_defs.specs.Subsystem as runs;
ghost use Rattle.subsystem_laws.specs.Served.{IsServedDeck};
ghost use Rattle.deck_run.specs.Standing.{StandsAs};
ghost use Rattle.volume_save.specs.Devices.{HasSmallDevices};
ghost use Rattle.volume_save.specs.Saving.{refusal, saving, Gives, HasReason, IsSaved, IsSavedOn};
ghost use Rattle.volume_save.specs.Stepping.{FitsRun, GoesOn};
ghost use Rattle.subsystem_core.specs.Frames.{HasDevice, HasSameDevices};

use crate::Unsaved;
use ckd_types::{DeviceNo, HEADS, NoMemory, TrackNo};
use device_core::{Device, HalfOrigin};
use device_outside::Volume;
use std::alloc::Global;
use subsystem_core::Subsystem;
use track_looks::{Look, look};
use volume_file::DeviceVolume;

/// Whether a half write is open that isn't of the background.
fn is_writing<V: Volume>(device: &Device<V>) -> bool
    ensures { result ≡ is_writing (device_of device.now).store.half }
{
    match device.half_of() {
        Some((_, HalfOrigin::Background)) => false,
        Some(_) => true,
        None => false,
    }
}

/// Why no track of a device is looked at.
fn refusal<V: Volume>(device: &Device<V>) -> Option<Unsaved>
    ensures { result ≡ refusal (device_of device.now).store }
{
    if device.lent_to().is_some() {
        Some(Unsaved::Lent)
    } else if is_writing(device) {
        Some(Unsaved::Half)
    } else {
        None
    }
}

/// The next track goes into the volume.
fn save_track<V: Volume>(
    alloc: Global,
    sub: &mut Subsystem<V>,
    d: DeviceNo,
    t: TrackNo,
    volume: &mut DeviceVolume,
) -> Result<(), Unsaved>
    requires here { HasDevice sub.old d }
    requires track { t < length volume.old.images }
    requires stands { (run : runs.Subsystem) × StandsAs sub.old run × FitsRun run d volume.old }
    ensures numbers { HasSameDevices sub.old sub.new }
    ensures size { length volume.new.images ≡ length volume.old.images }
    ensures found { (run : runs.Subsystem) → StandsAs sub.old run → FitsRun run d volume.old
        → GoesOn run d t volume.old sub.new volume.new result }
{
    volume.has_all_tracks();
    match look(alloc, sub, d, t) {
        Ok(Look::Track(image)) => {
            volume.set(t, image);
            Ok(())
        }
        Ok(Look::Lost) => Err(Unsaved::Lost(t)),
        Ok(Look::Fault(side)) => Err(Unsaved::Fault(side)),
        Ok(Look::BadBytes(_)) => unreachable!(),
        Err(NoMemory) => Err(Unsaved::NoMemory),
    }
}

/// The volume of a device in a subsystem that stands as that of a run: its plain volume there, or the first reason for which
/// there is none.
pub fn saved<V: Volume>(
    alloc: Global,
    sub: &mut Subsystem<V>,
    d: DeviceNo,
) -> Result<DeviceVolume, Unsaved>
    requires here { HasDevice sub.old d }
    requires stands { (run : runs.Subsystem) × StandsAs sub.old run }
    ensures found { (run : runs.Subsystem) → StandsAs sub.old run → Gives result (saving run d) }
    ensures plain { (deck : DeckLines) → IsServedDeck deck → HasSmallDevices deck → StandsAs sub.old (run_of deck).behind
        → IfOk result (IsSaved deck d) }
    ensures plain_on_volumes { (firsts : Firsts) → AreWhole firsts → (deck : DeckLines) → IsServedDeck deck → HasSmallDevices deck
        → StandsAs sub.old (run_on firsts deck).behind → IfOk result (IsSavedOn firsts deck d) }
    ensures reason { (run : runs.Subsystem) → StandsAs sub.old run → IfErr result (HasReason run d) }
{
    let device = sub.device(d);
    if let Some(why) = refusal(device) {
        return Err(why);
    }
    let cylinders = device.cylinders();
    let mut volume = DeviceVolume::new(alloc, device.geometry(), cylinders)?;
    let count = cylinders * HEADS;
    for t in 0..count {
        let track = TrackNo::new(t).unwrap();
        volume.has_all_tracks();
        match save_track(alloc, sub, d, track, &mut volume) {
            Err(why) => return Err(why),
            Ok(()) => (),
        }
    }
    volume.has_all_tracks();
    Ok(volume)
}
