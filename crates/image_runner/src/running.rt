ghost use Rattle.std.specs.Prelude.{◌≡◌, ◌≤◌, ◌*◌, ◌++◌, ◌∷◌, [], IfErr, IfOk, OnOk, Some, map, true};
ghost use Rattle.deck_run.specs.Opening.{AllHold, HasTracks, HaveTracks, are_open};
ghost use Rattle.subsystem_defs.specs.Decks.{plan_for};
ghost use Rattle.image_runner.specs.Answers.{IsFaultOfLine};
ghost use Rattle.image_runner.specs.Racks.{BeginsWhereTold, Holding, IsMountFault, firsts_by};
ghost use Rattle.image_runner.specs.Words.{path_for};

use crate::mounting::{MountFault, Refusal};
use crate::rack::{KeptVolume, Rack};
use crate::texts::write_waiting;
use crate::words::path_for;
use ckd_outside::{Failed, Sink};
use ckd_types::{DeviceNo, HEADS, TrackNo};
use deck_run::failing_of;
use deck_text::{Deck, DeviceLine};
use device_core::Device;
use device_outside::Volume;
use std::alloc::Global;
use subsystem_core::Subsystem;

/// The volume that a device begins with: in the image that the words name for it, or else an empty one.
fn open_volume<V: Volume, R: Rack<V>>(
    alloc: Global,
    deck: &Deck,
    words: &[&str],
    line: DeviceLine,
    rack: &mut R,
) -> Result<V, MountFault>
    requires { line.cylinders ≤ 64 }
    ensures same { R.holds rack.new ≡ R.holds rack.old }
    ensures tracks { IfOk result (λ v. HasTracks line (V.view v)) }
    ensures begins { IfOk result (λ v. BeginsWhereTold (R.holds rack.old) line (path_for (map (λ w. w.now) words.now) line.number)
        (plan_for deck.now.faults line.number) (V.view v)) }
    ensures fault { IfErr result (λ fault. IsMountFault line fault) }
{
    let reads = failing_of(alloc, deck, false, line.number)?;
    let writes = failing_of(alloc, deck, true, line.number)?;
    let volume = rack.open(alloc, line, path_for(words, line.number), &reads, &writes)?;
    Ok(volume)
}

fn add_volume<V: Volume, R: Rack<V>>(
    alloc: Global,
    deck: &Deck,
    words: &[&str],
    line: DeviceLine,
    rack: &mut R,
    volumes: &mut Vec<V>,
) -> Result<(), MountFault>
    requires { line.cylinders ≤ 64 }
    ensures same { R.holds rack.new ≡ R.holds rack.old }
    ensures added { OnOk result ((v : V) × (volumes.new.items ≡ volumes.old.items ++ v ∷ []) × HasTracks line (V.view v)
        × BeginsWhereTold (R.holds rack.old) line (path_for (map (λ w. w.now) words.now) line.number) (plan_for deck.now.faults line.number) (V.view v)) }
    ensures fault { IfErr result (λ fault. IsMountFault line fault) }
{
    let volume = open_volume(alloc, deck, words, line, rack)?;
    volumes.push(volume)?;
    Ok(())
}

/// The volumes of all devices, in the deck's order.
pub(crate) fn open_volumes<V: Volume, R: Rack<V>>(
    alloc: Global,
    deck: &Deck,
    words: &[&str],
    rack: &mut R,
) -> Result<Vec<V>, Refusal>
    requires { are_open deck.now.devices ≡ true }
    ensures same { R.holds rack.new ≡ R.holds rack.old }
    ensures tracks { IfOk result (λ vs. HaveTracks deck.now.devices (map V.view vs.items)) }
    ensures hold { IfOk result (λ vs. (holding : Holding) → R.holds rack.old ≡ Some holding
        → AllHold (firsts_by holding (map (λ w. w.now) words.now)) deck.now deck.now.devices (map V.view vs.items)) }
    ensures fault { IfErr result (λ r. IsFaultOfLine deck.now r) }
{
    let mut volumes = Vec::new(alloc);
    for i in 0..deck.device_count() {
        let line = deck.device_at(i);
        let device = line.number;
        match add_volume(alloc, deck, words, line, rack, &mut volumes) {
            Ok(()) => (),
            Err(fault) => return Err(Refusal { device, fault }),
        }
    }
    Ok(volumes)
}

/// Whether something was written to a device that isn't in its volume.
fn has_waiting<V: Volume>(device: &Device<V>) -> bool {
    if device.patched_count() > 0 {
        return true;
    }
    let tracks = device.cylinders() * HEADS;
    for n in 0..tracks {
        if device.modified(TrackNo::new(n).unwrap()) {
            return true;
        }
    }
    false
}

/// Tells which devices on images have tracks that wait. That this can't be told is told nowhere.
pub(crate) fn tell_waiting<V: Volume, N: Sink>(
    words: &[&str],
    devices: &[Device<V>],
    notes: &mut N,
) {
    for device in devices {
        let d = device.number();
        if path_for(words, d).is_some() && has_waiting(device) {
            let _told = write_waiting(notes, d);
        }
    }
}

fn flush_side<V: KeptVolume>(volume: Option<V>) -> Result<(), Failed> {
    match volume {
        Some(mut volume) => volume.flush(),
        None => Ok(()),
    }
}

/// Waits until what was written to the volumes of devices is where it outlives the run. Where one fails the others are waited for.
pub(crate) fn flush_all<V: KeptVolume>(sub: Subsystem<V>) -> Result<(), Failed> {
    let mut all = Ok(());
    let (_pool, devices) = sub.into_parts();
    for device in devices {
        let (a, b) = device.into_volumes();
        let flushed = flush_side(a).and(flush_side(b));
        all = all.and(flushed);
    }
    all
}
