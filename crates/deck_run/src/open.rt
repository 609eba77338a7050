ghost use Rattle.std.specs.Prelude.{◌≡◌, ◌≤◌, ◌+◌, [], IfOk, OnOk, length, map, true};
ghost use Rattle.device_outside.specs.Disk.{disk_view};
ghost use Rattle.device_outside.specs.Pool as pools;
ghost use Rattle.subsystem_core.specs.Devices.{numbers_of};
ghost use Rattle.subsystem_defs.specs.Decks.{Firsts, empty_firsts, failing_of, is_same, opened, opened_device_on, opened_on};
ghost use Rattle.subsystem_laws.specs.WholeStood.{AreMounted, IsMounted};
ghost use Rattle.deck_run.specs.Opening.{AllHold, HasTracks, HaveTracks, HoldsFirst, are_open, is_open_device, numbers_in};
ghost use Rattle.device_core.specs.State.{device_of};
ghost use Rattle.deck_run.specs.Owning.{AllOwn, AreOwn, IsOwn};
ghost use Rattle.deck_run.specs.Sides.{AllFresh, IsFresh};
ghost use Rattle.deck_run.specs.Standing.{StandsAs, all_stood, stood_of};
ghost use Rattle.deck_run.specs.Unused.{AreUnused, IsUnused};

use ckd_types::{DeviceNo, NoMemory};
use deck_text::{Deck, DeviceLine};
use device_core::{Device, plans_give};
use device_outside::{MemBay, MemVolume, Volume};
use frame_pool::Pool;
use std::alloc::Global;
use subsystem_core::Subsystem;

fn is_same(a: bool, b: bool) -> bool
    ensures { result ≡ is_same a b }
{
    if a { b } else { !b }
}

/// Which calls of a device's volume fail by the deck: the numbers of its FAULT lines of this kind, in the order of the deck.
#[tactic(auto, using(crate::proofs::Lines::failing_more, crate::proofs::Lines::failing_none))]
pub fn failing_of(
    alloc: Global,
    deck: &Deck,
    write: bool,
    d: DeviceNo,
) -> Result<Vec<u32>, NoMemory>
    ensures { IfOk result (λ calls. calls.items ≡ failing_of write d deck.now.faults) }
{
    let mut calls = Vec::new(alloc);
    for i in 0..deck.fault_count() {
        let fault = deck.fault_at(i);
        if fault.device == d && is_same(fault.write, write) {
            calls.push(fault.call)?;
        }
    }
    Ok(calls)
}

/// The volume of a DEVICE line, with the failing calls of its FAULT lines.
fn make_volume(
    alloc: Global,
    deck: &Deck,
    bay: &mut MemBay,
    line: DeviceLine,
) -> Result<MemVolume, NoMemory>
    requires { is_open_device line ≡ true }
    ensures tracks { IfOk result (λ volume. HasTracks line (disk_view volume)) }
    ensures holds { bay.old.spoiled ≡ [] → IfOk result (λ volume. HoldsFirst empty_firsts deck.now line (disk_view volume)) }
    ensures made { OnOk result (bay.new.made ≡ bay.old.made + 1) }
    ensures spoiled { bay.new.spoiled ≡ bay.old.spoiled }
    ensures taken { bay.new.taken ≡ bay.old.taken }
{
    let reads = failing_of(alloc, deck, false, line.number)?;
    let writes = failing_of(alloc, deck, true, line.number)?;
    let volume = bay.make(alloc, line.number, line.cylinders, &reads, &writes)?;
    Ok(volume)
}

/// A volume for each device of a deck, in its order.
pub(crate) fn make_volumes(
    alloc: Global,
    deck: &Deck,
    bay: &mut MemBay,
) -> Result<Vec<MemVolume>, NoMemory>
    requires { are_open deck.now.devices ≡ true }
    ensures tracks { IfOk result (λ volumes. HaveTracks deck.now.devices (map disk_view volumes.items)) }
    ensures holds { bay.old.spoiled ≡ []
        → IfOk result (λ volumes. AllHold empty_firsts deck.now deck.now.devices (map disk_view volumes.items)) }
    ensures made { OnOk result (bay.new.made ≡ bay.old.made + length deck.now.devices) }
    ensures spoiled { bay.new.spoiled ≡ bay.old.spoiled }
    ensures taken { bay.new.taken ≡ bay.old.taken }
{
    let mut volumes = Vec::new(alloc);
    for i in 0..deck.device_count() {
        volumes.push(make_volume(alloc, deck, bay, deck.device_at(i))?)?;
    }
    Ok(volumes)
}

/// The device of a DEVICE line, on its volume.
fn open_device<V: Volume>(
    alloc: Global,
    deck: &Deck,
    line: DeviceLine,
    volume: V,
) -> Result<Device<V>, NoMemory>
    requires line { is_open_device line ≡ true }
    requires tracks { HasTracks line (V.view volume) }
    ensures number { IfOk result (λ made. (device_of made).store.device ≡ line.number) }
    ensures mounted { (firsts : Firsts) → HoldsFirst firsts deck.now line (V.view volume)
        → IfOk result (λ made. IsMounted [] (stood_of made) (opened_device_on firsts deck.now line)) }
    ensures own { IfOk result (λ made. IsOwn (device_of made)) }
    ensures fresh { IfOk result (λ made. IsFresh made) }
    ensures unused { IfOk result (λ made. IsUnused made) }
{
    let plans = deck.plans(line.number).copy(alloc)?;
    plans_give(&plans);
    match Device::open(
        alloc,
        line.number,
        line.geometry,
        line.cylinders,
        volume,
        plans,
    ) {
        Ok(made) => Ok(made),
        Err((NoMemory, _, _)) => Err(NoMemory),
    }
}

fn open_devices<V: Volume>(
    alloc: Global,
    deck: &Deck,
    mut volumes: Vec<V>,
) -> Result<Vec<Device<V>>, NoMemory>
    requires devices { are_open deck.now.devices ≡ true }
    requires tracks { HaveTracks deck.now.devices (map V.view volumes.items) }
    ensures numbers { IfOk result (λ made. numbers_of made.items ≡ numbers_in deck.now.devices) }
    ensures mounted { (p : pools.Pool) (firsts : Firsts) → AllHold firsts deck.now deck.now.devices (map V.view volumes.items)
        → IfOk result (λ made. AreMounted p (all_stood made.items) (map (opened_device_on firsts deck.now) deck.now.devices)) }
    ensures own { IfOk result (λ made. AllOwn made.items) }
    ensures fresh { IfOk result (λ made. AllFresh made.items) }
    ensures unused { IfOk result (λ made. AreUnused made.items) }
{
    let mut made = Vec::new(alloc);
    for i in 0..deck.device_count() {
        let line = deck.device_at(i);
        let volume = volumes.remove(0);
        made.push(open_device(alloc, deck, line, volume)?)?;
    }
    Ok(made)
}

/// The devices of a deck, each on its volume, which come in the deck's order, and the pool of its CACHE and STORE lines. A FAULT line makes
/// no call fail here: the volumes fail those calls, or none.
pub fn open_on<V: Volume>(
    alloc: Global,
    deck: &Deck,
    volumes: Vec<V>,
) -> Result<Subsystem<V>, NoMemory>
    requires devices { are_open deck.now.devices ≡ true }
    requires tracks { HaveTracks deck.now.devices (map V.view volumes.items) }
    ensures stands { (firsts : Firsts) → AllHold firsts deck.now deck.now.devices (map V.view volumes.items)
        → IfOk result (λ made. StandsAs made (opened_on firsts deck.now)) }
    ensures numbers { IfOk result (λ made. numbers_of made.devices.items ≡ numbers_in deck.now.devices) }
    ensures own { IfOk result (λ made. AreOwn made.devices.items) }
    ensures unused { IfOk result (λ made. AreUnused made.devices.items) }
{
    let devices = open_devices(alloc, deck, volumes)?;
    let pool = Pool::new(alloc, deck.frames(), deck.slots())?;
    let made = Subsystem::new(pool, devices)?;
    Ok(made)
}

/// The devices of a deck on volumes that the bay makes, each with the failing calls of its FAULT lines, and the pool of its CACHE and
/// STORE lines. Where memory is lacking the bay may have made some of them.
pub fn open_deck(
    alloc: Global,
    deck: &Deck,
    bay: &mut MemBay,
) -> Result<Subsystem<MemVolume>, NoMemory>
    requires { are_open deck.now.devices ≡ true }
    ensures stands { bay.old.spoiled ≡ [] → IfOk result (λ made. StandsAs made (opened deck.now)) }
    ensures numbers { IfOk result (λ made. numbers_of made.devices.items ≡ numbers_in deck.now.devices) }
    ensures own { IfOk result (λ made. AreOwn made.devices.items) }
    ensures made { OnOk result (bay.new.made ≡ bay.old.made + length deck.now.devices) }
    ensures spoiled { bay.new.spoiled ≡ bay.old.spoiled }
    ensures taken { bay.new.taken ≡ bay.old.taken }
{
    let volumes = make_volumes(alloc, deck, bay)?;
    let made = open_on(alloc, deck, volumes)?;
    Ok(made)
}
