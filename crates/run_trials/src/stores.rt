ghost use Rattle.std.specs.Prelude.{◌≡◌, ◌*◌, nat_lt};

use ckd_types::{DeviceNo, Geometry, Mode, Side, TrackNo};
use device_defs::{Did, Usage};
use device_outside::{MemVolume, NoFrames, NoKeep};
use device_store::{DeviceStore, Peeked};
use loss_model::Loss;
use std::alloc::Global;
use std::test::Fail;

/// Device 3 of one cylinder.
fn opened(alloc: Global) -> Result<DeviceStore<MemVolume>, Fail> {
    let number = DeviceNo::new(3).ok_or("device")?;
    let volume = MemVolume::new(alloc, 1, &[], &[])?;
    if volume.len() != 15 {
        return Err("volume".into());
    }
    match DeviceStore::open(alloc, number, Geometry::D3390, 1, volume) {
        Ok(store) => Ok(store),
        Err(_) => Err("memory".into()),
    }
}

fn has_track(store: &DeviceStore<MemVolume>, t: TrackNo) -> bool
    ensures { result ≡ nat_lt t (store.now.cylinders * 15) }
{
    t.get() < store.cylinders * 15
}

/// A command looks at a track in sequential mode; the last one of its extent is the last to be staged.
fn look(
    store: &mut DeviceStore<MemVolume>,
    t: TrackNo,
    last: TrackNo,
    port: &mut NoFrames,
) -> Result<(), Fail> {
    if !has_track(store, t) {
        return Err("track".into());
    }
    if !has_track(store, last) {
        return Err("last".into());
    }
    let usage = Usage {
        mode: Mode::Sequential,
        inhibit: false,
        last: Some(last),
        provisional: false,
    };
    store.image(&usage, t, port, &mut NoKeep)?;
    Ok(())
}

/// Work in the background, while no write is half done.
fn work(store: &mut DeviceStore<MemVolume>, port: &mut NoFrames) -> Result<Did, Fail> {
    match store.half {
        Some(_) => return Err("half".into()),
        None => (),
    }
    Ok(store.background(port, &mut NoKeep)?)
}

fn peeked(
    store: &mut DeviceStore<MemVolume>,
    t: TrackNo,
    port: &mut NoFrames,
) -> Result<Peeked, Fail> {
    if !has_track(store, t) {
        return Err("track".into());
    }
    Ok(store.peek(t, port, &mut NoKeep)?)
}

fn has_image(
    store: &mut DeviceStore<MemVolume>,
    t: TrackNo,
    port: &mut NoFrames,
) -> Result<bool, Fail> {
    let seen = peeked(store, t, port)?;
    Ok(matches!(seen, Peeked::Track(_)))
}

fn is_lost(
    store: &mut DeviceStore<MemVolume>,
    t: TrackNo,
    port: &mut NoFrames,
) -> Result<bool, Fail> {
    let seen = peeked(store, t, port)?;
    Ok(matches!(seen, Peeked::Lost))
}

/// Whether the track behind the first one is skipped, since it gets no frame, and nothing is left to do then; whether the first one
/// has its image, and is lost behind the loss of the volume.
fn staged(store: &mut DeviceStore<MemVolume>) -> Result<[bool; 4], Fail> {
    let mut port = NoFrames::new();
    let third = TrackNo::new(3).ok_or("track")?;
    let fourth = TrackNo::new(4).ok_or("track")?;
    look(store, third, fourth, &mut port)?;
    let first = work(store, &mut port)?;
    let second = work(store, &mut port)?;
    let has = has_image(store, third, &mut port)?;
    store.lose(Loss::Side(Side::A), &mut NoKeep);
    let lost = is_lost(store, third, &mut port)?;
    Ok([
        first == Did::Skipped(fourth),
        second == Did::Nothing,
        has,
        lost,
    ])
}

#[test]
fn a_queued_track_is_staged(rt: HostRuntime) -> Result<(), Fail> {
    let mut store = opened(rt.alloc())?;
    assert_eq!(rt; staged(&mut store)?, [true; 4]);
    Ok(())
}
