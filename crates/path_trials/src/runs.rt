ghost use Rattle.std.specs.Prelude.{◌≡◌, All, IfOk, false, is_some};
ghost use Rattle.device_core.specs.State.{device_of};
ghost use Rattle.path_workers.specs.Keeping.{IsReady};
ghost use Rattle.path_trials.specs.Small.{IsNew, IsSmall};

use crate::EmptyVolume;
use ckd_ccw::Program;
use ckd_types::{Bytes, Ccw, DeviceNo, Geometry, PathNo, TrackNo};
use deck_plan::PathPlans;
use device_core::Device;
use device_outside::{Gate, MemVolume, NoGate};
use frame_pool::Pool;
use path_threads::{Order, Ran, run_paths};
use std::alloc::Global;
use std::sync::Wait;
use std::test::Fail;
use std::thread::Threads;

/// Define extent over cylinder 0.
const EXTENT: &[u8] = &[0x40, 0xc0, 0x10, 0, 0, 0, 0, 0, 0, 0, 0, 0, 0, 0, 0, 0x0e];

/// Locate record: one read of record 0 of track 0.
const READ_ZERO: &[u8] = &[6, 0, 0, 1, 0, 0, 0, 0, 0, 0, 0, 0, 0, 0, 0, 0];

pub(crate) fn word(
    alloc: Global,
    command: u8,
    flags: u8,
    count: u16,
    given: &[u8],
) -> Result<Ccw, Fail> {
    Ok(Ccw {
        command,
        flags,
        count,
        given: Bytes::from_slice(alloc, given)?,
    })
}

/// A program that reads eight bytes.
fn read(alloc: Global) -> Result<Program, Fail> {
    let mut words = Vec::new(alloc);
    words.push(word(alloc, 0x63, Ccw::CHAIN, 16, EXTENT)?)?;
    words.push(word(alloc, 0x47, Ccw::CHAIN, 16, READ_ZERO)?)?;
    words.push(word(alloc, 0x06, 0, 8, &[])?)?;
    Ok(Program::new(words).ok().ok_or("a word is bad")?)
}

/// Plans in which a path has so many programs that read.
fn add_reads(alloc: Global, plans: &mut PathPlans, path: u8, programs: usize) -> Result<(), Fail> {
    let path = PathNo::new(path).ok_or("path")?;
    for _ in 0..programs {
        if plans.len(path) < 65535 {
            plans.push(path, read(alloc)?)?;
        }
    }
    Ok(())
}

/// Plans in which one path has a program that reads.
pub(crate) fn one_read(alloc: Global, path: u8) -> Result<PathPlans, Fail> {
    let mut plans = PathPlans::new(alloc);
    add_reads(alloc, &mut plans, path, 1)?;
    Ok(plans)
}

/// A device with these plans, and which of its volume's writes fail.
pub(crate) fn device(
    alloc: Global,
    number: u8,
    plans: PathPlans,
    failing: &[u32],
) -> Result<Device<MemVolume>, Fail>
    ensures ready { IfOk result IsReady }
    ensures small { IfOk result IsSmall }
    ensures home { IfOk result (λ d. is_some (device_of d).store.lent ≡ false) }
{
    let number = DeviceNo::new(number).ok_or("device")?;
    let volume = MemVolume::new(alloc, 1, &[], failing)?;
    match Device::open(alloc, number, Geometry::D3390, 1, volume, plans) {
        Ok(device) => Ok(device),
        Err(_) => Err("no memory".into()),
    }
}

/// Device 0, a pair whose side B doesn't tell what it holds.
fn pair(alloc: Global, plans: PathPlans) -> Result<Device<MemVolume>, Fail>
    ensures ready { IfOk result IsReady }
    ensures small { IfOk result IsSmall }
{
    let track = TrackNo::new(0).ok_or("track")?;
    let mut volume = MemVolume::new(alloc, 1, &[], &[])?;
    volume.spoil(track, &[]);
    let mut device = device(alloc, 0, plans, &[])?;
    device.join_volume(volume);
    Ok(device)
}

/// That pair, with these plans.
pub(crate) fn pair_of(alloc: Global, plans: PathPlans) -> Result<Vec<Device<MemVolume>>, Fail>
    ensures ready { IfOk result (λ v. All IsReady v.items) }
    ensures small { IfOk result (λ v. All IsSmall v.items) }
{
    let mut devices = Vec::new(alloc);
    devices.push(pair(alloc, plans)?)?;
    Ok(devices)
}

/// Devices from 0 on with these plans.
pub(crate) fn devices_of(
    alloc: Global,
    plans: Vec<PathPlans>,
) -> Result<Vec<Device<MemVolume>>, Fail>
    ensures ready { IfOk result (λ v. All IsReady v.items) }
    ensures small { IfOk result (λ v. All IsSmall v.items) }
{
    let mut devices = Vec::new(alloc);
    let mut number = 0;
    for plan in plans {
        devices.push(device(alloc, number, plan, &[])?)?;
        number = number.saturating_add(1);
    }
    Ok(devices)
}

pub(crate) fn run<R: Threads + Wait + Sync, G: Gate + Sync>(
    rt: &R,
    alloc: Global,
    devices: Vec<Device<MemVolume>>,
    orders: Vec<Order<EmptyVolume>>,
    gate: &G,
) -> Result<Ran<MemVolume>, Fail>
    requires ready { All IsReady devices.items }
    requires small { All IsSmall devices.items }
    requires new { All IsNew orders.items }
{
    let pool = Pool::new(alloc, 4, 2)?;
    Ok(run_paths(rt, alloc, devices, pool, orders, gate)?)
}

/// Plans in which each path has so many programs that read.
pub(crate) fn reads(alloc: Global, programs: usize) -> Result<PathPlans, Fail> {
    let mut plans = PathPlans::new(alloc);
    for path in 1..5 {
        add_reads(alloc, &mut plans, path, programs)?;
    }
    Ok(plans)
}

#[test]
fn each_path_runs_its_programs_on_each_device(rt: HostRuntime) -> Result<(), Fail> {
    let alloc = rt.alloc();
    let mut plans = Vec::new(alloc);
    for _ in 0..3 {
        plans.push(reads(alloc, 20)?)?;
    }
    let devices = devices_of(alloc, plans)?;
    let ran = run(&rt, alloc, devices, Vec::new(alloc), &NoGate)?;
    assert_eq!(rt; ran.devices.len(), 3);
    for device in ran.devices.as_slice() {
        assert_eq!(rt; device.journal().len(), 80);
        assert!(rt; device.finished());
    }
    Ok(())
}
