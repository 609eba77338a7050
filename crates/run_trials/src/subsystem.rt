use ckd_ccw::Program;
use ckd_types::{Bytes, Ccw, DeviceNo, Geometry, PathNo, TrackNo};
use deck_plan::PathPlans;
use device_core::Device;
use device_outside::MemVolume;
use frame_pool::Pool;
use plain_defs::{How, Item};
use std::alloc::Global;
use std::test::Fail;
use subsystem_core::Subsystem;
use subsystem_defs::Event;

/// Define extent over cylinder 0.
const EXTENT: &[u8] = &[0x40, 0xc0, 0x10, 0, 0, 0, 0, 0, 0, 0, 0, 0, 0, 0, 0, 0x0e];

/// Locate record: one read of record 0 of track 0.
const LOCATE: &[u8] = &[6, 0, 0, 1, 0, 0, 0, 0, 0, 0, 0, 0, 0, 0, 0, 0];

pub(crate) fn word(
    alloc: Global,
    command: u8,
    flags: u8,
    count: u16,
    given: &[u8],
) -> Result<Ccw, Fail> {
    Ok(Ccw {
        command,
        flags,
        count,
        given: Bytes::from_slice(alloc, given)?,
    })
}

/// It reads record 0 of track 0.
fn read(alloc: Global) -> Result<Program, Fail> {
    let mut words = Vec::new(alloc);
    words.push(word(alloc, 0x63, Ccw::CHAIN, 16, EXTENT)?)?;
    words.push(word(alloc, 0x47, Ccw::CHAIN, 16, LOCATE)?)?;
    words.push(word(alloc, 0x06, 0, 8, &[])?)?;
    Ok(Program::new(words).ok().ok_or("word")?)
}

/// Path 1 has one program.
fn plans(alloc: Global) -> Result<PathPlans, Fail> {
    let path = PathNo::new(1).ok_or("path")?;
    let mut plans = PathPlans::new(alloc);
    plans.push(path, read(alloc)?)?;
    Ok(plans)
}

/// A device of one cylinder, over this volume.
fn device(
    alloc: Global,
    d: DeviceNo,
    volume: MemVolume,
    plans: PathPlans,
) -> Result<Device<MemVolume>, Fail> {
    if volume.len() != 15 {
        return Err("volume".into());
    }
    match Device::open(alloc, d, Geometry::D3390, 1, volume, plans) {
        Ok(device) => Ok(device),
        Err(_) => Err("memory".into()),
    }
}

pub(crate) fn subsystem(
    alloc: Global,
    d: DeviceNo,
    volume: MemVolume,
    plans: PathPlans,
) -> Result<Subsystem<MemVolume>, Fail> {
    let mut devices = Vec::new(alloc);
    devices.push(device(alloc, d, volume, plans)?)?;
    Ok(Subsystem::new(Pool::new(alloc, 1, 1)?, devices)?)
}

fn device_of(sub: &Subsystem<MemVolume>, d: DeviceNo) -> Result<&Device<MemVolume>, Fail> {
    if sub.has_device(d) {
        return Ok(sub.device(d));
    }
    Err("device".into())
}

/// The status and residual count of the end of the command that ended last, and its sense byte 0.
fn last_end(sub: &Subsystem<MemVolume>, d: DeviceNo) -> Result<(u8, u16, Option<u8>), Fail> {
    let end = device_of(sub, d)?.last_end().ok_or("end")?;
    let sense = end.sense.as_ref().map(|s| s.bytes()[0]);
    Ok((end.status.0, end.residual, sense))
}

/// Whether a device's journal is one program that was checked.
fn was_checked(sub: &Subsystem<MemVolume>, d: DeviceNo) -> Result<bool, Fail> {
    match device_of(sub, d)?.journal() {
        [Item::Program(entry)] => Ok(matches!(entry.how, How::Checked)),
        _ => Ok(false),
    }
}

/// Events one after another, as long as they may come.
fn ends_of(
    alloc: Global,
    sub: &mut Subsystem<MemVolume>,
    events: &[Event],
) -> Result<Option<usize>, Fail> {
    if sub.may_all_come(events) {
        return Ok(Some(sub.run(alloc, events)?.len()));
    }
    Ok(None)
}

#[test]
fn bytes_that_are_no_track_end_a_command_with_data_check(rt: HostRuntime) -> Result<(), Fail> {
    let alloc = rt.alloc();
    let d = DeviceNo::new(5).ok_or("device")?;
    let path = PathNo::new(1).ok_or("path")?;
    let t = TrackNo::new(0).ok_or("track")?;
    let mut volume = MemVolume::new(alloc, 1, &[], &[])?;
    volume.spoil(t, &[0; 3]);
    let mut sub = subsystem(alloc, d, volume, plans(alloc)?)?;
    let events = [Event::Start(path, d), Event::Step(d), Event::Step(d)];
    assert_eq!(rt; ends_of(alloc, &mut sub, &events)?, Some(3));
    assert_eq!(rt; last_end(&sub, d)?, (0x0e, 16, Some(8)));
    assert!(rt; was_checked(&sub, d)?);
    assert_eq!(rt; device_of(&sub, d)?.lost().len(), 0);
    Ok(())
}

#[test]
fn events_come_one_after_another(rt: HostRuntime) -> Result<(), Fail> {
    let alloc = rt.alloc();
    let d = DeviceNo::new(5).ok_or("device")?;
    let path = PathNo::new(1).ok_or("path")?;
    let volume = MemVolume::new(alloc, 1, &[], &[])?;
    let mut sub = subsystem(alloc, d, volume, plans(alloc)?)?;
    let events = [
        Event::Start(path, d),
        Event::Step(d),
        Event::Step(d),
        Event::Step(d),
    ];
    assert_eq!(rt; ends_of(alloc, &mut sub, &events)?, Some(4));
    assert_eq!(rt; last_end(&sub, d)?, (0x0c, 0, None));
    let (_pool, devices) = sub.into_parts();
    assert_eq!(rt; devices.len(), 1);
    Ok(())
}

/// Plans a program for a path, runs it and forgets it.
fn plan_run_forget(
    alloc: Global,
    sub: &mut Subsystem<MemVolume>,
    d: DeviceNo,
    path: PathNo,
) -> Result<(), Fail> {
    if !sub.has_device(d) {
        return Err("device".into());
    }
    if sub.plan(d, path, read(alloc)?).is_err() {
        return Err("not planned".into());
    }
    let events = [
        Event::Start(path, d),
        Event::Step(d),
        Event::Step(d),
        Event::Step(d),
    ];
    if ends_of(alloc, sub, &events)? != Some(4) {
        return Err("ends".into());
    }
    if last_end(sub, d)? != (0x0c, 0, None) {
        return Err("not read".into());
    }
    if !sub.has_device(d) || sub.forget(d).is_err() {
        return Err("not forgotten".into());
    }
    Ok(())
}

#[test]
fn a_subsystem_plans_and_forgets(rt: HostRuntime) -> Result<(), Fail> {
    let alloc = rt.alloc();
    let d = DeviceNo::new(5).ok_or("device")?;
    let path = PathNo::new(1).ok_or("path")?;
    let volume = MemVolume::new(alloc, 1, &[], &[])?;
    let mut sub = subsystem(alloc, d, volume, PathPlans::new(alloc))?;
    for _program in 0..300 {
        plan_run_forget(alloc, &mut sub, d, path)?;
    }
    let device = device_of(&sub, d)?;
    assert_eq!(rt; device.journal().len(), 1);
    assert_eq!(rt; (device.started(path), device.left(path)), (1, 0));
    Ok(())
}
