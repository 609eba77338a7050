ghost use Rattle.std.specs.Prelude.{◌≡◌, ◌*◌, length, nat_lt};
ghost use Rattle.device_core.specs.State.{device_of};
ghost use Rattle.device_defs.specs.Store.{tracks_of};

use ckd_ccw::Program;
use ckd_types::{Bytes, Ccw, DeviceNo, Geometry, PathNo, TrackNo};
use deck_plan::PathPlans;
use device_core::Device;
use device_outside::MemVolume;
use frame_pool::Pool;
use remote_copy::{MemLink, Mirror, MirrorState, Remote};
use std::alloc::Global;
use std::test::Fail;
use subsystem_core::Subsystem;
use subsystem_defs::Event;
use track_looks::{Look, look};

/// Define extent over cylinder 0, where data may be updated.
const EXTENT: &[u8] = &[0x80, 0xc0, 0x10, 0, 0, 0, 0, 0, 0, 0, 0, 0, 0, 0, 0, 0x0e];

/// Locate record: one write of record 0 of track 0.
const LOCATE: &[u8] = &[1, 0, 0, 1, 0, 0, 0, 0, 0, 0, 0, 0, 0, 0, 0, 0];

/// What is written first, and then.
const FIRST: &[u8] = &[0x11, 0x22, 0x33, 0x44, 0x55, 0x66, 0x77, 0x88];

const SECOND: &[u8] = &[0xaa, 0xbb, 0xcc, 0xdd, 0xee, 0xff, 0x00, 0x11];

/// More calls than it takes to copy all tracks twice, with a fault between.
const MOST_CALLS: u32 = 40;

fn word(alloc: Global, command: u8, flags: u8, count: u16, given: &[u8]) -> Result<Ccw, Fail> {
    Ok(Ccw {
        command,
        flags,
        count,
        given: Bytes::from_slice(alloc, given)?,
    })
}

/// It writes record 0 of track 0.
fn program(alloc: Global, data: &[u8]) -> Result<Program, Fail> {
    let mut words = Vec::new(alloc);
    words.push(word(alloc, 0x63, Ccw::CHAIN, 16, EXTENT)?)?;
    words.push(word(alloc, 0x47, Ccw::CHAIN, 16, LOCATE)?)?;
    words.push(word(alloc, 0x85, 0, 8, data)?)?;
    Ok(Program::new(words).ok().ok_or("word")?)
}

/// Devices, of which one has this volume of a cylinder, and on path 1 two programs.
pub(crate) fn devices_on(
    alloc: Global,
    d: DeviceNo,
    volume: MemVolume,
) -> Result<Subsystem<MemVolume>, Fail>
    requires { length volume.tracks ≡ 15 }
{
    let path = PathNo::new(1).ok_or("path")?;
    let mut plans = PathPlans::new(alloc);
    plans.push(path, program(alloc, FIRST)?)?;
    plans.push(path, program(alloc, SECOND)?)?;
    let Ok(device) = Device::open(alloc, d, Geometry::D3390, 1, volume, plans) else {
        return Err("memory".into());
    };
    let mut all = Vec::new(alloc);
    all.push(device)?;
    Ok(Subsystem::new(Pool::new(alloc, 1, 1)?, all)?)
}

/// The same over an empty volume.
fn devices(alloc: Global, d: DeviceNo) -> Result<Subsystem<MemVolume>, Fail> {
    let volume = MemVolume::new(alloc, 1, &[], &[])?;
    devices_on(alloc, d, volume)
}

/// A mirror of a device of one cylinder to which nothing has happened, over a link of a far volume that holds what it does.
pub(crate) fn mirror_to(
    sub: Subsystem<MemVolume>,
    d: DeviceNo,
    link: MemLink,
) -> Result<Mirror<MemVolume, MemLink>, Fail> {
    if !sub.has_device(d) {
        return Err("device".into());
    }
    let device = sub.device(d);
    let used = !device.journal().is_empty() || device.active().is_some();
    if used || device.lent_to().is_some() {
        return Err("used".into());
    }
    let tracks = usize::from(device.cylinders()) * 15;
    if link.geometry() != device.geometry() || link.tracks() != tracks {
        return Err("link".into());
    }
    Ok(Mirror::new(sub, d, link))
}

/// A mirror of that device on an empty volume, over a link of which these puts fail.
fn mirrored(alloc: Global, d: DeviceNo, fail: &[u32]) -> Result<Mirror<MemVolume, MemLink>, Fail> {
    let sub = devices(alloc, d)?;
    let link = MemLink::new(alloc, Geometry::D3390, 1, fail)?;
    mirror_to(sub, d, link)
}

fn start(mirror: &mut Mirror<MemVolume, MemLink>, d: DeviceNo) -> Result<(), Fail> {
    let path = PathNo::new(1).ok_or("path")?;
    if mirror.subsystem().has_device(d) && mirror.event(Event::Start(path, d)).is_ok() {
        return Ok(());
    }
    Err("start".into())
}

fn step(mirror: &mut Mirror<MemVolume, MemLink>, d: DeviceNo) -> Result<(), Fail> {
    if mirror.subsystem().has_device(d) && mirror.event(Event::Step(d)).is_ok() {
        return Ok(());
    }
    Err("step".into())
}

/// One program of three commands.
pub(crate) fn runs(mirror: &mut Mirror<MemVolume, MemLink>, d: DeviceNo) -> Result<(), Fail> {
    start(mirror, d)?;
    step(mirror, d)?;
    step(mirror, d)?;
    step(mirror, d)
}

/// The same events of devices without a mirror.
fn near(alloc: Global, d: DeviceNo) -> Result<Subsystem<MemVolume>, Fail> {
    let path = PathNo::new(1).ok_or("path")?;
    let mut sub = devices(alloc, d)?;
    let once = [
        Event::Start(path, d),
        Event::Step(d),
        Event::Step(d),
        Event::Step(d),
    ];
    for _program in 0..2 {
        if !sub.may_all_come(&once) {
            return Err("event".into());
        }
        sub.run(alloc, &once)?;
    }
    Ok(sub)
}

fn has_track(device: &Device<MemVolume>, t: TrackNo) -> bool
    ensures { result ≡ nat_lt t (tracks_of (device_of device.now).store) }
{
    t.get() < device.cylinders() * 15
}

/// Whether a far track is the near one.
fn is_same(
    alloc: Global,
    near: &mut Subsystem<MemVolume>,
    d: DeviceNo,
    link: &MemLink,
    t: TrackNo,
) -> Result<bool, Fail> {
    if !near.has_device(d) {
        return Err("device".into());
    }
    if has_track(near.device(d), t) && usize::from(t.get()) < link.tracks() {
        return match look(alloc, near, d, t)? {
            Look::Track(image) => Ok(link.track(t).bytes() == image.bytes()),
            _ => Err("look".into()),
        };
    }
    Err("track".into())
}

/// Whether all tracks are that are copied so far.
fn is_copied(
    alloc: Global,
    near: &mut Subsystem<MemVolume>,
    d: DeviceNo,
    mirror: &Mirror<MemVolume, MemLink>,
) -> Result<bool, Fail> {
    let below = match mirror.state() {
        MirrorState::Level => 15,
        MirrorState::Suspended { .. } => 0,
        MirrorState::Copying { below } => below,
    };
    for t in 0..below {
        let t = TrackNo::new(t).ok_or("track")?;
        if !is_same(alloc, near, d, mirror.link(), t)? {
            return Ok(false);
        }
    }
    Ok(true)
}

/// Copies until the far volume is level, and tells how many calls there were and how many failed.
fn levels(
    alloc: Global,
    near: &mut Subsystem<MemVolume>,
    d: DeviceNo,
    mirror: &mut Mirror<MemVolume, MemLink>,
) -> Result<(u32, u32), Fail> {
    let mut faults = 0u32;
    for calls in 0..MOST_CALLS {
        if matches!(mirror.state(), MirrorState::Level) {
            return Ok((calls, faults));
        }
        match mirror.copy_one()? {
            Remote::Copied(_) => (),
            Remote::LinkFault => faults = faults.wrapping_add(1),
            _ => return Err("copy".into()),
        }
        if !is_copied(alloc, near, d, mirror)? {
            return Err("far".into());
        }
    }
    Err("calls".into())
}

#[test]
fn a_link_that_fails_at_each_put_is_copied_level_again(rt: HostRuntime) -> Result<(), Fail> {
    let alloc = rt.alloc();
    let d = DeviceNo::new(5).ok_or("device")?;
    let mut near = near(alloc, d)?;
    for put in 2..18u32 {
        let mut mirror = mirrored(alloc, d, &[1, put])?;
        runs(&mut mirror, d)?;
        assert_eq!(rt; mirror.state(), MirrorState::Suspended { sent: 0 });
        runs(&mut mirror, d)?;
        assert_eq!(rt; mirror.state(), MirrorState::Suspended { sent: 0 });
        let (calls, faults) = levels(alloc, &mut near, d, &mut mirror)?;
        assert_eq!(rt; faults, if put < 17 { 1 } else { 0 });
        assert_eq!(rt; calls, if put < 17 { put + 14 } else { 15 });
    }
    Ok(())
}

#[test]
fn fifteen_calls_copy_a_cylinder(rt: HostRuntime) -> Result<(), Fail> {
    let alloc = rt.alloc();
    let d = DeviceNo::new(5).ok_or("device")?;
    let mut mirror = mirrored(alloc, d, &[1])?;
    runs(&mut mirror, d)?;
    runs(&mut mirror, d)?;
    for n in 0..15u16 {
        let t = TrackNo::new(n).ok_or("track")?;
        assert_eq!(rt; mirror.copy_one()?, Remote::Copied(t));
    }
    assert_eq!(rt; mirror.state(), MirrorState::Level);
    assert_eq!(rt; mirror.copy_one()?, Remote::Idle);
    Ok(())
}

#[test]
fn a_level_far_volume_has_each_write(rt: HostRuntime) -> Result<(), Fail> {
    let alloc = rt.alloc();
    let d = DeviceNo::new(5).ok_or("device")?;
    let mut near = near(alloc, d)?;
    let mut mirror = mirrored(alloc, d, &[])?;
    runs(&mut mirror, d)?;
    runs(&mut mirror, d)?;
    assert_eq!(rt; mirror.state(), MirrorState::Level);
    assert!(rt; is_copied(alloc, &mut near, d, &mirror)?);
    Ok(())
}
