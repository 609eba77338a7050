//! A device on a volume that holds something before its first event: what it gives of the moment when it began, and its far volume.

ghost use Rattle.std.specs.Prelude.{◌≡◌, ◌<◌, ◌≤◌, IfOk, length};

use crate::mirrors::{devices_on, mirror_to, runs};
use ckd_types::{DeviceNo, Geometry, PathNo, TrackNo};
use device_outside::{MemVolume, Volume};
use point_copy::{Given, Session};
use remote_copy::{Link, MemLink, MirrorState};
use std::alloc::Global;
use std::test::Fail;
use subsystem_defs::Event;
use track_image::TrackImage;

/// Track 0 as its volume holds it first: home address, record 0 with its data, end mark.
const HELD: &[u8] = &[
    0, 0, 0, 0, 0, 0, 0, 0, 0, 0, 0, 0, 8, 0xc1, 0xc2, 0xc3, 0xc4, 0xc5, 0xc6, 0xc7, 0xc8, 0xff,
    0xff, 0xff, 0xff, 0xff, 0xff, 0xff, 0xff,
];

/// Track 1, with two bytes of data in a record 1.
const BESIDE: &[u8] = &[
    0, 0, 0, 0, 1, 0, 0, 0, 1, 0, 0, 0, 8, 0, 0, 0, 0, 0, 0, 0, 0, 0, 0, 0, 1, 1, 0, 0, 2, 0xd1,
    0xd2, 0xff, 0xff, 0xff, 0xff, 0xff, 0xff, 0xff, 0xff,
];

/// Track 2, which is empty.
const EMPTY: &[u8] = &[
    0, 0, 0, 0, 2, 0, 0, 0, 2, 0, 0, 0, 8, 0, 0, 0, 0, 0, 0, 0, 0, 0xff, 0xff, 0xff, 0xff, 0xff,
    0xff, 0xff, 0xff,
];

/// Track 0 after the first program, which writes its record 0.
const WRITTEN: &[u8] = &[
    0, 0, 0, 0, 0, 0, 0, 0, 0, 0, 0, 0, 8, 0x11, 0x22, 0x33, 0x44, 0x55, 0x66, 0x77, 0x88, 0xff,
    0xff, 0xff, 0xff, 0xff, 0xff, 0xff, 0xff,
];

fn write(volume: &mut MemVolume, t: u16, bytes: &[u8]) -> Result<(), Fail>
    requires track { t < length volume.old.tracks }
    requires most { length bytes.now ≤ 65536 }
    ensures { length volume.new.tracks ≡ length volume.old.tracks }
{
    let track = TrackNo::new(t).ok_or("track")?;
    match volume.write_track(track, bytes) {
        Ok(()) => Ok(()),
        Err(_) => Err("not written".into()),
    }
}

/// The volume that holds them.
fn near(alloc: Global) -> Result<MemVolume, Fail>
    ensures { IfOk result (λ volume. length volume.tracks ≡ 15) }
{
    let mut volume = MemVolume::new(alloc, 1, &[], &[])?;
    write(&mut volume, 0, HELD)?;
    write(&mut volume, 1, BESIDE)?;
    Ok(volume)
}

fn put(alloc: Global, link: &mut MemLink, t: u16, bytes: &[u8]) -> Result<(), Fail> {
    let track = TrackNo::new(t).ok_or("track")?;
    let Ok(image) = TrackImage::from_bytes(alloc, Geometry::D3390, track, bytes) else {
        return Err("image".into());
    };
    if link.geometry() != Geometry::D3390 || usize::from(t) >= link.tracks() {
        return Err("link".into());
    }
    match link.put(track, &image) {
        Ok(()) => Ok(()),
        Err(_) => Err("not put".into()),
    }
}

/// A link to a far volume that holds them, of whose puts none fails.
fn far(alloc: Global) -> Result<MemLink, Fail> {
    let mut link = MemLink::new(alloc, Geometry::D3390, 1, &[])?;
    put(alloc, &mut link, 0, HELD)?;
    put(alloc, &mut link, 1, BESIDE)?;
    Ok(link)
}

/// Whether a far track has these bytes.
fn has(link: &MemLink, t: u16, bytes: &[u8]) -> Result<bool, Fail> {
    let track = TrackNo::new(t).ok_or("track")?;
    if usize::from(t) < link.tracks() {
        return Ok(link.track(track).bytes() == bytes);
    }
    Err("track".into())
}

/// Whether the next track that a session gives has these bytes.
fn gives(session: &mut Session<MemVolume>, t: u16, bytes: &[u8]) -> Result<bool, Fail> {
    match session.next()? {
        Given::Track(track, image) => Ok(track.get() == t && image.bytes() == bytes),
        _ => Err("no track".into()),
    }
}

fn start(session: &mut Session<MemVolume>, d: DeviceNo) -> Result<(), Fail> {
    let path = PathNo::new(1).ok_or("path")?;
    if session.subsystem().has_device(d) && session.event(Event::Start(path, d)).is_ok() {
        return Ok(());
    }
    Err("start".into())
}

fn step(session: &mut Session<MemVolume>, d: DeviceNo) -> Result<(), Fail> {
    if session.subsystem().has_device(d) && session.event(Event::Step(d)).is_ok() {
        return Ok(());
    }
    Err("step".into())
}

#[test]
fn a_far_volume_has_what_both_held_and_each_write(rt: HostRuntime) -> Result<(), Fail> {
    let alloc = rt.alloc();
    let d = DeviceNo::new(5).ok_or("device")?;
    let sub = devices_on(alloc, d, near(alloc)?)?;
    let mut mirror = mirror_to(sub, d, far(alloc)?)?;
    runs(&mut mirror, d)?;
    assert_eq!(rt; mirror.state(), MirrorState::Level);
    assert!(rt; has(mirror.link(), 0, WRITTEN)?);
    assert!(rt; has(mirror.link(), 1, BESIDE)?);
    assert!(rt; has(mirror.link(), 2, EMPTY)?);
    Ok(())
}

#[test]
fn a_copy_of_the_first_moment_is_what_the_volume_held(rt: HostRuntime) -> Result<(), Fail> {
    let alloc = rt.alloc();
    let d = DeviceNo::new(5).ok_or("device")?;
    let sub = devices_on(alloc, d, near(alloc)?)?;
    if !sub.has_device(d) {
        return Err("device".into());
    }
    let Ok(mut session) = Session::begin(alloc, sub, d) else {
        return Err("not begun".into());
    };
    start(&mut session, d)?;
    for _command in 0..3 {
        step(&mut session, d)?;
    }
    assert!(rt; gives(&mut session, 0, HELD)?);
    assert!(rt; gives(&mut session, 1, BESIDE)?);
    assert!(rt; gives(&mut session, 2, EMPTY)?);
    Ok(())
}
