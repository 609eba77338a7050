ghost use Rattle.std.specs.Prelude.{◌≡◌, IfOk, length};

use crate::{CountedRequests, OneCylinder, run_program};
use ckd_ccw::Program;
use ckd_types::{Bytes, Ccw, DeviceNo, Geometry, HEADS, PathNo, TrackNo};
use deck_plan::PathPlans;
use device_core::Device;
use device_outside::{MemVolume, Volume};
use std::alloc::Global;
use std::test::Fail;

/// The cylinders of a 3390-3, of which 3,338 is the last one: 0D0A.
const CYLINDERS: u16 = 3339;

/// Head 0 of the last cylinder as it is first: home address, record 0, end mark.
const EMPTY: &[u8] = &[
    0, 0x0d, 0x0a, 0, 0, 0x0d, 0x0a, 0, 0, 0, 0, 0, 8, 0, 0, 0, 0, 0, 0, 0, 0, 0xff, 0xff, 0xff,
    0xff, 0xff, 0xff, 0xff, 0xff,
];

/// Define extent over the last cylinder: format writes are permitted.
const EXTENT: &[u8] = &[
    0xc0, 0xc0, 0x10, 0, 0, 0, 0, 0, 0x0d, 0x0a, 0, 0, 0x0d, 0x0a, 0, 0x0e,
];

/// Define extent up to the cylinder behind it.
const PAST_END: &[u8] = &[
    0xc0, 0xc0, 0x10, 0, 0, 0, 0, 0, 0x0d, 0x0a, 0, 0, 0x0d, 0x0b, 0, 0,
];

/// Locate record: one format write behind record 0 of head 0, and one read of record 1.
const FORMAT_ONE: &[u8] = &[3, 0, 0, 1, 0x0d, 0x0a, 0, 0, 0x0d, 0x0a, 0, 0, 0, 0, 0, 0];

const READ_ONE: &[u8] = &[6, 0, 0, 1, 0x0d, 0x0a, 0, 0, 0x0d, 0x0a, 0, 0, 1, 0, 0, 0];

/// The count area of record 1, no key and four bytes of data, and these.
const RECORD_ONE: &[u8] = &[0x0d, 0x0a, 0, 0, 1, 0, 0, 4, 0xc3, 0xd2, 0xc4, 0x40];

/// Its data, as the second program reads it.
const DATA: &[u8] = &[0xc3, 0xd2, 0xc4, 0x40];

fn word(alloc: Global, command: u8, flags: u8, count: u16, given: &[u8]) -> Result<Ccw, Fail> {
    Ok(Ccw {
        command,
        flags,
        count,
        given: Bytes::from_slice(alloc, given)?,
    })
}

/// A channel program of three words: define extent, locate record, and one command in its domain.
fn program(alloc: Global, extent: &[u8], locate: &[u8], last: Ccw) -> Result<Program, Fail> {
    let mut words = Vec::new(alloc);
    words.push(word(alloc, 0x63, Ccw::CHAIN, 16, extent)?)?;
    words.push(word(alloc, 0x47, Ccw::CHAIN, 16, locate)?)?;
    words.push(last)?;
    Ok(Program::new(words).ok().ok_or("a word is bad")?)
}

/// A volume of a 3390-3 whose last cylinder is kept.
fn volume(alloc: Global) -> Result<OneCylinder<MemVolume>, Fail>
    ensures { IfOk result (λ v. v.tracks ≡ 50085) }
{
    let mut inner = MemVolume::new(alloc, 1, &[], &[])?;
    let track = TrackNo::new(0).ok_or("track")?;
    match inner.write_track(track, EMPTY) {
        Ok(()) => Ok(OneCylinder {
            inner,
            tracks: usize::from(CYLINDERS * HEADS),
        }),
        Err(_) => Err("not written".into()),
    }
}

fn open(alloc: Global) -> Result<Device<OneCylinder<MemVolume>>, Fail> {
    let number = DeviceNo::new(5).ok_or("device")?;
    let plans = PathPlans::new(alloc);
    match Device::open(
        alloc,
        number,
        Geometry::D3390,
        CYLINDERS,
        volume(alloc)?,
        plans,
    ) {
        Ok(device) => Ok(device),
        Err(_) => Err("no memory".into()),
    }
}

fn expect(is_so: bool, what: &'static str) -> Result<(), Fail> {
    match is_so {
        true => Ok(()),
        false => Err(what.into()),
    }
}

/// Plans a program for the path, starts it and runs it.
fn plan_and_run(
    device: &mut Device<OneCylinder<MemVolume>>,
    path: PathNo,
    program: Program,
    port: &mut CountedRequests,
) -> Result<(), Fail> {
    match device.plan(path, program) {
        Ok(()) => (),
        Err(_) => return Err("not planned".into()),
    }
    if device.active().is_some() {
        return Err("another program runs".into());
    }
    match device.start(path) {
        Ok(_) => (),
        Err(_) => return Err("not started".into()),
    }
    match run_program(device, port, 4) {
        Ok(true) => Ok(()),
        _ => Err("not over".into()),
    }
}

/// A record is formatted on the last cylinder and read back; an extent up to the cylinder behind it is refused.
fn run_all(
    device: &mut Device<OneCylinder<MemVolume>>,
    alloc: Global,
    path: PathNo,
    port: &mut CountedRequests,
) -> Result<(), Fail> {
    let format = word(alloc, 0x1d, 0, 12, RECORD_ONE)?;
    plan_and_run(
        device,
        path,
        program(alloc, EXTENT, FORMAT_ONE, format)?,
        port,
    )?;
    let read = word(alloc, 0x06, 0, 4, &[])?;
    plan_and_run(device, path, program(alloc, EXTENT, READ_ONE, read)?, port)?;
    let end = device.last_end().ok_or("no end")?;
    expect(end.residual == 0, "all of it is read")?;
    expect(end.sent.as_slice() == DATA, "record 1 is sent")?;
    let read = word(alloc, 0x06, 0, 4, &[])?;
    plan_and_run(
        device,
        path,
        program(alloc, PAST_END, READ_ONE, read)?,
        port,
    )?;
    let end = device.last_end().ok_or("no end")?;
    expect(end.status.has_unit_check(), "the extent is refused")
}

#[test]
fn programs_at_the_far_end_of_a_large_device(rt: HostRuntime) -> Result<(), Fail> {
    let path = PathNo::new(1).ok_or("path")?;
    let mut device = open(rt.alloc())?;
    let mut port = CountedRequests::new();
    run_all(&mut device, rt.alloc(), path, &mut port)
}
