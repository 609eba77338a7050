ghost use Rattle.std.specs.Prelude.{◌≡◌, IfOk, length};

use crate::{CountedRequests, Watched, run_program};
use ckd_ccw::Program;
use ckd_types::{Bytes, Ccw, DeviceNo, Geometry, PathNo, Side, TrackNo};
use deck_plan::PathPlans;
use device_core::{Device, NotForgotten};
use device_outside::{MemVolume, Volume};
use std::alloc::Global;
use std::test::Fail;

/// Define extent over cylinder 0: format writes are permitted.
const EXTENT: &[u8] = &[0xc0, 0xc0, 0x10, 0, 0, 0, 0, 0, 0, 0, 0, 0, 0, 0, 0, 0x0e];

/// Locate record: one format write behind record 0 of track 0, and one read of record 1.
const FORMAT_ONE: &[u8] = &[3, 0, 0, 1, 0, 0, 0, 0, 0, 0, 0, 0, 0, 0, 0, 0];

const READ_ONE: &[u8] = &[6, 0, 0, 1, 0, 0, 0, 0, 0, 0, 0, 0, 1, 0, 0, 0];

/// The count area of record 1, no key and four bytes of data, and these.
const RECORD_ONE: &[u8] = &[0, 0, 0, 0, 1, 0, 0, 4, 0xc3, 0xd2, 0xc4, 0x40];

/// Its data, as the second program reads it.
const DATA: &[u8] = &[0xc3, 0xd2, 0xc4, 0x40];

/// Track 0 with record 0 and this record 1, as a volume has it: home address, records, end mark.
const HELD: &[u8] = &[
    0, 0, 0, 0, 0, 0, 0, 0, 0, 0, 0, 0, 8, 0, 0, 0, 0, 0, 0, 0, 0, 0, 0, 0, 0, 1, 0, 0, 4, 0xc3,
    0xd2, 0xc4, 0x40, 0xff, 0xff, 0xff, 0xff, 0xff, 0xff, 0xff, 0xff,
];

fn word(alloc: Global, command: u8, flags: u8, count: u16, given: &[u8]) -> Result<Ccw, Fail> {
    Ok(Ccw {
        command,
        flags,
        count,
        given: Bytes::from_slice(alloc, given)?,
    })
}

/// A channel program of three words: define extent, locate record, and one command in its domain.
fn program(alloc: Global, locate: &[u8], last: Ccw) -> Result<Program, Fail> {
    let mut words = Vec::new(alloc);
    words.push(word(alloc, 0x63, Ccw::CHAIN, 16, EXTENT)?)?;
    words.push(word(alloc, 0x47, Ccw::CHAIN, 16, locate)?)?;
    words.push(last)?;
    Ok(Program::new(words).ok().ok_or("a word is bad")?)
}

/// It formats record 1 of track 0.
fn format(alloc: Global) -> Result<Program, Fail> {
    program(alloc, FORMAT_ONE, word(alloc, 0x1d, 0, 12, RECORD_ONE)?)
}

/// It reads that record.
fn read(alloc: Global) -> Result<Program, Fail> {
    program(alloc, READ_ONE, word(alloc, 0x06, 0, 4, &[])?)
}

/// Path 1 has both programs.
fn plans(alloc: Global, path: PathNo) -> Result<PathPlans, Fail> {
    let mut plans = PathPlans::new(alloc);
    plans.push(path, format(alloc)?)?;
    if plans.len(path) < 65535 {
        plans.push(path, read(alloc)?)?;
    }
    Ok(plans)
}

/// Device 5 of one cylinder, over this volume.
fn device_on(
    alloc: Global,
    volume: MemVolume,
    plans: PathPlans,
) -> Result<Device<Watched<MemVolume>>, Fail>
    requires { length volume.tracks ≡ 15 }
{
    let number = DeviceNo::new(5).ok_or("device")?;
    match Device::open(
        alloc,
        number,
        Geometry::D3390,
        1,
        Watched::new(volume),
        plans,
    ) {
        Ok(device) => Ok(device),
        Err(_) => Err("no memory".into()),
    }
}

/// The same over a volume of empty tracks.
fn device_on_empty(alloc: Global, plans: PathPlans) -> Result<Device<Watched<MemVolume>>, Fail> {
    let volume = MemVolume::new(alloc, 1, &[], &[])?;
    device_on(alloc, volume, plans)
}

/// A volume of one cylinder whose track 0 has a record.
fn volume_with_record(alloc: Global) -> Result<MemVolume, Fail>
    ensures { IfOk result (λ volume. length volume.tracks ≡ 15) }
{
    let mut volume = MemVolume::new(alloc, 1, &[], &[])?;
    let track = TrackNo::new(0).ok_or("track")?;
    match volume.write_track(track, HELD) {
        Ok(()) => Ok(volume),
        Err(_) => Err("not written".into()),
    }
}

/// A device over it, with no program yet.
fn device_with_record(alloc: Global) -> Result<Device<Watched<MemVolume>>, Fail> {
    device_on(alloc, volume_with_record(alloc)?, no_plans(alloc)?)
}

/// Starts the path's next program.
fn start(device: &mut Device<Watched<MemVolume>>, path: PathNo) -> Result<(), Fail> {
    if device.active().is_some() {
        return Err("another program runs".into());
    }
    match device.start(path) {
        Ok(_) => Ok(()),
        Err(_) => Err("not started".into()),
    }
}

/// Starts the path's next program and runs its three commands.
fn run(
    device: &mut Device<Watched<MemVolume>>,
    path: PathNo,
    port: &mut CountedRequests,
) -> Result<(), Fail> {
    start(device, path)?;
    match run_program(device, port, 4) {
        Ok(true) => Ok(()),
        _ => Err("not over".into()),
    }
}

/// The residual count of the command that ended last, and whether it sent the data of record 1.
fn last_sent(device: &Device<Watched<MemVolume>>) -> Result<(u16, bool), Fail> {
    let end = device.last_end().ok_or("no end")?;
    Ok((end.residual, end.sent.as_slice() == DATA))
}

/// The track that the device's volume wrote last.
fn last_written(device: &Device<Watched<MemVolume>>) -> Option<TrackNo> {
    device.volume(Side::A)?.last_written
}

fn expect(is_so: bool, what: &'static str) -> Result<(), Fail> {
    match is_so {
        true => Ok(()),
        false => Err(what.into()),
    }
}

/// Without a frame each locate record and each command behind one reads its track, and asks the port for a frame.
fn run_both(
    device: &mut Device<Watched<MemVolume>>,
    path: PathNo,
    port: &mut CountedRequests,
) -> Result<(), Fail> {
    run(device, path, port)?;
    expect(
        last_written(device) == TrackNo::new(0),
        "track 0 is written",
    )?;
    run(device, path, port)?;
    expect(last_sent(device)? == (0, true), "record 1 is sent")?;
    expect(
        device.reads() == 4 && device.writes() == 1,
        "four reads and a write",
    )?;
    expect(port.wanted == 4, "four frames are wanted")?;
    expect(device.finished(), "both programs were started")
}

#[test]
fn two_programs_over_a_volume_of_the_callers(rt: HostRuntime) -> Result<(), Fail> {
    let path = PathNo::new(1).ok_or("path")?;
    let mut device = device_on_empty(rt.alloc(), plans(rt.alloc(), path)?)?;
    let mut port = CountedRequests::new();
    run_both(&mut device, path, &mut port)
}

/// No path has a program yet.
fn no_plans(alloc: Global) -> Result<PathPlans, Fail> {
    Ok(PathPlans::new(alloc))
}

/// Plans a program for the path, and runs it.
fn plan_and_run(
    device: &mut Device<Watched<MemVolume>>,
    path: PathNo,
    program: Program,
    port: &mut CountedRequests,
) -> Result<(), Fail> {
    expect(device.finished(), "nothing waits")?;
    match device.plan(path, program) {
        Ok(()) => (),
        Err(_) => return Err("not planned".into()),
    }
    expect(device.left(path) == 1, "it waits")?;
    run(device, path, port)
}

/// Both programs, each planned once nothing waits.
fn plan_both(
    device: &mut Device<Watched<MemVolume>>,
    path: PathNo,
    alloc: Global,
    port: &mut CountedRequests,
) -> Result<(), Fail> {
    plan_and_run(device, path, format(alloc)?, port)?;
    plan_and_run(device, path, read(alloc)?, port)?;
    expect(last_sent(device)? == (0, true), "record 1 is sent")
}

#[test]
fn programs_planned_on_an_open_device(rt: HostRuntime) -> Result<(), Fail> {
    let path = PathNo::new(1).ok_or("path")?;
    let mut device = device_on_empty(rt.alloc(), no_plans(rt.alloc())?)?;
    let mut port = CountedRequests::new();
    plan_both(&mut device, path, rt.alloc(), &mut port)
}

/// Reads the record that the volume held: a locate record and a read, each of which reads the track.
fn read_held(
    device: &mut Device<Watched<MemVolume>>,
    path: PathNo,
    alloc: Global,
    port: &mut CountedRequests,
) -> Result<(), Fail> {
    plan_and_run(device, path, read(alloc)?, port)?;
    expect(last_sent(device)? == (0, true), "record 1 is sent")?;
    expect(
        device.reads() == 2 && device.writes() == 0,
        "two reads and no write",
    )
}

#[test]
fn device_gives_what_its_volume_held(rt: HostRuntime) -> Result<(), Fail> {
    let path = PathNo::new(1).ok_or("path")?;
    let mut device = device_with_record(rt.alloc())?;
    let mut port = CountedRequests::new();
    read_held(&mut device, path, rt.alloc(), &mut port)
}

/// So many reads, each forgotten once it is over.
const READS: u16 = 10_000;

/// Forgets what happened so far, of which one program of the path is kept.
fn forget(device: &mut Device<Watched<MemVolume>>, path: PathNo) -> Result<(), Fail> {
    match device.forget() {
        Ok(()) => (),
        Err(_) => return Err("not forgotten".into()),
    }
    expect(
        device.started(path) == 1 && device.left(path) == 0,
        "one program is kept",
    )?;
    expect(device.journal().len() == 1, "it has one stub")
}

/// Reads the record that the volume held so often. Nothing is forgotten while a program runs.
fn read_often(
    device: &mut Device<Watched<MemVolume>>,
    path: PathNo,
    alloc: Global,
    port: &mut CountedRequests,
) -> Result<(), Fail> {
    for _read in 0..READS {
        plan_and_run(device, path, read(alloc)?, port)?;
        expect(last_sent(device)? == (0, true), "record 1 is sent")?;
        forget(device, path)?;
    }
    match device.plan(path, read(alloc)?) {
        Ok(()) => (),
        Err(_) => return Err("not planned".into()),
    }
    start(device, path)?;
    expect(
        matches!(device.forget(), Err(NotForgotten::Running)),
        "a program runs",
    )
}

#[test]
fn device_that_forgets_each_program(rt: HostRuntime) -> Result<(), Fail> {
    let path = PathNo::new(1).ok_or("path")?;
    let mut device = device_with_record(rt.alloc())?;
    let mut port = CountedRequests::new();
    read_often(&mut device, path, rt.alloc(), &mut port)
}
