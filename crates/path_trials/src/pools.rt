ghost use Rattle.std.specs.Prelude.{All, IfOk};
ghost use Rattle.path_trials.specs.Small.{IsNew};

use crate::orders::{Orders, order};
use crate::runs::{device, devices_of, run, word};
use ckd_ccw::Program;
use ckd_types::{Ccw, DeviceNo, PathNo, TrackNo};
use deck_plan::PathPlans;
use device_core::Device;
use device_outside::{Gate, MemVolume, NoGate, Port, SlotGrant};
use frame_pool::Pool;
use plain_defs::{How, Item};
use std::alloc::Global;
use std::sync::atomic::{AtomicU64, Ordering};
use std::test::Fail;
use std::thread::yield_now;
use subsystem_defs::Event;

/// How the data of a program that writes are kept: by the second byte of its extent.
#[derive(Clone, Copy)]
enum Kept {
    /// In cache and store.
    Fast,
    /// On the volume.
    Through,
    /// In the cache alone.
    Loose,
}

/// Define extent over cylinder 0, for reads (40) or writes (80).
fn extent(mask: u8, attributes: u8) -> [u8; 16] {
    let mut bytes = [0; 16];
    bytes[0] = mask;
    bytes[1] = attributes;
    bytes[2] = 0x10;
    bytes[15] = 0x0e;
    bytes
}

/// Locate record: one read (6) or write (1) of record 0 of a track of cylinder 0.
fn locate(operation: u8, track: u8) -> [u8; 16] {
    let mut bytes = [0; 16];
    bytes[0] = operation;
    bytes[3] = 1;
    bytes[7] = track;
    bytes[11] = track;
    bytes
}

/// A program that writes eight bytes to record 0 of a track.
fn write(alloc: Global, kept: Kept, track: u8) -> Result<Program, Fail> {
    let attributes = match kept {
        Kept::Fast => 0xc0,
        Kept::Through => 0xc1,
        Kept::Loose => 0xc2,
    };
    let mut words = Vec::new(alloc);
    words.push(word(alloc, 0x63, Ccw::CHAIN, 16, &extent(0x80, attributes))?)?;
    words.push(word(alloc, 0x47, Ccw::CHAIN, 16, &locate(1, track))?)?;
    words.push(word(alloc, 0x85, 0, 8, &[1, 2, 3, 4, 5, 6, 7, 8])?)?;
    Ok(Program::new(words).ok().ok_or("a word is bad")?)
}

/// A program that reads them.
fn read(alloc: Global, track: u8) -> Result<Program, Fail> {
    let mut words = Vec::new(alloc);
    words.push(word(alloc, 0x63, Ccw::CHAIN, 16, &extent(0x40, 0xc0))?)?;
    words.push(word(alloc, 0x47, Ccw::CHAIN, 16, &locate(6, track))?)?;
    words.push(word(alloc, 0x06, 0, 8, &[])?)?;
    Ok(Program::new(words).ok().ok_or("a word is bad")?)
}

fn add(plans: &mut PathPlans, path: PathNo, program: Program) -> Result<(), Fail> {
    if plans.len(path) < 65535 {
        plans.push(path, program)?;
    }
    Ok(())
}

/// One round of a path: a fast write, a read of another track, a write through, and one of the cache alone.
fn add_round(alloc: Global, plans: &mut PathPlans, path: PathNo, round: u8) -> Result<(), Fail> {
    let track = round % 15;
    add(plans, path, write(alloc, Kept::Fast, track)?)?;
    add(plans, path, read(alloc, 14 - track)?)?;
    add(plans, path, write(alloc, Kept::Through, (track + 5) % 15)?)?;
    add(plans, path, write(alloc, Kept::Loose, (track + 9) % 15)?)?;
    add(plans, path, read(alloc, track)?)
}

/// So many rounds of each path, each over other tracks.
fn rounds(alloc: Global, rounds: u8) -> Result<PathPlans, Fail> {
    let mut plans = PathPlans::new(alloc);
    for number in 1..5 {
        let path = PathNo::new(number).ok_or("path")?;
        for round in 0..rounds {
            add_round(alloc, &mut plans, path, round.wrapping_mul(number))?;
        }
    }
    Ok(plans)
}

fn two_devices(alloc: Global, count: u8) -> Result<Vec<PathPlans>, Fail> {
    let mut plans = Vec::new(alloc);
    plans.push(rounds(alloc, count)?)?;
    plans.push(rounds(alloc, count)?)?;
    Ok(plans)
}

/// How many frames of the pool's list are of a device. None of another kind than the device knows.
fn listed(pool: &Pool, device: &Device<MemVolume>) -> Option<u16> {
    let mut count: u16 = 0;
    for i in 0..64 {
        let Some((d, track, modified)) = pool.entry(i) else {
            return Some(count);
        };
        if d == device.number() {
            if !device.framed(track) || device.modified(track) != modified {
                return None;
            }
            count = count.saturating_add(1);
        }
    }
    None
}

/// How many frames were taken from a device that it wasn't told of.
fn untold(pool: &mut Pool, d: DeviceNo) -> u16 {
    let mut count: u16 = 0;
    for _ in 0..64 {
        if pool.next_notice(d).is_none() {
            return count;
        }
        count = count.saturating_add(1);
    }
    count
}

/// How many tracks wait, as the pool was told of all devices.
fn waiting(pool: &mut Pool) -> u32 {
    match pool.repair_cache() {
        Ok(()) => 0,
        Err(pending) => pending.n,
    }
}

/// How many of so many slots aren't in use. All are then.
fn free_slots(pool: &mut Pool, slots: u16) -> Option<u16> {
    for count in 0..slots {
        match pool.want_slot() {
            SlotGrant::Given(_) => (),
            SlotGrant::Denied => return Some(count),
            SlotGrant::Down => return None,
        }
    }
    Some(slots)
}

/// What differs between the pool and the devices, behind a run: 0 where nothing does.
fn difference(pool: &mut Pool, devices: &[Device<MemVolume>], slots: u16) -> u8 {
    let mut patches: u16 = 0;
    for device in devices {
        let held = device.framed_count();
        let Some(known) = listed(pool, device) else {
            return 1;
        };
        if held != known.saturating_add(untold(pool, device.number())) {
            return 2;
        }
        patches = patches.saturating_add(device.patched_count());
        let told = waiting(pool);
        pool.tell_waiting(device.number(), 0);
        if told.saturating_sub(waiting(pool)) != u32::from(device.waiting_count()) {
            return 3;
        }
    }
    if pool.repair_store().is_err() {
        return 4;
    }
    match free_slots(pool, slots) {
        Some(free) => {
            if free.saturating_add(patches) == slots {
                0
            } else {
                5
            }
        }
        None => 6,
    }
}

/// Losses and repairs of the cache and of the store, so many times.
fn losses(alloc: Global, times: u16) -> Result<Orders, Fail>
    ensures { IfOk result (λ orders. All IsNew orders.items) }
{
    let mut orders = Vec::new(alloc);
    for _ in 0..times {
        order(&mut orders, Event::FailCache)?;
        order(&mut orders, Event::RepairCache)?;
        order(&mut orders, Event::FailStore)?;
        order(&mut orders, Event::RepairStore)?;
    }
    Ok(orders)
}

#[test]
fn the_pool_knows_what_devices_hold(rt: HostRuntime) -> Result<(), Fail> {
    let alloc = rt.alloc();
    let devices = devices_of(alloc, two_devices(alloc, 60)?)?;
    let mut ran = run(&rt, alloc, devices, Vec::new(alloc), &NoGate)?;
    assert_eq!(rt; difference(&mut ran.pool, ran.devices.as_slice(), 2), 0);
    Ok(())
}

#[test]
fn it_knows_so_behind_losses_and_repairs(rt: HostRuntime) -> Result<(), Fail> {
    let alloc = rt.alloc();
    let devices = devices_of(alloc, two_devices(alloc, 60)?)?;
    let mut ran = run(&rt, alloc, devices, losses(alloc, 100)?, &NoGate)?;
    assert_eq!(rt; difference(&mut ran.pool, ran.devices.as_slice(), 2), 0);
    Ok(())
}

/// The first write of the volume fails. A fast write doesn't call it.
#[test]
fn a_fast_write_gets_a_slot(rt: HostRuntime) -> Result<(), Fail> {
    let alloc = rt.alloc();
    let mut plans = PathPlans::new(alloc);
    let path = PathNo::new(1).ok_or("path")?;
    add(&mut plans, path, write(alloc, Kept::Fast, 3)?)?;
    let mut devices = Vec::new(alloc);
    devices.push(device(alloc, 0, plans, &[1])?)?;
    let ran = run(&rt, alloc, devices, Vec::new(alloc), &NoGate)?;
    for device in ran.devices.as_slice() {
        assert!(rt;
            matches!(device.journal(), [Item::Program(entry)] if matches!(entry.how, How::Full))
        );
    }
    Ok(())
}

/// Counts the events of path 2, and keeps path 1 in its first one for a while.
#[derive(Drop)]
struct Keeping {
    events: AtomicU64,
}

impl Gate for Keeping {
    fn before_transfer(&self, path: PathNo, _d: DeviceNo, call: u64) {
        if path.get() == 1 && call == 1 {
            for _ in 0..1_000 {
                yield_now();
            }
        }
    }

    fn after_transfer(&self, path: PathNo, _d: DeviceNo, _call: u64) {
        if path.get() == 2 {
            self.events.fetch_add(1, Ordering::SeqCst);
        }
    }
}

#[test]
fn a_path_waits_for_another_at_its_device(rt: HostRuntime) -> Result<(), Fail> {
    let alloc = rt.alloc();
    let mut plans = PathPlans::new(alloc);
    for number in 1..3 {
        let path = PathNo::new(number).ok_or("path")?;
        for track in 0..10 {
            add(&mut plans, path, read(alloc, track)?)?;
        }
    }
    let mut all = Vec::new(alloc);
    all.push(plans)?;
    let devices = devices_of(alloc, all)?;
    let gate = Keeping {
        events: AtomicU64::new(0),
    };
    let ran = run(&rt, alloc, devices, Vec::new(alloc), &gate)?;
    assert_eq!(rt; ran.devices.len(), 1);
    // Ten starts, and three commands of each program.
    assert_eq!(rt; gate.events.load(Ordering::SeqCst), 40);
    Ok(())
}
