ghost use Rattle.std.specs.Prelude.{All, OnOk};
ghost use Rattle.path_trials.specs.Small.{IsNew};

use crate::EmptyVolume;
use crate::runs::{devices_of, pair_of, reads, run};
use ckd_types::{DeviceNo, Side, TrackNo};
use device_outside::NoGate;
use path_threads::Order;
use std::test::Fail;
use subsystem_defs::Event;

pub(crate) type Orders = Vec<Order<EmptyVolume>>;

pub(crate) fn order(orders: &mut Orders, event: Event) -> Result<(), Fail>
    requires { All IsNew orders.old.items }
    ensures { OnOk result (All IsNew orders.new.items) }
{
    orders.push(Order::Event(event))?;
    Ok(())
}

/// A new volume in the place of a failed side's.
fn replace(orders: &mut Orders, d: DeviceNo, side: Side) -> Result<(), Fail>
    requires { All IsNew orders.old.items }
    ensures { OnOk result (All IsNew orders.new.items) }
{
    // The kit's borrow checker has to be shown this type, which the orders hold.
    let _none: Option<Event> = None;
    orders.push(Order::Replace(d, side, EmptyVolume { cylinders: 1 }))?;
    Ok(())
}

#[test]
fn cache_and_store_fail_and_are_repaired_while_paths_run(rt: HostRuntime) -> Result<(), Fail> {
    let alloc = rt.alloc();
    let mut plans = Vec::new(alloc);
    plans.push(reads(alloc, 20)?)?;
    plans.push(reads(alloc, 20)?)?;
    let devices = devices_of(alloc, plans)?;
    let mut orders = Vec::new(alloc);
    order(&mut orders, Event::FailStore)?;
    order(&mut orders, Event::RepairStore)?;
    order(&mut orders, Event::FailCache)?;
    order(&mut orders, Event::RepairCache)?;
    let ran = run(&rt, alloc, devices, orders, &NoGate)?;
    for device in ran.devices.as_slice() {
        assert!(rt; device.finished());
        assert_eq!(rt; device.journal().len(), 80);
        assert_eq!(rt; device.losses().cache, 1);
        assert_eq!(rt; device.losses().store, 1);
    }
    Ok(())
}

#[test]
fn a_volume_that_is_lost_while_paths_run_takes_its_tracks(rt: HostRuntime) -> Result<(), Fail> {
    let alloc = rt.alloc();
    let mut plans = Vec::new(alloc);
    plans.push(reads(alloc, 20)?)?;
    let devices = devices_of(alloc, plans)?;
    let d = DeviceNo::new(0).ok_or("device")?;
    let mut orders = Vec::new(alloc);
    order(&mut orders, Event::FailVolume(d, Side::A))?;
    order(&mut orders, Event::FailVolume(d, Side::A))?;
    let ran = run(&rt, alloc, devices, orders, &NoGate)?;
    for device in ran.devices.as_slice() {
        assert!(rt; device.finished());
        assert_eq!(rt; device.losses().sides, 1);
        // Track 0 is read, and so the cache may have it.
        for t in 1..15 {
            assert!(rt; device.lost().has(TrackNo::new(t).ok_or("track")?));
        }
    }
    Ok(())
}

#[test]
fn a_side_that_is_lost_gets_another_volume_while_paths_run(rt: HostRuntime) -> Result<(), Fail> {
    let alloc = rt.alloc();
    let devices = pair_of(alloc, reads(alloc, 20)?)?;
    let d = DeviceNo::new(0).ok_or("device")?;
    let mut orders = Vec::new(alloc);
    replace(&mut orders, d, Side::A)?;
    order(&mut orders, Event::FailVolume(d, Side::A))?;
    replace(&mut orders, d, Side::A)?;
    let ran = run(&rt, alloc, devices, orders, &NoGate)?;
    for device in ran.devices.as_slice() {
        assert!(rt; device.finished());
        assert!(rt; device.up(Side::A));
        assert!(rt; device.up(Side::B));
        assert_eq!(rt; device.losses().sides, 1);
    }
    Ok(())
}
