//! The operator's worker.

ghost use Rattle.std.specs.Prelude.{◌≡◌, All, IfOk, OnOk, true};
ghost use Rattle.std.specs.List.{AllZip};
ghost use Rattle.device_turn.specs.Seating.{IsHome, Rests};
ghost use Rattle.path_threads.specs.Held.{IsHeld};
ghost use Rattle.path_threads.specs.Asked.{device_order, pool_order};
ghost use Rattle.path_threads.specs.Places.{Allows, IsSpareAt, MayHave, SuitsAt, SuitsSeat};
ghost use Rattle.path_workers.specs.Ordered.{HasSize, HaveLosses, IsOrdered, Suits};

use crate::orders::{MakeVolume, Order};
use crate::places::Place;
use crate::shared::{PoolOrder, Shared, SharedPool};
use ckd_types::{DeviceNo, NoMemory};
use device_core::Device;
use device_defs::Losses;
use device_outside::{Port, Volume};
use device_turn::Enter;
use path_workers::{DeviceOrder, DeviceSeat, DeviceTurn, lose, may_lose, order};
use std::alloc::Global;
use std::sync::Wait;
use std::thread::yield_now;
use subsystem_defs::Event;

/// The device, as soon as its turn is nobody's. Where another worker lacks memory it may never be.
fn hold<R: Wait, V: Volume>(
    rt: &R,
    shared: &Shared,
    turn: &DeviceTurn<V>,
    seat: &mut DeviceSeat<V>,
) -> Result<Box<Device<V>>, NoMemory>
    requires { IsHome turn.now seat.old }
    ensures { IfOk result (λ b. IsHeld seat.old seat.new b.value) }
{
    for _ in rt.forever() {
        if shared.is_stopped() {
            return Err(NoMemory);
        }
        match turn.enter(seat) {
            Enter::Got(device) => return Ok(device),
            Enter::Taken { .. } => yield_now(),
        }
    }
    unreachable!()
}

/// An order at a device in its room.
fn order_held<V: Volume, P: Port>(
    device: &mut Box<Device<V>>,
    what: DeviceOrder<V>,
    most: Losses,
    port: &mut P,
)
    requires { HasSize what device.old.value }
    ensures { IsOrdered (λ p. HaveLosses most p × Suits V.view what p) device.old.value device.new.value }
{
    order(&mut **device, what, most, port);
}

/// An order at one device.
fn order_one<R: Wait, V: Volume, P: Port>(
    rt: &R,
    shared: &Shared,
    turn: &DeviceTurn<V>,
    seat: &mut DeviceSeat<V>,
    place: &Place,
    what: DeviceOrder<V>,
    port: &mut P,
) -> Result<(), NoMemory>
    requires home { IsHome turn.now seat.old }
    requires allows { Allows place.now seat.old }
    requires suits { SuitsSeat what seat.old }
    ensures { OnOk result (Rests seat.old seat.new) }
{
    let mut device = hold(rt, shared, turn, seat)?;
    order_held(&mut device, what, place.most, port);
    turn.leave(seat, device);
    Ok(())
}

/// Whether a device may have what an order of all does to it.
fn may_have<V: Volume>(device: &Device<V>, what: PoolOrder, place: &Place) -> bool
    ensures { result ≡ true → MayHave what place.now device.now }
{
    match what.loss() {
        Some(loss) => may_lose(device, loss, place.most),
        None => true,
    }
}

/// Whether all may have it that came before, and this device too.
fn may_all<V: Volume>(may: bool, device: &Box<Device<V>>, what: PoolOrder, place: &Place) -> bool
    ensures before { result ≡ true → may ≡ true }
    ensures here { result ≡ true → MayHave what place.now device.now.value }
{
    if may {
        return may_have(device.as_ref(), what, place);
    }
    false
}

/// What an order of all does to a device, where it is done.
fn have<V: Volume, P: Port>(
    device: &mut Box<Device<V>>,
    what: PoolOrder,
    place: &Place,
    done: bool,
    port: &mut P,
)
    requires { done ≡ true → MayHave what place.now device.old.value }
    ensures { IsOrdered (HaveLosses place.now.most) device.old.value device.new.value }
{
    if !done {
        return;
    }
    match what.loss() {
        Some(loss) => lose(&mut **device, loss, place.most, port),
        None => (),
    }
}

/// The device behind that.
fn had<V: Volume, P: Port>(
    mut device: Box<Device<V>>,
    what: PoolOrder,
    place: &Place,
    done: bool,
    port: &mut P,
) -> Box<Device<V>>
    requires { done ≡ true → MayHave what place.now device.value }
    ensures { IsOrdered (HaveLosses place.now.most) device.value result.value }
{
    have(&mut device, what, place, done, port);
    device
}

/// Whether the pool does an order that all may have.
fn order_now<R: Wait>(rt: &R, shared: &Shared, what: PoolOrder, may: bool) -> bool
    ensures { result ≡ true → may ≡ true }
{
    if may {
        return shared.order(rt, what);
    }
    false
}

/// An order of cache or store, with the turns of all devices, by rising number. What the devices lose by it they lose once all turns are taken.
fn order_all<R: Wait, V: Volume, P: Port>(
    rt: &R,
    shared: &Shared,
    turns: &[DeviceTurn<V>],
    seats: &mut [DeviceSeat<V>],
    places: &[Place],
    what: PoolOrder,
    may: bool,
    port: &mut P,
) -> Result<bool, NoMemory>
    requires home { AllZip IsHome turns.now seats.old }
    requires allows { AllZip Allows places.now seats.old }
    ensures done { IfOk result (λ done. done ≡ true → may ≡ true) }
    ensures rest { OnOk result (AllZip Rests seats.old seats.new) }
{
    if turns.is_empty() {
        return Ok(order_now(rt, shared, what, may));
    }
    let (_, other_turns) = turns.split_at(1);
    let (_, other_places) = places.split_at(1);
    let (first, others) = seats.split_at_mut(1);
    let device = hold(rt, shared, &turns[0], &mut first[0])?;
    let may_here = may_all(may, &device, what, &places[0]);
    let done = order_all(
        rt,
        shared,
        other_turns,
        others,
        other_places,
        what,
        may_here,
        port,
    )?;
    let behind = had(device, what, &places[0], done, port);
    turns[0].leave(&mut first[0], behind);
    Ok(done)
}

/// An order at the device of this number, where there is one.
fn order_at<R: Wait, V: Volume, P: Port>(
    rt: &R,
    shared: &Shared,
    turns: &[DeviceTurn<V>],
    seats: &mut [DeviceSeat<V>],
    places: &[Place],
    d: DeviceNo,
    what: DeviceOrder<V>,
    port: &mut P,
) -> Result<(), NoMemory>
    requires home { AllZip IsHome turns.now seats.old }
    requires allows { AllZip Allows places.now seats.old }
    requires suits { SuitsAt places.now seats.old d what }
    ensures { OnOk result (AllZip Rests seats.old seats.new) }
{
    if turns.is_empty() {
        return Ok(());
    }
    let (_, other_turns) = turns.split_at(1);
    let (_, other_places) = places.split_at(1);
    let (first, others) = seats.split_at_mut(1);
    if places[0].number == d {
        return order_one(rt, shared, &turns[0], &mut first[0], &places[0], what, port);
    }
    order_at(rt, shared, other_turns, others, other_places, d, what, port)
}

/// An order of cache or store, which no device keeps out but by its losses.
fn order_pool<R: Wait, V: Volume, P: Port>(
    rt: &R,
    shared: &Shared,
    turns: &[DeviceTurn<V>],
    seats: &mut [DeviceSeat<V>],
    places: &[Place],
    what: PoolOrder,
    port: &mut P,
) -> Result<(), NoMemory>
    requires home { AllZip IsHome turns.now seats.old }
    requires allows { AllZip Allows places.now seats.old }
    ensures { OnOk result (AllZip Rests seats.old seats.new) }
{
    let _done = order_all(rt, shared, turns, seats, places, what, true, port)?;
    Ok(())
}

/// An order at the device that it names.
fn order_named<R: Wait, V: Volume, P: Port>(
    rt: &R,
    shared: &Shared,
    turns: &[DeviceTurn<V>],
    seats: &mut [DeviceSeat<V>],
    places: &[Place],
    named: (DeviceNo, DeviceOrder<V>),
    port: &mut P,
) -> Result<(), NoMemory>
    requires home { AllZip IsHome turns.now seats.old }
    requires allows { AllZip Allows places.now seats.old }
    requires suits { SuitsAt places.now seats.old named.0 named.1 }
    ensures { OnOk result (AllZip Rests seats.old seats.new) }
{
    let (d, what) = named;
    order_at(rt, shared, turns, seats, places, d, what, port)
}

/// An event, where it is the operator's.
fn order_event<R: Wait, V: Volume, P: Port>(
    rt: &R,
    shared: &Shared,
    turns: &[DeviceTurn<V>],
    seats: &mut [DeviceSeat<V>],
    places: &[Place],
    event: &Event,
    port: &mut P,
) -> Result<(), NoMemory>
    requires home { AllZip IsHome turns.now seats.old }
    requires allows { AllZip Allows places.now seats.old }
    ensures { OnOk result (AllZip Rests seats.old seats.new) }
{
    if let Some(what) = pool_order(event) {
        return order_pool(rt, shared, turns, seats, places, what, port);
    }
    match device_order(event) {
        Some(named) => order_named(rt, shared, turns, seats, places, named, port),
        None => Ok(()),
    }
}

/// The order of one device that an event is, and of which.
fn device_order<V>(event: &Event) -> Option<(DeviceNo, DeviceOrder<V>)>
    ensures { result ≡ device_order event.now }
{
    match event {
        Event::FailVolume(d, side) => Some((*d, DeviceOrder::Fail(*side))),
        Event::Suspend(d) => Some((*d, DeviceOrder::Suspend)),
        Event::Resume(d) => Some((*d, DeviceOrder::Resume)),
        _ => None,
    }
}

/// The order of all devices that it is.
fn pool_order(event: &Event) -> Option<PoolOrder>
    ensures { result ≡ pool_order event.now }
{
    match event {
        Event::FailCache => Some(PoolOrder::FailCache),
        Event::FailStore => Some(PoolOrder::FailStore),
        Event::RepairCache => Some(PoolOrder::RepairCache),
        Event::RepairStore => Some(PoolOrder::RepairStore),
        _ => None,
    }
}

/// An order. The volume that it brings is made here: none is in memory before its order is done.
fn obey<R: Wait, V: Volume, M: MakeVolume<V>, P: Port>(
    rt: &R,
    alloc: Global,
    shared: &Shared,
    turns: &[DeviceTurn<V>],
    seats: &mut [DeviceSeat<V>],
    places: &[Place],
    order: Order<M>,
    port: &mut P,
) -> Result<(), NoMemory>
    requires home { AllZip IsHome turns.now seats.old }
    requires allows { AllZip Allows places.now seats.old }
    requires spare { IsSpareAt M.makes places.now seats.old order }
    ensures { OnOk result (AllZip Rests seats.old seats.new) }
{
    match order {
        Order::Event(event) => order_event(rt, shared, turns, seats, places, &event, port),
        Order::Replace(d, side, maker) => {
            let Ok(volume) = maker.make(alloc) else {
                return shared.stop();
            };
            let what = DeviceOrder::Replace(side, volume);
            order_at(rt, shared, turns, seats, places, d, what, port)
        }
    }
}

/// The operator's worker: each order once, in their order.
pub(crate) fn operate<R: Wait, V: Volume, M: MakeVolume<V>>(
    rt: &R,
    alloc: Global,
    shared: &Shared,
    turns: &[DeviceTurn<V>],
    mut seats: Vec<DeviceSeat<V>>,
    places: &[Place],
    orders: Vec<Order<M>>,
) -> Result<Vec<DeviceSeat<V>>, NoMemory>
    requires home { AllZip IsHome turns.now seats.items }
    requires allows { AllZip Allows places.now seats.items }
    requires spare { All (IsSpareAt M.makes places.now seats.items) orders.items }
    ensures { IfOk result (λ v. AllZip Rests seats.items v.items) }
{
    let mut port = SharedPool::new(rt, shared);
    for order in orders {
        obey(
            rt, alloc, shared, turns, &mut seats, places, order, &mut port,
        )?;
    }
    Ok(seats)
}
