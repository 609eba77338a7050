ghost use Rattle.std.specs.Prelude.{◌≡◌, All, IfErr, IfOk, Ok};
ghost use Rattle.std.specs.List.{AllZip};
ghost use Rattle.path_workers.specs.Keeping.{IsFinished, IsReady};
ghost use Rattle.device_turn.specs.Seating.{AreSeated, IsAt, IsHome, Rests};
ghost use Rattle.path_threads.specs.Places.{Allows, IsSpareAt, IsSpareAmong, KeepsOrdered};
ghost use Rattle.path_threads.specs.Walks.{HaveWalked};

use crate::operator::operate;
use crate::orders::{MakeVolume, Order};
use crate::places::{Place, clear_all, set_all};
use crate::rows::{Begun, Resting, Walked, Walks};
use crate::shared::Shared;
use crate::walks::{walk, work_behind};
use ckd_types::{NoMemory, PathNo};
use device_core::Device;
use device_outside::{Gate, Volume};
use device_turn::{Holder, Seats, Table, Turn};
use frame_pool::Pool;
use path_workers::{DeviceSeat, DeviceTurn, Promise, finish_all};
use std::alloc::Global;
use std::snapshot::Snapshot;
use std::sync::Wait;
use std::thread;
use std::thread::{PromisedHandle, Scope, SpawnError, Threads, scope, scope_env};

/// The pool and the devices behind a run.
#[derive(Drop)]
pub struct Ran<V: Volume> {
    pub devices: Vec<Device<V>>,
    pub pool: Pool,
}

type Row<V> = Vec<DeviceSeat<V>>;

type DeviceSeats<V> = Seats<Device<V>, Promise<V>>;

type DeviceWalked<V> = Walked<Device<V>, Promise<V>>;

type DeviceBegun<V> = Begun<Device<V>, Promise<V>>;

type DeviceWalks<V> = Walks<Device<V>, Promise<V>>;

/// A worker begins in a thread of its own. Where no thread can be made it works here, and from then on no worker waits.
fn begin<'s, E, T: Send + Drop + 's, P: thread::Promise<T> + Drop, F: FnOnce() -> T + Send + 's>(
    threads: &Scope<'s, E>,
    shared: &Shared,
    promise: P,
    work: F,
) -> Result<PromisedHandle<T, P>, T>
    requires runs { F.pre work }
    requires keeps { (r : _) → F.post work r → P.kept_by promise r }
    ensures started { IfOk result (λ h. h.promise ≡ promise) }
    ensures refused { IfErr result (λ r. P.kept_by promise r) }
{
    match threads.spawn_with(promise, work) {
        Ok(handle) => Ok(handle),
        Err(SpawnError { value }) => {
            shared.lack_threads();
            Err(value())
        }
    }
}

/// The seats of a worker, once it is done.
fn gather<R: Threads, H: Holder<P>, P>(
    rt: &R,
    turns: &Vec<Turn<H, P>>,
    number: u64,
    begun: Begun<H, P>,
) -> Walked<H, P>
    requires started { IfOk begun (λ h. (h.promise.turns.value ≡ turns.now) × (h.promise.number ≡ number)) }
    requires refused { IfErr begun (λ r. IfOk r (λ v. AllZip (IsAt number) turns.now.items v.items)) }
    ensures { IfOk result (λ v. AllZip (IsAt number) turns.now.items v.items) }
{
    let _turns = turns;
    let _number = number;
    match begun {
        Ok(handle) => handle.join(rt),
        Err(walked) => walked,
    }
}

/// The worker of a path begins.
fn begin_path<'s, E, R: Wait + Sync, V: Volume + Send + 's, G: Gate + Sync>(
    rt: &'s R,
    threads: &Scope<'s, E>,
    shared: &'s Shared,
    turns: &'s Vec<DeviceTurn<V>>,
    places: &'s [Place],
    path: PathNo,
    seats: Row<V>,
    gate: &'s G,
) -> DeviceBegun<V>
    requires { AllZip (IsAt path) turns.now.items seats.items }
    ensures started { IfOk result (λ h. (h.promise.turns.value ≡ turns.now) × (h.promise.number ≡ path)) }
    ensures refused { IfErr result (λ r. IfOk r (λ v. AllZip (IsAt path) turns.now.items v.items)) }
{
    let promise = Resting {
        turns: Snapshot::of(turns),
        number: u64::from(path.get()),
    };
    begin(
        threads,
        shared,
        promise,
        move || -> DeviceWalked<V>
            requires { AllZip (IsAt path) turns.now.items seats.items }
            ensures { IfOk result (λ v. AllZip (IsAt path) turns.entry.now.items v.items) }
        { walk(rt, shared, turns, seats, places, path, gate) },
    )
}

/// The worker of the background begins.
fn begin_behind<'s, E, R: Wait + Sync, V: Volume + Send + 's>(
    rt: &'s R,
    threads: &Scope<'s, E>,
    shared: &'s Shared,
    turns: &'s Vec<DeviceTurn<V>>,
    seats: Row<V>,
) -> DeviceBegun<V>
    requires { AllZip (IsAt 5) turns.now.items seats.items }
    ensures started { IfOk result (λ h. (h.promise.turns.value ≡ turns.now) × (h.promise.number ≡ 5)) }
    ensures refused { IfErr result (λ r. IfOk r (λ v. AllZip (IsAt 5) turns.now.items v.items)) }
{
    let promise = Resting {
        turns: Snapshot::of(turns),
        number: 5,
    };
    begin(
        threads,
        shared,
        promise,
        move || -> DeviceWalked<V>
            requires { AllZip (IsAt 5) turns.now.items seats.items }
            ensures { IfOk result (λ v. AllZip (IsAt 5) turns.entry.now.items v.items) }
        { work_behind(rt, shared, turns, seats) },
    )
}

/// All workers run until each is done: the operator's here, each other one in a thread of its own.
fn all_walk<
    's,
    E,
    R: Threads + Wait + Sync,
    V: Volume + Send + 's,
    M: MakeVolume<V>,
    G: Gate + Sync,
>(
    rt: &'s R,
    alloc: Global,
    threads: &Scope<'s, E>,
    shared: &'s Shared,
    turns: &'s Vec<DeviceTurn<V>>,
    gate: &'s G,
    seats: DeviceSeats<V>,
    operator: Row<V>,
    places: &'s [Place],
    orders: Vec<Order<M>>,
) -> DeviceWalks<V>
    requires seats { AreSeated turns.now.items seats }
    requires operator { AllZip IsHome turns.now.items operator.items × AllZip Allows places.now operator.items }
    requires spare { All (IsSpareAt M.makes places.now operator.items) orders.items }
    ensures walked { HaveWalked turns.now.items result }
    ensures operator { IfOk result.operator (λ v. AllZip Rests operator.items v.items) }
{
    let Seats {
        first,
        second,
        third,
        fourth,
        background,
    } = seats;
    let path = PathNo::of(1);
    let first = begin_path(rt, threads, shared, turns, places, path, first, gate);
    let path = PathNo::of(2);
    let second = begin_path(rt, threads, shared, turns, places, path, second, gate);
    let path = PathNo::of(3);
    let third = begin_path(rt, threads, shared, turns, places, path, third, gate);
    let path = PathNo::of(4);
    let fourth = begin_path(rt, threads, shared, turns, places, path, fourth, gate);
    let background = begin_behind(rt, threads, shared, turns, background);
    let operator = operate(rt, alloc, shared, turns, operator, places, orders);
    Walks {
        first: gather(rt, turns, 1, first),
        second: gather(rt, turns, 2, second),
        third: gather(rt, turns, 3, third),
        fourth: gather(rt, turns, 4, fourth),
        background: gather(rt, turns, 5, background),
        operator,
    }
}

/// The workers in a scope of their threads.
fn walk_all<R: Threads + Wait + Sync, V: Volume + Send, M: MakeVolume<V>, G: Gate + Sync>(
    rt: &R,
    alloc: Global,
    shared: &Shared,
    turns: &Vec<DeviceTurn<V>>,
    gate: &G,
    seats: DeviceSeats<V>,
    operator: Row<V>,
    places: &[Place],
    orders: Vec<Order<M>>,
) -> DeviceWalks<V>
    requires seats { AreSeated turns.now.items seats }
    requires operator { AllZip IsHome turns.now.items operator.items × AllZip Allows places.now operator.items }
    requires spare { All (IsSpareAt M.makes places.now operator.items) orders.items }
    ensures walked { HaveWalked turns.now.items result }
    ensures operator { IfOk result.operator (λ v. AllZip Rests operator.items v.items) }
{
    scope(
        scope_env(),
        rt,
        move |threads| -> DeviceWalks<V>
            requires { AreSeated turns.now.items seats × AllZip IsHome turns.now.items operator.items × AllZip Allows places.now operator.items ×
                All (IsSpareAt M.makes places.now operator.items) orders.items }
            ensures { HaveWalked turns.entry.now.items result × IfOk result.operator (λ v. AllZip Rests operator.items v.items) }
        {
            all_walk(
                rt, alloc, threads, shared, turns, gate, seats, operator, places, orders,
            )
        },
    )
}

/// The seats, where no worker lacked memory.
fn all_seats<V: Volume>(
    turns: &Vec<DeviceTurn<V>>,
    walks: DeviceWalks<V>,
) -> Result<(DeviceSeats<V>, Row<V>), NoMemory>
    requires { HaveWalked turns.now.items walks }
    ensures seats { IfOk result (λ r. AreSeated turns.now.items r.0) }
    ensures operator { IfOk result (λ r. walks.operator ≡ Ok r.1) }
{
    let _turns = turns;
    let Walks {
        first,
        second,
        third,
        fourth,
        background,
        operator,
    } = walks;
    let seats = Seats {
        first: first?,
        second: second?,
        third: third?,
        fourth: fourth?,
        background: background?,
    };
    Ok((seats, operator?))
}

/// Runs the programs of the devices' plans, each path's in a thread of its own, with another thread for what the devices do by themselves, while this
/// one does each order of the operator once, in their order, unless it is refused. What is left then, this thread does too. Where no thread can be made
/// for a worker no worker waits for another: what it would wait for is done at the end, by this thread alone. No program of the devices was started yet.
/// Where one worker lacks memory all stop, and the devices are dropped.
pub fn run_paths<R: Threads + Wait + Sync, V: Volume + Send, M: MakeVolume<V>, G: Gate + Sync>(
    rt: &R,
    alloc: Global,
    devices: Vec<Device<V>>,
    pool: Pool,
    orders: Vec<Order<M>>,
    gate: &G,
) -> Result<Ran<V>, NoMemory>
    requires ready { All IsReady devices.items }
    requires spare { All (IsSpareAmong M.makes devices.items) orders.items }
    ensures kept { IfOk result (λ r. AllZip (KeepsOrdered orders.items) devices.items r.devices.items) }
    ensures finished { IfOk result (λ r. All IsFinished r.devices.items) }
{
    let (table, places) = set_all(alloc, devices, &orders)?;
    let Table {
        turns,
        operator,
        seats,
    } = table;
    let shared = Shared::new(pool);
    let walks = walk_all(
        rt, alloc, &shared, &turns, gate, seats, operator, &places, orders,
    );
    let (seats, operator) = all_seats(&turns, walks)?;
    let mut devices = clear_all(
        alloc,
        Table {
            turns,
            operator,
            seats,
        },
    )?;
    let mut pool = shared.into_pool();
    finish_all(rt, &mut devices, &mut pool)?;
    Ok(Ran { devices, pool })
}
