ghost use Rattle.std.specs.Prelude.{◌≡◌, All, IfOk, List};
ghost use Rattle.std.specs.List.{AllZip};
ghost use Rattle.path_workers.specs.Keeping.{IsReady, IsWithin};
ghost use Rattle.path_threads.specs.Allowed.{allowed_of};
ghost use Rattle.path_threads.specs.Places.{Allows, IsPlaceOf, IsPromised, IsPromisedFor, KeepPromises, waiting_of, waits_for};
ghost use Rattle.device_turn.specs.Seating.{AreSet, IsSet};
ghost use Rattle.device_core.specs.State.{device_of};

use crate::allowed::allowed;
use crate::orders::Order;
use ckd_types::{DeviceNo, NoMemory, PathNo};
use device_core::Device;
use device_defs::Losses;
use device_outside::Volume;
use device_turn::{Setting, Table, clear, set};
use path_workers::Promise;
use std::alloc::Global;
use std::snapshot::Snapshot;

/// Which device stands in a turn, how many losses it may have, and how many programs of each path wait there.
#[derive(Clone, Copy, Debug, PartialEq, Eq)]
pub(crate) struct Place {
    pub number: DeviceNo,
    pub most: Losses,
    pub left: [u16; 4],
}

impl Place {
    /// A program of this path waits there.
    pub fn waits_for(&self, path: PathNo) -> bool
        ensures { result ≡ waits_for self.now path }
    {
        self.left[usize::from(path.get() - 1)] > 0
    }
}

type DeviceSetting<V> = Setting<Device<V>, Promise<V>>;

type DeviceTable<V> = Table<Device<V>, Promise<V>>;

/// How many losses a device may have while these orders are done.
fn most_of<V: Volume, M>(device: &Device<V>, orders: &[Order<M>]) -> Losses
    ensures is { result ≡ allowed_of orders.now device.now }
    ensures more { IsWithin (device_of device.now).store.counts.losses result }
{
    allowed(device.losses(), device.number(), orders)
}

/// How many programs of each path wait.
fn left_of<V: Volume>(device: &Device<V>) -> [u16; 4]
    ensures { result ≡ waiting_of device.now }
{
    [
        device.left(PathNo::of(1)),
        device.left(PathNo::of(2)),
        device.left(PathNo::of(3)),
        device.left(PathNo::of(4)),
    ]
}

/// A device stands in a turn.
fn set_one<V: Volume>(
    alloc: Global,
    device: Device<V>,
    most: Losses,
) -> Result<DeviceSetting<V>, NoMemory>
    requires ready { IsReady device }
    requires within { IsWithin (device_of device).store.counts.losses most }
    ensures set { IfOk result IsSet }
    ensures promised { IfOk result (λ s. IsPromised most device s.operator) }
{
    let promise = Promise {
        made: Snapshot::of(&device),
        most,
    };
    set(alloc, device, &promise)
}

/// Each device stands in a turn.
pub(crate) fn set_all<V: Volume, M>(
    alloc: Global,
    mut devices: Vec<Device<V>>,
    orders: &[Order<M>],
) -> Result<(DeviceTable<V>, Vec<Place>), NoMemory>
    requires { All IsReady devices.items }
    ensures set { IfOk result (λ r. AreSet r.0) }
    ensures promised { IfOk result (λ r. AllZip (IsPromisedFor orders.now) devices.items r.0.operator.items) }
    ensures allows { IfOk result (λ r. AllZip Allows r.1.items r.0.operator.items) }
    ensures places { IfOk result (λ r. AllZip IsPlaceOf devices.items r.1.items) }
{
    let mut table = Table::new(alloc);
    let mut places = Vec::new(alloc);
    for _ in 0..devices.len() {
        let device = devices.remove(0);
        let number = device.number();
        let most = most_of(&device, orders);
        let left = left_of(&device);
        let setting = set_one(alloc, device, most)?;
        table.push(setting)?;
        places.push(Place { number, most, left })?;
    }
    Ok((table, places))
}

/// The devices, in their order.
pub(crate) fn clear_all<V: Volume>(
    alloc: Global,
    mut table: DeviceTable<V>,
) -> Result<Vec<Device<V>>, NoMemory>
    requires { AreSet table }
    ensures { (most : _) → IfOk result (λ v. KeepPromises most table.operator.items v.items) }
{
    let mut devices = Vec::new(alloc);
    for _ in 0..table.turns.len() {
        let setting = table.pop();
        devices.insert(0, clear(setting))?;
    }
    Ok(devices)
}
