ghost use Rattle.std.specs.Prelude.{◌≡◌, ◌*◌, None, is_some, true};
ghost use Rattle.device_outside.specs.Volume.{counted};
ghost use Rattle.device_defs.specs.Events.{one_loss_more};
ghost use Rattle.device_core.specs.State.{device_of};
ghost use Rattle.device_defs.specs.Store.{tracks_of};
ghost use Rattle.subsystem_defs.specs.Refusals.{fail_fault, replace_fault, suspend_fault};
ghost use Rattle.path_workers.specs.Keeping.{IsWithin};
ghost use Rattle.path_workers.specs.Ordered.{CanLose, HasSize, HaveLosses, IsOrdered, IsPledged, MayLose, Suits};

use ckd_types::Side;
use device_core::Device;
use device_defs::Losses;
use device_outside::{Port, Volume, counted};
use loss_model::Loss;
use subsystem_core::{fail_fault, replace_fault, resume_fault, suspend_fault};

/// An order at one device.
#[derive(Drop)]
pub enum DeviceOrder<V> {
    /// A side is lost.
    Fail(Side),
    /// Side B is held.
    Suspend,
    /// What is stale on side B is copied again.
    Resume,
    /// A volume comes in the place of a failed side's, with every track stale.
    Replace(Side, V),
}

/// The losses with one more.
pub fn one_more(losses: Losses, loss: Loss) -> Losses
    ensures is { result ≡ one_loss_more losses loss }
    ensures more { IsWithin losses result }
{
    let Losses {
        cache,
        store,
        sides,
    } = losses;
    match loss {
        Loss::Cache => Losses {
            cache: counted(cache),
            store,
            sides,
        },
        Loss::Store => Losses {
            cache,
            store: counted(store),
            sides,
        },
        Loss::Side(_) => Losses {
            cache,
            store,
            sides: counted(sides),
        },
    }
}

fn is_within(losses: Losses, most: Losses) -> bool
    ensures { result ≡ true → IsWithin losses most }
{
    losses.cache <= most.cache && losses.store <= most.store && losses.sides <= most.sides
}

fn is_lent<V: Volume>(device: &Device<V>) -> bool
    ensures { result ≡ is_some (device_of device.now).store.lent }
{
    device.lent_to().is_some()
}

/// Whether a side may be lost.
fn may_fail<V: Volume>(device: &Device<V>, side: Side) -> bool
    ensures { result ≡ true → fail_fault (device_of device.now) side ≡ None }
{
    fail_fault(device, side).is_none()
}

/// Whether a side may get another volume.
fn may_replace<V: Volume>(device: &Device<V>, side: Side) -> bool
    ensures { result ≡ true → replace_fault (device_of device.now) side ≡ None }
{
    replace_fault(device, side).is_none()
}

/// Whether side B may be held.
fn may_suspend<V: Volume>(device: &Device<V>) -> bool
    ensures { result ≡ true → suspend_fault (device_of device.now) ≡ None }
{
    suspend_fault(device).is_none()
}

fn can_lose<V: Volume>(device: &Device<V>, loss: Loss) -> bool
    ensures { result ≡ true → CanLose loss device.now }
{
    match loss {
        Loss::Cache => true,
        Loss::Store => true,
        Loss::Side(side) => may_fail(device, side),
    }
}

fn may_at_home<V: Volume>(device: &Device<V>, loss: Loss, most: Losses) -> bool
    ensures { result ≡ true → (device_of device.now).store.lent ≡ None → IsWithin (one_loss_more (device_of device.now).store.counts.losses loss) most }
{
    if is_lent(device) {
        return true;
    }
    is_within(one_more(device.losses(), loss), most)
}

/// Whether a device may have one loss more of this kind. One that is lent has no side to lose, and nothing of cache or store.
pub fn may_lose<V: Volume>(device: &Device<V>, loss: Loss, most: Losses) -> bool
    ensures { result ≡ true → MayLose loss most device.now }
{
    if can_lose(device, loss) {
        return may_at_home(device, loss, most);
    }
    false
}

fn lose_at_home<V: Volume, P: Port>(device: &mut Device<V>, loss: Loss, most: Losses, port: &mut P)
    requires home { (device_of device.old).store.lent ≡ None }
    requires may { MayLose loss most device.old }
    ensures { IsOrdered (HaveLosses most) device.old device.new }
{
    let _allowed = most;
    device.lose(loss, port);
}

/// A loss that the device may have. One that is lent is left alone.
pub fn lose<V: Volume, P: Port>(device: &mut Device<V>, loss: Loss, most: Losses, port: &mut P)
    requires { MayLose loss most device.old }
    ensures { IsOrdered (HaveLosses most) device.old device.new }
{
    if is_lent(device) {
        return;
    }
    lose_at_home(device, loss, most, port);
}

/// A side is lost, unless it is down or the device has had as many such losses as it may have.
fn fail<V: Volume, P: Port>(device: &mut Device<V>, side: Side, most: Losses, port: &mut P)
    ensures { IsOrdered (HaveLosses most) device.old device.new }
{
    if !may_lose(device, Loss::Side(side), most) {
        return;
    }
    lose(device, Loss::Side(side), most, port);
}

fn suspend<V: Volume>(device: &mut Device<V>, most: Losses)
    ensures { IsOrdered (HaveLosses most) device.old device.new }
{
    let _allowed = most;
    if !may_suspend(device) {
        return;
    }
    device.hold();
}

fn resume<V: Volume>(device: &mut Device<V>, most: Losses)
    ensures { IsOrdered (HaveLosses most) device.old device.new }
{
    let _allowed = most;
    if resume_fault(device).is_some() {
        return;
    }
    device.resume();
}

/// The volume that it gets, or the one that it had, is dropped.
fn replace<V: Volume>(device: &mut Device<V>, side: Side, volume: V)
    requires { (V.view volume).tracks ≡ tracks_of (device_of device.old).store }
    ensures { IsOrdered (λ p. IsPledged p (V.view volume)) device.old device.new }
{
    if !may_replace(device, side) {
        return;
    }
    let _old = device.replace(side, volume);
}

/// An order at a device, which may have so many losses. One that is refused does nothing.
pub fn order<V: Volume, P: Port>(
    device: &mut Device<V>,
    order: DeviceOrder<V>,
    most: Losses,
    port: &mut P,
)
    requires { HasSize order device.old }
    ensures { IsOrdered (λ p. HaveLosses most p × Suits V.view order p) device.old device.new }
{
    match order {
        DeviceOrder::Fail(side) => fail(device, side, most, port),
        DeviceOrder::Suspend => suspend(device, most),
        DeviceOrder::Resume => resume(device, most),
        DeviceOrder::Replace(side, volume) => replace(device, side, volume),
    }
}
