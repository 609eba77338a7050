ghost use Rattle.std.specs.Prelude.{◌≡◌, IfOk, None, OnOk, false, is_some, true};
ghost use Rattle.device_outside.specs.Outside.{where_ok};
ghost use Rattle.device_defs.specs.Contents.{contents};
ghost use Rattle.device_defs.specs.Events.{background};
ghost use Rattle.device_defs.specs.Start.{is_finished};
ghost use Rattle.device_core.specs.State.{device_of};
ghost use Rattle.path_workers.specs.Comes.{Comes};
ghost use Rattle.path_workers.specs.Keeping.{Moves};
ghost use Rattle.path_workers.specs.Visits.{background_event, half_event, is_backgrounds, is_done, is_idle, rested_came, whatever};
ghost use Rattle.path_workers.specs.declared.events.Came.TheVariants.{Over};

use crate::events::{Came, is_lent};
use ckd_types::NoMemory;
use device_core::{Device, HalfOrigin};
use device_defs::Did;
use device_outside::{Port, Volume};

/// Nothing was left to do by itself, or it can't be done.
fn is_idle(did: Did) -> bool
    ensures { result ≡ is_idle did }
{
    match did {
        Did::Nothing => true,
        Did::Fault(_) => true,
        Did::BadBytes(_) => true,
        _ => false,
    }
}

/// Whether the open half write is the background's own.
fn is_own<V: Volume>(device: &Device<V>) -> bool
    ensures { result ≡ is_backgrounds (device_of device.now).store.half }
{
    match device.half_of() {
        Some((_, origin)) => origin == HalfOrigin::Background,
        None => false,
    }
}

/// Over where the device is finished and rests; where it rests until others did something, again.
fn rested<V: Volume>(device: &Device<V>, rests: bool) -> Came
    ensures over { result ≡ Over → is_done (device_of device.now) ≡ true }
    ensures came { result ≡ rested_came rests (is_finished (device_of device.now)) }
{
    if !rests {
        return Came::Went;
    }
    if device.finished() {
        Came::Over
    } else {
        Came::Again
    }
}

fn work<V: Volume, P: Port>(device: &mut Device<V>, port: &mut P) -> Result<Came, NoMemory>
    requires home { (device_of device.old).store.lent ≡ None }
    requires whole { is_some (device_of device.old).store.half ≡ false }
    ensures run { Comes (where_ok result) (whatever (background contents (device_of device.old)))
        (P.view port.old) device.old (P.view port.new) device.new }
    ensures over { IfOk result (λ came. came ≡ Over → is_done (device_of device.new) ≡ true) }
    ensures moves { OnOk result (Moves 5 device.old device.new) }
{
    match device.background(port) {
        Err(NoMemory) => Err(NoMemory),
        Ok(did) => Ok(rested(device, is_idle(did))),
    }
}

/// The other part of the background's own write; another worker's is waited for.
fn half_work<V: Volume, P: Port>(device: &mut Device<V>, port: &mut P) -> Result<Came, NoMemory>
    requires home { (device_of device.old).store.lent ≡ None }
    ensures run { Comes (where_ok result) (half_event contents (device_of device.old) (is_backgrounds (device_of device.old).store.half))
        (P.view port.old) device.old (P.view port.new) device.new }
    ensures over { IfOk result (λ came. came ≡ Over → is_done (device_of device.new) ≡ true) }
    ensures moves { OnOk result (Moves 5 device.old device.new) }
{
    if is_own(device) {
        device.second(port);
        return Ok(Came::Went);
    }
    Ok(Came::Again)
}

/// One event in the background, and whether the device is finished and rests.
pub fn background_event<V: Volume, P: Port>(
    device: &mut Device<V>,
    port: &mut P,
) -> Result<Came, NoMemory>
    ensures run { Comes (where_ok result) (background_event contents (device_of device.old))
        (P.view port.old) device.old (P.view port.new) device.new }
    ensures over { IfOk result (λ came. came ≡ Over → is_done (device_of device.new) ≡ true) }
    ensures moves { OnOk result (Moves 5 device.old device.new) }
{
    if is_lent(device) {
        return Ok(Came::Over);
    }
    if device.half_open() {
        return half_work(device, port);
    }
    work(device, port)
}
