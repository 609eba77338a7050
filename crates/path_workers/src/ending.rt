ghost use Rattle.std.specs.Prelude.{◌≡◌, All, IfSome, None, OnOk, false, is_some, true};
ghost use Rattle.std.specs.List.{AllZip};
ghost use Rattle.device_defs.specs.Start.{start_fault};
ghost use Rattle.device_core.specs.State.{device_of};
ghost use Rattle.path_workers.specs.Keeping.{IsFinished, StaysKept};

use crate::events::{begin, is_lent};
use ckd_types::{NoMemory, PathNo};
use device_core::Device;
use device_outside::{Port, Volume};
use std::sync::Wait;

/// The next program of a path starts, which nothing keeps out.
fn start<V: Volume>(device: &mut Device<V>, path: PathNo) -> Result<(), NoMemory>
    requires free { start_fault (device_of device.old) path ≡ None }
    ensures stays { OnOk result (StaysKept device.old device.new) }
{
    let _number = path.get();
    match begin(device, path) {
        Err(NoMemory) => Err(NoMemory),
        Ok(()) => Ok(()),
    }
}

/// Some path's program runs.
fn is_busy<V: Volume>(device: &Device<V>) -> bool
    ensures { result ≡ is_some (device_of device.now).history.running }
{
    device.active().is_some()
}

/// The command at hand.
fn command<V: Volume, P: Port>(device: &mut Device<V>, port: &mut P) -> Result<(), NoMemory>
    requires home { (device_of device.old).store.lent ≡ None }
    requires runs { is_some (device_of device.old).history.running ≡ true }
    requires whole { is_some (device_of device.old).store.half ≡ false }
    ensures stays { OnOk result (StaysKept device.old device.new) }
{
    device.recall_chain();
    match device.command(port) {
        Err(NoMemory) => Err(NoMemory),
        Ok(_) => Ok(()),
    }
}

/// The other part of a write.
fn second<V: Volume, P: Port>(device: &mut Device<V>, port: &mut P)
    requires home { (device_of device.old).store.lent ≡ None }
    requires half { is_some (device_of device.old).store.half ≡ true }
    ensures { StaysKept device.old device.new }
{
    device.second(port);
}

/// The first path whose next program nothing keeps out.
fn first_free<V: Volume>(device: &Device<V>) -> Option<PathNo>
    ensures { IfSome result (λ path. start_fault (device_of device.now) path ≡ None) }
{
    for number in 1..5 {
        let Some(path) = PathNo::new(number) else {
            continue;
        };
        if device.start_fault(path).is_none() {
            return Some(path);
        }
    }
    None
}

/// Its next program starts.
fn start_first<V: Volume>(device: &mut Device<V>) -> Result<(), NoMemory>
    ensures stays { OnOk result (StaysKept device.old device.new) }
{
    match first_free(device) {
        Some(path) => start(device, path),
        None => Ok(()),
    }
}

/// One event of a device: the other part of its half write, a command of its program that runs, or the start of a program.
fn next_event<V: Volume, P: Port>(device: &mut Device<V>, port: &mut P) -> Result<(), NoMemory>
    ensures stays { OnOk result (StaysKept device.old device.new) }
{
    if is_lent(device) {
        return Ok(());
    }
    if device.half_open() {
        second(device, port);
        return Ok(());
    }
    if is_busy(device) {
        return command(device, port);
    }
    start_first(device)
}

/// Does what is left of a device, until it is finished and no write is half done.
pub fn finish<R: Wait, V: Volume, P: Port>(
    rt: &R,
    device: &mut Device<V>,
    port: &mut P,
) -> Result<(), NoMemory>
    ensures stays { OnOk result (StaysKept device.old device.new) }
    ensures finished { OnOk result (IsFinished device.new) }
{
    for _ in rt.forever() {
        if !device.half_open() && device.finished() {
            return Ok(());
        }
        next_event(device, port)?;
    }
    unreachable!()
}

/// Finishes each device.
pub fn finish_all<R: Wait, V: Volume, P: Port>(
    rt: &R,
    devices: &mut [Device<V>],
    port: &mut P,
) -> Result<(), NoMemory>
    ensures stay { OnOk result (AllZip StaysKept devices.old devices.new) }
    ensures finished { OnOk result (All IsFinished devices.new) }
{
    for i in 0..devices.len() {
        finish(rt, &mut devices[i], port)?;
    }
    Ok(())
}
