//! What is told of the acts of cache fast write that came with an event.

ghost use Rattle.std.specs.Prelude.{◌≡◌, [], IfOk, if◌then◌else◌};
ghost use Rattle.device_core.specs.State.{device_of};
ghost use Rattle.run_report.specs.Beside.{id_of};
ghost use Rattle.subsystem_defs.specs.Beside.{has_power, is_power};
ghost use Rattle.deck_run.specs.Loosening.{acts_when, all_loosed, is_quiet, loosed_by, power_by};
ghost use Rattle.deck_run.specs.Seen.{acts_seen};

use ckd_types::{DeviceNo, NoMemory};
use device_core::Device;
use device_outside::Volume;
use plain_defs::{Act, Item};
use report_text::{LooseAnswer, Loosed};
use std::alloc::Global;
use subsystem_core::EventEnd;
use subsystem_defs::{Event, EventEnd as End};

pub(crate) fn is_quiet(e: &Event) -> bool
    ensures { result ≡ is_quiet e.now }
{
    match e {
        Event::Reset(_, _) | Event::Power => true,
        Event::Suspend(_) | Event::Resume(_) => true,
        Event::RepairCache | Event::RepairStore => true,
        _ => false,
    }
}

fn done_acts<V: Volume>(quiet: bool, device: &Device<V>) -> &[Act]
    ensures { result.now ≡ (if quiet then [] else (device_of device.now).store.acts) }
{
    if quiet {
        return &[];
    }
    device.acts()
}

/// The acts that came with an event which ended so, as the definitions have its end.
pub(crate) fn acts_when<'a, V: Volume>(quiet: bool, end: &End, device: &'a Device<V>) -> &'a [Act]
    ensures { result.now ≡ acts_when quiet end.now (device_of device.now) }
{
    match end {
        End::Stepped(_) | End::Second(_) | End::Back(_) => device.acts(),
        End::Done => done_acts(quiet, device),
        _ => &[],
    }
}

/// The same, as the subsystem says it.
pub(crate) fn acts_seen<'a, V: Volume>(
    quiet: bool,
    end: &EventEnd,
    device: &'a Device<V>,
) -> &'a [Act]
    ensures { result.now ≡ acts_seen quiet end.now (device_of device.now) }
{
    match end {
        EventEnd::Stepped(_) | EventEnd::Second(_) | EventEnd::Back(_) => device.acts(),
        EventEnd::Done => done_acts(quiet, device),
        _ => &[],
    }
}

fn id_of(number: u16) -> [u8; 2]
    ensures { result ≡ id_of number }
{
    [(number / 256) as u8, (number % 256) as u8]
}

/// What is told of an act, where so many tracks were loose before, and this is the number of the data behind.
pub fn loosed_by(device: DeviceNo, count: u16, number: u16, act: Act) -> Loosed
    ensures { result ≡ loosed_by device count number act }
{
    let answer = match act {
        Act::Loosen(track) => LooseAnswer::Loosen(track),
        Act::Harden(track) => LooseAnswer::Harden(track),
        Act::CfwLost => LooseAnswer::Lost {
            count,
            id: id_of(number),
        },
    };
    Loosed { device, answer }
}

fn is_power(item: &Item) -> bool
    ensures { result ≡ is_power item.now }
{
    match item {
        Item::Power => true,
        _ => false,
    }
}

#[tactic(auto, using(crate::proofs::Loosened::power_more, crate::proofs::Loosened::power_none))]
fn has_power(items: &[Item]) -> bool
    ensures { result ≡ has_power items.now }
{
    for item in items {
        if is_power(item) {
            return true;
        }
    }
    false
}

/// What came to a device in an event: of the acts that came with it, and of a loss of power among the items that came.
pub(crate) fn all_loosed<V: Volume>(
    alloc: Global,
    d: DeviceNo,
    count: u16,
    device: &Device<V>,
    acts: &[Act],
    items: &[Item],
) -> Result<Vec<Loosed>, NoMemory>
    ensures { IfOk result (λ told. told.items ≡ all_loosed d count (device_of device.now).store.number acts.now (has_power items.now)) }
{
    let number = device.data_number();
    let mut told = Vec::new(alloc);
    for act in acts {
        told.push(loosed_by(d, count, number, *act))?;
    }
    if has_power(items) && count != 0 {
        told.push(loosed_by(d, count, number, Act::CfwLost))?;
    }
    Ok(told)
}
