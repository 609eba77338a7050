ghost use Rattle.std.specs.Prelude.{List, Some, ℕ, slice_get, slice_set, ◌≡◌, ◌<◌, IfOk, IfSome, OnOk, length, map};
ghost use Rattle.std.specs.List.{All, list_any};
ghost use Rattle.deck_audit.specs.declared.kept.Kept.{Kept};
ghost use Rattle.deck_audit.specs.declared.task.Task.TheVariants.{Settle, Work};
ghost use Rattle.deck_text.specs.declared.line.PlannedProgram.{PlannedProgram};
ghost use Rattle.report_text.specs.declared.line.ReportLine.{ReportLine};
ghost use Rattle.report_audit.specs.Auditor.{IsJudgedAt, IsSized, dark_kept, is_lent, kept_legal, kept_outline, lent_runs, new_kept, place_from, taken_back};

use ckd_types::{DeviceNo, NoMemory};
use deck_audit::{Did, Kept, OpenProgram, Outline, ReplayedDevice, Task, Then, range_of};
use deck_plan::EventLine;
use deck_text::Deck;
use report_text::ReportLine;
use std::alloc::Global;

/// The place of the first device of a number.
pub fn place_of(devices: &[Kept], d: DeviceNo) -> Option<usize>
    ensures place { result ≡ place_from 0 devices.now d }
    ensures within { IfSome result (λ at. at < length devices.now) }
{
    for (i, kept) in devices.iter().enumerate() {
        if kept.device.number().get() == d.get() {
            return Some(i);
        }
    }
    None
}

fn set_outline(outlines: &mut [Outline], at: usize, outline: Outline)
    ensures { outlines.new ≡ slice_set outlines.old at outline }
{
    if at < outlines.len() {
        outlines[at] = outline;
    }
}

/// The device of that place judges the line, and its outline is renewed.
pub fn judge_at(
    alloc: Global,
    deck: &Deck,
    devices: &mut [Kept],
    outlines: &mut [Outline],
    at: usize,
    d: DeviceNo,
    line: &ReportLine,
    task: Task,
) -> Result<Option<Then>, NoMemory>
    requires { at < length devices.old }
    ensures outline { IfOk result (λ next. (k : Kept) → slice_get devices.new at ≡ Some k → outlines.new ≡ slice_set outlines.old at (kept_outline k)) }
    ensures judged { IfOk result (λ next. IsJudgedAt deck.now.programs devices.old devices.new at d line.now task next) }
{
    range_of(&task);
    let _count = devices.len();
    let plans = deck.plans(d);
    let kept = &mut devices[at];
    let next = kept.line(alloc, plans, at, line, task)?;
    let outline = kept.device.outline();
    set_outline(outlines, at, outline);
    Ok(next)
}

/// The device of that place judges the first line of a piece of work, and its outline is renewed.
pub fn work_at(
    alloc: Global,
    deck: &Deck,
    devices: &mut [Kept],
    outlines: &mut [Outline],
    at: usize,
    d: DeviceNo,
    line: &ReportLine,
) -> Result<Option<Then>, NoMemory>
    requires { at < length devices.old }
    ensures outline { IfOk result (λ next. (k : Kept) → slice_get devices.new at ≡ Some k → outlines.new ≡ slice_set outlines.old at (kept_outline k)) }
    ensures judged { IfOk result (λ next. IsJudgedAt deck.now.programs devices.old devices.new at d line.now Work next) }
{
    let _count = devices.len();
    let plans = deck.plans(d);
    let kept = &mut devices[at];
    let next = kept.work_line(alloc, plans, line)?;
    let outline = kept.device.outline();
    set_outline(outlines, at, outline);
    Ok(next)
}

/// The device of that place takes a piece of work of the event as done, and its outline is renewed.
pub fn settle_at(
    devices: &mut [Kept],
    outlines: &mut [Outline],
    at: usize,
    event: Option<EventLine>,
    did: &Did,
) -> Result<Then, NoMemory>
    requires { at < length devices.old }
    ensures outline { IfOk result (λ next. (k : Kept) → slice_get devices.new at ≡ Some k → outlines.new ≡ slice_set outlines.old at (kept_outline k)) }
    ensures judged { IfOk result (λ next. (programs : List PlannedProgram) (d : ℕ) (line : ReportLine) →
        IsJudgedAt programs devices.old devices.new at d line (Settle event did.now) (Some next)) }
{
    let _count = devices.len();
    let kept = &mut devices[at];
    let next = kept.settle_line(event, did)?;
    let outline = kept.device.outline();
    set_outline(outlines, at, outline);
    Ok(next)
}

/// The devices of a deck before its first event.
pub fn kept_devices(alloc: Global, deck: &Deck) -> Result<Vec<Kept>, NoMemory>
    requires { All IsSized deck.now.devices }
    ensures { IfOk result (λ made. made.items ≡ map new_kept deck.now.devices) }
{
    let mut devices = Vec::with_capacity(alloc, deck.device_count())?;
    for i in 0..deck.device_count() {
        let device = ReplayedDevice::new(alloc, deck.device_at(i))?;
        devices.push(Kept { device, ended: 0 })?;
    }
    Ok(devices)
}

/// The outlines of the devices as they are now, in the room for them.
pub fn outline_all(devices: &[Kept], outlines: &mut Vec<Outline>) -> Result<(), NoMemory>
    ensures { OnOk result (outlines.new.items ≡ map kept_outline devices.now) }
{
    outlines.clear();
    for kept in devices {
        let outline = kept.device.outline();
        let _program: Option<OpenProgram> = outline.running;
        outlines.push(outline)?;
    }
    Ok(())
}

/// What the device did may be so.
pub fn is_legal(kept: &Kept, did: &Did) -> bool
    ensures { result ≡ kept_legal did.now kept.now }
{
    match did {
        Did::Ended(_) => kept.device.is_legal(),
        _ => true,
    }
}

/// The device has its volume from `a`'s pair.
fn is_lent(kept: &Kept, a: DeviceNo) -> bool
    ensures { result ≡ is_lent a kept.now }
{
    match kept.device.lent {
        Some(of) => of.get() == a.get(),
        None => false,
    }
}

fn lent_runs(kept: &Kept, a: DeviceNo) -> bool
    ensures { result ≡ lent_runs a kept.now }
{
    is_lent(kept, a) && kept.device.running_path().is_some()
}

/// A device whose volume is lent to `a` runs a program.
pub fn any_lent_runs(devices: &[Kept], a: DeviceNo) -> bool
    ensures { result ≡ list_any (lent_runs a) devices.now }
{
    for kept in devices {
        if lent_runs(kept, a) {
            return true;
        }
    }
    false
}

fn take_back(kept: &mut Kept, alloc: Global, a: DeviceNo) -> Result<(), NoMemory>
    ensures { OnOk result (kept.new ≡ taken_back a kept.old) }
{
    if is_lent(kept, a) {
        kept.device.give_back(alloc)?;
    }
    Ok(())
}

/// The volumes that are lent to `a` come back, empty.
pub fn take_all_back(alloc: Global, devices: &mut [Kept], a: DeviceNo) -> Result<(), NoMemory>
    ensures { OnOk result (devices.new ≡ map (taken_back a) devices.old) }
{
    for kept in devices.iter_mut() {
        take_back(kept, alloc, a)?;
    }
    Ok(())
}

/// A loss of power takes the data of cache fast write of all devices, and all that is kept of the paths.
pub fn lose_power(alloc: Global, devices: &mut [Kept])
    ensures { devices.new ≡ map dark_kept devices.old }
{
    for kept in devices.iter_mut() {
        kept.device.lose_power(alloc);
    }
}
