//! One event of one device, with what its lines tell.

ghost use Rattle.std.specs.Prelude.{◌≡◌, ℕ, IfOk, OnOk, option_map};
ghost use Rattle.device_core.specs.State.{device_of};
ghost use Rattle.subsystem_defs.specs.Beside.{behind_first};
ghost use Rattle.subsystem_defs.specs.Subsystem as runs;
ghost use Rattle.deck_run.specs.Counting.{more_calls};
ghost use Rattle.deck_run.specs.Owning.{AreOwn, IsOpenOn};
ghost use Rattle.deck_run.specs.Passing.{HasPassed};
ghost use Rattle.deck_run.specs.Recording.{program_from, running_of};
ghost use Rattle.deck_run.specs.Seen.{ShowsEnd};
ghost use Rattle.deck_run.specs.Standing.{StandsAs};
ghost use Rattle.subsystem_core.specs.Frames.{HasDevice, HasSameDevices};

use crate::act_lines::{acts_seen, all_loosed, is_quiet};
use crate::event::do_event;
use ckd_types::{DeviceNo, NoMemory, PathNo};
use device_core::Device;
use device_outside::Volume;
use plain_defs::Item;
use report_text::Loosed;
use run_report::{Calls, RunningProgram};
use std::alloc::Global;
use subsystem_core::{EventEnd, Subsystem};
use subsystem_defs::Event;

/// What passed at an event of a device: how it ended, the program that ran there before it, how many items the journal had then,
/// what came of data of cache fast write, and the volume calls of the event. The end of a command stands in the device's journal.
#[derive(Drop)]
pub(crate) struct Passed {
    pub end: EventEnd,
    pub running: Option<RunningProgram>,
    pub items: usize,
    pub acts: Vec<Loosed>,
    pub calls: Calls,
}

fn program_of(running: Option<(PathNo, u16)>) -> Option<RunningProgram>
    ensures { result ≡ option_map program_from running }
{
    match running {
        Some(running) => Some(RunningProgram {
            path: running.0,
            ordinal: running.1,
        }),
        None => None,
    }
}

fn running_of<V: Volume>(device: &Device<V>) -> Option<RunningProgram>
    ensures { result ≡ running_of device.now }
{
    program_of(device.running())
}

fn calls_of<V: Volume>(device: &Device<V>) -> Calls
    ensures reads { result.reads ≡ (device_of device.now).store.counts.reads }
    ensures writes { result.writes ≡ (device_of device.now).store.counts.writes }
{
    Calls {
        reads: device.reads(),
        writes: device.writes(),
    }
}

/// How many calls came to a count. Where it may have stopped at the greatest number, none is told, as for want of memory.
#[tactic(auto, using(crate::proofs::Between::between))]
fn count_between(before: u64, behind: u64) -> Result<u64, NoMemory>
    ensures { IfOk result (λ n. (k : ℕ) → behind ≡ more_calls k before → n ≡ k) }
{
    if behind == u64::MAX {
        return Err(NoMemory);
    }
    Ok(behind.saturating_sub(before))
}

fn calls_between(before: Calls, behind: Calls) -> Result<Calls, NoMemory>
    ensures reads { IfOk result (λ calls. (k : ℕ) → behind.reads ≡ more_calls k before.reads → calls.reads ≡ k) }
    ensures writes { IfOk result (λ calls. (k : ℕ) → behind.writes ≡ more_calls k before.writes → calls.writes ≡ k) }
{
    let reads = count_between(before.reads, behind.reads)?;
    let writes = count_between(before.writes, behind.writes)?;
    Ok(Calls { reads, writes })
}

/// The items of a journal behind the first ones, so many of them.
#[tactic(auto, using(crate::proofs::Between::behind_is, crate::proofs::Between::behind_none))]
pub(crate) fn behind_first(items: &[Item], n: usize) -> &[Item]
    ensures { result.now ≡ behind_first n items.now }
{
    if n >= items.len() {
        return &[];
    }
    items.split_at(n).1
}

/// An event of one device, which is what happens in the defined run.
#[inline(always)]
pub(crate) fn pass<V: Volume>(
    alloc: Global,
    sub: &mut Subsystem<V>,
    d: DeviceNo,
    e: Event,
) -> Result<Passed, NoMemory>
    requires here { HasDevice sub.old d }
    requires on { IsOpenOn d e }
    requires own { AreOwn sub.old.devices.items }
    ensures numbers { HasSameDevices sub.old sub.new }
    ensures own { OnOk result (AreOwn sub.new.devices.items) }
    ensures shows { IfOk result (λ passed. ShowsEnd sub.new d passed.end) }
    ensures passed { (run : runs.Subsystem) → StandsAs sub.old run → IfOk result (λ passed. HasPassed sub.new run e d passed) }
{
    let device = sub.device(d);
    let running = running_of(device);
    let items = device.journal().len();
    let loose = device.loose_count();
    let before = calls_of(device);
    let quiet = is_quiet(&e);
    let end = do_event(sub, d, e)?;
    let behind = sub.device(d);
    let calls = calls_between(before, calls_of(behind))?;
    let came = behind_first(behind.journal(), items);
    let noted = acts_seen(quiet, &end, behind);
    let acts = all_loosed(alloc, d, loose, behind, noted, came)?;
    Ok(Passed {
        end,
        running,
        items,
        acts,
        calls,
    })
}
