//! The lines at the end of a run.

ghost use Rattle.std.specs.Prelude.{◌≡◌, ◌++◌, IfOk, None, OnOk, map};
ghost use Rattle.std.specs.List.{flat_map};
ghost use Rattle.report_text.specs.declared.line.ReportLine.TheVariants as lines;
ghost use Rattle.run_report.specs.Closing.{device_lines, frame_line};
ghost use Rattle.subsystem_defs.specs.Closing.{Counted, LentTo};
ghost use Rattle.deck_run.specs.Ending.{end_by, end_lines_of, lost_at, lost_in};
ghost use Rattle.device_core.specs.State.{device_of};

use ckd_types::{DeviceNo, NoMemory, TrackNo};
use device_core::Device;
use device_outside::Volume;
use frame_pool::Pool;
use report_text::{DeviceTotals, ReportLine, RunRecord};
use std::alloc::Global;

/// A track is added where it is lost.
#[tactic(auto, using(crate::proofs::Closing::lost_here, crate::proofs::Closing::none_here))]
fn add_lost<V: Volume>(
    lost: &mut Vec<TrackNo>,
    device: &Device<V>,
    t: TrackNo,
) -> Result<(), NoMemory>
    ensures { OnOk result (lost.new.items ≡ lost.old.items ++ lost_at device.now t) }
{
    if !device.lost().has(t) {
        return Ok(());
    }
    lost.push(t)?;
    Ok(())
}

/// The lost tracks of a device, in rising order.
fn lost_in<V: Volume>(alloc: Global, device: &Device<V>) -> Result<Vec<TrackNo>, NoMemory>
    ensures { IfOk result (λ lost. lost.items ≡ lost_in device.now) }
{
    let tracks = device.cylinders() * 15;
    let mut lost = Vec::new(alloc);
    for t in 0..tracks {
        add_lost(&mut lost, device, TrackNo::new(t).unwrap())?;
    }
    Ok(lost)
}

fn record_lost(report: &mut RunRecord, d: DeviceNo, lost: &[TrackNo]) -> Result<(), NoMemory>
    ensures { OnOk result (report.new ≡ report.old ++ map (lines.Lost d) lost.now) }
{
    for track in lost {
        report.push(ReportLine::Lost(d, *track))?;
    }
    Ok(())
}

/// A device's calls, and these lost tracks.
fn record_end<V: Volume>(
    report: &mut RunRecord,
    device: &Device<V>,
    lost: &[TrackNo],
) -> Result<(), NoMemory>
    ensures { OnOk result (report.new ≡ report.old ++ device_lines
        (Counted (device_of device.now).store.device (device_of device.now).store.counts.reads (device_of device.now).store.counts.writes lost.now)) }
{
    let totals = DeviceTotals::Calls {
        reads: device.reads(),
        writes: device.writes(),
        lost: lost.len() as u64,
    };
    report.push(ReportLine::Device(device.number(), totals))?;
    record_lost(report, device.number(), lost)?;
    Ok(())
}

fn record_counted<V: Volume>(
    alloc: Global,
    report: &mut RunRecord,
    device: &Device<V>,
) -> Result<(), NoMemory>
    ensures { OnOk result (report.new ≡ report.old ++ device_lines (end_by device.now None)) }
{
    let lost = lost_in(alloc, device)?;
    record_end(report, device, &lost)?;
    Ok(())
}

/// The volume of a device is lent to another.
fn record_lent<V: Volume>(
    report: &mut RunRecord,
    device: &Device<V>,
    to: DeviceNo,
) -> Result<(), NoMemory>
    ensures { OnOk result (report.new ≡ report.old ++ device_lines (LentTo (device_of device.now).store.device to)) }
{
    report.push(ReportLine::Device(device.number(), DeviceTotals::Lent(to)))?;
    Ok(())
}

fn record_device<V: Volume>(
    alloc: Global,
    report: &mut RunRecord,
    device: &Device<V>,
) -> Result<(), NoMemory>
    ensures { OnOk result (report.new ≡ report.old ++ end_lines_of device.now) }
{
    match device.lent_to() {
        Some(to) => record_lent(report, device, to),
        None => record_counted(alloc, report, device),
    }
}

/// What is told of each device at the end.
pub(crate) fn record_devices<V: Volume>(
    alloc: Global,
    report: &mut RunRecord,
    devices: &[Device<V>],
) -> Result<(), NoMemory>
    ensures { OnOk result (report.new ≡ report.old ++ flat_map end_lines_of devices.now) }
{
    for device in devices {
        record_device(alloc, report, device)?;
    }
    Ok(())
}

/// The frames of the pool, the most recent first. None has more than can be counted.
pub(crate) fn record_frames(report: &mut RunRecord, pool: &Pool) -> Result<(), NoMemory>
    ensures { OnOk result (report.new ≡ report.old ++ map frame_line pool.now.pool.frames) }
{
    for i in 0..usize::MAX {
        let (device, track, modified) = match pool.entry(i) {
            Some(entry) => entry,
            None => return Ok(()),
        };
        report.push(ReportLine::Frame(device, track, modified))?;
    }
    Err(NoMemory)
}
