//! The history of some devices: of each its journal, the programs that weren't started, and its lost tracks.

ghost use Rattle.std.specs.Prelude.{◌≡◌, ◌++◌, ◌∷◌, [], None, map};
ghost use Rattle.std.specs.List.{flat_map};
ghost use Rattle.ckd_outside.specs.Causes.{HasCause};
ghost use Rattle.ckd_outside.specs.Texts.{Puts, Writes};
ghost use Rattle.loss_model.specs.Lost.{lost_tracks};
ghost use Rattle.report_text.specs.Ends.{lines_text};
ghost use Rattle.report_text.specs.declared.line.ReportLine.TheVariants as lines;
ghost use Rattle.device_core.specs.State.{device_of};
ghost use Rattle.device_defs.specs.Start.{left};
ghost use Rattle.deck_run.specs.Ending.{lost_in};
ghost use Rattle.path_top.specs.Devices.{all_told, told_by};
ghost use Rattle.path_top.specs.Told.{device_lines, end_lines, history_lines, left_line, left_lines};

use crate::journal::put_journal;
use crate::line::put_line;
use ckd_outside::{Failed, LineBuffer, Sink, flush};
use ckd_types::{DeviceNo, PathNo};
use device_core::Device;
use device_outside::Volume;
use loss_model::LostList;
use report_text::{DeviceTotals, ReportLine};

/// The path's programs that weren't started, where there are some.
fn put_left<V: Volume, K: Sink>(
    sink: &mut K,
    buffer: &mut LineBuffer,
    device: &Device<V>,
    path: PathNo,
) -> Result<(), Failed>
    ensures bytes { Puts (K.held sink.old) buffer.old (K.held sink.new) buffer.new result
        (lines_text (left_line (device_of device.now).store.device path (left (device_of device.now) path))) }
    ensures cause { HasCause (K.faults sink.old) (K.faults sink.new) result }
{
    match device.left(path) {
        0 => Ok(()),
        n => put_line(sink, buffer, &ReportLine::Left(path, device.number(), n)),
    }
}

fn put_all_left<V: Volume, K: Sink>(
    sink: &mut K,
    buffer: &mut LineBuffer,
    device: &Device<V>,
) -> Result<(), Failed>
    ensures bytes { Puts (K.held sink.old) buffer.old (K.held sink.new) buffer.new result
        (lines_text (left_lines (device_of device.now).store.device 1 (told_by device.now).left)) }
    ensures cause { HasCause (K.faults sink.old) (K.faults sink.new) result }
{
    for number in 1..5 {
        put_left(sink, buffer, device, PathNo::of(number))?;
    }
    Ok(())
}

fn put_lost<K: Sink>(
    sink: &mut K,
    buffer: &mut LineBuffer,
    d: DeviceNo,
    lost: &LostList,
) -> Result<(), Failed>
    ensures bytes { Puts (K.held sink.old) buffer.old (K.held sink.new) buffer.new result (lines_text (map (lines.Lost d) (lost_tracks lost.now))) }
    ensures cause { HasCause (K.faults sink.old) (K.faults sink.new) result }
{
    for t in lost.iter() {
        put_line(sink, buffer, &ReportLine::Lost(d, t))?;
    }
    Ok(())
}

/// How many tracks are lost, and which.
fn put_losses<V: Volume, K: Sink>(
    sink: &mut K,
    buffer: &mut LineBuffer,
    device: &Device<V>,
) -> Result<(), Failed>
    ensures bytes { Puts (K.held sink.old) buffer.old (K.held sink.new) buffer.new result
        (lines_text (end_lines (device_of device.now).store.device None (lost_in device.now))) }
    ensures cause { HasCause (K.faults sink.old) (K.faults sink.new) result }
{
    let d = device.number();
    let n = device.lost().len() as u64;
    put_line(sink, buffer, &ReportLine::Device(d, DeviceTotals::Lost(n)))?;
    put_lost(sink, buffer, d, device.lost())
}

/// To whom the volume is lent, or the lost tracks.
fn put_end<V: Volume, K: Sink>(
    sink: &mut K,
    buffer: &mut LineBuffer,
    device: &Device<V>,
) -> Result<(), Failed>
    ensures bytes { Puts (K.held sink.old) buffer.old (K.held sink.new) buffer.new result
        (lines_text (end_lines (device_of device.now).store.device (told_by device.now).lent (told_by device.now).lost)) }
    ensures cause { HasCause (K.faults sink.old) (K.faults sink.new) result }
{
    match device.lent_to() {
        Some(to) => {
            let totals = DeviceTotals::Lent(to);
            put_line(sink, buffer, &ReportLine::Device(device.number(), totals))
        }
        None => put_losses(sink, buffer, device),
    }
}

/// What stands behind a device's journal.
fn put_behind_journal<V: Volume, K: Sink>(
    sink: &mut K,
    buffer: &mut LineBuffer,
    device: &Device<V>,
) -> Result<(), Failed>
    ensures bytes { Puts (K.held sink.old) buffer.old (K.held sink.new) buffer.new result
        (lines_text (left_lines (device_of device.now).store.device 1 (told_by device.now).left
        ++ end_lines (device_of device.now).store.device (told_by device.now).lent (told_by device.now).lost)) }
    ensures cause { HasCause (K.faults sink.old) (K.faults sink.new) result }
{
    put_all_left(sink, buffer, device)?;
    put_end(sink, buffer, device)
}

fn put_device<V: Volume, K: Sink>(
    sink: &mut K,
    buffer: &mut LineBuffer,
    device: &Device<V>,
) -> Result<(), Failed>
    ensures bytes { Puts (K.held sink.old) buffer.old (K.held sink.new) buffer.new result (lines_text (device_lines (told_by device.now))) }
    ensures cause { HasCause (K.faults sink.old) (K.faults sink.new) result }
{
    put_journal(sink, buffer, device.number(), device.journal())?;
    put_behind_journal(sink, buffer, device)
}

fn put_devices<V: Volume, K: Sink>(
    sink: &mut K,
    buffer: &mut LineBuffer,
    devices: &[Device<V>],
) -> Result<(), Failed>
    ensures bytes { Puts (K.held sink.old) buffer.old (K.held sink.new) buffer.new result (lines_text (flat_map device_lines (all_told devices.now))) }
    ensures cause { HasCause (K.faults sink.old) (K.faults sink.new) result }
{
    for device in devices {
        put_device(sink, buffer, device)?;
    }
    Ok(())
}

/// How many event lines are unused, and the last line.
fn put_finish<K: Sink>(sink: &mut K, buffer: &mut LineBuffer, unused: u32) -> Result<(), Failed>
    ensures bytes { Puts (K.held sink.old) buffer.old (K.held sink.new) buffer.new result (lines_text (lines.Unused unused ∷ lines.Finish ∷ [])) }
    ensures cause { HasCause (K.faults sink.old) (K.faults sink.new) result }
{
    put_line(sink, buffer, &ReportLine::Unused(unused))?;
    put_line(sink, buffer, &ReportLine::Finish)
}

fn put_history<V: Volume, K: Sink>(
    sink: &mut K,
    buffer: &mut LineBuffer,
    devices: &[Device<V>],
    unused: u32,
) -> Result<(), Failed>
    ensures bytes { Puts (K.held sink.old) buffer.old (K.held sink.new) buffer.new result (lines_text (history_lines (all_told devices.now) unused)) }
    ensures cause { HasCause (K.faults sink.old) (K.faults sink.new) result }
{
    put_devices(sink, buffer, devices)?;
    put_finish(sink, buffer, unused)
}

/// Writes the history of some devices through a buffer, and takes no memory. So many event lines are told as unused.
pub fn write_history<V: Volume, K: Sink>(
    sink: &mut K,
    devices: &[Device<V>],
    unused: u32,
) -> Result<(), Failed>
    ensures text { Writes (K.held sink.old) (K.held sink.new) result (lines_text (history_lines (all_told devices.now) unused)) }
    ensures cause { HasCause (K.faults sink.old) (K.faults sink.new) result }
{
    let mut buffer = LineBuffer::new();
    put_history(sink, &mut buffer, devices, unused)?;
    flush(sink, &mut buffer)
}
