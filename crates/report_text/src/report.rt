ghost use Rattle.std.specs.Prelude.{◌≡◌, ◌<◌, ◌++◌, length, slice_index_or};
ghost use Rattle.std.specs.List.{flat_map};
ghost use Rattle.ckd_outside.specs.Causes.{HasCause};
ghost use Rattle.ckd_outside.specs.Texts.{Puts, Writes};
ghost use Rattle.report_text.specs.declared.line.ReportLine.TheVariants as lines;
ghost use Rattle.report_text.specs.Lines.{line_text};
ghost use Rattle.report_text.specs.Report.{device_text, frame_text, lost_text, report_text};

use crate::{DeviceTotals, LineSpelling, ReportLine, RunRecord};
use ckd_outside::{Failed, LineBuffer, Sink, Spelling, flush, put_all};
use ckd_types::{DeviceNo, TrackNo};

/// What is said of a device behind the events: its totals, and its lost tracks in rising order, none where its volume
/// is lent.
#[derive(Clone, Copy)]
pub struct DeviceEnd<'a> {
    pub device: DeviceNo,
    pub totals: DeviceTotals,
    pub lost: &'a [TrackNo],
}

/// A frame of the cache behind the events, and whether it is modified.
#[derive(Clone, Copy, Debug, PartialEq, Eq)]
pub struct FrameEnd {
    pub device: DeviceNo,
    pub track: TrackNo,
    pub modified: bool,
}

fn nth(tracks: &[TrackNo], i: usize) -> TrackNo
    requires { i < length tracks.now }
    ensures { result ≡ slice_index_or tracks.now i result }
{
    tracks[i]
}

fn put_lost<K: Sink>(
    sink: &mut K,
    buffer: &mut LineBuffer,
    device: DeviceNo,
    tracks: &[TrackNo],
) -> Result<(), Failed>
    ensures bytes { Puts (K.held sink.old) buffer.old (K.held sink.new) buffer.new result (lost_text device tracks.now) }
    ensures cause { HasCause (K.faults sink.old) (K.faults sink.new) result }
{
    for i in 0..tracks.len() {
        LineSpelling::put(sink, buffer, &ReportLine::Lost(device, nth(tracks, i)))?;
    }
    Ok(())
}

impl<'a> Spelling<DeviceEnd<'a>> for LineSpelling {
    ghost text = { device_text };

    fn put<K: Sink>(
        sink: &mut K,
        buffer: &mut LineBuffer,
        it: &DeviceEnd<'a>,
    ) -> Result<(), Failed> {
        LineSpelling::put(sink, buffer, &ReportLine::Device(it.device, it.totals))?;
        put_lost(sink, buffer, it.device, it.lost)
    }
}

impl Spelling<FrameEnd> for LineSpelling {
    ghost text = { frame_text };

    fn put<K: Sink>(sink: &mut K, buffer: &mut LineBuffer, it: &FrameEnd) -> Result<(), Failed> {
        LineSpelling::put(
            sink,
            buffer,
            &ReportLine::Frame(it.device, it.track, it.modified),
        )
    }
}

fn put_frames<K: Sink>(
    sink: &mut K,
    buffer: &mut LineBuffer,
    frames: &[FrameEnd],
) -> Result<(), Failed>
    ensures bytes { Puts (K.held sink.old) buffer.old (K.held sink.new) buffer.new result (flat_map frame_text frames.now ++ line_text lines.Finish) }
    ensures cause { HasCause (K.faults sink.old) (K.faults sink.new) result }
{
    put_all::<LineSpelling, FrameEnd, K>(sink, buffer, frames)?;
    LineSpelling::put(sink, buffer, &ReportLine::Finish)
}

fn put_totals<K: Sink>(
    sink: &mut K,
    buffer: &mut LineBuffer,
    devices: &[DeviceEnd],
    frames: &[FrameEnd],
) -> Result<(), Failed>
    ensures bytes { Puts (K.held sink.old) buffer.old (K.held sink.new) buffer.new result
        (flat_map device_text devices.now ++ (flat_map frame_text frames.now ++ line_text lines.Finish)) }
    ensures cause { HasCause (K.faults sink.old) (K.faults sink.new) result }
{
    put_all::<LineSpelling, DeviceEnd, K>(sink, buffer, devices)?;
    put_frames(sink, buffer, frames)
}

fn put_report<K: Sink>(
    sink: &mut K,
    buffer: &mut LineBuffer,
    events: &RunRecord,
    devices: &[DeviceEnd],
    frames: &[FrameEnd],
) -> Result<(), Failed>
    ensures bytes { Puts (K.held sink.old) buffer.old (K.held sink.new) buffer.new result (report_text events.now devices.now frames.now) }
    ensures cause { HasCause (K.faults sink.old) (K.faults sink.new) result }
{
    LineSpelling::put(sink, buffer, events)?;
    put_totals(sink, buffer, devices, frames)
}

/// Writes the report of a run: the lines of its events, those of its devices, of the frames of the cache, and FINISH.
pub fn write_report<K: Sink>(
    sink: &mut K,
    events: &RunRecord,
    devices: &[DeviceEnd],
    frames: &[FrameEnd],
) -> Result<(), Failed>
    ensures text { Writes (K.held sink.old) (K.held sink.new) result (report_text events.now devices.now frames.now) }
    ensures cause { HasCause (K.faults sink.old) (K.faults sink.new) result }
{
    let mut buffer = LineBuffer::new();
    put_report(sink, &mut buffer, events, devices, frames)?;
    flush(sink, &mut buffer)
}
