ghost use Rattle.std.specs.Prelude.{◌≡◌};
ghost use Rattle.deck_audit.specs.Place.{in_steps, is_act_of, is_back_line, is_cut, is_end, is_half, is_reset, is_second};
ghost use Rattle.deck_audit.specs.Place.{is_second_line, is_start, may_back, may_reset, may_step, second_of};

use crate::{HalfWrite, OpenProgram, Outline, says};
use ckd_types::{DeviceNo, PathNo};
use report_text::{BackAnswer, HowOver, LooseAnswer, ReportLine};

/// A command of the device's running program ended.
fn is_end(d: DeviceNo, o: &OpenProgram, line: &ReportLine) -> bool
    ensures { result ≡ is_end d o.now line.now }
{
    match line {
        ReportLine::End(e) => {
            e.path.get() == o.path.get() && e.device.get() == d.get() && e.ordinal == o.ordinal
        }
        _ => false,
    }
}

/// Its write is half done.
fn is_half(d: DeviceNo, o: &OpenProgram, line: &ReportLine) -> bool
    ensures { result ≡ is_half d o.now line.now }
{
    match line {
        ReportLine::Half(path, device, _) => path.get() == o.path.get() && device.get() == d.get(),
        _ => false,
    }
}

fn is_second(answer: &BackAnswer) -> bool
    ensures { result ≡ is_second answer.now }
{
    matches!(answer, BackAnswer::Finished(_) | BackAnswer::Unwritten(_))
}

/// The second part of the background's half write.
fn is_second_line(d: DeviceNo, line: &ReportLine) -> bool
    ensures { result ≡ is_second_line d line.now }
{
    match line {
        ReportLine::Back(device, answer) => device.get() == d.get() && is_second(answer),
        _ => false,
    }
}

/// Other work of the background.
fn is_back_line(d: DeviceNo, line: &ReportLine) -> bool
    ensures { result ≡ is_back_line d line.now }
{
    match line {
        ReportLine::Back(device, answer) => device.get() == d.get() && !is_second(answer),
        _ => false,
    }
}

fn in_steps(a: &Outline, idle: &ReportLine, line: &ReportLine) -> bool
    ensures { result ≡ in_steps a.now idle.now line.now a.now.running }
{
    match &a.running {
        Some(o) => is_end(a.number, o, line) || is_half(a.number, o, line),
        None => says(idle, line),
    }
}

fn second_of(a: &Outline, line: &ReportLine) -> bool
    ensures { result ≡ second_of a.now line.now a.now.running }
{
    match &a.running {
        Some(o) => is_end(a.number, o, line),
        None => false,
    }
}

/// The first line of a STEP, or of a RUN's next command; `idle` is that of nothing to do.
pub fn may_step(a: &Outline, idle: &ReportLine, line: &ReportLine) -> bool
    ensures { result ≡ may_step a.now idle.now line.now a.now.half }
{
    match a.half {
        HalfWrite::Closed => in_steps(a, idle, line),
        HalfWrite::OfCommand => second_of(a, line),
        HalfWrite::OfBackground => is_second_line(a.number, line),
    }
}

/// The first line of a BACK, or of a SETTLE's next work.
pub fn may_back(a: &Outline, line: &ReportLine) -> bool
    ensures { result ≡ may_back a.now line.now a.now.half }
{
    match a.half {
        HalfWrite::Closed => is_back_line(a.number, line),
        HalfWrite::OfCommand => second_of(a, line),
        HalfWrite::OfBackground => is_second_line(a.number, line),
    }
}

/// Whether a line tells that this very program was cut: its path, its device and its number on the path.
pub fn is_cut(d: DeviceNo, o: &OpenProgram, line: &ReportLine) -> bool
    ensures { result ≡ is_cut d o.now line.now }
{
    match line {
        ReportLine::Over(path, device, ordinal, HowOver::Cut(_)) => {
            path.get() == o.path.get() && device.get() == d.get() && *ordinal == o.ordinal
        }
        _ => false,
    }
}

/// Whether a line tells the reset of that path on that device.
pub fn is_reset(path: PathNo, d: DeviceNo, line: &ReportLine) -> bool
    ensures { result ≡ is_reset path d line.now }
{
    match line {
        ReportLine::Reset(p, device) => p.get() == path.get() && device.get() == d.get(),
        _ => false,
    }
}

/// The first line of a RESET.
pub fn may_reset(path: PathNo, d: DeviceNo, a: &Outline, line: &ReportLine) -> bool
    ensures { result ≡ may_reset path d a.now line.now a.now.running }
{
    match &a.running {
        Some(o) => {
            if o.path.get() == path.get() {
                is_cut(d, o, line)
            } else {
                is_reset(path, d, line)
            }
        }
        None => is_reset(path, d, line),
    }
}

/// Whether a line answers a start on that path of that device, whatever the answer is.
pub fn is_start(path: PathNo, d: DeviceNo, line: &ReportLine) -> bool
    ensures { result ≡ is_start path d line.now }
{
    match line {
        ReportLine::Start(p, device, _) => p.get() == path.get() && device.get() == d.get(),
        _ => false,
    }
}

/// A track of the device becomes loose or firm, where `more` acts may come.
pub fn is_act_of(more: bool, d: DeviceNo, line: &ReportLine) -> bool
    ensures { result ≡ is_act_of more d line.now }
{
    if !more {
        return false;
    }
    match line {
        ReportLine::Loose(device, LooseAnswer::Harden(_) | LooseAnswer::Loosen(_)) => {
            device.get() == d.get()
        }
        _ => false,
    }
}
