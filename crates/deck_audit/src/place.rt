ghost use Rattle.std.specs.Prelude.{◌≡◌, ◌≤◌, length};
ghost use Rattle.deck_audit.specs.Place.{IsDueOf, first_event, holds, in_due, in_event, in_next, in_power, in_reset, in_totals, in_totals_of};
ghost use Rattle.deck_audit.specs.Place.{is_data, is_finish, is_frame, is_harden, is_io, is_loss, is_loss_above, is_loss_of, is_of_work};
ghost use Rattle.deck_audit.specs.Place.{is_order, is_over, is_power_done, is_sense, may_back, may_step, outline_in, worker_of};

use crate::outline::{is_declared, is_lost_of, is_totals_of, outline_in};
use crate::work::{is_act_of, is_cut, is_reset, is_start, may_back, may_reset, may_step};
use crate::{Due, Outline, is_same_order};
use ckd_types::DeviceNo;
use deck_plan::EventLine;
use report_text::{HowOver, LooseAnswer, Order, OrderAnswer, ReportLine};

fn is_order(order: Order, line: &ReportLine) -> bool
    ensures { result ≡ is_order order line.now }
{
    match line {
        ReportLine::Order(other, _) => is_same_order(&order, other),
        _ => false,
    }
}

/// A track of the device becomes firm: its volume failed.
fn is_harden(d: DeviceNo, line: &ReportLine) -> bool
    ensures { result ≡ is_harden d line.now }
{
    match line {
        ReportLine::Loose(device, LooseAnswer::Harden(_)) => device.get() == d.get(),
        _ => false,
    }
}

/// The cache failed: a declared device's data are lost.
fn is_loss(devices: &[Outline], line: &ReportLine) -> bool
    ensures { result ≡ is_loss devices.now line.now }
{
    match line {
        ReportLine::Loose(device, LooseAnswer::Lost { .. }) => is_declared(devices, *device),
        _ => false,
    }
}

fn is_loss_above(d: DeviceNo, devices: &[Outline], line: &ReportLine) -> bool
    ensures { result ≡ is_loss_above d devices.now line.now }
{
    match line {
        ReportLine::Loose(device, _) => d.get() < device.get() && is_loss(devices, line),
        _ => false,
    }
}

fn step_place(devices: &[Outline], d: DeviceNo, idle: &ReportLine, line: &ReportLine) -> bool
    ensures { result ≡ holds (outline_in devices.now d) (λ a. may_step a idle.now line.now a.half) }
{
    match outline_in(devices, d) {
        Some(a) => may_step(a, idle, line),
        None => false,
    }
}

fn back_place(devices: &[Outline], d: DeviceNo, line: &ReportLine) -> bool
    ensures { result ≡ holds (outline_in devices.now d) (λ a. may_back a line.now a.half) }
{
    match outline_in(devices, d) {
        Some(a) => may_back(a, line),
        None => false,
    }
}

/// All loose tracks of the device go back.
fn is_loss_of(d: DeviceNo, line: &ReportLine) -> bool
    ensures { result ≡ is_loss_of d line.now }
{
    match line {
        ReportLine::Loose(device, LooseAnswer::Lost { .. }) => device.get() == d.get(),
        _ => false,
    }
}

fn is_power_done(line: &ReportLine) -> bool
    ensures { result ≡ is_power_done line.now }
{
    match line {
        ReportLine::Order(order, OrderAnswer::Done) => is_same_order(&Order::Power, order),
        _ => false,
    }
}

/// What a loss of power did to these devices, and its own line.
fn in_power(devices: &[Outline], line: &ReportLine) -> bool
    ensures { result ≡ in_power line.now devices.now }
{
    for a in devices {
        if let Some(o) = &a.running {
            return is_cut(a.number, o, line);
        }
        if a.loose || is_loss_of(a.number, line) {
            return is_loss_of(a.number, line);
        }
    }
    is_power_done(line)
}

/// An event's first line, or that of the next piece of work of a RUN or SETTLE.
fn in_event(devices: &[Outline], line: &ReportLine, event: &EventLine) -> bool
    ensures { result ≡ in_event devices.now line.now event.now }
{
    match event {
        EventLine::Start(path, d) => is_start(*path, *d, line),
        EventLine::Step(d) => step_place(devices, *d, &ReportLine::StepIdle(*d), line),
        EventLine::Run(d) => step_place(devices, *d, &ReportLine::RunIdle(*d), line),
        EventLine::Back(d) | EventLine::Settle(d) => back_place(devices, *d, line),
        EventLine::Reset(path, d) => match outline_in(devices, *d) {
            Some(a) => may_reset(*path, *d, a, line),
            None => false,
        },
        EventLine::FailCache => is_loss(devices, line) || is_order(Order::FailCache, line),
        EventLine::FailStore => is_order(Order::FailStore, line),
        EventLine::FailVolume(d, side) => {
            is_harden(*d, line) || is_order(Order::FailVolume(*d, *side), line)
        }
        EventLine::RepairCache => is_order(Order::RepairCache, line),
        EventLine::RepairStore => is_order(Order::RepairStore, line),
        EventLine::Replace(d, side) => is_order(Order::Replace(*d, *side), line),
        EventLine::Pair(a, b) => is_order(Order::Pair(*a, *b), line),
        EventLine::Unpair(a) => is_order(Order::Unpair(*a), line),
        EventLine::Suspend(a) => is_order(Order::Suspend(*a), line),
        EventLine::Resume(a) => is_order(Order::Resume(*a), line),
        EventLine::Power => in_power(devices, line),
    }
}

fn is_finish(line: &ReportLine) -> bool
    ensures { result ≡ is_finish line.now }
{
    matches!(line, ReportLine::Finish)
}

fn is_frame(devices: &[Outline], line: &ReportLine) -> bool
    ensures { result ≡ is_frame devices.now line.now }
{
    match line {
        ReportLine::Frame(device, _, _) => is_declared(devices, *device),
        _ => false,
    }
}

/// The OVER line of a program that wasn't cut.
fn is_over(wanted: &ReportLine, line: &ReportLine) -> bool
    ensures { result ≡ is_over wanted.now line.now }
{
    match (wanted, line) {
        (ReportLine::Over(path, device, ordinal, _), ReportLine::Over(p, d, n, how)) => {
            !matches!(how, HowOver::Cut(_))
                && p.get() == path.get()
                && d.get() == device.get()
                && *n == *ordinal
        }
        _ => false,
    }
}

fn is_data(line: &ReportLine) -> bool
    ensures { result ≡ is_data line.now }
{
    matches!(line, ReportLine::Data(_))
}

fn is_sense(line: &ReportLine) -> bool
    ensures { result ≡ is_sense line.now }
{
    matches!(line, ReportLine::Sense(_))
}

/// The first totals that are left, or what stands behind the last ones.
fn in_totals_of(devices: &[Outline], line: &ReportLine, left: &[Outline]) -> bool
    ensures { result ≡ in_totals_of devices.now line.now left.now }
{
    match left.first() {
        Some(a) => is_totals_of(line, a),
        None => is_frame(devices, line) || is_finish(line),
    }
}

/// Behind the totals of so many devices.
fn in_totals(devices: &[Outline], line: &ReportLine, told: usize) -> bool
    requires most { told ≤ length devices.now }
    ensures { result ≡ in_totals devices.now line.now told }
{
    let (before, left) = devices.split_at(told);
    let lost = match before.last() {
        Some(a) => is_lost_of(line, a),
        None => false,
    };
    lost || in_totals_of(devices, line, left)
}

fn in_next(devices: &[Outline], line: &ReportLine, events: &[EventLine]) -> bool
    ensures { result ≡ in_next devices.now line.now events.now }
{
    match events.first() {
        Some(event) => in_event(devices, line, event),
        None => in_totals(devices, line, 0),
    }
}

fn in_reset(line: &ReportLine, events: &[EventLine]) -> bool
    ensures { result ≡ in_reset line.now (first_event events.now) }
{
    match events.first() {
        Some(EventLine::Reset(path, d)) => is_reset(*path, *d, line),
        _ => false,
    }
}

/// Whether a line may stand where no piece of work is at its end; never where one is.
pub fn in_due(devices: &[Outline], events: &[EventLine], line: &ReportLine, due: &Due) -> bool
    requires most { IsDueOf (length devices.now) due.now }
    ensures { result ≡ in_due devices.now events.now line.now due.now }
{
    match due {
        Due::Next => in_next(devices, line, events),
        Due::DataOf(_) => is_data(line),
        Due::SenseOf(_) => is_sense(line),
        Due::Behind(_, _) => false,
        Due::OverOf(wanted) => is_over(wanted, line),
        Due::Losses(d) => { is_loss_above(*d, devices, line) || is_order(Order::FailCache, line) }
        Due::ResetOf => in_reset(line, events),
        Due::Powers(told) => in_power(devices.split_at(*told).1, line),
        Due::Totals(told) => in_totals(devices, line, *told),
        Due::Frames => is_frame(devices, line) || is_finish(line),
        Due::Nothing => false,
    }
}

/// Whether a line counts the volume calls of an event.
pub fn is_io(line: &ReportLine) -> bool
    ensures { result ≡ is_io line.now }
{
    matches!(line, ReportLine::Io { .. })
}

/// Whether a line is still of a piece of work of this device: IO, or a CFW line where `more` may come.
pub fn is_of_work(more: bool, worker: Option<DeviceNo>, line: &ReportLine) -> bool
    ensures { result ≡ is_of_work more worker line.now }
{
    let is_act = match worker {
        Some(d) => is_act_of(more, d, line),
        None => false,
    };
    is_io(line) || is_act
}

/// The device whose work an event is.
pub fn worker_of(event: &EventLine) -> Option<DeviceNo>
    ensures { result ≡ worker_of event.now }
{
    match event {
        EventLine::Step(d) | EventLine::Run(d) | EventLine::Back(d) | EventLine::Settle(d) => {
            Some(*d)
        }
        _ => None,
    }
}
