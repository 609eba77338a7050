//! The lines of an event of one device.

ghost use Rattle.std.specs.Prelude.{◌≡◌, ◌++◌, IsSome, OnOk, Some};
ghost use Rattle.device_core.specs.State.{last_end};
ghost use Rattle.run_report.specs.Events.{end_told, work_told};
ghost use Rattle.run_report.specs.OneDevice.{lines_by};
ghost use Rattle.subsystem_core.specs.Ends.{end_seen};
ghost use Rattle.subsystem_defs.specs.declared.end.EventEnd as defs;
ghost use Rattle.subsystem_defs.specs.Lines.{stops};
ghost use Rattle.deck_run.specs.Passing.{lines_passed};
ghost use Rattle.deck_run.specs.Seen.{back_told, half_seen, idle_line, idle_told, is_ended, part_seen, second_ended, settles, start_end, step_ended, work_seen};

use crate::pass::{Passed, behind_first};
use ckd_types::{CommandEnd, DeviceNo, NoMemory};
use device_core::{Device, SecondStep, Stepped};
use device_defs::Did;
use device_outside::Volume;
use plain_defs::Item;
use report_text::{BackAnswer, Happened, Loosed, ReportLine, RunRecord};
use run_report::{
    Calls, Gained, RunningProgram, back_answer, half_told, record_ended, record_event,
};
use subsystem_core::EventEnd;
use subsystem_defs::EventEnd as End;

/// Who asked for a piece of work: a STEP, a RUN, or the background.
#[derive(Clone, Copy)]
pub(crate) enum Asker {
    Step,
    Run,
    Back,
}

fn idle_line(d: DeviceNo, asker: Asker) -> ReportLine
    ensures { result ≡ idle_line d asker }
{
    match asker {
        Asker::Step => ReportLine::StepIdle(d),
        Asker::Run => ReportLine::RunIdle(d),
        Asker::Back => ReportLine::Back(d, BackAnswer::Nothing),
    }
}

/// What is told where there was nothing to do.
fn idle_told(d: DeviceNo, asker: Asker) -> Happened
    ensures { result ≡ idle_told d asker }
{
    Happened::First(idle_line(d, asker))
}

/// The end of a start as the definitions have it.
pub(crate) fn start_end(end: &EventEnd) -> End
    ensures { result ≡ start_end end.now }
{
    match end {
        EventEnd::Started(ordinal) => End::Started(*ordinal),
        EventEnd::NotStarted(fault) => End::NotStarted(*fault),
        _ => End::Running,
    }
}

fn stops(did: Did) -> bool
    ensures { result ≡ stops did }
{
    match did {
        Did::Nothing | Did::Fault(_) | Did::BadBytes(_) => true,
        _ => false,
    }
}

/// Whether nothing more is done by itself.
pub(crate) fn settles(end: &EventEnd) -> bool
    ensures { result ≡ settles end.now }
{
    match end {
        EventEnd::Back(did) => stops(*did),
        _ => false,
    }
}

fn step_ended(step: &Stepped) -> bool
    ensures { result ≡ step_ended step.now }
{
    match step {
        Stepped::Ended => true,
        Stepped::Half(_) => false,
    }
}

fn second_ended(step: &SecondStep) -> bool
    ensures { result ≡ second_ended step.now }
{
    match step {
        SecondStep::Ended => true,
        SecondStep::Finished(_) => false,
        SecondStep::Unwritten(_) => false,
    }
}

/// Whether a command ended.
fn is_ended(end: &EventEnd) -> bool
    ensures { result ≡ is_ended end.now }
{
    match end {
        EventEnd::Stepped(step) => step_ended(step),
        EventEnd::Second(step) => second_ended(step),
        _ => false,
    }
}

fn half_seen(
    d: DeviceNo,
    running: &Option<RunningProgram>,
    idle: Happened,
    step: &Stepped,
) -> Happened
    ensures { result ≡ half_seen d running.now idle step.now }
{
    match step {
        Stepped::Ended => idle,
        Stepped::Half(track) => half_told(d, running, *track),
    }
}

/// What the background did.
fn back_told(d: DeviceNo, answer: BackAnswer) -> Happened
    ensures { result ≡ back_told d answer }
{
    Happened::First(ReportLine::Back(d, answer))
}

fn part_seen(d: DeviceNo, idle: Happened, step: &SecondStep) -> Happened
    ensures { result ≡ part_seen d idle step.now }
{
    match step {
        SecondStep::Ended => idle,
        SecondStep::Finished(track) => back_told(d, BackAnswer::Finished(*track)),
        SecondStep::Unwritten(track) => back_told(d, BackAnswer::Unwritten(*track)),
    }
}

/// What a piece of work did with which no command ended.
fn work_seen(
    d: DeviceNo,
    running: &Option<RunningProgram>,
    idle: Happened,
    end: &EventEnd,
) -> Happened
    ensures { result ≡ work_seen d running.now idle end.now }
{
    match end {
        EventEnd::Stepped(step) => half_seen(d, running, idle, step),
        EventEnd::Second(step) => part_seen(d, idle, step),
        EventEnd::Back(did) => back_told(d, back_answer(*did)),
        _ => idle,
    }
}

/// The end of the command that ended last, where it stands.
fn last_end<V: Volume>(device: &Device<V>) -> &CommandEnd
    requires { IsSome (last_end device.now) }
    ensures { last_end device.now ≡ Some result.now }
{
    match device.last_end() {
        Some(end) => end,
        None => unreachable!(),
    }
}

/// The lines of an event that did this.
pub(crate) fn record_passed(
    report: &mut RunRecord,
    d: DeviceNo,
    happened: Happened,
    acts: &[Loosed],
    items: &[Item],
    calls: Calls,
) -> Result<(), NoMemory>
    ensures { OnOk result (report.new ≡ report.old ++ lines_by d happened acts.now calls.reads calls.writes items.now) }
{
    let gained = Gained { acts, items };
    record_event(report, d, happened, &gained, calls)
}

/// The lines of an event with which a command ended.
fn record_command(
    report: &mut RunRecord,
    d: DeviceNo,
    running: &Option<RunningProgram>,
    end: &CommandEnd,
    acts: &[Loosed],
    items: &[Item],
    calls: Calls,
) -> Result<(), NoMemory>
    ensures { OnOk result (report.new ≡ report.old ++ lines_by d (end_told d running.now end.now) acts.now calls.reads calls.writes items.now) }
{
    let gained = Gained { acts, items };
    record_ended(report, d, running, end, &gained, calls)
}

/// The lines of a piece of work. The end of a command is read where it stands in the device's journal.
#[inline(always)]
pub(crate) fn record_work<V: Volume>(
    report: &mut RunRecord,
    device: &Device<V>,
    d: DeviceNo,
    passed: &Passed,
    asker: Asker,
) -> Result<(), NoMemory>
    requires { IsSome (end_seen (last_end device.now) passed.now.end) }
    ensures { (told : defs.EventEnd) → end_seen (last_end device.now) passed.now.end ≡ Some told → OnOk result (report.new ≡ report.old
        ++ lines_passed d device.now passed.now (work_told d passed.now.running (idle_told d asker) told)) }
{
    let items = behind_first(device.journal(), passed.items);
    let acts = passed.acts.as_slice();
    if is_ended(&passed.end) {
        let end = last_end(device);
        return record_command(report, d, &passed.running, end, acts, items, passed.calls);
    }
    let idle = idle_told(d, asker);
    let happened = work_seen(d, &passed.running, idle, &passed.end);
    record_passed(report, d, happened, acts, items, passed.calls)
}
