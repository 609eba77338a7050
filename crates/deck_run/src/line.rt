ghost use Rattle.std.specs.Prelude.{◌≡◌, IfOk, OnOk, true};
ghost use Rattle.report_text.specs.declared.answers.BackAnswer.TheVariants as none;
ghost use Rattle.report_text.specs.declared.event.Happened.TheVariants as did;
ghost use Rattle.report_text.specs.declared.line.ReportLine.TheVariants as lines;
ghost use Rattle.run_report.specs.Answers.{order_answer, start_answer};
ghost use Rattle.run_report.specs.Events.{running_in, work_told};
ghost use Rattle.subsystem_core.specs.Devices.{numbers_of};
ghost use Rattle.subsystem_core.specs.Frames.{HasDevice, HasSameDevices};
ghost use Rattle.subsystem_defs.specs.Happening.{happens};
ghost use Rattle.subsystem_defs.specs.Lines.{asked_by, backs, is_busy, is_settled, line_logged, run_logged, steps};
ghost use Rattle.subsystem_defs.specs.Subsystem as runs;
ghost use Rattle.subsystem_defs.specs.Subsystem.{devices_of};
ghost use Rattle.deck_run.specs.Going.{GoesOn, IsRecorded};
ghost use Rattle.deck_run.specs.Opening.{is_open_line};
ghost use Rattle.deck_run.specs.Owning.{AreOwn, IsOpenOn};
ghost use Rattle.deck_run.specs.Seen.{idle_told};
ghost use Rattle.deck_run.specs.Standing.{StandsAs};

use crate::orders_of_all::{order_all, order_end};
use crate::pair::{pair, unpair};
use crate::pass::{behind_first, pass};
use crate::replace::replace;
use crate::volumes::EmptyVolume;
use crate::work::{Asker, record_passed, record_work, settles, start_end};
use ckd_types::{DeviceNo, NoMemory, PathNo};
use deck_plan::EventLine;
use device_outside::Volume;
use report_text::{Happened, Order, ReportLine, RunRecord};
use run_report::{order_answer, start_answer};
use std::alloc::Global;
use subsystem_core::Subsystem;
use subsystem_defs::Event;

/// As many events as the rest of a program takes at most.
const MOST_STEPS: u32 = 8193;

/// As many pieces of work in the background as there are at most.
const MOST_BACKS: u32 = 2946;

/// One step. Room for its lines is made before it is done, as before every event.
fn step<V: Volume>(
    alloc: Global,
    sub: &mut Subsystem<V>,
    report: &mut RunRecord,
    d: DeviceNo,
    asker: Asker,
) -> Result<(), NoMemory>
    requires here { HasDevice sub.old d }
    requires own { AreOwn sub.old.devices.items }
    ensures numbers { HasSameDevices sub.old sub.new }
    ensures own { OnOk result (AreOwn sub.new.devices.items) }
    ensures recorded { OnOk result (IsRecorded sub.old sub.new report.old report.new (Event.Step d)
        (λ run. work_told d (running_in (devices_of run) d) (idle_told d asker) (happens run (Event.Step d)).end)) }
{
    report.make_room()?;
    let passed = pass(alloc, sub, d, Event::Step(d))?;
    record_work(report, sub.device(d), d, &passed, asker)?;
    Ok(())
}

/// One piece of work in the background, and whether nothing more is done by itself.
fn work<V: Volume>(
    alloc: Global,
    sub: &mut Subsystem<V>,
    report: &mut RunRecord,
    d: DeviceNo,
) -> Result<bool, NoMemory>
    requires here { HasDevice sub.old d }
    requires own { AreOwn sub.old.devices.items }
    ensures numbers { HasSameDevices sub.old sub.new }
    ensures own { OnOk result (AreOwn sub.new.devices.items) }
    ensures recorded { OnOk result (IsRecorded sub.old sub.new report.old report.new (Event.Back d)
        (λ run. work_told d (running_in (devices_of run) d) (did.First (lines.Back d none.Nothing)) (happens run (Event.Back d)).end)) }
    ensures settled { (run : runs.Subsystem) → StandsAs sub.old run → IfOk result (λ settled. settled ≡ is_settled (happens run (Event.Back d)).end) }
{
    report.make_room()?;
    let passed = pass(alloc, sub, d, Event::Back(d))?;
    let settled = settles(&passed.end);
    record_work(report, sub.device(d), d, &passed, Asker::Back)?;
    Ok(settled)
}

fn back<V: Volume>(
    alloc: Global,
    sub: &mut Subsystem<V>,
    report: &mut RunRecord,
    d: DeviceNo,
) -> Result<(), NoMemory>
    requires here { HasDevice sub.old d }
    requires own { AreOwn sub.old.devices.items }
    ensures numbers { HasSameDevices sub.old sub.new }
    ensures own { OnOk result (AreOwn sub.new.devices.items) }
    ensures recorded { OnOk result (IsRecorded sub.old sub.new report.old report.new (Event.Back d)
        (λ run. work_told d (running_in (devices_of run) d) (did.First (lines.Back d none.Nothing)) (happens run (Event.Back d)).end)) }
{
    let _settled = work(alloc, sub, report, d)?;
    Ok(())
}

/// All of the work in the background.
fn settle<V: Volume>(
    alloc: Global,
    sub: &mut Subsystem<V>,
    report: &mut RunRecord,
    d: DeviceNo,
) -> Result<(), NoMemory>
    requires here { HasDevice sub.old d }
    requires own { AreOwn sub.old.devices.items }
    ensures numbers { HasSameDevices sub.old sub.new }
    ensures own { OnOk result (AreOwn sub.new.devices.items) }
    ensures goes { OnOk result (GoesOn sub.old sub.new report.old report.new (backs 2946 d)) }
{
    for _turn in 0..MOST_BACKS {
        let settled = match work(alloc, sub, report, d) {
            Err(NoMemory) => return Err(NoMemory),
            Ok(settled) => settled,
        };
        if settled {
            return Ok(());
        }
    }
    Ok(())
}

fn start<V: Volume>(
    alloc: Global,
    sub: &mut Subsystem<V>,
    report: &mut RunRecord,
    path: PathNo,
    d: DeviceNo,
) -> Result<(), NoMemory>
    requires here { HasDevice sub.old d }
    requires own { AreOwn sub.old.devices.items }
    ensures numbers { HasSameDevices sub.old sub.new }
    ensures own { OnOk result (AreOwn sub.new.devices.items) }
    ensures recorded { OnOk result (IsRecorded sub.old sub.new report.old report.new (Event.Start path d)
        (λ run. did.First (lines.Start path d (start_answer (happens run (Event.Start path d)).end)))) }
{
    let _n = path.get();
    report.make_room()?;
    let passed = pass(alloc, sub, d, Event::Start(path, d))?;
    let items = behind_first(sub.device(d).journal(), passed.items);
    let started = Happened::First(ReportLine::Start(
        path,
        d,
        start_answer(&start_end(&passed.end)),
    ));
    record_passed(report, d, started, &passed.acts, items, passed.calls)?;
    Ok(())
}

fn reset<V: Volume>(
    alloc: Global,
    sub: &mut Subsystem<V>,
    report: &mut RunRecord,
    path: PathNo,
    d: DeviceNo,
) -> Result<(), NoMemory>
    requires here { HasDevice sub.old d }
    requires own { AreOwn sub.old.devices.items }
    ensures numbers { HasSameDevices sub.old sub.new }
    ensures own { OnOk result (AreOwn sub.new.devices.items) }
    ensures recorded { OnOk result (IsRecorded sub.old sub.new report.old report.new (Event.Reset path d)
        (λ run. did.Reset path d)) }
{
    report.make_room()?;
    let passed = pass(alloc, sub, d, Event::Reset(path, d))?;
    let items = behind_first(sub.device(d).journal(), passed.items);
    let happened = Happened::Reset(path, d);
    record_passed(report, d, happened, &passed.acts, items, passed.calls)?;
    Ok(())
}

/// An order to one device.
fn order_one<V: Volume>(
    alloc: Global,
    sub: &mut Subsystem<V>,
    report: &mut RunRecord,
    d: DeviceNo,
    e: Event,
    order: Order,
) -> Result<(), NoMemory>
    requires here { HasDevice sub.old d }
    requires on { IsOpenOn d e }
    requires own { AreOwn sub.old.devices.items }
    ensures numbers { HasSameDevices sub.old sub.new }
    ensures own { OnOk result (AreOwn sub.new.devices.items) }
    ensures recorded { OnOk result (IsRecorded sub.old sub.new report.old report.new e
        (λ run. did.Ordered order (order_answer (happens run e).end))) }
{
    report.make_room()?;
    let passed = pass(alloc, sub, d, e)?;
    let items = behind_first(sub.device(d).journal(), passed.items);
    let happened = Happened::Ordered(order, order_answer(&order_end(&passed.end)));
    record_passed(report, d, happened, &passed.acts, items, passed.calls)?;
    Ok(())
}

/// Whether a program runs on a device, or a half write is open.
fn is_busy<V: Volume>(sub: &Subsystem<V>, d: DeviceNo) -> bool
    requires { HasDevice sub.now d }
    ensures { (run : runs.Subsystem) → StandsAs sub.now run → result ≡ is_busy (runs.mounted_in run.mounted d) }
{
    let device = sub.device(d);
    let half = device.half_open();
    let runs = device.active().is_some();
    half || runs
}

/// Steps while a program runs on a device.
fn steps<V: Volume>(
    alloc: Global,
    sub: &mut Subsystem<V>,
    report: &mut RunRecord,
    d: DeviceNo,
) -> Result<(), NoMemory>
    requires here { HasDevice sub.old d }
    requires own { AreOwn sub.old.devices.items }
    ensures numbers { HasSameDevices sub.old sub.new }
    ensures own { OnOk result (AreOwn sub.new.devices.items) }
    ensures goes { OnOk result (GoesOn sub.old sub.new report.old report.new (steps 8193 d)) }
{
    for _turn in 0..MOST_STEPS {
        if !is_busy(sub, d) {
            return Ok(());
        }
        match step(alloc, sub, report, d, Asker::Run) {
            Err(NoMemory) => return Err(NoMemory),
            Ok(()) => (),
        }
    }
    Ok(())
}

/// The rest of the program that runs on a device.
fn finish<V: Volume>(
    alloc: Global,
    sub: &mut Subsystem<V>,
    report: &mut RunRecord,
    d: DeviceNo,
) -> Result<(), NoMemory>
    requires here { HasDevice sub.old d }
    requires own { AreOwn sub.old.devices.items }
    ensures numbers { HasSameDevices sub.old sub.new }
    ensures own { OnOk result (AreOwn sub.new.devices.items) }
    ensures goes { OnOk result (GoesOn sub.old sub.new report.old report.new (λ run. run_logged run d)) }
{
    if !is_busy(sub, d) {
        report.push(ReportLine::RunIdle(d))?;
        return Ok(());
    }
    steps(alloc, sub, report, d)?;
    Ok(())
}

/// One event line.
pub(crate) fn do_line<V: EmptyVolume>(
    alloc: Global,
    sub: &mut Subsystem<V>,
    report: &mut RunRecord,
    line: EventLine,
) -> Result<(), NoMemory>
    requires here { is_open_line (numbers_of sub.old.devices.items) line ≡ true }
    requires own { AreOwn sub.old.devices.items }
    ensures numbers { HasSameDevices sub.old sub.new }
    ensures own { OnOk result (AreOwn sub.new.devices.items) }
    ensures goes { OnOk result (GoesOn sub.old sub.new report.old report.new (λ run. line_logged run (asked_by line))) }
{
    match line {
        EventLine::Start(path, d) => start(alloc, sub, report, path, d),
        EventLine::Step(d) => step(alloc, sub, report, d, Asker::Step),
        EventLine::Run(d) => finish(alloc, sub, report, d),
        EventLine::Back(d) => back(alloc, sub, report, d),
        EventLine::Settle(d) => settle(alloc, sub, report, d),
        EventLine::Reset(path, d) => reset(alloc, sub, report, path, d),
        EventLine::Replace(d, side) => replace(alloc, sub, report, d, side),
        EventLine::FailVolume(d, side) => order_one(
            alloc,
            sub,
            report,
            d,
            Event::FailVolume(d, side),
            Order::FailVolume(d, side),
        ),
        EventLine::Suspend(d) => {
            order_one(alloc, sub, report, d, Event::Suspend(d), Order::Suspend(d))
        }
        EventLine::Resume(d) => {
            order_one(alloc, sub, report, d, Event::Resume(d), Order::Resume(d))
        }
        EventLine::FailCache => order_all(alloc, sub, report, Event::FailCache),
        EventLine::FailStore => order_all(alloc, sub, report, Event::FailStore),
        EventLine::RepairCache => order_all(alloc, sub, report, Event::RepairCache),
        EventLine::RepairStore => order_all(alloc, sub, report, Event::RepairStore),
        EventLine::Power => order_all(alloc, sub, report, Event::Power),
        EventLine::Pair(a, b) => pair(sub, report, a, b),
        EventLine::Unpair(a) => unpair(alloc, sub, report, a),
    }
}
