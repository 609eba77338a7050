ghost use Rattle.std.specs.Prelude.{◌≡◌, ◌++◌, ◌∷◌, [], IfOk, OnOk, map};
ghost use Rattle.report_text.specs.declared.line.ReportLine.TheVariants as lines;
ghost use Rattle.report_text.specs.Ends.{data_lines, sense_lines};
ghost use Rattle.report_text.specs.Events.{ended_lines, first_lines, io_lines, last_line, line_if, loosed_line, program_over_lines};
ghost use Rattle.run_report.specs.Answers.{order_answer};
ghost use Rattle.run_report.specs.Beside.{over_of, program_over_line};
ghost use Rattle.run_report.specs.Events.{end_told};
ghost use Rattle.run_report.specs.OneDevice.{lines_by, power_lines_by};

use crate::answers::{how_over, order_answer};
use crate::told::RunningProgram;
use ckd_types::{CommandEnd, DeviceNo, NoMemory, PathNo, Sense};
use plain_defs::{Entry, Item};
use report_text::{Happened, Loosed, Order, ProgramOver, ReportLine, RunRecord};
use subsystem_defs::EventEnd;

fn program_over(device: DeviceNo, entry: &Entry) -> ProgramOver
    ensures { result ≡ program_over_line device entry.now }
{
    ProgramOver {
        path: entry.path,
        device,
        ordinal: entry.ordinal,
        how: how_over(entry.how),
    }
}

/// The program that is over, by the items that came to a device's journal in an event.
pub fn over_of(device: DeviceNo, items: &[Item]) -> Option<ProgramOver>
    ensures { result ≡ over_of device items.now }
{
    let Some(item) = items.first() else {
        return None;
    };
    match item {
        Item::Program(entry) => Some(program_over(device, entry)),
        _ => None,
    }
}

/// The calls of volumes in an event.
#[derive(Clone, Copy, Debug, PartialEq, Eq)]
pub struct Calls {
    pub reads: u64,
    pub writes: u64,
}

/// What came to a device in an event: what became of its data of cache fast write, and the items of its journal.
#[derive(Clone, Copy)]
pub struct Gained<'a, 'b> {
    pub acts: &'a [Loosed],
    pub items: &'b [Item],
}

fn record_over(run: &mut RunRecord, over: &Option<ProgramOver>) -> Result<(), NoMemory>
    ensures { OnOk result (run.new ≡ run.old ++ program_over_lines over.now) }
{
    match over {
        Some(over) => run.push(ReportLine::Over(over.path, over.device, over.ordinal, over.how)),
        None => Ok(()),
    }
}

fn record_acts(run: &mut RunRecord, acts: &[Loosed]) -> Result<(), NoMemory>
    ensures { OnOk result (run.new ≡ run.old ++ map loosed_line acts.now) }
{
    for act in acts {
        run.push(ReportLine::Loose(act.device, act.answer))?;
    }
    Ok(())
}

fn record_sent(run: &mut RunRecord, sent: &[u8]) -> Result<(), NoMemory>
    ensures { OnOk result (run.new ≡ run.old ++ data_lines sent.now) }
{
    if sent.is_empty() {
        return Ok(());
    }
    run.push_data(sent)
}

fn record_sense(run: &mut RunRecord, sense: &Option<Sense>) -> Result<(), NoMemory>
    ensures { OnOk result (run.new ≡ run.old ++ sense_lines sense.now) }
{
    match sense {
        Some(sense) => run.push(ReportLine::Sense(*sense)),
        None => Ok(()),
    }
}

/// The lines of a command's end.
fn record_end(
    run: &mut RunRecord,
    path: PathNo,
    device: DeviceNo,
    ordinal: u16,
    end: &CommandEnd,
) -> Result<(), NoMemory>
    ensures { OnOk result (run.new ≡ run.old ++ ended_lines path device ordinal end.now) }
{
    run.push_end_line(path, device, ordinal, end)?;
    record_sent(run, end.sent.as_slice())?;
    record_sense(run, &end.sense)?;
    Ok(())
}

/// The same, of the program that ran there.
fn record_first(
    run: &mut RunRecord,
    device: DeviceNo,
    running: &Option<RunningProgram>,
    end: &CommandEnd,
) -> Result<(), NoMemory>
    ensures { OnOk result (run.new ≡ run.old ++ first_lines (end_told device running.now end.now)) }
{
    match running {
        Some(r) => record_end(run, r.path, device, r.ordinal, end),
        None => run.push(ReportLine::StepIdle(device)),
    }
}

fn record_calls(run: &mut RunRecord, calls: Calls) -> Result<(), NoMemory>
    ensures { OnOk result (run.new ≡ run.old ++ io_lines calls.reads calls.writes) }
{
    if calls.reads == 0 && calls.writes == 0 {
        return Ok(());
    }
    run.push(ReportLine::Io {
        reads: calls.reads,
        writes: calls.writes,
    })
}

/// Records what is told first of what happened, and answers what is told last.
fn record_first_of(run: &mut RunRecord, happened: Happened) -> Result<Option<ReportLine>, NoMemory>
    ensures first { OnOk result (run.new ≡ run.old ++ first_lines happened) }
    ensures last { IfOk result (λ last. last ≡ last_line happened) }
{
    match happened {
        Happened::First(line) => run.push(line)?,
        Happened::Ended(path, device, ordinal, end) => {
            record_end(run, path, device, ordinal, &end)?
        }
        Happened::Reset(path, device) => return Ok(Some(ReportLine::Reset(path, device))),
        Happened::Ordered(order, answer) => return Ok(Some(ReportLine::Order(order, answer))),
    }
    Ok(None)
}

fn record_last(run: &mut RunRecord, last: Option<ReportLine>) -> Result<(), NoMemory>
    ensures { OnOk result (run.new ≡ run.old ++ line_if last) }
{
    match last {
        Some(line) => run.push(line),
        None => Ok(()),
    }
}

/// Records an event of one device, by what it did, what came to the device, and its calls.
pub fn record_event(
    run: &mut RunRecord,
    device: DeviceNo,
    happened: Happened,
    gained: &Gained,
    calls: Calls,
) -> Result<(), NoMemory>
    ensures { OnOk result (run.new ≡ run.old ++ lines_by device happened gained.now.acts.now calls.reads calls.writes gained.now.items.now) }
{
    let last = record_first_of(run, happened)?;
    record_acts(run, gained.acts)?;
    record_calls(run, calls)?;
    record_over(run, &over_of(device, gained.items))?;
    record_last(run, last)?;
    Ok(())
}

/// Records an event of one device with which a command ended, by the program that ran there before it. The end is read where it
/// stands, and only the bytes that it sent are copied.
pub fn record_ended(
    run: &mut RunRecord,
    device: DeviceNo,
    running: &Option<RunningProgram>,
    end: &CommandEnd,
    gained: &Gained,
    calls: Calls,
) -> Result<(), NoMemory>
    ensures { OnOk result (run.new ≡ run.old ++ lines_by device (end_told device running.now end.now) gained.now.acts.now calls.reads calls.writes
        gained.now.items.now) }
{
    record_first(run, device, running, end)?;
    record_acts(run, gained.acts)?;
    record_calls(run, calls)?;
    record_over(run, &over_of(device, gained.items))?;
    Ok(())
}

/// Records what a loss of power did to one device.
pub fn record_power_of(
    run: &mut RunRecord,
    device: DeviceNo,
    gained: &Gained,
) -> Result<(), NoMemory>
    ensures { OnOk result (run.new ≡ run.old ++ power_lines_by device gained.now.acts.now gained.now.items.now) }
{
    record_over(run, &over_of(device, gained.items))?;
    record_acts(run, gained.acts)?;
    Ok(())
}

/// Records an order, behind what it did to devices.
pub fn record_order(run: &mut RunRecord, order: Order, end: &EventEnd) -> Result<(), NoMemory>
    ensures { OnOk result (run.new ≡ run.old ++ lines.Order order (order_answer end.now) ∷ []) }
{
    run.push(ReportLine::Order(order, order_answer(end)))
}
