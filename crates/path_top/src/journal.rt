//! The lines of a device's journal.

ghost use Rattle.std.specs.Prelude.{◌≡◌, ◌++◌};
ghost use Rattle.ckd_outside.specs.Causes.{HasCause};
ghost use Rattle.ckd_outside.specs.Texts.{Puts};
ghost use Rattle.plain_defs.specs.declared.journal.Item.TheVariants as items;
ghost use Rattle.report_text.specs.Ends.{data_lines, end_line, lines_text, sense_lines};
ghost use Rattle.report_text.specs.Events.{ended_lines};
ghost use Rattle.path_top.specs.Journals.{act_line, act_lines, count_before, end_lines, item_lines, journal_lines, loose_behind, loose_behind_all, loose_behind_item, program_lines};

use crate::line::put_line;
use ckd_outside::{Failed, LineBuffer, Sink};
use ckd_types::{CommandEnd, DeviceNo, Sense};
use deck_run::loosed_by;
use plain_defs::{Act, Acted, Entry, Item, next_number};
use report_text::{EndLine, ReportLine, end_line, put_data};
use run_report::how_over;

/// How many tracks of a device are loose, and the number of its data of cache fast write.
#[derive(Clone, Copy, Debug, PartialEq, Eq)]
pub(crate) struct LooseCount {
    pub tracks: u16,
    pub number: u16,
}

fn loose_behind(loose: LooseCount, act: &Act) -> LooseCount
    ensures { result ≡ loose_behind loose act.now }
{
    match act {
        Act::Loosen(_) => LooseCount {
            tracks: loose.tracks.saturating_add(1),
            number: loose.number,
        },
        Act::Harden(_) => LooseCount {
            tracks: loose.tracks.saturating_sub(1),
            number: loose.number,
        },
        Act::CfwLost => LooseCount {
            tracks: 0,
            number: next_number(loose.number),
        },
    }
}

fn loose_behind_all(before: LooseCount, acts: &[Acted]) -> LooseCount
    ensures { result ≡ loose_behind_all before acts.now }
{
    let mut loose = before;
    for acted in acts {
        loose = loose_behind(loose, &acted.act);
    }
    loose
}

fn act_line(d: DeviceNo, loose: LooseCount, act: &Act) -> ReportLine
    ensures { result ≡ act_line d loose act.now }
{
    let told = loosed_by(d, loose.tracks, loose_behind(loose, act).number, *act);
    ReportLine::Loose(told.device, told.answer)
}

fn put_acts<K: Sink>(
    sink: &mut K,
    buffer: &mut LineBuffer,
    d: DeviceNo,
    before: LooseCount,
    acts: &[Acted],
) -> Result<(), Failed>
    ensures bytes { Puts (K.held sink.old) buffer.old (K.held sink.new) buffer.new result (lines_text (act_lines d before acts.now)) }
    ensures cause { HasCause (K.faults sink.old) (K.faults sink.new) result }
{
    let mut loose = before;
    for acted in acts {
        put_line(sink, buffer, &act_line(d, loose, &acted.act))?;
        loose = loose_behind(loose, &acted.act);
    }
    Ok(())
}

/// How many of these acts came before there were more than so many ends.
fn count_before(k: usize, acts: &[Acted]) -> usize
    ensures { result ≡ count_before k acts.now }
{
    let mut n = 0;
    for acted in acts {
        if usize::from(acted.after) > k {
            return n;
        }
        n += 1;
    }
    n
}

fn put_sent<K: Sink>(sink: &mut K, buffer: &mut LineBuffer, sent: &[u8]) -> Result<(), Failed>
    ensures bytes { Puts (K.held sink.old) buffer.old (K.held sink.new) buffer.new result (lines_text (data_lines sent.now)) }
    ensures cause { HasCause (K.faults sink.old) (K.faults sink.new) result }
{
    if sent.is_empty() {
        return Ok(());
    }
    put_data(sink, buffer, sent)
}

fn put_sense<K: Sink>(
    sink: &mut K,
    buffer: &mut LineBuffer,
    sense: &Option<Sense>,
) -> Result<(), Failed>
    ensures bytes { Puts (K.held sink.old) buffer.old (K.held sink.new) buffer.new result (lines_text (sense_lines sense.now)) }
    ensures cause { HasCause (K.faults sink.old) (K.faults sink.new) result }
{
    match sense {
        Some(sense) => put_line(sink, buffer, &ReportLine::Sense(*sense)),
        None => Ok(()),
    }
}

/// The bytes that a command sent, and its sense.
fn put_sent_and_sense<K: Sink>(
    sink: &mut K,
    buffer: &mut LineBuffer,
    end: &CommandEnd,
) -> Result<(), Failed>
    ensures bytes { Puts (K.held sink.old) buffer.old (K.held sink.new) buffer.new result (lines_text (data_lines end.now.sent ++ sense_lines end.now.sense)) }
    ensures cause { HasCause (K.faults sink.old) (K.faults sink.new) result }
{
    put_sent(sink, buffer, end.sent.as_slice())?;
    put_sense(sink, buffer, &end.sense)
}

fn line_of(d: DeviceNo, entry: &Entry, end: &CommandEnd) -> EndLine
    ensures { result ≡ end_line entry.now.path d entry.now.ordinal end.now }
{
    end_line(entry.path, d, entry.ordinal, end)
}

fn put_end<K: Sink>(
    sink: &mut K,
    buffer: &mut LineBuffer,
    d: DeviceNo,
    entry: &Entry,
    end: &CommandEnd,
) -> Result<(), Failed>
    ensures bytes { Puts (K.held sink.old) buffer.old (K.held sink.new) buffer.new result (lines_text (ended_lines entry.now.path d entry.now.ordinal end.now)) }
    ensures cause { HasCause (K.faults sink.old) (K.faults sink.new) result }
{
    put_line(sink, buffer, &ReportLine::End(line_of(d, entry, end)))?;
    put_sent_and_sense(sink, buffer, end)
}

/// An end behind the acts that came before it.
fn put_acts_and_end<K: Sink>(
    sink: &mut K,
    buffer: &mut LineBuffer,
    d: DeviceNo,
    entry: &Entry,
    before: LooseCount,
    acts: &[Acted],
    end: &CommandEnd,
) -> Result<(), Failed>
    ensures bytes { Puts (K.held sink.old) buffer.old (K.held sink.new) buffer.new result
        (lines_text (act_lines d before acts.now ++ ended_lines entry.now.path d entry.now.ordinal end.now)) }
    ensures cause { HasCause (K.faults sink.old) (K.faults sink.new) result }
{
    put_acts(sink, buffer, d, before, acts)?;
    put_end(sink, buffer, d, entry, end)
}

/// The ends of a program's commands, with the acts where they came.
fn put_ends<K: Sink>(
    sink: &mut K,
    buffer: &mut LineBuffer,
    d: DeviceNo,
    entry: &Entry,
    before: LooseCount,
) -> Result<(), Failed>
    ensures bytes { Puts (K.held sink.old) buffer.old (K.held sink.new) buffer.new result
        (lines_text (end_lines d entry.now 0 before entry.now.acts entry.now.ends)) }
    ensures cause { HasCause (K.faults sink.old) (K.faults sink.new) result }
{
    let ends = entry.ends.as_slice();
    let mut loose = before;
    let mut left = entry.acts.as_slice();
    for k in 0..ends.len() {
        let (here, later) = left.split_at(count_before(k, left));
        put_acts_and_end(sink, buffer, d, entry, loose, here, &ends[k])?;
        loose = loose_behind_all(loose, here);
        left = later;
    }
    put_acts(sink, buffer, d, loose, left)
}

fn put_program<K: Sink>(
    sink: &mut K,
    buffer: &mut LineBuffer,
    d: DeviceNo,
    before: LooseCount,
    entry: &Entry,
) -> Result<(), Failed>
    ensures bytes { Puts (K.held sink.old) buffer.old (K.held sink.new) buffer.new result (lines_text (program_lines d before entry.now)) }
    ensures cause { HasCause (K.faults sink.old) (K.faults sink.new) result }
{
    put_ends(sink, buffer, d, entry, before)?;
    let how = how_over(entry.how);
    put_line(
        sink,
        buffer,
        &ReportLine::Over(entry.path, d, entry.ordinal, how),
    )
}

fn put_power<K: Sink>(
    sink: &mut K,
    buffer: &mut LineBuffer,
    d: DeviceNo,
    before: LooseCount,
) -> Result<(), Failed>
    ensures bytes { Puts (K.held sink.old) buffer.old (K.held sink.new) buffer.new result (lines_text (item_lines d before items.Power)) }
    ensures cause { HasCause (K.faults sink.old) (K.faults sink.new) result }
{
    if before.tracks == 0 {
        return Ok(());
    }
    put_line(sink, buffer, &act_line(d, before, &Act::CfwLost))
}

fn put_item<K: Sink>(
    sink: &mut K,
    buffer: &mut LineBuffer,
    d: DeviceNo,
    before: LooseCount,
    item: &Item,
) -> Result<(), Failed>
    ensures bytes { Puts (K.held sink.old) buffer.old (K.held sink.new) buffer.new result (lines_text (item_lines d before item.now)) }
    ensures cause { HasCause (K.faults sink.old) (K.faults sink.new) result }
{
    match item {
        Item::Program(entry) => put_program(sink, buffer, d, before, entry),
        Item::Reset(path) => put_line(sink, buffer, &ReportLine::Reset(*path, d)),
        Item::Fresh => put_line(sink, buffer, &ReportLine::Fresh(d)),
        Item::Act(act) => put_line(sink, buffer, &act_line(d, before, act)),
        Item::Power => put_power(sink, buffer, d, before),
    }
}

fn loose_behind_power(before: LooseCount) -> LooseCount
    ensures { result ≡ loose_behind_item before items.Power }
{
    if before.tracks == 0 {
        return before;
    }
    loose_behind(before, &Act::CfwLost)
}

fn loose_behind_item(before: LooseCount, item: &Item) -> LooseCount
    ensures { result ≡ loose_behind_item before item.now }
{
    match item {
        Item::Program(entry) => loose_behind_all(before, entry.acts.as_slice()),
        Item::Reset(_) => before,
        Item::Fresh => LooseCount {
            tracks: 0,
            number: before.number,
        },
        Item::Act(act) => loose_behind(before, act),
        Item::Power => loose_behind_power(before),
    }
}

/// The journal of the device of this number.
pub(crate) fn put_journal<K: Sink>(
    sink: &mut K,
    buffer: &mut LineBuffer,
    d: DeviceNo,
    items: &[Item],
) -> Result<(), Failed>
    ensures bytes { Puts (K.held sink.old) buffer.old (K.held sink.new) buffer.new result (lines_text (journal_lines d items.now)) }
    ensures cause { HasCause (K.faults sink.old) (K.faults sink.new) result }
{
    let mut loose = LooseCount {
        tracks: 0,
        number: 0,
    };
    for item in items {
        put_item(sink, buffer, d, loose, item)?;
        loose = loose_behind_item(loose, item);
    }
    Ok(())
}
