ghost use Rattle.std.specs.Prelude.{◌≡◌};
ghost use Rattle.report_reading.specs.Reading.{back_line, device_line, end_line, event_line, fail_line, frame_line, fresh_line, half_line, io_line};
ghost use Rattle.report_reading.specs.Reading.{left_line, loose_line, lost_line, lost_track_line, order_line, over_line, pair_line, power_line};
ghost use Rattle.report_reading.specs.Reading.{repair_line, replace_line, reset_line, resume_line, run_line, sense_line, start_line, step_line};
ghost use Rattle.report_reading.specs.Reading.{sum_line, suspend_line, total_line, unpair_line, unused_line, volume_line};

use crate::LineFault;
use crate::line_words::LineWords;
use crate::places::{
    byte_at, count_at, device_at, is_key, key_at, long_at, mark_at, note_at, path_at, short_at,
    side_at, sized_at, track_at, word_at,
};
use crate::read_answers::{answer_at, back_at, loose_at, over_at, start_at, totals_at};
use ckd_types::{Sense, UnitStatus};
use report_text::{EndLine, Keyword, Order, OrderAnswer, ReportLine, SumOf};

fn start_line(words: &LineWords) -> Result<ReportLine, LineFault>
    ensures { result ≡ start_line words.now }
{
    let path = path_at(words, 1)?;
    let device = device_at(words, 2)?;
    let answer = start_at(words, 3)?;
    Ok(ReportLine::Start(path, device, answer))
}

fn end_line(words: &LineWords) -> Result<ReportLine, LineFault>
    ensures { result ≡ end_line words.now }
{
    let end = EndLine {
        path: path_at(words, 1)?,
        device: device_at(words, 2)?,
        ordinal: short_at(words, 3)?,
        index: short_at(words, 4)?,
        status: UnitStatus(byte_at(words, 5)?),
        residual: short_at(words, 6)?,
        note: note_at(words, 7)?,
    };
    Ok(ReportLine::End(end))
}

fn sense_line(words: &LineWords) -> Result<ReportLine, LineFault>
    ensures { result ≡ sense_line words.now }
{
    let bytes = sized_at::<32>(words, 1)?;
    Ok(ReportLine::Sense(Sense { bytes }))
}

fn half_line(words: &LineWords) -> Result<ReportLine, LineFault>
    ensures { result ≡ half_line words.now }
{
    let path = path_at(words, 1)?;
    let device = device_at(words, 2)?;
    let track = track_at(words, 3)?;
    Ok(ReportLine::Half(path, device, track))
}

fn back_line(words: &LineWords) -> Result<ReportLine, LineFault>
    ensures { result ≡ back_line words.now }
{
    let device = device_at(words, 1)?;
    let answer = back_at(words, 2)?;
    Ok(ReportLine::Back(device, answer))
}

fn step_line(words: &LineWords) -> Result<ReportLine, LineFault>
    ensures { result ≡ step_line words.now }
{
    let device = device_at(words, 1)?;
    key_at(Keyword::Idle, words, 2)?;
    Ok(ReportLine::StepIdle(device))
}

fn run_line(words: &LineWords) -> Result<ReportLine, LineFault>
    ensures { result ≡ run_line words.now }
{
    let device = device_at(words, 1)?;
    key_at(Keyword::Idle, words, 2)?;
    Ok(ReportLine::RunIdle(device))
}

fn loose_line(words: &LineWords) -> Result<ReportLine, LineFault>
    ensures { result ≡ loose_line words.now }
{
    let device = device_at(words, 1)?;
    let answer = loose_at(words, 2)?;
    Ok(ReportLine::Loose(device, answer))
}

fn io_line(words: &LineWords) -> Result<ReportLine, LineFault>
    ensures { result ≡ io_line words.now }
{
    let reads = long_at(words, 1)?;
    let writes = long_at(words, 2)?;
    if reads == 0 && writes == 0 {
        Err(LineFault::Number)
    } else {
        Ok(ReportLine::Io { reads, writes })
    }
}

fn over_line(words: &LineWords) -> Result<ReportLine, LineFault>
    ensures { result ≡ over_line words.now }
{
    let path = path_at(words, 1)?;
    let device = device_at(words, 2)?;
    let ordinal = short_at(words, 3)?;
    let how = over_at(words, 4)?;
    Ok(ReportLine::Over(path, device, ordinal, how))
}

fn reset_line(words: &LineWords) -> Result<ReportLine, LineFault>
    ensures { result ≡ reset_line words.now }
{
    let path = path_at(words, 1)?;
    let device = device_at(words, 2)?;
    Ok(ReportLine::Reset(path, device))
}

/// FAIL VOLUME, a device and a side.
fn volume_line(words: &LineWords) -> Result<ReportLine, LineFault>
    ensures { result ≡ volume_line words.now }
{
    let device = device_at(words, 2)?;
    let side = side_at(words, 3)?;
    let answer = answer_at(words, 4)?;
    Ok(ReportLine::Order(Order::FailVolume(device, side), answer))
}

fn fail_line(words: &LineWords) -> Result<ReportLine, LineFault>
    ensures { result ≡ fail_line words.now }
{
    let word = word_at(words, 1)?;
    if is_key(word, Keyword::Cache) {
        Ok(ReportLine::Order(Order::FailCache, answer_at(words, 2)?))
    } else if is_key(word, Keyword::Store) {
        Ok(ReportLine::Order(Order::FailStore, answer_at(words, 2)?))
    } else if is_key(word, Keyword::Volume) {
        volume_line(words)
    } else {
        Err(LineFault::Word)
    }
}

fn repair_line(words: &LineWords) -> Result<ReportLine, LineFault>
    ensures { result ≡ repair_line words.now }
{
    let word = word_at(words, 1)?;
    if is_key(word, Keyword::Cache) {
        Ok(ReportLine::Order(Order::RepairCache, answer_at(words, 2)?))
    } else if is_key(word, Keyword::Store) {
        Ok(ReportLine::Order(Order::RepairStore, answer_at(words, 2)?))
    } else {
        Err(LineFault::Word)
    }
}

fn replace_line(words: &LineWords) -> Result<ReportLine, LineFault>
    ensures { result ≡ replace_line words.now }
{
    let device = device_at(words, 1)?;
    let side = side_at(words, 2)?;
    let answer = answer_at(words, 3)?;
    Ok(ReportLine::Order(Order::Replace(device, side), answer))
}

fn pair_line(words: &LineWords) -> Result<ReportLine, LineFault>
    ensures { result ≡ pair_line words.now }
{
    let first = device_at(words, 1)?;
    let second = device_at(words, 2)?;
    let answer = answer_at(words, 3)?;
    Ok(ReportLine::Order(Order::Pair(first, second), answer))
}

fn unpair_line(words: &LineWords) -> Result<ReportLine, LineFault>
    ensures { result ≡ unpair_line words.now }
{
    let device = device_at(words, 1)?;
    let answer = answer_at(words, 2)?;
    Ok(ReportLine::Order(Order::Unpair(device), answer))
}

fn suspend_line(words: &LineWords) -> Result<ReportLine, LineFault>
    ensures { result ≡ suspend_line words.now }
{
    let device = device_at(words, 1)?;
    let answer = answer_at(words, 2)?;
    Ok(ReportLine::Order(Order::Suspend(device), answer))
}

fn resume_line(words: &LineWords) -> Result<ReportLine, LineFault>
    ensures { result ≡ resume_line words.now }
{
    let device = device_at(words, 1)?;
    let answer = answer_at(words, 2)?;
    Ok(ReportLine::Order(Order::Resume(device), answer))
}

fn power_line(words: &LineWords) -> Result<ReportLine, LineFault>
    ensures { result ≡ power_line words.now }
{
    key_at(Keyword::Done, words, 1)?;
    Ok(ReportLine::Order(Order::Power, OrderAnswer::Done))
}

fn device_line(words: &LineWords) -> Result<ReportLine, LineFault>
    ensures { result ≡ device_line words.now }
{
    let device = device_at(words, 1)?;
    let totals = totals_at(words, 2)?;
    Ok(ReportLine::Device(device, totals))
}

fn sum_line(of: SumOf, words: &LineWords) -> Result<ReportLine, LineFault>
    ensures { result ≡ sum_line of words.now }
{
    let n = long_at(words, 1)?;
    Ok(ReportLine::Sum(of, n))
}

fn lost_track_line(words: &LineWords) -> Result<ReportLine, LineFault>
    ensures { result ≡ lost_track_line words.now }
{
    let device = device_at(words, 1)?;
    let track = track_at(words, 2)?;
    Ok(ReportLine::Lost(device, track))
}

/// A lost track of a device, or the count of a summary.
fn lost_line(words: &LineWords) -> Result<ReportLine, LineFault>
    ensures { result ≡ lost_line words.now }
{
    match word_at(words, 2) {
        Ok(_) => lost_track_line(words),
        Err(_) => sum_line(SumOf::Lost, words),
    }
}

fn frame_line(words: &LineWords) -> Result<ReportLine, LineFault>
    ensures { result ≡ frame_line words.now }
{
    let device = device_at(words, 1)?;
    let track = track_at(words, 2)?;
    let modified = mark_at(words, 3)?;
    Ok(ReportLine::Frame(device, track, modified))
}

fn fresh_line(words: &LineWords) -> Result<ReportLine, LineFault>
    ensures { result ≡ fresh_line words.now }
{
    let device = device_at(words, 1)?;
    Ok(ReportLine::Fresh(device))
}

fn left_line(words: &LineWords) -> Result<ReportLine, LineFault>
    ensures { result ≡ left_line words.now }
{
    let path = path_at(words, 1)?;
    let device = device_at(words, 2)?;
    let programs = short_at(words, 3)?;
    Ok(ReportLine::Left(path, device, programs))
}

fn unused_line(words: &LineWords) -> Result<ReportLine, LineFault>
    ensures { result ≡ unused_line words.now }
{
    let events = count_at(words, 1)?;
    Ok(ReportLine::Unused(events))
}

/// The lines at the end of a report and of a history, and those of a summary, by their first word.
fn total_line(word: &[u8], words: &LineWords) -> Result<ReportLine, LineFault>
    ensures { result ≡ total_line word.now words.now }
{
    if is_key(word, Keyword::Device) {
        device_line(words)
    } else if is_key(word, Keyword::Lost) {
        lost_line(words)
    } else if is_key(word, Keyword::Frame) {
        frame_line(words)
    } else if is_key(word, Keyword::Fresh) {
        fresh_line(words)
    } else if is_key(word, Keyword::Left) {
        left_line(words)
    } else if is_key(word, Keyword::Unused) {
        unused_line(words)
    } else if is_key(word, Keyword::Finish) {
        Ok(ReportLine::Finish)
    } else if is_key(word, Keyword::Programs) {
        sum_line(SumOf::Programs, words)
    } else if is_key(word, Keyword::Commands) {
        sum_line(SumOf::Commands, words)
    } else if is_key(word, Keyword::Checks) {
        sum_line(SumOf::Checks, words)
    } else if is_key(word, Keyword::Reads) {
        sum_line(SumOf::Reads, words)
    } else if is_key(word, Keyword::Writes) {
        sum_line(SumOf::Writes, words)
    } else {
        Err(LineFault::Keyword)
    }
}

/// The lines of orders, and those above.
fn order_line(word: &[u8], words: &LineWords) -> Result<ReportLine, LineFault>
    ensures { result ≡ order_line word.now words.now }
{
    if is_key(word, Keyword::Fail) {
        fail_line(words)
    } else if is_key(word, Keyword::Repair) {
        repair_line(words)
    } else if is_key(word, Keyword::Replace) {
        replace_line(words)
    } else if is_key(word, Keyword::Pair) {
        pair_line(words)
    } else if is_key(word, Keyword::Unpair) {
        unpair_line(words)
    } else if is_key(word, Keyword::Suspend) {
        suspend_line(words)
    } else if is_key(word, Keyword::Resume) {
        resume_line(words)
    } else if is_key(word, Keyword::Power) {
        power_line(words)
    } else {
        total_line(word, words)
    }
}

/// The lines of events, and those above: all but DATA.
pub fn event_line(word: &[u8], words: &LineWords) -> Result<ReportLine, LineFault>
    ensures { result ≡ event_line word.now words.now }
{
    if is_key(word, Keyword::Start) {
        start_line(words)
    } else if is_key(word, Keyword::End) {
        end_line(words)
    } else if is_key(word, Keyword::Sense) {
        sense_line(words)
    } else if is_key(word, Keyword::Half) {
        half_line(words)
    } else if is_key(word, Keyword::Back) {
        back_line(words)
    } else if is_key(word, Keyword::Step) {
        step_line(words)
    } else if is_key(word, Keyword::Run) {
        run_line(words)
    } else if is_key(word, Keyword::Loose) {
        loose_line(words)
    } else if is_key(word, Keyword::Io) {
        io_line(words)
    } else if is_key(word, Keyword::Over) {
        over_line(words)
    } else if is_key(word, Keyword::Reset) {
        reset_line(words)
    } else {
        order_line(word, words)
    }
}
