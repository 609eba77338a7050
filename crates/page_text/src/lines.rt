ghost use Rattle.std.specs.Prelude.{◌≡◌, IfOk, None, map};
ghost use Rattle.page_text.specs.Lines.{code_at, code_for, code_of_end, code_of_line, device_after, device_in, device_or, is_fed, line_in, lines_in, order_device, pieces_in, shown_all, shown_of, without_feed, word_code};

use ckd_ccw::Program;
use ckd_types::{Bytes, DeviceNo, NoMemory, PathNo};
use deck_plan::PathPlans;
use deck_text::Deck;
use report_reading::{LineError, read_line};
use report_text::{EndLine, Order, ReportLine, Respelling};
use std::alloc::{AllocError, Global};

/// A line of a report or history: its text, what it says, the device of its event, and the code of the
/// command that it says the end of.
#[derive(Debug, Drop)]
pub struct ShownLine {
    pub text: Bytes,
    pub line: Option<ReportLine>,
    pub device: Option<DeviceNo>,
    pub code: Option<u8>,
}

/// Whether a text ends with a line feed.
fn is_fed(text: &[u8]) -> bool
    ensures { result ≡ is_fed text.now }
{
    let n = text.len();
    n > 0 && text[n - 1] == b'\n'
}

/// A text without the line feed at its end.
fn without_feed(text: &[u8]) -> &[u8]
    ensures { result.now ≡ without_feed text.now }
{
    if is_fed(text) {
        let n = text.len();
        text.split_at(n.saturating_sub(1)).0
    } else {
        text
    }
}

#[tactic(auto, unfolding(crate::specs::Lines::pieces_in))]
fn cut<'a>(alloc: Global, text: &'a [u8]) -> Result<Vec<&'a [u8]>, AllocError>
    ensures { IfOk result (λ v. map (λ x. x.now) v.items ≡ pieces_in text.now) }
{
    text.split(|b| *b == b'\n').collect(alloc)
}

fn kept(alloc: Global, lines: &[&[u8]]) -> Result<Vec<Bytes>, NoMemory>
    ensures { IfOk result (λ v. v.items ≡ map (λ x. x.now) lines.now) }
{
    let mut kept = Vec::with_capacity(alloc, lines.len())?;
    for line in lines {
        kept.push(Bytes::from_slice(alloc, line)?)?;
    }
    Ok(kept)
}

/// The lines of a text: it is cut at each line feed, but for one at its end.
pub fn lines_in(alloc: Global, text: &[u8]) -> Result<Vec<Bytes>, NoMemory>
    ensures { IfOk result (λ v. v.items ≡ lines_in text.now) }
{
    let lines = cut(alloc, without_feed(text))?;
    let lines = kept(alloc, &lines)?;
    Ok(lines)
}

fn line_in(
    alloc: Global,
    respelling: &mut Respelling,
    text: &[u8],
) -> Result<Option<ReportLine>, NoMemory>
    ensures { IfOk result (λ line. line ≡ line_in text.now) }
{
    match read_line(alloc, respelling, text) {
        Ok(line) => Ok(Some(line)),
        Err(LineError::Fault(_)) => Ok(None),
        Err(LineError::NoMemory) => Err(NoMemory),
    }
}

/// The device that an order names first.
pub(crate) fn order_device(order: &Order) -> Option<DeviceNo>
    ensures { result ≡ order_device order.now }
{
    match order {
        Order::FailVolume(device, _) => Some(*device),
        Order::Replace(device, _) => Some(*device),
        Order::Pair(device, _) => Some(*device),
        Order::Unpair(device) => Some(*device),
        Order::Suspend(device) => Some(*device),
        Order::Resume(device) => Some(*device),
        Order::FailCache => None,
        Order::FailStore => None,
        Order::RepairCache => None,
        Order::RepairStore => None,
        Order::Power => None,
    }
}

/// The device that a line names first.
fn device_in(line: &ReportLine) -> Option<DeviceNo>
    ensures { result ≡ device_in line.now }
{
    match line {
        ReportLine::Start(_, device, _) => Some(*device),
        ReportLine::End(end) => Some(end.device),
        ReportLine::Half(_, device, _) => Some(*device),
        ReportLine::Back(device, _) => Some(*device),
        ReportLine::StepIdle(device) => Some(*device),
        ReportLine::RunIdle(device) => Some(*device),
        ReportLine::Loose(device, _) => Some(*device),
        ReportLine::Over(_, device, _, _) => Some(*device),
        ReportLine::Reset(_, device) => Some(*device),
        ReportLine::Order(order, _) => order_device(order),
        ReportLine::Device(device, _) => Some(*device),
        ReportLine::Lost(device, _) => Some(*device),
        ReportLine::Frame(device, _, _) => Some(*device),
        ReportLine::Fresh(device) => Some(*device),
        ReportLine::Left(_, device, _) => Some(*device),
        ReportLine::Data(_) => None,
        ReportLine::Sense(_) => None,
        ReportLine::Io { .. } => None,
        ReportLine::Unused(_) => None,
        ReportLine::Finish => None,
        ReportLine::Sum(_, _) => None,
    }
}

fn device_or(device: Option<DeviceNo>, before: Option<DeviceNo>) -> Option<DeviceNo>
    ensures { result ≡ device_or device before }
{
    match device {
        Some(device) => Some(device),
        None => before,
    }
}

/// The device of a line's event: that of the line before, where it names none.
fn device_after(before: Option<DeviceNo>, line: &Option<ReportLine>) -> Option<DeviceNo>
    ensures { result ≡ device_after before line.now }
{
    match line {
        Some(line) => device_or(device_in(line), before),
        None => before,
    }
}

fn word_code(program: &Program, i: usize) -> Option<u8>
    ensures { result ≡ word_code program.now i }
{
    match program.ccws().get(i) {
        Some(ccw) => Some(ccw.command),
        None => None,
    }
}

/// The code of a word of a path's program, which are numbered from 1.
fn code_at(plans: &PathPlans, path: PathNo, ordinal: u16, i: u16) -> Option<u8>
    ensures { result ≡ code_at plans.now path ordinal i }
{
    let ordinal = usize::from(ordinal);
    if ordinal == 0 {
        return None;
    }
    if ordinal > plans.len(path) {
        return None;
    }
    word_code(plans.at(path, ordinal - 1), usize::from(i))
}

fn code_of_end(deck: &Deck, end: &EndLine) -> Option<u8>
    ensures { result ≡ code_of_end deck.now end.now }
{
    code_at(deck.plans(end.device), end.path, end.ordinal, end.index)
}

fn code_of_line(deck: &Deck, line: &ReportLine) -> Option<u8>
    ensures { result ≡ code_of_line deck.now line.now }
{
    match line {
        ReportLine::End(end) => code_of_end(deck, end),
        _ => None,
    }
}

/// The code of the command that a line says the end of.
fn code_for(deck: &Deck, line: &Option<ReportLine>) -> Option<u8>
    ensures { result ≡ code_for deck.now line.now }
{
    match line {
        Some(line) => code_of_line(deck, line),
        None => None,
    }
}

fn shown_of(
    alloc: Global,
    deck: &Deck,
    respelling: &mut Respelling,
    before: Option<DeviceNo>,
    text: &[u8],
) -> Result<ShownLine, NoMemory>
    ensures { IfOk result (λ shown. shown ≡ shown_of deck.now before text.now) }
{
    let line = line_in(alloc, respelling, text)?;
    let device = device_after(before, &line);
    let code = code_for(deck, &line);
    Ok(ShownLine {
        text: Bytes::from_slice(alloc, text)?,
        line,
        device,
        code,
    })
}

/// All lines of a report or history.
pub fn shown_all(alloc: Global, deck: &Deck, lines: &[Bytes]) -> Result<Vec<ShownLine>, NoMemory>
    ensures { IfOk result (λ all. all.items ≡ shown_all deck.now None lines.now) }
{
    let mut respelling = Respelling::new(alloc);
    let mut all = Vec::with_capacity(alloc, lines.len())?;
    let mut before = None;
    for line in lines {
        let shown = shown_of(alloc, deck, &mut respelling, before, line.as_slice())?;
        before = shown.device;
        all.push(shown)?;
    }
    Ok(all)
}
