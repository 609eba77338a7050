ghost use Rattle.std.specs.Prelude.{◌≡◌, ◌++◌, OnOk};
ghost use Rattle.page_text.specs.Marks.{
  back_shape,
  end_shape,
  io_shape,
  loose_shape,
  mark_by,
  mark_in,
  mark_of,
  mark_text,
  order_shape,
  over_shape,
  path_mark,
  path_y,
  shape_name,
  shape_if_done,
  start_shape,
  x_of,
};

use crate::lines::ShownLine;
use crate::{Page, Piece};
use ckd_types::{NoMemory, PathNo, UnitStatus};
use report_text::{BackAnswer, HowOver, LooseAnswer, Order, OrderAnswer, ReportLine, StartAnswer};

/// The marks that stand for lines, each with a shape and a letter of its own.
#[derive(Clone, Copy)]
pub(crate) enum Shape {
    Begin,
    Refused,
    Ended,
    Exception,
    Check,
    Half,
    Over,
    Cut,
    Reset,
    Nothing,
    Recovered,
    Copied,
    Staged,
    Skipped,
    Destaged,
    Finished,
    Unwritten,
    Fault,
    Harden,
    Loosen,
    Loss,
    Read,
    Write,
    Both,
    Pair,
    Unpair,
    Hold,
    Resume,
    Replace,
    Repair,
    Wait,
    Power,
}

pub(crate) fn shape_name(shape: Shape) -> &'static [u8]
    ensures { result.now ≡ shape_name shape }
{
    match shape {
        Shape::Begin => b"begin",
        Shape::Refused => b"refused",
        Shape::Ended => b"ended",
        Shape::Exception => b"exception",
        Shape::Check => b"check",
        Shape::Half => b"half",
        Shape::Over => b"over",
        Shape::Cut => b"cut",
        Shape::Reset => b"reset",
        Shape::Nothing => b"nothing",
        Shape::Recovered => b"recovered",
        Shape::Copied => b"copied",
        Shape::Staged => b"staged",
        Shape::Skipped => b"skipped",
        Shape::Destaged => b"destaged",
        Shape::Finished => b"finished",
        Shape::Unwritten => b"unwritten",
        Shape::Fault => b"fault",
        Shape::Harden => b"harden",
        Shape::Loosen => b"loosen",
        Shape::Loss => b"loss",
        Shape::Read => b"read",
        Shape::Write => b"write",
        Shape::Both => b"both",
        Shape::Pair => b"pair",
        Shape::Unpair => b"unpair",
        Shape::Hold => b"hold",
        Shape::Resume => b"resume",
        Shape::Replace => b"replace",
        Shape::Repair => b"repair",
        Shape::Wait => b"wait",
        Shape::Power => b"power",
    }
}

/// A mark: how far down its row is, and its shape.
#[derive(Clone, Copy)]
pub(crate) struct Mark {
    pub(crate) y: u64,
    pub(crate) shape: Shape,
}

fn start_shape(answer: StartAnswer) -> Shape
    ensures { result ≡ start_shape answer }
{
    match answer {
        StartAnswer::Accepted(_) => Shape::Begin,
        _ => Shape::Refused,
    }
}

fn end_shape(status: UnitStatus) -> Shape
    ensures { result ≡ end_shape status }
{
    if status.has_unit_check() {
        Shape::Check
    } else if status.has_unit_exception() {
        Shape::Exception
    } else {
        Shape::Ended
    }
}

fn over_shape(how: HowOver) -> Shape
    ensures { result ≡ over_shape how }
{
    match how {
        HowOver::Full => Shape::Over,
        HowOver::Checked => Shape::Over,
        HowOver::Cut(_) => Shape::Cut,
    }
}

fn back_shape(answer: BackAnswer) -> Shape
    ensures { result ≡ back_shape answer }
{
    match answer {
        BackAnswer::Nothing => Shape::Nothing,
        BackAnswer::Recovered(_) => Shape::Recovered,
        BackAnswer::Copied(_) => Shape::Copied,
        BackAnswer::Staged(_) => Shape::Staged,
        BackAnswer::Skipped(_) => Shape::Skipped,
        BackAnswer::Destaged(_) => Shape::Destaged,
        BackAnswer::Half(_) => Shape::Half,
        BackAnswer::Finished(_) => Shape::Finished,
        BackAnswer::Unwritten(_) => Shape::Unwritten,
        BackAnswer::Fault(_) => Shape::Fault,
        BackAnswer::BadBytes(_) => Shape::Fault,
    }
}

fn loose_shape(answer: LooseAnswer) -> Shape
    ensures { result ≡ loose_shape answer }
{
    match answer {
        LooseAnswer::Harden(_) => Shape::Harden,
        LooseAnswer::Loosen(_) => Shape::Loosen,
        LooseAnswer::Lost { .. } => Shape::Loss,
    }
}

fn io_shape(reads: u64, writes: u64) -> Shape
    ensures { result ≡ io_shape reads writes }
{
    if writes == 0 {
        Shape::Read
    } else if reads == 0 {
        Shape::Write
    } else {
        Shape::Both
    }
}

fn order_shape(order: &Order) -> Shape
    ensures { result ≡ order_shape order.now }
{
    match order {
        Order::FailCache => Shape::Loss,
        Order::FailStore => Shape::Loss,
        Order::FailVolume(_, _) => Shape::Loss,
        Order::RepairCache => Shape::Repair,
        Order::RepairStore => Shape::Repair,
        Order::Replace(_, _) => Shape::Replace,
        Order::Pair(_, _) => Shape::Pair,
        Order::Unpair(_) => Shape::Unpair,
        Order::Suspend(_) => Shape::Hold,
        Order::Resume(_) => Shape::Resume,
        Order::Power => Shape::Power,
    }
}

/// The shape of an order, by its answer.
pub(crate) fn shape_if_done(order: &Order, answer: &OrderAnswer) -> Shape
    ensures { result ≡ shape_if_done order.now answer.now }
{
    match answer {
        OrderAnswer::Done => order_shape(order),
        OrderAnswer::Pending(_) => Shape::Wait,
        OrderAnswer::Refused(_) => Shape::Refused,
    }
}

/// How far down a path's row is.
pub(crate) fn path_y(path: PathNo) -> u64
    ensures { result ≡ path_y path }
{
    77 + 22 * u64::from(path.get())
}

fn path_mark(path: PathNo, shape: Shape) -> Option<Mark>
    ensures { result ≡ path_mark path shape }
{
    Some(Mark {
        y: path_y(path),
        shape,
    })
}

fn mark_in(line: &ReportLine) -> Option<Mark>
    ensures { result ≡ mark_in line.now }
{
    match line {
        ReportLine::Order(order, answer) => Some(Mark {
            y: 11,
            shape: shape_if_done(order, answer),
        }),
        ReportLine::Back(_, answer) => Some(Mark {
            y: 33,
            shape: back_shape(*answer),
        }),
        ReportLine::Loose(_, answer) => Some(Mark {
            y: 33,
            shape: loose_shape(*answer),
        }),
        ReportLine::Io { reads, writes } => Some(Mark {
            y: 77,
            shape: io_shape(*reads, *writes),
        }),
        ReportLine::Start(path, _, answer) => path_mark(*path, start_shape(*answer)),
        ReportLine::End(end) => path_mark(end.path, end_shape(end.status)),
        ReportLine::Half(path, _, _) => path_mark(*path, Shape::Half),
        ReportLine::Over(path, _, _, how) => path_mark(*path, over_shape(*how)),
        ReportLine::Reset(path, _) => path_mark(*path, Shape::Reset),
        _ => None,
    }
}

/// The mark of a line in the rows of its device.
pub(crate) fn mark_of(shown: &ShownLine) -> Option<Mark>
    ensures { result ≡ mark_of shown.now }
{
    match &shown.line {
        Some(line) => mark_in(line),
        None => None,
    }
}

/// How far to the right a line stands, where each column has so many lines and one more.
pub(crate) fn x_of(more: u32, i: u64) -> u64
    ensures { result ≡ x_of more i }
{
    10 + 12 * (i / (u64::from(more) + 1)).min(2000)
}

#[tactic(auto, unfolding(crate::specs::Marks::mark_by))]
fn put_mark_by<'a>(
    page: &mut Page,
    i: u64,
    text: &'a [u8],
    name: &'a [u8],
    x: u64,
    y: u64,
) -> Result<(), NoMemory>
    ensures { OnOk result (page.new ≡ page.old ++ mark_by i text.now name.now x y) }
{
    let pieces = [
        Piece::Text(b"<a href='#l"),
        Piece::Number(i),
        Piece::Text(b"'><title>"),
        Piece::Number(i),
        Piece::Text(b": "),
        Piece::Shown(text),
        Piece::Text(b"</title><use href='#s-"),
        Piece::Text(name),
        Piece::Text(b"' x='"),
        Piece::Number(x),
        Piece::Text(b"' y='"),
        Piece::Number(y),
        Piece::Text(b"'/></a>\n"),
    ];
    page.put(&pieces)
}

/// A mark, which leads to its line.
pub(crate) fn put_mark(
    page: &mut Page,
    more: u32,
    i: u64,
    mark: Mark,
    text: &[u8],
) -> Result<(), NoMemory>
    ensures { OnOk result (page.new ≡ page.old ++ mark_text more i mark text.now) }
{
    put_mark_by(page, i, text, shape_name(mark.shape), x_of(more, i), mark.y)
}
