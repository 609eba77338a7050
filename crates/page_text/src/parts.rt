ghost use Rattle.std.specs.Prelude.{◌≡◌, ◌++◌, OnOk};
ghost use Rattle.page_text.specs.Parts.{
  cache_change,
  change_by,
  change_in,
  fail_state,
  part_by,
  part_change,
  part_next,
  part_span,
  part_text,
  part_y,
  repair_state,
  state_class,
  state_name,
  store_change,
  system_by,
  system_in,
  system_mark,
  system_text,
};

use crate::drawing::Drawing;
use crate::lines::{ShownLine, order_device};
use crate::marks::{Mark, put_mark, shape_if_done, x_of};
use crate::{Page, Piece};
use ckd_types::NoMemory;
use report_text::{Order, OrderAnswer, ReportLine};

/// The cache or the store.
#[derive(Clone, Copy)]
pub(crate) enum Part {
    Cache,
    Store,
}

#[derive(Clone, Copy)]
pub(crate) enum PartState {
    Up,
    Down,
    Pending,
}

/// The row of the cache or the store: how it is, and since where.
#[derive(Clone, Copy)]
pub(crate) struct PartLane {
    pub(crate) part: Part,
    pub(crate) more: u32,
    pub(crate) state: PartState,
    pub(crate) from: u64,
}

fn part_y(part: Part) -> u64
    ensures { result ≡ part_y part }
{
    match part {
        Part::Cache => 24,
        Part::Store => 46,
    }
}

fn state_class(state: PartState) -> &'static [u8]
    ensures { result.now ≡ state_class state }
{
    match state {
        PartState::Up => b"up",
        PartState::Down => b"down",
        PartState::Pending => b"pending",
    }
}

fn state_name(state: PartState) -> &'static [u8]
    ensures { result.now ≡ state_name state }
{
    match state {
        PartState::Up => b"up",
        PartState::Down => b"down",
        PartState::Pending => b"down, repair waits",
    }
}

fn fail_state(answer: &OrderAnswer) -> Option<PartState>
    ensures { result ≡ fail_state answer.now }
{
    match answer {
        OrderAnswer::Done => Some(PartState::Down),
        OrderAnswer::Pending(_) => None,
        OrderAnswer::Refused(_) => None,
    }
}

fn repair_state(answer: &OrderAnswer) -> Option<PartState>
    ensures { result ≡ repair_state answer.now }
{
    match answer {
        OrderAnswer::Done => Some(PartState::Up),
        OrderAnswer::Pending(_) => Some(PartState::Pending),
        OrderAnswer::Refused(_) => None,
    }
}

fn cache_change(order: &Order, answer: &OrderAnswer) -> Option<PartState>
    ensures { result ≡ cache_change order.now answer.now }
{
    match order {
        Order::FailCache => fail_state(answer),
        Order::RepairCache => repair_state(answer),
        _ => None,
    }
}

fn store_change(order: &Order, answer: &OrderAnswer) -> Option<PartState>
    ensures { result ≡ store_change order.now answer.now }
{
    match order {
        Order::FailStore => fail_state(answer),
        Order::RepairStore => repair_state(answer),
        _ => None,
    }
}

fn change_by(part: Part, order: &Order, answer: &OrderAnswer) -> Option<PartState>
    ensures { result ≡ change_by part order.now answer.now }
{
    match part {
        Part::Cache => cache_change(order, answer),
        Part::Store => store_change(order, answer),
    }
}

fn change_in(part: Part, line: &ReportLine) -> Option<PartState>
    ensures { result ≡ change_in part line.now }
{
    match line {
        ReportLine::Order(order, answer) => change_by(part, order, answer),
        _ => None,
    }
}

/// How a part is after a line, where the line changes it.
fn part_change(part: Part, shown: &ShownLine) -> Option<PartState>
    ensures { result ≡ part_change part shown.now }
{
    match &shown.line {
        Some(line) => change_in(part, line),
        None => None,
    }
}

#[tactic(auto, unfolding(crate::specs::Parts::part_by))]
fn put_part_by<'a>(
    page: &mut Page,
    class: &'a [u8],
    from: u64,
    y: u64,
    width: u64,
    name: &'a [u8],
) -> Result<(), NoMemory>
    ensures { OnOk result (page.new ≡ page.old ++ part_by class.now from y width name.now) }
{
    let pieces = [
        Piece::Text(b"<svg x='"),
        Piece::Number(from),
        Piece::Text(b"' y='"),
        Piece::Number(y),
        Piece::Text(b"' width='"),
        Piece::Number(width),
        Piece::Text(b"' height='18'><rect class='"),
        Piece::Text(class),
        Piece::Text(b"' width='100%' height='100%'/><text x='2' y='13'>"),
        Piece::Text(name),
        Piece::Text(b"</text></svg>\n"),
    ];
    page.put(&pieces)
}

/// How it was up to some place.
pub(crate) fn put_part_span(page: &mut Page, lane: &PartLane, to: u64) -> Result<(), NoMemory>
    ensures { OnOk result (page.new ≡ page.old ++ part_span lane.now to) }
{
    let class = state_class(lane.state);
    let width = to.saturating_sub(lane.from);
    let y = part_y(lane.part);
    put_part_by(page, class, lane.from, y, width, state_name(lane.state))
}

fn put_part(page: &mut Page, lane: &PartLane, i: u64, shown: &ShownLine) -> Result<(), NoMemory>
    ensures { OnOk result (page.new ≡ page.old ++ part_text lane.now i shown.now) }
{
    match part_change(lane.part, shown) {
        Some(_) => put_part_span(page, lane, x_of(lane.more, i)),
        None => page.put(&[]),
    }
}

fn part_next(lane: &PartLane, i: u64, shown: &ShownLine) -> PartLane
    ensures { result ≡ part_next lane.now i shown.now }
{
    match part_change(lane.part, shown) {
        Some(state) => PartLane {
            part: lane.part,
            more: lane.more,
            state,
            from: x_of(lane.more, i),
        },
        None => *lane,
    }
}

impl Drawing<ShownLine> for PartLane {
    ghost text = { part_text };

    ghost next = { part_next };

    fn put(&mut self, page: &mut Page, i: u64, it: &ShownLine) -> Result<(), NoMemory> {
        put_part(page, self, i, it)?;
        *self = part_next(self, i, it);
        Ok(())
    }
}

/// The marks of the orders that name no device.
#[derive(Clone, Copy)]
pub(crate) struct SystemMarks {
    pub(crate) more: u32,
}

fn system_by(order: &Order, answer: &OrderAnswer) -> Option<Mark>
    ensures { result ≡ system_by order.now answer.now }
{
    match order_device(order) {
        Some(_) => None,
        None => Some(Mark {
            y: 11,
            shape: shape_if_done(order, answer),
        }),
    }
}

fn system_in(line: &ReportLine) -> Option<Mark>
    ensures { result ≡ system_in line.now }
{
    match line {
        ReportLine::Order(order, answer) => system_by(order, answer),
        _ => None,
    }
}

fn system_mark(shown: &ShownLine) -> Option<Mark>
    ensures { result ≡ system_mark shown.now }
{
    match &shown.line {
        Some(line) => system_in(line),
        None => None,
    }
}

fn put_system(page: &mut Page, more: u32, i: u64, shown: &ShownLine) -> Result<(), NoMemory>
    ensures { OnOk result (page.new ≡ page.old ++ system_text more i shown.now) }
{
    match system_mark(shown) {
        Some(mark) => put_mark(page, more, i, mark, shown.text.as_slice()),
        None => page.put(&[]),
    }
}

impl Drawing<ShownLine> for SystemMarks {
    ghost text = { λ s i it. system_text s.more i it };

    ghost next = { λ s i it. s };

    fn put(&mut self, page: &mut Page, i: u64, it: &ShownLine) -> Result<(), NoMemory> {
        put_system(page, self.more, i, it)
    }
}
