ghost use Rattle.std.specs.Prelude.{◌≡◌, ◌++◌, OnOk};
ghost use Rattle.page_text.specs.Sides.{
  after_order,
  changed,
  changed_by,
  changed_if_done,
  changed_in,
  first_name,
  held_name,
  pair_next,
  pair_text,
  paired,
  second_name,
  side_down,
  span_by,
  span_text,
  touches,
  unpaired,
};

use crate::drawing::Drawing;
use crate::lanes::is_at;
use crate::lines::{ShownLine, order_device};
use crate::marks::x_of;
use crate::{Page, Piece};
use ckd_types::{DeviceNo, NoMemory, Side};
use report_text::{Order, OrderAnswer, ReportLine};

/// The sides of a device, as far as orders tell.
#[derive(Clone, Copy)]
pub(crate) struct Sides {
    pub(crate) first_down: bool,
    pub(crate) second: bool,
    pub(crate) second_down: bool,
    pub(crate) held: bool,
    pub(crate) lent: Option<DeviceNo>,
}

/// The row of a device's sides: what they are, and since where.
#[derive(Clone, Copy)]
pub(crate) struct PairLane {
    pub(crate) device: DeviceNo,
    pub(crate) more: u32,
    pub(crate) sides: Sides,
    pub(crate) from: u64,
}

fn side_down(sides: &Sides, side: Side, down: bool) -> Sides
    ensures { result ≡ side_down sides.now side down }
{
    let mut new = *sides;
    match side {
        Side::A => new.first_down = down,
        Side::B => new.second_down = down,
    }
    new
}

fn paired(device: DeviceNo, sides: &Sides, first: DeviceNo) -> Sides
    ensures { result ≡ paired device sides.now first }
{
    let mut new = *sides;
    if first.get() == device.get() {
        new.second = true;
        new.second_down = false;
        new.held = false;
    } else {
        new.lent = Some(first);
    }
    new
}

fn unpaired(device: DeviceNo, sides: &Sides, first: DeviceNo) -> Sides
    ensures { result ≡ unpaired device sides.now first }
{
    let mut new = *sides;
    if first.get() == device.get() {
        new.second = false;
        new.second_down = false;
        new.held = false;
    } else {
        new.lent = None;
    }
    new
}

fn held(sides: &Sides, held: bool) -> Sides
    ensures { result ≡ record sides.now { held = held } }
{
    let mut new = *sides;
    new.held = held;
    new
}

/// The sides after an order that was done and touches them.
fn after_order(device: DeviceNo, sides: &Sides, order: &Order) -> Sides
    ensures { result ≡ after_order device sides.now order.now }
{
    match order {
        Order::Pair(first, _) => paired(device, sides, *first),
        Order::Unpair(first) => unpaired(device, sides, *first),
        Order::Suspend(_) => held(sides, true),
        Order::Resume(_) => held(sides, false),
        Order::FailVolume(_, side) => side_down(sides, *side, true),
        Order::Replace(_, side) => side_down(sides, *side, false),
        _ => *sides,
    }
}

/// Whether an order touches the sides of a device.
fn touches(device: DeviceNo, sides: &Sides, order: &Order) -> bool
    ensures { result ≡ touches device sides.now order.now }
{
    if is_at(device, order_device(order)) {
        return true;
    }
    match order {
        Order::Pair(_, second) => second.get() == device.get(),
        Order::Unpair(first) => is_at(*first, sides.lent),
        _ => false,
    }
}

fn changed_by(device: DeviceNo, sides: &Sides, order: &Order) -> Option<Sides>
    ensures { result ≡ changed_by device sides.now order.now }
{
    if touches(device, sides, order) {
        Some(after_order(device, sides, order))
    } else {
        None
    }
}

fn changed_if_done(lane: &PairLane, order: &Order, answer: &OrderAnswer) -> Option<Sides>
    ensures { result ≡ changed_if_done lane.now order.now answer.now }
{
    match answer {
        OrderAnswer::Done => changed_by(lane.device, &lane.sides, order),
        _ => None,
    }
}

fn changed_in(lane: &PairLane, line: &ReportLine) -> Option<Sides>
    ensures { result ≡ changed_in lane.now line.now }
{
    match line {
        ReportLine::Order(order, answer) => changed_if_done(lane, order, answer),
        _ => None,
    }
}

/// The sides after a line, where it tells an order that is done and touches them.
fn changed(lane: &PairLane, shown: &ShownLine) -> Option<Sides>
    ensures { result ≡ changed lane.now shown.now }
{
    match &shown.line {
        Some(line) => changed_in(lane, line),
        None => None,
    }
}

fn first_name(sides: &Sides) -> &'static [u8]
    ensures { result.now ≡ first_name sides.now }
{
    match sides.lent {
        Some(_) => b"lent",
        None => { if sides.first_down { b"A down" } else { b"A up" } }
    }
}

fn second_name(sides: &Sides) -> &'static [u8]
    ensures { result.now ≡ second_name sides.now }
{
    if !sides.second {
        b""
    } else if sides.second_down {
        b", B down"
    } else {
        b", B up"
    }
}

fn held_name(sides: &Sides) -> &'static [u8]
    ensures { result.now ≡ held_name sides.now }
{
    if sides.held { b", B held" } else { b"" }
}

#[tactic(auto, unfolding(crate::specs::Sides::span_by))]
fn put_span_by<'a>(
    page: &mut Page,
    from: u64,
    width: u64,
    first: &'a [u8],
    second: &'a [u8],
    held: &'a [u8],
) -> Result<(), NoMemory>
    ensures { OnOk result (page.new ≡ page.old ++ span_by from width first.now second.now held.now) }
{
    let pieces = [
        Piece::Text(b"<svg x='"),
        Piece::Number(from),
        Piece::Text(b"' y='46' width='"),
        Piece::Number(width),
        Piece::Text(
            b"' height='18'><rect class='side' width='100%' height='100%'/><text x='2' y='13'>",
        ),
        Piece::Text(first),
        Piece::Text(second),
        Piece::Text(held),
        Piece::Text(b"</text></svg>\n"),
    ];
    page.put(&pieces)
}

/// What the sides were up to some place.
pub(crate) fn put_span(page: &mut Page, lane: &PairLane, to: u64) -> Result<(), NoMemory>
    ensures { OnOk result (page.new ≡ page.old ++ span_text lane.now to) }
{
    let width = to.saturating_sub(lane.from);
    let first = first_name(&lane.sides);
    let second = second_name(&lane.sides);
    put_span_by(
        page,
        lane.from,
        width,
        first,
        second,
        held_name(&lane.sides),
    )
}

fn put_pair(page: &mut Page, lane: &PairLane, i: u64, shown: &ShownLine) -> Result<(), NoMemory>
    ensures { OnOk result (page.new ≡ page.old ++ pair_text lane.now i shown.now) }
{
    match changed(lane, shown) {
        Some(_) => put_span(page, lane, x_of(lane.more, i)),
        None => page.put(&[]),
    }
}

fn pair_next(lane: &PairLane, i: u64, shown: &ShownLine) -> PairLane
    ensures { result ≡ pair_next lane.now i shown.now }
{
    match changed(lane, shown) {
        Some(sides) => PairLane {
            device: lane.device,
            more: lane.more,
            sides,
            from: x_of(lane.more, i),
        },
        None => *lane,
    }
}

impl Drawing<ShownLine> for PairLane {
    ghost text = { pair_text };

    ghost next = { pair_next };

    fn put(&mut self, page: &mut Page, i: u64, it: &ShownLine) -> Result<(), NoMemory> {
        put_pair(page, self, i, it)?;
        *self = pair_next(self, i, it);
        Ok(())
    }
}
