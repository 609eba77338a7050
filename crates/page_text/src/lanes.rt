ghost use Rattle.std.specs.Prelude.{◌≡◌, ◌++◌, OnOk};
ghost use Rattle.page_text.specs.Lanes.{
  bar_in,
  bar_of,
  bar_text,
  is_at,
  is_here,
  is_line_here,
  lane_bar,
  lane_mark,
  lane_next,
  lane_text,
  path_if,
  path_in,
  path_of,
  since_after,
  since_of,
  since_with,
};

use crate::drawing::Drawing;
use crate::lines::{ShownLine, order_device};
use crate::marks::{mark_of, path_y, put_mark, x_of};
use crate::{Page, Piece};
use ckd_types::{DeviceNo, NoMemory, PathNo};
use report_text::{ReportLine, StartAnswer};

/// Up to where the bar of each path's program is drawn.
#[derive(Clone, Copy)]
pub(crate) struct Since {
    pub(crate) first: u64,
    pub(crate) second: u64,
    pub(crate) third: u64,
    pub(crate) fourth: u64,
}

/// The rows of a device: how many lines a column has and one more, and how far the bars are.
#[derive(Clone, Copy)]
pub(crate) struct DeviceLane {
    pub(crate) device: DeviceNo,
    pub(crate) more: u32,
    pub(crate) since: Since,
}

fn since_of(since: &Since, path: PathNo) -> u64
    ensures { result ≡ since_of since.now path }
{
    let n = path.get();
    if n == 1 {
        since.first
    } else if n == 2 {
        since.second
    } else if n == 3 {
        since.third
    } else {
        since.fourth
    }
}

fn since_with(since: &Since, path: PathNo, x: u64) -> Since
    ensures { result ≡ since_with since.now path x }
{
    let n = path.get();
    let mut new = *since;
    if n == 1 {
        new.first = x;
    } else if n == 2 {
        new.second = x;
    } else if n == 3 {
        new.third = x;
    } else {
        new.fourth = x;
    }
    new
}

/// Whether a device is this one.
pub(crate) fn is_at(device: DeviceNo, other: Option<DeviceNo>) -> bool
    ensures { result ≡ is_at device other }
{
    match other {
        Some(other) => other.get() == device.get(),
        None => false,
    }
}

fn is_line_here(device: DeviceNo, line: &ReportLine, of: Option<DeviceNo>) -> bool
    ensures { result ≡ is_line_here device line.now of }
{
    match line {
        ReportLine::Order(order, _) => is_at(device, order_device(order)),
        _ => is_at(device, of),
    }
}

/// Whether a line is drawn in the rows of a device: an order at the one that it names first.
fn is_here(device: DeviceNo, shown: &ShownLine) -> bool
    ensures { result ≡ is_here device shown.now }
{
    match &shown.line {
        Some(line) => is_line_here(device, line, shown.device),
        None => false,
    }
}

/// The path whose program runs up to this line.
fn bar_in(line: &ReportLine) -> Option<PathNo>
    ensures { result ≡ bar_in line.now }
{
    match line {
        ReportLine::End(end) => Some(end.path),
        ReportLine::Half(path, _, _) => Some(*path),
        ReportLine::Over(path, _, _, _) => Some(*path),
        _ => None,
    }
}

fn path_if(path: PathNo, answer: &StartAnswer) -> Option<PathNo>
    ensures { result ≡ path_if path answer.now }
{
    match answer {
        StartAnswer::Accepted(_) => Some(path),
        _ => None,
    }
}

/// The path whose program runs from this line on.
fn path_in(line: &ReportLine) -> Option<PathNo>
    ensures { result ≡ path_in line.now }
{
    match line {
        ReportLine::Start(path, _, answer) => path_if(*path, answer),
        ReportLine::End(end) => Some(end.path),
        ReportLine::Half(path, _, _) => Some(*path),
        ReportLine::Over(path, _, _, _) => Some(*path),
        _ => None,
    }
}

fn bar_of(shown: &ShownLine) -> Option<PathNo>
    ensures { result ≡ bar_of shown.now }
{
    match &shown.line {
        Some(line) => bar_in(line),
        None => None,
    }
}

fn path_of(shown: &ShownLine) -> Option<PathNo>
    ensures { result ≡ path_of shown.now }
{
    match &shown.line {
        Some(line) => path_in(line),
        None => None,
    }
}

#[tactic(auto, unfolding(crate::specs::Lanes::bar_text))]
fn put_bar(page: &mut Page, from: u64, to: u64, y: u64) -> Result<(), NoMemory>
    ensures { OnOk result (page.new ≡ page.old ++ bar_text from to y) }
{
    let pieces = [
        Piece::Text(b"<rect class='bar' x='"),
        Piece::Number(from),
        Piece::Text(b"' y='"),
        Piece::Number(y.saturating_sub(3)),
        Piece::Text(b"' width='"),
        Piece::Number(to.saturating_sub(from)),
        Piece::Text(b"' height='6'/>\n"),
    ];
    page.put(&pieces)
}

/// The bar of a path's program, up to a line.
fn put_lane_bar(
    page: &mut Page,
    lane: &DeviceLane,
    i: u64,
    shown: &ShownLine,
) -> Result<(), NoMemory>
    ensures { OnOk result (page.new ≡ page.old ++ lane_bar lane.now i shown.now) }
{
    match bar_of(shown) {
        Some(path) => put_bar(
            page,
            since_of(&lane.since, path),
            x_of(lane.more, i),
            path_y(path),
        ),
        None => page.put(&[]),
    }
}

fn put_lane_mark(page: &mut Page, more: u32, i: u64, shown: &ShownLine) -> Result<(), NoMemory>
    ensures { OnOk result (page.new ≡ page.old ++ lane_mark more i shown.now) }
{
    match mark_of(shown) {
        Some(mark) => put_mark(page, more, i, mark, shown.text.as_slice()),
        None => page.put(&[]),
    }
}

/// What a line adds to the rows of a device.
fn put_lane(page: &mut Page, lane: &DeviceLane, i: u64, shown: &ShownLine) -> Result<(), NoMemory>
    ensures { OnOk result (page.new ≡ page.old ++ lane_text lane.now i shown.now) }
{
    if !is_here(lane.device, shown) {
        page.put(&[])?;
        return Ok(());
    }
    put_lane_bar(page, lane, i, shown)?;
    put_lane_mark(page, lane.more, i, shown)?;
    Ok(())
}

fn since_after(lane: &DeviceLane, i: u64, shown: &ShownLine) -> Since
    ensures { result ≡ since_after lane.now i shown.now }
{
    match path_of(shown) {
        Some(path) => since_with(&lane.since, path, x_of(lane.more, i)),
        None => lane.since,
    }
}

fn lane_next(lane: &DeviceLane, i: u64, shown: &ShownLine) -> DeviceLane
    ensures { result ≡ lane_next lane.now i shown.now }
{
    if !is_here(lane.device, shown) {
        return *lane;
    }
    DeviceLane {
        device: lane.device,
        more: lane.more,
        since: since_after(lane, i, shown),
    }
}

impl Drawing<ShownLine> for DeviceLane {
    ghost text = { lane_text };

    ghost next = { lane_next };

    fn put(&mut self, page: &mut Page, i: u64, it: &ShownLine) -> Result<(), NoMemory> {
        put_lane(page, self, i, it)?;
        *self = lane_next(self, i, it);
        Ok(())
    }
}
