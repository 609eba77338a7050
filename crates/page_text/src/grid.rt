ghost use Rattle.std.specs.Prelude.{◌≡◌, ◌++◌, OnOk};
ghost use Rattle.page_text.specs.Grid.{
  cell_at,
  cell_by,
  cell_class,
  cell_in,
  cell_letter,
  cell_of,
  cell_text,
  cell_x,
  cell_y,
  frame_cell,
  grid_cell,
  grid_end,
  grid_head,
  head_by,
  width_of,
};

use crate::drawing::Drawing;
use crate::lines::ShownLine;
use crate::{Page, Piece};
use ckd_types::{DeviceNo, NoMemory, TrackNo};
use deck_text::DeviceLine;
use report_text::ReportLine;

/// How a track is at the end, as far as the report's last lines tell.
#[derive(Clone, Copy)]
pub(crate) enum CellState {
    Clean,
    Modified,
    Lost,
}

/// The cell of a track.
#[derive(Clone, Copy)]
pub(crate) struct Cell {
    pub(crate) track: TrackNo,
    pub(crate) state: CellState,
}

fn cell_class(state: CellState) -> &'static [u8]
    ensures { result.now ≡ cell_class state }
{
    match state {
        CellState::Clean => b"clean",
        CellState::Modified => b"modified",
        CellState::Lost => b"lost",
    }
}

fn cell_letter(state: CellState) -> &'static [u8]
    ensures { result.now ≡ cell_letter state }
{
    match state {
        CellState::Clean => b"C",
        CellState::Modified => b"M",
        CellState::Lost => b"L",
    }
}

fn frame_cell(modified: bool) -> CellState
    ensures { result ≡ frame_cell modified }
{
    if modified {
        CellState::Modified
    } else {
        CellState::Clean
    }
}

fn cell_at(here: bool, track: TrackNo, state: CellState) -> Option<Cell>
    ensures { result ≡ cell_at here track state }
{
    if here {
        Some(Cell { track, state })
    } else {
        None
    }
}

/// The cell of a device that a line tells of.
fn cell_in(device: DeviceNo, line: &ReportLine) -> Option<Cell>
    ensures { result ≡ cell_in device line.now }
{
    match line {
        ReportLine::Lost(of, track) => {
            cell_at(of.get() == device.get(), *track, CellState::Lost)
        }
        ReportLine::Frame(of, track, modified) => cell_at(
            of.get() == device.get(),
            *track,
            frame_cell(*modified),
        ),
        _ => None,
    }
}

fn cell_of(device: DeviceNo, shown: &ShownLine) -> Option<Cell>
    ensures { result ≡ cell_of device shown.now }
{
    match &shown.line {
        Some(line) => cell_in(device, line),
        None => None,
    }
}

/// How far across a track's cell is: by its cylinder.
fn cell_x(track: TrackNo) -> u64
    ensures { result ≡ cell_x track }
{
    u64::from(track.get() / 15) * 16
}

/// How far down it is: by its head.
fn cell_y(track: TrackNo) -> u64
    ensures { result ≡ cell_y track }
{
    u64::from(track.get() % 15) * 16
}

#[tactic(auto, unfolding(crate::specs::Grid::cell_by))]
fn put_cell_by<'a>(
    page: &mut Page,
    i: u64,
    cell: Cell,
    x: u64,
    y: u64,
    class: &'a [u8],
    letter: &'a [u8],
) -> Result<(), NoMemory>
    ensures { OnOk result (page.new ≡ page.old ++ cell_by i cell.track x y class.now letter.now) }
{
    let pieces = [
        Piece::Text(b"<a href='#l"),
        Piece::Number(i),
        Piece::Text(b"'><title>"),
        Piece::Track(cell.track),
        Piece::Text(b"</title><g transform='translate("),
        Piece::Number(x),
        Piece::Text(b" "),
        Piece::Number(y),
        Piece::Text(b")'><rect class='"),
        Piece::Text(class),
        Piece::Text(b"' width='16' height='16'/><text x='8' y='12'>"),
        Piece::Text(letter),
        Piece::Text(b"</text></g></a>\n"),
    ];
    page.put(&pieces)
}

/// A cell, which leads to its line.
fn put_cell(page: &mut Page, i: u64, cell: Cell) -> Result<(), NoMemory>
    ensures { OnOk result (page.new ≡ page.old ++ cell_text i cell) }
{
    let x = cell_x(cell.track);
    let y = cell_y(cell.track);
    let class = cell_class(cell.state);
    put_cell_by(page, i, cell, x, y, class, cell_letter(cell.state))
}

fn put_grid_cell(
    page: &mut Page,
    device: DeviceNo,
    i: u64,
    shown: &ShownLine,
) -> Result<(), NoMemory>
    ensures { OnOk result (page.new ≡ page.old ++ grid_cell device i shown.now) }
{
    match cell_of(device, shown) {
        Some(cell) => put_cell(page, i, cell),
        None => page.put(&[]),
    }
}

/// The cells of a device.
#[derive(Clone, Copy)]
pub(crate) struct GridCells {
    pub(crate) device: DeviceNo,
}

impl Drawing<ShownLine> for GridCells {
    ghost text = { λ s i it. grid_cell s.device i it };

    ghost next = { λ s i it. s };

    fn put(&mut self, page: &mut Page, i: u64, it: &ShownLine) -> Result<(), NoMemory> {
        put_grid_cell(page, self.device, i, it)
    }
}

fn width_of(cylinders: u16) -> u64
    ensures { result ≡ width_of cylinders }
{
    u64::from(cylinders) * 16
}

#[tactic(auto, unfolding(crate::specs::Grid::head_by))]
fn put_head_by(page: &mut Page, device: DeviceNo, width: u64) -> Result<(), NoMemory>
    ensures { OnOk result (page.new ≡ page.old ++ head_by device width) }
{
    let pieces = [
        Piece::Text(b"<h3>Device "),
        Piece::Device(device),
        Piece::Text(b", cylinders across, heads down</h3>\n<svg class='grid' width='"),
        Piece::Number(width),
        Piece::Text(b"' height='240'><rect class='cells' width='100%' height='100%'/>\n"),
    ];
    page.put(&pieces)
}

/// The head of a device's grid, and its empty cells.
pub(crate) fn put_grid_head(page: &mut Page, line: &DeviceLine) -> Result<(), NoMemory>
    ensures { OnOk result (page.new ≡ page.old ++ grid_head line.now) }
{
    put_head_by(page, line.number, width_of(line.cylinders))
}

#[tactic(auto, unfolding(crate::specs::Grid::grid_end))]
pub(crate) fn put_grid_end(page: &mut Page) -> Result<(), NoMemory>
    ensures { OnOk result (page.new ≡ page.old ++ grid_end) }
{
    page.put(&[Piece::Text(b"</svg>\n")])
}
