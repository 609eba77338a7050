ghost use Rattle.std.specs.Prelude.{◌≡◌, ◌++◌, IfOk, OnOk};
ghost use Rattle.std.specs.List.{flat_map};
ghost use Rattle.page_text.specs.Whole.{
  deck_head,
  deck_section,
  grid_text,
  grids_head,
  grids_section,
  page_back,
  page_front,
  page_of,
  page_text,
  programs_head,
  programs_section,
  report_head,
  report_section,
  section_end,
  table_end,
};

use crate::deck_rows::{DeckRows, put_programs};
use crate::drawing::draw_all;
use crate::fixed::{put_head, put_key, put_shapes, put_tail};
use crate::grid::{GridCells, put_grid_end, put_grid_head};
use crate::lines::{ShownLine, lines_in, shown_all};
use crate::report_rows::ReportRows;
use crate::timeline::put_timeline;
use crate::{Page, Piece};
use ckd_types::{Bytes, NoMemory};
use deck_text::{Deck, DeviceLine};
use std::alloc::Global;

/// The head of the deck's table.
#[tactic(auto, unfolding(crate::specs::Whole::deck_head))]
fn put_deck_head(page: &mut Page) -> Result<(), NoMemory>
    ensures { OnOk result (page.new ≡ page.old ++ deck_head) }
{
    let pieces = [
        Piece::Text(
            b"<div class='beside'>\n<section id='deck'><h2>Deck</h2>\n<table><thead><tr><th>Line</th>",
        ),
        Piece::Text(b"<th>Text</th></tr></thead><tbody>\n"),
    ];
    page.put(&pieces)
}

/// The head of the report's table.
#[tactic(auto, unfolding(crate::specs::Whole::report_head))]
fn put_report_head(page: &mut Page) -> Result<(), NoMemory>
    ensures { OnOk result (page.new ≡ page.old ++ report_head) }
{
    let pieces = [
        Piece::Text(
            b"<section id='report'><h2>Report</h2>\n<table><thead><tr><th>Line</th><th>Text</th>",
        ),
        Piece::Text(b"<th>In words</th></tr></thead><tbody>\n"),
    ];
    page.put(&pieces)
}

/// The head of the table of programs, after the two tables.
#[tactic(auto, unfolding(crate::specs::Whole::programs_head))]
fn put_programs_head(page: &mut Page) -> Result<(), NoMemory>
    ensures { OnOk result (page.new ≡ page.old ++ programs_head) }
{
    let pieces = [
        Piece::Text(
            b"</div>\n<section id='programs'><h2>Programs</h2>\n<table><thead><tr><th>Word</th><th>Code</th><th>Command</th>",
        ),
        Piece::Text(
            b"<th>Flags</th><th>Count</th><th>Parameters</th><th>Bytes</th></tr></thead><tbody>\n",
        ),
    ];
    page.put(&pieces)
}

/// The end of a table.
#[tactic(auto, unfolding(crate::specs::Whole::table_end))]
fn put_table_end(page: &mut Page) -> Result<(), NoMemory>
    ensures { OnOk result (page.new ≡ page.old ++ table_end) }
{
    let pieces = [Piece::Text(b"</tbody></table></section>\n")];
    page.put(&pieces)
}

/// The head of the tracks.
#[tactic(auto, unfolding(crate::specs::Whole::grids_head))]
fn put_grids_head(page: &mut Page) -> Result<(), NoMemory>
    ensures { OnOk result (page.new ≡ page.old ++ grids_head) }
{
    let pieces = [Piece::Text(b"<section id='tracks'><h2>Tracks at the end</h2>\n")];
    page.put(&pieces)
}

/// The end of a part.
#[tactic(auto, unfolding(crate::specs::Whole::section_end))]
fn put_section_end(page: &mut Page) -> Result<(), NoMemory>
    ensures { OnOk result (page.new ≡ page.old ++ section_end) }
{
    let pieces = [Piece::Text(b"</section>\n")];
    page.put(&pieces)
}

/// The deck's text, line by line.
fn put_deck(page: &mut Page, lines: &[Bytes]) -> Result<(), NoMemory>
    ensures { OnOk result (page.new ≡ page.old ++ deck_section lines.now) }
{
    put_deck_head(page)?;
    draw_all::<DeckRows, Bytes>(page, &mut DeckRows, lines)?;
    put_table_end(page)?;
    Ok(())
}

/// The report, line by line, with what each line says.
fn put_report(page: &mut Page, shown: &[ShownLine]) -> Result<(), NoMemory>
    ensures { OnOk result (page.new ≡ page.old ++ report_section shown.now) }
{
    put_report_head(page)?;
    draw_all::<ReportRows, ShownLine>(page, &mut ReportRows, shown)?;
    put_table_end(page)?;
    Ok(())
}

/// The words of all programs, decoded.
fn put_decoded(page: &mut Page, deck: &Deck) -> Result<(), NoMemory>
    ensures { OnOk result (page.new ≡ page.old ++ programs_section deck.now) }
{
    put_programs_head(page)?;
    put_programs(page, deck)?;
    put_table_end(page)?;
    Ok(())
}

/// The tracks of a device.
fn put_grid(page: &mut Page, line: &DeviceLine, shown: &[ShownLine]) -> Result<(), NoMemory>
    ensures { OnOk result (page.new ≡ page.old ++ grid_text shown.now line.now) }
{
    put_grid_head(page, line)?;
    let mut cells = GridCells {
        device: line.number,
    };
    draw_all::<GridCells, ShownLine>(page, &mut cells, shown)?;
    put_grid_end(page)?;
    Ok(())
}

fn put_all_grids(page: &mut Page, deck: &Deck, shown: &[ShownLine]) -> Result<(), NoMemory>
    ensures { OnOk result (page.new ≡ page.old ++ flat_map (grid_text shown.now) deck.now.devices) }
{
    for i in 0..deck.device_count() {
        put_grid(page, &deck.device_at(i), shown)?;
    }
    Ok(())
}

/// The tracks of all devices at the end.
fn put_grids(page: &mut Page, deck: &Deck, shown: &[ShownLine]) -> Result<(), NoMemory>
    ensures { OnOk result (page.new ≡ page.old ++ grids_section deck.now.devices shown.now) }
{
    put_grids_head(page)?;
    put_all_grids(page, deck, shown)?;
    put_section_end(page)?;
    Ok(())
}

fn put_first(
    page: &mut Page,
    deck: &Deck,
    lines: &[Bytes],
    shown: &[ShownLine],
) -> Result<(), NoMemory>
    ensures { OnOk result (page.new ≡ page.old ++ page_front lines.now deck.now shown.now) }
{
    put_head(page)?;
    put_shapes(page)?;
    put_timeline(page, deck, shown)?;
    put_deck(page, lines)?;
    put_report(page, shown)?;
    Ok(())
}

fn put_second(page: &mut Page, deck: &Deck, shown: &[ShownLine]) -> Result<(), NoMemory>
    ensures { OnOk result (page.new ≡ page.old ++ page_back deck.now shown.now) }
{
    put_decoded(page, deck)?;
    put_grids(page, deck, shown)?;
    put_key(page)?;
    put_tail(page)?;
    Ok(())
}

fn page_by(
    alloc: Global,
    deck: &Deck,
    lines: &[Bytes],
    shown: &[ShownLine],
) -> Result<Page, NoMemory>
    ensures { IfOk result (λ page. page ≡ page_text lines.now deck.now shown.now) }
{
    let mut page = Page::new(alloc);
    put_first(&mut page, deck, lines, shown)?;
    put_second(&mut page, deck, shown)?;
    Ok(page)
}

/// The page of a deck's text, of the deck that it is, and of a report or history.
pub fn page_of(alloc: Global, text: &[u8], deck: &Deck, report: &[u8]) -> Result<Page, NoMemory>
    ensures { IfOk result (λ page. page ≡ page_of text.now deck.now report.now) }
{
    let lines = lines_in(alloc, text)?;
    let told = lines_in(alloc, report)?;
    let shown = shown_all(alloc, deck, &told)?;
    let page = page_by(alloc, deck, &lines, &shown)?;
    Ok(page)
}
