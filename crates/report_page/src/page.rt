ghost use Rattle.std.specs.Prelude.{◌≡◌, ◌≤◌, ◌+◌, IfSome, length};
ghost use Rattle.report_page.specs.Drawn.{Draws, drawn_from, drawn_of, given_page, own_page, report_place};

use crate::run::own_report;
use deck_text::{DeckFault, Which, read_deck};
use memchr::memmem;
use page_text::{Page, page_of};
use std::alloc::Global;

/// The most bytes that are read.
pub(crate) const MOST: usize = 268_435_456;

/// Where the line feed before the line REPORT stands.
#[tactic(auto, unfolding(crate::specs::Drawn::marker))]
fn report_place(text: &[u8]) -> Option<usize>
    ensures value { result ≡ report_place text.now }
    ensures inside { IfSome result (λ k. k + 8 ≤ length text.now) }
{
    memmem::find(text, b"\nREPORT\n")
}

/// The page of a deck and the report of its run.
fn own_page(alloc: Global, text: &[u8]) -> Result<Page, DeckFault>
    ensures { Draws result (own_page text.now) }
{
    let deck = read_deck(alloc, text)?;
    let report = own_report(alloc, &deck)?;
    Ok(page_of(alloc, text, &deck, &report)?)
}

/// The page of a deck and a report or history that is given.
fn given_page(alloc: Global, text: &[u8], report: &[u8]) -> Result<Page, DeckFault>
    ensures { Draws result (given_page text.now report.now) }
{
    let deck = read_deck(alloc, text)?;
    Ok(page_of(alloc, text, &deck, report)?)
}

fn drawn_from(alloc: Global, text: &[u8]) -> Result<Page, DeckFault>
    ensures { Draws result (drawn_from text.now) }
{
    match report_place(text) {
        Some(k) => {
            let (front, _) = text.split_at(k + 1);
            let (_, back) = text.split_at(k + 8);
            given_page(alloc, front, back)
        }
        None => own_page(alloc, text),
    }
}

/// The page of a text: of a deck, or of a deck, the line REPORT, and a report or history.
pub(crate) fn drawn_of(alloc: Global, text: &[u8]) -> Result<Page, DeckFault>
    ensures { Draws result (drawn_of text.now) }
{
    if text.len() > MOST {
        return Err(DeckFault::Limit(Which::Size));
    }
    drawn_from(alloc, text)
}
