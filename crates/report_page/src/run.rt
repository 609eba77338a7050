ghost use Rattle.std.specs.Prelude.{◌≡◌, ◌++◌, ◌∷◌, [], IfOk, Some};
ghost use Rattle.deck_run.specs.Opening.{WasRead};
ghost use Rattle.report_text.specs.declared.line.ReportLine.TheVariants as last;
ghost use Rattle.run_report.specs.Report.{report_lines, report_of};
ghost use Rattle.subsystem_defs.specs.Decks.{run_of};

use ckd_outside::{Failed, Sink};
use ckd_types::NoMemory;
use deck_run::run_deck;
use deck_text::Deck;
use device_outside::MemBay;
use report_text::{RunRecord, write_report};
use std::alloc::Global;

/// A sink that grows as it takes, and fails where memory is wanting.
#[derive(Drop)]
struct Taken {
    bytes: Vec<u8>,
    faults: u64,
}

impl Sink for Taken {
    ghost held = { λ s. Some s.bytes.items };

    ghost faults = { λ s. s.faults };

    fn write(&mut self, piece: &[u8]) -> Result<usize, Failed> {
        match self.bytes.extend_from_slice(piece) {
            Ok(()) => Ok(piece.len()),
            Err(_) => {
                self.faults = self.faults.saturating_add(1);
                Err(Failed)
            }
        }
    }
}

/// The lines of the report of the run of a deck, but for the last one.
fn run_lines(alloc: Global, deck: &Deck) -> Result<RunRecord, NoMemory>
    requires { WasRead deck.now }
    ensures { IfOk result (λ lines. lines ++ last.Finish ∷ [] ≡ report_lines (run_of deck.now)) }
{
    let mut bay = MemBay::new(alloc);
    let ran = run_deck(alloc, deck, &mut bay)?;
    Ok(ran.report)
}

/// The report of the run of a deck.
pub(crate) fn own_report(alloc: Global, deck: &Deck) -> Result<Vec<u8>, NoMemory>
    requires { WasRead deck.now }
    ensures { IfOk result (λ report. report.items ≡ report_of deck.now) }
{
    let lines = run_lines(alloc, deck)?;
    let bytes = Vec::new(alloc);
    let mut sink = Taken { bytes, faults: 0 };
    match write_report(&mut sink, &lines, &[], &[]) {
        Ok(()) => Ok(sink.bytes),
        Err(_) => Err(NoMemory),
    }
}
