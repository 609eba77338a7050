//! Laws of what the report of a run shows of each device's history.

ghost use Rattle.std.specs.Prelude.{◌≡◌, ℕ, List, Ok};
ghost use Rattle.deck_text.specs.DeckLines.{DeckLines};
ghost use Rattle.deck_text.specs.Parse.{parsed};
ghost use Rattle.run_report.specs.Plainly.{IsPlainReportOn};
ghost use Rattle.report_text.specs.Ends.{lines_text};
ghost use Rattle.run_report.specs.Report.{report_lines};
ghost use Rattle.run_report.specs.Shown.{DeckRunsPlainly, DeckRunsPlainlyOn};
ghost use Rattle.subsystem_defs.specs.Decks.{AreWhole, Firsts, run_on};

/// In the report of the run of every deck that was read the lines of each device's programs are those of its history at the end, and behind
/// every event each history is one that a plain device could have.
pub fn read_run_runs_plainly()
    ensures { (text : List ℕ) (deck : DeckLines) → parsed text ≡ Ok deck → DeckRunsPlainly deck }
{}

/// The same of its run on volumes that hold other tracks first: what is plain then began with these.
pub fn run_on_volumes_runs_plainly()
    ensures { (firsts : Firsts) → AreWhole firsts → (text : List ℕ) (deck : DeckLines) → parsed text ≡ Ok deck → DeckRunsPlainlyOn firsts deck }
{}

/// So the report of such a run shows of each device of the deck the programs of a plain device that began with what its volume held.
pub fn report_on_volumes_is_plain()
    ensures { (firsts : Firsts) → AreWhole firsts → (text : List ℕ) (deck : DeckLines) → parsed text ≡ Ok deck
        → IsPlainReportOn firsts deck (lines_text (report_lines (run_on firsts deck))) }
{}
