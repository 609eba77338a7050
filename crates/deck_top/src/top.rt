ghost use Rattle.std.specs.Prelude.{◌≡◌, ◌≢◌, ◌⊎◌, IfSome, Ok, Some, None, [], false, map, List, ℕ};
ghost use Rattle.std.specs.Io.KnownBytes.{Appends};
ghost use Rattle.ckd_outside.specs.Causes.{Rose, HasCause};
ghost use Rattle.ckd_outside.specs.Texts.{Writes};
ghost use Rattle.deck_text.specs.DeckLines.{DeckLines};
ghost use Rattle.deck_text.specs.Parse.{parsed};
ghost use Rattle.deck_text.specs.Canonical.{canonical};
ghost use Rattle.deck_text.specs.Texts.{limit_text, refused_text};
ghost use Rattle.run_report.specs.Report.{report_of};
ghost use Rattle.deck_top.specs.Answers.{code_of, is_run, task_of, usage_text, RunsAsPromised, WriteFaultHasCause};
ghost use Rattle.deck_top.specs.Answers.{TellsUsage, Tells};
ghost use Rattle.deck_top.specs.Facts.{IsRead, IsRefused, OfDeck, ReportsPlainly, SumsUp, WritesFront};
ghost use Rattle.deck_top.specs.Handed.{TakesBack};

use crate::serve::deck_top_on;
use crate::task::Task;
use ckd_outside::{Failed, Piece, Sink, Source};
use deck_text::{DeckFault, DeckWhy, Which, write_line};
use device_outside::MemBay;
use std::alloc::Global;

/// How the program ends.
#[derive(Clone, Copy, Debug, PartialEq, Eq)]
pub enum Status {
    /// The report, the canonical deck, or the summary was written.
    Reported,
    /// The first line that is refused, from 1 on, and its first reason, were written.
    DeckRefused { line: u32, why: DeckWhy },
    /// A read failed, and nothing was written.
    ReadFault,
    /// A write failed: a front of what was to be written was taken.
    WriteFault,
    /// The deck passes this limit, which was written.
    Limit(Which),
    /// Memory is wanting, and nothing was written.
    NoMemory,
    /// The words name no task, and the usage was written.
    Usage,
}

/// One byte more than a deck may have.
pub const MOST_READ: usize = 16_777_217;

/// The exit status of the program.
pub fn code_of(status: Status) -> u8
    ensures { result ≡ code_of status }
{
    match status {
        Status::Reported => 0,
        Status::DeckRefused { .. } => 1,
        Status::ReadFault => 2,
        Status::WriteFault => 3,
        Status::Limit(_) => 4,
        Status::NoMemory => 5,
        Status::Usage => 6,
    }
}

/// The words of the arguments: none where one of them isn't text, which no task's name is.
pub fn words_of<'a>(arguments: Option<&'a [&'a str]>) -> &'a [&'a str]
    ensures text { IfSome arguments.entry (λ words. result.now ≡ words.now) }
    ensures none { arguments.entry ≡ None → result.now ≡ [] }
{
    match arguments {
        Some(words) => words,
        None => &[],
    }
}

/// Writes which words there are.
#[tactic(auto, unfolding(crate::specs::Answers::usage_text))]
pub(crate) fn write_usage<K: Sink>(sink: &mut K) -> Result<(), Failed>
    ensures bytes { Writes (K.held sink.old) (K.held sink.new) result usage_text }
    ensures cause { HasCause (K.faults sink.old) (K.faults sink.new) result }
{
    let pieces = [Piece::Text(b"usage: run, check, generate SEED COUNT\n")];
    write_line(sink, &pieces)
}

/// Does what the words ask for, over a source, a sink and a bay. `run` reads a deck, runs it over volumes that the bay makes, writes the
/// report of its run and then gives the bay the volumes that stand in the devices, by rising number, side A before side B; `check`
/// reads a deck and writes its canonical text; `generate SEED COUNT` reads nothing, runs the deck of that seed and so many programs
/// in the same way, and writes the summary of its run. A read fault is answered exactly where a read failed. Where memory is lacking, or a
/// write failed, the bay may have made volumes that don't come back.
///
/// Whatever the deck and the order of its events, the report of `run` shows for each program what a plain uncached volume gives when the
/// programs run one after another. Only where something failed may a command end with equipment check instead, and each of these is
/// explained. While each failure is repaired before the next one comes, no acknowledged write is missed.
pub fn deck_top<S: Source, K: Sink>(
    alloc: Global,
    words: &[&str],
    source: &mut S,
    sink: &mut K,
    bay: &mut MemBay,
) -> Status
    // `run`: the report is that of the run; it shows of each device of the deck the programs of a plain device; what is promised of the
    // run; and where its volumes are then.
    ensures reported { result ≡ Status.Reported → task_of (map (λ w. w.now) words.now) ≡ Some Task.Run → bay.old.spoiled ≡ []
        → OfDeck (S.left source.old) (S.left source.new) (λ d. Appends (K.held sink.old) (K.held sink.new) (report_of d)) }
    ensures plain { result ≡ Status.Reported → task_of (map (λ w. w.now) words.now) ≡ Some Task.Run → bay.old.spoiled ≡ []
        → OfDeck (S.left source.old) (S.left source.new) (ReportsPlainly (K.held sink.old) (K.held sink.new)) }
    ensures promised { result ≡ Status.Reported → task_of (map (λ w. w.now) words.now) ≡ Some Task.Run
        → OfDeck (S.left source.old) (S.left source.new) RunsAsPromised }
    ensures volumes { result ≡ Status.Reported → task_of (map (λ w. w.now) words.now) ≡ Some Task.Run
        → OfDeck (S.left source.old) (S.left source.new) (λ d. TakesBack d bay.old bay.new) }

    // `check` and `generate`.
    ensures checked { result ≡ Status.Reported → task_of (map (λ w. w.now) words.now) ≡ Some Task.Check
        → OfDeck (S.left source.old) (S.left source.new) (λ d. Appends (K.held sink.old) (K.held sink.new) (canonical d)) }
    ensures summed { (seed count : ℕ) → result ≡ Status.Reported → task_of (map (λ w. w.now) words.now) ≡ Some (Task.Generate seed count)
        → SumsUp seed count bay.old bay.new (S.left source.old) (S.left source.new) (K.held sink.old) (K.held sink.new) }

    // A deck that isn't taken, and words that name no task.
    ensures refused { (line : ℕ) (why : DeckWhy) → result ≡ Status.DeckRefused line why → IsRefused (DeckFault.Refused line why)
        (refused_text line why) (S.left source.old) (S.left source.new) (K.held sink.old) (K.held sink.new) }
    ensures limit { (which : Which) → result ≡ Status.Limit which → IsRefused (DeckFault.Limit which)
        (limit_text which) (S.left source.old) (S.left source.new) (K.held sink.old) (K.held sink.new) }
    ensures usage { task_of (map (λ w. w.now) words.now) ≡ None
        → TellsUsage result (S.left source.old) (S.left source.new) (K.held sink.old) (K.held sink.new) }

    // All of it at once, with which answers there are to which words and texts, and the same deck in each.
    ensures told { Tells result (task_of (map (λ w. w.now) words.now)) bay.old bay.new
        (S.left source.old) (S.left source.new) (K.held sink.old) (K.held sink.new) }

    // Faults of the outside, and want of memory: nothing is written, or a front of what was to be.
    ensures faults { result ≡ Status.ReadFault → K.held sink.new ≡ K.held sink.old }
    ensures front { (task : Task) → IsRead task → result ≡ Status.WriteFault → task_of (map (λ w. w.now) words.now) ≡ Some task
        → WritesFront task bay.old (S.left source.old) (S.left source.new) (K.held sink.old) (K.held sink.new) }
    ensures memory { result ≡ Status.NoMemory → K.held sink.new ≡ K.held sink.old }
    ensures read { result ≡ Status.ReadFault → Rose (S.faults source.old) (S.faults source.new) }
    ensures calm { result ≢ Status.ReadFault → S.faults source.new ≡ S.faults source.old }
    ensures write { WriteFaultHasCause result (K.faults sink.old) (K.faults sink.new) }

    // Its spoiled tracks stay, and so do the volumes that it took back, but behind the report of a run.
    ensures spoiled { bay.new.spoiled ≡ bay.old.spoiled }
    ensures kept { result ≢ Status.Reported → bay.new.taken ≡ bay.old.taken }
    ensures check { is_run (task_of (map (λ w. w.now) words.now)) ≡ false → bay.new ≡ bay.old }

    // Every deck is checked, and run, unless memory runs out or the outside fails, and so is every generated deck.
    ensures complete { (text : List ℕ) (task : Task) (d : DeckLines) → S.left source.old ≡ Some text
        → task_of (map (λ w. w.now) words.now) ≡ Some task → parsed text ≡ Ok d
        → ¬ Rose (S.faults source.old) (S.faults source.new) → ¬ Rose (K.faults sink.old) (K.faults sink.new)
        → (result ≡ Status.Reported) ⊎ (result ≡ Status.NoMemory) }
    ensures generated { (seed count : ℕ) → task_of (map (λ w. w.now) words.now) ≡ Some (Task.Generate seed count)
        → ¬ Rose (K.faults sink.old) (K.faults sink.new) → (result ≡ Status.Reported) ⊎ (result ≡ Status.NoMemory) }
{
    deck_top_on(alloc, words, source, sink, bay)
}
