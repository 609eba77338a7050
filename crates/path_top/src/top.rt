ghost use Rattle.std.specs.Prelude.{◌≡◌, ◌≢◌, ◌⊎◌, Ok, Some, false, true, map, List, ℕ};
ghost use Rattle.ckd_outside.specs.Causes.{Rose};
ghost use Rattle.deck_text.specs.DeckLines.{DeckLines};
ghost use Rattle.deck_text.specs.Parse.{parsed};
ghost use Rattle.deck_text.specs.Texts.{limit_text, refused_text};
ghost use Rattle.path_top.specs.Answers.{Tells, TellsUsage, is_paths};
ghost use Rattle.path_top.specs.Facts.{WritesFront, WritesHistory};
ghost use Rattle.deck_top.specs.Answers.{WriteFaultHasCause};
ghost use Rattle.deck_top.specs.Facts.{IsRefused, OfDeck};

use crate::serve::paths_top_on;
use ckd_outside::{Sink, Source};
use deck_text::{DeckFault, DeckWhy, Which};
use deck_top::Status;
use device_outside::{Gate, MemBay};
use std::alloc::Global;
use std::sync::Wait;
use std::thread::Threads;

/// What the words ask for, over empty volumes.
fn over_new_bay<R: Threads + Wait + Sync, S: Source, K: Sink, G: Gate + Sync>(
    rt: &R,
    alloc: Global,
    words: &[&str],
    source: &mut S,
    sink: &mut K,
    gate: &G,
) -> Status
    ensures told { Tells result (is_paths (map (λ w. w.now) words.now)) (S.left source.old) (S.left source.new) (K.held sink.old) (K.held sink.new) }
    ensures read { result ≡ Status.ReadFault → Rose (S.faults source.old) (S.faults source.new) }
    ensures calm { result ≢ Status.ReadFault → S.faults source.new ≡ S.faults source.old }
    ensures write { WriteFaultHasCause result (K.faults sink.old) (K.faults sink.new) }
{
    let mut bay = MemBay::new(alloc);
    paths_top_on(rt, alloc, words, source, sink, &mut bay, gate)
}

/// Reads a deck, runs the programs of its paths beside each other over volumes in memory, and writes the history of its devices: of each its journal in
/// the order that came about, the programs that weren't started, and its lost tracks. The PAIR lines that stand before the first START line come first. The
/// FAIL, REPAIR, REPLACE, SUSPEND and RESUME lines are done beside the paths, once each and in their order, unless they are refused then. Other event lines
/// are not used, and counted. The gate is called round each event of a path. Its promise holds if it returns: it waits for its threads.
/// Other words than the one word `paths` are answered with the usage. A read fault is answered exactly where a read failed.
pub fn paths_top<R: Threads + Wait + Sync, S: Source, K: Sink, G: Gate + Sync>(
    rt: &R,
    alloc: Global,
    words: &[&str],
    source: &mut S,
    sink: &mut K,
    gate: &G,
) -> Status
    // The source was read to its end, its text parses as a deck, and the sink grew by a history of that deck.
    ensures reported { result ≡ Status.Reported → is_paths (map (λ w. w.now) words.now) ≡ true
        → OfDeck (S.left source.old) (S.left source.new) (WritesHistory (K.held sink.old) (K.held sink.new)) }

    // A deck that isn't taken, and other words.
    ensures refused { (line : ℕ) (why : DeckWhy) → result ≡ Status.DeckRefused line why → IsRefused (DeckFault.Refused line why)
        (refused_text line why) (S.left source.old) (S.left source.new) (K.held sink.old) (K.held sink.new) }
    ensures limit { (which : Which) → result ≡ Status.Limit which → IsRefused (DeckFault.Limit which)
        (limit_text which) (S.left source.old) (S.left source.new) (K.held sink.old) (K.held sink.new) }
    ensures usage { is_paths (map (λ w. w.now) words.now) ≡ false
        → TellsUsage result (S.left source.old) (S.left source.new) (K.held sink.old) (K.held sink.new) }

    // All of it at once, with which answers there are to which words and texts.
    ensures told { Tells result (is_paths (map (λ w. w.now) words.now)) (S.left source.old) (S.left source.new) (K.held sink.old) (K.held sink.new) }

    // Faults of the outside, and want of memory: nothing is written, or a front of what was to be.
    ensures faults { result ≡ Status.ReadFault → K.held sink.new ≡ K.held sink.old }
    ensures front { result ≡ Status.WriteFault → is_paths (map (λ w. w.now) words.now) ≡ true
        → WritesFront (S.left source.old) (S.left source.new) (K.held sink.old) (K.held sink.new) }
    ensures memory { result ≡ Status.NoMemory → K.held sink.new ≡ K.held sink.old }
    ensures read { result ≡ Status.ReadFault → Rose (S.faults source.old) (S.faults source.new) }
    ensures calm { result ≢ Status.ReadFault → S.faults source.new ≡ S.faults source.old }
    ensures write { WriteFaultHasCause result (K.faults sink.old) (K.faults sink.new) }

    // Every deck is run, if the call returns, unless memory runs out or the outside fails.
    ensures complete { (text : List ℕ) (d : DeckLines) → S.left source.old ≡ Some text → is_paths (map (λ w. w.now) words.now) ≡ true
        → parsed text ≡ Ok d → ¬ Rose (S.faults source.old) (S.faults source.new) → ¬ Rose (K.faults sink.old) (K.faults sink.new)
        → (result ≡ Status.Reported) ⊎ (result ≡ Status.NoMemory) }
{
    over_new_bay(rt, alloc, words, source, sink, gate)
}
