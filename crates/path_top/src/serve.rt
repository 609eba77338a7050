//! What the words ask for, over a bay whose volumes may hold something.

ghost use Rattle.std.specs.Prelude.{◌≡◌, ◌≢◌, ◌⊎◌, ◌≤◌, Ok, Some, false, true, map, List, Option, ℕ};
ghost use Rattle.ckd_outside.specs.Causes.{HasCause, Rose};
ghost use Rattle.ckd_outside.specs.Texts.{Writes};
ghost use Rattle.deck_text.specs.DeckLines.{DeckLines};
ghost use Rattle.deck_text.specs.Parse.{parsed};
ghost use Rattle.deck_text.specs.Texts.{limit_text, refused_text};
ghost use Rattle.deck_run.specs.Opening.{WasRead};
ghost use Rattle.deck_top.specs.Answers.{IsWritten, WriteFaultHasCause};
ghost use Rattle.deck_top.specs.Bays.{HandsOut};
ghost use Rattle.deck_top.specs.Facts.{OfDeck};
ghost use Rattle.subsystem_defs.specs.Decks.{Firsts};
ghost use Rattle.path_top.specs.Answers.{TellsDeckOn, TellsOn, TellsReadOn, TellsUsage, is_paths, usage_text};
ghost use Rattle.path_top.specs.Facts.{WritesHistoryOn};

use crate::history::write_history;
use crate::run::{run_deck, unused_of};
use ckd_outside::{Failed, Piece, ReadError, Sink, Source, read_up_to};
use deck_run::EmptyVolume;
use deck_text::{
    Deck, DeckFault, DeckWhy, Which, read_deck, write_limit, write_line, write_refused,
};
use deck_top::{MOST_READ, Status, VolumeBay};
use device_outside::Gate;
use std::alloc::Global;
use std::sync::Wait;
use std::thread::Threads;

fn refuse<K: Sink>(sink: &mut K, line: u32, why: DeckWhy) -> Status
    ensures told { IsWritten result (Status.DeckRefused line why) (refused_text line why) (K.held sink.old) (K.held sink.new) }
    ensures later { K.faults sink.old ≤ K.faults sink.new }
    ensures write { WriteFaultHasCause result (K.faults sink.old) (K.faults sink.new) }
{
    match write_refused(sink, line, why) {
        Ok(()) => Status::DeckRefused { line, why },
        Err(_) => Status::WriteFault,
    }
}

fn limit<K: Sink>(sink: &mut K, which: Which) -> Status
    ensures told { IsWritten result (Status.Limit which) (limit_text which) (K.held sink.old) (K.held sink.new) }
    ensures later { K.faults sink.old ≤ K.faults sink.new }
    ensures write { WriteFaultHasCause result (K.faults sink.old) (K.faults sink.new) }
{
    match write_limit(sink, which) {
        Ok(()) => Status::Limit(which),
        Err(_) => Status::WriteFault,
    }
}

/// Runs the paths of a deck, and writes the history.
#[tactic(auto, using(crate::proofs::Told::ran_told, crate::proofs::Told::ran_front))]
fn report<
    R: Threads + Wait + Sync,
    V: EmptyVolume + Send,
    K: Sink,
    B: VolumeBay<V>,
    G: Gate + Sync,
>(rt: &R, alloc: Global, deck: &Deck, sink: &mut K, bay: &mut B, gate: &G) -> Status
    requires { WasRead deck.now }
    ensures told { TellsDeckOn (B.view bay.old) result (Ok deck.now) (K.held sink.old) (K.held sink.new) }
    ensures firsts { (B.view bay.new).firsts ≡ (B.view bay.old).firsts }
    ensures spoiled { (B.view bay.new).spoiled ≡ (B.view bay.old).spoiled }
    ensures taken { (B.view bay.new).taken ≡ (B.view bay.old).taken }
    ensures later { K.faults sink.old ≤ K.faults sink.new }
    ensures write { WriteFaultHasCause result (K.faults sink.old) (K.faults sink.new) }
{
    let Ok(devices) = run_deck(rt, alloc, deck, bay, gate) else {
        return Status::NoMemory;
    };
    match write_history(sink, &devices, unused_of(deck)) {
        Ok(()) => Status::Reported,
        Err(_) => Status::WriteFault,
    }
}

#[tactic(auto, using(crate::proofs::Told::refused_told, crate::proofs::Told::limit_told))]
fn answer<
    R: Threads + Wait + Sync,
    V: EmptyVolume + Send,
    K: Sink,
    B: VolumeBay<V>,
    G: Gate + Sync,
>(rt: &R, alloc: Global, text: &[u8], sink: &mut K, bay: &mut B, gate: &G) -> Status
    ensures told { TellsDeckOn (B.view bay.old) result (parsed text.now) (K.held sink.old) (K.held sink.new) }
    ensures firsts { (B.view bay.new).firsts ≡ (B.view bay.old).firsts }
    ensures spoiled { (B.view bay.new).spoiled ≡ (B.view bay.old).spoiled }
    ensures taken { (B.view bay.new).taken ≡ (B.view bay.old).taken }
    ensures later { K.faults sink.old ≤ K.faults sink.new }
    ensures write { WriteFaultHasCause result (K.faults sink.old) (K.faults sink.new) }
{
    match read_deck(alloc, text) {
        Ok(deck) => report(rt, alloc, &deck, sink, bay, gate),
        Err(DeckFault::Refused { line, why }) => refuse(sink, line, why),
        Err(DeckFault::Limit(which)) => limit(sink, which),
        Err(DeckFault::NoMemory) => Status::NoMemory,
    }
}

fn serve<
    R: Threads + Wait + Sync,
    V: EmptyVolume + Send,
    S: Source,
    K: Sink,
    B: VolumeBay<V>,
    G: Gate + Sync,
>(rt: &R, alloc: Global, source: &mut S, sink: &mut K, bay: &mut B, gate: &G) -> Status
    ensures told { TellsReadOn (B.view bay.old) result (S.left source.old) (S.left source.new) (K.held sink.old) (K.held sink.new) }
    ensures read { result ≡ Status.ReadFault → Rose (S.faults source.old) (S.faults source.new) }
    ensures calm { result ≢ Status.ReadFault → S.faults source.new ≡ S.faults source.old }
    ensures write { WriteFaultHasCause result (K.faults sink.old) (K.faults sink.new) }
    ensures firsts { (B.view bay.new).firsts ≡ (B.view bay.old).firsts }
    ensures spoiled { (B.view bay.new).spoiled ≡ (B.view bay.old).spoiled }
    ensures taken { (B.view bay.new).taken ≡ (B.view bay.old).taken }
{
    match read_up_to(alloc, source, MOST_READ) {
        Ok(text) => answer(rt, alloc, &text, sink, bay, gate),
        Err(ReadError::Failed) => Status::ReadFault,
        Err(ReadError::NoMemory) => Status::NoMemory,
    }
}

/// Whether the one word is the name of this task.
#[tactic(auto, unfolding(crate::specs::Answers::is_paths))]
fn is_paths(words: &[&str]) -> bool
    ensures { result ≡ is_paths (map (λ w. w.now) words.now) }
{
    match words {
        [word] => word.as_bytes() == b"paths".as_slice(),
        _ => false,
    }
}

/// Writes which word there is.
#[tactic(auto, unfolding(crate::specs::Answers::usage_text))]
fn write_usage<K: Sink>(sink: &mut K) -> Result<(), Failed>
    ensures bytes { Writes (K.held sink.old) (K.held sink.new) result usage_text }
    ensures cause { HasCause (K.faults sink.old) (K.faults sink.new) result }
{
    let pieces = [Piece::Text(b"usage: paths\n")];
    write_line(sink, &pieces)
}

fn usage<K: Sink>(sink: &mut K) -> Status
    ensures told { (before : Option (List ℕ)) → TellsUsage result before before (K.held sink.old) (K.held sink.new) }
    ensures write { WriteFaultHasCause result (K.faults sink.old) (K.faults sink.new) }
{
    match write_usage(sink) {
        Ok(()) => Status::Usage,
        Err(_) => Status::WriteFault,
    }
}

fn serve_words<
    R: Threads + Wait + Sync,
    V: EmptyVolume + Send,
    S: Source,
    K: Sink,
    B: VolumeBay<V>,
    G: Gate + Sync,
>(
    rt: &R,
    alloc: Global,
    words: &[&str],
    source: &mut S,
    sink: &mut K,
    bay: &mut B,
    gate: &G,
) -> Status
    ensures told { TellsOn (B.view bay.old) result (is_paths (map (λ w. w.now) words.now))
        (S.left source.old) (S.left source.new) (K.held sink.old) (K.held sink.new) }
    ensures read { result ≡ Status.ReadFault → Rose (S.faults source.old) (S.faults source.new) }
    ensures calm { result ≢ Status.ReadFault → S.faults source.new ≡ S.faults source.old }
    ensures write { WriteFaultHasCause result (K.faults sink.old) (K.faults sink.new) }
    ensures firsts { (B.view bay.new).firsts ≡ (B.view bay.old).firsts }
    ensures spoiled { (B.view bay.new).spoiled ≡ (B.view bay.old).spoiled }
    ensures taken { (B.view bay.new).taken ≡ (B.view bay.old).taken }
    ensures other { is_paths (map (λ w. w.now) words.now) ≡ false → bay.new ≡ bay.old }
{
    if is_paths(words) {
        serve(rt, alloc, source, sink, bay, gate)
    } else {
        usage(sink)
    }
}

/// Reads a deck, runs the programs of its paths beside each other over volumes that the bay hands out, whatever they hold, and writes the history of
/// its devices: of each its journal in the order that came about, the programs that weren't started, and its lost tracks. The PAIR lines that stand
/// before the first START line come first. The FAIL, REPAIR, REPLACE, SUSPEND and RESUME lines are done beside the paths, once each and in their order,
/// unless they are refused then; the volume of a REPLACE line is an empty one. Other event lines are not used, and counted. The gate is called round
/// each event of a path. The volumes don't go back to the bay. The call's promise holds if it returns: it waits for its threads.
/// Other words than the one word `paths` are answered with the usage. A read fault is answered exactly where a read failed.
///
/// Whatever the order in which the events of the paths come, the history shows for each program what a plain uncached volume gives that began with
/// these contents, when the programs run one after another.
pub fn paths_top_on<
    R: Threads + Wait + Sync,
    V: EmptyVolume + Send,
    S: Source,
    K: Sink,
    B: VolumeBay<V>,
    G: Gate + Sync,
>(
    rt: &R,
    alloc: Global,
    words: &[&str],
    source: &mut S,
    sink: &mut K,
    bay: &mut B,
    gate: &G,
) -> Status
    // The source was read to its end, its text parses as a deck, and the sink grew by a history of that deck, on what the volumes held first.
    ensures reported { (firsts : Firsts) → result ≡ Status.Reported → is_paths (map (λ w. w.now) words.now) ≡ true → HandsOut (B.view bay.old) firsts
        → OfDeck (S.left source.old) (S.left source.new) (WritesHistoryOn firsts (K.held sink.old) (K.held sink.new)) }

    // All of it at once, with which answers there are to which words and texts, and what is so of a history whatever the volumes held.
    ensures told { TellsOn (B.view bay.old) result (is_paths (map (λ w. w.now) words.now))
        (S.left source.old) (S.left source.new) (K.held sink.old) (K.held sink.new) }
    ensures read { result ≡ Status.ReadFault → Rose (S.faults source.old) (S.faults source.new) }
    ensures calm { result ≢ Status.ReadFault → S.faults source.new ≡ S.faults source.old }
    ensures write { WriteFaultHasCause result (K.faults sink.old) (K.faults sink.new) }

    // What the bay's volumes hold first stays, and so do those that it took back.
    ensures firsts { (B.view bay.new).firsts ≡ (B.view bay.old).firsts }
    ensures spoiled { (B.view bay.new).spoiled ≡ (B.view bay.old).spoiled }
    ensures taken { (B.view bay.new).taken ≡ (B.view bay.old).taken }
    ensures other { is_paths (map (λ w. w.now) words.now) ≡ false → bay.new ≡ bay.old }

    // Every deck is run, if the call returns, unless memory runs out or the outside fails.
    ensures complete { (text : List ℕ) (d : DeckLines) → S.left source.old ≡ Some text → is_paths (map (λ w. w.now) words.now) ≡ true
        → parsed text ≡ Ok d → ¬ Rose (S.faults source.old) (S.faults source.new) → ¬ Rose (K.faults sink.old) (K.faults sink.new)
        → (result ≡ Status.Reported) ⊎ (result ≡ Status.NoMemory) }
{
    serve_words(rt, alloc, words, source, sink, bay, gate)
}
