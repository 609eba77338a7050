//! What the words ask for, over a bay whose volumes may hold something.

ghost use Rattle.std.specs.Prelude.{◌≡◌, ◌≢◌, ◌⊎◌, ◌≤◌, Ok, Err, Some, false, map, List, ℕ};
ghost use Rattle.std.specs.Io.KnownBytes.{Appends};
ghost use Rattle.ckd_outside.specs.Causes.{Rose};
ghost use Rattle.deck_text.specs.DeckLines.{DeckLines};
ghost use Rattle.deck_text.specs.Parse.{parsed};
ghost use Rattle.deck_run.specs.Opening.{WasRead};
ghost use Rattle.deck_gen.specs.Generated.{deck_of_seed};
ghost use Rattle.deck_text.specs.Canonical.{canonical};
ghost use Rattle.deck_text.specs.Texts.{limit_text, refused_text};
ghost use Rattle.subsystem_defs.specs.Decks.{AreWhole, Firsts};
ghost use Rattle.run_report.specs.Report.{report_on};
ghost use Rattle.deck_top.specs.Answers.{is_run, task_of, usage_text, IsServed, IsWritten, RunsAsPromisedOn, WriteFaultHasCause};
ghost use Rattle.deck_top.specs.Answers.{TellsDeckOn, TellsReadOn, TellsTaskOn, TellsOn};
ghost use Rattle.deck_top.specs.Bays.{HandsOut};
ghost use Rattle.deck_top.specs.Facts.{OfDeck, ReportsPlainlyOn};
ghost use Rattle.deck_top.specs.Handed.{TakesBackOn};

use crate::bay::VolumeBay;
use crate::report::report;
use crate::summary::summarize;
use crate::task::{Task, task_of};
use crate::top::{MOST_READ, Status, write_usage};
use ckd_outside::{ReadError, Sink, Source, read_up_to};
use deck_gen::{generate, reads_back};
use deck_run::EmptyVolume;
use deck_text::{
    Deck, DeckFault, DeckWhy, Which, read_deck, write_deck, write_limit, write_refused,
};
use run_report::report_on_volumes_is_plain;
use std::alloc::Global;

fn refuse<K: Sink>(sink: &mut K, line: u32, why: DeckWhy) -> Status
    ensures told { IsWritten result (Status.DeckRefused line why) (refused_text line why) (K.held sink.old) (K.held sink.new) }
    ensures later { K.faults sink.old ≤ K.faults sink.new }
    ensures write { WriteFaultHasCause result (K.faults sink.old) (K.faults sink.new) }
{
    match write_refused(sink, line, why) {
        Ok(()) => Status::DeckRefused { line, why },
        Err(_) => Status::WriteFault,
    }
}

fn limit<K: Sink>(sink: &mut K, which: Which) -> Status
    ensures told { IsWritten result (Status.Limit which) (limit_text which) (K.held sink.old) (K.held sink.new) }
    ensures later { K.faults sink.old ≤ K.faults sink.new }
    ensures write { WriteFaultHasCause result (K.faults sink.old) (K.faults sink.new) }
{
    match write_limit(sink, which) {
        Ok(()) => Status::Limit(which),
        Err(_) => Status::WriteFault,
    }
}

fn check<K: Sink>(deck: &Deck, sink: &mut K) -> Status
    ensures told { IsWritten result Status.Reported (canonical deck.now) (K.held sink.old) (K.held sink.new) }
    ensures later { K.faults sink.old ≤ K.faults sink.new }
    ensures write { WriteFaultHasCause result (K.faults sink.old) (K.faults sink.new) }
{
    match write_deck(deck, sink) {
        Ok(()) => Status::Reported,
        Err(_) => Status::WriteFault,
    }
}

#[tactic(auto, using(crate::proofs::Told::checked_told))]
fn serve_deck<V: EmptyVolume, K: Sink, B: VolumeBay<V>>(
    alloc: Global,
    task: Task,
    deck: &Deck,
    sink: &mut K,
    bay: &mut B,
) -> Status
    requires { WasRead deck.now }
    ensures firsts { (B.view bay.new).firsts ≡ (B.view bay.old).firsts }
    ensures spoiled { (B.view bay.new).spoiled ≡ (B.view bay.old).spoiled }
    ensures kept { result ≢ Status.Reported → (B.view bay.new).taken ≡ (B.view bay.old).taken }
    ensures check { is_run (Some task) ≡ false → bay.new ≡ bay.old }
    ensures told { TellsDeckOn V.view (B.view bay.old) (B.view bay.new) result task (Ok deck.now) (K.held sink.old) (K.held sink.new) }
    ensures later { K.faults sink.old ≤ K.faults sink.new }
    ensures write { WriteFaultHasCause result (K.faults sink.old) (K.faults sink.new) }
{
    match task {
        Task::Run => report(alloc, deck, sink, bay),
        Task::Check => check(deck, sink),
        Task::Generate { .. } => summarize(alloc, deck, sink, bay),
    }
}

#[tactic(auto, using(crate::proofs::Told::refused_told, crate::proofs::Told::limit_told))]
fn answer<V: EmptyVolume, K: Sink, B: VolumeBay<V>>(
    alloc: Global,
    task: Task,
    text: &[u8],
    sink: &mut K,
    bay: &mut B,
) -> Status
    ensures firsts { (B.view bay.new).firsts ≡ (B.view bay.old).firsts }
    ensures spoiled { (B.view bay.new).spoiled ≡ (B.view bay.old).spoiled }
    ensures kept { result ≢ Status.Reported → (B.view bay.new).taken ≡ (B.view bay.old).taken }
    ensures check { is_run (Some task) ≡ false → bay.new ≡ bay.old }
    ensures told { TellsDeckOn V.view (B.view bay.old) (B.view bay.new) result task (parsed text.now) (K.held sink.old) (K.held sink.new) }
    ensures later { K.faults sink.old ≤ K.faults sink.new }
    ensures write { WriteFaultHasCause result (K.faults sink.old) (K.faults sink.new) }
{
    match read_deck(alloc, text) {
        Ok(deck) => serve_deck(alloc, task, &deck, sink, bay),
        Err(DeckFault::Refused { line, why }) => refuse(sink, line, why),
        Err(DeckFault::Limit(which)) => limit(sink, which),
        Err(DeckFault::NoMemory) => Status::NoMemory,
    }
}

fn usage<K: Sink>(sink: &mut K) -> Status
    ensures told { IsWritten result Status.Usage usage_text (K.held sink.old) (K.held sink.new) }
    ensures later { K.faults sink.old ≤ K.faults sink.new }
    ensures write { WriteFaultHasCause result (K.faults sink.old) (K.faults sink.new) }
{
    match write_usage(sink) {
        Ok(()) => Status::Usage,
        Err(_) => Status::WriteFault,
    }
}

/// The deck of a seed and a count of programs, for which nothing is read.
fn generated<V: EmptyVolume, K: Sink, B: VolumeBay<V>>(
    alloc: Global,
    seed: u64,
    count: u16,
    sink: &mut K,
    bay: &mut B,
) -> Status
    requires { count ≤ 512 }
    ensures firsts { (B.view bay.new).firsts ≡ (B.view bay.old).firsts }
    ensures spoiled { (B.view bay.new).spoiled ≡ (B.view bay.old).spoiled }
    ensures kept { result ≢ Status.Reported → (B.view bay.new).taken ≡ (B.view bay.old).taken }
    ensures told { TellsDeckOn V.view (B.view bay.old) (B.view bay.new) result (Task.Generate seed count) (Ok (deck_of_seed seed count))
        (K.held sink.old) (K.held sink.new) }
    ensures later { K.faults sink.old ≤ K.faults sink.new }
    ensures write { WriteFaultHasCause result (K.faults sink.old) (K.faults sink.new) }
{
    reads_back();
    let Ok(deck) = generate(alloc, seed, count) else {
        return Status::NoMemory;
    };
    summarize(alloc, &deck, sink, bay)
}

fn serve_read<V: EmptyVolume, S: Source, K: Sink, B: VolumeBay<V>>(
    alloc: Global,
    task: Task,
    source: &mut S,
    sink: &mut K,
    bay: &mut B,
) -> Status
    ensures firsts { (B.view bay.new).firsts ≡ (B.view bay.old).firsts }
    ensures spoiled { (B.view bay.new).spoiled ≡ (B.view bay.old).spoiled }
    ensures kept { result ≢ Status.Reported → (B.view bay.new).taken ≡ (B.view bay.old).taken }
    ensures check { is_run (Some task) ≡ false → bay.new ≡ bay.old }
    ensures told { TellsReadOn V.view (B.view bay.old) (B.view bay.new) result task
        (S.left source.old) (S.left source.new) (K.held sink.old) (K.held sink.new) }
    ensures read { result ≡ Status.ReadFault → Rose (S.faults source.old) (S.faults source.new) }
    ensures calm { result ≢ Status.ReadFault → S.faults source.new ≡ S.faults source.old }
    ensures write { WriteFaultHasCause result (K.faults sink.old) (K.faults sink.new) }
{
    match read_up_to(alloc, source, MOST_READ) {
        Ok(text) => answer(alloc, task, &text, sink, bay),
        Err(ReadError::Failed) => Status::ReadFault,
        Err(ReadError::NoMemory) => Status::NoMemory,
    }
}

fn serve_task<V: EmptyVolume, S: Source, K: Sink, B: VolumeBay<V>>(
    alloc: Global,
    task: Task,
    source: &mut S,
    sink: &mut K,
    bay: &mut B,
) -> Status
    requires { IsServed task }
    ensures firsts { (B.view bay.new).firsts ≡ (B.view bay.old).firsts }
    ensures spoiled { (B.view bay.new).spoiled ≡ (B.view bay.old).spoiled }
    ensures kept { result ≢ Status.Reported → (B.view bay.new).taken ≡ (B.view bay.old).taken }
    ensures check { is_run (Some task) ≡ false → bay.new ≡ bay.old }
    ensures told { TellsTaskOn V.view (B.view bay.old) (B.view bay.new) result task
        (S.left source.old) (S.left source.new) (K.held sink.old) (K.held sink.new) }
    ensures read { result ≡ Status.ReadFault → Rose (S.faults source.old) (S.faults source.new) }
    ensures calm { result ≢ Status.ReadFault → S.faults source.new ≡ S.faults source.old }
    ensures write { WriteFaultHasCause result (K.faults sink.old) (K.faults sink.new) }
{
    match task {
        Task::Run => serve_read(alloc, Task::Run, source, sink, bay),
        Task::Check => serve_read(alloc, Task::Check, source, sink, bay),
        Task::Generate { seed, count } => generated(alloc, seed, count, sink, bay),
    }
}

fn serve<V: EmptyVolume, S: Source, K: Sink, B: VolumeBay<V>>(
    alloc: Global,
    words: &[&str],
    source: &mut S,
    sink: &mut K,
    bay: &mut B,
) -> Status
    ensures firsts { (B.view bay.new).firsts ≡ (B.view bay.old).firsts }
    ensures spoiled { (B.view bay.new).spoiled ≡ (B.view bay.old).spoiled }
    ensures kept { result ≢ Status.Reported → (B.view bay.new).taken ≡ (B.view bay.old).taken }
    ensures check { is_run (task_of (map (λ w. w.now) words.now)) ≡ false → bay.new ≡ bay.old }
    ensures told { TellsOn V.view (B.view bay.old) (B.view bay.new) result (task_of (map (λ w. w.now) words.now))
        (S.left source.old) (S.left source.new) (K.held sink.old) (K.held sink.new) }
    ensures read { result ≡ Status.ReadFault → Rose (S.faults source.old) (S.faults source.new) }
    ensures calm { result ≢ Status.ReadFault → S.faults source.new ≡ S.faults source.old }
    ensures write { WriteFaultHasCause result (K.faults sink.old) (K.faults sink.new) }
{
    match task_of(words) {
        Some(task) => serve_task(alloc, task, source, sink, bay),
        None => usage(sink),
    }
}

/// Does what the words ask for, over a source, a sink and a bay, whatever the volumes hold that the bay hands out. `run` reads a deck, runs it over
/// them, writes the report of its run and then gives the bay the volumes that stand in the devices, by rising number, side A before side B;
/// `check` reads a deck and writes its canonical text; `generate SEED COUNT` reads nothing, runs the deck of that seed and so many programs
/// in the same way, and writes the summary of its run. A read fault is answered exactly where a read failed. Where memory is lacking, or a
/// write failed, the bay may have handed out volumes that don't come back.
///
/// Whatever the deck, the order of its events and what its volumes hold, the report of `run` shows for each program what a plain uncached volume
/// gives that began with these contents, when the programs run one after another. Only where something failed may a command end with equipment
/// check instead, and each of these is explained. While each failure is repaired before the next one comes, no acknowledged write is missed.
pub fn deck_top_on<V: EmptyVolume, S: Source, K: Sink, B: VolumeBay<V>>(
    alloc: Global,
    words: &[&str],
    source: &mut S,
    sink: &mut K,
    bay: &mut B,
) -> Status
    // `run`: the report is that of the run on what the volumes hold first; it shows of each device of the deck the programs of a plain device that
    // began with this; what is promised of the run; and where its volumes are then.
    ensures reported { (firsts : Firsts) → result ≡ Status.Reported → task_of (map (λ w. w.now) words.now) ≡ Some Task.Run → HandsOut (B.view bay.old) firsts
        → OfDeck (S.left source.old) (S.left source.new) (λ d. Appends (K.held sink.old) (K.held sink.new) (report_on firsts d)) }
    ensures plain { (firsts : Firsts) → AreWhole firsts → result ≡ Status.Reported → task_of (map (λ w. w.now) words.now) ≡ Some Task.Run
        → HandsOut (B.view bay.old) firsts → OfDeck (S.left source.old) (S.left source.new) (ReportsPlainlyOn firsts (K.held sink.old) (K.held sink.new)) }
    ensures promised { (firsts : Firsts) → AreWhole firsts → result ≡ Status.Reported → task_of (map (λ w. w.now) words.now) ≡ Some Task.Run
        → OfDeck (S.left source.old) (S.left source.new) (RunsAsPromisedOn firsts) }
    ensures volumes { result ≡ Status.Reported → task_of (map (λ w. w.now) words.now) ≡ Some Task.Run
        → OfDeck (S.left source.old) (S.left source.new) (λ d. TakesBackOn V.view d (B.view bay.old) (B.view bay.new)) }

    // All of it at once, with which answers there are to which words and texts, and the same deck in each.
    ensures told { TellsOn V.view (B.view bay.old) (B.view bay.new) result (task_of (map (λ w. w.now) words.now))
        (S.left source.old) (S.left source.new) (K.held sink.old) (K.held sink.new) }
    ensures read { result ≡ Status.ReadFault → Rose (S.faults source.old) (S.faults source.new) }
    ensures calm { result ≢ Status.ReadFault → S.faults source.new ≡ S.faults source.old }
    ensures write { WriteFaultHasCause result (K.faults sink.old) (K.faults sink.new) }

    // What the bay's volumes hold stays, and so do those that it took back, but behind the report of a run.
    ensures firsts { (B.view bay.new).firsts ≡ (B.view bay.old).firsts }
    ensures spoiled { (B.view bay.new).spoiled ≡ (B.view bay.old).spoiled }
    ensures kept { result ≢ Status.Reported → (B.view bay.new).taken ≡ (B.view bay.old).taken }
    ensures check { is_run (task_of (map (λ w. w.now) words.now)) ≡ false → bay.new ≡ bay.old }

    // Every deck is checked, and run, unless memory runs out or the outside fails.
    ensures complete { (text : List ℕ) (task : Task) (d : DeckLines) → S.left source.old ≡ Some text
        → task_of (map (λ w. w.now) words.now) ≡ Some task → parsed text ≡ Ok d
        → ¬ Rose (S.faults source.old) (S.faults source.new) → ¬ Rose (K.faults sink.old) (K.faults sink.new)
        → (result ≡ Status.Reported) ⊎ (result ≡ Status.NoMemory) }
{
    report_on_volumes_is_plain();
    serve(alloc, words, source, sink, bay)
}
