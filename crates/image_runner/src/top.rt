ghost use Rattle.std.specs.Prelude.{◌≡◌, ◌≢◌, ◌⊎◌, ◌≤◌, [], Err, IfOk, IfSome, None, Ok, Option, Some, List, ℕ, false, map, true};
ghost use Rattle.ckd_outside.specs.Causes.{Rose};
ghost use Rattle.deck_run.specs.Opening.{AllHold, HaveTracks, WasRead, numbers_in};
ghost use Rattle.deck_text.specs.DeckLines.{DeckLines};
ghost use Rattle.deck_text.specs.Parse.{parsed};
ghost use Rattle.device_outside.specs.Lists.{is_in};
ghost use Rattle.report_text.specs.Report.{report_text};
ghost use Rattle.image_runner.specs.Answers.{IsRefused, Tells, TellsDeck, TellsRead, WriteFaultHasCause, WritesReport};
ghost use Rattle.image_runner.specs.Racks.{Holding, firsts_by};
ghost use Rattle.image_runner.specs.Words.{mounts_of};

use crate::mounting::{MountFault, Refusal};
use crate::rack::{KeptVolume, Rack};
use crate::running::{flush_all, open_volumes, tell_waiting};
use crate::status::RunStatus;
use crate::texts::{write_refusal, write_usage};
use crate::words::{device_in, mounts_in};
use ckd_outside::{Failed, ReadError, Sink, Source, read_up_to};
use ckd_types::DeviceNo;
use deck_run::run_on;
use deck_text::{Deck, DeckFault, DeckWhy, Which, read_deck, write_limit, write_refused};
use report_text::{RunRecord, write_report};
use std::alloc::Global;

/// One byte more than a deck may have.
const MOST_READ: usize = 16_777_217;

/// The words of the arguments: none where one of them isn't text, which no task's name is.
pub fn words_of<'a>(arguments: Option<&'a [&'a str]>) -> &'a [&'a str]
    ensures text { IfSome arguments.entry (λ words. result.now ≡ words.now) }
    ensures none { arguments.entry ≡ None → result.now ≡ [] }
{
    match arguments {
        Some(words) => words,
        None => &[],
    }
}

fn usage<K: Sink>(sink: &mut K) -> RunStatus
    ensures told { (holding : Option Holding) (left : Option (List ℕ)) → Tells result holding None left left (K.held sink.old) (K.held sink.new) }
    ensures write { WriteFaultHasCause result (K.faults sink.old) (K.faults sink.new) }
    ensures read { result ≢ RunStatus.ReadFault }
{
    match write_usage(sink) {
        Ok(()) => RunStatus::Usage,
        Err(_) => RunStatus::WriteFault,
    }
}

fn deck_refused<K: Sink>(sink: &mut K, line: u32, why: DeckWhy) -> RunStatus
    ensures told { (holding : Option Holding) (words : List (List ℕ))
        → TellsDeck result holding words (Err (DeckFault.Refused line why)) (K.held sink.old) (K.held sink.new) }
    ensures write { WriteFaultHasCause result (K.faults sink.old) (K.faults sink.new) }
{
    match write_refused(sink, line, why) {
        Ok(()) => RunStatus::DeckRefused { line, why },
        Err(_) => RunStatus::WriteFault,
    }
}

fn limit<K: Sink>(sink: &mut K, which: Which) -> RunStatus
    ensures told { (holding : Option Holding) (words : List (List ℕ))
        → TellsDeck result holding words (Err (DeckFault.Limit which)) (K.held sink.old) (K.held sink.new) }
    ensures write { WriteFaultHasCause result (K.faults sink.old) (K.faults sink.new) }
{
    match write_limit(sink, which) {
        Ok(()) => RunStatus::Limit(which),
        Err(_) => RunStatus::WriteFault,
    }
}

/// Tells why an image isn't taken.
#[tactic(auto, using(crate::proofs::Told::refused_told, crate::proofs::Told::refused_front))]
fn tell_refusal<K: Sink>(sink: &mut K, refusal: Refusal) -> RunStatus
    ensures told { (holding : Option Holding) (words : List (List ℕ)) (deck : DeckLines) → IsRefused deck refusal
        → TellsDeck result holding words (Ok deck) (K.held sink.old) (K.held sink.new) }
    ensures write { WriteFaultHasCause result (K.faults sink.old) (K.faults sink.new) }
{
    match write_refusal(sink, &refusal) {
        Ok(()) => RunStatus::Refused(refusal),
        Err(_) => RunStatus::WriteFault,
    }
}

fn refuse<K: Sink>(sink: &mut K, refusal: Refusal) -> RunStatus
    ensures told { (holding : Option Holding) (words : List (List ℕ)) (deck : DeckLines) → IsRefused deck refusal
        → TellsDeck result holding words (Ok deck) (K.held sink.old) (K.held sink.new) }
    ensures write { WriteFaultHasCause result (K.faults sink.old) (K.faults sink.new) }
{
    match refusal.fault {
        MountFault::NoMemory => RunStatus::NoMemory,
        _ => tell_refusal(sink, refusal),
    }
}

fn has_device(deck: &Deck, d: DeviceNo) -> bool
    ensures { result ≡ is_in d (numbers_in deck.now.devices) }
{
    for i in 0..deck.device_count() {
        if d == deck.device_at(i).number {
            return true;
        }
    }
    false
}

/// The device that a word names an image for, where the deck hasn't such a one.
fn undeclared_in(word: &str, deck: &Deck) -> Option<DeviceNo>
    ensures { IfSome result (λ d. is_in d (numbers_in deck.now.devices) ≡ false) }
{
    let d = device_in(word)?;
    if has_device(deck, d) { None } else { Some(d) }
}

/// The first such device.
fn undeclared(words: &[&str], deck: &Deck) -> Option<DeviceNo>
    ensures { IfSome result (λ d. is_in d (numbers_in deck.now.devices) ≡ false) }
{
    for word in words {
        if let Some(d) = undeclared_in(word, deck) {
            return Some(d);
        }
    }
    None
}

/// Writes the report of a run, of whose volumes this came.
fn write_ran<K: Sink>(sink: &mut K, report: &RunRecord, flushed: Result<(), Failed>) -> RunStatus
    ensures told { WritesReport result (K.held sink.old) (K.held sink.new) (report_text report.now [] []) }
    ensures write { WriteFaultHasCause result (K.faults sink.old) (K.faults sink.new) }
{
    match write_report(sink, report, &[], &[]) {
        Ok(()) => match flushed {
            Ok(()) => RunStatus::Reported,
            Err(_) => RunStatus::FlushFault,
        },
        Err(_) => RunStatus::WriteFault,
    }
}

/// Runs a deck over these volumes, and waits until they are where they outlive the run. Then its report is written.
fn run<V: KeptVolume, K: Sink, N: Sink>(
    alloc: Global,
    words: &[&str],
    deck: &Deck,
    volumes: Vec<V>,
    sink: &mut K,
    notes: &mut N,
) -> RunStatus
    requires read { WasRead deck.now }
    requires tracks { HaveTracks deck.now.devices (map V.view volumes.items) }
    ensures told { (holding : Option Holding) (names : List (List ℕ))
        → ((h : Holding) → holding ≡ Some h → AllHold (firsts_by h names) deck.now deck.now.devices (map V.view volumes.items))
        → TellsDeck result holding names (Ok deck.now) (K.held sink.old) (K.held sink.new) }
    ensures write { WriteFaultHasCause result (K.faults sink.old) (K.faults sink.new) }
{
    let Ok(ran) = run_on(alloc, deck, volumes) else {
        return RunStatus::NoMemory;
    };
    tell_waiting(words, ran.sub.devices(), notes);
    let flushed = flush_all(ran.sub);
    write_ran(sink, &ran.report, flushed)
}

fn serve_deck<V: KeptVolume, K: Sink, N: Sink, R: Rack<V>>(
    alloc: Global,
    words: &[&str],
    deck: &Deck,
    sink: &mut K,
    notes: &mut N,
    rack: &mut R,
) -> RunStatus
    requires { WasRead deck.now }
    ensures told { TellsDeck result (R.holds rack.old) (map (λ w. w.now) words.now) (Ok deck.now) (K.held sink.old) (K.held sink.new) }
    ensures write { WriteFaultHasCause result (K.faults sink.old) (K.faults sink.new) }
{
    if let Some(device) = undeclared(words, deck) {
        let fault = MountFault::Device;
        return refuse(sink, Refusal { device, fault });
    }
    match open_volumes(alloc, deck, words, rack) {
        Ok(volumes) => run(alloc, words, deck, volumes, sink, notes),
        Err(refusal) => refuse(sink, refusal),
    }
}

fn answer<V: KeptVolume, K: Sink, N: Sink, R: Rack<V>>(
    alloc: Global,
    words: &[&str],
    text: &[u8],
    sink: &mut K,
    notes: &mut N,
    rack: &mut R,
) -> RunStatus
    ensures told { TellsDeck result (R.holds rack.old) (map (λ w. w.now) words.now) (parsed text.now) (K.held sink.old) (K.held sink.new) }
    ensures write { WriteFaultHasCause result (K.faults sink.old) (K.faults sink.new) }
{
    match read_deck(alloc, text) {
        Ok(deck) => serve_deck(alloc, words, &deck, sink, notes, rack),
        Err(DeckFault::Refused { line, why }) => deck_refused(sink, line, why),
        Err(DeckFault::Limit(which)) => limit(sink, which),
        Err(DeckFault::NoMemory) => RunStatus::NoMemory,
    }
}

fn serve<V: KeptVolume, S: Source, K: Sink, N: Sink, R: Rack<V>>(
    alloc: Global,
    words: &[&str],
    source: &mut S,
    sink: &mut K,
    notes: &mut N,
    rack: &mut R,
) -> RunStatus
    ensures told { TellsRead result (R.holds rack.old) (map (λ w. w.now) words.now)
        (S.left source.old) (S.left source.new) (K.held sink.old) (K.held sink.new) }
    ensures read { result ≡ RunStatus.ReadFault → Rose (S.faults source.old) (S.faults source.new) }
    ensures calm { result ≢ RunStatus.ReadFault → S.faults source.new ≡ S.faults source.old }
    ensures write { WriteFaultHasCause result (K.faults sink.old) (K.faults sink.new) }
{
    match read_up_to(alloc, source, MOST_READ) {
        Ok(text) => answer(alloc, words, &text, sink, notes, rack),
        Err(ReadError::Failed) => RunStatus::ReadFault,
        Err(ReadError::NoMemory) => RunStatus::NoMemory,
    }
}

/// Reads a deck, and runs it on the volumes that the words name, as `ON 0=FILE 1=FILE`; its other devices begin on empty volumes. The
/// volumes are of the deck's models and cylinders, or nothing runs. Once they are where they outlive the run its report is written: that
/// of the defined run over what they held, where the rack tells that. Beside it the notes tell which devices on images have tracks that
/// wait, which are lost. A read fault is answered exactly where a read of the source failed. Where memory is lacking, or a write failed,
/// the deck may have run in part.
pub fn run_top<V: KeptVolume, S: Source, K: Sink, N: Sink, R: Rack<V>>(
    alloc: Global,
    words: &[&str],
    source: &mut S,
    sink: &mut K,
    notes: &mut N,
    rack: &mut R,
) -> RunStatus
    ensures told { Tells result (R.holds rack.old) (mounts_of (map (λ w. w.now) words.now))
        (S.left source.old) (S.left source.new) (K.held sink.old) (K.held sink.new) }
    ensures read { result ≡ RunStatus.ReadFault → Rose (S.faults source.old) (S.faults source.new) }
    ensures calm { result ≢ RunStatus.ReadFault → S.faults source.new ≡ S.faults source.old }
    ensures write { WriteFaultHasCause result (K.faults sink.old) (K.faults sink.new) }
{
    match mounts_in(words) {
        Some(mounts) => serve(alloc, mounts, source, sink, notes, rack),
        None => usage(sink),
    }
}
