ghost use Rattle.std.specs.Prelude.{◌≡◌, ◌≢◌, ◌⊎◌, ◌≤◌, ℕ, IfSome, Some, None, Ok, List, [], map};
ghost use Rattle.ckd_outside.specs.Causes.{Rose, HasCause};
ghost use Rattle.ckd_outside.specs.Texts.{Writes};
ghost use Rattle.deck_text.specs.DeckLines.{DeckLines};
ghost use Rattle.deck_text.specs.Parse.{parsed};
ghost use Rattle.volume_file.specs.File.{ImageVolume, IsWhole, file_of};
ghost use Rattle.volume_texts.specs.Faults.{head_text, track_text, trailing_text};
ghost use Rattle.volume_texts.specs.List.{rows_text};
ghost use Rattle.volume_tool.specs.Answers.{Tells, TellsFault, TellsList, code_of, task_of, usage_text, WriteFaultHasCause};
ghost use Rattle.volume_tool.specs.Save.{status_for};
ghost use Rattle.volume_tool.specs.Written.{IsWritten};

use crate::listing::read_listing;
use crate::save::serve_save;
use crate::task::{Task, save_of, task_by};
use ckd_outside::{Failed, Piece, Sink, Source};
use ckd_types::{Geometry, Side, TrackNo};
use deck_text::{DeckWhy, Which, write_line};
use std::alloc::Global;
use volume_file::LoadFault;
use volume_texts::{Row, write_head, write_listing, write_track, write_trailing};

/// How the program ends.
#[derive(Clone, Copy, Debug, PartialEq, Eq)]
pub enum VolumeStatus {
    /// The list was written, or the file.
    Done,
    /// The deck's first line that is refused, from 1 on, and its first reason, were written.
    DeckRefused { line: u32, why: DeckWhy },
    /// A read failed, and nothing was written.
    ReadFault,
    /// A write failed: a front of what was to be written was taken.
    WriteFault,
    /// The deck passes this limit, which was written.
    Limit(Which),
    /// Memory is wanting, and nothing was written.
    NoMemory,
    /// The words name no task, and the usage was written.
    Usage,
    /// The deck has no device of that number, which was written.
    Device,
    /// It is lent at the end of the run, which was written.
    Lent,
    /// A half write of a command is open then, or of one that was cut, which was written.
    Half,
    /// The first track that a look didn't find is lost, which was written.
    Lost(TrackNo),
    /// This side failed there, and no other side gave the track, which was written.
    Fault(Side),
    /// The file's first field that is wrong or cut is one of its head, which was written.
    BadHead { offset: u32 },
    /// It is one of this track, which was written.
    BadTrack { track: TrackNo, offset: u32 },
    /// A byte follows the file's last track, which was written.
    Trailing { offset: u32 },
}

#[tactic(auto, unfolding(crate::specs::Answers::task_of))]
fn task_of(words: &[&str]) -> Option<Task>
    ensures { result ≡ task_of (map (λ w. w.now) words.now) }
{
    match words {
        [word] => task_by(word),
        [word, number] => save_of(word, number),
        _ => None,
    }
}

/// The exit status of the program.
pub fn code_of(status: VolumeStatus) -> u8
    ensures { result ≡ code_of status }
{
    match status {
        VolumeStatus::Done => 0,
        VolumeStatus::DeckRefused { .. } => 1,
        VolumeStatus::ReadFault => 2,
        VolumeStatus::WriteFault => 3,
        VolumeStatus::Limit(_) => 4,
        VolumeStatus::NoMemory => 5,
        VolumeStatus::Usage => 6,
        VolumeStatus::Device
        | VolumeStatus::Lent
        | VolumeStatus::Half
        | VolumeStatus::Lost(_)
        | VolumeStatus::Fault(_) => 7,
        VolumeStatus::BadHead { .. }
        | VolumeStatus::BadTrack { .. }
        | VolumeStatus::Trailing { .. } => 8,
    }
}

/// The words of the arguments: none where one of them isn't text, which no task's name is.
pub fn words_of<'a>(arguments: Option<&'a [&'a str]>) -> &'a [&'a str]
    ensures text { IfSome arguments.entry (λ words. result.now ≡ words.now) }
    ensures none { arguments.entry ≡ None → result.now ≡ [] }
{
    match arguments {
        Some(words) => words,
        None => &[],
    }
}

#[tactic(auto, unfolding(crate::specs::Answers::usage_text))]
fn write_usage<K: Sink>(sink: &mut K) -> Result<(), Failed>
    ensures bytes { Writes (K.held sink.old) (K.held sink.new) result usage_text }
    ensures cause { HasCause (K.faults sink.old) (K.faults sink.new) result }
{
    write_line(sink, &[Piece::Text(b"usage: save D, list\n")])
}

fn bad_head<K: Sink>(sink: &mut K, offset: u32) -> VolumeStatus
    ensures told { IsWritten result (VolumeStatus.BadHead offset)
        (K.held sink.old) (K.held sink.new) (head_text offset) }
    ensures later { K.faults sink.old ≤ K.faults sink.new }
    ensures write { WriteFaultHasCause result (K.faults sink.old) (K.faults sink.new) }
{
    match write_head(sink, offset) {
        Ok(()) => VolumeStatus::BadHead { offset },
        Err(_) => VolumeStatus::WriteFault,
    }
}

fn bad_track<K: Sink>(sink: &mut K, track: TrackNo, offset: u32) -> VolumeStatus
    ensures told { IsWritten result (VolumeStatus.BadTrack track offset)
        (K.held sink.old) (K.held sink.new) (track_text track offset) }
    ensures later { K.faults sink.old ≤ K.faults sink.new }
    ensures write { WriteFaultHasCause result (K.faults sink.old) (K.faults sink.new) }
{
    match write_track(sink, track, offset) {
        Ok(()) => VolumeStatus::BadTrack { track, offset },
        Err(_) => VolumeStatus::WriteFault,
    }
}

fn trailing<K: Sink>(sink: &mut K, offset: u32) -> VolumeStatus
    ensures told { IsWritten result (VolumeStatus.Trailing offset)
        (K.held sink.old) (K.held sink.new) (trailing_text offset) }
    ensures later { K.faults sink.old ≤ K.faults sink.new }
    ensures write { WriteFaultHasCause result (K.faults sink.old) (K.faults sink.new) }
{
    match write_trailing(sink, offset) {
        Ok(()) => VolumeStatus::Trailing { offset },
        Err(_) => VolumeStatus::WriteFault,
    }
}

/// Tells why a file wasn't loaded.
fn refuse<K: Sink>(sink: &mut K, fault: LoadFault) -> VolumeStatus
    ensures told { TellsFault result fault (K.held sink.old) (K.held sink.new) }
    ensures later { K.faults sink.old ≤ K.faults sink.new }
    ensures write { WriteFaultHasCause result (K.faults sink.old) (K.faults sink.new) }
{
    match fault {
        LoadFault::BadHead { offset } => bad_head(sink, offset),
        LoadFault::BadTrack { track, offset } => bad_track(sink, track, offset),
        LoadFault::Trailing { offset } => trailing(sink, offset),
        LoadFault::ReadFault => VolumeStatus::ReadFault,
        LoadFault::NoMemory => VolumeStatus::NoMemory,
    }
}

fn list<K: Sink>(sink: &mut K, geometry: Geometry, cylinders: u8, rows: &[Row]) -> VolumeStatus
    ensures told { IsWritten result VolumeStatus.Done
        (K.held sink.old) (K.held sink.new) (rows_text geometry cylinders rows.now) }
    ensures later { K.faults sink.old ≤ K.faults sink.new }
    ensures write { WriteFaultHasCause result (K.faults sink.old) (K.faults sink.new) }
{
    match write_listing(sink, geometry, u16::from(cylinders), rows) {
        Ok(()) => VolumeStatus::Done,
        Err(_) => VolumeStatus::WriteFault,
    }
}

fn serve_list<S: Source, K: Sink>(alloc: Global, source: &mut S, sink: &mut K) -> VolumeStatus
    ensures told { TellsList result (S.left source.old) (S.left source.new) (K.held sink.old) (K.held sink.new) }
    ensures read { result ≡ VolumeStatus.ReadFault → Rose (S.faults source.old) (S.faults source.new) }
    ensures calm { result ≢ VolumeStatus.ReadFault → S.faults source.new ≡ S.faults source.old }
    ensures write { WriteFaultHasCause result (K.faults sink.old) (K.faults sink.new) }
{
    match read_listing(alloc, source) {
        Ok(listing) => list(sink, listing.geometry, listing.cylinders, &listing.rows),
        Err(fault) => refuse(sink, fault),
    }
}

fn usage<K: Sink>(sink: &mut K) -> VolumeStatus
    ensures told { IsWritten result VolumeStatus.Usage (K.held sink.old) (K.held sink.new) usage_text }
    ensures later { K.faults sink.old ≤ K.faults sink.new }
    ensures write { WriteFaultHasCause result (K.faults sink.old) (K.faults sink.new) }
{
    match write_usage(sink) {
        Ok(()) => VolumeStatus::Usage,
        Err(_) => VolumeStatus::WriteFault,
    }
}

fn serve<S: Source, K: Sink>(
    alloc: Global,
    words: &[&str],
    source: &mut S,
    sink: &mut K,
) -> VolumeStatus
    ensures told { Tells result (task_of (map (λ w. w.now) words.now))
        (S.left source.old) (S.left source.new) (K.held sink.old) (K.held sink.new) }
    ensures read { result ≡ VolumeStatus.ReadFault → Rose (S.faults source.old) (S.faults source.new) }
    ensures calm { result ≢ VolumeStatus.ReadFault → S.faults source.new ≡ S.faults source.old }
    ensures write { WriteFaultHasCause result (K.faults sink.old) (K.faults sink.new) }
{
    match task_of(words) {
        Some(Task::List) => serve_list(alloc, source, sink),
        Some(Task::Save(n)) => serve_save(alloc, n, source, sink),
        None => usage(sink),
    }
}

/// Does what the words ask for, over a source and a sink. `list` reads a volume file and writes what its tracks
/// hold; nothing is written before the file was read. `save D` reads a deck, runs it and looks at each track of its device D in
/// rising order; nothing is written before the last look. A read fault is answered exactly where a read failed.
pub fn volume_top<S: Source, K: Sink>(
    alloc: Global,
    words: &[&str],
    source: &mut S,
    sink: &mut K,
) -> VolumeStatus
    ensures told { Tells result (task_of (map (λ w. w.now) words.now))
        (S.left source.old) (S.left source.new) (K.held sink.old) (K.held sink.new) }
    ensures read { result ≡ VolumeStatus.ReadFault → Rose (S.faults source.old) (S.faults source.new) }
    ensures calm { result ≢ VolumeStatus.ReadFault → S.faults source.new ≡ S.faults source.old }
    ensures write { WriteFaultHasCause result (K.faults sink.old) (K.faults sink.new) }

    // The file of every volume is listed, unless memory runs out or the outside fails.
    ensures complete { (v : ImageVolume) → IsWhole v → S.left source.old ≡ Some (file_of v)
        → task_of (map (λ w. w.now) words.now) ≡ Some Task.List
        → ¬ Rose (S.faults source.old) (S.faults source.new) → ¬ Rose (K.faults sink.old) (K.faults sink.new)
        → (result ≡ VolumeStatus.Done) ⊎ (result ≡ VolumeStatus.NoMemory) }

    // Of every deck the file is written, or the reason why not that the defined run has.
    ensures saves { (text : List ℕ) (d : DeckLines) (n : ℕ) → S.left source.old ≡ Some text
        → task_of (map (λ w. w.now) words.now) ≡ Some (Task.Save n) → parsed text ≡ Ok d
        → ¬ Rose (S.faults source.old) (S.faults source.new) → ¬ Rose (K.faults sink.old) (K.faults sink.new)
        → (result ≡ status_for d n) ⊎ (result ≡ VolumeStatus.NoMemory) }
{
    serve(alloc, words, source, sink)
}
