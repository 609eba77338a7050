ghost use Rattle.std.specs.Prelude.{◌≡◌, ◌≢◌, ◌⊎◌, ℕ, IfOk, IfSome, Some, None, Ok, Err, List, [], map};
ghost use Rattle.ckd_outside.specs.Causes.{Rose};
ghost use Rattle.deck_text.specs.DeckLines.{DeckLines};
ghost use Rattle.deck_text.specs.Parse.{parsed};
ghost use Rattle.deck_run.specs.Opening.{WasRead};
ghost use Rattle.volume_file.specs.File.{IsWhole, file_of};
ghost use Rattle.copy_tool.specs.Answers.{Tells, code_of, task_of, usage_text};
ghost use Rattle.copy_tool.specs.Copying.{Gives};
ghost use Rattle.copy_tool.specs.Making.{IsPlainFor, IsWritten, TellsDeck, TellsTask, made_for, status_for};
ghost use Rattle.copy_tool.specs.Texts.{unmade_text};

use crate::deck::copied;
use crate::far::mirrored;
use crate::task::{Task, task_of};
use crate::unmade::{Unmade, write_unmade};
use ckd_outside::{Piece, ReadError, Sink, Source, read_up_to};
use deck_text::{
    Deck, DeckFault, DeckWhy, Which, read_deck, write_limit, write_line, write_refused,
};
use line_drive::Stopped;
use std::alloc::Global;
use volume_file::{FileVolume, save};

/// One byte more than a deck may have.
const MOST_READ: usize = 16_777_217;

/// How the program ends.
#[derive(Clone, Copy, Debug, PartialEq, Eq)]
pub enum CopyStatus {
    /// The file was written.
    Done,
    /// The deck's first line that is refused, from 1 on, and its first reason, were written.
    DeckRefused { line: u32, why: DeckWhy },
    /// A read failed, and nothing was written.
    ReadFault,
    /// A write failed: a front of what was to be written was taken.
    WriteFault,
    /// The deck passes this limit, which was written.
    Limit(Which),
    /// Memory is wanting, and nothing was written.
    NoMemory,
    /// The words name no task, and the usage was written.
    Usage,
    /// No file is made for this reason, which was written.
    NotMade(Unmade),
}

/// The exit status of the program.
pub fn code_of(status: CopyStatus) -> u8
    ensures { result ≡ code_of status }
{
    match status {
        CopyStatus::Done => 0,
        CopyStatus::DeckRefused { .. } => 1,
        CopyStatus::ReadFault => 2,
        CopyStatus::WriteFault => 3,
        CopyStatus::Limit(_) => 4,
        CopyStatus::NoMemory => 5,
        CopyStatus::Usage => 6,
        CopyStatus::NotMade(_) => 7,
    }
}

/// The words of the arguments: none where one of them isn't text, which no task's name is.
pub fn words_of<'a>(arguments: Option<&'a [&'a str]>) -> &'a [&'a str]
    ensures text { IfSome arguments.entry (λ words. result.now ≡ words.now) }
    ensures none { arguments.entry ≡ None → result.now ≡ [] }
{
    match arguments {
        Some(words) => words,
        None => &[],
    }
}

/// Tells which words there are.
#[tactic(auto, unfolding(crate::specs::Answers::usage_text))]
fn usage<K: Sink>(sink: &mut K) -> CopyStatus
    ensures told { IsWritten result CopyStatus.Usage (K.held sink.old) (K.held sink.new) usage_text }
    ensures write { result ≡ CopyStatus.WriteFault → Rose (K.faults sink.old) (K.faults sink.new) }
{
    match write_line(sink, &[Piece::Text(b"usage: copy D N, mirror D N\n")]) {
        Ok(()) => CopyStatus::Usage,
        Err(_) => CopyStatus::WriteFault,
    }
}

/// Tells why no file is made.
fn refuse<K: Sink>(sink: &mut K, task: Task, why: Unmade) -> CopyStatus
    ensures told { IsWritten result (CopyStatus.NotMade why) (K.held sink.old) (K.held sink.new) (unmade_text task why) }
    ensures write { result ≡ CopyStatus.WriteFault → Rose (K.faults sink.old) (K.faults sink.new) }
{
    match write_unmade(sink, task, &why) {
        Ok(()) => CopyStatus::NotMade(why),
        Err(_) => CopyStatus::WriteFault,
    }
}

fn write<K: Sink>(sink: &mut K, volume: &FileVolume) -> CopyStatus
    ensures told { IsWritten result CopyStatus.Done (K.held sink.old) (K.held sink.new) (file_of volume.now) }
    ensures write { result ≡ CopyStatus.WriteFault → Rose (K.faults sink.old) (K.faults sink.new) }
{
    match save(volume, sink) {
        Ok(()) => CopyStatus::Done,
        Err(_) => CopyStatus::WriteFault,
    }
}

/// The volume that is asked for of a deck; or the first reason why there is none.
fn made(alloc: Global, deck: &Deck, task: Task) -> Result<FileVolume, Stopped<Unmade>>
    requires { WasRead deck.now }
    ensures found { Gives result (made_for deck.now task) }
    ensures plain { IfOk result (λ v. IsPlainFor deck.now task v × IsWhole v) }
{
    match task {
        Task::Copy { device, lines } => copied(alloc, deck, device, lines),
        Task::Mirror { device, put } => mirrored(alloc, deck, device, put),
    }
}

fn serve_deck<K: Sink>(alloc: Global, deck: &Deck, task: Task, sink: &mut K) -> CopyStatus
    requires { WasRead deck.now }
    ensures told { TellsDeck result task (Ok deck.now) (K.held sink.old) (K.held sink.new) }
    ensures write { result ≡ CopyStatus.WriteFault → Rose (K.faults sink.old) (K.faults sink.new) }
{
    match made(alloc, deck, task) {
        Ok(volume) => write(sink, &volume),
        Err(Stopped::Ended(why)) => refuse(sink, task, why),
        Err(Stopped::NoMemory) => CopyStatus::NoMemory,
    }
}

fn deck_refused<K: Sink>(sink: &mut K, line: u32, why: DeckWhy) -> CopyStatus
    ensures told { (task : Task) → TellsDeck result task (Err (DeckFault.Refused line why)) (K.held sink.old) (K.held sink.new) }
    ensures write { result ≡ CopyStatus.WriteFault → Rose (K.faults sink.old) (K.faults sink.new) }
{
    match write_refused(sink, line, why) {
        Ok(()) => CopyStatus::DeckRefused { line, why },
        Err(_) => CopyStatus::WriteFault,
    }
}

fn limit<K: Sink>(sink: &mut K, which: Which) -> CopyStatus
    ensures told { (task : Task) → TellsDeck result task (Err (DeckFault.Limit which)) (K.held sink.old) (K.held sink.new) }
    ensures write { result ≡ CopyStatus.WriteFault → Rose (K.faults sink.old) (K.faults sink.new) }
{
    match write_limit(sink, which) {
        Ok(()) => CopyStatus::Limit(which),
        Err(_) => CopyStatus::WriteFault,
    }
}

fn answer<K: Sink>(alloc: Global, text: &[u8], task: Task, sink: &mut K) -> CopyStatus
    ensures told { TellsDeck result task (parsed text.now) (K.held sink.old) (K.held sink.new) }
    ensures write { result ≡ CopyStatus.WriteFault → Rose (K.faults sink.old) (K.faults sink.new) }
{
    match read_deck(alloc, text) {
        Ok(deck) => serve_deck(alloc, &deck, task, sink),
        Err(DeckFault::Refused { line, why }) => deck_refused(sink, line, why),
        Err(DeckFault::Limit(which)) => limit(sink, which),
        Err(DeckFault::NoMemory) => CopyStatus::NoMemory,
    }
}

fn serve_task<S: Source, K: Sink>(
    alloc: Global,
    task: Task,
    source: &mut S,
    sink: &mut K,
) -> CopyStatus
    ensures told { TellsTask result task (S.left source.old) (S.left source.new) (K.held sink.old) (K.held sink.new) }
    ensures read { result ≡ CopyStatus.ReadFault → Rose (S.faults source.old) (S.faults source.new) }
    ensures calm { result ≢ CopyStatus.ReadFault → S.faults source.new ≡ S.faults source.old }
    ensures write { result ≡ CopyStatus.WriteFault → Rose (K.faults sink.old) (K.faults sink.new) }
{
    match read_up_to(alloc, source, MOST_READ) {
        Ok(text) => answer(alloc, &text, task, sink),
        Err(ReadError::Failed) => CopyStatus::ReadFault,
        Err(ReadError::NoMemory) => CopyStatus::NoMemory,
    }
}

fn serve<S: Source, K: Sink>(
    alloc: Global,
    words: &[&str],
    source: &mut S,
    sink: &mut K,
) -> CopyStatus
    ensures told { Tells result (task_of (map (λ w. w.now) words.now))
        (S.left source.old) (S.left source.new) (K.held sink.old) (K.held sink.new) }
    ensures read { result ≡ CopyStatus.ReadFault → Rose (S.faults source.old) (S.faults source.new) }
    ensures calm { result ≢ CopyStatus.ReadFault → S.faults source.new ≡ S.faults source.old }
    ensures write { result ≡ CopyStatus.WriteFault → Rose (K.faults sink.old) (K.faults sink.new) }
{
    match task_of(words) {
        Some(task) => serve_task(alloc, task, source, sink),
        None => usage(sink),
    }
}

/// Does what the words ask for, over a source and a sink: reads a deck, and writes the file of a volume. `copy D N` does the first N
/// event lines, and writes its device D as it is then. The tracks are copied one by one in rising order, each behind an event of the
/// other lines, and the rest after the last one; nothing is written before the last track is copied. `mirror D N` runs the deck, and
/// puts each track of its device D that becomes firm on a far volume, which is empty at first, in the event in which it does. The N-th
/// put fails, none where N is 0, and nothing is put from then on. Then the far volume is written, whatever became of the puts. A read
/// fault is answered exactly where a read failed.
pub fn copy_top<S: Source, K: Sink>(
    alloc: Global,
    words: &[&str],
    source: &mut S,
    sink: &mut K,
) -> CopyStatus
    ensures told { Tells result (task_of (map (λ w. w.now) words.now))
        (S.left source.old) (S.left source.new) (K.held sink.old) (K.held sink.new) }
    ensures read { result ≡ CopyStatus.ReadFault → Rose (S.faults source.old) (S.faults source.new) }
    ensures calm { result ≢ CopyStatus.ReadFault → S.faults source.new ≡ S.faults source.old }
    ensures write { result ≡ CopyStatus.WriteFault → Rose (K.faults sink.old) (K.faults sink.new) }

    // Of every deck the file is written, or the reason why not that the defined copy or mirror has.
    ensures complete { (text : List ℕ) (deck : DeckLines) (task : Task) → S.left source.old ≡ Some text
        → task_of (map (λ w. w.now) words.now) ≡ Some task → parsed text ≡ Ok deck
        → ¬ Rose (S.faults source.old) (S.faults source.new) → ¬ Rose (K.faults sink.old) (K.faults sink.new)
        → (result ≡ status_for deck task) ⊎ (result ≡ CopyStatus.NoMemory) }
{
    serve(alloc, words, source, sink)
}
