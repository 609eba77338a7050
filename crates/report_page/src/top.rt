ghost use Rattle.std.specs.Prelude.{◌≡◌, ◌≢◌, ◌⊎◌, ◌≤◌, [], ℕ, IfSome, Some, None, Ok, Err, List, true, map};
ghost use Rattle.ckd_outside.specs.Causes.{Rose, HasCause};
ghost use Rattle.ckd_outside.specs.Texts.{Writes};
ghost use Rattle.report_page.specs.Drawn.{drawn_of};
ghost use Rattle.report_page.specs.Answers.{Tells, TellsDraw, TellsDrawn, IsWritten, code_of, is_draw, is_draw_word, usage_text};

use crate::page::{MOST, drawn_of};
use ckd_outside::{Failed, Piece, ReadError, Sink, Source, read_up_to, write_all};
use deck_text::{DeckFault, DeckWhy, Which, write_limit, write_line, write_refused};
use page_text::Page;
use std::alloc::Global;

/// How the program ends.
#[derive(Clone, Copy, Debug, PartialEq, Eq)]
pub enum DrawStatus {
    /// The page was written.
    Done,
    /// The deck's first line that is refused, from 1 on, and its first reason, were written.
    DeckRefused { line: u32, why: DeckWhy },
    /// A read failed, and nothing was written.
    ReadFault,
    /// A write failed: a front of what was to be written was taken.
    WriteFault,
    /// The deck or the file passes this limit, which was written.
    Limit(Which),
    /// Memory is wanting, and nothing was written.
    NoMemory,
    /// The words aren't `draw` alone, and the usage was written.
    Usage,
}

/// The exit status of the program.
pub fn code_of(status: DrawStatus) -> u8
    ensures { result ≡ code_of status }
{
    match status {
        DrawStatus::Done => 0,
        DrawStatus::DeckRefused { .. } => 1,
        DrawStatus::ReadFault => 2,
        DrawStatus::WriteFault => 3,
        DrawStatus::Limit(_) => 4,
        DrawStatus::NoMemory => 5,
        DrawStatus::Usage => 6,
    }
}

/// The words of the arguments: none where one of them isn't text.
pub fn words_of<'a>(arguments: Option<&'a [&'a str]>) -> &'a [&'a str]
    ensures text { IfSome arguments.entry (λ words. result.now ≡ words.now) }
    ensures none { arguments.entry ≡ None → result.now ≡ [] }
{
    match arguments {
        Some(words) => words,
        None => &[],
    }
}

#[tactic(auto, unfolding(crate::specs::Answers::is_draw_word))]
fn is_draw_word(word: &str) -> bool
    ensures { result ≡ is_draw_word word.now }
{
    word.as_bytes() == b"draw".as_slice()
}

#[tactic(auto, unfolding(crate::specs::Answers::is_draw))]
fn is_draw(words: &[&str]) -> bool
    ensures { result ≡ is_draw (map (λ w. w.now) words.now) }
{
    match words {
        [word] => is_draw_word(word),
        _ => false,
    }
}

#[tactic(auto, unfolding(crate::specs::Answers::usage_text))]
fn write_usage<K: Sink>(sink: &mut K) -> Result<(), Failed>
    ensures bytes { Writes (K.held sink.old) (K.held sink.new) result usage_text }
    ensures cause { HasCause (K.faults sink.old) (K.faults sink.new) result }
{
    write_line(sink, &[Piece::Text(b"usage: draw\n")])
}

fn usage<K: Sink>(sink: &mut K) -> DrawStatus
    ensures told { IsWritten result DrawStatus.Usage (K.held sink.old) (K.held sink.new) usage_text }
    ensures later { K.faults sink.old ≤ K.faults sink.new }
    ensures write { result ≡ DrawStatus.WriteFault → Rose (K.faults sink.old) (K.faults sink.new) }
{
    match write_usage(sink) {
        Ok(()) => DrawStatus::Usage,
        Err(_) => DrawStatus::WriteFault,
    }
}

fn write<K: Sink>(sink: &mut K, page: &Page) -> DrawStatus
    ensures told { TellsDrawn result (Ok page.now) (K.held sink.old) (K.held sink.new) }
    ensures later { K.faults sink.old ≤ K.faults sink.new }
    ensures write { result ≡ DrawStatus.WriteFault → Rose (K.faults sink.old) (K.faults sink.new) }
{
    match write_all(sink, page.bytes()) {
        Ok(()) => DrawStatus::Done,
        Err(_) => DrawStatus::WriteFault,
    }
}

fn deck_refused<K: Sink>(sink: &mut K, line: u32, why: DeckWhy) -> DrawStatus
    ensures told { TellsDrawn result (Err (DeckFault.Refused line why)) (K.held sink.old) (K.held sink.new) }
    ensures later { K.faults sink.old ≤ K.faults sink.new }
    ensures write { result ≡ DrawStatus.WriteFault → Rose (K.faults sink.old) (K.faults sink.new) }
{
    match write_refused(sink, line, why) {
        Ok(()) => DrawStatus::DeckRefused { line, why },
        Err(_) => DrawStatus::WriteFault,
    }
}

fn limit<K: Sink>(sink: &mut K, which: Which) -> DrawStatus
    ensures told { TellsDrawn result (Err (DeckFault.Limit which)) (K.held sink.old) (K.held sink.new) }
    ensures later { K.faults sink.old ≤ K.faults sink.new }
    ensures write { result ≡ DrawStatus.WriteFault → Rose (K.faults sink.old) (K.faults sink.new) }
{
    match write_limit(sink, which) {
        Ok(()) => DrawStatus::Limit(which),
        Err(_) => DrawStatus::WriteFault,
    }
}

fn answer<K: Sink>(alloc: Global, text: &[u8], sink: &mut K) -> DrawStatus
    ensures told { TellsDrawn result (drawn_of text.now) (K.held sink.old) (K.held sink.new) }
    ensures later { K.faults sink.old ≤ K.faults sink.new }
    ensures write { result ≡ DrawStatus.WriteFault → Rose (K.faults sink.old) (K.faults sink.new) }
{
    match drawn_of(alloc, text) {
        Ok(page) => write(sink, &page),
        Err(DeckFault::Refused { line, why }) => deck_refused(sink, line, why),
        Err(DeckFault::Limit(which)) => limit(sink, which),
        Err(DeckFault::NoMemory) => DrawStatus::NoMemory,
    }
}

fn draw<S: Source, K: Sink>(alloc: Global, source: &mut S, sink: &mut K) -> DrawStatus
    ensures told { TellsDraw result (S.left source.old) (S.left source.new) (K.held sink.old) (K.held sink.new) }
    ensures read { result ≡ DrawStatus.ReadFault → Rose (S.faults source.old) (S.faults source.new) }
    ensures calm { result ≢ DrawStatus.ReadFault → S.faults source.new ≡ S.faults source.old }
    ensures write { result ≡ DrawStatus.WriteFault → Rose (K.faults sink.old) (K.faults sink.new) }
{
    match read_up_to(alloc, source, MOST + 1) {
        Ok(text) => answer(alloc, &text, sink),
        Err(ReadError::Failed) => DrawStatus::ReadFault,
        Err(ReadError::NoMemory) => DrawStatus::NoMemory,
    }
}

fn serve<S: Source, K: Sink>(
    alloc: Global,
    words: &[&str],
    source: &mut S,
    sink: &mut K,
) -> DrawStatus
    ensures told { Tells result (is_draw (map (λ w. w.now) words.now))
        (S.left source.old) (S.left source.new) (K.held sink.old) (K.held sink.new) }
    ensures read { result ≡ DrawStatus.ReadFault → Rose (S.faults source.old) (S.faults source.new) }
    ensures calm { result ≢ DrawStatus.ReadFault → S.faults source.new ≡ S.faults source.old }
    ensures write { result ≡ DrawStatus.WriteFault → Rose (K.faults sink.old) (K.faults sink.new) }
{
    if is_draw(words) {
        return draw(alloc, source, sink);
    }
    usage(sink)
}

/// Draws the page of what a source gives: a deck, which is run; or a deck, the line REPORT, and a report or history, which is drawn as it
/// is. Nothing is written before the page is whole. A read fault is answered exactly where a read failed.
pub fn draw_top<S: Source, K: Sink>(
    alloc: Global,
    words: &[&str],
    source: &mut S,
    sink: &mut K,
) -> DrawStatus
    ensures told { Tells result (is_draw (map (λ w. w.now) words.now))
        (S.left source.old) (S.left source.new) (K.held sink.old) (K.held sink.new) }
    ensures read { result ≡ DrawStatus.ReadFault → Rose (S.faults source.old) (S.faults source.new) }
    ensures calm { result ≢ DrawStatus.ReadFault → S.faults source.new ≡ S.faults source.old }
    ensures write { result ≡ DrawStatus.WriteFault → Rose (K.faults sink.old) (K.faults sink.new) }

    // Of every text that has one the page is written, unless memory runs out or the outside fails.
    ensures complete { (text page : List ℕ) → S.left source.old ≡ Some text
        → is_draw (map (λ w. w.now) words.now) ≡ true → drawn_of text ≡ Ok page
        → ¬ Rose (S.faults source.old) (S.faults source.new) → ¬ Rose (K.faults sink.old) (K.faults sink.new)
        → (result ≡ DrawStatus.Done) ⊎ (result ≡ DrawStatus.NoMemory) }
{
    serve(alloc, words, source, sink)
}
