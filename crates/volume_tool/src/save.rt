ghost use Rattle.std.specs.Prelude.{◌≡◌, ◌≢◌, ◌≤◌, ℕ, Ok, Err, true};
ghost use Rattle.ckd_outside.specs.Causes.{Rose, HasCause};
ghost use Rattle.ckd_outside.specs.Texts.{Writes};
ghost use Rattle.deck_text.specs.Parse.{parsed};
ghost use Rattle.deck_run.specs.Opening.{WasRead};
ghost use Rattle.volume_file.specs.File.{file_of};
ghost use Rattle.volume_save.specs.Devices.{is_declared};
ghost use Rattle.volume_tool.specs.Save.{device_text, half_text, lent_text, lost_text, side_fault_text, side_text};
ghost use Rattle.volume_tool.specs.Save.{TellsDeck, TellsSave, TellsWhy};
ghost use Rattle.volume_tool.specs.Written.{IsWritten};
ghost use Rattle.volume_tool.specs.Answers.{WriteFaultHasCause};

use crate::top::VolumeStatus;
use ckd_outside::{Failed, Piece, ReadError, Sink, Source, read_up_to};
use ckd_types::{DeviceNo, Side, TrackNo};
use deck_text::{
    Deck, DeckFault, DeckWhy, Which, read_deck, write_limit, write_line, write_refused,
};
use std::alloc::Global;
use volume_file::{FileVolume, save};
use volume_save::{Unsaved, declared, saved_behind};

/// One byte more than a deck may have.
const MOST_READ: usize = 16_777_217;

fn side_text(side: Side) -> &'static [u8]
    ensures { result.now ≡ side_text side }
{
    match side {
        Side::A => b"A",
        Side::B => b"B",
    }
}

#[tactic(auto, unfolding(crate::specs::Save::lost_text))]
fn write_lost<K: Sink>(sink: &mut K, t: TrackNo) -> Result<(), Failed>
    ensures bytes { Writes (K.held sink.old) (K.held sink.new) result (lost_text t) }
    ensures cause { HasCause (K.faults sink.old) (K.faults sink.new) result }
{
    let pieces = [
        Piece::Text(b"not saved: lost "),
        Piece::Number(u64::from(t.get())),
        Piece::Text(b"\n"),
    ];
    write_line(sink, &pieces)
}

#[tactic(auto, unfolding(crate::specs::Save::side_fault_text))]
fn write_fault<K: Sink>(sink: &mut K, side: Side) -> Result<(), Failed>
    ensures bytes { Writes (K.held sink.old) (K.held sink.new) result (side_fault_text side) }
    ensures cause { HasCause (K.faults sink.old) (K.faults sink.new) result }
{
    let pieces = [
        Piece::Text(b"not saved: fault "),
        Piece::Text(side_text(side)),
        Piece::Text(b"\n"),
    ];
    write_line(sink, &pieces)
}

#[tactic(auto, unfolding(crate::specs::Save::device_text))]
fn undeclared<K: Sink>(sink: &mut K) -> VolumeStatus
    ensures told { IsWritten result VolumeStatus.Device (K.held sink.old) (K.held sink.new) device_text }
    ensures later { K.faults sink.old ≤ K.faults sink.new }
    ensures write { WriteFaultHasCause result (K.faults sink.old) (K.faults sink.new) }
{
    match write_line(sink, &[Piece::Text(b"not saved: device\n")]) {
        Ok(()) => VolumeStatus::Device,
        Err(_) => VolumeStatus::WriteFault,
    }
}

#[tactic(auto, unfolding(crate::specs::Save::lent_text))]
fn lent<K: Sink>(sink: &mut K) -> VolumeStatus
    ensures told { IsWritten result VolumeStatus.Lent (K.held sink.old) (K.held sink.new) lent_text }
    ensures later { K.faults sink.old ≤ K.faults sink.new }
    ensures write { WriteFaultHasCause result (K.faults sink.old) (K.faults sink.new) }
{
    match write_line(sink, &[Piece::Text(b"not saved: lent\n")]) {
        Ok(()) => VolumeStatus::Lent,
        Err(_) => VolumeStatus::WriteFault,
    }
}

#[tactic(auto, unfolding(crate::specs::Save::half_text))]
fn half<K: Sink>(sink: &mut K) -> VolumeStatus
    ensures told { IsWritten result VolumeStatus.Half (K.held sink.old) (K.held sink.new) half_text }
    ensures later { K.faults sink.old ≤ K.faults sink.new }
    ensures write { WriteFaultHasCause result (K.faults sink.old) (K.faults sink.new) }
{
    match write_line(sink, &[Piece::Text(b"not saved: half\n")]) {
        Ok(()) => VolumeStatus::Half,
        Err(_) => VolumeStatus::WriteFault,
    }
}

fn lost<K: Sink>(sink: &mut K, t: TrackNo) -> VolumeStatus
    ensures told { IsWritten result (VolumeStatus.Lost t) (K.held sink.old) (K.held sink.new) (lost_text t) }
    ensures later { K.faults sink.old ≤ K.faults sink.new }
    ensures write { WriteFaultHasCause result (K.faults sink.old) (K.faults sink.new) }
{
    match write_lost(sink, t) {
        Ok(()) => VolumeStatus::Lost(t),
        Err(_) => VolumeStatus::WriteFault,
    }
}

fn fault<K: Sink>(sink: &mut K, side: Side) -> VolumeStatus
    ensures told { IsWritten result (VolumeStatus.Fault side) (K.held sink.old) (K.held sink.new) (side_fault_text side) }
    ensures later { K.faults sink.old ≤ K.faults sink.new }
    ensures write { WriteFaultHasCause result (K.faults sink.old) (K.faults sink.new) }
{
    match write_fault(sink, side) {
        Ok(()) => VolumeStatus::Fault(side),
        Err(_) => VolumeStatus::WriteFault,
    }
}

/// Tells why a volume isn't saved.
fn refuse<K: Sink>(sink: &mut K, why: Unsaved) -> VolumeStatus
    ensures told { TellsWhy result why (K.held sink.old) (K.held sink.new) }
    ensures later { K.faults sink.old ≤ K.faults sink.new }
    ensures write { WriteFaultHasCause result (K.faults sink.old) (K.faults sink.new) }
{
    match why {
        Unsaved::Lent => lent(sink),
        Unsaved::Half => half(sink),
        Unsaved::Lost(t) => lost(sink, t),
        Unsaved::Fault(side) => fault(sink, side),
        Unsaved::NoMemory => VolumeStatus::NoMemory,
    }
}

fn write<K: Sink>(sink: &mut K, volume: &FileVolume) -> VolumeStatus
    ensures told { IsWritten result VolumeStatus.Done (K.held sink.old) (K.held sink.new) (file_of volume.now) }
    ensures later { K.faults sink.old ≤ K.faults sink.new }
    ensures write { WriteFaultHasCause result (K.faults sink.old) (K.faults sink.new) }
{
    match save(volume, sink) {
        Ok(()) => VolumeStatus::Done,
        Err(_) => VolumeStatus::WriteFault,
    }
}

fn save_device<K: Sink>(alloc: Global, deck: &Deck, d: DeviceNo, sink: &mut K) -> VolumeStatus
    requires read { WasRead deck.now }
    requires here { is_declared deck.now d ≡ true }
    ensures told { TellsDeck result d (Ok deck.now) (K.held sink.old) (K.held sink.new) }
    ensures later { K.faults sink.old ≤ K.faults sink.new }
    ensures write { WriteFaultHasCause result (K.faults sink.old) (K.faults sink.new) }
{
    match saved_behind(alloc, deck, d) {
        Ok(volume) => write(sink, &volume),
        Err(why) => refuse(sink, why),
    }
}

fn save_deck<K: Sink>(alloc: Global, deck: &Deck, n: u64, sink: &mut K) -> VolumeStatus
    requires { WasRead deck.now }
    ensures told { TellsDeck result n (Ok deck.now) (K.held sink.old) (K.held sink.new) }
    ensures later { K.faults sink.old ≤ K.faults sink.new }
    ensures write { WriteFaultHasCause result (K.faults sink.old) (K.faults sink.new) }
{
    match declared(deck, n) {
        Some(d) => save_device(alloc, deck, d, sink),
        None => undeclared(sink),
    }
}

fn deck_refused<K: Sink>(sink: &mut K, line: u32, why: DeckWhy) -> VolumeStatus
    ensures told { (n : ℕ) → TellsDeck result n (Err (DeckFault.Refused line why)) (K.held sink.old) (K.held sink.new) }
    ensures later { K.faults sink.old ≤ K.faults sink.new }
    ensures write { WriteFaultHasCause result (K.faults sink.old) (K.faults sink.new) }
{
    match write_refused(sink, line, why) {
        Ok(()) => VolumeStatus::DeckRefused { line, why },
        Err(_) => VolumeStatus::WriteFault,
    }
}

fn limit<K: Sink>(sink: &mut K, which: Which) -> VolumeStatus
    ensures told { (n : ℕ) → TellsDeck result n (Err (DeckFault.Limit which)) (K.held sink.old) (K.held sink.new) }
    ensures later { K.faults sink.old ≤ K.faults sink.new }
    ensures write { WriteFaultHasCause result (K.faults sink.old) (K.faults sink.new) }
{
    match write_limit(sink, which) {
        Ok(()) => VolumeStatus::Limit(which),
        Err(_) => VolumeStatus::WriteFault,
    }
}

fn answer<K: Sink>(alloc: Global, text: &[u8], n: u64, sink: &mut K) -> VolumeStatus
    ensures told { TellsDeck result n (parsed text.now) (K.held sink.old) (K.held sink.new) }
    ensures later { K.faults sink.old ≤ K.faults sink.new }
    ensures write { WriteFaultHasCause result (K.faults sink.old) (K.faults sink.new) }
{
    match read_deck(alloc, text) {
        Ok(deck) => save_deck(alloc, &deck, n, sink),
        Err(DeckFault::Refused { line, why }) => deck_refused(sink, line, why),
        Err(DeckFault::Limit(which)) => limit(sink, which),
        Err(DeckFault::NoMemory) => VolumeStatus::NoMemory,
    }
}

/// Reads a deck, runs it, and writes the file of a device; nothing is written before the last look at a track.
pub(crate) fn serve_save<S: Source, K: Sink>(
    alloc: Global,
    n: u64,
    source: &mut S,
    sink: &mut K,
) -> VolumeStatus
    ensures told { TellsSave result n (S.left source.old) (S.left source.new) (K.held sink.old) (K.held sink.new) }
    ensures read { result ≡ VolumeStatus.ReadFault → Rose (S.faults source.old) (S.faults source.new) }
    ensures calm { result ≢ VolumeStatus.ReadFault → S.faults source.new ≡ S.faults source.old }
    ensures write { WriteFaultHasCause result (K.faults sink.old) (K.faults sink.new) }
{
    match read_up_to(alloc, source, MOST_READ) {
        Ok(text) => answer(alloc, &text, n, sink),
        Err(ReadError::Failed) => VolumeStatus::ReadFault,
        Err(ReadError::NoMemory) => VolumeStatus::NoMemory,
    }
}
