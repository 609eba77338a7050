ghost use Rattle.std.specs.Prelude.{◌≡◌, List, ℕ};
ghost use Rattle.ckd_outside.specs.Causes.{HasCause};
ghost use Rattle.ckd_outside.specs.Texts.{Puts, Writes};
ghost use Rattle.deck_text.specs.Canonical.{call_text, device_text, end_text, events_text, fault_text, geometry_number, head_text, program_text};

use crate::{DeviceLine, FaultLine};
use ckd_outside::{Failed, LineBuffer, Piece, Sink, write_pieces};
use ckd_types::{DeviceNo, Geometry, PathNo};

/// DECK, CACHE and STORE.
#[tactic(auto, unfolding(crate::specs::Canonical::head_text))]
pub fn write_head<K: Sink>(
    sink: &mut K,
    buffer: &mut LineBuffer,
    frames: u16,
    slots: u16,
) -> Result<(), Failed>
    ensures bytes { Puts (K.held sink.old) buffer.old (K.held sink.new) buffer.new result (head_text frames slots) }
    ensures cause { HasCause (K.faults sink.old) (K.faults sink.new) result }
{
    let pieces = [
        Piece::Text(b"DECK 1\nCACHE "),
        Piece::Number(u64::from(frames)),
        Piece::Text(b"\nSTORE "),
        Piece::Number(u64::from(slots)),
        Piece::Text(b"\n"),
    ];
    write_pieces(sink, buffer, &pieces)
}

fn geometry_number(geometry: Geometry) -> u64
    ensures { result ≡ geometry_number geometry }
{
    match geometry {
        Geometry::D3390 => 3390,
        Geometry::D3380 => 3380,
    }
}

/// A DEVICE line.
#[tactic(auto, unfolding(crate::specs::Canonical::device_text))]
pub fn write_device<K: Sink>(
    sink: &mut K,
    buffer: &mut LineBuffer,
    line: &DeviceLine,
) -> Result<(), Failed>
    ensures bytes { Puts (K.held sink.old) buffer.old (K.held sink.new) buffer.new result (device_text line.now) }
    ensures cause { HasCause (K.faults sink.old) (K.faults sink.new) result }
{
    let pieces = [
        Piece::Text(b"DEVICE "),
        Piece::Number(u64::from(line.number.get())),
        Piece::Text(b" "),
        Piece::Number(geometry_number(line.geometry)),
        Piece::Text(b" "),
        Piece::Number(u64::from(line.cylinders)),
        Piece::Text(b"\n"),
    ];
    write_pieces(sink, buffer, &pieces)
}

#[tactic(auto, unfolding(crate::specs::Canonical::call_text))]
fn call_text(write: bool) -> &'static [u8]
    ensures { result.now ≡ call_text write }
{
    if write { b" WRITE " } else { b" READ " }
}

/// A FAULT line.
#[tactic(auto, unfolding(crate::specs::Canonical::fault_text))]
pub fn write_fault<K: Sink>(
    sink: &mut K,
    buffer: &mut LineBuffer,
    line: &FaultLine,
) -> Result<(), Failed>
    ensures bytes { Puts (K.held sink.old) buffer.old (K.held sink.new) buffer.new result (fault_text line.now) }
    ensures cause { HasCause (K.faults sink.old) (K.faults sink.new) result }
{
    let pieces = [
        Piece::Text(b"FAULT "),
        Piece::Number(u64::from(line.device.get())),
        Piece::Text(call_text(line.write)),
        Piece::Number(u64::from(line.call)),
        Piece::Text(b"\n"),
    ];
    write_pieces(sink, buffer, &pieces)
}

/// A PROGRAM line, without its words.
#[tactic(auto, unfolding(crate::specs::Canonical::program_text))]
pub fn write_program_line<K: Sink>(
    sink: &mut K,
    buffer: &mut LineBuffer,
    path: PathNo,
    device: DeviceNo,
) -> Result<(), Failed>
    ensures bytes { Puts (K.held sink.old) buffer.old (K.held sink.new) buffer.new result (program_text path device) }
    ensures cause { HasCause (K.faults sink.old) (K.faults sink.new) result }
{
    let pieces = [
        Piece::Text(b"PROGRAM "),
        Piece::Number(u64::from(path.get())),
        Piece::Text(b" "),
        Piece::Number(u64::from(device.get())),
        Piece::Text(b"\n"),
    ];
    write_pieces(sink, buffer, &pieces)
}

/// An END line.
#[tactic(auto, unfolding(crate::specs::Canonical::end_text))]
pub fn write_end<K: Sink>(sink: &mut K, buffer: &mut LineBuffer) -> Result<(), Failed>
    ensures bytes { Puts (K.held sink.old) buffer.old (K.held sink.new) buffer.new result (end_text) }
    ensures cause { HasCause (K.faults sink.old) (K.faults sink.new) result }
{
    write_pieces(sink, buffer, &[Piece::Text(b"END\n")])
}

/// The EVENTS line, without its events.
#[tactic(auto, unfolding(crate::specs::Canonical::events_text))]
pub fn write_events_line<K: Sink>(sink: &mut K, buffer: &mut LineBuffer) -> Result<(), Failed>
    ensures bytes { Puts (K.held sink.old) buffer.old (K.held sink.new) buffer.new result (events_text) }
    ensures cause { HasCause (K.faults sink.old) (K.faults sink.new) result }
{
    write_pieces(sink, buffer, &[Piece::Text(b"EVENTS\n")])
}
