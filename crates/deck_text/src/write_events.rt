ghost use Rattle.std.specs.Prelude.{◌≡◌, List, ℕ};
ghost use Rattle.ckd_outside.specs.Causes.{HasCause};
ghost use Rattle.ckd_outside.specs.Texts.{Puts, Writes};
ghost use Rattle.deck_text.specs.Canonical.{event_text, side_text, with_one, with_side, with_two};

use ckd_outside::{Failed, LineBuffer, Piece, Sink, write_pieces};
use ckd_types::{DeviceNo, Side};
use deck_plan::EventLine;

#[tactic(auto, unfolding(crate::specs::Canonical::with_one))]
fn write_one<K: Sink>(
    sink: &mut K,
    buffer: &mut LineBuffer,
    text: &[u8],
    a: DeviceNo,
) -> Result<(), Failed>
    ensures bytes { Puts (K.held sink.old) buffer.old (K.held sink.new) buffer.new result (with_one text.now a) }
    ensures cause { HasCause (K.faults sink.old) (K.faults sink.new) result }
{
    let pieces = [
        Piece::Text(text),
        Piece::Number(u64::from(a.get())),
        Piece::Text(b"\n"),
    ];
    write_pieces(sink, buffer, &pieces)
}

#[tactic(auto, unfolding(crate::specs::Canonical::with_two))]
fn write_two<K: Sink>(
    sink: &mut K,
    buffer: &mut LineBuffer,
    text: &[u8],
    a: u8,
    b: DeviceNo,
) -> Result<(), Failed>
    ensures bytes { Puts (K.held sink.old) buffer.old (K.held sink.new) buffer.new result (with_two text.now a b) }
    ensures cause { HasCause (K.faults sink.old) (K.faults sink.new) result }
{
    let pieces = [
        Piece::Text(text),
        Piece::Number(u64::from(a)),
        Piece::Text(b" "),
        Piece::Number(u64::from(b.get())),
        Piece::Text(b"\n"),
    ];
    write_pieces(sink, buffer, &pieces)
}

#[tactic(auto, unfolding(crate::specs::Canonical::side_text))]
fn side_text(side: Side) -> &'static [u8]
    ensures { result.now ≡ side_text side }
{
    match side {
        Side::A => b" A\n",
        Side::B => b" B\n",
    }
}

#[tactic(auto, unfolding(crate::specs::Canonical::with_side))]
fn write_side<K: Sink>(
    sink: &mut K,
    buffer: &mut LineBuffer,
    text: &[u8],
    a: DeviceNo,
    side: Side,
) -> Result<(), Failed>
    ensures bytes { Puts (K.held sink.old) buffer.old (K.held sink.new) buffer.new result (with_side text.now a side) }
    ensures cause { HasCause (K.faults sink.old) (K.faults sink.new) result }
{
    let pieces = [
        Piece::Text(text),
        Piece::Number(u64::from(a.get())),
        Piece::Text(side_text(side)),
    ];
    write_pieces(sink, buffer, &pieces)
}

/// An event line.
#[tactic(auto, unfolding(crate::specs::Canonical::event_text))]
pub fn write_event<K: Sink>(
    sink: &mut K,
    buffer: &mut LineBuffer,
    event: &EventLine,
) -> Result<(), Failed>
    ensures bytes { Puts (K.held sink.old) buffer.old (K.held sink.new) buffer.new result (event_text event.now) }
    ensures cause { HasCause (K.faults sink.old) (K.faults sink.new) result }
{
    match *event {
        EventLine::Start(path, device) => write_two(sink, buffer, b"START ", path.get(), device),
        EventLine::Step(device) => write_one(sink, buffer, b"STEP ", device),
        EventLine::Run(device) => write_one(sink, buffer, b"RUN ", device),
        EventLine::Back(device) => write_one(sink, buffer, b"BACK ", device),
        EventLine::Settle(device) => write_one(sink, buffer, b"SETTLE ", device),
        EventLine::Reset(path, device) => write_two(sink, buffer, b"RESET ", path.get(), device),
        EventLine::FailCache => write_pieces(sink, buffer, &[Piece::Text(b"FAIL CACHE\n")]),
        EventLine::FailStore => write_pieces(sink, buffer, &[Piece::Text(b"FAIL STORE\n")]),
        EventLine::FailVolume(device, side) => write_side(
            sink,
            buffer,
            b"FAIL VOLUME ",
            device,
            side,
        ),
        EventLine::RepairCache => write_pieces(sink, buffer, &[Piece::Text(b"REPAIR CACHE\n")]),
        EventLine::RepairStore => write_pieces(sink, buffer, &[Piece::Text(b"REPAIR STORE\n")]),
        EventLine::Replace(device, side) => write_side(sink, buffer, b"REPLACE ", device, side),
        EventLine::Pair(first, second) => write_two(sink, buffer, b"PAIR ", first.get(), second),
        EventLine::Unpair(device) => write_one(sink, buffer, b"UNPAIR ", device),
        EventLine::Suspend(device) => write_one(sink, buffer, b"SUSPEND ", device),
        EventLine::Resume(device) => write_one(sink, buffer, b"RESUME ", device),
        EventLine::Power => write_pieces(sink, buffer, &[Piece::Text(b"POWER\n")]),
    }
}
