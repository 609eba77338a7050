ghost use Rattle.std.specs.Prelude.{List, ℕ};
ghost use Rattle.std.specs.List.{flat_map};
ghost use Rattle.ckd_outside.specs.Causes.{HasCause};
ghost use Rattle.ckd_outside.specs.Texts.{Puts, Writes};
ghost use Rattle.deck_text.specs.Canonical.{canonical, device_text, event_text, fault_text, from_devices};
ghost use Rattle.deck_text.specs.Canonical.{from_events, from_faults, from_programs, planned_text};

use crate::write_events::write_event;
use crate::write_lines::{write_device, write_events_line, write_fault, write_head};
use crate::write_programs::write_planned;
use crate::{Deck, DeviceLine, FaultLine};
use ckd_outside::{Failed, LineBuffer, Sink, Spelling, put_all, write_out};
use deck_plan::EventLine;

/// How a deck is spelled in its canonical text.
pub struct DeckSpelling;

impl Spelling<DeviceLine> for DeckSpelling {
    ghost text = { device_text };

    fn put<K: Sink>(sink: &mut K, buffer: &mut LineBuffer, it: &DeviceLine) -> Result<(), Failed> {
        write_device(sink, buffer, it)
    }
}

impl Spelling<FaultLine> for DeckSpelling {
    ghost text = { fault_text };

    fn put<K: Sink>(sink: &mut K, buffer: &mut LineBuffer, it: &FaultLine) -> Result<(), Failed> {
        write_fault(sink, buffer, it)
    }
}

impl Spelling<EventLine> for DeckSpelling {
    ghost text = { event_text };

    fn put<K: Sink>(sink: &mut K, buffer: &mut LineBuffer, it: &EventLine) -> Result<(), Failed> {
        write_event(sink, buffer, it)
    }
}

impl Spelling<Deck> for DeckSpelling {
    ghost text = { canonical };

    fn put<K: Sink>(sink: &mut K, buffer: &mut LineBuffer, it: &Deck) -> Result<(), Failed> {
        write_head(sink, buffer, it.frames(), it.slots())?;
        write_from_devices(sink, buffer, it)
    }
}

fn write_from_events<K: Sink>(
    sink: &mut K,
    buffer: &mut LineBuffer,
    deck: &Deck,
) -> Result<(), Failed>
    ensures bytes { Puts (K.held sink.old) buffer.old (K.held sink.new) buffer.new result (from_events deck.now) }
    ensures cause { HasCause (K.faults sink.old) (K.faults sink.new) result }
{
    write_events_line(sink, buffer)?;
    put_all::<DeckSpelling, EventLine, K>(sink, buffer, deck.schedule().as_slice())
}

fn write_programs<K: Sink>(sink: &mut K, buffer: &mut LineBuffer, deck: &Deck) -> Result<(), Failed>
    ensures bytes { Puts (K.held sink.old) buffer.old (K.held sink.new) buffer.new result (flat_map planned_text deck.now.programs) }
    ensures cause { HasCause (K.faults sink.old) (K.faults sink.new) result }
{
    for i in 0..deck.program_count() {
        let (path, device, program) = deck.program_at(i);
        write_planned(sink, buffer, path, device, program)?;
    }
    Ok(())
}

fn write_from_programs<K: Sink>(
    sink: &mut K,
    buffer: &mut LineBuffer,
    deck: &Deck,
) -> Result<(), Failed>
    ensures bytes { Puts (K.held sink.old) buffer.old (K.held sink.new) buffer.new result (from_programs deck.now) }
    ensures cause { HasCause (K.faults sink.old) (K.faults sink.new) result }
{
    write_programs(sink, buffer, deck)?;
    write_from_events(sink, buffer, deck)
}

fn write_from_faults<K: Sink>(
    sink: &mut K,
    buffer: &mut LineBuffer,
    deck: &Deck,
) -> Result<(), Failed>
    ensures bytes { Puts (K.held sink.old) buffer.old (K.held sink.new) buffer.new result (from_faults deck.now) }
    ensures cause { HasCause (K.faults sink.old) (K.faults sink.new) result }
{
    put_all::<DeckSpelling, FaultLine, K>(sink, buffer, deck.faults())?;
    write_from_programs(sink, buffer, deck)
}

fn write_from_devices<K: Sink>(
    sink: &mut K,
    buffer: &mut LineBuffer,
    deck: &Deck,
) -> Result<(), Failed>
    ensures bytes { Puts (K.held sink.old) buffer.old (K.held sink.new) buffer.new result (from_devices deck.now) }
    ensures cause { HasCause (K.faults sink.old) (K.faults sink.new) result }
{
    put_all::<DeckSpelling, DeviceLine, K>(sink, buffer, deck.devices())?;
    write_from_faults(sink, buffer, deck)
}

/// Writes the canonical text of a deck: its lines without those that were skipped, with one space
/// between words, upper case digits, and the bytes of a CCW in one word.
pub fn write_deck<K: Sink>(deck: &Deck, sink: &mut K) -> Result<(), Failed>
    ensures bytes { Writes (K.held sink.old) (K.held sink.new) result (canonical deck.now) }
    ensures cause { HasCause (K.faults sink.old) (K.faults sink.new) result }
{
    write_out::<DeckSpelling, Deck, K>(sink, deck)
}
