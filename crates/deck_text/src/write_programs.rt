ghost use Rattle.std.specs.Prelude.{◌++◌, List, ℕ};
ghost use Rattle.std.specs.List.{flat_map};
ghost use Rattle.ckd_outside.specs.Causes.{HasCause};
ghost use Rattle.ckd_outside.specs.Texts.{Puts, Writes};
ghost use Rattle.deck_text.specs.Canonical.{bytes_text, ccw_text, end_text, line_end, planned_text, word_text};
ghost use Rattle.deck_text.specs.Places.{planned_as};

use crate::write_lines::{write_end, write_program_line};
use ckd_ccw::Program;
use ckd_outside::{Failed, LineBuffer, Sink, Spelling, make_room, put_all, put_hex, put_text};
use ckd_types::{Ccw, DeviceNo, PathNo};

#[tactic(auto, unfolding(crate::specs::Canonical::word_text))]
fn write_word<K: Sink>(sink: &mut K, buffer: &mut LineBuffer, ccw: &Ccw) -> Result<(), Failed>
    ensures bytes { Puts (K.held sink.old) buffer.old (K.held sink.new) buffer.new result (word_text ccw.now) }
    ensures cause { HasCause (K.faults sink.old) (K.faults sink.new) result }
{
    make_room(sink, buffer, 30)?;
    buffer.put(b"CCW ");
    buffer.put_byte(ccw.command);
    buffer.put(b" ");
    buffer.put_byte(ccw.flags);
    buffer.put(b" ");
    buffer.put_number(u64::from(ccw.count));
    Ok(())
}

fn write_bytes<K: Sink>(sink: &mut K, buffer: &mut LineBuffer, bytes: &[u8]) -> Result<(), Failed>
    ensures bytes { Puts (K.held sink.old) buffer.old (K.held sink.new) buffer.new result (bytes_text bytes.now) }
    ensures cause { HasCause (K.faults sink.old) (K.faults sink.new) result }
{
    if bytes.is_empty() {
        return Ok(());
    }
    put_text(sink, buffer, b" ")?;
    put_hex(sink, buffer, bytes)
}

#[tactic(auto, unfolding(crate::specs::Canonical::line_end))]
fn write_line_end<K: Sink>(sink: &mut K, buffer: &mut LineBuffer) -> Result<(), Failed>
    ensures bytes { Puts (K.held sink.old) buffer.old (K.held sink.new) buffer.new result (line_end) }
    ensures cause { HasCause (K.faults sink.old) (K.faults sink.new) result }
{
    put_text(sink, buffer, b"\n")
}

fn write_behind_word<K: Sink>(
    sink: &mut K,
    buffer: &mut LineBuffer,
    bytes: &[u8],
) -> Result<(), Failed>
    ensures bytes { Puts (K.held sink.old) buffer.old (K.held sink.new) buffer.new result (bytes_text bytes.now ++ line_end) }
    ensures cause { HasCause (K.faults sink.old) (K.faults sink.new) result }
{
    write_bytes(sink, buffer, bytes)?;
    write_line_end(sink, buffer)
}

fn write_ccw<K: Sink>(sink: &mut K, buffer: &mut LineBuffer, ccw: &Ccw) -> Result<(), Failed>
    ensures bytes { Puts (K.held sink.old) buffer.old (K.held sink.new) buffer.new result (ccw_text ccw.now) }
    ensures cause { HasCause (K.faults sink.old) (K.faults sink.new) result }
{
    write_word(sink, buffer, ccw)?;
    write_behind_word(sink, buffer, ccw.given.as_slice())
}

/// How a channel command word is spelled in a deck.
pub struct CcwSpelling;

impl Spelling<Ccw> for CcwSpelling {
    ghost text = { ccw_text };

    fn put<K: Sink>(sink: &mut K, buffer: &mut LineBuffer, it: &Ccw) -> Result<(), Failed> {
        write_ccw(sink, buffer, it)
    }
}

fn write_behind_program<K: Sink>(
    sink: &mut K,
    buffer: &mut LineBuffer,
    ccws: &[Ccw],
) -> Result<(), Failed>
    ensures bytes { Puts (K.held sink.old) buffer.old (K.held sink.new) buffer.new result (flat_map ccw_text ccws.now ++ end_text) }
    ensures cause { HasCause (K.faults sink.old) (K.faults sink.new) result }
{
    put_all::<CcwSpelling, Ccw, K>(sink, buffer, ccws)?;
    write_end(sink, buffer)
}

/// PROGRAM, its CCWs and END.
pub fn write_planned<K: Sink>(
    sink: &mut K,
    buffer: &mut LineBuffer,
    path: PathNo,
    device: DeviceNo,
    program: &Program,
) -> Result<(), Failed>
    ensures bytes { Puts (K.held sink.old) buffer.old (K.held sink.new) buffer.new result (planned_text (planned_as path device program.now)) }
    ensures cause { HasCause (K.faults sink.old) (K.faults sink.new) result }
{
    write_program_line(sink, buffer, path, device)?;
    write_behind_program(sink, buffer, program.ccws())
}
