ghost use Rattle.std.specs.Prelude.{◌≡◌};
ghost use Rattle.std.specs.List.{flat_map};
ghost use Rattle.ckd_outside.specs.Causes.{HasCause};
ghost use Rattle.ckd_outside.specs.Pieces.{piece_text};
ghost use Rattle.ckd_outside.specs.Texts.{Writes};
ghost use Rattle.report_audit.specs.AuditTexts.{no_report_text, no_text, usage_text, why_text, yes_text};

use ckd_outside::{Failed, LineBuffer, Piece, Sink, flush, write_pieces};
use deck_audit::AuditWhy;

fn why_text(why: AuditWhy) -> &'static [u8]
    ensures { result.now ≡ why_text why }
{
    match why {
        AuditWhy::Form => b"form",
        AuditWhy::Place => b"place",
        AuditWhy::History => b"history",
    }
}

/// Writes a line by itself.
fn write_line<K: Sink>(sink: &mut K, pieces: &[Piece]) -> Result<(), Failed>
    ensures bytes { Writes (K.held sink.old) (K.held sink.new) result (flat_map piece_text pieces.now) }
    ensures cause { HasCause (K.faults sink.old) (K.faults sink.new) result }
{
    let mut buffer = LineBuffer::new();
    write_pieces(sink, &mut buffer, pieces)?;
    flush(sink, &mut buffer)
}

/// Writes what is said of a report that a plain device could have made.
#[tactic(auto, unfolding(crate::specs::AuditTexts::yes_text))]
pub fn write_yes<K: Sink>(sink: &mut K) -> Result<(), Failed>
    ensures bytes { Writes (K.held sink.old) (K.held sink.new) result yes_text }
    ensures cause { HasCause (K.faults sink.old) (K.faults sink.new) result }
{
    let pieces = [Piece::Text(b"audit yes\n")];
    write_line(sink, &pieces)
}

/// Writes a report's first bad line, from 1 on, and what it shows.
#[tactic(auto, unfolding(crate::specs::AuditTexts::no_text))]
pub fn write_no<K: Sink>(sink: &mut K, line: u32, why: AuditWhy) -> Result<(), Failed>
    ensures bytes { Writes (K.held sink.old) (K.held sink.new) result (no_text line why) }
    ensures cause { HasCause (K.faults sink.old) (K.faults sink.new) result }
{
    let pieces = [
        Piece::Text(b"audit line "),
        Piece::Number(u64::from(line)),
        Piece::Text(b": "),
        Piece::Text(why_text(why)),
        Piece::Text(b"\n"),
    ];
    write_line(sink, &pieces)
}

/// Writes that no line is exactly `REPORT`.
#[tactic(auto, unfolding(crate::specs::AuditTexts::no_report_text))]
pub fn write_no_report<K: Sink>(sink: &mut K) -> Result<(), Failed>
    ensures bytes { Writes (K.held sink.old) (K.held sink.new) result no_report_text }
    ensures cause { HasCause (K.faults sink.old) (K.faults sink.new) result }
{
    let pieces = [Piece::Text(b"audit: no report\n")];
    write_line(sink, &pieces)
}

/// Writes which words the program takes.
#[tactic(auto, unfolding(crate::specs::AuditTexts::usage_text))]
pub fn write_usage<K: Sink>(sink: &mut K) -> Result<(), Failed>
    ensures bytes { Writes (K.held sink.old) (K.held sink.new) result usage_text }
    ensures cause { HasCause (K.faults sink.old) (K.faults sink.new) result }
{
    let pieces = [Piece::Text(b"usage: audit\n")];
    write_line(sink, &pieces)
}
