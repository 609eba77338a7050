ghost use Rattle.std.specs.Prelude.{◌≡◌, [], Some, IfOk, string_bytes};
ghost use Rattle.std.specs.Str.{bytes_eq};
ghost use Rattle.ckd_outside.specs.Causes.{HasCause};
ghost use Rattle.ckd_outside.specs.Texts.{Puts, Writes};
ghost use Rattle.report_text.specs.Lines.{text_of};

use crate::line::key_of;
use crate::words::Words;
use crate::{ReportLine, keyword_text};
use ckd_outside::{Failed, LineBuffer, Piece, PieceSpelling, Sink, Spelling, flush};
use ckd_types::NoMemory;
use std::alloc::Global;
use std::marker::Model;

/// A sink that grows as it takes, and fails where memory is wanting.
#[derive(Drop)]
struct Spelled {
    bytes: Vec<u8>,
    faults: u64,
}

impl Sink for Spelled {
    ghost held = { λ s. Some s.bytes.items };

    ghost faults = { λ s. s.faults };

    fn write(&mut self, piece: &[u8]) -> Result<usize, Failed> {
        match self.bytes.extend_from_slice(piece) {
            Ok(()) => Ok(piece.len()),
            Err(_) => {
                self.faults = self.faults.saturating_add(1);
                Err(Failed)
            }
        }
    }
}

/// How a line is spelled without its line feed.
struct TextSpelling;

impl Spelling<ReportLine> for TextSpelling {
    ghost text = { text_of };

    #[tactic(auto, unfolding(crate::specs::Lines::text_of))]
    fn put<K: Sink>(sink: &mut K, buffer: &mut LineBuffer, it: &ReportLine) -> Result<(), Failed> {
        PieceSpelling::put(sink, buffer, &Piece::Text(keyword_text(key_of(it))))?;
        it.put(sink, buffer)
    }
}

/// Writes a line without its line feed through a buffer in which nothing waits, to its end.
fn write_text<K: Sink>(
    sink: &mut K,
    buffer: &mut LineBuffer,
    line: &ReportLine,
) -> Result<(), Failed>
    requires none { buffer.old ≡ [] }
    ensures bytes { Writes (K.held sink.old) (K.held sink.new) result (text_of line.now) }
    ensures empty { buffer.new ≡ [] }
{
    TextSpelling::put(sink, buffer, line)?;
    flush(sink, buffer)
}

/// Spells lines again, to compare them with texts. What it takes memory for serves one line after another.
#[derive(Drop)]
pub struct Respelling {
    spelled: Spelled,
    buffer: LineBuffer,
}

impl Model for Respelling {
    ghost use Rattle.std.specs.Prelude.{◌≡◌, []};

    ghost Value = { Unit {0} };

    ghost view = { λ _. tt };

    ghost invariant = { λ r. r.buffer ≡ [] };
}

impl Respelling {
    /// Nothing is spelled yet, and no memory is taken.
    pub fn new(alloc: Global) -> Respelling {
        let bytes = Vec::new(alloc);
        Respelling {
            spelled: Spelled { bytes, faults: 0 },
            buffer: LineBuffer::new(),
        }
    }

    /// Whether a text is a line's.
    pub fn is_text_of(&mut self, line: &ReportLine, text: &[u8]) -> Result<bool, NoMemory>
        ensures { IfOk result (λ is. is ≡ bytes_eq (text_of line.now) text.now) }
    {
        self.spelled.bytes.clear();
        match write_text(&mut self.spelled, &mut self.buffer, line) {
            Ok(()) => Ok(self.spelled.bytes.as_slice() == text),
            Err(_) => Err(NoMemory),
        }
    }
}
