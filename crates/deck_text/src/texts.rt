ghost use Rattle.std.specs.Prelude.{◌≡◌};
ghost use Rattle.std.specs.List.{flat_map};
ghost use Rattle.ckd_outside.specs.Causes.{HasCause};
ghost use Rattle.ckd_outside.specs.Pieces.{piece_text};
ghost use Rattle.ckd_outside.specs.Texts.{Writes};
ghost use Rattle.deck_text.specs.Texts.{limit_text, refused_text, which_text, why_text};

use crate::{DeckWhy, Which};
use ckd_outside::{Failed, LineBuffer, Piece, Sink, flush, write_pieces};

/// Writes a line by itself.
pub fn write_line<K: Sink>(sink: &mut K, pieces: &[Piece]) -> Result<(), Failed>
    ensures bytes { Writes (K.held sink.old) (K.held sink.new) result (flat_map piece_text pieces.now) }
    ensures cause { HasCause (K.faults sink.old) (K.faults sink.new) result }
{
    let mut buffer = LineBuffer::new();
    write_pieces(sink, &mut buffer, pieces)?;
    flush(sink, &mut buffer)
}

fn why_text(why: DeckWhy) -> &'static [u8]
    ensures { result.now ≡ why_text why }
{
    match why {
        DeckWhy::Byte => b"byte",
        DeckWhy::Word => b"word",
        DeckWhy::Order => b"order",
        DeckWhy::Words => b"words",
        DeckWhy::Number => b"number",
        DeckWhy::Hex => b"hex",
        DeckWhy::Program => b"program",
        DeckWhy::Unfinished => b"unfinished",
    }
}

/// Writes the first line of a deck that is refused, from 1 on, and its first reason.
#[tactic(auto, unfolding(crate::specs::Texts::refused_text))]
pub fn write_refused<K: Sink>(sink: &mut K, line: u32, why: DeckWhy) -> Result<(), Failed>
    ensures bytes { Writes (K.held sink.old) (K.held sink.new) result (refused_text line why) }
    ensures cause { HasCause (K.faults sink.old) (K.faults sink.new) result }
{
    let pieces = [
        Piece::Text(b"deck line "),
        Piece::Number(u64::from(line)),
        Piece::Text(b": "),
        Piece::Text(why_text(why)),
        Piece::Text(b"\n"),
    ];
    write_line(sink, &pieces)
}

fn which_text(which: Which) -> &'static [u8]
    ensures { result.now ≡ which_text which }
{
    match which {
        Which::Size => b"size",
        Which::Programs => b"programs",
        Which::Events => b"events",
        Which::Faults => b"faults",
    }
}

/// Writes the limit that a text passes.
#[tactic(auto, unfolding(crate::specs::Texts::limit_text))]
pub fn write_limit<K: Sink>(sink: &mut K, which: Which) -> Result<(), Failed>
    ensures bytes { Writes (K.held sink.old) (K.held sink.new) result (limit_text which) }
    ensures cause { HasCause (K.faults sink.old) (K.faults sink.new) result }
{
    let pieces = [
        Piece::Text(b"limit: "),
        Piece::Text(which_text(which)),
        Piece::Text(b"\n"),
    ];
    write_line(sink, &pieces)
}
