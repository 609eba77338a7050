ghost use Rattle.std.specs.Prelude.{◌≡◌, ◌≤◌, ◌++◌, ◌∷◌, [], List, ℕ, codes, decimal, map};
ghost use Rattle.hex.specs.Hex.{encode_upper};
ghost use Rattle.ckd_outside.specs.Causes.{HasCause};
ghost use Rattle.ckd_outside.specs.Texts.{Puts, buffer_size};
ghost use Rattle.report_text.specs.Keywords.{keyword_text};
ghost use Rattle.report_text.specs.Words.{all_spaced, spaced};

use crate::{Keyword, keyword_text};
use ckd_outside::{
    Failed, LineBuffer, Piece, PieceSpelling, Sink, Spelling, make_room, put_all, put_hex,
    put_text, write_pieces,
};

/// What stands in a line behind its first words: some words more.
pub trait Words {
    ghost words: { Self → List (List ℕ) };

    /// Puts the words, with a space before each.
    fn put<K: Sink>(&self, sink: &mut K, buffer: &mut LineBuffer) -> Result<(), Failed>
        ensures bytes { Puts (K.held sink.old) buffer.old (K.held sink.new) buffer.new result (all_spaced (words self.now)) }
        ensures cause { HasCause (K.faults sink.old) (K.faults sink.new) result };
}

/// How a number is spelled as a word behind another.
struct NumberSpelling;

impl Spelling<u64> for NumberSpelling {
    ghost text = { λ n. spaced (decimal n) };

    fn put<K: Sink>(sink: &mut K, buffer: &mut LineBuffer, it: &u64) -> Result<(), Failed> {
        make_room(sink, buffer, 21)?;
        buffer.put(b" ");
        buffer.put_number(*it);
        Ok(())
    }
}

/// Puts numbers, with a space before each.
pub fn put_numbers<K: Sink>(
    sink: &mut K,
    buffer: &mut LineBuffer,
    numbers: &[u64],
) -> Result<(), Failed>
    ensures bytes { Puts (K.held sink.old) buffer.old (K.held sink.new) buffer.new result (all_spaced (map decimal numbers.now)) }
    ensures cause { HasCause (K.faults sink.old) (K.faults sink.new) result }
{
    put_all::<NumberSpelling, u64, K>(sink, buffer, numbers)?;
    Ok(())
}

/// Puts numbers, and then words.
pub fn put_behind<W: Words, K: Sink>(
    sink: &mut K,
    buffer: &mut LineBuffer,
    numbers: &[u64],
    words: &W,
) -> Result<(), Failed>
    ensures bytes { Puts (K.held sink.old) buffer.old (K.held sink.new) buffer.new result (all_spaced (map decimal numbers.now ++ W.words words.now)) }
    ensures cause { HasCause (K.faults sink.old) (K.faults sink.new) result }
{
    put_numbers(sink, buffer, numbers)?;
    words.put(sink, buffer)
}

/// Puts a keyword behind other words.
pub fn put_key<K: Sink>(sink: &mut K, buffer: &mut LineBuffer, key: Keyword) -> Result<(), Failed>
    ensures bytes { Puts (K.held sink.old) buffer.old (K.held sink.new) buffer.new result (all_spaced (keyword_text key ∷ [])) }
    ensures cause { HasCause (K.faults sink.old) (K.faults sink.new) result }
{
    write_pieces(
        sink,
        buffer,
        &[Piece::Text(b" "), Piece::Text(keyword_text(key))],
    )
}

/// Puts a keyword and a number.
pub fn put_count<K: Sink>(
    sink: &mut K,
    buffer: &mut LineBuffer,
    key: Keyword,
    n: u64,
) -> Result<(), Failed>
    ensures bytes { Puts (K.held sink.old) buffer.old (K.held sink.new) buffer.new result (all_spaced (keyword_text key ∷ decimal n ∷ [])) }
    ensures cause { HasCause (K.faults sink.old) (K.faults sink.new) result }
{
    let pieces = [
        Piece::Text(b" "),
        Piece::Text(keyword_text(key)),
        Piece::Text(b" "),
        Piece::Number(n),
    ];
    write_pieces(sink, buffer, &pieces)
}

/// Puts a keyword, and then words.
pub fn put_key_and<W: Words, K: Sink>(
    sink: &mut K,
    buffer: &mut LineBuffer,
    key: Keyword,
    words: &W,
) -> Result<(), Failed>
    ensures bytes { Puts (K.held sink.old) buffer.old (K.held sink.new) buffer.new result (all_spaced (keyword_text key ∷ W.words words.now)) }
    ensures cause { HasCause (K.faults sink.old) (K.faults sink.new) result }
{
    put_key(sink, buffer, key)?;
    words.put(sink, buffer)
}

/// A keyword as the only word.
#[derive(Clone, Copy)]
pub struct KeyWord(pub Keyword);

impl Words for KeyWord {
    ghost words = { λ w. keyword_text w.0 ∷ [] };

    fn put<K: Sink>(&self, sink: &mut K, buffer: &mut LineBuffer) -> Result<(), Failed> {
        put_key(sink, buffer, self.0)
    }
}

/// Bytes as one word of digits.
#[derive(Clone, Copy)]
pub struct HexWord<'a>(pub &'a [u8]);

impl<'a> Words for HexWord<'a> {
    ghost words = { λ w. encode_upper w.0.now ∷ [] };

    fn put<K: Sink>(&self, sink: &mut K, buffer: &mut LineBuffer) -> Result<(), Failed> {
        put_text(sink, buffer, b" ")?;
        put_hex(sink, buffer, self.0)
    }
}

/// Puts a line of its keyword and its words.
pub fn put_line<W: Words, K: Sink>(
    sink: &mut K,
    buffer: &mut LineBuffer,
    key: Keyword,
    words: &W,
) -> Result<(), Failed>
    ensures bytes { Puts (K.held sink.old) buffer.old (K.held sink.new) buffer.new result ((keyword_text key ++ all_spaced (W.words words.now)) ++ codes "\n") }
    ensures cause { HasCause (K.faults sink.old) (K.faults sink.new) result }
{
    PieceSpelling::put(sink, buffer, &Piece::Text(keyword_text(key)))?;
    words.put(sink, buffer)?;
    put_text(sink, buffer, b"\n")
}

/// Puts a line that is written often: its keyword is given as text of a known length.
pub fn put_often<const N: usize, W: Words, K: Sink>(
    sink: &mut K,
    buffer: &mut LineBuffer,
    key: &[u8; N],
    words: &W,
) -> Result<(), Failed>
    requires short { N ≤ buffer_size }
    ensures bytes { Puts (K.held sink.old) buffer.old (K.held sink.new) buffer.new result ((key.now ++ all_spaced (W.words words.now)) ++ codes "\n") }
    ensures cause { HasCause (K.faults sink.old) (K.faults sink.new) result }
{
    put_text(sink, buffer, key)?;
    words.put(sink, buffer)?;
    put_text(sink, buffer, b"\n")
}
