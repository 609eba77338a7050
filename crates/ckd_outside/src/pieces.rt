ghost use Rattle.std.specs.Prelude.{◌≡◌, ◌∷◌, ◌++◌, [], List, ℕ, decimal};
ghost use Rattle.std.specs.List.{flat_map};
ghost use Rattle.hex.specs.Hex.{encode_upper};
ghost use Rattle.ckd_outside.specs.Causes.{HasCause};
ghost use Rattle.ckd_outside.specs.Texts.{Puts};
ghost use Rattle.ckd_outside.specs.Pieces.{piece_text};

use crate::{Failed, LineBuffer, Sink, Spelling, make_room, put_all};

/// A piece of a line: a text, a decimal number, or bytes as upper case hex digits.
#[derive(Clone, Copy)]
pub enum Piece<'a> {
    Text(&'a [u8]),
    Number(u64),
    Byte(u8),
    Hex(&'a [u8]),
}

fn write_text<K: Sink>(sink: &mut K, buffer: &mut LineBuffer, text: &[u8]) -> Result<(), Failed>
    ensures bytes { Puts (K.held sink.old) buffer.old (K.held sink.new) buffer.new result text.now }
    ensures cause { HasCause (K.faults sink.old) (K.faults sink.new) result }
{
    let mut rest = text;
    while !rest.is_empty() {
        make_room(sink, buffer, 1)?;
        let count = buffer.take_in(rest);
        rest = &rest[count..];
    }
    Ok(())
}

/// Puts the digits of bytes, as many as the buffer has room for at a time.
pub fn put_hex<K: Sink>(sink: &mut K, buffer: &mut LineBuffer, bytes: &[u8]) -> Result<(), Failed>
    ensures bytes { Puts (K.held sink.old) buffer.old (K.held sink.new) buffer.new result (encode_upper bytes.now) }
    ensures cause { HasCause (K.faults sink.old) (K.faults sink.new) result }
{
    let mut rest = bytes;
    while !rest.is_empty() {
        make_room(sink, buffer, 2)?;
        let count = buffer.take_hex(rest);
        rest = &rest[count..];
    }
    Ok(())
}

fn write_number<K: Sink>(sink: &mut K, buffer: &mut LineBuffer, n: u64) -> Result<(), Failed>
    ensures bytes { Puts (K.held sink.old) buffer.old (K.held sink.new) buffer.new result (decimal n) }
    ensures cause { HasCause (K.faults sink.old) (K.faults sink.new) result }
{
    make_room(sink, buffer, 20)?;
    buffer.put_number(n);
    Ok(())
}

fn write_byte<K: Sink>(sink: &mut K, buffer: &mut LineBuffer, b: u8) -> Result<(), Failed>
    ensures bytes { Puts (K.held sink.old) buffer.old (K.held sink.new) buffer.new result (encode_upper (b ∷ [])) }
    ensures cause { HasCause (K.faults sink.old) (K.faults sink.new) result }
{
    make_room(sink, buffer, 2)?;
    buffer.put_byte(b);
    Ok(())
}

/// How a piece is spelled.
pub struct PieceSpelling;

impl<'a> Spelling<Piece<'a>> for PieceSpelling {
    ghost text = { piece_text };

    fn put<K: Sink>(sink: &mut K, buffer: &mut LineBuffer, it: &Piece<'a>) -> Result<(), Failed> {
        match it {
            Piece::Text(text) => write_text(sink, buffer, text),
            Piece::Number(n) => write_number(sink, buffer, *n),
            Piece::Byte(b) => write_byte(sink, buffer, *b),
            Piece::Hex(bytes) => put_hex(sink, buffer, bytes),
        }
    }
}

/// Writes pieces one after another, through a buffer. Ends with no `flush`: what doesn't fill the
/// buffer waits in it.
pub fn write_pieces<K: Sink>(
    sink: &mut K,
    buffer: &mut LineBuffer,
    pieces: &[Piece],
) -> Result<(), Failed>
    ensures bytes { Puts (K.held sink.old) buffer.old (K.held sink.new) buffer.new result (flat_map piece_text pieces.now) }
    ensures cause { HasCause (K.faults sink.old) (K.faults sink.new) result }
{
    put_all::<PieceSpelling, Piece, K>(sink, buffer, pieces)
}
