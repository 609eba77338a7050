ghost use Rattle.std.specs.Prelude.{◌≡◌, ◌≤◌, ◌<◌, ◌+◌, ◌-◌, ◌*◌, ◌/◌, ◌∷◌, ◌++◌, [], ℕ, List, IsTrue, ◌↔◌, OnOk, decimal, length, min, take};
ghost use Rattle.hex.specs.Hex.{encode_upper};
ghost use Rattle.ckd_outside.specs.Causes.{HasCause};
ghost use Rattle.ckd_outside.specs.Texts.{Puts, Writes, buffer_size};

use crate::digits::{decimal_len, digit_of, write_hex_digits};
use crate::{Failed, Sink, write_all};
use itoa::Buffer;
use std::marker::Model;

const SIZE: usize = 32768;

/// Bytes that wait before a sink: at most 32,768. They are seen as a list.
#[derive(Drop)]
pub struct LineBuffer {
    bytes: [u8; SIZE],
    len: usize,
}

impl Model for LineBuffer {
    ghost use Rattle.std.specs.Prelude.{◌≤◌, List, ℕ, take};
    ghost use Rattle.ckd_outside.specs.Texts.{buffer_size};

    ghost Value = { List ℕ };

    ghost view = { λ b. take b.len b.bytes };

    ghost invariant = { λ b. b.len ≤ buffer_size };
}

impl LineBuffer {
    /// Nothing waits.
    pub fn new() -> LineBuffer
        ensures { result ≡ [] }
    {
        LineBuffer {
            bytes: [0; SIZE],
            len: 0,
        }
    }

    fn has_room(&self, n: usize) -> bool
        ensures { IsTrue result ↔ (length self.now + n ≤ buffer_size) }
    {
        n <= SIZE - self.len
    }

    /// Takes as much of the text as there is room for.
    pub(crate) fn take_in(&mut self, text: &[u8]) -> usize
        ensures count { result ≡ min (length text.now) (buffer_size - length self.old) }
        ensures bytes { self.new ≡ self.old ++ take result text.now }
    {
        let count = text.len().min(SIZE - self.len);
        self.bytes[self.len..self.len + count].copy_from_slice(&text[..count]);
        self.len += count;
        count
    }

    /// Takes the digits of as many bytes as there is room for.
    pub(crate) fn take_hex(&mut self, bytes: &[u8]) -> usize
        ensures count { result ≡ min (length bytes.now) ((buffer_size - length self.old) / 2) }
        ensures bytes { self.new ≡ self.old ++ encode_upper (take result bytes.now) }
    {
        let count = bytes.len().min((SIZE - self.len) / 2);
        let to = self.len + 2 * count;
        write_hex_digits(&mut self.bytes[self.len..to], &bytes[..count]);
        self.len = to;
        count
    }

    /// Takes a text of a known length, for which room was made.
    #[inline(always)]
    pub fn put<const N: usize>(&mut self, text: &[u8; N])
        requires room { length self.old + N ≤ buffer_size }
        ensures text { self.new ≡ self.old ++ text.now }
        ensures len { length self.new ≡ length self.old + N }
    {
        let to = self.len + N;
        self.bytes[self.len..to].copy_from_slice(text);
        self.len = to;
    }

    fn put_short(&mut self, n: u16)
        requires room { length self.old + 5 ≤ buffer_size }
        ensures text { self.new ≡ self.old ++ decimal n }
        ensures len { length self.new ≤ length self.old + 5 }
    {
        let end = self.len + decimal_len(n);
        let _ = itoa::write_digits(u64::from(n), &mut self.bytes, end);
        self.len = end;
    }

    fn put_long(&mut self, n: u64)
        requires room { length self.old + 20 ≤ buffer_size }
        ensures text { self.new ≡ self.old ++ decimal n }
        ensures len { length self.new ≤ length self.old + 20 }
    {
        let mut digits = Buffer::new();
        let _ = self.take_in(digits.format(n).as_bytes());
    }

    /// Takes the decimal digits of a number, at most twenty, for which room was made.
    pub fn put_number(&mut self, n: u64)
        requires room { length self.old + 20 ≤ buffer_size }
        ensures text { self.new ≡ self.old ++ decimal n }
        ensures len { length self.new ≤ length self.old + 20 }
    {
        match u16::try_from(n) {
            Ok(n) => self.put_short(n),
            Err(_) => self.put_long(n),
        }
    }

    /// Takes the two digits of a byte, for which room was made.
    #[tactic(auto, unfolding(hex::specs::Hex::encode_with))]
    pub fn put_byte(&mut self, b: u8)
        requires room { length self.old + 2 ≤ buffer_size }
        ensures text { self.new ≡ self.old ++ encode_upper (b ∷ []) }
        ensures len { length self.new ≡ length self.old + 2 }
    {
        self.bytes[self.len] = digit_of(b / 16);
        self.bytes[self.len + 1] = digit_of(b % 16);
        self.len += 2;
    }
}

/// Writes what waits. Then nothing waits, also at a fault, where a front of it was written.
pub fn flush<K: Sink>(sink: &mut K, buffer: &mut LineBuffer) -> Result<(), Failed>
    ensures bytes { Writes (K.held sink.old) (K.held sink.new) result buffer.old }
    ensures empty { buffer.new ≡ [] }
    ensures cause { HasCause (K.faults sink.old) (K.faults sink.new) result }
{
    let len = buffer.len;
    buffer.len = 0;
    write_all(sink, &buffer.bytes[..len])
}

/// Makes room for `n` more bytes.
pub fn make_room<K: Sink>(sink: &mut K, buffer: &mut LineBuffer, n: usize) -> Result<(), Failed>
    requires most { n ≤ buffer_size }
    ensures bytes { Puts (K.held sink.old) buffer.old (K.held sink.new) buffer.new result [] }
    ensures room { OnOk result (length buffer.new + n ≤ buffer_size) }
    ensures cause { HasCause (K.faults sink.old) (K.faults sink.new) result }
{
    if buffer.has_room(n) {
        return Ok(());
    }
    flush(sink, buffer)
}

/// Puts a text of a known length.
#[inline(always)]
pub fn put_text<const N: usize, K: Sink>(
    sink: &mut K,
    buffer: &mut LineBuffer,
    text: &[u8; N],
) -> Result<(), Failed>
    requires short { N ≤ buffer_size }
    ensures bytes { Puts (K.held sink.old) buffer.old (K.held sink.new) buffer.new result text.now }
    ensures cause { HasCause (K.faults sink.old) (K.faults sink.new) result }
{
    make_room(sink, buffer, N)?;
    buffer.put(text);
    Ok(())
}
