ghost use Rattle.std.specs.Prelude.{◌≡◌, ◌≤◌, ◌+◌, ◌*◌, ◌/◌, ◌++◌, [], Ok, Err, if◌then◌else◌, length, max, take, unwrap_or};
ghost use Rattle.hex.specs.Hex.{hex_digit_value};
ghost use Rattle.deck_text.specs.declared.line.DeckWhy.TheVariants.{Hex};
ghost use Rattle.deck_text.specs.Answers.{Parses, refusing};
ghost use Rattle.deck_text.specs.Words.{words_of};
ghost use Rattle.deck_text.specs.Forms.{then_read, byte_of, word_bytes, bytes_of, program_head, ccw_line};

use crate::numbers::number_in;
use crate::words::next_word;
use crate::{DeckFault, DeckWhy};
use ckd_types::{Bytes, Ccw};
use hex::FromHex;
use std::alloc::Global;

const MOST: u32 = 65535;

/// The byte of two hex digits.
fn byte_of(word: &[u8]) -> Option<u8>
    ensures { result ≡ byte_of word.now }
{
    match <[u8; 1] as FromHex>::from_hex(word) {
        Ok(bytes) => Some(bytes[0]),
        Err(_) => None,
    }
}

/// The value of a hex digit of either case, or 255 of another byte.
fn digit_value(c: u8) -> u8
    ensures { result ≡ unwrap_or (hex_digit_value c) 255 }
{
    let (number, upper, lower) = (c.wrapping_sub(48), c.wrapping_sub(65), c.wrapping_sub(97));
    if number < 10 {
        number
    } else if upper < 6 {
        upper + 10
    } else if lower < 6 {
        lower + 10
    } else {
        255
    }
}

fn greater(a: u8, b: u8) -> u8
    ensures { result ≡ max a b }
{
    if a < b { b } else { a }
}

/// Reads the bytes of pairs of digits, unless one is none. All of them are looked at, since such a loop goes over many at once.
fn read_pairs(word: &[u8], bytes: &mut [u8]) -> bool
    requires { length word.now ≡ 2 * length bytes.old }
    ensures { word_bytes word.now ≡ (if result then Ok bytes.new else Err Hex) }
{
    let mut greatest = 0u8;
    for i in 0..bytes.len() {
        let high = digit_value(word[2 * i]);
        let low = digit_value(word[2 * i + 1]);
        greatest = greater(greatest, greater(high, low));
        bytes[i] = high.wrapping_mul(16).wrapping_add(low);
    }
    greatest < 16
}

/// Reads the bytes of a word of digits, unless it is none.
fn read_digits(word: &[u8], bytes: &mut [u8]) -> bool
    requires { length word.now / 2 ≡ length bytes.old }
    ensures { word_bytes word.now ≡ (if result then Ok bytes.new else Err Hex) }
{
    if word.len() % 2 != 0 {
        return false;
    }
    read_pairs(word, bytes)
}

/// Puts the bytes of a word of digits behind the first ones, unless it is none.
fn put_word(bytes: &mut [u8], len: usize, word: &[u8]) -> bool
    requires { 2 * len + length word.now ≤ 2 * length bytes.old + 1 }
    ensures long { length bytes.new ≡ length bytes.old }
    ensures joined { then_read (word_bytes word.now) (λ more. Ok (take len bytes.old ++ more))
        ≡ (if result then Ok (take (len + length word.now / 2) bytes.new) else Err Hex) }
{
    let end = len + word.len() / 2;
    read_digits(word, &mut bytes[len..end])
}

/// The bytes of all the words of digits, in room that is made once.
fn bytes_of(alloc: Global, line: u32, rest: &[u8]) -> Result<Bytes, DeckFault>
    ensures { Parses result (refusing line (bytes_of [] (words_of rest.now))) }
{
    let mut bytes = Vec::new(alloc);
    bytes.resize(rest.len() / 2, 0)?;
    let mut len = 0;
    let mut rest = rest;
    'words: loop {
        let (word, after) = next_word(rest);
        if word.is_empty() {
            bytes.truncate(len);
            return Ok(Bytes::from_vec(bytes));
        }
        if !put_word(bytes.as_mut_slice(), len, word) {
            let why = DeckWhy::Hex;
            return Err(DeckFault::Refused { line, why });
        }
        len += word.len() / 2;
        rest = after;
    }
}

/// The command, the flags and the count.
fn head_of(code: &[u8], flags: &[u8], count: &[u8]) -> Result<(u8, u8, u16), DeckWhy>
    ensures { result ≡ program_head code.now flags.now count.now }
{
    let count = number_in(0, MOST, count).ok_or(DeckWhy::Number)?;
    let command = byte_of(code).ok_or(DeckWhy::Hex)?;
    let flags = byte_of(flags).ok_or(DeckWhy::Hex)?;
    Ok((command, flags, count as u16))
}

/// CCW cc ff n and its bytes.
pub fn ccw_line(alloc: Global, line: u32, rest: &[u8]) -> Result<Ccw, DeckFault>
    ensures { Parses result (refusing line (ccw_line (words_of rest.now))) }
{
    let (code, rest) = next_word(rest);
    let (flags, rest) = next_word(rest);
    let (count, rest) = next_word(rest);
    if code.is_empty() || flags.is_empty() || count.is_empty() {
        let why = DeckWhy::Words;
        return Err(DeckFault::Refused { line, why });
    }
    let (command, flags, count) = match head_of(code, flags, count) {
        Ok(head) => head,
        Err(why) => return Err(DeckFault::Refused { line, why }),
    };
    let given = bytes_of(alloc, line, rest)?;
    Ok(Ccw {
        command,
        flags,
        count,
        given,
    })
}
