ghost use Rattle.std.specs.Prelude.{◌≡◌, ◌≤◌, Ok, Err, IfOk, MatchResult};
ghost use Rattle.report_reading.specs.Places.{bytes_at, byte_at, count_at, device_at, is_key, key_at, long_at, mark_at, mark_of, note_at};
ghost use Rattle.report_reading.specs.Places.{note_of, number_at, path_at, short_at, side_at, side_of, sized_at, track_at, word_at};

use crate::LineFault;
use crate::line_words::LineWords;
use ckd_types::{DeviceNo, Note, PathNo, Side, TrackNo};
use hex::FromHex;
use report_text::{Keyword, keyword_text, number_in};

/// A word of a line, from 0 on.
pub fn word_at<'a>(words: &LineWords<'a>, i: usize) -> Result<&'a [u8], LineFault>
    ensures { MatchResult result (λ w. word_at words.now i ≡ Ok w.now) (λ f. word_at words.now i ≡ Err f) }
{
    words.get(i).ok_or(LineFault::Words)
}

/// Whether a word is this keyword, letter by letter.
#[tactic(auto, unfolding(crate::specs::Places::is_key))]
pub fn is_key(word: &[u8], key: Keyword) -> bool
    ensures { result ≡ is_key word.now key }
{
    word == keyword_text(key)
}

fn number_at(least: u64, most: u64, words: &LineWords, i: usize) -> Result<u64, LineFault>
    ensures value { result ≡ number_at least most words.now i }
    ensures range { IfOk result (λ n. n ≤ most) }
{
    let word = word_at(words, i)?;
    number_in(least, most, word).ok_or(LineFault::Number)
}

/// A path's number: 1 to 4, in decimal digits without leading zeros.
pub fn path_at(words: &LineWords, i: usize) -> Result<PathNo, LineFault>
    ensures { result ≡ path_at words.now i }
{
    let n = number_at(1, 4, words, i)?;
    PathNo::new(n as u8).ok_or(LineFault::Number)
}

/// A device's number: 0 to 15.
pub fn device_at(words: &LineWords, i: usize) -> Result<DeviceNo, LineFault>
    ensures { result ≡ device_at words.now i }
{
    let n = number_at(0, 15, words, i)?;
    DeviceNo::new(n as u8).ok_or(LineFault::Number)
}

/// A track's number: 0 to 959, as if the device had 64 cylinders, the most that one of a deck has. Whether it has that track isn't
/// looked at.
pub fn track_at(words: &LineWords, i: usize) -> Result<TrackNo, LineFault>
    ensures { result ≡ track_at words.now i }
{
    let n = number_at(0, 959, words, i)?;
    TrackNo::new(n as u16).ok_or(LineFault::Number)
}

/// A number of 16 bits, as a residual count.
pub fn short_at(words: &LineWords, i: usize) -> Result<u16, LineFault>
    ensures { result ≡ short_at words.now i }
{
    let n = number_at(0, 65535, words, i)?;
    Ok(n as u16)
}

/// A number of 32 bits, as how many tracks wait.
pub fn count_at(words: &LineWords, i: usize) -> Result<u32, LineFault>
    ensures { result ≡ count_at words.now i }
{
    let n = number_at(0, 4_294_967_295, words, i)?;
    Ok(n as u32)
}

/// A number of 64 bits, as a count of volume calls.
pub fn long_at(words: &LineWords, i: usize) -> Result<u64, LineFault>
    ensures { result ≡ long_at words.now i }
{
    number_at(0, 18_446_744_073_709_551_615, words, i)
}

/// So many bytes in digits of either case.
pub fn sized_at<const N: usize>(words: &LineWords, i: usize) -> Result<[u8; N], LineFault>
    ensures { result ≡ sized_at N words.now i }
{
    let word = word_at(words, i)?;
    match <[u8; N] as FromHex>::from_hex(word) {
        Ok(bytes) => Ok(bytes),
        Err(_) => Err(LineFault::Digits),
    }
}

/// One byte, in two digits of either case.
pub fn byte_at(words: &LineWords, i: usize) -> Result<u8, LineFault>
    ensures { result ≡ byte_at words.now i }
{
    let bytes = sized_at::<1>(words, i)?;
    Ok(bytes[0])
}

fn side_of(word: &[u8]) -> Option<Side>
    ensures { result ≡ side_of word.now }
{
    if is_key(word, Keyword::SideA) {
        Some(Side::A)
    } else if is_key(word, Keyword::SideB) {
        Some(Side::B)
    } else {
        None
    }
}

/// The side of a device: `A` or `B`.
pub fn side_at(words: &LineWords, i: usize) -> Result<Side, LineFault>
    ensures { result ≡ side_at words.now i }
{
    let word = word_at(words, i)?;
    side_of(word).ok_or(LineFault::Word)
}

pub fn note_of(word: &[u8]) -> Option<Note>
    ensures { result ≡ note_of word.now }
{
    if is_key(word, Keyword::Plain) {
        Some(Note::Plain)
    } else if is_key(word, Keyword::Incorrect) {
        Some(Note::IncorrectLength)
    } else if is_key(word, Keyword::Limit) {
        Some(Note::Limit)
    } else {
        None
    }
}

/// The note on a command's length: `-`, `IL` or `LIMIT`.
pub fn note_at(words: &LineWords, i: usize) -> Result<Note, LineFault>
    ensures { result ≡ note_at words.now i }
{
    let word = word_at(words, i)?;
    note_of(word).ok_or(LineFault::Word)
}

fn mark_of(word: &[u8]) -> Option<bool>
    ensures { result ≡ mark_of word.now }
{
    if is_key(word, Keyword::Modified) {
        Some(true)
    } else if is_key(word, Keyword::Clean) {
        Some(false)
    } else {
        None
    }
}

/// Whether a frame is modified.
pub fn mark_at(words: &LineWords, i: usize) -> Result<bool, LineFault>
    ensures { result ≡ mark_at words.now i }
{
    let word = word_at(words, i)?;
    mark_of(word).ok_or(LineFault::Word)
}

/// Exactly this keyword.
pub fn key_at(key: Keyword, words: &LineWords, i: usize) -> Result<(), LineFault>
    ensures { result ≡ key_at key words.now i }
{
    let word = word_at(words, i)?;
    if is_key(word, key) {
        Ok(())
    } else {
        Err(LineFault::Word)
    }
}
