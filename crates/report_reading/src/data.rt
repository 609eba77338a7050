ghost use Rattle.std.specs.Prelude.{◌≡◌, ◌≢◌, ◌<◌, ◌≤◌, ◌*◌, ◌/◌, ◌%◌, ◌&&◌, ◌∷◌, ◌++◌, false, true, List, ℕ, IfSome, MatchOption, Ok, drop, length, map, slice_index, take};
ghost use Rattle.std.specs.Str.{bytes_eq};
ghost use Rattle.hex.specs.Hex.{encode_upper, upper_digits};
ghost use Rattle.report_text.specs.declared.line.ReportLine.TheVariants.{Data};
ghost use Rattle.report_text.specs.Lines.{text_of};
ghost use Rattle.report_reading.specs.Reading.{line_of};

use crate::ranges::bytes_range;
use crate::reads_back;
use std::simd::prelude::*;

/// What the text of a DATA line begins with.
const DATA_HEAD: &[u8; 5] = b"DATA ";

const DIGITS: [u8; 16] = *b"0123456789ABCDEF";

fn digit_of(n: u8) -> u8
    requires { n < 16 }
    ensures { result ≡ slice_index upper_digits n }
{
    if n < 10 { n + 48 } else { n + 55 }
}

/// What stands behind the two digits of a byte, if a text begins with them.
pub fn after_byte(text: &[u8], b: u8) -> Option<&[u8]>
    ensures { MatchOption result
        ((rest : List ℕ) → bytes_eq text.now (slice_index upper_digits (b / 16) ∷ slice_index upper_digits (b % 16) ∷ rest) ≡ false)
        (λ left. (rest : List ℕ) → bytes_eq text.now (slice_index upper_digits (b / 16) ∷ slice_index upper_digits (b % 16) ∷ rest) ≡ bytes_eq left.now rest) }
{
    let high = digit_of(b / 16);
    let low = digit_of(b % 16);
    text.strip_prefix(&[high, low])
}

/// Whether these are the digits of few bytes.
fn are_few_digits(digits: &[u8], bytes: &[u8]) -> bool
    ensures { result ≡ bytes_eq digits.now (encode_upper bytes.now) }
{
    let mut rest = digits;
    for b in bytes {
        match after_byte(rest, *b) {
            Some(left) => rest = left,
            None => return false,
        }
    }
    rest.is_empty()
}

/// The first digits of sixteen bytes.
#[inline(always)]
fn first_digits(bytes: u8x16) -> u8x16
    ensures { result ≡ map (λ b. slice_index upper_digits (b / 16)) bytes }
{
    u8x16::from_array(DIGITS).swizzle_dyn(bytes >> u8x16::splat(4))
}

/// The second digits of sixteen bytes.
#[inline(always)]
fn second_digits(bytes: u8x16) -> u8x16
    ensures { result ≡ map (λ b. slice_index upper_digits (b % 16)) bytes }
{
    u8x16::from_array(DIGITS).swizzle_dyn(bytes & u8x16::splat(15))
}

/// The digits of sixteen bytes.
#[inline(always)]
fn digits_of(bytes: u8x16) -> (u8x16, u8x16)
    ensures long { (length result.0 ≡ 16) × (length result.1 ≡ 16) }
    ensures text { result.0 ++ result.1 ≡ encode_upper bytes }
{
    let first = first_digits(bytes);
    let second = second_digits(bytes);
    (
        first.shuffle(
            second,
            [0, 16, 1, 17, 2, 18, 3, 19, 4, 20, 5, 21, 6, 22, 7, 23],
        ),
        first.shuffle(
            second,
            [8, 24, 9, 25, 10, 26, 11, 27, 12, 28, 13, 29, 14, 30, 15, 31],
        ),
    )
}

/// Whether a text begins with the digits of the first sixteen bytes.
#[inline(always)]
fn begins_with_block(text: &[u8], bytes: &[u8]) -> bool
    requires text { 32 ≤ length text.now }
    requires bytes { 16 ≤ length bytes.now }
    ensures { bytes_eq text.now (encode_upper bytes.now) ≡ (result && bytes_eq (drop 32 text.now) (encode_upper (drop 16 bytes.now))) }
{
    let (front, back) = digits_of(u8x16::from_slice(bytes));
    u8x16::from_slice(text) == front && u8x16::from_slice(&text[16..]) == back
}

/// Whether a text as long as the digits of some bytes is these digits, in upper case.
fn are_digits_of(text: &[u8], bytes: &[u8]) -> bool
    requires long { length text.now ≡ 2 * length bytes.now }
    ensures { result ≡ bytes_eq text.now (encode_upper bytes.now) }
{
    let mut i = 0;
    'blocks: while bytes.len() - i >= 16 {
        if !begins_with_block(&text[2 * i..], &bytes[i..]) {
            return false;
        }
        i += 16;
    }
    are_few_digits(&text[2 * i..], &bytes[i..])
}

/// Whether these are exactly the digits of some bytes, in upper case.
fn is_digits_of(text: &[u8], bytes: &[u8]) -> bool
    ensures { result ≡ bytes_eq text.now (encode_upper bytes.now) }
{
    if text.len() == 2 * bytes.len() {
        return are_digits_of(text, bytes);
    }
    false
}

/// Where the digits of some bytes end, if a text begins with them and a line feed follows.
fn digits_end(text: &[u8], bytes: &[u8]) -> Option<usize>
    ensures digits { IfSome result (λ end. take end text.now ≡ encode_upper bytes.now) }
    ensures stands { IfSome result (λ end. (end < length text.now) × (slice_index text.now end ≡ 10)) }
{
    let end = 2 * bytes.len();
    if end >= text.len() || text[end] != b'\n' || !are_digits_of(&text[..end], bytes) {
        return None;
    }
    Some(end)
}

/// Whether a text is the DATA line of these bytes.
pub fn is_data_of(text: &[u8], bytes: &[u8]) -> bool
    ensures text { result ≡ bytes_eq text.now (text_of (Data bytes.now)) }
    ensures read { result ≡ true → line_of text.now ≡ Ok (Data bytes.now) }
{
    bytes_range(bytes);
    reads_back();
    match text.strip_prefix(DATA_HEAD) {
        Some(digits) => is_digits_of(digits, bytes),
        None => false,
    }
}

/// Where the DATA line of these bytes ends, if a text begins with it and a line feed follows.
pub fn data_end(text: &[u8], bytes: &[u8]) -> Option<usize>
    ensures read { IfSome result (λ end. line_of (take end text.now) ≡ Ok (Data bytes.now)) }
    ensures none { IfSome result (λ end. (k : ℕ) → k < end → slice_index text.now k ≢ 10) }
    ensures stands { IfSome result (λ end. (end < length text.now) × (slice_index text.now end ≡ 10)) }
{
    bytes_range(bytes);
    reads_back();
    let digits = text.strip_prefix(DATA_HEAD)?;
    let end = digits_end(digits, bytes)?;
    Some(end + DATA_HEAD.len())
}
