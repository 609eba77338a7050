ghost use Rattle.std.specs.Prelude.{◌≡◌, ◌≤◌, ◌<◌, ◌+◌, ◌*◌, ◌/◌, ◌%◌, ◌++◌, decimal, length, map, slice_index, take};
ghost use Rattle.std.specs.Simd.Lanes.{chunk};
ghost use Rattle.hex.specs.Hex.{encode_upper, upper_digits};

use std::simd::prelude::*;

const DIGITS: [u8; 16] = *b"0123456789ABCDEF";

/// The hex digit of a number below 16.
pub fn digit_of(n: u8) -> u8
    requires { n < 16 }
    ensures { result ≡ slice_index upper_digits n }
{
    let gap = if n > 9 { 7 } else { 0 };
    n + 48 + gap
}

/// The first digits of sixteen bytes.
#[inline(always)]
fn first_digits(bytes: u8x16) -> u8x16
    ensures { result ≡ map (λ b. slice_index upper_digits (b / 16)) bytes }
{
    u8x16::from_array(DIGITS).swizzle_dyn(bytes >> u8x16::splat(4))
}

/// The second digits of sixteen bytes.
#[inline(always)]
fn second_digits(bytes: u8x16) -> u8x16
    ensures { result ≡ map (λ b. slice_index upper_digits (b % 16)) bytes }
{
    u8x16::from_array(DIGITS).swizzle_dyn(bytes & u8x16::splat(15))
}

/// The digits of sixteen bytes.
#[inline(always)]
fn digits_of(bytes: u8x16) -> (u8x16, u8x16)
    ensures long { (length result.0 ≡ 16) × (length result.1 ≡ 16) }
    ensures text { result.0 ++ result.1 ≡ encode_upper bytes }
{
    let first = first_digits(bytes);
    let second = second_digits(bytes);
    (
        first.shuffle(
            second,
            [0, 16, 1, 17, 2, 18, 3, 19, 4, 20, 5, 21, 6, 22, 7, 23],
        ),
        first.shuffle(
            second,
            [8, 24, 9, 25, 10, 26, 11, 27, 12, 28, 13, 29, 14, 30, 15, 31],
        ),
    )
}

/// Writes the digits of the sixteen bytes from one on over a text that is twice as long.
#[inline(always)]
fn write_block(out: &mut [u8], bytes: &[u8], i: usize)
    requires long { length out.old ≡ 2 * length bytes.now }
    requires block { i + 16 ≤ length bytes.now }
    ensures long { length out.new ≡ length out.old }
    ensures text { take (2 * i + 32) out.new ≡ take (2 * i) out.old ++ encode_upper (chunk i 16 bytes.now) }
{
    let (front, back) = digits_of(u8x16::from_slice(&bytes[i..]));
    front.copy_to_slice(&mut out[2 * i..]);
    back.copy_to_slice(&mut out[2 * i + 16..]);
}

/// Writes the digits of bytes over a text that is twice as long.
pub fn write_hex_digits(out: &mut [u8], bytes: &[u8])
    requires { length out.old ≡ 2 * length bytes.now }
    ensures { out.new ≡ encode_upper bytes.now }
{
    let mut i = 0;
    'blocks: while bytes.len() - i >= 16 {
        write_block(out, bytes, i);
        i += 16;
    }
    'bytes: while i < bytes.len() {
        out[2 * i] = digit_of(bytes[i] / 16);
        out[2 * i + 1] = digit_of(bytes[i] % 16);
        i += 1;
    }
}

/// How many decimal digits a number has.
#[tactic(auto, using(crate::proofs::DecimalLengths::length_three, crate::proofs::DecimalLengths::length_of_four, crate::proofs::DecimalLengths::length_five, itoa::proofs::Decimal::length_one, itoa::proofs::Decimal::length_two,))]
pub fn decimal_len(n: u16) -> usize
    ensures len { result ≡ length (decimal n) }
    ensures most { result ≤ 5 }
{
    if n < 10 {
        1
    } else if n < 100 {
        2
    } else if n < 1000 {
        3
    } else if n < 10_000 {
        4
    } else {
        5
    }
}
