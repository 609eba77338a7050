ghost use Rattle.std.specs.Prelude.{◌≡◌, ◌≤◌, ◌<◌, ◌^◌, IfSome};
ghost use Rattle.report_text.specs.Numbers.{has_form, number_of, number_in};

/// The most digits of a number: those of 18,446,744,073,709,551,615.
const MOST_DIGITS: usize = 20;

fn has_form(bytes: &[u8]) -> bool
    ensures { result ≡ has_form bytes.now }
{
    let len = bytes.len();
    if len == 0 || len > MOST_DIGITS {
        return false;
    }
    len == 1 || bytes[0] != b'0'
}

fn number_of(bytes: &[u8]) -> Option<u128>
    ensures { result ≡ number_of bytes.now }
{
    if !has_form(bytes) {
        return None;
    }
    let mut value = 0u128;
    for b in bytes {
        if *b < b'0' || *b > b'9' {
            return None;
        }
        value = value * 10 + u128::from(*b - b'0');
    }
    Some(value)
}

/// A decimal number without leading zeros, from `least` to `most`.
pub fn number_in(least: u64, most: u64, bytes: &[u8]) -> Option<u64>
    ensures value { result ≡ number_in least most bytes.now }
    ensures range { IfSome result (λ n. (least ≤ n) × (n ≤ most)) }
{
    let n = number_of(bytes)?;
    if u128::from(least) <= n && n <= u128::from(most) {
        Some(n as u64)
    } else {
        None
    }
}
