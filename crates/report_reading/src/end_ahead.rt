ghost use Rattle.std.specs.Prelude.{◌≡◌, ◌<◌, ◌≤◌, ◌++◌, ◌∷◌, [], IfSome, decimal, length, slice_index, take, true};
ghost use Rattle.hex.specs.Hex.{encode_upper};
ghost use Rattle.report_text.specs.declared.line.ReportLine.TheVariants.{End};
ghost use Rattle.report_text.specs.Lines.{text_of};
ghost use Rattle.report_text.specs.Numbers.{are_digits, value_after};

use crate::data::after_byte;
use crate::places::note_of;
use ckd_types::{DeviceNo, PathNo, UnitStatus};
use report_text::EndLine;

/// The number whose value is told, if a text begins with so many digits of it, none of them too many, and a space.
fn number_until(text: &[u8], digits: usize, value: u16) -> Option<(u16, &[u8])>
    requires within { digits < length text.now }
    requires digits { are_digits (take digits text.now) ≡ true }
    requires value { value_after 0 (take digits text.now) ≡ value }
    ensures { IfSome result (λ r. text.now ≡ decimal r.0 ++ 32 ∷ r.1.now) }
{
    if digits == 0 || text[digits] != b' ' {
        return None;
    }
    if text[0] == b'0' && digits != 1 {
        return None;
    }
    Some((value, &text[digits + 1..]))
}

/// The number that a text begins with, if it is spelled as in a line and a space follows, and what stands behind that.
#[inline(always)]
fn number_ahead(text: &[u8]) -> Option<(u16, &[u8])>
    ensures { IfSome result (λ r. text.now ≡ decimal r.0 ++ 32 ∷ r.1.now) }
{
    let mut value: u32 = 0;
    for (i, b) in text.iter().enumerate() {
        if *b < b'0' || *b > b'9' {
            return number_until(text, i, value as u16);
        }
        value = value * 10 + u32::from(*b - b'0');
        if value > 65535 {
            return None;
        }
    }
    None
}

fn path_of(n: u16) -> Option<PathNo>
    ensures { IfSome result (λ path. path ≡ n) }
{
    if n > 4 {
        return None;
    }
    PathNo::new(n as u8)
}

fn device_of(n: u16) -> Option<DeviceNo>
    ensures { IfSome result (λ device. device ≡ n) }
{
    if n > 15 {
        return None;
    }
    DeviceNo::new(n as u8)
}

/// The value of a hexadecimal digit, if this is one.
fn value_of(digit: u8) -> u8 {
    (digit & 15) + 9 * (digit >> 6)
}

/// The byte whose two digits a text begins with, if a space follows them, and what stands behind that.
fn byte_ahead(text: &[u8]) -> Option<(u8, &[u8])>
    ensures { IfSome result (λ r. text.now ≡ encode_upper (r.0 ∷ []) ++ 32 ∷ r.1.now) }
{
    if text.len() < 3 {
        return None;
    }
    let byte = value_of(text[0])
        .wrapping_mul(16)
        .wrapping_add(value_of(text[1]));
    let rest = after_byte(text, byte)?;
    let rest = rest.strip_prefix(b" ")?;
    Some((byte, rest))
}

/// The END line that a text is, if it is one.
pub fn end_ahead(text: &[u8]) -> Option<EndLine>
    ensures { IfSome result (λ end. text.now ≡ text_of (End end)) }
{
    let text = text.strip_prefix(b"END ")?;
    let (path, text) = number_ahead(text)?;
    let (device, text) = number_ahead(text)?;
    let (ordinal, text) = number_ahead(text)?;
    let (index, text) = number_ahead(text)?;
    let (status, text) = byte_ahead(text)?;
    let (residual, text) = number_ahead(text)?;
    let note = note_of(text)?;
    Some(EndLine {
        path: path_of(path)?,
        device: device_of(device)?,
        ordinal,
        index,
        status: UnitStatus(status),
        residual,
        note,
    })
}
