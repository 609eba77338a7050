ghost use Rattle.std.specs.Prelude.{◌≡◌, IfOk, length};
ghost use Rattle.ckd_rules.specs.Area.{given_taken, given_at};
ghost use Rattle.ckd_rules.specs.Formats.{count_given};

use ckd_types::{Bytes, Ccw, NoMemory};
use std::alloc::Global;

/// The bytes that a word gives and its count reaches.
fn given_taken(ccw: &Ccw) -> &[u8]
    ensures { result.now ≡ given_taken ccw.now }
{
    let given = ccw.given.as_slice();
    &given[..given.len().min(usize::from(ccw.count))]
}

/// `n` bytes of what a word gives, from a place on, with zeros for those that are missing.
pub fn given_at(alloc: Global, ccw: &Ccw, from: usize, n: usize) -> Result<Bytes, NoMemory>
    ensures bytes { IfOk result (λ made. made ≡ given_at from n ccw.now) }
    ensures len { IfOk result (λ made. length made ≡ n) }
{
    let taken = given_taken(ccw);
    let rest = &taken[taken.len().min(from)..];
    let mut bytes = rest[..rest.len().min(n)].to_vec(alloc)?;
    bytes.resize(n, 0)?;
    Ok(Bytes::from_vec(bytes))
}

/// The count area of a new record: the first eight bytes that a format is given.
pub fn count_given(ccw: &Ccw) -> [u8; 8]
    ensures { result ≡ count_given ccw.now }
{
    let mut bytes = [0; 8];
    let from = given_taken(ccw);
    let count = from.len().min(8);
    bytes[..count].copy_from_slice(&from[..count]);
    bytes
}
