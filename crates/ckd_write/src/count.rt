ghost use Rattle.std.specs.Prelude.{◌≡◌, ◌≤◌, ◌<◌, ◌+◌, ◌^◌, IfOk, length};
ghost use Rattle.ckd_types.specs.Parameters.{number_at, cchh_at};
ghost use Rattle.ckd_types.specs.Track.{IsCchh};
ghost use Rattle.ckd_rules.specs.Formats.{count_given, key_given, body_given, record_given};

use crate::area::{count_given, given_at};
use byteorder::{BigEndian, ByteOrder};
use ckd_types::{Cchh, Ccw, NoMemory, RecId, Record};
use std::alloc::Global;

/// Bytes of a count area.
pub const AREA: usize = 8;

fn number_at(bytes: &[u8], i: usize) -> u16
    requires { i + 2 ≤ length bytes.now }
    ensures { result ≡ number_at bytes.now i }
{
    BigEndian::read_u16(&bytes[i..i + 2])
}

fn cchh_at(bytes: &[u8], i: usize) -> Cchh
    requires { i + 4 ≤ length bytes.now }
    ensures { result ≡ cchh_at bytes.now i }
{
    Cchh {
        cc: number_at(bytes, i),
        hh: number_at(bytes, i + 2),
    }
}

/// What the count area that a format is given says: an id, and the lengths of key and data.
#[derive(Clone, Copy, Debug)]
pub struct NewCount {
    pub id: RecId,
    pub key: u8,
    pub body: u16,
}

/// Reads the count area that a format is given: id, key length and data length in eight bytes (IBM).
pub fn new_count(ccw: &Ccw) -> NewCount
    ensures id { result.id ≡ (record_given ccw.now).id }
    ensures key { result.key ≡ key_given ccw.now }
    ensures body { result.body ≡ body_given ccw.now }
{
    let bytes = count_given(ccw);
    let id = RecId {
        cchh: cchh_at(&bytes, 0),
        r: bytes[4],
    };
    NewCount {
        id,
        key: bytes[5],
        body: number_at(&bytes, 6),
    }
}

/// The record that a format is given, of which the count area was read.
pub fn record_given(alloc: Global, ccw: &Ccw, count: NewCount) -> Result<Record, NoMemory>
    requires id { count.id ≡ (record_given ccw.now).id }
    requires key { count.key ≡ key_given ccw.now }
    requires body { count.body ≡ body_given ccw.now }
    ensures given { IfOk result (λ made. made ≡ record_given ccw.now) }
    ensures cchh { IfOk result (λ made. IsCchh made.id.cchh) }
    ensures number { IfOk result (λ made. made.id.r < 2 ^ 8) }
    ensures key { IfOk result (λ made. length made.key ≡ key_given ccw.now) }
    ensures body { IfOk result (λ made. length made.body ≡ body_given ccw.now) }
{
    let key = usize::from(count.key);
    Ok(Record {
        id: count.id,
        key: given_at(alloc, ccw, AREA, key)?,
        body: given_at(alloc, ccw, AREA + key, usize::from(count.body))?,
    })
}
