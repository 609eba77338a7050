ghost use Rattle.std.specs.Prelude.{◌≡◌, ◌≤◌, length};
ghost use Rattle.ckd_types.specs.Track.{IsRecord, count_area, record_bytes};

use crate::count::{AREA, count_area};
use ckd_types::RecId;
use std::marker::Model;

/// A record of an image, which lends its key and its data.
#[derive(Debug, Drop)]
pub struct RecordRef<'a> {
    id: RecId,
    key: &'a [u8],
    body: &'a [u8],
}

impl<'a> Model for RecordRef<'a> {
    ghost use Rattle.ckd_types.specs.declared.record.Record.{Record};
    ghost use Rattle.ckd_types.specs.Track.{IsRecord};

    ghost Value = { Record };

    ghost view = { λ r. record { id = r.id; key = r.key.now; body = r.body.now } };

    ghost invariant = { λ r. IsRecord (record { id = r.id; key = r.key.now; body = r.body.now }) };
}

impl<'a> RecordRef<'a> {
    pub(crate) fn new(id: RecId, key: &'a [u8], body: &'a [u8]) -> RecordRef<'a>
        requires { IsRecord (record { id = id; key = key.now; body = body.now }) }
        ensures { result ≡ record { id = id; key = key.now; body = body.now } }
    {
        RecordRef { id, key, body }
    }

    /// A record 0, whatever its id.
    pub(crate) fn zero(id: RecId, key: &'a [u8], body: &'a [u8]) -> RecordRef<'a>
        requires key { length key.now ≡ 0 }
        requires body { length body.now ≡ 8 }
        ensures { result ≡ record { id = id; key = key.now; body = body.now } }
    {
        RecordRef::new(id, key, body)
    }

    /// Its id as it was written, which need not name the track that it is on (IBM).
    pub fn id(&self) -> RecId
        ensures { result ≡ self.now.id }
    {
        self.id
    }

    /// Its key: at most 255 bytes, none where it has no key.
    pub fn key(&self) -> &'a [u8]
        ensures { result.now ≡ self.now.key }
    {
        self.key
    }

    /// Its data: at most 65,534 bytes, none at an end of file (IBM).
    pub fn body(&self) -> &'a [u8]
        ensures { result.now ≡ self.now.body }
    {
        self.body
    }

    /// The record's count area: its id, and the lengths of its key and its data.
    pub fn count_area(&self) -> [u8; 8]
        ensures { result ≡ count_area self.now }
    {
        count_area(self.id, self.key, self.body)
    }

    /// How many bytes its count area, its key and its data have.
    pub fn size(&self) -> usize
        ensures value { result ≡ length (record_bytes self.now) }
        ensures most { result ≤ 65797 }
    {
        AREA + self.key.len() + self.body.len()
    }
}
