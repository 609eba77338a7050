ghost use Rattle.std.specs.Prelude.{◌≡◌, ◌<◌, ◌+◌, ◌++◌, ◌∷◌, ◌^◌, [], IsOk, IfOk, OnOk, OnErr, IfSome, length, take, slice_index_or};
ghost use Rattle.ckd_types.specs.Edit.{edited, IsWithin, IsInside};
ghost use Rattle.ckd_types.specs.Track.{empty_track, find_id};

use crate::{Bytes, Cchh, NoMemory, TrackNo, cchh_of};
use std::alloc::Global;
use std::marker::Model;

/// A record's id: a cylinder, a head and a number. They are five bytes as they were written, and need not be
/// those of the track that the record is on (IBM's rule).
#[derive(Clone, Copy, Debug, PartialEq, Eq)]
pub struct RecId {
    pub cchh: Cchh,
    pub r: u8,
}

/// A record: its id, its key of at most 255 bytes and its data of at most 65,534 bytes. One without data is an
/// end of file (IBM's rule).
#[derive(Debug, Drop)]
pub struct Record {
    pub id: RecId,
    pub key: Bytes,
    pub body: Bytes,
}

impl Record {
    /// The same record in memory of its own.
    pub fn copy(&self, alloc: Global) -> Result<Record, NoMemory>
        ensures { IfOk result (λ made. made ≡ self.now) }
    {
        Ok(Record {
            id: self.id,
            key: self.key.copy(alloc)?,
            body: self.body.copy(alloc)?,
        })
    }
}

/// What a write does to a track.
#[derive(Debug, Drop)]
pub enum Edit {
    /// Record `index` has this key and this data.
    Update {
        index: usize,
        key: Bytes,
        body: Bytes,
    },
    /// Behind record `after` stands this one, and nothing behind it.
    Format {
        after: usize,
        added: Record,
    },
    /// The track has this record alone.
    Zero {
        added: Record,
    },
}

/// The records of a track, record 0 first.
#[derive(Debug, Drop)]
pub struct Records {
    items: Vec<Record>,
}

impl Model for Records {
    ghost use Rattle.std.specs.Prelude.{List};
    ghost use Rattle.ckd_types.specs.declared.record.Record.{Record};

    ghost Value = { List Record };

    ghost view = { λ r. r.items.items };
}

/// Puts a record behind the one at `after`, in place of all that stood there.
fn put_behind(records: &mut Vec<Record>, after: usize, added: Record) -> Result<(), NoMemory>
    requires { after < length records.old.items }
    ensures done { OnOk result (records.new.items ≡ take (after + 1) records.old.items ++ added ∷ []) }
    ensures same { OnErr result (records.new.items ≡ records.old.items) }
    ensures cut { after + 1 < length records.old.items → IsOk result }
{
    if after + 1 < records.len() {
        records[after + 1] = added;
        records.truncate(after + 2);
    } else {
        records.push(added)?;
    }
    Ok(())
}

impl Records {
    /// The records of a vector, which is kept as it is.
    pub fn from_vec(items: Vec<Record>) -> Records
        ensures { result ≡ items.items }
    {
        Records { items }
    }

    /// All of them, record 0 first.
    pub fn as_slice(&self) -> &[Record]
        ensures { result.now ≡ self.now }
    {
        &self.items
    }

    /// How many records there are, with record 0.
    pub fn len(&self) -> usize
        ensures value { result ≡ length self.now }
        ensures range { result < 2 ^ 63 }
    {
        self.items.len()
    }

    /// The first record with an id.
    pub fn find(&self, id: RecId) -> Option<usize>
        ensures found { result ≡ find_id id self.now }
        ensures range { IfSome result (λ i. i < length self.now) }
    {
        self.items.iter().position(|record| record.id == id)
    }

    /// Makes an edit. Takes memory only for a record behind the last one.
    pub fn edit(&mut self, edit: Edit) -> Result<(), NoMemory>
        requires within { IsWithin edit (length self.old) }
        ensures done { OnOk result (self.new ≡ edited edit self.old) }
        ensures same { OnErr result (self.new ≡ self.old) }
        ensures inside { IsInside edit (length self.old) → IsOk result }
    {
        match edit {
            Edit::Update { index, key, body } => {
                let changed = &mut self.items[index];
                changed.key = key;
                changed.body = body;
                Ok(())
            }
            Edit::Format { after, added } => put_behind(&mut self.items, after, added),
            Edit::Zero { added } => {
                self.items[0] = added;
                self.items.truncate(1);
                Ok(())
            }
        }
    }

    /// The same records in memory of their own.
    pub fn copy(&self, alloc: Global) -> Result<Records, NoMemory>
        ensures { IfOk result (λ made. made ≡ self.now) }
    {
        let mut items = Vec::with_capacity(alloc, self.items.len())?;
        for record in &self.items {
            items.push(record.copy(alloc)?)?;
        }
        Ok(Records { items })
    }
}

/// A track as a plain list: where it is, and its records.
#[derive(Debug, Drop)]
pub struct Track {
    pub home: Cchh,
    pub records: Records,
}

impl Track {
    /// The same track in memory of its own.
    pub fn copy(&self, alloc: Global) -> Result<Track, NoMemory>
        ensures { IfOk result (λ made. made ≡ self.now) }
    {
        Ok(Track {
            home: self.home,
            records: self.records.copy(alloc)?,
        })
    }
}

/// A track that has record 0 alone, with eight zero bytes of data.
pub fn empty_track(alloc: Global, track: TrackNo) -> Result<Track, NoMemory>
    ensures { IfOk result (λ made. made ≡ empty_track track) }
{
    let home = cchh_of(track);
    let zero = Record {
        id: RecId { cchh: home, r: 0 },
        key: Bytes::new(),
        body: Bytes::from_slice(alloc, &[0; 8])?,
    };
    let mut items = Vec::new(alloc);
    items.push(zero)?;
    Ok(Track {
        home,
        records: Records { items },
    })
}
