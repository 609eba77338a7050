ghost use Rattle.std.specs.Prelude.{◌≡◌, ◌≤◌, ◌<◌, ◌+◌, ◌==◌, ◌++◌, not, false, IfOk, OnOk, OnErr, [], ◌∷◌, filter, nat_le, length, true, vec_len, vec_capacity};
ghost use Rattle.ckd_types.specs.declared.record.Edit.TheVariants as edits;
ghost use Rattle.ckd_types.specs.Edit.{edited};
ghost use Rattle.nv_store.specs.Patch.{IsPatch, IsReduced, no_edits, is_kept, is_once, place_behind, with_replacement, added};
ghost use Rattle.nv_store.specs.Room.{room_of};

use crate::EditRoom;
use ckd_types::{Bytes, Edit, NoMemory, Record};
use std::alloc::Global;
use std::marker::Model;

/// Another key and other data of record `index`.
#[derive(Debug, Drop)]
pub struct Replacement {
    pub index: usize,
    pub key: Bytes,
    pub body: Bytes,
}

/// Which records of a track a patch leaves there.
#[derive(Clone, Copy, Debug)]
pub enum Kept {
    Whole,
    /// Those up to this one.
    UpTo(usize),
    Nothing,
}

impl Kept {
    pub(crate) fn keeps(self, index: usize) -> bool
        ensures { result ≡ is_kept self index }
    {
        match self {
            Kept::Whole => true,
            Kept::UpTo(last) => index <= last,
            Kept::Nothing => false,
        }
    }

    /// Where a record is among those behind the ones that stay.
    pub(crate) fn place_behind(self, index: usize) -> usize
        requires { is_kept self index ≡ false }
        ensures { result ≡ place_behind self index }
    {
        match self {
            Kept::UpTo(last) => index - last - 1,
            _ => index,
        }
    }
}

/// The edits of a track: at most one replacement for each record that stays, and the records that come
/// behind those where the track is cut.
#[derive(Debug, Drop)]
pub struct Patch {
    replaced: Vec<Replacement>,
    kept: Kept,
    behind: Vec<Record>,
}

impl Model for Patch {
    ghost use Rattle.nv_store.specs.Patch.{PatchView, IsPatch, IsReduced};

    ghost Value = { PatchView };

    ghost view = { λ p. record { replaced = p.replaced.items; kept = p.kept; behind = p.behind.items } };

    ghost invariant = { λ p. IsPatch (record { replaced = p.replaced.items; kept = p.kept; behind = p.behind.items }) ×
        IsReduced (record { replaced = p.replaced.items; kept = p.kept; behind = p.behind.items }) };
}

/// Puts a replacement in the place of an older one of its record, or else behind the others, in room that was made.
fn put_replacement(replaced: &mut Vec<Replacement>, new: Replacement)
    requires once { is_once replaced.old.items ≡ true }
    requires room { vec_len replaced.old < vec_capacity replaced.old }
    ensures { replaced.new.items ≡ with_replacement new replaced.old.items }
{
    for i in 0..replaced.len() {
        if replaced[i].index == new.index {
            replaced[i] = new;
            return;
        }
    }
    replaced.push_reserved(new);
}

/// Changes a record, where it is there.
fn update_record(records: &mut Vec<Record>, index: usize, key: Bytes, body: Bytes)
    ensures { records.new.items ≡ edited (edits.Update index key body) records.old.items }
{
    if index < records.len() {
        let changed = &mut records[index];
        changed.key = key;
        changed.body = body;
    }
}

/// Puts a record behind another one, or behind the last, in room that was made, and drops what stood there.
fn put_record(records: &mut Vec<Record>, after: usize, new: Record)
    requires { vec_len records.old < vec_capacity records.old }
    ensures { records.new.items ≡ edited (edits.Format after new) records.old.items }
{
    if after < records.len() {
        records.truncate(after + 1);
    }
    records.push_reserved(new);
}

/// Puts a record in place of all, in room that was made.
fn put_alone(records: &mut Vec<Record>, new: Record)
    requires { vec_len records.old < vec_capacity records.old }
    ensures { records.new.items ≡ new ∷ [] }
{
    records.clear();
    records.push_reserved(new);
}

fn drop_behind(replaced: &mut Vec<Replacement>, after: usize)
    ensures { replaced.new.items ≡ filter (λ r. nat_le r.index after) replaced.old.items }
{
    replaced.retain(|r| r.index <= after);
}

/// Adds an edit in room that was made.
fn put_edit(replaced: &mut Vec<Replacement>, kept: &mut Kept, behind: &mut Vec<Record>, e: Edit)
    requires once { is_once replaced.old.items ≡ true }
    requires room { (vec_len replaced.old < vec_capacity replaced.old) × (vec_len behind.old < vec_capacity behind.old) }
    ensures { record { replaced = replaced.new.items; kept = kept.new; behind = behind.new.items } ≡
        added (record { replaced = replaced.old.items; kept = kept.old; behind = behind.old.items }) e }
{
    match e {
        Edit::Update { index, key, body } => {
            if kept.keeps(index) {
                put_replacement(replaced, Replacement { index, key, body });
            } else {
                update_record(behind, kept.place_behind(index), key, body);
            }
        }
        Edit::Format { after, added } => {
            if kept.keeps(after) {
                put_alone(behind, added);
                drop_behind(replaced, after);
                *kept = Kept::UpTo(after);
            } else {
                put_record(behind, kept.place_behind(after), added);
            }
        }
        Edit::Zero { added } => {
            put_alone(behind, added);
            replaced.clear();
            *kept = Kept::Nothing;
        }
    }
}

impl Replacement {
    fn copy(&self, alloc: Global) -> Result<Replacement, NoMemory>
        ensures { IfOk result (λ made. made ≡ self.now) }
    {
        Ok(Replacement {
            index: self.index,
            key: self.key.copy(alloc)?,
            body: self.body.copy(alloc)?,
        })
    }
}

fn copies(alloc: Global, records: &[Record]) -> Result<Vec<Record>, NoMemory>
    ensures { IfOk result (λ made. made.items ≡ records.now) }
{
    let mut made = Vec::with_capacity(alloc, records.len())?;
    for record in records {
        made.push(record.copy(alloc)?)?;
    }
    Ok(made)
}

impl Patch {
    /// A patch that changes nothing. Takes no memory.
    pub fn new(alloc: Global) -> Patch
        ensures { result ≡ no_edits }
    {
        Patch {
            replaced: Vec::new(alloc),
            kept: Kept::Whole,
            behind: Vec::new(alloc),
        }
    }

    /// A copy with one more edit.
    pub fn with(&self, alloc: Global, e: Edit) -> Result<Patch, NoMemory>
        ensures { IfOk result (λ made. made ≡ added self.now e) }
    {
        let mut made = self.copy(alloc)?;
        made.add(e)?;
        Ok(made)
    }

    /// The same patch in memory of its own.
    pub fn copy(&self, alloc: Global) -> Result<Patch, NoMemory>
        ensures { IfOk result (λ made. made ≡ self.now) }
    {
        let mut replaced = Vec::with_capacity(alloc, self.replaced.len())?;
        for r in &self.replaced {
            replaced.push(r.copy(alloc)?)?;
        }
        let behind = copies(alloc, &self.behind)?;
        Ok(Patch {
            replaced,
            kept: self.kept,
            behind,
        })
    }

    /// What is so of every patch: records stand behind those that stay exactly where not all stay, and
    /// each record that stays has one replacement at most, and no other record has one.
    pub fn is_patch(&self)
        ensures behind { IsPatch self.now }
        ensures reduced { IsReduced self.now }
    {
        let _ = &self.kept;
    }

    /// How many edits the room has to have in which one more is added.
    pub fn room(&self) -> usize
        ensures { result ≡ room_of self.now }
    {
        self.replaced.len().max(self.behind.len()) + 1
    }

    pub(crate) fn replaced(&self) -> &[Replacement]
        ensures { result.now ≡ self.now.replaced }
    {
        &self.replaced
    }

    pub(crate) fn kept(&self) -> Kept
        ensures { result ≡ self.now.kept }
    {
        self.kept
    }

    pub(crate) fn behind(&self) -> &[Record]
        ensures { result.now ≡ self.now.behind }
    {
        &self.behind
    }

    /// Adds an edit behind those that were added.
    pub fn add(&mut self, e: Edit) -> Result<(), NoMemory>
        ensures added { OnOk result (self.new ≡ added self.old e) }
        ensures same { OnErr result (self.new ≡ self.old) }
    {
        self.replaced.reserve(1)?;
        self.behind.reserve(1)?;
        put_edit(&mut self.replaced, &mut self.kept, &mut self.behind, e);
        Ok(())
    }

    /// Adds an edit behind those that were added, in room that was made. Takes no memory.
    pub fn add_within(&mut self, e: Edit, room: &mut EditRoom)
        requires { room_of self.old ≤ room.old }
        ensures { self.new ≡ added self.old e }
    {
        room.serve(&mut self.replaced, &mut self.behind);
        put_edit(&mut self.replaced, &mut self.kept, &mut self.behind, e);
    }
}
