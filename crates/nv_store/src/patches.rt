ghost use Rattle.std.specs.Prelude.{◌≡◌, ℕ, ◌<◌, ◌≤◌, ◌*◌, IfOk, IsOk, OnOk, OnErr, IsTrue, false, true, [], None, length, replicate, slice_set};
ghost use Rattle.std.specs.Option.{option_copied};
ghost use Rattle.track_table.specs.Bits.{is_marked};
ghost use Rattle.track_table.specs.Table.{with_places};
ghost use Rattle.nv_store.specs.Patches.{stored_at, has_patch, patch_at, slot_at, with_edit, put_patch};
ghost use Rattle.nv_store.specs.Room.{room_for};

use crate::{EditRoom, Patch};
use ckd_types::{Edit, HEADS, NoMemory, TrackNo};
use std::alloc::Global;
use std::marker::Model;
use track_table::{TrackBits, TrackTable};

/// A patch, and the slot of the store that holds it.
#[derive(Debug, Drop)]
pub struct Stored {
    pub patch: Patch,
    pub slot: usize,
}

/// The patches of a device's tracks. Contracts see a place for each track that has been made room for.
#[derive(Debug, Drop)]
pub struct Patches {
    table: TrackTable<Stored>,
}

impl Model for Patches {
    ghost use Rattle.std.specs.Prelude.{List, Option};
    ghost use Rattle.nv_store.specs.declared.patches.Stored.{Stored};

    ghost Value = { List (Option Stored) };

    ghost view = { λ p. p.table };
}

impl Patches {
    /// No patch, and no place for one.
    pub fn new(alloc: Global) -> Result<Patches, NoMemory>
        ensures { IfOk result (λ made. made ≡ []) }
    {
        Ok(Patches {
            table: TrackTable::new(alloc)?,
        })
    }

    /// Makes places for the tracks of a device, in which `put` takes no memory.
    pub fn reserve(&mut self, cylinders: u16) -> Result<(), NoMemory>
        requires { cylinders ≤ 4369 }
        ensures made { OnOk result (self.new ≡ with_places (cylinders * 15) self.old) }
        ensures same { OnErr result (self.new ≡ self.old) }
        ensures free { cylinders * 15 ≤ length self.old → IsOk result }
    {
        self.table
            .reserve(usize::from(cylinders) * usize::from(HEADS))
    }

    /// Whether it is known that no track has a patch: it is, where none has.
    pub fn is_empty(&self) -> bool
        ensures { result ≡ true → (t : ℕ) → has_patch self.now t ≡ false }
    {
        self.table.is_empty()
    }

    /// Whether a track has a patch.
    pub fn has(&self, t: TrackNo) -> bool
        ensures { result ≡ has_patch self.now t }
    {
        self.table.has(t)
    }

    /// A track's patch.
    pub fn get(&self, t: TrackNo) -> Option<&Patch>
        ensures { option_copied result ≡ patch_at self.now t }
    {
        let stored = self.table.get(t)?;
        Some(&stored.patch)
    }

    /// The slot of a track's patch.
    pub fn slot_of(&self, t: TrackNo) -> Option<usize>
        ensures { result ≡ slot_at self.now t }
    {
        match self.table.get(t) {
            Some(stored) => Some(stored.slot),
            None => None,
        }
    }

    /// The tracks that have a patch.
    pub fn patched_tracks(&self) -> &TrackBits
        ensures { (t : ℕ) → is_marked result.now t ≡ has_patch self.now t }
    {
        self.table.held()
    }

    /// Puts a patch and its slot into a track's place. Takes memory only where the track has no place.
    pub fn put(&mut self, t: TrackNo, patch: Patch, slot: usize) -> Result<(), NoMemory>
        requires { has_patch self.old t ≡ false }
        ensures put { OnOk result (self.new ≡ put_patch t patch slot self.old) }
        ensures same { OnErr result (self.new ≡ self.old) }
        ensures free { t < length self.old → IsOk result }
    {
        self.table.reserve(usize::from(t.get()) + 1)?;
        self.table.exchange(t, Some(Stored { patch, slot }));
        Ok(())
    }

    /// Adds an edit to a track's patch.
    pub fn add(&mut self, t: TrackNo, e: Edit) -> Result<(), NoMemory>
        requires { IsTrue (has_patch self.old t) }
        ensures added { OnOk result (self.new ≡ slice_set self.old t (with_edit e (stored_at self.old t))) }
        ensures same { OnErr result (self.new ≡ self.old) }
    {
        let stored = self.table.entry_mut(t);
        stored.patch.add(e)
    }

    /// Makes room for one more edit of a track's patch, or for a first one. Takes no memory where there is
    /// so much room.
    pub fn room(&self, t: TrackNo, room: &mut EditRoom) -> Result<(), NoMemory>
        ensures made { OnOk result (room_for (stored_at self.now t) ≤ room.new) }
        ensures least { room.old ≤ room.new }
        ensures free { room_for (stored_at self.now t) ≤ room.old → IsOk result }
    {
        let edits = match self.table.get(t) {
            Some(stored) => stored.patch.room(),
            None => 1,
        };
        room.reserve(edits)
    }

    /// Adds an edit to a track's patch, in room that was made. Takes no memory.
    pub fn add_within(&mut self, t: TrackNo, e: Edit, room: &mut EditRoom)
        requires patch { IsTrue (has_patch self.old t) }
        requires room { room_for (stored_at self.old t) ≤ room.old }
        ensures { self.new ≡ slice_set self.old t (with_edit e (stored_at self.old t)) }
    {
        let stored = self.table.entry_mut(t);
        stored.patch.add_within(e, room);
    }

    /// Puts another patch and its slot, or none, into a track's place. Takes no memory: without a
    /// place there is nothing to do.
    pub fn set(&mut self, t: TrackNo, stored: Option<Stored>)
        ensures { self.new ≡ slice_set self.old t stored }
    {
        self.table.exchange(t, stored);
    }

    /// Drops a track's patch, and gives its slot.
    pub fn take(&mut self, t: TrackNo) -> Option<usize>
        ensures slot { result ≡ slot_at self.old t }
        ensures rest { self.new ≡ slice_set self.old t None }
    {
        let stored = self.table.exchange(t, None)?;
        Some(stored.slot)
    }

    /// Drops every patch. The places stay.
    pub fn lose_all(&mut self)
        ensures { self.new ≡ replicate (length self.old) None }
    {
        self.table.clear();
    }
}
