ghost use Rattle.std.specs.Prelude.{◌≡◌, ◌≤◌, ◌<◌, [], IsOk, OnOk, length, vec_len, vec_capacity};
ghost use Rattle.nv_store.specs.Room.{room_of};

use crate::{Patch, Replacement};
use ckd_types::{NoMemory, Record};
use std::alloc::Global;
use std::marker::Model;
use std::mem;

/// Room for one more edit of a patch, made before the first effect of a write. One serves all patches of
/// a device, one after the other. Contracts see how many edits have room in it, those that a patch has
/// already among them.
#[derive(Debug, Drop)]
pub struct EditRoom {
    replaced: Vec<Replacement>,
    behind: Vec<Record>,
}

impl Model for EditRoom {
    ghost use Rattle.std.specs.Prelude.{◌≡◌, ℕ, min, [], vec_capacity};

    ghost Value = { ℕ };

    ghost view = { λ r. min (vec_capacity r.replaced) (vec_capacity r.behind) };

    ghost invariant = { λ r. (r.replaced.items ≡ []) × (r.behind.items ≡ []) };
}

/// Sees that a list has room for one more item: where it is full it moves into the room.
fn make_spare<T: Drop>(items: &mut Vec<T>, room: &mut Vec<T>)
    requires empty { room.old.items ≡ [] }
    requires room { length items.old.items < vec_capacity room.old }
    ensures items { items.new.items ≡ items.old.items }
    ensures spare { vec_len items.new < vec_capacity items.new }
    ensures empty { room.new.items ≡ [] }
{
    if items.len() == items.capacity() {
        let _moved = room.append(items);
        mem::swap(items, room);
    }
}

impl EditRoom {
    /// Takes no memory.
    pub fn new(alloc: Global) -> EditRoom
        ensures { result ≡ 0 }
    {
        EditRoom {
            replaced: Vec::new(alloc),
            behind: Vec::new(alloc),
        }
    }

    /// Makes room for so many edits. Takes no memory where there is so much room.
    pub fn reserve(&mut self, edits: usize) -> Result<(), NoMemory>
        ensures made { OnOk result (edits ≤ self.new) }
        ensures least { self.old ≤ self.new }
        ensures free { edits ≤ self.old → IsOk result }
    {
        self.replaced.reserve(edits)?;
        self.behind.reserve(edits)?;
        Ok(())
    }

    /// Sees that both lists of a patch have room for one more item.
    pub(crate) fn serve(&mut self, replaced: &mut Vec<Replacement>, behind: &mut Vec<Record>)
        requires { (length replaced.old.items < self.old) × (length behind.old.items < self.old) }
        ensures replaced { replaced.new.items ≡ replaced.old.items }
        ensures behind { behind.new.items ≡ behind.old.items }
        ensures spare { (vec_len replaced.new < vec_capacity replaced.new) × (vec_len behind.new < vec_capacity behind.new) }
    {
        make_spare(replaced, &mut self.replaced);
        make_spare(behind, &mut self.behind);
    }
}
