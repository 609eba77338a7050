ghost use Rattle.std.specs.Prelude.{◌≡◌, ◌<◌, ◌≤◌, ◌+◌, ◌++◌, ◌∷◌, [], OnErr, OnOk, length};

use ckd_types::NoMemory;
use plain_defs::Item;
use std::alloc::Global;
use std::marker::Model;

/// A device's journal: all that happened to it, in its kept order. Contracts see its items, how many more it takes without memory,
/// and how many acts beside these: room for acts is set aside.
#[derive(Debug, Drop)]
pub struct Log {
    items: Vec<Item>,
    /// Room that is set aside for acts.
    aside: usize,
}

impl Model for Log {
    ghost use Rattle.std.specs.Prelude.{◌-◌, ◌+◌, ◌≤◌, vec_capacity, vec_len};
    ghost use Rattle.device_core.specs.Log.{LogView};

    ghost Value = { LogView };

    ghost view = { λ g. record { items = g.items.items; spare = vec_capacity g.items - vec_len g.items - g.aside; aside = g.aside } };

    ghost invariant = { λ g. (vec_len g.items + g.aside ≤ vec_capacity g.items) × (g.aside ≤ 65537) };
}

impl Log {
    /// Nothing happened. Takes no memory.
    pub fn new(alloc: Global) -> Log
        ensures items { result.items ≡ [] }
        ensures aside { result.aside ≡ 0 }
    {
        Log {
            items: Vec::new(alloc),
            aside: 0,
        }
    }

    /// How many items there are.
    pub fn len(&self) -> usize
        ensures { result ≡ length self.now.items }
    {
        self.items.len()
    }

    /// All of them, in order.
    pub fn as_slice(&self) -> &[Item]
        ensures { result.now ≡ self.now.items }
    {
        &self.items
    }

    /// For how many acts room is set aside.
    pub fn aside(&self) -> usize
        ensures value { result ≡ self.now.aside }
        ensures most { result ≤ 65537 }
    {
        self.aside
    }

    /// Makes room for `n` more items, and for so many acts. Room that is there stays, also at want of memory.
    pub fn reserve(&mut self, n: usize, acts: usize) -> Result<(), NoMemory>
        requires { (n ≤ 65535) × (acts ≤ 65537) }
        ensures room { OnOk result (n ≤ self.new.spare) }
        ensures acts { OnOk result (acts ≤ self.new.aside) }
        ensures items { self.new.items ≡ self.old.items }
        ensures aside { self.old.aside ≤ self.new.aside }
        ensures same { OnErr result (self.old.spare ≤ self.new.spare) }
    {
        let aside = self.aside.max(acts);
        self.items.reserve(n + aside)?;
        self.aside = aside;
        Ok(())
    }

    /// Adds an item in the room that was made. Takes no memory.
    pub fn push(&mut self, item: Item)
        requires { 0 < self.old.spare }
        ensures items { self.new.items ≡ self.old.items ++ item ∷ [] }
        ensures spare { self.new.spare + 1 ≡ self.old.spare }
        ensures aside { self.new.aside ≡ self.old.aside }
    {
        self.items.push_reserved(item);
    }

    /// Adds an act in the room that was set aside. Takes no memory.
    pub fn push_act(&mut self, item: Item)
        requires { 0 < self.old.aside }
        ensures items { self.new.items ≡ self.old.items ++ item ∷ [] }
        ensures spare { self.new.spare ≡ self.old.spare }
        ensures aside { self.new.aside + 1 ≡ self.old.aside }
    {
        self.items.push_reserved(item);
        self.aside -= 1;
    }
}
