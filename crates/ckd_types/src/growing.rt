ghost use Rattle.std.specs.Prelude.{◌≡◌, ◌<◌, ◌≤◌, ◌+◌, ◌-◌, ◌++◌, ◌∷◌, [], OnOk, OnErr, length, slice_index_or, vec_capacity, vec_len};

use crate::NoMemory;
use std::alloc::Global;
use std::marker::Model;

/// A list that grows in room that was reserved. Contracts see its items and how many more it takes
/// without memory.
#[derive(Debug, Drop)]
pub struct Growing<T> {
    items: Vec<T>,
}

impl<T> Model for Growing<T> {
    ghost use Rattle.std.specs.Prelude.{List, ◌-◌, vec_capacity, vec_len};
    ghost use Rattle.ckd_types.specs.Roomy.{Roomy};

    ghost Value = { Roomy T };

    ghost view = { λ g. record { items = g.items.items; spare = vec_capacity g.items - vec_len g.items } };
}

impl<T> Growing<T> {
    /// Nothing. Takes no memory.
    pub fn new(alloc: Global) -> Growing<T>
        ensures { result.items ≡ [] }
    {
        Growing {
            items: Vec::new(alloc),
        }
    }

    /// How many items there are.
    pub fn len(&self) -> usize
        ensures { result ≡ length self.now.items }
    {
        self.items.len()
    }

    /// Item `i`, from 0 on.
    pub fn at(&self, i: usize) -> &T
        requires { i < length self.now.items }
        ensures { result.now ≡ slice_index_or self.now.items i result.now }
    {
        &self.items[i]
    }

    /// All of them, in order.
    pub fn as_slice(&self) -> &[T]
        ensures { result.now ≡ self.now.items }
    {
        &self.items
    }

    /// Makes room for `n` more items. At want of memory no item is lost.
    pub fn reserve(&mut self, n: usize) -> Result<(), NoMemory>
        ensures room { OnOk result (n ≤ self.new.spare) }
        ensures same { self.new.items ≡ self.old.items }
    {
        self.items.reserve(n)?;
        Ok(())
    }

    /// Adds an item in the room that was made. Takes no memory.
    pub fn push(&mut self, x: T)
        requires { 0 < self.old.spare }
        ensures items { self.new.items ≡ self.old.items ++ x ∷ [] }
        ensures spare { self.new.spare + 1 ≡ self.old.spare }
    {
        self.items.push_reserved(x);
    }
}
