ghost use Rattle.std.specs.Prelude.{◌≡◌, [], true, false, IfOk};
ghost use Rattle.device_outside.specs.Lists.{less_one};
ghost use Rattle.device_outside.specs.Pool.{WantSlot, IsFree, unnumbered, used_more};
ghost use Rattle.store_slots.specs.Slots.{grant};

use ckd_types::NoMemory;
use device_outside::SlotGrant;
use slab::Slab;
use std::alloc::Global;
use std::marker::Model;

/// Slots with numbers, of which some are in use. No call but `new` takes memory.
#[derive(Drop)]
pub struct Slots {
    used: Slab<()>,
    most: u16,
    up: bool,
}

impl Model for Slots {
    ghost use Rattle.std.specs.Prelude.{◌≤◌};
    ghost use Rattle.slab.specs.Slab.{slab_len};
    ghost use Rattle.store_slots.specs.Slots.{Store, numbers_from};

    ghost Value = { Store };

    ghost view = { λ s. record { slots = s.most; used = numbers_from 0 s.used.slots; up = s.up } };

    ghost invariant = { λ s. (slab_len s.used ≤ s.most) × (s.most ≤ s.used.capacity) };
}

impl Slots {
    /// So many slots, none in use. The store is up.
    pub fn new(alloc: Global, most: u16) -> Result<Slots, NoMemory>
        ensures { IfOk result (λ s. s ≡ record { slots = most; used = []; up = true }) }
    {
        let used = Slab::with_capacity(alloc, usize::from(most))?;
        Ok(Slots {
            used,
            most,
            up: true,
        })
    }

    /// A slot that wasn't in use.
    pub fn want(&mut self) -> SlotGrant
        ensures grant { unnumbered WantSlot result ≡ grant self.old }
        ensures free { IsFree self.old.used WantSlot result }
        ensures after { self.new ≡ record self.old { used = used_more self.old.used result } }
    {
        if !self.up {
            return SlotGrant::Down;
        }
        if self.used.len() >= usize::from(self.most) {
            return SlotGrant::Denied;
        }
        SlotGrant::Given(self.used.insert_reserved(()))
    }

    /// The slot isn't in use any more. Nothing where it wasn't.
    pub fn free(&mut self, slot: usize)
        ensures { self.new ≡ record self.old { used = less_one slot self.old.used } }
    {
        let _ = self.used.try_remove(slot);
    }

    /// The store is lost: no slot is given from here on, and those in use stay so until they are freed.
    pub fn fail(&mut self)
        ensures { self.new ≡ record self.old { up = false } }
    {
        self.up = false;
    }

    /// The store is up again, with the slots that are still in use.
    pub fn repair(&mut self)
        ensures { self.new ≡ record self.old { up = true } }
    {
        self.up = true;
    }

    /// Whether slots are given.
    pub fn is_up(&self) -> bool
        ensures { result ≡ self.now.up }
    {
        self.up
    }
}
