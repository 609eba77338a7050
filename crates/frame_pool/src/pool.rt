ghost use Rattle.std.specs.Prelude.{◌≡◌, Some, true, false, IfOk, MatchOption, ◌<◌, OnOk, OnErr, ◌∷◌, option_map, slice_get, sum};
ghost use Rattle.device_outside.specs.Pool.{NextNotice, Touch, WantFrame, SetModified, SetClean, DropFrame, WantSlot, FreeSlot, TellWaiting};
ghost use Rattle.device_outside.specs.Pool.{in_front, is_listed, has_room, victim, frame_removed, noted, new_pool, cache_failed, store_failed, power_lost};
ghost use Rattle.device_outside.specs.Pool.{all_waiting};
ghost use Rattle.device_outside.specs.Volume.{counted};
ghost use Rattle.frame_pool.specs.Shared.{Shared, shared_view, Repairs};

use crate::notes::AllNotes;
use crate::place::Place;
use crate::recency::{Frames, mark, put_in, put_over, take_out, touch, victim};
use ckd_types::{DeviceNo, NoMemory, TrackNo};
use device_outside::{Grant, Port, SlotGrant};
use lru::LruCache;
use std::alloc::Global;
use std::marker::Model;
use std::num::NonZeroUsize;
use store_slots::Slots;

/// A repair waits for so many tracks.
#[derive(Clone, Copy, Debug, PartialEq, Eq)]
pub struct Pending {
    pub n: u32,
}

/// The pool of frames and slots. No call but `new` and `want_frame` takes memory. None walks the list but a
/// `want_frame` that passes modified frames, and `entry`, which passes those before its own.
#[derive(Drop)]
pub struct Pool {
    frames: Frames,
    room: usize,
    notes: AllNotes,
    waiting: [u16; 16],
    slots: Slots,
    cache_up: bool,
    denials: u64,
}

impl Model for Pool {
    ghost use Rattle.std.specs.Prelude.{◌≡◌, ◌≤◌, ◌+◌, length};
    ghost use Rattle.frame_pool.specs.Shared.{Shared};

    ghost Value = { Shared };

    ghost view = { λ p. record {
      pool = record {
        frames = p.frames.entries;
        room = p.room;
        notes = p.notes;
        waiting = p.waiting;
        slots = p.slots.slots;
        used = p.slots.used;
        cache_up = p.cache_up;
        store_up = p.slots.up;
      };
      denials = p.denials;
    } };

    ghost invariant = { λ p. (length p.frames.entries ≤ p.room) × (p.frames.cap ≡ p.room + 1) };
}

fn sum_of(waiting: &[u16; 16]) -> u32
    ensures { result ≡ sum waiting.now }
{
    let mut total = 0;
    for n in waiting {
        total += u32::from(*n);
    }
    total
}

impl Pool {
    /// A pool of so many frames and slots, with none in use.
    pub fn new(alloc: Global, frames: u16, slots: u16) -> Result<Pool, NoMemory>
        ensures { IfOk result (λ p. p ≡ record { pool = new_pool frames slots; denials = 0 }) }
    {
        let room = usize::from(frames);
        Ok(Pool {
            frames: LruCache::new(alloc, NonZeroUsize::MIN.saturating_add(room))?,
            room,
            notes: AllNotes::new(alloc)?,
            waiting: [0; 16],
            slots: Slots::new(alloc, slots)?,
            cache_up: true,
            denials: 0,
        })
    }

    /// Whether the cache is up: while it isn't, no frame is given.
    pub fn cache_up(&self) -> bool
        ensures { result ≡ self.now.pool.cache_up }
    {
        self.cache_up
    }

    /// Whether the nonvolatile store is up: while it isn't, no slot is given.
    pub fn store_up(&self) -> bool
        ensures { result ≡ self.now.pool.store_up }
    {
        self.slots.is_up()
    }

    /// Power was lost: frames and notes are gone.
    pub fn power(&mut self)
        ensures { self.new ≡ record self.old { pool = power_lost self.old.pool } }
    {
        self.frames.clear();
        self.notes.clear();
    }

    /// The cache is lost with its frames.
    pub fn fail_cache(&mut self)
        ensures { self.new ≡ record self.old { pool = cache_failed self.old.pool } }
    {
        self.power();
        self.cache_up = false;
    }

    /// The nonvolatile store is lost. Its slots stay in use until the devices free them, patch by patch.
    pub fn fail_store(&mut self)
        ensures { self.new ≡ record self.old { pool = store_failed self.old.pool } }
    {
        self.slots.fail();
    }

    /// How many tracks wait, where some do.
    fn pending(&self) -> Option<Pending>
        ensures { MatchOption result (all_waiting self.now.pool ≡ 0) (λ e. (e.n ≡ all_waiting self.now.pool) × (0 < e.n)) }
    {
        let n = sum_of(&self.waiting);
        if n > 0 { Some(Pending { n }) } else { None }
    }

    /// The cache is up again where no track waits.
    pub fn repair_cache(&mut self) -> Result<(), Pending>
        ensures { Repairs self.old (record self.old { pool = record self.old.pool { cache_up = true } }) result self.new }
    {
        if let Some(pending) = self.pending() {
            return Err(pending);
        }
        self.cache_up = true;
        Ok(())
    }

    /// The store is up again where no track waits.
    pub fn repair_store(&mut self) -> Result<(), Pending>
        ensures { Repairs self.old (record self.old { pool = record self.old.pool { store_up = true } }) result self.new }
    {
        if let Some(pending) = self.pending() {
            return Err(pending);
        }
        self.slots.repair();
        Ok(())
    }

    /// Entry `i` of the list, the most recent being 0: device, track, modified.
    pub fn entry(&self, i: usize) -> Option<(DeviceNo, TrackNo, bool)>
        ensures { result ≡ option_map (λ f. (f.0.0, f.0.1, f.1)) (slice_get self.now.pool.frames i) }
    {
        let (place, modified) = self.frames.iter().nth(i)?;
        Some((place.device(), place.track(), *modified))
    }

    fn is_listed(&self, place: Place) -> bool
        ensures { result ≡ is_listed self.now.pool.frames place.0 place.1 }
    {
        self.frames.contains(&place)
    }

    fn has_room(&self) -> bool
        ensures { result ≡ has_room self.now.pool }
    {
        self.frames.len() < self.room
    }

    fn victim(&self) -> Option<Place>
        ensures { result ≡ victim self.now.pool.frames }
    {
        victim(&self.frames)
    }

    fn bring_front(&mut self, place: Place)
        ensures { self.new ≡ record self.old { pool = record self.old.pool { frames = in_front self.old.pool.frames place.0 place.1 } } }
    {
        touch(&mut self.frames, place);
    }

    #[tactic(auto, unfolding(device_outside::specs::Volume::counted))]
    fn deny(&mut self)
        ensures { self.new ≡ record self.old { denials = counted self.old.denials } }
    {
        self.denials = self.denials.saturating_add(1);
    }

    fn put_in(&mut self, place: Place) -> Result<(), NoMemory>
        requires new { is_listed self.old.pool.frames place.0 place.1 ≡ false }
        requires room { has_room self.old.pool ≡ true }
        ensures done { OnOk result (self.new ≡ record self.old { pool = record self.old.pool { frames = (place, false) ∷ self.old.pool.frames } }) }
        ensures same { OnErr result (self.new ≡ self.old) }
    {
        put_in(&mut self.frames, place)
    }

    fn put_over(&mut self, place: Place, old: Place) -> Result<(), NoMemory>
        requires new { is_listed self.old.pool.frames place.0 place.1 ≡ false }
        requires victim { victim self.old.pool.frames ≡ Some old }
        ensures done { OnOk result (self.new ≡ record self.old {
          pool = record self.old.pool {
            frames = (place, false) ∷ frame_removed self.old.pool.frames old.0 old.1;
            notes = noted self.old.pool.notes (Some old);
          };
        }) }
        ensures same { OnErr result (self.new ≡ self.old) }
    {
        put_over(&mut self.frames, &mut self.notes, place, old)
    }
}

impl Port for Pool {
    ghost view = { shared_view };

    #[tactic(auto, unfolding(device_outside::specs::Pool::answer, device_outside::specs::Pool::after))]
    fn next_notice(&mut self, d: DeviceNo) -> Option<TrackNo> {
        self.notes.take(d)
    }

    #[tactic(auto, unfolding(device_outside::specs::Pool::answer, device_outside::specs::Pool::after))]
    fn touch(&mut self, d: DeviceNo, t: TrackNo) -> bool {
        touch(&mut self.frames, Place::new(d, t))
    }

    fn want_frame(&mut self, d: DeviceNo, t: TrackNo) -> Result<Grant, NoMemory> {
        let place = Place::new(d, t);
        if self.is_listed(place) {
            self.bring_front(place);
            return Ok(Grant::Given);
        }
        if !self.cache_up() {
            self.deny();
            return Ok(Grant::Denied);
        }
        if self.has_room() {
            self.put_in(place)?;
            return Ok(Grant::Given);
        }
        let Some(old) = self.victim() else {
            self.deny();
            return Ok(Grant::Denied);
        };
        self.put_over(place, old)?;
        Ok(Grant::Given)
    }

    #[tactic(auto, unfolding(device_outside::specs::Pool::answer, device_outside::specs::Pool::after))]
    fn set_modified(&mut self, d: DeviceNo, t: TrackNo) -> bool {
        mark(&mut self.frames, Place::new(d, t), true)
    }

    #[tactic(auto, unfolding(device_outside::specs::Pool::answer, device_outside::specs::Pool::after))]
    fn set_clean(&mut self, d: DeviceNo, t: TrackNo) {
        mark(&mut self.frames, Place::new(d, t), false);
    }

    #[tactic(auto, unfolding(device_outside::specs::Pool::answer, device_outside::specs::Pool::after))]
    fn drop_frame(&mut self, d: DeviceNo, t: TrackNo) {
        take_out(&mut self.frames, Place::new(d, t));
    }

    #[tactic(auto, unfolding(device_outside::specs::Pool::answer, device_outside::specs::Pool::after))]
    fn want_slot(&mut self) -> SlotGrant {
        self.slots.want()
    }

    #[tactic(auto, unfolding(device_outside::specs::Pool::answer, device_outside::specs::Pool::after))]
    fn free_slot(&mut self, slot: usize) {
        self.slots.free(slot);
    }

    #[tactic(auto, unfolding(device_outside::specs::Pool::answer, device_outside::specs::Pool::after))]
    fn tell_waiting(&mut self, d: DeviceNo, n: u16) {
        self.waiting[usize::from(d.get())] = n;
    }
}
