ghost use Rattle.std.specs.Prelude.{◌≡◌, ◌≤◌, ◌<◌, [], OnOk, length, vec_len, vec_capacity};
ghost use Rattle.track_image.specs.Packed.{most_bytes};

use crate::tape::{MOST, make_room};
use ckd_types::NoMemory;
use std::alloc::Global;
use std::marker::Model;
use std::mem;

/// Room for a record behind the last one of a track, made before the first effect of a write. One serves
/// all images of a device, one after the other. Contracts see for how many records it has room, those that
/// the track has already among them.
#[derive(Debug, Drop)]
pub struct RecordRoom {
    bytes: Vec<u8>,
    places: Vec<u16>,
}

impl Model for RecordRoom {
    ghost use Rattle.std.specs.Prelude.{◌≡◌, ℕ, [], vec_capacity};
    ghost use Rattle.track_image.specs.Room.{room_in};

    ghost Value = { ℕ };

    ghost view = { λ r. room_in (vec_capacity r.bytes) (vec_capacity r.places) };

    ghost invariant = { λ r. (r.bytes.items ≡ []) × (r.places.items ≡ []) };
}

/// Sees that a list has this much room: where it has less it moves into the other.
fn widen<T: Drop>(items: &mut Vec<T>, room: &mut Vec<T>, least: usize)
    requires empty { room.old.items ≡ [] }
    requires few { length items.old.items ≤ least }
    requires room { least ≤ vec_capacity room.old }
    ensures items { items.new.items ≡ items.old.items }
    ensures room { least ≤ vec_capacity items.new }
    ensures empty { room.new.items ≡ [] }
{
    if items.capacity() < least {
        let _moved = room.append(items);
        mem::swap(items, room);
    }
}

impl RecordRoom {
    /// No room. Takes no memory.
    pub fn new(alloc: Global) -> RecordRoom
        ensures { result ≡ 0 }
    {
        RecordRoom {
            bytes: Vec::new(alloc),
            places: Vec::new(alloc),
        }
    }

    /// Makes room for so many records. Takes no memory where there is so much room.
    #[tactic(auto, using(crate::proofs::Rooms::room_made, crate::proofs::Rooms::no_less_room))]
    pub fn reserve(&mut self, records: usize) -> Result<(), NoMemory>
        ensures made { OnOk result (records ≤ self.new) }
        ensures least { self.old ≤ self.new }
    {
        make_room(&mut self.bytes)?;
        self.places.reserve(records)?;
        Ok(())
    }

    /// Sees that a track's bytes have room for every track, and its places for one more record.
    #[tactic(auto, using(crate::proofs::Rooms::bytes_had, crate::proofs::Rooms::places_had))]
    pub(crate) fn serve(&mut self, bytes: &mut Vec<u8>, places: &mut Vec<u16>)
        requires short { length bytes.old.items ≤ most_bytes }
        requires room { length places.old.items < self.old }
        ensures bytes { bytes.new.items ≡ bytes.old.items }
        ensures places { places.new.items ≡ places.old.items }
        ensures long { most_bytes ≤ vec_capacity bytes.new }
        ensures spare { vec_len places.new < vec_capacity places.new }
    {
        widen(bytes, &mut self.bytes, MOST);
        let more = places.len() + 1;
        widen(places, &mut self.places, more);
    }
}
