ghost use Rattle.std.specs.Prelude.{◌≡◌, ◌≤◌, IfOk, OnOk, length, replicate, true, vec_capacity};
ghost use Rattle.ckd_outside.specs.Causes.{HasCause};
ghost use Rattle.disk_image.specs.Calls.{IsAt, IsRoom, PutsAll};
ghost use Rattle.disk_image.specs.File.{fits_room, is_at, padded, place_of, room_size, track_in_room};

use crate::DiskFile;
use crate::ending::end_in;
use crate::layout::{place_of, room_size};
use ckd_outside::Failed;
use ckd_types::{Geometry, NoMemory, TrackNo};
use std::alloc::Global;
use std::marker::Model;

/// The bytes of one track's room. Contracts see them as a list. Beside it as many zeros are kept.
#[derive(Drop)]
pub struct TrackRoom {
    bytes: Vec<u8>,
    zeros: Vec<u8>,
}

impl Model for TrackRoom {
    ghost use Rattle.std.specs.Prelude.{◌≡◌, ◌≤◌, ℕ, List, length, replicate, vec_capacity};

    ghost Value = { List ℕ };

    ghost view = { λ r. r.bytes.items };

    ghost invariant = { λ r. (r.zeros.items ≡ replicate (length r.zeros.items) 0)
        × (length r.bytes.items ≡ length r.zeros.items)
        × (length r.zeros.items ≤ vec_capacity r.bytes)
        × (length r.zeros.items ≤ 65536) };
}

impl TrackRoom {
    /// The room of a track of this model, with zeros. No other call takes memory.
    pub fn new(alloc: Global, geometry: Geometry) -> Result<TrackRoom, NoMemory>
        ensures { IfOk result (λ made. made ≡ replicate (room_size geometry) 0) }
    {
        let size = room_size(geometry);
        let zeros = vec![in alloc; 0; size]?;
        let mut bytes = Vec::with_capacity(alloc, size)?;
        bytes.extend_from_slice(&zeros)?;
        Ok(TrackRoom { bytes, zeros })
    }

    /// How many bytes it has.
    pub fn len(&self) -> usize
        ensures value { result ≡ length self.now }
        ensures most { result ≤ 65536 }
    {
        self.bytes.len()
    }

    /// The bytes of its track: up to the end mark that its records lead to, or else all of them, as they are.
    pub fn track(&self) -> &[u8]
        ensures value { result.now ≡ track_in_room self.now }
        ensures most { length result.now ≤ 65536 }
    {
        match end_in(&self.bytes) {
            Some(end) => &self.bytes[..end],
            None => &self.bytes,
        }
    }

    /// Puts a track into it, where it comes back from there; else its bytes may be any.
    #[tactic(auto, using(crate::proofs::Fills::fits_by, crate::proofs::Fills::fits_not, crate::proofs::Tracks::padded_length))]
    pub fn set(&mut self, bytes: &[u8]) -> bool
        ensures fits { result ≡ fits_room (length self.old) bytes.now }
        ensures room { result ≡ true → self.new ≡ padded (length self.old) bytes.now }
        ensures size { length self.new ≡ length self.old }
    {
        if bytes.len() <= self.zeros.len() {
            refill(&mut self.bytes, &self.zeros, bytes);
            return is_at(end_in(&self.bytes), bytes.len());
        }
        false
    }

    fn read<F: DiskFile>(&mut self, file: &mut F, at: u64) -> Result<(), Failed>
        ensures held { F.held file.new ≡ F.held file.old }
        ensures bytes { OnOk result (IsAt (F.held file.old) at self.new) }
        ensures size { length self.new ≡ length self.old }
        ensures cause { HasCause (F.faults file.old) (F.faults file.new) result }
    {
        let count = file.read_at(at, self.bytes.as_mut_slice())?;
        if count < self.bytes.len() {
            return Err(Failed);
        }
        Ok(())
    }
}

/// Puts bytes at the front of a room, and zeros behind them.
#[tactic(auto, using(crate::proofs::Fills::zeros_behind))]
fn refill(room: &mut Vec<u8>, zeros: &[u8], bytes: &[u8])
    requires size { length bytes.now ≤ length zeros.now }
    requires space { length zeros.now ≤ vec_capacity room.old }
    requires zeros { zeros.now ≡ replicate (length zeros.now) 0 }
    ensures items { room.new.items ≡ padded (length zeros.now) bytes.now }
    ensures space { length zeros.now ≤ vec_capacity room.new }
{
    let (_, rest) = zeros.split_at(bytes.len());
    room.clear();
    room.extend_from_slice(bytes).unwrap();
    room.extend_from_slice(rest).unwrap();
}

/// Whether a number is there, and is this one.
fn is_at(end: Option<usize>, n: usize) -> bool
    ensures { result ≡ is_at end n }
{
    match end {
        Some(m) => m == n,
        None => false,
    }
}

/// Reads the room of a track, by one call.
pub fn read_room<F: DiskFile>(
    file: &mut F,
    geometry: Geometry,
    t: TrackNo,
    room: &mut TrackRoom,
) -> Result<(), Failed>
    requires { length room.old ≡ room_size geometry }
    ensures held { F.held file.new ≡ F.held file.old }
    ensures room { OnOk result (IsRoom (F.held file.old) geometry t room.new) }
    ensures size { length room.new ≡ length room.old }
    ensures cause { HasCause (F.faults file.old) (F.faults file.new) result }
{
    room.read(file, place_of(geometry, t.get()))
}

/// Writes the room of a track, by one call. Where that fails, a front of it may be written.
pub fn write_room<F: DiskFile>(
    file: &mut F,
    geometry: Geometry,
    t: TrackNo,
    room: &TrackRoom,
) -> Result<(), Failed>
    ensures bytes { PutsAll (F.held file.old) (place_of geometry t) room.now result (F.held file.new) }
    ensures cause { HasCause (F.faults file.old) (F.faults file.new) result }
{
    write_whole(file, place_of(geometry, t.get()), &room.bytes)
}

/// Writes bytes by one call: all of them, or it fails.
pub(crate) fn write_whole<F: DiskFile>(file: &mut F, at: u64, bytes: &[u8]) -> Result<(), Failed>
    ensures bytes { PutsAll (F.held file.old) at bytes.now result (F.held file.new) }
    ensures cause { HasCause (F.faults file.old) (F.faults file.new) result }
{
    let count = file.write_at(at, bytes)?;
    if count < bytes.len() {
        return Err(Failed);
    }
    Ok(())
}
