ghost use Rattle.std.specs.Prelude.{◌≡◌, ◌<◌, ◌≤◌, ◌-◌, ◌+◌, ◌*◌, ◌++◌, [], IfOk, length, replicate, slice_index_or, slice_set, take, drop, vec_capacity};
ghost use Rattle.device_outside.specs.Rooms.{bytes_of, held_in};

use ckd_types::NoMemory;
use std::alloc::Global;
use std::marker::Model;

/// How many bytes all the rooms have that one track may have, one after another.
const ALL_ROOMS: usize = 86048;

/// How much room a track has. One that needs more gets a greater room, and the old one stays unused.
#[derive(Clone, Copy, Debug)]
enum RoomSize {
    Nothing,
    Least,
    Page,
    Quarter,
    Whole,
}

fn bytes_of(size: RoomSize) -> usize
    ensures { result ≡ bytes_of size }
{
    match size {
        RoomSize::Nothing => 0,
        RoomSize::Least => 32,
        RoomSize::Page => 4096,
        RoomSize::Quarter => 16384,
        RoomSize::Whole => 65536,
    }
}

/// The least size that has room for this many bytes.
fn size_for(count: usize) -> RoomSize
    requires { count ≤ 65536 }
    ensures { count ≤ bytes_of result }
{
    if count <= 32 {
        RoomSize::Least
    } else if count <= 4096 {
        RoomSize::Page
    } else if count <= 16384 {
        RoomSize::Quarter
    } else {
        RoomSize::Whole
    }
}

/// Where a track's room begins in the region, how many bytes it holds, and its size.
#[derive(Clone, Copy, Debug)]
struct Room {
    start: usize,
    len: usize,
    size: RoomSize,
}

/// Lists of bytes, each of at most 65,536, in one region of memory. All memory is taken at first; a
/// page of it that was never written isn't resident.
#[derive(Drop)]
pub(crate) struct Rooms {
    region: Vec<u8>,
    rooms: Vec<Room>,
}

impl Model for Rooms {
    ghost use Rattle.std.specs.Prelude.{List, ℕ, map, vec_capacity};
    ghost use Rattle.device_outside.specs.Rooms.{IsParted, held_in};

    ghost Value = { List (List ℕ) };

    ghost view = { λ r. map (held_in r.region.items) r.rooms.items };

    ghost invariant = { λ r. IsParted (vec_capacity r.region) r.region.items r.rooms.items };
}

/// Writes bytes over as many of a region.
fn put_over(region: &mut Vec<u8>, start: usize, bytes: &[u8])
    requires { start + length bytes.now ≤ length region.old.items }
    ensures bytes { region.new.items ≡ take start region.old.items ++ (bytes.now ++ drop (start + length bytes.now) region.old.items) }
    ensures room { vec_capacity region.old ≤ vec_capacity region.new }
{
    let end = start + bytes.len();
    region.as_mut_slice()[start..end].copy_from_slice(bytes);
}

/// Puts a room behind the others, and bytes into it.
fn put_behind(region: &mut Vec<u8>, bytes: &[u8], size: usize)
    requires fits { length bytes.now ≤ size }
    requires room { length region.old.items + size ≤ vec_capacity region.old }
    ensures bytes { region.new.items ≡ region.old.items ++ (bytes.now ++ replicate (size - length bytes.now) 0) }
    ensures room { vec_capacity region.old ≤ vec_capacity region.new }
{
    let end = region.len() + size;
    region.extend_from_slice(bytes).unwrap();
    region.resize(end, 0).unwrap();
}

impl Rooms {
    /// So many empty lists.
    pub(crate) fn new(alloc: Global, count: usize) -> Result<Rooms, NoMemory>
        requires { count ≤ 65535 }
        ensures { IfOk result (λ made. made ≡ replicate count []) }
    {
        let none = Room {
            start: 0,
            len: 0,
            size: RoomSize::Nothing,
        };
        let region = Vec::with_capacity(alloc, count * ALL_ROOMS)?;
        let mut rooms = Vec::new(alloc);
        rooms.resize(count, none)?;
        Ok(Rooms { region, rooms })
    }

    /// How many lists there are.
    pub(crate) fn len(&self) -> usize
        ensures { result ≡ length self.now }
    {
        self.rooms.len()
    }

    /// The bytes of a list.
    pub(crate) fn bytes(&self, i: usize) -> &[u8]
        requires { i < length self.now }
        ensures bytes { result.now ≡ slice_index_or self.now i [] }
        ensures most { length result.now ≤ 65536 }
    {
        let room = self.rooms[i];
        &self.region[room.start..room.start + room.len]
    }

    /// Other bytes in place of a list's. Takes no memory.
    pub(crate) fn set(&mut self, i: usize, bytes: &[u8])
        requires there { i < length self.old }
        requires most { length bytes.now ≤ 65536 }
        ensures { self.new ≡ slice_set self.old i bytes.now }
    {
        let len = bytes.len();
        let old = self.rooms[i];
        if len <= bytes_of(old.size) {
            put_over(&mut self.region, old.start, bytes);
            self.rooms[i] = Room {
                start: old.start,
                len,
                size: old.size,
            };
            return;
        }
        let size = size_for(len);
        let start = self.region.len();
        put_behind(&mut self.region, bytes, bytes_of(size));
        self.rooms[i] = Room { start, len, size };
    }
}
