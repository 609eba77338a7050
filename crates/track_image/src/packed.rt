ghost use Rattle.std.specs.Prelude.{◌≡◌, ◌<◌, ◌≤◌, ◌+◌, ◌∷◌, [], ◌++◌, IfOk, OnOk, OnErr, IsOk, IfSome, All, length};
ghost use Rattle.std.specs.Prelude.{take, drop, slice_index_or, position, sum_by, vec_capacity, vec_len, ◌^◌};
ghost use Rattle.std.specs.List.{flat_map};
ghost use Rattle.ckd_types.specs.Geometry.{cost};
ghost use Rattle.ckd_types.specs.Track.{IsRecord, cost_of, find_id, is_same_id, empty_zero, record_bytes, end_mark, track_bytes};
ghost use Rattle.ckd_types.specs.Edit.{apply_edit};
ghost use Rattle.ckd_types.specs.declared.record.Edit.TheVariants as edits;
ghost use Rattle.track_image.specs.Packed.{IsPacked, most_bytes, record_from, unpacked};
ghost use Rattle.track_image.specs.Reading.{count_at, size_of};

use crate::count::{AREA, count_at, home_area, id_at};
use crate::tape::{MOST, end_with, make_room, rest_of, write_areas};
use crate::{RecordRef, RecordRoom};
use ckd_types::{Cchh, Geometry, NoMemory, RecId, cost};
use std::alloc::Global;
use std::marker::Model;

/// The bytes of a track that has record 0 alone.
const LEAST: usize = 29;

/// Bytes of a home address.
const HOME: usize = 5;

/// The records of a track in its bytes, and the places where they begin. There is room for a whole track
/// as soon as a record stands behind record 0.
#[derive(Debug, Drop)]
pub(crate) struct Packed {
    home: Cchh,
    bytes: Vec<u8>,
    places: Vec<u16>,
}

impl Model for Packed {
    ghost use Rattle.std.specs.Prelude.{vec_capacity};
    ghost use Rattle.ckd_types.specs.declared.record.Track.{Track};
    ghost use Rattle.track_image.specs.Packed.{IsPacked, HasRoom, unpacked};

    ghost Value = { Track };

    ghost view = { λ p. record { home = p.home; records = unpacked p.bytes.items p.places.items } };

    ghost invariant = { λ p. IsPacked p.home p.bytes.items p.places.items (unpacked p.bytes.items p.places.items) ×
        HasRoom p.places.items (vec_capacity p.bytes) };
}

/// The record at the front of bytes.
fn record_of(bytes: &[u8]) -> RecordRef<'_>
    requires within { 8 + ((count_at bytes.now).key + (count_at bytes.now).body) ≤ length bytes.now }
    requires ranges { IsRecord (record_from bytes.now) }
    ensures { result ≡ record_from bytes.now }
{
    let count = count_at(bytes);
    let areas = rest_of(bytes, AREA);
    let (key, rest) = areas.split_at(usize::from(count.key));
    let (body, _) = rest.split_at(usize::from(count.body));
    RecordRef::new(count.id, key, body)
}

/// The bytes of the record at the front of bytes.
fn whole_of(bytes: &[u8]) -> &[u8]
    requires { 8 + ((count_at bytes.now).key + (count_at bytes.now).body) ≤ length bytes.now }
    ensures { result.now ≡ take (8 + ((count_at bytes.now).key + (count_at bytes.now).body)) bytes.now }
{
    let count = count_at(bytes);
    let size = AREA + (usize::from(count.key) + usize::from(count.body));
    let (whole, _) = bytes.split_at(size);
    whole
}

/// The index of the first of some places where a record with an id begins.
fn find_at(bytes: &[u8], places: &[u16], id: RecId) -> Option<usize>
    requires { All (λ place. place + 8 ≤ length bytes.now) places.now }
    ensures { result ≡ position (λ place. is_same_id (count_at (drop place bytes.now)).id id) places.now }
{
    for i in 0..places.len() {
        if id_at(rest_of(bytes, usize::from(places[i]))) == id {
            return Some(i);
        }
    }
    None
}

/// The units that the records that begin at some places take.
fn cost_at(geometry: Geometry, bytes: &[u8], places: &[u16]) -> u32
    requires within { All (λ place. place + 8 ≤ length bytes.now) places.now }
    requires bound { sum_by (λ place. cost geometry (count_at (drop place bytes.now)).key (count_at (drop place bytes.now)).body) places.now < 2 ^ 32 }
    ensures { result ≡ sum_by (λ place. cost geometry (count_at (drop place bytes.now)).key (count_at (drop place bytes.now)).body) places.now }
{
    let mut total = 0;
    for place in places {
        let count = count_at(rest_of(bytes, usize::from(*place)));
        total += cost(geometry, count.key, count.body);
    }
    total
}

/// Sees that a place can come behind the one at `after`.
fn make_place(places: &mut Vec<u16>, after: usize) -> Result<(), NoMemory>
    requires { after < length places.old.items }
    ensures same { places.new.items ≡ places.old.items }
    ensures spare { OnOk result (length places.new.items ≤ after + 1 → vec_len places.new < vec_capacity places.new) }
    ensures cut { after + 1 < length places.old.items → IsOk result }
{
    if places.len() <= after + 1 {
        places.reserve(1)?;
    }
    Ok(())
}

/// Sees that a record can come behind the one at `after`, in room that was made.
fn serve_behind(room: &mut RecordRoom, bytes: &mut Vec<u8>, places: &mut Vec<u16>, after: usize)
    requires place { after < length places.old.items }
    requires short { length bytes.old.items ≤ most_bytes }
    requires long { after + 1 < length places.old.items → most_bytes ≤ vec_capacity bytes.old }
    requires room { length places.old.items ≤ after + 1 → length places.old.items < room.old }
    ensures bytes { bytes.new.items ≡ bytes.old.items }
    ensures places { places.new.items ≡ places.old.items }
    ensures long { most_bytes ≤ vec_capacity bytes.new }
    ensures spare { length places.new.items ≤ after + 1 → vec_len places.new < vec_capacity places.new }
{
    if places.len() <= after + 1 {
        room.serve(bytes, places);
    }
}

/// Puts a place behind the one at `after`, in place of all that stood there and in room that was made.
fn put_behind(places: &mut Vec<u16>, after: usize, place: u16)
    requires place { after < length places.old.items }
    requires spare { length places.old.items ≤ after + 1 → vec_len places.old < vec_capacity places.old }
    ensures { places.new.items ≡ take (after + 1) places.old.items ++ place ∷ [] }
{
    if after + 1 < places.len() {
        places[after + 1] = place;
        places.truncate(after + 2);
    } else {
        places.push_reserved(place);
    }
}

impl Packed {
    /// The records of a track's bytes, which begin at these places.
    pub fn of(alloc: Global, home: Cchh, bytes: &[u8], places: &[u16]) -> Result<Packed, NoMemory>
        requires { IsPacked home bytes.now places.now (unpacked bytes.now places.now) }
        ensures { IfOk result (λ made. made ≡ record { home = home; records = unpacked bytes.now places.now }) }
    {
        let room = if places.len() == 1 { LEAST } else { MOST };
        let mut own = Vec::with_capacity(alloc, room)?;
        own.extend_from_slice(bytes)?;
        let mut own_places = Vec::with_capacity(alloc, places.len())?;
        own_places.extend_from_slice(places)?;
        Ok(Packed {
            home,
            bytes: own,
            places: own_places,
        })
    }

    /// Record 0 alone.
    pub fn one(alloc: Global, home: Cchh, zero: &RecordRef<'_>) -> Result<Packed, NoMemory>
        requires ranges { IsRecord zero.now }
        requires key { length zero.now.key ≡ 0 }
        requires body { length zero.now.body ≡ 8 }
        ensures { IfOk result (λ made. made ≡ record { home = home; records = zero.now ∷ [] }) }
    {
        let mut bytes = Vec::with_capacity(alloc, LEAST)?;
        bytes.extend_from_slice(&home_area(home))?;
        end_with(&mut bytes, HOME, zero);
        let places = Vec::from_slice(alloc, &[HOME as u16])?;
        Ok(Packed {
            home,
            bytes,
            places,
        })
    }

    /// The cylinder and head that its home area names.
    pub fn home(&self) -> Cchh
        ensures { result ≡ self.now.home }
    {
        self.home
    }

    /// How many records it has, record 0 among them.
    pub fn len(&self) -> usize
        ensures value { result ≡ length self.now.records }
        ensures least { 1 ≤ result }
        ensures range { result < 2 ^ 63 }
    {
        self.places.len()
    }

    /// The track's bytes.
    pub fn bytes(&self) -> &[u8]
        ensures value { result.now ≡ track_bytes self.now }
        ensures most { length result.now ≤ most_bytes }
    {
        &self.bytes
    }

    /// Where record `i` begins, or the end mark where there is none.
    fn place_of(&self, i: usize) -> usize
        requires { i ≤ length self.now.records }
        ensures { result ≡ 5 + length (flat_map record_bytes (take i self.now.records)) }
    {
        if i < self.places.len() {
            usize::from(self.places[i])
        } else {
            self.bytes.len() - AREA
        }
    }

    /// The bytes of record `i` and those behind it, and the end mark.
    pub fn bytes_behind(&self, i: usize) -> &[u8]
        requires { i ≤ length self.now.records }
        ensures value { result.now ≡ flat_map record_bytes (drop i self.now.records) ++ end_mark }
        ensures most { length result.now ≤ most_bytes }
    {
        rest_of(&self.bytes, self.place_of(i))
    }

    /// The bytes of record `i`.
    pub fn bytes_of(&self, i: usize) -> &[u8]
        requires { i < length self.now.records }
        ensures { result.now ≡ record_bytes (slice_index_or self.now.records i (empty_zero 0)) }
    {
        whole_of(rest_of(&self.bytes, usize::from(self.places[i])))
    }

    /// The bytes of record `i` and those behind it.
    pub fn bytes_of_rest(&self, i: usize) -> &[u8]
        requires { i ≤ length self.now.records }
        ensures value { result.now ≡ flat_map record_bytes (drop i self.now.records) }
        ensures most { length result.now ≤ most_bytes }
    {
        let behind = self.bytes_behind(i);
        let (records, _) = behind.split_at(behind.len() - AREA);
        records
    }

    /// The index of the first record with an id.
    pub fn find(&self, id: RecId) -> Option<usize>
        ensures found { result ≡ find_id id self.now.records }
        ensures range { IfSome result (λ i. i < length self.now.records) }
    {
        find_at(&self.bytes, &self.places, id)
    }

    /// A record, lent from the bytes: 0 is record 0, and the others follow in their order on the track.
    pub fn record_at(&self, i: usize) -> RecordRef<'_>
        requires { i < length self.now.records }
        ensures { result ≡ slice_index_or self.now.records i (empty_zero 0) }
    {
        record_of(rest_of(&self.bytes, usize::from(self.places[i])))
    }

    /// The units that records 1 to `after` take.
    pub fn cost_to(&self, geometry: Geometry, after: usize) -> u32
        requires place { after < length self.now.records }
        requires bound { cost_of geometry (take (after + 1) self.now.records) < 2 ^ 32 }
        ensures { result ≡ cost_of geometry (take (after + 1) self.now.records) }
    {
        cost_at(geometry, &self.bytes, &self.places[1..after + 1])
    }

    /// Writes another key and other data of the same lengths into record `i`. Takes no memory.
    pub fn overwrite(&mut self, i: usize, key: &[u8], body: &[u8])
        requires place { i < length self.old.records }
        requires key { length key.now ≡ length (slice_index_or self.old.records i (empty_zero 0)).key }
        requires body { length body.now ≡ length (slice_index_or self.old.records i (empty_zero 0)).body }
        ensures { self.new ≡ apply_edit (edits.Update i key.now body.now) self.old }
    {
        let at = usize::from(self.places[i]) + AREA;
        write_areas(self.bytes.as_mut_slice(), at, key, body);
    }

    /// Puts a record behind record `after`, in place of all that stood there. Takes memory only behind
    /// the last record.
    pub fn cut_and_add(&mut self, after: usize, added: &RecordRef<'_>) -> Result<(), NoMemory>
        requires place { after < length self.old.records }
        requires ranges { IsRecord added.now }
        requires short { length (flat_map record_bytes (take (after + 1) self.old.records)) + size_of added.now + 13 ≤ most_bytes }
        ensures added { OnOk result (self.new ≡ apply_edit (edits.Format after added.now) self.old) }
        ensures same { OnErr result (self.new ≡ self.old) }
        ensures cut { after + 1 < length self.old.records → IsOk result }
    {
        let end = self.place_of(after + 1);
        make_room(&mut self.bytes)?;
        make_place(&mut self.places, after)?;
        put_behind(&mut self.places, after, end as u16);
        end_with(&mut self.bytes, end, added);
        Ok(())
    }

    /// Puts a record behind record `after`, in place of all that stood there and in room that was made.
    /// Takes no memory.
    pub fn cut_and_add_within(&mut self, after: usize, added: &RecordRef<'_>, room: &mut RecordRoom)
        requires place { after < length self.old.records }
        requires ranges { IsRecord added.now }
        requires short { length (flat_map record_bytes (take (after + 1) self.old.records)) + size_of added.now + 13 ≤ most_bytes }
        requires room { length self.old.records ≤ after + 1 → length self.old.records < room.old }
        ensures { self.new ≡ apply_edit (edits.Format after added.now) self.old }
    {
        let end = self.place_of(after + 1);
        serve_behind(room, &mut self.bytes, &mut self.places, after);
        put_behind(&mut self.places, after, end as u16);
        end_with(&mut self.bytes, end, added);
    }

    /// Makes a record the only one. Takes no memory.
    pub fn set_zero(&mut self, zero: &RecordRef<'_>)
        requires ranges { IsRecord zero.now }
        requires key { length zero.now.key ≡ 0 }
        requires body { length zero.now.body ≡ 8 }
        ensures { self.new ≡ apply_edit (edits.Zero zero.now) self.old }
    {
        end_with(&mut self.bytes, HOME, zero);
        self.places.truncate(1);
    }

    /// An equal one in memory of its own, with as much room as a track takes.
    pub fn copy(&self, alloc: Global) -> Result<Packed, NoMemory>
        ensures { IfOk result (λ made. made ≡ self.now) }
    {
        Packed::of(alloc, self.home, &self.bytes, &self.places)
    }
}
