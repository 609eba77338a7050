ghost use Rattle.std.specs.Prelude.{◌≡◌, ◌≢◌, ◌<◌, ◌≤◌, ◌^◌, ◌+◌, ◌↔◌, false, Err, IfOk, OnOk};
ghost use Rattle.std.specs.Prelude.{OnErr, IfSome, true, [], ◌++◌, length, take, drop};
ghost use Rattle.std.specs.List.{flat_map};
ghost use Rattle.ckd_types.specs.Geometry.{cost, capacity};
ghost use Rattle.ckd_types.specs.Track.{IsRecord, Fits, cost_of, find_id, empty_track, home_bytes, record_bytes, end_mark, track_bytes};
ghost use Rattle.ckd_types.specs.declared.record.Edit.TheVariants as edits;
ghost use Rattle.track_image.specs.Image.{record_in, edited_image, is_room_behind};
ghost use Rattle.track_image.specs.Packed.{most_bytes};

use crate::count::home_area;
use crate::packed::Packed;
use crate::{AddFault, RecordRef, RecordRoom};
use ckd_types::{Cchh, Geometry, NoMemory, RecId, Record, TrackNo, capacity, cchh_of, cost};
use std::alloc::Global;
use std::marker::Model;

/// The records of a track that fits on its volume, record 0 first, kept as the track's bytes.
#[derive(Debug, Drop)]
pub struct TrackImage {
    packed: Packed,
    /// The units that the records behind record 0 take.
    spent: u32,
    geometry: Geometry,
}

impl Model for TrackImage {
    ghost use Rattle.std.specs.Prelude.{◌≡◌};
    ghost use Rattle.ckd_types.specs.Track.{Fits, cost_of};
    ghost use Rattle.track_image.specs.Image.{Image};

    ghost Value = { Image };

    ghost view = { λ i. record { geometry = i.geometry; track = i.packed } };

    ghost invariant = { λ i. Fits i.geometry i.packed × (i.spent ≡ cost_of i.geometry i.packed.records) };
}

impl TrackImage {
    /// A track that has record 0 alone, with eight zero bytes of data.
    pub fn empty(alloc: Global, geometry: Geometry, track: TrackNo) -> Result<TrackImage, NoMemory>
        ensures { IfOk result (λ made. made ≡ record { geometry = geometry; track = empty_track track }) }
    {
        let home = cchh_of(track);
        let zero = RecordRef::new(RecId { cchh: home, r: 0 }, &[], &[0; 8]);
        let packed = Packed::one(alloc, home, &zero)?;
        Ok(TrackImage {
            packed,
            spent: 0,
            geometry,
        })
    }

    /// The track of packed records, of which those behind record 0 take so many units.
    pub(crate) fn of(geometry: Geometry, packed: Packed, spent: u32) -> TrackImage
        requires fits { Fits geometry packed }
        requires spent { spent ≡ cost_of geometry packed.records }
        ensures { result ≡ record { geometry = geometry; track = packed } }
    {
        TrackImage {
            packed,
            spent,
            geometry,
        }
    }

    /// The model of its volume.
    pub fn geometry(&self) -> Geometry
        ensures { result ≡ self.now.geometry }
    {
        self.geometry
    }

    /// Where the track is: the cylinder and the head of its home address.
    pub fn home(&self) -> Cchh
        ensures { result ≡ self.now.track.home }
    {
        self.packed.home()
    }

    /// The home address, as the track begins with it.
    pub fn home_area(&self) -> [u8; 5]
        ensures { result ≡ home_bytes self.now.track.home }
    {
        home_area(self.packed.home())
    }

    /// An image fits its volume.
    pub fn fits(&self)
        ensures { Fits self.now.geometry self.now.track }
    {
        let _ = &self.geometry;
    }

    /// How many records there are, with record 0.
    pub fn len(&self) -> usize
        ensures value { result ≡ length self.now.track.records }
        ensures least { 1 ≤ result }
        ensures range { result < 2 ^ 63 }
    {
        self.packed.len()
    }

    /// The bytes of the track, as a volume holds them. Takes no memory.
    pub fn bytes(&self) -> &[u8]
        ensures value { result.now ≡ track_bytes self.now.track }
        ensures most { length result.now ≤ most_bytes }
    {
        self.packed.bytes()
    }

    /// The bytes of record `i` and those behind it, and the end mark. Takes no memory.
    pub fn bytes_behind(&self, i: usize) -> &[u8]
        requires { i ≤ length self.now.track.records }
        ensures value { result.now ≡ flat_map record_bytes (drop i self.now.track.records) ++ end_mark }
        ensures most { length result.now ≤ most_bytes }
    {
        self.packed.bytes_behind(i)
    }

    /// The bytes of record `i`. Takes no memory.
    pub fn bytes_of(&self, i: usize) -> &[u8]
        requires { i < length self.now.track.records }
        ensures { result.now ≡ record_bytes (record_in self.now i) }
    {
        self.packed.bytes_of(i)
    }

    /// The bytes of record `i` and those behind it. Takes no memory.
    pub fn bytes_of_rest(&self, i: usize) -> &[u8]
        requires { i ≤ length self.now.track.records }
        ensures { result.now ≡ flat_map record_bytes (drop i self.now.track.records) }
    {
        self.packed.bytes_of_rest(i)
    }

    /// The index of the first record with an id.
    pub fn find(&self, id: RecId) -> Option<usize>
        ensures found { result ≡ find_id id self.now.track.records }
        ensures range { IfSome result (λ i. i < length self.now.track.records) }
    {
        self.packed.find(id)
    }

    /// Record `i`, from 0 on, which lends its key and its data. Takes no memory.
    pub fn record_at(&self, i: usize) -> RecordRef<'_>
        requires { i < length self.now.track.records }
        ensures { result ≡ record_in self.now i }
    {
        self.packed.record_at(i)
    }

    /// How many bytes record `i` and those behind it have.
    pub fn bytes_from(&self, i: usize) -> usize
        requires { i ≤ length self.now.track.records }
        ensures value { result ≡ length (flat_map record_bytes (drop i self.now.track.records)) }
        ensures bound { result < 2 ^ 32 }
    {
        self.packed.bytes_of_rest(i).len()
    }

    /// Whether a record with a key and data of these lengths fits behind record `after`.
    pub fn takes(&self, after: usize, key: u8, body: u16) -> bool
        requires { after < length self.now.track.records }
        ensures { result ≡ is_room_behind self.now after key body }
    {
        self.cost_to(after) + cost(self.geometry, key, body) <= capacity(self.geometry)
    }

    /// The units that records 1 to `after` take.
    fn cost_to(&self, after: usize) -> u32
        requires { after < length self.now.track.records }
        ensures value { result ≡ cost_of self.now.geometry (take (after + 1) self.now.track.records) }
        ensures bound { result ≤ capacity self.now.geometry }
    {
        let last = self.packed.len() - 1;
        if after == last {
            self.spent
        } else {
            self.packed.cost_to(self.geometry, after)
        }
    }

    /// Writes another key and other data of the same lengths into record `i`. Takes no memory.
    pub fn update(&mut self, i: usize, key: &[u8], body: &[u8])
        requires place { i < length self.old.track.records }
        requires key { length key.now ≡ length (record_in self.old i).key }
        requires body { length body.now ≡ length (record_in self.old i).body }
        ensures { self.new ≡ edited_image (edits.Update i key.now body.now) self.old }
    {
        self.packed.overwrite(i, key, body);
    }

    /// Adds a record behind record `after`, and erases what stood there. Takes memory only behind
    /// the last record.
    pub fn cut_and_add(&mut self, after: usize, added: &Record) -> Result<(), AddFault>
        requires place { after < length self.old.track.records }
        requires ranges { IsRecord added.now }
        ensures unfit { (result ≡ Err AddFault.Unfit) ↔ (is_room_behind self.old after (length added.now.key) (length added.now.body) ≡ false) }
        ensures added { OnOk result (self.new ≡ edited_image (edits.Format after added.now) self.old) }
        ensures same { OnErr result (self.new ≡ self.old) }
        ensures cut { after + 1 < length self.old.track.records → result ≢ Err AddFault.NoMemory }
    {
        let key = added.key.as_slice();
        let body = added.body.as_slice();
        let spent = self.cost_to(after) + cost(self.geometry, key.len() as u8, body.len() as u16);
        if spent > capacity(self.geometry) {
            return Err(AddFault::Unfit);
        }
        self.packed
            .cut_and_add(after, &RecordRef::new(added.id, key, body))?;
        self.spent = spent;
        Ok(())
    }

    /// Adds a record that fits behind record `after`, and erases what stood there. Behind the last record it
    /// comes into room that was made. Takes no memory.
    pub fn cut_and_add_within(&mut self, after: usize, added: &Record, room: &mut RecordRoom)
        requires place { after < length self.old.track.records }
        requires ranges { IsRecord added.now }
        requires fits { is_room_behind self.old after (length added.now.key) (length added.now.body) ≡ true }
        requires room { length self.old.track.records ≤ after + 1 → length self.old.track.records < room.old }
        ensures { self.new ≡ edited_image (edits.Format after added.now) self.old }
    {
        let key = added.key.as_slice();
        let body = added.body.as_slice();
        let units = self.cost_to(after) + cost(self.geometry, key.len() as u8, body.len() as u16);
        self.packed
            .cut_and_add_within(after, &RecordRef::new(added.id, key, body), room);
        self.spent = units;
    }

    /// Makes a record the track's only one. Takes no memory.
    pub fn set_zero(&mut self, zero: &Record)
        requires key { length zero.now.key ≡ 0 }
        requires body { length zero.now.body ≡ 8 }
        ensures { self.new ≡ edited_image (edits.Zero zero.now) self.old }
    {
        let zero = RecordRef::zero(zero.id, zero.key.as_slice(), zero.body.as_slice());
        self.packed.set_zero(&zero);
        self.spent = 0;
    }

    /// The same image in memory of its own.
    pub fn copy(&self, alloc: Global) -> Result<TrackImage, NoMemory>
        ensures { IfOk result (λ made. made ≡ self.now) }
    {
        let packed = self.packed.copy(alloc)?;
        Ok(TrackImage {
            packed,
            spent: self.spent,
            geometry: self.geometry,
        })
    }
}
