ghost use Rattle.std.specs.Prelude.{◌≡◌, ◌≤◌, ◌<◌, ◌+◌, ◌*◌, ◌^◌, ◌∷◌, [], ℕ, IfErr, IfOk, IfSome, OnOk, IsOk, All, Ok, Err, length, take, drop, option_map};
ghost use Rattle.ckd_types.specs.declared.record.Track.{Track};
ghost use Rattle.ckd_types.specs.Geometry.{cost, capacity, cchh_of};
ghost use Rattle.ckd_types.specs.Track.{Fits, cost_of, track_bytes};
ghost use Rattle.track_image.specs.Packed.{IsFound, record_from, unpacked};
ghost use Rattle.track_image.specs.Reading.{Gives, map_ok, areas_at, count_at, zero_at, next_at, reading, records_at, IsNext, has_areas};

use crate::count::{AREA, Count, count_at, home_area};
use crate::packed::Packed;
use crate::tape::rest_of;
use crate::{BytesFault, TrackImage};
use ckd_types::{Cchh, Geometry, TrackNo, capacity, cchh_of, cost};
use std::alloc::Global;

/// The bytes of a home address.
const HOME: usize = 5;

/// Where record 1 stands: behind the home address, and the count area and eight bytes of record 0.
const BEHIND_ZERO: usize = 21;

/// The most records of a track: each but record 0 takes 16 units.
const MOST: usize = 110;

/// The records that stand in bytes: how many, and the units that those behind record 0 take.
#[derive(Clone, Copy, Debug)]
struct Found {
    count: usize,
    spent: u32,
}

/// Whether key and data stand at `at` behind their count area, or else which is cut.
#[tactic(auto, unfolding(crate::specs::Reading::areas_at))]
fn areas_at(count: Count, rest: &[u8], at: usize) -> Result<(), usize>
    requires { at + length rest.now < 2 ^ 64 }
    ensures exact { areas_at at count rest.now ≡ map_ok (λ _. has_areas count rest.now) result }
    ensures within { OnOk result (count.key + count.body ≤ length rest.now) }
    ensures fault { IfErr result (λ offset. offset ≤ at + length rest.now) }
{
    let key = usize::from(count.key);
    let body = usize::from(count.body);
    if rest.len() < key {
        return Err(at);
    }
    if rest.len() < key + body {
        return Err(at + key);
    }
    Ok(())
}

/// Whether record 0 stands at `at`.
#[tactic(auto, unfolding(crate::specs::Reading::zero_at))]
fn zero_at(rest: &[u8], at: usize) -> Result<(), usize>
    requires { at + length rest.now < 2 ^ 64 }
    ensures exact { zero_at at rest.now ≡ map_ok (λ _. record_from rest.now) result }
    ensures key { OnOk result ((count_at rest.now).key ≡ 0) }
    ensures body { OnOk result ((count_at rest.now).body ≡ 8) }
    ensures within { OnOk result (16 ≤ length rest.now) }
    ensures fault { IfErr result (λ offset. offset ≤ at + length rest.now) }
{
    if rest.len() < AREA {
        return Err(at);
    }
    let count = count_at(rest);
    if count.key == 0 && count.body == 8 {
        areas_at(count, &rest[AREA..], at + AREA)
    } else {
        Err(at)
    }
}

/// The count area of the record that stands at `at` behind those that took `spent` units, or none where
/// the track ends.
#[tactic(auto, unfolding(crate::specs::Reading::next_at))]
fn next_at(geometry: Geometry, spent: u32, rest: &[u8], at: usize) -> Result<Option<Count>, usize>
    requires place { at + length rest.now < 2 ^ 64 }
    requires spent { spent ≤ capacity geometry }
    ensures exact { next_at geometry spent at rest.now ≡ map_ok (λ o. option_map (λ _. record_from rest.now) o) result }
    ensures next { IfOk result (λ o. IfSome o (λ c. IsNext geometry spent rest.now c)) }
    ensures fault { IfErr result (λ offset. offset ≤ at + length rest.now) }
{
    if rest.len() < AREA {
        return Err(at);
    }
    if rest.starts_with(&[0xff; AREA]) {
        if rest.len() == AREA {
            return Ok(None);
        }
        return Err(at + AREA);
    }
    let count = count_at(rest);
    if spent + cost(geometry, count.key, count.body) > capacity(geometry) {
        return Err(at);
    }
    areas_at(count, &rest[AREA..], at + AREA)?;
    Ok(Some(count))
}

/// The places of the records behind record 0, which stands there. Takes no memory.
fn find_records(geometry: Geometry, bytes: &[u8], places: &mut [u16]) -> Result<Found, usize>
    requires long { BEHIND_ZERO ≤ length bytes.now }
    requires key { (count_at (drop HOME bytes.now)).key ≡ 0 }
    requires body { (count_at (drop HOME bytes.now)).body ≡ 8 }
    requires places { length places.old ≡ MOST }
    ensures exact { map_ok (λ others. record_from (drop HOME bytes.now) ∷ others)
        (records_at (length bytes.now) geometry 0 BEHIND_ZERO (drop BEHIND_ZERO bytes.now))
        ≡ map_ok (λ f. unpacked bytes.now (take f.count places.new)) result }
    ensures found { IfOk result (λ f. IsFound geometry bytes.now (take f.count places.new) f.spent) }
    ensures fault { IfErr result (λ offset. offset ≤ length bytes.now) }
    ensures count { IfOk result (λ f. f.count ≤ MOST) }
    ensures places { length places.new ≡ MOST }
{
    places[0] = HOME as u16;
    let mut count = 1;
    let mut at = BEHIND_ZERO;
    let mut spent = 0;
    'records: while let Some(area) = next_at(geometry, spent, rest_of(bytes, at), at)? {
        places[count] = at as u16;
        count += 1;
        spent += cost(geometry, area.key, area.body);
        at += AREA + usize::from(area.key) + usize::from(area.body);
    }
    Ok(Found { count, spent })
}

/// The places of the records of a track with a home address. Takes no memory.
#[tactic(auto, unfolding(crate::specs::Reading::reading))]
fn find_all(
    geometry: Geometry,
    home: Cchh,
    bytes: &[u8],
    places: &mut [u16],
) -> Result<Found, usize>
    requires places { length places.old ≡ MOST }
    ensures exact { reading geometry home bytes.now ≡ map_ok (λ f. record { home = home; records = unpacked bytes.now (take f.count places.new) }) result }
    ensures found { IfOk result (λ f. IsFound geometry bytes.now (take f.count places.new) f.spent) }
    ensures fault { IfErr result (λ offset. offset ≤ length bytes.now) }
    ensures count { IfOk result (λ f. f.count ≤ MOST) }
    ensures places { length places.new ≡ MOST }
{
    if !bytes.starts_with(&home_area(home)) {
        return Err(0);
    }
    zero_at(rest_of(bytes, HOME), HOME)?;
    find_records(geometry, bytes, places)
}

fn image_at(
    alloc: Global,
    geometry: Geometry,
    home: Cchh,
    bytes: &[u8],
) -> Result<TrackImage, BytesFault>
    ensures exact { Gives (λ i. i.track) result (reading geometry home bytes.now) }
    ensures memory { result ≡ Err BytesFault.NoMemory → IsOk (reading geometry home bytes.now) }
    ensures fits { IfOk result (λ i. Fits i.geometry i.track) }
    ensures within { (offset : ℕ) → result ≡ Err (BytesFault.BadTrack offset) → offset ≤ length bytes.now }
    ensures place { IfOk result (λ i. (i.geometry ≡ geometry) × (i.track.home ≡ home)) }
{
    let mut places = [0; MOST];
    let found = match find_all(geometry, home, bytes, &mut places) {
        Ok(found) => found,
        Err(offset) => return Err(BytesFault::BadTrack { offset }),
    };
    let packed = Packed::of(alloc, home, bytes, &places[..found.count])?;
    let image = TrackImage::of(geometry, packed, found.spent);
    image.fits();
    Ok(image)
}

impl TrackImage {
    /// The image of a track's bytes, as a volume holds them. A fault is told before memory is taken.
    pub fn from_bytes(
        alloc: Global,
        geometry: Geometry,
        track: TrackNo,
        bytes: &[u8],
    ) -> Result<TrackImage, BytesFault>
        // Which track the bytes are, or which field is the first that is wrong or cut.
        ensures exact { Gives (λ i. i.track) result (reading geometry (cchh_of track) bytes.now) }
        // Memory runs out only where the bytes are a track.
        ensures memory { result ≡ Err BytesFault.NoMemory → IsOk (reading geometry (cchh_of track) bytes.now) }
        // A fault is among the bytes, or directly behind them.
        ensures within { (offset : ℕ) → result ≡ Err (BytesFault.BadTrack offset) → offset ≤ length bytes.now }
        // An image is the track that the bytes spell, and fits.
        ensures found { IfOk result (λ i. Fits i.geometry i.track × (bytes.now ≡ track_bytes i.track)) }
        // The bytes of a track that fits are that track, unless memory runs out.
        ensures only { (t : Track) → Fits geometry t → t.home ≡ cchh_of track → bytes.now ≡ track_bytes t → Gives (λ i. i.track) result (Ok t) }
        ensures place { IfOk result (λ i. (i.geometry ≡ geometry) × (i.track.home ≡ cchh_of track)) }
    {
        image_at(alloc, geometry, cchh_of(track), bytes)
    }
}
