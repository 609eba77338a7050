ghost use Rattle.std.specs.Prelude.{◌≡◌, ◌<◌, ◌≤◌, ◌+◌, ◌^◌, IfSome, IfOk, IsSomeAnd, Ok};
ghost use Rattle.ckd_rules.specs.Finding.{kept_place, place_on, record_of, next_id, next_count, next_data, next_key, zero_from};
ghost use Rattle.ckd_rules.specs.Finding.{home_from, if_there, next_track, track_after, find_from, search_missed, from_index};
ghost use Rattle.ckd_rules.specs.Updates.{next_area};
ghost use Rattle.ckd_rules.specs.Facts.{IsHere, IsOnward, PassedOnce};

use crate::{Place, Stance};
use ckd_sense::{end_of_cylinder, file_protected, no_record};
use ckd_types::{Extent, HEADS, Sense, TrackNo, permits_move};

/// Where a command finds its record: on this track, with the passes of its index so far; on the next
/// track; or nowhere.
#[derive(Clone, Copy, Debug, PartialEq, Eq)]
pub enum Sought {
    Here { index: usize, passes: u8 },
    Onward(TrackNo),
    Nowhere(Sense),
}

fn kept_place(records: usize, i: usize, place: Place) -> Place
    requires some { 0 < records }
    requires record { record_of place ≡ i }
    ensures kept { result ≡ kept_place records i place }
    ensures within { record_of result < records }
{
    if i < records {
        place
    } else {
        Place::Body(records - 1)
    }
}

/// The place on a track of so many records: behind a record that isn't there it is the data of the
/// last. Own.
pub fn place_on(records: usize, place: Place) -> Place
    requires { 0 < records }
    ensures place { result ≡ place_on records place }
    ensures within { record_of result < records }
{
    match place {
        Place::Index => Place::Index,
        Place::Home => Place::Home,
        Place::Count(i) => kept_place(records, i, place),
        Place::Key(i) => kept_place(records, i, place),
        Place::Body(i) => kept_place(records, i, place),
    }
}

/// The record whose id comes next.
pub fn next_id(place: Place) -> usize
    requires { record_of place + 1 < 2 ^ 64 }
    ensures { result ≡ next_id place }
{
    match place {
        Place::Index | Place::Home => 0,
        Place::Count(i) | Place::Key(i) | Place::Body(i) => i + 1,
    }
}

/// The record whose count area comes next; record 0 has reads of its own.
pub fn next_count(place: Place) -> usize
    requires { record_of place + 1 < 2 ^ 64 }
    ensures { result ≡ next_count place }
{
    match place {
        Place::Index | Place::Home => 1,
        Place::Count(i) | Place::Key(i) | Place::Body(i) => i + 1,
    }
}

/// The record whose data comes next.
pub fn next_data(place: Place) -> usize
    requires { record_of place + 1 < 2 ^ 64 }
    ensures { result ≡ next_data place }
{
    match place {
        Place::Index | Place::Home => 1,
        Place::Count(i) | Place::Key(i) => i,
        Place::Body(i) => i + 1,
    }
}

/// The record whose key comes next.
pub fn next_key(place: Place) -> usize
    requires { record_of place + 1 < 2 ^ 64 }
    ensures { result ≡ next_key place }
{
    match place {
        Place::Index | Place::Home => 1,
        Place::Count(i) => i,
        Place::Key(i) | Place::Body(i) => i + 1,
    }
}

/// The record whose data comes next, or whose key does.
pub fn next_area(with_key: bool, place: Place) -> usize
    requires { record_of place + 1 < 2 ^ 64 }
    ensures { result ≡ next_area with_key place }
{
    if with_key {
        next_key(place)
    } else {
        next_data(place)
    }
}

/// The record that a place is at; before all records that is record 0.
pub fn record_of(place: Place) -> usize
    ensures { result ≡ record_of place }
{
    match place {
        Place::Index | Place::Home => 0,
        Place::Count(i) | Place::Key(i) | Place::Body(i) => i,
    }
}

/// Record 0, which only a place before it shows.
pub fn zero_from(place: Place) -> Option<usize>
    ensures shown { result ≡ zero_from place }
    ensures zero { IfSome result (λ i. i ≡ 0) }
{
    match place {
        Place::Index | Place::Home => Some(0),
        _ => None,
    }
}

/// The home address, which only the index shows.
pub fn home_from(place: Place) -> Option<usize>
    ensures shown { result ≡ home_from place }
    ensures zero { IfSome result (λ i. i ≡ 0) }
{
    match place {
        Place::Index => Some(0),
        _ => None,
    }
}

/// Record `i`, where there are more.
pub fn if_there(records: usize, i: usize) -> Option<usize>
    ensures found { result ≡ if_there records i }
    ensures range { IfSome result (λ k. k < records) }
{
    if i < records { Some(i) } else { None }
}

/// The track behind this one, or the sense that ends the command.
pub fn track_after(extent: Option<Extent>, t: TrackNo) -> Result<TrackNo, Sense>
    ensures { result ≡ track_after extent t }
{
    let n = t.get();
    match extent {
        None => {
            if n % HEADS == HEADS - 1 {
                return Err(end_of_cylinder());
            }
        }
        Some(e) => {
            if e.last.get() <= n {
                return Err(file_protected());
            }
        }
    }
    Ok(TrackNo::new(n + 1).unwrap())
}

fn next_track(stance: &Stance) -> Result<TrackNo, Sense>
    ensures next { result ≡ next_track stance.now }
    ensures after { IfOk result (λ u. track_after stance.now.extent stance.now.track ≡ Ok u) }
{
    if stance.domain.is_none() && !permits_move(stance.mask) {
        return Err(file_protected());
    }
    let track = stance.track;
    track_after(stance.extent, track)
}

fn from_index(passes: u8, again: Option<usize>) -> Sought
    ensures { result ≡ from_index passes again }
{
    match again {
        Some(index) => Sought::Here { index, passes },
        None => Sought::Nowhere(no_record()),
    }
}

fn missed(multitrack: bool, stance: &Stance, again: Option<usize>) -> Sought
    requires { stance.now.passes ≤ 1 }
    ensures sought { result ≡ search_missed multitrack stance.now again }
    ensures after { IsOnward result (λ t. track_after stance.now.extent stance.now.track ≡ Ok t) }
    ensures there { IsHere result (λ i. IsSomeAnd again (λ k. i ≡ k)) }
    ensures passed { PassedOnce result }
{
    if multitrack {
        return match next_track(stance) {
            Ok(t) => Sought::Onward(t),
            Err(sense) => Sought::Nowhere(sense),
        };
    }
    if stance.passes >= 1 {
        return Sought::Nowhere(no_record());
    }
    from_index(stance.passes + 1, again)
}

/// Where a command finds its record on a track of so many records: `first` is the candidate from
/// its place, `again` the one from the index.
pub fn find_from(
    multitrack: bool,
    stance: &Stance,
    records: usize,
    first: Option<usize>,
    again: Option<usize>,
) -> Sought
    requires first { IfSome first (λ i. i < records) }
    requires again { IfSome again (λ i. i < records) }
    requires passes { stance.now.passes ≤ 1 }
    ensures sought { result ≡ find_from multitrack stance.now first again }
    ensures after { IsOnward result (λ t. track_after stance.now.extent stance.now.track ≡ Ok t) }
    ensures there { IsHere result (λ i. i < records) }
    ensures passed { PassedOnce result }
{
    match first {
        Some(index) => Sought::Here {
            index,
            passes: stance.passes,
        },
        None => missed(multitrack, stance, again),
    }
}
