ghost use Rattle.std.specs.Prelude.{◌≡◌, ℕ, ◌≤◌, ◌<◌, ◌+◌, ◌++◌, IfOk, IsOk, IsTrue, OnOk, OnErr, [], false, true, None, Some, length, replicate, slice_index, slice_set, vec_capacity, vec_len};
ghost use Rattle.std.specs.Borrow.{Lends, sem};
ghost use Rattle.std.specs.Option.{option_copied};
ghost use Rattle.track_table.specs.Bits.{is_marked};
ghost use Rattle.track_table.specs.Table.{entry_at, has_entry, with_places};
ghost use Rattle.track_table.specs.contracts.table.TrackTable.{the_row};

use crate::{CountedBits, TrackBits};
use ckd_types::{NoMemory, TrackNo};
use std::alloc::Global;
use std::marker::Model;
use std::mem;

/// What a device keeps of some of its tracks. Contracts see a place for each track that has been made
/// room for, in the order of the tracks. In memory the entries stand without gaps, so that a track without one takes two bytes.
#[derive(Debug, Drop)]
pub struct TrackTable<T> {
    /// For each place 0, or one more than where its entry stands.
    index: Vec<u16>,
    entries: Vec<T>,
    /// The track of each entry.
    tracks: Vec<TrackNo>,
    /// The tracks that have an entry.
    held: CountedBits,
}

impl<T> Model for TrackTable<T> {
    ghost use Rattle.std.specs.Prelude.{◌≡◌, ℕ, ◌≤◌, List, Option, length, vec_capacity};
    ghost use Rattle.track_table.specs.Bits.{is_marked};
    ghost use Rattle.track_table.specs.Sparse.{IsSparse, places_of};
    ghost use Rattle.track_table.specs.Table.{has_entry};

    ghost Value = { List (Option T) };

    ghost view = { λ t. places_of t.index.items t.entries.items };

    ghost invariant = { λ a. IsSparse (length a.entries.items) a.index.items a.tracks.items ×
        ((t : ℕ) → is_marked a.held t ≡ has_entry (places_of a.index.items a.entries.items) t) ×
        (length a.index.items ≤ vec_capacity a.entries) × (length a.index.items ≤ vec_capacity a.tracks) };
}

/// A track's number: 0, or one more than where its entry stands.
fn number_of(index: &Vec<u16>, t: TrackNo) -> u16
    ensures { result ≡ slice_index index.now.items t }
{
    let t = usize::from(t.get());
    if t < index.len() { index[t] } else { 0 }
}

/// Makes room for so many elements in all.
fn make_room<E>(list: &mut Vec<E>, count: usize) -> Result<(), NoMemory>
    ensures items { list.new.items ≡ list.old.items }
    ensures capacity { vec_capacity list.old ≤ vec_capacity list.new }
    ensures room { OnOk result (count ≤ vec_capacity list.new) }
{
    list.reserve(count.saturating_sub(list.len()))?;
    Ok(())
}

/// Adds numbers without an entry at the end, in room that was made.
#[tactic(auto, using(crate::proofs::Places::one_more_place))]
fn add_places(index: &mut Vec<u16>, added: usize)
    requires { vec_len index.old + added ≤ vec_capacity index.old }
    ensures { index.new.items ≡ index.old.items ++ replicate added 0 }
{
    for _place in 0..added {
        index.push_reserved(0);
    }
}

impl<T: Drop> TrackTable<T> {
    /// Nothing, and no place.
    pub fn new(alloc: Global) -> Result<TrackTable<T>, NoMemory>
        ensures { IfOk result (λ made. made ≡ []) }
    {
        Ok(TrackTable {
            index: Vec::new(alloc),
            entries: Vec::new(alloc),
            tracks: Vec::new(alloc),
            held: CountedBits::new(alloc)?,
        })
    }

    /// Makes places for the tracks below one.
    pub fn reserve(&mut self, tracks: usize) -> Result<(), NoMemory>
        requires { tracks ≤ 65535 }
        ensures made { OnOk result (self.new ≡ with_places tracks self.old) }
        ensures same { OnErr result (self.new ≡ self.old) }
        ensures free { tracks ≤ length self.old → IsOk result }
    {
        let places = self.index.len();
        if places < tracks {
            make_room(&mut self.entries, tracks)?;
            make_room(&mut self.tracks, tracks)?;
            make_room(&mut self.index, tracks)?;
            add_places(&mut self.index, tracks - places);
        }
        Ok(())
    }

    /// The number of places.
    pub fn places(&self) -> usize
        ensures value { result ≡ length self.now }
        ensures range { result ≤ 65535 }
    {
        self.index.len()
    }

    /// The tracks that have an entry.
    pub fn held(&self) -> &TrackBits
        ensures { (t : ℕ) → is_marked result.now t ≡ has_entry self.now t }
    {
        self.held.bits()
    }

    /// Whether it is known that no track has an entry: it is, where none has.
    pub fn is_empty(&self) -> bool
        ensures { result ≡ true → (t : ℕ) → has_entry self.now t ≡ false }
    {
        self.held.is_empty()
    }

    /// Whether a track has an entry.
    pub fn has(&self, t: TrackNo) -> bool
        ensures { result ≡ has_entry self.now t }
    {
        self.held.has(t)
    }

    /// A track's entry.
    pub fn get(&self, t: TrackNo) -> Option<&T>
        ensures { option_copied result ≡ entry_at self.now t }
    {
        let number = number_of(&self.index, t);
        if number == 0 {
            return None;
        }
        Some(&self.entries[usize::from(number) - 1])
    }

    /// The entry of a track that has one, to be changed where it stands.
    pub fn entry_mut(&mut self, t: TrackNo) -> &mut T
        requires { IsTrue (has_entry self.old t) }
        ensures* writes_back { sem 𝓛 (Lends (the_row T.row) T.row self.entry result (λ w. slice_set self.old t (Some w))) }
        ensures value { Some result.now ≡ entry_at self.old t }
    {
        let entry = usize::from(number_of(&self.index, t)) - 1;
        &mut self.entries[entry]
    }

    /// Puts another entry, or none, into a track's place, and gives the one that was there. Without a
    /// place there is nothing to do.
    pub fn exchange(&mut self, t: TrackNo, entry: Option<T>) -> Option<T>
        ensures now { self.new ≡ slice_set self.old t entry }
        ensures was { result ≡ entry_at self.old t }
    {
        match entry {
            Some(entry) => self.put(t, entry),
            None => self.take(t),
        }
    }

    /// Puts an entry into a track's place.
    fn put(&mut self, t: TrackNo, entry: T) -> Option<T>
        ensures now { self.new ≡ slice_set self.old t (Some entry) }
        ensures was { result ≡ entry_at self.old t }
    {
        let number = number_of(&self.index, t);
        if number > 0 {
            return Some(mem::replace(&mut self.entries[usize::from(number) - 1], entry));
        }
        self.add(t, entry);
        None
    }

    /// Puts an entry into a place that has none, in room that was made.
    fn add(&mut self, t: TrackNo, entry: T)
        requires { entry_at self.old t ≡ None }
        ensures { self.new ≡ slice_set self.old t (Some entry) }
    {
        let place = usize::from(t.get());
        if self.index.len() <= place {
            return;
        }
        self.index[place] = (self.entries.len() + 1) as u16;
        self.entries.push_reserved(entry);
        self.tracks.push_reserved(t);
        self.held.set(t, true);
    }

    /// Takes a track's entry out. The last one takes its place.
    fn take(&mut self, t: TrackNo) -> Option<T>
        ensures now { self.new ≡ slice_set self.old t None }
        ensures was { result ≡ entry_at self.old t }
    {
        let number = number_of(&self.index, t);
        if number == 0 {
            return None;
        }
        let entry = usize::from(number) - 1;
        let last = self.tracks[self.tracks.len() - 1];
        self.index[usize::from(last.get())] = number;
        self.index[usize::from(t.get())] = 0;
        self.tracks.swap_remove(entry);
        self.held.set(t, false);
        Some(self.entries.swap_remove(entry))
    }

    /// Drops every entry. The places stay.
    pub fn clear(&mut self)
        ensures { self.new ≡ replicate (length self.old) None }
    {
        self.index.fill(0);
        self.entries.clear();
        self.tracks.clear();
        self.held.clear();
    }
}
