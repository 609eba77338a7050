ghost use Rattle.std.specs.Prelude.{◌≡◌, ℕ, ◌≤◌, ◌==◌, IfOk, false, true, if◌then◌else◌, replicate, slice_set};
ghost use Rattle.track_table.specs.Bits.{is_marked};
ghost use Rattle.track_table.specs.Tracks.{count_below, least};

use crate::TrackBits;
use ckd_types::{NoMemory, TrackNo};
use std::alloc::Global;
use std::marker::Model;

/// Marks of tracks that know how many there are, so that no event counts them. Contracts see a mark for each track of the largest
/// device.
#[derive(Debug, Drop)]
pub struct CountedBits {
    bits: TrackBits,
    count: u16,
}

impl Model for CountedBits {
    ghost use Rattle.std.specs.Prelude.{◌≡◌, Bool, List, length};
    ghost use Rattle.track_table.specs.Bits.{is_marked};
    ghost use Rattle.track_table.specs.Tracks.{count_below};

    ghost Value = { List Bool };

    ghost view = { λ b. b.bits };

    ghost invariant = { λ b. (b.count ≡ count_below 65535 (is_marked b.bits)) × (length b.bits ≡ 65535) };
}

impl CountedBits {
    /// No track is marked.
    pub fn new(alloc: Global) -> Result<CountedBits, NoMemory>
        ensures { IfOk result (λ made. made ≡ replicate 65535 false) }
    {
        Ok(CountedBits {
            bits: TrackBits::new(alloc)?,
            count: 0,
        })
    }

    /// No track is marked any more.
    pub fn clear(&mut self)
        ensures { self.new ≡ replicate 65535 false }
    {
        self.bits.clear();
        self.count = 0;
    }

    /// Whether a track is marked.
    pub fn has(&self, t: TrackNo) -> bool
        ensures { result ≡ is_marked self.now t }
    {
        self.bits.has(t)
    }

    /// Marks a track, or takes its mark away.
    pub fn set(&mut self, t: TrackNo, marked: bool)
        ensures marks { self.new ≡ slice_set self.old t marked }
        ensures each { (q : ℕ) → is_marked self.new q ≡ (if q == t then marked else is_marked self.old q) }
    {
        if marked {
            self.mark(t);
        } else {
            self.unmark(t);
        }
    }

    /// Marks a track, where it isn't marked.
    fn mark(&mut self, t: TrackNo)
        ensures marks { self.new ≡ slice_set self.old t true }
        ensures each { (q : ℕ) → is_marked self.new q ≡ (if q == t then true else is_marked self.old q) }
    {
        let _track = t.get();
        if self.bits.has(t) {
            return;
        }
        self.count += 1;
        self.bits.set(t, true);
    }

    /// Takes a track's mark away, where it has one.
    fn unmark(&mut self, t: TrackNo)
        ensures marks { self.new ≡ slice_set self.old t false }
        ensures each { (q : ℕ) → is_marked self.new q ≡ (if q == t then false else is_marked self.old q) }
    {
        let _track = t.get();
        if !self.bits.has(t) {
            return;
        }
        self.count -= 1;
        self.bits.set(t, false);
    }

    /// The number of marked tracks, which is kept.
    pub fn count(&self) -> u16
        ensures value { result ≡ count_below 65535 (is_marked self.now) }
        ensures range { result ≤ 65535 }
    {
        self.count
    }

    /// Whether it is known that no track is marked: it is, where none is.
    pub fn is_empty(&self) -> bool
        ensures { result ≡ true → (t : ℕ) → is_marked self.now t ≡ false }
    {
        self.count == 0
    }

    /// The least marked track.
    pub fn first(&self) -> Option<TrackNo>
        ensures { result ≡ least 65535 (is_marked self.now) }
    {
        self.bits.first()
    }

    /// The marks alone.
    pub fn bits(&self) -> &TrackBits
        ensures { result.now ≡ self.now }
    {
        &self.bits
    }
}
