ghost use Rattle.std.specs.Prelude.{◌≡◌, ℕ, ◌≤◌, ◌<◌, ◌==◌, ◌%◌, ◌^◌, false, IfOk};
ghost use Rattle.std.specs.Prelude.{length, replicate, slice_get, slice_set, if◌then◌else◌};
ghost use Rattle.std.specs.Int.{bit_at};
ghost use Rattle.std.specs.Int.Count.{ones};
ghost use Rattle.std.specs.Iterator.{YieldsFirst, item_count};
ghost use Rattle.track_table.specs.Bits.{is_marked, marked_from};
ghost use Rattle.track_table.specs.Marked.{marked_left};
ghost use Rattle.track_table.specs.Tracks.{least, count_below};

use crate::marks::{Marks, WORDS, count, first, least_from, next_word, track};
use ckd_types::{NoMemory, TrackNo};
use std::alloc::Global;
use std::marker::Model;

/// Marks of tracks. Contracts see a mark for each track of the largest device.
#[derive(Debug, Drop)]
pub struct TrackBits {
    words: Vec<u64>,
    /// A bit for each word: one without it has no mark.
    used: [u64; 16],
    /// A bit for each of these groups of 64 words: one without it has no mark.
    groups: u64,
}

impl Model for TrackBits {
    ghost use Rattle.std.specs.Prelude.{◌≡◌, ℕ, ◌<◌, Bool, List, false, length, slice_index_or};
    ghost use Rattle.std.specs.Int.{bit_at};
    ghost use Rattle.track_table.specs.Bits.{is_set, marks_of};

    ghost Value = { List Bool };

    ghost view = { λ b. marks_of b.words.items };

    ghost invariant = { λ b. (length b.words.items ≡ 1024) × (is_set b.words.items 65535 ≡ false) ×
        ((k : ℕ) → k < 1024 → is_set b.used k ≡ false → slice_index_or b.words.items k 0 ≡ 0) ×
        ((j : ℕ) → j < 16 → bit_at b.groups j ≡ 0 → slice_index_or b.used j 0 ≡ 0) };
}

/// A word with another bit at a place.
fn with_bit(word: u64, place: u32, marked: bool) -> u64
    requires { place < 64 }
    ensures { (i : ℕ) → i < 64 → (bit_at result i == 1) ≡ (if i == place then marked else (bit_at word i == 1)) }
{
    let bit = 1u64 << place;
    if marked { word | bit } else { word & !bit }
}

/// Where set bit `i` of a word is, counted from 0.
fn place_of(word: u64, i: u32) -> u32
    requires { i < ones word }
    ensures range { result < 64 }
    ensures set { bit_at word result ≡ 1 }
    ensures before { ones (word % 2 ^ result) ≡ i }
{
    let mut place = 0;
    let mut width = 64;
    let mut before = i;
    while width > 1 {
        let half = width / 2;
        let here = ((word >> place) & ((1u64 << half) - 1)).count_ones();
        if before < here {
            width = half;
        } else {
            before -= here;
            place += half;
            width -= half;
        }
    }
    place
}

impl<'a> Marks for &'a TrackBits {
    ghost marked = { λ marks t. is_marked marks.now t };

    fn word(&self, k: usize) -> u64 {
        self.words[k]
    }

    fn group(&self, j: usize) -> u64 {
        self.used[j]
    }

    fn groups(&self) -> u64 {
        self.groups
    }
}

impl TrackBits {
    /// No track is marked.
    pub fn new(alloc: Global) -> Result<TrackBits, NoMemory>
        ensures { IfOk result (λ made. made ≡ replicate 65535 false) }
    {
        Ok(TrackBits {
            words: vec![in alloc; 0; WORDS]?,
            used: [0; 16],
            groups: 0,
        })
    }

    /// Whether a track is marked.
    pub fn has(&self, t: TrackNo) -> bool
        ensures { result ≡ is_marked self.now t }
    {
        let t = t.get();
        (self.words[usize::from(t / 64)] >> (t % 64)) & 1 == 1
    }

    /// Marks a track, or takes its mark away.
    pub fn set(&mut self, t: TrackNo, marked: bool)
        ensures marks { self.new ≡ slice_set self.old t marked }
        ensures each { (q : ℕ) → is_marked self.new q ≡ (if q == t then marked else is_marked self.old q) }
    {
        let t = t.get();
        let k = usize::from(t / 64);
        let word = with_bit(self.words[k], u32::from(t % 64), marked);
        self.words[k] = word;
        let used = with_bit(self.used[k / 64], (k % 64) as u32, word != 0);
        self.used[k / 64] = used;
        self.groups = with_bit(self.groups, (k / 64) as u32, used != 0);
    }

    /// No track is marked any more.
    pub fn clear(&mut self)
        ensures { self.new ≡ replicate 65535 false }
    {
        for k in 0..WORDS {
            self.words[k] = 0;
        }
        self.used = [0; 16];
        self.groups = 0;
    }

    /// The number of marked tracks.
    pub fn count(&self) -> u16
        ensures value { result ≡ count_below 65535 (is_marked self.now) }
        ensures listed { result ≡ length (marked_from 0 self.now) }
        ensures range { result ≤ 65535 }
    {
        let _ = &self.words;
        count(&self)
    }

    /// The least marked track.
    pub fn first(&self) -> Option<TrackNo>
        ensures { result ≡ least 65535 (is_marked self.now) }
    {
        first(&self)
    }

    /// Marked track `i` in rising order, counted from 0.
    pub fn nth(&self, i: usize) -> Option<TrackNo>
        ensures { result ≡ slice_get (marked_from 0 self.now) i }
    {
        let _ = &self.words;
        let mut before = i;
        let mut k = next_word(&self, 0);
        while k < WORDS {
            let word = self.word(k);
            let here = word.count_ones() as usize;
            if before < here {
                return Some(track(k, place_of(word, before as u32)));
            }
            before -= here;
            k = next_word(&self, k + 1);
        }
        None
    }

    /// The marked tracks in rising order.
    pub fn iter(&self) -> Marked<'_>
        ensures { marked_left result ≡ marked_from 0 self.now }
    {
        Marked {
            bits: self,
            from: 0,
        }
    }
}

/// The marked tracks in rising order.
#[derive(Drop)]
pub struct Marked<'a> {
    bits: &'a TrackBits,
    from: u16,
}

impl<'a> Iterator for Marked<'a> {
    type Item = TrackNo;

    ghost next_gives = { YieldsFirst marked_left };

    ghost remaining = { item_count marked_left };

    fn next(&mut self) -> Option<TrackNo> {
        match least_from(&self.bits, self.from) {
            Some(t) => {
                self.from = t.get() + 1;
                Some(t)
            }
            None => None,
        }
    }
}
