ghost use Rattle.std.specs.Prelude.{◌≡◌, ℕ, ◌*◌, ◌<◌, ◌≤◌, IfOk, true, false, length, replicate, slice_get, slice_index_or, slice_set};
ghost use Rattle.track_table.specs.Bits.{is_marked};
ghost use Rattle.track_table.specs.Marked.{marked_left};
ghost use Rattle.loss_model.specs.Lost.{lost_tracks};

use ckd_types::{HEADS, NoMemory, TrackNo};
use std::alloc::Global;
use std::marker::Model;
use track_table::{Marked, TrackBits};

/// The lost tracks of a device. Contracts see a mark for each of its tracks.
#[derive(Debug, Drop)]
pub struct LostList {
    marks: TrackBits,
    /// The tracks of the device.
    tracks: usize,
}

impl Model for LostList {
    ghost use Rattle.std.specs.Prelude.{◌≡◌, ℕ, Bool, false, List, ◌≤◌, length, take};
    ghost use Rattle.track_table.specs.Bits.{is_marked};

    ghost Value = { List Bool };

    ghost view = { λ l. take l.tracks l.marks };

    ghost invariant = { λ l. (l.tracks ≤ 65535) × (length l.marks ≡ 65535) × ((t : ℕ) → l.tracks ≤ t → is_marked l.marks t ≡ false) };
}

impl LostList {
    /// No track of a device with so many cylinders. No other call of a lost list takes memory.
    pub fn new(alloc: Global, cylinders: u16) -> Result<LostList, NoMemory>
        requires { cylinders ≤ 4369 }
        ensures { IfOk result (λ made. made ≡ replicate (cylinders * 15) false) }
    {
        Ok(LostList {
            marks: TrackBits::new(alloc)?,
            tracks: usize::from(cylinders) * usize::from(HEADS),
        })
    }

    /// Adds a track. A track that is there stays there once.
    pub fn add(&mut self, t: TrackNo)
        requires { t < length self.old }
        ensures { self.new ≡ slice_set self.old t true }
    {
        self.marks.set(t, true);
    }

    /// Whether a track is lost.
    pub fn has(&self, t: TrackNo) -> bool
        ensures { result ≡ slice_index_or self.now t false }
    {
        self.marks.has(t)
    }

    /// How many tracks are lost.
    pub fn len(&self) -> usize
        ensures { result ≡ length (lost_tracks self.now) }
    {
        usize::from(self.marks.count())
    }

    /// Track `i` of the list in rising order, counted from 0.
    pub fn nth(&self, i: usize) -> Option<TrackNo>
        ensures { result ≡ slice_get (lost_tracks self.now) i }
    {
        self.marks.nth(i)
    }

    /// The tracks in rising order.
    pub fn iter(&self) -> Marked<'_>
        ensures { marked_left result ≡ lost_tracks self.now }
    {
        self.marks.iter()
    }

    /// The lost tracks as marks.
    pub fn marks(&self) -> &TrackBits
        ensures { (t : ℕ) → is_marked result.now t ≡ slice_index_or self.now t false }
    {
        &self.marks
    }

    /// No track is lost any more.
    pub fn clear(&mut self)
        ensures { self.new ≡ replicate (length self.old) false }
    {
        self.marks.clear();
    }
}
