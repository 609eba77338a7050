ghost use Rattle.std.specs.Prelude.{◌≡◌, ℕ, ◌*◌, ◌<◌, ◌≤◌, IfOk, true, false, length, replicate, slice_index_or, slice_set};
ghost use Rattle.track_table.specs.Bits.{is_marked};
ghost use Rattle.track_table.specs.Tracks.{count_below};

use ckd_types::{HEADS, NoMemory, TrackNo};
use std::alloc::Global;
use std::marker::Model;
use track_table::TrackBits;

/// The tracks of a side whose bytes don't count. Contracts see a mark for each track of the device.
#[derive(Debug, Drop)]
pub struct StaleMarks {
    marks: TrackBits,
    /// The tracks of the device.
    tracks: u16,
}

impl Model for StaleMarks {
    ghost use Rattle.std.specs.Prelude.{◌≡◌, ℕ, Bool, false, List, ◌≤◌, length, take};
    ghost use Rattle.track_table.specs.Bits.{is_marked};

    ghost Value = { List Bool };

    ghost view = { λ l. take l.tracks l.marks };

    ghost invariant = { λ l. (l.tracks ≤ 65535) × (length l.marks ≡ 65535) × ((t : ℕ) → l.tracks ≤ t → is_marked l.marks t ≡ false) };
}

/// The track of a number that is one.
fn track(n: u16) -> TrackNo
    requires { n < 65535 }
    ensures { result ≡ n }
{
    TrackNo::new(n).unwrap()
}

impl StaleMarks {
    /// No track of a device with so many cylinders. No other call of these marks takes memory.
    pub fn new(alloc: Global, cylinders: u16) -> Result<StaleMarks, NoMemory>
        requires { cylinders ≤ 4369 }
        ensures { IfOk result (λ made. made ≡ replicate (cylinders * 15) false) }
    {
        Ok(StaleMarks {
            marks: TrackBits::new(alloc)?,
            tracks: cylinders * HEADS,
        })
    }

    /// Marks a track, or takes its mark away.
    pub fn set(&mut self, t: TrackNo, stale: bool)
        requires { t < length self.old }
        ensures { self.new ≡ slice_set self.old t stale }
    {
        self.marks.set(t, stale);
    }

    /// Whether a track is stale.
    pub fn has(&self, t: TrackNo) -> bool
        ensures { result ≡ slice_index_or self.now t false }
    {
        self.marks.has(t)
    }

    /// How many tracks are stale.
    pub fn count(&self) -> u16
        ensures { result ≡ count_below (length self.now) (is_marked self.now) }
    {
        self.marks.count()
    }

    /// The stale tracks as marks.
    pub fn marks(&self) -> &TrackBits
        ensures each { (t : ℕ) → is_marked result.now t ≡ slice_index_or self.now t false }
        ensures few { length self.now ≤ 65535 }
    {
        &self.marks
    }

    /// Every track is stale.
    pub fn mark_all(&mut self)
        ensures { self.new ≡ replicate (length self.old) true }
    {
        for t in 0..self.tracks {
            self.marks.set(track(t), true);
        }
    }

    /// No track is stale any more.
    pub fn clear(&mut self)
        ensures { self.new ≡ replicate (length self.old) false }
    {
        self.marks.clear();
    }
}
