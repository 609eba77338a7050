ghost use Rattle.std.specs.Prelude.{◌≡◌, ◌&&◌, IfSome, None, Some, false, is_some, length, not, true};
ghost use Rattle.device_defs.specs.Store.{level_at};
ghost use Rattle.duplex_pair.specs.Sides.{marks_of, state_in, copies_in};
ghost use Rattle.track_table.specs.Bits.{is_marked};
ghost use Rattle.track_table.specs.Tracks.{count_below, least};

use crate::{DuplexPair, SideState, SideVolumes, StaleMarks};
use ckd_types::{DeviceNo, Side, TrackNo};
use device_outside::Volume;
use track_table::{Or, Without, first};

impl<V: Volume> DuplexPair<V> {
    /// A volume that is alone, with marks for its side and for another. Takes no memory, as every call of a pair.
    pub fn single(volume: V, stale: StaleMarks, none: StaleMarks) -> DuplexPair<V>
        requires size { (V.view volume).tracks ≡ length stale }
        requires same { length none ≡ length stale }
        ensures volume { result.volumes.a ≡ Some volume }
        ensures none { result.volumes.b ≡ None }
        ensures a { marks_of result.a ≡ record { up = true; stale = stale } }
        ensures b { marks_of result.b ≡ record { up = false; stale = none } }
        ensures held { result.held ≡ false }
        ensures lent { result.lent ≡ None }
    {
        DuplexPair {
            volumes: SideVolumes {
                a: Some(volume),
                b: None,
            },
            a: SideState { up: true, stale },
            b: SideState {
                up: false,
                stale: none,
            },
            held: false,
            lent: None,
        }
    }

    /// Whether there are two sides.
    pub fn is_paired(&self) -> bool
        ensures { result ≡ is_some self.now.volumes.b }
    {
        self.volumes.b.is_some()
    }

    /// Whether a side is there and wasn't lost.
    pub fn is_up(&self, side: Side) -> bool
        ensures { result ≡ (state_in self.now side).up }
    {
        match side {
            Side::A => self.a.up,
            Side::B => self.b.up,
        }
    }

    /// Whether side B takes what is written.
    pub fn takes_b(&self) -> bool
        ensures { result ≡ (self.now.b.up && not self.now.held) }
    {
        self.b.up && !self.held
    }

    /// Whether a side is up, and its bytes of a track count.
    pub fn is_level(&self, side: Side, t: TrackNo) -> bool
        ensures { result ≡ level_at (state_in self.now side) t }
    {
        match side {
            Side::A => self.a.up && !self.a.stale.has(t),
            Side::B => self.b.up && !self.b.stale.has(t),
        }
    }

    /// How many tracks are stale on a side.
    pub fn stale_count(&self, side: Side) -> u16
        ensures { result ≡ count_below (length self.now.a.stale) (is_marked (state_in self.now side).stale) }
    {
        match side {
            Side::A => self.a.stale.count(),
            Side::B => self.b.stale.count(),
        }
    }

    /// To which side a track is to be copied: it is up, not held, and has the track stale, where the other has it level.
    pub fn copies_to(&self, t: TrackNo) -> Option<Side>
        ensures { result ≡ copies_in (marks_of self.now.a) (marks_of self.now.b) self.now.held t }
    {
        if self.a.up && self.a.stale.has(t) && self.is_level(Side::B, t) {
            return Some(Side::A);
        }
        if self.takes_b() && self.b.stale.has(t) && self.is_level(Side::A, t) {
            return Some(Side::B);
        }
        None
    }

    fn both_up(&self) -> bool
        ensures { result ≡ (self.now.a.up && self.now.b.up) }
    {
        self.a.up && self.b.up
    }

    /// The least track that is to be copied.
    pub fn to_copy(&self) -> Option<TrackNo>
        ensures { result ≡ least (length self.now.a.stale) (λ t. is_some (copies_in (marks_of self.now.a) (marks_of self.now.b) self.now.held t)) }
    {
        if !self.both_up() {
            return None;
        }
        let to_a = Without {
            one: self.a.stale.marks(),
            other: self.b.stale.marks(),
        };
        if self.held {
            return first(&to_a);
        }
        let to_b = Without {
            one: self.b.stale.marks(),
            other: self.a.stale.marks(),
        };
        first(&Or {
            one: to_a,
            other: to_b,
        })
    }
}
