ghost use Rattle.std.specs.Prelude.{◌≡◌, ◌++◌, ◌∷◌, [], drop, length, nat_lt, slice_get, if◌then◌else◌};

use ckd_types::TrackNo;
use std::marker::Model;

/// Tracks that wait, at most 64. Contracts see them as a list, the oldest first.
#[derive(Debug, Drop)]
pub struct Queue {
    slots: [TrackNo; 64],
    oldest: usize,
    len: usize,
}

impl Model for Queue {
    ghost use Rattle.std.specs.Prelude.{ℕ, List, ◌<◌, ◌≤◌};
    ghost use Rattle.stager.specs.Window.{window};

    ghost Value = { List ℕ };

    ghost view = { λ q. window q.oldest q.len q.slots };

    ghost invariant = { λ q. (q.oldest < 64) × (q.len ≤ 64) };
}

impl Queue {
    /// No track. Takes no memory, as every call of a queue.
    pub fn new() -> Queue
        ensures { result ≡ [] }
    {
        Queue {
            slots: [TrackNo::new(0).unwrap(); 64],
            oldest: 0,
            len: 0,
        }
    }

    /// Puts a track behind the others. It is forgotten where 64 wait.
    pub fn push(&mut self, t: TrackNo)
        ensures { self.new ≡ (if nat_lt (length self.old) 64 then self.old ++ t ∷ [] else self.old) }
    {
        if self.len < 64 {
            let at = (self.oldest + self.len) % 64;
            self.slots[at] = t;
            self.len += 1;
        }
    }

    /// Takes the oldest track.
    pub fn next(&mut self) -> Option<TrackNo>
        ensures oldest { result ≡ slice_get self.old 0 }
        ensures rest { self.new ≡ drop 1 self.old }
    {
        if self.len == 0 {
            return None;
        }
        let t = self.slots[self.oldest];
        self.oldest = (self.oldest + 1) % 64;
        self.len -= 1;
        Some(t)
    }

    /// Forgets every track.
    pub fn clear(&mut self)
        ensures { self.new ≡ [] }
    {
        self.len = 0;
    }
}
