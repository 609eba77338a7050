ghost use Rattle.std.specs.Prelude.{◌≡◌, ◌<◌, ℕ, length, slice_set};
ghost use Rattle.device_turn.specs.Rule.{zeros};

use crate::holder::Holder;

/// What the tests turn over: a tag that stays, and how often each seat counted.
#[derive(Debug, Drop)]
pub struct Counters {
    pub tag: u64,
    pub counts: [u64; 6],
    ghost six: { length counts ≡ 6 },
}

impl Holder<u64> for Counters {
    ghost keeps = { λ tag c. c.tag ≡ tag };

    ghost counts = { λ c. c.counts };

    fn count(&self, seat: u64) -> u64 {
        self.counts[seat as usize]
    }

    ghost six_counts = { λ c. c.six };
}

impl Counters {
    /// A tag, with no seat that has counted yet.
    pub fn new(tag: u64) -> Counters
        ensures { (result.tag ≡ tag) × (result.counts ≡ zeros) }
    {
        Counters {
            tag,
            counts: [0; 6],
        }
    }

    /// One count more for a seat.
    pub fn count_one(&mut self, seat: u64)
        requires { seat < 6 }
        ensures tag { self.new.tag ≡ self.old.tag }
        ensures counts { (n : ℕ) × (self.new.counts ≡ slice_set self.old.counts seat n) }
    {
        let at = seat as usize;
        let n = self.counts[at];
        self.counts[at] = n.saturating_add(1);
    }
}
