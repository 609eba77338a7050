ghost use Rattle.std.specs.Prelude.{◌≡◌, ◌||◌, ◌==◌, not, option_map};
ghost use Rattle.device_defs.specs.Pairs.{has_stale, pair_state, state_of_pair};
ghost use Rattle.device_core.specs.Pairs.{pair_seen};
ghost use Rattle.device_core.specs.State.{device_of};

use crate::Device;
use ckd_types::Side;
use device_outside::Volume;

/// How a pair is: both sides have each track; some track is still to be copied; or a side failed, or side B is held.
#[derive(Clone, Copy, Debug, PartialEq, Eq)]
pub enum PairState {
    Duplex,
    Pending,
    Suspended,
}

fn one_counts(a: u16, b: u16) -> bool
    ensures { result ≡ (not (a == 0) || not (b == 0)) }
{
    a != 0 || b != 0
}

impl<V: Volume> Device<V> {
    /// Some track of a side is stale.
    fn has_stale(&self) -> bool
        ensures { result ≡ has_stale (device_of self.now).store }
    {
        let a = self.stale(Side::A);
        let b = self.stale(Side::B);
        one_counts(a, b)
    }

    fn state_of_pair(&self) -> PairState
        ensures { pair_seen result ≡ state_of_pair (device_of self.now).store }
    {
        if !(self.up(Side::A) && self.up(Side::B)) || self.held() {
            return PairState::Suspended;
        }
        if self.has_stale() {
            return PairState::Pending;
        }
        PairState::Duplex
    }

    /// How its pair is; none where it has no side B.
    pub fn pair_state(&self) -> Option<PairState>
        ensures { option_map pair_seen result ≡ pair_state (device_of self.now).store }
    {
        if self.paired() {
            return Some(self.state_of_pair());
        }
        None
    }
}
