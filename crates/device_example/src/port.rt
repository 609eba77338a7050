ghost use Rattle.std.specs.Prelude.{◌≡◌, None, Ok, false};
ghost use Rattle.device_outside.specs.declared.port.Grant.TheVariants as grants;
ghost use Rattle.device_outside.specs.declared.port.SlotGrant.TheVariants as slots;
ghost use Rattle.device_outside.specs.Pool.{NextNotice, Touch, WantFrame, SetModified, WantSlot};
ghost use Rattle.device_outside.specs.Outside.{Answered, WantedFrame, is_given, no_pool};
ghost use Rattle.device_outside.specs.Volume.{counted};

use ckd_types::{DeviceNo, NoMemory, TrackNo};
use device_outside::{Grant, Port, SlotGrant};

/// A port of the caller's, with no frame and no slot to give: it counts how often a frame was wanted.
#[derive(Debug, Drop)]
pub struct CountedRequests {
    pub wanted: u64,
}

impl CountedRequests {
    pub fn new() -> CountedRequests
        ensures { result.wanted ≡ 0 }
    {
        CountedRequests { wanted: 0 }
    }
}

/// One more, or the greatest number.
#[tactic(auto, unfolding(device_outside::specs::Volume::counted))]
fn one_more(n: u64) -> u64
    ensures { result ≡ counted n }
{
    n.saturating_add(1)
}

impl Port for CountedRequests {
    ghost view = { λ p. no_pool p.wanted };

    fn next_notice(&mut self, d: DeviceNo) -> Option<TrackNo>
        ensures answer { result ≡ None }
        ensures answered { Answered (no_pool self.old.wanted) (NextNotice d) result (no_pool self.new.wanted) }
    {
        None
    }

    fn touch(&mut self, d: DeviceNo, t: TrackNo) -> bool
        ensures answer { result ≡ false }
        ensures answered { Answered (no_pool self.old.wanted) (Touch d t) result (no_pool self.new.wanted) }
    {
        false
    }

    fn want_frame(&mut self, d: DeviceNo, t: TrackNo) -> Result<Grant, NoMemory>
        ensures answer { result ≡ Ok grants.Denied }
        ensures answered { WantedFrame (no_pool self.old.wanted) (WantFrame d t) is_given result (no_pool self.new.wanted) }
    {
        self.wanted = one_more(self.wanted);
        Ok(Grant::Denied)
    }

    fn set_modified(&mut self, d: DeviceNo, t: TrackNo) -> bool
        ensures answer { result ≡ false }
        ensures answered { Answered (no_pool self.old.wanted) (SetModified d t) result (no_pool self.new.wanted) }
    {
        false
    }

    fn set_clean(&mut self, _d: DeviceNo, _t: TrackNo) {}

    fn drop_frame(&mut self, _d: DeviceNo, _t: TrackNo) {}

    fn want_slot(&mut self) -> SlotGrant
        ensures answer { result ≡ slots.Denied }
        ensures answered { Answered (no_pool self.old.wanted) WantSlot result (no_pool self.new.wanted) }
    {
        SlotGrant::Denied
    }

    fn free_slot(&mut self, _slot: usize) {}

    fn tell_waiting(&mut self, _d: DeviceNo, _n: u16) {}
}
