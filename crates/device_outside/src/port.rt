ghost use Rattle.std.specs.Prelude.{◌≡◌, None, Ok, false};
ghost use Rattle.device_outside.specs.declared.port.Grant.TheVariants as grants;
ghost use Rattle.device_outside.specs.declared.port.SlotGrant.TheVariants as slots;
ghost use Rattle.device_outside.specs.Pool.{NextNotice, Touch, WantFrame, SetModified, SetClean, DropFrame, WantSlot, FreeSlot, TellWaiting};
ghost use Rattle.device_outside.specs.Outside.{PortView, Answered, WantedFrame, is_given, no_pool};

use crate::failing_calls::counted;
use ckd_types::{DeviceNo, NoMemory, TrackNo};

/// Whether a track got a frame.
#[derive(Clone, Copy, Debug, PartialEq, Eq)]
pub enum Grant {
    Given,
    Denied,
}

/// Whether a patch got a slot of the nonvolatile store, and which. The store is down from its loss to
/// its repair.
#[derive(Clone, Copy, Debug, PartialEq, Eq)]
pub enum SlotGrant {
    Given(usize),
    Denied,
    Down,
}

/// The pool of frames and slots, as a device sees it. What the pool is may be told or not; how often it
/// denied a frame always is. No call but `want_frame` takes memory.
pub trait Port {
    ghost view: { Self → PortView };

    /// Takes the oldest note: a track whose frame was taken from the device.
    fn next_notice(&mut self, d: DeviceNo) -> Option<TrackNo>
        ensures { Answered (view self.old) (NextNotice d) result (view self.new) };

    /// Whether the track has a frame, which is then the most recent.
    fn touch(&mut self, d: DeviceNo, t: TrackNo) -> bool
        ensures { Answered (view self.old) (Touch d t) result (view self.new) };

    /// A frame for the track, which is then the most recent; the least recent clean one goes where there
    /// is no room. Want of memory changes nothing.
    fn want_frame(&mut self, d: DeviceNo, t: TrackNo) -> Result<Grant, NoMemory>
        ensures { WantedFrame (view self.old) (WantFrame d t) is_given result (view self.new) };

    /// Whether the track has a frame, which is then marked modified.
    fn set_modified(&mut self, d: DeviceNo, t: TrackNo) -> bool
        ensures { Answered (view self.old) (SetModified d t) result (view self.new) };

    fn set_clean(&mut self, d: DeviceNo, t: TrackNo)
        ensures { Answered (view self.old) (SetClean d t) tt (view self.new) };

    fn drop_frame(&mut self, d: DeviceNo, t: TrackNo)
        ensures { Answered (view self.old) (DropFrame d t) tt (view self.new) };

    /// A slot that wasn't in use.
    fn want_slot(&mut self) -> SlotGrant
        ensures { Answered (view self.old) WantSlot result (view self.new) };

    /// The slot isn't in use any more. Nothing where it wasn't.
    fn free_slot(&mut self, slot: usize)
        ensures { Answered (view self.old) (FreeSlot slot) tt (view self.new) };

    /// How many tracks of the device wait for recovery.
    fn tell_waiting(&mut self, d: DeviceNo, n: u16)
        ensures { Answered (view self.old) (TellWaiting d n) tt (view self.new) };
}

/// A port without frames and slots. It tells no pool.
#[derive(Debug, Drop)]
pub struct NoFrames {
    denials: u64,
}

impl NoFrames {
    /// With no request denied yet.
    pub fn new() -> NoFrames
        ensures { (⟦<NoFrames as Port>⟧.view result).denials ≡ 0 }
    {
        NoFrames { denials: 0 }
    }
}

impl Port for NoFrames {
    ghost view = { λ p. no_pool p.denials };

    fn next_notice(&mut self, d: DeviceNo) -> Option<TrackNo>
        ensures answer { result ≡ None }
        ensures answered { Answered (no_pool self.old.denials) (NextNotice d) result (no_pool self.new.denials) }
    {
        None
    }

    fn touch(&mut self, d: DeviceNo, t: TrackNo) -> bool
        ensures answer { result ≡ false }
        ensures answered { Answered (no_pool self.old.denials) (Touch d t) result (no_pool self.new.denials) }
    {
        false
    }

    fn want_frame(&mut self, d: DeviceNo, t: TrackNo) -> Result<Grant, NoMemory>
        ensures answer { result ≡ Ok grants.Denied }
        ensures answered { WantedFrame (no_pool self.old.denials) (WantFrame d t) is_given result (no_pool self.new.denials) }
    {
        self.denials = counted(self.denials);
        Ok(Grant::Denied)
    }

    fn set_modified(&mut self, d: DeviceNo, t: TrackNo) -> bool
        ensures answer { result ≡ false }
        ensures answered { Answered (no_pool self.old.denials) (SetModified d t) result (no_pool self.new.denials) }
    {
        false
    }

    fn set_clean(&mut self, _d: DeviceNo, _t: TrackNo) {}

    fn drop_frame(&mut self, _d: DeviceNo, _t: TrackNo) {}

    fn want_slot(&mut self) -> SlotGrant
        ensures answer { result ≡ slots.Denied }
        ensures answered { Answered (no_pool self.old.denials) WantSlot result (no_pool self.new.denials) }
    {
        SlotGrant::Denied
    }

    fn free_slot(&mut self, _slot: usize) {}

    fn tell_waiting(&mut self, _d: DeviceNo, _n: u16) {}
}
