ghost use Rattle.std.specs.Prelude.{◌≡◌, ◌*◌, IfSome, OnErr, Some};
ghost use Rattle.plain_defs.specs.History.{is_path_of};
ghost use Rattle.device_outside.specs.Keeper.{Heard};
ghost use Rattle.device_store.specs.State.{Takes};
ghost use Rattle.device_core.specs.State.{device_of, TakesItsTracks};
ghost use Rattle.subsystem_core.specs.Comes.{CameKept};
ghost use Rattle.subsystem_core.specs.Devices.{device_at};
ghost use Rattle.subsystem_core.specs.Ends.{answer_of};
ghost use Rattle.subsystem_core.specs.Keepers.{TakesAll};
ghost use Rattle.subsystem_core.specs.Frames.{HasDevice, HasSameSpans};
ghost use Rattle.subsystem_core.specs.Standing.{NoneIsLent, StayStanding};

use crate::refusal::{fail_fault, resume_fault, suspend_fault};
use crate::{EventEnd, Subsystem};
use ckd_types::{DeviceNo, NoMemory, PathNo, Side};
use device_core::Device;
use device_outside::{Keep, Volume};
use loss_model::Loss;
use subsystem_defs::{Event, OrderFault};
use track_image::TrackImage;

/// Whether the program that runs is the path's own.
fn is_own<V: Volume>(path: PathNo, device: &Device<V>) -> bool
    ensures { result ≡ is_path_of (device_of device.now).history.running path }
{
    match device.active() {
        Some(active) => active == path,
        None => false,
    }
}

/// The events of one device. Its number is that of a device of the subsystem.
impl<V: Volume> Subsystem<V> {
    /// Starts the path's next program.
    pub(crate) fn start<K: Keep<TrackImage>>(
        &mut self,
        path: PathNo,
        d: DeviceNo,
    ) -> Result<EventEnd, NoMemory>
        requires { HasDevice self.old d }
        ensures spans { HasSameSpans self.old self.new }
        ensures stands { StayStanding self.old.devices.items self.new.devices.items }
        ensures came { (k : K) → CameKept (Heard K.hears K.takes) (Event.Start path d) self.old k (answer_of result) self.new k }
    {
        let device = self.device(d);
        if is_own(path, device) {
            return Ok(EventEnd::Running);
        }
        if let Some(fault) = device.start_fault(path) {
            return Ok(EventEnd::NotStarted(fault));
        }
        match self.start_at(path, d) {
            Err(NoMemory) => Err(NoMemory),
            Ok(ordinal) => Ok(EventEnd::Started(ordinal)),
        }
    }

    /// One command of the running program, or the second part of an open half write.
    pub(crate) fn step<K: Keep<TrackImage>>(
        &mut self,
        d: DeviceNo,
        keep: &mut K,
    ) -> Result<EventEnd, NoMemory>
        requires here { HasDevice self.old d }
        requires takes { IfSome (device_at self.old.devices.items d) (λ x. TakesItsTracks K.takes keep.old x) }
        ensures spans { HasSameSpans self.old self.new }
        ensures stands { StayStanding self.old.devices.items self.new.devices.items }
        ensures came { CameKept (Heard K.hears K.takes) (Event.Step d) self.old keep.old (answer_of result) self.new keep.new }
    {
        let device = self.device(d);
        if device.half_open() {
            return Ok(EventEnd::Second(self.second_at(d, keep)));
        }
        match device.active() {
            None => return Ok(EventEnd::Idle),
            Some(_) => (),
        }
        match self.command_at(d, keep) {
            Err(NoMemory) => Err(NoMemory),
            Ok(step) => Ok(EventEnd::Stepped(step)),
        }
    }

    /// One piece of work in the background, or the second part of an open half write.
    pub(crate) fn back<K: Keep<TrackImage>>(
        &mut self,
        d: DeviceNo,
        keep: &mut K,
    ) -> Result<EventEnd, NoMemory>
        requires here { HasDevice self.old d }
        requires takes { IfSome (device_at self.old.devices.items d) (λ x. TakesItsTracks K.takes keep.old x) }
        ensures spans { HasSameSpans self.old self.new }
        ensures stands { OnErr result (NoneIsLent self.old.devices.items) → StayStanding self.old.devices.items self.new.devices.items }
        ensures came { CameKept (Heard K.hears K.takes) (Event.Back d) self.old keep.old (answer_of result) self.new keep.new }
    {
        if self.device(d).half_open() {
            return Ok(EventEnd::Second(self.second_at(d, keep)));
        }
        match self.background_at(d, keep) {
            Err(NoMemory) => Err(NoMemory),
            Ok(did) => Ok(EventEnd::Back(did)),
        }
    }

    /// The reset of a path.
    pub(crate) fn reset<K: Keep<TrackImage>>(
        &mut self,
        path: PathNo,
        d: DeviceNo,
        keep: &mut K,
    ) -> EventEnd
        requires here { HasDevice self.old d }
        requires takes { IfSome (device_at self.old.devices.items d) (λ x. TakesItsTracks K.takes keep.old x) }
        ensures spans { HasSameSpans self.old self.new }
        ensures stands { StayStanding self.old.devices.items self.new.devices.items }
        ensures came { CameKept (Heard K.hears K.takes) (Event.Reset path d) self.old keep.old (Some result) self.new keep.new }
    {
        self.reset_at(path, d, keep);
        EventEnd::Done
    }

    /// The loss of a side.
    pub(crate) fn fail_volume<K: Keep<TrackImage>>(
        &mut self,
        d: DeviceNo,
        side: Side,
        keep: &mut K,
    ) -> EventEnd
        requires here { HasDevice self.old d }
        requires takes { IfSome (device_at self.old.devices.items d) (λ x. TakesItsTracks K.takes keep.old x) }
        ensures spans { HasSameSpans self.old self.new }
        ensures stands { StayStanding self.old.devices.items self.new.devices.items }
        ensures came { CameKept (Heard K.hears K.takes) (Event.FailVolume d side) self.old keep.old (Some result) self.new keep.new }
    {
        if let Some(fault) = fail_fault(self.device(d), side) {
            return EventEnd::Refused(fault);
        }
        self.lose_at(d, Loss::Side(side), keep);
        EventEnd::Done
    }

    /// Side B is held.
    pub(crate) fn suspend<K: Keep<TrackImage>>(&mut self, d: DeviceNo) -> EventEnd
        requires { HasDevice self.old d }
        ensures spans { HasSameSpans self.old self.new }
        ensures stands { StayStanding self.old.devices.items self.new.devices.items }
        ensures came { (k : K) → CameKept (Heard K.hears K.takes) (Event.Suspend d) self.old k (Some result) self.new k }
    {
        if let Some(fault) = suspend_fault(self.device(d)) {
            return EventEnd::Refused(fault);
        }
        self.hold_at(d);
        EventEnd::Done
    }

    /// Side B isn't held any more.
    pub(crate) fn resume<K: Keep<TrackImage>>(&mut self, d: DeviceNo) -> EventEnd
        requires { HasDevice self.old d }
        ensures spans { HasSameSpans self.old self.new }
        ensures stands { StayStanding self.old.devices.items self.new.devices.items }
        ensures came { (k : K) → CameKept (Heard K.hears K.takes) (Event.Resume d) self.old k (Some result) self.new k }
    {
        if let Some(fault) = resume_fault(self.device(d)) {
            return EventEnd::Refused(fault);
        }
        self.resume_at(d);
        EventEnd::Done
    }
}

/// The events of all devices. The pool comes first.
impl<V: Volume> Subsystem<V> {
    /// The loss of the cache.
    pub(crate) fn fail_cache<K: Keep<TrackImage>>(&mut self, keep: &mut K) -> EventEnd
        requires takes { TakesAll K.takes keep.old self.old.devices.items }
        ensures spans { HasSameSpans self.old self.new }
        ensures stands { StayStanding self.old.devices.items self.new.devices.items }
        ensures came { CameKept (Heard K.hears K.takes) Event.FailCache self.old keep.old (Some result) self.new keep.new }
    {
        if !self.pool.cache_up() {
            return EventEnd::Refused(OrderFault::Down);
        }
        self.pool.fail_cache();
        self.lose_all(Loss::Cache, keep);
        EventEnd::Done
    }

    /// The loss of the store.
    pub(crate) fn fail_store<K: Keep<TrackImage>>(&mut self, keep: &mut K) -> EventEnd
        requires takes { TakesAll K.takes keep.old self.old.devices.items }
        ensures spans { HasSameSpans self.old self.new }
        ensures stands { StayStanding self.old.devices.items self.new.devices.items }
        ensures came { CameKept (Heard K.hears K.takes) Event.FailStore self.old keep.old (Some result) self.new keep.new }
    {
        if !self.pool.store_up() {
            return EventEnd::Refused(OrderFault::Down);
        }
        self.pool.fail_store();
        self.lose_all(Loss::Store, keep);
        EventEnd::Done
    }

    /// A loss of power.
    pub(crate) fn power<K: Keep<TrackImage>>(&mut self, keep: &mut K) -> EventEnd
        requires takes { TakesAll K.takes keep.old self.old.devices.items }
        ensures spans { HasSameSpans self.old self.new }
        ensures stands { StayStanding self.old.devices.items self.new.devices.items }
        ensures came { CameKept (Heard K.hears K.takes) Event.Power self.old keep.old (Some result) self.new keep.new }
    {
        self.pool.power();
        self.power_all(keep);
        EventEnd::Done
    }

    /// The cache is up again, unless a track waits for its recovery.
    pub(crate) fn repair_cache<K: Keep<TrackImage>>(&mut self) -> EventEnd
        ensures spans { HasSameSpans self.old self.new }
        ensures stands { StayStanding self.old.devices.items self.new.devices.items }
        ensures came { (k : K) → CameKept (Heard K.hears K.takes) Event.RepairCache self.old k (Some result) self.new k }
    {
        if self.pool.cache_up() {
            return EventEnd::Refused(OrderFault::Up);
        }
        match self.pool.repair_cache() {
            Ok(()) => EventEnd::Done,
            Err(pending) => EventEnd::Pending(pending.n),
        }
    }

    /// The store is up again, unless a track waits for its recovery.
    pub(crate) fn repair_store<K: Keep<TrackImage>>(&mut self) -> EventEnd
        ensures spans { HasSameSpans self.old self.new }
        ensures stands { StayStanding self.old.devices.items self.new.devices.items }
        ensures came { (k : K) → CameKept (Heard K.hears K.takes) Event.RepairStore self.old k (Some result) self.new k }
    {
        if self.pool.store_up() {
            return EventEnd::Refused(OrderFault::Up);
        }
        match self.pool.repair_store() {
            Ok(()) => EventEnd::Done,
            Err(pending) => EventEnd::Pending(pending.n),
        }
    }
}
