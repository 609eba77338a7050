ghost use Rattle.std.specs.Prelude.{◌≡◌, IfOk, OnErr, OnOk, true};
ghost use Rattle.device_outside.specs.Keeper.{Heard};
ghost use Rattle.subsystem_core.specs.Comes.{Came, CameKept};
ghost use Rattle.subsystem_core.specs.Devices.{numbers_of};
ghost use Rattle.subsystem_core.specs.Ends.{answer_of};
ghost use Rattle.subsystem_core.specs.Keepers.{TakesAll};
ghost use Rattle.subsystem_core.specs.Places.{may_all_come, may_come};
ghost use Rattle.subsystem_core.specs.Runs.{Runs, Stops};
ghost use Rattle.subsystem_core.specs.Frames.{HasSameDevices, HasSameSpans};
ghost use Rattle.subsystem_core.specs.Standing.{NoneIsLent, StayPlain, StayStanding};

use crate::{EventEnd, EventEnds, Subsystem};
use ckd_types::NoMemory;
use device_outside::{Keep, NoKeep, Volume};
use std::alloc::Global;
use subsystem_defs::Event;
use track_image::TrackImage;

impl<V: Volume> Subsystem<V> {
    /// One event, by its kind.
    fn happen<K: Keep<TrackImage>>(&mut self, e: Event, keep: &mut K) -> Result<EventEnd, NoMemory>
        requires may { may_come (numbers_of self.old.devices.items) e ≡ true }
        requires takes { TakesAll K.takes keep.old self.old.devices.items }
        ensures spans { HasSameSpans self.old self.new }
        ensures stands { OnErr result (NoneIsLent self.old.devices.items) → StayStanding self.old.devices.items self.new.devices.items }
        ensures came { CameKept (Heard K.hears K.takes) e self.old keep.old (answer_of result) self.new keep.new }
    {
        match e {
            Event::Start(path, d) => self.start::<K>(path, d),
            Event::Step(d) => self.step(d, keep),
            Event::Back(d) => self.back(d, keep),
            Event::Reset(path, d) => Ok(self.reset(path, d, keep)),
            Event::FailCache => Ok(self.fail_cache(keep)),
            Event::FailStore => Ok(self.fail_store(keep)),
            Event::FailVolume(d, side) => Ok(self.fail_volume(d, side, keep)),
            Event::RepairCache => Ok(self.repair_cache::<K>()),
            Event::RepairStore => Ok(self.repair_store::<K>()),
            Event::Pair(a, b) => Ok(self.pair(a, b, &*keep)),
            Event::Suspend(d) => Ok(self.suspend::<K>(d)),
            Event::Resume(d) => Ok(self.resume::<K>(d)),
            Event::Power => Ok(self.power(keep)),
        }
    }

    /// One event. The keeper is told each track before a command's edit of it, and each track that the event made firm, of
    /// whichever device; it may be told of all tracks of all devices behind it too.
    pub fn event_with<K: Keep<TrackImage>>(
        &mut self,
        e: Event,
        keep: &mut K,
    ) -> Result<EventEnd, NoMemory>
        requires may { may_come (numbers_of self.old.devices.items) e ≡ true }
        requires takes { TakesAll K.takes keep.old self.old.devices.items }
        ensures numbers { HasSameDevices self.old self.new }
        ensures plain { OnErr result (NoneIsLent self.old.devices.items) → StayPlain self.old.devices.items self.new.devices.items }
        ensures takes { TakesAll K.takes keep.new self.new.devices.items }
        ensures came { CameKept (Heard K.hears K.takes) e self.old keep.old (answer_of result) self.new keep.new }
    {
        self.happen(e, keep)
    }

    /// The same, with a keeper that keeps nothing.
    pub fn event(&mut self, e: Event) -> Result<EventEnd, NoMemory>
        requires { may_come (numbers_of self.old.devices.items) e ≡ true }
        ensures numbers { HasSameDevices self.old self.new }
        ensures plain { OnErr result (NoneIsLent self.old.devices.items) → StayPlain self.old.devices.items self.new.devices.items }
        ensures came { Came e self.old (answer_of result) self.new }
    {
        let mut keep = NoKeep;
        self.event_with(e, &mut keep)
    }

    /// Events one after another. Room for their ends is made first.
    pub fn run(&mut self, alloc: Global, events: &[Event]) -> Result<EventEnds, NoMemory>
        requires { may_all_come (numbers_of self.old.devices.items) events.now ≡ true }
        ensures numbers { HasSameDevices self.old self.new }
        ensures plain { OnOk result (StayPlain self.old.devices.items self.new.devices.items) }
        ensures ran { IfOk result (λ ends. Runs events.now self.old ends.items self.new) }
        ensures stopped { OnErr result (Stops events.now self.old self.new) }
    {
        let mut ends = EventEnds::new(alloc);
        match ends.reserve(events.len()) {
            Err(NoMemory) => return Err(NoMemory),
            Ok(()) => (),
        }
        for e in events {
            let end = match self.event(*e) {
                Err(NoMemory) => return Err(NoMemory),
                Ok(end) => end,
            };
            ends.push(end);
        }
        Ok(ends)
    }
}
