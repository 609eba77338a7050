ghost use Rattle.std.specs.Prelude.{◌≡◌, option_map, is_some};
ghost use Rattle.std.specs.Option.{option_copied};
ghost use Rattle.plain_defs.specs.History.{OpenEntry};
ghost use Rattle.device_store.specs.State.{half_of, origin_of};
ghost use Rattle.device_core.specs.OpenHalf.{half_seen, origin_seen};
ghost use Rattle.device_core.specs.State.{device_of, last_end, last_of, volume_a, volume_b};

use crate::Device;
use ckd_types::{CommandEnd, DeviceNo, Geometry, PathNo, TrackNo};
use device_defs::Losses;
use device_outside::Volume;
use device_store::{HalfWrite, Origin};
use loss_model::LostList;
use plain_defs::Item;

/// Whose write in two parts it is: of the command at hand, of one that was cut since, or of the background.
#[derive(Clone, Copy, Debug, PartialEq, Eq)]
pub enum HalfOrigin {
    Command,
    Cut,
    Background,
}

fn origin_seen(origin: &Origin) -> HalfOrigin
    ensures { result ≡ origin_seen (origin_of origin.now) }
{
    match origin {
        Origin::OfCommand(_, _) => HalfOrigin::Command,
        Origin::OfCut(_) => HalfOrigin::Cut,
        Origin::OfBackground => HalfOrigin::Background,
    }
}

/// The track of an open half write, and whose it is.
fn half_told(half: &Option<HalfWrite>) -> Option<(TrackNo, HalfOrigin)>
    ensures { result ≡ option_map half_seen (option_map half_of half.now) }
{
    match half {
        Some(half) => Some((half.track, origin_seen(&half.origin))),
        None => None,
    }
}

/// The last end of a program.
fn last_of(ends: &[CommandEnd]) -> Option<&CommandEnd>
    ensures { option_copied result ≡ last_of ends.now }
{
    ends.last()
}

impl<V: Volume> Device<V> {
    /// The end of the command that ended last: of the program that runs, or else of the one that ended last. Directly behind a
    /// command that answered `Stepped::Ended` it is that command's.
    pub fn last_end(&self) -> Option<&CommandEnd>
        ensures { option_copied result ≡ last_end self.now }
    {
        if let Some(running) = &self.past.running {
            return last_of(running.ends.as_slice());
        }
        match self.past.items.as_slice().get(self.past.last)? {
            Item::Program(entry) => last_of(entry.ends.as_slice()),
            _ => None,
        }
    }

    pub fn number(&self) -> DeviceNo
        ensures { result ≡ (device_of self.now).store.device }
    {
        self.store.number
    }

    pub fn geometry(&self) -> Geometry
        ensures { result ≡ (device_of self.now).store.geometry }
    {
        self.store.geometry
    }

    pub fn cylinders(&self) -> u16
        ensures { result ≡ (device_of self.now).store.cylinders }
    {
        self.store.cylinders
    }

    /// The path whose program runs.
    pub fn active(&self) -> Option<PathNo>
        ensures { result ≡ option_map (λ (o : OpenEntry). o.path) (device_of self.now).history.running }
    {
        match &self.past.running {
            Some(running) => Some(running.path),
            None => None,
        }
    }

    /// The path whose program runs, and which of its programs that is.
    pub fn running(&self) -> Option<(PathNo, u16)>
        ensures { result ≡ option_map (λ (o : OpenEntry). (o.path, o.ordinal)) (device_of self.now).history.running }
    {
        match &self.past.running {
            Some(running) => Some((running.path, running.ordinal)),
            None => None,
        }
    }

    /// Whether a write in two parts is open.
    pub fn half_open(&self) -> bool
        ensures { result ≡ is_some (device_of self.now).store.half }
    {
        self.store.half_open()
    }

    /// The track of the write in two parts that is open, and whose it is.
    pub fn half_of(&self) -> Option<(TrackNo, HalfOrigin)>
        ensures { result ≡ option_map half_seen (device_of self.now).store.half }
    {
        half_told(&self.store.half)
    }

    /// The device that its volume is lent to.
    pub fn lent_to(&self) -> Option<DeviceNo>
        ensures { result ≡ (device_of self.now).store.lent }
    {
        self.store.lent_to()
    }

    /// What happened to the device, but for the program that runs.
    pub fn journal(&self) -> &[Item]
        ensures { result.now ≡ (device_of self.now).history.items }
    {
        self.past.items.as_slice()
    }

    /// The tracks that are lost.
    pub fn lost(&self) -> &LostList
        ensures { result.now ≡ (device_of self.now).store.lost }
    {
        &self.store.lost
    }

    /// How often each kind of loss came to it.
    pub fn losses(&self) -> Losses
        ensures { result ≡ (device_of self.now).store.counts.losses }
    {
        self.store.counts.losses
    }

    /// How many reads of volumes it made.
    pub fn reads(&self) -> u64
        ensures { result ≡ (device_of self.now).store.counts.reads }
    {
        self.store.counts.reads
    }

    /// How many writes of volumes it made.
    pub fn writes(&self) -> u64
        ensures { result ≡ (device_of self.now).store.counts.writes }
    {
        self.store.counts.writes
    }

    /// Hands back the volumes of side A and of side B: none where there is no such side, or it is lent. Takes no memory.
    pub fn into_volumes(self) -> (Option<V>, Option<V>)
        ensures { result ≡ (volume_a self, volume_b self) }
    {
        self.store.into_volumes()
    }
}
