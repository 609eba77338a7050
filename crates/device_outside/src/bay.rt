ghost use Rattle.std.specs.Prelude.{◌≡◌, ◌≤◌, ◌<◌, ◌+◌, ◌*◌, ◌++◌, ◌∷◌, [], IfOk, OnOk, OnErr, length, slice_index_or};
ghost use Rattle.device_outside.specs.Disk.{new_disk};
ghost use Rattle.device_outside.specs.Bay.{spoil_all};

use crate::{MemVolume, TrackBuffer};
use ckd_types::{DeviceNo, NoMemory, Side, TrackNo};
use std::alloc::Global;
use std::marker::Model;

/// A volume that was given back, and where it stood.
#[derive(Drop)]
pub struct Taken {
    pub device: DeviceNo,
    pub side: Side,
    pub volume: MemVolume,
}

/// Bytes that a track of a device is to hold in place of an empty track.
#[derive(Debug, Drop)]
pub struct Spoiled {
    pub device: DeviceNo,
    pub track: TrackNo,
    pub bytes: TrackBuffer,
}

/// Spoils the tracks of a volume that are named for its device.
#[tactic(auto, unfolding(crate::specs::Bay::spoil_all))]
fn spoil_all(spoiled: &[Spoiled], d: DeviceNo, volume: &mut MemVolume)
    ensures volume { volume.new ≡ spoil_all spoiled.now d volume.old }
    ensures tracks { length volume.new.tracks ≡ length volume.old.tracks }
{
    for s in spoiled {
        if s.device == d && usize::from(s.track.get()) < volume.len() {
            volume.spoil(s.track, s.bytes.bytes());
        }
    }
}

/// What makes volumes in memory and takes them back.
#[derive(Drop)]
pub struct MemBay {
    spoiled: Vec<Spoiled>,
    made: usize,
    taken: Vec<Taken>,
}

impl Model for MemBay {
    ghost use Rattle.std.specs.Prelude.{◌≤◌, vec_len, vec_capacity};
    ghost use Rattle.device_outside.specs.Bay.{Bay};

    ghost Value = { Bay };

    ghost view = { λ b. record { spoiled = b.spoiled.items; made = b.made; taken = b.taken.items } };

    ghost invariant = { λ b. (vec_len b.taken ≤ b.made) × (b.made ≤ vec_capacity b.taken) };
}

impl MemBay {
    /// Takes no memory.
    pub fn new(alloc: Global) -> MemBay
        ensures { result ≡ record { spoiled = []; made = 0; taken = [] } }
    {
        MemBay {
            spoiled: Vec::new(alloc),
            made: 0,
            taken: Vec::new(alloc),
        }
    }

    /// Names what a track is to hold in each volume that is made for its device from here on. A volume
    /// without that track passes it over, and of two for one track the later one counts.
    pub fn spoil(
        &mut self,
        alloc: Global,
        d: DeviceNo,
        t: TrackNo,
        bytes: &[u8],
    ) -> Result<(), NoMemory>
        requires { length bytes.now ≤ 65536 }
        ensures named { OnOk result (self.new ≡ record self.old { spoiled = self.old.spoiled ++ record { device = d; track = t; bytes = bytes.now } ∷ [] }) }
        ensures same { OnErr result (self.new ≡ self.old) }
    {
        let mut held = TrackBuffer::new(alloc)?;
        held.set(bytes);
        self.spoiled.push(Spoiled {
            device: d,
            track: t,
            bytes: held,
        })?;
        Ok(())
    }

    /// A volume of empty tracks but for those that are spoiled, and room for one `back`.
    pub fn make(
        &mut self,
        alloc: Global,
        d: DeviceNo,
        cylinders: u16,
        fail_reads: &[u32],
        fail_writes: &[u32],
    ) -> Result<MemVolume, NoMemory>
        requires { cylinders ≤ 4369 }
        ensures volume { IfOk result (λ v. v ≡ spoil_all self.old.spoiled d (new_disk cylinders fail_reads.now fail_writes.now)) }
        ensures tracks { IfOk result (λ v. length v.tracks ≡ cylinders * 15) }
        ensures made { OnOk result (self.new ≡ record self.old { made = self.old.made + 1 }) }
        ensures same { OnErr result (self.new ≡ self.old) }
    {
        let mut volume = MemVolume::new(alloc, cylinders, fail_reads, fail_writes)?;
        spoil_all(&self.spoiled, d, &mut volume);
        self.taken.reserve(self.made + 1 - self.taken.len())?;
        self.made += 1;
        Ok(volume)
    }

    /// Takes a volume back.
    pub fn back(&mut self, taken: Taken)
        requires { length self.old.taken < self.old.made }
        ensures { self.new ≡ record self.old { taken = self.old.taken ++ taken ∷ [] } }
    {
        self.taken.push_reserved(taken);
    }

    /// How many volumes it took back: never more than it made.
    pub fn len(&self) -> usize
        ensures number { result ≡ length self.now.taken }
        ensures most { length self.now.taken ≤ self.now.made }
    {
        self.taken.len()
    }

    /// A volume that came back, from 0 on in the order in which they came.
    pub fn at(&self, i: usize) -> &Taken
        requires { i < length self.now.taken }
        ensures { result.now ≡ slice_index_or self.now.taken i result.now }
    {
        &self.taken[i]
    }
}
