ghost use Rattle.std.specs.Prelude.{◌≡◌, ◌++◌, ◌∷◌, [], Some, None, IfOk, OnOk, OnErr, length, replicate, slice_get, slice_index_or, drop};
ghost use Rattle.device_outside.specs.Pool.{noted, notes_less};

use crate::place::Place;
use ckd_types::{DeviceNo, NoMemory, TrackNo};
use std::alloc::Global;
use std::collections::VecDeque;
use std::marker::Model;

/// The tracks whose frames were taken from one device, the oldest note first.
#[derive(Drop)]
struct Notes {
    tracks: VecDeque<TrackNo>,
}

impl Model for Notes {
    ghost use Rattle.std.specs.Prelude.{ℕ, List};

    ghost Value = { List ℕ };

    ghost view = { λ n. n.tracks.items };
}

impl Notes {
    fn new(alloc: Global) -> Notes
        ensures { result ≡ [] }
    {
        Notes {
            tracks: VecDeque::new(alloc),
        }
    }

    fn take(&mut self) -> Option<TrackNo>
        ensures oldest { result ≡ slice_get self.old 0 }
        ensures rest { self.new ≡ drop 1 self.old }
    {
        self.tracks.pop_front()
    }

    fn clear(&mut self)
        ensures { self.new ≡ [] }
    {
        self.tracks.clear();
    }

    fn add(&mut self, t: TrackNo) -> Result<(), NoMemory>
        ensures done { OnOk result (self.new ≡ self.old ++ t ∷ []) }
        ensures same { OnErr result (self.new ≡ self.old) }
    {
        self.tracks.push_back(t)?;
        Ok(())
    }
}

#[tactic(auto, using(crate::proofs::NoteLists::pushed))]
fn empty_notes(alloc: Global) -> Result<Vec<Notes>, NoMemory>
    ensures notes { IfOk result (λ made. made.items ≡ replicate 16 []) }
    ensures len { IfOk result (λ made. length made.items ≡ 16) }
{
    let mut devices = Vec::new(alloc);
    while devices.len() < 16 {
        devices.push(Notes::new(alloc))?;
    }
    Ok(devices)
}

fn clear_all(devices: &mut Vec<Notes>)
    requires { length devices.old.items ≡ 16 }
    ensures notes { devices.new.items ≡ replicate 16 [] }
    ensures len { length devices.new.items ≡ 16 }
{
    for n in 0..16 {
        devices[n].clear();
    }
}

/// The notes of all devices.
#[derive(Drop)]
pub(crate) struct AllNotes {
    devices: Vec<Notes>,
}

impl Model for AllNotes {
    ghost use Rattle.std.specs.Prelude.{◌≡◌, ℕ, List, length};

    ghost Value = { List (List ℕ) };

    ghost view = { λ n. n.devices.items };

    ghost invariant = { λ n. length n.devices.items ≡ 16 };
}

impl AllNotes {
    pub(crate) fn new(alloc: Global) -> Result<AllNotes, NoMemory>
        ensures { IfOk result (λ n. n ≡ replicate 16 []) }
    {
        Ok(AllNotes {
            devices: empty_notes(alloc)?,
        })
    }

    /// Takes the oldest note of a device.
    pub(crate) fn take(&mut self, d: DeviceNo) -> Option<TrackNo>
        ensures oldest { result ≡ slice_get (slice_index_or self.old d []) 0 }
        ensures rest { self.new ≡ notes_less self.old d (slice_index_or self.old d []) }
    {
        self.devices[usize::from(d.get())].take()
    }

    /// Notes a track for its device.
    pub(crate) fn add(&mut self, place: Place) -> Result<(), NoMemory>
        ensures done { OnOk result (self.new ≡ noted self.old (Some place)) }
        ensures same { OnErr result (self.new ≡ self.old) }
    {
        self.devices[usize::from(place.device().get())].add(place.track())
    }

    /// Forgets all notes.
    pub(crate) fn clear(&mut self)
        ensures { self.new ≡ replicate 16 [] }
    {
        clear_all(&mut self.devices);
    }
}
