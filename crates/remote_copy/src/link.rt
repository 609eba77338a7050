ghost use Rattle.std.specs.Prelude.{◌≡◌, ◌<◌, ◌≤◌, ◌*◌, IfOk, is_ok, length, not};
ghost use Rattle.ckd_types.specs.Volume.{track_in};
ghost use Rattle.device_outside.specs.Lists.{is_in};
ghost use Rattle.device_store.specs.Images.{IsImageOf};
ghost use Rattle.volume_file.specs.File.{empty_images};
ghost use Rattle.remote_copy.specs.FarVolume.{link_view, new_far, put_on};
ghost use Rattle.remote_copy.specs.Linking.{IsFarImage, LinkView, Puts, next_fails};

use ckd_outside::Failed;
use ckd_types::{Geometry, HEADS, NoMemory, TrackNo};
use device_outside::counted;
use std::alloc::Global;
use std::marker::Model;
use track_image::{TrackImage, TrackRoom};

/// What puts tracks on a far volume. It always tells the model of that and how many tracks it has, which no call changes, and a
/// count of faults that never falls. What the far volume holds may be told or not. No call takes memory.
pub trait Link: Drop {
    ghost view: { Self → LinkView };

    /// Makes far track `t` the given one. A put that fails leaves that track old or new, and all else as it was.
    fn put(&mut self, t: TrackNo, now: &TrackImage) -> Result<(), Failed>
        requires { IsFarImage (view self.old) t now.now }
        ensures { Puts (view self.old) t now.now.track result (view self.new) };
}

/// Whether a put's number is listed.
#[tactic(auto, unfolding(device_outside::specs::Lists::is_in))]
fn is_listed(put: u64, numbers: &[u32]) -> bool
    ensures { result ≡ is_in put numbers.now }
{
    for n in numbers {
        if put == u64::from(*n) {
            return true;
        }
    }
    false
}

/// Empty tracks, each in room for any track.
fn empty_rooms(
    alloc: Global,
    geometry: Geometry,
    cylinders: u16,
) -> Result<Vec<TrackRoom>, NoMemory>
    requires { cylinders ≤ 4369 }
    ensures { IfOk result (λ made. made.items ≡ empty_images geometry cylinders) }
{
    let mut rooms = Vec::new(alloc);
    for n in 0..cylinders * HEADS {
        let room = TrackRoom::with_room(alloc, geometry, TrackNo::new(n).unwrap())?;
        rooms.push(room)?;
    }
    Ok(rooms)
}

/// A far volume in memory, of which the puts with listed numbers fail. A put that fails changes nothing.
#[derive(Drop)]
pub struct MemLink {
    geometry: Geometry,
    rooms: Vec<TrackRoom>,
    failing: Vec<u32>,
    puts: u64,
    faults: u64,
}

impl Model for MemLink {
    ghost use Rattle.std.specs.Prelude.{map};
    ghost use Rattle.track_image.specs.Image.{Image};
    ghost use Rattle.remote_copy.specs.FarVolume.{AreFarImages, FarVolume};

    ghost Value = { FarVolume };

    ghost view = { λ l. record {
      geometry = l.geometry;
      tracks = map (λ (i : Image). i.track) l.rooms.items;
      calls = record { done = l.puts; failing = l.failing.items };
      faults = l.faults;
    } };

    ghost invariant = { λ l. AreFarImages l.geometry l.rooms.items };
}

impl MemLink {
    /// Empty tracks, 15 a cylinder. Puts are numbered from 1. Room for any track is taken here for each.
    pub fn new(
        alloc: Global,
        geometry: Geometry,
        cylinders: u16,
        fail: &[u32],
    ) -> Result<MemLink, NoMemory>
        requires { cylinders ≤ 4369 }
        ensures { IfOk result (λ made. made ≡ new_far geometry cylinders fail.now) }
    {
        let rooms = empty_rooms(alloc, geometry, cylinders)?;
        let failing = fail.to_vec(alloc)?;
        Ok(MemLink {
            geometry,
            rooms,
            failing,
            puts: 0,
            faults: 0,
        })
    }

    /// The model of the far volume.
    pub fn geometry(&self) -> Geometry
        ensures { result ≡ self.now.geometry }
    {
        self.geometry
    }

    /// How many tracks the far volume has.
    pub fn tracks(&self) -> usize
        ensures { result ≡ length self.now.tracks }
    {
        self.rooms.len()
    }

    /// A track of the far volume. No put is counted.
    pub fn track(&self, t: TrackNo) -> &TrackRoom
        requires { t < length self.now.tracks }
        ensures value { result.now ≡ record { geometry = self.now.geometry; track = track_in self.now.tracks t } }
        ensures of { IsImageOf self.now.geometry t result.now }
    {
        &self.rooms[usize::from(t.get())]
    }
}

impl Link for MemLink {
    ghost view = { link_view };

    fn put(&mut self, t: TrackNo, now: &TrackImage) -> Result<(), Failed>
        requires { IsFarImage (link_view self.old) t now.now }
        ensures far { self.new ≡ put_on self.old t now.now.track }
        ensures fails { is_ok result ≡ not (next_fails self.old.calls) }
        ensures puts { Puts (link_view self.old) t now.now.track result (link_view self.new) }
    {
        self.puts = counted(self.puts);
        if is_listed(self.puts, &self.failing) {
            self.faults = counted(self.faults);
            return Err(Failed);
        }
        self.rooms[usize::from(t.get())].assign(now);
        Ok(())
    }
}
