ghost use Rattle.std.specs.Prelude.{◌≡◌, ◌≤◌, ◌*◌, None, Some, false, is_some, replicate, true};
ghost use Rattle.track_table.specs.Tracks.{count_below};
ghost use Rattle.device_defs.specs.Contents.{contents};
ghost use Rattle.device_defs.specs.Losses.{over};
ghost use Rattle.device_defs.specs.Orders.{given_up, lent_to};
ghost use Rattle.device_defs.specs.Store.{new_side, no_side, side_of, stale_at, with_side};
ghost use Rattle.duplex_pair.specs.Sides.{other_of, volume_of};
ghost use Rattle.event_notes.specs.Loose.{weight};
ghost use Rattle.device_store.specs.Leaves.{ChangesMarksAlone, IsSameDevice, KeepsLooseTracks};
ghost use Rattle.device_store.specs.State.{on_a, on_b, state_of, HasTrack};

use crate::DeviceStore;
use crate::marks::track;
use ckd_types::{DeviceNo, HEADS, Side, TrackNo};
use device_outside::Volume;

impl<V: Volume> DeviceStore<V> {
    /// Another volume takes a side's place, with every track stale. It answers the old one.
    pub fn replace(&mut self, side: Side, volume: V) -> Option<V>
        requires here { self.old.pair.lent ≡ None }
        requires there { is_some (volume_of self.old.pair.volumes side) ≡ true }
        requires size { (V.view volume).tracks ≡ self.old.cylinders * 15 }
        ensures leaves { KeepsLooseTracks self.old self.new }
        ensures volume { volume_of self.new.pair.volumes side ≡ Some volume }
        ensures back { result ≡ volume_of self.old.pair.volumes side }
        ensures other { other_of self.new.pair.volumes side ≡ other_of self.old.pair.volumes side }
        ensures state { state_of self.new ≡ with_side (state_of self.old) side (new_side (self.old.cylinders * 15) true) }
    {
        self.pair.replace(side, volume)
    }

    /// Another device's volume becomes side B, with every track stale.
    pub fn join(&mut self, volume: V)
        requires here { self.old.pair.lent ≡ None }
        requires size { (V.view volume).tracks ≡ self.old.cylinders * 15 }
        ensures leaves { KeepsLooseTracks self.old self.new }
        ensures a { on_a self.new ≡ on_a self.old }
        ensures b { on_b self.new ≡ Some volume }
        ensures state { state_of self.new ≡ record (state_of self.old) { paired = true; b = new_side (self.old.cylinders * 15) true } }
    {
        self.pair.join(volume);
    }

    /// Side B leaves, and a held mark ends. It answers its volume.
    pub fn split(&mut self) -> Option<V>
        ensures leaves { KeepsLooseTracks self.old self.new }
        ensures a { on_a self.new ≡ on_a self.old }
        ensures b { on_b self.new ≡ None }
        ensures back { result ≡ on_b self.old }
        ensures state { state_of self.new ≡ record (state_of self.old) { paired = false; held = false; b = no_side (self.old.cylinders * 15) } }
    {
        self.pair.split()
    }

    /// Side B takes nothing from here on.
    pub fn hold(&mut self)
        ensures leaves { ChangesMarksAlone self.old self.new }
        ensures state { state_of self.new ≡ record (state_of self.old) { held = true } }
    {
        self.pair.hold();
    }

    /// Side B takes what is written from here on, and what is stale there is copied.
    pub fn resume(&mut self)
        ensures leaves { ChangesMarksAlone self.old self.new }
        ensures state { state_of self.new ≡ record (state_of self.old) { held = false } }
    {
        self.pair.resume();
    }

    /// An empty volume takes the place of one that was lent, and no track is loose.
    pub fn restore(&mut self, volume: V)
        requires size { (V.view volume).tracks ≡ self.old.cylinders * 15 }
        ensures leaves { IsSameDevice self.old self.new }
        ensures half { self.new.half ≡ self.old.half }
        ensures weight { weight self.new.loose ≤ weight self.old.loose }
        ensures a { on_a self.new ≡ Some volume }
        ensures b { on_b self.new ≡ on_b self.old }
        ensures state { state_of self.new ≡ record (state_of self.old)
            { lent = None; a = new_side (self.old.cylinders * 15) false; loose = replicate (self.old.cylinders * 15) false } }
    {
        self.loose.clear();
        self.pair.restore(volume);
    }

    /// The frame and the patch of a track are given up. The volume is lent.
    fn give_up(&mut self, t: TrackNo)
        requires track { HasTrack self.old t }
        requires away { is_some self.old.pair.lent ≡ true }
        ensures leaves { KeepsLooseTracks self.old self.new }
        ensures volume { self.new.pair ≡ self.old.pair }
        ensures state { state_of self.new ≡ given_up contents t (state_of self.old) }
    {
        self.give_up_frame(t);
        self.give_up_patch(t);
    }

    /// The same of all tracks.
    fn give_up_all(&mut self)
        requires { is_some self.old.pair.lent ≡ true }
        ensures leaves { KeepsLooseTracks self.old self.new }
        ensures volume { self.new.pair ≡ self.old.pair }
        ensures state { state_of self.new ≡ over (self.old.cylinders * 15) (given_up contents) (state_of self.old) }
    {
        let tracks = self.cylinders * HEADS;
        for t in 0..tracks {
            self.give_up(track(t));
        }
    }

    /// The volume of a device that is alone leaves for another's pair: frames, patches, lost marks and queued tracks are given up.
    /// Its loose tracks stay that. It answers the volume.
    pub fn lend(&mut self, to: DeviceNo) -> Option<V>
        requires { self.old.pair.b.up ≡ false }
        ensures leaves { KeepsLooseTracks self.old self.new }
        ensures a { on_a self.new ≡ None }
        ensures b { on_b self.new ≡ on_b self.old }
        ensures back { result ≡ on_a self.old }
        ensures state { state_of self.new ≡ lent_to (over (self.old.cylinders * 15) (given_up contents) (state_of self.old)) to }
    {
        let volume = self.pair.lend(to);
        self.give_up_all();
        self.lost.clear();
        self.queue.clear();
        volume
    }

    /// Whether there are two sides.
    pub fn is_paired(&self) -> bool
        ensures { result ≡ (state_of self.now).paired }
    {
        self.pair.is_paired()
    }

    /// Whether side B is held.
    pub fn is_held(&self) -> bool
        ensures { result ≡ (state_of self.now).held }
    {
        self.pair.held
    }

    /// Whether a side is there and wasn't lost.
    pub fn is_up(&self, side: Side) -> bool
        ensures { result ≡ (side_of (state_of self.now) side).up }
    {
        self.pair.is_up(side)
    }

    /// To which device the volume is lent.
    pub fn lent_to(&self) -> Option<DeviceNo>
        ensures { result ≡ (state_of self.now).lent }
    {
        self.pair.lent
    }

    /// Whether a write is open between its two parts.
    pub fn half_open(&self) -> bool
        ensures { result ≡ is_some (state_of self.now).half }
    {
        self.half.is_some()
    }

    /// How many tracks are stale on a side.
    pub fn stale_count(&self, side: Side) -> u16
        ensures { result ≡ count_below (self.now.cylinders * 15) (stale_at (side_of (state_of self.now) side)) }
    {
        self.pair.stale_count(side)
    }

    /// The volumes of the sides.
    pub fn into_volumes(self) -> (Option<V>, Option<V>)
        ensures { result ≡ (on_a self, on_b self) }
    {
        (self.pair.volumes.a, self.pair.volumes.b)
    }
}
