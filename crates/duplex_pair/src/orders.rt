ghost use Rattle.std.specs.Prelude.{◌≡◌, ◌<◌, None, Some, false, length, replicate, slice_set, true};
ghost use Rattle.device_defs.specs.Store.{new_side, no_side};
ghost use Rattle.duplex_pair.specs.Sides.{marks_of, other_of, other_state, state_in, volume_of};

use crate::{DuplexPair, SideState};
use ckd_types::{DeviceNo, Side, TrackNo};
use device_outside::Volume;
use std::mem::replace;

impl SideState {
    /// An empty volume has taken the side's place.
    fn renew(&mut self)
        ensures { marks_of self.new ≡ new_side (length self.old.stale) true }
    {
        self.up = true;
        self.stale.mark_all();
    }

    /// There is no such side any more.
    fn leave(&mut self)
        ensures { marks_of self.new ≡ no_side (length self.old.stale) }
    {
        self.up = false;
        self.stale.clear();
    }
}

impl<V: Volume> DuplexPair<V> {
    /// Marks a track of a side as stale, or as level.
    pub fn set_stale(&mut self, side: Side, t: TrackNo, stale: bool)
        requires { t < length self.old.a.stale }
        ensures volumes { self.new.volumes ≡ self.old.volumes }
        ensures rest { (self.new.held ≡ self.old.held) × (self.new.lent ≡ self.old.lent) }
        ensures marks { state_in self.new side ≡ record (state_in self.old side) { stale = slice_set (state_in self.old side).stale t stale } }
        ensures other { other_state self.new side ≡ other_state self.old side }
    {
        match side {
            Side::A => self.a.stale.set(t, stale),
            Side::B => self.b.stale.set(t, stale),
        }
    }

    /// A side is lost, and a held mark ends.
    pub fn fail(&mut self, side: Side)
        ensures volumes { self.new.volumes ≡ self.old.volumes }
        ensures rest { (self.new.held ≡ false) × (self.new.lent ≡ self.old.lent) }
        ensures marks { state_in self.new side ≡ record (state_in self.old side) { up = false } }
        ensures other { other_state self.new side ≡ other_state self.old side }
    {
        self.held = false;
        match side {
            Side::A => self.a.up = false,
            Side::B => self.b.up = false,
        }
    }

    /// Another volume takes a side's place, with every track stale. It answers the old one.
    pub fn replace(&mut self, side: Side, volume: V) -> Option<V>
        requires here { self.old.lent ≡ None }
        requires size { (V.view volume).tracks ≡ length self.old.a.stale }
        ensures volume { volume_of self.new.volumes side ≡ Some volume }
        ensures back { result ≡ volume_of self.old.volumes side }
        ensures others { other_of self.new.volumes side ≡ other_of self.old.volumes side }
        ensures rest { (self.new.held ≡ self.old.held) × (self.new.lent ≡ self.old.lent) }
        ensures marks { state_in self.new side ≡ new_side (length self.old.a.stale) true }
        ensures other { other_state self.new side ≡ other_state self.old side }
    {
        match side {
            Side::A => {
                self.a.renew();
                replace(&mut self.volumes.a, Some(volume))
            }
            Side::B => {
                self.b.renew();
                replace(&mut self.volumes.b, Some(volume))
            }
        }
    }

    /// A volume becomes side B, with every track stale.
    pub fn join(&mut self, volume: V)
        requires here { self.old.lent ≡ None }
        requires size { (V.view volume).tracks ≡ length self.old.a.stale }
        ensures a { self.new.volumes.a ≡ self.old.volumes.a }
        ensures b { self.new.volumes.b ≡ Some volume }
        ensures rest { (self.new.held ≡ self.old.held) × (self.new.lent ≡ self.old.lent) }
        ensures marks { marks_of self.new.b ≡ new_side (length self.old.a.stale) true }
        ensures other { marks_of self.new.a ≡ marks_of self.old.a }
    {
        self.replace(Side::B, volume);
    }

    /// Side B leaves, and a held mark ends. It answers its volume.
    pub fn split(&mut self) -> Option<V>
        ensures a { self.new.volumes.a ≡ self.old.volumes.a }
        ensures b { self.new.volumes.b ≡ None }
        ensures back { result ≡ self.old.volumes.b }
        ensures rest { (self.new.held ≡ false) × (self.new.lent ≡ self.old.lent) }
        ensures marks { marks_of self.new.b ≡ no_side (length self.old.a.stale) }
        ensures other { marks_of self.new.a ≡ marks_of self.old.a }
    {
        self.held = false;
        self.b.leave();
        replace(&mut self.volumes.b, None)
    }

    /// Side B takes nothing from here on.
    pub fn hold(&mut self)
        ensures volumes { self.new.volumes ≡ self.old.volumes }
        ensures sides { (marks_of self.new.a ≡ marks_of self.old.a) × (marks_of self.new.b ≡ marks_of self.old.b) }
        ensures rest { (self.new.held ≡ true) × (self.new.lent ≡ self.old.lent) }
    {
        self.held = true;
    }

    /// Side B takes what is written from here on.
    pub fn resume(&mut self)
        ensures volumes { self.new.volumes ≡ self.old.volumes }
        ensures sides { (marks_of self.new.a ≡ marks_of self.old.a) × (marks_of self.new.b ≡ marks_of self.old.b) }
        ensures rest { (self.new.held ≡ false) × (self.new.lent ≡ self.old.lent) }
    {
        self.held = false;
    }

    /// The volume leaves for another device's pair. It answers it.
    pub fn lend(&mut self, to: DeviceNo) -> Option<V>
        requires { self.old.b.up ≡ false }
        ensures a { self.new.volumes.a ≡ None }
        ensures b { self.new.volumes.b ≡ self.old.volumes.b }
        ensures back { result ≡ self.old.volumes.a }
        ensures rest { (self.new.held ≡ self.old.held) × (self.new.lent ≡ Some to) }
        ensures marks { marks_of self.new.a ≡ no_side (length self.old.a.stale) }
        ensures other { marks_of self.new.b ≡ marks_of self.old.b }
    {
        self.lent = Some(to);
        self.a.leave();
        replace(&mut self.volumes.a, None)
    }

    /// An empty volume takes the place of one that was lent. No track is stale on it.
    pub fn restore(&mut self, volume: V)
        requires { (V.view volume).tracks ≡ length self.old.a.stale }
        ensures a { self.new.volumes.a ≡ Some volume }
        ensures b { self.new.volumes.b ≡ self.old.volumes.b }
        ensures rest { (self.new.held ≡ self.old.held) × (self.new.lent ≡ None) }
        ensures marks { marks_of self.new.a ≡ new_side (length self.old.a.stale) false }
        ensures other { marks_of self.new.b ≡ marks_of self.old.b }
    {
        self.lent = None;
        self.a.up = true;
        self.a.stale.clear();
        self.volumes.a = Some(volume);
    }
}
