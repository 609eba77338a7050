ghost use Rattle.std.specs.Prelude.{◌≡◌, ◌<◌, ◌≤◌, is_ok, is_some, length, true};
ghost use Rattle.device_outside.specs.Volume.{ReadOf, WriteOf, delivery};
ghost use Rattle.duplex_pair.specs.Sides.{HasSides, other_of, state_in, volume_of};
ghost use Rattle.duplex_pair.specs.Volumes.{IsThere, view_in};

use crate::DuplexPair;
use ckd_outside::Failed;
use ckd_types::{Side, TrackNo};
use device_outside::{TrackBuffer, Volume};

/// Reads a track of a volume that is there.
fn read_volume<V: Volume>(
    volume: &mut Option<V>,
    t: TrackNo,
    into: &mut TrackBuffer,
) -> Result<(), Failed>
    requires there { IsThere volume.old }
    requires track { t < (view_in V.view volume.old).tracks }
    ensures there { IsThere volume.new }
    ensures tracks { (view_in V.view volume.new).tracks ≡ (view_in V.view volume.old).tracks }
    ensures read { ReadOf (view_in V.view volume.old) t (delivery result into.new) (view_in V.view volume.new) }
{
    match volume {
        Some(volume) => volume.read_track(t, into),
        None => unreachable!(),
    }
}

/// Writes a track of a volume that is there.
fn write_volume<V: Volume>(volume: &mut Option<V>, t: TrackNo, bytes: &[u8]) -> bool
    requires there { IsThere volume.old }
    requires track { t < (view_in V.view volume.old).tracks }
    requires most { length bytes.now ≤ 65536 }
    ensures there { IsThere volume.new }
    ensures tracks { (view_in V.view volume.new).tracks ≡ (view_in V.view volume.old).tracks }
    ensures wrote { WriteOf (view_in V.view volume.old) t bytes.now result (view_in V.view volume.new) }
{
    match volume {
        Some(volume) => volume.write_track(t, bytes).is_ok(),
        None => unreachable!(),
    }
}

impl<V: Volume> DuplexPair<V> {
    /// Reads a track from a side that is up.
    pub fn read(&mut self, side: Side, t: TrackNo, into: &mut TrackBuffer) -> Result<(), Failed>
        requires up { (state_in self.old side).up ≡ true }
        requires track { t < length self.old.a.stale }
        ensures sides { HasSides self.old self.new }
        ensures other { other_of self.new.volumes side ≡ other_of self.old.volumes side }
        ensures before { IsThere (volume_of self.old.volumes side) }
        ensures there { IsThere (volume_of self.new.volumes side) }
        ensures read { ReadOf (view_in V.view (volume_of self.old.volumes side)) t (delivery result into.new)
            (view_in V.view (volume_of self.new.volumes side)) }
    {
        match side {
            Side::A => read_volume(&mut self.volumes.a, t, into),
            Side::B => read_volume(&mut self.volumes.b, t, into),
        }
    }

    /// Writes a track to a side that is up. Whether it took it.
    pub fn write(&mut self, side: Side, t: TrackNo, bytes: &[u8]) -> bool
        requires up { (state_in self.old side).up ≡ true }
        requires track { t < length self.old.a.stale }
        requires most { length bytes.now ≤ 65536 }
        ensures sides { HasSides self.old self.new }
        ensures other { other_of self.new.volumes side ≡ other_of self.old.volumes side }
        ensures before { IsThere (volume_of self.old.volumes side) }
        ensures there { IsThere (volume_of self.new.volumes side) }
        ensures wrote { WriteOf (view_in V.view (volume_of self.old.volumes side)) t bytes.now result (view_in V.view (volume_of self.new.volumes side)) }
    {
        match side {
            Side::A => write_volume(&mut self.volumes.a, t, bytes),
            Side::B => write_volume(&mut self.volumes.b, t, bytes),
        }
    }
}
