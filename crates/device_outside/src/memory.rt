ghost use Rattle.std.specs.Prelude.{◌≡◌, ◌<◌, ◌≤◌, ◌*◌, not, [], IfOk, is_ok, length, slice_index_or};
ghost use Rattle.device_outside.specs.Volume.{ReadOf, WriteOf, delivery};
ghost use Rattle.device_outside.specs.Disk.{new_disk, disk_view, read_of_disk, written_disk, spoiled_disk, read_fails, write_fails};

use crate::failing_calls::{Calls, counted};
use crate::tracks::Tracks;
use crate::{TrackBuffer, Volume};
use ckd_outside::Failed;
use ckd_types::{NoMemory, TrackNo};
use std::alloc::Global;
use std::marker::Model;

/// A volume in memory, of which the calls with listed numbers fail.
#[derive(Drop)]
pub struct MemVolume {
    held: Tracks,
    reads: Calls,
    writes: Calls,
    faults: u64,
    spoiled: bool,
}

impl Model for MemVolume {
    ghost use Rattle.device_outside.specs.Disk.{Disk};

    ghost Value = { Disk };

    ghost view = { λ v. record {
      tracks = v.held.tracks;
      delivered = v.held.delivered;
      reads = v.reads.made;
      writes = v.writes.made;
      faults = v.faults;
      plan = record { reads = v.reads.failing; writes = v.writes.failing };
      spoiled = v.spoiled;
    } };
}

impl MemVolume {
    /// Empty tracks. Reads and writes are numbered from 1. Room for 65,536 bytes of each track is taken
    /// here, of which only what is written becomes resident.
    pub fn new(
        alloc: Global,
        cylinders: u16,
        fail_reads: &[u32],
        fail_writes: &[u32],
    ) -> Result<MemVolume, NoMemory>
        requires { cylinders ≤ 4369 }
        ensures volume { IfOk result (λ made. made ≡ new_disk cylinders fail_reads.now fail_writes.now) }
        ensures tracks { IfOk result (λ made. length made.tracks ≡ cylinders * 15) }
    {
        Ok(MemVolume {
            held: Tracks::new(alloc, cylinders)?,
            reads: Calls::new(alloc, fail_reads)?,
            writes: Calls::new(alloc, fail_writes)?,
            faults: 0,
            spoiled: false,
        })
    }

    /// How many reads were called for, the failed ones too; at the greatest number the count stays.
    pub fn reads(&self) -> u64
        ensures { result ≡ self.now.reads }
    {
        self.reads.made()
    }

    /// How many writes were called for, the failed ones too; at the greatest number the count stays.
    pub fn writes(&self) -> u64
        ensures { result ≡ self.now.writes }
    {
        self.writes.made()
    }

    /// How many tracks it has: 15 a cylinder.
    pub fn len(&self) -> usize
        ensures { result ≡ length self.now.tracks }
    {
        self.held.len()
    }

    /// The bytes that a track holds, whether it was spoiled or not. No call is counted.
    pub fn track(&self, t: TrackNo) -> &[u8]
        requires { t < length self.now.tracks }
        ensures { result.now ≡ slice_index_or self.now.tracks t [] }
    {
        self.held.track(t)
    }

    /// Spoils a track: from here on the volume doesn't tell what it holds.
    pub fn spoil(&mut self, t: TrackNo, bytes: &[u8])
        requires track { t < length self.old.tracks }
        requires most { length bytes.now ≤ 65536 }
        ensures { self.new ≡ spoiled_disk self.old t bytes.now }
    {
        self.held.put(t, bytes);
        self.spoiled = true;
    }
}

impl Volume for MemVolume {
    ghost view = { disk_view };

    fn read_track(&mut self, t: TrackNo, into: &mut TrackBuffer) -> Result<(), Failed>
        requires { t < length self.old.tracks }
        ensures disk { self.new ≡ read_of_disk self.old t }
        ensures fails { is_ok result ≡ not (read_fails self.old) }
        ensures gives { ReadOf (disk_view self.old) t (delivery result into.new) (disk_view self.new) }
    {
        if self.reads.count() {
            self.faults = counted(self.faults);
            return Err(Failed);
        }
        self.held.deliver(t, into);
        Ok(())
    }

    /// A write that fails leaves no bytes on its track.
    fn write_track(&mut self, t: TrackNo, bytes: &[u8]) -> Result<(), Failed>
        requires track { t < length self.old.tracks }
        requires most { length bytes.now ≤ 65536 }
        ensures disk { self.new ≡ written_disk self.old t bytes.now }
        ensures fails { is_ok result ≡ not (write_fails self.old) }
        ensures takes { WriteOf (disk_view self.old) t bytes.now (is_ok result) (disk_view self.new) }
    {
        if self.writes.count() {
            self.faults = counted(self.faults);
            self.held.put(t, &[]);
            return Err(Failed);
        }
        self.held.put(t, bytes);
        Ok(())
    }
}
