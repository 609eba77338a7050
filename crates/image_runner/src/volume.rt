ghost use Rattle.std.specs.Prelude.{◌≡◌, ◌<◌, ◌≤◌, ◌*◌, IfOk, is_ok, length};
ghost use Rattle.device_outside.specs.Disk.{disk_view};
ghost use Rattle.device_outside.specs.Volume.{ReadOf, WriteOf, delivery};
ghost use Rattle.disk_image.specs.Image.{IsLayoutOf, image_view};
ghost use Rattle.image_runner.specs.Planned.{planned_view};
ghost use Rattle.image_runner.specs.declared.volume.RunVolume.TheVariants.{Image, Memory};

use crate::rack::KeptVolume;
use ckd_outside::Failed;
use ckd_types::{NoMemory, TrackNo};
use deck_run::EmptyVolume;
use device_outside::{MemVolume, TrackBuffer, Volume, counted};
use disk_image::{DiskFile, DiskImage};
use std::alloc::Global;

/// Whether a call's number is listed.
fn is_listed(call: u64, numbers: &[u32]) -> bool {
    for n in numbers {
        if call == u64::from(*n) {
            return true;
        }
    }
    false
}

/// A volume of which also the calls with listed numbers fail. Calls are numbered from 1, reads and writes apart. One that is to fail
/// is no call of the volume inside, and leaves it as it was.
#[derive(Drop)]
pub struct Planned<V: Volume> {
    volume: V,
    fail_reads: Vec<u32>,
    fail_writes: Vec<u32>,
    reads: u64,
    writes: u64,
    faults: u64,
}

impl<V: Volume> Planned<V> {
    /// No call was made yet.
    pub fn new(
        alloc: Global,
        volume: V,
        fail_reads: &[u32],
        fail_writes: &[u32],
    ) -> Result<Planned<V>, NoMemory>
        ensures volume { IfOk result (λ p. p.volume ≡ volume) }
        ensures counts { IfOk result (λ p. planned_view (V.view p.volume) p.reads p.writes p.faults ≡ planned_view (V.view volume) 0 0 0) }
    {
        Ok(Planned {
            volume,
            fail_reads: fail_reads.to_vec(alloc)?,
            fail_writes: fail_writes.to_vec(alloc)?,
            reads: 0,
            writes: 0,
            faults: 0,
        })
    }
}

impl<V: Volume> Volume for Planned<V> {
    ghost view = { λ p. planned_view (V.view p.volume) p.reads p.writes p.faults };

    #[tactic(auto, using(crate::proofs::Planned::read_behind, crate::proofs::Planned::read_refused))]
    fn read_track(&mut self, t: TrackNo, into: &mut TrackBuffer) -> Result<(), Failed> {
        self.reads = counted(self.reads);
        if is_listed(self.reads, &self.fail_reads) {
            self.faults = counted(self.faults);
            return Err(Failed);
        }
        match self.volume.read_track(t, into) {
            Ok(()) => Ok(()),
            Err(Failed) => {
                self.faults = counted(self.faults);
                Err(Failed)
            }
        }
    }

    #[tactic(auto, using(crate::proofs::Planned::write_behind, crate::proofs::Planned::write_refused))]
    fn write_track(&mut self, t: TrackNo, bytes: &[u8]) -> Result<(), Failed> {
        self.writes = counted(self.writes);
        if is_listed(self.writes, &self.fail_writes) {
            self.faults = counted(self.faults);
            return Err(Failed);
        }
        match self.volume.write_track(t, bytes) {
            Ok(()) => Ok(()),
            Err(Failed) => {
                self.faults = counted(self.faults);
                Err(Failed)
            }
        }
    }
}

/// The volume of a device in a run: in an image, or in memory, as where a REPLACE or UNPAIR line brought it.
#[derive(Drop)]
pub enum RunVolume<F: DiskFile> {
    Image(Planned<DiskImage<F>>),
    Memory(MemVolume),
}

impl<F: DiskFile> Volume for RunVolume<F> {
    ghost view = { λ v. elim v [ Image p ↦ planned_view (image_view p.volume) p.reads p.writes p.faults | Memory d ↦ disk_view d ] };

    fn read_track(&mut self, t: TrackNo, into: &mut TrackBuffer) -> Result<(), Failed> {
        match self {
            RunVolume::Image(planned) => planned.read_track(t, into),
            RunVolume::Memory(volume) => volume.read_track(t, into),
        }
    }

    fn write_track(&mut self, t: TrackNo, bytes: &[u8]) -> Result<(), Failed> {
        match self {
            RunVolume::Image(planned) => planned.write_track(t, bytes),
            RunVolume::Memory(volume) => volume.write_track(t, bytes),
        }
    }
}

impl<F: DiskFile> EmptyVolume for RunVolume<F> {
    fn empty(alloc: Global, cylinders: u16) -> Result<RunVolume<F>, NoMemory> {
        let volume = MemVolume::empty(alloc, cylinders)?;
        Ok(RunVolume::Memory(volume))
    }
}

impl<F: DiskFile> KeptVolume for RunVolume<F> {
    /// What is in memory reaches no disk.
    fn flush(&mut self) -> Result<(), Failed> {
        match self {
            RunVolume::Image(planned) => planned.volume.flush(),
            RunVolume::Memory(_) => Ok(()),
        }
    }
}
