ghost use Rattle.std.specs.Prelude.{◌≡◌, ◌<◌, ◌+◌, ◌*◌, [], IfOk, OnErr, OnOk, length};
ghost use Rattle.std.specs.Io.KnownBytes.{IsAtEnd};
ghost use Rattle.volume_file.specs.Answers.{IsCaused, IsProgress, Progress, Tells};
ghost use Rattle.volume_file.specs.File.{IsPlaced, head_of, track_part};
ghost use Rattle.volume_file.specs.Loading.{end_at, head_at, track_at};

use crate::LoadFault;
use crate::field::read_field;
use crate::head::{HEAD, head_in};
use crate::track::read_track;
use ckd_outside::Source;
use ckd_types::{Geometry, HEADS, TrackNo};
use std::alloc::Global;
use std::marker::Model;
use track_image::TrackImage;

/// A file that is being read from its front to its end, one track at a time. It is seen as how far it was read.
#[derive(Debug, Drop)]
pub struct FileReader {
    geometry: Geometry,
    cylinders: u8,
    next: u16,
    offset: u32,
}

impl Model for FileReader {
    ghost use Rattle.volume_file.specs.Answers.{IsProgress, Progress};

    ghost Value = { Progress };

    ghost view = { λ r. record { geometry = r.geometry; cylinders = r.cylinders; next = r.next; offset = r.offset } };

    ghost invariant = { λ r. IsProgress
        (record { geometry = r.geometry; cylinders = r.cylinders; next = r.next; offset = r.offset }) };
}

impl FileReader {
    /// Reads the head of a file.
    pub fn begin<S: Source>(alloc: Global, source: &mut S) -> Result<FileReader, LoadFault>
        ensures told { Tells head_at (λ p. head_of p.geometry p.cylinders)
            (S.left source.old) (S.left source.new) result }
        ensures start { IfOk result (λ p. IsProgress p × (p.next ≡ 0) × (p.offset ≡ 12)) }
        ensures cause { IsCaused (S.faults source.old) (S.faults source.new) result }
    {
        let field = read_field(alloc, source, HEAD)?;
        let head = head_in(&field)?;
        Ok(FileReader {
            geometry: head.geometry,
            cylinders: head.cylinders,
            next: 0,
            offset: HEAD as u32,
        })
    }

    /// The geometry that the head names.
    pub fn geometry(&self) -> Geometry
        ensures { result ≡ self.now.geometry }
    {
        self.geometry
    }

    /// How many cylinders the head names: 1 to 64.
    pub fn cylinders(&self) -> u8
        ensures { result ≡ self.now.cylinders }
    {
        self.cylinders
    }

    /// How many tracks the file should have.
    pub fn track_count(&self) -> u16
        ensures { result ≡ self.now.cylinders * 15 }
    {
        u16::from(self.cylinders) * HEADS
    }

    /// Reads the next track. After a fault there is no going on: part of the track may have been taken.
    pub fn track<S: Source>(
        &mut self,
        alloc: Global,
        source: &mut S,
    ) -> Result<TrackImage, LoadFault>
        requires { self.old.next < self.old.cylinders * 15 }
        ensures told { Tells (track_at self.old.geometry self.old.next self.old.offset) track_part
            (S.left source.old) (S.left source.new) result }
        ensures placed { IfOk result (λ i. IsPlaced self.old.geometry self.old.next i) }
        ensures moved { IfOk result (λ i. self.new
            ≡ record self.old { next = self.old.next + 1; offset = self.old.offset + length (track_part i) }) }
        ensures same { OnErr result (self.new ≡ self.old) }
        ensures cause { IsCaused (S.faults source.old) (S.faults source.new) result }
    {
        let track = TrackNo::new(self.next).unwrap();
        let image = read_track(alloc, source, self.geometry, track, self.offset)?;
        self.next += 1;
        self.offset += 4 + image.bytes().len() as u32;
        Ok(image)
    }

    /// Finds the end of the file.
    pub fn finish<S: Source>(&self, alloc: Global, source: &mut S) -> Result<(), LoadFault>
        ensures told { Tells (end_at self.now.offset) (λ _. []) (S.left source.old) (S.left source.new) result }
        ensures end { OnOk result (IsAtEnd (S.left source.new)) }
        ensures cause { IsCaused (S.faults source.old) (S.faults source.new) result }
    {
        let field = read_field(alloc, source, 1)?;
        if !field.is_empty() {
            return Err(LoadFault::Trailing {
                offset: self.offset,
            });
        }
        Ok(())
    }
}
