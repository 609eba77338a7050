ghost use Rattle.std.specs.Prelude.{◌≡◌, ◌≤◌, ◌<◌, ◌*◌, IfOk, is_ok, length};
ghost use Rattle.device_outside.specs.Volume.{ReadOf, WriteOf, delivery};
ghost use Rattle.disk_image.specs.File.{room_size};
ghost use Rattle.disk_image.specs.Image.{IsLayoutOf, Left, image_view};

use crate::{DiskFile, Layout, TrackRoom, read_room, write_room};
use ckd_outside::Failed;
use ckd_types::{NoMemory, TrackNo};
use device_outside::{TrackBuffer, Volume, counted};
use std::alloc::Global;
use std::marker::Model;

/// A volume in an image file. It tells what the file tells.
#[derive(Drop)]
pub struct DiskImage<F: DiskFile> {
    file: F,
    layout: Layout,
    room: TrackRoom,
    last: TrackBuffer,
    has_read: bool,
    reads: u64,
    writes: u64,
    faults: u64,
}

impl<F: DiskFile> Model for DiskImage<F> {
    ghost use Rattle.std.specs.Prelude.{◌≡◌, ◌≤◌, length};
    ghost use Rattle.disk_image.specs.File.{room_size};
    ghost use Rattle.disk_image.specs.Image.{ImageState, IsLayoutOf, last_read};

    ghost Value = { ImageState };

    ghost view = { λ i. record {
      held = F.held i.file;
      layout = i.layout;
      delivered = last_read i.has_read i.last;
      reads = i.reads;
      writes = i.writes;
      faults = i.faults;
    } };

    ghost invariant = { λ i. IsLayoutOf (F.held i.file) i.layout × (length i.room ≡ room_size i.layout.geometry) };
}

impl<F: DiskFile> DiskImage<F> {
    /// A volume over a file that was opened with this layout. Its memory is taken here.
    pub fn new(alloc: Global, file: F, layout: Layout) -> Result<DiskImage<F>, NoMemory>
        requires { IsLayoutOf (F.held file) layout }
        ensures { IfOk result (λ i. i ≡ record { held = F.held file; layout = layout; delivered = None; reads = 0; writes = 0; faults = 0 }) }
    {
        let room = TrackRoom::new(alloc, layout.geometry)?;
        let last = TrackBuffer::new(alloc)?;
        Ok(DiskImage {
            file,
            layout,
            room,
            last,
            has_read: false,
            reads: 0,
            writes: 0,
            faults: 0,
        })
    }

    /// The model and the cylinders.
    pub fn layout(&self) -> Layout
        ensures value { result ≡ self.now.layout }
        ensures range { (1 ≤ result.cylinders) × (result.cylinders ≤ 4369) }
    {
        self.layout
    }

    /// Waits until what was written has reached the disk.
    pub fn flush(&mut self) -> Result<(), Failed>
        ensures { self.new ≡ self.old }
    {
        self.file.sync()
    }
}

/// Writes a track into its room, where it would come back from there.
fn write_into<F: DiskFile>(
    file: &mut F,
    layout: Layout,
    t: TrackNo,
    bytes: &[u8],
    room: &mut TrackRoom,
) -> Result<(), Failed>
    requires layout { IsLayoutOf (F.held file.old) layout }
    requires track { t < layout.cylinders * 15 }
    requires room { length room.old ≡ room_size layout.geometry }
    ensures left { Left layout (F.held file.old) t bytes.now (is_ok result) (F.held file.new) }
    ensures size { length room.new ≡ length room.old }
{
    if room.set(bytes) {
        return write_room(file, layout.geometry, t, room);
    }
    Err(Failed)
}

impl<F: DiskFile> Volume for DiskImage<F> {
    ghost view = { λ i. image_view i };

    /// A track that the file spoils is delivered as it is.
    fn read_track(&mut self, t: TrackNo, into: &mut TrackBuffer) -> Result<(), Failed>
        requires { t < self.old.layout.cylinders * 15 }
        ensures { ReadOf (image_view self.old) t (delivery result into.new) (image_view self.new) }
    {
        self.reads = counted(self.reads);
        let geometry = self.layout.geometry;
        match read_room(&mut self.file, geometry, t, &mut self.room) {
            Ok(()) => {
                self.last.set(self.room.track());
                self.has_read = true;
                into.set(self.last.bytes());
                Ok(())
            }
            Err(Failed) => {
                self.faults = counted(self.faults);
                Err(Failed)
            }
        }
    }

    /// Bytes that wouldn't come back from their room are not written, and the call fails.
    fn write_track(&mut self, t: TrackNo, bytes: &[u8]) -> Result<(), Failed>
        requires track { t < self.old.layout.cylinders * 15 }
        requires most { length bytes.now ≤ 65536 }
        ensures { WriteOf (image_view self.old) t bytes.now (is_ok result) (image_view self.new) }
    {
        self.writes = counted(self.writes);
        let layout = self.layout;
        match write_into(&mut self.file, layout, t, bytes, &mut self.room) {
            Ok(()) => Ok(()),
            Err(Failed) => {
                self.faults = counted(self.faults);
                Err(Failed)
            }
        }
    }
}
