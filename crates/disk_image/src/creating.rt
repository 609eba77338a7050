ghost use Rattle.std.specs.Prelude.{◌≡◌, ◌≤◌, ◌+◌, ◌*◌, IfErr, IfOk, OnOk, length};
ghost use Rattle.disk_image.specs.Image.{HasEmpty, IsEmpty};
ghost use Rattle.disk_image.specs.File.{head_of, room_size};
ghost use Rattle.disk_image.specs.Volume.{FileFaultHasCause};

use crate::head::{HEAD, head_front};
use crate::room::write_whole;
use crate::{DiskFile, ImageFault, TrackRoom, write_room};
use ckd_types::{Geometry, HEADS, TrackNo};
use std::alloc::Global;
use track_image::TrackImage;

/// The head of the file of such a volume.
fn head_of(alloc: Global, geometry: Geometry) -> Result<Vec<u8>, ImageFault>
    ensures head { IfOk result (λ head. head.items ≡ head_of geometry) }
    ensures want { IfErr result (λ e. e ≡ ImageFault.NoMemory) }
{
    let mut head = Vec::with_capacity(alloc, HEAD)?;
    head.extend_from_slice(&head_front(geometry))?;
    head.extend_from_slice(&[0; 492])?;
    Ok(head)
}

/// Writes the room of an empty track.
fn write_empty<F: DiskFile>(
    alloc: Global,
    file: &mut F,
    geometry: Geometry,
    t: TrackNo,
    room: &mut TrackRoom,
) -> Result<(), ImageFault>
    requires { length room.old ≡ room_size geometry }
    ensures put { OnOk result (HasEmpty geometry t (F.held file.old) → HasEmpty geometry (t + 1) (F.held file.new)) }
    ensures size { length room.new ≡ length room.old }
    ensures later { F.faults file.old ≤ F.faults file.new }
    ensures cause { FileFaultHasCause result (F.faults file.old) (F.faults file.new) }
{
    let image = TrackImage::empty(alloc, geometry, t)?;
    image.fits();
    room.set(image.bytes());
    write_room(file, geometry, t, room)?;
    Ok(())
}

/// Writes the head and the rooms of empty tracks behind each other into a file that has no bytes yet. A volume has 1 to 4369
/// cylinders. Where that fails, a front of the image was written.
pub fn create<F: DiskFile>(
    alloc: Global,
    file: &mut F,
    geometry: Geometry,
    cylinders: u16,
) -> Result<(), ImageFault>
    requires empty { IsEmpty (F.held file.old) }
    requires most { cylinders ≤ 4369 }
    ensures made { OnOk result (HasEmpty geometry (cylinders * 15) (F.held file.new)) }
    ensures later { F.faults file.old ≤ F.faults file.new }
    ensures cause { FileFaultHasCause result (F.faults file.old) (F.faults file.new) }
{
    let head = head_of(alloc, geometry)?;
    let mut room = TrackRoom::new(alloc, geometry)?;
    write_whole(file, 0, &head)?;
    for n in 0..cylinders * HEADS {
        let t = TrackNo::new(n).unwrap();
        write_empty(alloc, file, geometry, t, &mut room)?;
    }
    Ok(())
}
