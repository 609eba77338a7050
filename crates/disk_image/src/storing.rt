ghost use Rattle.std.specs.Prelude.{◌≡◌, length};
ghost use Rattle.ckd_types.specs.Track.{track_bytes};
ghost use Rattle.ckd_outside.specs.Causes.{HasCause};
ghost use Rattle.disk_image.specs.Calls.{PutsAll};
ghost use Rattle.disk_image.specs.File.{padded, place_of, room_size};
ghost use Rattle.disk_image.specs.Image.{IsLayoutOf};
ghost use Rattle.disk_image.specs.Storing.{Stores};
ghost use Rattle.disk_image.specs.Volume.{layout_of};

use crate::{DiskFile, TrackRoom, write_room};
use ckd_outside::Failed;
use ckd_types::{Geometry, HEADS, TrackNo};
use track_image::TrackImage;
use volume_file::FileVolume;

/// Writes the image of a track into its room.
fn store_image<F: DiskFile>(
    file: &mut F,
    geometry: Geometry,
    t: TrackNo,
    image: &TrackImage,
    room: &mut TrackRoom,
) -> Result<(), Failed>
    requires room { length room.old ≡ room_size geometry }
    requires model { image.now.geometry ≡ geometry }
    ensures bytes { PutsAll (F.held file.old) (place_of geometry t)
        (padded (room_size geometry) (track_bytes image.now.track)) result (F.held file.new) }
    ensures size { length room.new ≡ length room.old }
    ensures cause { HasCause (F.faults file.old) (F.faults file.new) result }
{
    image.fits();
    room.set(image.bytes());
    write_room(file, geometry, t, room)
}

/// Writes each track of a volume into its room, in rising order, in a file of that volume's layout. Where a write fails, each track
/// is the volume's or as it was, but for at most one.
pub fn store_volume<F: DiskFile>(
    file: &mut F,
    volume: &FileVolume,
    room: &mut TrackRoom,
) -> Result<(), Failed>
    requires layout { IsLayoutOf (F.held file.old) (layout_of volume.now) }
    requires room { length room.old ≡ room_size volume.now.geometry }
    ensures stores { Stores volume.now (F.held file.old) result (F.held file.new) }
    ensures cause { HasCause (F.faults file.old) (F.faults file.new) result }
{
    volume.is_whole();
    let geometry = volume.geometry();
    for n in 0..u16::from(volume.cylinders()) * HEADS {
        let t = TrackNo::new(n).unwrap();
        store_image(file, geometry, t, volume.image(t), room)?;
    }
    Ok(())
}
