ghost use Rattle.std.specs.Prelude.{◌≡◌, ◌⊎◌, ◌≤◌, ◌*◌, ◌++◌, ◌∷◌, [], IfErr, IfOk, OnOk, length};
ghost use Rattle.ckd_types.specs.Track.{track_bytes};
ghost use Rattle.volume_file.specs.File.{IsPlaced};
ghost use Rattle.disk_image.specs.Image.{IsLayoutOf};
ghost use Rattle.disk_image.specs.File.{room_size, track_in};
ghost use Rattle.disk_image.specs.Volume.{HasTracks, IsFault, IsHanded, Notes, TellsTrack, TellsUnloaded, Told, fault_at, faults_by, faults_in, FileFaultHasCause};

use crate::layout::place_of;
use crate::{DiskFile, ImageFault, Layout, TrackRoom, read_room};
use ckd_types::{Geometry, HEADS, TrackNo};
use std::alloc::Global;
use track_image::{BytesFault, TrackImage};
use volume_file::FileVolume;

/// A track of a file that is none: its number, and the offset in the file of its first field that is wrong or cut.
#[derive(Clone, Copy, Debug, PartialEq, Eq)]
pub struct TrackFault {
    pub track: TrackNo,
    pub offset: u64,
}

/// The image of the bytes that stand in a track's room.
#[tactic(auto, using(crate::proofs::Found::found_good, crate::proofs::Found::found_bad))]
fn image_of(
    alloc: Global,
    geometry: Geometry,
    t: TrackNo,
    bytes: &[u8],
) -> Result<TrackImage, ImageFault>
    requires { length bytes.now ≤ 65536 }
    ensures track { IfOk result (λ i. bytes.now ≡ track_bytes i.track) }
    ensures good { OnOk result (faults_by geometry t bytes.now ≡ []) }
    ensures placed { IfOk result (λ i. IsPlaced geometry t i) }
    ensures bad { IfErr result (λ fault. IsFault geometry t bytes.now fault) }
{
    match TrackImage::from_bytes(alloc, geometry, t, bytes) {
        Ok(image) => Ok(image),
        Err(BytesFault::BadTrack { offset }) => Err(ImageFault::BadTrack {
            track: t,
            offset: place_of(geometry, t.get()) + offset as u64,
        }),
        Err(BytesFault::NoMemory) => Err(ImageFault::NoMemory),
    }
}

/// The most cylinders of a volume in memory.
const MOST_LOADED: u16 = 64;

/// The image of a track of a file, or why it is none. Only its room is read.
pub fn read_image<F: DiskFile>(
    alloc: Global,
    file: &mut F,
    geometry: Geometry,
    t: TrackNo,
    room: &mut TrackRoom,
) -> Result<TrackImage, ImageFault>
    requires { length room.old ≡ room_size geometry }
    ensures track { IfOk result (λ i. Told (F.held file.old) (λ all. track_in geometry all t ≡ track_bytes i.track)) }
    ensures good { OnOk result (Told (F.held file.old) (λ all. fault_at geometry all t ≡ [])) }
    ensures placed { IfOk result (λ i. IsPlaced geometry t i) }
    ensures bad { IfErr result (λ fault. TellsTrack (F.held file.old) geometry t fault) }
    ensures size { length room.new ≡ length room.old }
    ensures held { F.held file.new ≡ F.held file.old }
    ensures later { F.faults file.old ≤ F.faults file.new }
    ensures cause { FileFaultHasCause result (F.faults file.old) (F.faults file.new) }
{
    read_room(file, geometry, t, room)?;
    image_of(alloc, geometry, t, room.track())
}

/// The volume that a file of this layout holds, or its first bad track. A volume in memory has at most 64 cylinders, as its file
/// has: where the layout has more, that is answered, and nothing is read.
pub fn load_volume<F: DiskFile>(
    alloc: Global,
    file: &mut F,
    layout: Layout,
) -> Result<FileVolume, ImageFault>
    requires { IsLayoutOf (F.held file.old) layout }
    ensures geometry { IfOk result (λ v. v.geometry ≡ layout.geometry) }
    ensures cylinders { IfOk result (λ v. v.cylinders ≡ layout.cylinders) }
    ensures tracks { IfOk result (λ v. Told (F.held file.old) (HasTracks v (layout.cylinders * 15))) }
    ensures bad { IfErr result (λ fault. TellsUnloaded (F.held file.old) layout fault) }
    ensures held { F.held file.new ≡ F.held file.old }
    ensures later { F.faults file.old ≤ F.faults file.new }
    ensures cause { FileFaultHasCause result (F.faults file.old) (F.faults file.new) }
{
    if layout.cylinders > MOST_LOADED {
        return Err(ImageFault::ManyCylinders {
            cylinders: layout.cylinders,
        });
    }
    let geometry = layout.geometry;
    let mut volume = FileVolume::new(alloc, geometry, layout.cylinders as u8)?;
    volume.is_whole();
    let mut room = TrackRoom::new(alloc, geometry)?;
    for n in 0..layout.cylinders * HEADS {
        let t = TrackNo::new(n).unwrap();
        let image = read_image(alloc, file, geometry, t, &mut room)?;
        volume.set(t, image);
    }
    Ok(volume)
}

fn note(found: &mut Vec<TrackFault>, fault: TrackFault) -> Result<(), ImageFault>
    ensures pushed { OnOk result (found.new.items ≡ found.old.items ++ fault ∷ []) }
    ensures want { IfErr result (λ e. e ≡ ImageFault.NoMemory) }
{
    found.push(fault)?;
    Ok(())
}

/// Notes the fault of a track; another one is handed on.
fn note_fault(found: &mut Vec<TrackFault>, fault: ImageFault) -> Result<(), ImageFault>
    ensures noted { OnOk result (Notes fault found.old.items found.new.items) }
    ensures early { IfErr result (λ e. (e ≡ fault) ⊎ (e ≡ ImageFault.NoMemory)) }
    ensures handed { IfErr result (λ e. IsHanded fault e) }
{
    match fault {
        ImageFault::BadTrack { track, offset } => note(found, TrackFault { track, offset }),
        _ => Err(fault),
    }
}

/// Reads a track, and notes it where it is none.
#[tactic(auto, using(crate::proofs::Found::none_noted, crate::proofs::Found::fault_noted))]
fn note_bad<F: DiskFile>(
    alloc: Global,
    file: &mut F,
    geometry: Geometry,
    t: TrackNo,
    room: &mut TrackRoom,
    found: &mut Vec<TrackFault>,
) -> Result<(), ImageFault>
    requires { length room.old ≡ room_size geometry }
    ensures noted { OnOk result (Told (F.held file.old) (λ all. found.new.items ≡ found.old.items ++ fault_at geometry all t)) }
    ensures early { IfErr result (λ e. (e ≡ ImageFault.FileFault) ⊎ (e ≡ ImageFault.NoMemory)) }
    ensures size { length room.new ≡ length room.old }
    ensures held { F.held file.new ≡ F.held file.old }
    ensures later { F.faults file.old ≤ F.faults file.new }
    ensures cause { FileFaultHasCause result (F.faults file.old) (F.faults file.new) }
{
    match read_image(alloc, file, geometry, t, room) {
        Ok(_image) => Ok(()),
        Err(fault) => note_fault(found, fault),
    }
}

/// Each track of a file of this layout that is none.
pub fn find_bad<F: DiskFile>(
    alloc: Global,
    file: &mut F,
    layout: Layout,
) -> Result<Vec<TrackFault>, ImageFault>
    requires { IsLayoutOf (F.held file.old) layout }
    ensures faults { IfOk result (λ found. Told (F.held file.old)
        (λ all. found.items ≡ faults_in layout.geometry (layout.cylinders * 15) all)) }
    ensures early { IfErr result (λ e. (e ≡ ImageFault.FileFault) ⊎ (e ≡ ImageFault.NoMemory)) }
    ensures held { F.held file.new ≡ F.held file.old }
    ensures later { F.faults file.old ≤ F.faults file.new }
    ensures cause { FileFaultHasCause result (F.faults file.old) (F.faults file.new) }
{
    let geometry = layout.geometry;
    let mut room = TrackRoom::new(alloc, geometry)?;
    let mut found = Vec::new(alloc);
    for n in 0..layout.cylinders * HEADS {
        let t = TrackNo::new(n).unwrap();
        note_bad(alloc, file, geometry, t, &mut room, &mut found)?;
    }
    Ok(found)
}
