ghost use Rattle.std.specs.Prelude.{◌≡◌, ◌≢◌, ◌≤◌, ◌<◌, ◌+◌, ◌^◌, Err, IfOk, length, take};
ghost use Rattle.byteorder.specs.Endian.{big_bytes};
ghost use Rattle.ckd_types.specs.Track.{track_bytes};
ghost use Rattle.track_image.specs.Packed.{most_bytes};
ghost use Rattle.volume_file.specs.Answers.{Gives, IsCaused, Tells};
ghost use Rattle.volume_file.specs.File.{IsPlaced, track_part};
ghost use Rattle.volume_file.specs.Loading.{image_at, length_in, track_at};

use crate::LoadFault;
use crate::field::read_field;
use byteorder::{BigEndian, ByteOrder};
use ckd_outside::Source;
use ckd_types::{Geometry, TrackNo};
use std::alloc::Global;
use track_image::{BytesFault, TrackImage};

/// The bytes of a track's length.
const LENGTH: usize = 4;

/// The most bytes of a track.
const MOST: u32 = 58_815;

/// The length of a track's bytes, whose field stands at an offset.
#[tactic(auto, unfolding(crate::specs::Loading::length_in))]
fn length_in(track: TrackNo, offset: u32, field: &[u8]) -> Result<u32, LoadFault>
    requires { length field.now ≤ LENGTH }
    ensures exact { result ≡ length_in track offset field.now }
    ensures spelled { IfOk result (λ size. field.now ≡ big_bytes 4 size) }
    ensures most { IfOk result (λ size. size ≤ most_bytes) }
    ensures calm { result ≢ Err LoadFault.ReadFault }
{
    if field.len() < LENGTH {
        return Err(LoadFault::BadTrack { track, offset });
    }
    let size = BigEndian::read_u32(field);
    if size > MOST {
        return Err(LoadFault::BadTrack { track, offset });
    }
    Ok(size)
}

fn read_length<S: Source>(
    alloc: Global,
    source: &mut S,
    track: TrackNo,
    offset: u32,
) -> Result<u32, LoadFault>
    ensures told { Tells (λ bytes. length_in track offset (take 4 bytes)) (big_bytes 4)
        (S.left source.old) (S.left source.new) result }
    ensures most { IfOk result (λ size. size ≤ most_bytes) }
    ensures cause { IsCaused (S.faults source.old) (S.faults source.new) result }
{
    let field = read_field(alloc, source, LENGTH)?;
    length_in(track, offset, &field)
}

/// The image of a track, whose bytes stand at an offset and should be so many.
#[tactic(auto, unfolding(crate::specs::Loading::image_at))]
fn image_at(
    alloc: Global,
    geometry: Geometry,
    track: TrackNo,
    offset: u32,
    size: u32,
    field: &[u8],
) -> Result<TrackImage, LoadFault>
    requires place { offset + length field.now < 2 ^ 32 }
    ensures exact { Gives result (image_at geometry track offset size field.now) }
    ensures bytes { IfOk result (λ i. field.now ≡ track_bytes i.track) }
    ensures size { IfOk result (λ i. size ≤ length field.now) }
    ensures placed { IfOk result (λ i. IsPlaced geometry track i) }
    ensures calm { result ≢ Err LoadFault.ReadFault }
{
    match TrackImage::from_bytes(alloc, geometry, track, field) {
        Ok(image) => {
            image.fits();
            if field.len() < size as usize {
                let offset = offset + field.len() as u32;
                return Err(LoadFault::BadTrack { track, offset });
            }
            Ok(image)
        }
        Err(BytesFault::BadTrack { offset: inside }) => {
            let offset = offset + inside as u32;
            Err(LoadFault::BadTrack { track, offset })
        }
        Err(BytesFault::NoMemory) => Err(LoadFault::NoMemory),
    }
}

fn read_image<S: Source>(
    alloc: Global,
    source: &mut S,
    geometry: Geometry,
    track: TrackNo,
    offset: u32,
    size: u32,
) -> Result<TrackImage, LoadFault>
    requires place { offset + size < 2 ^ 32 }
    ensures told { Tells (λ bytes. image_at geometry track offset size (take size bytes)) (λ i. track_bytes i.track)
        (S.left source.old) (S.left source.new) result }
    ensures size { IfOk result (λ i. length (track_bytes i.track) ≡ size) }
    ensures placed { IfOk result (λ i. IsPlaced geometry track i) }
    ensures cause { IsCaused (S.faults source.old) (S.faults source.new) result }
{
    let field = read_field(alloc, source, size as usize)?;
    image_at(alloc, geometry, track, offset, size, &field)
}

/// Reads a track whose length stands at an offset.
pub(crate) fn read_track<S: Source>(
    alloc: Global,
    source: &mut S,
    geometry: Geometry,
    track: TrackNo,
    offset: u32,
) -> Result<TrackImage, LoadFault>
    requires place { offset + 58819 < 2 ^ 32 }
    ensures told { Tells (track_at geometry track offset) track_part (S.left source.old) (S.left source.new) result }
    ensures placed { IfOk result (λ i. IsPlaced geometry track i) }
    ensures cause { IsCaused (S.faults source.old) (S.faults source.new) result }
{
    let size = read_length(alloc, source, track, offset)?;
    read_image(alloc, source, geometry, track, offset + LENGTH as u32, size)
}
