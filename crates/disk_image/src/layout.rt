ghost use Rattle.std.specs.Prelude.{◌≡◌, ◌<◌, ◌≤◌, ◌^◌};
ghost use Rattle.disk_image.specs.File.{place_of, room_size};

use ckd_types::Geometry;

/// What of a volume its image file tells: the model, and how many cylinders of 15 tracks it has.
#[derive(Clone, Copy, Debug, PartialEq, Eq)]
pub struct Layout {
    pub geometry: Geometry,
    pub cylinders: u16,
}

/// The bytes of a track's room (the emulators').
pub fn room_size(geometry: Geometry) -> usize
    ensures size { result ≡ room_size geometry }
    ensures range { (512 ≤ result) × (result ≤ 56832) }
{
    match geometry {
        Geometry::D3390 => 56_832,
        Geometry::D3380 => 47_616,
    }
}

/// Where the room of a track begins in its file; that of the first track that isn't there is the file's end.
pub fn place_of(geometry: Geometry, t: u16) -> u64
    ensures place { result ≡ place_of geometry t }
    ensures range { result < 2 ^ 40 }
{
    let t = u64::from(t);
    match geometry {
        Geometry::D3390 => 512 + t * 56_832,
        Geometry::D3380 => 512 + t * 47_616,
    }
}
