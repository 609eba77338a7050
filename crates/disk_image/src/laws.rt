//! Laws of disk image files.

ghost use Rattle.std.specs.Prelude.{◌≡◌, ℕ, List, true};
ghost use Rattle.ckd_types.specs.declared.geometry.Geometry.{Geometry};
ghost use Rattle.ckd_types.specs.declared.record.Track.{Track};
ghost use Rattle.ckd_types.specs.Track.{Fits, track_bytes};
ghost use Rattle.volume_file.specs.File.{ImageVolume};
ghost use Rattle.disk_image.specs.File.{fits_room, room_size};
ghost use Rattle.disk_image.specs.Volume.{Holds, IsDiskVolume};

/// A track that fits its volume fits its room, and comes back from there.
pub fn tracks_fit()
    ensures { (g : Geometry) (t : Track) → Fits g t → fits_room (room_size g) (track_bytes t) ≡ true }
{}

/// A file is the image of one volume at most.
pub fn held_once()
    ensures { (v u : ImageVolume) (all : List ℕ) → IsDiskVolume v → IsDiskVolume u → Holds v all → Holds u all → u ≡ v }
{}
