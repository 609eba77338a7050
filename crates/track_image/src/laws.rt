//! Laws of the bytes of tracks.

ghost use Rattle.std.specs.Prelude.{◌≡◌, ℕ, List, [], ◌++◌, Ok};
ghost use Rattle.ckd_types.specs.declared.geometry.Geometry.{Geometry};
ghost use Rattle.ckd_types.specs.declared.record.Track.{Track};
ghost use Rattle.ckd_types.specs.Track.{Fits, track_bytes};
ghost use Rattle.track_image.specs.Reading.{reading};

/// The bytes of a track that fits are read as that track.
pub fn reads_back()
    ensures { (g : Geometry) (t : Track) → Fits g t → reading g t.home (track_bytes t) ≡ Ok t }
{}

/// No two tracks that fit have the same bytes.
pub fn same_bytes()
    ensures { (g : Geometry) (a b : Track) → Fits g a → Fits g b → track_bytes a ≡ track_bytes b → a ≡ b }
{}

/// No track's bytes begin with all of another's.
pub fn no_prefix()
    ensures { (g : Geometry) (a b : Track) (rest : List ℕ) → Fits g a → Fits g b → track_bytes b ≡ track_bytes a ++ rest → rest ≡ [] }
{}
