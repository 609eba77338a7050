//! A law of volume files.

ghost use Rattle.std.specs.Prelude.{◌≡◌, Ok};
ghost use Rattle.volume_file.specs.File.{ImageVolume, IsWhole, file_of};
ghost use Rattle.volume_file.specs.Loading.{loading};

/// The file of a volume is loaded as that volume.
pub fn loads_back()
    ensures { (v : ImageVolume) → IsWhole v → loading (file_of v) ≡ Ok v }
{}
