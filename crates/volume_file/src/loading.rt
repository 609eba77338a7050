ghost use Rattle.std.specs.Prelude.{◌≡◌, ◌<◌, ◌*◌, IfOk, Ok, OnOk, Some};
ghost use Rattle.std.specs.Io.KnownBytes.{IsAtEnd};
ghost use Rattle.volume_file.specs.Answers.{Gives, IsCaused, Tells};
ghost use Rattle.volume_file.specs.File.{ImageVolume, IsWhole, file_of};
ghost use Rattle.volume_file.specs.Loading.{loading};

use crate::{FileReader, FileVolume, LoadFault};
use ckd_outside::Source;
use std::alloc::Global;

fn read_volume<S: Source>(alloc: Global, source: &mut S) -> Result<FileVolume, LoadFault>
    ensures told { Tells loading file_of (S.left source.old) (S.left source.new) result }
    ensures end { OnOk result (IsAtEnd (S.left source.new)) }
    ensures whole { IfOk result (λ v. IsWhole v) }
    ensures cause { IsCaused (S.faults source.old) (S.faults source.new) result }
{
    let mut file = FileReader::begin(alloc, source)?;
    let mut images = Vec::with_capacity(alloc, usize::from(file.track_count()))?;
    'tracks: for _ in 0..file.track_count() {
        let image = file.track(alloc, source)?;
        images.push(image)?;
    }
    file.finish(alloc, source)?;
    Ok(FileVolume::of(file.geometry(), file.cylinders(), images))
}

/// The volume of the file that a source gives to its end, or the first field that is wrong or cut. Beside the
/// volume it holds one track's bytes.
pub fn load<S: Source>(alloc: Global, source: &mut S) -> Result<FileVolume, LoadFault>
    // The source was read and is the file of the volume, or its text is no file, for that fault.
    ensures told { Tells loading file_of (S.left source.old) (S.left source.new) result }
    ensures end { OnOk result (IsAtEnd (S.left source.new)) }
    // The file of a volume is loaded as that volume, unless a read fails or memory runs out.
    ensures saved { (v : ImageVolume) → IsWhole v → S.left source.old ≡ Some (file_of v) → Gives result (Ok v) }
    ensures cause { IsCaused (S.faults source.old) (S.faults source.new) result }
{
    read_volume(alloc, source)
}
