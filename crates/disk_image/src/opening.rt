ghost use Rattle.std.specs.Prelude.{◌≡◌, ◌⊎◌, ◌≤◌, IfErr, IfOk, length, min};
ghost use Rattle.disk_image.specs.Calls.{IsAt};
ghost use Rattle.disk_image.specs.Image.{IsLayoutOf, TellsOpening};
ghost use Rattle.disk_image.specs.Volume.{FileFaultHasCause};

use crate::head::{HEAD, head_in, layout_by};
use crate::{DiskFile, ImageFault, Layout};
use std::alloc::Global;

/// Reads the head of a file of so many bytes, or what there is of it.
fn read_head<F: DiskFile>(alloc: Global, file: &mut F, size: u64) -> Result<Vec<u8>, ImageFault>
    ensures bytes { IfOk result (λ field. IsAt (F.held file.old) 0 field.items) }
    ensures size { IfOk result (λ field. length field.items ≡ min size 512) }
    ensures early { IfErr result (λ e. (e ≡ ImageFault.FileFault) ⊎ (e ≡ ImageFault.NoMemory)) }
    ensures held { F.held file.new ≡ F.held file.old }
    ensures later { F.faults file.old ≤ F.faults file.new }
    ensures cause { FileFaultHasCause result (F.faults file.old) (F.faults file.new) }
{
    let mut field = vec![in alloc; 0; size.min(HEAD as u64) as usize]?;
    let count = file.read_at(0, field.as_mut_slice())?;
    if count < field.len() {
        return Err(ImageFault::FileFault);
    }
    Ok(field)
}

/// What a file tells of its volume, if it is a plain image in one file of its own, and as long as it should be. Only its head
/// is read.
pub fn open_image<F: DiskFile>(alloc: Global, file: &mut F) -> Result<Layout, ImageFault>
    ensures told { TellsOpening (F.held file.old) result }
    ensures layout { IfOk result (λ l. IsLayoutOf (F.held file.old) l) }
    ensures held { F.held file.new ≡ F.held file.old }
    ensures later { F.faults file.old ≤ F.faults file.new }
    ensures cause { FileFaultHasCause result (F.faults file.old) (F.faults file.new) }
{
    let size = file.len()?;
    let field = read_head(alloc, file, size)?;
    let geometry = head_in(&field)?;
    layout_by(geometry, size)
}
