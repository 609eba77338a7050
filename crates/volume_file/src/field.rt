ghost use Rattle.std.specs.Prelude.{◌≡◌, ◌⊎◌, IfErr, IfOk};
ghost use Rattle.volume_file.specs.Answers.{IsCaused, IsField};

use crate::LoadFault;
use ckd_outside::{ReadError, Source, read_up_to};
use std::alloc::Global;

/// Reads a field of so many bytes, or what there is of it at the end of the file.
pub(crate) fn read_field<S: Source>(
    alloc: Global,
    source: &mut S,
    size: usize,
) -> Result<Vec<u8>, LoadFault>
    ensures field { IfOk result (λ field. IsField (S.left source.old) (S.left source.new) size field.items) }
    ensures early { IfErr result (λ e. (e ≡ LoadFault.ReadFault) ⊎ (e ≡ LoadFault.NoMemory)) }
    ensures cause { IsCaused (S.faults source.old) (S.faults source.new) result }
{
    match read_up_to(alloc, source, size) {
        Ok(field) => Ok(field),
        Err(ReadError::Failed) => Err(LoadFault::ReadFault),
        Err(ReadError::NoMemory) => Err(LoadFault::NoMemory),
    }
}
