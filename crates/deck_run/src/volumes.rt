ghost use Rattle.std.specs.Prelude.{◌≡◌, ◌≤◌, ◌*◌, IfOk};
ghost use Rattle.device_outside.specs.Both.{SideIs};
ghost use Rattle.device_outside.specs.Disk.{empty_contents};
ghost use Rattle.subsystem_defs.specs.Subsystem.{unfailing};

use ckd_types::NoMemory;
use device_outside::{MemVolume, Volume};
use std::alloc::Global;

/// Volumes of which an empty one can be made, as REPLACE and UNPAIR ask.
pub trait EmptyVolume: Volume + Sized {
    /// A volume of empty tracks. None of its calls fails.
    fn empty(alloc: Global, cylinders: u16) -> Result<Self, NoMemory>
        requires { cylinders ≤ 4369 }
        ensures told { IfOk result (λ v. SideIs (Self.view v) (empty_contents (cylinders * 15)) unfailing) }
        ensures tracks { IfOk result (λ v. (Self.view v).tracks ≡ cylinders * 15) };
}

impl EmptyVolume for MemVolume {
    fn empty(alloc: Global, cylinders: u16) -> Result<MemVolume, NoMemory> {
        MemVolume::new(alloc, cylinders, &[], &[])
    }
}
