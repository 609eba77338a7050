ghost use Rattle.std.specs.Prelude.{◌≡◌, ◌≤◌, []};
ghost use Rattle.device_outside.specs.Disk.{new_disk};

use ckd_types::NoMemory;
use device_outside::MemVolume;
use path_threads::MakeVolume;
use std::alloc::Global;

/// A volume in memory of so many cylinders, whose tracks are empty. None of its calls fails.
#[derive(Drop)]
pub struct EmptyVolume {
    pub cylinders: u16,
    ghost most: { cylinders ≤ 4369 },
}

impl MakeVolume<MemVolume> for EmptyVolume {
    ghost makes = { λ empty volume. volume ≡ new_disk empty.cylinders [] [] };

    fn make(self, alloc: Global) -> Result<MemVolume, NoMemory> {
        MemVolume::new(alloc, self.cylinders, &[], &[])
    }
}
