ghost use Rattle.std.specs.Prelude.{◌≡◌, ◌≤◌, ◌*◌, IfErr, IfOk, Option};
ghost use Rattle.std.specs.Option.{option_copied};
ghost use Rattle.image_runner.specs.Racks.{BeginsWhereTold, Holding, IsMountFault};

use crate::mounting::MountFault;
use ckd_outside::Failed;
use deck_run::EmptyVolume;
use deck_text::DeviceLine;
use device_outside::Volume;
use std::alloc::Global;

/// Volumes of which some outlive a run.
pub trait KeptVolume: EmptyVolume {
    /// Waits until what was written is where it outlives the run.
    fn flush(&mut self) -> Result<(), Failed>;
}

/// Where the volumes of a run come from. What stands at its paths may be told or not.
pub trait Rack<V: Volume> {
    ghost holds: { Self → Option Holding };

    /// The volume that a device of the deck begins with: the one that stands at a path, or else an empty one. The calls with listed
    /// numbers fail.
    fn open(
        &mut self,
        alloc: Global,
        line: DeviceLine,
        path: Option<&str>,
        fail_reads: &[u32],
        fail_writes: &[u32],
    ) -> Result<V, MountFault>
        requires { line.cylinders ≤ 64 }
        ensures same { holds self.new ≡ holds self.old }
        ensures tracks { IfOk result (λ v. (V.view v).tracks ≡ line.cylinders * 15) }
        ensures begins { IfOk result (λ v. BeginsWhereTold (holds self.old) line (option_copied path.entry)
            (record { reads = fail_reads.now; writes = fail_writes.now }) (V.view v)) }
        ensures fault { IfErr result (λ fault. IsMountFault line fault) };
}
