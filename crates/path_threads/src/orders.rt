ghost use Rattle.std.specs.Prelude.{IfOk};

use ckd_types::{DeviceNo, NoMemory, Side};
use std::alloc::Global;
use subsystem_defs::Event;

/// What makes a volume once it is needed.
pub trait MakeVolume<V>: Drop {
    // The volumes that may come of it.
    ghost makes: { Self → V → Type 0 };

    /// The volume.
    fn make(self, alloc: Global) -> Result<V, NoMemory>
        ensures { IfOk result (λ volume. makes self volume) };
}

/// An order to the operator.
#[derive(Drop)]
pub enum Order<M> {
    /// FAIL, REPAIR, SUSPEND and RESUME. Any other event is left out.
    Event(Event),
    /// A volume in the place of a failed side's, made when this order is done. Its tracks are all stale there, whatever they hold.
    Replace(DeviceNo, Side, M),
}
