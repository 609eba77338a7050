ghost use Rattle.std.specs.Prelude.{◌≡◌, IfSome};
ghost use Rattle.std.proofs.Props.{props};
ghost use Rattle.event_notes.specs.Loose.{loose_count};
ghost use Rattle.device_defs.specs.Cutting.{counts_one_by};
ghost use Rattle.device_store.specs.State.{state_of};
ghost use Rattle.device_core.specs.Halves.{IsWaiting};
ghost use Rattle.device_core.specs.Kept.{ActRoom, Keeps};
ghost use Rattle.device_core.specs.Words.{IsAtWord};

use crate::history::Past;
use deck_plan::PathPlans;
use device_outside::Volume;
use device_store::DeviceStore;
use plain_device::Paths;

/// A device: its tracks, what is kept of its paths, the programs that are planned for them, and what happened to it. What callers
/// see of it is the `device_of` of the definitions, the volumes of its sides, and the end of its last command.
#[derive(Drop)]
pub struct Device<V: Volume> {
    pub(crate) store: DeviceStore<V>,
    pub(crate) paths: Paths,
    pub(crate) plans: PathPlans,
    pub(crate) past: Past,
    pub(crate) ghost at_word: { IfSome past.running (λ r. IsAtWord store.cylinders r.chain) } by { Prim.hlevel props },
    pub(crate) ghost half_waits: { counts_one_by (state_of store).half ≡ 1 → IsWaiting past.running } by { Prim.hlevel props },
    pub(crate) ghost keeps: { Keeps past } by { Prim.hlevel props },
    pub(crate) ghost act_room: { ActRoom (loose_count store.loose.loose) past } by { Prim.hlevel props },
}
