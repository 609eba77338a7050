ghost use Rattle.std.specs.Prelude.{◌≡◌, ◌≤◌, ◌*◌, IfErr, IfOk, List, None, Some};
ghost use Rattle.ckd_types.specs.declared.record.Track.{Track};
ghost use Rattle.ckd_types.specs.Volume.{empty_volume};
ghost use Rattle.plain_defs.specs.History.{no_history};
ghost use Rattle.device_core.specs.Kept.{history_of, Keeps};
ghost use Rattle.device_store.specs.State.{on_a, on_b};
ghost use Rattle.device_core.specs.State.{device_of, opened_device};
ghost use Rattle.device_core.specs.Promises.{HoldsTracks, IsPromised};
ghost use Rattle.past_laws.specs.PutAway.{nothing_away};
ghost use Rattle.device_outside.specs.Disk.{empty_contents};

use crate::giving::plans_give;
use crate::history::{KeptPath, Past};
use crate::{Device, Log};
use ckd_types::{DeviceNo, Geometry, NoMemory};
use deck_plan::PathPlans;
use device_outside::Volume;
use device_store::DeviceStore;
use plain_device::Paths;
use std::alloc::Global;

impl Past {
    /// Nothing happened. Takes no memory.
    fn new(alloc: Global) -> Past
        ensures history { history_of result ≡ no_history }
        ensures over { result.running ≡ None }
        ensures keeps { Keeps result }
    {
        Past {
            items: Log::new(alloc),
            running: None,
            kept: [KeptPath::FRESH; 4],
            powered: false,
            last: 0,
        }
    }
}

impl<V: Volume> Device<V> {
    /// A device of 1 to 4369 cylinders on a volume, with 15 tracks for each cylinder, which holds whatever tracks it holds. What
    /// is promised of it is so of a volume that holds tracks, each where it says and such as fits, as empty ones do. What was
    /// handed in comes back where memory is lacking.
    pub fn open(
        alloc: Global,
        number: DeviceNo,
        geometry: Geometry,
        cylinders: u16,
        volume: V,
        plans: PathPlans,
    ) -> Result<Device<V>, (NoMemory, V, PathPlans)>
        requires some { 1 ≤ cylinders }
        requires most { cylinders ≤ 4369 }
        requires volume { (V.view volume).tracks ≡ cylinders * 15 }
        ensures device { IfOk result (λ d. device_of d ≡ opened_device number geometry cylinders plans) }
        ensures volume { IfOk result (λ d. (on_a d.store ≡ Some volume) × (on_b d.store ≡ None)) }
        ensures back { IfErr result (λ e. (e.1 ≡ volume) × (e.2 ≡ plans)) }
        ensures promised { IfOk result (λ d. (first : List Track) → HoldsTracks geometry cylinders first (V.view volume) → IsPromised nothing_away first d) }
        ensures empty { (V.view volume).contents ≡ Some (empty_contents (cylinders * 15)) →
            HoldsTracks geometry cylinders (empty_volume cylinders) (V.view volume) }
    {
        plans_give(&plans);
        let paths = Paths::new();
        let past = Past::new(alloc);
        match DeviceStore::open(alloc, number, geometry, cylinders, volume) {
            Err((NoMemory, volume)) => Err((NoMemory, volume, plans)),
            Ok(store) => Ok(Device {
                store,
                paths,
                plans,
                past,
            }),
        }
    }
}
