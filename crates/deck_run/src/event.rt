ghost use Rattle.std.specs.Prelude.{IfOk, OnOk};
ghost use Rattle.subsystem_core.specs.Frames.{HasDevice, HasSameDevices};
ghost use Rattle.subsystem_defs.specs.Happening.{happens};
ghost use Rattle.subsystem_defs.specs.Subsystem as runs;
ghost use Rattle.deck_run.specs.Owning.{AreOwn, ChainsStand, IsOpenOn};
ghost use Rattle.deck_run.specs.Recording.{IsTold};
ghost use Rattle.deck_run.specs.Seen.{SeesEnd, ShowsEnd};
ghost use Rattle.deck_run.specs.Standing.{StandsAs};

use ckd_types::{DeviceNo, NoMemory};
use device_core::Device;
use device_outside::Volume;
use subsystem_core::{EventEnd, Subsystem};
use subsystem_defs::Event;

/// The chain of each program that runs stands on its device.
pub fn chains_stand<V: Volume>(devices: &[Device<V>])
    ensures { ChainsStand devices.now }
{
    for device in devices {
        device.recall_chain();
    }
}

/// An event of one device, which is what happens in the defined run.
pub(crate) fn do_event<V: Volume>(
    sub: &mut Subsystem<V>,
    d: DeviceNo,
    e: Event,
) -> Result<EventEnd, NoMemory>
    requires here { HasDevice sub.old d }
    requires on { IsOpenOn d e }
    requires own { AreOwn sub.old.devices.items }
    ensures numbers { HasSameDevices sub.old sub.new }
    ensures own { OnOk result (AreOwn sub.new.devices.items) }
    ensures shows { IfOk result (ShowsEnd sub.new d) }
    ensures told { (run : runs.Subsystem) → StandsAs sub.old run → OnOk result (IsTold sub.old sub.new e d run) }
    ensures happened { (run : runs.Subsystem) → StandsAs sub.old run
        → IfOk result (λ end. SeesEnd sub.new d end (happens run e).end × StandsAs sub.new (happens run e).behind) }
{
    chains_stand(sub.devices());
    let end = match sub.event(e) {
        Err(NoMemory) => return Err(NoMemory),
        Ok(end) => end,
    };
    Ok(end)
}
