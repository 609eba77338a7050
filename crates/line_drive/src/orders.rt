ghost use Rattle.std.specs.Prelude.{◌≡◌, ◌*◌, IfErr, IfOk, IfSome, IsOk, OnErr, OnOk, Some};
ghost use Rattle.subsystem_core.specs.Comes.{AreStill, Replaced, Unpaired};
ghost use Rattle.subsystem_core.specs.Devices.{device_at};
ghost use Rattle.subsystem_core.specs.Ends.{Answers};
ghost use Rattle.subsystem_core.specs.Frames.{HasDevice, HasSameDevices};
ghost use Rattle.subsystem_defs.specs.Happening.{replaced, unpaired};
ghost use Rattle.subsystem_defs.specs.Subsystem as runs;
ghost use Rattle.subsystem_defs.specs.Subsystem.{unfailing};
ghost use Rattle.deck_run.specs.Owning.{AreOwn};
ghost use Rattle.deck_run.specs.Standing.{StandsAs};
ghost use Rattle.line_drive.specs.Ending.{IsNewFor};
ghost use Rattle.device_core.specs.State.{device_of};
ghost use Rattle.device_defs.specs.Store.{tracks_of};

use ckd_types::{DeviceNo, NoMemory, Side};
use deck_run::chains_stand;
use device_outside::Volume;
use subsystem_core::{EventEnd, Subsystem};

/// A side's new volume of empty tracks. Where none of its calls fails, and all volumes are accounted for, it is what happens in the
/// defined run.
pub fn do_replace<V: Volume>(
    sub: &mut Subsystem<V>,
    d: DeviceNo,
    side: Side,
    volume: V,
) -> Result<EventEnd, (NoMemory, V)>
    requires here { HasDevice sub.old d }
    requires size { IfSome (device_at sub.old.devices.items d) (λ x. (V.view volume).tracks ≡ tracks_of (device_of x).store) }
    ensures numbers { HasSameDevices sub.old sub.new }
    ensures had { IsOk result }
    ensures replaced { IfOk result (λ end. Replaced d side volume (device_at sub.old.devices.items d) sub.old end sub.new) }
    ensures own { AreOwn sub.old.devices.items → OnOk result (AreOwn sub.new.devices.items) }
    ensures happened { (run : runs.Subsystem) → StandsAs sub.old run → AreOwn sub.old.devices.items
        → IsNewFor (V.view volume) (device_at sub.old.devices.items d)
        → IfOk result (λ end. Answers (Some end) (replaced run d side unfailing).end × StandsAs sub.new (replaced run d side unfailing).behind) }
{
    chains_stand(sub.devices());
    sub.replace(d, side, volume)
}

/// Side B leaves, and the device that had lent it gets this volume of empty tracks. Where none of its calls fails, and all volumes
/// are accounted for, it is what happens in the defined run.
pub fn do_unpair<V: Volume>(
    sub: &mut Subsystem<V>,
    a: DeviceNo,
    volume: V,
) -> Result<EventEnd, (NoMemory, V)>
    requires here { HasDevice sub.old a }
    requires size { IfSome (device_at sub.old.devices.items a) (λ x. (V.view volume).tracks ≡ tracks_of (device_of x).store) }
    ensures numbers { HasSameDevices sub.old sub.new }
    ensures unpaired { IfOk result (λ end. Unpaired a volume (device_at sub.old.devices.items a) sub.old end sub.new) }
    ensures lacked { OnErr result ((sub.new.pool ≡ sub.old.pool) × AreStill sub.old.devices.items sub.new.devices.items) }
    ensures back { IfErr result (λ e. e.1 ≡ volume) }
    ensures own { AreOwn sub.old.devices.items → OnOk result (AreOwn sub.new.devices.items) }
    ensures happened { (run : runs.Subsystem) → StandsAs sub.old run → AreOwn sub.old.devices.items
        → IsNewFor (V.view volume) (device_at sub.old.devices.items a)
        → IfOk result (λ end. Answers (Some end) (unpaired run a unfailing).end × StandsAs sub.new (unpaired run a unfailing).behind) }
{
    sub.unpair(a, volume)
}
