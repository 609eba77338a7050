ghost use Rattle.std.specs.Prelude.{◌≡◌, ◌*◌, IfOk, IfSome, OnOk};
ghost use Rattle.device_outside.specs.Both.{SideIs};
ghost use Rattle.device_outside.specs.Disk.{empty_contents};
ghost use Rattle.device_core.specs.State.{device_of};
ghost use Rattle.device_defs.specs.Store.{tracks_of};
ghost use Rattle.report_text.specs.declared.order.Order.TheVariants as orders;
ghost use Rattle.subsystem_core.specs.Devices.{device_at};
ghost use Rattle.subsystem_core.specs.Frames.{HasDevice, HasSameDevices};
ghost use Rattle.subsystem_defs.specs.Happening.{happens, unpaired};
ghost use Rattle.subsystem_defs.specs.Lines.{Once, Unpair, line_logged, logged};
ghost use Rattle.subsystem_defs.specs.Subsystem as runs;
ghost use Rattle.subsystem_defs.specs.Subsystem.{unfailing};
ghost use Rattle.deck_run.specs.Going.{GoesOn};
ghost use Rattle.deck_run.specs.Ordered.{IsOrdered};
ghost use Rattle.deck_run.specs.Owning.{AreOwn};
ghost use Rattle.deck_run.specs.Standing.{StandsAs};

use crate::event::chains_stand;
use crate::orders_of_all::order_end;
use crate::volumes::EmptyVolume;
use ckd_types::{DeviceNo, NoMemory};
use device_outside::Volume;
use report_text::{Order, RunRecord};
use run_report::record_order;
use std::alloc::Global;
use subsystem_core::Subsystem;
use subsystem_defs::{Event, EventEnd};

/// The second one's volume becomes side B of the first, and how the order ends.
pub fn join<V: Volume>(
    sub: &mut Subsystem<V>,
    a: DeviceNo,
    b: DeviceNo,
) -> Result<EventEnd, NoMemory>
    requires a { HasDevice sub.old a }
    requires b { HasDevice sub.old b }
    requires own { AreOwn sub.old.devices.items }
    ensures numbers { HasSameDevices sub.old sub.new }
    ensures own { OnOk result (AreOwn sub.new.devices.items) }
    ensures happened { (run : runs.Subsystem) → StandsAs sub.old run
        → IfOk result (λ end. IsOrdered (logged (Once (Event.Pair a b)) (happens run (Event.Pair a b))) (orders.Pair a b) end sub.new) }
{
    chains_stand(sub.devices());
    let end = match sub.event(Event::Pair(a, b)) {
        Err(NoMemory) => return Err(NoMemory),
        Ok(end) => end,
    };
    Ok(order_end(&end))
}

/// A pair of two devices.
pub(crate) fn pair<V: Volume>(
    sub: &mut Subsystem<V>,
    report: &mut RunRecord,
    a: DeviceNo,
    b: DeviceNo,
) -> Result<(), NoMemory>
    requires a { HasDevice sub.old a }
    requires b { HasDevice sub.old b }
    requires own { AreOwn sub.old.devices.items }
    ensures numbers { HasSameDevices sub.old sub.new }
    ensures own { OnOk result (AreOwn sub.new.devices.items) }
    ensures goes { OnOk result (GoesOn sub.old sub.new report.old report.new (λ run. line_logged run (Once (Event.Pair a b)))) }
{
    report.make_room()?;
    let end = join(sub, a, b)?;
    record_order(report, Order::Pair(a, b), &end)?;
    Ok(())
}

/// Side B leaves, and the device that had lent it gets this volume of empty tracks; and how the order ends.
fn part<V: Volume>(sub: &mut Subsystem<V>, a: DeviceNo, volume: V) -> Result<EventEnd, NoMemory>
    requires here { HasDevice sub.old a }
    requires own { AreOwn sub.old.devices.items }
    requires empty { IfSome (device_at sub.old.devices.items a) (λ x. SideIs (V.view volume) (empty_contents ((device_of x).store.cylinders * 15)) unfailing) }
    requires size { IfSome (device_at sub.old.devices.items a) (λ x. (V.view volume).tracks ≡ tracks_of (device_of x).store) }
    ensures numbers { HasSameDevices sub.old sub.new }
    ensures own { OnOk result (AreOwn sub.new.devices.items) }
    ensures happened { (run : runs.Subsystem) → StandsAs sub.old run
        → IfOk result (λ end. IsOrdered (logged (Unpair a) (unpaired run a unfailing)) (orders.Unpair a) end sub.new) }
{
    let end = match sub.unpair(a, volume) {
        Err((NoMemory, _)) => return Err(NoMemory),
        Ok(end) => end,
    };
    Ok(order_end(&end))
}

/// A pair is taken apart. None of the new volume's calls fails.
pub(crate) fn unpair<V: EmptyVolume>(
    alloc: Global,
    sub: &mut Subsystem<V>,
    report: &mut RunRecord,
    a: DeviceNo,
) -> Result<(), NoMemory>
    requires here { HasDevice sub.old a }
    requires own { AreOwn sub.old.devices.items }
    ensures numbers { HasSameDevices sub.old sub.new }
    ensures own { OnOk result (AreOwn sub.new.devices.items) }
    ensures goes { OnOk result (GoesOn sub.old sub.new report.old report.new (λ run. line_logged run (Unpair a))) }
{
    report.make_room()?;
    let cylinders = sub.device(a).cylinders();
    let volume = V::empty(alloc, cylinders)?;
    let end = part(sub, a, volume)?;
    record_order(report, Order::Unpair(a), &end)?;
    Ok(())
}
