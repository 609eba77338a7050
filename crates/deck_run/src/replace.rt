ghost use Rattle.std.specs.Prelude.{◌≡◌, ◌*◌, IfOk, IfSome, OnOk};
ghost use Rattle.device_outside.specs.Both.{SideIs};
ghost use Rattle.device_outside.specs.Disk.{empty_contents};
ghost use Rattle.device_core.specs.State.{device_of};
ghost use Rattle.device_defs.specs.Store.{tracks_of};
ghost use Rattle.report_text.specs.declared.order.Order.TheVariants as orders;
ghost use Rattle.subsystem_core.specs.Devices.{device_at};
ghost use Rattle.subsystem_core.specs.Frames.{HasDevice, HasSameDevices};
ghost use Rattle.subsystem_defs.specs.Happening.{replaced};
ghost use Rattle.subsystem_defs.specs.Lines.{Replace, line_logged, logged};
ghost use Rattle.subsystem_defs.specs.Subsystem as runs;
ghost use Rattle.subsystem_defs.specs.Subsystem.{unfailing};
ghost use Rattle.deck_run.specs.Going.{GoesOn};
ghost use Rattle.deck_run.specs.Ordered.{IsOrdered};
ghost use Rattle.deck_run.specs.Owning.{AreOwn};
ghost use Rattle.deck_run.specs.Standing.{StandsAs};

use crate::event::chains_stand;
use crate::orders_of_all::order_end;
use crate::volumes::EmptyVolume;
use ckd_types::{DeviceNo, NoMemory, Side};
use device_outside::Volume;
use report_text::{Order, RunRecord};
use run_report::record_order;
use std::alloc::Global;
use subsystem_core::Subsystem;
use subsystem_defs::EventEnd;

/// A side's new volume of empty tracks, and how the order ends.
fn put_volume<V: Volume>(
    sub: &mut Subsystem<V>,
    d: DeviceNo,
    side: Side,
    volume: V,
) -> Result<EventEnd, NoMemory>
    requires here { HasDevice sub.old d }
    requires own { AreOwn sub.old.devices.items }
    requires empty { IfSome (device_at sub.old.devices.items d) (λ x. SideIs (V.view volume) (empty_contents ((device_of x).store.cylinders * 15)) unfailing) }
    requires size { IfSome (device_at sub.old.devices.items d) (λ x. (V.view volume).tracks ≡ tracks_of (device_of x).store) }
    ensures numbers { HasSameDevices sub.old sub.new }
    ensures own { OnOk result (AreOwn sub.new.devices.items) }
    ensures happened { (run : runs.Subsystem) → StandsAs sub.old run
        → IfOk result (λ end. IsOrdered (logged (Replace d side) (replaced run d side unfailing)) (orders.Replace d side) end sub.new) }
{
    chains_stand(sub.devices());
    let end = match sub.replace(d, side, volume) {
        Err((NoMemory, _)) => return Err(NoMemory),
        Ok(end) => end,
    };
    Ok(order_end(&end))
}

/// A new volume of empty tracks in place of a failed side's. None of its calls fails.
pub(crate) fn replace<V: EmptyVolume>(
    alloc: Global,
    sub: &mut Subsystem<V>,
    report: &mut RunRecord,
    d: DeviceNo,
    side: Side,
) -> Result<(), NoMemory>
    requires here { HasDevice sub.old d }
    requires own { AreOwn sub.old.devices.items }
    ensures numbers { HasSameDevices sub.old sub.new }
    ensures own { OnOk result (AreOwn sub.new.devices.items) }
    ensures goes { OnOk result (GoesOn sub.old sub.new report.old report.new (λ run. line_logged run (Replace d side))) }
{
    report.make_room()?;
    let cylinders = sub.device(d).cylinders();
    let volume = V::empty(alloc, cylinders)?;
    let end = put_volume(sub, d, side, volume)?;
    record_order(report, Order::Replace(d, side), &end)?;
    Ok(())
}
