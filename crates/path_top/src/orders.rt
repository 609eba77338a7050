//! The orders among event lines, which are done beside the paths.

ghost use Rattle.std.specs.Prelude.{◌≡◌, ◌++◌, All, IfOk, IfSome, OnOk, map, option_map, option_to_list, true};
ghost use Rattle.deck_run.specs.Opening.{are_open_lines, is_open_line};
ghost use Rattle.deck_plan.specs.declared.event.EventLine.TheVariants as lines;
ghost use Rattle.path_threads.specs.Places.{IsSpareAmong};
ghost use Rattle.path_top.specs.Making.{Makes};
ghost use Rattle.path_top.specs.Orders.{is_order, line_of, order_line, orders_in};
ghost use Rattle.subsystem_core.specs.Devices.{numbers_of};
ghost use Rattle.subsystem_core.specs.Frames.{HasDevice};

use crate::making::NewVolume;
use ckd_types::{DeviceNo, NoMemory, Side};
use deck_plan::EventLine;
use deck_run::EmptyVolume;
use device_outside::Volume;
use path_threads::{MakeVolume, Order};
use std::alloc::Global;
use subsystem_core::Subsystem;
use subsystem_defs::Event;

impl<V: EmptyVolume> MakeVolume<V> for NewVolume {
    ghost makes = { Makes V.view };

    fn make(self, alloc: Global) -> Result<V, NoMemory> {
        V::empty(alloc, self.cylinders)
    }
}

pub(crate) fn is_order(line: &EventLine) -> bool
    ensures { result ≡ is_order line.now }
{
    match line {
        EventLine::FailCache => true,
        EventLine::FailStore => true,
        EventLine::FailVolume(_, _) => true,
        EventLine::RepairCache => true,
        EventLine::RepairStore => true,
        EventLine::Replace(_, _) => true,
        EventLine::Suspend(_) => true,
        EventLine::Resume(_) => true,
        _ => false,
    }
}

/// A new volume for a side of the device, of as many cylinders.
fn replacement<V: Volume>(sub: &Subsystem<V>, d: DeviceNo, side: Side) -> Order<NewVolume>
    requires { HasDevice sub.now d }
    ensures line { line_of result ≡ lines.Replace d side }
    ensures spare { IsSpareAmong (Makes V.view) sub.now.devices.items result }
{
    let cylinders = sub.device(d).cylinders();
    Order::Replace(d, side, NewVolume { cylinders })
}

/// The order that a line asks for, with a new volume for REPLACE.
fn order_of<V: Volume>(sub: &Subsystem<V>, line: &EventLine) -> Option<Order<NewVolume>>
    requires { is_open_line (numbers_of sub.now.devices.items) line.now ≡ true }
    ensures line { option_map line_of result ≡ order_line line.now }
    ensures spare { IfSome result (IsSpareAmong (Makes V.view) sub.now.devices.items) }
{
    let event = match line {
        EventLine::Replace(d, side) => return Some(replacement(sub, *d, *side)),
        EventLine::FailCache => Event::FailCache,
        EventLine::FailStore => Event::FailStore,
        EventLine::FailVolume(d, side) => Event::FailVolume(*d, *side),
        EventLine::RepairCache => Event::RepairCache,
        EventLine::RepairStore => Event::RepairStore,
        EventLine::Suspend(a) => Event::Suspend(*a),
        EventLine::Resume(a) => Event::Resume(*a),
        _ => return None,
    };
    Some(Order::Event(event))
}

/// Adds what there is.
fn add_some<T: Drop>(items: &mut Vec<T>, item: Option<T>) -> Result<(), NoMemory>
    ensures { OnOk result (items.new.items ≡ items.old.items ++ option_to_list item) }
{
    let Some(item) = item else {
        return Ok(());
    };
    items.push(item)?;
    Ok(())
}

/// The orders of these lines, in their order, for the devices of a subsystem.
pub(crate) fn orders_in<V: Volume>(
    alloc: Global,
    sub: &Subsystem<V>,
    lines: &[EventLine],
) -> Result<Vec<Order<NewVolume>>, NoMemory>
    requires { are_open_lines (numbers_of sub.now.devices.items) lines.now ≡ true }
    ensures lines { IfOk result (λ orders. map line_of orders.items ≡ orders_in lines.now) }
    ensures spare { IfOk result (λ orders. All (IsSpareAmong (Makes V.view) sub.now.devices.items) orders.items) }
{
    // The kit's borrow checker has to be shown this type, which the orders hold.
    let _none: Option<Event> = None;
    let mut orders = Vec::new(alloc);
    for line in lines {
        add_some(&mut orders, order_of(sub, line))?;
    }
    Ok(orders)
}
