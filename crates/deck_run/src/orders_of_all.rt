//! Events of all devices, with what their lines tell.

ghost use Rattle.std.specs.Prelude.{◌≡◌, ◌<◌, ◌++◌, get_or, length, map, slice_index_or, IfOk, OnOk};
ghost use Rattle.subsystem_defs.specs.Happening.{happens};
ghost use Rattle.subsystem_defs.specs.Lines.{Once, line_logged};
ghost use Rattle.subsystem_defs.specs.Subsystem as runs;
ghost use Rattle.deck_run.specs.Going.{GoesOn};
ghost use Rattle.deck_run.specs.Loosening.{is_quiet};
ghost use Rattle.deck_run.specs.Owning.{AreOwn};
ghost use Rattle.deck_run.specs.Standing.{StandsAs};
ghost use Rattle.deck_run.specs.Sweeping.{IsOpenOfAll, TellsAll, gone_lines, gone_one, no_stock, order_end, order_of, stock_of};
ghost use Rattle.subsystem_core.specs.Frames.{HasSameDevices};

use crate::act_lines::{acts_when, all_loosed, is_quiet};
use crate::event::chains_stand;
use crate::pass::behind_first;
use ckd_types::NoMemory;
use device_core::Device;
use device_outside::Volume;
use report_text::{Order, RunRecord};
use run_report::{Gained, record_order, record_power_of};
use std::alloc::Global;
use subsystem_core::{EventEnd, Subsystem};
use subsystem_defs::{Event, EventEnd as End};

/// What is counted of a device before an event: how many of its tracks are loose, and how many items its journal has.
#[derive(Clone, Copy)]
pub(crate) struct Stock {
    pub loose: u16,
    pub items: usize,
}

fn stock_of<V: Volume>(device: &Device<V>) -> Stock
    ensures { result ≡ stock_of device.now }
{
    Stock {
        loose: device.loose_count(),
        items: device.journal().len(),
    }
}

fn stocks_of<V: Volume>(alloc: Global, devices: &[Device<V>]) -> Result<Vec<Stock>, NoMemory>
    ensures { IfOk result (λ stocks. stocks.items ≡ map stock_of devices.now) }
{
    let mut stocks = Vec::new(alloc);
    for device in devices {
        stocks.push(stock_of(device))?;
    }
    Ok(stocks)
}

pub(crate) fn order_end(end: &EventEnd) -> End
    ensures { result ≡ order_end end.now }
{
    match end {
        EventEnd::Pending(n) => End::Pending(*n),
        EventEnd::Refused(fault) => End::Refused(*fault),
        _ => End::Done,
    }
}

fn order_of(e: &Event) -> Order
    ensures { result ≡ order_of e.now }
{
    match e {
        Event::FailCache => Order::FailCache,
        Event::FailStore => Order::FailStore,
        Event::RepairCache => Order::RepairCache,
        Event::RepairStore => Order::RepairStore,
        _ => Order::Power,
    }
}

/// An event of all devices, which is what happens in the defined run.
fn do_all<V: Volume>(sub: &mut Subsystem<V>, e: Event) -> Result<End, NoMemory>
    requires on { IsOpenOfAll e }
    requires own { AreOwn sub.old.devices.items }
    ensures numbers { HasSameDevices sub.old sub.new }
    ensures own { OnOk result (AreOwn sub.new.devices.items) }
    ensures told { (run : runs.Subsystem) → StandsAs sub.old run → IfOk result (λ end. TellsAll sub.old sub.new e run end) }
    ensures happened { (run : runs.Subsystem) → StandsAs sub.old run
        → IfOk result (λ end. ((happens run e).end ≡ end) × StandsAs sub.new (happens run e).behind) }
{
    chains_stand(sub.devices());
    let end = match sub.event(e) {
        Err(NoMemory) => return Err(NoMemory),
        Ok(end) => end,
    };
    Ok(order_end(&end))
}

fn stock_at(stocks: &[Stock], i: usize) -> Stock
    ensures { result ≡ slice_index_or stocks.now i no_stock }
{
    let none = Stock { loose: 0, items: 0 };
    stocks.get(i).copied().unwrap_or(none)
}

fn device_of<V: Volume>(devices: &[Device<V>], i: usize) -> &Device<V>
    requires { i < length devices.now }
    ensures { result.now ≡ get_or devices.now i result.now }
{
    &devices[i]
}

fn record_one<V: Volume>(
    alloc: Global,
    report: &mut RunRecord,
    quiet: bool,
    end: &End,
    stock: Stock,
    device: &Device<V>,
) -> Result<(), NoMemory>
    ensures { OnOk result (report.new ≡ report.old ++ gone_one quiet end.now stock device.now) }
{
    let items = behind_first(device.journal(), stock.items);
    let noted = acts_when(quiet, end, device);
    let acts = all_loosed(alloc, device.number(), stock.loose, device, noted, items)?;
    let gained = Gained { acts: &acts, items };
    record_power_of(report, device.number(), &gained)?;
    Ok(())
}

/// What came to each device: the program that was cut, and what became of its data of cache fast write.
fn record_gone<V: Volume>(
    alloc: Global,
    report: &mut RunRecord,
    quiet: bool,
    end: &End,
    stocks: &[Stock],
    devices: &[Device<V>],
) -> Result<(), NoMemory>
    ensures { OnOk result (report.new ≡ report.old ++ gone_lines quiet end.now stocks.now devices.now) }
{
    for i in 0..devices.len() {
        let device = device_of(devices, i);
        record_one(alloc, report, quiet, end, stock_at(stocks, i), device)?;
    }
    Ok(())
}

/// An order to all devices, with its lines.
pub(crate) fn order_all<V: Volume>(
    alloc: Global,
    sub: &mut Subsystem<V>,
    report: &mut RunRecord,
    e: Event,
) -> Result<(), NoMemory>
    requires on { IsOpenOfAll e }
    requires own { AreOwn sub.old.devices.items }
    ensures numbers { HasSameDevices sub.old sub.new }
    ensures own { OnOk result (AreOwn sub.new.devices.items) }
    ensures goes { OnOk result (GoesOn sub.old sub.new report.old report.new (λ run. line_logged run (Once e))) }
{
    report.make_room()?;
    let stocks = stocks_of(alloc, sub.devices())?;
    let quiet = is_quiet(&e);
    let order = order_of(&e);
    let end = do_all(sub, e)?;
    record_gone(alloc, report, quiet, &end, &stocks, sub.devices())?;
    record_order(report, order, &end)?;
    Ok(())
}
