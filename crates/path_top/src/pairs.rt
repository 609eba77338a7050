//! The PAIR lines that stand before the first START line.

ghost use Rattle.std.specs.Prelude.{◌≡◌, OnOk, count_by, fold, length, true};
ghost use Rattle.deck_run.specs.Opening.{are_open_lines, is_open_line};
ghost use Rattle.deck_run.specs.Owning.{AreOwn};
ghost use Rattle.deck_run.specs.Standing.{StandsAs};
ghost use Rattle.deck_run.specs.Unused.{AreUnused};
ghost use Rattle.subsystem_core.specs.Devices.{numbers_of};
ghost use Rattle.subsystem_core.specs.Frames.{HasDevice, HasSameDevices};
ghost use Rattle.subsystem_defs.specs.Happening.{happens};
ghost use Rattle.subsystem_defs.specs.Subsystem as runs;
ghost use Rattle.path_top.specs.Orders.{is_order};
ghost use Rattle.path_top.specs.Pairs.{before_start, behind_line, behind_pairs, is_pair, is_start, unused_in};

use crate::orders::is_order;
use ckd_types::{DeviceNo, NoMemory};
use deck_plan::EventLine;
use deck_run::chains_stand;
use device_outside::Volume;
use subsystem_core::Subsystem;
use subsystem_defs::Event;

fn is_start(line: &EventLine) -> bool
    ensures { result ≡ is_start line.now }
{
    match line {
        EventLine::Start(_, _) => true,
        _ => false,
    }
}

fn is_pair(line: &EventLine) -> bool
    ensures { result ≡ is_pair line.now }
{
    match line {
        EventLine::Pair(_, _) => true,
        _ => false,
    }
}

/// Where the first START line is, or behind all lines.
fn start_at(lines: &[EventLine]) -> usize
    ensures { result ≡ length (before_start lines.now) }
{
    let mut n = 0;
    for line in lines {
        if is_start(line) {
            return n;
        }
        n += 1;
    }
    n
}

fn before_start(lines: &[EventLine]) -> &[EventLine]
    ensures { result.now ≡ before_start lines.now }
{
    lines.split_at(start_at(lines)).0
}

fn count_pairs(lines: &[EventLine]) -> usize
    ensures { result ≡ count_by is_pair lines.now }
{
    lines.iter().filter(|line| is_pair(line)).count()
}

fn count_orders(lines: &[EventLine]) -> usize
    ensures { result ≡ count_by is_order lines.now }
{
    lines.iter().filter(|line| is_order(line)).count()
}

/// How many event lines are neither among them nor orders.
pub(crate) fn unused_in(lines: &[EventLine]) -> usize
    ensures { result ≡ unused_in lines.now }
{
    let pairs = count_pairs(before_start(lines));
    lines
        .len()
        .saturating_sub(pairs)
        .saturating_sub(count_orders(lines))
}

/// The second one's volume becomes side B of the first, unless it is refused.
fn join<V: Volume>(sub: &mut Subsystem<V>, a: DeviceNo, b: DeviceNo) -> Result<(), NoMemory>
    requires a { HasDevice sub.old a }
    requires b { HasDevice sub.old b }
    requires own { AreOwn sub.old.devices.items }
    ensures numbers { HasSameDevices sub.old sub.new }
    ensures own { OnOk result (AreOwn sub.new.devices.items) }
    ensures unused { AreUnused sub.old.devices.items → OnOk result (AreUnused sub.new.devices.items) }
    ensures stands { (run : runs.Subsystem) → StandsAs sub.old run → OnOk result (StandsAs sub.new (happens run (Event.Pair a b)).behind) }
{
    chains_stand(sub.devices());
    match sub.event(Event::Pair(a, b)) {
        Err(NoMemory) => Err(NoMemory),
        Ok(_) => Ok(()),
    }
}

/// A PAIR line makes two devices a pair.
fn pair_line<V: Volume>(sub: &mut Subsystem<V>, line: &EventLine) -> Result<(), NoMemory>
    requires here { is_open_line (numbers_of sub.old.devices.items) line.now ≡ true }
    requires own { AreOwn sub.old.devices.items }
    ensures numbers { HasSameDevices sub.old sub.new }
    ensures own { OnOk result (AreOwn sub.new.devices.items) }
    ensures unused { AreUnused sub.old.devices.items → OnOk result (AreUnused sub.new.devices.items) }
    ensures stands { (run : runs.Subsystem) → StandsAs sub.old run → OnOk result (StandsAs sub.new (behind_line run line.now)) }
{
    let EventLine::Pair(a, b) = line else {
        return Ok(());
    };
    join(sub, *a, *b)?;
    Ok(())
}

fn pair_lines<V: Volume>(sub: &mut Subsystem<V>, lines: &[EventLine]) -> Result<(), NoMemory>
    requires here { are_open_lines (numbers_of sub.old.devices.items) lines.now ≡ true }
    requires own { AreOwn sub.old.devices.items }
    ensures numbers { HasSameDevices sub.old sub.new }
    ensures own { OnOk result (AreOwn sub.new.devices.items) }
    ensures unused { AreUnused sub.old.devices.items → OnOk result (AreUnused sub.new.devices.items) }
    ensures stands { (run : runs.Subsystem) → StandsAs sub.old run → OnOk result (StandsAs sub.new (fold behind_line run lines.now)) }
{
    for line in lines {
        pair_line(sub, line)?;
    }
    Ok(())
}

/// The devices become pairs as these lines say, one after another, up to the first START line.
pub(crate) fn pair_first<V: Volume>(
    sub: &mut Subsystem<V>,
    lines: &[EventLine],
) -> Result<(), NoMemory>
    requires here { are_open_lines (numbers_of sub.old.devices.items) lines.now ≡ true }
    requires own { AreOwn sub.old.devices.items }
    ensures numbers { HasSameDevices sub.old sub.new }
    ensures own { OnOk result (AreOwn sub.new.devices.items) }
    ensures unused { AreUnused sub.old.devices.items → OnOk result (AreUnused sub.new.devices.items) }
    ensures stands { (run : runs.Subsystem) → StandsAs sub.old run → OnOk result (StandsAs sub.new (behind_pairs run lines.now)) }
{
    pair_lines(sub, before_start(lines))
}
