ghost use Rattle.std.specs.Prelude.{◌≡◌, ◌++◌, OnOk};
ghost use Rattle.page_text.specs.Answers.{back_text, calls_text, fault_name, fault_text, lent_text, loose_text, lost_text, order_answer_text, order_name, over_text, owner_text, pending_text, side_name, side_text, start_text, totals_text};

use crate::{Page, Piece};
use ckd_types::{DeviceNo, NoMemory, Owner, Side};
use report_text::{
    BackAnswer, DeviceTotals, HowOver, LooseAnswer, Order, OrderAnswer, OrderRefusal, StartAnswer,
};

fn side_name(side: Side) -> &'static [u8]
    ensures { result.now ≡ side_name side }
{
    match side {
        Side::A => b"side A",
        Side::B => b"side B",
    }
}

fn put_owner(page: &mut Page, before: &'static [u8], owner: &Owner) -> Result<(), NoMemory>
    ensures { OnOk result (page.new ≡ page.old ++ owner_text before.now owner.now) }
{
    match owner {
        Owner::Group(id) => page.put(&[
            Piece::Text(before),
            Piece::Text(b" path group "),
            Piece::Hex(&id.bytes),
        ]),
        Owner::Path(path) => page.put(&[
            Piece::Text(before),
            Piece::Text(b" path "),
            Piece::Path(*path),
        ]),
    }
}

/// What became of a start.
pub(crate) fn put_start(page: &mut Page, answer: &StartAnswer) -> Result<(), NoMemory>
    ensures { OnOk result (page.new ≡ page.old ++ start_text answer.now) }
{
    match answer {
        StartAnswer::Accepted(n) => page.put(&[
            Piece::Text(b"accepted as program "),
            Piece::Short(*n),
        ]),
        StartAnswer::Busy(path) => page.put(&[
            Piece::Text(b"busy with a program of path "),
            Piece::Path(*path),
        ]),
        StartAnswer::Done => page.put(&[Piece::Text(b"the path has no program left")]),
        StartAnswer::Running => page.put(&[Piece::Text(b"its program runs already")]),
        StartAnswer::Secondary(device) => page.put(&[
            Piece::Text(b"the device is lent to device "),
            Piece::Device(*device),
        ]),
        StartAnswer::Reserved(owner) => put_owner(page, b"reserved by", owner),
        StartAnswer::Shut(owner) => put_owner(
            page,
            b"every path with a program is shut out by",
            owner,
        ),
    }
}

/// What came of a side.
fn put_side(page: &mut Page, before: &'static [u8], side: Side) -> Result<(), NoMemory>
    ensures { OnOk result (page.new ≡ page.old ++ side_text before.now side) }
{
    page.put(&[Piece::Text(before), Piece::Text(side_name(side))])
}

/// What the device's own work did.
pub(crate) fn put_back(page: &mut Page, answer: &BackAnswer) -> Result<(), NoMemory>
    ensures { OnOk result (page.new ≡ page.old ++ back_text answer.now) }
{
    match answer {
        BackAnswer::Nothing => page.put(&[Piece::Text(b"nothing to do")]),
        BackAnswer::Recovered(t) => { page.put(&[Piece::Text(b"recovered "), Piece::Track(*t)]) }
        BackAnswer::Copied(t) => page.put(&[Piece::Text(b"copied "), Piece::Track(*t)]),
        BackAnswer::Staged(t) => page.put(&[Piece::Text(b"staged "), Piece::Track(*t)]),
        BackAnswer::Skipped(t) => page.put(&[Piece::Text(b"not staged: "), Piece::Track(*t)]),
        BackAnswer::Destaged(t) => page.put(&[Piece::Text(b"destaged "), Piece::Track(*t)]),
        BackAnswer::Half(t) => { page.put(&[Piece::Text(b"first part done: "), Piece::Track(*t)]) }
        BackAnswer::Finished(t) => {
            page.put(&[Piece::Text(b"second part done: "), Piece::Track(*t)])
        }
        BackAnswer::Unwritten(t) => {
            page.put(&[Piece::Text(b"second part not done: "), Piece::Track(*t)])
        }
        BackAnswer::Fault(side) => put_side(page, b"a call failed of ", *side),
        BackAnswer::BadBytes(side) => {
            put_side(page, b"bytes that are no track came from ", *side)
        }
    }
}

fn put_lost(page: &mut Page, count: u16, id: &[u8]) -> Result<(), NoMemory>
    ensures { OnOk result (page.new ≡ page.old ++ lost_text count id.now) }
{
    page.put(&[
        Piece::Text(b"tracks that went back to what they were: "),
        Piece::Short(count),
        Piece::Text(b"; the number of such data is now "),
        Piece::Hex(id),
    ])
}

/// What became of data of cache fast write.
pub(crate) fn put_loose(page: &mut Page, answer: &LooseAnswer) -> Result<(), NoMemory>
    ensures { OnOk result (page.new ≡ page.old ++ loose_text answer.now) }
{
    match answer {
        LooseAnswer::Harden(t) => page.put(&[
            Piece::Text(b"no longer lost with the cache: "),
            Piece::Track(*t),
        ]),
        LooseAnswer::Loosen(t) => page.put(&[
            Piece::Text(b"may be lost with the cache: "),
            Piece::Track(*t),
        ]),
        LooseAnswer::Lost { count, id } => put_lost(page, *count, id),
    }
}

/// How a program is over.
pub(crate) fn put_over(page: &mut Page, how: &HowOver) -> Result<(), NoMemory>
    ensures { OnOk result (page.new ≡ page.old ++ over_text how.now) }
{
    match how {
        HowOver::Full => page.put(&[Piece::Text(b"the program ended by itself")]),
        HowOver::Checked => {
            page.put(&[Piece::Text(b"the program ended at a check of equipment or data")])
        }
        HowOver::Cut(k) => page.put(&[
            Piece::Text(b"the program was cut; commands that took effect: "),
            Piece::Short(*k),
        ]),
    }
}

fn order_name(order: &Order) -> &'static [u8]
    ensures { result.now ≡ order_name order.now }
{
    match order {
        Order::FailCache => b"loss of the cache: ",
        Order::FailStore => b"loss of the store: ",
        Order::FailVolume(_, _) => b"loss of a volume: ",
        Order::RepairCache => b"repair of the cache: ",
        Order::RepairStore => b"repair of the store: ",
        Order::Replace(_, _) => b"a new volume: ",
        Order::Pair(_, _) => b"pair: ",
        Order::Unpair(_) => b"end of the pair: ",
        Order::Suspend(_) => b"hold of side B: ",
        Order::Resume(_) => b"end of the hold: ",
        Order::Power => b"loss of power: ",
    }
}

fn fault_name(fault: &OrderRefusal) -> &'static [u8]
    ensures { result.now ≡ fault_name fault.now }
{
    match fault {
        OrderRefusal::Same => b"both devices are one",
        OrderRefusal::Lent(_) => b"the device is lent to device ",
        OrderRefusal::Paired => b"the device is in a pair",
        OrderRefusal::Unpaired => b"the device is in no pair",
        OrderRefusal::Active(_) => b"a program runs of path ",
        OrderRefusal::Geometry => b"the devices differ in model or size",
        OrderRefusal::NoSide => b"there is no side B",
        OrderRefusal::Down => b"it is down",
        OrderRefusal::Up => b"it is up",
        OrderRefusal::NotLevel(_) => b"stale tracks on side A: ",
        OrderRefusal::Half => b"a write is half done",
        OrderRefusal::Held => b"side B is held",
        OrderRefusal::NotHeld => b"side B isn't held",
    }
}

fn put_fault(page: &mut Page, before: &'static [u8], fault: &OrderRefusal) -> Result<(), NoMemory>
    ensures { OnOk result (page.new ≡ page.old ++ fault_text before.now fault.now) }
{
    let name = fault_name(fault);
    match fault {
        OrderRefusal::Lent(device) => page.put(&[
            Piece::Text(before),
            Piece::Text(b"refused: "),
            Piece::Text(name),
            Piece::Device(*device),
        ]),
        OrderRefusal::Active(path) => page.put(&[
            Piece::Text(before),
            Piece::Text(b"refused: "),
            Piece::Text(name),
            Piece::Path(*path),
        ]),
        OrderRefusal::NotLevel(n) => page.put(&[
            Piece::Text(before),
            Piece::Text(b"refused: "),
            Piece::Text(name),
            Piece::Short(*n),
        ]),
        _ => page.put(&[
            Piece::Text(before),
            Piece::Text(b"refused: "),
            Piece::Text(name),
        ]),
    }
}

fn put_pending(page: &mut Page, name: &'static [u8], n: u32) -> Result<(), NoMemory>
    ensures { OnOk result (page.new ≡ page.old ++ pending_text name.now n) }
{
    page.put(&[
        Piece::Text(name),
        Piece::Text(b"not yet; tracks that wait: "),
        Piece::Count(n),
    ])
}

/// What an order was answered.
pub(crate) fn put_order(
    page: &mut Page,
    order: &Order,
    answer: &OrderAnswer,
) -> Result<(), NoMemory>
    ensures { OnOk result (page.new ≡ page.old ++ order_answer_text order.now answer.now) }
{
    let name = order_name(order);
    match answer {
        OrderAnswer::Done => page.put(&[Piece::Text(name), Piece::Text(b"done")]),
        OrderAnswer::Pending(n) => put_pending(page, name, *n),
        OrderAnswer::Refused(fault) => put_fault(page, name, fault),
    }
}

fn put_calls(page: &mut Page, reads: u64, writes: u64, lost: u64) -> Result<(), NoMemory>
    ensures { OnOk result (page.new ≡ page.old ++ calls_text reads writes lost) }
{
    page.put(&[
        Piece::Text(b"all reads of volumes: "),
        Piece::Number(reads),
        Piece::Text(b", writes: "),
        Piece::Number(writes),
        Piece::Text(b", lost tracks: "),
        Piece::Number(lost),
    ])
}

fn put_lent(page: &mut Page, device: DeviceNo) -> Result<(), NoMemory>
    ensures { OnOk result (page.new ≡ page.old ++ lent_text device) }
{
    page.put(&[Piece::Text(b"lent to device "), Piece::Device(device)])
}

/// What is said of a device at the end.
pub(crate) fn put_totals(page: &mut Page, totals: &DeviceTotals) -> Result<(), NoMemory>
    ensures { OnOk result (page.new ≡ page.old ++ totals_text totals.now) }
{
    match totals {
        DeviceTotals::Calls {
            reads,
            writes,
            lost,
        } => put_calls(page, *reads, *writes, *lost),
        DeviceTotals::Lost(lost) => {
            page.put(&[Piece::Text(b"lost tracks: "), Piece::Number(*lost)])
        }
        DeviceTotals::Lent(device) => put_lent(page, *device),
    }
}
