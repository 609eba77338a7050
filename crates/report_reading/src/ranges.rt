ghost use Rattle.std.specs.Prelude.{◌≡◌, ◌<◌, ◌^◌, IfSome};
ghost use Rattle.hex.specs.Hex.{IsBytes};
ghost use Rattle.report_reading.specs.Ranges.{AreBytes, IsAnswer, IsBack, IsDevice, IsEnd, IsFault, IsLine, IsLoose};
ghost use Rattle.report_reading.specs.Ranges.{IsOrder, IsOver, IsOwner, IsPath, IsStart, IsTotals, IsTrack, NamesTrack};
ghost use Rattle.report_reading.specs.Ranges.{back_track, loose_track};

use ckd_types::{DeviceNo, GroupId, Owner, PathNo, Sense};
use report_text::{
    BackAnswer, DeviceTotals, EndLine, HowOver, LooseAnswer, Order, OrderAnswer, OrderRefusal,
    ReportLine, StartAnswer,
};

fn path_range(path: &PathNo)
    ensures { IsPath path.now }
{
    let _ = path.get();
}

fn device_range(device: &DeviceNo)
    ensures { IsDevice device.now }
{
    let _ = device.get();
}

fn short_range(n: &u16)
    ensures { n.now < 2 ^ 16 }
{
    let _n = *n;
}

fn count_range(n: &u32)
    ensures { n.now < 2 ^ 32 }
{
    let _n = *n;
}

fn long_range(n: &u64)
    ensures { n.now < 2 ^ 64 }
{
    let _n = *n;
}

fn byte_range(n: &u8)
    ensures { n.now < 256 }
{
    let _n = *n;
}

pub fn bytes_range(bytes: &[u8])
    ensures { IsBytes bytes.now }
{
    let _bytes = bytes;
}

fn sized_range<const N: usize>(bytes: &[u8; N])
    ensures { AreBytes N bytes.now }
{
    bytes_range(bytes);
}

fn group_range(id: &GroupId)
    ensures { AreBytes 11 id.now.bytes }
{
    sized_range::<11>(&id.bytes);
}

fn sense_range(sense: &Sense)
    ensures { AreBytes 32 sense.now.bytes }
{
    sized_range::<32>(&sense.bytes);
}

fn owner_range(owner: &Owner)
    ensures { IsOwner owner.now }
{
    match owner {
        Owner::Group(id) => group_range(id),
        Owner::Path(path) => path_range(path),
    }
}

fn start_range(answer: &StartAnswer)
    ensures { IsStart answer.now }
{
    match answer {
        StartAnswer::Accepted(n) => short_range(n),
        StartAnswer::Busy(path) => path_range(path),
        StartAnswer::Done | StartAnswer::Running => (),
        StartAnswer::Secondary(device) => device_range(device),
        StartAnswer::Reserved(owner) => owner_range(owner),
        StartAnswer::Shut(owner) => owner_range(owner),
    }
}

fn back_range(answer: &BackAnswer)
    ensures { IfSome (back_track answer.now) IsTrack → IsBack answer.now }
{
    match answer {
        BackAnswer::Nothing | BackAnswer::Fault(_) | BackAnswer::BadBytes(_) => (),
        BackAnswer::Recovered(_)
        | BackAnswer::Copied(_)
        | BackAnswer::Staged(_)
        | BackAnswer::Skipped(_)
        | BackAnswer::Destaged(_)
        | BackAnswer::Half(_)
        | BackAnswer::Finished(_)
        | BackAnswer::Unwritten(_) => (),
    }
}

fn loose_range(answer: &LooseAnswer)
    ensures { IfSome (loose_track answer.now) IsTrack → IsLoose answer.now }
{
    match answer {
        LooseAnswer::Harden(_) | LooseAnswer::Loosen(_) => (),
        LooseAnswer::Lost { count, id } => {
            short_range(count);
            sized_range::<2>(id);
        }
    }
}

fn over_range(how: &HowOver)
    ensures { IsOver how.now }
{
    match how {
        HowOver::Full | HowOver::Checked => (),
        HowOver::Cut(commands) => short_range(commands),
    }
}

fn fault_range(fault: &OrderRefusal)
    ensures { IsFault fault.now }
{
    match fault {
        OrderRefusal::Lent(device) => device_range(device),
        OrderRefusal::Active(path) => path_range(path),
        OrderRefusal::NotLevel(tracks) => short_range(tracks),
        OrderRefusal::Same
        | OrderRefusal::Paired
        | OrderRefusal::Unpaired
        | OrderRefusal::Geometry
        | OrderRefusal::NoSide
        | OrderRefusal::Down
        | OrderRefusal::Up
        | OrderRefusal::Half
        | OrderRefusal::Held
        | OrderRefusal::NotHeld => (),
    }
}

fn answer_range(answer: &OrderAnswer)
    ensures { IsAnswer answer.now }
{
    match answer {
        OrderAnswer::Done => (),
        OrderAnswer::Pending(tracks) => count_range(tracks),
        OrderAnswer::Refused(fault) => fault_range(fault),
    }
}

fn order_range(order: &Order)
    ensures { IsOrder order.now }
{
    match order {
        Order::FailVolume(device, _) => device_range(device),
        Order::Replace(device, _) => device_range(device),
        Order::Pair(first, second) => {
            device_range(first);
            device_range(second);
        }
        Order::Unpair(device) => device_range(device),
        Order::Suspend(device) => device_range(device),
        Order::Resume(device) => device_range(device),
        Order::FailCache
        | Order::FailStore
        | Order::RepairCache
        | Order::RepairStore
        | Order::Power => (),
    }
}

fn totals_range(totals: &DeviceTotals)
    ensures { IsTotals totals.now }
{
    match totals {
        DeviceTotals::Calls {
            reads,
            writes,
            lost,
        } => {
            long_range(reads);
            long_range(writes);
            long_range(lost);
        }
        DeviceTotals::Lost(lost) => long_range(lost),
        DeviceTotals::Lent(device) => device_range(device),
    }
}

fn end_range(end: &EndLine)
    ensures { IsEnd end.now }
{
    path_range(&end.path);
    device_range(&end.device);
    short_range(&end.ordinal);
    short_range(&end.index);
    byte_range(&end.status.0);
    short_range(&end.residual);
}

fn place_range(path: &PathNo, device: &DeviceNo)
    ensures path { IsPath path.now }
    ensures device { IsDevice device.now }
{
    path_range(path);
    device_range(device);
}

/// The numbers and bytes of every line are in their ranges, where the track that it names is one of a device of a deck: so
/// `reads_back` speaks of all these lines.
pub fn in_ranges(line: &ReportLine)
    ensures { NamesTrack line.now → IsLine line.now }
{
    match line {
        ReportLine::Start(path, device, answer) => {
            place_range(path, device);
            start_range(answer);
        }
        ReportLine::End(end) => end_range(end),
        ReportLine::Data(bytes) => bytes_range(bytes.as_slice()),
        ReportLine::Sense(sense) => sense_range(sense),
        ReportLine::Half(path, device, _) => place_range(path, device),
        ReportLine::Back(device, answer) => {
            device_range(device);
            back_range(answer);
        }
        ReportLine::StepIdle(device) => device_range(device),
        ReportLine::RunIdle(device) => device_range(device),
        ReportLine::Loose(device, answer) => {
            device_range(device);
            loose_range(answer);
        }
        ReportLine::Io { reads, writes } => {
            long_range(reads);
            long_range(writes);
        }
        ReportLine::Over(path, device, ordinal, how) => {
            place_range(path, device);
            short_range(ordinal);
            over_range(how);
        }
        ReportLine::Reset(path, device) => place_range(path, device),
        ReportLine::Order(order, answer) => {
            order_range(order);
            answer_range(answer);
        }
        ReportLine::Device(device, totals) => {
            device_range(device);
            totals_range(totals);
        }
        ReportLine::Lost(device, _) => device_range(device),
        ReportLine::Frame(device, _, _) => device_range(device),
        ReportLine::Fresh(device) => device_range(device),
        ReportLine::Left(path, device, programs) => {
            place_range(path, device);
            short_range(programs);
        }
        ReportLine::Unused(events) => count_range(events),
        ReportLine::Finish => (),
        ReportLine::Sum(_, n) => long_range(n),
    }
}
