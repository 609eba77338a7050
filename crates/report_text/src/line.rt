ghost use Rattle.std.specs.Prelude.{◌≡◌};
ghost use Rattle.report_text.specs.Lines.{key_of, sum_key, order_key};

use crate::{
    BackAnswer, DeviceTotals, HowOver, Keyword, LooseAnswer, Order, OrderAnswer, StartAnswer, SumOf,
};
use ckd_types::{Bytes, DeviceNo, Note, PathNo, Sense, TrackNo, UnitStatus};

/// How a command of a path's program on a device ended: the program's ordinal from 1 on, the index of its word
/// from 0 on, its status, and its residual count in bytes.
#[derive(Clone, Copy, Debug, PartialEq, Eq)]
pub struct EndLine {
    pub path: PathNo,
    pub device: DeviceNo,
    pub ordinal: u16,
    pub index: u16,
    pub status: UnitStatus,
    pub residual: u16,
    pub note: Note,
}

/// A line of a report, of a history or of a summary.
#[derive(Debug, Drop)]
pub enum ReportLine {
    Start(PathNo, DeviceNo, StartAnswer),
    End(EndLine),
    /// The bytes that the command sent.
    Data(Bytes),
    Sense(Sense),
    /// The first part of a command's write.
    Half(PathNo, DeviceNo, TrackNo),
    Back(DeviceNo, BackAnswer),
    StepIdle(DeviceNo),
    RunIdle(DeviceNo),
    Loose(DeviceNo, LooseAnswer),
    /// The volume calls of an event.
    Io { reads: u64, writes: u64 },
    /// A path's program of that ordinal on the device is over.
    Over(PathNo, DeviceNo, u16, HowOver),
    Reset(PathNo, DeviceNo),
    Order(Order, OrderAnswer),
    Device(DeviceNo, DeviceTotals),
    Lost(DeviceNo, TrackNo),
    /// A frame of the cache, and whether it is modified.
    Frame(DeviceNo, TrackNo, bool),
    /// The device's volume was made empty.
    Fresh(DeviceNo),
    /// So many programs of the path weren't started.
    Left(PathNo, DeviceNo, u16),
    /// So many event lines weren't used.
    Unused(u32),
    Finish,
    Sum(SumOf, u64),
}

fn sum_key(of: SumOf) -> Keyword
    ensures { result ≡ sum_key of }
{
    match of {
        SumOf::Programs => Keyword::Programs,
        SumOf::Commands => Keyword::Commands,
        SumOf::Checks => Keyword::Checks,
        SumOf::Reads => Keyword::Reads,
        SumOf::Writes => Keyword::Writes,
        SumOf::Lost => Keyword::Lost,
    }
}

fn order_key(order: Order) -> Keyword
    ensures { result ≡ order_key order }
{
    match order {
        Order::FailCache | Order::FailStore | Order::FailVolume(_, _) => Keyword::Fail,
        Order::RepairCache | Order::RepairStore => Keyword::Repair,
        Order::Replace(_, _) => Keyword::Replace,
        Order::Pair(_, _) => Keyword::Pair,
        Order::Unpair(_) => Keyword::Unpair,
        Order::Suspend(_) => Keyword::Suspend,
        Order::Resume(_) => Keyword::Resume,
        Order::Power => Keyword::Power,
    }
}

/// The first word of a line.
pub fn key_of(line: &ReportLine) -> Keyword
    ensures { result ≡ key_of line.now }
{
    match line {
        ReportLine::Start(_, _, _) => Keyword::Start,
        ReportLine::End(_) => Keyword::End,
        ReportLine::Data(_) => Keyword::Data,
        ReportLine::Sense(_) => Keyword::Sense,
        ReportLine::Half(_, _, _) => Keyword::Half,
        ReportLine::Back(_, _) => Keyword::Back,
        ReportLine::StepIdle(_) => Keyword::Step,
        ReportLine::RunIdle(_) => Keyword::Run,
        ReportLine::Loose(_, _) => Keyword::Loose,
        ReportLine::Io { .. } => Keyword::Io,
        ReportLine::Over(_, _, _, _) => Keyword::Over,
        ReportLine::Reset(_, _) => Keyword::Reset,
        ReportLine::Order(order, _) => order_key(*order),
        ReportLine::Device(_, _) => Keyword::Device,
        ReportLine::Lost(_, _) => Keyword::Lost,
        ReportLine::Frame(_, _, _) => Keyword::Frame,
        ReportLine::Fresh(_) => Keyword::Fresh,
        ReportLine::Left(_, _, _) => Keyword::Left,
        ReportLine::Unused(_) => Keyword::Unused,
        ReportLine::Finish => Keyword::Finish,
        ReportLine::Sum(of, _) => sum_key(*of),
    }
}
