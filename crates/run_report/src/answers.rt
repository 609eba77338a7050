ghost use Rattle.std.specs.Prelude.{◌≡◌};
ghost use Rattle.run_report.specs.Answers.{back_answer, order_answer, refused_as, start_answer, start_refused};
ghost use Rattle.run_report.specs.Beside.{how_over};

use device_defs::{Did, StartFault};
use plain_defs::How;
use report_text::{BackAnswer, HowOver, OrderAnswer, StartAnswer};
use subsystem_defs::{EventEnd, OrderFault};

fn start_refused(fault: StartFault) -> StartAnswer
    ensures { result ≡ start_refused fault }
{
    match fault {
        StartFault::Secondary { of } => StartAnswer::Secondary(of),
        StartFault::Busy { holder } => StartAnswer::Busy(holder),
        StartFault::PlanDone => StartAnswer::Done,
        StartFault::Shut { owner } => StartAnswer::Shut(owner),
        StartFault::Reserved { owner } => StartAnswer::Reserved(owner),
    }
}

/// How the end of a start is told.
pub fn start_answer(end: &EventEnd) -> StartAnswer
    ensures { result ≡ start_answer end.now }
{
    match end {
        EventEnd::Started(ordinal) => StartAnswer::Accepted(*ordinal),
        EventEnd::NotStarted(fault) => start_refused(*fault),
        _ => StartAnswer::Running,
    }
}

/// How what a device did by itself is told.
pub fn back_answer(did: Did) -> BackAnswer
    ensures { result ≡ back_answer did }
{
    match did {
        Did::Nothing => BackAnswer::Nothing,
        Did::Recovered(track) => BackAnswer::Recovered(track),
        Did::Copied(track) => BackAnswer::Copied(track),
        Did::Staged(track) => BackAnswer::Staged(track),
        Did::Skipped(track) => BackAnswer::Skipped(track),
        Did::Destaged(track) => BackAnswer::Destaged(track),
        Did::Half(track) => BackAnswer::Half(track),
        Did::Fault(side) => BackAnswer::Fault(side),
        Did::BadBytes(side) => BackAnswer::BadBytes(side),
    }
}

fn refused_as(fault: OrderFault) -> report_text::OrderRefusal
    ensures { result ≡ refused_as fault }
{
    match fault {
        OrderFault::Same => report_text::OrderRefusal::Same,
        OrderFault::Lent { of } => report_text::OrderRefusal::Lent(of),
        OrderFault::Paired => report_text::OrderRefusal::Paired,
        OrderFault::Unpaired => report_text::OrderRefusal::Unpaired,
        OrderFault::Active { path } => report_text::OrderRefusal::Active(path),
        OrderFault::Geometry => report_text::OrderRefusal::Geometry,
        OrderFault::NoSide => report_text::OrderRefusal::NoSide,
        OrderFault::Down => report_text::OrderRefusal::Down,
        OrderFault::Up => report_text::OrderRefusal::Up,
        OrderFault::NotLevel { n } => report_text::OrderRefusal::NotLevel(n),
        OrderFault::Half => report_text::OrderRefusal::Half,
        OrderFault::Held => report_text::OrderRefusal::Held,
        OrderFault::NotHeld => report_text::OrderRefusal::NotHeld,
    }
}

/// How the end of an order is told.
pub fn order_answer(end: &EventEnd) -> OrderAnswer
    ensures { result ≡ order_answer end.now }
{
    match end {
        EventEnd::Pending(tracks) => OrderAnswer::Pending(*tracks),
        EventEnd::Refused(fault) => OrderAnswer::Refused(refused_as(*fault)),
        _ => OrderAnswer::Done,
    }
}

/// How a program that is over is told.
pub fn how_over(how: How) -> HowOver
    ensures { result ≡ how_over how }
{
    match how {
        How::Full => HowOver::Full,
        How::Checked => HowOver::Checked,
        How::Cut { effect } => HowOver::Cut(effect),
    }
}
