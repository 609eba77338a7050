ghost use Rattle.std.specs.Prelude.{◌≡◌};
ghost use Rattle.subsystem_core.specs.Ends.{answer_of};
ghost use Rattle.ckd_c.specs.declared.code.Code.TheVariants as codes;
ghost use Rattle.ckd_c.specs.Codes.{code_of, code_of_end, did_number, number_of, order_code, second_code, start_code, step_code, why_number};

use ckd_types::{NoMemory, Why};
use device_core::{SecondStep, Stepped};
use device_defs::{Did, StartFault};
use std::alloc::AllocFailed;
use subsystem_core::EventEnd;
use subsystem_defs::OrderFault;

/// What a call answers. Each has its number in `ckd.h`; number 11 is that of a NULL, which `c/calls.c` answers.
#[derive(Clone, Copy, Debug, PartialEq, Eq)]
pub enum Code {
    Done,
    Closed,
    Open,
    NoMemory,
    BadDevice,
    BadPath,
    BadSide,
    BadGeometry,
    BadCylinders,
    BadImage,
    FileFault,
    BadProgram,
    NoDevice,
    NotLast,
    NotAlike,
    PlanFull,
    Idle,
    Running,
    Part,
    NoEnd,
    Waits,
    Lent,
    Busy,
    NotPlanned,
    Shut,
    Reserved,
    Same,
    Paired,
    Unpaired,
    NoSide,
    Down,
    Up,
    NotLevel,
    Half,
    Held,
    NotHeld,
}

impl<T: Drop> From<AllocFailed<T>> for Code {
    ghost from_gives = { λ _ e. e ≡ codes.NoMemory };

    fn from(_: AllocFailed<T>) -> Self {
        Code::NoMemory
    }
}

/// The number of an answer.
pub(crate) fn number_of(code: Code) -> u32
    ensures { result ≡ number_of code }
{
    match code {
        Code::Done => 0,
        Code::Closed => 1,
        Code::Open => 2,
        Code::NoMemory => 3,
        Code::BadDevice => 4,
        Code::BadPath => 5,
        Code::BadSide => 6,
        Code::BadGeometry => 7,
        Code::BadCylinders => 8,
        Code::BadImage => 9,
        Code::FileFault => 10,
        Code::BadProgram => 12,
        Code::NoDevice => 13,
        Code::NotLast => 14,
        Code::NotAlike => 15,
        Code::PlanFull => 16,
        Code::Idle => 17,
        Code::Running => 18,
        Code::Part => 19,
        Code::NoEnd => 20,
        Code::Waits => 21,
        Code::Lent => 22,
        Code::Busy => 23,
        Code::NotPlanned => 24,
        Code::Shut => 25,
        Code::Reserved => 26,
        Code::Same => 27,
        Code::Paired => 28,
        Code::Unpaired => 29,
        Code::NoSide => 30,
        Code::Down => 31,
        Code::Up => 32,
        Code::NotLevel => 33,
        Code::Half => 34,
        Code::Held => 35,
        Code::NotHeld => 36,
    }
}

/// The number of the reason why a word is bad.
pub(crate) fn why_number(why: Why) -> u32
    ensures { result ≡ why_number why }
{
    match why {
        Why::Empty => 1,
        Why::TooLong => 2,
        Why::BadCommand => 3,
        Why::BadFlags => 4,
        Why::TicFirst => 5,
        Why::Target => 6,
        Why::TicToTic => 7,
        Why::ZeroCount => 8,
        Why::TooMuchData => 9,
        Why::DataOnInput => 10,
        Why::PastEnd => 11,
    }
}

/// The number of what a device did by itself. A second part of a write isn't among them.
pub(crate) fn did_number(did: Did) -> u32
    ensures { result ≡ did_number did }
{
    match did {
        Did::Nothing => 0,
        Did::Recovered(_) => 1,
        Did::Copied(_) => 2,
        Did::Staged(_) => 3,
        Did::Skipped(_) => 4,
        Did::Destaged(_) => 5,
        Did::Half(_) => 6,
        Did::Fault(_) => 7,
        Did::BadBytes(_) => 8,
    }
}

fn start_code(fault: StartFault) -> Code
    ensures { result ≡ start_code fault }
{
    match fault {
        StartFault::Secondary { of: _ } => Code::Lent,
        StartFault::Busy { holder: _ } => Code::Busy,
        StartFault::PlanDone => Code::NotPlanned,
        StartFault::Shut { owner: _ } => Code::Shut,
        StartFault::Reserved { owner: _ } => Code::Reserved,
    }
}

fn order_code(fault: OrderFault) -> Code
    ensures { result ≡ order_code fault }
{
    match fault {
        OrderFault::Same => Code::Same,
        OrderFault::Lent { of: _ } => Code::Lent,
        OrderFault::Paired => Code::Paired,
        OrderFault::Unpaired => Code::Unpaired,
        OrderFault::Active { path: _ } => Code::Running,
        OrderFault::Geometry => Code::NotAlike,
        OrderFault::NoSide => Code::NoSide,
        OrderFault::Down => Code::Down,
        OrderFault::Up => Code::Up,
        OrderFault::NotLevel { n: _ } => Code::NotLevel,
        OrderFault::Half => Code::Half,
        OrderFault::Held => Code::Held,
        OrderFault::NotHeld => Code::NotHeld,
    }
}

fn step_code(step: &Stepped) -> Code
    ensures { result ≡ step_code step.now }
{
    match step {
        Stepped::Ended => Code::Done,
        Stepped::Half(_) => Code::Part,
    }
}

fn second_code(step: &SecondStep) -> Code
    ensures { result ≡ second_code step.now }
{
    match step {
        SecondStep::Ended => Code::Done,
        SecondStep::Finished(_) => Code::Part,
        SecondStep::Unwritten(_) => Code::Part,
    }
}

/// The answer where an event ended so.
pub(crate) fn code_of_end(end: &EventEnd) -> Code
    ensures { result ≡ code_of_end end.now }
{
    match end {
        EventEnd::Started(_) => Code::Done,
        EventEnd::NotStarted(fault) => start_code(*fault),
        EventEnd::Running => Code::Running,
        EventEnd::Stepped(step) => step_code(step),
        EventEnd::Second(step) => second_code(step),
        EventEnd::Idle => Code::Idle,
        EventEnd::Back(_) => Code::Done,
        EventEnd::Done => Code::Done,
        EventEnd::Pending(_) => Code::Waits,
        EventEnd::Refused(fault) => order_code(*fault),
    }
}

/// The answer to an event.
pub(crate) fn code_of(answer: &Result<EventEnd, NoMemory>) -> Code
    ensures { result ≡ code_of (answer_of answer.now) }
{
    match answer {
        Ok(end) => code_of_end(end),
        Err(NoMemory) => Code::NoMemory,
    }
}
