ghost use Rattle.std.specs.Prelude.{◌≡◌, IfSome, true};
ghost use Rattle.subsystem_core.specs.Ends.{answer_of};
ghost use Rattle.subsystem_core.specs.Frames.{HasDevice, HasSameDevices};
ghost use Rattle.subsystem_core.specs.Devices.{numbers_of};
ghost use Rattle.subsystem_core.specs.Places.{may_come};
ghost use Rattle.ckd_c.specs.Calls.{Asks, AsksOnSide, EventCame, IsOver, Runs, Silent, TellsDid, TellsOrdinal, side_of};

use crate::code::{Code, code_of, did_number};
use crate::opened::Opened;
use ckd_types::{DeviceNo, NoMemory, PathNo, Side};
use subsystem_core::EventEnd;
use subsystem_defs::Event;

/// Tells the ordinal of a program that started.
fn tell_ordinal(answer: &Result<EventEnd, NoMemory>, ordinal: &mut u16)
    ensures { IfSome (answer_of answer.now) (TellsOrdinal ordinal.new) }
{
    match answer {
        Ok(EventEnd::Started(n)) => *ordinal = *n,
        _ => (),
    }
}

/// Tells what a device did by itself. The second part of a write is 9.
fn tell_did(answer: &Result<EventEnd, NoMemory>, did: &mut u32)
    ensures { IfSome (answer_of answer.now) (TellsDid did.new) }
{
    match answer {
        Ok(EventEnd::Back(done)) => *did = did_number(*done),
        Ok(EventEnd::Second(_)) => *did = 9,
        _ => (),
    }
}

/// The side of a number.
pub(crate) fn side_of(side: u8) -> Option<Side>
    ensures { result ≡ side_of side }
{
    match side {
        0 => Some(Side::A),
        1 => Some(Side::B),
        _ => None,
    }
}

impl Opened {
    /// An event whose devices are there.
    #[tactic(auto, using(crate::proofs::Refusing::of_silent))]
    pub(crate) fn ask(&mut self, e: Event) -> Code
        requires { may_come (numbers_of self.old.subsystem.devices.items) e ≡ true }
        ensures asked { EventCame e Silent result self.old self.new }
        ensures numbers { HasSameDevices self.old.subsystem self.new.subsystem }
    {
        let answer = self.subsystem.event(e);
        code_of(&answer)
    }

    #[tactic(auto, using(crate::proofs::Refusing::is_refused_first, crate::proofs::Refusing::has_come))]
    pub(crate) fn start(&mut self, device: u8, path: u8, ordinal: &mut u16) -> Code
        ensures { Asks (Event.Start path device) (TellsOrdinal ordinal.new) result self.old self.new }
    {
        let number = match self.find(device) {
            Ok(number) => number,
            Err(code) => return code,
        };
        let Some(path) = PathNo::new(path) else {
            return Code::BadPath;
        };
        let answer = self.subsystem.event(Event::Start(path, number));
        tell_ordinal(&answer, ordinal);
        code_of(&answer)
    }

    #[tactic(auto, using(crate::proofs::Refusing::is_refused_first, crate::proofs::Refusing::has_gone))]
    pub(crate) fn step(&mut self, device: u8) -> Code
        ensures { Asks (Event.Step device) Silent result self.old self.new }
    {
        match self.find(device) {
            Ok(number) => self.ask(Event::Step(number)),
            Err(code) => code,
        }
    }

    #[tactic(auto, using(crate::proofs::Refusing::is_refused_first, crate::proofs::Refusing::has_come))]
    pub(crate) fn work(&mut self, device: u8, did: &mut u32) -> Code
        ensures { Asks (Event.Back device) (TellsDid did.new) result self.old self.new }
    {
        let number = match self.find(device) {
            Ok(number) => number,
            Err(code) => return code,
        };
        let answer = self.subsystem.event(Event::Back(number));
        tell_did(&answer, did);
        code_of(&answer)
    }

    #[tactic(auto, using(crate::proofs::Refusing::is_refused_first, crate::proofs::Refusing::has_gone))]
    pub(crate) fn reset(&mut self, device: u8, path: u8) -> Code
        ensures { Asks (Event.Reset path device) Silent result self.old self.new }
    {
        let Some(path) = PathNo::new(path) else {
            return Code::BadPath;
        };
        match self.find(device) {
            Ok(number) => self.ask(Event::Reset(path, number)),
            Err(code) => code,
        }
    }

    #[tactic(auto, using(crate::proofs::Refusing::is_refused_first))]
    pub(crate) fn lose_side(&mut self, device: u8, side: u8) -> Code
        ensures { AsksOnSide side (λ s. Event.FailVolume device s) result self.old self.new }
    {
        let Some(side) = side_of(side) else {
            return Code::BadSide;
        };
        match self.find(device) {
            Ok(number) => self.ask(Event::FailVolume(number, side)),
            Err(code) => code,
        }
    }

    #[tactic(auto, using(crate::proofs::Refusing::is_refused_first, crate::proofs::Refusing::has_gone))]
    pub(crate) fn pair(&mut self, first: u8, second: u8) -> Code
        ensures { Asks (Event.Pair first second) Silent result self.old self.new }
    {
        let first = match self.find(first) {
            Ok(number) => number,
            Err(code) => return code,
        };
        match self.find(second) {
            Ok(second) => self.ask(Event::Pair(first, second)),
            Err(code) => code,
        }
    }

    #[tactic(auto, using(crate::proofs::Refusing::is_refused_first, crate::proofs::Refusing::has_gone))]
    pub(crate) fn suspend(&mut self, device: u8) -> Code
        ensures { Asks (Event.Suspend device) Silent result self.old self.new }
    {
        match self.find(device) {
            Ok(number) => self.ask(Event::Suspend(number)),
            Err(code) => code,
        }
    }

    #[tactic(auto, using(crate::proofs::Refusing::is_refused_first, crate::proofs::Refusing::has_gone))]
    pub(crate) fn resume(&mut self, device: u8) -> Code
        ensures { Asks (Event.Resume device) Silent result self.old self.new }
    {
        match self.find(device) {
            Ok(number) => self.ask(Event::Resume(number)),
            Err(code) => code,
        }
    }

    /// Whether no program of a device runs.
    fn is_over(&self, number: DeviceNo) -> bool
        requires { HasDevice self.now.subsystem number }
        ensures { result ≡ true → IsOver number self.now }
    {
        let device = self.subsystem.device(number);
        device.active().is_none() && !device.half_open()
    }

    /// Goes on with the program that runs on a device until it is over, for at most so many steps.
    #[tactic(auto, using(crate::proofs::Refusing::is_refused_first))]
    pub(crate) fn run(&mut self, device: u8, most: u32) -> Code
        ensures { Runs device result self.old self.new }
    {
        let number = match self.find(device) {
            Ok(number) => number,
            Err(code) => return code,
        };
        for _step in 0..most {
            if self.is_over(number) {
                return Code::Done;
            }
            if self.ask(Event::Step(number)) == Code::NoMemory {
                return Code::NoMemory;
            }
        }
        if self.is_over(number) {
            Code::Done
        } else {
            Code::Running
        }
    }
}
