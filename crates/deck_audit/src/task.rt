ghost use Rattle.std.specs.Prelude.{◌≡◌, ◌+◌, ◌<◌, IfOk, OnOk};
ghost use Rattle.deck_audit.specs.declared.kept.Then.TheVariants.{Wait};
ghost use Rattle.deck_audit.specs.declared.state.Did.TheVariants.{Halved};
ghost use Rattle.deck_audit.specs.declared.state.Due.TheVariants.{Powers};
ghost use Rattle.deck_audit.specs.Kept.{OnGood, settled_kept, tells_loss, then_if, wait_if};
ghost use Rattle.deck_audit.specs.Same.{says};
ghost use Rattle.deck_audit.specs.Task.{IsInRange, is_over_with, next_then, settle_then, task_kept, task_then};

use crate::kept::{Kept, Then};
use crate::{Did, Due, says};
use ckd_types::{CommandEnd, DeviceNo, NoMemory, PathNo, TrackNo};
use deck_plan::{EventLine, PathPlans};
use report_text::ReportLine;
use std::alloc::Global;

/// What a line is to a device.
#[derive(Debug, Drop)]
pub enum Task {
    /// A START of the path.
    Start(PathNo),
    /// The first line of a piece of work.
    Work,
    /// The SENSE of a command that ended so on the plain device.
    Sense(CommandEnd),
    /// A CFW line behind a piece of work.
    Act(Did),
    /// The first line behind a piece of work of this event.
    Settle(Option<EventLine>, Did),
    /// The OVER line that the event's work brings.
    Over(Option<EventLine>, ReportLine),
    /// The OVER line of a program that a RESET cut behind so many commands.
    Cut(u16),
    /// A RESET of the path that cut none.
    Reset(PathNo),
    /// A track becomes firm, since its volume failed.
    Harden(TrackNo),
    /// The cache failed.
    Loss,
    /// Its volume is lent to another device.
    Lend(DeviceNo),
    /// The OVER line of a program that a loss of power cut.
    PowerCut(u16),
    /// Its loose tracks go back at a loss of power.
    PowerLoss,
}

/// An event is over with a piece of work.
fn is_over_with(event: Option<EventLine>, idle: bool, did: &Did) -> bool
    ensures { result ≡ is_over_with event idle did.now }
{
    match event {
        Some(EventLine::Run(_)) => idle,
        Some(EventLine::Settle(_)) => match did {
            Did::Worked(last) => *last,
            _ => false,
        },
        _ => true,
    }
}

/// What the types of a line's path and count say.
pub fn range_of(task: &Task)
    ensures { IsInRange task.now }
{
    match task {
        Task::Start(path) => {
            let _number = path.get();
        }
        Task::Reset(path) => {
            let _number = path.get();
        }
        Task::Cut(n) => {
            let _number = *n;
        }
        Task::PowerCut(n) => {
            let _number = *n;
        }
        _ => {}
    }
}

fn wait_if(due: Option<Due>) -> Option<Then>
    ensures { result ≡ wait_if due }
{
    match due {
        Some(due) => Some(Then::Wait(due)),
        None => None,
    }
}

impl Kept {
    fn next_then(&self, event: Option<EventLine>, did: &Did) -> Then
        ensures { result ≡ next_then event self.now did.now }
    {
        if is_over_with(event, self.device.is_idle(), did) {
            Then::Passed
        } else {
            Then::Wait(Due::Next)
        }
    }

    /// A piece of work of the event is taken as done.
    pub fn settle_line(&mut self, event: Option<EventLine>, did: &Did) -> Result<Then, NoMemory>
        ensures answer { IfOk result (λ next. next ≡ settle_then event self.old did.now) }
        ensures kept { OnOk result (self.new ≡ settled_kept self.old did.now) }
    {
        match self.settle(did)? {
            Some(wanted) => Ok(Then::Wait(Due::OverOf(wanted))),
            None => Ok(self.next_then(event, did)),
        }
    }

    /// The OVER line that the event's work brings.
    fn over_then(
        &self,
        event: Option<EventLine>,
        wanted: &ReportLine,
        line: &ReportLine,
    ) -> Option<Then>
        ensures { result ≡ then_if (says wanted.now line.now) (next_then event self.now Halved) }
    {
        if !says(wanted, line) {
            return None;
        }
        Some(self.next_then(event, &Did::Halved))
    }

    /// Its loose tracks go back at a loss of power, where it is the device of that place.
    fn power_loss(&self, at: usize, line: &ReportLine) -> Option<Then>
        requires { at < 18446744073709551615 }
        ensures { result ≡ then_if (tells_loss self.now.device line.now) (Wait (Powers (at + 1))) }
    {
        if !self.device.tells_loss(line) {
            return None;
        }
        Some(Then::Wait(Due::Powers(at + 1)))
    }

    /// Judges a line, where it is the device of that place: what follows the line, nothing where no plain device answers so.
    pub fn line(
        &mut self,
        alloc: Global,
        plans: &PathPlans,
        at: usize,
        line: &ReportLine,
        task: Task,
    ) -> Result<Option<Then>, NoMemory>
        requires { at < 18446744073709551615 }
        ensures answer { IfOk result (λ next. next ≡ task_then plans.now self.old at line.now task) }
        ensures kept { OnGood result (self.new ≡ task_kept plans.now self.old line.now task) }
    {
        match task {
            Task::Start(path) => self.start_line(alloc, plans, path, line),
            Task::Work => self.work_line(alloc, plans, line),
            Task::Sense(e) => Ok(wait_if(self.device.sense_due(plans, line, e))),
            Task::Act(did) => self.act_line(alloc, line, did),
            Task::Settle(event, did) => {
                let next = self.settle_line(event, &did)?;
                Ok(Some(next))
            }
            Task::Over(event, wanted) => Ok(self.over_then(event, &wanted, line)),
            Task::Cut(n) => self.cut_line(alloc, n),
            Task::Reset(path) => {
                self.device.reset(path);
                Ok(Some(Then::Passed))
            }
            Task::Harden(t) => self.harden_line(t, Due::Next),
            Task::Loss => self.loss_line(alloc, line),
            Task::Lend(of) => {
                self.device.lend(of);
                Ok(Some(Then::Passed))
            }
            Task::PowerCut(n) => self.power_line(alloc, n, Due::Powers(at)),
            Task::PowerLoss => Ok(self.power_loss(at, line)),
        }
    }
}
