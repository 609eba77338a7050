ghost use Rattle.std.specs.Prelude.{◌≡◌, IfOk, OnOk, true};
ghost use Rattle.deck_audit.specs.declared.state.Due.TheVariants.{ResetOf};
ghost use Rattle.plain_defs.specs.declared.journal.Act.TheVariants.{Harden, Loosen};
ghost use Rattle.deck_audit.specs.Kept.{OnGood, act_kept, act_made, act_then, back_half, begun, cut_kept_by, cut_then_by, end_kept, end_then};
ghost use Rattle.deck_audit.specs.Kept.{ended_kept, ended_over, checked_kept, harden_then, is_accepted, loosen_then, loss_kept, loss_then, one_more};
ghost use Rattle.deck_audit.specs.Kept.{power_kept, power_then, settled_kept, settled_over, start_kept, start_then, taken, takes, work_kept};
ghost use Rattle.deck_audit.specs.Kept.{work_then};
ghost use Rattle.deck_audit.specs.History.{is_last};

use crate::replayed::ReplayedDevice;
use crate::{Did, Due, HalfWrite, says};
use ckd_types::{NoMemory, PathNo, Sense, TrackNo};
use deck_plan::PathPlans;
use report_text::{BackAnswer, HowOver, LooseAnswer, ReportLine, StartAnswer};
use std::alloc::Global;

/// A device of the deck as an audit keeps it, and how many commands of its running program ended.
#[derive(Debug, Drop)]
pub struct Kept {
    pub device: ReplayedDevice,
    pub ended: u32,
}

/// What follows a line that is judged well: the next event, or what is due.
#[derive(Debug, Drop)]
pub enum Then {
    Passed,
    Wait(Due),
}

fn is_accepted(answer: &StartAnswer) -> bool
    ensures { result ≡ is_accepted answer.now }
{
    matches!(answer, StartAnswer::Accepted(_))
}

fn back_half(half: HalfWrite, answer: &BackAnswer) -> HalfWrite
    ensures { result ≡ back_half half answer.now }
{
    match answer {
        BackAnswer::Half(_) => HalfWrite::OfBackground,
        BackAnswer::Finished(_) | BackAnswer::Unwritten(_) => HalfWrite::Closed,
        _ => half,
    }
}

/// SETTLE is at its end.
fn is_last(answer: &BackAnswer) -> bool
    ensures { result ≡ is_last answer.now }
{
    matches!(
        answer,
        BackAnswer::Nothing | BackAnswer::Fault(_) | BackAnswer::BadBytes(_)
    )
}

/// No line tells of more than 65,536.
fn one_more(ended: u32) -> u32
    ensures { result ≡ one_more ended }
{
    if ended < 4_294_967_295 {
        ended + 1
    } else {
        ended
    }
}

impl Kept {
    fn begin(
        &mut self,
        alloc: Global,
        plans: &PathPlans,
        path: PathNo,
        accepted: bool,
    ) -> Result<(), NoMemory>
        ensures { OnOk result (self.new ≡ begun plans.now self.old path accepted) }
    {
        if !accepted {
            return Ok(());
        }
        if !self.device.has_left(plans, path) {
            return Ok(());
        }
        self.device.start(alloc, plans, path)?;
        self.ended = 0;
        Ok(())
    }

    /// START.
    pub fn start_line(
        &mut self,
        alloc: Global,
        plans: &PathPlans,
        path: PathNo,
        line: &ReportLine,
    ) -> Result<Option<Then>, NoMemory>
        ensures answer { IfOk result (λ next. next ≡ start_then plans.now self.old path line.now) }
        ensures kept { OnGood result (self.new ≡ start_kept plans.now self.old path) }
    {
        let answer = self.device.start_answer(plans, path);
        let accepted = is_accepted(&answer);
        let wanted = ReportLine::Start(path, self.device.number(), answer);
        if !says(&wanted, line) {
            return Ok(None);
        }
        self.begin(alloc, plans, path, accepted)?;
        Ok(Some(Then::Passed))
    }

    /// END.
    fn end_line(
        &mut self,
        alloc: Global,
        plans: &PathPlans,
        line: &ReportLine,
    ) -> Result<Option<Then>, NoMemory>
        ensures answer { IfOk result (λ next. next ≡ end_then plans.now self.old line.now) }
        ensures kept { OnGood result (self.new ≡ end_kept self.old) }
    {
        let end = self.device.end_next(alloc)?;
        self.device.set_half(HalfWrite::Closed);
        let Some(end) = end else {
            return Ok(None);
        };
        match self.device.end_due(plans, line, end) {
            Some(due) => Ok(Some(Then::Wait(due))),
            None => Ok(None),
        }
    }

    /// The first line of a STEP, RUN, BACK or SETTLE, or of its next piece of work.
    pub fn work_line(
        &mut self,
        alloc: Global,
        plans: &PathPlans,
        line: &ReportLine,
    ) -> Result<Option<Then>, NoMemory>
        ensures answer { IfOk result (λ next. next ≡ work_then plans.now self.old line.now) }
        ensures kept { OnGood result (self.new ≡ work_kept self.old line.now) }
    {
        match line {
            ReportLine::End(_) => self.end_line(alloc, plans, line),
            ReportLine::Half(_, _, _) => {
                self.device.set_half(HalfWrite::OfCommand);
                Ok(Some(Then::Wait(Due::Behind(true, Did::Halved))))
            }
            ReportLine::Back(_, answer) => {
                let half = back_half(self.device.half(), answer);
                self.device.set_half(half);
                let did = Did::Worked(is_last(answer));
                Ok(Some(Then::Wait(Due::Behind(true, did))))
            }
            _ => Ok(Some(Then::Passed)),
        }
    }

    /// A loose track becomes firm.
    pub fn harden_line(&mut self, t: TrackNo, due: Due) -> Result<Option<Then>, NoMemory>
        ensures answer { IfOk result (λ next. next ≡ harden_then self.old t due) }
        ensures kept { OnGood result (self.new ≡ act_kept self.old (Harden t)) }
    {
        if !self.device.is_loose(t) {
            return Ok(None);
        }
        self.device.harden(t);
        Ok(Some(Then::Wait(due)))
    }

    /// A track becomes loose with the command that ended, and no act stands behind that.
    fn loosen_line(&mut self, alloc: Global, t: TrackNo, did: Did) -> Result<Option<Then>, NoMemory>
        ensures answer { IfOk result (λ next. next ≡ loosen_then self.old t did) }
        ensures kept { OnGood result (self.new ≡ act_kept self.old (Loosen t)) }
    {
        match did {
            Did::Ended(e) => {
                if !self.device.may_loosen(t) {
                    return Ok(None);
                }
                self.device.loosen(alloc, t)?;
                Ok(Some(Then::Wait(Due::Behind(false, Did::Ended(e)))))
            }
            _ => Ok(None),
        }
    }

    /// A CFW line behind a piece of work.
    pub fn act_line(
        &mut self,
        alloc: Global,
        line: &ReportLine,
        did: Did,
    ) -> Result<Option<Then>, NoMemory>
        ensures answer { IfOk result (λ next. next ≡ act_then self.old line.now did) }
        ensures kept { OnGood result (self.new ≡ act_made self.old line.now) }
    {
        match line {
            ReportLine::Loose(_, LooseAnswer::Harden(t)) => {
                self.harden_line(*t, Due::Behind(true, did))
            }
            ReportLine::Loose(_, LooseAnswer::Loosen(t)) => self.loosen_line(alloc, *t, did),
            _ => Ok(None),
        }
    }

    /// The cache failed: all loose tracks go back.
    pub fn loss_line(&mut self, alloc: Global, line: &ReportLine) -> Result<Option<Then>, NoMemory>
        ensures answer { IfOk result (λ next. next ≡ loss_then self.old line.now) }
        ensures kept { OnGood result (self.new ≡ loss_kept self.old) }
    {
        if !self.device.tells_loss(line) {
            return Ok(None);
        }
        self.device.lose_loose(alloc);
        Ok(Some(Then::Wait(Due::Losses(self.device.number()))))
    }

    fn settle_end(&mut self, over: bool) -> Result<Option<ReportLine>, NoMemory>
        ensures over { IfOk result (λ line. line ≡ ended_over self.old over) }
        ensures kept { OnOk result (self.new ≡ ended_kept self.old over) }
    {
        if !over {
            self.device.settle()?;
            self.ended = one_more(self.ended);
            return Ok(None);
        }
        let wanted = self.device.over_line(HowOver::Full);
        self.device.settle()?;
        self.device.close();
        Ok(wanted)
    }

    fn settle_check(&mut self, sense: Option<Sense>)
        ensures { self.new ≡ checked_kept self.old sense }
    {
        match sense {
            Some(sense) => self.device.check(sense),
            None => {}
        }
    }

    /// A piece of work is taken as done: the OVER line that it brings.
    pub fn settle(&mut self, did: &Did) -> Result<Option<ReportLine>, NoMemory>
        ensures over { IfOk result (λ line. line ≡ settled_over self.old did.now) }
        ensures kept { OnOk result (self.new ≡ settled_kept self.old did.now) }
    {
        match did {
            Did::Ended(e) => self.settle_end(e.over),
            Did::CheckEnded(e) => {
                let wanted = self.device.over_line(HowOver::Checked);
                self.settle_check(e.sense);
                Ok(wanted)
            }
            _ => Ok(None),
        }
    }

    /// Of the program that is cut as many commands took effect as ended, or one more, which may edit its track.
    fn take(&mut self, alloc: Global, n: u16) -> Result<bool, NoMemory>
        ensures taken { IfOk result (λ is. is ≡ takes self.old n) }
        ensures kept { IfOk result (λ is. is ≡ true → self.new ≡ record self.old { device = taken self.old n }) }
    {
        if u64::from(n) == u64::from(self.ended) {
            return Ok(true);
        }
        if u64::from(n) != u64::from(self.ended) + 1 {
            return Ok(false);
        }
        self.device.end_next(alloc)?;
        if !self.device.is_legal() {
            return Ok(false);
        }
        self.device.settle()?;
        Ok(true)
    }

    /// The OVER line of a program that a RESET cut.
    pub fn cut_line(&mut self, alloc: Global, n: u16) -> Result<Option<Then>, NoMemory>
        ensures answer { IfOk result (λ next. next ≡ cut_then_by self.old n ResetOf self.old.device.running) }
        ensures kept { OnGood result (self.new ≡ cut_kept_by self.old n self.old.device.running) }
    {
        let Some(path) = self.device.running_path() else {
            return Ok(None);
        };
        if !self.take(alloc, n)? {
            return Ok(None);
        }
        self.device.reset(path);
        self.device.cut_half();
        Ok(Some(Then::Wait(Due::ResetOf)))
    }

    /// The OVER line of a program that a loss of power cut.
    pub fn power_line(&mut self, alloc: Global, n: u16, due: Due) -> Result<Option<Then>, NoMemory>
        ensures answer { IfOk result (λ next. next ≡ power_then self.old n due) }
        ensures kept { OnGood result (self.new ≡ power_kept self.old n) }
    {
        if self.device.running_path().is_none() {
            return Ok(None);
        }
        if !self.take(alloc, n)? {
            return Ok(None);
        }
        self.device.cut();
        Ok(Some(Then::Wait(due)))
    }
}
