ghost use Rattle.std.specs.Prelude.{◌≡◌, ◌<◌, ◌≤◌, ◌*◌, IfOk, IfSome, None, OnErr, OnOk, option_map, true};
ghost use Rattle.plain_defs.specs.declared.journal.Act.TheVariants.{Harden, Loosen};
ghost use Rattle.deck_audit.specs.Replay.{acted, any_may_start, ended_next, free_answer, given_back, has_left, held_answer, is_legal, lent_answer};
ghost use Rattle.deck_audit.specs.Replay.{lost, may_loosen, may_start, new_replayed, next_end, outline_of, own_runs, program_of, running_answer};
ghost use Rattle.deck_audit.specs.Replay.{settled, start_answer, started_next, started_on};
ghost use Rattle.deck_audit.specs.Replay.{IsNext, IsOn, IsPendingOn};
ghost use Rattle.deck_audit.specs.Replayed.{ReplayedState, pending_of};

use crate::replayed::{Pending, ReplayedDevice, Running};
use crate::{HalfWrite, OpenProgram, Outline};
use ckd_chain::Chain;
use ckd_types::{CommandEnd, NoMemory, PathNo, TrackNo};
use deck_plan::PathPlans;
use deck_text::DeviceLine;
use plain_device::{Done, PlainDevice};
use report_text::StartAnswer;
use std::alloc::Global;

fn program_of(running: &Option<Running>) -> Option<OpenProgram>
    ensures { result ≡ program_of running.now }
{
    match running {
        Some(o) => Some(OpenProgram {
            path: o.path,
            ordinal: o.ordinal,
        }),
        None => None,
    }
}

/// The path's own program runs.
fn own_runs(running: &Option<Running>, path: PathNo) -> bool
    ensures { result ≡ own_runs running.now path }
{
    match running {
        Some(o) => o.path.get() == path.get(),
        None => false,
    }
}

/// The end of the running program's next command. What it does to the device, which has nothing of it yet, is then pending. After want
/// of memory no program runs.
#[tactic(auto, using(crate::proofs::ReplayedEnds::next_of_none, crate::proofs::ReplayedEnds::next_of_over, crate::proofs::ReplayedEnds::next_of_more))]
fn attempt_next(
    alloc: Global,
    device: &PlainDevice,
    running: &mut Option<Running>,
    pending: &mut Option<Pending>,
) -> Result<Option<CommandEnd>, NoMemory>
    requires running { IfSome running.old (IsOn device.now) }
    requires waits { IfSome pending.old (IsPendingOn device.now) }
    ensures next { (r : ReplayedState) → r.device ≡ device.now → r.running ≡ running.old → r.pending ≡ option_map pending_of pending.old →
        IfOk result (λ end. IsNext r end (option_map pending_of pending.new) running.new) }
    ensures runs { OnOk result (IfSome running.new (IsOn device.now)) }
    ensures pending { IfSome pending.new (IsPendingOn device.now) }
    ensures lacked { OnErr result (running.new ≡ None) }
{
    let Some(run) = running else {
        return Ok(None);
    };
    if run.chain.over() {
        return Ok(None);
    }
    let provisional = run.chain.provisional();
    let Ok(Done { end, edit, paths }) = device.attempt(alloc, run.path, &mut run.chain) else {
        *running = None;
        return Err(NoMemory);
    };
    *pending = Some(Pending {
        edit,
        paths,
        provisional,
    });
    Ok(Some(end))
}

impl ReplayedDevice {
    /// The device of a line of the deck: its tracks are empty.
    pub fn new(alloc: Global, line: DeviceLine) -> Result<ReplayedDevice, NoMemory>
        requires some { 1 ≤ line.cylinders }
        requires most { line.cylinders ≤ 64 }
        ensures { IfOk result (λ made. made ≡ new_replayed line) }
    {
        Ok(ReplayedDevice {
            number: line.number,
            device: PlainDevice::new(alloc, line.geometry, line.cylinders)?,
            started: [0; 4],
            used: [false; 4],
            waits: [false; 4],
            powered: false,
            running: None,
            pending: None,
            half: HalfWrite::Closed,
            lent: None,
        })
    }

    /// As much of it as tells which lines may come.
    pub fn outline(&self) -> Outline
        ensures { result ≡ outline_of self.now }
    {
        Outline {
            number: self.number,
            running: program_of(&self.running),
            half: self.half,
            lent: self.lent,
            loose: 0 < self.device.loose_count(),
        }
    }

    /// How many programs of a path were started.
    fn started_on(&self, path: PathNo) -> u16
        ensures { result ≡ started_on self.now path }
    {
        self.started[usize::from(path.get() - 1)]
    }

    /// The path has a program that wasn't started.
    pub fn has_left(&self, plans: &PathPlans, path: PathNo) -> bool
        ensures value { result ≡ has_left plans.now self.now path }
        ensures room { result ≡ true → started_on self.now path < 65535 }
    {
        usize::from(self.started_on(path)) < plans.len(path)
    }

    /// Its next program is admitted.
    fn may_start(&self, plans: &PathPlans, path: PathNo) -> bool
        ensures { result ≡ may_start plans.now self.now path }
    {
        if !self.has_left(plans, path) {
            return false;
        }
        let program = plans.at(path, usize::from(self.started_on(path)));
        self.device.is_admitted(path, program.ccws())
    }

    fn any_may_start(&self, plans: &PathPlans) -> bool
        ensures { result ≡ any_may_start plans.now self.now }
    {
        self.may_start(plans, PathNo::of(1))
            || self.may_start(plans, PathNo::of(2))
            || self.may_start(plans, PathNo::of(3))
            || self.may_start(plans, PathNo::of(4))
    }

    /// The owner holds the device, from one path or from every path with a program left.
    fn held_answer(&self, plans: &PathPlans) -> StartAnswer
        ensures { result ≡ held_answer plans.now self.now self.now.device.paths.owner }
    {
        match self.device.paths().owner() {
            Some(owner) => {
                if self.any_may_start(plans) {
                    StartAnswer::Reserved(owner)
                } else {
                    StartAnswer::Shut(owner)
                }
            }
            None => StartAnswer::Done,
        }
    }

    fn free_answer(&self, plans: &PathPlans, path: PathNo) -> StartAnswer
        ensures { result ≡ free_answer plans.now self.now path }
    {
        if !self.has_left(plans, path) {
            StartAnswer::Done
        } else if self.may_start(plans, path) {
            StartAnswer::Accepted(self.started_on(path) + 1)
        } else {
            self.held_answer(plans)
        }
    }

    fn running_answer(&self, plans: &PathPlans, path: PathNo) -> StartAnswer
        ensures { result ≡ running_answer plans.now self.now path self.now.running }
    {
        match &self.running {
            Some(o) => StartAnswer::Busy(o.path),
            None => self.free_answer(plans, path),
        }
    }

    /// What a START of a path is answered.
    pub fn start_answer(&self, plans: &PathPlans, path: PathNo) -> StartAnswer
        ensures { result ≡ start_answer plans.now self.now path }
    {
        if own_runs(&self.running, path) {
            return StartAnswer::Running;
        }
        match self.lent {
            Some(of) => StartAnswer::Secondary(of),
            None => self.running_answer(plans, path),
        }
    }

    /// The path's next program starts.
    pub fn start(&mut self, alloc: Global, plans: &PathPlans, path: PathNo) -> Result<(), NoMemory>
        requires left { has_left plans.now self.old path ≡ true }
        ensures done { OnOk result (self.new ≡ started_next plans.now self.old path) }
        ensures same { OnErr result (self.new ≡ self.old) }
    {
        let before = self.started_on(path);
        let _ = plans.len(path);
        let program = plans.at(path, usize::from(before));
        let chain = Chain::begin(program.copy(alloc)?, self.device.fixed());
        self.device.begin(path, program.ccws());
        let at = usize::from(path.get() - 1);
        self.started[at] = before + 1;
        self.used[at] = true;
        self.powered = true;
        self.running = Some(Running {
            path,
            ordinal: before + 1,
            chain,
        });
        Ok(())
    }

    /// The end of the running program's next command, of which the device has nothing yet. After want of memory no
    /// program runs.
    pub fn end_next(&mut self, alloc: Global) -> Result<Option<CommandEnd>, NoMemory>
        ensures end { IfOk result (λ end. end ≡ next_end self.old) }
        ensures state { OnOk result (self.new ≡ ended_next self.old) }
    {
        let end = attempt_next(alloc, &self.device, &mut self.running, &mut self.pending)?;
        Ok(end)
    }

    /// The command that ended last may edit its track: it isn't loose, or its data are of cache fast write.
    pub fn is_legal(&self) -> bool
        ensures { result ≡ is_legal self.now }
    {
        match &self.pending {
            Some(pending) => match &pending.edit {
                Some(written) => pending.provisional || !self.device.is_loose(written.track),
                None => true,
            },
            None => true,
        }
    }

    /// The track becomes loose with the command that ended last.
    pub fn may_loosen(&self, t: TrackNo) -> bool
        ensures value { result ≡ may_loosen self.now t }
        ensures on_device { result ≡ true → t < self.now.device.cylinders * 15 }
    {
        match &self.pending {
            Some(pending) => match &pending.edit {
                Some(written) => {
                    written.track.get() == t.get()
                        && pending.provisional
                        && !self.device.is_loose(t)
                }
                None => false,
            },
            None => false,
        }
    }

    /// It does.
    pub fn loosen(&mut self, alloc: Global, t: TrackNo) -> Result<(), NoMemory>
        requires { t < self.old.device.cylinders * 15 }
        ensures done { OnOk result (self.new ≡ acted self.old (Loosen t)) }
        ensures same { OnErr result (self.new ≡ self.old) }
    {
        self.device.loosen(alloc, t)
    }

    /// A loose track is firm again.
    pub fn harden(&mut self, t: TrackNo)
        ensures { self.new ≡ acted self.old (Harden t) }
    {
        self.device.harden(t);
    }

    /// All loose tracks go back.
    pub fn lose_loose(&mut self, alloc: Global)
        ensures { self.new ≡ lost self.old }
    {
        self.pending = None;
        self.device.lose_loose(alloc);
    }

    /// The device has what the command did that ended last. After want of memory it hasn't.
    pub fn settle(&mut self) -> Result<(), NoMemory>
        ensures { OnOk result (self.new ≡ settled self.old) }
    {
        if let Some(pending) = self.pending.take() {
            let Pending { edit, paths, .. } = pending;
            self.device.settle(edit, paths)?;
        }
        Ok(())
    }

    /// The volume that was lent comes back, empty.
    pub fn give_back(&mut self, alloc: Global) -> Result<(), NoMemory>
        ensures { OnOk result (self.new ≡ given_back self.old) }
    {
        self.pending = None;
        self.device.empty(alloc)?;
        self.lent = None;
        Ok(())
    }
}
