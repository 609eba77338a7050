ghost use Rattle.std.specs.Prelude.{◌≡◌, ◌&&◌, ◌+◌, ◌<◌, ◌≤◌, ◌==◌, [], IfOk, OnOk, OnErr, None, Some, true, false, option_map};
ghost use Rattle.plain_defs.specs.History.{is_path_of, started};
ghost use Rattle.device_defs.specs.Start.{
  has_none_or_is_out,
  idle_fault,
  is_finished,
  is_shut,
  keeps_out,
  left,
  next_ordinal,
  next_program,
  reserved_fault,
  running_fault,
  start,
  start_fault,
  started_count,
};
ghost use Rattle.device_core.specs.Kept.{open_of, chain_of, history_of, of_path, ActRoom, Keeps};
ghost use Rattle.device_core.specs.State.{device_of, HasSameTracks};
ghost use Rattle.device_core.specs.Starting.{fault_told};
ghost use Rattle.device_core.specs.Promises.{StaysExcused, StaysPlain, StaysSound};

use crate::Device;
use crate::history::{Past, Running};
use crate::kept::count_one_more;
use crate::resets::path_at;
use ckd_ccw::Program;
use ckd_chain::Chain;
use ckd_types::{EndList, FixedData, NoMemory, PathNo};
use device_defs::StartFault;
use device_outside::Volume;
use plain_defs::ActList;

/// Why a program wasn't started: a rule keeps it out, or memory was lacking.
#[derive(Clone, Copy, Debug)]
pub enum NotStarted {
    Refused(StartFault),
    NoMemory,
}

/// What may come before the next start: the entry of the program, the reset of its path, those of four that wait, a loss of power.
pub(crate) const ITEMS_BEFORE_NEXT: usize = 7;

fn all_four(first: bool, second: bool, third: bool, fourth: bool) -> bool
    ensures { result ≡ (first && (second && (third && (fourth && true)))) }
{
    first && second && third && fourth
}

impl Past {
    /// Makes room in the journal for all that may come before the next start, and for so many acts.
    fn reserve_items(&mut self, acts: usize) -> Result<(), NoMemory>
        requires acts { acts ≤ 65537 }
        requires keeps { Keeps self.old }
        ensures room { OnOk result (7 ≤ self.new.items.spare) }
        ensures keeps { Keeps self.new }
        ensures items { self.new.items.items ≡ self.old.items.items }
        ensures rest { (self.new.running ≡ self.old.running) × (self.new.kept ≡ self.old.kept) }
        ensures history { history_of self.new ≡ history_of self.old }
        ensures acts { OnOk result (acts ≤ self.new.items.aside) }
        ensures aside { self.old.items.aside ≤ self.new.items.aside }
    {
        self.items.reserve(ITEMS_BEFORE_NEXT, acts)?;
        Ok(())
    }

    /// A program of a path begins, in room that was made. Answers its ordinal.
    fn begin(
        &mut self,
        path: PathNo,
        chain: Chain,
        ends: EndList,
        acts: ActList,
        room: usize,
    ) -> u16
        requires keeps { Keeps self.old }
        requires idle { option_map open_of self.old.running ≡ None }
        requires room { 7 ≤ self.old.items.spare }
        requires few { started_count (history_of self.old) path < 65535 }
        requires ends { ends.items ≡ [] }
        requires acts { (acts.items ≡ []) × (room ≤ acts.spare) }
        ensures ordinal { result ≡ started_count (history_of self.old) path + 1 }
        ensures history { history_of self.new ≡ started (history_of self.old) path (started_count (history_of self.old) path + 1) }
        ensures chain { option_map chain_of self.new.running ≡ Some chain }
        ensures keeps { Keeps self.new }
        ensures room { ActRoom room self.old → ActRoom room self.new }
    {
        let ordinal = count_one_more(&mut self.kept, path);
        self.powered = true;
        self.running = Some(Running {
            path,
            ordinal,
            chain,
            ends,
            acts,
            room,
        });
        ordinal
    }
}

impl<V: Volume> Device<V> {
    /// The program of a path that starts next.
    fn next_program(&self, path: PathNo) -> &Program
        requires { (left (device_of self.now) path == 0) ≡ false }
        ensures value { result.now ≡ next_program (device_of self.now) path }
        ensures few { started_count (history_of self.now.past) path < 65535 }
    {
        let _ = self.plans.len(path);
        let started = usize::from(self.past.started_count(path));
        self.plans.at(path, started)
    }

    /// Whoever holds the device keeps that program out.
    fn keeps_out(&self, path: PathNo) -> bool
        requires { (left (device_of self.now) path == 0) ≡ false }
        ensures { result ≡ keeps_out (device_of self.now) path }
    {
        let ccws = self.next_program(path).ccws();
        !self.paths.is_admitted(path, ccws)
    }

    fn has_none_or_is_out(&self, path: PathNo) -> bool
        ensures { result ≡ has_none_or_is_out (device_of self.now) path }
    {
        if self.left(path) == 0 {
            return true;
        }
        self.keeps_out(path)
    }

    /// No path has a next program that would start.
    fn is_shut(&self) -> bool
        ensures { result ≡ is_shut (device_of self.now) }
    {
        all_four(
            self.has_none_or_is_out(path_at(0)),
            self.has_none_or_is_out(path_at(1)),
            self.has_none_or_is_out(path_at(2)),
            self.has_none_or_is_out(path_at(3)),
        )
    }

    fn reserved_fault(&self) -> Option<StartFault>
        ensures { result ≡ reserved_fault (device_of self.now) (device_of self.now).paths.owner }
    {
        match self.paths.owner() {
            Some(owner) => {
                if self.is_shut() {
                    Some(StartFault::Shut { owner })
                } else {
                    Some(StartFault::Reserved { owner })
                }
            }
            None => None,
        }
    }

    fn idle_fault(&self, path: PathNo) -> Option<StartFault>
        ensures { result ≡ idle_fault (device_of self.now) path }
    {
        if self.left(path) == 0 {
            return Some(StartFault::PlanDone);
        }
        if self.keeps_out(path) {
            return self.reserved_fault();
        }
        None
    }

    /// Why the path's next program doesn't start, the first cause; the path itself runs none.
    #[tactic(auto, unfolding(device_defs::specs::Start::start_fault))]
    pub fn start_fault(&self, path: PathNo) -> Option<StartFault>
        ensures { result ≡ start_fault (device_of self.now) path }
    {
        if let Some(of) = self.store.lent_to() {
            return Some(StartFault::Secondary { of });
        }
        match &self.past.running {
            Some(running) => Some(StartFault::Busy {
                holder: running.path,
            }),
            None => self.idle_fault(path),
        }
    }

    /// No program runs, and the device is lent, or each path has none left, or is kept out.
    pub fn finished(&self) -> bool
        ensures { result ≡ is_finished (device_of self.now) }
    {
        !self.past.is_running() && (self.store.lent_to().is_some() || self.is_shut())
    }

    /// The path's next program starts. Room is made first.
    fn start_next(&mut self, path: PathNo) -> Result<u16, NoMemory>
        requires idle { option_map open_of self.old.past.running ≡ None }
        requires left { (left (device_of self.old) path == 0) ≡ false }
        ensures ordinal { IfOk result (λ n. n ≡ next_ordinal (device_of self.old) path) }
        ensures started { OnOk result (device_of self.new ≡ start (device_of self.old) path) }
        ensures same { OnErr result (device_of self.new ≡ device_of self.old) }
        ensures store { self.new.store ≡ self.old.store }
    {
        let alloc = self.store.alloc;
        let program = self.next_program(path).copy(alloc)?;
        let mut ends = EndList::new(alloc);
        ends.reserve(1)?;
        let room = self.store.loose.count();
        let mut acts = ActList::new(alloc);
        acts.reserve(room)?;
        self.past.reserve_items(room)?;
        let fixed = FixedData::new(
            self.store.geometry,
            self.store.cylinders,
            self.store.data_number,
        );
        self.paths.begin(path, program.ccws());
        let chain = Chain::begin(program, fixed);
        Ok(self.past.begin(path, chain, ends, acts, room))
    }

    /// Starts the path's next planned program, and answers its ordinal. The program is copied into its chain, and room is made for
    /// all that may come before the next start but the ends of further commands; nothing changes before that.
    pub fn start(&mut self, path: PathNo) -> Result<u16, NotStarted>
        requires idle { is_path_of (device_of self.old).history.running path ≡ false }
        ensures fault { start_fault (device_of self.old) path ≡ fault_told result }
        ensures ordinal { IfOk result (λ n. n ≡ next_ordinal (device_of self.old) path) }
        ensures started { OnOk result (device_of self.new ≡ start (device_of self.old) path) }
        ensures same { OnErr result (device_of self.new ≡ device_of self.old) }
        ensures store { HasSameTracks self.old self.new }
        ensures sound { StaysSound self.old self.new }
        ensures plain { StaysPlain self.old self.new }
        ensures excused { StaysExcused self.old self.new }
    {
        let _number = path.get();
        match self.start_fault(path) {
            Some(fault) => return Err(NotStarted::Refused(fault)),
            None => (),
        }
        match self.start_next(path) {
            Ok(ordinal) => Ok(ordinal),
            Err(NoMemory) => Err(NotStarted::NoMemory),
        }
    }
}
