ghost use Rattle.std.specs.Prelude.{◌≡◌, ◌==◌, ◌&&◌, ◌≤◌, ◌+◌, ◌-◌, ◌++◌, [], IfOk, IfSome, None, OnErr, OnOk, is_some, length, map, option_map, slice_set, ℕ};
ghost use Rattle.deck_plan.specs.Plans.{plan_of};
ghost use Rattle.past_laws.specs.Forgotten.{forgotten, left_of, plans_left, stub, stub_by, stubs_of};
ghost use Rattle.device_core.specs.Forgetting.{any_started, one_kept, refused_told};
ghost use Rattle.device_core.specs.Kept.{ActRoom, Keeps, history_of, open_of};
ghost use Rattle.device_core.specs.Promises.{ForgetsNothing};
ghost use Rattle.device_core.specs.State.{device_of};

use crate::history::{KeptPath, Past};
use crate::resets::path_at;
use crate::{Device, Log};
use ckd_types::{EndList, NoMemory, PathNo};
use deck_plan::PathPlans;
use device_outside::Volume;
use plain_defs::{ActList, Entry, How, Item};
use std::alloc::Global;

/// Why a device forgot nothing: a program runs, or memory was lacking.
#[derive(Clone, Copy, Debug)]
pub enum NotForgotten {
    Running,
    NoMemory,
}

/// The stubs of four paths and of a loss of power, and what may come before the next start.
const ITEMS_FORGOTTEN: usize = 14;

/// The first program of a path, without its ends.
fn stub(alloc: Global, path: PathNo) -> Item
    ensures { result ≡ stub path }
{
    Item::Program(Entry {
        path,
        ordinal: 1,
        how: How::Full,
        ends: EndList::new(alloc),
        acts: ActList::new(alloc),
    })
}

/// Adds what tells of a path whether it started any program, and whether it used something since its last reset.
fn push_stub(alloc: Global, items: &mut Log, kept: &KeptPath, path: PathNo)
    requires { 2 ≤ items.old.spare }
    ensures items { items.new.items ≡ items.old.items ++ stub_by (kept.now.started == 0) kept.now.used path }
    ensures spare { items.old.spare ≤ items.new.spare + 2 }
    ensures aside { items.new.aside ≡ items.old.aside }
{
    if kept.started == 0 {
        return;
    }
    items.push(stub(alloc, path));
    if kept.used {
        return;
    }
    items.push(Item::Reset(path));
}

/// Of each path's programs one is kept, where it started any.
fn keep_one_each(kept: &mut [KeptPath; 4])
    ensures { kept.new ≡ map one_kept kept.old }
{
    for path in kept.iter_mut() {
        *path = KeptPath {
            started: path.started.min(1),
            used: path.used,
            waits: path.waits,
        };
    }
}

impl Past {
    /// What is kept in the place of all that happened, with room for what may come before the next start.
    fn stubs(&self, alloc: Global) -> Result<Log, NoMemory>
        requires keeps { Keeps self.now }
        requires idle { option_map open_of self.now.running ≡ None }
        ensures items { IfOk result (λ made. made.items ≡ stubs_of (history_of self.now)) }
        ensures spare { IfOk result (λ made. 5 ≤ made.spare) }
        ensures aside { IfOk result (λ made. self.now.items.aside ≤ made.aside) }
    {
        let mut items = Log::new(alloc);
        items.reserve(ITEMS_FORGOTTEN, self.items.aside())?;
        push_stub(alloc, &mut items, &self.kept[0], path_at(0));
        push_stub(alloc, &mut items, &self.kept[1], path_at(1));
        push_stub(alloc, &mut items, &self.kept[2], path_at(2));
        push_stub(alloc, &mut items, &self.kept[3], path_at(3));
        if !self.powered {
            items.push(Item::Power);
        }
        Ok(items)
    }

    /// A program was started since the power came, and some path started one.
    fn ran(&self) -> bool
        ensures { result ≡ (self.now.powered && any_started self.now.kept) }
    {
        if !self.powered {
            return false;
        }
        let [first, second, third, fourth] = &self.kept;
        first.started != 0 || second.started != 0 || third.started != 0 || fourth.started != 0
    }

    /// These items stand for all that happened.
    fn forget(&mut self, items: Log)
        requires keeps { Keeps self.old }
        requires idle { option_map open_of self.old.running ≡ None }
        requires items { items.items ≡ stubs_of (history_of self.old) }
        requires spare { 5 ≤ items.spare }
        requires aside { self.old.items.aside ≤ items.aside }
        ensures history { history_of self.new ≡ record (history_of self.old) { items = stubs_of (history_of self.old) } }
        ensures keeps { Keeps self.new }
        ensures running { self.new.running ≡ self.old.running }
        ensures room { (n : ℕ) → ActRoom n self.old → ActRoom n self.new }
    {
        self.powered = self.ran();
        keep_one_each(&mut self.kept);
        self.items = items;
        self.last = 0;
    }
}

impl<V: Volume> Device<V> {
    /// Adds of a path the last program that it started, and those that wait.
    fn push_left(&self, alloc: Global, plans: &mut PathPlans, path: PathNo) -> Result<(), NoMemory>
        requires four { length plans.old ≡ 4 }
        requires none { plan_of plans.old path ≡ [] }
        ensures { OnOk result (plans.new ≡ slice_set plans.old (path - 1) (left_of (device_of self.now).history (device_of self.now).plans path)) }
    {
        let first = usize::from(self.past.started_count(path).saturating_sub(1));
        for i in first..self.plans.len(path) {
            plans.push(path, self.plans.at(path, i).copy(alloc)?)?;
        }
        Ok(())
    }

    /// Of each path the last program that it started, and those that wait.
    fn plans_left(&self, alloc: Global) -> Result<PathPlans, NoMemory>
        ensures { IfOk result (λ made. made ≡ plans_left (device_of self.now).history (device_of self.now).plans) }
    {
        let mut plans = PathPlans::new(alloc);
        self.push_left(alloc, &mut plans, path_at(0))?;
        self.push_left(alloc, &mut plans, path_at(1))?;
        self.push_left(alloc, &mut plans, path_at(2))?;
        self.push_left(alloc, &mut plans, path_at(3))?;
        Ok(plans)
    }

    fn forget_past(&mut self) -> Result<(), NoMemory>
        requires { option_map open_of self.old.past.running ≡ None }
        ensures device { OnOk result (device_of self.new ≡ forgotten (device_of self.old)) }
        ensures same { OnErr result (device_of self.new ≡ device_of self.old) }
        ensures store { self.new.store ≡ self.old.store }
    {
        let alloc = self.store.alloc;
        let plans = self.plans_left(alloc)?;
        let items = self.past.stubs(alloc)?;
        self.plans = plans;
        self.past.forget(items);
        Ok(())
    }

    /// Puts away what happened so far, while no program runs: the journal and the programs that were started are gone but for a stub
    /// of each path that started any, and nothing else changes. So a device that forgets now and then runs as many programs as
    /// it is given in the memory of a few; counts of started programs and the end of the last command begin anew. With what was put away
    /// it is the device that it was, so that all that was promised of it holds on. Own.
    pub fn forget(&mut self) -> Result<(), NotForgotten>
        ensures refused { is_some (device_of self.old).history.running ≡ refused_told result }
        ensures device { OnOk result (device_of self.new ≡ forgotten (device_of self.old)) }
        ensures same { OnErr result (device_of self.new ≡ device_of self.old) }
        ensures store { self.new.store ≡ self.old.store }
        ensures forgets { OnOk result (ForgetsNothing self.old self.new) }
    {
        if self.past.is_running() {
            return Err(NotForgotten::Running);
        }
        match self.forget_past() {
            Ok(()) => Ok(()),
            Err(NoMemory) => Err(NotForgotten::NoMemory),
        }
    }
}
