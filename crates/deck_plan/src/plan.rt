ghost use Rattle.std.specs.Prelude.{◌≡◌, ◌<◌, ◌≤◌, ◌++◌, ◌∷◌, [], IfOk, OnOk, OnErr, length, slice_index_or};
ghost use Rattle.deck_plan.specs.Plans.{no_plans, plan_of, with_program};

use ckd_ccw::Program;
use ckd_types::{NoMemory, PathNo};
use std::alloc::Global;
use std::marker::Model;

/// The programs that wait on each of a device's four paths, in the order in which they are started.
#[derive(Debug, Drop)]
pub struct PathPlans {
    first: Vec<Program>,
    second: Vec<Program>,
    third: Vec<Program>,
    fourth: Vec<Program>,
}

impl Model for PathPlans {
    ghost use Rattle.std.specs.Prelude.{◌≤◌, [], ◌∷◌, length};
    ghost use Rattle.deck_plan.specs.Plans.{PlansByPath};

    ghost Value = { PlansByPath };

    ghost view = { λ p. p.first.items ∷ p.second.items ∷ p.third.items ∷ p.fourth.items ∷ [] };

    ghost invariant = { λ p. (length p.first.items ≤ 65535) × (length p.second.items ≤ 65535) × (length p.third.items ≤ 65535) ×
        (length p.fourth.items ≤ 65535) };
}

impl PathPlans {
    /// No programs. Takes no memory.
    pub fn new(alloc: Global) -> PathPlans
        ensures { result ≡ no_plans }
    {
        PathPlans {
            first: Vec::new(alloc),
            second: Vec::new(alloc),
            third: Vec::new(alloc),
            fourth: Vec::new(alloc),
        }
    }

    /// Adds a program to a path's, behind those that are there.
    pub fn push(&mut self, path: PathNo, program: Program) -> Result<(), NoMemory>
        requires { length (plan_of self.old path) < 65535 }
        ensures ok { OnOk result (self.new ≡ with_program self.old path program) }
        ensures behind { OnOk result (plan_of self.new path ≡ plan_of self.old path ++ program ∷ []) }
        ensures err { OnErr result (self.new ≡ self.old) }
    {
        match path.get() {
            1 => self.first.push(program)?,
            2 => self.second.push(program)?,
            3 => self.third.push(program)?,
            _ => self.fourth.push(program)?,
        }
        Ok(())
    }

    fn plan(&self, path: PathNo) -> &[Program]
        ensures value { result.now ≡ plan_of self.now path }
        ensures most { length result.now ≤ 65535 }
    {
        match path.get() {
            1 => &self.first,
            2 => &self.second,
            3 => &self.third,
            _ => &self.fourth,
        }
    }

    /// How many programs a path has.
    pub fn len(&self, path: PathNo) -> usize
        ensures value { result ≡ length (plan_of self.now path) }
        ensures most { result ≤ 65535 }
    {
        self.plan(path).len()
    }

    /// Program `i` of a path, from 0 on; in reports its ordinal is one more.
    pub fn at(&self, path: PathNo, i: usize) -> &Program
        requires { i < length (plan_of self.now path) }
        ensures { result.now ≡ slice_index_or (plan_of self.now path) i [] }
    {
        &self.plan(path)[i]
    }

    /// Equal plans.
    pub fn copy(&self, alloc: Global) -> Result<PathPlans, NoMemory>
        ensures { IfOk result (λ plans. plans ≡ self.now) }
    {
        Ok(PathPlans {
            first: copy_programs(alloc, &self.first)?,
            second: copy_programs(alloc, &self.second)?,
            third: copy_programs(alloc, &self.third)?,
            fourth: copy_programs(alloc, &self.fourth)?,
        })
    }
}

fn copy_programs(alloc: Global, programs: &[Program]) -> Result<Vec<Program>, NoMemory>
    ensures { IfOk result (λ copied. copied.items ≡ programs.now) }
{
    let mut copied = Vec::with_capacity(alloc, programs.len())?;
    for program in programs {
        copied.push(program.copy(alloc)?)?;
    }
    Ok(copied)
}
