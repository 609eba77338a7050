ghost use Rattle.std.specs.Prelude.{◌≡◌, ◌<◌, ◌++◌, ◌∷◌, [], IfOk, OnOk, OnErr, length, slice_index_or};
ghost use Rattle.deck_text.specs.Places.{planned_as};
ghost use Rattle.deck_text.specs.Plans.{plans_of, HasPlans};

use crate::PlannedProgram;
use ckd_ccw::Program;
use ckd_types::{DeviceNo, NoMemory, PathNo};
use deck_plan::PathPlans;
use std::alloc::Global;
use std::marker::Model;

const DEVICES: usize = 16;

/// Which of a device's programs on a path one is, from 0 on.
#[derive(Clone, Copy, Debug)]
struct ProgramPlace {
    path: PathNo,
    device: DeviceNo,
    index: usize,
}

/// The programs of a deck: each device's by path, and the places of all in the deck's order.
#[derive(Debug, Drop)]
pub struct Planned {
    places: Vec<ProgramPlace>,
    plans: Vec<PathPlans>,
}

impl Model for Planned {
    ghost use Rattle.std.specs.Prelude.{List, map};
    ghost use Rattle.deck_text.specs.declared.line.PlannedProgram.{PlannedProgram};
    ghost use Rattle.deck_text.specs.Places.{IsPlanned, planned_at};

    ghost Value = { List PlannedProgram };

    ghost view = { λ p. map (planned_at p.plans.items) p.places.items };

    ghost invariant = { λ p. IsPlanned p.places.items p.plans.items };
}

fn empty_plans(alloc: Global) -> Result<Vec<PathPlans>, NoMemory>
    ensures { IfOk result (λ plans. HasPlans [] plans.items) }
{
    let mut plans = Vec::with_capacity(alloc, DEVICES)?;
    for _device in 0..DEVICES {
        plans.push(PathPlans::new(alloc))?;
    }
    Ok(plans)
}

impl Planned {
    /// No programs.
    pub fn new(alloc: Global) -> Result<Planned, NoMemory>
        ensures { IfOk result (λ planned. planned ≡ []) }
    {
        Ok(Planned {
            places: Vec::new(alloc),
            plans: empty_plans(alloc)?,
        })
    }

    /// Adds a program behind the others.
    pub fn push(&mut self, planned: PlannedProgram) -> Result<(), NoMemory>
        requires { length self.old < 512 }
        ensures ok { OnOk result (self.new ≡ self.old ++ planned ∷ []) }
        ensures err { OnErr result (self.new ≡ self.old) }
    {
        let PlannedProgram {
            path,
            device,
            program,
        } = planned;
        self.places.reserve(1)?;
        let plans = &mut self.plans[usize::from(device.get())];
        let index = plans.len(path);
        plans.push(path, program)?;
        self.places.push_reserved(ProgramPlace {
            path,
            device,
            index,
        });
        Ok(())
    }

    /// How many programs there are.
    pub fn len(&self) -> usize
        ensures { result ≡ length self.now }
    {
        self.places.len()
    }

    /// A program, from 0 on in the deck's order, with its path and its device.
    pub fn at(&self, i: usize) -> (PathNo, DeviceNo, &Program)
        requires { i < length self.now }
        ensures { planned_as result.0 result.1 result.2.now ≡ slice_index_or self.now i (planned_as result.0 result.1 result.2.now) }
    {
        let place = self.places[i];
        let plans = &self.plans[usize::from(place.device.get())];
        (place.path, place.device, plans.at(place.path, place.index))
    }

    /// A device's programs by path, in the deck's order.
    pub fn plans(&self, device: DeviceNo) -> &PathPlans
        ensures { result.now ≡ plans_of self.now device }
    {
        &self.plans[usize::from(device.get())]
    }
}
