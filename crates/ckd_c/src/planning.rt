ghost use Rattle.std.specs.Prelude.{◌≡◌, map};
ghost use Rattle.device_defs.specs.Start.{left};
ghost use Rattle.device_core.specs.State.{device_of};
ghost use Rattle.ckd_c.specs.Calls.{AtDevice, Comes, Forgets, Plans, Reads, Tries, TriesTo, ccw_of};

use crate::code::{Code, number_of};
use crate::finding::code_told;
use crate::handle::{CkdSubsystem, put, take};
use crate::opened::Opened;
use crate::words::{CkdCcw, CkdRefusal, program_of};
use ckd_types::PathNo;
use device_core::{NotForgotten, NotPlanned};
use std::alloc::Global;

impl Opened {
    /// Plans the program of these words for a path of a device.
    #[tactic(auto, using(crate::proofs::Refusing::same, crate::proofs::Forgetting::not_planned))]
    fn plan(
        &mut self,
        alloc: Global,
        device: u8,
        path: u8,
        ccws: &[CkdCcw<'_>],
        refusal: &mut CkdRefusal,
    ) -> Result<(), Code>
        ensures { TriesTo (Plans device path (map ccw_of ccws.now)) result self.old self.new }
    {
        let number = self.find(device)?;
        let Some(path) = PathNo::new(path) else {
            return Err(Code::BadPath);
        };
        let program = program_of(alloc, ccws, refusal)?;
        match self.subsystem.plan(number, path, program) {
            Ok(()) => Ok(()),
            Err(NotPlanned::Full) => Err(Code::PlanFull),
            Err(NotPlanned::NoMemory) => Err(Code::NoMemory),
        }
    }

    /// Puts away what happened to a device so far.
    #[tactic(auto, using(crate::proofs::Refusing::same, crate::proofs::Forgetting::not_forgotten))]
    fn forget(&mut self, device: u8) -> Result<(), Code>
        ensures { TriesTo (Forgets device) result self.old self.new }
    {
        let number = self.find(device)?;
        match self.subsystem.forget(number) {
            Ok(()) => Ok(()),
            Err(NotForgotten::Running) => Err(Code::Running),
            Err(NotForgotten::NoMemory) => Err(Code::NoMemory),
        }
    }

    /// Tells how many programs of a path wait to be started.
    #[tactic(auto, using(crate::proofs::Refusing::same))]
    fn tell_left(&self, device: u8, path: u8, programs: &mut u16) -> Result<(), Code>
        ensures { TriesTo (Reads (AtDevice device (λ d. programs.new ≡ left (device_of d) path))) result self.now self.now }
    {
        let number = self.find(device)?;
        let Some(path) = PathNo::new(path) else {
            return Err(Code::BadPath);
        };
        *programs = self.subsystem.device(number).left(path);
        Ok(())
    }
}

/// Plans a program of these words for a path of a device, from 1 to 4, behind those that it has. The words and their bytes are copied.
#[unsafe(no_mangle)]
pub extern "C" fn ckd_c_plan(
    alloc: Global,
    subsystem: &mut CkdSubsystem,
    device: u8,
    path: u8,
    ccws: &[CkdCcw<'_>],
    refusal: &mut CkdRefusal,
) -> u32
    ensures { Comes (Tries (Plans device path (map ccw_of ccws.now))) subsystem.old.place.value subsystem.new.place.value result }
{
    let Some(mut opened) = take(subsystem, alloc) else {
        return number_of(Code::Closed);
    };
    let code = code_told(opened.plan(alloc, device, path, ccws, refusal));
    put(subsystem, opened);
    number_of(code)
}

/// Tells how many programs of a path wait to be started.
#[unsafe(no_mangle)]
pub extern "C" fn ckd_c_left(
    alloc: Global,
    subsystem: &mut CkdSubsystem,
    device: u8,
    path: u8,
    programs: &mut u16,
) -> u32
    ensures { Comes (Tries (Reads (AtDevice device (λ d. programs.new ≡ left (device_of d) path)))) subsystem.old.place.value subsystem.new.place.value result }
{
    let Some(opened) = take(subsystem, alloc) else {
        return number_of(Code::Closed);
    };
    let code = code_told(opened.tell_left(device, path, programs));
    put(subsystem, opened);
    number_of(code)
}

/// Puts away what happened to a device so far, while no program runs on it.
#[unsafe(no_mangle)]
pub extern "C" fn ckd_c_forget(alloc: Global, subsystem: &mut CkdSubsystem, device: u8) -> u32
    ensures { Comes (Tries (Forgets device)) subsystem.old.place.value subsystem.new.place.value result }
{
    let Some(mut opened) = take(subsystem, alloc) else {
        return number_of(Code::Closed);
    };
    let code = code_told(opened.forget(device));
    put(subsystem, opened);
    number_of(code)
}
