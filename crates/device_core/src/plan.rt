ghost use Rattle.std.specs.Prelude.{◌≡◌, ◌<◌, OnErr, OnOk, false, length};
ghost use Rattle.plain_defs.specs.Journal.{planned};
ghost use Rattle.subsystem_laws.specs.Planning.{with_planned};
ghost use Rattle.device_core.specs.Planning.{full_told, is_full};
ghost use Rattle.device_core.specs.Promises.{StaysExcused, StaysLent, StaysPlain, StaysSound};
ghost use Rattle.device_core.specs.State.{device_of};

use crate::Device;
use crate::giving::program_gives;
use ckd_ccw::Program;
use ckd_types::{NoMemory, PathNo};
use device_outside::Volume;

/// Why a program wasn't planned: its path has 65,535 already, those that were started with them, or memory was lacking.
#[derive(Clone, Copy, Debug)]
pub enum NotPlanned {
    Full,
    NoMemory,
}

impl<V: Volume> Device<V> {
    /// No program is planned for a path any more.
    fn is_full(&self, path: PathNo) -> bool
        ensures value { result ≡ is_full (device_of self.now) path }
        ensures room { result ≡ false → length (planned (device_of self.now).plans path) < 65535 }
    {
        self.plans.len(path) == usize::from(u16::MAX)
    }

    /// A path has a program more, behind those that it has.
    fn plan_next(&mut self, path: PathNo, program: Program) -> Result<(), NoMemory>
        requires room { length (planned (device_of self.old).plans path) < 65535 }
        ensures device { OnOk result (device_of self.new ≡ with_planned (device_of self.old) path program) }
        ensures same { OnErr result (device_of self.new ≡ device_of self.old) }
        ensures store { self.new.store ≡ self.old.store }
    {
        self.plans.push(path, program)?;
        Ok(())
    }

    /// Plans a program for a path, also while one runs or the device is lent: it starts behind those that wait there. How many
    /// wait, `left` tells. A program that isn't planned is gone.
    pub fn plan(&mut self, path: PathNo, program: Program) -> Result<(), NotPlanned>
        ensures full { is_full (device_of self.old) path ≡ full_told result }
        ensures device { OnOk result (device_of self.new ≡ with_planned (device_of self.old) path program) }
        ensures same { OnErr result (device_of self.new ≡ device_of self.old) }
        ensures store { self.new.store ≡ self.old.store }
        ensures sound { StaysSound self.old self.new }
        ensures plain { StaysPlain self.old self.new }
        ensures excused { StaysExcused self.old self.new }
        ensures lent { StaysLent self.old self.new }
    {
        if self.is_full(path) {
            return Err(NotPlanned::Full);
        }
        program_gives(&program);
        match self.plan_next(path, program) {
            Ok(()) => Ok(()),
            Err(NoMemory) => Err(NotPlanned::NoMemory),
        }
    }
}
