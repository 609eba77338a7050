ghost use Rattle.std.specs.Prelude.{◌≡◌, ◌*◌, [], List, false, is_none, All, IfOk, OnErr, OnOk};
ghost use Rattle.ckd_types.specs.declared.channel.Ccw.{Ccw};
ghost use Rattle.plain_defs.specs.Ends.{LastIsOver};
ghost use Rattle.plain_defs.specs.Program.{Part, one_more, part_of, whole_run};
ghost use Rattle.plain_device.specs.Between.{IsBetween};
ghost use Rattle.plain_device.specs.Parts.{IsAtPart};
ghost use Rattle.plain_device.specs.Volume.{IsActOn};

use crate::PlainDevice;
use ckd_ccw::Program;
use ckd_chain::Chain;
use ckd_types::{EndList, NoMemory, PathNo};
use plain_defs::Acted;
use std::alloc::Global;

impl PlainDevice {
    /// Runs a program on a path from its beginning to its end. It runs over a copy of the device, so
    /// that want of memory changes nothing.
    pub fn run(
        &mut self,
        alloc: Global,
        path: PathNo,
        program: &Program,
    ) -> Result<EndList, NoMemory>
        ensures ends { IfOk result (λ ends. ends.items ≡ (whole_run self.old path program.now []).ends) }
        ensures after { OnOk result (self.new ≡ (whole_run self.old path program.now []).state) }
        ensures over { IfOk result (λ ends. LastIsOver ends.items) }
        ensures err { OnErr result (self.new ≡ self.old) }
    {
        let mut device = self.copy(alloc)?;
        device.begin(path, program.ccws());
        let mut chain = Chain::begin(program.copy(alloc)?, device.fixed());
        let mut ends = EndList::new(alloc);
        while !chain.over() {
            chain.stands();
            let end = device.command(alloc, path, &mut chain)?;
            chain.stands();
            ends.reserve(1)?;
            ends.push(end);
        }
        *self = device;
        Ok(ends)
    }

    /// One command more of a program, and the acts behind it while it runs; nothing where it is over.
    fn one_more(
        &mut self,
        alloc: Global,
        path: PathNo,
        chain: &mut Chain,
        acts: &[Acted],
        ends: &mut EndList,
    ) -> Result<(), NoMemory>
        requires between { is_none chain.old.at.next ≡ false → IsBetween self.old chain.old }
        requires on { All (λ a. IsActOn (self.old.cylinders * 15) a.act) acts.now }
        ensures more { OnOk result ((p : Part) (ccws : List Ccw) → IsAtPart p ccws self.old chain.old ends.old.items →
            IsAtPart (one_more path ccws acts.now p) ccws self.new chain.new ends.new.items) }
        ensures same { OnOk result (self.new.cylinders ≡ self.old.cylinders) }
    {
        if chain.over() {
            return Ok(());
        }
        let end = self.command(alloc, path, chain)?;
        ends.reserve(1)?;
        ends.push(end);
        if !chain.over() {
            self.act_behind(alloc, acts, ends.len())?;
        }
        Ok(())
    }

    /// Runs the first commands of a program on a path, with the acts between them: an act stands behind the
    /// ends of so many commands, in the list's order. It runs over a copy of the device, so that want of
    /// memory changes nothing.
    pub fn run_part(
        &mut self,
        alloc: Global,
        path: PathNo,
        program: &Program,
        acts: &[Acted],
        commands: usize,
    ) -> Result<EndList, NoMemory>
        requires on { All (λ a. IsActOn (self.old.cylinders * 15) a.act) acts.now }
        ensures ends { IfOk result (λ ends. ends.items ≡ (part_of self.old path program.now acts.now commands).ends) }
        ensures after { OnOk result (self.new ≡ (part_of self.old path program.now acts.now commands).state) }
        ensures err { OnErr result (self.new ≡ self.old) }
    {
        let mut device = self.copy(alloc)?;
        device.begin(path, program.ccws());
        let mut chain = Chain::begin(program.copy(alloc)?, device.fixed());
        let mut ends = EndList::new(alloc);
        device.act_behind(alloc, acts, 0)?;
        for _command in 0..commands {
            device.one_more(alloc, path, &mut chain, acts, &mut ends)?;
        }
        *self = device;
        Ok(ends)
    }
}
