ghost use Rattle.std.specs.Prelude.{◌≡◌, ◌-◌, MatchResult, None, OnErr, OnOk, Some, replicate, slice_set};
ghost use Rattle.ckd_types.specs.declared.paths.PathState.TheVariants.{Reset};
ghost use Rattle.ckd_rules.specs.Grouping.{owner_by};
ghost use Rattle.ckd_rules.specs.Grouping.{group_fault, paths_set, state_byte, state_in};

use ckd_rules::{GroupFault, group_fault, owner_by, set_paths, state_byte};
use ckd_types::{GroupId, Owner, PathNo, PathState};
use std::marker::Model;

/// What a device keeps of the groups of its four paths. Contracts see the list of their states.
#[derive(Clone, Copy, Debug)]
pub struct Groups {
    paths: [PathState; 4],
}

impl Model for Groups {
    ghost use Rattle.std.specs.Prelude.{List};
    ghost use Rattle.ckd_types.specs.declared.paths.PathState.{PathState};

    ghost Value = { List PathState };

    ghost view = { λ g. g.paths };

    ghost inverse = { λ paths. record { paths = paths } };
}

impl Groups {
    /// The paths of a device that none has used: each is reset.
    pub fn new() -> Groups
        ensures { result ≡ replicate 4 Reset }
    {
        Groups {
            paths: [PathState::Reset; 4],
        }
    }

    /// The states of the four paths.
    pub fn paths(&self) -> &[PathState; 4]
        ensures { result.now ≡ self.now }
    {
        &self.paths
    }

    fn state(&self, path: PathNo) -> PathState
        ensures { result ≡ state_in self.now path }
    {
        self.paths[usize::from(path.get() - 1)]
    }

    /// Set path group ID: establishes, resigns or disbands a group. Nothing changes at a fault.
    pub fn set(&mut self, path: PathNo, function: u8, id: GroupId) -> Result<(), GroupFault>
        ensures fault { MatchResult result (λ done. group_fault function id (state_in self.old path) ≡ None)
            (λ fault. group_fault function id (state_in self.old path) ≡ Some fault) }
        ensures set { OnOk result (self.new ≡ paths_set self.old path function id) }
        ensures same { OnErr result (self.new ≡ self.old) }
    {
        if let Some(fault) = group_fault(function, id, self.state(path)) {
            return Err(fault);
        }
        set_paths(&mut self.paths, path, function, id);
        Ok(())
    }

    /// The state byte of sense path group ID, where this owner holds the device.
    pub fn state_byte(&self, path: PathNo, owner: Option<Owner>) -> u8
        ensures { result ≡ state_byte (state_in self.now path) path owner }
    {
        state_byte(self.state(path), path, owner)
    }

    /// Whom a path stands for: its group where it is in one, else itself.
    pub fn owner_of(&self, path: PathNo) -> Owner
        ensures { result ≡ owner_by (state_in self.now path) path }
    {
        owner_by(self.state(path), path)
    }

    /// A reset of a path.
    pub fn reset(&mut self, path: PathNo)
        ensures { self.new ≡ slice_set self.old (path - 1) Reset }
    {
        self.paths[usize::from(path.get() - 1)] = PathState::Reset;
    }
}
