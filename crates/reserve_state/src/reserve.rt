ghost use Rattle.std.specs.Prelude.{◌≡◌, None, Some};
ghost use Rattle.ckd_rules.specs.Grouping.{owner_after};
ghost use Rattle.ckd_rules.specs.Grouping.{owner_set};

use ckd_rules::{owner_after, owner_set};
use ckd_types::{GroupId, Owner, PathNo, PathState};
use std::marker::Model;

/// The reservation of a device. Contracts see who holds it, if anyone does.
#[derive(Clone, Copy, Debug)]
pub struct Reserve {
    owner: Option<Owner>,
}

impl Model for Reserve {
    ghost use Rattle.std.specs.Prelude.{Option};
    ghost use Rattle.ckd_types.specs.declared.paths.Owner.{Owner};

    ghost Value = { Option Owner };

    ghost view = { λ r. r.owner };

    ghost inverse = { λ owner. record { owner = owner } };
}

impl Reserve {
    /// A device that nobody holds.
    pub fn new() -> Reserve
        ensures { result ≡ None }
    {
        Reserve { owner: None }
    }

    /// Who holds the device.
    pub fn owner(&self) -> Option<Owner>
        ensures { result ≡ self.now }
    {
        self.owner
    }

    /// Releases the device.
    pub fn free(&mut self)
        ensures { self.new ≡ None }
    {
        self.owner = None;
    }

    /// This owner holds the device from now on, whoever held it.
    pub fn hold(&mut self, by: Owner)
        ensures { self.new ≡ Some by }
    {
        self.owner = Some(by);
    }

    /// A path was reset, which left the paths in these states.
    pub fn path_reset(&mut self, paths: &[PathState], path: PathNo)
        ensures { self.new ≡ owner_after paths.now path self.old }
    {
        self.owner = owner_after(paths, path, self.owner);
    }

    /// A path set a path group ID, which left the paths in these states.
    pub fn group_set(&mut self, paths: &[PathState], path: PathNo, function: u8, id: GroupId)
        ensures { self.new ≡ owner_set paths.now path function id self.old }
    {
        self.owner = owner_set(paths, path, function, id, self.owner);
    }
}
