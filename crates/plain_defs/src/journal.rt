ghost use Rattle.std.specs.Prelude.{◌≡◌};
ghost use Rattle.plain_defs.specs.Loose.{next_number};

use ckd_types::{EndList, Growing, PathNo, TrackNo};
use std::marker::Model;

/// How a program ended. `Cut`: a reset or a power loss ended it, and the first `effect` commands took effect.
/// `Checked`: equipment check or data check ended it, and the last command had no effect.
#[derive(Clone, Copy, Debug, PartialEq, Eq)]
pub enum How {
    Full,
    Cut { effect: u16 },
    Checked,
}

/// What happens to the data of cache fast write (own). `Loosen`: from here on the track may go back to what it is now.
/// `Harden`: it can't any more. `CfwLost`: all loose tracks go back, and the device's number is raised.
#[derive(Clone, Copy, Debug, PartialEq, Eq)]
pub enum Act {
    Loosen(TrackNo),
    Harden(TrackNo),
    CfwLost,
}

/// An act while a program ran, behind so many of its ends.
#[derive(Clone, Copy, Debug, PartialEq, Eq)]
pub struct Acted {
    pub after: u16,
    pub act: Act,
}

/// The acts of a program, in their order.
pub type ActList = Growing<Acted>;

/// A program that ran: its path, its ordinal in the path's plan, the ends of its commands and the acts
/// between them. Contracts see no room in it.
#[derive(Debug, Drop)]
pub struct Entry {
    pub path: PathNo,
    pub ordinal: u16,
    pub how: How,
    pub ends: EndList,
    pub acts: ActList,
}

impl Model for Entry {
    ghost use Rattle.plain_defs.specs.Entry.{ProgramEntry};

    ghost Value = { ProgramEntry };

    ghost view = { λ e. record { path = e.path; ordinal = e.ordinal; how = e.how; ends = e.ends.items; acts = e.acts.items } };
}

/// What happened to a device: a program ran, a path was reset, the volume was made empty, an act while no
/// program ran, or the power was lost.
#[derive(Debug, Drop)]
pub enum Item {
    Program(Entry),
    Reset(PathNo),
    Fresh,
    Act(Act),
    Power,
}

/// All that happened to a device, in its kept order.
pub type Journal = Growing<Item>;

/// The number that a device's data of cache fast write have once some are lost (own): from 65,535 it goes to 0.
pub fn next_number(n: u16) -> u16
    ensures { result ≡ next_number n }
{
    if n == u16::MAX { 0 } else { n + 1 }
}
