ghost use Rattle.std.specs.Prelude.{◌≡◌, None, Some, Option, MatchOption, is_some};

use crate::loose::Loose;
use crate::opened::Opened;
use crate::owned::OwnedPlace;
use std::alloc::Global;
use std::mem::replace;

/// The subsystem of a caller, or none. It is the caller's memory, and nobody else's.
#[repr(C)]
#[derive(Drop)]
pub struct CkdSubsystem {
    is_open: bool,
    place: OwnedPlace,
    ghost told: { is_open ≡ is_some place.value },
}

impl CkdSubsystem {
    /// None, as all zeros are.
    pub(crate) fn closed(alloc: Global) -> CkdSubsystem
        ensures { result.place.value ≡ None }
    {
        CkdSubsystem {
            is_open: false,
            place: OwnedPlace::none(alloc),
        }
    }
}

/// Takes the subsystem out, and leaves none.
pub(crate) fn take(subsystem: &mut CkdSubsystem, alloc: Global) -> Option<Box<Opened>>
    ensures value { MatchOption result (subsystem.old.place.value ≡ None) (λ b. subsystem.old.place.value ≡ Some b.value) }
    ensures empty { subsystem.new.place.value ≡ None }
{
    let CkdSubsystem { is_open, place } = replace(subsystem, CkdSubsystem::closed(alloc));
    if is_open {
        Some(place.into_loose().into_box())
    } else {
        None
    }
}

/// Puts a subsystem in.
pub(crate) fn put(subsystem: &mut CkdSubsystem, opened: Box<Opened>)
    ensures { subsystem.new.place.value ≡ Some opened.value }
{
    *subsystem = CkdSubsystem {
        is_open: true,
        place: OwnedPlace::of(Loose::of(opened)),
    };
}
