ghost use Rattle.std.specs.Prelude.{◌≡◌, true, None, Some, Option, is_some};
ghost use Rattle.std.specs.Coded.{coded_option};
ghost use Rattle.ckd_c.specs.contracts.opened.Opened.{the_row};
ghost use Rattle.ckd_c.specs.declared.opened.Opened.{Opened};

use crate::loose::Loose;
use crate::opened::Opened;
use std::alloc::Global;
use std::marker::Model;
use std::ptr::null_mut;

/// The place of a box that is owned, or none.
#[repr(C)]
#[derive(Drop)]
pub struct OwnedPlace {
    at: *mut u8,
    alloc: Global,
    pub(crate) ghost value: { Option Opened } by { coded_option the_row.coded },
}

impl Model for OwnedPlace {
    ghost use Rattle.std.specs.Prelude.{Option};
    ghost use Rattle.ckd_c.specs.declared.opened.Opened.{Opened};
    ghost use Rattle.ckd_c.specs.contracts.opened.Opened.{the_row};
    ghost use Rattle.ckd_c.specs.Held.{held};

    ghost also_owns = { λ h. held h.alloc the_row h.at h.value };
}

impl OwnedPlace {
    pub(crate) fn of(loose: Loose<Opened, Global>) -> OwnedPlace
        ensures { result.value ≡ Some loose.value }
    {
        let Loose { at, alloc } = loose;
        OwnedPlace {
            at: at as *mut u8,
            alloc,
        }
    }

    pub(crate) fn none(alloc: Global) -> OwnedPlace
        ensures { result.value ≡ None }
    {
        OwnedPlace {
            at: null_mut(),
            alloc,
        }
    }

    pub(crate) fn into_loose(self) -> Loose<Opened, Global>
        requires { is_some self.value ≡ true }
        ensures { self.value ≡ Some result.value }
    {
        let OwnedPlace { at, alloc } = self;
        Loose {
            at: at as *mut Opened,
            alloc,
        }
    }
}
