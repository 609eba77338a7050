ghost use Rattle.std.specs.Prelude.{◌≡◌, IfOk};
ghost use Rattle.ckd_c.specs.Calls.{IsEmpty, Opens};

use crate::code::{Code, number_of};
use crate::handle::{CkdSubsystem, put, take};
use crate::opened::Opened;
use ckd_types::NoMemory;
use frame_pool::Pool;
use std::alloc::Global;
use subsystem_core::Subsystem;

/// A subsystem without devices.
fn open(alloc: Global, frames: u16, slots: u16) -> Result<Box<Opened>, Code>
    ensures { IfOk result (λ b. IsEmpty frames slots b.value) }
{
    let pool = match Pool::new(alloc, frames, slots) {
        Ok(pool) => pool,
        Err(NoMemory) => return Err(Code::NoMemory),
    };
    let subsystem = match Subsystem::new(pool, Vec::new(alloc)) {
        Ok(subsystem) => subsystem,
        Err(NoMemory) => return Err(Code::NoMemory),
    };
    let files = Vec::new(alloc);
    let opened = Box::new(alloc, Opened { subsystem, files })?;
    Ok(opened)
}

/// Opens a subsystem without devices, with so many frames of cache and slots of nonvolatile store, which its devices share.
#[unsafe(no_mangle)]
pub extern "C" fn ckd_c_open(
    alloc: Global,
    subsystem: &mut CkdSubsystem,
    frames: u16,
    slots: u16,
) -> u32
    ensures { Opens (IsEmpty frames slots) subsystem.old.place.value subsystem.new.place.value result }
{
    if let Some(opened) = take(subsystem, alloc) {
        put(subsystem, opened);
        return number_of(Code::Open);
    }
    match open(alloc, frames, slots) {
        Ok(opened) => {
            put(subsystem, opened);
            number_of(Code::Done)
        }
        Err(code) => number_of(code),
    }
}
