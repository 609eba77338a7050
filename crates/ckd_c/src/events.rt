ghost use Rattle.std.specs.Prelude.{◌≡◌, ℕ, List, true};
ghost use Rattle.subsystem_core.specs.Places.{may_come};
ghost use Rattle.ckd_c.specs.Calls.{Asks, AsksOnSide, Comes, EventCame, Runs, Silent, TellsDid, TellsOrdinal};

use crate::code::{Code, number_of};
use crate::handle::{CkdSubsystem, put, take};
use std::alloc::Global;
use subsystem_defs::Event;

/// Starts the next program of a path of a device, and tells which of the path's programs that is, from 1 on.
#[unsafe(no_mangle)]
pub extern "C" fn ckd_c_start(
    alloc: Global,
    subsystem: &mut CkdSubsystem,
    device: u8,
    path: u8,
    ordinal: &mut u16,
) -> u32
    ensures { Comes (Asks (Event.Start path device) (TellsOrdinal ordinal.new)) subsystem.old.place.value subsystem.new.place.value result }
{
    let Some(mut opened) = take(subsystem, alloc) else {
        return number_of(Code::Closed);
    };
    let code = opened.start(device, path, ordinal);
    put(subsystem, opened);
    number_of(code)
}

/// One command of the program that runs on a device, or a part of its write. `CKD_IDLE`: none runs.
#[unsafe(no_mangle)]
pub extern "C" fn ckd_c_step(alloc: Global, subsystem: &mut CkdSubsystem, device: u8) -> u32
    ensures { Comes (Asks (Event.Step device) Silent) subsystem.old.place.value subsystem.new.place.value result }
{
    let Some(mut opened) = take(subsystem, alloc) else {
        return number_of(Code::Closed);
    };
    let code = opened.step(device);
    put(subsystem, opened);
    number_of(code)
}

/// Goes on with the program that runs on a device until it is over, for at most so many steps. `CKD_RUNNING`: it isn't over.
#[unsafe(no_mangle)]
pub extern "C" fn ckd_c_run(
    alloc: Global,
    subsystem: &mut CkdSubsystem,
    device: u8,
    most: u32,
) -> u32
    ensures { Comes (Runs device) subsystem.old.place.value subsystem.new.place.value result }
{
    let Some(mut opened) = take(subsystem, alloc) else {
        return number_of(Code::Closed);
    };
    let code = opened.run(device, most);
    put(subsystem, opened);
    number_of(code)
}

/// One piece of work of a device in the background: a track is recovered, copied, staged or destaged. Tells what was done.
#[unsafe(no_mangle)]
pub extern "C" fn ckd_c_background(
    alloc: Global,
    subsystem: &mut CkdSubsystem,
    device: u8,
    did: &mut u32,
) -> u32
    ensures { Comes (Asks (Event.Back device) (TellsDid did.new)) subsystem.old.place.value subsystem.new.place.value result }
{
    let Some(mut opened) = take(subsystem, alloc) else {
        return number_of(Code::Closed);
    };
    let code = opened.work(device, did);
    put(subsystem, opened);
    number_of(code)
}

/// Resets a path of a device.
#[unsafe(no_mangle)]
pub extern "C" fn ckd_c_reset(
    alloc: Global,
    subsystem: &mut CkdSubsystem,
    device: u8,
    path: u8,
) -> u32
    ensures { Comes (Asks (Event.Reset path device) Silent) subsystem.old.place.value subsystem.new.place.value result }
{
    let Some(mut opened) = take(subsystem, alloc) else {
        return number_of(Code::Closed);
    };
    let code = opened.reset(device, path);
    put(subsystem, opened);
    number_of(code)
}

/// A side of a device is lost.
#[unsafe(no_mangle)]
pub extern "C" fn ckd_c_lose_side(
    alloc: Global,
    subsystem: &mut CkdSubsystem,
    device: u8,
    side: u8,
) -> u32
    ensures { Comes (AsksOnSide side (λ s. Event.FailVolume device s)) subsystem.old.place.value subsystem.new.place.value result }
{
    let Some(mut opened) = take(subsystem, alloc) else {
        return number_of(Code::Closed);
    };
    let code = opened.lose_side(device, side);
    put(subsystem, opened);
    number_of(code)
}

/// The second device's volume becomes side B of the first, which it is copied to.
#[unsafe(no_mangle)]
pub extern "C" fn ckd_c_pair(
    alloc: Global,
    subsystem: &mut CkdSubsystem,
    first: u8,
    second: u8,
) -> u32
    ensures { Comes (Asks (Event.Pair first second) Silent) subsystem.old.place.value subsystem.new.place.value result }
{
    let Some(mut opened) = take(subsystem, alloc) else {
        return number_of(Code::Closed);
    };
    let code = opened.pair(first, second);
    put(subsystem, opened);
    number_of(code)
}

/// Side B of a pair is held: writes leave it out.
#[unsafe(no_mangle)]
pub extern "C" fn ckd_c_suspend(alloc: Global, subsystem: &mut CkdSubsystem, device: u8) -> u32
    ensures { Comes (Asks (Event.Suspend device) Silent) subsystem.old.place.value subsystem.new.place.value result }
{
    let Some(mut opened) = take(subsystem, alloc) else {
        return number_of(Code::Closed);
    };
    let code = opened.suspend(device);
    put(subsystem, opened);
    number_of(code)
}

/// Side B of a pair isn't held any more, and the background copies what it lacks.
#[unsafe(no_mangle)]
pub extern "C" fn ckd_c_resume(alloc: Global, subsystem: &mut CkdSubsystem, device: u8) -> u32
    ensures { Comes (Asks (Event.Resume device) Silent) subsystem.old.place.value subsystem.new.place.value result }
{
    let Some(mut opened) = take(subsystem, alloc) else {
        return number_of(Code::Closed);
    };
    let code = opened.resume(device);
    put(subsystem, opened);
    number_of(code)
}

/// An event of all devices.
fn event_of_all(alloc: Global, subsystem: &mut CkdSubsystem, e: Event) -> u32
    requires { (numbers : List ℕ) → may_come numbers e ≡ true }
    ensures { Comes (EventCame e Silent) subsystem.old.place.value subsystem.new.place.value result }
{
    let Some(mut opened) = take(subsystem, alloc) else {
        return number_of(Code::Closed);
    };
    let code = opened.ask(e);
    put(subsystem, opened);
    number_of(code)
}

/// The cache is lost, with what stands in it alone.
#[unsafe(no_mangle)]
pub extern "C" fn ckd_c_lose_cache(alloc: Global, subsystem: &mut CkdSubsystem) -> u32
    ensures { Comes (EventCame Event.FailCache Silent) subsystem.old.place.value subsystem.new.place.value result }
{
    event_of_all(alloc, subsystem, Event::FailCache)
}

/// The nonvolatile store is lost.
#[unsafe(no_mangle)]
pub extern "C" fn ckd_c_lose_store(alloc: Global, subsystem: &mut CkdSubsystem) -> u32
    ensures { Comes (EventCame Event.FailStore Silent) subsystem.old.place.value subsystem.new.place.value result }
{
    event_of_all(alloc, subsystem, Event::FailStore)
}

/// Power is lost: the cache is empty, and the programs that ran are cut.
#[unsafe(no_mangle)]
pub extern "C" fn ckd_c_lose_power(alloc: Global, subsystem: &mut CkdSubsystem) -> u32
    ensures { Comes (EventCame Event.Power Silent) subsystem.old.place.value subsystem.new.place.value result }
{
    event_of_all(alloc, subsystem, Event::Power)
}

/// The cache is up again. `CKD_WAITS`: first the background is to recover the tracks that wait.
#[unsafe(no_mangle)]
pub extern "C" fn ckd_c_repair_cache(alloc: Global, subsystem: &mut CkdSubsystem) -> u32
    ensures { Comes (EventCame Event.RepairCache Silent) subsystem.old.place.value subsystem.new.place.value result }
{
    event_of_all(alloc, subsystem, Event::RepairCache)
}

/// The nonvolatile store is up again. `CKD_WAITS`: first the background is to recover the tracks that wait.
#[unsafe(no_mangle)]
pub extern "C" fn ckd_c_repair_store(alloc: Global, subsystem: &mut CkdSubsystem) -> u32
    ensures { Comes (EventCame Event.RepairStore Silent) subsystem.old.place.value subsystem.new.place.value result }
{
    event_of_all(alloc, subsystem, Event::RepairStore)
}
