ghost use Rattle.std.specs.Prelude.{◌≡◌, IfOk, OnOk};
ghost use Rattle.std.specs.List.{AllZip};
ghost use Rattle.device_turn.specs.Seating.{IsAt, Rests};
ghost use Rattle.path_threads.specs.Rounds.{both};

use crate::places::Place;
use crate::shared::{Shared, SharedPool};
use ckd_types::{NoMemory, PathNo};
use device_outside::{Gate, Port, Volume};
use path_workers::{Came, DeviceSeat, DeviceTurn, Visitor, background_turn, path_turn};
use std::sync::Wait;
use std::thread::yield_now;

/// How often the background gives way between two rounds, at most.
const LONGEST_PAUSE: u32 = 16;

/// A path at one device, turn by turn, until nothing is left to do there; and whether that is so. Where no worker may wait, until it would have to.
fn serve<R: Wait, V: Volume, G: Gate, P: Port>(
    rt: &R,
    shared: &Shared,
    turn: &DeviceTurn<V>,
    seat: &mut DeviceSeat<V>,
    visitor: &mut Visitor<G>,
    port: &mut P,
) -> Result<bool, NoMemory>
    requires at { IsAt visitor.old.path turn.now seat.old }
    ensures path { visitor.new.path ≡ visitor.old.path }
    ensures rests { OnOk result (Rests seat.old seat.new) }
{
    for _ in rt.forever() {
        if shared.is_stopped() {
            return Err(NoMemory);
        }
        match path_turn(turn, seat, visitor, port) {
            Err(NoMemory) => return shared.stop(),
            Ok(Came::Went) => (),
            Ok(Came::Again) => {
                if !shared.may_wait() {
                    return Ok(false);
                }
                yield_now();
            }
            Ok(Came::Over) => return Ok(true),
        }
    }
    unreachable!()
}

/// A path at the device of a place, and whether it is done there. Where none of its programs waits it passes by, and so waits for nobody.
fn visit<R: Wait, V: Volume, G: Gate, P: Port>(
    rt: &R,
    shared: &Shared,
    turn: &DeviceTurn<V>,
    seat: &mut DeviceSeat<V>,
    place: Option<&Place>,
    visitor: &mut Visitor<G>,
    port: &mut P,
) -> Result<bool, NoMemory>
    requires at { IsAt visitor.old.path turn.now seat.old }
    ensures path { visitor.new.path ≡ visitor.old.path }
    ensures rests { OnOk result (Rests seat.old seat.new) }
{
    match place {
        Some(place) => {
            if place.waits_for(visitor.path) {
                return serve(rt, shared, turn, seat, visitor, port);
            }
            Ok(true)
        }
        None => Ok(true),
    }
}

/// A path's worker: device by device, in rising order, as far as it comes.
pub(crate) fn walk<R: Wait, V: Volume, G: Gate>(
    rt: &R,
    shared: &Shared,
    turns: &[DeviceTurn<V>],
    mut seats: Vec<DeviceSeat<V>>,
    places: &[Place],
    path: PathNo,
    gate: &G,
) -> Result<Vec<DeviceSeat<V>>, NoMemory>
    requires { AllZip (IsAt path) turns.now seats.items }
    ensures { IfOk result (λ v. AllZip (IsAt path) turns.now v.items) }
{
    let mut port = SharedPool::new(rt, shared);
    let mut visitor = Visitor::new(path, gate);
    for i in 0..turns.len() {
        let done = visit(
            rt,
            shared,
            &turns[i],
            &mut seats[i],
            places.get(i),
            &mut visitor,
            &mut port,
        )?;
        if !done {
            return Ok(seats);
        }
    }
    Ok(seats)
}

/// What came of two devices: over where both are, and gone where one went.
fn both(one: Came, other: Came) -> Came
    ensures { result ≡ both one other }
{
    match one {
        Came::Went => Came::Went,
        Came::Over => other,
        Came::Again => {
            if other == Came::Went {
                Came::Went
            } else {
                Came::Again
            }
        }
    }
}

/// A round in the background. Over where every device is finished and rests.
fn round<V: Volume, P: Port>(
    turns: &[DeviceTurn<V>],
    seats: &mut [DeviceSeat<V>],
    port: &mut P,
) -> Result<Came, NoMemory>
    requires { AllZip (IsAt 5) turns.now seats.old }
    ensures { OnOk result (AllZip (IsAt 5) turns.now seats.new) }
{
    let mut came = Came::Over;
    for i in 0..turns.len() {
        let now = background_turn(&turns[i], &mut seats[i], port)?;
        came = both(came, now);
    }
    Ok(came)
}

/// Gives way so many times.
fn give_way(times: u32) {
    for _ in 0..times {
        yield_now();
    }
}

/// The worker of the background: round by round, until every device is finished and rests, or nothing is to do where no worker may wait. Otherwise it
/// looks ever less often then.
pub(crate) fn work_behind<R: Wait, V: Volume>(
    rt: &R,
    shared: &Shared,
    turns: &[DeviceTurn<V>],
    mut seats: Vec<DeviceSeat<V>>,
) -> Result<Vec<DeviceSeat<V>>, NoMemory>
    requires { AllZip (IsAt 5) turns.now seats.items }
    ensures { IfOk result (λ v. AllZip (IsAt 5) turns.now v.items) }
{
    let mut port = SharedPool::new(rt, shared);
    let mut pause: u32 = 1;
    for _ in rt.forever() {
        if shared.is_stopped() {
            return Err(NoMemory);
        }
        match round(turns, &mut seats, &mut port) {
            Err(NoMemory) => return shared.stop(),
            Ok(Came::Over) => return Ok(seats),
            Ok(Came::Went) => pause = 1,
            Ok(Came::Again) => {
                if !shared.may_wait() {
                    return Ok(seats);
                }
                pause = pause.saturating_mul(2).min(LONGEST_PAUSE);
            }
        }
        give_way(pause);
    }
    unreachable!()
}
