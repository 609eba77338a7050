ghost use Rattle.std.specs.Prelude.{◌≡◌, IfOk, OnOk, true};
ghost use Rattle.device_turn.specs.Seating.{IsAt, Rests};
ghost use Rattle.device_core.specs.State.{device_of};
ghost use Rattle.path_workers.specs.Keeping.{Moves};
ghost use Rattle.path_workers.specs.Turned.{BackgroundTurned, PathTurned};
ghost use Rattle.path_workers.specs.Visits.{is_done, path_came};
ghost use Rattle.path_workers.specs.declared.events.Came.TheVariants.{Over};

use crate::background::background_event;
use crate::events::{Came, Visitor, path_event};
use crate::promise::{DeviceSeat, DeviceTurn};
use ckd_types::NoMemory;
use device_core::Device;
use device_outside::{Gate, Port, Volume};
use device_turn::Enter;

/// One event of a path at a device in its room, and what the path is told.
fn path_visit<V: Volume, P: Port, G: Gate>(
    device: &mut Box<Device<V>>,
    visitor: &mut Visitor<G>,
    port: &mut P,
) -> Result<Came, NoMemory>
    ensures path { visitor.new.path ≡ visitor.old.path }
    ensures came { IfOk result (λ came. came ≡ path_came (device_of device.old.value) visitor.old.path) }
    ensures moves { OnOk result (Moves visitor.old.path device.old.value device.new.value) }
{
    path_event(&mut **device, visitor, port)
}

/// One event in the background.
fn background_visit<V: Volume, P: Port>(
    device: &mut Box<Device<V>>,
    port: &mut P,
) -> Result<Came, NoMemory>
    ensures over { IfOk result (λ came. came ≡ Over → is_done (device_of device.new.value) ≡ true) }
    ensures moves { OnOk result (Moves 5 device.old.value device.new.value) }
{
    background_event(&mut **device, port)
}

/// One event of a path, in a turn of its own: it tries again where another has the turn, and otherwise is told as the device stands. Where memory is
/// wanting, the turn isn't given back.
pub fn path_turn<V: Volume, P: Port, G: Gate>(
    turn: &DeviceTurn<V>,
    seat: &mut DeviceSeat<V>,
    visitor: &mut Visitor<G>,
    port: &mut P,
) -> Result<Came, NoMemory>
    requires at { IsAt visitor.old.path turn.now seat.old }
    ensures path { visitor.new.path ≡ visitor.old.path }
    ensures came { IfOk result (λ came. PathTurned seat.old.seat.me.0.pledge visitor.old.path came) }
    ensures rests { OnOk result (Rests seat.old seat.new) }
{
    match turn.enter(seat) {
        Enter::Taken { .. } => Ok(Came::Again),
        Enter::Got(mut device) => {
            let came = path_visit(&mut device, visitor, port)?;
            turn.leave(seat, device);
            Ok(came)
        }
    }
}

/// One event in the background, in a turn of its own. It is over only where no path has anything left to do at the device. Where memory is wanting, the
/// turn isn't given back.
pub fn background_turn<V: Volume, P: Port>(
    turn: &DeviceTurn<V>,
    seat: &mut DeviceSeat<V>,
    port: &mut P,
) -> Result<Came, NoMemory>
    requires at { IsAt 5 turn.now seat.old }
    ensures over { IfOk result (λ came. BackgroundTurned seat.old.seat.me.0.pledge came) }
    ensures rests { OnOk result (Rests seat.old seat.new) }
{
    match turn.enter(seat) {
        Enter::Taken { .. } => Ok(Came::Again),
        Enter::Got(mut device) => {
            let came = background_visit(&mut device, port)?;
            turn.leave(seat, device);
            Ok(came)
        }
    }
}
