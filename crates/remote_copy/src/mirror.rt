ghost use Rattle.std.specs.Prelude.{◌≡◌, IfSome, true};
ghost use Rattle.std.proofs.Props.{props};
ghost use Rattle.device_outside.specs.Lists.{is_in};
ghost use Rattle.subsystem_core.specs.Devices.{device_at, numbers_of};
ghost use Rattle.remote_copy.specs.Following.{IsFarFor, is_within};

use crate::{Link, Sender};
use device_outside::Volume;
use subsystem_core::Subsystem;

/// Devices, of which one is kept on a far volume: its firm tracks are put there.
#[derive(Drop)]
pub struct Mirror<V: Volume, L: Link> {
    pub sub: Subsystem<V>,
    pub sender: Sender<L>,
    pub ghost here: { is_in sender.device (numbers_of sub.devices.items) ≡ true },
    pub ghost fits: { IfSome (device_at sub.devices.items sender.device) (IsFarFor sender.link) } by { Prim.hlevel props },
    pub ghost within: { is_within sender.state sender.link.tracks ≡ true },
}
