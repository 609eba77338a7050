ghost use Rattle.std.specs.Prelude.{◌≡◌, ◌<◌, ◌⊎◌, IfSome, None, refl};
ghost use Rattle.device_defs.specs.Pledge.{command_count, seat_counts};
ghost use Rattle.device_core.specs.State.{device_of};
ghost use Rattle.path_workers.specs.Keeping.{KeepsPromise};

use crate::events::runs_on;
use ckd_types::PathNo;
use device_core::Device;
use device_defs::Losses;
use device_outside::Volume;
use device_turn::{Holder, Turn, TurnSeat};
use std::snapshot::Snapshot;

/// What a turn's device was when the turn was made, and how many losses of each kind it may have in all.
#[derive(Drop)]
pub struct Promise<V: Volume> {
    pub made: Snapshot<Device<V>>,
    pub most: Losses,
}

/// A turn with a device in it.
pub type DeviceTurn<V> = Turn<Device<V>, Promise<V>>;

/// A seat at such a turn.
pub type DeviceSeat<V> = TurnSeat<Device<V>, Promise<V>>;

/// The path of a seat: seats 1 to 4 are the paths'.
fn path_of(seat: u64) -> Option<PathNo>
    requires { seat < 6 }
    ensures path { IfSome result (λ path. path ≡ seat) }
    ensures none { result ≡ None → (seat ≡ 0) ⊎ (seat ≡ 5) }
{
    PathNo::new(seat as u8)
}

/// Twice the programs of a path that are over, and one more while one runs.
fn count_of<V: Volume>(device: &Device<V>, path: PathNo) -> u64
    ensures { result ≡ command_count (device_of device.now) path }
{
    let running = if runs_on(device, path) { 1 } else { 0 };
    let started = u64::from(device.started(path));
    2 * started.saturating_sub(running) + running
}

impl<V: Volume> Holder<Promise<V>> for Device<V> {
    ghost keeps = { KeepsPromise };

    ghost counts = { λ d. seat_counts (device_of d) };

    fn count(&self, seat: u64) -> u64 {
        match path_of(seat) {
            Some(path) => count_of(self, path),
            None => 0,
        }
    }

    ghost six_counts = { λ d. refl };
}
