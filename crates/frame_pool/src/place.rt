ghost use Rattle.std.specs.Prelude.{◌≡◌};

use ckd_types::{DeviceNo, TrackNo};
use std::marker::Model;

/// A track of a device.
#[derive(Clone, Copy, PartialEq, Eq, Hash, Debug)]
pub(crate) struct Place {
    device: u8,
    track: u16,
}

impl Model for Place {
    ghost use Rattle.std.specs.Prelude.{ℕ, ◌<◌};

    ghost Value = { ℕ × ℕ };

    ghost view = { λ p. (p.device, p.track) };

    ghost invariant = { λ p. (p.device < 16) × (p.track < 65535) };

    ghost inverse = { λ n. record { device = n.0; track = n.1 } };
}

impl Place {
    pub(crate) fn new(d: DeviceNo, t: TrackNo) -> Place
        ensures { result ≡ (d, t) }
    {
        Place {
            device: d.get(),
            track: t.get(),
        }
    }

    pub(crate) fn device(&self) -> DeviceNo
        ensures { result ≡ self.now.0 }
    {
        DeviceNo::new(self.device).unwrap()
    }

    pub(crate) fn track(&self) -> TrackNo
        ensures { result ≡ self.now.1 }
    {
        TrackNo::new(self.track).unwrap()
    }
}
