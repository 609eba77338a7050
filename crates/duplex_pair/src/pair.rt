ghost use Rattle.std.specs.Prelude.{◌≡◌, false, is_some, length, true};
ghost use Rattle.duplex_pair.specs.Volumes.{view_in};

use crate::StaleMarks;
use ckd_types::DeviceNo;
use device_outside::Volume;

/// The volumes of the sides. There is none where there is no such side, or where it is lent.
#[derive(Drop)]
pub struct SideVolumes<V: Volume> {
    pub a: Option<V>,
    pub b: Option<V>,
}

/// Whether a side is up, and which tracks are stale there: the side's bytes of them don't count.
#[derive(Debug, Drop)]
pub struct SideState {
    pub up: bool,
    pub stale: StaleMarks,
}

/// The sides of a device. Side B may be held, so that it takes nothing; or the device's volume may be lent to another's pair.
#[derive(Drop)]
pub struct DuplexPair<V: Volume> {
    pub volumes: SideVolumes<V>,
    pub a: SideState,
    pub b: SideState,
    pub held: bool,
    pub lent: Option<DeviceNo>,
    pub ghost a_there: { a.up ≡ true → is_some volumes.a ≡ true },
    pub ghost b_there: { b.up ≡ true → is_some volumes.b ≡ true },
    pub ghost same_size: { length b.stale ≡ length a.stale },
    pub ghost a_size: { is_some volumes.a ≡ true → (view_in V.view volumes.a).tracks ≡ length a.stale },
    pub ghost b_size: { is_some volumes.b ≡ true → (view_in V.view volumes.b).tracks ≡ length a.stale },
    pub ghost home: { is_some lent ≡ false → is_some volumes.a ≡ true },
    pub ghost away: { is_some lent ≡ true → (a.up ≡ false) × (b.up ≡ false) },
}
