ghost use Rattle.std.specs.Prelude.{◌≡◌, ◌<◌, ◌≤◌, ◌+◌, ◌*◌, ℕ, IfOk, IsSome, None, OnErr, Some, false, is_some};
ghost use Rattle.ckd_chain.specs.State.{ChainState};
ghost use Rattle.ckd_chain.specs.Steps.{again_from, need_of, chain_opened, stepped};
ghost use Rattle.ckd_chain.specs.declared.mark.Stage.TheVariants.{Asks};
ghost use Rattle.ckd_chain.specs.declared.progress.Progress.TheVariants.{Local};
ghost use Rattle.device_defs.specs.Command.{follow, on_tracks};
ghost use Rattle.device_defs.specs.Contents.{contents};
ghost use Rattle.device_defs.specs.Device.{with_store};
ghost use Rattle.device_outside.specs.Interaction.{and_then};
ghost use Rattle.device_outside.specs.Keeper.{Heard};
ghost use Rattle.event_notes.specs.Loose.{weight};
ghost use Rattle.device_outside.specs.Outside.{Ran, where_ok};
ghost use Rattle.device_store.specs.State.{state_of, outside, TakesTracks};
ghost use Rattle.plain_device.specs.Looking.{IsAtAnswer};
ghost use Rattle.device_core.specs.State.{DefinedDevice, open_of, came_to, told, Answers};
ghost use Rattle.device_core.specs.TrackWalk.{IsAt, Left, is_half};

use crate::history::Running;
use crate::track_walk::{check, follow};
use ckd_chain::{LocalAct, Progress};
use ckd_types::{Geometry, NoMemory, TrackNo};
use device_defs::Came;
use device_outside::{Keep, Port, Volume};
use device_store::DeviceStore;
use plain_device::Paths;
use std::alloc::Global;
use track_image::TrackImage;

/// A command that looks at tracks, from this one on. After want of memory the chain is where it was before the command.
pub(crate) fn on_tracks<V: Volume, P: Port, K: Keep<TrackImage>>(
    store: &mut DeviceStore<V>,
    running: &mut Running,
    t: TrackNo,
    port: &mut P,
    keep: &mut K,
) -> Result<Came, NoMemory>
    requires track { t < store.old.cylinders * 15 }
    requires takes { TakesTracks K.takes keep.old store.old }
    requires at { IsAt store.old.cylinders running.old.chain }
    requires none { store.old.half ≡ None }
    ensures fixed { (store.new.number ≡ store.old.number) × (store.new.cylinders ≡ store.old.cylinders) × (store.new.geometry ≡ store.old.geometry) }
    ensures takes { TakesTracks K.takes keep.new store.new }
    ensures open { (open_of running.new ≡ open_of running.old) × (running.new.ends ≡ running.old.ends) }
    ensures acts { (running.new.acts ≡ running.old.acts) × (running.new.room ≡ running.old.room) }
    ensures left { IfOk result (Left store.old.cylinders running.new.chain) }
    ensures again { OnErr result (running.new.chain ≡ again_from running.old.chain) }
    ensures weight { weight store.new.loose ≤ weight store.old.loose + 2 }
    ensures run { (d : DefinedDevice) (path : ℕ) (z : ChainState) → running.old.chain ≡ chain_opened z → need_of z ≡ Some t
        → Ran (where_ok result) (Heard K.hears K.takes) (and_then (follow contents (store.old.cylinders * 15) t z t (state_of store.old))
        (on_tracks contents d path z)) (outside (P.view port.old) store.old keep.old)
        (came_to (with_store d (state_of store.new)) path running.new.chain result) (told result) (outside (P.view port.new) store.new keep.new) }
    ensures half { IfOk result (λ came. is_some store.new.half ≡ is_half came) }
    ensures same { OnErr result (store.new.half ≡ None) }
{
    match follow(store, &mut running.chain, t, port, keep) {
        Ok(came) => Ok(came),
        Err(NoMemory) => {
            running.chain.again();
            Err(NoMemory)
        }
    }
}

/// The device does an act, or refuses it. What it answers is made before anything changes.
fn answer(
    alloc: Global,
    geometry: Geometry,
    paths: &mut Paths,
    running: &mut Running,
    act: LocalAct,
) -> Result<Came, NoMemory>
    requires running { IsSome running.old.chain.at.next }
    requires asks { running.old.chain.stage ≡ Some (Asks act) }
    ensures open { (open_of running.new ≡ open_of running.old) × (running.new.ends ≡ running.old.ends) }
    ensures acts { (running.new.acts ≡ running.old.acts) × (running.new.room ≡ running.old.room) }
    ensures left { IfOk result (Left running.old.chain.fixed.cylinders running.new.chain) }
    ensures again { OnErr result ((running.new.chain ≡ again_from running.old.chain) × (paths.new ≡ paths.old)) }
    ensures answers { IfOk result (Answers geometry paths.old paths.new running.old.path running.old.chain (Local act) running.new.chain) }
    ensures half { IfOk result (λ came. is_half came ≡ false) }
{
    let mut behind = *paths;
    match behind.act(alloc, geometry, running.path, act) {
        Err(NoMemory) => {
            running.chain.again();
            Err(NoMemory)
        }
        Ok(how) => {
            *paths = behind;
            Ok(Came::Ends(running.chain.settle(how)))
        }
    }
}

/// A command that looks at no track. After want of memory the chain is where it was before the command.
pub(crate) fn on_paths(
    alloc: Global,
    geometry: Geometry,
    paths: &mut Paths,
    running: &mut Running,
) -> Result<Came, NoMemory>
    requires running { IsSome running.old.chain.at.next }
    requires answers { IsAtAnswer running.old.chain.stage }
    ensures open { (open_of running.new ≡ open_of running.old) × (running.new.ends ≡ running.old.ends) }
    ensures acts { (running.new.acts ≡ running.old.acts) × (running.new.room ≡ running.old.room) }
    ensures left { IfOk result (Left running.old.chain.fixed.cylinders running.new.chain) }
    ensures again { OnErr result ((running.new.chain ≡ again_from running.old.chain) × (paths.new ≡ paths.old)) }
    ensures answers { IfOk result (Answers geometry paths.old paths.new running.old.path (stepped running.old.chain None).chain
        (stepped running.old.chain None).progress running.new.chain) }
    ensures half { IfOk result (λ came. is_half came ≡ false) }
{
    let progress = match running.chain.step(alloc, None) {
        Err(NoMemory) => {
            running.chain.again();
            return Err(NoMemory);
        }
        Ok(progress) => progress,
    };
    match progress {
        Progress::Ended(end) => Ok(Came::Ends(end)),
        Progress::Local(act) => answer(alloc, geometry, paths, running, act),
        Progress::Need(_) => Ok(check(&mut running.chain)),
        Progress::Write { .. } => Ok(check(&mut running.chain)),
    }
}
