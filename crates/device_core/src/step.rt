ghost use Rattle.std.specs.Prelude.{◌≡◌, ◌≤◌, ◌+◌, ℕ, [], IfOk, IfSome, IsSome, None, OnErr, is_some, option_map};
ghost use Rattle.std.specs.List.{list_any};
ghost use Rattle.device_defs.specs.Command.{command, command_at, is_loss};
ghost use Rattle.ckd_chain.specs.Steps.{need_of};
ghost use Rattle.device_defs.specs.Contents.{contents};
ghost use Rattle.device_defs.specs.Device.{with_store};
ghost use Rattle.device_outside.specs.Keeper.{Heard};
ghost use Rattle.device_outside.specs.Outside.{Ran, where_ok};
ghost use Rattle.event_notes.specs.Loose.{weight};
ghost use Rattle.device_store.specs.State.{state_of, outside, TakesTracks};
ghost use Rattle.device_core.specs.Kept.{HasRoomFor};
ghost use Rattle.device_core.specs.State.{DefinedDevice, open_of, came_to, told, commanded, commanded_by, came_from};
ghost use Rattle.device_core.specs.TrackWalk.{Left, is_half};
ghost use Rattle.device_core.specs.Words.{HasEndRoom, IsAtWord};

use crate::Device;
use crate::command::{on_paths, on_tracks};
use crate::history::{Past, Running, Stepped};
use crate::track_walk::check;
use ckd_types::NoMemory;
use device_defs::Came;
use device_outside::{Keep, NoKeep, Port, Volume};
use device_store::DeviceStore;
use plain_defs::{Act, Acted};
use plain_device::Paths;
use track_image::TrackImage;

/// The command at hand of the running program, in place. After want of memory its chain is where it was before the command.
fn on_running<V: Volume, P: Port, K: Keep<TrackImage>>(
    store: &mut DeviceStore<V>,
    paths: &mut Paths,
    running: &mut Running,
    port: &mut P,
    keep: &mut K,
) -> Result<Came, NoMemory>
    requires fresh { store.old.loose.acts ≡ [] }
    requires word { IsAtWord store.old.cylinders running.old.chain }
    requires takes { TakesTracks K.takes keep.old store.old }
    requires none { store.old.half ≡ None }
    ensures fixed { (store.new.number ≡ store.old.number) × (store.new.cylinders ≡ store.old.cylinders) × (store.new.geometry ≡ store.old.geometry) }
    ensures takes { TakesTracks K.takes keep.new store.new }
    ensures open { (open_of running.new ≡ open_of running.old) × (running.new.ends ≡ running.old.ends) }
    ensures acts { (running.new.acts ≡ running.old.acts) × (running.new.room ≡ running.old.room) }
    ensures left { IfOk result (Left store.old.cylinders running.new.chain) }
    ensures word { OnErr result (IsAtWord store.old.cylinders running.new.chain) }
    ensures weight { weight store.new.loose ≤ weight store.old.loose + 2 }
    ensures run { (d : DefinedDevice) → d.store ≡ state_of store.old → d.paths ≡ paths.old
        → Ran (where_ok result) (Heard K.hears K.takes) (command_at contents d running.old.path running.old.chain (need_of running.old.chain))
        (outside (P.view port.old) store.old keep.old)
        (came_to (record (with_store d (state_of store.new)) { paths = paths.new }) running.old.path running.new.chain result) (told result)
        (outside (P.view port.new) store.new keep.new) }
    ensures half { IfOk result (λ came. is_some store.new.half ≡ is_half came) }
    ensures same { OnErr result (store.new.half ≡ None) }
{
    match running.chain.need() {
        Some(t) => on_tracks(store, running, t, port, keep),
        None => on_paths(store.alloc, store.geometry, paths, running),
    }
}

/// Whether data of cache fast write were lost.
fn is_loss(acted: &Acted) -> bool
    ensures { result ≡ is_loss acted.now.act }
{
    match acted.act {
        Act::CfwLost => true,
        Act::Loosen(_) => false,
        Act::Harden(_) => false,
    }
}

fn has_loss(acts: &[Acted]) -> bool
    ensures { result ≡ list_any (λ a. is_loss a.act) acts.now }
{
    acts.iter().any(|a| is_loss(a))
}

/// The same. Once data of cache fast write are lost in its own program, a command ends with equipment check before anything else.
fn on_program<V: Volume, P: Port, K: Keep<TrackImage>>(
    store: &mut DeviceStore<V>,
    paths: &mut Paths,
    running: &mut Running,
    port: &mut P,
    keep: &mut K,
) -> Result<Came, NoMemory>
    requires fresh { store.old.loose.acts ≡ [] }
    requires word { IsAtWord store.old.cylinders running.old.chain }
    requires takes { TakesTracks K.takes keep.old store.old }
    requires none { store.old.half ≡ None }
    ensures fixed { (store.new.number ≡ store.old.number) × (store.new.cylinders ≡ store.old.cylinders) × (store.new.geometry ≡ store.old.geometry) }
    ensures takes { TakesTracks K.takes keep.new store.new }
    ensures open { (open_of running.new ≡ open_of running.old) × (running.new.ends ≡ running.old.ends) }
    ensures acts { (running.new.acts ≡ running.old.acts) × (running.new.room ≡ running.old.room) }
    ensures left { IfOk result (Left store.old.cylinders running.new.chain) }
    ensures word { OnErr result (IsAtWord store.old.cylinders running.new.chain) }
    ensures weight { weight store.new.loose ≤ weight store.old.loose + 2 }
    ensures run { (d : DefinedDevice) → d.store ≡ state_of store.old → d.paths ≡ paths.old
        → Ran (where_ok result) (Heard K.hears K.takes) (commanded_by d running.old) (outside (P.view port.old) store.old keep.old)
        (came_to (record (with_store d (state_of store.new)) { paths = paths.new }) running.old.path running.new.chain result) (told result)
        (outside (P.view port.new) store.new keep.new) }
    ensures half { IfOk result (λ came. is_some store.new.half ≡ is_half came) }
    ensures same { OnErr result (store.new.half ≡ None) }
{
    if has_loss(running.acts.as_slice()) {
        return Ok(check(&mut running.chain));
    }
    on_running(store, paths, running, port, keep)
}

/// The same of a program that runs.
pub(crate) fn on_past<V: Volume, P: Port, K: Keep<TrackImage>>(
    store: &mut DeviceStore<V>,
    paths: &mut Paths,
    running: &mut Option<Running>,
    port: &mut P,
    keep: &mut K,
) -> Result<Came, NoMemory>
    requires running { IsSome running.old }
    requires fresh { store.old.loose.acts ≡ [] }
    requires word { IfSome running.old (λ r. IsAtWord store.old.cylinders r.chain) }
    requires room { IfSome running.old (λ r. HasEndRoom r.ends) }
    requires takes { TakesTracks K.takes keep.old store.old }
    requires none { store.old.half ≡ None }
    ensures fixed { (store.new.number ≡ store.old.number) × (store.new.cylinders ≡ store.old.cylinders) × (store.new.geometry ≡ store.old.geometry) }
    ensures takes { TakesTracks K.takes keep.new store.new }
    ensures running { IsSome running.new }
    ensures room { IfSome running.new (λ r. HasEndRoom r.ends) }
    ensures open { option_map open_of running.new ≡ option_map open_of running.old }
    ensures acts { (n : ℕ) → IfSome running.old (HasRoomFor n) → IfSome running.new (HasRoomFor n) }
    ensures left { IfOk result (λ came. IfSome running.new (λ r. Left store.old.cylinders r.chain came)) }
    ensures word { OnErr result (IfSome running.new (λ r. IsAtWord store.old.cylinders r.chain)) }
    ensures weight { weight store.new.loose ≤ weight store.old.loose + 2 }
    ensures run { (d : DefinedDevice) → d.store ≡ state_of store.old → d.paths ≡ paths.old
        → Ran (where_ok result) (Heard K.hears K.takes) (commanded d running.old) (outside (P.view port.old) store.old keep.old)
        (came_from (record (with_store d (state_of store.new)) { paths = paths.new }) running.new result) (told result)
        (outside (P.view port.new) store.new keep.new) }
    ensures half { IfOk result (λ came. is_some store.new.half ≡ is_half came) }
    ensures same { OnErr result (store.new.half ≡ None) }
{
    match running {
        Some(running) => on_program(store, paths, running, port, keep),
        None => unreachable!(),
    }
}
