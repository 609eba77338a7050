ghost use Rattle.std.specs.Prelude.{◌≡◌, ◌<◌, ◌≤◌, ◌+◌, ◌*◌, IfOk, IfSome, None, OnErr, IsSome, false, is_some, option_map};
ghost use Rattle.ckd_chain.specs.declared.progress.Settled.TheVariants as settleds;
ghost use Rattle.ckd_chain.specs.Facts.{MayBeWritten};
ghost use Rattle.ckd_rules.specs.Facts.{Suits};
ghost use Rattle.device_defs.specs.Command.{came_of_write, went_on, look, follow};
ghost use Rattle.device_defs.specs.Contents.{contents};
ghost use Rattle.device_defs.specs.Editing.{write};
ghost use Rattle.device_defs.specs.Memory.{and_had};
ghost use Rattle.device_defs.specs.Outcomes.{usage_of, wrote_turn, checks};
ghost use Rattle.device_outside.specs.Keeper.{Heard};
ghost use Rattle.device_outside.specs.Outside.{Ran, where_ok};
ghost use Rattle.device_store.specs.Looks.{seen, IsSeen};
ghost use Rattle.device_store.specs.State.{state_of, outside, had, is_opened, TakesTracks};
ghost use Rattle.device_core.specs.TrackWalk.{turn_with, went_with, IsAt, Left, IsSameHand, GoesOn, KeepsWeight, is_half, is_half_over};
ghost use Rattle.event_notes.specs.Loose.{weight};

use ckd_chain::{Chain, Progress, Settled};
use ckd_types::{Edit, HEADS, NoMemory, TrackNo};
use device_defs::{Came, Took, Usage};
use device_outside::{Keep, Port, Volume};
use device_store::{DeviceStore, Looked};
use track_image::TrackImage;

/// Behind a look at one track a command came out, or goes on to another track.
#[derive(Debug, Drop)]
pub(crate) enum Step {
    Over(Came),
    On(TrackNo),
}

fn usage_of(chain: &Chain) -> Usage
    ensures usage { result ≡ usage_of chain.now }
    ensures last { IfSome result.last (λ l. l < chain.now.fixed.cylinders * 15) }
{
    Usage {
        mode: chain.mode(),
        inhibit: chain.inhibit_fast(),
        last: chain.extent_last(),
        provisional: chain.provisional(),
    }
}

/// The command at hand ends with equipment check.
pub(crate) fn check(chain: &mut Chain) -> Came
    requires { IsSome chain.old.at.next }
    ensures turn { turn_with chain.new result ≡ checks chain.old settleds.Equipment }
    ensures left { Left chain.old.fixed.cylinders chain.new result }
    ensures half { is_half result ≡ false }
{
    Came::Checks(chain.settle(Settled::Equipment))
}

/// The command at hand ends with data check.
fn check_data(chain: &mut Chain) -> Came
    requires { IsSome chain.old.at.next }
    ensures turn { turn_with chain.new result ≡ checks chain.old settleds.DataCheck }
    ensures left { Left chain.old.fixed.cylinders chain.new result }
    ensures half { is_half result ≡ false }
{
    Came::Checks(chain.settle(Settled::DataCheck))
}

/// The command at hand by what came of its write.
pub(crate) fn wrote(chain: &mut Chain, t: TrackNo, took: Took) -> Came
    requires running { IsSome chain.old.at.next }
    requires begun { IsSome chain.old.stage }
    requires back { IsSome chain.old.before.next }
    requires written { MayBeWritten chain.old.stage }
    ensures turn { turn_with chain.new result ≡ wrote_turn chain.old t took }
    ensures left { Left chain.old.fixed.cylinders chain.new result }
    ensures half { is_half result ≡ is_opened took }
{
    match took {
        Took::Whole => Came::Ends(chain.settle(Settled::Written)),
        Took::Opened => Came::HalfOpen(t),
        Took::Unwritten => check(chain),
    }
}

/// Writes a track of which an image was read, or whose image is in its frame.
fn write_seen<V: Volume, P: Port, K: Keep<TrackImage>>(
    store: &mut DeviceStore<V>,
    usage: &Usage,
    first: TrackNo,
    t: TrackNo,
    read: Option<&TrackImage>,
    edit: Edit,
    port: &mut P,
    keep: &mut K,
) -> Result<Took, NoMemory>
    requires track { t < store.old.cylinders * 15 }
    requires there { IsSeen (state_of store.old) t (option_map (λ i. i.now) read) }
    requires suits { Suits (seen (state_of store.old) t (option_map (λ i. i.now) read)).geometry
        (seen (state_of store.old) t (option_map (λ i. i.now) read)).track.records edit }
    requires takes { TakesTracks K.takes keep.old store.old }
    requires none { store.old.half ≡ None }
    ensures fixed { (store.new.number ≡ store.old.number) × (store.new.cylinders ≡ store.old.cylinders) × (store.new.geometry ≡ store.old.geometry) }
    ensures takes { TakesTracks K.takes keep.new store.new }
    ensures weight { weight store.new.loose ≤ weight store.old.loose + 2 }
    ensures run { Ran (where_ok result) (Heard K.hears K.takes) (write contents (state_of store.old) usage.now first t
        (seen (state_of store.old) t (option_map (λ i. i.now) read.entry)) edit) (outside (P.view port.old) store.old keep.old) (state_of store.new)
        (had (λ took. took) result) (outside (P.view port.new) store.new keep.new) }
    ensures half { IfOk result (λ took. is_some store.new.half ≡ is_opened took) }
    ensures same { OnErr result (store.new.half ≡ None) }
{
    match read {
        Some(image) => store.write(usage, first, t, image, edit, port, keep),
        None => store.write_framed(usage, first, t, edit, port, keep),
    }
}

/// Writes a track, and ends the command by what came of it.
fn write_edit<V: Volume, P: Port, K: Keep<TrackImage>>(
    store: &mut DeviceStore<V>,
    usage: &Usage,
    chain: &mut Chain,
    first: TrackNo,
    t: TrackNo,
    read: Option<&TrackImage>,
    edit: Edit,
    port: &mut P,
    keep: &mut K,
) -> Result<Step, NoMemory>
    requires track { t < store.old.cylinders * 15 }
    requires there { IsSeen (state_of store.old) t (option_map (λ i. i.now) read) }
    requires suits { Suits (seen (state_of store.old) t (option_map (λ i. i.now) read)).geometry
        (seen (state_of store.old) t (option_map (λ i. i.now) read)).track.records edit }
    requires takes { TakesTracks K.takes keep.old store.old }
    requires at { IsAt store.old.cylinders chain.old }
    requires written { MayBeWritten chain.old.stage }
    requires none { store.old.half ≡ None }
    ensures fixed { (store.new.number ≡ store.old.number) × (store.new.cylinders ≡ store.old.cylinders) × (store.new.geometry ≡ store.old.geometry) }
    ensures takes { TakesTracks K.takes keep.new store.new }
    ensures goes { IfOk result (GoesOn store.old.cylinders chain.old chain.new) }
    ensures hand { OnErr result (IsSameHand chain.old chain.new) }
    ensures weight { weight store.new.loose ≤ weight store.old.loose + 2 }
    ensures on { IfOk result (KeepsWeight (weight store.old.loose) store.new.loose) }
    ensures run { Ran (where_ok result) (Heard K.hears K.takes) (and_had
        (write contents (state_of store.old) usage.now first t (seen (state_of store.old) t (option_map (λ i. i.now) read.entry)) edit)
        (came_of_write contents chain.old t)) (outside (P.view port.old) store.old keep.old) (state_of store.new) (had (went_with chain.new) result)
        (outside (P.view port.new) store.new keep.new) }
    ensures half { IfOk result (λ step. is_some store.new.half ≡ is_half_over step) }
    ensures same { OnErr result (store.new.half ≡ None) }
{
    match write_seen(store, usage, first, t, read, edit, port, keep) {
        Err(NoMemory) => Err(NoMemory),
        Ok(took) => Ok(Step::Over(wrote(chain, t, took))),
    }
}

/// What the command at hand does with the image of a track, one that was read or the one in its frame.
fn on_image<V: Volume, P: Port, K: Keep<TrackImage>>(
    store: &mut DeviceStore<V>,
    usage: &Usage,
    chain: &mut Chain,
    first: TrackNo,
    t: TrackNo,
    read: Option<&TrackImage>,
    port: &mut P,
    keep: &mut K,
) -> Result<Step, NoMemory>
    requires track { t < store.old.cylinders * 15 }
    requires takes { TakesTracks K.takes keep.old store.old }
    requires there { IsSeen (state_of store.old) t (option_map (λ i. i.now) read) }
    requires at { IsAt store.old.cylinders chain.old }
    requires usage { usage.now ≡ usage_of chain.old }
    requires none { store.old.half ≡ None }
    ensures fixed { (store.new.number ≡ store.old.number) × (store.new.cylinders ≡ store.old.cylinders) × (store.new.geometry ≡ store.old.geometry) }
    ensures takes { TakesTracks K.takes keep.new store.new }
    ensures goes { IfOk result (GoesOn store.old.cylinders chain.old chain.new) }
    ensures hand { OnErr result (IsSameHand chain.old chain.new) }
    ensures weight { weight store.new.loose ≤ weight store.old.loose + 2 }
    ensures on { IfOk result (KeepsWeight (weight store.old.loose) store.new.loose) }
    ensures run { Ran (where_ok result) (Heard K.hears K.takes) (went_on contents chain.old first t (state_of store.old)
        (seen (state_of store.old) t (option_map (λ i. i.now) read.entry))) (outside (P.view port.old) store.old keep.old) (state_of store.new)
        (had (went_with chain.new) result) (outside (P.view port.new) store.new keep.new) }
    ensures half { IfOk result (λ step. is_some store.new.half ≡ is_half_over step) }
    ensures same { OnErr result (store.new.half ≡ None) }
{
    let image = store.seen(t, read);
    let progress = match chain.step(store.alloc, Some(image)) {
        Err(NoMemory) => return Err(NoMemory),
        Ok(progress) => progress,
    };
    match progress {
        Progress::Ended(end) => Ok(Step::Over(Came::Ends(end))),
        Progress::Need(next) => Ok(Step::On(next)),
        Progress::Local(_) => Ok(Step::Over(check(chain))),
        Progress::Write { edit, .. } => {
            write_edit(store, usage, chain, first, t, read, edit, port, keep)
        }
    }
}

/// A look of the command at hand at one track.
fn look<V: Volume, P: Port, K: Keep<TrackImage>>(
    store: &mut DeviceStore<V>,
    chain: &mut Chain,
    first: TrackNo,
    t: TrackNo,
    port: &mut P,
    keep: &mut K,
) -> Result<Step, NoMemory>
    requires track { t < store.old.cylinders * 15 }
    requires takes { TakesTracks K.takes keep.old store.old }
    requires at { IsAt store.old.cylinders chain.old }
    requires none { store.old.half ≡ None }
    ensures fixed { (store.new.number ≡ store.old.number) × (store.new.cylinders ≡ store.old.cylinders) × (store.new.geometry ≡ store.old.geometry) }
    ensures takes { TakesTracks K.takes keep.new store.new }
    ensures goes { IfOk result (GoesOn store.old.cylinders chain.old chain.new) }
    ensures hand { OnErr result (IsSameHand chain.old chain.new) }
    ensures weight { weight store.new.loose ≤ weight store.old.loose + 2 }
    ensures on { IfOk result (KeepsWeight (weight store.old.loose) store.new.loose) }
    ensures run { Ran (where_ok result) (Heard K.hears K.takes) (look contents chain.old first t (state_of store.old))
        (outside (P.view port.old) store.old keep.old) (state_of store.new) (had (went_with chain.new) result) (outside (P.view port.new) store.new keep.new) }
    ensures half { IfOk result (λ step. is_some store.new.half ≡ is_half_over step) }
    ensures same { OnErr result (store.new.half ≡ None) }
{
    if store.lost.has(t) {
        return Ok(Step::Over(check(chain)));
    }
    let usage = usage_of(chain);
    let looked = match store.image(&usage, t, port, keep) {
        Err(NoMemory) => return Err(NoMemory),
        Ok(looked) => looked,
    };
    match looked {
        Looked::NoBytes(_) => Ok(Step::Over(check(chain))),
        Looked::BadTrack(_) => Ok(Step::Over(check_data(chain))),
        Looked::Frame => on_image(store, &usage, chain, first, t, None, port, keep),
        Looked::Has(image) => on_image(store, &usage, chain, first, t, Some(&image), port, keep),
    }
}

/// A command that looks at tracks, from this one on. Its chain has begun it. After want of memory it is at the same command still.
pub fn follow<V: Volume, P: Port, K: Keep<TrackImage>>(
    store: &mut DeviceStore<V>,
    chain: &mut Chain,
    first: TrackNo,
    port: &mut P,
    keep: &mut K,
) -> Result<Came, NoMemory>
    requires track { first < store.old.cylinders * 15 }
    requires takes { TakesTracks K.takes keep.old store.old }
    requires at { IsAt store.old.cylinders chain.old }
    requires none { store.old.half ≡ None }
    ensures fixed { (store.new.number ≡ store.old.number) × (store.new.cylinders ≡ store.old.cylinders) × (store.new.geometry ≡ store.old.geometry) }
    ensures takes { TakesTracks K.takes keep.new store.new }
    ensures left { IfOk result (Left store.old.cylinders chain.new) }
    ensures hand { OnErr result (IsSameHand chain.old chain.new) }
    ensures weight { weight store.new.loose ≤ weight store.old.loose + 2 }
    ensures run { Ran (where_ok result) (Heard K.hears K.takes) (follow contents (store.old.cylinders * 15) first chain.old first (state_of store.old))
        (outside (P.view port.old) store.old keep.old) (state_of store.new) (had (turn_with chain.new) result) (outside (P.view port.new) store.new keep.new) }
    ensures half { IfOk result (λ came. is_some store.new.half ≡ is_half came) }
    ensures same { OnErr result (store.new.half ≡ None) }
{
    let tracks = usize::from(store.cylinders) * usize::from(HEADS);
    let mut t = first;
    for _turn in 0..tracks {
        let step = match look(store, chain, first, t, port, keep) {
            Err(NoMemory) => return Err(NoMemory),
            Ok(step) => step,
        };
        match step {
            Step::Over(came) => return Ok(came),
            Step::On(next) => t = next,
        }
    }
    Ok(check(chain))
}
