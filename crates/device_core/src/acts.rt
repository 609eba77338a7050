ghost use Rattle.std.specs.Prelude.{◌≡◌, ◌≤◌, ◌+◌, ◌++◌, ◌∷◌, [], ℕ, IfOk, IfSome, IsSome, OnOk, Some, length, option_map};
ghost use Rattle.plain_defs.specs.History.{OpenEntry, acted};
ghost use Rattle.device_defs.specs.Contents.{contents};
ghost use Rattle.device_defs.specs.Device.{all_acted, with_store};
ghost use Rattle.device_defs.specs.Owed.{noted_end};
ghost use Rattle.device_outside.specs.Keeper.{Heard};
ghost use Rattle.device_outside.specs.Outside.{Ran};
ghost use Rattle.device_store.specs.State.{state_of, outside, surely};
ghost use Rattle.event_notes.specs.Loose.{weight};
ghost use Rattle.device_core.specs.Kept.{open_of, chain_of, history_of, ActRoom, HasRoomFor, Keeps};
ghost use Rattle.device_core.specs.State.{device_of, IsSameDevice};
ghost use Rattle.device_core.specs.Words.{HasEndRoom};

use crate::Device;
use crate::history::{Past, Running};
use crate::start::ITEMS_BEFORE_NEXT;
use ckd_types::NoMemory;
use device_outside::{Keep, Port, Volume};
use plain_defs::{Act, ActList, Acted, Item};
use std::alloc::Global;
use track_image::TrackImage;

/// The most acts of a program. A chain is over long before, behind 4,096 commands.
const MOST_ACTS: usize = 65535;

/// An act comes to the program that runs, behind its ends so far, in room that was made.
fn add_act(running: &mut Option<Running>, act: Act)
    requires running { IsSome running.old }
    requires room { IfSome running.old (HasRoomFor 1) }
    requires counted { IfSome running.old (λ r. length r.ends.items ≤ 65534) }
    ensures open { (o : OpenEntry) → option_map open_of running.old ≡ Some o → option_map open_of running.new
        ≡ Some (record o { acts = o.acts ++ record { after = length o.ends; act = act } ∷ [] }) }
    ensures chain { option_map chain_of running.new ≡ option_map chain_of running.old }
    ensures running { IsSome running.new }
    ensures ends { IfSome running.old (λ r. HasEndRoom r.ends) → IfSome running.new (λ r. HasEndRoom r.ends) }
    ensures room { (n : ℕ) → IfSome running.old (HasRoomFor (n + 1)) → IfSome running.new (HasRoomFor n) }
{
    match running {
        Some(running) => {
            let after = running.ends.len() as u16;
            running.acts.push(Acted { after, act });
            running.room -= 1;
        }
        None => unreachable!(),
    }
}

impl Past {
    /// An act stands in the entry of the program that runs, or else in the journal, in room that was made.
    fn note_act(&mut self, act: Act)
        requires keeps { Keeps self.old }
        requires room { ActRoom 1 self.old }
        ensures history { history_of self.new ≡ acted (history_of self.old) act }
        ensures chain { option_map chain_of self.new.running ≡ option_map chain_of self.old.running }
        ensures ends { IfSome self.old.running (λ r. HasEndRoom r.ends) → IfSome self.new.running (λ r. HasEndRoom r.ends) }
        ensures keeps { Keeps self.new }
        ensures room { (n : ℕ) → ActRoom (n + 1) self.old → ActRoom n self.new }
    {
        if self.is_running() {
            add_act(&mut self.running, act);
            return;
        }
        self.items.push_act(Item::Act(act));
    }

    /// The acts of an event, one after another.
    pub(crate) fn note_acts(&mut self, acts: &[Act])
        requires keeps { Keeps self.old }
        requires room { ActRoom (length acts.now) self.old }
        ensures history { history_of self.new ≡ all_acted (history_of self.old) acts.now }
        ensures chain { option_map chain_of self.new.running ≡ option_map chain_of self.old.running }
        ensures ends { IfSome self.old.running (λ r. HasEndRoom r.ends) → IfSome self.new.running (λ r. HasEndRoom r.ends) }
        ensures keeps { Keeps self.new }
        ensures room { (n : ℕ) → ActRoom (n + length acts.now) self.old → ActRoom n self.new }
    {
        for act in acts {
            self.note_act(*act);
        }
    }

    /// Makes room for so many acts, of the program that runs and behind it. Room that is there stays.
    pub(crate) fn reserve_acts(&mut self, alloc: Global, n: usize) -> Result<(), NoMemory>
        requires few { n ≤ 65537 }
        requires keeps { Keeps self.old }
        requires room { ActRoom 0 self.old }
        ensures history { history_of self.new ≡ history_of self.old }
        ensures chain { option_map chain_of self.new.running ≡ option_map chain_of self.old.running }
        ensures running { IsSome self.old.running → IsSome self.new.running }
        ensures rest { (self.new.kept ≡ self.old.kept) × (self.new.powered ≡ self.old.powered) × (self.new.last ≡ self.old.last) }
        ensures keeps { Keeps self.new }
        ensures made { OnOk result (ActRoom n self.new) }
        ensures room { (m : ℕ) → ActRoom m self.old → ActRoom m self.new }
    {
        self.items.reserve(ITEMS_BEFORE_NEXT, n)?;
        reserve_in(alloc, &mut self.running, n)
    }
}

/// The same acts, with room for so many more.
fn roomier(alloc: Global, acts: &ActList, n: usize) -> Result<ActList, NoMemory>
    requires { n ≤ 65537 }
    ensures items { IfOk result (λ made. made.items ≡ acts.now.items) }
    ensures room { IfOk result (λ made. n ≤ made.spare) }
{
    let mut made = ActList::new(alloc);
    if acts.len() > MOST_ACTS {
        return Err(NoMemory);
    }
    made.reserve(acts.len() + n)?;
    for act in acts.as_slice() {
        made.push(*act);
    }
    Ok(made)
}

/// Makes room for so many acts of a program that runs.
fn reserve_in(alloc: Global, running: &mut Option<Running>, n: usize) -> Result<(), NoMemory>
    requires few { n ≤ 65537 }
    requires room { IfSome running.old (HasRoomFor 0) }
    ensures open { option_map open_of running.new ≡ option_map open_of running.old }
    ensures chain { option_map chain_of running.new ≡ option_map chain_of running.old }
    ensures running { IsSome running.old → IsSome running.new }
    ensures made { OnOk result (IfSome running.new (HasRoomFor n)) }
    ensures room { (m : ℕ) → IfSome running.old (HasRoomFor m) → IfSome running.new (HasRoomFor m) }
{
    match running {
        Some(running) => {
            if running.room < n {
                running.acts = roomier(alloc, &running.acts, n)?;
                running.room = n;
            }
            Ok(())
        }
        None => Ok(()),
    }
}

impl<V: Volume> Device<V> {
    /// The acts of an event come to the device, and the event ends, before which so many tracks waited.
    pub(crate) fn close_event<P: Port, K: Keep<TrackImage>>(&mut self, before: u16, port: &mut P)
        requires room { ActRoom (weight self.old.store.loose) self.old.past }
        ensures fixed { IsSameDevice self.old self.new }
        ensures rest { state_of self.new.store ≡ record (state_of self.old.store) { owed = self.new.store.owed } }
        ensures run { (k : K) → Ran surely (Heard K.hears K.takes) (noted_end contents before (state_of self.old.store))
            (outside (P.view port.old) self.old.store k) (state_of self.new.store) tt (outside (P.view port.new) self.new.store k) }
        ensures device { device_of self.new ≡ record (with_store (device_of self.old) (state_of self.old.store)) { store = state_of self.new.store } }
    {
        self.past.note_acts(self.store.loose.acts());
        self.store.end_event::<P, K>(before, port);
    }
}
