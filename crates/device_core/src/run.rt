ghost use Rattle.std.specs.Prelude.{◌≡◌, ◌≤◌, ◌+◌, ℕ, [], IfOk, IfSome, IsSome, None, OnErr, OnOk, false, is_some, option_map, List};
ghost use Rattle.ckd_types.specs.declared.record.Track.{Track};
ghost use Rattle.ckd_chain.specs.Facts.{IsChain};
ghost use Rattle.device_defs.specs.Command.{command_by};
ghost use Rattle.device_defs.specs.Contents.{contents};
ghost use Rattle.device_defs.specs.Device.{event};
ghost use Rattle.event_notes.specs.Loose.{loose_count, weight};
ghost use Rattle.device_outside.specs.declared.keep.NoKeep.{NoKeep};
ghost use Rattle.device_outside.specs.Keeper.{Heard, reply};
ghost use Rattle.device_outside.specs.Outside.{Ran, where_ok};
ghost use Rattle.device_core.specs.Halves.{is_half_step};
ghost use Rattle.device_core.specs.Kept.{open_of, chain_of, history_of, ActRoom, HasRoomFor, Keeps};
ghost use Rattle.device_core.specs.State.{around, device_of, last_end, step_had, IsSameDevice, TakesItsTracks};
ghost use Rattle.device_core.specs.Words.{HasEndRoom};
ghost use Rattle.device_laws.specs.Moved.{CommandMoves, HitReadsNone};
ghost use Rattle.device_laws.specs.Seen.{EndsAsSeen};
ghost use Rattle.past_laws.specs.PutAway.{PutAway};
ghost use Rattle.device_core.specs.Promises.{DidCommand, EndsSeen, FastWritesNone, StandsPlain, StaysExcused, StaysPlain, StaysSame, StaysSound};

use crate::Device;
use crate::history::{Past, Running, Stepped};
use crate::step::on_past;
use ckd_types::NoMemory;
use device_outside::{Keep, NoKeep, Port, Volume};
use std::alloc::Global;
use track_image::TrackImage;

/// The most ends of a program that can be counted, with one command more that took effect. A chain is over long before, behind
/// 4,096 commands.
const MOST_ENDS: usize = 65534;

/// Makes room for a command's end.
fn reserve_end(running: &mut Option<Running>) -> Result<(), NoMemory>
    requires running { IsSome running.old }
    ensures running { IsSome running.new }
    ensures room { OnOk result (IfSome running.new (λ r. HasEndRoom r.ends)) }
    ensures open { option_map open_of running.new ≡ option_map open_of running.old }
    ensures chain { option_map chain_of running.new ≡ option_map chain_of running.old }
    ensures acts { (n : ℕ) → IfSome running.old (HasRoomFor n) → IfSome running.new (HasRoomFor n) }
{
    match running {
        Some(running) => {
            if running.ends.len() >= MOST_ENDS {
                return Err(NoMemory);
            }
            running.ends.reserve(1)
        }
        None => unreachable!(),
    }
}

impl Past {
    /// Makes room for a command's end, and for so many acts. Room that is there stays.
    fn reserve(&mut self, alloc: Global, acts: usize) -> Result<(), NoMemory>
        requires few { acts ≤ 65537 }
        requires running { IsSome self.old.running }
        requires keeps { Keeps self.old }
        requires room { ActRoom 0 self.old }
        ensures history { history_of self.new ≡ history_of self.old }
        ensures chain { option_map chain_of self.new.running ≡ option_map chain_of self.old.running }
        ensures running { IsSome self.new.running }
        ensures keeps { Keeps self.new }
        ensures ends { OnOk result (IfSome self.new.running (λ r. HasEndRoom r.ends)) }
        ensures made { OnOk result (ActRoom acts self.new) }
        ensures room { (n : ℕ) → ActRoom n self.old → ActRoom n self.new }
    {
        self.reserve_acts(alloc, acts)?;
        reserve_end(&mut self.running)
    }
}

impl<V: Volume> Device<V> {
    /// The command at hand of the running program, in room that was made, with the acts that it brought.
    fn command_ready<P: Port, K: Keep<TrackImage>>(
        &mut self,
        port: &mut P,
        keep: &mut K,
    ) -> Result<Stepped, NoMemory>
        requires running { IsSome self.old.past.running }
        requires ends { IfSome self.old.past.running (λ r. HasEndRoom r.ends) }
        requires fresh { self.old.store.loose.acts ≡ [] }
        requires whole { self.old.store.half ≡ None }
        requires room { ActRoom (weight self.old.store.loose + 2) self.old.past }
        requires takes { TakesItsTracks K.takes keep.old self.old }
        ensures fixed { IsSameDevice self.old self.new }
        ensures takes { TakesItsTracks K.takes keep.new self.new }
        ensures half { IfOk result (λ step. is_some self.new.store.half ≡ is_half_step step) }
        ensures same { OnErr result (self.new.store.half ≡ None) }
        ensures run { Ran (where_ok result) (Heard K.hears K.takes)
            (command_by contents (device_of self.old) (device_of self.old).history.running (device_of self.old).chain)
            (around (P.view port.old) self.old keep.old) (device_of self.new) (step_had (last_end self.new) result)
            (around (P.view port.new) self.new keep.new) }
    {
        match on_past(
            &mut self.store,
            &mut self.paths,
            &mut self.past.running,
            port,
            keep,
        ) {
            Err(NoMemory) => {
                self.past.note_acts(self.store.loose.acts());
                Err(NoMemory)
            }
            Ok(came) => {
                self.past.note_acts(self.store.loose.acts());
                Ok(self.past.turned(came, &mut self.paths))
            }
        }
    }

    /// The same as an event.
    fn command_event<P: Port, K: Keep<TrackImage>>(
        &mut self,
        port: &mut P,
        keep: &mut K,
    ) -> Result<Stepped, NoMemory>
        requires running { IsSome self.old.past.running }
        requires ends { IfSome self.old.past.running (λ r. HasEndRoom r.ends) }
        requires room { ActRoom (loose_count self.old.store.loose.loose + 2) self.old.past }
        requires whole { self.old.store.half ≡ None }
        requires takes { TakesItsTracks K.takes keep.old self.old }
        ensures fixed { IsSameDevice self.old self.new }
        ensures takes { TakesItsTracks K.takes keep.new self.new }
        ensures half { IfOk result (λ step. is_some self.new.store.half ≡ is_half_step step) }
        ensures same { OnErr result (self.new.store.half ≡ None) }
        ensures run { Ran (where_ok result) (Heard K.hears K.takes) (event contents (device_of self.old) (λ z. command_by contents z z.history.running z.chain))
            (around (P.view port.old) self.old keep.old) (device_of self.new) (step_had (last_end self.new) result)
            (around (P.view port.new) self.new keep.new) }
    {
        let before = self.store.waiting_count();
        self.store.begin_event();
        self.store.hear::<P, K>(port);
        let stepped = self.command_ready(port, keep);
        self.store.end_event::<P, K>(before, port);
        stepped
    }

    /// The chain of the program that runs keeps to what chains keep to. No code but for the proof.
    pub fn recall_chain(&self)
        ensures { IfSome (device_of self.now).chain IsChain }
    {
        match &self.past.running {
            Some(running) => running.chain.stands(),
            None => (),
        }
    }

    /// The command at hand of the running program, while no write is half done. Its end stands in the journal (`last_end`): nothing
    /// of it is copied. Room is made first; after want of memory the program is where it was before the command.
    pub fn command_with<P: Port, K: Keep<TrackImage>>(
        &mut self,
        port: &mut P,
        keep: &mut K,
    ) -> Result<Stepped, NoMemory>
        requires running { IsSome (device_of self.old).history.running }
        requires whole { is_some (device_of self.old).store.half ≡ false }
        requires takes { TakesItsTracks K.takes keep.old self.old }
        ensures fixed { IsSameDevice self.old self.new }
        ensures takes { TakesItsTracks K.takes keep.new self.new }
        ensures half { IfOk result (λ step. is_some (device_of self.new).store.half ≡ is_half_step step) }
        ensures same { OnErr result (is_some (device_of self.new).store.half ≡ false) }
        ensures run { DidCommand (Heard K.hears K.takes) self.old (P.view port.old) keep.old self.new (P.view port.new) keep.new result }
        ensures ends_as_seen { EndsAsSeen (where_ok result) (Heard K.hears K.takes) (device_of self.old) (around (P.view port.old) self.old keep.old)
            (device_of self.new) (step_had (last_end self.new) result) (around (P.view port.new) self.new keep.new) }
        ensures ends { (past : PutAway) (first : List Track) → StandsPlain past first self.old → EndsSeen (where_ok result) (Heard K.hears K.takes) (device_of self.old)
            (around (P.view port.old) self.old keep.old) (device_of self.new) (step_had (last_end self.new) result) (around (P.view port.new) self.new keep.new) }
        ensures hit_reads_none { HitReadsNone (device_of self.old) (device_of self.new) }
        ensures fast_writes_none { (past : PutAway) (first : List Track) → StandsPlain past first self.old → FastWritesNone (where_ok result) (Heard K.hears K.takes) (device_of self.old)
            (around (P.view port.old) self.old keep.old) (device_of self.new) (step_had (last_end self.new) result) }
        ensures transfers { CommandMoves (device_of self.old) (device_of self.new) }
        ensures sound { StaysSound self.old self.new }
        ensures plain { StaysPlain self.old self.new }
        ensures excused { OnOk result (StaysExcused self.old self.new) }
        ensures same_without_memory { OnErr result (StaysSame self.old self.new) }
    {
        self.recall_chain();
        match self
            .past
            .reserve(self.store.alloc, self.store.loose.count() + 2)
        {
            Err(NoMemory) => return Err(NoMemory),
            Ok(()) => (),
        }
        self.command_event(port, keep)
    }

    /// The same, with a keeper that keeps nothing.
    pub fn command<P: Port>(&mut self, port: &mut P) -> Result<Stepped, NoMemory>
        requires running { IsSome (device_of self.old).history.running }
        requires whole { is_some (device_of self.old).store.half ≡ false }
        ensures fixed { IsSameDevice self.old self.new }
        ensures half { IfOk result (λ step. is_some (device_of self.new).store.half ≡ is_half_step step) }
        ensures same { OnErr result (is_some (device_of self.new).store.half ≡ false) }
        ensures run { (k : NoKeep) → DidCommand (λ _ m r _. r ≡ reply m) self.old (P.view port.old) k self.new (P.view port.new) k result }
        ensures ends_as_seen { (k : NoKeep) → EndsAsSeen (where_ok result) (λ _ m r _. r ≡ reply m) (device_of self.old)
            (around (P.view port.old) self.old k) (device_of self.new) (step_had (last_end self.new) result) (around (P.view port.new) self.new k) }
        ensures ends { (past : PutAway) (first : List Track) → StandsPlain past first self.old → (k : NoKeep) → EndsSeen (where_ok result) (λ _ m r _. r ≡ reply m) (device_of self.old)
            (around (P.view port.old) self.old k) (device_of self.new) (step_had (last_end self.new) result) (around (P.view port.new) self.new k) }
        ensures hit_reads_none { HitReadsNone (device_of self.old) (device_of self.new) }
        ensures fast_writes_none { (past : PutAway) (first : List Track) → StandsPlain past first self.old → (k : NoKeep) → FastWritesNone (where_ok result) (λ _ m r _. r ≡ reply m) (device_of self.old)
            (around (P.view port.old) self.old k) (device_of self.new) (step_had (last_end self.new) result) }
        ensures transfers { CommandMoves (device_of self.old) (device_of self.new) }
        ensures sound { StaysSound self.old self.new }
        ensures plain { StaysPlain self.old self.new }
        ensures excused { OnOk result (StaysExcused self.old self.new) }
        ensures same_without_memory { OnErr result (StaysSame self.old self.new) }
    {
        self.recall_chain();
        let mut keep = NoKeep;
        self.command_with(port, &mut keep)
    }
}
