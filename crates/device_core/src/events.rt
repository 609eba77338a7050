ghost use Rattle.std.specs.Prelude.{◌≡◌, ◌<◌, ◌*◌, IfOk, OnErr, OnOk, Some, false, is_some, List};
ghost use Rattle.ckd_types.specs.declared.record.Track.{Track};
ghost use Rattle.device_defs.specs.Contents.{contents};
ghost use Rattle.device_defs.specs.Events.{background};
ghost use Rattle.device_defs.specs.Peek.{peek};
ghost use Rattle.device_outside.specs.declared.keep.NoKeep.{NoKeep};
ghost use Rattle.device_outside.specs.Keeper.{Heard, reply};
ghost use Rattle.device_outside.specs.Outside.{Ran, where_ok};
ghost use Rattle.device_store.specs.Looks.{peeked_by, IsPeeked};
ghost use Rattle.device_store.specs.State.{state_of, outside, had, TakesTracks};
ghost use Rattle.device_core.specs.State.{around, device_of, IsSameDevice, TakesItsTracks};
ghost use Rattle.device_laws.specs.Moved.{LookMoves, WorkMoves};
ghost use Rattle.device_laws.specs.Seen.{KeepsPaths};
ghost use Rattle.device_core.specs.Promises.{StandsPlain, StaysExcused, StaysLent, StaysPlain, StaysSame, StaysSound, whole_of};
ghost use Rattle.past_laws.specs.PutAway.{PutAway};
ghost use Rattle.subsystem_laws.specs.Looking.{is_written_at};
ghost use Rattle.subsystem_laws.specs.Found.{FoundPlain};

use crate::Device;
use ckd_types::{NoMemory, TrackNo};
use device_defs::Did;
use device_outside::{Keep, NoKeep, Port, Volume};
use device_store::Peeked;
use track_image::TrackImage;

impl<V: Volume> Device<V> {
    /// What the device does by itself, behind its notes, while no write is half done: it recovers a track, copies one to the other
    /// side, stages the oldest queued one or destages one. After want of memory a queued track isn't queued any more. The
    /// keeper is told of a track that it makes firm.
    pub fn background_with<P: Port, K: Keep<TrackImage>>(
        &mut self,
        port: &mut P,
        keep: &mut K,
    ) -> Result<Did, NoMemory>
        requires whole { is_some (device_of self.old).store.half ≡ false }
        requires takes { TakesItsTracks K.takes keep.old self.old }
        ensures fixed { IsSameDevice self.old self.new }
        ensures takes { TakesItsTracks K.takes keep.new self.new }
        ensures run { Ran (where_ok result) (Heard K.hears K.takes) (background contents (device_of self.old))
            (around (P.view port.old) self.old keep.old) (device_of self.new) (had (λ did. did) result)
            (around (P.view port.new) self.new keep.new) }
        ensures paths { KeepsPaths (device_of self.old) (device_of self.new) }
        ensures transfers { WorkMoves (device_of self.old) (had (λ did. did) result) (device_of self.new) }
        ensures sound { StaysSound self.old self.new }
        ensures plain { StaysPlain self.old self.new }
        ensures excused { OnOk result (StaysExcused self.old self.new) }
        ensures same_without_memory { OnErr result (StaysSame self.old self.new) }
        ensures lent { OnOk result (StaysLent self.old self.new) }
    {
        let before = self.store.waiting_count();
        self.store.begin_event();
        self.store.hear::<P, K>(port);
        let did = self.store.background(port, keep);
        self.close_event::<P, K>(before, port);
        did
    }

    /// The same, with a keeper that keeps nothing.
    pub fn background<P: Port>(&mut self, port: &mut P) -> Result<Did, NoMemory>
        requires whole { is_some (device_of self.old).store.half ≡ false }
        ensures fixed { IsSameDevice self.old self.new }
        ensures run { (k : NoKeep) → Ran (where_ok result) (λ _ m r _. r ≡ reply m) (background contents (device_of self.old))
            (around (P.view port.old) self.old k) (device_of self.new) (had (λ did. did) result) (around (P.view port.new) self.new k) }
        ensures paths { KeepsPaths (device_of self.old) (device_of self.new) }
        ensures transfers { WorkMoves (device_of self.old) (had (λ did. did) result) (device_of self.new) }
        ensures sound { StaysSound self.old self.new }
        ensures plain { StaysPlain self.old self.new }
        ensures excused { OnOk result (StaysExcused self.old self.new) }
        ensures same_without_memory { OnErr result (StaysSame self.old self.new) }
        ensures lent { OnOk result (StaysLent self.old self.new) }
    {
        let mut keep = NoKeep;
        self.background_with(port, &mut keep)
    }

    /// A look at one track of the device past the channel. It takes no notes. It finds the track of the plain device of its history; or that it is lost, where it
    /// is; or a side that had the track and gave no bytes; or side A, where no side had it.
    pub fn peek_with<P: Port, K: Keep<TrackImage>>(
        &mut self,
        t: TrackNo,
        port: &mut P,
        keep: &mut K,
    ) -> Result<Peeked, NoMemory>
        requires track { t < self.old.store.cylinders * 15 }
        requires takes { TakesTracks K.takes keep.old self.old.store }
        ensures fixed { IsSameDevice self.old self.new }
        ensures takes { TakesTracks K.takes keep.new self.new.store }
        ensures there { IfOk result (IsPeeked (state_of self.new.store) t) }
        ensures run { Ran (where_ok result) (Heard K.hears K.takes) (peek contents (device_of self.old) t) (outside (P.view port.old) self.old.store keep.old)
            (device_of self.new) (had (peeked_by (state_of self.new.store) t) result) (outside (P.view port.new) self.new.store keep.new) }
        ensures paths { KeepsPaths (device_of self.old) (device_of self.new) }
        ensures transfers { LookMoves (device_of self.old) (device_of self.new) }
        ensures sound { is_written_at (device_of self.old).store.half t ≡ false → StaysSound self.old self.new }
        ensures plain { is_written_at (device_of self.old).store.half t ≡ false → StaysPlain self.old self.new }
        ensures excused { is_written_at (device_of self.old).store.half t ≡ false → StaysExcused self.old self.new }
        ensures same { is_written_at (device_of self.old).store.half t ≡ false → StaysSame self.old self.new }
        ensures lent { StaysLent self.old self.new }
        ensures answers { (past : PutAway) (first : List Track) → StandsPlain past first self.old → is_written_at (device_of self.old).store.half t ≡ false
            → IfOk result (λ p. FoundPlain (λ _. first) (whole_of past self.old) t (Some (peeked_by (state_of self.new.store) t p))) }
    {
        let before = self.store.waiting_count();
        self.store.begin_event();
        let peeked = self.store.peek(t, port, keep);
        self.close_event::<P, K>(before, port);
        peeked
    }

    /// The same, with a keeper that keeps nothing.
    pub fn peek<P: Port>(&mut self, t: TrackNo, port: &mut P) -> Result<Peeked, NoMemory>
        requires { t < self.old.store.cylinders * 15 }
        ensures fixed { IsSameDevice self.old self.new }
        ensures there { IfOk result (IsPeeked (state_of self.new.store) t) }
        ensures run { (k : NoKeep) → Ran (where_ok result) (λ _ m r _. r ≡ reply m) (peek contents (device_of self.old) t)
            (outside (P.view port.old) self.old.store k) (device_of self.new) (had (peeked_by (state_of self.new.store) t) result)
            (outside (P.view port.new) self.new.store k) }
        ensures paths { KeepsPaths (device_of self.old) (device_of self.new) }
        ensures transfers { LookMoves (device_of self.old) (device_of self.new) }
        ensures sound { is_written_at (device_of self.old).store.half t ≡ false → StaysSound self.old self.new }
        ensures plain { is_written_at (device_of self.old).store.half t ≡ false → StaysPlain self.old self.new }
        ensures excused { is_written_at (device_of self.old).store.half t ≡ false → StaysExcused self.old self.new }
        ensures same { is_written_at (device_of self.old).store.half t ≡ false → StaysSame self.old self.new }
        ensures lent { StaysLent self.old self.new }
        ensures answers { (past : PutAway) (first : List Track) → StandsPlain past first self.old → is_written_at (device_of self.old).store.half t ≡ false
            → IfOk result (λ p. FoundPlain (λ _. first) (whole_of past self.old) t (Some (peeked_by (state_of self.new.store) t p))) }
    {
        let mut keep = NoKeep;
        self.peek_with(t, port, &mut keep)
    }
}
