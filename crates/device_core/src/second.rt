ghost use Rattle.std.specs.Prelude.{◌≡◌, [], IsSome, None, Option, Some, is_some, true, if◌then◌else◌};
ghost use Rattle.ckd_types.specs.declared.channel.CommandEnd.{CommandEnd};
ghost use Rattle.device_defs.specs.declared.answers.SecondEnd.{SecondEnd};
ghost use Rattle.device_defs.specs.declared.answers.SecondEnd.TheVariants as seconds;
ghost use Rattle.device_defs.specs.declared.answers.Took.TheVariants.{Whole, Unwritten};
ghost use Rattle.event_notes.specs.Loose.{weight};
ghost use Rattle.device_core.specs.Kept.{ActRoom};
ghost use Rattle.device_defs.specs.Contents.{contents};
ghost use Rattle.device_defs.specs.Events.{second, second_of};
ghost use Rattle.device_outside.specs.declared.keep.NoKeep.{NoKeep};
ghost use Rattle.device_outside.specs.Keeper.{Heard, reply};
ghost use Rattle.device_outside.specs.Outside.{Ran};
ghost use Rattle.device_store.specs.State.{surely, Takes};
ghost use Rattle.device_core.specs.State.{around, device_of, last_end, second_seen, IsSameDevice, TakesItsTracks};
ghost use Rattle.device_laws.specs.Moved.{SecondMoves};
ghost use Rattle.device_laws.specs.Seen.{EndsAsKept};
ghost use Rattle.device_core.specs.Promises.{StaysExcused, StaysPlain, StaysSound};

use crate::Device;
use ckd_types::TrackNo;
use device_defs::Took;
use device_outside::{Keep, NoKeep, Port, Volume};
use track_image::TrackImage;

/// A second part: the command whose write it was ended, and its end stands in the journal (`last_end`); or another write in two
/// parts is done, or isn't.
#[derive(Clone, Copy, Debug)]
pub enum SecondStep {
    Ended,
    Finished(TrackNo),
    Unwritten(TrackNo),
}

fn first_track() -> TrackNo
    ensures { result ≡ 0 }
{
    TrackNo::new(0).unwrap()
}

fn took_of(done: bool) -> Took
    ensures { result ≡ (if done then Whole else Unwritten) }
{
    if done { Took::Whole } else { Took::Unwritten }
}

/// The second part of a write that no command waits for.
fn told(track: TrackNo, done: bool) -> SecondStep
    ensures { (last : Option CommandEnd) → second_seen last result ≡ Some (if done then seconds.Finished track else seconds.Unwritten track) }
{
    if done {
        return SecondStep::Finished(track);
    }
    SecondStep::Unwritten(track)
}

impl<V: Volume> Device<V> {
    /// The second part of the write that is half done, with the acts that it brought, and the end of the command that waits for it.
    fn second_ready<P: Port, K: Keep<TrackImage>>(
        &mut self,
        port: &mut P,
        keep: &mut K,
    ) -> SecondStep
        requires open { is_some self.old.store.half ≡ true }
        requires room { ActRoom (weight self.old.store.loose) self.old.past }
        requires takes { TakesItsTracks K.takes keep.old self.old }
        ensures fixed { IsSameDevice self.old self.new }
        ensures takes { TakesItsTracks K.takes keep.new self.new }
        ensures whole { self.new.store.half ≡ None }
        ensures seen { IsSome (second_seen (last_end self.new) result) }
        ensures run { (e : SecondEnd) → second_seen (last_end self.new) result ≡ Some e
            → Ran surely (Heard K.hears K.takes) (second_of contents (device_of self.old) (device_of self.old).store.half)
            (around (P.view port.old) self.old keep.old) (device_of self.new) e (around (P.view port.new) self.new keep.new) }
    {
        let part = self.store.second(port, keep);
        self.past.note_acts(self.store.loose.acts());
        if part.of_command {
            self.past
                .end_write(part.track, took_of(part.done), &mut self.paths);
            return SecondStep::Ended;
        }
        told(part.track, part.done)
    }

    /// The same, where a write is half done.
    fn second_where<P: Port, K: Keep<TrackImage>>(
        &mut self,
        port: &mut P,
        keep: &mut K,
    ) -> SecondStep
        requires room { ActRoom (weight self.old.store.loose) self.old.past }
        requires fresh { self.old.store.loose.acts ≡ [] }
        requires takes { TakesItsTracks K.takes keep.old self.old }
        ensures fixed { IsSameDevice self.old self.new }
        ensures takes { TakesItsTracks K.takes keep.new self.new }
        ensures whole { self.new.store.half ≡ None }
        ensures seen { IsSome (second_seen (last_end self.new) result) }
        ensures run { (e : SecondEnd) → second_seen (last_end self.new) result ≡ Some e
            → Ran surely (Heard K.hears K.takes) (second_of contents (device_of self.old) (device_of self.old).store.half)
            (around (P.view port.old) self.old keep.old) (device_of self.new) e (around (P.view port.new) self.new keep.new) }
    {
        if self.store.half_open() {
            return self.second_ready(port, keep);
        }
        SecondStep::Unwritten(first_track())
    }

    /// The second part of the write that is half done. Takes no memory. Where none is, the notes are taken, and nothing is written. The
    /// keeper is told of a track that it makes firm.
    pub fn second_with<P: Port, K: Keep<TrackImage>>(
        &mut self,
        port: &mut P,
        keep: &mut K,
    ) -> SecondStep
        requires takes { TakesItsTracks K.takes keep.old self.old }
        ensures fixed { IsSameDevice self.old self.new }
        ensures takes { TakesItsTracks K.takes keep.new self.new }
        ensures whole { (device_of self.new).store.half ≡ None }
        ensures seen { IsSome (second_seen (last_end self.new) result) }
        ensures run { (e : SecondEnd) → second_seen (last_end self.new) result ≡ Some e
            → Ran surely (Heard K.hears K.takes) (second contents (device_of self.old)) (around (P.view port.old) self.old keep.old)
            (device_of self.new) e (around (P.view port.new) self.new keep.new) }
        ensures ends_as_kept { (e : SecondEnd) → second_seen (last_end self.new) result ≡ Some e → EndsAsKept (device_of self.old) (device_of self.new) e }
        ensures transfers { (e : SecondEnd) → second_seen (last_end self.new) result ≡ Some e → SecondMoves (device_of self.old) (device_of self.new) }
        ensures sound { is_some (device_of self.old).store.half ≡ true → StaysSound self.old self.new }
        ensures plain { is_some (device_of self.old).store.half ≡ true → StaysPlain self.old self.new }
        ensures excused { is_some (device_of self.old).store.half ≡ true → StaysExcused self.old self.new }
    {
        let before = self.store.waiting_count();
        self.store.begin_event();
        self.store.hear::<P, K>(port);
        let step = self.second_where(port, keep);
        self.store.end_event::<P, K>(before, port);
        step
    }

    /// The same, with a keeper that keeps nothing.
    pub fn second<P: Port>(&mut self, port: &mut P) -> SecondStep
        ensures fixed { IsSameDevice self.old self.new }
        ensures whole { (device_of self.new).store.half ≡ None }
        ensures seen { IsSome (second_seen (last_end self.new) result) }
        ensures run { (k : NoKeep) (e : SecondEnd) → second_seen (last_end self.new) result ≡ Some e
            → Ran surely (λ _ m r _. r ≡ reply m) (second contents (device_of self.old)) (around (P.view port.old) self.old k)
            (device_of self.new) e (around (P.view port.new) self.new k) }
        ensures ends_as_kept { (e : SecondEnd) → second_seen (last_end self.new) result ≡ Some e → EndsAsKept (device_of self.old) (device_of self.new) e }
        ensures transfers { (e : SecondEnd) → second_seen (last_end self.new) result ≡ Some e → SecondMoves (device_of self.old) (device_of self.new) }
        ensures sound { is_some (device_of self.old).store.half ≡ true → StaysSound self.old self.new }
        ensures plain { is_some (device_of self.old).store.half ≡ true → StaysPlain self.old self.new }
        ensures excused { is_some (device_of self.old).store.half ≡ true → StaysExcused self.old self.new }
    {
        let mut keep = NoKeep;
        self.second_with(port, &mut keep)
    }
}
