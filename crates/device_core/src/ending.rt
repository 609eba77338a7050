ghost use Rattle.std.specs.Prelude.{◌≡◌, ◌<◌, ◌+◌, ◌++◌, ◌∷◌, [], ℕ, IfSome, IsSome, Some, None, length, option_map, true};
ghost use Rattle.ckd_chain.specs.State.{ChainState};
ghost use Rattle.plain_defs.specs.History.{OpenEntry, closed, entry_of, with_end};
ghost use Rattle.plain_defs.specs.Journal.{Plans};
ghost use Rattle.plain_defs.specs.PlainState.{with_sense};
ghost use Rattle.device_defs.specs.Device.{all_reset};
ghost use Rattle.device_defs.specs.Outcomes.{turned, told_step};
ghost use Rattle.device_defs.specs.Store.{Store};
ghost use Rattle.nv_store.specs.declared.patches.Stored.{Stored};
ghost use Rattle.track_cache.specs.declared.frames.Frame.{Frame};
ghost use Rattle.track_image.specs.Image.{Image};
ghost use Rattle.device_core.specs.Kept.{open_of, chain_of, history_of, waiting_in, ActRoom, HasRoomFor, Keeps};
ghost use Rattle.device_core.specs.State.{device_by, last_of, last_end_of, step_seen};
ghost use Rattle.device_core.specs.TrackWalk.{turn_with, Left, is_half};
ghost use Rattle.device_core.specs.Halves.{IsWaiting, is_half_step};
ghost use Rattle.device_core.specs.Words.{HasEndRoom, IsAtWord};

use crate::history::{Past, Running, Stepped};
use ckd_types::CommandEnd;
use device_defs::Came;
use plain_defs::{Entry, How, Item};
use plain_device::Paths;

/// A command of the running program ended, in room that was made. Its path keeps its sense.
fn add_end(running: &mut Option<Running>, end: CommandEnd, paths: &mut Paths)
    requires running { IsSome running.old }
    requires room { IfSome running.old (λ r. HasEndRoom r.ends) }
    ensures open { (o : OpenEntry) → option_map open_of running.old ≡ Some o → option_map open_of running.new ≡ Some (with_end o end) }
    ensures paths { (o : OpenEntry) → option_map open_of running.old ≡ Some o → paths.new ≡ with_sense paths.old o.path end.sense }
    ensures chain { option_map chain_of running.new ≡ option_map chain_of running.old }
    ensures running { IsSome running.new }
    ensures room { (n : ℕ) → IfSome running.old (HasRoomFor n) → IfSome running.new (HasRoomFor n) }
    ensures ends { (o : OpenEntry) → option_map open_of running.old ≡ Some o → length o.ends < 65534 }
{
    match running {
        Some(running) => {
            paths.keep_sense(running.path, end.sense);
            running.ends.push(end);
        }
        None => unreachable!(),
    }
}

impl Past {
    /// The running program is over: its entry stands in the journal, in room that was made.
    pub(crate) fn note_program(&mut self, how: How)
        requires running { IsSome self.old.running }
        requires room { 0 < self.old.items.spare }
        ensures over { self.new.running ≡ None }
        ensures items { (o : OpenEntry) → option_map open_of self.old.running ≡ Some o → self.new.items.items ≡ self.old.items.items ++ entry_of o how ∷ [] }
        ensures spare { self.new.items.spare + 1 ≡ self.old.items.spare }
        ensures aside { self.new.items.aside ≡ self.old.items.aside }
        ensures last { self.new.last ≡ length self.old.items.items }
        ensures rest { (self.new.kept ≡ self.old.kept) × (self.new.powered ≡ self.old.powered) }
    {
        let Some(running) = self.running.take() else {
            unreachable!()
        };
        self.last = self.items.len();
        self.items.push(Item::Program(Entry {
            path: running.path,
            ordinal: running.ordinal,
            how,
            ends: running.ends,
            acts: running.acts,
        }));
    }

    /// The running program is over: its entry and the resets that waited stand in the journal.
    fn close(&mut self, how: How, paths: &mut Paths)
        requires running { IsSome self.old.running }
        requires keeps { Keeps self.old }
        ensures over { self.new.running ≡ None }
        ensures history { (o : OpenEntry) → option_map open_of self.old.running ≡ Some o → history_of self.new ≡ closed (history_of self.old) o how }
        ensures paths { paths.new ≡ all_reset paths.old (waiting_in self.old.kept) }
        ensures last { (o : OpenEntry) → option_map open_of self.old.running ≡ Some o → last_end_of self.new ≡ last_of o.ends }
        ensures aside { self.new.items.aside ≡ self.old.items.aside }
        ensures keeps { Keeps self.new }
    {
        self.note_program(how);
        self.follow_resets(paths);
    }

    /// The command at hand came out, in room that was made.
    pub(crate) fn turned(&mut self, came: Came, paths: &mut Paths) -> Stepped
        requires running { IsSome self.old.running }
        requires ends { IfSome self.old.running (λ r. HasEndRoom r.ends) }
        requires keeps { Keeps self.old }
        ensures state { (s : Store Frame Stored Image) (plans : Plans) (o : OpenEntry) (chain : ChainState) → option_map open_of self.old.running
            ≡ Some o → option_map chain_of self.old.running ≡ Some chain → device_by s paths.new plans self.new
            ≡ turned (device_by s paths.old plans self.old) o.path (turn_with chain came) }
        ensures answer { step_seen (last_end_of self.new) result ≡ Some (told_step came) }
        ensures word { (n : ℕ) → IfSome self.old.running (λ r. Left n r.chain came) → IfSome self.new.running (λ r. IsAtWord n r.chain) }
        ensures waits { (n : ℕ) → is_half came ≡ true → IfSome self.old.running (λ r. Left n r.chain came) → IsWaiting self.new.running }
        ensures half { is_half_step result ≡ is_half came }
        ensures keeps { Keeps self.new }
        ensures room { (n : ℕ) → ActRoom n self.old → ActRoom n self.new }
    {
        match came {
            Came::Ends(end) => {
                let over = end.over;
                add_end(&mut self.running, end, paths);
                if over {
                    self.close(How::Full, paths);
                    return Stepped::Ended;
                }
                Stepped::Ended
            }
            Came::Checks(end) => {
                add_end(&mut self.running, end, paths);
                self.close(How::Checked, paths);
                Stepped::Ended
            }
            Came::HalfOpen(t) => Stepped::Half(t),
        }
    }
}
