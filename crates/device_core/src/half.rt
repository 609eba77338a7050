ghost use Rattle.std.specs.Prelude.{◌≡◌, ◌≤◌, ◌<◌, ◌*◌, ℕ, IfSome, IsSome, Some, false, option_map};
ghost use Rattle.ckd_chain.specs.State.{ChainState};
ghost use Rattle.plain_defs.specs.History.{OpenEntry};
ghost use Rattle.plain_defs.specs.Journal.{Plans};
ghost use Rattle.nv_store.specs.declared.patches.Stored.{Stored};
ghost use Rattle.track_cache.specs.declared.frames.Frame.{Frame};
ghost use Rattle.track_image.specs.Image.{Image};
ghost use Rattle.device_defs.specs.Contents.{contents};
ghost use Rattle.device_defs.specs.Cutting.{counts_one_by};
ghost use Rattle.device_defs.specs.Events.{second_told};
ghost use Rattle.device_defs.specs.Outcomes.{turned, wrote_turn};
ghost use Rattle.device_defs.specs.Store.{Store};
ghost use Rattle.device_store.specs.State.{half_of, is_opened};
ghost use Rattle.device_core.specs.Halves.{IsWaiting};
ghost use Rattle.device_core.specs.Kept.{open_of, chain_of, ActRoom, HasRoomFor, Keeps};
ghost use Rattle.device_core.specs.State.{device_by, last_end_of, second_seen};
ghost use Rattle.device_core.specs.TrackWalk.{turn_with, is_half, Left};
ghost use Rattle.device_core.specs.Words.{HasEndRoom, IsAtWord};
ghost use Rattle.device_core.specs.declared.second.SecondStep.TheVariants.{Ended};

use crate::history::{Past, Running};
use crate::track_walk::wrote;
use ckd_types::TrackNo;
use device_defs::{Came, Took};
use device_store::{HalfWrite, Origin};
use plain_device::Paths;

/// 1 where the write that is half done is of the command at hand, else 0.
pub(crate) fn half_count(half: &Option<HalfWrite>) -> u16
    ensures count { result ≡ counts_one_by (option_map half_of half.now) }
    ensures most { result ≤ 1 }
{
    match half {
        Some(half) => match &half.origin {
            Origin::OfCommand(_, _) => 1,
            Origin::OfCut(_) => 0,
            Origin::OfBackground => 0,
        },
        None => 0,
    }
}

/// The command at hand of the running program by what came of its write.
fn end_in(running: &mut Option<Running>, t: TrackNo, took: Took) -> Came
    requires waits { IsWaiting running.old }
    ensures open { option_map open_of running.new ≡ option_map open_of running.old }
    ensures running { IsSome running.new }
    ensures ends { IfSome running.new (λ r. HasEndRoom r.ends) }
    ensures acts { (n : ℕ) → IfSome running.old (HasRoomFor n) → IfSome running.new (HasRoomFor n) }
    ensures turn { (z w : ChainState) → option_map chain_of running.old ≡ Some z → option_map chain_of running.new ≡ Some w → turn_with w result
        ≡ wrote_turn z t took }
    ensures left { (n : ℕ) → IfSome running.old (λ r. r.chain.fixed.cylinders ≡ n) → IfSome running.new (λ r. Left n r.chain result) }
    ensures half { is_half result ≡ is_opened took }
{
    match running {
        Some(running) => wrote(&mut running.chain, t, took),
        None => unreachable!(),
    }
}

impl Past {
    /// The command whose write is over ends, in room that was made.
    pub(crate) fn end_write(&mut self, t: TrackNo, took: Took, paths: &mut Paths)
        requires waits { IsWaiting self.old.running }
        requires whole { is_opened took ≡ false }
        requires keeps { Keeps self.old }
        ensures state { (s : Store Frame Stored Image) (plans : Plans) (o : OpenEntry) (chain : ChainState) → option_map open_of self.old.running
            ≡ Some o → option_map chain_of self.old.running ≡ Some chain → device_by s paths.new plans self.new
            ≡ turned (device_by s paths.old plans self.old) o.path (wrote_turn chain t took) }
        ensures answer { (chain : ChainState) → option_map chain_of self.old.running ≡ Some chain → second_seen (last_end_of self.new) Ended
            ≡ Some (second_told contents t (wrote_turn chain t took).came) }
        ensures word { (n : ℕ) → IfSome self.old.running (λ r. r.chain.fixed.cylinders ≡ n) → IfSome self.new.running (λ r. IsAtWord n r.chain) }
        ensures keeps { Keeps self.new }
        ensures room { (n : ℕ) → ActRoom n self.old → ActRoom n self.new }
    {
        let came = end_in(&mut self.running, t, took);
        let _stepped = self.turned(came, paths);
    }
}
