//! Where the volumes of a run come from, and where they go.

ghost use Rattle.std.specs.Prelude.{◌≡◌, ◌<◌, ◌≤◌, ◌+◌, ◌++◌, ◌∷◌, [], IfOk, OnErr, OnOk, length};
ghost use Rattle.deck_run.specs.Opening.{HasTracks};
ghost use Rattle.subsystem_defs.specs.Decks.{Firsts};
ghost use Rattle.deck_top.specs.Bays.{BayView, BeginsOn, HandsOut, memory_view};
ghost use Rattle.deck_top.specs.Handed.{HoldsBytes};

use crate::bytes::holds_bytes;
use ckd_types::{DeviceNo, NoMemory, Side};
use deck_text::DeviceLine;
use device_outside::{MemBay, MemVolume, Taken, Volume};
use std::alloc::Global;

/// What hands out the volumes that the devices of a deck begin on, and takes back those that stand in them behind a run. What the volumes hold
/// first may be told or not.
pub trait VolumeBay<V: Volume> {
    ghost view: { Self → BayView V };

    /// The volume that a device of a deck begins on, of which the calls with listed numbers fail, and room for one `take_back`.
    fn hand_out(
        &mut self,
        alloc: Global,
        line: DeviceLine,
        fail_reads: &[u32],
        fail_writes: &[u32],
    ) -> Result<V, NoMemory>
        requires { line.cylinders ≤ 64 }
        ensures tracks { IfOk result (λ v. HasTracks line (V.view v)) }
        ensures begins { (firsts : Firsts) → HandsOut (view self.old) firsts
            → IfOk result (λ v. BeginsOn firsts line (record { reads = fail_reads.now; writes = fail_writes.now }) (V.view v)) }
        ensures made { OnOk result (view self.new ≡ record (view self.old) { made = (view self.old).made + 1 }) }
        ensures same { OnErr result (view self.new ≡ view self.old) };

    /// Takes a volume back.
    fn take_back(&mut self, device: DeviceNo, side: Side, volume: V)
        requires { length (view self.old).taken < (view self.old).made }
        ensures taken { view self.new ≡ record (view self.old)
            { taken = (view self.old).taken ++ record { device = device; side = side; volume = volume } ∷ [] } }
        ensures bytes { HoldsBytes (V.view volume) };

    /// How many volumes it took back: never more than it handed out.
    fn count_back(&self) -> usize
        ensures number { result ≡ length (view self.now).taken }
        ensures most { length (view self.now).taken ≤ (view self.now).made };
}

impl VolumeBay<MemVolume> for MemBay {
    ghost view = { memory_view };

    #[tactic(auto, using(crate::proofs::EmptyBays::one_more_made))]
    fn hand_out(
        &mut self,
        alloc: Global,
        line: DeviceLine,
        fail_reads: &[u32],
        fail_writes: &[u32],
    ) -> Result<MemVolume, NoMemory> {
        let volume = self.make(alloc, line.number, line.cylinders, fail_reads, fail_writes)?;
        Ok(volume)
    }

    #[tactic(auto, using(crate::proofs::EmptyBays::room_back, crate::proofs::EmptyBays::one_more_back))]
    fn take_back(&mut self, device: DeviceNo, side: Side, volume: MemVolume) {
        holds_bytes(&volume);
        self.back(Taken {
            device,
            side,
            volume,
        });
    }

    #[tactic(auto, using(crate::proofs::EmptyBays::number_back, crate::proofs::EmptyBays::most_back))]
    fn count_back(&self) -> usize {
        self.len()
    }
}
