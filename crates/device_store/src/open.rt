ghost use Rattle.std.specs.Prelude.{◌≡◌, ◌≤◌, ◌*◌, [], IfErr, IfOk, None, Some, false, replicate};
ghost use Rattle.device_defs.specs.Marks.{no_counts};
ghost use Rattle.device_defs.specs.Store.{no_debt};
ghost use Rattle.device_store.specs.State.{state_of, on_a, on_b, opened_store};

use crate::DeviceStore;
use ckd_types::{DeviceNo, Geometry, HEADS, NoMemory};
use device_defs::{Counts, Losses};
use device_outside::{TrackBuffer, Volume};
use duplex_pair::{DuplexPair, StaleMarks};
use event_notes::{Debts, LooseTracks};
use loss_model::LostList;
use nv_store::{EditRoom, Patches};
use stager::Queue;
use std::alloc::Global;
use track_cache::Frames;
use track_image::RecordRoom;

fn no_counts() -> Counts
    ensures { result ≡ no_counts }
{
    let losses = Losses {
        cache: 0,
        store: 0,
        sides: 0,
    };
    Counts {
        reads: 0,
        writes: 0,
        failed: 0,
        losses,
    }
}

/// A place for a frame of each track.
fn no_frames(alloc: Global, cylinders: u16) -> Result<Frames, NoMemory>
    requires { cylinders ≤ 4369 }
    ensures { IfOk result (λ made. made ≡ replicate (cylinders * 15) None) }
{
    let mut frames = Frames::new(alloc)?;
    frames.reserve(cylinders)?;
    Ok(frames)
}

/// A place for a patch of each track.
fn no_patches(alloc: Global, cylinders: u16) -> Result<Patches, NoMemory>
    requires { cylinders ≤ 4369 }
    ensures { IfOk result (λ made. made ≡ replicate (cylinders * 15) None) }
{
    let mut patches = Patches::new(alloc)?;
    patches.reserve(cylinders)?;
    Ok(patches)
}

/// What takes memory of a new device.
#[derive(Drop)]
struct Parts {
    frames: Frames,
    patches: Patches,
    owed: Debts,
    stale: StaleMarks,
    none: StaleMarks,
    lost: LostList,
    loose: LooseTracks,
    buffer: TrackBuffer,
}

impl Parts {
    fn new(alloc: Global, cylinders: u16) -> Result<Parts, NoMemory>
        requires { cylinders ≤ 4369 }
        ensures frames { IfOk result (λ parts. parts.frames ≡ replicate (cylinders * 15) None) }
        ensures patches { IfOk result (λ parts. parts.patches ≡ replicate (cylinders * 15) None) }
        ensures owed { IfOk result (λ parts. parts.owed ≡ replicate (cylinders * 15) no_debt) }
        ensures stale { IfOk result (λ parts. parts.stale ≡ replicate (cylinders * 15) false) }
        ensures none { IfOk result (λ parts. parts.none ≡ replicate (cylinders * 15) false) }
        ensures lost { IfOk result (λ parts. parts.lost ≡ replicate (cylinders * 15) false) }
        ensures loose { IfOk result (λ parts. parts.loose.loose ≡ replicate (cylinders * 15) false) }
        ensures acts { IfOk result (λ parts. parts.loose.acts ≡ []) }
    {
        let tracks = usize::from(cylinders) * usize::from(HEADS);
        Ok(Parts {
            frames: no_frames(alloc, cylinders)?,
            patches: no_patches(alloc, cylinders)?,
            owed: Debts::new(alloc, tracks)?,
            stale: StaleMarks::new(alloc, cylinders)?,
            none: StaleMarks::new(alloc, cylinders)?,
            lost: LostList::new(alloc, cylinders)?,
            loose: LooseTracks::new(alloc, cylinders)?,
            buffer: TrackBuffer::new(alloc)?,
        })
    }
}

impl<V: Volume> DeviceStore<V> {
    /// The tracks of a new device, over a volume of empty tracks. The volume comes back where memory is lacking.
    pub fn open(
        alloc: Global,
        number: DeviceNo,
        geometry: Geometry,
        cylinders: u16,
        volume: V,
    ) -> Result<DeviceStore<V>, (NoMemory, V)>
        requires some { 1 ≤ cylinders }
        requires most { cylinders ≤ 4369 }
        requires volume { (V.view volume).tracks ≡ cylinders * 15 }
        ensures state { IfOk result (λ s. state_of s ≡ opened_store number geometry cylinders) }
        ensures volume { IfOk result (λ s. (on_a s ≡ Some volume) × (on_b s ≡ None)) }
        ensures back { IfErr result (λ e. e.1 ≡ volume) }
    {
        let parts = match Parts::new(alloc, cylinders) {
            Ok(parts) => parts,
            Err(NoMemory) => return Err((NoMemory, volume)),
        };
        Ok(DeviceStore {
            alloc,
            number,
            geometry,
            cylinders,
            data_number: 0,
            pair: DuplexPair::single(volume, parts.stale, parts.none),
            half: None,
            frames: parts.frames,
            patches: parts.patches,
            lost: parts.lost,
            loose: parts.loose,
            queue: Queue::new(),
            owed: parts.owed,
            counts: no_counts(),
            buffer: parts.buffer,
            records: RecordRoom::new(alloc),
            edits: EditRoom::new(alloc),
        })
    }
}
