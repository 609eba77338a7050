ghost use Rattle.std.specs.Prelude.{◌≡◌, ◌≤◌, ◌*◌, ℕ, false, is_some, length, true};
ghost use Rattle.std.proofs.Props.{props};
ghost use Rattle.track_cache.specs.Frames.{is_modified};
ghost use Rattle.event_notes.specs.Loose.{is_loose_in};
ghost use Rattle.device_store.specs.Halves.{half_below, half_is_firm};
ghost use Rattle.device_store.specs.Images.{AreImagesOf, IsHalfOf};
ghost use Rattle.device_store.specs.Queued.{are_below};

use crate::HalfWrite;
use ckd_types::{DeviceNo, Geometry, Side};
use device_defs::Counts;
use device_outside::{TrackBuffer, Volume};
use duplex_pair::DuplexPair;
use event_notes::{Debts, LooseTracks};
use loss_model::LostList;
use nv_store::{EditRoom, Patches};
use stager::Queue;
use std::alloc::Global;
use track_cache::Frames;
use track_image::{RecordRoom, TrackImage};

/// The tracks of a device, over a volume or a pair of them, with a place of each for a frame and a patch. `data_number` is the
/// number of its cache fast write data; `half` is a write that is open between its two parts; `acts` are those of the event that
/// goes on, or of the last one, and `owed` of each track what the outside is still to be told. Room for an edit is made in
/// `records` and `edits` before the first effect of a write.
#[derive(Drop)]
pub struct DeviceStore<V: Volume> {
    pub alloc: Global,
    pub number: DeviceNo,
    pub geometry: Geometry,
    pub cylinders: u16,
    pub data_number: u16,
    pub pair: DuplexPair<V>,
    pub half: Option<HalfWrite>,
    pub frames: Frames,
    pub patches: Patches,
    pub lost: LostList,
    pub loose: LooseTracks,
    pub queue: Queue,
    pub owed: Debts,
    pub counts: Counts,
    pub buffer: TrackBuffer,
    pub records: RecordRoom,
    pub edits: EditRoom,
    pub ghost some: { 1 ≤ cylinders },
    pub ghost most: { cylinders ≤ 4369 },
    pub ghost stale_of_each: { length pair.a.stale ≡ cylinders * 15 },
    pub ghost frame_of_each: { length frames ≡ cylinders * 15 },
    pub ghost patch_of_each: { length patches ≡ cylinders * 15 },
    pub ghost lost_of_each: { length lost ≡ cylinders * 15 },
    pub ghost loose_of_each: { length loose.loose ≡ cylinders * 15 },
    pub ghost owed_of_each: { length owed ≡ cylinders * 15 },
    pub ghost loose_modified: { is_some pair.lent ≡ false → (t : ℕ) → is_loose_in loose.loose t ≡ true → is_modified frames t ≡ true },
    pub ghost half_here: { half_below (cylinders * 15) half ≡ true },
    pub ghost half_firm: { half_is_firm loose.loose half ≡ true },
    pub ghost queue_of_device: { are_below (cylinders * 15) queue ≡ true },
    pub ghost frames_of_tracks: { AreImagesOf geometry frames } by { Prim.hlevel props },
    pub ghost half_of_track: { IsHalfOf geometry half } by { Prim.hlevel props },
}

/// The image of a track is in its frame, or is this one; or no side gave its bytes, and the first one that failed; or the bytes of
/// this side are no track.
#[derive(Debug, Drop)]
pub enum Looked {
    Frame,
    Has(TrackImage),
    NoBytes(Option<Side>),
    BadTrack(Side),
}

/// What one track is, past the channel: its image is in its frame, or is this one; or it is lost; or this side failed, the first
/// one, and none gave bytes; or the bytes of this side are no track.
#[derive(Debug, Drop)]
pub enum Peeked {
    Frame,
    Track(TrackImage),
    Lost,
    Fault(Side),
    BadBytes(Side),
}
