//! Laws of transfers: how many reads and writes of volumes the parts of an event make, whatever is answered, over contents and over marks.

ghost use Rattle.std.specs.Prelude.{◌≡◌, ℕ, true, List, Option, Some, None};
ghost use Rattle.ckd_types.specs.declared.paths.Side.{Side};
ghost use Rattle.ckd_types.specs.declared.record.Edit.{Edit};
ghost use Rattle.track_cache.specs.declared.frames.Frame.{Frame};
ghost use Rattle.track_image.specs.Image.{Image};
ghost use Rattle.loss_model.specs.declared.Loss.{Loss};
ghost use Rattle.device_defs.specs.declared.answers.Choice.TheVariants.{Provisional, Fast};
ghost use Rattle.device_defs.specs.declared.answers.Did.{Did};
ghost use Rattle.device_defs.specs.Background.{copy_by, stage, saved};
ghost use Rattle.device_defs.specs.declared.usage.Usage.{Usage};
ghost use Rattle.device_defs.specs.Contents.{contents, by_plain};
ghost use Rattle.device_defs.specs.Cutting.{half_cut};
ghost use Rattle.device_defs.specs.Editing.{write_by};
ghost use Rattle.device_defs.specs.Events.{losing};
ghost use Rattle.device_defs.specs.Image.{image};
ghost use Rattle.device_defs.specs.Marks.{MarksStore};
ghost use Rattle.device_defs.specs.Owed.{hear, noted_end};
ghost use Rattle.device_defs.specs.Second.{second_part};
ghost use Rattle.device_defs.specs.Sound.{DeviceStore};
ghost use Rattle.device_defs.specs.Store.{HalfWrite, frame_at};
ghost use Rattle.device_defs.specs.Transfers.{Hit, Miss, FirstPart, SecondPart, InCache, FramedTrack, Copy, Staging, Loss as LossPart, Makes};
ghost use Rattle.device_defs.specs.Writing.{write_first};

/// A loss, an event's notices and what it tells at its end, and what cuts a running program move nothing.
pub fn losses_move_nothing()
    ensures lost { (s : DeviceStore) (loss : Loss) → Makes s LossPart (losing contents s loss) }
    ensures heard { (s : DeviceStore) (n : ℕ) → Makes s LossPart (hear contents n s) }
    ensures told { (s : DeviceStore) (before : ℕ) → Makes s LossPart (noted_end contents before s) }
    ensures cut { (s : DeviceStore) (half : Option (HalfWrite Image)) → Makes s LossPart (half_cut contents s half) }
    ensures run { (s : MarksStore) (loss : Loss) → Makes s LossPart (losing by_plain s loss) }
{}

/// A provisional and a fast write move nothing.
pub fn cache_writes_move_nothing()
    ensures provisional { (s : DeviceStore) (u : Usage) (first t : ℕ) (i : Image) (e : Edit) → Makes s InCache (write_by contents u first t i e s Provisional) }
    ensures fast { (s : DeviceStore) (u : Usage) (first t : ℕ) (i : Image) (e : Edit) (slot : Option ℕ) →
        Makes s InCache (write_by contents u first t i e s (Fast slot)) }
{}

/// The two parts of a write write the sides that take it.
pub fn writes_move_sides()
    ensures first { (s : DeviceStore) (t : ℕ) (r : List ℕ) → Makes s FirstPart (write_first contents s t r) }
    ensures second { (s : DeviceStore) (h : HalfWrite Image) → Makes s SecondPart (second_part contents s h) }
    ensures run { (s : MarksStore) (h : HalfWrite (Unit {0})) → Makes s SecondPart (second_part by_plain s h) }
{}

/// The image of a track: one with a modified frame is not read, one without a frame is, from its level sides.
pub fn image_reads_sides()
    ensures hit { (s : DeviceStore) (u : Usage) (t : ℕ) (f : Frame) → frame_at s t ≡ Some f → f.modified ≡ true → Makes s Hit (image contents s u t) }
    ensures missed { (s : DeviceStore) (u : Usage) (t : ℕ) → frame_at s t ≡ None → Makes s (Miss t) (image contents s u t) }
    ensures run { (s : MarksStore) (u : Usage) (t : ℕ) → frame_at s t ≡ None → Makes s (Miss t) (image by_plain s u t) }
{}

/// What a device does by itself: a copy reads one side and writes the other at most once, a track that is staged is read, and one with a
/// frame is saved to the sides that take it.
pub fn work_moves_sides()
    ensures copied { (s : DeviceStore) (t : ℕ) (side : Side) → Makes s Copy (copy_by contents s t (Some side)) }
    ensures staged { (s : DeviceStore) (t : ℕ) → Makes s (Staging t) (stage contents s t) }
    ensures saved { (s : DeviceStore) (t : ℕ) (i : Image) (d : Did) (fault : Option Side) → Makes s FramedTrack (saved contents s t i d fault) }
{}
