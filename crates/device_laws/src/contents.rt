//! Laws of a device that tells what it holds. Each says that a part of an event leaves it in order, whatever is answered, and
//! that the same part over marks asks the same calls and leads to the same marks, with the plain volume as it is then.

ghost use Rattle.std.specs.Prelude.{◌≡◌, ◌<◌, ◌≤◌, ◌*◌, ℕ, Bool, true, false, List, length, None, Some, IfSome, Ok};
ghost use Rattle.ckd_chain.specs.declared.progress.Progress.TheVariants.{Need};
ghost use Rattle.ckd_chain.specs.Facts.{IsChain};
ghost use Rattle.ckd_chain.specs.State.{ChainState};
ghost use Rattle.ckd_chain.specs.Steps.{begun_chain, stepped};
ghost use Rattle.ckd_rules.specs.declared.order.CommandOrder.{CommandOrder};
ghost use Rattle.ckd_rules.specs.declared.stance.Stance.{Stance};
ghost use Rattle.ckd_rules.specs.Checks.{order_of};
ghost use Rattle.ckd_rules.specs.Facts.{IsOrder};
ghost use Rattle.ckd_types.specs.declared.channel.Ccw.{Ccw};
ghost use Rattle.ckd_types.specs.Fixed.{Fixed};
ghost use Rattle.ckd_types.specs.declared.geometry.Geometry.{Geometry};
ghost use Rattle.ckd_types.specs.declared.paths.Side.{Side};
ghost use Rattle.ckd_types.specs.declared.record.Edit.{Edit};
ghost use Rattle.ckd_types.specs.declared.record.Track.{Track};
ghost use Rattle.ckd_types.specs.Volume.{IsVolume, track_in, empty_volume};
ghost use Rattle.device_outside.specs.Disk.{empty_contents};
ghost use Rattle.track_image.specs.Image.{Image};
ghost use Rattle.device_defs.specs.declared.usage.Usage.{Usage};
ghost use Rattle.loss_model.specs.declared.Loss.TheVariants as losses;
ghost use Rattle.device_defs.specs.Background.{work};
ghost use Rattle.device_defs.specs.Command.{follow};
ghost use Rattle.device_defs.specs.Contents.{contents, by_plain};
ghost use Rattle.device_defs.specs.Cutting.{half_cut};
ghost use Rattle.device_defs.specs.Editing.{write};
ghost use Rattle.device_defs.specs.Events.{losing};
ghost use Rattle.device_defs.specs.Image.{image};
ghost use Rattle.device_defs.specs.Losses.{call_failed};
ghost use Rattle.device_defs.specs.Marks.{marks_of, half_mark, new_store};
ghost use Rattle.device_defs.specs.Owed.{hear, noted_end};
ghost use Rattle.device_defs.specs.Second.{second_part};
ghost use Rattle.device_defs.specs.Sound.{DeviceStore};
ghost use Rattle.device_defs.specs.Store.{HalfWrite, tracks_of, is_lost, half_is};
ghost use Rattle.device_laws.specs.Agrees.{Held, image_in};
ghost use Rattle.device_laws.specs.Feeding.{Feeds, FollowIs};
ghost use Rattle.device_laws.specs.InOrder.{IsInOrder, StaysInOrder, ImageIs, WriteIs, SecondIs, plain_lost, plain_cut};
ghost use Rattle.device_laws.specs.NewDevice.{new_contents, store_on, volume_contents};
ghost use Rattle.device_laws.specs.PlainWrites.{SuitsTrack, OriginSuits};
ghost use Rattle.device_laws.specs.Standing.{IsWithin};
ghost use Rattle.device_laws.specs.Twin.{Twins};

/// A new device on one empty volume, of up to 64 cylinders, is in order with plain volumes of empty tracks; over marks it is the new
/// device of a run.
pub fn new_device_is_in_order()
    ensures order { (d : ℕ) (g : Geometry) (n : ℕ) (h : Held) → n ≤ 4369 → h.a ≡ empty_contents (n * 15) →
        IsInOrder (empty_volume n) (empty_volume n) (new_contents d g n) h }
    ensures marks { (d : ℕ) (g : Geometry) (n : ℕ) → marks_of (empty_volume n) (empty_volume n) (new_contents d g n) ≡ new_store d g n }
{}

/// So it is on a volume that holds tracks, each where it says and such as fits, with plain volumes of these tracks.
pub fn device_on_volume_is_in_order()
    ensures order { (d : ℕ) (g : Geometry) (n : ℕ) (v : List Track) (h : Held) → IsVolume g n v → h.a ≡ volume_contents v →
        IsInOrder v v (new_contents d g n) h }
    ensures marks { (d : ℕ) (g : Geometry) (n : ℕ) (v : List Track) → marks_of v v (new_contents d g n) ≡ store_on d g n v }
    ensures empty { (n : ℕ) → empty_contents (n * 15) ≡ volume_contents (empty_volume n) }
{}

/// A failed call, but for a write's, whose track its write settles.
pub fn failed_call_leaves_order()
    ensures { (v w : List Track) (s : DeviceStore) (h : Held) (side : Side) → IsInOrder v w s h →
        Twins (λ v2 w2 z a b k. StaysInOrder v v2 w2 z a b k)
        (call_failed contents s side None) (call_failed by_plain (marks_of v w s) side None) h }
{}

/// The image that a command looks at, hit or missed, is the plain track; no bytes are bad.
pub fn image_is_plain()
    ensures { (v w : List Track) (s : DeviceStore) (h : Held) (u : Usage) (t : ℕ) → IsInOrder v w s h →
        IfSome u.last (λ l. l < tracks_of s) → t < tracks_of s → is_lost s t ≡ false → half_is s.half t ≡ false →
        Twins (λ v2 w2 z a b k. ImageIs v s t v2 w2 z a b k) (image contents s u t) (image by_plain (marks_of v w s) u t) h }
{}

/// A command's write, fast, provisional or through to the volumes: the plain volume has its edit where it is done.
pub fn write_is_plain()
    ensures { (v w : List Track) (s : DeviceStore) (h : Held) (u : Usage) (first t : ℕ) (e : Edit) → IsInOrder v w s h → t < tracks_of s →
        is_lost s t ≡ false → s.half ≡ None → SuitsTrack s.geometry (track_in v t) e →
        Twins (λ v2 w2 z a b k. WriteIs v t e v2 w2 z a b k)
        (write contents s u first t (image_in s v t) e) (write by_plain (marks_of v w s) u first t (image_in s v t) e) h }
{}

/// The second part of an open half write: a command's edit takes effect where it is done.
pub fn second_part_is_plain()
    ensures { (v w : List Track) (s : DeviceStore) (h : Held) (i : HalfWrite Image) → IsInOrder v w s h → s.half ≡ Some i →
        OriginSuits s.geometry (track_in v i.track) i.origin →
        Twins (λ v2 w2 z a b k. SecondIs v i.track i.origin v2 w2 z a b k)
        (second_part contents s i) (second_part by_plain (marks_of v w s) (half_mark i)) h }
{}

/// What a device does by itself while no half write is open: it recovers, copies, stages or destages a track.
pub fn work_is_plain()
    ensures { (v w : List Track) (s : DeviceStore) (h : Held) → IsInOrder v w s h → s.half ≡ None →
        Twins (λ v2 w2 z a b k. StaysInOrder v v2 w2 z a b k) (work contents s) (work by_plain (marks_of v w s)) h }
{}

/// The loss of the store.
pub fn lost_store_leaves_order()
    ensures { (v w : List Track) (s : DeviceStore) (h : Held) → IsInOrder v w s h →
        Twins (λ v2 w2 z a b k. StaysInOrder v v2 w2 z a b k)
        (losing contents s losses.Store) (losing by_plain (marks_of v w s) losses.Store) h }
{}

/// The loss of the cache: data of cache fast write go, and where there were some the plain volume is the firm one.
pub fn lost_cache_leaves_order()
    ensures { (v w : List Track) (s : DeviceStore) (h : Held) → IsInOrder v w s h →
        Twins (λ v2 w2 z a b k. StaysInOrder (plain_lost s v w) v2 w2 z a b k)
        (losing contents s losses.Cache) (losing by_plain (marks_of v w s) losses.Cache) h }
{}

/// What cuts a running program: an open half write of its command counts as done, and the plain volume has its edit.
pub fn cut_leaves_order()
    ensures { (v w : List Track) (s : DeviceStore) (h : Held) → IsInOrder v w s h →
        ((i : HalfWrite Image) → s.half ≡ Some i → OriginSuits s.geometry (track_in v i.track) i.origin) →
        Twins (λ v2 w2 z a b k. StaysInOrder (plain_cut s.half v) v2 w2 z a b k)
        (half_cut contents s s.half) (half_cut by_plain (marks_of v w s) (marks_of v w s).half) h }
{}

/// The order to hold side B, and the one to resume it.
pub fn held_side_leaves_order()
    ensures { (v w : List Track) (s : DeviceStore) (h : Held) (held : Bool) → IsInOrder v w s h → IsInOrder v w (record s { held = held }) h }
{}

/// The loss of a side.
pub fn lost_side_leaves_order()
    ensures { (v w : List Track) (s : DeviceStore) (h : Held) (side : Side) → IsInOrder v w s h →
        Twins (λ v2 w2 z a b k. StaysInOrder v v2 w2 z a b k)
        (losing contents s (losses.Side side)) (losing by_plain (marks_of v w s) (losses.Side side)) h }
{}

/// A command goes from track to track as the chain does that is fed with the plain tracks: it ends so, and the plain volume has its
/// edit; or with a check, and nothing was done; or it is half done.
pub fn command_goes_as_fed()
    ensures { (tracks : ℕ) (g : Geometry) (looks : ChainState → ℕ →
        Bool) (v w : List Track) (s : DeviceStore) (h : Held) (n first t : ℕ) (chain : ChainState) →
        Feeds tracks g (λ c q. looks c q ≡ true) → looks chain t ≡ true → tracks_of s ≡ tracks → s.geometry ≡ g → s.half ≡ None →
        IsInOrder v w s h →
        Twins (λ v2 w2 z a b k. FollowIs v n chain v2 w2 z a b k)
        (follow contents n first chain t s) (follow by_plain n first chain t (marks_of v w s)) h }
{}

/// The notices that an event takes first.
pub fn notices_leave_order()
    ensures { (n : ℕ) (v w : List Track) (s : DeviceStore) (h : Held) → IsInOrder v w s h →
        Twins (λ v2 w2 z a b k. StaysInOrder v v2 w2 z a b k) (hear contents n s) (hear by_plain n (marks_of v w s)) h }
{}

/// What an event tells at its end: what it owes of each track, and how many tracks wait, where before it so many did.
pub fn end_leaves_order()
    ensures { (before : ℕ) (v w : List Track) (s : DeviceStore) (h : Held) → IsInOrder v w s h →
        Twins (λ v2 w2 z a b k. StaysInOrder v v2 w2 z a b k) (noted_end contents before s) (noted_end by_plain before (marks_of v w s)) h }
{}

/// What a command is to do, where no check refuses it, goes to tracks of its device.
pub fn order_is_on_device()
    ensures { (f : Fixed) (s : Stance) (c : Ccw) (o : CommandOrder) → s.track < f.cylinders * 15 → order_of f s c ≡ Ok o →
        IsOrder (f.cylinders * 15) o }
{}

/// A chain that begins keeps to what chains keep to; one that does is on its device, also where its command hasn't begun; and its
/// command goes on to tracks of the device alone.
pub fn chain_is_on_device()
    ensures begins { (ccws : List Ccw) (f : Fixed) → 1 ≤ f.cylinders → f.cylinders ≤ 4369 → length ccws ≤ 256 → IsChain (begun_chain ccws f) }
    ensures stands { (chain : ChainState) → IsChain chain → IsWithin (chain.fixed.cylinders * 15) chain }
    ensures stays { (n : ℕ) (chain : ChainState) (i : Image) (q : ℕ) → IsWithin (n * 15) chain →
        (stepped chain (Some i)).progress ≡ Need q → IsWithin (n * 15) (stepped chain (Some i)).chain × (q < n * 15) }
{}
