//! Laws of a device in a turn, whose port tells nothing: it goes on to stand beside the plain device of its history, is sound, and is excused for what it
//! lost. No code but law functions.

ghost use Rattle.std.specs.Prelude.{◌≡◌, ◌≤◌, ◌<◌, ◌*◌, ◌^◌, ◌-◌, [], false, true, length, slice_set, ℕ, List, Option, None, Some};
ghost use Rattle.ckd_types.specs.declared.channel.Ccw.{Ccw};
ghost use Rattle.ckd_types.specs.declared.geometry.Geometry.{Geometry};
ghost use Rattle.ckd_types.specs.declared.paths.Side.{Side};
ghost use Rattle.ckd_types.specs.declared.record.Track.{Track};
ghost use Rattle.ckd_types.specs.Volume.{IsVolume};
ghost use Rattle.ckd_types.specs.declared.paths.Side.TheVariants.{B};
ghost use Rattle.loss_model.specs.declared.Loss.{Loss};
ghost use Rattle.plain_defs.specs.History.{IsPlain, OpenEntry, is_path_of};
ghost use Rattle.plain_defs.specs.Journal.{Plans};
ghost use Rattle.track_image.specs.Image.{Image};
ghost use Rattle.device_outside.specs.declared.keep.NoKeep.{NoKeep};
ghost use Rattle.device_outside.specs.After.{Tells};
ghost use Rattle.device_outside.specs.Disk.{empty_contents};
ghost use Rattle.device_outside.specs.Keeper.{reply};
ghost use Rattle.device_outside.specs.Outside.{Outside, Ran, with_view};
ghost use Rattle.device_outside.specs.Volume.{VolumeView};
ghost use Rattle.device_defs.specs.declared.answers.Did.{Did};
ghost use Rattle.device_defs.specs.declared.answers.SecondEnd.{SecondEnd};
ghost use Rattle.device_defs.specs.declared.answers.Stepped.{Stepped};
ghost use Rattle.device_defs.specs.Command.{command};
ghost use Rattle.device_defs.specs.Contents.{contents};
ghost use Rattle.ckd_chain.specs.Facts.{IsChain};
ghost use Rattle.ckd_chain.specs.State.{ChainState};
ghost use Rattle.device_defs.specs.Cutting.{power, reset};
ghost use Rattle.device_defs.specs.Events.{second, background, lose};
ghost use Rattle.device_defs.specs.Excused.{IsExcused};
ghost use Rattle.device_defs.specs.Orders.{hold_side, join, replace, resume, split};
ghost use Rattle.device_defs.specs.Peek.{Peeked, peek};
ghost use Rattle.device_defs.specs.Pledge.{command_count, seat_counts};
ghost use Rattle.device_defs.specs.Start.{start};
ghost use Rattle.device_defs.specs.Store.{HalfWrite, OfBackground, side_of, tracks_of};
ghost use Rattle.device_laws.specs.Agrees.{Held};
ghost use Rattle.device_laws.specs.NewDevice.{volume_contents};
ghost use Rattle.device_laws.specs.SoundOn.{IsSoundOn, begun_as, plain_on};
ghost use Rattle.device_laws.specs.Whole.{WholeDevice};
ghost use Rattle.subsystem_defs.specs.Refusals.{replace_fault, suspend_fault, unpair_fault};
ghost use Rattle.subsystem_laws.specs.Looking.{is_written_at};
ghost use Rattle.subsystem_laws.specs.Again.{IsAgain};
ghost use Rattle.subsystem_laws.specs.Found.{FoundPlain};
ghost use Rattle.subsystem_laws.specs.Planning.{with_planned};
ghost use Rattle.subsystem_laws.specs.WholeStood.{opened};
ghost use Rattle.plain_defs.specs.Whole.{GiveBytes, GivesAll};
ghost use Rattle.subsystem_laws.specs.Standing.{IsBesideOn, IsKept, Stands, StandsOn};

/// Behind a start that isn't refused, a command, a second part, what the device does by itself and a loss, whatever the port answers and whichever calls
/// fail, the device is beside the plain device of its history, where memory was had and its volumes tell what they hold; and it goes on to have come
/// about by its events and orders.
pub fn device_stands_on()
    ensures beside { (first : ℕ → List Track) → IsKept (IsBesideOn first) }
    ensures stands { (first : ℕ → List Track) → IsKept (StandsOn first) }
{}

/// The frames, the patches and the volumes' contents of a device beside the plain device of its history agree with it track by track, and that history is
/// one that a plain device could have, from what its volume held first.
pub fn device_beside_is_sound()
    ensures sound { (first : ℕ → List Track) (d : WholeDevice) (u : Outside (List ℕ) NoKeep) → IsBesideOn first d u → (h : Held) × Tells u.a h.a × Tells u.b h.b × IsSoundOn first d h }
    ensures plain { (first : ℕ → List Track) (d : WholeDevice) (u : Outside (List ℕ) NoKeep) → IsBesideOn first d u →
        IsPlain d.plans (begun_as first d) d.history }
{}

/// A device that stands so is excused for what it lost and for its checks, while the counts of failed calls and of losses of the cache aren't at the
/// greatest number, where they count no further.
pub fn standing_device_is_excused()
    ensures { (first : ℕ → List Track) (d : WholeDevice) (u : Outside (List ℕ) NoKeep) → StandsOn first d u → d.store.counts.failed < 2 ^ 64 - 1 →
        d.store.counts.losses.cache < 2 ^ 64 - 1 →
        IsExcused d.plans (begun_as first d) d.history.items d.store.lost d.store.counts }
{}

/// A new device stands beside the plain device of its history, as one that came about by its events and orders: on a volume that holds tracks, each
/// where it says and such as fits, and so on one of empty tracks.
pub fn new_device_stands()
    ensures first { (first : ℕ → List Track) (d : ℕ) (g : Geometry) (n : ℕ) (plans : Plans) (u : Outside (List ℕ) NoKeep) → 1 ≤ n →
        IsVolume g n (first n) → Tells u.a (volume_contents (first n)) → Tells u.b [] → GiveBytes plans → StandsOn first (opened d g n plans) u }
    ensures empty { (d : ℕ) (g : Geometry) (n : ℕ) (plans : Plans) (u : Outside (List ℕ) NoKeep) → 1 ≤ n → n ≤ 4369 → Tells u.a (empty_contents (n * 15)) →
        Tells u.b [] → GiveBytes plans → Stands (opened d g n plans) u }
{}

/// A device that stands so goes on to behind the orders that hold side B, resume it, or put a volume of as many tracks in place of a failed one, where they
/// aren't refused.
pub fn orders_let_stand()
    ensures held { (first : ℕ → List Track) (d : WholeDevice) (u : Outside (List ℕ) NoKeep) → StandsOn first d u → suspend_fault d ≡ None → StandsOn first (hold_side d) u }
    ensures resumed { (first : ℕ → List Track) (d : WholeDevice) (u : Outside (List ℕ) NoKeep) → StandsOn first d u → StandsOn first (resume d) u }
    ensures replaced { (first : ℕ → List Track) (d : WholeDevice) (u : Outside (List ℕ) NoKeep) (side : Side) (v : VolumeView (List ℕ)) (l : List (List ℕ)) → StandsOn first d u →
        replace_fault d side ≡ None → v.contents ≡ Some l → length l ≡ tracks_of d.store → StandsOn first (replace d side) (with_view u side v) }
{}

/// A device stays beside the plain device of its history behind these orders whether or not they are refused, where what is replaced is down, and side B
/// only of a pair.
pub fn orders_leave_it_beside()
    ensures held { (first : ℕ → List Track) (d : WholeDevice) (u : Outside (List ℕ) NoKeep) → IsBesideOn first d u → IsBesideOn first (hold_side d) u × IsBesideOn first (resume d) u }
    ensures replaced { (first : ℕ → List Track) (d : WholeDevice) (u : Outside (List ℕ) NoKeep) (side : Side) (v : VolumeView (List ℕ)) (l : List (List ℕ)) → IsBesideOn first d u →
        (side_of d.store side).up ≡ false → (side ≡ B → d.store.paired ≡ true) → v.contents ≡ Some l → length l ≡ tracks_of d.store →
        IsBesideOn first (replace d side) (with_view u side v) }
{}

/// An event of a path changes the count of that path alone: the start of its next program, a command of its program that runs, and the second part of
/// that command's write. What the device does by itself, the second part of its own write, and a loss change none.
pub fn events_count_one_path()
    ensures starts { (d : WholeDevice) (path : ℕ) → 1 ≤ path → path ≤ 4 → d.history.running ≡ None →
        seat_counts (start d path) ≡ slice_set (seat_counts d) path (command_count (start d path) path) }
    ensures command { (d e : WholeDevice) (u z : Outside (List ℕ) NoKeep) (a : Option Stepped) (path : ℕ) → 1 ≤ path → path ≤ 4 →
        is_path_of d.history.running path ≡ true → Ran (λ ok. Unit {0}) (λ _ m r _. r ≡ reply m) (command contents d) u e a z →
        seat_counts e ≡ slice_set (seat_counts d) path (command_count e path) }
    ensures second { (d e : WholeDevice) (u z : Outside (List ℕ) NoKeep) (a : SecondEnd) (path : ℕ) → 1 ≤ path → path ≤ 4 →
        is_path_of d.history.running path ≡ true → Ran (λ ok. Unit {0}) (λ _ m r _. r ≡ reply m) (second contents d) u e a z →
        seat_counts e ≡ slice_set (seat_counts d) path (command_count e path) }
    ensures own { (d e : WholeDevice) (u z : Outside (List ℕ) NoKeep) (a : SecondEnd) (h : HalfWrite Image) → d.store.half ≡ Some h → h.origin ≡ OfBackground →
        Ran (λ ok. Unit {0}) (λ _ m r _. r ≡ reply m) (second contents d) u e a z → seat_counts e ≡ seat_counts d }
    ensures background { (d e : WholeDevice) (u z : Outside (List ℕ) NoKeep) (a : Option Did) →
        Ran (λ ok. Unit {0}) (λ _ m r _. r ≡ reply m) (background contents d) u e a z → seat_counts e ≡ seat_counts d }
    ensures lose { (d e : WholeDevice) (u z : Outside (List ℕ) NoKeep) (a : Unit {0}) (loss : Loss) →
        Ran (λ ok. Unit {0}) (λ _ m r _. r ≡ reply m) (lose contents d loss) u e a z → seat_counts e ≡ seat_counts d }
{}

/// A device that stands so goes on to behind the reset of a path and a loss of power.
pub fn cuts_let_stand()
    ensures reset { (first : ℕ → List Track) (d e : WholeDevice) (u z : Outside (List ℕ) NoKeep) (a : Unit {0}) (path : ℕ) → StandsOn first d u →
        Ran (λ ok. ok ≡ true) (λ _ m r _. r ≡ reply m) (reset contents d path) u e a z → StandsOn first e z }
    ensures power { (first : ℕ → List Track) (d e : WholeDevice) (u z : Outside (List ℕ) NoKeep) (a : Unit {0}) → StandsOn first d u →
        Ran (λ ok. ok ≡ true) (λ _ m r _. r ≡ reply m) (power contents d) u e a z → StandsOn first e z }
{}

/// So it does behind the orders that make a pair and part one, where they aren't refused.
pub fn pairs_let_stand()
    ensures joined { (first : ℕ → List Track) (d : WholeDevice) (u : Outside (List ℕ) NoKeep) (v : VolumeView (List ℕ)) (l : List (List ℕ)) → StandsOn first d u → d.store.paired ≡ false →
        v.contents ≡ Some l → length l ≡ tracks_of d.store → StandsOn first (join d) (with_view u B v) }
    ensures parted { (first : ℕ → List Track) (d : WholeDevice) (u : Outside (List ℕ) NoKeep) → StandsOn first d u → unpair_fault d ≡ None → StandsOn first (split d) (record u { b = None }) }
{}

/// A program that is planned for a path, behind those that it has, leaves it beside the plain device of its history, and to stand so: what was started keeps its
/// place.
pub fn planned_program_lets_stand()
    ensures beside { (first : ℕ → List Track) (d : WholeDevice) (u : Outside (List ℕ) NoKeep) (path : ℕ) (program : List Ccw) → GivesAll program →
        IsBesideOn first d u → IsBesideOn first (with_planned d path program) u }
    ensures stands { (first : ℕ → List Track) (d : WholeDevice) (u : Outside (List ℕ) NoKeep) (path : ℕ) (program : List Ccw) → GivesAll program →
        StandsOn first d u → StandsOn first (with_planned d path program) u }
{}

/// Want of memory in a command, and in what a device does by itself, leaves it beside the plain device of its history, with the plain volume that it had; and, also
/// where its volumes don't tell what they hold, its paths, its plans and where its program is, and of a device that is no pair its history and its marks.
pub fn want_of_memory_leaves_device()
    ensures command { (first : ℕ → List Track) (d e : WholeDevice) (u z : Outside (List ℕ) NoKeep) (o : OpenEntry) → IsBesideOn first d u → d.store.half ≡ None → d.history.running ≡ Some o →
        ((chain : ChainState) → d.chain ≡ Some chain → IsChain chain) →
        Ran (λ ok. Unit {0}) (λ _ m r _. r ≡ reply m) (command contents d) u e None z →
        IsBesideOn first e z × ((plain_on first e).volume ≡ (plain_on first d).volume) }
    ensures background { (first : ℕ → List Track) (d e : WholeDevice) (u z : Outside (List ℕ) NoKeep) → IsBesideOn first d u → d.store.half ≡ None →
        Ran (λ ok. Unit {0}) (λ _ m r _. r ≡ reply m) (background contents d) u e None z →
        IsBesideOn first e z × ((plain_on first e).volume ≡ (plain_on first d).volume) }
    ensures same { (d e : WholeDevice) (u z : Outside (List ℕ) NoKeep) (o : OpenEntry) (chain : ChainState) → d.history.running ≡ Some o →
        d.chain ≡ Some chain → Ran (λ ok. Unit {0}) (λ _ m r _. r ≡ reply m) (command contents d) u e None z → IsAgain d e }
    ensures same_by_itself { (d e : WholeDevice) (u z : Outside (List ℕ) NoKeep) →
        Ran (λ ok. Unit {0}) (λ _ m r _. r ≡ reply m) (background contents d) u e None z → IsAgain d e }
{}

/// A look at a track, on which no half write of a command or of one that was cut is open, finds the plain device's track; or that it is lost, where it is; or a
/// side that had it and gave no bytes. It leaves the device beside the plain device of its history. So it is whatever is answered, and whether or not memory is
/// had.
pub fn look_finds_plain_track()
    ensures { (first : ℕ → List Track) (d e : WholeDevice) (u z : Outside (List ℕ) NoKeep) (t : ℕ) (a : Option Peeked) → IsBesideOn first d u → t < tracks_of d.store →
        is_written_at d.store.half t ≡ false → Ran (λ ok. Unit {0}) (λ _ m r _. r ≡ reply m) (peek contents d t) u e a z →
        FoundPlain first d t a × IsBesideOn first e z }
{}

/// A device that stands so goes on to behind such a look, whether or not memory is had. It leaves its paths, its plans and where its program is as they were, and
/// of a device that is no pair its history and its marks.
pub fn look_lets_stand()
    ensures stands { (first : ℕ → List Track) (d e : WholeDevice) (u z : Outside (List ℕ) NoKeep) (t : ℕ) (a : Option Peeked) → StandsOn first d u →
        t < tracks_of d.store → is_written_at d.store.half t ≡ false → Ran (λ ok. Unit {0}) (λ _ m r _. r ≡ reply m) (peek contents d t) u e a z →
        StandsOn first e z }
    ensures same { (d e : WholeDevice) (u z : Outside (List ℕ) NoKeep) (t : ℕ) (a : Option Peeked) →
        Ran (λ ok. Unit {0}) (λ _ m r _. r ≡ reply m) (peek contents d t) u e a z → IsAgain d e }
{}
