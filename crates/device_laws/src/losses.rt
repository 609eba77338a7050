//! Laws of lost tracks: a lost list grows only where a loss came, a call failed, or a second part found no side; and of a device to
//! which nothing happened but losses of the cache and of power no track is ever lost. They hold whatever is answered, and whether
//! memory is had or not.

ghost use Rattle.std.specs.Prelude.{count_by, ◌≡◌, ◌<◌, ◌≤◌, ◌^◌, ◌-◌, ℕ, false, List, Option, None, Some};
ghost use Rattle.ckd_chain.specs.State.{ChainState};
ghost use Rattle.ckd_types.specs.declared.geometry.Geometry.{Geometry};
ghost use Rattle.ckd_types.specs.declared.paths.Side.{Side};
ghost use Rattle.ckd_types.specs.declared.record.Track.{Track};
ghost use Rattle.device_outside.specs.Outside.{Outside, Ran};
ghost use Rattle.device_defs.specs.declared.answers.Did.{Did};
ghost use Rattle.device_defs.specs.declared.answers.SecondEnd.{SecondEnd};
ghost use Rattle.device_defs.specs.declared.answers.Stepped.{Stepped};
ghost use Rattle.device_defs.specs.Command.{command};
ghost use Rattle.device_defs.specs.Contents.{contents};
ghost use Rattle.device_defs.specs.Cutting.{power, reset};
ghost use Rattle.device_defs.specs.Events.{second, background, lose};
ghost use Rattle.device_defs.specs.Excused.{count_lost, loose_losses, may_lose};
ghost use Rattle.device_defs.specs.Orders.{join, split, replace, hold_side, resume};
ghost use Rattle.device_defs.specs.Sound.{DeviceStore};
ghost use Rattle.device_defs.specs.Start.{start};
ghost use Rattle.device_defs.specs.Store.{side_of};
ghost use Rattle.device_laws.specs.Agrees.{Held};
ghost use Rattle.device_laws.specs.InOrder.{IsInOrder};
ghost use Rattle.device_laws.specs.NewDevice.{new_contents};
ghost use Rattle.device_laws.specs.Standing.{IsChainOf};
ghost use Rattle.device_laws.specs.Unharmed.{
  MarksAreGood,
  IsUncached,
  IsUnharmed,
  HalfIsTried,
  LossesAreCounted,
  RunsUnharmed,
  IsCalm,
  ends_with_equipment_check,
  NothingLost,
};
ghost use Rattle.device_laws.specs.Whole.{WholeDevice};
ghost use Rattle.loss_model.specs.declared.Loss.{Loss};

use device_outside::Keep;
use track_image::TrackImage;

/// A device that is in order has good marks.
pub fn order_has_good_marks()
    ensures { (v w : List Track) (s : DeviceStore) (h : Held) → IsInOrder v w s h → MarksAreGood contents s }
{}

/// Where no more calls failed, the lost list is the same behind a command, behind what the device does by itself, and behind a second
/// part that tries side B or finds the track on a side.
pub fn lost_list_grows_where_calls_fail<K: Keep<TrackImage>>()
    ensures command { (d e : WholeDevice) (u z : Outside (List ℕ) K) (a : Option Stepped) → MarksAreGood contents d.store → d.store.half ≡ None →
        ((chain : ChainState) → d.chain ≡ Some chain → IsChainOf d.store.cylinders chain) → d.store.counts.failed < 2 ^ 64 - 1 →
        Ran (λ ok. Unit {0}) K.hears (command contents d) u e a z → e.store.counts.failed ≡ d.store.counts.failed → e.store.lost ≡ d.store.lost }
    ensures background { (d e : WholeDevice) (u z : Outside (List ℕ) K) (a : Option Did) → MarksAreGood contents d.store → d.store.counts.failed < 2 ^ 64 - 1 →
        Ran (λ ok. Unit {0}) K.hears (background contents d) u e a z → e.store.counts.failed ≡ d.store.counts.failed → e.store.lost ≡ d.store.lost }
    ensures second { (d e : WholeDevice) (u z : Outside (List ℕ) K) (a : SecondEnd) → MarksAreGood contents d.store → HalfIsTried d.store →
        d.store.counts.failed < 2 ^ 64 - 1 → Ran (λ ok. Unit {0}) K.hears (second contents d) u e a z →
        e.store.counts.failed ≡ d.store.counts.failed → e.store.lost ≡ d.store.lost }
{}

/// Where no side was lost, no call failed and the store wasn't lost, side A is up and has each track, and none is lost: so it is of a
/// new device, and behind each event and order.
pub fn unharmed_device_loses_no_track<K: Keep<TrackImage>>()
    ensures counts { (d : WholeDevice) → IsUnharmed d.store → NothingLost d.store → count_lost d.store.lost ≡ 0 }
    ensures made { (d : ℕ) (g : Geometry) (n : ℕ) → IsUnharmed (new_contents d g n) }
    ensures starts { (d : WholeDevice) (path : ℕ) → IsUnharmed d.store → IsUnharmed (start d path).store }
    ensures command { (d e : WholeDevice) (u z : Outside (List ℕ) K) (a : Option Stepped) → MarksAreGood contents d.store → d.store.half ≡ None →
        ((chain : ChainState) → d.chain ≡ Some chain → IsChainOf d.store.cylinders chain) → d.store.counts.failed < 2 ^ 64 - 1 → IsUnharmed d.store →
        Ran (λ ok. Unit {0}) K.hears (command contents d) u e a z → IsUnharmed e.store }
    ensures second { (d e : WholeDevice) (u z : Outside (List ℕ) K) (a : SecondEnd) → MarksAreGood contents d.store → d.store.counts.failed < 2 ^ 64 - 1 →
        IsUnharmed d.store → Ran (λ ok. Unit {0}) K.hears (second contents d) u e a z → IsUnharmed e.store }
    ensures background { (d e : WholeDevice) (u z : Outside (List ℕ) K) (a : Option Did) → MarksAreGood contents d.store → d.store.counts.failed < 2 ^ 64 - 1 →
        IsUnharmed d.store → Ran (λ ok. Unit {0}) K.hears (background contents d) u e a z → IsUnharmed e.store }
    ensures lose { (d e : WholeDevice) (u z : Outside (List ℕ) K) (a : Unit {0}) (loss : Loss) → MarksAreGood contents d.store →
        d.store.counts.failed < 2 ^ 64 - 1 → IsUnharmed d.store → Ran (λ ok. Unit {0}) K.hears (lose contents d loss) u e a z → IsUnharmed e.store }
    ensures reset { (d e : WholeDevice) (u z : Outside (List ℕ) K) (a : Unit {0}) (path : ℕ) → d.store.counts.failed < 2 ^ 64 - 1 → IsUnharmed d.store →
        Ran (λ ok. Unit {0}) K.hears (reset contents d path) u e a z → IsUnharmed e.store }
    ensures power { (d e : WholeDevice) (u z : Outside (List ℕ) K) (a : Unit {0}) → d.store.counts.failed < 2 ^ 64 - 1 → IsUnharmed d.store →
        Ran (λ ok. Unit {0}) K.hears (power contents d) u e a z → IsUnharmed e.store }
    ensures held { (d : WholeDevice) → IsUnharmed d.store → IsUnharmed (hold_side d).store × IsUnharmed (resume d).store }
    ensures paired { (d : WholeDevice) → IsUnharmed d.store → IsUnharmed (join d).store × IsUnharmed (split d).store }
    ensures replaced { (d : WholeDevice) (side : Side) → IsUnharmed d.store → (side_of d.store side).up ≡ false → IsUnharmed (replace d side).store }
{}

/// Where no side was lost and no call failed, and neither the cache nor the power was lost, side A is up, no track is lost, and each track with a
/// patch has a frame: so it is of a new device, and behind each event and order. With the law above, the lost list is empty of a device that
/// has no loss of a side, no failed call, and losses of the cache or of the store alone.
pub fn excused_device_loses_no_track<K: Keep<TrackImage>>()
    ensures excused { (d : WholeDevice) → IsUnharmed d.store → IsUncached d.store → may_lose d.store.counts ≡ false → count_lost d.store.lost ≡ 0 }
    ensures made { (d : ℕ) (g : Geometry) (n : ℕ) → IsUncached (new_contents d g n) }
    ensures starts { (d : WholeDevice) (path : ℕ) → IsUncached d.store → IsUncached (start d path).store }
    ensures command { (d e : WholeDevice) (u z : Outside (List ℕ) K) (a : Option Stepped) → MarksAreGood contents d.store → d.store.half ≡ None →
        ((chain : ChainState) → d.chain ≡ Some chain → IsChainOf d.store.cylinders chain) → d.store.counts.failed < 2 ^ 64 - 1 → IsUncached d.store →
        Ran (λ ok. Unit {0}) K.hears (command contents d) u e a z → IsUncached e.store }
    ensures second { (d e : WholeDevice) (u z : Outside (List ℕ) K) (a : SecondEnd) → MarksAreGood contents d.store → d.store.counts.failed < 2 ^ 64 - 1 →
        IsUncached d.store → Ran (λ ok. Unit {0}) K.hears (second contents d) u e a z → IsUncached e.store }
    ensures background { (d e : WholeDevice) (u z : Outside (List ℕ) K) (a : Option Did) → MarksAreGood contents d.store → d.store.half ≡ None →
        d.store.counts.failed < 2 ^ 64 - 1 → IsUncached d.store → Ran (λ ok. Unit {0}) K.hears (background contents d) u e a z → IsUncached e.store }
    ensures lose { (d e : WholeDevice) (u z : Outside (List ℕ) K) (a : Unit {0}) (loss : Loss) → MarksAreGood contents d.store →
        d.store.counts.failed < 2 ^ 64 - 1 → IsUncached d.store → Ran (λ ok. Unit {0}) K.hears (lose contents d loss) u e a z → IsUncached e.store }
    ensures reset { (d e : WholeDevice) (u z : Outside (List ℕ) K) (a : Unit {0}) (path : ℕ) → MarksAreGood contents d.store →
        d.store.counts.failed < 2 ^ 64 - 1 → IsUncached d.store → Ran (λ ok. Unit {0}) K.hears (reset contents d path) u e a z → IsUncached e.store }
    ensures power { (d e : WholeDevice) (u z : Outside (List ℕ) K) (a : Unit {0}) → d.store.counts.failed < 2 ^ 64 - 1 → IsUncached d.store →
        Ran (λ ok. Unit {0}) K.hears (power contents d) u e a z → IsUncached e.store }
    ensures held { (d : WholeDevice) → IsUncached d.store → IsUncached (hold_side d).store × IsUncached (resume d).store }
    ensures paired { (d : WholeDevice) → IsUncached d.store → IsUncached (join d).store × IsUncached (split d).store }
    ensures replaced { (d : WholeDevice) (side : Side) → IsUncached d.store → (side_of d.store side).up ≡ false → IsUncached (replace d side).store }
{}

/// Data of cache fast write were lost at most as often as losses of the cache were counted: so it stays behind each event, and the
/// journal has no more of them.
pub fn loose_losses_are_counted<K: Keep<TrackImage>>()
    ensures journal { (d : WholeDevice) → LossesAreCounted d → loose_losses d.history.items ≤ d.store.counts.losses.cache }
    ensures starts { (d : WholeDevice) (path : ℕ) → LossesAreCounted d → LossesAreCounted (start d path) }
    ensures command { (d e : WholeDevice) (u z : Outside (List ℕ) K) (a : Option Stepped) → LossesAreCounted d →
        Ran (λ ok. Unit {0}) K.hears (command contents d) u e a z → LossesAreCounted e }
    ensures second { (d e : WholeDevice) (u z : Outside (List ℕ) K) (a : SecondEnd) → LossesAreCounted d →
        Ran (λ ok. Unit {0}) K.hears (second contents d) u e a z → LossesAreCounted e }
    ensures background { (d e : WholeDevice) (u z : Outside (List ℕ) K) (a : Option Did) → LossesAreCounted d →
        Ran (λ ok. Unit {0}) K.hears (background contents d) u e a z → LossesAreCounted e }
    ensures lose { (d e : WholeDevice) (u z : Outside (List ℕ) K) (a : Unit {0}) (loss : Loss) → LossesAreCounted d →
        d.store.counts.losses.cache < 2 ^ 64 - 1 → Ran (λ ok. Unit {0}) K.hears (lose contents d loss) u e a z → LossesAreCounted e }
    ensures reset { (d e : WholeDevice) (u z : Outside (List ℕ) K) (a : Unit {0}) (path : ℕ) → LossesAreCounted d →
        Ran (λ ok. Unit {0}) K.hears (reset contents d path) u e a z → LossesAreCounted e }
    ensures power { (d e : WholeDevice) (u z : Outside (List ℕ) K) (a : Unit {0}) → LossesAreCounted d → d.store.counts.losses.cache < 2 ^ 64 - 1 →
        Ran (λ ok. Unit {0}) K.hears (power contents d) u e a z → LossesAreCounted e }
{}

/// A command adds no entry to the journal that ended with equipment check, where no more calls failed, some side takes writes, no track is
/// lost, and of its own program no data of cache fast write were.
pub fn calm_command_checks_nothing<K: Keep<TrackImage>>()
    ensures { (d e : WholeDevice) (u z : Outside (List ℕ) K) (a : Option Stepped) → MarksAreGood contents d.store → d.store.half ≡ None →
        ((chain : ChainState) → d.chain ≡ Some chain → IsChainOf d.store.cylinders chain) → IsCalm d.store → RunsUnharmed d.history.running →
        d.store.counts.failed < 2 ^ 64 - 1 → Ran (λ ok. Unit {0}) K.hears (command contents d) u e a z →
        e.store.counts.failed ≡ d.store.counts.failed →
        count_by ends_with_equipment_check e.history.items ≡ count_by ends_with_equipment_check d.history.items }
{}
