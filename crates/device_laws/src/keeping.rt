//! Laws of what a device keeps: its pledge in a turn, what the pool is told of its waiting tracks, and that no bytes of its volumes
//! are bad where they tell what they hold. They hold whatever is answered, and whether memory is had or not.

ghost use Rattle.std.specs.Prelude.{◌≡◌, ◌≤◌, ℕ, true, List, Option, None, Some, count_by, slice_index_or, slice_set, is_some, false};
ghost use Rattle.ckd_chain.specs.State.{ChainState};
ghost use Rattle.ckd_types.specs.declared.paths.Side.{Side};
ghost use Rattle.ckd_types.specs.declared.record.Track.{Track};
ghost use Rattle.device_outside.specs.After.{Has};
ghost use Rattle.device_outside.specs.Outside.{Outside, Ran};
ghost use Rattle.device_outside.specs.Told.{Told, hold};
ghost use Rattle.device_defs.specs.declared.answers.Did.{Did};
ghost use Rattle.device_defs.specs.declared.answers.Did.TheVariants.{BadBytes};
ghost use Rattle.device_defs.specs.declared.answers.SecondEnd.{SecondEnd};
ghost use Rattle.device_defs.specs.declared.answers.Stepped.{Stepped};
ghost use Rattle.device_defs.specs.Command.{command};
ghost use Rattle.device_defs.specs.Contents.{contents, by_plain};
ghost use Rattle.device_defs.specs.Cutting.{power};
ghost use Rattle.device_defs.specs.Events.{one_loss_more, second, background, lose};
ghost use Rattle.device_defs.specs.Marks.{MarksDevice};
ghost use Rattle.device_defs.specs.Owed.{waiting_count};
ghost use Rattle.device_defs.specs.Peek.{Peeked, peek};
ghost use Rattle.device_defs.specs.Pledge.{Handed, Pledge, ends_with_data_check};
ghost use Rattle.device_defs.specs.Start.{start};
ghost use Rattle.device_defs.specs.Store.{has_loose};
ghost use Rattle.device_laws.specs.Agrees.{Held};
ghost use Rattle.device_laws.specs.Handed.{StaysInTurn, handed_then, waiting_in, HasWaiting, with_waiting};
ghost use Rattle.device_laws.specs.InOrder.{IsInOrder};
ghost use Rattle.device_laws.specs.Standing.{RunsOn};
ghost use Rattle.device_laws.specs.Whole.{WholeDevice, HalfSuits};
ghost use Rattle.loss_model.specs.declared.Loss.{Loss};

use device_outside::Keep;
use track_image::TrackImage;

/// Each event of a turn keeps a device's pledge, with the calls that its volumes may still fail. A loss is one of those that are
/// pledged; where contents are told, no data check is added, as the last law here says.
pub fn turn_keeps_pledge<K: Keep<TrackImage>>()
    ensures starts { (p : Pledge) (v : Handed) (d : WholeDevice) (u : Outside (List ℕ) K) (path : ℕ) → StaysInTurn p d v u → StaysInTurn p (start d path) v u }
    ensures command { (p : Pledge) (v : Handed) (d e : WholeDevice) (u z : Outside (List ℕ) K) (a : Option Stepped) →
        StaysInTurn p d v u → d.store.lent ≡ None →
        (p.told ≡ true → count_by ends_with_data_check e.history.items ≡ count_by ends_with_data_check d.history.items) →
        Ran (λ ok. Unit {0}) K.hears (command contents d) u e a z → StaysInTurn p e (handed_then v z) z }
    ensures second { (p : Pledge) (v : Handed) (d e : WholeDevice) (u z : Outside (List ℕ) K) (a : SecondEnd) → StaysInTurn p d v u → d.store.lent ≡ None →
        (p.told ≡ true → count_by ends_with_data_check e.history.items ≡ count_by ends_with_data_check d.history.items) →
        Ran (λ ok. Unit {0}) K.hears (second contents d) u e a z → StaysInTurn p e (handed_then v z) z }
    ensures background { (p : Pledge) (v : Handed) (d e : WholeDevice) (u z : Outside (List ℕ) K) (a : Option Did) → StaysInTurn p d v u → d.store.lent ≡ None →
        Ran (λ ok. Unit {0}) K.hears (background contents d) u e a z → StaysInTurn p e (handed_then v z) z }
    ensures lose { (p : Pledge) (v : Handed) (d e : WholeDevice) (u z : Outside (List ℕ) K) (a : Unit {0}) (loss : Loss) →
        StaysInTurn p d v u → d.store.lent ≡ None →
        (one_loss_more d.store.counts.losses loss).cache ≤ p.losses.cache → (one_loss_more d.store.counts.losses loss).store ≤ p.losses.store →
        (one_loss_more d.store.counts.losses loss).sides ≤ p.losses.sides → Ran (λ ok. Unit {0}) K.hears (lose contents d loss) u e a z →
        StaysInTurn p e (handed_then v z) z }
    ensures lent { (p : Pledge) (v : Handed) (d e : WholeDevice) (u z : Outside (List ℕ) K) (a : Unit {0}) (loss : Loss) → StaysInTurn p d v u →
        is_some d.store.lent ≡ true → has_loose d.store ≡ false →
        (one_loss_more d.store.counts.losses loss).cache ≤ p.losses.cache → (one_loss_more d.store.counts.losses loss).store ≤ p.losses.store →
        (one_loss_more d.store.counts.losses loss).sides ≤ p.losses.sides → Ran (λ ok. Unit {0}) K.hears (lose contents d loss) u e a z →
        StaysInTurn p e (handed_then v z) z }
{}

/// Behind an event the pool has been told how many of the device's tracks wait, and of no other device anything.
pub fn pool_is_told_waiting<K: Keep<TrackImage>>()
    ensures command { (d e : WholeDevice) (u z : Outside (List ℕ) K) (a : Option Stepped) →
        HasWaiting (waiting_in u) d.store.device (waiting_count contents d.store) →
        Ran (λ ok. Unit {0}) K.hears (command contents d) u e a z →
        waiting_in z ≡ with_waiting (waiting_in u) d.store.device (waiting_count contents e.store) }
    ensures second { (d e : WholeDevice) (u z : Outside (List ℕ) K) (a : SecondEnd) →
        HasWaiting (waiting_in u) d.store.device (waiting_count contents d.store) →
        Ran (λ ok. Unit {0}) K.hears (second contents d) u e a z →
        waiting_in z ≡ with_waiting (waiting_in u) d.store.device (waiting_count contents e.store) }
    ensures background { (d e : WholeDevice) (u z : Outside (List ℕ) K) (a : Option Did) →
        HasWaiting (waiting_in u) d.store.device (waiting_count contents d.store) →
        Ran (λ ok. Unit {0}) K.hears (background contents d) u e a z →
        waiting_in z ≡ with_waiting (waiting_in u) d.store.device (waiting_count contents e.store) }
    ensures lose { (d e : WholeDevice) (u z : Outside (List ℕ) K) (a : Unit {0}) (loss : Loss) →
        HasWaiting (waiting_in u) d.store.device (waiting_count contents d.store) →
        Ran (λ ok. Unit {0}) K.hears (lose contents d loss) u e a z →
        waiting_in z ≡ with_waiting (waiting_in u) d.store.device (waiting_count contents e.store) }
    ensures power { (d e : WholeDevice) (u z : Outside (List ℕ) K) (a : Unit {0}) →
        HasWaiting (waiting_in u) d.store.device (waiting_count contents d.store) →
        Ran (λ ok. Unit {0}) K.hears (power contents d) u e a z →
        waiting_in z ≡ with_waiting (waiting_in u) d.store.device (waiting_count contents e.store) }
    ensures peek { (d e : WholeDevice) (u z : Outside (List ℕ) K) (a : Option Peeked) (t : ℕ) →
        HasWaiting (waiting_in u) d.store.device (waiting_count contents d.store) →
        Ran (λ ok. Unit {0}) K.hears (peek contents d t) u e a z →
        waiting_in z ≡ with_waiting (waiting_in u) d.store.device (waiting_count contents e.store) }
{}

/// A device that is in order and whose volumes tell what they hold adds no data check to its journal, and finds no bad bytes by
/// itself.
pub fn told_device_has_no_bad_bytes<K: Keep<TrackImage>>()
    ensures command { (v w : List Track) (d e : WholeDevice) (h : Held) (others : List ℕ) (u z : Outside (List ℕ) K) (a : Option Stepped) →
        IsInOrder v w d.store h → d.store.half ≡ None →
        ((chain : ChainState) → d.chain ≡ Some chain → RunsOn d.store.cylinders d.store.geometry chain) → Has others u h →
        Ran (λ ok. Unit {0}) K.hears (command contents d) u e a z →
        count_by ends_with_data_check e.history.items ≡ count_by ends_with_data_check d.history.items }
    ensures second { (v w : List Track) (d e : WholeDevice) (h : Held) (others : List ℕ) (u z : Outside (List ℕ) K) (a : SecondEnd) →
        IsInOrder v w d.store h → HalfSuits v d.store → Has others u h → Ran (λ ok. Unit {0}) K.hears (second contents d) u e a z →
        count_by ends_with_data_check e.history.items ≡ count_by ends_with_data_check d.history.items }
    ensures background { (v w : List Track) (d e : WholeDevice) (h : Held) (others : List ℕ) (u z : Outside (List ℕ) K) (a : Option Did) (side : Side) →
        IsInOrder v w d.store h → d.store.half ≡ None → Has others u h → Ran (λ ok. Unit {0}) K.hears (background contents d) u e a z →
        a ≡ Some (BadBytes side) → ⊥ }
{}

/// So it is in a run whose outside is told, over marks: there each event's run ends with the pool that has the number of its device's
/// tracks that wait then.
pub fn run_tells_waiting()
    ensures command { (d : MarksDevice) (t : Told) → slice_index_or t.pool.waiting d.store.device 0 ≡ waiting_count by_plain d.store →
        (hold true (command by_plain d) t).told.pool.waiting
        ≡ slice_set t.pool.waiting d.store.device (waiting_count by_plain (hold true (command by_plain d) t).state.store) }
    ensures second { (d : MarksDevice) (t : Told) → slice_index_or t.pool.waiting d.store.device 0 ≡ waiting_count by_plain d.store →
        (hold true (second by_plain d) t).told.pool.waiting
        ≡ slice_set t.pool.waiting d.store.device (waiting_count by_plain (hold true (second by_plain d) t).state.store) }
    ensures background { (d : MarksDevice) (t : Told) → slice_index_or t.pool.waiting d.store.device 0 ≡ waiting_count by_plain d.store →
        (hold true (background by_plain d) t).told.pool.waiting
        ≡ slice_set t.pool.waiting d.store.device (waiting_count by_plain (hold true (background by_plain d) t).state.store) }
    ensures lose { (d : MarksDevice) (loss : Loss) (t : Told) → slice_index_or t.pool.waiting d.store.device 0 ≡ waiting_count by_plain d.store →
        (hold true (lose by_plain d loss) t).told.pool.waiting
        ≡ slice_set t.pool.waiting d.store.device (waiting_count by_plain (hold true (lose by_plain d loss) t).state.store) }
    ensures power { (d : MarksDevice) (t : Told) → slice_index_or t.pool.waiting d.store.device 0 ≡ waiting_count by_plain d.store →
        (hold true (power by_plain d) t).told.pool.waiting
        ≡ slice_set t.pool.waiting d.store.device (waiting_count by_plain (hold true (power by_plain d) t).state.store) }
{}
