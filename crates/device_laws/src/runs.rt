//! Laws of whole events. Each says that an event of a device that tells what it holds leaves it in order, and that where the
//! outside tells all, its run is a step of the defined run, from what a run knows of the device to what it knows behind the event.

ghost use Rattle.std.specs.Prelude.{◌≡◌, ◌<◌, ℕ, true, false, List, length, Option, None, Some};
ghost use Rattle.ckd_chain.specs.State.{ChainState};
ghost use Rattle.ckd_types.specs.declared.geometry.Geometry.{Geometry};
ghost use Rattle.ckd_types.specs.declared.paths.Side.{Side};
ghost use Rattle.ckd_types.specs.declared.paths.Side.TheVariants.{B};
ghost use Rattle.ckd_types.specs.declared.record.Track.{Track};
ghost use Rattle.device_outside.specs.Both.{TellsAll};
ghost use Rattle.device_outside.specs.Outside.{Outside, Ran};
ghost use Rattle.device_outside.specs.Told.{Told};
ghost use Rattle.device_defs.specs.declared.answers.Did.{Did};
ghost use Rattle.device_defs.specs.declared.answers.SecondEnd.{SecondEnd};
ghost use Rattle.device_defs.specs.declared.answers.Stepped.{Stepped};
ghost use Rattle.device_defs.specs.Command.{command};
ghost use Rattle.device_defs.specs.Contents.{contents, by_plain};
ghost use Rattle.device_defs.specs.Cutting.{reset, power};
ghost use Rattle.device_defs.specs.Events.{second, background, lose};
ghost use Rattle.device_defs.specs.Start.{start_fault, start};
ghost use Rattle.device_defs.specs.Orders.{join, split, replace};
ghost use Rattle.device_defs.specs.Store.{tracks_of, side_of, stale_at};
ghost use Rattle.device_laws.specs.Agrees.{Held};
ghost use Rattle.device_laws.specs.InOrder.{IsInOrder};
ghost use Rattle.device_laws.specs.Standing.{RunsOn};
ghost use Rattle.device_laws.specs.Whole.{WholeDevice, marks_device, holding, IsStep, BehindCommand, BehindSecond, BehindLoss, BehindReset, BehindPower};
ghost use Rattle.loss_model.specs.declared.Loss.{Loss};

use device_outside::Keep;
use track_image::TrackImage;

/// A program starts, or not, as in a run.
pub fn start_is_step()
    ensures fault { (v w : List Track) (d : WholeDevice) (path : ℕ) → start_fault d path ≡ start_fault (marks_device v w d) path }
    ensures starts { (v w : List Track) (d : WholeDevice) (path : ℕ) → marks_device v w (start d path) ≡ start (marks_device v w d) path }
    ensures order { (v w : List Track) (d : WholeDevice) (h : Held) (path : ℕ) → IsInOrder v w d.store h → IsInOrder v w (start d path).store h }
{}

/// A command of the running program, while no half write is open.
pub fn command_is_step<K: Keep<TrackImage>>()
    ensures { (v w : List Track) (d : WholeDevice) (h : Held) (others : List ℕ) (t : Told) (u z : Outside (List ℕ) K) (e : WholeDevice) (a : Option Stepped) →
        IsInOrder v w d.store h → d.store.half ≡ None →
        ((chain : ChainState) → d.chain ≡ Some chain → RunsOn d.store.cylinders d.store.geometry chain) →
        Ran (λ ok. ok ≡ true) K.hears (command contents d) u e a z → TellsAll others u h t →
        IsStep (BehindCommand v (tracks_of d.store) d.chain) others (command by_plain (marks_device v w d)) t e a z }
{}

/// The second part of an open half write.
pub fn second_is_step<K: Keep<TrackImage>>()
    ensures { (v w : List Track) (d : WholeDevice) (h : Held) (others : List ℕ) (t : Told) (u z : Outside (List ℕ) K) (e : WholeDevice) (a : SecondEnd) →
        IsInOrder v w d.store h →
        Ran (λ ok. ok ≡ true) K.hears (second contents d) u e a z → TellsAll others u h t →
        IsStep (BehindSecond v d.store.half) others (second by_plain (marks_device v w d)) t e a z }
{}

/// What a device does by itself while no half write is open.
pub fn background_is_step<K: Keep<TrackImage>>()
    ensures { (v w : List Track) (d : WholeDevice) (h : Held) (others : List ℕ) (t : Told) (u z : Outside (List ℕ) K) (e : WholeDevice) (a : Option Did) →
        IsInOrder v w d.store h → d.store.half ≡ None →
        Ran (λ ok. ok ≡ true) K.hears (background contents d) u e a z → TellsAll others u h t →
        IsStep (λ v2. v2 ≡ v) others (background by_plain (marks_device v w d)) t e a z }
{}

/// A loss.
pub fn loss_is_step<K: Keep<TrackImage>>()
    ensures { (v w : List Track) (d : WholeDevice) (h : Held) (others : List ℕ) (t : Told) (u z : Outside (List ℕ) K) (e : WholeDevice)
        (a : Unit {0}) (loss : Loss) →
        IsInOrder v w d.store h →
        Ran (λ ok. ok ≡ true) K.hears (lose contents d loss) u e a z → TellsAll others u h t →
        IsStep (BehindLoss v loss) others (lose by_plain (marks_device v w d) loss) t e a z }
{}

/// The reset of a path.
pub fn reset_is_step<K: Keep<TrackImage>>()
    ensures { (v w : List Track) (d : WholeDevice) (h : Held) (others : List ℕ) (t : Told) (u z : Outside (List ℕ) K) (e : WholeDevice)
        (a : Unit {0}) (path : ℕ) →
        IsInOrder v w d.store h →
        Ran (λ ok. ok ≡ true) K.hears (reset contents d path) u e a z → TellsAll others u h t →
        IsStep (BehindReset v d.store.half) others (reset by_plain (marks_device v w d) path) t e a z }
{}

/// A loss of power.
pub fn power_is_step<K: Keep<TrackImage>>()
    ensures { (v w : List Track) (d : WholeDevice) (h : Held) (others : List ℕ) (t : Told) (u z : Outside (List ℕ) K) (e : WholeDevice) (a : Unit {0}) →
        IsInOrder v w d.store h →
        Ran (λ ok. ok ≡ true) K.hears (power contents d) u e a z → TellsAll others u h t →
        IsStep (BehindPower v d.store) others (power by_plain (marks_device v w d)) t e a z }
{}

/// Orders that give a side another volume, as many tracks long as the device, or take side B away.
pub fn orders_leave_order()
    ensures replaced { (v w : List Track) (d : WholeDevice) (h : Held) (side : Side) (l : List (List ℕ)) → IsInOrder v w d.store h →
        (side_of d.store side).up ≡ false → (side ≡ B → d.store.paired ≡ true) → length l ≡ tracks_of d.store →
        IsInOrder v w (replace d side).store (holding h side l) × (marks_device v w (replace d side) ≡ replace (marks_device v w d) side) }
    ensures joined { (v w : List Track) (d : WholeDevice) (h : Held) (l : List (List ℕ)) → IsInOrder v w d.store h → d.store.paired ≡ false →
        length l ≡ tracks_of d.store →
        IsInOrder v w (join d).store (holding h B l) × (marks_device v w (join d) ≡ join (marks_device v w d)) }
    ensures split { (v w : List Track) (d : WholeDevice) (h : Held) → IsInOrder v w d.store h → d.store.half ≡ None → d.store.a.up ≡ true →
        ((q : ℕ) → q < tracks_of d.store → stale_at d.store.a q ≡ false) →
        IsInOrder v w (split d).store h × (marks_device v w (split d) ≡ split (marks_device v w d)) }
{}
