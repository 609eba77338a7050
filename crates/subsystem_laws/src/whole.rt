//! Laws of a run of devices with frames, patches, half writes and two sides: what comes of an event, where the pool, the volumes and
//! their failing calls are told and memory is had, is what happens in the defined run.

ghost use Rattle.std.specs.Prelude.{◌≡◌, ◌≤◌, ◌*◌, ◌++◌, ℕ, List, [], ◌∷◌, length, Some, None};
ghost use Rattle.ckd_types.specs.declared.geometry.Geometry.{Geometry};
ghost use Rattle.ckd_types.specs.declared.paths.Side.{Side};
ghost use Rattle.ckd_types.specs.declared.record.Track.{Track};
ghost use Rattle.ckd_types.specs.Volume.{IsVolume};
ghost use Rattle.plain_defs.specs.Journal.{Plans};
ghost use Rattle.device_outside.specs.Both.{SideIs};
ghost use Rattle.device_outside.specs.Disk.{empty_contents};
ghost use Rattle.device_outside.specs.Pool.{Pool};
ghost use Rattle.device_outside.specs.Told.{Calls};
ghost use Rattle.device_outside.specs.Volume.{Plan, VolumeView};
ghost use Rattle.device_defs.specs.Orders.{replace, split};
ghost use Rattle.device_defs.specs.Store.{tracks_of};
ghost use Rattle.device_laws.specs.NewDevice.{volume_contents};
ghost use Rattle.subsystem_defs.specs.declared.end.EventEnd.{EventEnd};
ghost use Rattle.subsystem_defs.specs.declared.end.EventEnd.TheVariants.{Done};
ghost use Rattle.subsystem_defs.specs.declared.event.Event.{Event};
ghost use Rattle.subsystem_defs.specs.Happening.{happens, replaced, unpaired};
ghost use Rattle.subsystem_defs.specs.Refusals.{replace_fault, unpair_fault};
ghost use Rattle.subsystem_defs.specs.Subsystem.{Mounted, mounted_on, new_calls, newly_mounted};
ghost use Rattle.subsystem_laws.specs.WholeComes.{subsystem_of, Comes, Runs, IsWhatCame, AreWhatCame};
ghost use Rattle.subsystem_laws.specs.WholeStood.{opened, Stood, stood_in, put_at, with_volume, lent_in, restored_at, IsMounted, AreMounted, HaveChains};

use device_outside::Keep;
use track_image::TrackImage;

/// One event.
pub fn whole_event_is_what_happens<K: Keep<TrackImage>>()
    ensures { (e : Event) (p q : Pool) (xs ys : List Stood) (ms : List Mounted) (end : EventEnd) → AreMounted p xs ms → HaveChains xs →
        Comes K.hears e p xs end q ys → IsWhatCame (happens (subsystem_of p ms) e) end q ys }
{}

/// Events one after another.
pub fn whole_events_are_what_happens<K: Keep<TrackImage>>()
    ensures { (es : List Event) (p q : Pool) (xs ys : List Stood) (ms : List Mounted) (ends : List EventEnd) → AreMounted p xs ms →
        Runs K.hears es p xs ends q ys → AreWhatCame (subsystem_of p ms) es ends q ys }
{}

/// A new device on a volume of empty tracks is mounted as a run mounts it, with no slot, and so is one on a volume that holds other
/// tracks; and it stands behind those that stand.
pub fn whole_device_is_mounted()
    ensures first { (d : ℕ) (g : Geometry) (n : ℕ) (tracks : List Track) (plans : Plans) (plan : Plan) (volume : VolumeView (List ℕ)) → IsVolume g n tracks →
        SideIs volume (volume_contents tracks) (new_calls plan) →
        IsMounted [] (record { device = opened d g n plans; a = Some volume; b = None }) (mounted_on d g n tracks plans plan) }
    ensures mounted { (d : ℕ) (g : Geometry) (n : ℕ) (plans : Plans) (plan : Plan) (volume : VolumeView (List ℕ)) → n ≤ 4369 →
        SideIs volume (empty_contents (n * 15)) (new_calls plan) →
        IsMounted [] (record { device = opened d g n plans; a = Some volume; b = None }) (newly_mounted d g n plans plan) }
    ensures more { (p : Pool) (xs : List Stood) (ms : List Mounted) (x : Stood) (m : Mounted) → AreMounted p xs ms → IsMounted [] x m →
        AreMounted p (xs ++ x ∷ []) (ms ++ m ∷ []) }
{}

/// A volume of as many tracks takes the place of a failed one, where the order is not refused.
pub fn whole_replaced_is_what_happens()
    ensures { (p : Pool) (xs : List Stood) (ms : List Mounted) (n : ℕ) (side : Side) (calls : Calls) (l : List (List ℕ)) (volume : VolumeView (List ℕ))
        (x : Stood) → AreMounted p xs ms → HaveChains xs → stood_in xs n ≡ Some x → replace_fault x.device side ≡ None → SideIs volume l calls →
        length l ≡ tracks_of x.device.store →
        IsWhatCame (replaced (subsystem_of p ms) n side calls) Done p (put_at xs n (with_volume x side volume (replace x.device side))) }
{}

/// A pair is taken apart, where the order is not refused: side B leaves, and the device that was lent gets a volume of empty tracks.
pub fn whole_unpaired_is_what_happens()
    ensures { (p : Pool) (xs : List Stood) (ms : List Mounted) (n : ℕ) (calls : Calls) (volume : VolumeView (List ℕ)) (x : Stood) → AreMounted p xs ms →
        stood_in xs n ≡ Some x → unpair_fault x.device ≡ None →
        ((y : Stood) → lent_in (put_at xs n (record { device = split x.device; a = x.a; b = None })) n ≡ Some y →
        (y.device.store.cylinders ≤ 4369) × SideIs volume (empty_contents (tracks_of y.device.store)) calls) →
        IsWhatCame (unpaired (subsystem_of p ms) n calls) Done p
        (restored_at (put_at xs n (record { device = split x.device; a = x.a; b = None })) n volume) }
{}
