//! Laws of a look at a track past the channel. It has no code; its lemmas are over plain variables.

ghost use Rattle.std.specs.Prelude.{◌≡◌, ◌⊎◌, ◌<◌, ℕ, false, true, List, Option, Some};
ghost use Rattle.ckd_types.specs.declared.paths.Side.{Side};
ghost use Rattle.ckd_types.specs.declared.record.Track.{Track};
ghost use Rattle.device_outside.specs.Both.{TellsAll};
ghost use Rattle.device_outside.specs.Hears.{HeardAll};
ghost use Rattle.device_outside.specs.Outside.{Outside, Ran};
ghost use Rattle.device_outside.specs.Pool.{Pool};
ghost use Rattle.device_outside.specs.Told.{Told};
ghost use Rattle.device_defs.specs.Contents.{contents, by_plain};
ghost use Rattle.device_defs.specs.Peek.{Peeked, Lost, Fault, peek};
ghost use Rattle.device_defs.specs.Sound.{has_sound_marks};
ghost use Rattle.device_defs.specs.Store.{tracks_of, is_lost, half_is};
ghost use Rattle.device_laws.specs.Agrees.{Held};
ghost use Rattle.device_laws.specs.InOrder.{IsInOrder};
ghost use Rattle.device_laws.specs.Whole.{WholeDevice, marks_device, IsStep};
ghost use Rattle.subsystem_defs.specs.Looks.{looked};
ghost use Rattle.subsystem_defs.specs.Subsystem.{Mounted, Subsystem, mounted_in};
ghost use Rattle.subsystem_laws.specs.WholeComes.{subsystem_of, Changes, Asked};
ghost use Rattle.subsystem_laws.specs.WholeStood.{Stood, AreMounted};
ghost use Rattle.subsystem_laws.specs.Looking.{is_written_at, IsLooked, IsPlainly, StaysOwn, KeepsOwn, HasFailed, IsNowhere, look_messages, AskedWith};

use device_outside::Keep;
use track_image::TrackImage;

/// A look at a track of a device that tells what it holds leaves it in order and its plain volume as it was, and where the outside tells all, its run is a step
/// of the defined run. It may be at any track of the device on which no half write of a command, or of one that was cut, is open; one of the background may
/// be.
pub fn look_is_step<K: Keep<TrackImage>>()
    ensures { (v w : List Track) (d : WholeDevice) (h : Held) (others : List ℕ) (n : ℕ) (t : Told) (u z : Outside (List ℕ) K) (e : WholeDevice)
        (a : Option Peeked) → IsInOrder v w d.store h → n < tracks_of d.store → is_written_at d.store.half n ≡ false →
        Ran (λ ok. ok ≡ true) K.hears (peek contents d n) u e a z → TellsAll others u h t →
        IsStep (λ v2. v2 ≡ v) others (peek by_plain (marks_device v w d) n) t e a z }
{}

/// What a look at such a track finds, and what it leaves of all devices and the pool, is what it finds and leaves in the defined run, where the pool, the
/// volumes and their failing calls are told and memory is had.
pub fn look_is_what_happens<K: Keep<TrackImage>>()
    ensures { (p q : Pool) (xs ys : List Stood) (ms : List Mounted) (n t : ℕ) (m : Mounted) (f : Peeked) → AreMounted p xs ms → mounted_in ms n ≡ Some m →
        is_written_at m.device.store.half t ≡ false → t < tracks_of m.device.store →
        Changes n (λ x y. Asked K.hears (peek contents x.device t) (Some f) p x y q) xs ys → IsLooked (looked (subsystem_of p ms) n t) f q ys }
{}

/// What a keeper hears in such a look, one message after another, is what it is told in that of the defined run.
pub fn look_is_heard<K: Keep<TrackImage>>()
    ensures { (keeper later : K) (p q : Pool) (xs ys : List Stood) (ms : List Mounted) (n t : ℕ) (m : Mounted) (f : Peeked) → AreMounted p xs ms →
        mounted_in ms n ≡ Some m → is_written_at m.device.store.half t ≡ false → t < tracks_of m.device.store →
        Changes n (λ x y. AskedWith K.hears keeper later (peek contents x.device t) (Some f) p x y q) xs ys →
        HeardAll K.hears keeper (look_messages (subsystem_of p ms) n t) later }
{}

/// In the defined run a track that is found is that of the plain volume, and bytes are never bad. A look leaves its device there, with its number, its size, its
/// plain volume, its open half write, its paths and its chain.
pub fn look_finds_plain()
    ensures plain { (s : Subsystem) (n t : ℕ) (m : Mounted) → mounted_in s.mounted n ≡ Some m → is_written_at m.device.store.half t ≡ false →
        IsPlainly m t (looked s n t).found }
    ensures own { (s : Subsystem) (n t : ℕ) (m : Mounted) → mounted_in s.mounted n ≡ Some m → StaysOwn s n t m }
{}

/// In the defined run a track is found to be lost where it is, and nowhere else. A side's fault is told only where that side had the track and its next
/// read fails, and the other side hasn't the track or fails as well; or where no side has the track, and no modified frame. The last isn't so of a track
/// with sound marks on which no half write is open.
pub fn fault_has_failed()
    ensures fault { (s : Subsystem) (n t : ℕ) (m : Mounted) (side : Side) → mounted_in s.mounted n ≡ Some m → (looked s n t).found ≡ Fault side →
        HasFailed m t side ⊎ IsNowhere m.device.store t }
    ensures sound { (s : Subsystem) (n t : ℕ) (m : Mounted) (side : Side) → mounted_in s.mounted n ≡ Some m →
        has_sound_marks by_plain m.device.store t ≡ true → half_is m.device.store.half t ≡ false → (looked s n t).found ≡ Fault side → HasFailed m t side }
    ensures lost { (s : Subsystem) (n t : ℕ) (m : Mounted) → mounted_in s.mounted n ≡ Some m → (looked s n t).found ≡ Lost →
        is_lost m.device.store t ≡ true }
    ensures found { (s : Subsystem) (n t : ℕ) (m : Mounted) → mounted_in s.mounted n ≡ Some m → is_lost m.device.store t ≡ true → (looked s n t).found ≡ Lost }
{}

/// A look leaves of its device its number, its size, to whom it is lent, its plans, its paths and its chain as they were, whatever is answered and whether or not
/// memory is had.
pub fn look_keeps_own<K: Keep<TrackImage>>()
    ensures { (d e : WholeDevice) (u z : Outside (List ℕ) K) (a : Option Peeked) (t : ℕ) → Ran (λ ok. Unit {0}) K.hears (peek contents d t) u e a z →
        KeepsOwn d e }
{}
