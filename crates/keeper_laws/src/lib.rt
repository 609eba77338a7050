//! Laws of what a keeper is told in an event of the subsystem. It has no code; its lemmas are over plain variables.
#![tactic(auto)]

ghost use Rattle.std.specs.Prelude.{◌≡◌, ◌<◌, ℕ, true, false, List, Option, Some, None};
ghost use Rattle.ckd_types.specs.declared.paths.Side.{Side};
ghost use Rattle.ckd_types.specs.Volume.{track_in};
ghost use Rattle.track_image.specs.Image.{Image};
ghost use Rattle.device_outside.specs.Hears.{HeardAll};
ghost use Rattle.device_outside.specs.Pool.{Pool};
ghost use Rattle.device_outside.specs.Told.{Calls};
ghost use Rattle.device_defs.specs.Store.{tracks_of, is_loose, plain_at};
ghost use Rattle.subsystem_defs.specs.declared.end.EventEnd.{EventEnd};
ghost use Rattle.subsystem_defs.specs.declared.event.Event.{Event};
ghost use Rattle.subsystem_defs.specs.Happening.{happens, replaced, unpaired};
ghost use Rattle.subsystem_defs.specs.Looks.{looked};
ghost use Rattle.subsystem_defs.specs.Subsystem.{Mounted, Subsystem, mounted_in};
ghost use Rattle.subsystem_laws.specs.WholeComes.{subsystem_of, Comes};
ghost use Rattle.subsystem_laws.specs.WholeStood.{Stood, AreMounted, HaveChains};
ghost use Rattle.subsystem_laws.specs.Looking.{is_written_at, look_messages};
ghost use Rattle.keeper_laws.specs.Firmness.{told_firm, IsTold, has_one, IsFirm};
ghost use Rattle.keeper_laws.specs.Keeping.{ComesWith};
ghost use Rattle.keeper_laws.specs.Messages.{event_messages, first_named};
ghost use Rattle.keeper_laws.specs.Quiet.{IsQuiet, StaysQuiet, StaysThere};

use device_outside::Keep;
use track_image::TrackImage;

/// What a keeper hears in an event, one message after another, is what it is told in that of the defined run, where the pool, the volumes and their failing
/// calls are told and memory is had.
pub fn event_is_heard<K: Keep<TrackImage>>()
    ensures heard { (e : Event) (p q : Pool) (keeper later : K) (xs ys : List Stood) (ms : List Mounted) (end : EventEnd) → AreMounted p xs ms →
        HaveChains xs → ComesWith K.hears e p keeper xs end q later ys → HeardAll K.hears keeper (event_messages (subsystem_of p ms) e) later }
    ensures came { (e : Event) (p q : Pool) (keeper later : K) (xs ys : List Stood) (end : EventEnd) → ComesWith K.hears e p keeper xs end q later ys →
        Comes K.hears e p xs end q ys }
{}

/// In a run a quiet track of which a keeper is told nothing before an edit in an event stays quiet and as it is. So it stays behind a look at any track of
/// any device, and behind the orders for which a volume is handed in; a device that is lent gets an empty volume where its pair is taken apart.
pub fn untold_stays_quiet()
    ensures event { (s : Subsystem) (e : Event) (n t : ℕ) (m : Mounted) → mounted_in s.mounted n ≡ Some m → IsQuiet m t →
        first_named n t (event_messages s e) ≡ None → StaysQuiet m t (happens s e).behind n }
    ensures look { (s : Subsystem) (d q n t : ℕ) (m : Mounted) → mounted_in s.mounted n ≡ Some m → IsQuiet m t → StaysQuiet m t (looked s d q).behind n }
    ensures replaced { (s : Subsystem) (d : ℕ) (side : Side) (volume : Calls) (n t : ℕ) (m : Mounted) → mounted_in s.mounted n ≡ Some m → IsQuiet m t →
        StaysQuiet m t (replaced s d side volume).behind n }
    ensures unpaired { (s : Subsystem) (d : ℕ) (volume : Calls) (n t : ℕ) (m : Mounted) → mounted_in s.mounted n ≡ Some m → m.device.store.lent ≡ None →
        IsQuiet m t → StaysQuiet m t (unpaired s d volume).behind n }
{}

/// In a run a device stays there, with its number and its size, behind every event, every look and the orders for which a volume is handed in.
pub fn device_stays_there()
    ensures event { (s : Subsystem) (e : Event) (n : ℕ) (m : Mounted) → mounted_in s.mounted n ≡ Some m → StaysThere m (happens s e).behind n }
    ensures look { (s : Subsystem) (d q n : ℕ) (m : Mounted) → mounted_in s.mounted n ≡ Some m → StaysThere m (looked s d q).behind n }
    ensures replaced { (s : Subsystem) (d : ℕ) (side : Side) (volume : Calls) (n : ℕ) (m : Mounted) → mounted_in s.mounted n ≡ Some m →
        StaysThere m (replaced s d side volume).behind n }
    ensures unpaired { (s : Subsystem) (d : ℕ) (volume : Calls) (n : ℕ) (m : Mounted) → mounted_in s.mounted n ≡ Some m →
        StaysThere m (unpaired s d volume).behind n }
{}

/// In a run the image with which a quiet track is named first before an edit is that of the plain volume as the event begins.
pub fn told_is_plain()
    ensures { (s : Subsystem) (e : Event) (n t : ℕ) (m : Mounted) (i : Image) → mounted_in s.mounted n ≡ Some m → IsQuiet m t →
        first_named n t (event_messages s e) ≡ Some i → i ≡ plain_at m.device.store t }
{}

/// A track of a device that tells what it holds is quiet where it isn't loose and no half write of a command or of one that was cut is open on it.
pub fn mounted_is_quiet()
    ensures { (p : Pool) (xs : List Stood) (ms : List Mounted) (n t : ℕ) (m : Mounted) → AreMounted p xs ms → mounted_in ms n ≡ Some m →
        t < tracks_of m.device.store → is_loose m.device.store t ≡ false → is_written_at m.device.store.half t ≡ false → IsQuiet m t }
{}

/// In a run the firm volume of a device behind an event is the one before, with the images of its Firm messages of that event put in, one after another;
/// so it is behind a look at any track of any device. Behind the orders for which a volume is handed in it is as it was: they tell nothing. Nothing that is
/// firm is then still to be told. Exactly one device has the number; where a pair is taken apart, it isn't lent.
pub fn firm_is_told()
    ensures event { (s : Subsystem) (e : Event) (n : ℕ) (m : Mounted) → mounted_in s.mounted n ≡ Some m → IsTold m.device.store →
        has_one n s.mounted ≡ true → IsFirm (told_firm n (event_messages s e) m.device.store.firm) (happens s e).behind n }
    ensures look { (s : Subsystem) (d q n : ℕ) (m : Mounted) → mounted_in s.mounted n ≡ Some m → IsTold m.device.store →
        IsFirm (told_firm n (look_messages s d q) m.device.store.firm) (looked s d q).behind n }
    ensures replaced { (s : Subsystem) (d : ℕ) (side : Side) (volume : Calls) (n : ℕ) (m : Mounted) → mounted_in s.mounted n ≡ Some m →
        IsTold m.device.store → IsFirm m.device.store.firm (replaced s d side volume).behind n }
    ensures unpaired { (s : Subsystem) (d : ℕ) (volume : Calls) (n : ℕ) (m : Mounted) → mounted_in s.mounted n ≡ Some m → IsTold m.device.store →
        m.device.store.lent ≡ None → IsFirm m.device.store.firm (unpaired s d volume).behind n }
{}

/// Of a device that tells what it holds nothing that is firm is still to be told, between two events.
pub fn mounted_is_told()
    ensures { (p : Pool) (xs : List Stood) (ms : List Mounted) (n : ℕ) (m : Mounted) → AreMounted p xs ms → mounted_in ms n ≡ Some m →
        IsTold m.device.store }
{}

/// Behind an event and a look exactly one device has a number where one had it.
pub fn one_keeps_its_number()
    ensures event { (s : Subsystem) (e : Event) (n : ℕ) → has_one n s.mounted ≡ true → has_one n (happens s e).behind.mounted ≡ true }
    ensures look { (s : Subsystem) (d q n : ℕ) → has_one n s.mounted ≡ true → has_one n (looked s d q).behind.mounted ≡ true }
{}
