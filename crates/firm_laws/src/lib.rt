//! Laws that tie what a keeper is told as firm with the device's history. It has no code; its lemmas are over plain variables.
#![tactic(auto)]

ghost use Rattle.std.specs.Prelude.{◌≡◌, ℕ, true, List, [], ◌++◌, map, Ok, Some, All};
ghost use Rattle.ckd_types.specs.declared.paths.Side.{Side};
ghost use Rattle.deck_text.specs.DeckLines.{DeckLines};
ghost use Rattle.deck_text.specs.Parse.{parsed};
ghost use Rattle.plain_defs.specs.History.{no_history};
ghost use Rattle.device_outside.specs.Told.{Calls};
ghost use Rattle.device_defs.specs.Marks.{MarksDevice};
ghost use Rattle.subsystem_defs.specs.declared.event.Event.{Event};
ghost use Rattle.subsystem_defs.specs.Decks.{AreWhole, Firsts, opened, opened_on};
ghost use Rattle.subsystem_defs.specs.Happening.{happens, replaced, unpaired};
ghost use Rattle.subsystem_defs.specs.Lines.{asked_by};
ghost use Rattle.subsystem_defs.specs.Looks.{looked};
ghost use Rattle.subsystem_defs.specs.Subsystem.{Mounted, Subsystem, mounted_in};
ghost use Rattle.subsystem_laws.specs.Served.{IsServedEvent};
ghost use Rattle.subsystem_laws.proofs.PlainRuns.{ArePlain, ArePlainOn};
ghost use Rattle.subsystem_laws.specs.Looking.{look_messages};
ghost use Rattle.keeper_laws.specs.Firmness.{told_firm, IsTold, has_one, IsFirm};
ghost use Rattle.keeper_laws.specs.Messages.{event_messages};
ghost use Rattle.line_drive.specs.Driven.{Course, Goes, driven};
ghost use Rattle.firm_laws.specs.FirmWrites.{FirmWrite, firm_writes_of, firm_writes_on, firms_in};
ghost use Rattle.firm_laws.specs.Telling.{IsTelling};
ghost use Rattle.firm_laws.specs.Written.{BeginsWith, HasWrittenOn, behind_all, all_messages};

/// In a run the firm writes of a device behind an event are those before it, and then the tracks of its Firm messages of that event, in their order; so they
/// are behind a look at any track of any device. Behind the orders for which a volume is handed in they are as they were: these tell nothing, and the empty
/// volume that a device gets back is no write. Exactly one device has the number. So it is whatever the volumes of the devices held first.
pub fn firm_is_written()
    ensures event { (firsts : Firsts) (s : Subsystem) (e : Event) (n : ℕ) (m : Mounted) → ArePlainOn firsts s.mounted → mounted_in s.mounted n ≡ Some m →
        IsTold m.device.store → has_one n s.mounted ≡ true →
        HasWrittenOn firsts (firm_writes_on firsts m.device ++ firms_in n (event_messages s e)) (happens s e).behind n }
    ensures look { (firsts : Firsts) (s : Subsystem) (d q n : ℕ) (m : Mounted) → ArePlainOn firsts s.mounted → mounted_in s.mounted n ≡ Some m →
        IsTold m.device.store → HasWrittenOn firsts (firm_writes_on firsts m.device ++ firms_in n (look_messages s d q)) (looked s d q).behind n }
    ensures replaced { (firsts : Firsts) (s : Subsystem) (d : ℕ) (side : Side) (volume : Calls) (n : ℕ) (m : Mounted) → ArePlainOn firsts s.mounted →
        mounted_in s.mounted n ≡ Some m → IsTold m.device.store →
        HasWrittenOn firsts (firm_writes_on firsts m.device) (replaced s d side volume).behind n }
    ensures unpaired { (firsts : Firsts) (s : Subsystem) (d : ℕ) (volume : Calls) (n : ℕ) (m : Mounted) → ArePlainOn firsts s.mounted →
        mounted_in s.mounted n ≡ Some m → IsTold m.device.store → HasWrittenOn firsts (firm_writes_on firsts m.device) (unpaired s d volume).behind n }
{}

/// Each device is beside the plain device of its history where a deck that was read is opened, and behind each event of the paths that there are, each look
/// and the orders for which a volume is handed in. The plain device begins with what the volume held first.
pub fn devices_stay_plain()
    ensures opened { (text : List ℕ) (deck : DeckLines) → parsed text ≡ Ok deck → ArePlain (opened deck).mounted }
    ensures opened_on { (firsts : Firsts) → AreWhole firsts → (text : List ℕ) (deck : DeckLines) → parsed text ≡ Ok deck →
        ArePlainOn firsts (opened_on firsts deck).mounted }
    ensures event { (firsts : Firsts) (s : Subsystem) (e : Event) → ArePlainOn firsts s.mounted → IsServedEvent e →
        ArePlainOn firsts (happens s e).behind.mounted }
    ensures look { (firsts : Firsts) (s : Subsystem) (d q : ℕ) → ArePlainOn firsts s.mounted → ArePlainOn firsts (looked s d q).behind.mounted }
    ensures replaced { (firsts : Firsts) (s : Subsystem) (d : ℕ) (side : Side) (volume : Calls) → ArePlainOn firsts s.mounted →
        ArePlainOn firsts (replaced s d side volume).behind.mounted }
    ensures unpaired { (firsts : Firsts) (s : Subsystem) (d : ℕ) (volume : Calls) → ArePlainOn firsts s.mounted →
        ArePlainOn firsts (unpaired s d volume).behind.mounted }
{}

/// Where a deck is opened nothing has happened to a device, and its plain and its firm volume are what its volume held first.
pub fn devices_begin_with_firsts()
    ensures { (firsts : Firsts) (deck : DeckLines) (n : ℕ) (m : Mounted) → mounted_in (opened_on firsts deck).mounted n ≡ Some m →
        BeginsWith (firsts n m.device.store.cylinders) m.device }
{}

/// A device to which nothing happened has no firm writes.
pub fn none_are_written_yet()
    ensures { (firsts : Firsts) (d : MarksDevice) → d.history ≡ no_history → firm_writes_on firsts d ≡ [] }
{}

/// So behind any events, one after another, its firm writes are those before them, and then the tracks of all its Firm messages; and its firm volume is the
/// one before them, with the images of these put in.
pub fn firm_is_written_so_far()
    ensures writes { (firsts : Firsts) (s : Subsystem) (es : List Event) (n : ℕ) (m : Mounted) → ArePlainOn firsts s.mounted →
        mounted_in s.mounted n ≡ Some m → IsTold m.device.store → has_one n s.mounted ≡ true → All IsServedEvent es →
        HasWrittenOn firsts (firm_writes_on firsts m.device ++ firms_in n (all_messages s es)) (behind_all s es) n }
    ensures firm { (s : Subsystem) (es : List Event) (n : ℕ) (m : Mounted) → mounted_in s.mounted n ≡ Some m → IsTold m.device.store →
        has_one n s.mounted ≡ true → IsFirm (told_firm n (all_messages s es) m.device.store.firm) (behind_all s es) n }
{}

/// And whoever goes along with the run of a deck that was read, and keeps what is told as firm of a device of it, has its firm writes behind the deck's lines.
pub fn driven_firm_is_written<G, E>()
    ensures { (c : Course G E) (number : G → ℕ) (firms : G → List FirmWrite) → IsTelling c number firms → (text : List ℕ) (deck : DeckLines) →
        parsed text ≡ Ok deck → (g : G) → c.sub g ≡ opened deck → firms g ≡ [] → (first : Mounted) →
        mounted_in (opened deck).mounted (number g) ≡ Some first → (h : G) → driven c (map asked_by deck.events) g ≡ Goes h → (m : Mounted) →
        mounted_in (c.sub h).mounted (number g) ≡ Some m → firms h ≡ firm_writes_of m.device }
{}

/// The same where the volumes of the deck's devices held other tracks first.
pub fn driven_firm_is_written_on_volumes<G, E>()
    ensures { (firsts : Firsts) → AreWhole firsts → (c : Course G E) (number : G → ℕ) (firms : G → List FirmWrite) → IsTelling c number firms →
        (text : List ℕ) (deck : DeckLines) → parsed text ≡ Ok deck → (g : G) → c.sub g ≡ opened_on firsts deck → firms g ≡ [] → (first : Mounted) →
        mounted_in (opened_on firsts deck).mounted (number g) ≡ Some first → (h : G) → driven c (map asked_by deck.events) g ≡ Goes h → (m : Mounted) →
        mounted_in (c.sub h).mounted (number g) ≡ Some m → firms h ≡ firm_writes_on firsts m.device }
{}
