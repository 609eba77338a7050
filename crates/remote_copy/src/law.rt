ghost use Rattle.std.specs.Prelude.{◌≡◌, ℕ, List, Ok, Option, Some, map};
ghost use Rattle.ckd_types.specs.declared.record.Track.{Track};
ghost use Rattle.deck_text.specs.DeckLines.{DeckLines};
ghost use Rattle.deck_text.specs.Parse.{parsed};
ghost use Rattle.subsystem_defs.specs.Decks.{AreWhole, Firsts, opened_on};
ghost use Rattle.subsystem_defs.specs.Lines.{asked_by};
ghost use Rattle.subsystem_defs.specs.Subsystem.{Mounted, mounted_in};
ghost use Rattle.line_drive.specs.Driven.{Goes, driven};
ghost use Rattle.firm_laws.specs.FirmWrites.{firm_writes_on};
ghost use Rattle.remote_copy.specs.declared.state.MirrorState.TheVariants.{Level};
ghost use Rattle.remote_copy.specs.Linking.{PutCalls};
ghost use Rattle.remote_copy.specs.Mirrored.{IsMirrored, mirror_course};
ghost use Rattle.remote_copy.specs.Mirroring.{MirrorRun, mirror_begun};
ghost use Rattle.remote_copy.specs.Sending.{IsLevelled, put_all};

/// A mirror that begins where a deck that was read is opened, and goes along with all of its lines, began with what the volume of its device held first, and
/// was told the firm writes of the device's history. So while it is level, and no track was copied, its far volume is these first tracks with those writes
/// put in.
pub fn mirrors_begin_with_firsts()
    ensures mirrored { (firsts : Firsts) → AreWhole firsts → (text : List ℕ) (deck : DeckLines) → parsed text ≡ Ok deck → (d : ℕ) (first : Mounted)
        → mounted_in (opened_on firsts deck).mounted d ≡ Some first → (calls : Option PutCalls) (z : MirrorRun)
        → driven mirror_course (map asked_by deck.events) (mirror_begun (opened_on firsts deck) d first.device.store.firm calls) ≡ Goes z
        → IsMirrored firsts deck d first z }
    ensures level { (firsts : Firsts) (deck : DeckLines) (d : ℕ) (first : Mounted) (z : MirrorRun) → IsMirrored firsts deck d first z → (m : Mounted)
        → mounted_in z.run.mounted d ≡ Some m → (sent : ℕ) (far : List Track) → IsLevelled z.firms z.start Level sent far
        → far ≡ put_all (firm_writes_on firsts m.device) (firsts d first.device.store.cylinders) }
{}
