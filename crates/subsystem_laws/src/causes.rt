//! Laws of the run of a deck: what causes the checks of its commands.

ghost use Rattle.std.specs.Prelude.{◌≡◌, ◌<◌, ◌-◌, ◌^◌, ℕ, true, List, [], length, Ok, All};
ghost use Rattle.deck_text.specs.DeckLines.{DeckLines};
ghost use Rattle.deck_text.specs.Parse.{parsed};
ghost use Rattle.subsystem_defs.specs.Calm.{is_calm};
ghost use Rattle.subsystem_defs.specs.Decks.{run_of};
ghost use Rattle.subsystem_defs.specs.Promised.{are_explained, miss_nothing};
ghost use Rattle.subsystem_laws.specs.Causes.{
  CheckForCause,
  CheckNothing,
  CountFailures,
  HaveGoodMarks,
  HaveNoDataCheck,
  KeepTracks,
  LoseForCause,
  MissNothing,
};
ghost use Rattle.subsystem_laws.specs.Excused.{HaveCountedLosses, HaveExcusedChecks, HaveExcusedTracks, HaveExcuses};
ghost use Rattle.subsystem_laws.specs.Served.{IsServedDeck};
ghost use Rattle.subsystem_laws.specs.SoundHardware.{HaveExplainedChecks, HaveNoEquipmentCheck, HaveNoFailedCall, has_sound_hardware};

/// No command ends with data check, whatever calls fail and whatever is lost.
pub fn run_has_no_data_check()
    ensures { (deck : DeckLines) → All HaveNoDataCheck (run_of deck).events }
{}

/// Behind every event each device that isn't lent has good marks, whatever calls fail and whatever is lost.
pub fn run_has_good_marks()
    ensures { (deck : DeckLines) → IsServedDeck deck → All HaveGoodMarks (run_of deck).events }
{}

/// Behind every event no track is lost of a device, while none of its sides and not the store was lost and no call failed.
pub fn run_loses_no_track()
    ensures { (deck : DeckLines) → IsServedDeck deck → All KeepTracks (run_of deck).events }
{}

/// No command ends with equipment check on a device, while nothing of it was lost, cache and power among it, and no call failed.
pub fn run_checks_nothing()
    ensures { (deck : DeckLines) → IsServedDeck deck → All CheckNothing (run_of deck).events }
{}

/// So what is promised of a calm run holds of such a device: every program was served, and no track is lost.
pub fn run_misses_nothing()
    ensures { (deck : DeckLines) → IsServedDeck deck → All MissNothing (run_of deck).events }
{}

/// So it is in the run of every deck that was read.
pub fn read_run_checks_nothing()
    ensures marks { (text : List ℕ) (deck : DeckLines) → parsed text ≡ Ok deck → All HaveGoodMarks (run_of deck).events }
    ensures tracks { (text : List ℕ) (deck : DeckLines) → parsed text ≡ Ok deck → All KeepTracks (run_of deck).events }
    ensures checks { (text : List ℕ) (deck : DeckLines) → parsed text ≡ Ok deck → All CheckNothing (run_of deck).events }
{}

/// Where an event adds a program that ended with equipment check to a device's journal, a call of it failed in the event, or before it no side took
/// writes, neither side was left for its open half write, a track was lost, or data of the program's own cache fast write were gone.
pub fn checks_have_causes()
    ensures served { (deck : DeckLines) → IsServedDeck deck → All CheckForCause (run_of deck).events }
    ensures read { (text : List ℕ) (deck : DeckLines) → parsed text ≡ Ok deck → All CheckForCause (run_of deck).events }
{}

/// Where a track of a device becomes lost in an event, a loss was given to the device then, a call of it failed, or of its open half write no side had
/// the track and side B took no writes.
pub fn lost_tracks_have_causes()
    ensures served { (deck : DeckLines) → IsServedDeck deck → All LoseForCause (run_of deck).events }
    ensures read { (text : List ℕ) (deck : DeckLines) → parsed text ≡ Ok deck → All LoseForCause (run_of deck).events }
{}

/// Over a calm run, in which each failure comes where everything is repaired and no volume that is alone fails, every program is served and no track
/// is lost behind any event. A deck that was read has few enough events for that.
pub fn calm_run_misses_nothing()
    ensures served { (deck : DeckLines) → IsServedDeck deck → length (run_of deck).events < 2 ^ 64 - 1 → is_calm (run_of deck).events ≡ true →
        miss_nothing (run_of deck).events ≡ true }
    ensures read { (text : List ℕ) (deck : DeckLines) → parsed text ≡ Ok deck → is_calm (run_of deck).events ≡ true →
        miss_nothing (run_of deck).events ≡ true }
{}

/// Each equipment check is explained: a track that the last command of its program touched is lost then, a call failed in the event, that command is
/// a write and no side was up, or data of the program's own cache fast write were lost. So while failed calls are counted, as in the run of every deck
/// that was read.
pub fn run_is_explained()
    ensures served { (deck : DeckLines) → IsServedDeck deck → All CountFailures (run_of deck).events → are_explained (run_of deck).events ≡ true }
    ensures read { (text : List ℕ) (deck : DeckLines) → parsed text ≡ Ok deck → are_explained (run_of deck).events ≡ true }
{}

/// Behind every event a device is excused for what it lost and checked. Its tracks: with no loss of a side and no failed call it takes losses of both
/// cache and store, that of power among the former, to lose one. Its data of cache fast write: they were lost at most as often as losses of the cache
/// were counted. Where it was never lent, its checks: no more are unexplained than calls of it failed; of the others the program's last command touched
/// a track that is lost, or is a write and a side was lost or two calls failed, or data of the program's own cache fast write were lost. All three are of
/// every deck that was read.
pub fn run_excuses_devices()
    ensures tracks { (deck : DeckLines) → IsServedDeck deck → All HaveExcusedTracks (run_of deck).events }
    ensures loose { (deck : DeckLines) → IsServedDeck deck → length (run_of deck).events < 2 ^ 64 - 1 → All HaveCountedLosses (run_of deck).events }
    ensures checks { (deck : DeckLines) → IsServedDeck deck → All CountFailures (run_of deck).events → All HaveExcusedChecks (run_of deck).events }
    ensures served { (deck : DeckLines) → IsServedDeck deck → length (run_of deck).events < 2 ^ 64 - 1 → All CountFailures (run_of deck).events →
        All HaveExcuses (run_of deck).events }
    ensures read { (text : List ℕ) (deck : DeckLines) → parsed text ≡ Ok deck → All HaveExcuses (run_of deck).events }
{}

/// Where no line of the deck is a FAULT, no call of a volume fails, whatever is lost. So what was lost explains each equipment check of a device that was
/// never lent.
pub fn no_call_fails_without_faults()
    ensures calls { (deck : DeckLines) → deck.faults ≡ [] → All HaveNoFailedCall (run_of deck).events }
    ensures checks { (deck : DeckLines) → IsServedDeck deck → deck.faults ≡ [] → All HaveExplainedChecks (run_of deck).events }
    ensures read { (text : List ℕ) (deck : DeckLines) → parsed text ≡ Ok deck → deck.faults ≡ [] → All HaveExplainedChecks (run_of deck).events }
{}

/// On sound hardware, where no line of the deck is a FAULT, a FAIL or a POWER, no command ends with equipment check, every program is served, and no
/// track is lost behind any event.
pub fn sound_hardware_checks_nothing()
    ensures checks { (deck : DeckLines) → IsServedDeck deck → has_sound_hardware deck ≡ true → All HaveNoEquipmentCheck (run_of deck).events }
    ensures missed { (deck : DeckLines) → IsServedDeck deck → has_sound_hardware deck ≡ true → miss_nothing (run_of deck).events ≡ true }
    ensures read_checks { (text : List ℕ) (deck : DeckLines) → parsed text ≡ Ok deck → has_sound_hardware deck ≡ true →
        All HaveNoEquipmentCheck (run_of deck).events }
    ensures read_missed { (text : List ℕ) (deck : DeckLines) → parsed text ≡ Ok deck → has_sound_hardware deck ≡ true →
        miss_nothing (run_of deck).events ≡ true }
{}
