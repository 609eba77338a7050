//! Laws of devices that stand as a run has them: their slots, and what they hold.

ghost use Rattle.std.specs.Prelude.{List};
ghost use Rattle.deck_text.specs.DeckLines.{DeckLines};
ghost use Rattle.device_outside.specs.Pool.{Pool};
ghost use Rattle.subsystem_defs.specs.Decks.{run_of};
ghost use Rattle.subsystem_defs.specs.Subsystem.{Mounted};
ghost use Rattle.subsystem_laws.specs.AllSound.{AreSound};
ghost use Rattle.subsystem_laws.specs.Served.{IsServedDeck};
ghost use Rattle.subsystem_laws.specs.SlotsApart.{AreApart};
ghost use Rattle.subsystem_laws.specs.WholeStood.{Stood, AreMounted};

/// Each patch's slot is in use, and no two patches have the same, over all devices.
pub fn slots_are_apart()
    ensures { (p : Pool) (xs : List Stood) (ms : List Mounted) → AreMounted p xs ms → AreApart p.used xs }
{}

/// Behind the run of a deck each device is sound: its frames and its patches, and what its volumes hold, agree track by track with the plain
/// device of its history, with data of cache fast write and without them.
pub fn devices_are_sound()
    ensures { (deck : DeckLines) (p : Pool) (xs : List Stood) → IsServedDeck deck → AreMounted p xs (run_of deck).behind.mounted → AreSound xs }
{}
