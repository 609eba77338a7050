//! Laws of the run of a deck: how many tracks wait for recovery, and what a repair answers.

ghost use Rattle.std.specs.Prelude.{◌≡◌, ℕ, List, [], Ok, All};
ghost use Rattle.deck_text.specs.DeckLines.{DeckLines};
ghost use Rattle.deck_text.specs.Parse.{parsed};
ghost use Rattle.subsystem_defs.specs.Decks.{run_of};
ghost use Rattle.subsystem_laws.specs.Causes.{CountFailures};
ghost use Rattle.subsystem_laws.specs.Recoveries.{LowersWaiting};
ghost use Rattle.subsystem_laws.specs.Served.{IsServedDeck};
ghost use Rattle.subsystem_laws.specs.Waits.{AreNumbered, TellsWaiting};

/// Behind every event the numbers that the pool was told add up to how many tracks of all devices wait. A repair of what is down is done
/// exactly where none waits, and else answers their number.
pub fn repairs_count_waiting()
    ensures { (deck : DeckLines) → IsServedDeck deck → AreNumbered [] deck.devices → All TellsWaiting (run_of deck).events }
{}

/// So it is in the run of every deck that was read.
pub fn read_repairs_count_waiting()
    ensures { (text : List ℕ) (deck : DeckLines) → parsed text ≡ Ok deck → All TellsWaiting (run_of deck).events }
{}

/// A recovery that is done in one event lowers how many tracks of all devices wait by one. The first part of one in two leaves their number, and its track
/// waits on; the second part lowers it by one, where it is done and no call fails in it. An event in which a call fails ends with neither of the first two.
pub fn recoveries_lower_waiting()
    ensures served { (deck : DeckLines) → IsServedDeck deck → All CountFailures (run_of deck).events → All LowersWaiting (run_of deck).events }
    ensures read { (text : List ℕ) (deck : DeckLines) → parsed text ≡ Ok deck → All LowersWaiting (run_of deck).events }
{}
