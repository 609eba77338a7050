//! A law of the run of a deck: what each device's history is.

ghost use Rattle.std.specs.Prelude.{◌≡◌, ℕ, List, Ok, All};
ghost use Rattle.deck_text.specs.DeckLines.{DeckLines};
ghost use Rattle.deck_text.specs.Parse.{parsed};
ghost use Rattle.subsystem_defs.specs.Decks.{run_of};
ghost use Rattle.subsystem_defs.specs.Promised.{IsPlainBehind};
ghost use Rattle.subsystem_laws.specs.Served.{IsServedDeck};

/// Behind every event of the run each device's history is one that a plain device could have, whatever calls fail and however few
/// frames and slots there are.
pub fn run_is_plain()
    ensures { (deck : DeckLines) → IsServedDeck deck → All IsPlainBehind (run_of deck).events }
{}

/// So it is in the run of every deck that was read.
pub fn read_run_is_plain()
    ensures { (text : List ℕ) (deck : DeckLines) → parsed text ≡ Ok deck → All IsPlainBehind (run_of deck).events }
{}
