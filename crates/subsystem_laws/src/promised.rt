//! A law of the run of a deck: all that is promised of it.

ghost use Rattle.std.specs.Prelude.{◌≡◌, ℕ, List, Ok};
ghost use Rattle.deck_text.specs.DeckLines.{DeckLines};
ghost use Rattle.deck_text.specs.Parse.{parsed};
ghost use Rattle.subsystem_defs.specs.Decks.{AreWhole, Firsts};
ghost use Rattle.subsystem_defs.specs.Promised.{IsPromised, IsPromisedOn};

/// In the run of every deck that was read each device's history is one that a plain device could have, behind every event; each equipment check is
/// explained; and where the run is calm every program is served and no track is lost.
pub fn read_run_is_promised()
    ensures { (text : List ℕ) (deck : DeckLines) → parsed text ≡ Ok deck → IsPromised deck }
{}

/// The same of its run on volumes that hold other tracks first: what is plain then began with these.
pub fn run_on_volumes_is_promised()
    ensures { (firsts : Firsts) → AreWhole firsts → (text : List ℕ) (deck : DeckLines) → parsed text ≡ Ok deck → IsPromisedOn firsts deck }
{}
