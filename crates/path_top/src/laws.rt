//! Laws of histories.

ghost use Rattle.std.specs.Prelude.{◌≡◌, true, All, List};
ghost use Rattle.deck_text.specs.DeckLines.{DeckLines};
ghost use Rattle.subsystem_defs.specs.Decks.{Firsts};
ghost use Rattle.path_top.specs.Excuses.{fails_nothing};
ghost use Rattle.path_top.specs.Histories.{AreToldOf, AreToldOfOn, HasNoFailure};
ghost use Rattle.path_top.specs.Told.{DeviceTold};

/// Where no line of a deck is a FAIL or a FAULT, no program in its history ended with equipment check, and every LOST is 0, whatever its volumes held.
pub fn unfailing_history_on_volumes_checks_nothing()
    ensures { (firsts : Firsts) (deck : DeckLines) (devices : List DeviceTold) → AreToldOfOn firsts deck devices → fails_nothing deck ≡ true
        → All HasNoFailure devices }
{}

/// Where no line of a deck is a FAIL or a FAULT, no program in its history ended with equipment check, and every LOST is 0.
pub fn unfailing_history_checks_nothing()
    ensures { (deck : DeckLines) (devices : List DeviceTold) → AreToldOf deck devices → fails_nothing deck ≡ true → All HasNoFailure devices }
{
    unfailing_history_on_volumes_checks_nothing();
}
