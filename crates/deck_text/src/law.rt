ghost use Rattle.std.specs.Prelude.{◌≡◌, ◌≤◌, ℕ, List, length};
ghost use Rattle.deck_text.specs.DeckLines.{DeckLines};
ghost use Rattle.deck_text.specs.Parse.{parsed};
ghost use Rattle.deck_text.specs.Canonical.{canonical};

/// A law: the canonical text of each deck that a text is is read as the same deck, where it isn't
/// longer than a text may be.
pub fn reads_back()
    ensures { (text : List ℕ) (deck : DeckLines) → parsed text ≡ Ok deck → length (canonical deck) ≤ 16777216 → parsed (canonical deck) ≡ Ok deck }
{}
