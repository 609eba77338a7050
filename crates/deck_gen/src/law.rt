ghost use Rattle.std.specs.Prelude.{◌≡◌, ◌≤◌, ℕ};
ghost use Rattle.deck_text.specs.Parse.{parsed};
ghost use Rattle.deck_text.specs.Canonical.{canonical};
ghost use Rattle.deck_gen.specs.Generated.{deck_of_seed};

/// A law: the canonical text of each generated deck is read as the same deck.
pub fn reads_back()
    ensures { (seed count : ℕ) → count ≤ 512 → parsed (canonical (deck_of_seed seed count)) ≡ Ok (deck_of_seed seed count) }
{}
