//! Laws of the run of a deck: exactly which reads and writes of volumes each event makes, and that a write in the cache alone is never checked.
//! It has no code; its lemmas are over plain variables.
#![tactic(auto)]

ghost use Rattle.std.specs.Prelude.{All};
ghost use Rattle.deck_text.specs.DeckLines.{DeckLines};
ghost use Rattle.subsystem_defs.specs.Decks.{Firsts, run_on};
ghost use Rattle.move_laws.specs.Chosen.{EndsFastWrites};
ghost use Rattle.move_laws.specs.Exactly.{MovesExactly};

/// In the run of every deck, whatever its volumes hold first, a command reads no volume for a lost track or for a hit; for a miss it makes one read, and one more where side A's
/// read fails and side B has the track. A write that is chosen to be fast or provisional writes no volume; one through makes one write to each side
/// that takes it, or one to side A alone where the command is half done then, and the second part makes side B's. Work in the background makes
/// exactly those of what there is to do. All other events make the transfers of the table of events, which are none.
pub fn run_moves_exactly()
    ensures { (firsts : Firsts) (deck : DeckLines) → All MovesExactly (run_on firsts deck).events }
{}

/// In the run of every deck, whatever its volumes hold first, a command that chose its write to be fast or provisional doesn't end with equipment check, whichever sides are up. So a
/// check that is explained by a write while no side is up is one of a write through, or of a command that came to no write.
pub fn fast_writes_are_not_checked()
    ensures { (firsts : Firsts) (deck : DeckLines) → All EndsFastWrites (run_on firsts deck).events }
{}
