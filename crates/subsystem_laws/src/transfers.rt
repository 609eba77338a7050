//! A law of the run of a deck: the reads and writes of each event.

ghost use Rattle.std.specs.Prelude.{All};
ghost use Rattle.deck_text.specs.DeckLines.{DeckLines};
ghost use Rattle.subsystem_defs.specs.Decks.{run_of};
ghost use Rattle.subsystem_laws.specs.Transfers.{MovesByTable};

/// Each event makes the reads and writes of the table of events, whatever calls fail and whatever is lost: the second part of a write exactly
/// one write of an untried side that takes it, what a device does by itself those of what it then answers, and all orders none.
pub fn run_moves_by_table()
    ensures { (deck : DeckLines) → All MovesByTable (run_of deck).events }
{}
