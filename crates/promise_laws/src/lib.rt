//! Laws of what is promised of a run beside plain histories: which event brings what into a journal, and what the writes made of the volumes.
//! It has no code; its lemmas are over plain variables.
#![tactic(auto)]

ghost use Rattle.std.specs.Prelude.{◌≡◌, ◌⊎◌, ℕ, List, ◌++◌, Ok, All};
ghost use Rattle.deck_text.specs.DeckLines.{DeckLines};
ghost use Rattle.deck_text.specs.Parse.{parsed};
ghost use Rattle.plain_defs.specs.declared.journal.Item.{Item};
ghost use Rattle.plain_defs.specs.History.{History};
ghost use Rattle.device_defs.specs.Marks.{MarksDevice};
ghost use Rattle.device_defs.specs.Pledge.{fresh_count};
ghost use Rattle.subsystem_defs.specs.declared.end.EventEnd.{EventEnd};
ghost use Rattle.subsystem_defs.specs.Decks.{AreWhole, Firsts, run_of, run_on};
ghost use Rattle.subsystem_defs.specs.Lines.{Asked};
ghost use Rattle.promise_laws.specs.Kept.{KeepWrites, KeepWritesOn};
ghost use Rattle.promise_laws.specs.Origins.{Brings, HaveOrigins, IsGivenBack};

/// In the run of every deck that was read each event makes of each device's history what an event of its kind may make of it, and nothing else.
pub fn read_run_has_origins()
    ensures { (text : List ℕ) (deck : DeckLines) → parsed text ≡ Ok deck → All HaveOrigins (run_of deck).events }
{}

/// So a journal only grows.
pub fn journals_grow()
    ensures { (asked : Asked) (end : EventEnd) (d : MarksDevice) (k : History) → Brings asked end d k →
        (more : List Item) × (k.items ≡ d.history.items ++ more) }
{}

/// And a new volume comes to a journal by an UNPAIR alone, which gives the volume back, and once.
pub fn new_volumes_are_given_back()
    ensures { (asked : Asked) (end : EventEnd) (d : MarksDevice) (k : History) → Brings asked end d k →
        (fresh_count k.items ≡ fresh_count d.history.items) ⊎ IsGivenBack asked end d k }
{}

/// Behind every event of such a run each device's firm volume is the empty one with the edits that were acknowledged since its last new volume, in
/// the journal's order, and with that of a command that was cut in the midst of its write; and a track without data of cache fast write is its firm one.
pub fn read_run_keeps_writes()
    ensures { (text : List ℕ) (deck : DeckLines) → parsed text ≡ Ok deck → All KeepWrites (run_of deck).events }
{}

/// Both of its run on volumes that hold other tracks first. What a firm volume was made of is then these, until the device gets a new volume.
pub fn run_on_volumes_keeps_promises()
    ensures origins { (firsts : Firsts) → AreWhole firsts → (text : List ℕ) (deck : DeckLines) → parsed text ≡ Ok deck →
        All HaveOrigins (run_on firsts deck).events }
    ensures writes { (firsts : Firsts) → AreWhole firsts → (text : List ℕ) (deck : DeckLines) → parsed text ≡ Ok deck →
        All (KeepWritesOn firsts) (run_on firsts deck).events }
{}
