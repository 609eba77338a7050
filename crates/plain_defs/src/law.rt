//! Laws of programs and of journals.

ghost use Rattle.std.specs.Prelude.{◌≡◌, ℕ, suc, ◌≤◌, ◌++◌, ◌∷◌, [], List, None, take};
ghost use Rattle.ckd_types.specs.declared.channel.Ccw.{Ccw};
ghost use Rattle.plain_defs.specs.declared.journal.Acted.{Acted};
ghost use Rattle.plain_defs.specs.declared.journal.Item.{Item};
ghost use Rattle.plain_defs.specs.Ends.{LastIsOver};
ghost use Rattle.plain_defs.specs.Journal.{Plans, replay, replay_item, journal_told};
ghost use Rattle.plain_defs.specs.Legal.{IsUncut, IsLegalItem, IsLegal};
ghost use Rattle.plain_defs.specs.PlainState.{PlainState};
ghost use Rattle.plain_defs.specs.Program.{one_more, part_of};

/// The ends of a program's first commands are its first ends.
pub fn first_ends()
    ensures { (state : PlainState) (path : ℕ) (ccws : List Ccw) (acts : List Acted) (k n : ℕ) → k ≤ n →
        (part_of state path ccws acts k).ends ≡ take k (part_of state path ccws acts n).ends }
{}

/// A program with one command more.
pub fn one_command_more()
    ensures { (state : PlainState) (path : ℕ) (ccws : List Ccw) (acts : List Acted) (k : ℕ) →
        part_of state path ccws acts (suc k) ≡ one_more path ccws acts (part_of state path ccws acts k) }
{}

/// Where a program is over, its last end says so.
pub fn last_end_is_over()
    ensures { (state : PlainState) (path : ℕ) (ccws : List Ccw) (acts : List Acted) (k : ℕ) → (part_of state path ccws acts k).next ≡ None →
        LastIsOver (part_of state path ccws acts k).ends }
{}

/// The device behind some items and others is the one behind the others, from the one behind the first on.
pub fn replays_on()
    ensures { (plans : Plans) (state : PlainState) (items later : List Item) →
        replay plans state (items ++ later) ≡ replay plans (replay plans state items) later }
{}

/// One item more leads to what that item makes of the device behind the others.
pub fn replays_one_more()
    ensures { (plans : Plans) (state : PlainState) (items : List Item) (x : Item) →
        replay plans state (items ++ x ∷ []) ≡ replay_item plans (replay plans state items) x }
{}

/// What was told of edits by some items and others is what each part told.
pub fn tells_on()
    ensures { (plans : Plans) (state : PlainState) (items later : List Item) →
        journal_told plans state (items ++ later) ≡ journal_told plans state items ++ journal_told plans (replay plans state items) later }
{}

/// A legal item behind a legal journal makes a legal journal.
pub fn legal_with_one_more()
    ensures { (plans : Plans) (state : PlainState) (items : List Item) (x : Item) → IsLegal plans state items →
        IsLegalItem plans (replay plans state items) items x [] → IsLegal plans state (items ++ x ∷ []) }
{}

/// A front of a legal journal is legal, unless it ends with a program that was cut: behind that one
/// the reset of its path, or the power loss, is missing.
pub fn legal_front()
    ensures { (plans : Plans) (state : PlainState) (items : List Item) (x : Item) (later : List Item) → IsLegal plans state (items ++ x ∷ later) →
        IsUncut x → IsLegal plans state (items ++ x ∷ []) }
{}
