//! What lines that are judged well keep.

ghost use Rattle.std.specs.Prelude.{◌≡◌, ◌≤◌, [], ℕ, None, Some, true};
ghost use Rattle.ckd_types.specs.declared.channel.CommandEnd.{CommandEnd};
ghost use Rattle.plain_defs.specs.declared.journal.Act.TheVariants.{CfwLost, Harden};
ghost use Rattle.plain_defs.specs.History.{OpenEntry, acted, emptied, ended, reset_in_history, started, IsPlain};
ghost use Rattle.plain_defs.specs.Legal.{IsSomeLoose};
ghost use Rattle.plain_defs.specs.Loose.{is_loose_there};
ghost use Rattle.report_text.specs.declared.answers.StartAnswer.TheVariants as start;
ghost use Rattle.deck_audit.specs.Device.{AuditedDevice, is_next_legal, plain_end, start_answer, state_of};

/// A START that is accepted as it must be keeps the device's history one that a plain device could have.
pub fn accepted_start_is_plain()
    ensures { (a : AuditedDevice) (path n : ℕ) → 1 ≤ path → path ≤ 4 → IsPlain a.plans a.empty a.history → start_answer a path ≡ start.Accepted n →
        IsPlain a.plans a.empty (started a.history path n) }
{}

/// So does a command that ends as on the plain device, where it may edit its track and no reset waits.
pub fn plain_end_is_plain()
    ensures { (a : AuditedDevice) (o : OpenEntry) (e : CommandEnd) → IsPlain a.plans a.empty a.history → a.history.running ≡ Some o →
        a.history.waiting ≡ [] → is_next_legal a (Some o) ≡ true → plain_end a o ≡ Some e → IsPlain a.plans a.empty (ended a.history e) }
{}

/// So do, while no program runs, a reset, a new volume, and a track that becomes firm.
pub fn idle_is_plain()
    ensures reset { (a : AuditedDevice) (path more : ℕ) → IsPlain a.plans a.empty a.history → a.history.running ≡ None →
        IsPlain a.plans a.empty (reset_in_history a.history path more) }
    ensures fresh { (a : AuditedDevice) → IsPlain a.plans a.empty a.history → a.history.running ≡ None → IsPlain a.plans a.empty (emptied a.history) }
    ensures harden { (a : AuditedDevice) (t : ℕ) → IsPlain a.plans a.empty a.history → a.history.running ≡ None → is_loose_there (state_of a) t ≡ true →
        IsPlain a.plans a.empty (acted a.history (Harden t)) }
    ensures lost { (a : AuditedDevice) → IsPlain a.plans a.empty a.history → a.history.running ≡ None → IsSomeLoose (state_of a).loose →
        IsPlain a.plans a.empty (acted a.history CfwLost) }
{}
