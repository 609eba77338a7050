//! What is kept of a replayed device's paths is what the history of the lines says of them: how many programs each of
//! them started, whether it used something, which resets wait, and whether a program was started since the power came.

ghost use Rattle.std.specs.Prelude.{◌≡◌, ◌≤◌, ◌==◌, false, true, ℕ, None, Some};
ghost use Rattle.ckd_types.specs.declared.channel.CommandEnd.{CommandEnd};
ghost use Rattle.plain_defs.specs.declared.journal.Act.{Act};
ghost use Rattle.plain_defs.specs.History.{History, OpenEntry, acted, checked, cut_by, emptied, ended, has_used, lost_power, reset_in_history, started};
ghost use Rattle.plain_defs.specs.Legal.{is_used};
ghost use Rattle.report_text.specs.declared.answers.StartAnswer.TheVariants as start;
ghost use Rattle.deck_audit.specs.Device.{AuditedDevice, start_answer};
ghost use Rattle.deck_audit.specs.Follows.{CountsAs, Follows, KeepsPaths, WaitsAs};
ghost use Rattle.deck_audit.specs.History.{cut_open};
ghost use Rattle.deck_audit.specs.Replay as replay;
ghost use Rattle.deck_audit.specs.Replayed.{ReplayedState};

/// It gives the premises of the laws of a replayed device; what a command does to the device leaves it.
pub fn paths_are_kept()
    ensures used { (r : ReplayedState) (a : AuditedDevice) → KeepsPaths r a.history → (path : ℕ) → 1 ≤ path → path ≤ 4 →
        replay.is_used_on r path ≡ has_used a.history path }
    ensures next { (r : ReplayedState) (h : History) → KeepsPaths r h → KeepsPaths (replay.ended_next r) h }
    ensures settled { (r : ReplayedState) (h : History) → KeepsPaths r h → KeepsPaths (replay.settled r) h }
    ensures counts { (r : ReplayedState) (a : AuditedDevice) → KeepsPaths r a.history → CountsAs r a }
    ensures waits { (r : ReplayedState) (h : History) → KeepsPaths r h → WaitsAs r.waits h.waiting }
{}

/// A START that is accepted starts the same program, and counts it.
pub fn started_is_kept()
    ensures follows { (r : ReplayedState) (a : AuditedDevice) → Follows r a → KeepsPaths r a.history → r.pending ≡ None → (path n : ℕ) → 1 ≤ path →
        path ≤ 4 → start_answer a path ≡ start.Accepted n →
        Follows (replay.started_next a.plans r path) (record a { history = started a.history path n }) }
    ensures keeps { (r : ReplayedState) (a : AuditedDevice) → Follows r a → KeepsPaths r a.history → r.pending ≡ None → (path n : ℕ) → 1 ≤ path →
        path ≤ 4 → start_answer a path ≡ start.Accepted n → KeepsPaths (replay.started_next a.plans r path) (started a.history path n) }
{}

/// An act, a new volume, an end and a check keep it.
pub fn ended_is_kept()
    ensures act { (r : ReplayedState) (h : History) (act : Act) → KeepsPaths r h → KeepsPaths (replay.acted r act) (acted h act) }
    ensures fresh { (r : ReplayedState) (h : History) → KeepsPaths r h → KeepsPaths (replay.given_back r) (emptied h) }
    ensures more { (r : ReplayedState) (h : History) (o : OpenEntry) (e : CommandEnd) → KeepsPaths r h → h.running ≡ Some o → e.over ≡ false →
        KeepsPaths r (ended h e) }
    ensures over { (r : ReplayedState) (h : History) (o : OpenEntry) (e : CommandEnd) → KeepsPaths r h → h.running ≡ Some o → e.over ≡ true →
        KeepsPaths (replay.closed r) (ended h e) }
    ensures check { (r : ReplayedState) (h : History) (o : OpenEntry) (e : CommandEnd) → KeepsPaths r h → h.running ≡ Some o →
        KeepsPaths (replay.closed r) (checked h e) }
{}

/// So do resets and a loss of power.
pub fn reset_is_kept()
    ensures idle { (r : ReplayedState) (h : History) → KeepsPaths r h → h.running ≡ None → (path more : ℕ) → 1 ≤ path → path ≤ 4 →
        replay.is_used_on r path ≡ is_used path false h.items → KeepsPaths (replay.reset_used r path) (reset_in_history h path more) }
    ensures waiting { (r : ReplayedState) (h : History) (o : OpenEntry) → KeepsPaths r h → h.running ≡ Some o → (path more : ℕ) → 1 ≤ path →
        path ≤ 4 → (o.path == path) ≡ false → replay.is_used_on r path ≡ is_used path false h.items →
        KeepsPaths (replay.wait_used r path) (reset_in_history h path more) }
    ensures cut { (r : ReplayedState) (h : History) (o : OpenEntry) (more : ℕ) → KeepsPaths r h → h.running ≡ Some o → 1 ≤ o.path → o.path ≤ 4 →
        KeepsPaths (replay.closed (replay.reset_on r o.path)) (cut_by h o more) }
    ensures power_cut { (r : ReplayedState) (h : History) (o : OpenEntry) (more : ℕ) → KeepsPaths r h → h.running ≡ Some o →
        KeepsPaths (replay.cut r) (cut_open h o more) }
    ensures power { (r : ReplayedState) (h : History) → KeepsPaths r h → h.running ≡ None → KeepsPaths (replay.without_power r) (lost_power h 0) }
{}
