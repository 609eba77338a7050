//! A device that is replayed follows the history that the lines make of it.

ghost use Rattle.std.specs.Prelude.{◌≡◌, ◌≤◌, ◌==◌, false, true, ℕ, None, Some};
ghost use Rattle.ckd_types.specs.declared.channel.CommandEnd.{CommandEnd};
ghost use Rattle.ckd_types.specs.declared.sense.Sense.{Sense};
ghost use Rattle.plain_defs.specs.declared.journal.Act.{Act};
ghost use Rattle.plain_defs.specs.declared.journal.Act.TheVariants.{Harden, Loosen};
ghost use Rattle.plain_defs.specs.History.{OpenEntry, acted, checked, emptied, ended, reset_in_history};
ghost use Rattle.deck_audit.specs.declared.replayed.Running.{Running};
ghost use Rattle.deck_audit.specs.declared.state.HalfWrite.{HalfWrite};
ghost use Rattle.deck_audit.specs.Device.{AuditedDevice, is_next_legal, may_loosen, plain_end, start_answer};
ghost use Rattle.deck_audit.specs.Follows.{CountsAs, Follows, WaitsAs};
ghost use Rattle.plain_defs.specs.Legal.{is_started, is_used};
ghost use Rattle.report_text.specs.declared.line.ReportLine.{ReportLine};
ghost use Rattle.deck_audit.specs.History.{cut_by_power, end_made_by, sense_made, without_power};
ghost use Rattle.deck_audit.specs.Judging as judging;
ghost use Rattle.deck_audit.specs.Judging.{due_in};
ghost use Rattle.deck_audit.specs.State.{AuditState};
ghost use Rattle.deck_audit.specs.Replay as replay;
ghost use Rattle.deck_audit.specs.Replayed.{PendingState, ReplayedState};

/// A START is answered as the history says.
pub fn start_follows()
    ensures { (r : ReplayedState) (a : AuditedDevice) → Follows r a → CountsAs r a → (path : ℕ) → 1 ≤ path → path ≤ 4 →
        replay.start_answer a.plans r path ≡ start_answer a path }
{}

/// The end of the running program's next command is the one that the history says, and is had with nothing done to the
/// device.
pub fn end_follows()
    ensures end { (r : ReplayedState) (a : AuditedDevice) (o : OpenEntry) (q : Running) → Follows r a → r.running ≡ Some q → r.pending ≡ None →
        a.history.running ≡ Some o → replay.next_end r ≡ plain_end a o }
    ensures follows { (r : ReplayedState) (a : AuditedDevice) (o : OpenEntry) (q : Running) → Follows r a → r.running ≡ Some q → r.pending ≡ None →
        a.history.running ≡ Some o → Follows (replay.ended_next r) a }
{}

/// Behind that end it says as the history does whether the command may edit its track, and whether a track becomes loose
/// with it.
pub fn edit_follows()
    ensures legal { (r : ReplayedState) (a : AuditedDevice) (o : OpenEntry) (q : Running) (w : PendingState) → Follows r a → r.running ≡ Some q →
        r.pending ≡ Some w → a.history.running ≡ Some o → replay.is_legal r ≡ is_next_legal a a.history.running }
    ensures loosens { (r : ReplayedState) (a : AuditedDevice) (o : OpenEntry) (q : Running) (w : PendingState) → Follows r a → r.running ≡ Some q →
        r.pending ≡ Some w → a.history.running ≡ Some o → (t : ℕ) → replay.may_loosen r t ≡ may_loosen a a.history.running t }
{}

/// It follows an act of cache fast write: while no program runs, between two commands, and behind a command's end.
pub fn act_follows()
    ensures idle { (r : ReplayedState) (a : AuditedDevice) (act : Act) → Follows r a → a.history.running ≡ None →
        Follows (replay.acted r act) (record a { history = acted a.history act }) }
    ensures between { (r : ReplayedState) (a : AuditedDevice) (o : OpenEntry) (q : Running) (act : Act) → Follows r a → r.running ≡ Some q →
        a.history.running ≡ Some o → r.pending ≡ None → Follows (replay.acted r act) (record a { history = acted a.history act }) }
    ensures loose { (r : ReplayedState) (a : AuditedDevice) (o : OpenEntry) (q : Running) (w : PendingState) (t : ℕ) → Follows r a →
        r.running ≡ Some q → a.history.running ≡ Some o → r.pending ≡ Some w →
        Follows (replay.acted r (Loosen t)) (record a { history = acted a.history (Loosen t) }) }
    ensures firm { (r : ReplayedState) (a : AuditedDevice) (o : OpenEntry) (q : Running) (w : PendingState) (t : ℕ) → Follows r a →
        r.running ≡ Some q → a.history.running ≡ Some o → r.pending ≡ Some w →
        Follows (replay.acted r (Harden t)) (record a { history = acted a.history (Harden t) }) }
{}

/// It has what the command did, and follows the history in which that ended, where its program goes on.
pub fn settle_follows()
    ensures { (r : ReplayedState) (a : AuditedDevice) (o : OpenEntry) (q : Running) (w : PendingState) → Follows r a → r.running ≡ Some q →
        r.pending ≡ Some w → a.history.running ≡ Some o → (e : CommandEnd) → plain_end a o ≡ Some e → e.over ≡ false →
        Follows (replay.settled r) (record a { history = ended a.history e }) }
{}

/// So it does where the program is over, with its last command or with a check, and with the resets that waited.
pub fn over_follows()
    ensures full { (r : ReplayedState) (a : AuditedDevice) (o : OpenEntry) (q : Running) (w : PendingState) → Follows r a → r.running ≡ Some q →
        r.pending ≡ Some w → a.history.running ≡ Some o → (e : CommandEnd) → plain_end a o ≡ Some e → WaitsAs r.waits a.history.waiting →
        e.over ≡ true → Follows (replay.closed (replay.settled r)) (record a { history = ended a.history e }) }
    ensures check { (r : ReplayedState) (a : AuditedDevice) (o : OpenEntry) (q : Running) (w : PendingState) → Follows r a → r.running ≡ Some q →
        r.pending ≡ Some w → a.history.running ≡ Some o → (e : CommandEnd) (sense : Sense) → e.sense ≡ Some sense →
        WaitsAs r.waits a.history.waiting → Follows (replay.checked r sense) (record a { history = checked a.history e }) }
{}

/// A reset of the running program's path cuts it, behind the commands that ended or one more; while no program runs, one
/// of a path that used something is done at once.
pub fn reset_follows()
    ensures cut { (r : ReplayedState) (a : AuditedDevice) (o : OpenEntry) (q : Running) → Follows r a → r.running ≡ Some q → r.pending ≡ None →
        a.history.running ≡ Some o → WaitsAs r.waits a.history.waiting →
        Follows (replay.reset r o.path) (record a { history = reset_in_history a.history o.path 0 }) }
    ensures more { (r : ReplayedState) (a : AuditedDevice) (o : OpenEntry) (q : Running) (w : PendingState) → Follows r a → r.running ≡ Some q →
        r.pending ≡ Some w → a.history.running ≡ Some o → (e : CommandEnd) → plain_end a o ≡ Some e → WaitsAs r.waits a.history.waiting →
        Follows (replay.reset (replay.settled r) o.path) (record a { history = reset_in_history a.history o.path 1 }) }
    ensures idle { (r : ReplayedState) (a : AuditedDevice) → Follows r a → a.history.running ≡ None → (path more : ℕ) →
        replay.is_used_on r path ≡ is_used path false a.history.items →
        Follows (replay.reset r path) (record a { history = reset_in_history a.history path more }) }
{}

/// A half write changes nothing of the device, nor does a loan, nor the reset of another path than the one whose program
/// runs.
pub fn half_follows()
    ensures half { (r : ReplayedState) (a : AuditedDevice) → Follows r a → (half : HalfWrite) → Follows (record r { half = half }) (record a { half = half }) }
    ensures loan { (r : ReplayedState) (a : AuditedDevice) → Follows r a → (of : ℕ) → Follows (replay.lent_to r of) (record a { lent = Some of }) }
    ensures waiting { (r : ReplayedState) (a : AuditedDevice) (o : OpenEntry) → Follows r a → a.history.running ≡ Some o → (path more : ℕ) →
        (o.path == path) ≡ false → replay.is_used_on r path ≡ is_used path false a.history.items →
        Follows (replay.wait_used r path) (record a { history = reset_in_history a.history path more }) }
{}

/// A loss of power cuts the running program, behind the commands that ended or one more, and then takes what it takes.
pub fn power_follows()
    ensures cut { (r : ReplayedState) (a : AuditedDevice) (o : OpenEntry) (q : Running) → Follows r a → r.running ≡ Some q → r.pending ≡ None →
        a.history.running ≡ Some o → WaitsAs r.waits a.history.waiting → Follows (replay.cut r) (cut_by_power a o 0) }
    ensures more { (r : ReplayedState) (a : AuditedDevice) (o : OpenEntry) (q : Running) (w : PendingState) → Follows r a → r.running ≡ Some q →
        r.pending ≡ Some w → a.history.running ≡ Some o → (e : CommandEnd) → plain_end a o ≡ Some e → WaitsAs r.waits a.history.waiting →
        Follows (replay.cut (replay.settled r)) (cut_by_power a o 1) }
    ensures idle { (r : ReplayedState) (a : AuditedDevice) → Follows r a → a.history.running ≡ None → r.powered ≡ is_started false a.history.items →
        Follows (replay.without_power r) (without_power a) }
{}

/// A volume that was lent comes back empty.
pub fn loan_follows()
    ensures { (r : ReplayedState) (a : AuditedDevice) → Follows r a → a.history.running ≡ None →
        Follows (replay.given_back r) (record a { history = emptied a.history; lent = None }) }
{}

/// An END line and a SENSE line are judged as the history judges them.
pub fn ends_are_judged()
    ensures end { (s : AuditState) (r : ReplayedState) (a : AuditedDevice) (o : OpenEntry) (q : Running) → q.path ≡ o.path → q.ordinal ≡ o.ordinal →
        r.number ≡ a.number → r.running ≡ Some q → (line : ReportLine) (e : CommandEnd) →
        judging.end_due a.plans r line e ≡ due_in (end_made_by s line a o (Some e)) }
    ensures sense { (s : AuditState) (r : ReplayedState) (a : AuditedDevice) (o : OpenEntry) (q : Running) → q.path ≡ o.path → q.ordinal ≡ o.ordinal →
        r.number ≡ a.number → r.running ≡ Some q → (line : ReportLine) (e : CommandEnd) → a.history.running ≡ Some o →
        judging.sense_due a.plans r line e ≡ due_in (sense_made s line e a) }
{}
