//! A device that is kept judges each line as the history of the lines before it does, and becomes what that makes of it.

ghost use Rattle.std.specs.Prelude.{◌≡◌, ◌<◌, ◌≤◌, ℕ, Some};
ghost use Rattle.report_text.specs.declared.line.ReportLine.{ReportLine};
ghost use Rattle.deck_audit.specs.declared.kept.Kept.{Kept};
ghost use Rattle.deck_audit.specs.declared.state.Did.{Did};
ghost use Rattle.deck_audit.specs.declared.state.Due.TheVariants.{Powers, ResetOf};
ghost use Rattle.deck_audit.specs.declared.task.Task.{Task};
ghost use Rattle.deck_audit.specs.Device.{AuditedDevice};
ghost use Rattle.deck_audit.specs.History.{act_of_work, changed, cut_by, loss_made, place_of, power_cut, start_made, work_made};
ghost use Rattle.deck_audit.specs.Keeping.{DidSo, IsKept, IsQuiet, Judges};
ghost use Rattle.deck_audit.specs.Kept.{act_made, act_then, cut_kept_by, cut_then_by, loss_kept, loss_then, power_kept, power_then};
ghost use Rattle.deck_audit.specs.Kept.{settled_kept, settled_over, start_kept, start_then, work_kept, work_then};
ghost use Rattle.deck_audit.specs.State.{AuditState, over_by, then_of, worked};
ghost use Rattle.deck_audit.specs.Task.{IsInRange, IsReady, task_kept, task_made, task_then};

/// START.
pub fn starts_are_judged()
    ensures { (s : AuditState) (k : Kept) (a : AuditedDevice) (path : ℕ) (line : ReportLine) → IsKept k a → IsQuiet k → 1 ≤ path → path ≤ 4 →
        Judges s a (start_made s line path a) (start_then a.plans k path line) (start_kept a.plans k path) }
{}

/// END, HALF, BACK, and the lines of nothing to do.
pub fn work_is_judged()
    ensures { (s : AuditState) (k : Kept) (a : AuditedDevice) (line : ReportLine) → IsKept k a → IsQuiet k → changed s a ≡ s →
        Judges s a (work_made s line a) (work_then a.plans k line) (work_kept k line) }
{}

/// CFW lines behind a piece of work, and at the loss of the cache.
pub fn acts_are_judged()
    ensures behind { (s : AuditState) (k : Kept) (a : AuditedDevice) (line : ReportLine) (did : Did) → IsKept k a → DidSo did k a →
        Judges s a (act_of_work s line did a) (act_then k line did) (act_made k line) }
    ensures lost { (s : AuditState) (k : Kept) (a : AuditedDevice) (line : ReportLine) → IsKept k a → IsQuiet k →
        Judges s a (loss_made s line a) (loss_then k line) (loss_kept k) }
{}

/// A piece of work that is taken as done, and its OVER line.
pub fn work_is_settled()
    ensures over { (k : Kept) (a : AuditedDevice) (did : Did) → IsKept k a → DidSo did k a → settled_over k did ≡ over_by a did a.history.running }
    ensures kept { (k : Kept) (a : AuditedDevice) (did : Did) → IsKept k a → DidSo did k a → IsKept (settled_kept k did) (worked a did) }
    ensures quiet { (k : Kept) (a : AuditedDevice) (did : Did) → IsKept k a → DidSo did k a → IsQuiet (settled_kept k did) }
{}

/// The cut of a program by a reset, and by a loss of power.
pub fn cuts_are_judged()
    ensures reset { (s : AuditState) (k : Kept) (a : AuditedDevice) (n : ℕ) → IsKept k a → IsQuiet k → n < 65536 →
        Judges s a (then_of a.history.running (λ o. cut_by s a o n)) (cut_then_by k n ResetOf k.device.running) (cut_kept_by k n k.device.running) }
    ensures power { (s : AuditState) (k : Kept) (a : AuditedDevice) (n : ℕ) → IsKept k a → IsQuiet k → n < 65536 →
        Judges s a (then_of a.history.running (power_cut s a n)) (power_then k n (Powers (place_of s.devices a.number))) (power_kept k n) }
{}

/// Whatever a line is to a device.
pub fn tasks_are_judged()
    ensures { (s : AuditState) (k : Kept) (a : AuditedDevice) (at : ℕ) (line : ReportLine) → IsKept k a → changed s a ≡ s →
        at ≡ place_of s.devices a.number → (task : Task) → IsInRange task → IsReady s k a task →
        Judges s a (task_made s line task a) (task_then a.plans k at line task) (task_kept a.plans k line task) }
{}
