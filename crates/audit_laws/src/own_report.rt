ghost use Rattle.std.specs.Prelude.{◌≡◌, ◌≤◌, ℕ, Bool, true, false, All, List, [], ◌∷◌, length, None, Some, Ok};
ghost use Rattle.deck_plan.specs.declared.event.EventLine.{EventLine};
ghost use Rattle.deck_plan.specs.declared.event.EventLine.TheVariants.{Back, Run, Settle, Step};
ghost use Rattle.deck_text.specs.DeckLines.{DeckLines};
ghost use Rattle.deck_text.specs.Parse.{parsed};
ghost use Rattle.plain_defs.specs.History.{OpenEntry};
ghost use Rattle.report_text.specs.declared.line.ReportLine.{ReportLine};
ghost use Rattle.report_reading.specs.Ranges.{IsLine, has_form};
ghost use Rattle.deck_audit.specs.declared.state.Did.{Did};
ghost use Rattle.deck_audit.specs.declared.state.Due.TheVariants.{Behind, Next, Nothing};
ghost use Rattle.deck_audit.specs.Place.{holds, is_of_work};
ghost use Rattle.deck_audit.specs.History.{is_legal};
ghost use Rattle.deck_audit.specs.State.{AuditState, first_state, settled, worker, worker_number};
ghost use Rattle.deck_audit.specs.declared.state.HalfWrite.TheVariants.{Closed};
ghost use Rattle.deck_audit.specs.Device.{AuditedDevice, device_in};
ghost use Rattle.deck_audit.specs.declared.status.AuditStatus.TheVariants.{Yes};
ghost use Rattle.deck_audit.specs.Verdict.{read_back};
ghost use Rattle.run_report.specs.Closing.{ending_lines};
ghost use Rattle.run_report.specs.Report.{report_lines};
ghost use Rattle.subsystem_defs.specs.Closing.{ending};
ghost use Rattle.subsystem_defs.specs.Decks.{opened, run_of};
ghost use Rattle.subsystem_defs.specs.Subsystem.{Subsystem};
ghost use Rattle.audit_laws.specs.Ordered.{AllLead, IsLossOrPair};
ghost use Rattle.audit_laws.specs.Runs.{LineGoes, RunIsOver, SettleIsOver, WholeLeads};
ghost use Rattle.audit_laws.specs.Standing.{FramesAreDeclared, HasDevice, IsStill, LeadsBy, LineLeads, stand};
ghost use Rattle.audit_laws.specs.Texts.{IsEnded, IsOwnReport, own_text};
ghost use Rattle.audit_laws.specs.Steps.{BackLeads, HalfLeads, StepEnds, WholeStepLeads};

use report_reading::reads_back;

/// Behind the run of a deck that was read an audit knows each device as the run has it, and one more event line at which no command runs and
/// nothing is written or lost (a start, a reset, a repair, a new volume, a side held or let go) leads it to where it does so again: its
/// lines in the report stand where they may, and show what a plain device answers.
pub fn still_line_leads()
    ensures { (text : List ℕ) (deck : DeckLines) → parsed text ≡ Ok deck → (e : EventLine) → IsStill (run_of deck).behind e
        → LineLeads (run_of deck).behind e }
{}

/// So does one at which the cache, the store, a side or the power is lost, or two devices become a pair or part.
pub fn loss_or_pair_leads()
    ensures { (text : List ℕ) (deck : DeckLines) → parsed text ≡ Ok deck → (e : EventLine) → IsLossOrPair (run_of deck).behind e
        → LineLeads (run_of deck).behind e }
{}

/// Along the run of a deck that was read each event line but STEP, RUN, BACK and SETTLE leads an audit from before it to behind it.
pub fn each_line_leads()
    ensures { (text : List ℕ) (deck : DeckLines) → parsed text ≡ Ok deck → AllLead (opened deck) deck.events }
{}

/// The lines at the end of a run lead an audit that knows its devices so to FINISH, where each frame of the pool is of one of them.
pub fn ending_leads()
    ensures { (s : Subsystem) → FramesAreDeclared s → LeadsBy (stand s []) (ending_lines (ending s)) (record (stand s []) { due = Nothing }) }
{}

/// Behind the run of any deck each frame of the pool is of a device of the deck: so its lines at the end of the run lead to FINISH.
pub fn frames_are_declared()
    ensures { (deck : DeckLines) → FramesAreDeclared (run_of deck).behind }
{}

/// The lines of a command's end lead on where it ends as on the plain device, and where equipment check or data check is in place of that.
pub fn step_ends_lead()
    ensures { (xs : List AuditedDevice) (later : List EventLine) (a : AuditedDevice) → device_in xs a.number ≡ Some a → a.half ≡ Closed
        → (o : OpenEntry) → a.history.running ≡ Some o → StepEnds xs later a o }
{}

/// So do all lines of a step in which a command ends, of a device whose history is a plain device's: its end, CFW lines of tracks that become
/// firm, at last of one that becomes loose, volume calls, the program that is over. Behind them, at the latest at the next line, the device's
/// past has these acts and the end.
pub fn step_leads()
    ensures { (xs : List AuditedDevice) (later : List EventLine) (a : AuditedDevice) → device_in xs a.number ≡ Some a → a.half ≡ Closed
        → (o : OpenEntry) → a.history.running ≡ Some o → WholeStepLeads xs later a o }
{}

/// So do the lines of a step that writes one side of two, with the acts and the volume calls that come with it.
pub fn half_leads()
    ensures { (xs : List AuditedDevice) (later : List EventLine) (a : AuditedDevice) → device_in xs a.number ≡ Some a → a.half ≡ Closed
        → (o : OpenEntry) → a.history.running ≡ Some o → HalfLeads xs later a o }
{}

/// And so do those of a piece of work in the background, where a line that stands there tells of it.
pub fn back_leads()
    ensures { (xs : List AuditedDevice) (later : List EventLine) (a : AuditedDevice) → device_in xs a.number ≡ Some a → BackLeads xs later a }
{}

/// A piece of work that is told without a volume call and without the end of its program is known to be done at the next line: where that isn't
/// of the work any more, lines lead on as from where it is done.
pub fn work_is_done_at_next_line()
    ensures { (s t : AuditState) (line : ReportLine) (lines : List ReportLine) (more : Bool) (did : Did) → s.due ≡ Behind more did
        → is_of_work more (worker_number s) line ≡ false → holds (worker s) (is_legal did) ≡ true → (settled s did).due ≡ Next
        → LeadsBy (settled s did) (line ∷ lines) t → LeadsBy s (line ∷ lines) t }
{}

/// Behind the run of a deck that was read the lines of a STEP lead an audit on, whatever the command or the half write comes to: to where it knows
/// each device as the run has it, or waits for the next line with a piece of work that may be known to be done only there.
pub fn step_line_leads()
    ensures { (text : List ℕ) (deck : DeckLines) → parsed text ≡ Ok deck → (d : ℕ) → HasDevice (run_of deck).behind d → LineGoes (run_of deck).behind (Step d) }
{}

/// A RUN there comes to its end: behind it nothing of its device runs, neither a program nor a half write.
pub fn runs_end()
    ensures { (text : List ℕ) (deck : DeckLines) → parsed text ≡ Ok deck → (d : ℕ) → HasDevice (run_of deck).behind d → RunIsOver (run_of deck).behind d }
{}

/// So do the lines of a RUN.
pub fn run_line_leads()
    ensures { (text : List ℕ) (deck : DeckLines) → parsed text ≡ Ok deck → (d : ℕ) → HasDevice (run_of deck).behind d → LineGoes (run_of deck).behind (Run d) }
{}

/// So do the lines of a BACK, whatever the device does by itself.
pub fn back_line_leads()
    ensures { (text : List ℕ) (deck : DeckLines) → parsed text ≡ Ok deck → (d : ℕ) → HasDevice (run_of deck).behind d → LineGoes (run_of deck).behind (Back d) }
{}

/// A SETTLE there comes to its end: its last piece of work says that nothing is left to do, or is stopped.
pub fn settles_end()
    ensures { (text : List ℕ) (deck : DeckLines) → parsed text ≡ Ok deck → (d : ℕ) → HasDevice (run_of deck).behind d → SettleIsOver (run_of deck).behind d }
{}

/// So do the lines of a SETTLE.
pub fn settle_line_leads()
    ensures { (text : List ℕ) (deck : DeckLines) → parsed text ≡ Ok deck → (d : ℕ) → HasDevice (run_of deck).behind d → LineGoes (run_of deck).behind (Settle d) }
{}

/// So the whole report of the run of a deck that was read leads an audit of it from its first state to FINISH: no line stands where it may
/// not, and none shows what no plain device answers.
pub fn report_leads()
    ensures { (text : List ℕ) (deck : DeckLines) → parsed text ≡ Ok deck → WholeLeads (first_state deck) (report_lines (run_of deck)) }
{}

/// Each line of any run's report has its form: an IO line tells of a volume call, and a loss of power is done.
pub fn report_has_form()
    ensures { (deck : DeckLines) → All (λ (line : ReportLine). has_form line ≡ true) (report_lines (run_of deck)) }
{}

/// All numbers and bytes of the report of a deck that was read are in their ranges.
pub fn report_is_in_range()
    ensures { (text : List ℕ) (deck : DeckLines) → parsed text ≡ Ok deck → All IsLine (report_lines (run_of deck)) }
{}

/// And the audit of a text of such a deck, of a line REPORT and of the report of the deck's run says yes.
pub fn own_report_is_yes()
    ensures { (text : List ℕ) (deck : DeckLines) → IsOwnReport text deck → read_back text ≡ Yes }
{
    reads_back();
}

/// So does the audit of the text of such a deck, all of whose lines are ended, with a line REPORT and the report of its run behind it, where both have
/// at most 268,435,456 bytes.
pub fn own_text_is_yes()
    ensures { (text : List ℕ) (deck : DeckLines) → parsed text ≡ Ok deck → IsEnded text → length (own_text text deck) ≤ 268435456
        → read_back (own_text text deck) ≡ Yes }
{
    reads_back();
}
