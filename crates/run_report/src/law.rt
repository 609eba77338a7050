//! Laws of reports.

ghost use Rattle.std.specs.Prelude.{◌≡◌, ℕ, List, [], ◌∷◌, ◌++◌, ◌+◌, length, None, Some};
ghost use Rattle.ckd_types.specs.declared.channel.CommandEnd.{CommandEnd};
ghost use Rattle.plain_defs.specs.declared.journal.Act.{Act};
ghost use Rattle.plain_defs.specs.declared.journal.How.{How};
ghost use Rattle.plain_defs.specs.declared.journal.How.TheVariants as hows;
ghost use Rattle.plain_defs.specs.History.{History, OpenEntry, checked, closed, cut_by, ended, entry_of, lost_power, resets_of, started};
ghost use Rattle.track_image.specs.Image.{Image};
ghost use Rattle.track_cache.specs.declared.frames.Frame.{Frame};
ghost use Rattle.nv_store.specs.declared.patches.Stored.{Stored};
ghost use Rattle.device_defs.specs.Device.{Device, all_acted};
ghost use Rattle.device_defs.specs.Marks.{MarksDevice};
ghost use Rattle.device_defs.specs.Orders.{restore};
ghost use Rattle.device_defs.specs.Start.{start};
ghost use Rattle.report_text.specs.declared.answers.StartAnswer.TheVariants as answers;
ghost use Rattle.report_text.specs.declared.line.ReportLine.TheVariants as lines;
ghost use Rattle.report_text.specs.declared.report.DeviceEnd.{DeviceEnd};
ghost use Rattle.report_text.specs.declared.report.FrameEnd.{FrameEnd};
ghost use Rattle.report_text.specs.Ends.{lines_text};
ghost use Rattle.report_text.specs.Events.{ended_lines};
ghost use Rattle.report_text.specs.Report.{report_text};
ghost use Rattle.run_report.specs.Closing.{TellsEnding};
ghost use Rattle.run_report.specs.Events.{event_lines};
ghost use Rattle.run_report.specs.OneDevice.{AreToldAs, TellsAlone, TellsNothing};
ghost use Rattle.run_report.specs.Report.{lines_of_run, report_lines};
ghost use Rattle.run_report.specs.Showing.{AreShown, lines_in, over_if, over_lines_of};
ghost use Rattle.run_report.specs.Shown.{history_lines, shown_of};
ghost use Rattle.subsystem_defs.specs.declared.end.EventEnd.{EventEnd};
ghost use Rattle.subsystem_defs.specs.Beside.{new_acts, new_items};
ghost use Rattle.subsystem_defs.specs.Closing.{ending};
ghost use Rattle.subsystem_defs.specs.Decks.{DeckRun, run_from};
ghost use Rattle.subsystem_defs.specs.Lines.{Asked, Logged, last_behind};
ghost use Rattle.subsystem_defs.specs.Subsystem.{Mounted, Subsystem};

/// What is written of a run's events and of its end is the text of its lines.
pub fn report_is_text()
    ensures { (run : DeckRun) (devices : List DeviceEnd) (frames : List FrameEnd) → TellsEnding (ending run.behind) devices frames →
        report_text (lines_of_run run) devices frames ≡ lines_text (report_lines run) }
{}

/// An event of one device is told by that device alone.
pub fn one_device_tells()
    ensures { (s : Subsystem) (n : ℕ) (x : Mounted) → TellsAlone s n x }
{}

/// Devices over contents, and those over marks of which the same is told, make the same lines.
pub fn same_lines_are_told()
    ensures { (asked : Asked) (end : EventEnd) (reads writes : ℕ) (before behind : List (Device Frame Stored Image)) (other then : List MarksDevice) →
        AreToldAs before other → AreToldAs behind then →
        event_lines asked end reads writes before behind ≡ event_lines asked end reads writes other then }
{}

/// A report shows what a device's history has, where each of its events shows what came to it.
pub fn events_show_a_history()
    ensures { (d : ℕ) (s : Subsystem) (events : List Logged) → AreShown d s events → lines_in s d ≡ [] →
        shown_of d (report_lines (run_from s events)) ≡ lines_in (last_behind s events) d }
{}

/// Starts, orders that leave a history as it is, and an empty volume tell nothing beside what the event did.
pub fn quiet_events_tell_nothing()
    ensures same { (before behind : MarksDevice) → behind.history ≡ before.history → TellsNothing before behind }
    ensures starts { (d : MarksDevice) (path : ℕ) → d.history.running ≡ None → TellsNothing d (start d path) }
    ensures restores { (d : MarksDevice) → TellsNothing d (restore d) }
{}

/// The acts that came to a history, also behind the end of a command; and the items that a program which is over leaves.
pub fn acts_come_to_a_history()
    ensures come { (h : History) (acts : List Act) → new_acts h (all_acted h acts) ≡ acts }
    ensures ends { (h : History) (acts : List Act) (e : CommandEnd) → new_acts h (ended (all_acted h acts) e) ≡ acts }
    ensures checks { (h : History) (acts : List Act) (e : CommandEnd) → new_acts h (checked (all_acted h acts) e) ≡ acts }
    ensures over { (h : History) (o : OpenEntry) (how : How) → new_items h (closed h o how) ≡ entry_of o how ∷ resets_of h.waiting }
{}

/// What comes to a history is what an event's lines show of its programs: a START, an END with its DATA and SENSE, an OVER. Acts
/// show nothing.
pub fn histories_show()
    ensures starts { (d path ordinal : ℕ) (h : History) → h.running ≡ None →
        history_lines d (started h path ordinal) ≡ history_lines d h ++ lines.Start path d (answers.Accepted ordinal) ∷ [] }
    ensures acts { (d : ℕ) (h : History) (acts : List Act) → history_lines d (all_acted h acts) ≡ history_lines d h }
    ensures ends { (d : ℕ) (h : History) (o : OpenEntry) (e : CommandEnd) → h.running ≡ Some o →
        history_lines d (ended h e) ≡ history_lines d h ++ (ended_lines o.path d o.ordinal e ++ over_if d o e.over) }
    ensures checks { (d : ℕ) (h : History) (o : OpenEntry) (e : CommandEnd) → h.running ≡ Some o →
        history_lines d (checked h e) ≡ history_lines d h ++ (ended_lines o.path d o.ordinal e ++ over_lines_of d o hows.Checked) }
    ensures cuts { (d : ℕ) (h : History) (o : OpenEntry) (more : ℕ) → h.running ≡ Some o →
        history_lines d (cut_by h o more) ≡ history_lines d h ++ over_lines_of d o (hows.Cut (length o.ends + more)) }
    ensures powers { (d : ℕ) (h : History) (o : OpenEntry) (more : ℕ) → h.running ≡ Some o →
        history_lines d (lost_power h more) ≡ history_lines d h ++ over_lines_of d o (hows.Cut (length o.ends + more)) }
{}
