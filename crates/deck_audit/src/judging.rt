ghost use Rattle.std.specs.Prelude.{◌≡◌};
ghost use Rattle.plain_defs.specs.Journal.{program_of};
ghost use Rattle.report_text.specs.Ends.{end_line};
ghost use Rattle.deck_audit.specs.History.{behind_end, has_sense};
ghost use Rattle.report_text.specs.declared.line.ReportLine.TheVariants as lines;
ghost use Rattle.deck_audit.specs.Judging.{check_of, data_due, end_due, has_check, sense_due};
ghost use Rattle.ckd_types.specs.Sense.{equipment_sense};
ghost use Rattle.deck_audit.specs.Same.{says};

use crate::replayed::{ReplayedDevice, Running};
use crate::{Did, Due, says};
use ckd_rules::{no_ccw, word_at};
use ckd_sense::{data_check, equipment};
use ckd_types::{Bytes, Ccw, CommandEnd, DeviceNo, Note, Sense, UnitStatus};
use deck_plan::PathPlans;
use report_text::{EndLine, ReportLine};

/// The words of a program of the plan, none where it has no such program.
fn program_of<'a>(plans: &'a PathPlans, o: &Running) -> &'a [Ccw]
    ensures { result.now ≡ program_of plans.now o.now.path o.now.ordinal }
{
    let at = usize::from(o.ordinal.saturating_sub(1));
    if at < plans.len(o.path) {
        plans.at(o.path, at).ccws()
    } else {
        &[]
    }
}

/// How the next command ends with a check of that sense.
fn check_of(plans: &PathPlans, o: &Running, e: &CommandEnd, sense: Sense) -> CommandEnd
    ensures { result ≡ check_of plans.now o.now e.now sense }
{
    let nothing = no_ccw();
    let word = word_at(program_of(plans, o), usize::from(e.index), &nothing);
    CommandEnd {
        index: e.index,
        status: UnitStatus::check(),
        residual: word.count,
        note: Note::Plain,
        sent: Bytes::new(),
        sense: Some(sense),
        over: true,
    }
}

fn shows_end(device: DeviceNo, o: &Running, line: &ReportLine, e: &CommandEnd) -> bool
    ensures { result ≡ says (lines.End (end_line o.now.path device o.now.ordinal e.now)) line.now }
{
    let wanted = EndLine {
        path: o.path,
        device,
        ordinal: o.ordinal,
        index: e.index,
        status: e.status,
        residual: e.residual,
        note: e.note,
    };
    says(&ReportLine::End(wanted), line)
}

fn has_check(line: &ReportLine) -> bool
    ensures { result ≡ has_check line.now }
{
    match line {
        ReportLine::End(end) => end.status.0 == UnitStatus::check().0,
        _ => false,
    }
}

/// Whether a line shows that the next command ended with a check.
fn shows_check(
    plans: &PathPlans,
    device: DeviceNo,
    o: &Running,
    line: &ReportLine,
    e: &CommandEnd,
) -> bool
    ensures { result ≡ says (lines.End (end_line o.now.path device o.now.ordinal (check_of plans.now o.now e.now equipment_sense))) line.now }
{
    if !has_check(line) {
        return false;
    }
    let nothing = no_ccw();
    let word = word_at(program_of(plans, o), usize::from(e.index), &nothing);
    let wanted = EndLine {
        path: o.path,
        device,
        ordinal: o.ordinal,
        index: e.index,
        status: UnitStatus::check(),
        residual: word.count,
        note: Note::Plain,
    };
    says(&ReportLine::End(wanted), line)
}

/// Where bytes were sent they come first.
fn behind_end(e: CommandEnd) -> Due
    ensures { result ≡ behind_end e e.sent }
{
    if e.sent.is_empty() {
        Due::Behind(true, Did::Ended(e))
    } else {
        Due::DataOf(e)
    }
}

fn has_sense(line: &ReportLine, sense: Option<Sense>) -> bool
    ensures { result ≡ has_sense line.now sense }
{
    match sense {
        Some(sense) => says(&ReportLine::Sense(sense), line),
        None => false,
    }
}

/// What is due behind a DATA line: the bytes that the command sent.
pub fn data_due(line: &ReportLine, e: CommandEnd) -> Option<Due>
    ensures { result ≡ data_due line.now e }
{
    let is_sent = match line {
        ReportLine::Data(bytes) => e.sent.as_slice() == bytes.as_slice(),
        _ => false,
    };
    if is_sent {
        Some(Due::Behind(true, Did::Ended(e)))
    } else {
        None
    }
}

impl ReplayedDevice {
    /// What is due behind an END line, where the next command ends so on the plain device.
    pub fn end_due(&self, plans: &PathPlans, line: &ReportLine, e: CommandEnd) -> Option<Due>
        ensures { result ≡ end_due plans.now self.now line.now e }
    {
        match &self.running {
            Some(o) => {
                if shows_check(plans, self.number, o, line, &e) {
                    Some(Due::SenseOf(e))
                } else if shows_end(self.number, o, line, &e) {
                    Some(behind_end(e))
                } else {
                    None
                }
            }
            None => None,
        }
    }

    /// What is due behind a SENSE line.
    pub fn sense_due(&self, plans: &PathPlans, line: &ReportLine, e: CommandEnd) -> Option<Due>
        ensures { result ≡ sense_due plans.now self.now line.now e }
    {
        match &self.running {
            Some(o) => {
                if has_sense(line, e.sense) {
                    Some(Due::Behind(true, Did::Ended(e)))
                } else if has_sense(line, Some(equipment())) {
                    let check = check_of(plans, o, &e, equipment());
                    Some(Due::Behind(true, Did::CheckEnded(check)))
                } else if has_sense(line, Some(data_check())) {
                    let check = check_of(plans, o, &e, data_check());
                    Some(Due::Behind(true, Did::CheckEnded(check)))
                } else {
                    None
                }
            }
            None => None,
        }
    }
}
