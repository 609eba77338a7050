ghost use Rattle.std.specs.Prelude.{◌≡◌, IfOk, ℕ};
ghost use Rattle.deck_audit.specs.State.{AuditState};
ghost use Rattle.deck_audit.specs.Verdict.{judged_text};
ghost use Rattle.report_audit.specs.Auditor.{IsAuditOf, IsJudged};

use crate::Auditor;
use ckd_types::NoMemory;
use deck_audit::AuditWhy;
use report_reading::{LineError, read_line};
use report_text::Respelling;
use std::alloc::Global;

/// What a line of the report shows, if it shows that no plain device made it. Behind that, and behind want of memory,
/// nothing is said of the auditor.
pub fn judge_text(
    alloc: Global,
    respelling: &mut Respelling,
    auditor: &mut Auditor,
    text: &[u8],
) -> Result<Option<AuditWhy>, NoMemory>
    ensures { IfOk result (λ why. (s : AuditState) → IsAuditOf auditor.old s
        → IsJudged why auditor.new (judged_text s text.now)) }
{
    if auditor.takes_data(text) {
        return Ok(None);
    }
    match read_line(alloc, respelling, text) {
        Ok(line) => auditor.line(alloc, &line),
        Err(LineError::Fault(_)) => Ok(Some(AuditWhy::Form)),
        Err(LineError::NoMemory) => Err(NoMemory),
    }
}
