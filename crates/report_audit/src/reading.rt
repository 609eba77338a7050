ghost use Rattle.std.specs.Prelude.{◌≡◌, ◌≤◌, IfOk, OnOk, IsErrOf, true};
ghost use Rattle.ckd_outside.specs.Causes.{Rose};
ghost use Rattle.report_audit.specs.Answers.{IsReadBack};
ghost use Rattle.report_audit.specs.Progress.{is_answer};

use crate::PieceAudit;
use ckd_outside::{ReadError, Source};
use deck_audit::AuditStatus;
use deck_text::Which;
use std::alloc::Global;

/// One byte more than a deck and a report may have.
const MOST_READ: usize = 268_435_457;

/// As many bytes as one read asks for.
const PIECE: usize = 65_536;

/// Reads to the end of the source, and answers what its text comes to. It stops where the text is too long. An answer other
/// than `Failed` says that no read failed.
pub fn read_audit<S: Source>(alloc: Global, source: &mut S) -> Result<AuditStatus, ReadError>
    ensures told { IfOk result (λ status. IsReadBack (S.left source.old) (S.left source.new) status) }
    ensures answer { IfOk result (λ status. is_answer status ≡ true) }
    ensures later { S.faults source.old ≤ S.faults source.new }
    ensures failed { IsErrOf result ReadError.Failed → Rose (S.faults source.old) (S.faults source.new) }
    ensures calm { OnOk result (S.faults source.new ≡ S.faults source.old) }
    ensures want { IsErrOf result ReadError.NoMemory → S.faults source.new ≡ S.faults source.old }
{
    let mut audit = PieceAudit::new(alloc);
    let mut buffer = [0; PIECE];
    let mut size: usize = 0;
    while size < MOST_READ {
        let room = PIECE.min(MOST_READ - size);
        let count = source.read(&mut buffer[..room])?;
        if count == 0 {
            let Ok(status) = audit.finish(alloc) else {
                return Err(ReadError::NoMemory);
            };
            return Ok(status);
        }
        let Ok(()) = audit.take_piece(alloc, &buffer[..count]) else {
            return Err(ReadError::NoMemory);
        };
        size += count;
    }
    Ok(AuditStatus::Limit(Which::Size))
}
