ghost use Rattle.std.specs.Prelude.{◌≡◌, ◌<◌, ◌≤◌, ◌+◌, ◌++◌, ◌∷◌, [], None, ℕ, List, IfOk, IfSome, OnOk, length, slice_index, take, true};
ghost use Rattle.deck_audit.specs.Verdict.{read_back};
ghost use Rattle.deck_audit.specs.declared.status.AuditStatus.{AuditStatus as Answer};
ghost use Rattle.report_audit.specs.Lines.{IsOneLine};
ghost use Rattle.report_audit.specs.Progress.{Comes, GoesOn, begun, is_answer};

use crate::Audit;
use ckd_types::NoMemory;
use deck_audit::AuditStatus;
use deck_text::place_of;
use std::alloc::Global;
use std::marker::Model;

/// An audit that is given its text piece by piece. It holds the line that has begun, until the audit is over.
#[derive(Drop)]
pub struct PieceAudit {
    audit: Audit,
    line: Vec<u8>,
}

impl Model for PieceAudit {
    ghost use Rattle.report_audit.specs.Lines.{IsOneLine};
    ghost use Rattle.report_audit.specs.Progress.{Halfway};

    ghost Value = { Halfway };

    ghost view = { λ a. record { audit = a.audit; line = a.line.items } };

    ghost invariant = { λ a. IsOneLine a.line.items };
}

impl PieceAudit {
    /// Before the first piece.
    pub fn new(alloc: Global) -> PieceAudit
        ensures { result ≡ record { audit = begun; line = [] } }
    {
        PieceAudit {
            audit: Audit::new(alloc),
            line: Vec::new(alloc),
        }
    }

    /// Bytes of a line that has begun.
    fn keep(&mut self, part: &[u8]) -> Result<(), NoMemory>
        requires one { IsOneLine part.now }
        ensures { OnOk result (self.new ≡ record self.old { line = self.old.line ++ part.now }) }
    {
        self.line.extend_from_slice(part)?;
        Ok(())
    }

    /// Bytes of a line that has begun, and its line feed.
    fn end_line(&mut self, alloc: Global, part: &[u8]) -> Result<(), NoMemory>
        requires room { self.old.audit.lines < 4294967295 }
        requires one { IsOneLine part.now }
        ensures follows { OnOk result ((rest : List ℕ) → GoesOn self.old.audit (self.old.line ++ (part.now ++ 10 ∷ rest))
            self.new.audit (self.new.line ++ rest)) }
        ensures count { OnOk result (self.new.audit.lines ≤ self.old.audit.lines + 1) }
    {
        if self.line.is_empty() {
            return self.audit.take_line(alloc, part);
        }
        self.keep(part)?;
        self.audit.take_line(alloc, &self.line)?;
        self.line.clear();
        Ok(())
    }

    /// Takes the DATA line that is due, where no line has begun, and a piece begins with it and a line feed follows: where it ends.
    /// Else nothing changes.
    fn take_data(&mut self, piece: &[u8]) -> Option<usize>
        requires room { self.old.audit.lines < 4294967295 }
        requires front { self.old.audit.status ≡ None }
        ensures follows { IfSome result (λ end. (rest : List ℕ) → GoesOn self.old.audit (self.old.line ++ (take end piece.now ++ 10 ∷ rest))
            self.new.audit (self.new.line ++ rest)) }
        ensures stands { IfSome result (λ end. (end < length piece.now) × (slice_index piece.now end ≡ 10)) }
        ensures count { self.new.audit.lines ≤ self.old.audit.lines + 1 }
        ensures same { result ≡ None → self.new ≡ self.old }
    {
        if self.line.is_empty() {
            return self.audit.take_data(piece);
        }
        None
    }

    /// Takes the bytes up to the first line feed, and gives what follows it. Where the audit is over all is passed over.
    fn take_front<'a>(&mut self, alloc: Global, piece: &'a [u8]) -> Result<&'a [u8], NoMemory>
        requires some { 0 < length piece.now }
        requires room { self.old.audit.lines < 4294967295 }
        ensures follows { IfOk result (λ left. (rest : List ℕ) → GoesOn self.old.audit (self.old.line ++ (piece.now ++ rest))
            self.new.audit (self.new.line ++ (left.now ++ rest))) }
        ensures shorter { IfOk result (λ left. length left.now < length piece.now) }
        ensures count { IfOk result (λ left. self.new.audit.lines + length left.now ≤ self.old.audit.lines + length piece.now) }
    {
        if self.audit.is_over() {
            return Ok(&[]);
        }
        if let Some(end) = self.take_data(piece) {
            return Ok(&piece[end + 1..]);
        }
        let end = place_of(b'\n', piece);
        if end == piece.len() {
            self.keep(piece)?;
            return Ok(&[]);
        }
        self.end_line(alloc, &piece[..end])?;
        Ok(&piece[end + 1..])
    }

    /// Takes the next piece of the text.
    pub fn take_piece(&mut self, alloc: Global, piece: &[u8]) -> Result<(), NoMemory>
        requires room { self.old.audit.lines + length piece.now < 4294967295 }
        ensures follows { OnOk result ((rest : List ℕ) → GoesOn self.old.audit (self.old.line ++ (piece.now ++ rest))
            self.new.audit (self.new.line ++ rest)) }
        ensures count { OnOk result (self.new.audit.lines ≤ self.old.audit.lines + length piece.now) }
    {
        let mut left = piece;
        while !left.is_empty() {
            left = self.take_front(alloc, left)?;
        }
        Ok(())
    }

    /// What the text comes to where it ends here.
    pub fn finish(&mut self, alloc: Global) -> Result<AuditStatus, NoMemory>
        requires room { self.old.audit.lines < 4294967294 }
        ensures comes { IfOk result (λ answer. (status : Answer) → Comes self.old.audit self.old.line status → status ≡ answer) }
        ensures answer { IfOk result (λ answer. is_answer answer ≡ true) }
    {
        if !self.line.is_empty() {
            self.audit.take_last(alloc, &self.line)?;
        }
        self.audit.finish(alloc)
    }
}
