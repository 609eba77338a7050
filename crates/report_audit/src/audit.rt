ghost use Rattle.std.specs.Prelude.{◌≡◌, ◌≢◌, ◌<◌, ◌≤◌, ◌+◌, ◌++◌, ◌∷◌, [], ℕ, List, IfOk, IfSome, OnOk, length, slice_index, take, codes, Some, None, Bool, true, false};
ghost use Rattle.deck_audit.specs.declared.status.AuditStatus.{AuditStatus as Answer};
ghost use Rattle.report_audit.specs.Lines.{IsOneLine};
ghost use Rattle.deck_text.specs.Parse.{parsed};
ghost use Rattle.report_audit.specs.Progress.{Comes, GoesOn, JudgedIn, begun, deck_end, fault_answer, is_answer};
ghost use Rattle.report_audit.specs.Progress.{is_over, is_reporting, may_be, report_end, some_auditor, status_of};

use crate::Auditor;
use crate::line::judge_text;
use ckd_types::NoMemory;
use deck_audit::{AuditStatus, AuditWhy};
use deck_text::{DeckFault, Which, read_deck};
use report_text::Respelling;
use std::alloc::Global;
use std::marker::Model;

/// The most bytes that a deck has.
const MOST_DECK: usize = 16_777_216;

/// What a line of the report shows, where there is an auditor.
fn judge_in(
    alloc: Global,
    respelling: &mut Respelling,
    auditor: &mut Option<Auditor>,
    text: &[u8],
) -> Result<Option<AuditWhy>, NoMemory>
    ensures { IfOk result (λ why. JudgedIn auditor.old auditor.new why text.now) }
{
    match auditor {
        Some(auditor) => judge_text(alloc, respelling, auditor, text),
        None => Ok(None),
    }
}

/// Where the DATA line that is due ends, where there is an auditor that takes it.
fn take_data_in(auditor: &mut Option<Auditor>, text: &[u8]) -> Option<usize>
    ensures taken { IfSome result (λ end. JudgedIn auditor.old auditor.new None (take end text.now)) }
    ensures some { IfSome result (λ end. some_auditor auditor.old ≡ true) }
    ensures none { IfSome result (λ end. (k : ℕ) → k < end → slice_index text.now k ≢ 10) }
    ensures stands { IfSome result (λ end. (end < length text.now) × (slice_index text.now end ≡ 10)) }
    ensures same { result ≡ None → auditor.new ≡ auditor.old }
{
    match auditor {
        Some(auditor) => auditor.take_data(text),
        None => None,
    }
}

/// The answer, where a line showed one.
fn status_of(line: u32, found: Option<AuditWhy>) -> Option<AuditStatus>
    ensures value { result ≡ status_of line found }
    ensures answer { may_be result ≡ true }
{
    match found {
        Some(why) => Some(AuditStatus::No { line, why }),
        None => None,
    }
}

/// The answer to a report that ends before this line.
fn report_end(line: u32, finished: bool) -> AuditStatus
    ensures value { result ≡ report_end line finished }
    ensures answer { is_answer result ≡ true }
{
    if finished {
        AuditStatus::Yes
    } else {
        AuditStatus::No {
            line,
            why: AuditWhy::Place,
        }
    }
}

/// The answer to a deck that has a fault.
fn fault_answer(fault: DeckFault) -> Result<AuditStatus, NoMemory>
    ensures value { IfOk result (λ answer. fault_answer fault ≡ answer) }
    ensures answer { IfOk result (λ answer. is_answer answer ≡ true) }
{
    match fault {
        DeckFault::Refused { line, why } => Ok(AuditStatus::DeckRefused { line, why }),
        DeckFault::Limit(which) => Ok(AuditStatus::Limit(which)),
        DeckFault::NoMemory => Err(NoMemory),
    }
}

/// The answer to a deck alone.
fn deck_end(alloc: Global, deck: &[u8]) -> Result<AuditStatus, NoMemory>
    ensures value { IfOk result (λ answer. deck_end (parsed deck.now) ≡ answer) }
    ensures answer { IfOk result (λ answer. is_answer answer ≡ true) }
{
    match read_deck(alloc, deck) {
        Ok(_) => Ok(AuditStatus::NoReport),
        Err(fault) => fault_answer(fault),
    }
}

/// An audit that is given its text line by line. It holds the deck's lines, and behind the line REPORT an auditor,
/// until it knows its answer.
#[derive(Drop)]
pub struct Audit {
    deck: Vec<u8>,
    lines: u32,
    auditor: Option<Auditor>,
    status: Option<AuditStatus>,
    respelling: Respelling,
}

impl Model for Audit {
    ghost use Rattle.report_audit.specs.Progress.{Progress};

    ghost Value = { Progress };

    ghost view = { λ a. record { deck = a.deck.items; lines = a.lines; auditor = a.auditor; status = a.status } };

    ghost use Rattle.std.specs.Prelude.{◌≡◌, true};
    ghost use Rattle.report_audit.specs.Progress.{may_be};

    ghost invariant = { λ a. may_be a.status ≡ true };
}

impl Audit {
    /// Before the first line.
    pub fn new(alloc: Global) -> Audit
        ensures { result ≡ begun }
    {
        Audit {
            deck: Vec::new(alloc),
            lines: 0,
            auditor: None,
            status: None,
            respelling: Respelling::new(alloc),
        }
    }

    /// Whether its answer is known already, whatever follows.
    pub fn is_over(&self) -> bool
        ensures { result ≡ is_over self.now }
    {
        match self.status {
            Some(_) => true,
            None => false,
        }
    }

    /// The line REPORT: the deck ends before it.
    fn open_report(&mut self, alloc: Global) -> Result<(), NoMemory>
        requires room { self.old.lines < 4294967295 }
        requires front { self.old.status ≡ None }
        requires deck { self.old.auditor ≡ None }
        ensures follows { OnOk result ((rest : List ℕ) → GoesOn self.old (codes "REPORT" ++ 10 ∷ rest) self.new rest) }
        ensures last { OnOk result (GoesOn self.old (codes "REPORT") self.new []) }
        ensures count { OnOk result (self.new.lines ≡ self.old.lines + 1) }
    {
        let deck = match read_deck(alloc, &self.deck) {
            Ok(deck) => deck,
            Err(fault) => {
                self.status = Some(fault_answer(fault)?);
                self.lines += 1;
                return Ok(());
            }
        };
        self.auditor = Some(Auditor::new(alloc, deck)?);
        self.deck = Vec::new(alloc);
        self.lines += 1;
        Ok(())
    }

    /// A line of the deck, with its line feed if it has one.
    fn put_deck(&mut self, line: &[u8], end: &[u8]) -> Result<(), NoMemory>
        requires room { self.old.lines < 4294967295 }
        ensures deck { OnOk result (self.new ≡ record self.old
            { deck = (self.old.deck ++ line.now) ++ end.now; lines = self.old.lines + 1 }) }
    {
        self.deck.extend_from_slice(line)?;
        self.deck.extend_from_slice(end)?;
        self.lines += 1;
        Ok(())
    }

    /// A line before REPORT, without its line feed.
    fn take_deck_line(&mut self, alloc: Global, line: &[u8]) -> Result<(), NoMemory>
        requires room { self.old.lines < 4294967295 }
        requires front { self.old.status ≡ None }
        requires deck { self.old.auditor ≡ None }
        requires one { IsOneLine line.now }
        ensures follows { OnOk result ((rest : List ℕ) → GoesOn self.old (line.now ++ 10 ∷ rest) self.new rest) }
        ensures count { OnOk result (self.new.lines ≤ self.old.lines + 1) }
    {
        if line == b"REPORT".as_slice() {
            return self.open_report(alloc);
        }
        if self.deck.len() > MOST_DECK {
            self.status = Some(AuditStatus::Limit(Which::Size));
            return Ok(());
        }
        self.put_deck(line, b"\n")?;
        Ok(())
    }

    /// The last line before REPORT, which no line feed ended.
    fn take_deck_end(&mut self, alloc: Global, line: &[u8]) -> Result<(), NoMemory>
        requires room { self.old.lines < 4294967295 }
        requires front { self.old.status ≡ None }
        requires deck { self.old.auditor ≡ None }
        requires one { IsOneLine line.now }
        requires some { 0 < length line.now }
        ensures last { OnOk result (GoesOn self.old line.now self.new []) }
        ensures count { OnOk result (self.new.lines ≤ self.old.lines + 1) }
    {
        if line == b"REPORT".as_slice() {
            return self.open_report(alloc);
        }
        self.put_deck(line, b"")?;
        Ok(())
    }

    /// A line behind REPORT, without its line feed.
    fn take_report_line(&mut self, alloc: Global, line: &[u8]) -> Result<(), NoMemory>
        requires room { self.old.lines < 4294967295 }
        requires front { self.old.status ≡ None }
        requires report { is_reporting self.old ≡ true }
        requires one { IsOneLine line.now }
        ensures follows { OnOk result ((rest : List ℕ) → GoesOn self.old (line.now ++ 10 ∷ rest) self.new rest) }
        ensures last { OnOk result (0 < length line.now → GoesOn self.old line.now self.new []) }
        ensures count { OnOk result (self.new.lines ≤ self.old.lines + 1) }
    {
        let found = judge_in(alloc, &mut self.respelling, &mut self.auditor, line)?;
        self.lines += 1;
        self.status = status_of(self.lines, found);
        Ok(())
    }

    fn is_reporting(&self) -> bool
        ensures { result ≡ is_reporting self.now }
    {
        match &self.auditor {
            Some(_) => true,
            None => false,
        }
    }

    /// Takes the DATA line that is due, where a text begins with it and a line feed follows: where it ends. Else nothing changes.
    pub fn take_data(&mut self, text: &[u8]) -> Option<usize>
        requires room { self.old.lines < 4294967295 }
        requires front { self.old.status ≡ None }
        ensures follows { IfSome result (λ end. (rest : List ℕ) → GoesOn self.old (take end text.now ++ 10 ∷ rest) self.new rest) }
        ensures stands { IfSome result (λ end. (end < length text.now) × (slice_index text.now end ≡ 10)) }
        ensures count { self.new.lines ≤ self.old.lines + 1 }
        ensures same { result ≡ None → self.new ≡ self.old }
    {
        let end = take_data_in(&mut self.auditor, text)?;
        self.lines += 1;
        Some(end)
    }

    /// Takes the next line, without the line feed that ended it.
    pub fn take_line(&mut self, alloc: Global, line: &[u8]) -> Result<(), NoMemory>
        requires room { self.old.lines < 4294967295 }
        requires one { IsOneLine line.now }
        ensures follows { OnOk result ((rest : List ℕ) → GoesOn self.old (line.now ++ 10 ∷ rest) self.new rest) }
        ensures count { OnOk result (self.new.lines ≤ self.old.lines + 1) }
    {
        if self.is_over() {
            return Ok(());
        }
        if self.is_reporting() {
            return self.take_report_line(alloc, line);
        }
        self.take_deck_line(alloc, line)
    }

    /// Takes the last line, which no line feed ended.
    pub fn take_last(&mut self, alloc: Global, line: &[u8]) -> Result<(), NoMemory>
        requires room { self.old.lines < 4294967295 }
        requires one { IsOneLine line.now }
        requires some { 0 < length line.now }
        ensures last { OnOk result (GoesOn self.old line.now self.new []) }
        ensures count { OnOk result (self.new.lines ≤ self.old.lines + 1) }
    {
        let over = self.is_over();
        if over {
            return Ok(());
        }
        if self.is_reporting() {
            return self.take_report_line(alloc, line);
        }
        self.take_deck_end(alloc, line)
    }

    /// What the text comes to where it ends here.
    pub fn finish(&self, alloc: Global) -> Result<AuditStatus, NoMemory>
        requires room { self.now.lines < 4294967295 }
        ensures comes { IfOk result (λ answer. (status : Answer) → Comes self.now [] status → status ≡ answer) }
        ensures answer { IfOk result (λ answer. is_answer answer ≡ true) }
    {
        if let Some(status) = self.status {
            return Ok(status);
        }
        match &self.auditor {
            Some(auditor) => Ok(report_end(self.lines + 1, auditor.is_finished())),
            None => deck_end(alloc, &self.deck),
        }
    }
}
