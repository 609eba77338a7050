ghost use Rattle.std.specs.Prelude.{◌≡◌, ◌≢◌, ◌⊎◌, ◌≤◌, IfSome, None, Some, Ok, [], length, map, List, ℕ, true, false};
ghost use Rattle.std.specs.Io.KnownBytes.{Appends};
ghost use Rattle.ckd_outside.specs.Causes.{Rose, HasCause};
ghost use Rattle.ckd_outside.specs.Texts.{Writes, AppendsFront};
ghost use Rattle.deck_text.specs.DeckLines.{DeckLines};
ghost use Rattle.deck_text.specs.Parse.{parsed};
ghost use Rattle.report_audit.specs.AuditTexts.{usage_text};
ghost use Rattle.deck_audit.specs.Verdict.{read_back};
ghost use Rattle.deck_audit.specs.declared.status.AuditWhy.{AuditWhy as Why};
ghost use Rattle.audit_laws.specs.FirstFault.{IsBad, IsGood};
ghost use Rattle.audit_laws.specs.Plain.{IsPlainReport};
ghost use Rattle.audit_laws.specs.Refused.{IsNot};
ghost use Rattle.audit_laws.specs.Texts.{IsEnded, IsOwnReport, own_text};
ghost use Rattle.report_audit.specs.Answers.{HasFailed, IsReadBack, Tells, TellsAudit, TellsUsage, is_audit, status_text};

use crate::reading::read_audit;
use crate::{write_no, write_no_report, write_usage, write_yes};
use audit_laws::{no_is_not, own_report_is_yes, own_text_is_yes, yes_is_plain};
use ckd_outside::{Failed, ReadError, Sink, Source};
use deck_audit::AuditStatus;
use deck_text::{write_limit, write_refused};
use std::alloc::Global;

#[tactic(auto, unfolding(crate::specs::Answers::is_audit))]
fn is_audit(words: &[&str]) -> bool
    ensures { result ≡ is_audit (map (λ w. w.now) words.now) }
{
    match words {
        [word] => word.as_bytes() == b"audit".as_slice(),
        _ => false,
    }
}

/// The words of the arguments: none where one of them isn't text, which no word of the program's is.
pub fn words_of<'a>(arguments: Option<&'a [&'a str]>) -> &'a [&'a str]
    ensures text { IfSome arguments.entry (λ words. result.now ≡ words.now) }
    ensures none { arguments.entry ≡ None → result.now ≡ [] }
{
    match arguments {
        Some(words) => words,
        None => &[],
    }
}

/// Writes the text of a status, if it has one.
fn write_status<K: Sink>(sink: &mut K, status: AuditStatus) -> Result<(), Failed>
    ensures bytes { Writes (K.held sink.old) (K.held sink.new) result (status_text status) }
    ensures cause { HasCause (K.faults sink.old) (K.faults sink.new) result }
{
    match status {
        AuditStatus::Yes => write_yes(sink),
        AuditStatus::No { line, why } => write_no(sink, line, why),
        AuditStatus::NoReport => write_no_report(sink),
        AuditStatus::DeckRefused { line, why } => write_refused(sink, line, why),
        AuditStatus::Limit(which) => write_limit(sink, which),
        AuditStatus::Usage => write_usage(sink),
        AuditStatus::ReadFault | AuditStatus::WriteFault | AuditStatus::NoMemory => Ok(()),
    }
}

/// The status, if its text was written.
fn tell<K: Sink>(sink: &mut K, status: AuditStatus) -> AuditStatus
    ensures told { ((result ≡ status) × Appends (K.held sink.old) (K.held sink.new) (status_text status))
        ⊎ ((result ≡ AuditStatus.WriteFault) × AppendsFront (K.held sink.old) (K.held sink.new) (status_text status)) }
    ensures write { status ≢ AuditStatus.WriteFault → result ≡ AuditStatus.WriteFault → Rose (K.faults sink.old) (K.faults sink.new) }
{
    match write_status(sink, status) {
        Ok(()) => status,
        Err(_) => AuditStatus::WriteFault,
    }
}

fn audit<S: Source, K: Sink>(alloc: Global, source: &mut S, sink: &mut K) -> AuditStatus
    ensures told { TellsAudit result (S.left source.old) (S.left source.new) (K.held sink.old) (K.held sink.new) }
    ensures read { result ≡ AuditStatus.ReadFault → Rose (S.faults source.old) (S.faults source.new) }
    ensures calm { result ≢ AuditStatus.ReadFault → S.faults source.new ≡ S.faults source.old }
    ensures write { result ≡ AuditStatus.WriteFault → Rose (K.faults sink.old) (K.faults sink.new) }
{
    match read_audit(alloc, source) {
        Ok(status) => tell(sink, status),
        Err(ReadError::Failed) => AuditStatus::ReadFault,
        Err(ReadError::NoMemory) => AuditStatus::NoMemory,
    }
}

fn serve<S: Source, K: Sink>(
    alloc: Global,
    words: &[&str],
    source: &mut S,
    sink: &mut K,
) -> AuditStatus
    ensures told { Tells (is_audit (map (λ w. w.now) words.now)) result
        (S.left source.old) (S.left source.new) (K.held sink.old) (K.held sink.new) }
    ensures read { result ≡ AuditStatus.ReadFault → Rose (S.faults source.old) (S.faults source.new) }
    ensures calm { result ≢ AuditStatus.ReadFault → S.faults source.new ≡ S.faults source.old }
    ensures write { result ≡ AuditStatus.WriteFault → Rose (K.faults sink.old) (K.faults sink.new) }
{
    if is_audit(words) {
        audit(alloc, source, sink)
    } else {
        tell(sink, AuditStatus::Usage)
    }
}

/// Audits the deck and the report that a source gives, if the words are `audit` alone, and writes what they come to: `Yes`
/// where no line of the report has a fault, else the first line that has one. All is read before anything is written. A read
/// fault is answered exactly where a read failed.
pub fn audit_top<S: Source, K: Sink>(
    alloc: Global,
    words: &[&str],
    source: &mut S,
    sink: &mut K,
) -> AuditStatus
    ensures told { Tells (is_audit (map (λ w. w.now) words.now)) result
        (S.left source.old) (S.left source.new) (K.held sink.old) (K.held sink.new) }
    ensures read { result ≡ AuditStatus.ReadFault → Rose (S.faults source.old) (S.faults source.new) }
    ensures calm { result ≢ AuditStatus.ReadFault → S.faults source.new ≡ S.faults source.old }
    ensures write { result ≡ AuditStatus.WriteFault → Rose (K.faults sink.old) (K.faults sink.new) }

    // Every text is answered as it reads back, unless memory runs out or the outside fails.
    ensures complete { (text : List ℕ) → S.left source.old ≡ Some text → is_audit (map (λ w. w.now) words.now) ≡ true
        → ¬ Rose (S.faults source.old) (S.faults source.new) → ¬ Rose (K.faults sink.old) (K.faults sink.new)
        → (result ≡ read_back text) ⊎ (result ≡ AuditStatus.NoMemory) }

    // Yes: no line of the report has a fault, and the last is FINISH. No: this line is the first that has one.
    ensures yes { (text : List ℕ) → S.left source.old ≡ Some text → result ≡ AuditStatus.Yes → IsGood text }
    ensures no { (text : List ℕ) (line : ℕ) (why : Why) → S.left source.old ≡ Some text
        → result ≡ AuditStatus.No line why → IsBad text line why }

    // Yes: of each device of the deck the report tells a history that a plain device could have.
    ensures yes_is_plain { (text : List ℕ) → S.left source.old ≡ Some text → result ≡ AuditStatus.Yes → IsPlainReport text }

    // No: that line is no line of a report, or may not stand there; or of one device it shows no past that a plain device could have,
    // whatever pasts of plain devices the lines before it tell of.
    ensures no_is_not { (text : List ℕ) (line : ℕ) (why : Why) → S.left source.old ≡ Some text
        → result ≡ AuditStatus.No line why → IsNot text line why }

    // A deck that was read, REPORT and the report of its own run are answered with yes, unless memory runs out or the outside fails.
    ensures own_report { (text : List ℕ) (deck : DeckLines) → parsed text ≡ Ok deck → IsEnded text
        → S.left source.old ≡ Some (own_text text deck) → length (own_text text deck) ≤ 268435456
        → is_audit (map (λ w. w.now) words.now) ≡ true → (result ≡ AuditStatus.Yes) ⊎ HasFailed result }
    ensures own_lines { (text : List ℕ) (deck : DeckLines) → IsOwnReport text deck → S.left source.old ≡ Some text
        → is_audit (map (λ w. w.now) words.now) ≡ true → (result ≡ AuditStatus.Yes) ⊎ HasFailed result }
{
    yes_is_plain();
    no_is_not();
    own_report_is_yes();
    own_text_is_yes();
    serve(alloc, words, source, sink)
}
