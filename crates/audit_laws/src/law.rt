ghost use Rattle.std.specs.Prelude.{◌≡◌, ◌↔◌, ℕ, List, Ok};
ghost use Rattle.deck_text.specs.DeckLines.{DeckLines};
ghost use Rattle.deck_text.specs.Parse.{parsed};
ghost use Rattle.deck_audit.specs.declared.state.Due.TheVariants.{Next};
ghost use Rattle.deck_audit.specs.State.{AuditState, first_state};
ghost use Rattle.deck_audit.specs.Verdict.{read_back};
ghost use Rattle.deck_audit.specs.declared.status.AuditStatus.TheVariants.{Yes, No};
ghost use Rattle.deck_audit.specs.declared.status.AuditWhy.{AuditWhy as Why};
ghost use Rattle.audit_laws.specs.FirstFault.{IsBad, IsGood, LeadsTo, report_lines};
ghost use Rattle.audit_laws.specs.Plain.{ArePlain, IsPlainReport};
ghost use Rattle.audit_laws.specs.Refused.{IsNot};
ghost use Rattle.audit_laws.specs.Shown.{TellsOfPlain};

/// A text reads back as yes exactly where it is a deck and a report of which no line has a fault and the last is FINISH.
pub fn yes_tells_of_no_fault()
    ensures { (text : List ℕ) → (read_back text ≡ Yes) ↔ IsGood text }
{}

/// It reads back as no exactly where it is a deck and a report whose first line with a fault is that line, with that fault.
pub fn no_tells_the_first_fault()
    ensures { (text : List ℕ) (line : ℕ) (why : Why) → (read_back text ≡ No line why) ↔ IsBad text line why }
{}

/// Lines without a fault, up to where no piece of work and no order is half told, are of plain devices: each device of the deck, in its
/// order, has a history that a plain device could have, its journal is legal.
pub fn front_is_plain()
    ensures { (text : List ℕ) (deck : DeckLines) (lines : List (List ℕ)) (s : AuditState) → parsed text ≡ Ok deck
        → LeadsTo (first_state deck) lines s → s.due ≡ Next → ArePlain deck s }
{}

/// So is a whole report in which no line has a fault and the last is FINISH.
pub fn good_report_is_plain()
    ensures { (text : List ℕ) (good : IsGood text) → ArePlain good.deck good.report.end }
{}

/// So what an audit says yes to is a deck and a report of plain devices.
pub fn yes_is_plain()
    ensures { (text : List ℕ) → read_back text ≡ Yes → IsPlainReport text }
{}

/// And what it says no to isn't: its first line with a fault is no line of a report, or may not stand there; or of one device it shows no past
/// that a plain device could have, whatever pasts of plain devices the lines before it tell of.
pub fn no_is_not()
    ensures { (text : List ℕ) (line : ℕ) (why : Why) → read_back text ≡ No line why → IsNot text line why }
{}

/// Lines without a fault tell of plain devices: of those that the audit makes of them, and of no others. So does a whole report in which no line
/// has a fault and the last is FINISH.
pub fn good_lines_tell_of_plain()
    ensures front { (text : List ℕ) (deck : DeckLines) (lines : List (List ℕ)) (s t : AuditState) → parsed text ≡ Ok deck
        → LeadsTo (first_state deck) lines s → s.due ≡ Next → TellsOfPlain (first_state deck) lines t ↔ (t ≡ s) }
    ensures whole { (text : List ℕ) (good : IsGood text) (t : AuditState)
        → TellsOfPlain (first_state good.deck) (report_lines text good.lines) t ↔ (t ≡ good.report.end) }
{}
