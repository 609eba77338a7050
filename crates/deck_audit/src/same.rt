ghost use Rattle.std.specs.Prelude.{◌≡◌};
ghost use Rattle.deck_audit.specs.Same.{is_same_end, is_same_loose, is_same_note, is_same_order, is_same_over, is_same_side, is_same_start, says};

use ckd_rules::is_same_owner;
use ckd_types::{Note, Side};
use report_text::{EndLine, HowOver, LooseAnswer, Order, ReportLine, StartAnswer};

fn is_same_note(note: Note, other: Note) -> bool
    ensures { result ≡ is_same_note note other }
{
    match note {
        Note::Plain => matches!(other, Note::Plain),
        Note::IncorrectLength => matches!(other, Note::IncorrectLength),
        Note::Limit => matches!(other, Note::Limit),
    }
}

fn is_same_side(side: Side, other: Side) -> bool
    ensures { result ≡ is_same_side side other }
{
    match side {
        Side::A => matches!(other, Side::A),
        Side::B => matches!(other, Side::B),
    }
}

fn is_same_start(answer: &StartAnswer, other: &StartAnswer) -> bool
    ensures { result ≡ is_same_start answer.now other.now }
{
    match (answer, other) {
        (StartAnswer::Accepted(n), StartAnswer::Accepted(m)) => *n == *m,
        (StartAnswer::Busy(p), StartAnswer::Busy(q)) => p.get() == q.get(),
        (StartAnswer::Done, StartAnswer::Done) => true,
        (StartAnswer::Running, StartAnswer::Running) => true,
        (StartAnswer::Secondary(d), StartAnswer::Secondary(e)) => d.get() == e.get(),
        (StartAnswer::Reserved(o), StartAnswer::Reserved(p)) => is_same_owner(o, p),
        (StartAnswer::Shut(o), StartAnswer::Shut(p)) => is_same_owner(o, p),
        _ => false,
    }
}

fn is_same_over(ended: HowOver, other: HowOver) -> bool
    ensures { result ≡ is_same_over ended other }
{
    match (ended, other) {
        (HowOver::Full, HowOver::Full) => true,
        (HowOver::Checked, HowOver::Checked) => true,
        (HowOver::Cut(n), HowOver::Cut(m)) => n == m,
        _ => false,
    }
}

fn is_same_loose(answer: &LooseAnswer, other: &LooseAnswer) -> bool
    ensures { result ≡ is_same_loose answer.now other.now }
{
    match (answer, other) {
        (LooseAnswer::Harden(t), LooseAnswer::Harden(u)) => t.get() == u.get(),
        (LooseAnswer::Loosen(t), LooseAnswer::Loosen(u)) => t.get() == u.get(),
        (
            LooseAnswer::Lost { count, id },
            LooseAnswer::Lost {
                count: n,
                id: number,
            },
        ) => *count == *n && id.as_slice() == number.as_slice(),
        _ => false,
    }
}

/// Two orders are the same.
pub fn is_same_order(order: &Order, other: &Order) -> bool
    ensures { result ≡ is_same_order order.now other.now }
{
    match (order, other) {
        (Order::FailCache, Order::FailCache) => true,
        (Order::FailStore, Order::FailStore) => true,
        (Order::FailVolume(d, side), Order::FailVolume(e, other)) => {
            d.get() == e.get() && is_same_side(*side, *other)
        }
        (Order::RepairCache, Order::RepairCache) => true,
        (Order::RepairStore, Order::RepairStore) => true,
        (Order::Replace(d, side), Order::Replace(e, other)) => {
            d.get() == e.get() && is_same_side(*side, *other)
        }
        (Order::Pair(a, b), Order::Pair(c, d)) => a.get() == c.get() && b.get() == d.get(),
        (Order::Unpair(a), Order::Unpair(b)) => a.get() == b.get(),
        (Order::Suspend(a), Order::Suspend(b)) => a.get() == b.get(),
        (Order::Resume(a), Order::Resume(b)) => a.get() == b.get(),
        (Order::Power, Order::Power) => true,
        _ => false,
    }
}

fn is_same_end(end: &EndLine, other: &EndLine) -> bool
    ensures { result ≡ is_same_end end.now other.now }
{
    end.path.get() == other.path.get()
        && end.device.get() == other.device.get()
        && end.ordinal == other.ordinal
        && end.index == other.index
        && end.status.0 == other.status.0
        && end.residual == other.residual
        && is_same_note(end.note, other.note)
}

/// Whether a line says what is wanted of it; of lines whose content isn't judged none does.
pub fn says(wanted: &ReportLine, line: &ReportLine) -> bool
    ensures { result ≡ says wanted.now line.now }
{
    match (wanted, line) {
        (ReportLine::Start(p, d, answer), ReportLine::Start(q, e, other)) => {
            p.get() == q.get() && d.get() == e.get() && is_same_start(answer, other)
        }
        (ReportLine::End(end), ReportLine::End(other)) => is_same_end(end, other),
        (ReportLine::Data(bytes), ReportLine::Data(other)) => bytes.as_slice() == other.as_slice(),
        (ReportLine::Sense(sense), ReportLine::Sense(other)) => {
            sense.bytes.as_slice() == other.bytes.as_slice()
        }
        (ReportLine::StepIdle(d), ReportLine::StepIdle(e)) => d.get() == e.get(),
        (ReportLine::RunIdle(d), ReportLine::RunIdle(e)) => d.get() == e.get(),
        (ReportLine::Loose(d, answer), ReportLine::Loose(e, other)) => {
            d.get() == e.get() && is_same_loose(answer, other)
        }
        (ReportLine::Over(p, d, n, ended), ReportLine::Over(q, e, m, other)) => {
            p.get() == q.get() && d.get() == e.get() && *n == *m && is_same_over(*ended, *other)
        }
        (ReportLine::Reset(p, d), ReportLine::Reset(q, e)) => {
            p.get() == q.get() && d.get() == e.get()
        }
        _ => false,
    }
}
