ghost use Rattle.std.specs.Prelude.{◌≡◌, ◌<◌, ◌≤◌, IfNone, IfSome, length, true};
ghost use Rattle.ckd_types.specs.Ccw.{is_transfer, ccw_at, no_ccw};
ghost use Rattle.ckd_types.specs.Program.{target};
ghost use Rattle.ckd_rules.specs.Ends.{would_go_on, at_limit, is_over, note_of, end_at_word, goes_to};
ghost use Rattle.ckd_rules.specs.Facts.{IsRunning};

use crate::{Ending, Stance};
use ckd_types::{Bytes, Ccw, CommandEnd, Note};

/// The most commands that end in a chain.
const MOST_COMMANDS: u16 = 4096;

/// A chain ends once it has moved this many bytes.
const MOST_MOVED: u32 = 1_048_576;

fn would_go_on(ccw: &Ccw, ending: &Ending) -> bool
    ensures { result ≡ would_go_on ccw.now ending.now }
{
    ccw.is_chained()
        && !ending.status.has_unit_check()
        && !ending.status.has_unit_exception()
        && matches!(ending.note, Note::Plain)
}

fn at_limit(stance: &Stance) -> bool
    ensures { result ≡ at_limit stance.now }
{
    stance.commands >= MOST_COMMANDS || stance.moved >= MOST_MOVED
}

/// Whether a chain is over with a command.
fn is_over(ccw: &Ccw, stance: &Stance, ending: &Ending) -> bool
    ensures { result ≡ is_over ccw.now (record { stance = stance.now; ending = ending.now }) }
{
    !would_go_on(ccw, ending) || at_limit(stance)
}

fn note_of(ccw: &Ccw, stance: &Stance, ending: &Ending) -> Note
    ensures { result ≡ note_of ccw.now (record { stance = stance.now; ending = ending.now }) }
{
    if would_go_on(ccw, ending) && at_limit(stance) {
        Note::Limit
    } else {
        ending.note
    }
}

/// The end of the command of word `index`, with the stance behind it.
#[inline(always)]
pub fn end_of(index: u16, ccw: &Ccw, stance: &Stance, ending: Ending) -> CommandEnd
    ensures { result ≡ end_at_word index ccw.now (record { stance = stance.now; ending = ending }) }
{
    let note = note_of(ccw, stance, &ending);
    let over = is_over(ccw, stance, &ending);
    CommandEnd {
        index,
        status: ending.status,
        residual: ending.residual,
        note,
        sent: ending.sent,
        sense: ending.sense,
        over,
    }
}

fn is_transfer_at(ccws: &[Ccw], i: usize) -> bool
    ensures { result ≡ is_transfer (ccw_at ccws.now i) }
{
    i < ccws.len() && ccws[i].is_transfer()
}

fn target(ccws: &[Ccw], i: usize) -> usize
    ensures target { result ≡ target ccws.now i }
    ensures range { i < 65536 → result < 65536 }
{
    if is_transfer_at(ccws, i) {
        usize::from(ccws[i].count)
    } else {
        i
    }
}

/// What stands past the end of a program.
pub fn no_ccw() -> Ccw
    ensures { result ≡ no_ccw }
{
    Ccw {
        command: 0,
        flags: 0,
        count: 0,
        given: Bytes::new(),
    }
}

/// The word at an index; past the end of the list it is `nothing`.
pub fn word_at<'a>(ccws: &'a [Ccw], i: usize, nothing: &'a Ccw) -> &'a Ccw
    requires { nothing.now ≡ no_ccw }
    ensures { result.now ≡ ccw_at ccws.now i }
{
    if i < ccws.len() { &ccws[i] } else { nothing }
}

/// Where the chain goes behind the command of a word, if it goes on.
pub fn goes_to(
    ccws: &[Ccw],
    index: usize,
    ccw: &Ccw,
    stance: &Stance,
    ending: &Ending,
) -> Option<usize>
    requires short { length ccws.now ≤ 256 }
    requires word { ccw.now ≡ ccw_at ccws.now index }
    ensures next { result ≡ goes_to ccws.now index (record { stance = stance.now; ending = ending.now }) }
    ensures running { IfSome result (λ j. IsRunning j stance.now) }
    ensures over { IfNone result (is_over ccw.now (record { stance = stance.now; ending = ending.now }) ≡ true) }
{
    if index >= ccws.len() || is_over(ccw, stance, ending) {
        return None;
    }
    let step = if ending.status.has_status_modifier() {
        2
    } else {
        1
    };
    Some(target(ccws, index + step))
}
