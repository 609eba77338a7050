ghost use Rattle.std.specs.Prelude.{◌≡◌, ◌<◌, ◌+◌, ◌^◌, [], None, length};
ghost use Rattle.ckd_rules.specs.Ending.{work_counted, length_note, refused, immediate, outcome_with};
ghost use Rattle.ckd_rules.specs.Reads.{status_of};

use crate::Stance;
use ckd_types::{Bytes, Ccw, Note, Sense, UnitStatus};

/// How a command ended, but for its place in the chain: what it sent, its sense where it has unit
/// check, its residual count, its status, and what is noted.
#[derive(Debug, Drop)]
pub struct Ending {
    pub sent: Bytes,
    pub sense: Option<Sense>,
    pub residual: u16,
    pub status: UnitStatus,
    pub note: Note,
}

/// One more command has ended, and moved this much.
fn count(stance: &mut Stance, moved: u16)
    requires commands { stance.old.commands < 4096 }
    requires moved { stance.old.moved < 2 ^ 21 }
    ensures { stance.new ≡ work_counted stance.old moved }
{
    stance.commands += 1;
    stance.moved += u32::from(moved);
}

/// The end of a command with unit check: nothing was moved.
#[inline(always)]
pub fn refuse(stance: &mut Stance, ccw: &Ccw, sense: Sense) -> Ending
    requires commands { stance.old.commands < 4096 }
    requires moved { stance.old.moved < 2 ^ 21 }
    ensures stance { stance.new ≡ (refused stance.old ccw.now sense).stance }
    ensures ending { result ≡ (refused stance.old ccw.now sense).ending }
{
    count(stance, 0);
    Ending {
        sent: Bytes::new(),
        sense: Some(sense),
        residual: ccw.count,
        status: UnitStatus::check(),
        note: Note::Plain,
    }
}

/// The end of a command that moves nothing, whatever its count.
#[inline(always)]
pub fn pass(stance: &mut Stance, ccw: &Ccw) -> Ending
    requires commands { stance.old.commands < 4096 }
    requires moved { stance.old.moved < 2 ^ 21 }
    ensures stance { stance.new ≡ (immediate stance.old ccw.now).stance }
    ensures ending { result ≡ (immediate stance.old ccw.now).ending }
{
    count(stance, 0);
    Ending {
        sent: Bytes::new(),
        sense: None,
        residual: ccw.count,
        status: UnitStatus::normal(),
        note: Note::Plain,
    }
}

fn length_note(ccw: &Ccw, area: usize) -> Note
    ensures { result ≡ length_note ccw.now area }
{
    if usize::from(ccw.count) == area || ccw.suppresses_length() {
        Note::Plain
    } else {
        Note::IncorrectLength
    }
}

/// The end of a command that moved the lesser of its count and its area.
#[inline(always)]
pub fn end(stance: &mut Stance, ccw: &Ccw, area: usize, status: UnitStatus, sent: Bytes) -> Ending
    requires commands { stance.old.commands < 4096 }
    requires moved { stance.old.moved < 2 ^ 21 }
    ensures stance { stance.new ≡ (outcome_with stance.old ccw.now area status sent).stance }
    ensures ending { result ≡ (outcome_with stance.old ccw.now area status sent).ending }
{
    let moved = usize::from(ccw.count).min(area) as u16;
    count(stance, moved);
    Ending {
        sent,
        sense: None,
        residual: ccw.count - moved,
        status,
        note: length_note(ccw, area),
    }
}

/// The status at the end of a record with this data: one without data is an end of file (IBM,
/// GA32-0099).
#[inline(always)]
pub fn status_of(body: &[u8]) -> UnitStatus
    ensures { result ≡ status_of body.now }
{
    if body.is_empty() {
        UnitStatus::exception()
    } else {
        UnitStatus::normal()
    }
}
