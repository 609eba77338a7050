ghost use Rattle.std.specs.Prelude.{◌≡◌};
ghost use Rattle.ckd_outside.specs.Causes.{HasCause};
ghost use Rattle.ckd_outside.specs.Texts.{Writes};
ghost use Rattle.copy_tool.specs.Texts.{fault_word, front_text, track_of, track_text, unmade_text, word_of, word_text};

use crate::task::Task;
use ckd_outside::{Failed, Piece, Sink};
use ckd_types::{Side, TrackNo};
use deck_text::write_line;

/// Why no file is made: the first of these that is so.
#[derive(Clone, Copy, Debug, PartialEq, Eq)]
pub enum Unmade {
    /// The deck has no device of that number.
    Device,
    /// It has fewer event lines.
    Events,
    /// The device is lent after these lines.
    Lent,
    /// A half write is open on it then.
    Half,
    /// This is its least loose track then.
    Loose(TrackNo),
    /// It was lent before its last track was copied.
    Gone,
    /// This track was lost before it was copied.
    Lost(TrackNo),
    /// This side failed as a track was to be copied, and no other side gave it.
    Fault(Side),
    /// A PAIR line of the deck lends the device that is to be mirrored, or would.
    Lends,
}

fn front_text(task: Task) -> &'static [u8]
    ensures { result.now ≡ front_text task }
{
    match task {
        Task::Copy { .. } => b"not copied: ",
        Task::Mirror { .. } => b"not mirrored: ",
    }
}

fn fault_word(side: Side) -> &'static [u8]
    ensures { result.now ≡ fault_word side }
{
    match side {
        Side::A => b"fault A",
        Side::B => b"fault B",
    }
}

fn word_of(why: &Unmade) -> &'static [u8]
    ensures { result.now ≡ word_of why.now }
{
    match *why {
        Unmade::Device => b"device",
        Unmade::Events => b"events",
        Unmade::Lent => b"lent",
        Unmade::Half => b"half",
        Unmade::Loose(_) => b"loose",
        Unmade::Gone => b"gone",
        Unmade::Lost(_) => b"lost",
        Unmade::Fault(side) => fault_word(side),
        Unmade::Lends => b"lends",
    }
}

fn track_of(why: &Unmade) -> Option<TrackNo>
    ensures { result ≡ track_of why.now }
{
    match *why {
        Unmade::Loose(t) | Unmade::Lost(t) => Some(t),
        _ => None,
    }
}

#[tactic(auto, unfolding(crate::specs::Texts::word_text))]
fn write_word<'w, K: Sink>(sink: &mut K, front: &'w [u8], word: &'w [u8]) -> Result<(), Failed>
    ensures bytes { Writes (K.held sink.old) (K.held sink.new) result (word_text front.now word.now) }
    ensures cause { HasCause (K.faults sink.old) (K.faults sink.new) result }
{
    let pieces = [Piece::Text(front), Piece::Text(word), Piece::Text(b"\n")];
    write_line(sink, &pieces)
}

#[tactic(auto, unfolding(crate::specs::Texts::track_text))]
fn write_track<'w, K: Sink>(
    sink: &mut K,
    front: &'w [u8],
    word: &'w [u8],
    t: TrackNo,
) -> Result<(), Failed>
    ensures bytes { Writes (K.held sink.old) (K.held sink.new) result (track_text front.now word.now t) }
    ensures cause { HasCause (K.faults sink.old) (K.faults sink.new) result }
{
    let pieces = [
        Piece::Text(front),
        Piece::Text(word),
        Piece::Text(b" "),
        Piece::Number(u64::from(t.get())),
        Piece::Text(b"\n"),
    ];
    write_line(sink, &pieces)
}

/// Writes why no file is made.
pub(crate) fn write_unmade<K: Sink>(sink: &mut K, task: Task, why: &Unmade) -> Result<(), Failed>
    ensures bytes { Writes (K.held sink.old) (K.held sink.new) result (unmade_text task why.now) }
    ensures cause { HasCause (K.faults sink.old) (K.faults sink.new) result }
{
    let front = front_text(task);
    let word = word_of(why);
    match track_of(why) {
        Some(t) => write_track(sink, front, word, t),
        None => write_word(sink, front, word),
    }
}
