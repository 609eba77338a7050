ghost use Rattle.std.specs.Prelude.{◌≡◌};
ghost use Rattle.ckd_outside.specs.Causes.{HasCause};
ghost use Rattle.ckd_outside.specs.Texts.{Writes};
ghost use Rattle.volume_texts.specs.Faults.{head_text, track_text, trailing_text};

use ckd_outside::{Failed, Piece, Sink};
use ckd_types::TrackNo;
use deck_text::write_line;

/// Tells that a field of a file's head is wrong or cut.
#[tactic(auto, unfolding(crate::specs::Faults::head_text))]
pub fn write_head<K: Sink>(sink: &mut K, offset: u32) -> Result<(), Failed>
    ensures bytes { Writes (K.held sink.old) (K.held sink.new) result (head_text offset) }
    ensures cause { HasCause (K.faults sink.old) (K.faults sink.new) result }
{
    let pieces = [
        Piece::Text(b"bad file head offset "),
        Piece::Number(u64::from(offset)),
        Piece::Text(b"\n"),
    ];
    write_line(sink, &pieces)
}

/// Tells that a track of a file is none.
#[tactic(auto, unfolding(crate::specs::Faults::track_text))]
pub fn write_track<K: Sink>(sink: &mut K, track: TrackNo, offset: u32) -> Result<(), Failed>
    ensures bytes { Writes (K.held sink.old) (K.held sink.new) result (track_text track offset) }
    ensures cause { HasCause (K.faults sink.old) (K.faults sink.new) result }
{
    let pieces = [
        Piece::Text(b"bad file track "),
        Piece::Number(u64::from(track.get())),
        Piece::Text(b" offset "),
        Piece::Number(u64::from(offset)),
        Piece::Text(b"\n"),
    ];
    write_line(sink, &pieces)
}

/// Tells that a byte follows the last track of a file.
#[tactic(auto, unfolding(crate::specs::Faults::trailing_text))]
pub fn write_trailing<K: Sink>(sink: &mut K, offset: u32) -> Result<(), Failed>
    ensures bytes { Writes (K.held sink.old) (K.held sink.new) result (trailing_text offset) }
    ensures cause { HasCause (K.faults sink.old) (K.faults sink.new) result }
{
    let pieces = [
        Piece::Text(b"bad file trailing offset "),
        Piece::Number(u64::from(offset)),
        Piece::Text(b"\n"),
    ];
    write_line(sink, &pieces)
}
