ghost use Rattle.std.specs.Prelude.{◌≡◌};
ghost use Rattle.std.specs.List.{flat_map};
ghost use Rattle.ckd_outside.specs.Causes.{HasCause};
ghost use Rattle.ckd_outside.specs.Texts.{Writes};
ghost use Rattle.image_tool.specs.Answers.{usage_text};
ghost use Rattle.image_tool.specs.Texts.{bytes_text, fault_text, good_text, number_text, other_text, track_text, word_text};

use ckd_outside::{
    Failed, LineBuffer, Piece, Sink, Spelling, flush, put_all, write_out, write_pieces,
};
use deck_text::write_line;
use disk_image::{ImageFault, Layout, TrackFault};
use volume_texts::model_text;

#[tactic(auto, unfolding(crate::specs::Texts::word_text))]
fn write_word<K: Sink>(sink: &mut K, word: &[u8]) -> Result<(), Failed>
    ensures bytes { Writes (K.held sink.old) (K.held sink.new) result (word_text word.now) }
    ensures cause { HasCause (K.faults sink.old) (K.faults sink.new) result }
{
    let pieces = [
        Piece::Text(b"bad image "),
        Piece::Text(word),
        Piece::Text(b"\n"),
    ];
    write_line(sink, &pieces)
}

#[tactic(auto, unfolding(crate::specs::Texts::number_text))]
fn write_number<K: Sink>(sink: &mut K, word: &[u8], n: u64) -> Result<(), Failed>
    ensures bytes { Writes (K.held sink.old) (K.held sink.new) result (number_text word.now n) }
    ensures cause { HasCause (K.faults sink.old) (K.faults sink.new) result }
{
    let pieces = [
        Piece::Text(b"bad image "),
        Piece::Text(word),
        Piece::Text(b" "),
        Piece::Number(n),
        Piece::Text(b"\n"),
    ];
    write_line(sink, &pieces)
}

/// How a bad track is told: a line.
struct TrackSpelling;

impl Spelling<TrackFault> for TrackSpelling {
    ghost text = { track_text };

    #[tactic(auto, unfolding(crate::specs::Texts::track_text))]
    fn put<K: Sink>(sink: &mut K, buffer: &mut LineBuffer, it: &TrackFault) -> Result<(), Failed> {
        let pieces = [
            Piece::Text(b"bad image track "),
            Piece::Number(u64::from(it.track.get())),
            Piece::Text(b" offset "),
            Piece::Number(it.offset),
            Piece::Text(b"\n"),
        ];
        write_pieces(sink, buffer, &pieces)
    }
}

/// Tells why a file is refused. Of a call that failed, and of want of memory, nothing is told.
pub(crate) fn write_fault<K: Sink>(sink: &mut K, fault: &ImageFault) -> Result<(), Failed>
    ensures bytes { Writes (K.held sink.old) (K.held sink.new) result (fault_text fault.now) }
    ensures cause { HasCause (K.faults sink.old) (K.faults sink.new) result }
{
    match *fault {
        ImageFault::BadHead { offset } => write_number(sink, b"head offset", u64::from(offset)),
        ImageFault::BadLength { size } => write_number(sink, b"length", size),
        ImageFault::Compressed => write_word(sink, b"compressed"),
        ImageFault::Parts => write_word(sink, b"parts"),
        ImageFault::BadTrack { track, offset } => {
            write_out::<TrackSpelling, TrackFault, K>(sink, &TrackFault { track, offset })
        }
        ImageFault::ManyCylinders { cylinders } => {
            write_number(sink, b"cylinders", u64::from(cylinders))
        }
        ImageFault::FileFault => Ok(()),
        ImageFault::NoMemory => Ok(()),
    }
}

/// Tells each bad track of an image.
pub(crate) fn write_found<K: Sink>(sink: &mut K, found: &[TrackFault]) -> Result<(), Failed>
    ensures bytes { Writes (K.held sink.old) (K.held sink.new) result (flat_map track_text found.now) }
    ensures cause { HasCause (K.faults sink.old) (K.faults sink.new) result }
{
    let mut buffer = LineBuffer::new();
    put_all::<TrackSpelling, TrackFault, K>(sink, &mut buffer, found)?;
    flush(sink, &mut buffer)
}

/// Tells that an image has no bad track.
#[tactic(auto, unfolding(crate::specs::Texts::good_text))]
pub(crate) fn write_good<K: Sink>(sink: &mut K) -> Result<(), Failed>
    ensures bytes { Writes (K.held sink.old) (K.held sink.new) result good_text }
    ensures cause { HasCause (K.faults sink.old) (K.faults sink.new) result }
{
    write_line(sink, &[Piece::Text(b"image good\n")])
}

/// Tells that the file of a new image has bytes.
#[tactic(auto, unfolding(crate::specs::Texts::bytes_text))]
pub(crate) fn write_bytes<K: Sink>(sink: &mut K) -> Result<(), Failed>
    ensures bytes { Writes (K.held sink.old) (K.held sink.new) result bytes_text }
    ensures cause { HasCause (K.faults sink.old) (K.faults sink.new) result }
{
    write_line(sink, &[Piece::Text(b"not made: bytes\n")])
}

/// Tells the layouts of an image and of a volume that isn't for it.
#[tactic(auto, unfolding(crate::specs::Texts::other_text))]
pub(crate) fn write_other<K: Sink>(
    sink: &mut K,
    image: Layout,
    volume: Layout,
) -> Result<(), Failed>
    ensures bytes { Writes (K.held sink.old) (K.held sink.new) result (other_text image volume) }
    ensures cause { HasCause (K.faults sink.old) (K.faults sink.new) result }
{
    let pieces = [
        Piece::Text(b"not stored: image "),
        Piece::Text(model_text(image.geometry)),
        Piece::Text(b" "),
        Piece::Number(u64::from(image.cylinders)),
        Piece::Text(b", volume "),
        Piece::Text(model_text(volume.geometry)),
        Piece::Text(b" "),
        Piece::Number(u64::from(volume.cylinders)),
        Piece::Text(b"\n"),
    ];
    write_line(sink, &pieces)
}

/// Tells which words there are.
#[tactic(auto, unfolding(crate::specs::Answers::usage_text))]
pub(crate) fn write_usage<K: Sink>(sink: &mut K) -> Result<(), Failed>
    ensures bytes { Writes (K.held sink.old) (K.held sink.new) result usage_text }
    ensures cause { HasCause (K.faults sink.old) (K.faults sink.new) result }
{
    write_line(
        sink,
        &[Piece::Text(
            b"usage: new 3390|3380 C FILE, check FILE, list FILE, to-volume FILE, from-volume FILE\n",
        )],
    )
}
