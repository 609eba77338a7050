ghost use Rattle.std.specs.Prelude.{◌≡◌};
ghost use Rattle.std.specs.List.{flat_map};
ghost use Rattle.ckd_outside.specs.Causes.{HasCause};
ghost use Rattle.ckd_outside.specs.Texts.{Puts, Writes};
ghost use Rattle.volume_texts.specs.List.{finish_line, model_text, row_of, rows_text, track_line, volume_line};

use ckd_outside::{Failed, LineBuffer, Piece, Sink, Spelling, flush, put_all, write_pieces};
use ckd_types::Geometry;
use track_image::TrackImage;

/// What the list tells of a track: its number, how many records it has, and how many bytes.
#[derive(Clone, Copy, Debug)]
pub struct Row {
    pub track: u16,
    pub records: usize,
    pub bytes: usize,
}

/// The row of a track of this number.
pub fn row_of(track: u16, image: &TrackImage) -> Row
    ensures { result ≡ row_of track image.now }
{
    Row {
        track,
        records: image.len(),
        bytes: image.bytes().len(),
    }
}

/// The device type of a model.
pub fn model_text(geometry: Geometry) -> &'static [u8]
    ensures { result.now ≡ model_text geometry }
{
    match geometry {
        Geometry::D3390 => b"3390",
        Geometry::D3380 => b"3380",
    }
}

#[tactic(auto, unfolding(crate::specs::List::volume_line))]
fn put_volume<K: Sink>(
    sink: &mut K,
    buffer: &mut LineBuffer,
    geometry: Geometry,
    cylinders: u16,
) -> Result<(), Failed>
    ensures bytes { Puts
        (K.held sink.old) buffer.old (K.held sink.new) buffer.new result (volume_line geometry cylinders) }
    ensures cause { HasCause (K.faults sink.old) (K.faults sink.new) result }
{
    let pieces = [
        Piece::Text(b"VOLUME "),
        Piece::Text(model_text(geometry)),
        Piece::Text(b" "),
        Piece::Number(u64::from(cylinders)),
        Piece::Text(b"\n"),
    ];
    write_pieces(sink, buffer, &pieces)
}

/// How a row of a list is told: a line.
struct RowSpelling;

impl Spelling<Row> for RowSpelling {
    ghost text = { track_line };

    #[tactic(auto, unfolding(crate::specs::List::track_line))]
    fn put<K: Sink>(sink: &mut K, buffer: &mut LineBuffer, it: &Row) -> Result<(), Failed> {
        let pieces = [
            Piece::Text(b"TRACK "),
            Piece::Number(u64::from(it.track)),
            Piece::Text(b" RECORDS "),
            Piece::Number(it.records as u64),
            Piece::Text(b" BYTES "),
            Piece::Number(it.bytes as u64),
            Piece::Text(b"\n"),
        ];
        write_pieces(sink, buffer, &pieces)
    }
}

#[tactic(auto, unfolding(crate::specs::List::finish_line))]
fn put_finish<K: Sink>(sink: &mut K, buffer: &mut LineBuffer) -> Result<(), Failed>
    ensures bytes { Puts (K.held sink.old) buffer.old (K.held sink.new) buffer.new result finish_line }
    ensures cause { HasCause (K.faults sink.old) (K.faults sink.new) result }
{
    write_pieces(sink, buffer, &[Piece::Text(b"FINISH\n")])
}

/// Writes the lines of a list. At a fault a front of them was written.
pub fn write_listing<K: Sink>(
    sink: &mut K,
    geometry: Geometry,
    cylinders: u16,
    rows: &[Row],
) -> Result<(), Failed>
    ensures bytes { Writes (K.held sink.old) (K.held sink.new) result (rows_text geometry cylinders rows.now) }
    ensures cause { HasCause (K.faults sink.old) (K.faults sink.new) result }
{
    let mut buffer = LineBuffer::new();
    put_volume(sink, &mut buffer, geometry, cylinders)?;
    put_all::<RowSpelling, Row, K>(sink, &mut buffer, rows)?;
    put_finish(sink, &mut buffer)?;
    flush(sink, &mut buffer)
}
