ghost use Rattle.std.specs.Prelude.{◌≡◌, length};
ghost use Rattle.std.specs.List.{flat_map};
ghost use Rattle.byteorder.specs.Endian.{big_bytes};
ghost use Rattle.ckd_outside.specs.Causes.{HasCause};
ghost use Rattle.ckd_outside.specs.Texts.{Puts, Writes};
ghost use Rattle.volume_file.specs.File.{file_of, head_of, track_part};

use crate::FileVolume;
use byteorder::{BigEndian, ByteOrder};
use ckd_outside::{Failed, LineBuffer, Piece, Sink, flush, write_pieces};
use ckd_types::Geometry;
use track_image::TrackImage;

/// How a file of such a volume begins.
fn head_of(geometry: Geometry, cylinders: u8) -> [u8; 12]
    ensures { result ≡ head_of geometry cylinders }
{
    let mut head = *b"CKDVOL01\0\0\0\0";
    head[8] = match geometry {
        Geometry::D3390 => 1,
        Geometry::D3380 => 2,
    };
    head[9] = cylinders;
    head
}

fn write_image<K: Sink>(
    sink: &mut K,
    buffer: &mut LineBuffer,
    image: &TrackImage,
) -> Result<(), Failed>
    ensures bytes { Puts (K.held sink.old) buffer.old (K.held sink.new) buffer.new result (track_part image.now) }
    ensures cause { HasCause (K.faults sink.old) (K.faults sink.new) result }
{
    let bytes = image.bytes();
    let mut length = [0; 4];
    BigEndian::write_u32(&mut length, bytes.len() as u32);
    write_pieces(sink, buffer, &[Piece::Text(&length), Piece::Text(bytes)])
}

fn write_images<K: Sink>(
    sink: &mut K,
    buffer: &mut LineBuffer,
    images: &[TrackImage],
) -> Result<(), Failed>
    ensures bytes { Puts (K.held sink.old) buffer.old (K.held sink.new) buffer.new result (flat_map track_part images.now) }
    ensures cause { HasCause (K.faults sink.old) (K.faults sink.new) result }
{
    for image in images {
        write_image(sink, buffer, image)?;
    }
    Ok(())
}

fn write_head<K: Sink>(
    sink: &mut K,
    buffer: &mut LineBuffer,
    volume: &FileVolume,
) -> Result<(), Failed>
    ensures bytes { Puts (K.held sink.old) buffer.old (K.held sink.new) buffer.new result (head_of volume.now.geometry volume.now.cylinders) }
    ensures cause { HasCause (K.faults sink.old) (K.faults sink.new) result }
{
    let head = head_of(volume.geometry(), volume.cylinders());
    write_pieces(sink, buffer, &[Piece::Text(&head)])
}

fn write_tracks<K: Sink>(
    sink: &mut K,
    buffer: &mut LineBuffer,
    volume: &FileVolume,
) -> Result<(), Failed>
    ensures bytes { Puts (K.held sink.old) buffer.old (K.held sink.new) buffer.new result (flat_map track_part volume.now.images) }
    ensures cause { HasCause (K.faults sink.old) (K.faults sink.new) result }
{
    write_images(sink, buffer, volume.images())
}

/// Writes a volume as a file. Takes no memory. At a fault a front of the file was written.
pub fn save<K: Sink>(volume: &FileVolume, sink: &mut K) -> Result<(), Failed>
    ensures bytes { Writes (K.held sink.old) (K.held sink.new) result (file_of volume.now) }
    ensures cause { HasCause (K.faults sink.old) (K.faults sink.new) result }
{
    let mut buffer = LineBuffer::new();
    write_head(sink, &mut buffer, volume)?;
    write_tracks(sink, &mut buffer, volume)?;
    flush(sink, &mut buffer)
}
