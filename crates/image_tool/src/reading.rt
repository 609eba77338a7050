ghost use Rattle.std.specs.Prelude.{◌≡◌, ◌≢◌, ◌≤◌, ◌*◌, Err, IfErr, IfOk, Ok};
ghost use Rattle.std.specs.List.{flat_map};
ghost use Rattle.disk_image.specs.Image.{IsLayoutOf};
ghost use Rattle.disk_image.specs.Opening.{opening};
ghost use Rattle.disk_image.specs.Volume.{TellsBad, Told, FileFaultHasCause};
ghost use Rattle.volume_file.specs.File.{IsWhole, file_of};
ghost use Rattle.volume_texts.specs.List.{rows_text};
ghost use Rattle.image_tool.specs.Reading.{AreRows, Checks, Finds, IsChecked, IsFiled, ShowsFile, ShowsList, checking, found_status, refused_by};
ghost use Rattle.image_tool.specs.Texts.{fault_text, found_text, good_text, track_text};
ghost use Rattle.image_tool.specs.Written.{IsOfSink, IsWritten};
ghost use Rattle.image_tool.specs.Answers.{WriteFaultHasCause, ToldFaultHasCause};

use crate::status::{ImageStatus, refused_by};
use crate::texts::{write_fault, write_found, write_good};
use ckd_outside::Sink;
use ckd_types::{HEADS, TrackNo};
use disk_image::{
    DiskFile, ImageFault, Layout, TrackFault, TrackRoom, find_bad, load_volume, open_image,
    read_image,
};
use std::alloc::Global;
use volume_file::{FileVolume, save};
use volume_texts::{Row, row_of, write_listing};

/// Each bad track of an image, or why a file is none.
fn bad_tracks<F: DiskFile>(alloc: Global, file: &mut F) -> Result<Vec<TrackFault>, ImageFault>
    ensures found { IfOk result (λ found. Told (F.held file.old) (λ all. checking all ≡ Ok found.items)) }
    ensures fault { IfErr result (λ fault. Finds IsChecked (F.held file.old) (Err fault)) }
    ensures same { F.held file.new ≡ F.held file.old }
    ensures cause { FileFaultHasCause result (F.faults file.old) (F.faults file.new) }
{
    let layout = open_image(alloc, file)?;
    let found = find_bad(alloc, file, layout)?;
    Ok(found)
}

/// The volume that a file holds, if that may have a volume file, or why it holds none.
fn held_volume<F: DiskFile>(alloc: Global, file: &mut F) -> Result<FileVolume, ImageFault>
    ensures found { Finds IsFiled (F.held file.old) result }
    ensures whole { IfOk result (λ v. IsWhole v) }
    ensures same { F.held file.new ≡ F.held file.old }
    ensures cause { FileFaultHasCause result (F.faults file.old) (F.faults file.new) }
{
    let layout = open_image(alloc, file)?;
    let volume = load_volume(alloc, file, layout)?;
    volume.is_whole();
    Ok(volume)
}

/// A row for each track of a file of this layout, or its first bad track. One track is held at a time.
fn list_tracks<F: DiskFile>(
    alloc: Global,
    file: &mut F,
    layout: Layout,
) -> Result<Vec<Row>, ImageFault>
    requires { IsLayoutOf (F.held file.old) layout }
    ensures rows { IfOk result (λ rows. AreRows layout (layout.cylinders * 15) (F.held file.old) rows.items) }
    ensures bad { IfErr result (λ fault. TellsBad (F.held file.old) layout fault) }
    ensures same { F.held file.new ≡ F.held file.old }
    ensures later { F.faults file.old ≤ F.faults file.new }
    ensures cause { FileFaultHasCause result (F.faults file.old) (F.faults file.new) }
{
    let geometry = layout.geometry;
    let mut room = TrackRoom::new(alloc, geometry)?;
    let mut rows = Vec::new(alloc);
    for n in 0..layout.cylinders * HEADS {
        let t = TrackNo::new(n).unwrap();
        let image = read_image(alloc, file, geometry, t, &mut room)?;
        rows.push(row_of(n, &image))?;
    }
    Ok(rows)
}

/// Tells why a file is refused.
pub(crate) fn refuse<K: Sink>(sink: &mut K, fault: ImageFault) -> ImageStatus
    ensures told { IsWritten result (refused_by fault) (K.held sink.old) (K.held sink.new) (fault_text fault) }
    ensures write { WriteFaultHasCause result (K.faults sink.old) (K.faults sink.new) }
    ensures read { result ≢ ImageStatus.ReadFault }
    ensures file { result ≡ ImageStatus.FileFault → fault ≡ ImageFault.FileFault }
{
    match write_fault(sink, &fault) {
        Ok(()) => refused_by(fault),
        Err(_) => ImageStatus::WriteFault,
    }
}

fn tell_good<K: Sink>(sink: &mut K) -> ImageStatus
    ensures told { IsWritten result ImageStatus.Done (K.held sink.old) (K.held sink.new) good_text }
    ensures write { WriteFaultHasCause result (K.faults sink.old) (K.faults sink.new) }
    ensures other { IsOfSink result }
{
    match write_good(sink) {
        Ok(()) => ImageStatus::Done,
        Err(_) => ImageStatus::WriteFault,
    }
}

fn tell_bad<K: Sink>(sink: &mut K, found: &[TrackFault]) -> ImageStatus
    ensures told { IsWritten result ImageStatus.BadTracks (K.held sink.old) (K.held sink.new) (flat_map track_text found.now) }
    ensures write { WriteFaultHasCause result (K.faults sink.old) (K.faults sink.new) }
    ensures other { IsOfSink result }
{
    match write_found(sink, found) {
        Ok(()) => ImageStatus::BadTracks,
        Err(_) => ImageStatus::WriteFault,
    }
}

/// Tells which tracks are bad.
fn tell_found<K: Sink>(sink: &mut K, found: &[TrackFault]) -> ImageStatus
    ensures told { IsWritten result (found_status found.now) (K.held sink.old) (K.held sink.new) (found_text found.now) }
    ensures write { WriteFaultHasCause result (K.faults sink.old) (K.faults sink.new) }
    ensures other { IsOfSink result }
{
    if found.is_empty() {
        return tell_good(sink);
    }
    tell_bad(sink, found)
}

fn show_rows<K: Sink>(sink: &mut K, layout: Layout, rows: &[Row]) -> ImageStatus
    ensures told { IsWritten result ImageStatus.Done
        (K.held sink.old) (K.held sink.new) (rows_text layout.geometry layout.cylinders rows.now) }
    ensures write { WriteFaultHasCause result (K.faults sink.old) (K.faults sink.new) }
    ensures other { IsOfSink result }
{
    match write_listing(sink, layout.geometry, layout.cylinders, rows) {
        Ok(()) => ImageStatus::Done,
        Err(_) => ImageStatus::WriteFault,
    }
}

/// Writes the file of a volume.
fn show_file<K: Sink>(sink: &mut K, volume: &FileVolume) -> ImageStatus
    ensures told { IsWritten result ImageStatus.Done (K.held sink.old) (K.held sink.new) (file_of volume.now) }
    ensures write { WriteFaultHasCause result (K.faults sink.old) (K.faults sink.new) }
    ensures other { IsOfSink result }
{
    match save(volume, sink) {
        Ok(()) => ImageStatus::Done,
        Err(_) => ImageStatus::WriteFault,
    }
}

/// Tells which tracks of a file are bad.
pub(crate) fn serve_check<K: Sink, F: DiskFile>(
    alloc: Global,
    sink: &mut K,
    file: &mut F,
) -> ImageStatus
    ensures told { Checks result (F.held file.old) (K.held sink.old) (K.held sink.new) }
    ensures same { F.held file.new ≡ F.held file.old }
    ensures write { WriteFaultHasCause result (K.faults sink.old) (K.faults sink.new) }
    ensures read { result ≢ ImageStatus.ReadFault }
    ensures file { ToldFaultHasCause result (F.faults file.old) (F.faults file.new) }
{
    match bad_tracks(alloc, file) {
        Ok(found) => tell_found(sink, &found),
        Err(fault) => refuse(sink, fault),
    }
}

/// Lists the volume that a file of this layout holds.
fn list_opened<K: Sink, F: DiskFile>(
    alloc: Global,
    layout: Layout,
    sink: &mut K,
    file: &mut F,
) -> ImageStatus
    requires layout { IsLayoutOf (F.held file.old) layout }
    requires opened { Told (F.held file.old) (λ all. opening all ≡ Ok layout) }
    ensures told { ShowsList result (F.held file.old) (K.held sink.old) (K.held sink.new) }
    ensures same { F.held file.new ≡ F.held file.old }
    ensures write { WriteFaultHasCause result (K.faults sink.old) (K.faults sink.new) }
    ensures read { result ≢ ImageStatus.ReadFault }
    ensures file { ToldFaultHasCause result (F.faults file.old) (F.faults file.new) }
{
    match list_tracks(alloc, file, layout) {
        Ok(rows) => show_rows(sink, layout, &rows),
        Err(fault) => refuse(sink, fault),
    }
}

/// Lists the volume that a file holds.
pub(crate) fn serve_list<K: Sink, F: DiskFile>(
    alloc: Global,
    sink: &mut K,
    file: &mut F,
) -> ImageStatus
    ensures told { ShowsList result (F.held file.old) (K.held sink.old) (K.held sink.new) }
    ensures same { F.held file.new ≡ F.held file.old }
    ensures write { WriteFaultHasCause result (K.faults sink.old) (K.faults sink.new) }
    ensures read { result ≢ ImageStatus.ReadFault }
    ensures file { ToldFaultHasCause result (F.faults file.old) (F.faults file.new) }
{
    match open_image(alloc, file) {
        Ok(layout) => list_opened(alloc, layout, sink, file),
        Err(fault) => refuse(sink, fault),
    }
}

/// Writes the file of the volume that a file holds.
pub(crate) fn serve_to_volume<K: Sink, F: DiskFile>(
    alloc: Global,
    sink: &mut K,
    file: &mut F,
) -> ImageStatus
    ensures told { ShowsFile result (F.held file.old) (K.held sink.old) (K.held sink.new) }
    ensures same { F.held file.new ≡ F.held file.old }
    ensures write { WriteFaultHasCause result (K.faults sink.old) (K.faults sink.new) }
    ensures read { result ≢ ImageStatus.ReadFault }
    ensures file { ToldFaultHasCause result (F.faults file.old) (F.faults file.new) }
{
    match held_volume(alloc, file) {
        Ok(volume) => show_file(sink, &volume),
        Err(fault) => refuse(sink, fault),
    }
}
