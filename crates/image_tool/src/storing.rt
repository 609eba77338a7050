ghost use Rattle.std.specs.Prelude.{◌≡◌, ◌≢◌, ◌≤◌, ◌*◌, Ok, OnOk};
ghost use Rattle.ckd_outside.specs.Causes.{Rose};
ghost use Rattle.disk_image.specs.Calls.{IsLong};
ghost use Rattle.disk_image.specs.Image.{HasEmpty, IsEmpty, IsLayoutOf};
ghost use Rattle.disk_image.specs.Opening.{opening};
ghost use Rattle.disk_image.specs.Volume.{Told, layout_of, FileFaultHasCause};
ghost use Rattle.volume_texts.specs.Faults.{head_text, track_text, trailing_text};
ghost use Rattle.image_tool.specs.Storing.{
  MadeBy,
  StoredBy,
  StoresWhole,
  TellsFrom,
  TellsGiven,
  TellsLoad,
  TellsNew,
  TellsVolume,
  is_alike,
  is_same_model,
};
ghost use Rattle.image_tool.specs.Texts.{bytes_text, other_text};
ghost use Rattle.image_tool.specs.Written.{IsOfSink, IsWritten};
ghost use Rattle.image_tool.specs.Answers.{WriteFaultHasCause, ToldFaultHasCause};

use crate::reading::refuse;
use crate::status::{ImageStatus, refused_by};
use crate::texts::{write_bytes, write_other};
use ckd_outside::{Sink, Source};
use ckd_types::{Geometry, TrackNo};
use disk_image::{DiskFile, ImageFault, Layout, TrackRoom, create, open_image, store_volume};
use std::alloc::Global;
use volume_file::{FileVolume, LoadFault, load};
use volume_texts::{write_head, write_track, write_trailing};

/// Tells that the file of a new image has bytes.
fn full<K: Sink>(sink: &mut K) -> ImageStatus
    ensures told { IsWritten result ImageStatus.HasBytes (K.held sink.old) (K.held sink.new) bytes_text }
    ensures write { WriteFaultHasCause result (K.faults sink.old) (K.faults sink.new) }
    ensures other { IsOfSink result }
{
    match write_bytes(sink) {
        Ok(()) => ImageStatus::HasBytes,
        Err(_) => ImageStatus::WriteFault,
    }
}

/// Makes an image, down to the disk.
fn create_whole<F: DiskFile>(
    alloc: Global,
    file: &mut F,
    geometry: Geometry,
    cylinders: u16,
) -> Result<(), ImageFault>
    requires empty { IsEmpty (F.held file.old) }
    requires most { cylinders ≤ 4369 }
    ensures made { OnOk result (HasEmpty geometry (cylinders * 15) (F.held file.new)) }
    ensures cause { FileFaultHasCause result (F.faults file.old) (F.faults file.new) }
{
    create(alloc, file, geometry, cylinders)?;
    file.sync()?;
    Ok(())
}

/// Makes an image of a file without bytes.
fn make<F: DiskFile>(alloc: Global, file: &mut F, geometry: Geometry, cylinders: u16) -> ImageStatus
    requires empty { IsEmpty (F.held file.old) }
    requires most { cylinders ≤ 4369 }
    ensures made { MadeBy result geometry cylinders (F.held file.new) }
    ensures read { result ≢ ImageStatus.ReadFault }
    ensures file { ToldFaultHasCause result (F.faults file.old) (F.faults file.new) }
{
    match create_whole(alloc, file, geometry, cylinders) {
        Ok(()) => ImageStatus::Done,
        Err(ImageFault::FileFault) => ImageStatus::FileFault,
        Err(_) => ImageStatus::NoMemory,
    }
}

/// Makes an image of a file of so many bytes, if these are none.
fn make_new<K: Sink, F: DiskFile>(
    alloc: Global,
    geometry: Geometry,
    cylinders: u16,
    size: u64,
    sink: &mut K,
    file: &mut F,
) -> ImageStatus
    requires long { IsLong (F.held file.old) size }
    requires most { cylinders ≤ 4369 }
    ensures told { TellsNew result geometry cylinders (F.held file.old) (F.held file.new) (K.held sink.old) (K.held sink.new) }
    ensures write { WriteFaultHasCause result (K.faults sink.old) (K.faults sink.new) }
    ensures read { result ≢ ImageStatus.ReadFault }
    ensures file { ToldFaultHasCause result (F.faults file.old) (F.faults file.new) }
{
    if size > 0 {
        return full(sink);
    }
    make(alloc, file, geometry, cylinders)
}

/// Makes an image of a file, if that has no bytes.
pub(crate) fn serve_new<K: Sink, F: DiskFile>(
    alloc: Global,
    geometry: Geometry,
    cylinders: u16,
    sink: &mut K,
    file: &mut F,
) -> ImageStatus
    requires { cylinders ≤ 4369 }
    ensures told { TellsNew result geometry cylinders (F.held file.old) (F.held file.new) (K.held sink.old) (K.held sink.new) }
    ensures write { WriteFaultHasCause result (K.faults sink.old) (K.faults sink.new) }
    ensures read { result ≢ ImageStatus.ReadFault }
    ensures file { ToldFaultHasCause result (F.faults file.old) (F.faults file.new) }
{
    match file.len() {
        Ok(size) => make_new(alloc, geometry, cylinders, size, sink, file),
        Err(_) => ImageStatus::FileFault,
    }
}

fn is_same_model(a: Geometry, b: Geometry) -> bool
    ensures { result ≡ is_same_model a b }
{
    match a {
        Geometry::D3390 => match b {
            Geometry::D3390 => true,
            Geometry::D3380 => false,
        },
        Geometry::D3380 => match b {
            Geometry::D3390 => false,
            Geometry::D3380 => true,
        },
    }
}

fn is_alike(a: Layout, b: Layout) -> bool
    ensures { result ≡ is_alike a b }
{
    is_same_model(a.geometry, b.geometry) && a.cylinders == b.cylinders
}

fn layout_of(volume: &FileVolume) -> Layout
    ensures { result ≡ layout_of volume.now }
{
    Layout {
        geometry: volume.geometry(),
        cylinders: u16::from(volume.cylinders()),
    }
}

/// Tells that a volume isn't for an image of this layout.
fn unlike<K: Sink>(sink: &mut K, image: Layout, volume: Layout) -> ImageStatus
    ensures told { IsWritten result (ImageStatus.Other image volume) (K.held sink.old) (K.held sink.new) (other_text image volume) }
    ensures write { WriteFaultHasCause result (K.faults sink.old) (K.faults sink.new) }
    ensures other { IsOfSink result }
{
    match write_other(sink, image, volume) {
        Ok(()) => ImageStatus::Other { image, volume },
        Err(_) => ImageStatus::WriteFault,
    }
}

fn bad_head<K: Sink>(sink: &mut K, offset: u32) -> ImageStatus
    ensures told { IsWritten result (ImageStatus.BadVolume (LoadFault.BadHead offset))
        (K.held sink.old) (K.held sink.new) (head_text offset) }
    ensures write { WriteFaultHasCause result (K.faults sink.old) (K.faults sink.new) }
    ensures other { IsOfSink result }
{
    match write_head(sink, offset) {
        Ok(()) => ImageStatus::BadVolume(LoadFault::BadHead { offset }),
        Err(_) => ImageStatus::WriteFault,
    }
}

fn bad_track<K: Sink>(sink: &mut K, track: TrackNo, offset: u32) -> ImageStatus
    ensures told { IsWritten result (ImageStatus.BadVolume (LoadFault.BadTrack track offset))
        (K.held sink.old) (K.held sink.new) (track_text track offset) }
    ensures write { WriteFaultHasCause result (K.faults sink.old) (K.faults sink.new) }
    ensures other { IsOfSink result }
{
    match write_track(sink, track, offset) {
        Ok(()) => ImageStatus::BadVolume(LoadFault::BadTrack { track, offset }),
        Err(_) => ImageStatus::WriteFault,
    }
}

fn trailing<K: Sink>(sink: &mut K, offset: u32) -> ImageStatus
    ensures told { IsWritten result (ImageStatus.BadVolume (LoadFault.Trailing offset))
        (K.held sink.old) (K.held sink.new) (trailing_text offset) }
    ensures write { WriteFaultHasCause result (K.faults sink.old) (K.faults sink.new) }
    ensures other { IsOfSink result }
{
    match write_trailing(sink, offset) {
        Ok(()) => ImageStatus::BadVolume(LoadFault::Trailing { offset }),
        Err(_) => ImageStatus::WriteFault,
    }
}

/// Tells why the source gave no volume.
fn refuse_volume<K: Sink>(sink: &mut K, fault: LoadFault) -> ImageStatus
    ensures told { TellsLoad result fault (K.held sink.old) (K.held sink.new) }
    ensures write { WriteFaultHasCause result (K.faults sink.old) (K.faults sink.new) }
    ensures file { result ≢ ImageStatus.FileFault }
{
    match fault {
        LoadFault::BadHead { offset } => bad_head(sink, offset),
        LoadFault::BadTrack { track, offset } => bad_track(sink, track, offset),
        LoadFault::Trailing { offset } => trailing(sink, offset),
        LoadFault::ReadFault => ImageStatus::ReadFault,
        LoadFault::NoMemory => ImageStatus::NoMemory,
    }
}

/// Stores a volume, down to the disk.
fn store_whole<F: DiskFile>(
    alloc: Global,
    file: &mut F,
    volume: &FileVolume,
) -> Result<(), ImageFault>
    requires layout { IsLayoutOf (F.held file.old) (layout_of volume.now) }
    requires opened { Told (F.held file.old) (λ all. opening all ≡ Ok (layout_of volume.now)) }
    ensures stored { StoresWhole volume.now (F.held file.old) result (F.held file.new) }
    ensures cause { FileFaultHasCause result (F.faults file.old) (F.faults file.new) }
{
    let mut room = TrackRoom::new(alloc, volume.geometry())?;
    store_volume(file, volume, &mut room)?;
    file.sync()?;
    Ok(())
}

/// Stores a volume into an image of its layout.
fn store<F: DiskFile>(alloc: Global, file: &mut F, volume: &FileVolume) -> ImageStatus
    requires layout { IsLayoutOf (F.held file.old) (layout_of volume.now) }
    requires opened { Told (F.held file.old) (λ all. opening all ≡ Ok (layout_of volume.now)) }
    ensures stored { StoredBy result volume.now (F.held file.old) (F.held file.new) }
    ensures read { result ≢ ImageStatus.ReadFault }
    ensures file { ToldFaultHasCause result (F.faults file.old) (F.faults file.new) }
{
    match store_whole(alloc, file, volume) {
        Ok(()) => ImageStatus::Done,
        Err(fault) => refused_by(fault),
    }
}

/// Stores a volume, if the image has its layout.
fn serve_volume<K: Sink, F: DiskFile>(
    alloc: Global,
    layout: Layout,
    volume: &FileVolume,
    sink: &mut K,
    file: &mut F,
) -> ImageStatus
    requires layout { IsLayoutOf (F.held file.old) layout }
    requires opened { Told (F.held file.old) (λ all. opening all ≡ Ok layout) }
    ensures told { TellsVolume result layout volume.now (F.held file.old) (F.held file.new) (K.held sink.old) (K.held sink.new) }
    ensures write { WriteFaultHasCause result (K.faults sink.old) (K.faults sink.new) }
    ensures read { result ≢ ImageStatus.ReadFault }
    ensures file { ToldFaultHasCause result (F.faults file.old) (F.faults file.new) }
{
    let given = layout_of(volume);
    if !is_alike(layout, given) {
        return unlike(sink, layout, given);
    }
    store(alloc, file, volume)
}

/// Stores the volume of the source's file, if the image has its layout.
fn serve_given<S: Source, K: Sink, F: DiskFile>(
    alloc: Global,
    layout: Layout,
    source: &mut S,
    sink: &mut K,
    file: &mut F,
) -> ImageStatus
    requires layout { IsLayoutOf (F.held file.old) layout }
    requires opened { Told (F.held file.old) (λ all. opening all ≡ Ok layout) }
    ensures told { TellsGiven result layout
        (record { left = S.left source.old; held = K.held sink.old; file = F.held file.old })
        (record { left = S.left source.new; held = K.held sink.new; file = F.held file.new }) }
    ensures read { result ≡ ImageStatus.ReadFault → Rose (S.faults source.old) (S.faults source.new) }
    ensures calm { result ≢ ImageStatus.ReadFault → S.faults source.new ≡ S.faults source.old }
    ensures write { WriteFaultHasCause result (K.faults sink.old) (K.faults sink.new) }
    ensures file { ToldFaultHasCause result (F.faults file.old) (F.faults file.new) }
{
    match load(alloc, source) {
        Ok(volume) => {
            volume.is_whole();
            serve_volume(alloc, layout, &volume, sink, file)
        }
        Err(fault) => refuse_volume(sink, fault),
    }
}

/// Stores the volume of the source's file into an image. The source is read to its end before the first write.
pub(crate) fn serve_from_volume<S: Source, K: Sink, F: DiskFile>(
    alloc: Global,
    source: &mut S,
    sink: &mut K,
    file: &mut F,
) -> ImageStatus
    ensures told { TellsFrom result
        (record { left = S.left source.old; held = K.held sink.old; file = F.held file.old })
        (record { left = S.left source.new; held = K.held sink.new; file = F.held file.new }) }
    ensures read { result ≡ ImageStatus.ReadFault → Rose (S.faults source.old) (S.faults source.new) }
    ensures calm { result ≢ ImageStatus.ReadFault → S.faults source.new ≡ S.faults source.old }
    ensures write { WriteFaultHasCause result (K.faults sink.old) (K.faults sink.new) }
    ensures file { ToldFaultHasCause result (F.faults file.old) (F.faults file.new) }
{
    match open_image(alloc, file) {
        Ok(layout) => serve_given(alloc, layout, source, sink, file),
        Err(fault) => refuse(sink, fault),
    }
}
