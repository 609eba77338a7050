use ckd_outside::{MemSink, MemSource};
use ckd_types::{Bytes, Geometry, RecId, Record, TrackNo};
use std::alloc::Global;
use std::process::Abort;
use std::test::Fail;
use track_image::TrackImage;
use volume_file::{FileVolume, LoadFault, load, save};

/// The file of an empty 3390 of one cylinder, built by hand.
fn empty_file(alloc: Global) -> Result<Vec<u8>, Fail> {
    let mut file = Vec::new(alloc);
    file.extend_from_slice(b"CKDVOL01\x01\x01\0\0")?;
    for head in 0..15 {
        file.extend_from_slice(&[0, 0, 0, 29])?;
        file.extend_from_slice(&[0, 0, 0, 0, head])?;
        file.extend_from_slice(&[0, 0, 0, head, 0, 0, 0, 8])?;
        file.extend_from_slice(&[0; 8])?;
        file.extend_from_slice(&[0xff; 8])?;
    }
    Ok(file)
}

fn saved(alloc: Global, volume: &FileVolume) -> Result<MemSink, Fail> {
    let mut sink = MemSink::new(alloc, 100_000, 7000, &[])?;
    save(volume, &mut sink).or(Err("sink"))?;
    Ok(sink)
}

fn loaded(alloc: Global, bytes: &[u8]) -> Result<FileVolume, Fail> {
    let mut source = MemSource::new(alloc, bytes, 5000, &[])?;
    Ok(load(alloc, &mut source).or(Err("load"))?)
}

/// Saves a volume, loads it and saves it again.
fn expect_loaded(rt: &impl Abort, alloc: Global, volume: &FileVolume) -> Result<(), Fail> {
    let file = saved(alloc, volume)?;
    let again = loaded(alloc, file.bytes())?;
    assert_eq!(rt; again.geometry(), volume.geometry());
    assert_eq!(rt; again.cylinders(), volume.cylinders());
    assert_eq!(rt; saved(alloc, &again)?.bytes(), file.bytes());
    Ok(())
}

fn numbers_of(fault: LoadFault) -> (u8, u16, u32) {
    match fault {
        LoadFault::BadHead { offset } => (1, 0, offset),
        LoadFault::BadTrack { track, offset } => (2, track.get(), offset),
        LoadFault::Trailing { offset } => (3, 0, offset),
        LoadFault::ReadFault => (4, 0, 0),
        LoadFault::NoMemory => (5, 0, 0),
    }
}

#[test]
fn the_file_of_an_empty_volume(rt: HostRuntime) -> Result<(), Fail> {
    let alloc = rt.alloc();
    let volume = FileVolume::new(alloc, Geometry::D3390, 1)?;
    let mut sink = MemSink::new(alloc, 1024, 100, &[])?;
    save(&volume, &mut sink).or(Err("sink"))?;
    let file = empty_file(alloc)?;
    assert_eq!(rt; file.len(), 507);
    assert_eq!(rt; sink.bytes(), file.as_slice());
    expect_loaded(&rt, alloc, &volume)
}

#[test]
fn a_file_of_64_cylinders(rt: HostRuntime) -> Result<(), Fail> {
    let alloc = rt.alloc();
    let mut volume = FileVolume::new(alloc, Geometry::D3380, 64)?;
    let last = TrackNo::new(959).ok_or("track")?;
    let mut image = TrackImage::empty(alloc, Geometry::D3380, last)?;
    let id = RecId {
        cchh: image.home(),
        r: 1,
    };
    let key = Bytes::from_slice(alloc, b"KEY")?;
    let body = Bytes::from_slice(alloc, &[7; 4000])?;
    image
        .cut_and_add(0, &Record { id, key, body })
        .or(Err("full"))?;
    assert_eq!(rt; volume.images().len(), 960);
    assert_eq!(rt; last.get(), 959);
    volume.set(last, image);
    expect_loaded(&rt, alloc, &volume)
}

/// How long a file is, and what is told of it: a kind (1 a bad head, 2 a bad track, 3 trailing bytes), the track and the
/// offset.
#[test]
fn a_cut_file_is_told_at_the_field_that_is_cut(rt: HostRuntime) -> Result<(), Fail> {
    let alloc = rt.alloc();
    let mut file = empty_file(alloc)?;
    file.push(0)?;
    for (len, kind, track, offset) in [
        (7, 1, 0, 0),
        (9, 1, 0, 9),
        (15, 2, 0, 12),
        (44, 2, 0, 37),
        (100, 2, 2, 95),
        (508, 3, 0, 507),
    ] {
        let text = file.get(..len).ok_or("short")?;
        let mut source = MemSource::new(alloc, text, 1000, &[])?;
        let fault = load(alloc, &mut source).err().map(numbers_of);
        assert_eq!(rt; fault, Some((kind, track, offset)), "of {len} bytes");
    }
    Ok(())
}
