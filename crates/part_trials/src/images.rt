use ckd_types::{Geometry, TrackNo};
use device_outside::{TrackBuffer, Volume};
use disk_image::{DiskImage, MemFile, create, open_image};
use std::alloc::Global;
use std::process::Abort;
use std::test::Fail;

/// The image of an empty 3390 of one cylinder.
fn empty_image(alloc: Global) -> Result<MemFile, Fail> {
    let mut file = MemFile::new(alloc, &[], &[])?;
    create(alloc, &mut file, Geometry::D3390, 1).or(Err("create"))?;
    Ok(file)
}

/// That image, open as a volume. Opening makes two calls, so that the first read is call 3.
fn open(alloc: Global, fail: &[u32]) -> Result<DiskImage<MemFile>, Fail> {
    let image = empty_image(alloc)?;
    let mut file = MemFile::new(alloc, image.bytes(), fail)?;
    let layout = open_image(alloc, &mut file).or(Err("open"))?;
    Ok(DiskImage::new(alloc, file, layout)?)
}

/// Reads a track of the first cylinder, if that goes well.
fn read(image: &mut DiskImage<MemFile>, t: TrackNo, into: &mut TrackBuffer) -> Result<bool, Fail> {
    if t.get() < image.layout().cylinders * 15 {
        return Ok(image.read_track(t, into).is_ok());
    }
    Err("track".into())
}

fn write(image: &mut DiskImage<MemFile>, t: TrackNo, bytes: &[u8]) -> Result<bool, Fail> {
    if t.get() < image.layout().cylinders * 15 && bytes.len() < 100 {
        return Ok(image.write_track(t, bytes).is_ok());
    }
    Err("track".into())
}

/// Track 3 of an empty volume, and track 3 with a record of two bytes behind record 0.
const EMPTY: &[u8] = &[
    0, 0, 0, 0, 3, 0, 0, 0, 3, 0, 0, 0, 8, 0, 0, 0, 0, 0, 0, 0, 0, 255, 255, 255, 255, 255, 255,
    255, 255,
];

const WRITTEN: &[u8] = &[
    0, 0, 0, 0, 3, 0, 0, 0, 3, 0, 0, 0, 8, 0, 0, 0, 0, 0, 0, 0, 0, 0, 0, 0, 3, 1, 0, 0, 2, 7, 7,
    255, 255, 255, 255, 255, 255, 255, 255,
];

/// Call 3 is the write, call 4 the read behind it.
#[test]
fn a_call_that_fails_is_told_and_the_next_goes_well(rt: HostRuntime) -> Result<(), Fail> {
    let alloc = rt.alloc();
    let mut image = open(alloc, &[3, 4])?;
    let mut into = TrackBuffer::new(alloc)?;
    let track = TrackNo::new(3).ok_or("track")?;
    assert!(rt; !write(&mut image, track, WRITTEN)?);
    assert!(rt; !read(&mut image, track, &mut into)?);
    assert!(rt; read(&mut image, track, &mut into)?);
    assert_eq!(rt; into.bytes(), EMPTY);
    assert!(rt; write(&mut image, track, WRITTEN)?);
    assert!(rt; read(&mut image, track, &mut into)?);
    assert_eq!(rt; into.bytes(), WRITTEN);
    Ok(())
}
