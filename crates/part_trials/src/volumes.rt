use ckd_outside::Failed;
use ckd_types::{DeviceNo, TrackNo};
use device_outside::{MemBay, MemVolume, TrackBuffer, Volume};
use std::test::Fail;

#[test]
fn listed_calls_fail(rt: HostRuntime) -> Result<(), Fail> {
    let alloc = rt.alloc();
    let mut volume = MemVolume::new(alloc, 1, &[1], &[1])?;
    let mut buffer = TrackBuffer::new(alloc)?;
    let t = TrackNo::new(7).ok_or("track")?;
    assert_eq!(rt; volume.read_track(t, &mut buffer), Err(Failed));
    assert_eq!(rt; volume.read_track(t, &mut buffer), Ok(()));
    assert_eq!(rt; buffer.bytes().len(), 29);
    assert_eq!(rt; volume.write_track(t, b"abc"), Err(Failed));
    assert_eq!(rt; volume.write_track(t, b"abc"), Ok(()));
    assert_eq!(rt; (volume.reads(), volume.writes()), (2, 2));
    Ok(())
}

#[test]
fn a_bay_spoils_the_tracks_that_it_is_told(rt: HostRuntime) -> Result<(), Fail> {
    let alloc = rt.alloc();
    let d = DeviceNo::new(3).ok_or("device")?;
    let first = TrackNo::new(0).ok_or("track")?;
    let mut bay = MemBay::new(alloc);
    bay.spoil(alloc, d, first, &[1; 2])?;
    let mut buffer = TrackBuffer::new(alloc)?;
    let mut volume = bay.make(alloc, d, 1, &[], &[])?;
    assert_eq!(rt; volume.read_track(first, &mut buffer), Ok(()));
    assert_eq!(rt; buffer.bytes().len(), 2);
    Ok(())
}
