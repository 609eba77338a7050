use ckd_types::{Geometry, TrackNo};
use std::test::Fail;
use track_cache::Frames;
use track_image::TrackImage;
use track_table::{TrackBits, TrackTable};

#[test]
fn entries_come_and_go(rt: HostRuntime) -> Result<(), Fail> {
    let mut table = TrackTable::new(rt.alloc())?;
    let last = TrackNo::new(29).ok_or("track")?;
    assert_eq!(rt; table.exchange(last, Some(7u8)), None);
    assert_eq!(rt; table.has(last), false);
    table.reserve(30)?;
    assert_eq!(rt; table.exchange(last, Some(7)), None);
    assert_eq!(rt; table.exchange(last, Some(8)), Some(7));
    table.clear();
    assert_eq!(rt; (table.has(last), table.places()), (false, 30));
    Ok(())
}

#[test]
fn frames_come_and_go(rt: HostRuntime) -> Result<(), Fail> {
    let alloc = rt.alloc();
    let mut frames = Frames::new(alloc)?;
    let last = TrackNo::new(65534).ok_or("track")?;
    let image = TrackImage::empty(alloc, Geometry::D3390, last)?;
    assert!(rt; frames.put(last, image).is_ok());
    frames.mark(last, true);
    frames.drop_clean(last);
    assert_eq!(rt; (frames.has(last), frames.modified(last)), (true, true));
    frames.lose_all();
    assert_eq!(rt; frames.has(last), false);
    Ok(())
}

#[test]
fn marks_by_number(rt: HostRuntime) -> Result<(), Fail> {
    let mut bits = TrackBits::new(rt.alloc())?;
    for n in [0, 63, 64, 65534] {
        bits.set(TrackNo::new(n).ok_or("track")?, n != 0);
    }
    assert_eq!(rt; (bits.count(), bits.first()), (3, TrackNo::new(63)));
    assert_eq!(rt;
        (bits.nth(1), bits.nth(2)),
        (TrackNo::new(64), TrackNo::new(65534))
    );
    Ok(())
}
