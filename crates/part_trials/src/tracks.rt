ghost use Rattle.std.specs.Prelude.{◌≡◌, IfOk, length};
ghost use Rattle.ckd_types.specs.Track.{IsRecord};

use ckd_types::{Bytes, Cchh, Edit, Geometry, NoMemory, RecId, Record, TrackNo};
use ckd_write::{edit_within, make_room};
use std::alloc::Global;
use std::test::Fail;
use track_image::{RecordRoom, TrackImage};

/// The bytes of the empty track at cylinder 1, head 2.
const EMPTY: [u8; 29] = [
    0, 0, 1, 0, 2, 0, 1, 0, 2, 0, 0, 0, 8, 0, 0, 0, 0, 0, 0, 0, 0, 255, 255, 255, 255, 255, 255,
    255, 255,
];

#[test]
fn eighty_records_take_few_requests_for_memory(rt: HostRuntime) -> Result<(), Fail> {
    let mut bytes = [0xff; 1309];
    bytes[..21].copy_from_slice(&EMPTY[..21]);
    for i in 0..80 {
        let at = 21 + 16 * i;
        bytes[at..at + 8].copy_from_slice(&[0, 1, 0, 2, i as u8 + 1, 0, 0, 8]);
    }
    let track = TrackNo::new(17).ok_or("track")?;
    let read = TrackImage::from_bytes(rt.alloc(), Geometry::D3390, track, &bytes);
    let image = read.ok().ok_or("a track of eighty records")?;
    assert_eq!(rt; image.len(), 81);
    for i in 0..image.len() {
        let record = image.record_at(i);
        assert_eq!(rt; usize::from(record.id().r), i);
        assert_eq!(rt; record.body().len(), 8);
    }
    assert_eq!(rt; image.bytes(), bytes.as_slice());
    Ok(())
}

/// A record of two bytes of data.
fn added(alloc: Global) -> Result<Record, NoMemory>
    ensures { IfOk result (λ made. IsRecord made × (length made.key ≡ 0) × (length made.body ≡ 2)) }
{
    Ok(Record {
        id: RecId {
            cchh: Cchh { cc: 1, hh: 2 },
            r: 9,
        },
        key: Bytes::new(),
        body: Bytes::from_slice(alloc, &[5, 6])?,
    })
}

#[test]
fn a_record_behind_the_last_comes_in_room_that_was_made(rt: HostRuntime) -> Result<(), Fail> {
    let alloc = rt.alloc();
    let track = TrackNo::new(17).ok_or("track")?;
    let mut image = TrackImage::empty(alloc, Geometry::D3390, track)?;
    let mut room = RecordRoom::new(alloc);
    let after = image.len() - 1;
    let added = added(alloc)?;
    let fits = image.takes(after, 0, 2);
    assert!(rt; fits);
    let edit = Edit::Format { after, added };
    make_room(&image, &edit, &mut room)?;
    edit_within(&mut image, &edit, &mut room);
    assert_eq!(rt; image.len(), 2);
    Ok(())
}
