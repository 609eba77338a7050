use ckd_outside::{MemSink, MemSource};
use ckd_types::{DeviceNo, TrackNo};
use deck_top::Status;
use device_outside::{MemBay, NoGate};
use path_top::paths_top_on;
use std::test::Fail;

/// Path 1 reads record 0 of track 0 of device 0, then writes it, and reads it again. Path 2 reads that of device 1.
const DECK: &str = "DECK 1\nCACHE 1\nSTORE 0\nDEVICE 0 3390 1\nDEVICE 1 3390 1\n\
    PROGRAM 1 0\nCCW 63 40 16 40C01000 00000000 00000000 0000000E\nCCW 47 40 16 06000001 00000000 00000000 00000000\nCCW 06 00 8\nEND\n\
    PROGRAM 1 0\nCCW 63 40 16 80C01000 00000000 00000000 0000000E\nCCW 47 40 16 01000001 00000000 00000000 00000000\n\
    CCW 85 00 8 0102030405060708\nEND\n\
    PROGRAM 1 0\nCCW 63 40 16 40C01000 00000000 00000000 0000000E\nCCW 47 40 16 06000001 00000000 00000000 00000000\nCCW 06 00 8\nEND\n\
    PROGRAM 2 1\nCCW 63 40 16 40C01000 00000000 00000000 0000000E\nCCW 47 40 16 06000001 00000000 00000000 00000000\nCCW 06 00 8\nEND\n\
    EVENTS\n";

const HISTORY: &str =
    "END 1 0 1 0 0C 0 -\nEND 1 0 1 1 0C 0 -\nEND 1 0 1 2 0C 0 -\nDATA 1111111111111111\nOVER 1 0 1 FULL\n\
    END 1 0 2 0 0C 0 -\nEND 1 0 2 1 0C 0 -\nEND 1 0 2 2 0C 0 -\nOVER 1 0 2 FULL\n\
    END 1 0 3 0 0C 0 -\nEND 1 0 3 1 0C 0 -\nEND 1 0 3 2 0C 0 -\nDATA 0102030405060708\nOVER 1 0 3 FULL\nDEVICE 0 LOST 0\n\
    END 2 1 1 0 0C 0 -\nEND 2 1 1 1 0C 0 -\nEND 2 1 1 2 0C 0 -\nDATA 2222222222222222\nOVER 2 1 1 FULL\nDEVICE 1 LOST 0\nUNUSED 0\nFINISH\n";

/// Home address, the count area of record 0, its eight bytes of data, and the end of the track.
const ONES: &[u8] = &[
    0, 0, 0, 0, 0, 0, 0, 0, 0, 0, 0, 0, 8, 0x11, 0x11, 0x11, 0x11, 0x11, 0x11, 0x11, 0x11, 0xff,
    0xff, 0xff, 0xff, 0xff, 0xff, 0xff, 0xff,
];

const TWOS: &[u8] = &[
    0, 0, 0, 0, 0, 0, 0, 0, 0, 0, 0, 0, 8, 0x22, 0x22, 0x22, 0x22, 0x22, 0x22, 0x22, 0x22, 0xff,
    0xff, 0xff, 0xff, 0xff, 0xff, 0xff, 0xff,
];

#[test]
fn paths_find_what_their_volumes_held(rt: HostRuntime) -> Result<(), Fail> {
    let alloc = rt.alloc();
    let track = TrackNo::new(0).ok_or("track")?;
    let mut bay = MemBay::new(alloc);
    bay.spoil(alloc, DeviceNo::new(0).ok_or("device")?, track, ONES)?;
    bay.spoil(alloc, DeviceNo::new(1).ok_or("device")?, track, TWOS)?;
    let mut source = MemSource::new(alloc, DECK.as_bytes(), 1000, &[])?;
    let mut sink = MemSink::new(alloc, 1000, 1000, &[])?;
    let status = paths_top_on(
        &rt,
        alloc,
        &["paths"],
        &mut source,
        &mut sink,
        &mut bay,
        &NoGate,
    );
    assert_eq!(rt; status, Status::Reported);
    assert_eq!(rt; sink.bytes(), HISTORY.as_bytes());
    Ok(())
}
