use ckd_outside::{MemSink, MemSource};
use ckd_types::{DeviceNo, TrackNo};
use deck_top::{Status, deck_top};
use device_outside::MemBay;
use std::alloc::Global;
use std::test::Fail;

const DECK: &str =
    "DECK 1\nCACHE 1\nSTORE 0\nDEVICE 0 3390 1\nPROGRAM 1 0\nCCW 63 40 16 40C01000 00000000 00000000 0000000E\n\
    CCW 47 40 16 06000001 00000000 00000000 00000000\nCCW 06 00 8\nEND\nEVENTS\nSTART 1 0\nRUN 0\n";

const REPORT: &str =
    "START 1 0 ACCEPTED 1\nEND 1 0 1 0 0C 0 -\nEND 1 0 1 1 0C 0 -\nIO 1 0\nEND 1 0 1 2 0C 0 -\n\
    DATA 0000000000000000\nOVER 1 0 1 FULL\nDEVICE 0 READS 1 WRITES 0 LOST 0\nFRAME 0 0 CLEAN\nFINISH\n";

/// Where track 0 holds three zeros, which are no track.
const SPOILED: &str = "START 1 0 ACCEPTED 1\nEND 1 0 1 0 0C 0 -\nEND 1 0 1 1 0E 16 -\n\
    SENSE 0800000000000000000000000000000000000000000000000000000000000000\nIO 1 0\nOVER 1 0 1 CHECKED\n\
    DEVICE 0 READS 1 WRITES 0 LOST 0\nFINISH\n";

/// Runs the deck over a bay; what was written, and the calls of the first volume that came back.
fn run(alloc: Global, bay: &mut MemBay, sink: &mut MemSink) -> Result<Status, Fail> {
    let mut source = MemSource::new(alloc, DECK.as_bytes(), 100, &[])?;
    Ok(deck_top(alloc, &["run"], &mut source, sink, bay))
}

/// The reads and writes of the first volume that a bay took back.
fn first_calls(bay: &MemBay) -> Option<(u64, u64)> {
    if bay.len() == 0 {
        return None;
    }
    let taken = bay.at(0);
    Some((taken.volume.reads(), taken.volume.writes()))
}

/// How the run ends where these reads of the source and these writes of the sink fail, ten bytes at a time, and how much was written.
fn ended(alloc: Global, reads: &[u32], writes: &[u32]) -> Result<(Status, usize), Fail> {
    let mut bay = MemBay::new(alloc);
    let mut source = MemSource::new(alloc, DECK.as_bytes(), 10, reads)?;
    let mut sink = MemSink::new(alloc, 1000, 10, writes)?;
    let status = deck_top(alloc, &["run"], &mut source, &mut sink, &mut bay);
    Ok((status, sink.bytes().len()))
}

#[test]
fn a_stream_that_fails_ends_the_run(rt: HostRuntime) -> Result<(), Fail> {
    let alloc = rt.alloc();
    for n in 1..4 {
        assert_eq!(rt; ended(alloc, &[n], &[])?, (Status::ReadFault, 0));
    }
    assert_eq!(rt; ended(alloc, &[], &[1])?, (Status::WriteFault, 0));
    assert_eq!(rt; ended(alloc, &[], &[2])?, (Status::WriteFault, 10));
    assert_eq!(rt; ended(alloc, &[], &[3])?, (Status::WriteFault, 20));
    Ok(())
}

#[test]
fn volumes_of_a_run_come_back(rt: HostRuntime) -> Result<(), Fail> {
    let alloc = rt.alloc();
    let mut bay = MemBay::new(alloc);
    let mut sink = MemSink::new(alloc, 1000, 1000, &[])?;
    assert_eq!(rt; run(alloc, &mut bay, &mut sink)?, Status::Reported);
    assert_eq!(rt; sink.bytes(), REPORT.as_bytes());
    assert_eq!(rt; bay.len(), 1);
    assert_eq!(rt; first_calls(&bay), Some((1, 0)));
    Ok(())
}

/// The report is that of the bytes that the volumes handed over, and not worked out from the deck.
#[test]
fn a_spoiled_track_is_a_data_check(rt: HostRuntime) -> Result<(), Fail> {
    let alloc = rt.alloc();
    let d = DeviceNo::new(0).ok_or("device")?;
    let t = TrackNo::new(0).ok_or("track")?;
    let mut bay = MemBay::new(alloc);
    bay.spoil(alloc, d, t, &[0; 3])?;
    let mut sink = MemSink::new(alloc, 1000, 1000, &[])?;
    assert_eq!(rt; run(alloc, &mut bay, &mut sink)?, Status::Reported);
    assert_eq!(rt; sink.bytes(), SPOILED.as_bytes());
    assert_eq!(rt; bay.len(), 1);
    assert_eq!(rt; first_calls(&bay), Some((1, 0)));
    Ok(())
}
