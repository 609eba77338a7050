use ckd_ccw::Program;
use ckd_params::{decode_extent, encode_extent};
use ckd_types::{
    Bytes, Cchh, Ccw, CommandEnd, EndList, Extent, Mode, Note, ParamFault, RecId, Sense, TrackNo,
    UnitStatus, empty_track,
};
use std::test::Fail;

#[test]
fn copies_are_equal(rt: HostRuntime) -> Result<(), Fail> {
    let alloc = rt.alloc();
    let made = empty_track(alloc, TrackNo::new(17).ok_or("track")?)?;
    let zero = made.records.as_slice()[0].copy(alloc)?;
    let cchh = Cchh { cc: 1, hh: 2 };
    assert_eq!(rt; (zero.id, zero.body.len()), (RecId { cchh, r: 0 }, 8));
    let mut ccws = Vec::new(alloc);
    ccws.push(Ccw {
        command: 0x07,
        flags: 0,
        count: 6,
        given: Bytes::from_slice(alloc, &[0; 6])?,
    })?;
    let program = Program::new(ccws).or(Err("a program"))?.copy(alloc)?;
    assert_eq!(rt; (program.len(), program.at(0).given.len()), (1, 6));
    Ok(())
}

#[test]
fn an_end_is_kept(rt: HostRuntime) -> Result<(), Fail> {
    let alloc = rt.alloc();
    let mut ends = EndList::new(alloc);
    ends.reserve(1)?;
    ends.push(CommandEnd {
        index: 3,
        status: UnitStatus::normal(),
        residual: 5,
        note: Note::IncorrectLength,
        sent: Bytes::from_slice(alloc, &[7])?,
        sense: Some(Sense::new([9; 32])),
        over: true,
    });
    let end = ends.as_slice()[0].copy(alloc)?;
    assert_eq!(rt; (end.index, end.residual, end.over), (3, 5, true));
    assert_eq!(rt; (end.sent.len(), end.sense.is_some()), (1, true));
    Ok(())
}

#[test]
fn the_bytes_of_an_extent(rt: HostRuntime) -> Result<(), Fail> {
    let extent = Extent {
        mask: 0xc0,
        mode: Mode::Sequential,
        inhibit_fast: true,
        number: Some(0x0102),
        first: TrackNo::new(17).ok_or("first")?,
        last: TrackNo::new(959).ok_or("last")?,
    };
    let bytes = encode_extent(&extent);
    let want = [0xc0, 0xcf, 0, 0, 1, 2, 0, 0, 0, 1, 0, 2, 0, 63, 0, 14];
    assert_eq!(rt; bytes, want);
    assert_eq!(rt; decode_extent(&bytes, 63), Err(ParamFault::BadRange));
    Ok(())
}
