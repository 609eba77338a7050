use crate::adding::{ckd_c_add_faulty, ckd_c_add_memory};
use crate::closing::{ckd_c_close, ckd_c_flush};
use crate::ending::{CkdCounts, CkdEnd, ckd_c_counts, ckd_c_last_data, ckd_c_last_end};
use crate::events::{
    ckd_c_background, ckd_c_lose_cache, ckd_c_lose_power, ckd_c_lose_side, ckd_c_lose_store,
    ckd_c_pair, ckd_c_repair_cache, ckd_c_repair_store, ckd_c_reset, ckd_c_resume, ckd_c_run,
    ckd_c_start, ckd_c_step, ckd_c_suspend,
};
use crate::handle::CkdSubsystem;
use crate::opening::ckd_c_open;
use crate::orders::{ckd_c_part_memory, ckd_c_replace_memory};
use crate::planning::{ckd_c_forget, ckd_c_left, ckd_c_plan};
use crate::words::{CkdCcw, CkdRefusal};
use std::alloc::Global;
use std::test::Fail;

/// Define extent: cylinder 0, all writes.
const EXTENT: &[u8] = &[0xc0, 0xc0, 0x10, 0, 0, 0, 0, 0, 0, 0, 0, 0, 0, 0, 0, 0x0e];

/// Locate record: one format write behind record 0 of head 0.
const BEFORE: &[u8] = &[3, 0, 0, 1, 0, 0, 0, 0, 0, 0, 0, 0, 0, 0, 0, 0];

/// Locate record: one read of record 1 of head 0.
const AT: &[u8] = &[6, 0, 0, 1, 0, 0, 0, 0, 0, 0, 0, 0, 1, 0, 0, 0];

/// Locate record: one read of record 0 of head 0.
const FIRST: &[u8] = &[6, 0, 0, 1, 0, 0, 0, 0, 0, 0, 0, 0, 0, 0, 0, 0];

/// Record 1 of head 0, with four bytes of data.
const RECORD: &[u8] = &[0, 0, 0, 0, 1, 0, 0, 4, 0xc3, 0xd2, 0xc4, 0x40];

fn word(command: u8, flags: u8, count: u16, given: &[u8]) -> CkdCcw<'_> {
    CkdCcw {
        command,
        flags,
        count,
        given,
    }
}

/// Plans a program of three words for path 1 of a device, starts and runs it.
fn plan_and_run(
    alloc: Global,
    subsystem: &mut CkdSubsystem,
    device: u8,
    locate: &[u8],
    last: CkdCcw<'_>,
) -> u32 {
    let ccws = [
        word(0x63, 0x40, 16, EXTENT),
        word(0x47, 0x40, 16, locate),
        last,
    ];
    let mut refusal = CkdRefusal { word: 0, why: 0 };
    let code = ckd_c_plan(alloc, subsystem, device, 1, &ccws, &mut refusal);
    if code != 0 {
        return code;
    }
    let mut ordinal = 0;
    let code = ckd_c_start(alloc, subsystem, device, 1, &mut ordinal);
    if code != 0 {
        return code;
    }
    ckd_c_run(alloc, subsystem, device, 8)
}

#[test]
fn a_record_is_formatted_and_read(rt: HostRuntime) -> Result<(), Fail> {
    let alloc = rt.alloc();
    let mut one = CkdSubsystem::closed(alloc);
    assert!(rt; ckd_c_open(alloc, &mut one, 4, 4) == 0);
    assert!(rt; ckd_c_open(alloc, &mut one, 4, 4) == 2);
    assert!(rt; ckd_c_add_memory(alloc, &mut one, 0, 3390, 1) == 0);
    assert!(rt; plan_and_run(alloc, &mut one, 0, BEFORE, word(0x1d, 0, 12, RECORD)) == 0);
    assert!(rt; plan_and_run(alloc, &mut one, 0, AT, word(0x06, 0, 4, &[])) == 0);
    let mut end = CkdEnd::NONE;
    assert!(rt; ckd_c_last_end(alloc, &mut one, 0, &mut end) == 0);
    assert!(rt; end.status == 0x0c && end.residual == 0 && end.sent == 4 && end.over == 1);
    let mut sent = [0; 8];
    let mut count = 0;
    assert!(rt; ckd_c_last_data(alloc, &mut one, 0, &mut sent, &mut count) == 0);
    assert!(rt; count == 4 && sent == [0xc3, 0xd2, 0xc4, 0x40, 0, 0, 0, 0]);
    let mut left = 9;
    assert!(rt; ckd_c_left(alloc, &mut one, 0, 1, &mut left) == 0 && left == 0);
    assert!(rt; ckd_c_forget(alloc, &mut one, 0) == 0);
    let mut did = 0;
    assert!(rt; ckd_c_background(alloc, &mut one, 0, &mut did) == 0);
    let mut counts = CkdCounts::NONE;
    assert!(rt; ckd_c_counts(alloc, &mut one, 0, &mut counts) == 0);
    assert!(rt; counts.cylinders == 1 && counts.lost == 0);
    assert!(rt; ckd_c_flush(alloc, &mut one) == 0);
    assert!(rt; ckd_c_close(alloc, &mut one) == 0);
    assert!(rt; ckd_c_step(alloc, &mut one, 0) == 1);
    Ok(())
}

/// A pair is made, held, copied and taken apart; what isn't there is refused.
#[test]
fn pairs_losses_and_refusals(rt: HostRuntime) -> Result<(), Fail> {
    let alloc = rt.alloc();
    let mut two = CkdSubsystem::closed(alloc);
    assert!(rt; ckd_c_close(alloc, &mut two) == 1);
    assert!(rt; ckd_c_open(alloc, &mut two, 2, 2) == 0);
    assert!(rt; ckd_c_add_memory(alloc, &mut two, 16, 3390, 1) == 4);
    assert!(rt; ckd_c_add_memory(alloc, &mut two, 1, 3350, 1) == 7);
    assert!(rt; ckd_c_add_memory(alloc, &mut two, 1, 3380, 0) == 8);
    assert!(rt; ckd_c_add_memory(alloc, &mut two, 1, 3380, 1) == 0);
    assert!(rt; ckd_c_add_memory(alloc, &mut two, 1, 3380, 1) == 14);
    assert!(rt; ckd_c_add_memory(alloc, &mut two, 3, 3380, 1) == 0);
    assert!(rt; ckd_c_step(alloc, &mut two, 2) == 13);
    assert!(rt; plan_and_run(alloc, &mut two, 1, AT, word(0x06, 0x80, 4, &[])) == 12);
    assert!(rt; plan_and_run(alloc, &mut two, 1, AT, word(0x06, 0, 4, &[1])) == 12);
    assert!(rt; ckd_c_pair(alloc, &mut two, 1, 1) == 27);
    assert!(rt; ckd_c_pair(alloc, &mut two, 1, 3) == 0);
    assert!(rt; ckd_c_add_memory(alloc, &mut two, 4, 3380, 1) == 22);
    assert!(rt; ckd_c_suspend(alloc, &mut two, 1) == 0);
    assert!(rt; ckd_c_resume(alloc, &mut two, 1) == 0);
    assert!(rt; ckd_c_lose_side(alloc, &mut two, 1, 2) == 6);
    assert!(rt; ckd_c_lose_side(alloc, &mut two, 1, 1) == 0);
    assert!(rt; ckd_c_replace_memory(alloc, &mut two, 1, 1) == 0);
    let mut did = 9;
    assert!(rt; ckd_c_background(alloc, &mut two, 1, &mut did) == 0 && did == 2);
    assert!(rt; ckd_c_part_memory(alloc, &mut two, 1) == 0);
    assert!(rt; ckd_c_part_memory(alloc, &mut two, 1) == 29);
    assert!(rt; ckd_c_repair_cache(alloc, &mut two) == 32);
    assert!(rt; ckd_c_lose_cache(alloc, &mut two) == 0);
    assert!(rt; ckd_c_repair_cache(alloc, &mut two) == 0);
    assert!(rt; ckd_c_lose_store(alloc, &mut two) == 0);
    assert!(rt; ckd_c_repair_store(alloc, &mut two) == 0);
    assert!(rt; ckd_c_reset(alloc, &mut two, 1, 5) == 5);
    assert!(rt; ckd_c_reset(alloc, &mut two, 1, 1) == 0);
    assert!(rt; ckd_c_lose_power(alloc, &mut two) == 0);
    assert!(rt; ckd_c_step(alloc, &mut two, 1) == 17);
    assert!(rt; ckd_c_close(alloc, &mut two) == 0);
    Ok(())
}

/// The first read of the volume fails, and the second doesn't.
#[test]
fn a_listed_read_fails(rt: HostRuntime) -> Result<(), Fail> {
    let alloc = rt.alloc();
    let mut three = CkdSubsystem::closed(alloc);
    assert!(rt; ckd_c_open(alloc, &mut three, 1, 1) == 0);
    assert!(rt; ckd_c_add_faulty(alloc, &mut three, 0, 3390, 1, &[1], &[]) == 0);
    let mut end = CkdEnd::NONE;
    assert!(rt; plan_and_run(alloc, &mut three, 0, FIRST, word(0x06, 0, 8, &[])) == 0);
    assert!(rt; ckd_c_last_end(alloc, &mut three, 0, &mut end) == 0 && end.status == 0x0e);
    assert!(rt; plan_and_run(alloc, &mut three, 0, FIRST, word(0x06, 0, 8, &[])) == 0);
    assert!(rt; ckd_c_last_end(alloc, &mut three, 0, &mut end) == 0 && end.status == 0x0c);
    assert!(rt; ckd_c_close(alloc, &mut three) == 0);
    Ok(())
}
