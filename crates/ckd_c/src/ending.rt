ghost use Rattle.std.specs.Prelude.{◌≡◌, length};
ghost use Rattle.ckd_c.specs.Calls.{AtDevice, Comes, CopiesFront, Reads, TellsCounts, TellsLast, Tries, TriesTo, end_told, flag_of, note_number, sense_of};

use crate::code::{Code, number_of};
use crate::finding::code_told;
use crate::handle::{CkdSubsystem, put, take};
use crate::opened::Opened;
use crate::volume::HostVolume;
use ckd_types::{CommandEnd, Note, Sense};
use device_core::Device;
use std::alloc::Global;

/// How a command ended.
#[repr(C)]
#[derive(Drop)]
pub struct CkdEnd {
    pub sent: usize,
    pub index: u16,
    pub residual: u16,
    pub status: u8,
    pub note: u8,
    pub over: u8,
    pub has_sense: u8,
    pub sense: [u8; 32],
}

/// Counts of a device.
#[repr(C)]
#[derive(Drop)]
pub struct CkdCounts {
    pub reads: u64,
    pub writes: u64,
    pub lost: usize,
    pub waiting: u16,
    pub patched: u16,
    pub framed: u16,
    pub cylinders: u16,
}

#[cfg(test)]
impl CkdEnd {
    pub(crate) const NONE: CkdEnd = CkdEnd {
        sent: 0,
        index: 0,
        residual: 0,
        status: 0,
        note: 0,
        over: 0,
        has_sense: 0,
        sense: [0; 32],
    };
}

#[cfg(test)]
impl CkdCounts {
    pub(crate) const NONE: CkdCounts = CkdCounts {
        reads: 0,
        writes: 0,
        lost: 0,
        waiting: 0,
        patched: 0,
        framed: 0,
        cylinders: 0,
    };
}

fn note_number(note: Note) -> u8
    ensures { result ≡ note_number note }
{
    match note {
        Note::Plain => 0,
        Note::IncorrectLength => 1,
        Note::Limit => 2,
    }
}

fn sense_of(sense: &Option<Sense>) -> [u8; 32]
    ensures { result ≡ sense_of sense.now }
{
    match sense {
        Some(sense) => *sense.bytes(),
        None => [0; 32],
    }
}

fn flag_of(is: bool) -> u8
    ensures { result ≡ flag_of is }
{
    if is { 1 } else { 0 }
}

fn end_told(end: &CommandEnd) -> CkdEnd
    ensures { result ≡ end_told end.now }
{
    CkdEnd {
        sent: end.sent.len(),
        index: end.index,
        residual: end.residual,
        status: end.status.0,
        note: note_number(end.note),
        over: flag_of(end.over),
        has_sense: flag_of(end.sense.is_some()),
        sense: sense_of(&end.sense),
    }
}

fn counts_of(device: &Device<HostVolume>) -> CkdCounts
    ensures { TellsCounts result device.now }
{
    CkdCounts {
        reads: device.reads(),
        writes: device.writes(),
        lost: device.lost().len(),
        waiting: device.waiting_count(),
        patched: device.patched_count(),
        framed: device.framed_count(),
        cylinders: device.cylinders(),
    }
}

/// Copies the front of bytes that has room, and answers how many.
fn copy_front(bytes: &[u8], into: &mut [u8]) -> usize
    ensures front { CopiesFront bytes.now result into.old into.new }
    ensures size { length into.new ≡ length into.old }
{
    let count = bytes.len().min(into.len());
    into[..count].copy_from_slice(&bytes[..count]);
    count
}

impl Opened {
    #[tactic(auto, using(crate::proofs::Telling::of_missing))]
    fn tell_end(&self, device: u8, end: &mut CkdEnd) -> Code
        ensures { TellsLast device (λ e. end.new ≡ end_told e) result self.now self.now }
    {
        let number = match self.find(device) {
            Ok(number) => number,
            Err(code) => return code,
        };
        match self.subsystem.device(number).last_end() {
            Some(last) => {
                *end = end_told(last);
                Code::Done
            }
            None => Code::NoEnd,
        }
    }

    #[tactic(auto, using(crate::proofs::Telling::of_missing))]
    fn copy_data(&self, device: u8, into: &mut [u8], count: &mut usize) -> Code
        ensures sent { TellsLast device (λ e. CopiesFront e.sent count.new into.old into.new) result self.now self.now }
        ensures size { length into.new ≡ length into.old }
    {
        let number = match self.find(device) {
            Ok(number) => number,
            Err(code) => return code,
        };
        match self.subsystem.device(number).last_end() {
            Some(last) => {
                *count = copy_front(last.sent.as_slice(), into);
                Code::Done
            }
            None => Code::NoEnd,
        }
    }

    #[tactic(auto, using(crate::proofs::Refusing::same))]
    fn tell_counts(&self, device: u8, counts: &mut CkdCounts) -> Result<(), Code>
        ensures { TriesTo (Reads (AtDevice device (TellsCounts counts.new))) result self.now self.now }
    {
        let number = self.find(device)?;
        *counts = counts_of(self.subsystem.device(number));
        Ok(())
    }
}

/// Tells how the command of a device that ended last ended.
#[unsafe(no_mangle)]
pub extern "C" fn ckd_c_last_end(
    alloc: Global,
    subsystem: &mut CkdSubsystem,
    device: u8,
    end: &mut CkdEnd,
) -> u32
    ensures { Comes (TellsLast device (λ e. end.new ≡ end_told e)) subsystem.old.place.value subsystem.new.place.value result }
{
    let Some(opened) = take(subsystem, alloc) else {
        return number_of(Code::Closed);
    };
    let code = opened.tell_end(device, end);
    put(subsystem, opened);
    number_of(code)
}

/// Copies the data that the command of a device that ended last sent, as many as there is room for, and tells how many.
#[unsafe(no_mangle)]
pub extern "C" fn ckd_c_last_data(
    alloc: Global,
    subsystem: &mut CkdSubsystem,
    device: u8,
    into: &mut [u8],
    count: &mut usize,
) -> u32
    ensures sent { Comes (TellsLast device (λ e. CopiesFront e.sent count.new into.old into.new)) subsystem.old.place.value subsystem.new.place.value result }
    ensures size { length into.new ≡ length into.old }
{
    let Some(opened) = take(subsystem, alloc) else {
        return number_of(Code::Closed);
    };
    let code = opened.copy_data(device, into, count);
    put(subsystem, opened);
    number_of(code)
}

/// Tells the counts of a device: its reads and writes of its volumes, how many tracks are lost, wait for the background, have patches
/// in the store, and have frames of the cache, and its cylinders.
#[unsafe(no_mangle)]
pub extern "C" fn ckd_c_counts(
    alloc: Global,
    subsystem: &mut CkdSubsystem,
    device: u8,
    counts: &mut CkdCounts,
) -> u32
    ensures { Comes (Tries (Reads (AtDevice device (TellsCounts counts.new)))) subsystem.old.place.value subsystem.new.place.value result }
{
    let Some(opened) = take(subsystem, alloc) else {
        return number_of(Code::Closed);
    };
    let code = code_told(opened.tell_counts(device, counts));
    put(subsystem, opened);
    number_of(code)
}
